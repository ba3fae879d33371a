//! A link that fails at one call.
use crate::asked::ask;
use crate::compared::same;
use link_desk::LinkDesk;
use net_links::MemoryLink;
use std::alloc::{AllocError, Global};
use std::test::Fail;
use wire_values::Bytes;

/// The bytes of the command.
const COMMAND: &[u8] = b"*3\r\n$5\r\nLPUSH\r\n$1\r\nk\r\n$1\r\nv\r\n";

/// What a desk answers to two commands over a link that gives and takes single bytes and fails at this call, then `|`, then
/// what its link sent.
fn played(alloc: Global, failing: u64) -> Result<Vec<u8>, AllocError> {
    let incoming = Bytes::from_slice(alloc, b":1\r\n")?;
    let fails = vec![in alloc; failing]?;
    let mut desk = LinkDesk::new(alloc, MemoryLink::new(incoming, 1, fails));
    let mut out = Vec::new(alloc);
    ask(alloc, &mut desk, "LPUSH k v", &mut out)?;
    if failing < 100 {
        ask(alloc, &mut desk, "LPUSH k v", &mut out)?;
    }
    out.push(b'|')?;
    let link = desk.into_link();
    out.extend_from_slice(link.sent())?;
    Ok(out)
}

/// What it is to answer: at each call that is needed for the first command a fault, and then nothing more.
fn wanted(alloc: Global, failing: u64) -> Result<Vec<u8>, AllocError> {
    let answers: &[u8] = if failing < 100 {
        b"(link)(ended)|"
    } else {
        b":1\r\n|"
    };
    let mut out = Vec::from_slice(alloc, answers)?;
    let count = COMMAND.len().min(failing as usize);
    out.extend_from_slice(&COMMAND[..count])?;
    Ok(out)
}

#[test]
fn nothing_is_sent_after_a_link_failed(rt: HostRuntime) -> Result<(), Fail> {
    let alloc = rt.alloc();
    // the command's bytes go out one by one, and four bytes come in
    for failing in 0..(COMMAND.len() as u64 + 4) {
        let got = played(alloc, failing)?;
        let want = wanted(alloc, failing)?;
        same(&rt, "call", got.as_slice(), want.as_slice());
    }
    let got = played(alloc, 100)?;
    let want = wanted(alloc, 100)?;
    same(&rt, "no call", got.as_slice(), want.as_slice());
    Ok(())
}
