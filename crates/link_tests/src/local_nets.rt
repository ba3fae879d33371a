//! A net over two stores, which fails at one connect.
use crate::asked::ask;
use crate::compared::same;
use link_desk::LinkDesk;
use local_links::LocalNet;
use mini_store::Store;
use net_links::Net;
use std::alloc::{AllocError, Global};
use std::test::Fail;

/// Connects, and asks two commands over the link where there is one.
fn visit(alloc: Global, net: &mut LocalNet, out: &mut Vec<u8>) -> Result<(), AllocError> {
    let Ok(link) = net.connect(alloc, "here") else {
        return out.extend_from_slice(b"(none)");
    };
    let mut desk = LinkDesk::new(alloc, link);
    ask(alloc, &mut desk, "LPUSH q a", out)?;
    ask(alloc, &mut desk, "LLEN q", out)?;
    net.close(desk.into_link());
    Ok(())
}

/// What three visits over a net of two stores are answered, which fails at this connect; then how long the closed links'
/// exchanges are.
fn visited(alloc: Global, failing: u64) -> Result<Vec<u8>, AllocError> {
    let stores = vec![in alloc; Store::new(alloc), Store::new(alloc)]?;
    let mut net = LocalNet::new(alloc, stores, vec![in alloc; failing]?);
    let mut out = Vec::new(alloc);
    if net.listen(alloc, "here").is_err() && net.accept(alloc).is_err() {
        out.extend_from_slice(b"(deaf)")?;
    }
    for _ in 0..3 {
        visit(alloc, &mut net, &mut out)?;
    }
    for link in net.closed() {
        let sent = link.sent().len();
        let received = link.received().len();
        out.extend_from_slice(format!(in alloc; " {sent}:{received}")?.as_bytes())?;
    }
    Ok(out)
}

#[test]
fn a_net_gives_each_store_once(rt: HostRuntime) -> Result<(), Fail> {
    let alloc = rt.alloc();
    let both = b"(deaf):1\r\n:1\r\n:1\r\n:1\r\n(none) 50:8 50:8".as_slice();
    same(
        &rt,
        "0",
        visited(alloc, 0)?.as_slice(),
        b"(deaf)(none):1\r\n:1\r\n(none) 50:8".as_slice(),
    );
    same(
        &rt,
        "1",
        visited(alloc, 1)?.as_slice(),
        b"(deaf):1\r\n:1\r\n(none)(none) 50:8".as_slice(),
    );
    same(&rt, "2", visited(alloc, 2)?.as_slice(), both);
    same(&rt, "3", visited(alloc, 3)?.as_slice(), both);
    Ok(())
}
