//! Scripts over a link that has an empty store behind it.
use crate::compared::same;
use crate::played::over;
use local_links::LocalNet;
use mini_store::Store;
use std::alloc::{AllocError, Global};
use std::test::Fail;

/// A script, how its run ends, and what the store answered.
type Row = (&'static str, &'static str, &'static [u8]);

fn rows() -> [Row; 6] {
    [
        (
            "celery-publish 1\npublish - celery 0 tasks.add [2,3]\n",
            "0 at 0: published 7:1\n",
            b":1\r\n",
        ),
        // tags are numbered by publish lines, and a declaration isn't told
        (
            "celery-publish 1\npublish - a 0 t []\ndeclare ex rk - a\npublish ex rk 9 t [\"x\"]\npublish ex other 0 t []\n",
            "0 at 0: published 7:1\npublished 7:2\nno queue 7:3\n",
            b":1\r\n:1\r\n*1\r\n$7\r\nrk\x06\x16\x06\x16a\r\n:1\r\n*1\r\n$7\r\nrk\x06\x16\x06\x16a\r\n",
        ),
        // two queues of one publication
        (
            "celery-publish 1\ndeclare ex rk - a\ndeclare ex rk - b\npublish ex rk 0 t []\n",
            "0 at 0: published 7:1\n",
            b":1\r\n:1\r\n*2\r\n$7\r\nrk\x06\x16\x06\x16a\r\n$7\r\nrk\x06\x16\x06\x16b\r\n:1\r\n:1\r\n",
        ),
        // moments of the next publish line, the last of each kind
        (
            "celery-publish 1\neta 2024-05-01T12:00:00Z\nexpires 2024-05-01T13:00:00.5+02:00\npublish - a 0 t []\npublish - a 0 t []\n",
            "0 at 0: published 7:1\npublished 7:2\n",
            b":1\r\n:2\r\n",
        ),
        (
            "celery-publish 1\neta 2024-05-01T12:00:00Z\neta 2024-05-02T12:00:00Z\n",
            "0 at 0: ",
            b"",
        ),
        (
            "celery-publish 1\npublish ex rk 0 t []\n",
            "0 at 0: no queue 7:1\n",
            b"*0\r\n",
        ),
    ]
}

/// How the run of a script ends, then `|`, and what came over its link.
fn played(alloc: Global, script: &str) -> Result<Vec<u8>, AllocError> {
    let stores = vec![in alloc; Store::new(alloc)]?;
    let mut net = LocalNet::new(alloc, stores, Vec::new(alloc));
    let mut out = over(alloc, &mut net, script)?;
    for link in net.closed() {
        out.push(b'|')?;
        out.extend_from_slice(link.received())?;
    }
    Ok(out)
}

#[test]
fn a_store_behind_the_link_gets_what_is_published(rt: HostRuntime) -> Result<(), Fail> {
    let alloc = rt.alloc();
    for (script, end, received) in &rows() {
        let got = played(alloc, script)?;
        let mut want = Vec::from_slice(alloc, end.as_bytes())?;
        want.push(b'|')?;
        want.extend_from_slice(received)?;
        same(&rt, script, got.as_slice(), want.as_slice());
    }
    Ok(())
}

/// What two runs over one net end as, of which the second finds no store, or whose connect fails.
fn visited(alloc: Global, failing: u64) -> Result<Vec<u8>, AllocError> {
    let script = "celery-publish 1\npublish - a 0 t []\n";
    let stores = vec![in alloc; Store::new(alloc)]?;
    let mut net = LocalNet::new(alloc, stores, vec![in alloc; failing]?);
    let mut out = over(alloc, &mut net, script)?;
    out.extend_from_slice(over(alloc, &mut net, script)?.as_slice())?;
    Ok(out)
}

#[test]
fn no_link_is_a_link_fault(rt: HostRuntime) -> Result<(), Fail> {
    let alloc = rt.alloc();
    same(
        &rt,
        "connect fails",
        visited(alloc, 0)?.as_slice(),
        b"6 at 0: link fault\n6 at 0: link fault\n".as_slice(),
    );
    same(
        &rt,
        "no store is left",
        visited(alloc, 9)?.as_slice(),
        b"0 at 0: published 7:1\n6 at 0: link fault\n".as_slice(),
    );
    Ok(())
}
