//! Entries by intervals and by crontabs, and what comes due at which moment.
use beat_times::{Timed, Timing, due, tick};
use crontabs::Crontab;
use std::alloc::{AllocError, Global};
use std::test::Fail;

/// An entry each 30 seconds, one each hour, and one at each minute, all from second 100 on.
fn entries(alloc: Global) -> Result<Option<Vec<Timed>>, AllocError> {
    let Some(crontab) = Crontab::read(alloc, "*", "*", "*", "*", "*")? else {
        return Ok(None);
    };
    let mut entries = Vec::new(alloc);
    entries.push(Timed {
        timing: Timing::Every(30),
        last: 100,
    })?;
    entries.push(Timed {
        timing: Timing::Every(3600),
        last: 100,
    })?;
    entries.push(Timed {
        timing: Timing::Cron(Box::new(alloc, crontab)?),
        last: 100,
    })?;
    Ok(Some(entries))
}

/// Rows of a moment and the indices that are due; after each there is a tick.
fn rows() -> &'static [(u64, &'static [u64])] {
    &[
        (119, &[]),
        (129, &[2]),
        (130, &[0]),
        (159, &[]),
        (160, &[0]),
        (240, &[0, 2]),
        (3700, &[0, 1, 2]),
        (3700, &[]),
    ]
}

#[test]
fn entries_are_due_as_listed(rt: HostRuntime) -> Result<(), Fail> {
    let mut entries = entries(rt.alloc())?.ok_or("no crontab")?;
    for (now, indices) in rows() {
        let found = due(rt.alloc(), entries.as_slice(), *now)?;
        assert!(rt; found.as_slice() == *indices, "at {now}");
        tick(entries.as_mut_slice(), *now);
    }
    Ok(())
}
