//! Beat files: what of them is due at which moment, and their first bad lines.
use beat_files::Schedule;
use line_text::{BadLine, Reason, TextFault};
use std::test::Fail;

/// Two entries by intervals and one by a crontab.
const FILE: &str =
    "celery-beat 1\nevery 30 a celery tasks.add [1,2]\ncron */15 * * * * b celery tasks.add [1,2]\nevery 60 c other tasks.echo [ \"x\" ]";

/// Rows of a moment and the indices that are due; after each there is a tick. The file was read at 100.
fn due_rows() -> &'static [(u64, &'static [u64])] {
    &[
        (129, &[]),
        (130, &[0]),
        (159, &[]),
        (160, &[0, 2]),
        (160, &[]),
        (899, &[0, 2]),
        (900, &[1]),
        (1800, &[0, 1, 2]),
    ]
}

#[test]
fn a_file_comes_due_as_listed(rt: HostRuntime) -> Result<(), Fail> {
    let mut schedule = Schedule::read(rt.alloc(), FILE.as_bytes(), 100)?;
    for (now, indices) in due_rows() {
        let found = schedule.due(rt.alloc(), *now)?;
        assert!(rt; found.as_slice() == *indices, "at {now}");
        schedule.tick(*now);
    }
    Ok(())
}

#[test]
fn a_minute_is_sent_once(rt: HostRuntime) -> Result<(), Fail> {
    let text = b"celery-beat 1\ncron */15 * * * * b celery tasks.add [1,2]\n";
    let mut schedule = Schedule::read(rt.alloc(), text.as_slice(), 1714564800)?;
    assert!(rt;
        schedule.due(rt.alloc(), 1714565699)?.as_slice().is_empty(),
        "before"
    );
    assert!(rt;
        schedule.due(rt.alloc(), 1714565700)?.as_slice() == [0].as_slice(),
        "then"
    );
    schedule.tick(1714565700);
    assert!(rt;
        schedule.due(rt.alloc(), 1714565700)?.as_slice().is_empty(),
        "once"
    );
    assert!(rt;
        schedule.due(rt.alloc(), 1714567620)?.as_slice() == [0].as_slice(),
        "once for two"
    );
    schedule.tick(1714567620);
    assert!(rt;
        schedule.due(rt.alloc(), 1714567620)?.as_slice().is_empty(),
        "and no more"
    );
    Ok(())
}

#[test]
fn tasks_stand_in_the_order_of_the_file(rt: HostRuntime) -> Result<(), Fail> {
    let schedule = Schedule::read(rt.alloc(), FILE.as_bytes(), 0)?;
    let first = schedule.task(0).ok_or("no first")?;
    assert!(rt; first.name.as_slice() == b"a".as_slice(), "its name");
    assert!(rt;
        first.task.as_slice() == b"tasks.add".as_slice(),
        "its task"
    );
    let third = schedule.task(2).ok_or("no third")?;
    assert!(rt; third.name.as_slice() == b"c".as_slice(), "its name");
    assert!(rt; third.queue.bytes() == b"other".as_slice(), "its queue");
    assert!(rt; schedule.task(3).is_none(), "the last one was it");
    Ok(())
}

/// Rows of what follows the header, and the first bad line with its reason; none where the file is good.
fn bad_rows() -> &'static [(&'static str, Option<(u64, Reason)>)] {
    &[
        ("", None),
        ("every 4294967295 a q t []", None),
        ("cron 0,15,30-45/5 */2 1-31 1,12 0-6/3 a q t []", None),
        (
            "every 1 a q t [{\"k\":[1,\"x\"]}]\nevery 0 a q t []",
            Some((3, Reason::Syntax)),
        ),
        ("every 4294967296 a q t []", Some((2, Reason::Syntax))),
        ("every 01 a q t []", Some((2, Reason::Syntax))),
        ("every 1 a q t", Some((2, Reason::Syntax))),
        ("every 1 a q t ", Some((2, Reason::Json))),
        ("every 1  q t []", Some((2, Reason::Syntax))),
        ("sometimes 1 a q t []", Some((2, Reason::Syntax))),
        ("cron * * * * a q t []", Some((2, Reason::Syntax))),
        ("cron * * * *  a q t []", Some((2, Reason::Syntax))),
        ("\n", Some((2, Reason::Syntax))),
        ("every 1 a unacked t []", Some((2, Reason::Reserved))),
        ("every 1 a q t {}", Some((2, Reason::Json))),
        ("every 1 a q t [1.5]", Some((2, Reason::Json))),
        ("cron 60 * * * * a q t []", Some((2, Reason::Cron))),
        ("cron * 24 * * * a q t []", Some((2, Reason::Cron))),
        ("cron * * 0 * * a q t []", Some((2, Reason::Cron))),
        ("cron * * * 13 * a q t []", Some((2, Reason::Cron))),
        ("cron * * * * 7 a q t []", Some((2, Reason::Cron))),
        ("cron 5-3 * * * * a q t []", Some((2, Reason::Cron))),
        ("cron */0 * * * * a q t []", Some((2, Reason::Cron))),
        (
            "cron 60 * * * * a unacked t []",
            Some((2, Reason::Reserved)),
        ),
        ("cron 60 * * * * a q t {}", Some((2, Reason::Json))),
        (
            "every 1 a q t []\ncron 1, * * * * a q t []\nevery 0",
            Some((3, Reason::Cron)),
        ),
    ]
}

#[test]
fn bad_lines_are_told_by_number_and_reason(rt: HostRuntime) -> Result<(), Fail> {
    for (rest, wanted) in bad_rows() {
        let text = format!(in rt.alloc(); "celery-beat 1\n{rest}")?;
        let told = match Schedule::read(rt.alloc(), text.as_bytes(), 0) {
            Ok(_) => None,
            Err(TextFault::Bad(BadLine { line, reason })) => Some((line, reason)),
            Err(TextFault::Memory) => return Err(Fail::from("no memory")),
        };
        assert!(rt; told == *wanted, "{rest}");
    }
    Ok(())
}

/// Rows of whole files, and why their first line is bad.
fn headers() -> &'static [(&'static [u8], Reason)] {
    &[
        (b"", Reason::Header),
        (b"celery-beat 2\n", Reason::Header),
        (b"celery-beat 1 \n", Reason::Header),
        (b"every 1 a q t []\n", Reason::Header),
        (b"celery-beat \xff\n", Reason::Text),
    ]
}

#[test]
fn the_first_line_is_the_header(rt: HostRuntime) -> Result<(), Fail> {
    for (text, reason) in headers() {
        let told = match Schedule::read(rt.alloc(), text, 0) {
            Err(TextFault::Bad(bad)) => bad.line == 1 && bad.reason == *reason,
            Ok(_) | Err(TextFault::Memory) => false,
        };
        assert!(rt; told, "{reason:?}");
    }
    Ok(())
}
