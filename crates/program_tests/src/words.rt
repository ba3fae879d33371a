//! What a report shows of words.
//!
//! The texts stand behind functions without clauses, so that no proof has to read them.
use line_text::short_word;
use replay::Celery;
use std::alloc::{AllocError, Global};
use std::process::Abort;
use std::test::Fail;

/// A message of `tasks.add` as Celery 5 writes it by Kombu's Redis transport.
fn usual() -> &'static str {
    r#"{"body": "W1syLCAyXSwge30sIHsiY2FsbGJhY2tzIjogbnVsbCwgImVycmJhY2tzIjogbnVsbCwgImNoYWluIjogbnVsbCwgImNob3JkIjogbnVsbH1d", "content-encoding": "utf-8", "content-type": "application/json", "headers": {"lang": "py", "task": "tasks.add", "id": "c1", "retries": 0}, "properties": {"correlation_id": "c1", "reply_to": "r1", "delivery_mode": 2, "delivery_info": {"exchange": "", "routing_key": "celery"}, "priority": 0, "body_encoding": "base64", "delivery_tag": "00000000-0000-0007-0000-000000000001"}}"#
}

/// A message that was delivered again.
fn marked() -> &'static str {
    r#"{"body": "W1syLCAyXSwge30sIHsiY2FsbGJhY2tzIjogbnVsbCwgImVycmJhY2tzIjogbnVsbCwgImNoYWluIjogbnVsbCwgImNob3JkIjogbnVsbH1d", "content-encoding": "utf-8", "content-type": "application/json", "headers": {"lang": "py", "task": "tasks.add", "id": "c1", "retries": 0, "redelivered": true}, "properties": {"correlation_id": "c1", "reply_to": "r1", "delivery_mode": 2, "delivery_info": {"exchange": "", "routing_key": "celery", "redelivered": true}, "priority": 0, "body_encoding": "base64", "delivery_tag": "00000000-0000-0008-0000-000000000002"}}"#
}

/// Words with their short forms.
fn plain() -> &'static [(&'static str, &'static str)] {
    &[
        ("00000000-0000-0007-0000-000000000001", "tag(7:1)"),
        (
            "0000000A-0000-0007-0000-000000000001",
            "0000000A-0000-0007-0000-000000000001",
        ),
        ("LPUSH", "LPUSH"),
        ("celery", "celery"),
        ("1700000000", "1700000000"),
        ("", "\"\""),
        ("{}", "\"{}\""),
        ("[]", "\"[]\""),
        (
            "\t[1, \"\", \"celery\"]",
            "\"\\x09[1, \\\"\\\", \\\"celery\\\"]\"",
        ),
    ]
}

/// The short form of a word.
fn shown(alloc: Global, word: &str) -> Result<Vec<u8>, AllocError> {
    let mut out = Vec::new(alloc);
    short_word(alloc, &Celery, &mut out, word.as_bytes())?;
    Ok(out)
}

/// Asserts how a word is shown.
fn expect_shown<R: Abort>(rt: &R, alloc: Global, word: &str, want: &str) -> Result<(), AllocError> {
    let found = shown(alloc, word)?;
    assert!(rt; found.as_slice() == want.as_bytes(), "{want}");
    Ok(())
}

/// Asserts how a word is shown that stands between these texts.
fn expect_within<R: Abort>(
    rt: &R,
    alloc: Global,
    before: &str,
    word: &str,
    after: &str,
    want: &str,
) -> Result<(), AllocError> {
    let text = format!(in alloc; "{before}{word}{after}")?;
    expect_shown(rt, alloc, text.as_str(), want)
}

#[test]
fn words_are_shown(rt: HostRuntime) -> Result<(), Fail> {
    for (word, want) in plain() {
        expect_shown(&rt, rt.alloc(), word, want)?;
    }
    Ok(())
}

#[test]
fn envelopes_and_entries_are_shown(rt: HostRuntime) -> Result<(), Fail> {
    for (before, word, after, want) in [
        ("", usual(), "", "env(7:1)"),
        ("", marked(), "", "env(8:2)*"),
        ("\n ", usual(), " ", "env(7:1)"),
        ("[", usual(), ", \"\", \"celery\"]", "entry(7:1)"),
        (" [", marked(), ", \"\", \"celery\"]", "entry(8:2)*"),
    ] {
        expect_within(&rt, rt.alloc(), before, word, after, want)?;
    }
    Ok(())
}
