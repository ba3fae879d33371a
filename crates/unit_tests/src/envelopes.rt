//! What envelopes, tags and entries tell, and what is written of them.
//!
//! The rows stand behind functions without clauses, so that no proof has to read them.
ghost use Rattle.std.specs.Prelude.{◌≡◌, [], IfOk, IsUtf8};

use crate::compared::same;
use crate::samples::{content, edited, marked, repeated, usual, written};
use envelope::{
    Envelope, EnvelopeFault, Field, Seed, Tag, UnackedEntry, of_tree, read, read_entry,
    redelivered, write, write_entry,
};
use sealed_drafts::{Draft, seal};
use serde_json::Value;
use std::alloc::{AllocError, Global};
use std::process::Abort;
use std::test::Fail;
use wire_values::Bytes;

/// Asserts what the usual envelope tells.
fn expect_usual<R: Abort>(rt: &R, e: &Envelope) {
    same(rt, "tag", e.tag(), Tag::of(7, 1));
    same(rt, "content", e.content(), content().as_bytes());
    same(rt, "length", e.content().len(), 81);
    same(rt, "exchange", e.exchange(), b"".as_slice());
    same(rt, "routing key", e.routing_key(), b"celery".as_slice());
    same(rt, "priority", e.priority(), 0);
    same(rt, "mark", e.marked(), false);
}

/// Asserts what is written of an envelope.
fn expect_written<R: Abort>(
    rt: &R,
    alloc: Global,
    e: &Envelope,
    want: &str,
) -> Result<(), AllocError> {
    let bytes = write(alloc, e)?;
    same(rt, "written", bytes.as_slice(), want.as_bytes());
    same(rt, "size", e.size(), want.len() as u64);
    Ok(())
}

/// Asserts what a text's envelope tells, and what is written of it.
fn expect_both<R: Abort>(
    rt: &R,
    alloc: Global,
    text: &str,
    want: &str,
) -> Result<(), EnvelopeFault> {
    let e = read(alloc, text.as_bytes())?;
    expect_usual(rt, &e);
    Ok(expect_written(rt, alloc, &e, want)?)
}

/// The usual envelope of older clients, which don't write the last three headers.
fn older(alloc: Global) -> Result<String, AllocError> {
    let last = r#", "replaced_task_nesting": 0, "stamped_headers": null, "stamps": {}"#;
    edited(alloc, usual(), last, "")
}

/// The same, compact and with its members in order.
fn older_written(alloc: Global) -> Result<String, AllocError> {
    let text = edited(alloc, written(), r#""replaced_task_nesting":0,"#, "")?;
    edited(
        alloc,
        text.as_str(),
        r#""stamped_headers":null,"stamps":{},"#,
        "",
    )
}

/// Asserts the same of the envelope of older clients.
fn expect_older<R: Abort>(rt: &R, alloc: Global) -> Result<(), EnvelopeFault> {
    let text = older(alloc)?;
    let want = older_written(alloc)?;
    expect_both(rt, alloc, text.as_str(), want.as_str())
}

#[test]
fn usual_envelope_is_read_and_written(rt: HostRuntime) -> Result<(), Fail> {
    expect_both(&rt, rt.alloc(), usual(), written())?;
    Ok(expect_older(&rt, rt.alloc())?)
}

/// Priorities as they are written, and as they are held.
fn priorities() -> &'static [(&'static str, u8)] {
    &[
        (r#""p": 4"#, 0),
        (r#""priority": null"#, 0),
        (r#""priority": 4"#, 4),
        (r#""priority": 9"#, 9),
        (r#""priority": 12"#, 9),
        (r#""priority": 18446744073709551615"#, 9),
        (r#""priority": -3"#, 0),
        (r#""priority": "5""#, 0),
    ]
}

/// The priority of the usual envelope after an edit.
fn priority_after(alloc: Global, member: &str) -> Result<u8, EnvelopeFault> {
    let text = edited(alloc, usual(), "\"priority\": 0", member)?;
    Ok(read(alloc, text.as_bytes())?.priority())
}

#[test]
fn priorities_are_held(rt: HostRuntime) -> Result<(), Fail> {
    for (member, want) in priorities() {
        same(&rt, member, priority_after(rt.alloc(), member)?, *want);
    }
    Ok(())
}

#[test]
fn tags_are_drawn_in_order(rt: HostRuntime) {
    let tag = Tag::of(0x0011223344556677, 0x8899aabbccddeeff);
    let text = b"00112233-4455-6677-8899-aabbccddeeff";
    same(&rt, "text", tag.text().as_slice(), text.as_slice());
    same(&rt, "read", Tag::read(text), Some(tag));
    same(&rt, "seed", tag.seed(), 0x0011223344556677);
    same(&rt, "counter", tag.counter(), 0x8899aabbccddeeff);
    let mut seed = Seed::new(7);
    same(&rt, "next", seed.next(), Some(Tag::of(7, 1)));
    same(&rt, "first", seed.draw(), Some(Tag::of(7, 1)));
    same(&rt, "second", seed.draw(), Some(Tag::of(7, 2)));
}

/// A text's envelope, delivered again.
fn again(alloc: Global, text: &str) -> Result<Envelope, EnvelopeFault> {
    let e = read(alloc, text.as_bytes())?;
    Ok(redelivered(alloc, &e)?)
}

/// Asserts what is written of a text's envelope that is delivered again.
fn expect_marked<R: Abort>(rt: &R, alloc: Global, text: &str) -> Result<(), EnvelopeFault> {
    let e = again(alloc, text)?;
    same(rt, "mark", e.marked(), true);
    same(rt, "tag", e.tag(), Tag::of(7, 1));
    let bytes = write(alloc, &e)?;
    same(rt, "marked", bytes.as_slice(), marked().as_bytes());
    Ok(())
}

/// Whether a marked envelope is marked after an edit.
fn marked_after(alloc: Global, old: &str, new: &str) -> Result<bool, EnvelopeFault> {
    let half = edited(alloc, marked(), old, new)?;
    Ok(read(alloc, half.as_bytes())?.marked())
}

/// Edits that leave one mark alone.
fn half_marks() -> &'static [(&'static str, &'static str)] {
    &[
        (r#""redelivered":true,"rep"#, r#""rep"#),
        (r#""redelivered":true,"rou"#, r#""rou"#),
        (r#"true,"rou"#, r#"1,"rou"#),
    ]
}

#[test]
fn marks_are_two(rt: HostRuntime) -> Result<(), Fail> {
    expect_marked(&rt, rt.alloc(), usual())?;
    expect_marked(&rt, rt.alloc(), marked())?;
    for (old, new) in half_marks() {
        same(&rt, new, marked_after(rt.alloc(), old, new)?, false);
    }
    Ok(())
}

/// The entry of the usual envelope.
fn usual_entry(alloc: Global) -> Result<Bytes, EnvelopeFault> {
    let e = read(alloc, usual().as_bytes())?;
    Ok(write_entry(alloc, &e)?)
}

/// The text of that entry.
fn entry_text(alloc: Global) -> Result<String, AllocError> {
    let text = written();
    format!(in alloc; "[{text},\"\",\"celery\"]")
}

/// Asserts what the entry of the usual envelope tells.
fn expect_entry<R: Abort>(rt: &R, entry: &UnackedEntry) {
    same(rt, "tag", entry.envelope.tag(), Tag::of(7, 1));
    same(rt, "exchange", entry.exchange.as_slice(), b"".as_slice());
    same(
        rt,
        "routing key",
        entry.routing_key.as_slice(),
        b"celery".as_slice(),
    );
}

#[test]
fn entries_are_read_and_written(rt: HostRuntime) -> Result<(), Fail> {
    let bytes = usual_entry(rt.alloc())?;
    let want = entry_text(rt.alloc())?;
    same(&rt, "entry", bytes.as_slice(), want.as_bytes());
    expect_entry(&rt, &read_entry(rt.alloc(), bytes.as_slice())?);
    Ok(())
}

/// A draft of this routing key with these headers and this content.
fn draft(
    alloc: Global,
    headers: Value,
    content: &[u8],
    exchange: &str,
    routing_key: &str,
) -> Result<Draft, AllocError>
    ensures id { IfOk result (λ d. IsUtf8 d.id) }
    ensures exchange { IfOk result (λ d. IsUtf8 d.exchange) }
    ensures routing_key { IfOk result (λ d. IsUtf8 d.routing_key) }
{
    Ok(Draft {
        content: Bytes::from_slice(alloc, content)?,
        headers,
        id: Bytes::from_slice(alloc, "c1".as_bytes())?,
        exchange: Bytes::from_slice(alloc, exchange.as_bytes())?,
        routing_key: Bytes::from_slice(alloc, routing_key.as_bytes())?,
        priority: -3,
    })
}

/// What is written of a sealed draft with these headers, this content and these names, or its fault.
fn sealed(
    alloc: Global,
    headers: &str,
    content: &[u8],
    exchange: &str,
    routing_key: &str,
) -> Result<Bytes, EnvelopeFault> {
    let Ok(headers) = Value::from_slice(alloc, headers.as_bytes()) else {
        return Err(EnvelopeFault::NotJson);
    };
    let draft = draft(alloc, headers, content, exchange, routing_key)?;
    let e = seal(alloc, &draft, Tag::of(7, 1))?;
    Ok(write(alloc, &e)?)
}

/// What is written of the first draft.
fn first_sealed() -> &'static str {
    r#"{"body":"W1syLDNdLHt9LHt9XQ==","content-encoding":"utf-8","content-type":"application/json","headers":{"id":"c1","task":"tasks.add"},"properties":{"body_encoding":"base64","correlation_id":"c1","delivery_info":{"exchange":"","routing_key":"celery"},"delivery_mode":2,"delivery_tag":"00000000-0000-0007-0000-000000000001","priority":-3,"reply_to":""}}"#
}

/// Headers and contents that can't be sealed.
fn unsealed() -> &'static [(&'static str, &'static [u8], EnvelopeFault)] {
    &[
        (
            "[[[[[[[[[[[[[[[[[[[[[[[[[[[[[[[[[[[[[[[[[[[[[[[[[[[[[[[[[[[[[[[[[[[[[[[[[[[[[[[[[[[[[[[[[[[[[[[[[[[[]]]]]]]]]]]]]]]]]]]]]]]]]]]]]]]]]]]]]]]]]]]]]]]]]]]]]]]]]]]]]]]]]]]]]]]]]]]]]]]]]]]]]]]]]]]]]]]]]]]]",
            b"",
            EnvelopeFault::TooDeep,
        ),
        ("[1.5]", b"", EnvelopeFault::Float),
        ("[]", b"", EnvelopeFault::Missing(Field::Headers)),
        (
            r#"{"compression":"zlib"}"#,
            b"\xff",
            EnvelopeFault::Compressed,
        ),
        (r#"{"compression":null}"#, b"\xff", EnvelopeFault::BadBody),
    ]
}

/// The fault of sealing these headers and this content.
fn seal_fault(alloc: Global, headers: &str, content: &[u8]) -> Option<EnvelopeFault> {
    match sealed(alloc, headers, content, "", "celery") {
        Ok(_) => None,
        Err(fault) => Some(fault),
    }
}

/// The fault of sealing an exchange and a routing key of these lengths.
fn name_fault(
    alloc: Global,
    exchange: usize,
    routing_key: usize,
) -> Result<Option<EnvelopeFault>, AllocError> {
    let exchange = repeated(alloc, "a", exchange, "")?;
    let routing_key = repeated(alloc, "a", routing_key, "")?;
    match sealed(alloc, "{}", b"", exchange.as_str(), routing_key.as_str()) {
        Ok(_) => Ok(None),
        Err(fault) => Ok(Some(fault)),
    }
}

/// Asserts that a draft is sealed as it is written.
fn expect_sealed<R: Abort>(rt: &R, alloc: Global) -> Result<(), EnvelopeFault> {
    let headers = r#"{"task": "tasks.add", "id": "c1"}"#;
    let first = sealed(alloc, headers, b"[[2,3],{},{}]", "", "celery")?;
    same(rt, "sealed", first.as_slice(), first_sealed().as_bytes());
    Ok(())
}

/// The tag of the usual envelope, which is read from its tree.
fn tag_of_tree(alloc: Global) -> Result<Tag, Fail> {
    let tree = Value::from_slice(alloc, usual().as_bytes())?;
    Ok(of_tree(alloc, tree)?.tag())
}

#[test]
fn drafts_are_sealed(rt: HostRuntime) -> Result<(), Fail> {
    expect_sealed(&rt, rt.alloc())?;
    for (headers, content, fault) in unsealed() {
        same(
            &rt,
            headers,
            seal_fault(rt.alloc(), headers, content),
            Some(*fault),
        );
    }
    for (exchange, routing_key, fault) in [
        (255, 255, None),
        (256, 6, Some(EnvelopeFault::TooLong)),
        (0, 256, Some(EnvelopeFault::TooLong)),
    ] {
        same(
            &rt,
            "names",
            name_fault(rt.alloc(), exchange, routing_key)?,
            fault,
        );
    }
    same(&rt, "tree", tag_of_tree(rt.alloc())?, Tag::of(7, 1));
    Ok(())
}
