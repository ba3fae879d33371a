//! Each fault of an envelope and of an entry, and what is at a limit.
//!
//! The rows stand behind functions without clauses, so that no proof has to read them.
use crate::compared::same;
use crate::samples::{edited, repeated, usual, written};
use envelope::{EnvelopeFault, Field, read, read_entry};
use std::alloc::{AllocError, Global};
use std::process::Abort;
use std::test::Fail;

/// An edit of the usual envelope, and the fault that it makes.
type Case = (&'static str, &'static str, Option<EnvelopeFault>);

/// Each fault in its order, by an edit that leaves room for the others.
fn faults() -> &'static [Case] {
    &[
        (
            r#""priority": 0"#,
            r#""priority": 0 0"#,
            Some(EnvelopeFault::NotJson),
        ),
        (
            r#""lang""#,
            r#""x": [[[[[[[[[[[[[[[[[[[[[[[[[[[[[[[[[[[[[[[[[[[[[[[[[[[[[[[[[[[[[[[[[[[[[[[[[[[[[[[[[[[[[[[[[[[[[[[[[[[]]]]]]]]]]]]]]]]]]]]]]]]]]]]]]]]]]]]]]]]]]]]]]]]]]]]]]]]]]]]]]]]]]]]]]]]]]]]]]]]]]]]]]]]]]]]]]]]]]], "lang""#,
            Some(EnvelopeFault::TooDeep),
        ),
        (
            r#""retries": 0"#,
            r#""retries": 0.5"#,
            Some(EnvelopeFault::Float),
        ),
        (
            r#""body": "W1"#,
            r#""body_": "W1"#,
            Some(EnvelopeFault::Missing(Field::Body)),
        ),
        (
            r#""utf-8""#,
            r#""utf-16""#,
            Some(EnvelopeFault::Missing(Field::ContentEncoding)),
        ),
        (
            "application/json",
            "application/x-python-serialize",
            Some(EnvelopeFault::Missing(Field::ContentType)),
        ),
        (
            r#""headers""#,
            r#""headers": null, "h""#,
            Some(EnvelopeFault::Missing(Field::Headers)),
        ),
        (
            r#""properties""#,
            r#""properties": [], "p""#,
            Some(EnvelopeFault::Missing(Field::Properties)),
        ),
        (
            r#""base64""#,
            r#""BASE64""#,
            Some(EnvelopeFault::Missing(Field::BodyEncoding)),
        ),
        (
            r#""delivery_tag": "0"#,
            r#""delivery_tag": "x"#,
            Some(EnvelopeFault::Missing(Field::DeliveryTag)),
        ),
        (
            r#""delivery_info""#,
            r#""delivery_info": 1, "i""#,
            Some(EnvelopeFault::Missing(Field::DeliveryInfo)),
        ),
        (
            r#""exchange": """#,
            r#""exchange": 0"#,
            Some(EnvelopeFault::Missing(Field::Exchange)),
        ),
        (
            r#""routing_key": "#,
            r#""r": "#,
            Some(EnvelopeFault::Missing(Field::RoutingKey)),
        ),
        (
            r#""shadow": null"#,
            r#""compression": "zlib""#,
            Some(EnvelopeFault::Compressed),
        ),
        (r#"nVsbH1d""#, r#"nVsbH1""#, Some(EnvelopeFault::BadBody)),
        (
            r#""exchange": """#,
            r#""exchange": "aaaaaaaaaaaaaaaaaaaaaaaaaaaaaaaaaaaaaaaaaaaaaaaaaaaaaaaaaaaaaaaaaaaaaaaaaaaaaaaaaaaaaaaaaaaaaaaaaaaaaaaaaaaaaaaaaaaaaaaaaaaaaaaaaaaaaaaaaaaaaaaaaaaaaaaaaaaaaaaaaaaaaaaaaaaaaaaaaaaaaaaaaaaaaaaaaaaaaaaaaaaaaaaaaaaaaaaaaaaaaaaaaaaaaaaaaaaaaaaaaaaaaaaaaaaaaaaa""#,
            Some(EnvelopeFault::TooLong),
        ),
    ]
}

/// Numbers, keys and texts as JSON has them.
fn spellings() -> &'static [Case] {
    &[
        (
            r#""retries": 0"#,
            r#""retries": -0"#,
            Some(EnvelopeFault::Float),
        ),
        (
            r#""retries": 0"#,
            r#""retries": 1.0"#,
            Some(EnvelopeFault::Float),
        ),
        (
            r#""retries": 0"#,
            r#""retries": 1e2"#,
            Some(EnvelopeFault::Float),
        ),
        (
            r#""retries": 0"#,
            r#""retries": 1e400"#,
            Some(EnvelopeFault::NotJson),
        ),
        (
            r#""retries": 0"#,
            r#""retries": 18446744073709551616"#,
            Some(EnvelopeFault::Float),
        ),
        (
            r#""retries": 0"#,
            r#""retries": 18446744073709551615"#,
            None,
        ),
        (
            r#""retries": 0"#,
            r#""retries": -9223372036854775808"#,
            None,
        ),
        (
            r#""retries": 0"#,
            r#""retries": -9223372036854775809"#,
            Some(EnvelopeFault::Float),
        ),
        (
            r#""retries": 0"#,
            r#""retries": 01"#,
            Some(EnvelopeFault::NotJson),
        ),
        // Of a key that stands twice the last counts.
        (r#""body""#, r#""body": 1.5, "body""#, None),
        (
            r#""content-encoding""#,
            r#""body": 1, "content-encoding""#,
            Some(EnvelopeFault::Missing(Field::Body)),
        ),
        // The encoding's case is ignored, and the other words are taken as they stand, under escapes too.
        (r#""utf-8""#, r#""\u0055tF-8""#, None),
        (r#""application/json""#, r#""application\/json""#, None),
        (
            r#""application/json""#,
            r#""Application/json""#,
            Some(EnvelopeFault::Missing(Field::ContentType)),
        ),
        (r#""celery""#, r#""\ud800""#, Some(EnvelopeFault::NotJson)),
        (r#""shadow""#, r#""compression""#, None),
        // A body is the canonical padded base64 of UTF-8.
        (r#""body""#, r#""body": "", "b""#, None),
        (r#""body""#, r#""b": 1, "body""#, None),
        (
            r#"nVsbH1d""#,
            r#"nVsbH1dIB==""#,
            Some(EnvelopeFault::BadBody),
        ),
        (r#""W1sy"#, r#""W1s_"#, Some(EnvelopeFault::BadBody)),
        (r#""W1sy"#, r#""W1 sy"#, Some(EnvelopeFault::BadBody)),
        (r#""W1sy"#, r#""/1sy"#, Some(EnvelopeFault::BadBody)),
        (r#"nVsbH1d""#, r#"nVsbH0=""#, None),
        (r#"nVsbH1d""#, r#"nVsbH1=""#, Some(EnvelopeFault::BadBody)),
        (r#"nVsbH1d""#, r#"nVsbH0""#, Some(EnvelopeFault::BadBody)),
        // A tag has one spelling.
        (
            r#""00000000-0000-0007-0000-000000000001""#,
            r#""00000000-0000-0007-0000-00000000000A""#,
            Some(EnvelopeFault::Missing(Field::DeliveryTag)),
        ),
        (
            r#""00000000-0000-0007-0000-000000000001""#,
            r#""{00000000-0000-0007-0000-000000000001}""#,
            Some(EnvelopeFault::Missing(Field::DeliveryTag)),
        ),
        (
            r#""00000000-0000-0007-0000-000000000001""#,
            r#""urn:uuid:00000000-0000-0007-0000-000000000001""#,
            Some(EnvelopeFault::Missing(Field::DeliveryTag)),
        ),
        (
            r#""00000000-0000-0007-0000-000000000001""#,
            r#""00000000000000070000000000000001""#,
            Some(EnvelopeFault::Missing(Field::DeliveryTag)),
        ),
        (
            r#""00000000-0000-0007-0000-000000000001""#,
            r#""""#,
            Some(EnvelopeFault::Missing(Field::DeliveryTag)),
        ),
    ]
}

/// The fault of a text, none where it is an envelope.
fn fault_of(alloc: Global, text: &str) -> Option<EnvelopeFault> {
    match read(alloc, text.as_bytes()) {
        Ok(_) => None,
        Err(fault) => Some(fault),
    }
}

/// The fault of the usual envelope after an edit.
fn fault_after(alloc: Global, old: &str, new: &str) -> Result<Option<EnvelopeFault>, AllocError> {
    let text = edited(alloc, usual(), old, new)?;
    Ok(fault_of(alloc, text.as_str()))
}

/// The fault of the usual envelope after two edits, of which the second comes first.
fn fault_of_both(
    alloc: Global,
    case: Case,
    later: Case,
) -> Result<Option<EnvelopeFault>, AllocError> {
    let once = edited(alloc, usual(), later.0, later.1)?;
    let text = edited(alloc, once.as_str(), case.0, case.1)?;
    Ok(fault_of(alloc, text.as_str()))
}

/// Asserts the fault of each edit.
fn expect_each<R: Abort>(rt: &R, alloc: Global, cases: &[Case]) -> Result<(), AllocError> {
    for (old, new, fault) in cases {
        same(rt, new, fault_after(alloc, old, new)?, *fault);
    }
    Ok(())
}

/// Asserts that of two faults the first one is told.
fn expect_first<R: Abort>(
    rt: &R,
    alloc: Global,
    case: Case,
    later: Case,
) -> Result<(), AllocError> {
    same(rt, case.1, fault_of_both(alloc, case, later)?, case.2);
    Ok(())
}

#[test]
fn each_fault_comes_alone_and_before_the_next(rt: HostRuntime) -> Result<(), Fail> {
    expect_each(&rt, rt.alloc(), faults())?;
    for pair in faults().windows(2) {
        if let [case, later] = pair {
            expect_first(&rt, rt.alloc(), *case, *later)?;
        }
    }
    Ok(())
}

#[test]
fn spellings_are_those_of_the_formats(rt: HostRuntime) -> Result<(), Fail> {
    Ok(expect_each(&rt, rt.alloc(), spellings())?)
}

/// The fault of the usual envelope with a header that nests so deep.
fn fault_nested(alloc: Global, levels: usize) -> Result<Option<EnvelopeFault>, AllocError> {
    let ends = repeated(alloc, "]", levels, "")?;
    let header = repeated(alloc, "[", levels, ends.as_str())?;
    let member = format!(in alloc; "\"stamps\": {header}")?;
    fault_after(alloc, "\"stamps\": {}", member.as_str())
}

/// The fault of the usual envelope with a routing key of this length.
fn fault_named(alloc: Global, length: usize) -> Result<Option<EnvelopeFault>, AllocError> {
    let name = repeated(alloc, "a", length, "\"")?;
    fault_after(alloc, "celery\"", name.as_str())
}

/// The fault of the compact envelope, of 763 bytes, with so many more in a header.
fn fault_longer(alloc: Global, more: usize) -> Result<Option<EnvelopeFault>, AllocError> {
    let origin = repeated(alloc, "a", more, "gen1@host")?;
    let text = edited(alloc, written(), "gen1@host", origin.as_str())?;
    Ok(fault_of(alloc, text.as_str()))
}

/// The fault of so many bytes that are no JSON.
fn fault_of_letters(alloc: Global, length: usize) -> Result<Option<EnvelopeFault>, AllocError> {
    let text = repeated(alloc, "a", length, "")?;
    Ok(fault_of(alloc, text.as_str()))
}

/// What is long or deep, how much, and the fault.
fn limits() -> &'static [(&'static str, usize, Option<EnvelopeFault>)] {
    &[
        // Two levels stand around the header: 100 are lawful, and 127 are JSON.
        ("nested", 98, None),
        ("nested", 99, Some(EnvelopeFault::TooDeep)),
        ("nested", 125, Some(EnvelopeFault::TooDeep)),
        ("nested", 126, Some(EnvelopeFault::NotJson)),
        ("named", 255, None),
        ("named", 256, Some(EnvelopeFault::TooLong)),
        // The two marks add 38 bytes.
        ("longer", 999_199, None),
        ("longer", 999_200, Some(EnvelopeFault::TooLong)),
        // Bytes are counted before they are read.
        ("letters", 1_040_000, Some(EnvelopeFault::NotJson)),
        ("letters", 1_040_001, Some(EnvelopeFault::TooLong)),
        (
            "letters of an entry",
            1_048_577,
            Some(EnvelopeFault::TooLong),
        ),
    ]
}

/// The fault of what is so long or deep.
fn fault_at(alloc: Global, what: &str, count: usize) -> Result<Option<EnvelopeFault>, AllocError> {
    match what {
        "nested" => fault_nested(alloc, count),
        "named" => fault_named(alloc, count),
        "longer" => fault_longer(alloc, count),
        "letters" => fault_of_letters(alloc, count),
        _ => entry_fault_of_letters(alloc, count),
    }
}

#[test]
fn depth_and_length_are_limited(rt: HostRuntime) -> Result<(), Fail> {
    for (what, count, fault) in limits() {
        same(&rt, what, fault_at(rt.alloc(), what, *count)?, *fault);
    }
    Ok(())
}

/// What stands before and after the usual envelope in an array, and the fault.
fn arrays() -> &'static [Case] {
    &[
        ("[ ", r#" , "news", "a.b" ]"#, None),
        ("", "", Some(EnvelopeFault::NotJson)),
        ("[", r#",""]"#, Some(EnvelopeFault::NotJson)),
        ("[", r#","","",""]"#, Some(EnvelopeFault::NotJson)),
        ("[", r#","",1]"#, Some(EnvelopeFault::NotJson)),
        ("[", r#",null,""]"#, Some(EnvelopeFault::NotJson)),
        (
            "[[",
            r#"],"",""]"#,
            Some(EnvelopeFault::Missing(Field::Body)),
        ),
        ("[[1.5,", r#"],"",""]"#, Some(EnvelopeFault::Float)),
        (
            r#"[{"a":[[[[[[[[[[[[[[[[[[[[[[[[[[[[[[[[[[[[[[[[[[[[[[[[[[[[[[[[[[[[[[[[[[[[[[[[[[[[[[[[[[[[[[[[[[[[[[[[[[[[]]]]]]]]]]]]]]]]]]]]]]]]]]]]]]]]]]]]]]]]]]]]]]]]]]]]]]]]]]]]]]]]]]]]]]]]]]]]]]]]]]]]]]]]]]]]]]]]]]],"#,
            r#"]},"",""]"#,
            Some(EnvelopeFault::TooDeep),
        ),
        (
            "[",
            r#","aaaaaaaaaaaaaaaaaaaaaaaaaaaaaaaaaaaaaaaaaaaaaaaaaaaaaaaaaaaaaaaaaaaaaaaaaaaaaaaaaaaaaaaaaaaaaaaaaaaaaaaaaaaaaaaaaaaaaaaaaaaaaaaaaaaaaaaaaaaaaaaaaaaaaaaaaaaaaaaaaaaaaaaaaaaaaaaaaaaaaaaaaaaaaaaaaaaaaaaaaaaaaaaaaaaaaaaaaaaaaaaaaaaaaaaaaaaaaaaaaaaaaaaaaaaaaaaa",""]"#,
            Some(EnvelopeFault::TooLong),
        ),
        (
            "[",
            r#","","aaaaaaaaaaaaaaaaaaaaaaaaaaaaaaaaaaaaaaaaaaaaaaaaaaaaaaaaaaaaaaaaaaaaaaaaaaaaaaaaaaaaaaaaaaaaaaaaaaaaaaaaaaaaaaaaaaaaaaaaaaaaaaaaaaaaaaaaaaaaaaaaaaaaaaaaaaaaaaaaaaaaaaaaaaaaaaaaaaaaaaaaaaaaaaaaaaaaaaaaaaaaaaaaaaaaaaaaaaaaaaaaaaaaaaaaaaaaaaaaaaaaaaaaaaaaaaaa"]"#,
            Some(EnvelopeFault::TooLong),
        ),
    ]
}

/// The fault of a text as an entry, none where it is one.
fn entry_fault(alloc: Global, text: &str) -> Option<EnvelopeFault> {
    match read_entry(alloc, text.as_bytes()) {
        Ok(_) => None,
        Err(fault) => Some(fault),
    }
}

/// The fault of an array around the usual envelope.
fn fault_within(
    alloc: Global,
    before: &str,
    after: &str,
) -> Result<Option<EnvelopeFault>, AllocError> {
    let text = usual();
    let array = format!(in alloc; "{before}{text}{after}")?;
    Ok(entry_fault(alloc, array.as_str()))
}

/// The fault of so many letters as an entry.
fn entry_fault_of_letters(
    alloc: Global,
    length: usize,
) -> Result<Option<EnvelopeFault>, AllocError> {
    let text = repeated(alloc, "a", length, "")?;
    Ok(entry_fault(alloc, text.as_str()))
}

#[test]
fn entries_have_their_faults(rt: HostRuntime) -> Result<(), Fail> {
    for (before, after, fault) in arrays() {
        same(&rt, after, fault_within(rt.alloc(), before, after)?, *fault);
    }
    Ok(())
}
