//! Lines, words, numbers and forms against texts written by hand.
//!
//! The rows stand behind functions without clauses, so that no proof has to read them.
ghost use Rattle.std.specs.Prelude.{◌≡◌, List, ℕ, bytes_eq, codes, if◌then◌else◌, true};
ghost use Rattle.line_text.specs.declared.short.Shape.{Shape as Shaped};
ghost use Rattle.line_text.specs.declared.short.Shape.TheVariants.{Envelope, Entry, Tag, Other};

use line_text::{
    Legend, Lines, Reason, Shape, integer_in, is_word, line_number_at, line_text, moment_in,
    number_in, quoted, quoted_words, rest_after, short_value, short_word, short_words, tag_in,
    value_form, words,
};
use std::alloc::{AllocError, Global};
use std::test::Fail;
use wire_values::{Bytes, List, Value, Values, Words};

/// What is asked, of which text, and what is found.
type Row = (&'static str, &'static [u8], &'static [u8]);

/// Lines and their texts.
fn lines() -> &'static [Row] {
    &[
        ("lines", b"", b""),
        ("lines", b"\n", b"1=;"),
        ("lines", b"one", b"1=one;"),
        ("lines", b"one\n", b"1=one;"),
        ("lines", b"one\n\ntwo\r\n", b"1=one;2=;3=two\r;"),
        ("lines", b"one\ntwo", b"1=one;2=two;"),
        ("line at 0", b"a\nbc\nd", b"1"),
        ("line at 1", b"a\nbc\nd", b"1"),
        ("line at 2", b"a\nbc\nd", b"2"),
        ("line at 5", b"a\nbc\nd", b"3"),
        ("text of at most 3", b"abc", b"abc"),
        ("text of at most 2", b"abc", b"long"),
        ("text of at most 2", b"\xFF\xFF\xFF", b"long"),
        ("text of at most 3", b"\xFF\xFF\xFF", b"text"),
        ("unknown client", b"", b"unknown client"),
    ]
}

/// Words, and what stands after some of them.
fn parted() -> &'static [Row] {
    &[
        ("words", b"begin  1 ", b"begin||1||"),
        ("after 0", b"a b", b"a b"),
        ("after 1", b"a  [1, 2]", b" [1, 2]"),
        ("after 2", b"a b ", b""),
        ("after 2", b"a b", b"none"),
        ("is a word", b"!~", b"yes"),
        ("is a word", b"", b"no"),
        ("is a word", b"a b", b"no"),
        ("is a word", b"a\x7F", b"no"),
        ("is a word", b"\xC3\xA9", b"no"),
    ]
}

/// Natural numbers and moments.
fn naturals() -> &'static [Row] {
    &[
        ("from 1 to 4096", b"1", b"1"),
        ("from 1 to 4096", b"4096", b"4096"),
        ("from 1 to 4096", b"0", b"none"),
        ("from 1 to 4096", b"4097", b"none"),
        ("natural", b"", b"none"),
        ("natural", b"01", b"none"),
        ("natural", b"+1", b"none"),
        ("natural", b"-1", b"none"),
        ("natural", b" 1", b"none"),
        ("natural", b"1 ", b"none"),
        ("natural", b"1x", b"none"),
        ("natural", b"18446744073709551616", b"none"),
        ("natural", b"18446744073709551615", b"18446744073709551615"),
        ("moment", b"1099511627775", b"1099511627775"),
        ("moment", b"1099511627777", b"1099511627776"),
        ("moment", b"99999999999999999999999", b"1099511627776"),
        ("moment", b"00", b"none"),
    ]
}

/// Integers and tags.
fn integers() -> &'static [Row] {
    &[
        ("integer", b"0", b"0"),
        ("integer", b"-5", b"-5"),
        ("integer", b"9223372036854775807", b"9223372036854775807"),
        ("integer", b"-9223372036854775808", b"-9223372036854775808"),
        ("integer", b"", b"none"),
        ("integer", b"-", b"none"),
        ("integer", b"-0", b"none"),
        ("integer", b"-01", b"none"),
        ("integer", b"+5", b"none"),
        ("integer", b"--5", b"none"),
        ("integer", b"9223372036854775808", b"none"),
        ("integer", b"-9223372036854775809", b"none"),
        ("tag", b"7:1", b"7:1"),
        ("tag", b"0:18446744073709551615", b"0:18446744073709551615"),
        ("tag", b"7", b"none"),
        ("tag", b"7:", b"none"),
        ("tag", b":1", b"none"),
        ("tag", b"7:01", b"none"),
        ("tag", b"7:1:2", b"none"),
        ("tag", b"7:18446744073709551616", b"none"),
    ]
}

/// Written forms, in full and in short.
fn forms() -> &'static [Row] {
    &[
        (
            "quoted",
            b"a \"\\\n\x1F~\x7F\xAB\x00",
            b"\"a \\\"\\\\\\x0a\\x1f~\\x7f\\xab\\x00\"",
        ),
        ("quoted words", b"PING ", b"\"PING\" \"\" "),
        (
            "value",
            b"",
            b"*[+\"OK\", -\"ERR \\\"x\\\"\", *[$\"{e}\", :-3], $-, *-, *[]]",
        ),
        (
            "short value",
            b"",
            b"*[+OK, -\"ERR \\\"x\\\"\", *[$env(7:1)*, :-3], $-, *-, *[]]",
        ),
        ("short words", b"GET t", b"GET tag(8:3) "),
        ("short", b"{e}", b"env(7:1)*"),
        ("short", b"[e]", b"entry(7:2)*"),
        ("short", b"t", b"tag(8:3)"),
        ("short", b"_kombu.binding/a:B-9", b"_kombu.binding/a:B-9"),
        ("short", b"", b"\"\""),
        ("short", b"a,b", b"\"a,b\""),
        ("short", b"celery\x06\x163", b"\"celery\\x06\\x163\""),
    ]
}

/// What a text gives where it is asked this.
fn found(alloc: Global, asked: &str, text: &[u8]) -> Result<Vec<u8>, AllocError> {
    match asked {
        "lines" => shown_lines(alloc, text),
        "line at 0" => line_at(alloc, text, 0),
        "line at 1" => line_at(alloc, text, 1),
        "line at 2" => line_at(alloc, text, 2),
        "line at 5" => line_at(alloc, text, 5),
        "text of at most 2" => shown_text(alloc, line_text(2, text)),
        "text of at most 3" => shown_text(alloc, line_text(3, text)),
        "unknown client" => Vec::from_slice(alloc, Reason::UnknownClient.text().as_bytes()),
        "is a word" => shown(alloc, Some(if is_word(text) { "yes" } else { "no" })),
        "short" => shown_short(alloc, text),
        "quoted" => shown_quoted(alloc, text),
        "quoted words" => shown_words(alloc, text, false),
        "short words" => shown_words(alloc, text, true),
        "value" => shown_sample(alloc, false),
        "short value" => shown_sample(alloc, true),
        _ => found_in(alloc, asked, str::from_utf8(text).unwrap_or("no text")),
    }
}

/// The same of texts.
fn found_in(alloc: Global, asked: &str, text: &str) -> Result<Vec<u8>, AllocError> {
    match asked {
        "words" => parts_of(alloc, text),
        "after 0" => shown(alloc, rest_after(0, text)),
        "after 1" => shown(alloc, rest_after(1, text)),
        "after 2" => shown(alloc, rest_after(2, text)),
        "from 1 to 4096" => shown_number(alloc, number_in(1, 4096, text)),
        "natural" => shown_number(alloc, number_in(0, u64::MAX, text)),
        "moment" => shown_number(alloc, moment_in(text)),
        "integer" => shown_integer(alloc, integer_in(text)),
        "tag" => shown_tag(alloc, tag_in(text)),
        _ => shown(alloc, Some("no such question")),
    }
}

/// The number of the line in which the byte at this index stands.
fn line_at(alloc: Global, text: &[u8], index: usize) -> Result<Vec<u8>, AllocError> {
    if index > text.len() {
        return shown(alloc, Some("past the end"));
    }
    shown_number(alloc, Some(line_number_at(text, index)))
}

/// A text, or `none`.
fn shown(alloc: Global, text: Option<&str>) -> Result<Vec<u8>, AllocError> {
    Vec::from_slice(alloc, text.unwrap_or("none").as_bytes())
}

/// A number, or `none`.
fn shown_number(alloc: Global, number: Option<u64>) -> Result<Vec<u8>, AllocError> {
    match number {
        Some(number) => Ok(format!(in alloc; "{number}")?.into_bytes()),
        None => shown(alloc, None),
    }
}

/// An integer, or `none`.
fn shown_integer(alloc: Global, number: Option<i64>) -> Result<Vec<u8>, AllocError> {
    match number {
        Some(number) => Ok(format!(in alloc; "{number}")?.into_bytes()),
        None => shown(alloc, None),
    }
}

/// A tag, or `none`.
fn shown_tag(alloc: Global, tag: Option<(u64, u64)>) -> Result<Vec<u8>, AllocError> {
    match tag {
        Some((seed, counter)) => Ok(format!(in alloc; "{seed}:{counter}")?.into_bytes()),
        None => shown(alloc, None),
    }
}

/// A line's text, or why it is none.
fn shown_text(alloc: Global, text: Result<&str, Reason>) -> Result<Vec<u8>, AllocError> {
    match text {
        Ok(text) => shown(alloc, Some(text)),
        Err(reason) => shown(alloc, Some(reason.text())),
    }
}

/// The lines with their numbers, each as `1=text;`.
fn shown_lines(alloc: Global, text: &[u8]) -> Result<Vec<u8>, AllocError> {
    let mut out = Vec::new(alloc);
    for (number, line) in Lines::new(text) {
        push_line(alloc, &mut out, number, line)?;
    }
    Ok(out)
}

/// Appends a line with its number.
fn push_line(alloc: Global, out: &mut Vec<u8>, number: u64, line: &[u8]) -> Result<(), AllocError> {
    let head = format!(in alloc; "{number}=")?;
    out.extend_from_slice(head.as_bytes())?;
    out.extend_from_slice(line)?;
    Ok(out.push(b';')?)
}

/// The words of a line, each with a `|` behind it.
fn parts_of(alloc: Global, text: &str) -> Result<Vec<u8>, AllocError> {
    let found = words(alloc, text)?;
    let mut out = Vec::new(alloc);
    for word in found.as_slice() {
        out.extend_from_slice(word.as_bytes())?;
        out.push(b'|')?;
    }
    Ok(out)
}

/// The short form of a word.
fn shown_short(alloc: Global, word: &[u8]) -> Result<Vec<u8>, AllocError> {
    let mut out = Vec::new(alloc);
    short_word(alloc, &Three, &mut out, word)?;
    Ok(out)
}

/// The quoted form of a word.
fn shown_quoted(alloc: Global, word: &[u8]) -> Result<Vec<u8>, AllocError> {
    let mut out = Vec::new(alloc);
    quoted(&mut out, word)?;
    Ok(out)
}

/// The words that spaces part, in their short or their quoted forms.
fn shown_words(alloc: Global, text: &[u8], are_short: bool) -> Result<Vec<u8>, AllocError> {
    let mut words: Words = List::new();
    for word in text.split(|byte| *byte == b' ') {
        words.push(alloc, Bytes::from_slice(alloc, word)?)?;
    }
    let mut out = Vec::new(alloc);
    if are_short {
        short_words(alloc, &Three, &mut out, words.as_slice())?;
    } else {
        quoted_words(alloc, &mut out, words.as_slice())?;
    }
    Ok(out)
}

/// The short form of the sample, or its full one.
fn shown_sample(alloc: Global, is_short: bool) -> Result<Vec<u8>, AllocError> {
    let sample = sample(alloc)?;
    let mut out = Vec::new(alloc);
    if is_short {
        short_value(alloc, &Three, &mut out, &sample)?;
    } else {
        value_form(alloc, &mut out, &sample)?;
    }
    Ok(out)
}

/// An array of each kind of value.
fn sample(alloc: Global) -> Result<Value, AllocError> {
    let mut items = Values::new(alloc);
    items.push(Value::Status(Bytes::from_slice(alloc, b"OK")?))?;
    items.push(Value::Error(Bytes::from_slice(alloc, b"ERR \"x\"")?))?;
    items.push(Value::Array(inner(alloc)?))?;
    items.push(Value::NullBulk)?;
    items.push(Value::NullArray)?;
    items.push(Value::Array(Values::new(alloc)))?;
    Ok(Value::Array(items))
}

/// The values of its inner array.
fn inner(alloc: Global) -> Result<Values, AllocError> {
    let mut inner = Values::new(alloc);
    inner.push(Value::Bulk(Bytes::from_slice(alloc, b"{e}")?))?;
    inner.push(Value::Integer(-3))?;
    Ok(inner)
}

/// A legend that knows three words.
struct Three;

impl Legend for Three {
    ghost shape = { λ _ word.
        if bytes_eq word (codes "{e}") then Envelope 7 1 true
        else if bytes_eq word (codes "[e]") then Entry 7 2 true
        else if bytes_eq word (codes "t") then Tag 8 3
        else Other };

    fn shape(&self, _alloc: Global, bytes: &[u8]) -> Result<Shape, AllocError> {
        if bytes == b"{e}".as_slice() {
            Ok(Shape::Envelope {
                seed: 7,
                counter: 1,
                marked: true,
            })
        } else if bytes == b"[e]".as_slice() {
            Ok(Shape::Entry {
                seed: 7,
                counter: 2,
                marked: true,
            })
        } else if bytes == b"t".as_slice() {
            Ok(Shape::Tag {
                seed: 8,
                counter: 3,
            })
        } else {
            Ok(Shape::Other)
        }
    }
}

#[test]
fn texts_are_read_and_written(rt: HostRuntime) -> Result<(), Fail> {
    for rows in [lines(), parted(), naturals(), integers(), forms()] {
        for (asked, text, want) in rows {
            let found = found(rt.alloc(), asked, text)?;
            assert!(rt; found.as_slice() == *want, "{asked}");
        }
    }
    Ok(())
}
