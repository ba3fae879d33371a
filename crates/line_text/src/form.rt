//! The quoted form of bytes, and the forms of words and values over any form of bytes.
//!
//! Each call appends to a vector. Where memory ends amid a text, a part of it may have been appended.
ghost use Rattle.std.specs.Prelude.{◌≡◌, ◌∷◌, ◌++◌, ◌<◌, List, OnOk, ℕ};
ghost use Rattle.line_text.specs.Forms.{escaped, hex_digit, quoted, value_form, value_text, words_text};

use std::alloc::{AllocError, Global};
use wire_values::{Bytes, Value};

/// A way to write bytes in a line.
pub trait Form {
    ghost form: { Self → List ℕ → List ℕ };

    /// Appends the bytes in this form.
    fn write(&self, alloc: Global, out: &mut Vec<u8>, bytes: &[u8]) -> Result<(), AllocError>
        ensures { OnOk result (out.new.items ≡ out.old.items ++ form self.now bytes.now) };
}

/// The quoted form.
#[derive(Drop)]
pub struct QuotedForm;

impl Form for QuotedForm {
    ghost use Rattle.line_text.specs.Forms.{quoted};

    ghost form = { λ _. quoted };

    fn write(&self, _alloc: Global, out: &mut Vec<u8>, bytes: &[u8]) -> Result<(), AllocError> {
        quoted(out, bytes)
    }
}

/// Appends the quoted form of bytes: `"`, each byte from space to `~` as itself, but `"` and `\` behind
/// a `\`, each other byte as `\x` and two lower-case hexadecimal digits, and `"`.
pub fn quoted(out: &mut Vec<u8>, bytes: &[u8]) -> Result<(), AllocError>
    ensures { OnOk result (out.new.items ≡ out.old.items ++ quoted bytes.now) }
{
    out.push(b'"')?;
    for b in bytes {
        escaped(out, *b)?;
    }
    out.push(b'"')?;
    Ok(())
}

fn escaped(out: &mut Vec<u8>, b: u8) -> Result<(), AllocError>
    ensures { OnOk result (out.new.items ≡ out.old.items ++ escaped b) }
{
    if b == b'"' || b == b'\\' {
        out.push(b'\\')?;
        out.push(b)?;
    } else if b' ' <= b && b <= b'~' {
        out.push(b)?;
    } else {
        out.extend_from_slice(b"\\x")?;
        out.push(hex_digit(b / 16))?;
        out.push(hex_digit(b % 16))?;
    }
    Ok(())
}

fn hex_digit(digit: u8) -> u8
    requires { digit < 16 }
    ensures { result ≡ hex_digit digit }
{
    if digit < 10 { 48 + digit } else { 87 + digit }
}

/// Appends words in quoted form, each followed by a space.
pub fn quoted_words(alloc: Global, out: &mut Vec<u8>, words: &[Bytes]) -> Result<(), AllocError>
    ensures { OnOk result (out.new.items ≡ out.old.items ++ words_text quoted words.now) }
{
    words_text(alloc, &QuotedForm, out, words)
}

/// Appends the value form: `+`, `-` or `$` and the quoted bytes, `:` and the integer, `$-`, `*-`, or
/// `*[`, the items with a comma and a space between them, and `]`.
pub fn value_form(alloc: Global, out: &mut Vec<u8>, value: &Value) -> Result<(), AllocError>
    ensures { OnOk result (out.new.items ≡ out.old.items ++ value_form value.now) }
{
    value_text(alloc, &QuotedForm, out, value)
}

/// Appends words in a form, each followed by a space.
pub fn words_text<F: Form>(
    alloc: Global,
    form: &F,
    out: &mut Vec<u8>,
    words: &[Bytes],
) -> Result<(), AllocError>
    ensures { OnOk result
        (out.new.items ≡ out.old.items ++ words_text (F.form form.now) words.now) }
{
    for word in words {
        form.write(alloc, out, word.as_slice())?;
        out.push(b' ')?;
    }
    Ok(())
}

/// Appends a value whose bytes are written in a form.
pub fn value_text<F: Form>(
    alloc: Global,
    form: &F,
    out: &mut Vec<u8>,
    value: &Value,
) -> Result<(), AllocError>
    ensures { OnOk result
        (out.new.items ≡ out.old.items ++ value_text (F.form form.now) value.now) }
{
    match value {
        Value::Status(text) => text_after(alloc, form, out, b'+', text.as_slice())?,
        Value::Error(text) => text_after(alloc, form, out, b'-', text.as_slice())?,
        Value::Integer(number) => {
            let text = format!(in alloc; ":{number}")?;
            out.extend_from_slice(text.as_bytes())?;
        }
        Value::Bulk(bytes) => text_after(alloc, form, out, b'$', bytes.as_slice())?,
        Value::NullBulk => out.extend_from_slice(b"$-")?,
        Value::Array(items) => {
            out.extend_from_slice(b"*[")?;
            let mut separator: &[u8] = b"";
            for item in items.as_slice() {
                out.extend_from_slice(separator)?;
                value_text(alloc, form, out, item)?;
                separator = b", ";
            }
            out.push(b']')?;
        }
        Value::NullArray => out.extend_from_slice(b"*-")?,
    }
    Ok(())
}

/// Appends a sign and bytes in a form.
fn text_after<F: Form>(
    alloc: Global,
    form: &F,
    out: &mut Vec<u8>,
    sign: u8,
    bytes: &[u8],
) -> Result<(), AllocError>
    ensures { OnOk result (out.new.items ≡ out.old.items ++ sign ∷ F.form form.now bytes.now) }
{
    out.push(sign)?;
    form.write(alloc, out, bytes)
}
