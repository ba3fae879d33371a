//! Writing values.
ghost use Rattle.std.specs.Prelude.{◌≡◌, ◌+◌, ◌++◌, ◌∷◌, ℕ, List, pos, length, IfOk, OnOk};
ghost use Rattle.wire_grammar.specs.Reads.{Got, read};
ghost use Rattle.wire_grammar.specs.Spells.{Spells, crlf};
ghost use Rattle.wire_grammar.specs.Texts.{number_text, spelling};
ghost use Rattle.wire_grammar.specs.Fits.{HasSpelling};

use std::alloc::{AllocError, Global};
use wire_values::{Bytes, Value};

/// The one spelling of a value that fits on the wire, which is read again as that value, whatever follows it;
/// `fits` tells whether it fits. It fails only where there is no memory.
pub fn encode(alloc: Global, value: &Value) -> Result<Bytes, AllocError>
    requires { HasSpelling value.now }
    ensures spelled { IfOk result (λ bytes. Spells value.now bytes) }
    ensures read_again { IfOk result (λ bytes. (p : ℕ) (rest : List ℕ) → read p (bytes ++ rest) ≡ Got value.now (p + length bytes) rest) }
{
    let mut bytes = Vec::new(alloc);
    encode_onto(alloc, &mut bytes, value)?;
    Ok(Bytes::from_vec(bytes))
}

/// Appends the spelling of a value. Where memory ends amid it, a part of it may have been appended.
pub fn encode_onto(alloc: Global, out: &mut Vec<u8>, value: &Value) -> Result<(), AllocError>
    ensures { OnOk result (out.new.items ≡ out.old.items ++ spelling value.now) }
{
    match value {
        Value::Status(text) => line_onto(out, b'+', text.as_slice()),
        Value::Error(text) => line_onto(out, b'-', text.as_slice()),
        Value::Integer(number) => integer_onto(alloc, out, *number),
        Value::Bulk(content) => bulk_onto(alloc, out, content.as_slice()),
        Value::NullBulk => out.extend_from_slice(b"$-1\r\n"),
        Value::Array(items) => {
            count_onto(alloc, out, b'*', items.as_slice().len())?;
            for item in items.as_slice() {
                encode_onto(alloc, out, item)?;
            }
            Ok(())
        }
        Value::NullArray => out.extend_from_slice(b"*-1\r\n"),
    }
}

/// Appends a byte, a text and the end of a line.
fn line_onto(out: &mut Vec<u8>, sign: u8, text: &[u8]) -> Result<(), AllocError>
    ensures { OnOk result (out.new.items ≡ out.old.items ++ sign ∷ (text.now ++ crlf)) }
{
    out.push(sign)?;
    out.extend_from_slice(text)?;
    out.extend_from_slice(b"\r\n")?;
    Ok(())
}

/// Appends an integer.
fn integer_onto(alloc: Global, out: &mut Vec<u8>, number: i64) -> Result<(), AllocError>
    ensures { OnOk result (out.new.items ≡ out.old.items ++ 58 ∷ number_text number) }
{
    let line = format!(in alloc; ":{number}\r\n")?;
    out.extend_from_slice(line.as_bytes())?;
    Ok(())
}

/// Appends a byte, a length or a count, and the end of its line.
fn count_onto(alloc: Global, out: &mut Vec<u8>, sign: u8, count: usize) -> Result<(), AllocError>
    ensures { OnOk result (out.new.items ≡ out.old.items ++ sign ∷ number_text (pos count)) }
{
    let line = format!(in alloc; "{count}\r\n")?;
    out.push(sign)?;
    out.extend_from_slice(line.as_bytes())?;
    Ok(())
}

/// Appends a bulk string.
fn bulk_onto(alloc: Global, out: &mut Vec<u8>, content: &[u8]) -> Result<(), AllocError>
    ensures { OnOk result (out.new.items ≡ out.old.items ++ 36 ∷ (number_text (pos (length content.now)) ++ (content.now ++ crlf))) }
{
    count_onto(alloc, out, b'$', content.len())?;
    out.extend_from_slice(content)?;
    out.extend_from_slice(b"\r\n")?;
    Ok(())
}
