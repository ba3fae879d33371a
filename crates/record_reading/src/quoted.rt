//! Bytes in quoted form.
ghost use Rattle.std.specs.Prelude.{◌≡◌, ◌<◌, ◌∷◌, [], IfOk, IfSome, true};
ghost use Rattle.line_text.specs.Forms.{escaped, hex_digit, quoted};
ghost use Rattle.history_records.specs.Recordable.{are_bytes};
ghost use Rattle.record_reading.specs.Reads.{HasRead};

use crate::rest::Rest;
use std::alloc::{AllocError, Global};
use wire_values::Bytes;

impl<'a> Rest<'a> {
    /// Reads bytes in quoted form. None where none stand first.
    pub(crate) fn quoted(&mut self, alloc: Global) -> Result<Option<Bytes>, AllocError>
        ensures text { IfOk result (λ found. IfSome found (λ bytes. HasRead (quoted bytes) self.old self.new)) }
        ensures typed { IfOk result (λ found. IfSome found (λ bytes. are_bytes bytes ≡ true)) }
    {
        if !self.pass(b"\"") {
            return Ok(None);
        }
        let mut bytes = Vec::new(alloc);
        'bytes: while !self.pass(b"\"") {
            match self.byte() {
                Some(byte) => bytes.push(byte)?,
                None => return Ok(None),
            }
        }
        Ok(Some(Bytes::from_vec(bytes)))
    }

    /// Reads a byte as it stands between quotes. None where none does.
    fn byte(&mut self) -> Option<u8>
        ensures text { IfSome result (λ byte. HasRead (escaped byte) self.old self.new) }
        ensures typed { IfSome result (λ byte. byte < 256) }
    {
        match self.bytes {
            [b'\\', b'x', high, low, rest @ ..] => {
                let byte = coded(*high, *low)?;
                self.bytes = rest;
                Some(byte)
            }
            [b'\\', byte, rest @ ..] => {
                if *byte != b'"' && *byte != b'\\' {
                    return None;
                }
                self.bytes = rest;
                Some(*byte)
            }
            [byte, rest @ ..] => {
                if *byte == b'"' || *byte == b'\\' || *byte < b' ' || b'~' < *byte {
                    return None;
                }
                self.bytes = rest;
                Some(*byte)
            }
            [] => None,
        }
    }
}

/// The byte that two hexadecimal digits tell, where it doesn't stand for itself.
fn coded(high: u8, low: u8) -> Option<u8>
    ensures { IfSome result (λ byte. escaped byte ≡ 92 ∷ 120 ∷ high ∷ low ∷ []) }
{
    let byte = hex_value(high)? * 16 + hex_value(low)?;
    if b' ' <= byte && byte <= b'~' {
        return None;
    }
    Some(byte)
}

/// The value of a hexadecimal digit in lower case.
fn hex_value(digit: u8) -> Option<u8>
    ensures { IfSome result (λ value. (value < 16) × (hex_digit value ≡ digit)) }
{
    if b'0' <= digit && digit <= b'9' {
        Some(digit - b'0')
    } else if b'a' <= digit && digit <= b'f' {
        Some(digit - b'a' + 10)
    } else {
        None
    }
}
