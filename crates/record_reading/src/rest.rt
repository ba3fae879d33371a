//! What is left of a line.
ghost use Rattle.std.specs.Prelude.{◌≡◌, [], IsTrue, false};
ghost use Rattle.record_reading.specs.Reads.{HasRead};

/// What is left of a line that is read from its front.
#[derive(Drop)]
pub(crate) struct Rest<'a> {
    pub(crate) bytes: &'a [u8],
}

impl<'a> Rest<'a> {
    /// Passes this text, if it stands first. False where it doesn't; then nothing is passed.
    pub(crate) fn pass(&mut self, text: &[u8]) -> bool
        ensures passed { IsTrue result → HasRead text.now self.old self.new }
        ensures other { result ≡ false → self.new ≡ self.old }
    {
        match self.bytes.strip_prefix(text) {
            Some(rest) => {
                self.bytes = rest;
                true
            }
            None => false,
        }
    }

    /// Whether nothing is left.
    pub(crate) fn is_empty(&self) -> bool
        ensures { IsTrue result → self.now.bytes.now ≡ [] }
    {
        self.bytes.is_empty()
    }

    /// Takes what stands before the first byte that is neither a digit nor a minus.
    pub(crate) fn number_text(&mut self) -> &'a [u8]
        ensures { HasRead result.now self.old self.new }
    {
        let bytes = self.bytes;
        let mut end = 0;
        while end < bytes.len() && is_of_number(bytes[end]) {
            end += 1;
        }
        self.bytes = &bytes[end..];
        &bytes[..end]
    }
}

/// Whether a byte is a digit or a minus.
fn is_of_number(byte: u8) -> bool {
    byte == b'-' || b'0' <= byte && byte <= b'9'
}
