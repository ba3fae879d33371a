//! What a pass is told.
ghost use Rattle.std.specs.Prelude.{◌<◌, ◌^◌};
ghost use Rattle.wire_grammar.specs.Fits.{IsShort};

use wire_values::Bytes;

/// The token under which a pass has the mutex, and how many seconds a message may stand in the table.
#[derive(Drop)]
pub(crate) struct Terms {
    pub(crate) token: Bytes,
    pub(crate) visibility: u32,
    ghost short: { IsShort token },
    ghost few: { visibility < 2 ^ 32 },
}
