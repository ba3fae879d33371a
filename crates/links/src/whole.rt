//! Writing all of some bytes, and reading to the end.
ghost use Rattle.std.specs.Io.KnownBytes.{Appends};
ghost use Rattle.std.specs.Prelude.{◌<◌, ◌≡◌, ◌^◌, ◌≤◌, IfErr, IfOk, OnErr, OnOk, length, vec_len};
ghost use Rattle.links.specs.Causes.{AppendsFront, HasCause};
ghost use Rattle.links.specs.Ends.{HasReadEnd, IsWholeInput};
ghost use Rattle.links.specs.Views.{source_view};

use crate::{Failed, Sink, Source};
use std::alloc::{AllocError, Global};
use wire_values::Bytes;

/// How many bytes one read asks for at most.
const PIECE: usize = 65_536;

/// Writes all of some bytes, and takes no memory. `Failed` comes where the sink failed; a front was taken then.
pub fn write_all<K: Sink>(out: &mut K, bytes: &[u8]) -> Result<(), Failed>
    ensures ok { OnOk result (Appends (K.taken out.old) (K.taken out.new) bytes.now) }
    ensures err { OnErr result (AppendsFront (K.taken out.old) (K.taken out.new) bytes.now) }
    ensures cause { HasCause (K.write_faults out.old) (K.write_faults out.new) result }
{
    let mut rest = bytes;
    while !rest.is_empty() {
        let count = out.write(rest)?;
        rest = &rest[count..];
    }
    Ok(())
}

/// Why a reading to the end gave no bytes.
#[derive(Debug, Drop)]
pub enum ReadEnd {
    /// The source failed.
    Fault,
    /// There is more than the limit; these are the first bytes, one more than the limit.
    Long(Bytes),
    /// There was no memory.
    Memory,
}

impl From<AllocError> for ReadEnd {
    ghost use Rattle.std.specs.Prelude.{◌≡◌};
    ghost use Rattle.links.specs.declared.whole.ReadEnd.TheVariants.{Memory};

    ghost from_gives = { λ _ e. e ≡ Memory };

    fn from(_: AllocError) -> Self {
        ReadEnd::Memory
    }
}

/// Reads all bytes up to the end, at most `limit` of them. It takes at most one byte past the limit.
pub fn read_to_end<S: Source>(alloc: Global, src: &mut S, limit: u64) -> Result<Bytes, ReadEnd>
    ensures all { IfOk result (IsWholeInput limit
        (source_view S.left S.read_faults S.ends src.old)
        (source_view S.left S.read_faults S.ends src.new)) }
    ensures end { IfErr result (HasReadEnd limit
        (source_view S.left S.read_faults S.ends src.old)
        (source_view S.left S.read_faults S.ends src.new)) }
{
    let mut buffer = buffer(alloc)?;
    read_pieces(alloc, src, limit, buffer.as_mut_slice())
}

/// Room for one piece, on the heap.
fn buffer(alloc: Global) -> Result<Vec<u8>, AllocError>
    ensures { IfOk result (λ room. 1 ≤ vec_len room) }
{
    vec![in alloc; 0; PIECE]
}

/// Reads to the end by pieces of at most this buffer.
fn read_pieces<S: Source>(
    alloc: Global,
    src: &mut S,
    limit: u64,
    buffer: &mut [u8],
) -> Result<Bytes, ReadEnd>
    requires { 1 ≤ length buffer.old }
    ensures all { IfOk result (IsWholeInput limit
        (source_view S.left S.read_faults S.ends src.old)
        (source_view S.left S.read_faults S.ends src.new)) }
    ensures end { IfErr result (HasReadEnd limit
        (source_view S.left S.read_faults S.ends src.old)
        (source_view S.left S.read_faults S.ends src.new)) }
{
    let mut all = Bytes::new();
    'more: while all.len() as u64 <= limit {
        let want = (limit - all.len() as u64).min(buffer.len() as u64 - 1) as usize + 1;
        let Ok(count) = src.read(&mut buffer[..want]) else {
            return Err(ReadEnd::Fault);
        };
        if count == 0 {
            return Ok(all);
        }
        all.extend(alloc, &buffer[..count])?;
    }
    Err(ReadEnd::Long(all))
}
