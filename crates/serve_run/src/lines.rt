//! The line of a session that ended.
ghost use Rattle.std.specs.Prelude.{IfOk, string_bytes, ◌≡◌};
ghost use Rattle.serve_run.specs.Lines.{session_line, why_name};

use sessions::{SessionEnd, Why};
use std::alloc::{AllocError, Global};

/// Why a session ended, as its line has it.
pub fn why_name(why: Why) -> &'static str
    ensures { result.now ≡ why_name why }
{
    match why {
        Why::Ended => "ended",
        Why::Turns => "turns",
        Why::Wire { .. } => "wire",
        Why::NotWords => "not words",
        Why::Link => "link",
        Why::Full { .. } => "full",
        Why::Closed => "closed",
        Why::Memory => "memory",
    }
}

/// The line of the session of this number: `session <number> <why> <commands>`.
pub fn session_line(alloc: Global, number: u32, end: SessionEnd) -> Result<String, AllocError>
    ensures { IfOk result (λ line. string_bytes line ≡ session_line number end) }
{
    let SessionEnd { why, commands } = end;
    let why = why_name(why);
    format!(in alloc; "session {number} {why} {commands}\n")
}
