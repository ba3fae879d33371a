//! What a line of a record says.
ghost use Rattle.std.specs.Prelude.{◌≡◌, ◌<◌, ◌≤◌, ◌^◌, [], IfOk, IfSome, codes};
ghost use Rattle.store_model.specs.Limits.{moment_limit};
ghost use Rattle.record_model.specs.Said.{Says};
ghost use Rattle.record_reading.specs.Reads.{HasReadHead, HasReadRow};

use crate::rest::Rest;
use history_records::Row;
use place_model::{Entry, Heard};
use std::alloc::{AllocError, Global};
use wire_spelling::command_fits;

/// What a line of a record after the header says. None where it isn't of the form of one, which no clause tells.
///
/// The words of a call fit as a command, and there is at least one; in its reply at most 64 arrays stand in one another.
/// A moment from 2^40 on, of however many digits, is given as 2^40.
pub fn read_row(alloc: Global, line: &str) -> Result<Option<Row>, AllocError>
    ensures { IfOk result (λ found. IfSome found (λ row. Says line.now row)) }
{
    let mut rest = Rest {
        bytes: line.as_bytes(),
    };
    let row = rest.row(alloc)?;
    if rest.is_empty() { Ok(row) } else { Ok(None) }
}

impl<'a> Rest<'a> {
    /// Reads a row.
    fn row(&mut self, alloc: Global) -> Result<Option<Row>, AllocError>
        ensures { IfOk result (λ found. IfSome found (λ row. HasReadRow [] self.old self.new row)) }
    {
        if self.pass(b"call ") {
            return self.call(alloc);
        }
        if self.pass(b"heard ") {
            return self.heard(alloc);
        }
        Ok(self.short_row())
    }

    /// Reads the row of a client or of a stop.
    fn short_row(&mut self) -> Option<Row>
        ensures { IfSome result (λ row. HasReadRow [] self.old self.new row) }
    {
        if self.pass(b"stop ") {
            let conn = self.connection()?;
            return Some(Row::Event(Entry::Stop { conn }));
        }
        if !self.pass(b"client ") {
            return None;
        }
        let connection = self.connection()?;
        if !self.pass(b" seed ") {
            return None;
        }
        let seed = self.number(u64::MAX)?;
        Some(Row::Client { connection, seed })
    }

    /// Reads the connection and the note of a client.
    fn heard(&mut self, alloc: Global) -> Result<Option<Row>, AllocError>
        ensures { IfOk result (λ found. IfSome found (λ row. HasReadRow (codes "heard ") self.old self.new row)) }
    {
        let Some(conn) = self.connection() else {
            return Ok(None);
        };
        if !self.pass(b" ") {
            return Ok(None);
        }
        let Some(heard) = self.note(alloc)? else {
            return Ok(None);
        };
        Ok(Some(Row::Event(Entry::Heard { conn, heard })))
    }

    /// Reads the moment and the connection of a call.
    fn call_head(&mut self) -> Option<(u64, u32)>
        ensures text { IfSome result (λ head. HasReadHead head.0 head.1 self.old self.new) }
        ensures bounds { IfSome result (λ head. (head.0 ≤ moment_limit) × (head.1 < 2 ^ 32)) }
    {
        let at = self.moment()?;
        if !self.pass(b" ") {
            return None;
        }
        let conn = self.connection()?;
        if !self.pass(b" ") {
            return None;
        }
        Some((at, conn))
    }

    /// Reads a call to the end of the line: its moment, its connection, its words and its reply.
    fn call(&mut self, alloc: Global) -> Result<Option<Row>, AllocError>
        ensures { IfOk result (λ found. IfSome found (λ row. HasReadRow (codes "call ") self.old self.new row)) }
    {
        let Some((at, conn)) = self.call_head() else {
            return Ok(None);
        };
        let Some(words) = self.words(alloc)? else {
            return Ok(None);
        };
        if words.as_slice().is_empty() || !command_fits(&words) || !self.pass(b" ") {
            return Ok(None);
        }
        let Some(reply) = self.reply(alloc)? else {
            return Ok(None);
        };
        Ok(Some(Row::Event(Entry::Call {
            conn,
            at,
            words,
            reply,
        })))
    }
}
