//! A history as its record.
ghost use Rattle.std.specs.Prelude.{◌≡◌, IfOk};
ghost use Rattle.place_model.specs.Shown.{history_of};
ghost use Rattle.history_records.specs.Records.{record_text};

use crate::client_rows::client_rows;
use crate::entry_rows::entry_rows;
use place_model::History;
use std::alloc::{AllocError, Global};
use wire_values::Bytes;

/// The record of a history: the line `celery-record 1`, a line for each client by its connection, and a line for each
/// entry in order.
pub fn write_history(alloc: Global, history: &History) -> Result<Bytes, AllocError>
    ensures { IfOk result (λ text. text ≡ record_text (history_of history.now)) }
{
    let mut out = Vec::from_slice(alloc, b"celery-record 1\n")?;
    client_rows(alloc, &mut out, history.clients())?;
    entry_rows(alloc, &mut out, history.entries())?;
    Ok(Bytes::from_vec(out))
}
