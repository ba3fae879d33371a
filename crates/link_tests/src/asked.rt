//! Commands asked of a desk, with what it answers written down.
use desks::{Desk, DeskFault};
use sessions::reply_onto;
use std::alloc::{AllocError, Global};
use wire_spelling::command_fits;
use wire_values::{Bytes, List, Words};

/// Words parted by blanks.
pub fn words_of(alloc: Global, line: &str) -> Result<Words, AllocError> {
    let mut words = List::new();
    for word in line.split(' ') {
        words.push(alloc, Bytes::from_slice(alloc, word.as_bytes())?)?;
    }
    Ok(words)
}

/// A fault in a word.
pub fn fault_text(fault: DeskFault) -> &'static str {
    match fault {
        DeskFault::Link => "(link)",
        DeskFault::Wire { .. } => "(wire)",
        DeskFault::Flood => "(flood)",
        DeskFault::Full { .. } => "(full)",
        DeskFault::Closed => "(closed)",
        DeskFault::Ended => "(ended)",
        DeskFault::Memory => "(memory)",
    }
}

/// Asks a command at moment 0, and appends the bytes of the reply, or the word of the fault.
pub fn ask<D: Desk>(
    alloc: Global,
    desk: &mut D,
    line: &str,
    out: &mut Vec<u8>,
) -> Result<(), AllocError> {
    let words = words_of(alloc, line)?;
    if !command_fits(&words) {
        return out.extend_from_slice(b"(unfit)");
    }
    match desk.ask(alloc, 0, &words) {
        Ok(reply) => reply_onto(alloc, out, &reply),
        Err(fault) => out.extend_from_slice(fault_text(fault).as_bytes()),
    }
}
