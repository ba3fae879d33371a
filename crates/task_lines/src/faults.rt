//! The names of faults.
use task_message::{Part, TaskFault};

/// The name of a part.
fn part_name(part: Part) -> &'static str {
    match part {
        Part::Body => "bad Body",
        Part::Name => "bad Name",
        Part::Id => "bad Id",
        Part::Args => "bad Args",
        Part::Kwargs => "bad Kwargs",
        Part::Embed => "bad Embed",
        Part::Retries => "bad Retries",
    }
}

/// The name of a fault.
pub(crate) fn fault_name(fault: TaskFault) -> &'static str {
    match fault {
        TaskFault::NoTask => "no task",
        TaskFault::Float => "float",
        TaskFault::BadField(part) => part_name(part),
        TaskFault::BadMoment => "bad moment",
        TaskFault::TooLong => "too long",
        TaskFault::Memory => "memory",
    }
}
