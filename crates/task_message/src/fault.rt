//! Why an envelope carries no task.
ghost use Rattle.std.specs.Prelude.{◌≡◌};
ghost use Rattle.task_message.specs.declared.fault.TaskFault.TheVariants.{Memory};

use std::alloc::AllocError;

/// A part of a task, in the order in which they are looked at.
#[derive(Clone, Copy, PartialEq, Eq)]
pub enum Part {
    /// The content: JSON that nests at most 100 deep, and in version 2 an array of three.
    Body,
    /// The name, a text that isn't empty.
    Name,
    /// The id, a text that isn't empty.
    Id,
    /// The positional arguments, an array.
    Args,
    /// The keyword arguments, an object.
    Kwargs,
    /// What a message of version 2 has beside the arguments, an object.
    Embed,
    /// The number of retries, a whole number of 32 bits, null or absent.
    Retries,
}

/// The first reason why an envelope carries no task or can't be sent again, or want of memory.
#[derive(Clone, Copy, PartialEq, Eq)]
pub enum TaskFault {
    /// A message of version 1 whose content is no object with a text `task`.
    NoTask,
    /// The content holds a number that is no whole number of 64 bits.
    Float,
    /// The first part that is absent or of another kind.
    BadField(Part),
    /// `eta` or `expires` is there, not null, and no text of a moment.
    BadMoment,
    /// A message that is sent again would be longer than an envelope may be.
    TooLong,
    /// Want of memory.
    Memory,
}

impl From<AllocError> for TaskFault {
    ghost from_gives = { λ _ e. e ≡ Memory };

    fn from(_e: AllocError) -> TaskFault {
        TaskFault::Memory
    }
}
