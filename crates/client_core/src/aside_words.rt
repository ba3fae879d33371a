//! The words of a command that concerns no message.
ghost use Rattle.wire_grammar.specs.Fits.{IsWithinLimits};

use wire_values::Words;

/// The words of such a command, within the limits of a command.
#[derive(Drop)]
pub(crate) struct AsideWords {
    pub(crate) words: Words,
    ghost limits: { IsWithinLimits words },
}
