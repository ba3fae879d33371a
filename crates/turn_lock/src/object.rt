//! What a turn holds.
ghost use Rattle.std.specs.Prelude.{Bool, IfOk, ℕ, ◌≡◌};

use std::alloc::{AllocError, Global};

/// An object that is called. Its step relation says which answer a call gives, and what the object is afterwards.
pub trait Object: Drop {
    /// What it is asked.
    type Ask: Drop;
    /// What it answers.
    type Answer: Drop;

    /// What it may be asked, a condition on the ask alone.
    ghost fits: { Self.Ask → Type 0 };

    /// The object that was asked this answers that, and is then another.
    ghost steps: { Self → Self.Ask → Self.Answer → Self → Type 0 };

    /// Whether an ask is one whose answer is worth waiting for no longer.
    ghost is_ready: { Self → Self.Ask → Bool };

    /// What an ask and its answer cost in a history, in bytes.
    ghost costs: { Self.Ask → Self.Answer → ℕ };

    /// Asks it. Without memory it is spent.
    fn call(&mut self, alloc: Global, ask: &Self::Ask) -> Result<Self::Answer, AllocError>
        requires { fits ask.now }
        ensures { IfOk result (λ answer. steps self.old ask.now answer self.new) };

    /// An equal answer.
    fn copy(alloc: Global, answer: &Self::Answer) -> Result<Self::Answer, AllocError>
        ensures { IfOk result (λ made. made ≡ answer.now) };

    /// Whether an ask is one whose answer is worth waiting for no longer; takes no memory.
    fn ready(&self, ask: &Self::Ask) -> bool
        ensures { result ≡ is_ready self.now ask.now };

    /// What an ask and its answer cost in a history, in bytes; takes no memory.
    fn cost(ask: &Self::Ask, answer: &Self::Answer) -> u64
        ensures { result ≡ costs ask.now answer.now };
}
