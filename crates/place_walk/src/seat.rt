//! What a walk over a history keeps of a client.
use message_acts::Act;
use wire_values::List;

/// What is kept of a client.
#[derive(Drop)]
pub struct ClientSeat {
    /// The message in its hand, by the number of its delivery tag.
    pub hand: Option<u128>,
    /// What its commands since MULTI do.
    pub acts: List<Act>,
    /// Whether its connection is gone.
    pub stopped: bool,
}
