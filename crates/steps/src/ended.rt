//! How a client's block ended.
use passes::PassEnd;
use returns::Returned;
use routes::{Declared, PublishEnd};
use store_model::Reply;
use unacked::{Acked, PopEnd};

/// How a block ended, by its kind.
#[derive(Drop)]
pub enum BlockEnd {
    /// A declaration.
    Declare(Declared),
    /// A publication, of a draft or of a message that is sent again.
    Publish(PublishEnd),
    /// A pop.
    Pop(PopEnd),
    /// An acknowledgement.
    End(Acked),
    /// A return.
    Return(Returned),
    /// A pass.
    Pass(PassEnd),
    /// A command that concerns no message, with the reply to it.
    Neutral(Box<Reply>),
}
