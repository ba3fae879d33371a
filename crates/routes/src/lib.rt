//! The blocks that send messages on their way: a publication and a declaration, each a stage of a
//! `block_core::BlockCore` with its end; and the round in which a consumer looks at its queues.
#![tactic(auto)]

mod brought;
mod cycle;
mod declaration;
mod declare;
mod publish;
mod route;
mod stage;

pub use cycle::Cycle;
pub use declaration::{Change, Declaration};
pub use declare::{DeclareCore, DeclareStage, Declared, declare_core};
pub use publish::{PublishCore, PublishEnd, publish_core};
pub use stage::PublishStage;
