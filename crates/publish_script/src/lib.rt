//! Publish scripts: what a publisher is to declare and to publish, as lines of a text.
//!
//! The first line is `celery-publish 1`. Each other line is a block that is said (`publish` or `declare`, with the words
//! that they have in a schedule), or a moment for the next publish line (`eta` or `expires`). What a script determines is
//! defined in `specs/Scripts.antt`.
#![tactic(auto)]

mod draft;
mod reader;
mod script;

pub use reader::{PublishReader, PublishStep};
pub use script::{check_script, script_text};
