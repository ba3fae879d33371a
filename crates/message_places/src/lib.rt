//! Where messages are, told of the bytes that Celery's clients write: the place theorem and its companions for every
//! lawful layout of keys, with envelopes, entries and tags as they are read and written. Nothing abstract is left: what is
//! premised is a lawful layout, a sound history and what each law says of it.
#![tactic(auto)]

mod identity;
mod manner;
mod passes;
mod places;
mod texts;

pub use identity::{fresh_tag, one_publication, one_tree, origin};
pub use manner::{cursor_exact, cursor_steps};
pub use passes::{pass_accounts, pass_reads, whole_pass};
pub use places::{a_stop, no_place, one_place, prefixes, somewhere, whole_return};
pub use texts::{layouts_serve, layouts_tell, texts_serve};
