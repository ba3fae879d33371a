//! What a cursor over a client's commands asks of words, keys, tags and envelopes, by the keys without a prefix and Celery's
//! envelopes.
#![tactic(auto)]

mod kept;
mod keys;
mod popped;
mod tags;
mod way;
mod words;
mod written;

pub use kept::{KeptMessage, read_kept, read_way};
pub use keys::{exchange_in_key, is_pop, is_reply_key, queues_among};
pub use popped::{PoppedMessage, read_popped};
pub use tags::is_tag;
pub use way::MessageWay;
pub use words::{
    further, is_command, middle, same_words, says_four, says_one, says_three, says_two, second,
    third,
};
pub use written::{WrittenMessage, read_written};
