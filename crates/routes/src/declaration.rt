//! What a declaration says.
ghost use Rattle.std.specs.Prelude.{◌≡◌, true};
ghost use Rattle.queue_keys.specs.Bindings.{is_part};

use queue_keys::QueueName;
use wire_values::Bytes;

/// What a declaration does with its binding.
#[derive(Clone, Copy, Debug)]
pub enum Change {
    /// It is added to its exchange's set (Kombu's `queue_bind`).
    Add,
    /// It is taken out of it.
    Remove,
}

/// The declaration of a binding: messages of the exchange whose routing key the pattern matches, or with an empty pattern
/// is the same, go to the queue.
///
/// Exchange, routing key and pattern have at most 255 bytes, none of them 06 or 16 (hexadecimal).
#[derive(Debug, Drop)]
pub struct Declaration {
    pub(crate) change: Change,
    pub(crate) exchange: Bytes,
    pub(crate) routing_key: Bytes,
    pub(crate) pattern: Bytes,
    pub(crate) queue: QueueName,
    ghost exchange_part: { is_part exchange ≡ true },
    ghost key_part: { is_part routing_key ≡ true },
    ghost pattern_part: { is_part pattern ≡ true },
}

impl Declaration {
    ghost use Rattle.routes.specs.Declares.{declaration_plan, declared_plan};

    /// The declaration of this binding; `lookups::is_part` tests what is required.
    pub fn new(
        change: Change,
        exchange: Bytes,
        routing_key: Bytes,
        pattern: Bytes,
        queue: QueueName,
    ) -> Declaration
        requires exchange { is_part exchange ≡ true }
        requires routing_key { is_part routing_key ≡ true }
        requires pattern { is_part pattern ≡ true }
        ensures { declaration_plan result ≡ declared_plan change exchange routing_key pattern queue }
    {
        Declaration {
            change,
            exchange,
            routing_key,
            pattern,
            queue,
        }
    }
}
