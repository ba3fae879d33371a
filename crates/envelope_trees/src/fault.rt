//! Why bytes are no envelope.
ghost use Rattle.std.specs.Prelude.{◌≡◌};
ghost use Rattle.envelope_trees.specs.declared.fault.EnvelopeFault.TheVariants.{Memory};

use std::alloc::AllocError;

/// A member that each envelope has, in the order in which they are looked at.
#[derive(Clone, Copy, Debug, PartialEq, Eq)]
pub enum Field {
    /// `body`, a text.
    Body,
    /// `content-encoding`, the text `utf-8` in any case.
    ContentEncoding,
    /// `content-type`, the text `application/json`.
    ContentType,
    /// `headers`, an object.
    Headers,
    /// `properties`, an object.
    Properties,
    /// `properties.body_encoding`, the text `base64`.
    BodyEncoding,
    /// `properties.delivery_tag`, a tag's text.
    DeliveryTag,
    /// `properties.delivery_info`, an object.
    DeliveryInfo,
    /// `properties.delivery_info.exchange`, a text.
    Exchange,
    /// `properties.delivery_info.routing_key`, a text.
    RoutingKey,
}

/// The first reason why bytes are no envelope or a draft can't be sealed, or want of memory.
#[derive(Clone, Copy, Debug, PartialEq, Eq)]
pub enum EnvelopeFault {
    /// Above 1,040,000 bytes, or 1,048,576 for an entry. Looked at last: an exchange or a routing key above 255
    /// bytes, compact text above 1,040,000 bytes, or above 1,000,000 bytes with both redelivered marks.
    TooLong,
    /// No JSON: not UTF-8, no JSON text, deeper than 127 levels, or a number that no float can hold. Also an entry
    /// that is no array of a value and two texts.
    NotJson,
    /// Arrays and objects nested more than 100 deep.
    TooDeep,
    /// A number that is no whole number of 64 bits.
    Float,
    /// The first member that is absent or of another kind.
    Missing(Field),
    /// `headers.compression` is there, and not null.
    Compressed,
    /// The body isn't the canonical padded base64 (RFC 4648) of UTF-8.
    BadBody,
    /// Want of memory.
    Memory,
}

impl From<AllocError> for EnvelopeFault {
    ghost from_gives = { λ _ e. e ≡ Memory };

    fn from(_e: AllocError) -> EnvelopeFault {
        EnvelopeFault::Memory
    }
}
