//! Entries of the table, and the commands that return them, each with its moment, the words parted by one space.
//!
//! The texts stand behind functions without clauses, so that no proof has to read them.

/// The text of the tag of the message.
pub fn tag_text() -> &'static str {
    "00000000-0000-0007-0000-000000000001"
}

/// The command that puts an entry of the message into the table, but for the entry.
pub fn hset_line() -> &'static str {
    "HSET unacked 00000000-0000-0007-0000-000000000001"
}

/// The message as an entry that returns to its queue directly.
pub fn plain_entry() -> &'static str {
    r#"[{"body":"W1syLCAyXSwge30sIHsiY2FsbGJhY2tzIjogbnVsbCwgImVycmJhY2tzIjogbnVsbCwgImNoYWluIjogbnVsbCwgImNob3JkIjogbnVsbH1d","content-encoding":"utf-8","content-type":"application/json","headers":{"id":"c1","lang":"py","task":"tasks.add"},"properties":{"body_encoding":"base64","correlation_id":"c1","delivery_info":{"exchange":"","routing_key":"celery"},"delivery_mode":2,"delivery_tag":"00000000-0000-0007-0000-000000000001","priority":9,"reply_to":"r1"}},"","celery"]"#
}

/// The message as an entry of an exchange with a name, which the envelope doesn't tell.
pub fn named_entry() -> &'static str {
    r#"[{"body":"W1syLCAyXSwge30sIHsiY2FsbGJhY2tzIjogbnVsbCwgImVycmJhY2tzIjogbnVsbCwgImNoYWluIjogbnVsbCwgImNob3JkIjogbnVsbH1d","content-encoding":"utf-8","content-type":"application/json","headers":{"id":"c1","lang":"py","task":"tasks.add"},"properties":{"body_encoding":"base64","correlation_id":"c1","delivery_info":{"exchange":"","routing_key":"celery"},"delivery_mode":2,"delivery_tag":"00000000-0000-0007-0000-000000000001","priority":9,"reply_to":"r1"}},"ex","rk"]"#
}

/// The message as an entry that returns to no queue.
pub fn lost_entry() -> &'static str {
    r#"[{"body":"W1syLCAyXSwge30sIHsiY2FsbGJhY2tzIjogbnVsbCwgImVycmJhY2tzIjogbnVsbCwgImNoYWluIjogbnVsbCwgImNob3JkIjogbnVsbH1d","content-encoding":"utf-8","content-type":"application/json","headers":{"id":"c1","lang":"py","task":"tasks.add"},"properties":{"body_encoding":"base64","correlation_id":"c1","delivery_info":{"exchange":"","routing_key":"celery"},"delivery_mode":2,"delivery_tag":"00000000-0000-0007-0000-000000000001","priority":9,"reply_to":"r1"}},"","unacked"]"#
}

/// An entry of another message.
pub fn other_entry() -> &'static str {
    r#"[{"body":"W1syLCAyXSwge30sIHsiY2FsbGJhY2tzIjogbnVsbCwgImVycmJhY2tzIjogbnVsbCwgImNoYWluIjogbnVsbCwgImNob3JkIjogbnVsbH1d","content-encoding":"utf-8","content-type":"application/json","headers":{"id":"c1","lang":"py","task":"tasks.add"},"properties":{"body_encoding":"base64","correlation_id":"c1","delivery_info":{"exchange":"","routing_key":"celery"},"delivery_mode":2,"delivery_tag":"00000000-0000-0007-0000-000000000002","priority":9,"reply_to":"r1"}},"","celery"]"#
}

/// The commands that return the message to the tail of its queue.
pub fn restore_rows() -> &'static [(u32, &'static str)] {
    &[
        (200, "WATCH unacked"),
        (200, "HGET unacked 00000000-0000-0007-0000-000000000001"),
        (201, "MULTI"),
        (
            201,
            "ZREM unacked_index 00000000-0000-0007-0000-000000000001",
        ),
        (201, "HDEL unacked 00000000-0000-0007-0000-000000000001"),
        (
            202,
            concat!(
                "RPUSH celery\x06\x169 ",
                r#"{"body":"W1syLCAyXSwge30sIHsiY2FsbGJhY2tzIjogbnVsbCwgImVycmJhY2tzIjogbnVsbCwgImNoYWluIjogbnVsbCwgImNob3JkIjogbnVsbH1d","content-encoding":"utf-8","content-type":"application/json","headers":{"id":"c1","lang":"py","redelivered":true,"task":"tasks.add"},"properties":{"body_encoding":"base64","correlation_id":"c1","delivery_info":{"exchange":"","redelivered":true,"routing_key":"celery"},"delivery_mode":2,"delivery_tag":"00000000-0000-0007-0000-000000000001","priority":9,"reply_to":"r1"}}"#
            ),
        ),
        (203, "EXEC"),
    ]
}

/// The commands that return it to the head of its queue.
pub fn requeue_rows() -> &'static [(u32, &'static str)] {
    &[
        (200, "WATCH unacked"),
        (200, "HGET unacked 00000000-0000-0007-0000-000000000001"),
        (201, "MULTI"),
        (
            201,
            "ZREM unacked_index 00000000-0000-0007-0000-000000000001",
        ),
        (201, "HDEL unacked 00000000-0000-0007-0000-000000000001"),
        (
            202,
            concat!(
                "LPUSH celery\x06\x169 ",
                r#"{"body":"W1syLCAyXSwge30sIHsiY2FsbGJhY2tzIjogbnVsbCwgImVycmJhY2tzIjogbnVsbCwgImNoYWluIjogbnVsbCwgImNob3JkIjogbnVsbH1d","content-encoding":"utf-8","content-type":"application/json","headers":{"id":"c1","lang":"py","redelivered":true,"task":"tasks.add"},"properties":{"body_encoding":"base64","correlation_id":"c1","delivery_info":{"exchange":"","redelivered":true,"routing_key":"celery"},"delivery_mode":2,"delivery_tag":"00000000-0000-0007-0000-000000000001","priority":9,"reply_to":"r1"}}"#
            ),
        ),
        (203, "EXEC"),
    ]
}

/// The commands that return it by the exchange of its entry.
pub fn named_rows() -> &'static [(u32, &'static str)] {
    &[
        (200, "WATCH unacked"),
        (200, "HGET unacked 00000000-0000-0007-0000-000000000001"),
        (200, "SMEMBERS _kombu.binding.ex"),
        (201, "MULTI"),
        (
            201,
            "ZREM unacked_index 00000000-0000-0007-0000-000000000001",
        ),
        (201, "HDEL unacked 00000000-0000-0007-0000-000000000001"),
        (
            202,
            concat!(
                "RPUSH mail\x06\x169 ",
                r#"{"body":"W1syLCAyXSwge30sIHsiY2FsbGJhY2tzIjogbnVsbCwgImVycmJhY2tzIjogbnVsbCwgImNoYWluIjogbnVsbCwgImNob3JkIjogbnVsbH1d","content-encoding":"utf-8","content-type":"application/json","headers":{"id":"c1","lang":"py","redelivered":true,"task":"tasks.add"},"properties":{"body_encoding":"base64","correlation_id":"c1","delivery_info":{"exchange":"","redelivered":true,"routing_key":"celery"},"delivery_mode":2,"delivery_tag":"00000000-0000-0007-0000-000000000001","priority":9,"reply_to":"r1"}}"#
            ),
        ),
        (203, "EXEC"),
    ]
}

/// The commands of a return that leaves after HGET.
pub fn leave_rows() -> &'static [(u32, &'static str)] {
    &[
        (200, "WATCH unacked"),
        (200, "HGET unacked 00000000-0000-0007-0000-000000000001"),
        (201, "UNWATCH"),
    ]
}

/// The commands of a return that leaves after the bindings.
pub fn unbound_rows() -> &'static [(u32, &'static str)] {
    &[
        (200, "WATCH unacked"),
        (200, "HGET unacked 00000000-0000-0007-0000-000000000001"),
        (200, "SMEMBERS _kombu.binding.ex"),
        (201, "UNWATCH"),
    ]
}
