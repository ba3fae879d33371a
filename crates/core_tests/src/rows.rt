//! Messages, and the commands that a store has to hear of them, each with its moment, the words parted by one space.
//!
//! The texts stand behind functions without clauses, so that no proof has to read them.

/// A message of `tasks.add` as Celery 5 writes it by Kombu's Redis transport, of priority 0.
pub fn message() -> &'static str {
    r#"{"body": "W1syLCAyXSwge30sIHsiY2FsbGJhY2tzIjogbnVsbCwgImVycmJhY2tzIjogbnVsbCwgImNoYWluIjogbnVsbCwgImNob3JkIjogbnVsbH1d", "content-encoding": "utf-8", "content-type": "application/json", "headers": {"lang": "py", "task": "tasks.add", "id": "c1"}, "properties": {"correlation_id": "c1", "reply_to": "r1", "delivery_mode": 2, "delivery_info": {"exchange": "", "routing_key": "celery"}, "priority": 0, "body_encoding": "base64", "delivery_tag": "00000000-0000-0007-0000-000000000001"}}"#
}

/// The same of priority 9.
pub fn urgent_message() -> &'static str {
    r#"{"body": "W1syLCAyXSwge30sIHsiY2FsbGJhY2tzIjogbnVsbCwgImVycmJhY2tzIjogbnVsbCwgImNoYWluIjogbnVsbCwgImNob3JkIjogbnVsbH1d", "content-encoding": "utf-8", "content-type": "application/json", "headers": {"lang": "py", "task": "tasks.add", "id": "c1"}, "properties": {"correlation_id": "c1", "reply_to": "r1", "delivery_mode": 2, "delivery_info": {"exchange": "", "routing_key": "celery"}, "priority": 9, "body_encoding": "base64", "delivery_tag": "00000000-0000-0007-0000-000000000001"}}"#
}

/// The same, to the exchange `ex` under the routing key `a.b`.
pub fn exchange_message() -> &'static str {
    r#"{"body": "W1syLCAyXSwge30sIHsiY2FsbGJhY2tzIjogbnVsbCwgImVycmJhY2tzIjogbnVsbCwgImNoYWluIjogbnVsbCwgImNob3JkIjogbnVsbH1d", "content-encoding": "utf-8", "content-type": "application/json", "headers": {"lang": "py", "task": "tasks.add", "id": "c1"}, "properties": {"correlation_id": "c1", "reply_to": "r1", "delivery_mode": 2, "delivery_info": {"exchange": "ex", "routing_key": "a.b"}, "priority": 0, "body_encoding": "base64", "delivery_tag": "00000000-0000-0007-0000-000000000001"}}"#
}

/// The commands that pop the message.
pub fn pop_rows() -> &'static [(u32, &'static str)] {
    &[
        (
            100,
            "BRPOP celery celery\x06\x163 celery\x06\x166 celery\x06\x169 1",
        ),
        (101, "MULTI"),
        (
            102,
            "ZADD unacked_index 102 00000000-0000-0007-0000-000000000001",
        ),
        (
            103,
            r#"HSET unacked 00000000-0000-0007-0000-000000000001 [{"body":"W1syLCAyXSwge30sIHsiY2FsbGJhY2tzIjogbnVsbCwgImVycmJhY2tzIjogbnVsbCwgImNoYWluIjogbnVsbCwgImNob3JkIjogbnVsbH1d","content-encoding":"utf-8","content-type":"application/json","headers":{"id":"c1","lang":"py","task":"tasks.add"},"properties":{"body_encoding":"base64","correlation_id":"c1","delivery_info":{"exchange":"","routing_key":"celery"},"delivery_mode":2,"delivery_tag":"00000000-0000-0007-0000-000000000001","priority":0,"reply_to":"r1"}},"","celery"]"#,
        ),
        (104, "EXEC"),
    ]
}

/// The commands that acknowledge it.
pub fn end_rows() -> &'static [(u32, &'static str)] {
    &[
        (105, "MULTI"),
        (
            106,
            "ZREM unacked_index 00000000-0000-0007-0000-000000000001",
        ),
        (107, "HDEL unacked 00000000-0000-0007-0000-000000000001"),
        (108, "EXEC"),
    ]
}

/// The command that publishes the urgent message: the envelope is compact, its members in order.
pub fn publish_rows() -> &'static [(u32, &'static str)] {
    &[(
        99,
        concat!(
            "LPUSH celery\x06\x169 ",
            r#"{"body":"W1syLCAyXSwge30sIHsiY2FsbGJhY2tzIjogbnVsbCwgImVycmJhY2tzIjogbnVsbCwgImNoYWluIjogbnVsbCwgImNob3JkIjogbnVsbH1d","content-encoding":"utf-8","content-type":"application/json","headers":{"id":"c1","lang":"py","task":"tasks.add"},"properties":{"body_encoding":"base64","correlation_id":"c1","delivery_info":{"exchange":"","routing_key":"celery"},"delivery_mode":2,"delivery_tag":"00000000-0000-0007-0000-000000000001","priority":9,"reply_to":"r1"}}"#
        ),
    )]
}

/// A declaration on the exchange `ex`: the routing key, the pattern and the queue of its binding; whether it is added, or
/// taken out; the command; and whether it changes the exchange's set.
pub type DeclareRow = (
    &'static str,
    &'static str,
    &'static str,
    bool,
    &'static str,
    bool,
);

/// Declarations, one after the other.
pub fn declare_rows() -> &'static [DeclareRow] {
    &[
        (
            "a.b",
            "",
            "q1",
            true,
            "SADD _kombu.binding.ex a.b\x06\x16\x06\x16q1",
            true,
        ),
        (
            "a.b",
            "",
            "q1",
            true,
            "SADD _kombu.binding.ex a.b\x06\x16\x06\x16q1",
            false,
        ),
        (
            "a.b",
            "",
            "q1",
            false,
            "SREM _kombu.binding.ex a.b\x06\x16\x06\x16q1",
            true,
        ),
        (
            "a.b",
            "",
            "q1",
            false,
            "SREM _kombu.binding.ex a.b\x06\x16\x06\x16q1",
            false,
        ),
        (
            "z",
            "#",
            "q2",
            true,
            "SADD _kombu.binding.ex z\x06\x16#\x06\x16q2",
            true,
        ),
        (
            "",
            "*.b",
            "q1",
            true,
            "SADD _kombu.binding.ex \x06\x16*.b\x06\x16q1",
            true,
        ),
        (
            "a",
            "",
            "q3",
            true,
            "SADD _kombu.binding.ex a\x06\x16\x06\x16q3",
            true,
        ),
    ]
}

/// The command of a publication on the exchange before any binding is declared.
pub fn unbound_rows() -> &'static [(u32, &'static str)] {
    &[(99, "SMEMBERS _kombu.binding.ex")]
}

/// The commands of a publication on the exchange after these declarations, by which two queues get the message.
pub fn bound_rows() -> &'static [(u32, &'static str)] {
    &[
        (99, "SMEMBERS _kombu.binding.ex"),
        (
            100,
            concat!(
                "LPUSH q1 ",
                r#"{"body":"W1syLCAyXSwge30sIHsiY2FsbGJhY2tzIjogbnVsbCwgImVycmJhY2tzIjogbnVsbCwgImNoYWluIjogbnVsbCwgImNob3JkIjogbnVsbH1d","content-encoding":"utf-8","content-type":"application/json","headers":{"id":"c1","lang":"py","task":"tasks.add"},"properties":{"body_encoding":"base64","correlation_id":"c1","delivery_info":{"exchange":"ex","routing_key":"a.b"},"delivery_mode":2,"delivery_tag":"00000000-0000-0007-0000-000000000001","priority":0,"reply_to":"r1"}}"#
            ),
        ),
        (
            101,
            concat!(
                "LPUSH q2 ",
                r#"{"body":"W1syLCAyXSwge30sIHsiY2FsbGJhY2tzIjogbnVsbCwgImVycmJhY2tzIjogbnVsbCwgImNoYWluIjogbnVsbCwgImNob3JkIjogbnVsbH1d","content-encoding":"utf-8","content-type":"application/json","headers":{"id":"c1","lang":"py","task":"tasks.add"},"properties":{"body_encoding":"base64","correlation_id":"c1","delivery_info":{"exchange":"ex","routing_key":"a.b"},"delivery_mode":2,"delivery_tag":"00000000-0000-0007-0000-000000000001","priority":0,"reply_to":"r1"}}"#
            ),
        ),
    ]
}
