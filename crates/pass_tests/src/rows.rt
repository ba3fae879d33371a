//! What clients say beside a pass, and what the pass says then.
//!
//! The texts stand behind functions without clauses, so that no proof has to read them.
use crate::talk::Row;

/// The message was popped at 100 by a client that stopped, and a pass at 3700 returns it.
pub fn restored_rows() -> &'static [Row] {
    &[
        (
            1,
            100,
            r#"HSET unacked 00000000-0000-0007-0000-000000000001 [{"body":"W1syLDNdLHt9LHsiY2FsbGJhY2tzIjpudWxsLCJjaGFpbiI6bnVsbCwiY2hvcmQiOm51bGwsImVycmJhY2tzIjpudWxsfV0=","content-encoding":"utf-8","content-type":"application/json","headers":{"id":"c1","lang":"py","task":"tasks.add"},"properties":{"body_encoding":"base64","correlation_id":"c1","delivery_info":{"exchange":"","routing_key":"celery"},"delivery_mode":2,"delivery_tag":"00000000-0000-0007-0000-000000000001","priority":0,"reply_to":"r1"}},"","celery"]"#,
        ),
        (
            1,
            100,
            "ZADD unacked_index 100 00000000-0000-0007-0000-000000000001",
        ),
        (2, 3700, "SET unacked_mutex 9:1 NX EX 300"),
        (2, 3700, "ZREVRANGEBYSCORE unacked_index 100 0 LIMIT 0 10"),
        (2, 3700, "WATCH unacked"),
        (2, 3700, "HGET unacked 00000000-0000-0007-0000-000000000001"),
        (2, 3700, "MULTI"),
        (
            2,
            3700,
            "ZREM unacked_index 00000000-0000-0007-0000-000000000001",
        ),
        (2, 3700, "HDEL unacked 00000000-0000-0007-0000-000000000001"),
        (
            2,
            3700,
            r#"RPUSH celery {"body":"W1syLDNdLHt9LHsiY2FsbGJhY2tzIjpudWxsLCJjaGFpbiI6bnVsbCwiY2hvcmQiOm51bGwsImVycmJhY2tzIjpudWxsfV0=","content-encoding":"utf-8","content-type":"application/json","headers":{"id":"c1","lang":"py","redelivered":true,"task":"tasks.add"},"properties":{"body_encoding":"base64","correlation_id":"c1","delivery_info":{"exchange":"","redelivered":true,"routing_key":"celery"},"delivery_mode":2,"delivery_tag":"00000000-0000-0007-0000-000000000001","priority":0,"reply_to":"r1"}}"#,
        ),
        (2, 3700, "EXEC"),
        (2, 3700, "WATCH unacked_mutex"),
        (2, 3700, "GET unacked_mutex"),
        (2, 3700, "MULTI"),
        (2, 3700, "DEL unacked_mutex"),
        (2, 3700, "EXEC"),
    ]
}

/// A pass one second earlier finds nothing due.
pub fn early_rows() -> &'static [Row] {
    &[
        (
            1,
            100,
            r#"HSET unacked 00000000-0000-0007-0000-000000000001 [{"body":"W1syLDNdLHt9LHsiY2FsbGJhY2tzIjpudWxsLCJjaGFpbiI6bnVsbCwiY2hvcmQiOm51bGwsImVycmJhY2tzIjpudWxsfV0=","content-encoding":"utf-8","content-type":"application/json","headers":{"id":"c1","lang":"py","task":"tasks.add"},"properties":{"body_encoding":"base64","correlation_id":"c1","delivery_info":{"exchange":"","routing_key":"celery"},"delivery_mode":2,"delivery_tag":"00000000-0000-0007-0000-000000000001","priority":0,"reply_to":"r1"}},"","celery"]"#,
        ),
        (
            1,
            100,
            "ZADD unacked_index 100 00000000-0000-0007-0000-000000000001",
        ),
        (2, 3699, "SET unacked_mutex 9:1 NX EX 300"),
        (2, 3699, "ZREVRANGEBYSCORE unacked_index 99 0 LIMIT 0 10"),
        (2, 3699, "WATCH unacked_mutex"),
        (2, 3699, "GET unacked_mutex"),
        (2, 3699, "MULTI"),
        (2, 3699, "DEL unacked_mutex"),
        (2, 3699, "EXEC"),
    ]
}

/// Eleven tags are due: the ten youngest are returned, of two at the same moment the greater text first. One has its
/// entry, one a text that is no entry, and eight are gone from the table.
pub fn eleven_rows() -> &'static [Row] {
    &[
        (
            1,
            100,
            "ZADD unacked_index 100 00000000-0000-0007-0000-000000000001",
        ),
        (
            1,
            101,
            "ZADD unacked_index 101 00000000-0000-0007-0000-000000000002",
        ),
        (
            1,
            102,
            "ZADD unacked_index 102 00000000-0000-0007-0000-000000000003",
        ),
        (
            1,
            103,
            "ZADD unacked_index 103 00000000-0000-0007-0000-000000000004",
        ),
        (
            1,
            104,
            "ZADD unacked_index 104 00000000-0000-0007-0000-000000000005",
        ),
        (
            1,
            105,
            "ZADD unacked_index 105 00000000-0000-0007-0000-000000000006",
        ),
        (
            1,
            106,
            "ZADD unacked_index 106 00000000-0000-0007-0000-000000000007",
        ),
        (
            1,
            107,
            "ZADD unacked_index 107 00000000-0000-0007-0000-000000000008",
        ),
        (
            1,
            108,
            "ZADD unacked_index 108 00000000-0000-0007-0000-000000000009",
        ),
        (
            1,
            109,
            "ZADD unacked_index 109 00000000-0000-0007-0000-00000000000a",
        ),
        (
            1,
            109,
            "ZADD unacked_index 109 00000000-0000-0007-0000-00000000000b",
        ),
        (
            1,
            109,
            r#"HSET unacked 00000000-0000-0007-0000-00000000000b [{"body":"W1syLDNdLHt9LHsiY2FsbGJhY2tzIjpudWxsLCJjaGFpbiI6bnVsbCwiY2hvcmQiOm51bGwsImVycmJhY2tzIjpudWxsfV0=","content-encoding":"utf-8","content-type":"application/json","headers":{"id":"c1","lang":"py","task":"tasks.add"},"properties":{"body_encoding":"base64","correlation_id":"c1","delivery_info":{"exchange":"","routing_key":"celery"},"delivery_mode":2,"delivery_tag":"00000000-0000-0007-0000-00000000000b","priority":0,"reply_to":"r1"}},"","celery"]"#,
        ),
        (
            1,
            109,
            "HSET unacked 00000000-0000-0007-0000-000000000009 text",
        ),
        (2, 4000, "SET unacked_mutex 9:1 NX EX 300"),
        (2, 4000, "ZREVRANGEBYSCORE unacked_index 400 0 LIMIT 0 10"),
        (2, 4000, "WATCH unacked"),
        (2, 4000, "HGET unacked 00000000-0000-0007-0000-00000000000b"),
        (2, 4000, "MULTI"),
        (
            2,
            4000,
            "ZREM unacked_index 00000000-0000-0007-0000-00000000000b",
        ),
        (2, 4000, "HDEL unacked 00000000-0000-0007-0000-00000000000b"),
        (
            2,
            4000,
            r#"RPUSH celery {"body":"W1syLDNdLHt9LHsiY2FsbGJhY2tzIjpudWxsLCJjaGFpbiI6bnVsbCwiY2hvcmQiOm51bGwsImVycmJhY2tzIjpudWxsfV0=","content-encoding":"utf-8","content-type":"application/json","headers":{"id":"c1","lang":"py","redelivered":true,"task":"tasks.add"},"properties":{"body_encoding":"base64","correlation_id":"c1","delivery_info":{"exchange":"","redelivered":true,"routing_key":"celery"},"delivery_mode":2,"delivery_tag":"00000000-0000-0007-0000-00000000000b","priority":0,"reply_to":"r1"}}"#,
        ),
        (2, 4000, "EXEC"),
        (2, 4000, "WATCH unacked"),
        (2, 4000, "HGET unacked 00000000-0000-0007-0000-00000000000a"),
        (2, 4000, "UNWATCH"),
        (2, 4000, "WATCH unacked"),
        (2, 4000, "HGET unacked 00000000-0000-0007-0000-000000000009"),
        (2, 4000, "UNWATCH"),
        (2, 4000, "WATCH unacked"),
        (2, 4000, "HGET unacked 00000000-0000-0007-0000-000000000008"),
        (2, 4000, "UNWATCH"),
        (2, 4000, "WATCH unacked"),
        (2, 4000, "HGET unacked 00000000-0000-0007-0000-000000000007"),
        (2, 4000, "UNWATCH"),
        (2, 4000, "WATCH unacked"),
        (2, 4000, "HGET unacked 00000000-0000-0007-0000-000000000006"),
        (2, 4000, "UNWATCH"),
        (2, 4000, "WATCH unacked"),
        (2, 4000, "HGET unacked 00000000-0000-0007-0000-000000000005"),
        (2, 4000, "UNWATCH"),
        (2, 4000, "WATCH unacked"),
        (2, 4000, "HGET unacked 00000000-0000-0007-0000-000000000004"),
        (2, 4000, "UNWATCH"),
        (2, 4000, "WATCH unacked"),
        (2, 4000, "HGET unacked 00000000-0000-0007-0000-000000000003"),
        (2, 4000, "UNWATCH"),
        (2, 4000, "WATCH unacked"),
        (2, 4000, "HGET unacked 00000000-0000-0007-0000-000000000002"),
        (2, 4000, "UNWATCH"),
        (2, 4000, "WATCH unacked_mutex"),
        (2, 4000, "GET unacked_mutex"),
        (2, 4000, "MULTI"),
        (2, 4000, "DEL unacked_mutex"),
        (2, 4000, "EXEC"),
    ]
}

/// What is no tag's text in the index is passed over.
pub fn other_member_rows() -> &'static [Row] {
    &[
        (1, 100, "ZADD unacked_index 100 other"),
        (2, 3700, "SET unacked_mutex 9:1 NX EX 300"),
        (2, 3700, "ZREVRANGEBYSCORE unacked_index 100 0 LIMIT 0 10"),
        (2, 3700, "WATCH unacked_mutex"),
        (2, 3700, "GET unacked_mutex"),
        (2, 3700, "MULTI"),
        (2, 3700, "DEL unacked_mutex"),
        (2, 3700, "EXEC"),
    ]
}

/// Another pass has the mutex.
pub fn held_rows() -> &'static [Row] {
    &[
        (3, 100, "SET unacked_mutex 10:1 NX EX 300"),
        (2, 399, "SET unacked_mutex 9:1 NX EX 300"),
    ]
}

/// The other pass had it for 300 seconds, and it is taken anew.
pub fn expired_rows() -> &'static [Row] {
    &[
        (3, 100, "SET unacked_mutex 10:1 NX EX 300"),
        (2, 400, "SET unacked_mutex 9:1 NX EX 300"),
        (2, 400, "ZREVRANGEBYSCORE unacked_index -3200 0 LIMIT 0 10"),
        (2, 400, "WATCH unacked_mutex"),
        (2, 400, "GET unacked_mutex"),
        (2, 400, "MULTI"),
        (2, 400, "DEL unacked_mutex"),
        (2, 400, "EXEC"),
    ]
}

/// The mutex expires within a pass, and another takes it: it is left to the other.
pub fn foreign_rows() -> &'static [Row] {
    &[
        (2, 100, "SET unacked_mutex 9:1 NX EX 300"),
        (3, 400, "SET unacked_mutex 10:2 NX EX 300"),
        (2, 400, "ZREVRANGEBYSCORE unacked_index -3200 0 LIMIT 0 10"),
        (2, 400, "WATCH unacked_mutex"),
        (2, 400, "GET unacked_mutex"),
        (2, 400, "UNWATCH"),
    ]
}

/// The mutex expires within a pass, and nobody takes it.
pub fn lost_rows() -> &'static [Row] {
    &[
        (2, 100, "SET unacked_mutex 9:1 NX EX 300"),
        (2, 400, "ZREVRANGEBYSCORE unacked_index -3200 0 LIMIT 0 10"),
        (2, 400, "WATCH unacked_mutex"),
        (2, 400, "GET unacked_mutex"),
        (2, 400, "UNWATCH"),
    ]
}

/// Another client takes the mutex between GET and EXEC: it isn't deleted.
pub fn raced_rows() -> &'static [Row] {
    &[
        (2, 100, "SET unacked_mutex 9:1 NX EX 300"),
        (2, 399, "ZREVRANGEBYSCORE unacked_index -3201 0 LIMIT 0 10"),
        (2, 399, "WATCH unacked_mutex"),
        (2, 399, "GET unacked_mutex"),
        (3, 400, "SET unacked_mutex 10:2 NX EX 300"),
        (2, 400, "MULTI"),
        (2, 400, "DEL unacked_mutex"),
        (2, 400, "EXEC"),
    ]
}

/// Two messages are due, and the pass read their tags.
pub fn due_rows() -> &'static [Row] {
    &[
        (
            1,
            100,
            r#"HSET unacked 00000000-0000-0007-0000-000000000001 [{"body":"W1syLDNdLHt9LHsiY2FsbGJhY2tzIjpudWxsLCJjaGFpbiI6bnVsbCwiY2hvcmQiOm51bGwsImVycmJhY2tzIjpudWxsfV0=","content-encoding":"utf-8","content-type":"application/json","headers":{"id":"c1","lang":"py","task":"tasks.add"},"properties":{"body_encoding":"base64","correlation_id":"c1","delivery_info":{"exchange":"","routing_key":"celery"},"delivery_mode":2,"delivery_tag":"00000000-0000-0007-0000-000000000001","priority":0,"reply_to":"r1"}},"","celery"]"#,
        ),
        (
            1,
            100,
            "ZADD unacked_index 100 00000000-0000-0007-0000-000000000001",
        ),
        (
            1,
            100,
            r#"HSET unacked 00000000-0000-0007-0000-000000000002 [{"body":"W1syLDNdLHt9LHsiY2FsbGJhY2tzIjpudWxsLCJjaGFpbiI6bnVsbCwiY2hvcmQiOm51bGwsImVycmJhY2tzIjpudWxsfV0=","content-encoding":"utf-8","content-type":"application/json","headers":{"id":"c1","lang":"py","task":"tasks.add"},"properties":{"body_encoding":"base64","correlation_id":"c1","delivery_info":{"exchange":"","routing_key":"celery"},"delivery_mode":2,"delivery_tag":"00000000-0000-0007-0000-000000000002","priority":0,"reply_to":"r1"}},"","celery"]"#,
        ),
        (
            1,
            101,
            "ZADD unacked_index 101 00000000-0000-0007-0000-000000000002",
        ),
        (2, 3701, "SET unacked_mutex 9:1 NX EX 300"),
        (2, 3701, "ZREVRANGEBYSCORE unacked_index 101 0 LIMIT 0 10"),
    ]
}

/// A try to return the younger, within which another client alters the table.
pub fn failed_rows() -> &'static [Row] {
    &[
        (2, 3701, "WATCH unacked"),
        (2, 3701, "HGET unacked 00000000-0000-0007-0000-000000000002"),
        (2, 3701, "MULTI"),
        (
            2,
            3701,
            "ZREM unacked_index 00000000-0000-0007-0000-000000000002",
        ),
        (2, 3701, "HDEL unacked 00000000-0000-0007-0000-000000000002"),
        (
            2,
            3701,
            r#"RPUSH celery {"body":"W1syLDNdLHt9LHsiY2FsbGJhY2tzIjpudWxsLCJjaGFpbiI6bnVsbCwiY2hvcmQiOm51bGwsImVycmJhY2tzIjpudWxsfV0=","content-encoding":"utf-8","content-type":"application/json","headers":{"id":"c1","lang":"py","redelivered":true,"task":"tasks.add"},"properties":{"body_encoding":"base64","correlation_id":"c1","delivery_info":{"exchange":"","redelivered":true,"routing_key":"celery"},"delivery_mode":2,"delivery_tag":"00000000-0000-0007-0000-000000000002","priority":0,"reply_to":"r1"}}"#,
        ),
        (3, 3701, "HSET unacked other text"),
        (2, 3701, "EXEC"),
    ]
}

/// The release after a contended return.
pub fn release_rows() -> &'static [Row] {
    &[
        (2, 3702, "WATCH unacked_mutex"),
        (2, 3702, "GET unacked_mutex"),
        (2, 3702, "MULTI"),
        (2, 3702, "DEL unacked_mutex"),
        (2, 3702, "EXEC"),
    ]
}
