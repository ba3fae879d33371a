//! The store's limits, each met and passed by one.

/// The scripts.
pub fn scripts() -> &'static str {
    r#"
== A member has at most 1024 bytes, also as a field or a score's member; a value may have more.
0 1 SADD s a x{1025} = -"ERR full"
0 1 SMEMBERS x = *[]
0 1 SADD s a x{1024} = :2
0 1 SREM s x{1025} = :0
0 1 SREM s x{1024} = :1
0 1 ZADD z 1 x{1025} = -"ERR full"
0 1 ZADD z 1 x{1024} = :1
0 1 ZREM z x{1025} = :0
0 1 ZREM z x{1024} = :1
0 1 HSET h f x{100000} = :1
0 1 HDEL h x{1025} = :0
0 1 HDEL h x = :0
0 1 SET x{100000} = -"ERR arity"
== A set has at most 1024 members.
repeat 1024 0 1 SADD s m# = :1
0 1 SADD s m0 m1 = :0
0 1 SADD s m0 more = -"ERR full"
0 1 SREM s more = :0
0 1 SREM s m0 = :1
0 1 SADD s more = :1
== A transaction queues at most 4096 commands.
0 1 MULTI = +OK
repeat 4096 0 1 LPUSH q a = +QUEUED
0 1 LPUSH q a = -"ERR full"
0 1 EXEC = -EXECABORT
0 1 LLEN q = :0
== A subscriber has at most 1024 messages pending, and room again once it is told them.
0 2 SUBSCRIBE c = *[$subscribe, $c, :1]
repeat 1024 0 1 PUBLISH c m = :1
0 1 PUBLISH c m = :0
0 2 SUBSCRIBE c
0 1 PUBLISH c m = :1
"#
}
