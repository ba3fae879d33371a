//! A message in the table of unacknowledged ones: acknowledged, or returned to its queue.

/// The scripts.
pub fn scripts() -> &'static str {
    r#"
== A message is popped and acknowledged: after each call, where it is.
message 7:1 0 celery
100 1 LPUSH celery env(7:1) = :1
100 2 BRPOP K 1 = *[$celery, $env(7:1)]
100 2 MULTI = +OK
100 2 ZADD unacked_index 100 tag(7:1) = +QUEUED
100 2 HSET unacked tag(7:1) entry(7:1) = +QUEUED
100 2 EXEC = *[:1, :1]
100 2 MULTI = +OK
place 7:1 = unacked
100 2 ZREM unacked_index tag(7:1) = +QUEUED
place 7:1 = unacked
100 2 HDEL unacked tag(7:1) = +QUEUED
place 7:1 = unacked
100 2 EXEC = *[:1, :1]
place 7:1 = ended
total = list 0 unacked 0 hand 0 ended 1 lost 0 copies 0
entries = 10
== Two clients restore the message at once.
message 7:1 0 celery
100 1 LPUSH celery env(7:1) = :1
100 2 BRPOP K 1 = *[$celery, $env(7:1)]
100 2 MULTI = +OK
100 2 ZADD unacked_index 100 tag(7:1) = +QUEUED
100 2 HSET unacked tag(7:1) entry(7:1) = +QUEUED
100 2 EXEC = *[:1, :1]
100 3 WATCH unacked = +OK
100 3 HGET unacked tag(7:1) = $entry(7:1)
100 3 MULTI = +OK
100 3 ZREM unacked_index tag(7:1) = +QUEUED
100 3 HDEL unacked tag(7:1) = +QUEUED
100 3 RPUSH celery env(7:1)* = +QUEUED
100 4 WATCH unacked = +OK
100 4 HGET unacked tag(7:1) = $entry(7:1)
100 4 MULTI = +OK
100 4 ZREM unacked_index tag(7:1) = +QUEUED
100 4 HDEL unacked tag(7:1) = +QUEUED
100 4 RPUSH celery env(7:1)* = +QUEUED
place 7:1 = unacked
100 4 EXEC = *[:1, :1, :1]
place 7:1 = list celery 0
100 3 EXEC = *-
place 7:1 = list celery 0
100 3 WATCH unacked = +OK
100 3 HGET unacked tag(7:1) = $-
100 3 UNWATCH = +OK
place 7:1 = list celery 0
total = list 1 unacked 0 hand 0 ended 0 lost 0 copies 0
entries = 23
== The message is restored before its worker acknowledges it, which ends nothing; once it is
# popped again, the same worker's acknowledgement ends it.
message 7:1 0 celery
100 1 LPUSH celery env(7:1) = :1
100 2 BRPOP K 1 = *[$celery, $env(7:1)]
100 2 MULTI = +OK
100 2 ZADD unacked_index 100 tag(7:1) = +QUEUED
100 2 HSET unacked tag(7:1) entry(7:1) = +QUEUED
100 2 EXEC = *[:1, :1]
100 3 WATCH unacked = +OK
100 3 HGET unacked tag(7:1) = $entry(7:1)
100 3 MULTI = +OK
100 3 ZREM unacked_index tag(7:1) = +QUEUED
100 3 HDEL unacked tag(7:1) = +QUEUED
100 3 RPUSH celery env(7:1)* = +QUEUED
100 3 EXEC = *[:1, :1, :1]
100 2 MULTI = +OK
100 2 ZREM unacked_index tag(7:1) = +QUEUED
100 2 HDEL unacked tag(7:1) = +QUEUED
100 2 EXEC = *[:0, :0]
place 7:1 = list celery 0
100 3 BRPOP K 1 = *[$celery, $env(7:1)*]
place 7:1 = hand 3
100 3 MULTI = +OK
100 3 ZADD unacked_index 100 tag(7:1) = +QUEUED
100 3 HSET unacked tag(7:1) entry(7:1)* = +QUEUED
100 3 EXEC = *[:1, :1]
place 7:1 = unacked
100 2 MULTI = +OK
100 2 ZREM unacked_index tag(7:1) = +QUEUED
100 2 HDEL unacked tag(7:1) = +QUEUED
100 2 EXEC = *[:1, :1]
place 7:1 = ended
entries = 26
== Its worker gives the message back, and another one pops it.
message 7:1 0 celery
100 1 LPUSH celery env(7:1) = :1
100 2 BRPOP K 1 = *[$celery, $env(7:1)]
100 2 MULTI = +OK
100 2 ZADD unacked_index 100 tag(7:1) = +QUEUED
100 2 HSET unacked tag(7:1) entry(7:1) = +QUEUED
100 2 EXEC = *[:1, :1]
100 2 WATCH unacked = +OK
100 2 HGET unacked tag(7:1) = $entry(7:1)
100 2 MULTI = +OK
100 2 ZREM unacked_index tag(7:1) = +QUEUED
100 2 HDEL unacked tag(7:1) = +QUEUED
100 2 LPUSH celery env(7:1)* = +QUEUED
place 7:1 = unacked
100 2 EXEC = *[:1, :1, :1]
place 7:1 = list celery 0
100 3 BRPOP K 1 = *[$celery, $env(7:1)*]
100 3 MULTI = +OK
100 3 ZADD unacked_index 100 tag(7:1) = +QUEUED
100 3 HSET unacked tag(7:1) entry(7:1)* = +QUEUED
100 3 EXEC = *[:1, :1]
place 7:1 = unacked
entries = 18
"#
}
