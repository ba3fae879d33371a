//! Passes of the sweep, which restore what has stood in the table for an hour.

/// The scripts.
pub fn scripts() -> &'static str {
    r#"
== A pass restores the message of a client that is gone; then another one pops it.
message 7:1 0 celery
100 1 LPUSH celery env(7:1) = :1
100 2 BRPOP K 1 = *[$celery, $env(7:1)]
100 2 MULTI = +OK
100 2 ZADD unacked_index 100 tag(7:1) = +QUEUED
100 2 HSET unacked tag(7:1) entry(7:1) = +QUEUED
100 2 EXEC = *[:1, :1]
stop 2
place 7:1 = unacked
3700 3 SET unacked_mutex 9:1 NX EX 300 = +OK
place 7:1 = unacked
3700 3 ZREVRANGEBYSCORE unacked_index 100 0 LIMIT 0 10 = *[$tag(7:1)]
place 7:1 = unacked
3700 3 WATCH unacked = +OK
place 7:1 = unacked
3700 3 HGET unacked tag(7:1) = $entry(7:1)
place 7:1 = unacked
3700 3 MULTI = +OK
place 7:1 = unacked
3700 3 ZREM unacked_index tag(7:1) = +QUEUED
place 7:1 = unacked
3700 3 HDEL unacked tag(7:1) = +QUEUED
place 7:1 = unacked
3700 3 RPUSH celery env(7:1)* = +QUEUED
place 7:1 = unacked
3700 3 EXEC = *[:1, :1, :1]
place 7:1 = list celery 0
3700 3 WATCH unacked_mutex = +OK
place 7:1 = list celery 0
3700 3 GET unacked_mutex = $9:1
place 7:1 = list celery 0
3700 3 MULTI = +OK
place 7:1 = list celery 0
3700 3 DEL unacked_mutex = +QUEUED
place 7:1 = list celery 0
3700 3 EXEC = *[:1]
place 7:1 = list celery 0
3700 4 BRPOP K 1 = *[$celery, $env(7:1)*]
place 7:1 = hand 4
3700 4 MULTI = +OK
3700 4 ZADD unacked_index 3700 tag(7:1) = +QUEUED
3700 4 HSET unacked tag(7:1) entry(7:1)* = +QUEUED
3700 4 EXEC = *[:1, :1]
place 7:1 = unacked
total = list 0 unacked 1 hand 0 ended 0 lost 0 copies 0
entries = 26
== A pass comes while the message's client holds it for later, as a task that is due past the
# hour: the same client pops it a second time.
message 7:1 0 celery
100 1 LPUSH celery env(7:1) = :1
100 2 BRPOP K 1 = *[$celery, $env(7:1)]
100 2 MULTI = +OK
100 2 ZADD unacked_index 100 tag(7:1) = +QUEUED
100 2 HSET unacked tag(7:1) entry(7:1) = +QUEUED
100 2 EXEC = *[:1, :1]
place 7:1 = unacked
3700 3 SET unacked_mutex 9:1 NX EX 300 = +OK
place 7:1 = unacked
3700 3 ZREVRANGEBYSCORE unacked_index 100 0 LIMIT 0 10 = *[$tag(7:1)]
place 7:1 = unacked
3700 3 WATCH unacked = +OK
place 7:1 = unacked
3700 3 HGET unacked tag(7:1) = $entry(7:1)
place 7:1 = unacked
3700 3 MULTI = +OK
place 7:1 = unacked
3700 3 ZREM unacked_index tag(7:1) = +QUEUED
place 7:1 = unacked
3700 3 HDEL unacked tag(7:1) = +QUEUED
place 7:1 = unacked
3700 3 RPUSH celery env(7:1)* = +QUEUED
place 7:1 = unacked
3700 3 EXEC = *[:1, :1, :1]
place 7:1 = list celery 0
3700 3 WATCH unacked_mutex = +OK
place 7:1 = list celery 0
3700 3 GET unacked_mutex = $9:1
place 7:1 = list celery 0
3700 3 MULTI = +OK
place 7:1 = list celery 0
3700 3 DEL unacked_mutex = +QUEUED
place 7:1 = list celery 0
3700 3 EXEC = *[:1]
place 7:1 = list celery 0
3700 2 BRPOP K 1 = *[$celery, $env(7:1)*]
place 7:1 = hand 2
3700 2 MULTI = +OK
place 7:1 = hand 2
3700 2 ZADD unacked_index 3700 tag(7:1) = +QUEUED
place 7:1 = hand 2
3700 2 HSET unacked tag(7:1) entry(7:1)* = +QUEUED
place 7:1 = hand 2
3700 2 EXEC = *[:1, :1]
place 7:1 = unacked
total = list 0 unacked 1 hand 0 ended 0 lost 0 copies 0
entries = 25
== A pass comes a second too early, and another one in time.
message 7:1 0 celery
100 1 LPUSH celery env(7:1) = :1
100 2 BRPOP K 1 = *[$celery, $env(7:1)]
100 2 MULTI = +OK
100 2 ZADD unacked_index 100 tag(7:1) = +QUEUED
100 2 HSET unacked tag(7:1) entry(7:1) = +QUEUED
100 2 EXEC = *[:1, :1]
3699 3 SET unacked_mutex 9:1 NX EX 300 = +OK
3699 3 ZREVRANGEBYSCORE unacked_index 99 0 LIMIT 0 10 = *[]
3699 3 WATCH unacked_mutex = +OK
3699 3 GET unacked_mutex = $9:1
3699 3 MULTI = +OK
3699 3 DEL unacked_mutex = +QUEUED
3699 3 EXEC = *[:1]
place 7:1 = unacked
3700 3 SET unacked_mutex 9:2 NX EX 300 = +OK
3700 3 ZREVRANGEBYSCORE unacked_index 100 0 LIMIT 0 10 = *[$tag(7:1)]
3700 3 WATCH unacked = +OK
3700 3 HGET unacked tag(7:1) = $entry(7:1)
3700 3 MULTI = +OK
3700 3 ZREM unacked_index tag(7:1) = +QUEUED
3700 3 HDEL unacked tag(7:1) = +QUEUED
3700 3 RPUSH celery env(7:1)* = +QUEUED
3700 3 EXEC = *[:1, :1, :1]
3700 3 WATCH unacked_mutex = +OK
3700 3 GET unacked_mutex = $9:2
3700 3 MULTI = +OK
3700 3 DEL unacked_mutex = +QUEUED
3700 3 EXEC = *[:1]
place 7:1 = list celery 0
entries = 27
"#
}
