//! A client is gone after each number of the calls of a block: where the message is, and what another client then finds.

/// The scripts.
pub fn scripts() -> &'static str {
    r#"
== A client is gone after 0 of the five calls of a pop.
message 7:1 0 celery
100 1 LPUSH celery env(7:1) = :1
place 7:1 = list celery 0
stop 2
place 7:1 = list celery 0
100 3 HGET unacked tag(7:1) = $-
100 3 HLEN unacked = :0
100 3 ZCARD unacked_index = :0
place 7:1 = list celery 0
entries = 5
== A client is gone after 1 of the five calls of a pop.
message 7:1 0 celery
100 1 LPUSH celery env(7:1) = :1
100 2 BRPOP K 1 = *[$celery, $env(7:1)]
place 7:1 = hand 2
stop 2
place 7:1 = lost 2
100 3 HGET unacked tag(7:1) = $-
100 3 HLEN unacked = :0
100 3 ZCARD unacked_index = :0
place 7:1 = lost 2
entries = 6
== A client is gone after 2 of the five calls of a pop.
message 7:1 0 celery
100 1 LPUSH celery env(7:1) = :1
100 2 BRPOP K 1 = *[$celery, $env(7:1)]
100 2 MULTI = +OK
place 7:1 = hand 2
stop 2
place 7:1 = lost 2
100 3 HGET unacked tag(7:1) = $-
100 3 HLEN unacked = :0
100 3 ZCARD unacked_index = :0
place 7:1 = lost 2
entries = 7
== A client is gone after 3 of the five calls of a pop.
message 7:1 0 celery
100 1 LPUSH celery env(7:1) = :1
100 2 BRPOP K 1 = *[$celery, $env(7:1)]
100 2 MULTI = +OK
100 2 ZADD unacked_index 100 tag(7:1) = +QUEUED
place 7:1 = hand 2
stop 2
place 7:1 = lost 2
100 3 HGET unacked tag(7:1) = $-
100 3 HLEN unacked = :0
100 3 ZCARD unacked_index = :0
place 7:1 = lost 2
entries = 8
== A client is gone after 4 of the five calls of a pop.
message 7:1 0 celery
100 1 LPUSH celery env(7:1) = :1
100 2 BRPOP K 1 = *[$celery, $env(7:1)]
100 2 MULTI = +OK
100 2 ZADD unacked_index 100 tag(7:1) = +QUEUED
100 2 HSET unacked tag(7:1) entry(7:1) = +QUEUED
place 7:1 = hand 2
stop 2
place 7:1 = lost 2
100 3 HGET unacked tag(7:1) = $-
100 3 HLEN unacked = :0
100 3 ZCARD unacked_index = :0
place 7:1 = lost 2
entries = 9
== A client is gone after 5 of the five calls of a pop.
message 7:1 0 celery
100 1 LPUSH celery env(7:1) = :1
100 2 BRPOP K 1 = *[$celery, $env(7:1)]
100 2 MULTI = +OK
100 2 ZADD unacked_index 100 tag(7:1) = +QUEUED
100 2 HSET unacked tag(7:1) entry(7:1) = +QUEUED
100 2 EXEC = *[:1, :1]
place 7:1 = unacked
stop 2
place 7:1 = unacked
100 3 HGET unacked tag(7:1) = $entry(7:1)
100 3 HLEN unacked = :1
100 3 ZCARD unacked_index = :1
place 7:1 = unacked
entries = 10
== A client is gone after 0 of the four calls of an acknowledgement.
message 7:1 0 celery
100 1 LPUSH celery env(7:1) = :1
100 2 BRPOP K 1 = *[$celery, $env(7:1)]
100 2 MULTI = +OK
100 2 ZADD unacked_index 100 tag(7:1) = +QUEUED
100 2 HSET unacked tag(7:1) entry(7:1) = +QUEUED
100 2 EXEC = *[:1, :1]
place 7:1 = unacked
stop 2
place 7:1 = unacked
100 3 HGET unacked tag(7:1) = $entry(7:1)
100 3 HLEN unacked = :1
100 3 ZCARD unacked_index = :1
place 7:1 = unacked
entries = 10
== A client is gone after 1 of the four calls of an acknowledgement.
message 7:1 0 celery
100 1 LPUSH celery env(7:1) = :1
100 2 BRPOP K 1 = *[$celery, $env(7:1)]
100 2 MULTI = +OK
100 2 ZADD unacked_index 100 tag(7:1) = +QUEUED
100 2 HSET unacked tag(7:1) entry(7:1) = +QUEUED
100 2 EXEC = *[:1, :1]
100 2 MULTI = +OK
place 7:1 = unacked
place 7:1 = unacked
stop 2
place 7:1 = unacked
100 3 HGET unacked tag(7:1) = $entry(7:1)
100 3 HLEN unacked = :1
100 3 ZCARD unacked_index = :1
place 7:1 = unacked
entries = 11
== A client is gone after 2 of the four calls of an acknowledgement.
message 7:1 0 celery
100 1 LPUSH celery env(7:1) = :1
100 2 BRPOP K 1 = *[$celery, $env(7:1)]
100 2 MULTI = +OK
100 2 ZADD unacked_index 100 tag(7:1) = +QUEUED
100 2 HSET unacked tag(7:1) entry(7:1) = +QUEUED
100 2 EXEC = *[:1, :1]
100 2 MULTI = +OK
place 7:1 = unacked
100 2 ZREM unacked_index tag(7:1) = +QUEUED
place 7:1 = unacked
place 7:1 = unacked
stop 2
place 7:1 = unacked
100 3 HGET unacked tag(7:1) = $entry(7:1)
100 3 HLEN unacked = :1
100 3 ZCARD unacked_index = :1
place 7:1 = unacked
entries = 12
== A client is gone after 3 of the four calls of an acknowledgement.
message 7:1 0 celery
100 1 LPUSH celery env(7:1) = :1
100 2 BRPOP K 1 = *[$celery, $env(7:1)]
100 2 MULTI = +OK
100 2 ZADD unacked_index 100 tag(7:1) = +QUEUED
100 2 HSET unacked tag(7:1) entry(7:1) = +QUEUED
100 2 EXEC = *[:1, :1]
100 2 MULTI = +OK
place 7:1 = unacked
100 2 ZREM unacked_index tag(7:1) = +QUEUED
place 7:1 = unacked
100 2 HDEL unacked tag(7:1) = +QUEUED
place 7:1 = unacked
place 7:1 = unacked
stop 2
place 7:1 = unacked
100 3 HGET unacked tag(7:1) = $entry(7:1)
100 3 HLEN unacked = :1
100 3 ZCARD unacked_index = :1
place 7:1 = unacked
entries = 13
== A client is gone after 4 of the four calls of an acknowledgement.
message 7:1 0 celery
100 1 LPUSH celery env(7:1) = :1
100 2 BRPOP K 1 = *[$celery, $env(7:1)]
100 2 MULTI = +OK
100 2 ZADD unacked_index 100 tag(7:1) = +QUEUED
100 2 HSET unacked tag(7:1) entry(7:1) = +QUEUED
100 2 EXEC = *[:1, :1]
100 2 MULTI = +OK
place 7:1 = unacked
100 2 ZREM unacked_index tag(7:1) = +QUEUED
place 7:1 = unacked
100 2 HDEL unacked tag(7:1) = +QUEUED
place 7:1 = unacked
100 2 EXEC = *[:1, :1]
place 7:1 = ended
place 7:1 = ended
stop 2
place 7:1 = ended
100 3 HGET unacked tag(7:1) = $-
100 3 HLEN unacked = :0
100 3 ZCARD unacked_index = :0
place 7:1 = ended
entries = 14
"#
}
