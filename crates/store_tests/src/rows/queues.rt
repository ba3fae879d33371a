//! Publications on the empty exchange and pops.

/// The scripts.
pub fn scripts() -> &'static str {
    r#"
== Nothing was called.
total = list 0 unacked 0 hand 0 ended 0 lost 0 copies 0
entries = 0
== One message is published.
message 7:1 0 celery
100 1 LPUSH celery env(7:1) = :1
place 7:1 = list celery 0
total = list 1 unacked 0 hand 0 ended 0 lost 0 copies 0
entries = 1
== A pop finds no message.
100 2 BRPOP K 1 = *-
place 7:1 = never
total = list 0 unacked 0 hand 0 ended 0 lost 0 copies 0
entries = 1
== Six priorities, 12, 9, 8, 3, 2 and 0, at the steps 9, 9, 6, 3, 0 and 0.
message 7:1 12 celery
message 7:2 9 celery
message 7:3 8 celery
message 7:4 3 celery
message 7:5 2 celery
message 7:6 0 celery
100 1 LPUSH "celery\x06\x169" env(7:1) = :1
100 1 LPUSH "celery\x06\x169" env(7:2) = :2
100 1 LPUSH "celery\x06\x166" env(7:3) = :1
100 1 LPUSH "celery\x06\x163" env(7:4) = :1
100 1 LPUSH celery env(7:5) = :1
100 1 LPUSH celery env(7:6) = :2
place 7:1 = list celery 9
place 7:2 = list celery 9
place 7:3 = list celery 6
place 7:4 = list celery 3
place 7:5 = list celery 0
place 7:6 = list celery 0
100 2 BRPOP K 1 = *[$celery, $env(7:5)]
100 2 MULTI = +OK
100 2 ZADD unacked_index 100 tag(7:5) = +QUEUED
100 2 HSET unacked tag(7:5) entry(7:5) = +QUEUED
100 2 EXEC = *[:1, :1]
100 2 BRPOP K 1 = *[$celery, $env(7:6)]
100 2 MULTI = +OK
100 2 ZADD unacked_index 100 tag(7:6) = +QUEUED
100 2 HSET unacked tag(7:6) entry(7:6) = +QUEUED
100 2 EXEC = *[:1, :1]
100 2 BRPOP K 1 = *[$"celery\x06\x163", $env(7:4)]
100 2 MULTI = +OK
100 2 ZADD unacked_index 100 tag(7:4) = +QUEUED
100 2 HSET unacked tag(7:4) entry(7:4) = +QUEUED
100 2 EXEC = *[:1, :1]
100 2 BRPOP K 1 = *[$"celery\x06\x166", $env(7:3)]
100 2 MULTI = +OK
100 2 ZADD unacked_index 100 tag(7:3) = +QUEUED
100 2 HSET unacked tag(7:3) entry(7:3) = +QUEUED
100 2 EXEC = *[:1, :1]
100 2 BRPOP K 1 = *[$"celery\x06\x169", $env(7:1)]
100 2 MULTI = +OK
100 2 ZADD unacked_index 100 tag(7:1) = +QUEUED
100 2 HSET unacked tag(7:1) entry(7:1) = +QUEUED
100 2 EXEC = *[:1, :1]
100 2 BRPOP K 1 = *[$"celery\x06\x169", $env(7:2)]
100 2 MULTI = +OK
100 2 ZADD unacked_index 100 tag(7:2) = +QUEUED
100 2 HSET unacked tag(7:2) entry(7:2) = +QUEUED
100 2 EXEC = *[:1, :1]
place 7:1 = unacked
place 7:6 = unacked
total = list 0 unacked 6 hand 0 ended 0 lost 0 copies 0
entries = 36
== One of two messages is in a client's hand, and lost with it.
message 7:1 0 celery
message 7:2 0 celery
100 1 LPUSH celery env(7:1) = :1
100 1 LPUSH celery env(7:2) = :2
place 7:1 = list celery 0
100 2 BRPOP K 1 = *[$celery, $env(7:1)]
place 7:1 = hand 2
place 7:2 = list celery 0
total = list 1 unacked 0 hand 1 ended 0 lost 0 copies 0
stop 2
place 7:1 = lost 2
place 7:2 = list celery 0
total = list 1 unacked 0 hand 0 ended 0 lost 1 copies 0
entries = 4
"#
}
