//! A pass over eleven messages that are due, of which it reads ten.

/// The scripts.
pub fn scripts() -> &'static str {
    r#"
== Eleven messages are published, and popped one second after the other, the last two in the same
# second. A pass reads ten, the latest first and of one second the greatest tag first; the first
# message stays in the table, and the next pop gives the second one.
message 7:1 0 celery
message 7:2 0 celery
message 7:3 0 celery
message 7:4 0 celery
message 7:5 0 celery
message 7:6 0 celery
message 7:7 0 celery
message 7:8 0 celery
message 7:9 0 celery
message 7:10 0 celery
message 7:11 0 celery
100 1 LPUSH celery env(7:1) = :1
100 1 LPUSH celery env(7:2) = :2
100 1 LPUSH celery env(7:3) = :3
100 1 LPUSH celery env(7:4) = :4
100 1 LPUSH celery env(7:5) = :5
100 1 LPUSH celery env(7:6) = :6
100 1 LPUSH celery env(7:7) = :7
100 1 LPUSH celery env(7:8) = :8
100 1 LPUSH celery env(7:9) = :9
100 1 LPUSH celery env(7:10) = :10
100 1 LPUSH celery env(7:11) = :11
100 2 BRPOP K 1 = *[$celery, $env(7:1)]
100 2 MULTI = +OK
100 2 ZADD unacked_index 100 tag(7:1) = +QUEUED
100 2 HSET unacked tag(7:1) entry(7:1) = +QUEUED
100 2 EXEC = *[:1, :1]
101 2 BRPOP K 1 = *[$celery, $env(7:2)]
101 2 MULTI = +OK
101 2 ZADD unacked_index 101 tag(7:2) = +QUEUED
101 2 HSET unacked tag(7:2) entry(7:2) = +QUEUED
101 2 EXEC = *[:1, :1]
102 2 BRPOP K 1 = *[$celery, $env(7:3)]
102 2 MULTI = +OK
102 2 ZADD unacked_index 102 tag(7:3) = +QUEUED
102 2 HSET unacked tag(7:3) entry(7:3) = +QUEUED
102 2 EXEC = *[:1, :1]
103 2 BRPOP K 1 = *[$celery, $env(7:4)]
103 2 MULTI = +OK
103 2 ZADD unacked_index 103 tag(7:4) = +QUEUED
103 2 HSET unacked tag(7:4) entry(7:4) = +QUEUED
103 2 EXEC = *[:1, :1]
104 2 BRPOP K 1 = *[$celery, $env(7:5)]
104 2 MULTI = +OK
104 2 ZADD unacked_index 104 tag(7:5) = +QUEUED
104 2 HSET unacked tag(7:5) entry(7:5) = +QUEUED
104 2 EXEC = *[:1, :1]
105 2 BRPOP K 1 = *[$celery, $env(7:6)]
105 2 MULTI = +OK
105 2 ZADD unacked_index 105 tag(7:6) = +QUEUED
105 2 HSET unacked tag(7:6) entry(7:6) = +QUEUED
105 2 EXEC = *[:1, :1]
106 2 BRPOP K 1 = *[$celery, $env(7:7)]
106 2 MULTI = +OK
106 2 ZADD unacked_index 106 tag(7:7) = +QUEUED
106 2 HSET unacked tag(7:7) entry(7:7) = +QUEUED
106 2 EXEC = *[:1, :1]
107 2 BRPOP K 1 = *[$celery, $env(7:8)]
107 2 MULTI = +OK
107 2 ZADD unacked_index 107 tag(7:8) = +QUEUED
107 2 HSET unacked tag(7:8) entry(7:8) = +QUEUED
107 2 EXEC = *[:1, :1]
108 2 BRPOP K 1 = *[$celery, $env(7:9)]
108 2 MULTI = +OK
108 2 ZADD unacked_index 108 tag(7:9) = +QUEUED
108 2 HSET unacked tag(7:9) entry(7:9) = +QUEUED
108 2 EXEC = *[:1, :1]
109 2 BRPOP K 1 = *[$celery, $env(7:10)]
109 2 MULTI = +OK
109 2 ZADD unacked_index 109 tag(7:10) = +QUEUED
109 2 HSET unacked tag(7:10) entry(7:10) = +QUEUED
109 2 EXEC = *[:1, :1]
109 2 BRPOP K 1 = *[$celery, $env(7:11)]
109 2 MULTI = +OK
109 2 ZADD unacked_index 109 tag(7:11) = +QUEUED
109 2 HSET unacked tag(7:11) entry(7:11) = +QUEUED
109 2 EXEC = *[:1, :1]
total = list 0 unacked 11 hand 0 ended 0 lost 0 copies 0
4000 3 SET unacked_mutex 9:1 NX EX 300 = +OK
4000 3 ZREVRANGEBYSCORE unacked_index 400 0 LIMIT 0 10 = *[$tag(7:11), $tag(7:10), $tag(7:9), $tag(7:8), $tag(7:7), $tag(7:6), $tag(7:5), $tag(7:4), $tag(7:3), $tag(7:2)]
4000 3 WATCH unacked = +OK
4000 3 HGET unacked tag(7:11) = $entry(7:11)
4000 3 MULTI = +OK
4000 3 ZREM unacked_index tag(7:11) = +QUEUED
4000 3 HDEL unacked tag(7:11) = +QUEUED
4000 3 RPUSH celery env(7:11)* = +QUEUED
4000 3 EXEC = *[:1, :1, :1]
4000 3 WATCH unacked = +OK
4000 3 HGET unacked tag(7:10) = $entry(7:10)
4000 3 MULTI = +OK
4000 3 ZREM unacked_index tag(7:10) = +QUEUED
4000 3 HDEL unacked tag(7:10) = +QUEUED
4000 3 RPUSH celery env(7:10)* = +QUEUED
4000 3 EXEC = *[:1, :1, :2]
4000 3 WATCH unacked = +OK
4000 3 HGET unacked tag(7:9) = $entry(7:9)
4000 3 MULTI = +OK
4000 3 ZREM unacked_index tag(7:9) = +QUEUED
4000 3 HDEL unacked tag(7:9) = +QUEUED
4000 3 RPUSH celery env(7:9)* = +QUEUED
4000 3 EXEC = *[:1, :1, :3]
4000 3 WATCH unacked = +OK
4000 3 HGET unacked tag(7:8) = $entry(7:8)
4000 3 MULTI = +OK
4000 3 ZREM unacked_index tag(7:8) = +QUEUED
4000 3 HDEL unacked tag(7:8) = +QUEUED
4000 3 RPUSH celery env(7:8)* = +QUEUED
4000 3 EXEC = *[:1, :1, :4]
4000 3 WATCH unacked = +OK
4000 3 HGET unacked tag(7:7) = $entry(7:7)
4000 3 MULTI = +OK
4000 3 ZREM unacked_index tag(7:7) = +QUEUED
4000 3 HDEL unacked tag(7:7) = +QUEUED
4000 3 RPUSH celery env(7:7)* = +QUEUED
4000 3 EXEC = *[:1, :1, :5]
4000 3 WATCH unacked = +OK
4000 3 HGET unacked tag(7:6) = $entry(7:6)
4000 3 MULTI = +OK
4000 3 ZREM unacked_index tag(7:6) = +QUEUED
4000 3 HDEL unacked tag(7:6) = +QUEUED
4000 3 RPUSH celery env(7:6)* = +QUEUED
4000 3 EXEC = *[:1, :1, :6]
4000 3 WATCH unacked = +OK
4000 3 HGET unacked tag(7:5) = $entry(7:5)
4000 3 MULTI = +OK
4000 3 ZREM unacked_index tag(7:5) = +QUEUED
4000 3 HDEL unacked tag(7:5) = +QUEUED
4000 3 RPUSH celery env(7:5)* = +QUEUED
4000 3 EXEC = *[:1, :1, :7]
4000 3 WATCH unacked = +OK
4000 3 HGET unacked tag(7:4) = $entry(7:4)
4000 3 MULTI = +OK
4000 3 ZREM unacked_index tag(7:4) = +QUEUED
4000 3 HDEL unacked tag(7:4) = +QUEUED
4000 3 RPUSH celery env(7:4)* = +QUEUED
4000 3 EXEC = *[:1, :1, :8]
4000 3 WATCH unacked = +OK
4000 3 HGET unacked tag(7:3) = $entry(7:3)
4000 3 MULTI = +OK
4000 3 ZREM unacked_index tag(7:3) = +QUEUED
4000 3 HDEL unacked tag(7:3) = +QUEUED
4000 3 RPUSH celery env(7:3)* = +QUEUED
4000 3 EXEC = *[:1, :1, :9]
4000 3 WATCH unacked = +OK
4000 3 HGET unacked tag(7:2) = $entry(7:2)
4000 3 MULTI = +OK
4000 3 ZREM unacked_index tag(7:2) = +QUEUED
4000 3 HDEL unacked tag(7:2) = +QUEUED
4000 3 RPUSH celery env(7:2)* = +QUEUED
4000 3 EXEC = *[:1, :1, :10]
4000 3 WATCH unacked_mutex = +OK
4000 3 GET unacked_mutex = $9:1
4000 3 MULTI = +OK
4000 3 DEL unacked_mutex = +QUEUED
4000 3 EXEC = *[:1]
place 7:1 = unacked
place 7:2 = list celery 0
place 7:3 = list celery 0
place 7:4 = list celery 0
place 7:5 = list celery 0
place 7:6 = list celery 0
place 7:7 = list celery 0
place 7:8 = list celery 0
place 7:9 = list celery 0
place 7:10 = list celery 0
place 7:11 = list celery 0
total = list 10 unacked 1 hand 0 ended 0 lost 0 copies 0
4000 2 BRPOP K 1 = *[$celery, $env(7:2)*]
place 7:2 = hand 2
place 7:1 = unacked
entries = 144
"#
}
