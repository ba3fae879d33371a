//! Messages of an exchange with a name, whose bindings tell their queues.

/// The scripts.
pub fn scripts() -> &'static str {
    r#"
== A publication whose exchange has no bindings goes nowhere.
message 7:1 0 rk ex
100 1 SMEMBERS _kombu.binding.ex = *[]
place 7:1 = never
total = list 0 unacked 0 hand 0 ended 0 lost 0 copies 0
entries = 1
== A message goes to the queue that is bound, and returns by its bindings: without one it stays in
# the table.
message 7:1 0 rk ex
100 1 SADD _kombu.binding.ex "rk\x06\x16\x06\x16celery" = :1
100 1 SMEMBERS _kombu.binding.ex = *[$"rk\x06\x16\x06\x16celery"]
100 1 LPUSH celery env(7:1) = :1
place 7:1 = list celery 0
100 2 BRPOP K 1 = *[$celery, $env(7:1)]
place 7:1 = hand 2
100 2 MULTI = +OK
100 2 ZADD unacked_index 100 tag(7:1) = +QUEUED
100 2 HSET unacked tag(7:1) entry(7:1) = +QUEUED
100 2 EXEC = *[:1, :1]
place 7:1 = unacked
100 1 SREM _kombu.binding.ex "rk\x06\x16\x06\x16celery" = :1
100 3 WATCH unacked = +OK
100 3 HGET unacked tag(7:1) = $entry(7:1)
100 3 SMEMBERS _kombu.binding.ex = *[]
100 3 UNWATCH = +OK
place 7:1 = unacked
total = list 0 unacked 1 hand 0 ended 0 lost 0 copies 0
entries = 13
== A message goes to a queue that is bound by a pattern, and returns by it.
message 7:1 0 a.b ex
100 1 SADD _kombu.binding.ex "rk\x06\x16a.*.#\x06\x16celery" = :1
100 1 SMEMBERS _kombu.binding.ex = *[$"rk\x06\x16a.*.#\x06\x16celery"]
100 1 LPUSH celery env(7:1) = :1
place 7:1 = list celery 0
100 2 BRPOP K 1 = *[$celery, $env(7:1)]
100 2 MULTI = +OK
100 2 ZADD unacked_index 100 tag(7:1) = +QUEUED
100 2 HSET unacked tag(7:1) entry(7:1) = +QUEUED
100 2 EXEC = *[:1, :1]
place 7:1 = unacked
100 3 WATCH unacked = +OK
100 3 HGET unacked tag(7:1) = $entry(7:1)
100 3 SMEMBERS _kombu.binding.ex = *[$"rk\x06\x16a.*.#\x06\x16celery"]
100 3 MULTI = +OK
100 3 ZREM unacked_index tag(7:1) = +QUEUED
100 3 HDEL unacked tag(7:1) = +QUEUED
100 3 RPUSH celery env(7:1)* = +QUEUED
place 7:1 = unacked
100 3 EXEC = *[:1, :1, :1]
place 7:1 = list celery 0
total = list 1 unacked 0 hand 0 ended 0 lost 0 copies 0
entries = 16
== The same with a key of four words.
message 7:1 0 a.b.c.d ex
100 1 SADD _kombu.binding.ex "rk\x06\x16a.*.#\x06\x16celery" = :1
100 1 SMEMBERS _kombu.binding.ex = *[$"rk\x06\x16a.*.#\x06\x16celery"]
100 1 LPUSH celery env(7:1) = :1
place 7:1 = list celery 0
100 2 BRPOP K 1 = *[$celery, $env(7:1)]
100 2 MULTI = +OK
100 2 ZADD unacked_index 100 tag(7:1) = +QUEUED
100 2 HSET unacked tag(7:1) entry(7:1) = +QUEUED
100 2 EXEC = *[:1, :1]
place 7:1 = unacked
100 3 WATCH unacked = +OK
100 3 HGET unacked tag(7:1) = $entry(7:1)
100 3 SMEMBERS _kombu.binding.ex = *[$"rk\x06\x16a.*.#\x06\x16celery"]
100 3 MULTI = +OK
100 3 ZREM unacked_index tag(7:1) = +QUEUED
100 3 HDEL unacked tag(7:1) = +QUEUED
100 3 RPUSH celery env(7:1)* = +QUEUED
place 7:1 = unacked
100 3 EXEC = *[:1, :1, :1]
place 7:1 = list celery 0
total = list 1 unacked 0 hand 0 ended 0 lost 0 copies 0
entries = 16
== A message whose routing key the pattern doesn't take goes nowhere.
message 7:1 0 a ex
100 1 SADD _kombu.binding.ex "rk\x06\x16a.*.#\x06\x16celery" = :1
100 1 SMEMBERS _kombu.binding.ex = *[$"rk\x06\x16a.*.#\x06\x16celery"]
place 7:1 = never
total = list 0 unacked 0 hand 0 ended 0 lost 0 copies 0
entries = 2
== One message that goes to two queues is copied, and its places aren't told apart.
message 7:1 0 rk ex
message 7:2 0 rk ex
100 1 SADD _kombu.binding.ex "rk\x06\x16\x06\x16other" = :1
100 1 SADD _kombu.binding.ex "rk\x06\x16\x06\x16celery" = :1
100 1 SMEMBERS _kombu.binding.ex = *[$"rk\x06\x16\x06\x16celery", $"rk\x06\x16\x06\x16other"]
100 1 LPUSH celery env(7:1) = :1
place 7:1 = list celery 0
100 1 LPUSH other env(7:1) = :1
place 7:1 = copies
place 7:2 = never
total = list 0 unacked 0 hand 0 ended 0 lost 0 copies 1
entries = 5
"#
}
