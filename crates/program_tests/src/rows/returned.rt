//! Schedules of stops, returns and named exchanges, with their whole reports; those of `examples/` have the texts that
//! stand there.
//!
//! A row is a remark after `#`, the schedule, and its report.

/// Each schedule with its report.
pub fn returns() -> &'static str {
    r#"
# `examples/stop_in_pop.schedule`: a worker that stops after its pop's first command. The message is lost with it, the other one still in the list.
celery-schedule 1
client 1 seed 7
client 2 seed 8
at 100
begin 1 publish - celery 0 tasks.add [2,3]
run 1
begin 1 publish - celery 0 tasks.add [2,3]
run 1
begin 2 pop celery
step 2
stop 2
celery-report 1
1 100 1 LPUSH celery env(7:1) = :1
2 100 1 LPUSH celery env(7:2) = :2
3 100 2 BRPOP celery "celery\x06\x163" "celery\x06\x166" "celery\x06\x169" 1 = *[$celery, $env(7:1)]
4 - 2 STOP
place 7:1 lost 2
place 7:2 list celery 0
total list 1 unacked 0 hand 0 ended 0 lost 1 copies 0
# A worker that stops after its pop's fourth command, before EXEC. Nothing stands in the table, and the message is lost with it.
celery-schedule 1
client 1 seed 7
client 2 seed 8
at 100
begin 1 publish - celery 0 tasks.add [2,3]
run 1
begin 2 pop celery
step 2
step 2
step 2
step 2
stop 2
celery-report 1
1 100 1 LPUSH celery env(7:1) = :1
2 100 2 BRPOP celery "celery\x06\x163" "celery\x06\x166" "celery\x06\x169" 1 = *[$celery, $env(7:1)]
3 100 2 MULTI = +OK
4 100 2 ZADD unacked_index 100 tag(7:1) = +QUEUED
5 100 2 HSET unacked tag(7:1) entry(7:1) = +QUEUED
6 - 2 STOP
place 7:1 lost 2
total list 0 unacked 0 hand 0 ended 0 lost 1 copies 0
# `examples/two_restores.schedule`: two clients return one message at the same time. The second EXEC finds the table altered, and the next try finds no entry.
celery-schedule 1
client 1 seed 7
client 2 seed 8
client 3 seed 9
client 4 seed 10
at 100
begin 1 publish - celery 0 tasks.add [2,3]
run 1
begin 2 pop celery
run 2
begin 3 restore 7:1
step 3
step 3
step 3
step 3
step 3
step 3
begin 4 restore 7:1
run 4
run 3
celery-report 1
1 100 1 LPUSH celery env(7:1) = :1
2 100 2 BRPOP celery "celery\x06\x163" "celery\x06\x166" "celery\x06\x169" 1 = *[$celery, $env(7:1)]
3 100 2 MULTI = +OK
4 100 2 ZADD unacked_index 100 tag(7:1) = +QUEUED
5 100 2 HSET unacked tag(7:1) entry(7:1) = +QUEUED
6 100 2 EXEC = *[:1, :1]
7 100 3 WATCH unacked = +OK
8 100 3 HGET unacked tag(7:1) = $entry(7:1)
9 100 3 MULTI = +OK
10 100 3 ZREM unacked_index tag(7:1) = +QUEUED
11 100 3 HDEL unacked tag(7:1) = +QUEUED
12 100 3 RPUSH celery env(7:1)* = +QUEUED
13 100 4 WATCH unacked = +OK
14 100 4 HGET unacked tag(7:1) = $entry(7:1)
15 100 4 MULTI = +OK
16 100 4 ZREM unacked_index tag(7:1) = +QUEUED
17 100 4 HDEL unacked tag(7:1) = +QUEUED
18 100 4 RPUSH celery env(7:1)* = +QUEUED
19 100 4 EXEC = *[:1, :1, :1]
20 100 3 EXEC = *-
21 100 3 WATCH unacked = +OK
22 100 3 HGET unacked tag(7:1) = $-
23 100 3 UNWATCH = +OK
place 7:1 list celery 0
total list 1 unacked 0 hand 0 ended 0 lost 0 copies 0
# A message that is acknowledged after it was returned. The acknowledgement ends nothing.
celery-schedule 1
client 1 seed 7
client 2 seed 8
client 3 seed 9
client 4 seed 10
at 100
begin 1 publish - celery 0 tasks.add [2,3]
run 1
begin 2 pop celery
run 2
begin 3 restore 7:1
run 3
begin 2 ack 7:1
run 2
celery-report 1
1 100 1 LPUSH celery env(7:1) = :1
2 100 2 BRPOP celery "celery\x06\x163" "celery\x06\x166" "celery\x06\x169" 1 = *[$celery, $env(7:1)]
3 100 2 MULTI = +OK
4 100 2 ZADD unacked_index 100 tag(7:1) = +QUEUED
5 100 2 HSET unacked tag(7:1) entry(7:1) = +QUEUED
6 100 2 EXEC = *[:1, :1]
7 100 3 WATCH unacked = +OK
8 100 3 HGET unacked tag(7:1) = $entry(7:1)
9 100 3 MULTI = +OK
10 100 3 ZREM unacked_index tag(7:1) = +QUEUED
11 100 3 HDEL unacked tag(7:1) = +QUEUED
12 100 3 RPUSH celery env(7:1)* = +QUEUED
13 100 3 EXEC = *[:1, :1, :1]
14 100 2 MULTI = +OK
15 100 2 ZREM unacked_index tag(7:1) = +QUEUED
16 100 2 HDEL unacked tag(7:1) = +QUEUED
17 100 2 EXEC = *[:0, :0]
place 7:1 list celery 0
total list 1 unacked 0 hand 0 ended 0 lost 0 copies 0
# The same, where another worker has popped it by the time of a second acknowledgement. That one ends it.
celery-schedule 1
client 1 seed 7
client 2 seed 8
client 3 seed 9
client 4 seed 10
at 100
begin 1 publish - celery 0 tasks.add [2,3]
run 1
begin 2 pop celery
run 2
begin 3 restore 7:1
run 3
begin 2 ack 7:1
run 2
begin 3 pop celery
run 3
begin 2 ack 7:1
run 2
celery-report 1
1 100 1 LPUSH celery env(7:1) = :1
2 100 2 BRPOP celery "celery\x06\x163" "celery\x06\x166" "celery\x06\x169" 1 = *[$celery, $env(7:1)]
3 100 2 MULTI = +OK
4 100 2 ZADD unacked_index 100 tag(7:1) = +QUEUED
5 100 2 HSET unacked tag(7:1) entry(7:1) = +QUEUED
6 100 2 EXEC = *[:1, :1]
7 100 3 WATCH unacked = +OK
8 100 3 HGET unacked tag(7:1) = $entry(7:1)
9 100 3 MULTI = +OK
10 100 3 ZREM unacked_index tag(7:1) = +QUEUED
11 100 3 HDEL unacked tag(7:1) = +QUEUED
12 100 3 RPUSH celery env(7:1)* = +QUEUED
13 100 3 EXEC = *[:1, :1, :1]
14 100 2 MULTI = +OK
15 100 2 ZREM unacked_index tag(7:1) = +QUEUED
16 100 2 HDEL unacked tag(7:1) = +QUEUED
17 100 2 EXEC = *[:0, :0]
18 100 3 BRPOP celery "celery\x06\x163" "celery\x06\x166" "celery\x06\x169" 1 = *[$celery, $env(7:1)*]
19 100 3 MULTI = +OK
20 100 3 ZADD unacked_index 100 tag(7:1) = +QUEUED
21 100 3 HSET unacked tag(7:1) entry(7:1)* = +QUEUED
22 100 3 EXEC = *[:1, :1]
23 100 2 MULTI = +OK
24 100 2 ZREM unacked_index tag(7:1) = +QUEUED
25 100 2 HDEL unacked tag(7:1) = +QUEUED
26 100 2 EXEC = *[:1, :1]
place 7:1 ended
total list 0 unacked 0 hand 0 ended 1 lost 0 copies 0
# `examples/requeue.schedule`: a worker gives its message back, at the head of the queue. It goes back in one transaction, redelivered, and is popped again.
celery-schedule 1
client 1 seed 7
client 2 seed 8
client 3 seed 9
client 4 seed 10
at 100
begin 1 publish - celery 0 tasks.add [2,3]
run 1
begin 2 pop celery
run 2
begin 2 requeue 7:1
run 2
begin 3 pop celery
run 3
celery-report 1
1 100 1 LPUSH celery env(7:1) = :1
2 100 2 BRPOP celery "celery\x06\x163" "celery\x06\x166" "celery\x06\x169" 1 = *[$celery, $env(7:1)]
3 100 2 MULTI = +OK
4 100 2 ZADD unacked_index 100 tag(7:1) = +QUEUED
5 100 2 HSET unacked tag(7:1) entry(7:1) = +QUEUED
6 100 2 EXEC = *[:1, :1]
7 100 2 WATCH unacked = +OK
8 100 2 HGET unacked tag(7:1) = $entry(7:1)
9 100 2 MULTI = +OK
10 100 2 ZREM unacked_index tag(7:1) = +QUEUED
11 100 2 HDEL unacked tag(7:1) = +QUEUED
12 100 2 LPUSH celery env(7:1)* = +QUEUED
13 100 2 EXEC = *[:1, :1, :1]
14 100 3 BRPOP celery "celery\x06\x163" "celery\x06\x166" "celery\x06\x169" 1 = *[$celery, $env(7:1)*]
15 100 3 MULTI = +OK
16 100 3 ZADD unacked_index 100 tag(7:1) = +QUEUED
17 100 3 HSET unacked tag(7:1) entry(7:1)* = +QUEUED
18 100 3 EXEC = *[:1, :1]
place 7:1 unacked
total list 0 unacked 1 hand 0 ended 0 lost 0 copies 0
# A message of an exchange without bindings. It goes nowhere, and has no place.
celery-schedule 1
client 1 seed 7
at 100
begin 1 publish ex rk 0 t []
run 1
celery-report 1
1 100 1 SMEMBERS _kombu.binding.ex = *[]
total list 0 unacked 0 hand 0 ended 0 lost 0 copies 0
# `examples/named_exchange.schedule`: a message of an exchange whose binding is taken back before it is returned. It stays in the table.
celery-schedule 1
client 1 seed 7
client 2 seed 8
client 3 seed 9
at 100
begin 1 declare ex rk - celery
run 1
begin 1 publish ex rk 0 t []
run 1
begin 2 pop celery
run 2
begin 1 undeclare ex rk - celery
run 1
begin 3 restore 7:1
run 3
celery-report 1
1 100 1 SADD _kombu.binding.ex "rk\x06\x16\x06\x16celery" = :1
2 100 1 SMEMBERS _kombu.binding.ex = *[$"rk\x06\x16\x06\x16celery"]
3 100 1 LPUSH celery env(7:1) = :1
4 100 2 BRPOP celery "celery\x06\x163" "celery\x06\x166" "celery\x06\x169" 1 = *[$celery, $env(7:1)]
5 100 2 MULTI = +OK
6 100 2 ZADD unacked_index 100 tag(7:1) = +QUEUED
7 100 2 HSET unacked tag(7:1) entry(7:1) = +QUEUED
8 100 2 EXEC = *[:1, :1]
9 100 1 SREM _kombu.binding.ex "rk\x06\x16\x06\x16celery" = :1
10 100 3 WATCH unacked = +OK
11 100 3 HGET unacked tag(7:1) = $entry(7:1)
12 100 3 SMEMBERS _kombu.binding.ex = *[]
13 100 3 UNWATCH = +OK
place 7:1 unacked
total list 0 unacked 1 hand 0 ended 0 lost 0 copies 0
# Patterns that take a message to two queues, and another to one. The first has copies.
celery-schedule 1
client 1 seed 7
at 100
begin 1 declare news - *.hot celery
run 1
begin 1 declare news - a.# papers
run 1
begin 1 declare news - a.# papers
run 1
begin 1 publish news a.hot 3 tasks.add [2,3]
run 1
begin 1 publish news a.cold 0 tasks.add [2,3]
run 1
celery-report 1
1 100 1 SADD _kombu.binding.news "\x06\x16*.hot\x06\x16celery" = :1
2 100 1 SADD _kombu.binding.news "\x06\x16a.#\x06\x16papers" = :1
3 100 1 SADD _kombu.binding.news "\x06\x16a.#\x06\x16papers" = :0
4 100 1 SMEMBERS _kombu.binding.news = *[$"\x06\x16*.hot\x06\x16celery", $"\x06\x16a.#\x06\x16papers"]
5 100 1 LPUSH "celery\x06\x163" env(7:1) = :1
6 100 1 LPUSH "papers\x06\x163" env(7:1) = :1
7 100 1 SMEMBERS _kombu.binding.news = *[$"\x06\x16*.hot\x06\x16celery", $"\x06\x16a.#\x06\x16papers"]
8 100 1 LPUSH papers env(7:2) = :1
place 7:1 copies
place 7:2 list papers 0
total list 1 unacked 0 hand 0 ended 0 lost 0 copies 1
# A client that stops amid its return, and one that returns the message after it. What the first one watched and queued is gone with it.
celery-schedule 1
client 1 seed 7
client 2 seed 8
client 3 seed 9
client 4 seed 10
at 100
begin 1 publish - celery 0 tasks.add [2,3]
run 1
begin 2 pop celery
run 2
begin 3 restore 7:1
step 3
step 3
step 3
stop 3
begin 4 restore 7:1
run 4
celery-report 1
1 100 1 LPUSH celery env(7:1) = :1
2 100 2 BRPOP celery "celery\x06\x163" "celery\x06\x166" "celery\x06\x169" 1 = *[$celery, $env(7:1)]
3 100 2 MULTI = +OK
4 100 2 ZADD unacked_index 100 tag(7:1) = +QUEUED
5 100 2 HSET unacked tag(7:1) entry(7:1) = +QUEUED
6 100 2 EXEC = *[:1, :1]
7 100 3 WATCH unacked = +OK
8 100 3 HGET unacked tag(7:1) = $entry(7:1)
9 100 3 MULTI = +OK
10 - 3 STOP
11 100 4 WATCH unacked = +OK
12 100 4 HGET unacked tag(7:1) = $entry(7:1)
13 100 4 MULTI = +OK
14 100 4 ZREM unacked_index tag(7:1) = +QUEUED
15 100 4 HDEL unacked tag(7:1) = +QUEUED
16 100 4 RPUSH celery env(7:1)* = +QUEUED
17 100 4 EXEC = *[:1, :1, :1]
place 7:1 list celery 0
total list 1 unacked 0 hand 0 ended 0 lost 0 copies 0"#
}
