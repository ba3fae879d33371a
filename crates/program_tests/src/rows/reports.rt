//! Schedules with their whole reports; those of `examples/` have the texts that stand there.
//!
//! A row is a remark after `#`, the schedule, and its report.

/// A schedule and its report.
type Row = (&'static str, &'static str);

/// The schedules that other tests use too, each with its report.
pub fn shared() -> [Row; 5] {
    [
        ("celery-schedule 1", nothing()),
        (empty(), nothing()),
        (one_message(), published()),
        (one_worker(), ended()),
        (one_worker_later(), ended()),
    ]
}

/// Each schedule with its report.
pub fn reports() -> &'static str {
    r#"
# Six messages of the priorities 12, 9, 8, 3, 2 and 0, popped one after the other. They go to the steps 9, 9, 6, 3, 0 and 0, and the lowest step is popped first, each from its tail.
celery-schedule 1
client 1 seed 7
client 2 seed 8
at 100
begin 1 publish - celery 12 tasks.add [2,3]
run 1
begin 1 publish - celery 9 tasks.add [2,3]
run 1
begin 1 publish - celery 8 tasks.add [2,3]
run 1
begin 1 publish - celery 3 tasks.add [2,3]
run 1
begin 1 publish - celery 2 tasks.add [2,3]
run 1
begin 1 publish - celery 0 tasks.add [2,3]
run 1
begin 2 pop celery
run 2
begin 2 pop celery
run 2
begin 2 pop celery
run 2
begin 2 pop celery
run 2
begin 2 pop celery
run 2
begin 2 pop celery
run 2
celery-report 1
1 100 1 LPUSH "celery\x06\x169" env(7:1) = :1
2 100 1 LPUSH "celery\x06\x169" env(7:2) = :2
3 100 1 LPUSH "celery\x06\x166" env(7:3) = :1
4 100 1 LPUSH "celery\x06\x163" env(7:4) = :1
5 100 1 LPUSH celery env(7:5) = :1
6 100 1 LPUSH celery env(7:6) = :2
7 100 2 BRPOP celery "celery\x06\x163" "celery\x06\x166" "celery\x06\x169" 1 = *[$celery, $env(7:5)]
8 100 2 MULTI = +OK
9 100 2 ZADD unacked_index 100 tag(7:5) = +QUEUED
10 100 2 HSET unacked tag(7:5) entry(7:5) = +QUEUED
11 100 2 EXEC = *[:1, :1]
12 100 2 BRPOP celery "celery\x06\x163" "celery\x06\x166" "celery\x06\x169" 1 = *[$celery, $env(7:6)]
13 100 2 MULTI = +OK
14 100 2 ZADD unacked_index 100 tag(7:6) = +QUEUED
15 100 2 HSET unacked tag(7:6) entry(7:6) = +QUEUED
16 100 2 EXEC = *[:1, :1]
17 100 2 BRPOP celery "celery\x06\x163" "celery\x06\x166" "celery\x06\x169" 1 = *[$"celery\x06\x163", $env(7:4)]
18 100 2 MULTI = +OK
19 100 2 ZADD unacked_index 100 tag(7:4) = +QUEUED
20 100 2 HSET unacked tag(7:4) entry(7:4) = +QUEUED
21 100 2 EXEC = *[:1, :1]
22 100 2 BRPOP celery "celery\x06\x163" "celery\x06\x166" "celery\x06\x169" 1 = *[$"celery\x06\x166", $env(7:3)]
23 100 2 MULTI = +OK
24 100 2 ZADD unacked_index 100 tag(7:3) = +QUEUED
25 100 2 HSET unacked tag(7:3) entry(7:3) = +QUEUED
26 100 2 EXEC = *[:1, :1]
27 100 2 BRPOP celery "celery\x06\x163" "celery\x06\x166" "celery\x06\x169" 1 = *[$"celery\x06\x169", $env(7:1)]
28 100 2 MULTI = +OK
29 100 2 ZADD unacked_index 100 tag(7:1) = +QUEUED
30 100 2 HSET unacked tag(7:1) entry(7:1) = +QUEUED
31 100 2 EXEC = *[:1, :1]
32 100 2 BRPOP celery "celery\x06\x163" "celery\x06\x166" "celery\x06\x169" 1 = *[$"celery\x06\x169", $env(7:2)]
33 100 2 MULTI = +OK
34 100 2 ZADD unacked_index 100 tag(7:2) = +QUEUED
35 100 2 HSET unacked tag(7:2) entry(7:2) = +QUEUED
36 100 2 EXEC = *[:1, :1]
place 7:1 unacked
place 7:2 unacked
place 7:3 unacked
place 7:4 unacked
place 7:5 unacked
place 7:6 unacked
total list 0 unacked 6 hand 0 ended 0 lost 0 copies 0
# Two messages, of which a client has popped one and not noted it yet. The first one is in its hand, the other one still in the list.
celery-schedule 1
client 1 seed 7
client 2 seed 8
at 100
begin 1 publish - celery 0 tasks.add [2,3]
run 1
begin 1 publish - celery 0 tasks.add [2,3]
run 1
begin 2 pop celery
step 2
celery-report 1
1 100 1 LPUSH celery env(7:1) = :1
2 100 1 LPUSH celery env(7:2) = :2
3 100 2 BRPOP celery "celery\x06\x163" "celery\x06\x166" "celery\x06\x169" 1 = *[$celery, $env(7:1)]
place 7:1 hand 2
place 7:2 list celery 0
total list 1 unacked 0 hand 1 ended 0 lost 0 copies 0"#
}

/// `examples/empty.schedule`.
pub fn empty() -> &'static str {
    r#"celery-schedule 1
"#
}

/// Its report.
pub fn nothing() -> &'static str {
    r#"celery-report 1
total list 0 unacked 0 hand 0 ended 0 lost 0 copies 0
"#
}

/// `examples/one_message.schedule`.
pub fn one_message() -> &'static str {
    r#"celery-schedule 1
client 1 seed 7
at 100
begin 1 publish - celery 0 tasks.add [2,3]
run 1
"#
}

/// Its report.
pub fn published() -> &'static str {
    r#"celery-report 1
1 100 1 LPUSH celery env(7:1) = :1
place 7:1 list celery 0
total list 1 unacked 0 hand 0 ended 0 lost 0 copies 0
"#
}

/// Its record.
pub fn recorded() -> &'static str {
    r#"celery-record 1
client 1 seed 7
call 100 1 "LPUSH" "celery" "{\"body\":\"W1syLDNdLHt9LHsiY2FsbGJhY2tzIjpudWxsLCJjaGFpbiI6bnVsbCwiY2hvcmQiOm51bGwsImVycmJhY2tzIjpudWxsfV0=\",\"content-encoding\":\"utf-8\",\"content-type\":\"application/json\",\"headers\":{\"argsrepr\":\"[2,3]\",\"eta\":null,\"expires\":null,\"group\":null,\"id\":\"00000000-0000-0007-0000-000000000001\",\"kwargsrepr\":\"{}\",\"lang\":\"py\",\"origin\":\"node\",\"parent_id\":null,\"retries\":0,\"root_id\":\"00000000-0000-0007-0000-000000000001\",\"task\":\"tasks.add\",\"timelimit\":[null,null]},\"properties\":{\"body_encoding\":\"base64\",\"correlation_id\":\"00000000-0000-0007-0000-000000000001\",\"delivery_info\":{\"exchange\":\"\",\"routing_key\":\"celery\"},\"delivery_mode\":2,\"delivery_tag\":\"00000000-0000-0007-0000-000000000001\",\"priority\":0,\"reply_to\":\"\"}}" = :1
"#
}

/// `examples/one_worker.schedule`.
pub fn one_worker() -> &'static str {
    r#"celery-schedule 1
client 1 seed 7
client 2 seed 8
at 100
begin 1 publish - celery 0 tasks.add [2,3]
run 1
begin 2 pop celery
run 2
begin 2 ack 7:1
run 2
"#
}

/// The same, where the worker comes later.
pub fn one_worker_later() -> &'static str {
    r#"celery-schedule 1
client 1 seed 7
at 100
begin 1 publish - celery 0 tasks.add [2,3]
run 1
client 2 seed 8
begin 2 pop celery
run 2
begin 2 ack 7:1
run 2
"#
}

/// The report of both.
pub fn ended() -> &'static str {
    r#"celery-report 1
1 100 1 LPUSH celery env(7:1) = :1
2 100 2 BRPOP celery "celery\x06\x163" "celery\x06\x166" "celery\x06\x169" 1 = *[$celery, $env(7:1)]
3 100 2 MULTI = +OK
4 100 2 ZADD unacked_index 100 tag(7:1) = +QUEUED
5 100 2 HSET unacked tag(7:1) entry(7:1) = +QUEUED
6 100 2 EXEC = *[:1, :1]
7 100 2 MULTI = +OK
8 100 2 ZREM unacked_index tag(7:1) = +QUEUED
9 100 2 HDEL unacked tag(7:1) = +QUEUED
10 100 2 EXEC = *[:1, :1]
place 7:1 ended
total list 0 unacked 0 hand 0 ended 1 lost 0 copies 0
"#
}
