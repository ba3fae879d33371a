//! Schedules of passes, with their whole reports; those of `examples/` have the texts that stand there.
//!
//! A row is a remark after `#`, the schedule, and its report.

/// Each schedule with its report.
pub fn passes() -> &'static str {
    r#"
# `examples/stop_and_pass.schedule`: a worker stops inside its pop, another one with the next message in the table, and an hour later a pass is said. What was in the hand of the one is lost; what stood in the table comes back, redelivered.
celery-schedule 1
client 1 seed 7
client 2 seed 8
client 3 seed 9
client 4 seed 10
at 100
begin 1 publish - celery 0 tasks.add [2,3]
run 1
begin 1 publish - celery 0 tasks.add [2,3]
run 1
begin 2 pop celery
step 2
stop 2
begin 3 pop celery
run 3
stop 3
at 3700
begin 4 pass 3600
run 4
begin 4 pop celery
run 4
celery-report 1
1 100 1 LPUSH celery env(7:1) = :1
2 100 1 LPUSH celery env(7:2) = :2
3 100 2 BRPOP celery "celery\x06\x163" "celery\x06\x166" "celery\x06\x169" 1 = *[$celery, $env(7:1)]
4 - 2 STOP
5 100 3 BRPOP celery "celery\x06\x163" "celery\x06\x166" "celery\x06\x169" 1 = *[$celery, $env(7:2)]
6 100 3 MULTI = +OK
7 100 3 ZADD unacked_index 100 tag(7:2) = +QUEUED
8 100 3 HSET unacked tag(7:2) entry(7:2) = +QUEUED
9 100 3 EXEC = *[:1, :1]
10 - 3 STOP
11 3700 4 SET unacked_mutex 10:1 NX EX 300 = +OK
12 3700 4 ZREVRANGEBYSCORE unacked_index 100 0 LIMIT 0 10 = *[$tag(7:2)]
13 3700 4 WATCH unacked = +OK
14 3700 4 HGET unacked tag(7:2) = $entry(7:2)
15 3700 4 MULTI = +OK
16 3700 4 ZREM unacked_index tag(7:2) = +QUEUED
17 3700 4 HDEL unacked tag(7:2) = +QUEUED
18 3700 4 RPUSH celery env(7:2)* = +QUEUED
19 3700 4 EXEC = *[:1, :1, :1]
20 3700 4 WATCH unacked_mutex = +OK
21 3700 4 GET unacked_mutex = $10:1
22 3700 4 MULTI = +OK
23 3700 4 DEL unacked_mutex = +QUEUED
24 3700 4 EXEC = *[:1]
25 3700 4 BRPOP celery "celery\x06\x163" "celery\x06\x166" "celery\x06\x169" 1 = *[$celery, $env(7:2)*]
26 3700 4 MULTI = +OK
27 3700 4 ZADD unacked_index 3700 tag(7:2) = +QUEUED
28 3700 4 HSET unacked tag(7:2) entry(7:2)* = +QUEUED
29 3700 4 EXEC = *[:1, :1]
place 7:1 lost 2
place 7:2 unacked
total list 0 unacked 1 hand 0 ended 0 lost 1 copies 0
# `examples/expired_mutex.schedule`: a pass that is held up for longer than its mutex lives, and another client's. The other's first pass finds the mutex held, its second one takes it; and the one held up leaves that alone.
celery-schedule 1
client 3 seed 9
client 4 seed 10
at 100
begin 3 pass 3600
step 3
begin 4 pass 3600
run 4
at 400
begin 4 pass 3600
step 4
run 3
celery-report 1
1 100 3 SET unacked_mutex 9:1 NX EX 300 = +OK
2 100 4 SET unacked_mutex 10:1 NX EX 300 = $-
3 400 4 SET unacked_mutex 10:2 NX EX 300 = +OK
4 400 3 ZREVRANGEBYSCORE unacked_index -3200 0 LIMIT 0 10 = *[]
5 400 3 WATCH unacked_mutex = +OK
6 400 3 GET unacked_mutex = $10:2
7 400 3 UNWATCH = +OK
total list 0 unacked 0 hand 0 ended 0 lost 0 copies 0
# The worker stops with a message in the table, and a pass comes in time. The pass returns the message in one transaction.
celery-schedule 1
client 1 seed 7
client 2 seed 8
client 3 seed 9
client 4 seed 10
at 100
begin 1 publish - celery 0 tasks.add [2,3]
run 1
begin 2 pop celery
run 2
stop 2
at 3700
begin 3 pass 3600
run 3
celery-report 1
1 100 1 LPUSH celery env(7:1) = :1
2 100 2 BRPOP celery "celery\x06\x163" "celery\x06\x166" "celery\x06\x169" 1 = *[$celery, $env(7:1)]
3 100 2 MULTI = +OK
4 100 2 ZADD unacked_index 100 tag(7:1) = +QUEUED
5 100 2 HSET unacked tag(7:1) entry(7:1) = +QUEUED
6 100 2 EXEC = *[:1, :1]
7 - 2 STOP
8 3700 3 SET unacked_mutex 9:1 NX EX 300 = +OK
9 3700 3 ZREVRANGEBYSCORE unacked_index 100 0 LIMIT 0 10 = *[$tag(7:1)]
10 3700 3 WATCH unacked = +OK
11 3700 3 HGET unacked tag(7:1) = $entry(7:1)
12 3700 3 MULTI = +OK
13 3700 3 ZREM unacked_index tag(7:1) = +QUEUED
14 3700 3 HDEL unacked tag(7:1) = +QUEUED
15 3700 3 RPUSH celery env(7:1)* = +QUEUED
16 3700 3 EXEC = *[:1, :1, :1]
17 3700 3 WATCH unacked_mutex = +OK
18 3700 3 GET unacked_mutex = $9:1
19 3700 3 MULTI = +OK
20 3700 3 DEL unacked_mutex = +QUEUED
21 3700 3 EXEC = *[:1]
place 7:1 list celery 0
total list 1 unacked 0 hand 0 ended 0 lost 0 copies 0
# A pass a second too early, and another one in time. The first one finds nothing that is due; the second one has a token of its own.
celery-schedule 1
client 1 seed 7
client 2 seed 8
client 3 seed 9
client 4 seed 10
at 100
begin 1 publish - celery 0 tasks.add [2,3]
run 1
begin 2 pop celery
run 2
at 3699
begin 3 pass 3600
run 3
at 3700
begin 3 pass 3600
run 3
celery-report 1
1 100 1 LPUSH celery env(7:1) = :1
2 100 2 BRPOP celery "celery\x06\x163" "celery\x06\x166" "celery\x06\x169" 1 = *[$celery, $env(7:1)]
3 100 2 MULTI = +OK
4 100 2 ZADD unacked_index 100 tag(7:1) = +QUEUED
5 100 2 HSET unacked tag(7:1) entry(7:1) = +QUEUED
6 100 2 EXEC = *[:1, :1]
7 3699 3 SET unacked_mutex 9:1 NX EX 300 = +OK
8 3699 3 ZREVRANGEBYSCORE unacked_index 99 0 LIMIT 0 10 = *[]
9 3699 3 WATCH unacked_mutex = +OK
10 3699 3 GET unacked_mutex = $9:1
11 3699 3 MULTI = +OK
12 3699 3 DEL unacked_mutex = +QUEUED
13 3699 3 EXEC = *[:1]
14 3700 3 SET unacked_mutex 9:2 NX EX 300 = +OK
15 3700 3 ZREVRANGEBYSCORE unacked_index 100 0 LIMIT 0 10 = *[$tag(7:1)]
16 3700 3 WATCH unacked = +OK
17 3700 3 HGET unacked tag(7:1) = $entry(7:1)
18 3700 3 MULTI = +OK
19 3700 3 ZREM unacked_index tag(7:1) = +QUEUED
20 3700 3 HDEL unacked tag(7:1) = +QUEUED
21 3700 3 RPUSH celery env(7:1)* = +QUEUED
22 3700 3 EXEC = *[:1, :1, :1]
23 3700 3 WATCH unacked_mutex = +OK
24 3700 3 GET unacked_mutex = $9:2
25 3700 3 MULTI = +OK
26 3700 3 DEL unacked_mutex = +QUEUED
27 3700 3 EXEC = *[:1]
place 7:1 list celery 0
total list 1 unacked 0 hand 0 ended 0 lost 0 copies 0
# Eleven messages are due. The ten youngest return, the younger one first, and of those the oldest is popped next.
celery-schedule 1
client 1 seed 7
client 2 seed 8
client 3 seed 9
client 4 seed 10
begin 1 publish - celery 0 t []
run 1
begin 1 publish - celery 0 t []
run 1
begin 1 publish - celery 0 t []
run 1
begin 1 publish - celery 0 t []
run 1
begin 1 publish - celery 0 t []
run 1
begin 1 publish - celery 0 t []
run 1
begin 1 publish - celery 0 t []
run 1
begin 1 publish - celery 0 t []
run 1
begin 1 publish - celery 0 t []
run 1
begin 1 publish - celery 0 t []
run 1
begin 1 publish - celery 0 t []
run 1
at 100
begin 2 pop celery
run 2
at 101
begin 2 pop celery
run 2
at 102
begin 2 pop celery
run 2
at 103
begin 2 pop celery
run 2
at 104
begin 2 pop celery
run 2
at 105
begin 2 pop celery
run 2
at 106
begin 2 pop celery
run 2
at 107
begin 2 pop celery
run 2
at 108
begin 2 pop celery
run 2
at 109
begin 2 pop celery
run 2
at 109
begin 2 pop celery
run 2
at 4000
begin 3 pass 3600
run 3
begin 4 pop celery
run 4
celery-report 1
1 0 1 LPUSH celery env(7:1) = :1
2 0 1 LPUSH celery env(7:2) = :2
3 0 1 LPUSH celery env(7:3) = :3
4 0 1 LPUSH celery env(7:4) = :4
5 0 1 LPUSH celery env(7:5) = :5
6 0 1 LPUSH celery env(7:6) = :6
7 0 1 LPUSH celery env(7:7) = :7
8 0 1 LPUSH celery env(7:8) = :8
9 0 1 LPUSH celery env(7:9) = :9
10 0 1 LPUSH celery env(7:10) = :10
11 0 1 LPUSH celery env(7:11) = :11
12 100 2 BRPOP celery "celery\x06\x163" "celery\x06\x166" "celery\x06\x169" 1 = *[$celery, $env(7:1)]
13 100 2 MULTI = +OK
14 100 2 ZADD unacked_index 100 tag(7:1) = +QUEUED
15 100 2 HSET unacked tag(7:1) entry(7:1) = +QUEUED
16 100 2 EXEC = *[:1, :1]
17 101 2 BRPOP celery "celery\x06\x163" "celery\x06\x166" "celery\x06\x169" 1 = *[$celery, $env(7:2)]
18 101 2 MULTI = +OK
19 101 2 ZADD unacked_index 101 tag(7:2) = +QUEUED
20 101 2 HSET unacked tag(7:2) entry(7:2) = +QUEUED
21 101 2 EXEC = *[:1, :1]
22 102 2 BRPOP celery "celery\x06\x163" "celery\x06\x166" "celery\x06\x169" 1 = *[$celery, $env(7:3)]
23 102 2 MULTI = +OK
24 102 2 ZADD unacked_index 102 tag(7:3) = +QUEUED
25 102 2 HSET unacked tag(7:3) entry(7:3) = +QUEUED
26 102 2 EXEC = *[:1, :1]
27 103 2 BRPOP celery "celery\x06\x163" "celery\x06\x166" "celery\x06\x169" 1 = *[$celery, $env(7:4)]
28 103 2 MULTI = +OK
29 103 2 ZADD unacked_index 103 tag(7:4) = +QUEUED
30 103 2 HSET unacked tag(7:4) entry(7:4) = +QUEUED
31 103 2 EXEC = *[:1, :1]
32 104 2 BRPOP celery "celery\x06\x163" "celery\x06\x166" "celery\x06\x169" 1 = *[$celery, $env(7:5)]
33 104 2 MULTI = +OK
34 104 2 ZADD unacked_index 104 tag(7:5) = +QUEUED
35 104 2 HSET unacked tag(7:5) entry(7:5) = +QUEUED
36 104 2 EXEC = *[:1, :1]
37 105 2 BRPOP celery "celery\x06\x163" "celery\x06\x166" "celery\x06\x169" 1 = *[$celery, $env(7:6)]
38 105 2 MULTI = +OK
39 105 2 ZADD unacked_index 105 tag(7:6) = +QUEUED
40 105 2 HSET unacked tag(7:6) entry(7:6) = +QUEUED
41 105 2 EXEC = *[:1, :1]
42 106 2 BRPOP celery "celery\x06\x163" "celery\x06\x166" "celery\x06\x169" 1 = *[$celery, $env(7:7)]
43 106 2 MULTI = +OK
44 106 2 ZADD unacked_index 106 tag(7:7) = +QUEUED
45 106 2 HSET unacked tag(7:7) entry(7:7) = +QUEUED
46 106 2 EXEC = *[:1, :1]
47 107 2 BRPOP celery "celery\x06\x163" "celery\x06\x166" "celery\x06\x169" 1 = *[$celery, $env(7:8)]
48 107 2 MULTI = +OK
49 107 2 ZADD unacked_index 107 tag(7:8) = +QUEUED
50 107 2 HSET unacked tag(7:8) entry(7:8) = +QUEUED
51 107 2 EXEC = *[:1, :1]
52 108 2 BRPOP celery "celery\x06\x163" "celery\x06\x166" "celery\x06\x169" 1 = *[$celery, $env(7:9)]
53 108 2 MULTI = +OK
54 108 2 ZADD unacked_index 108 tag(7:9) = +QUEUED
55 108 2 HSET unacked tag(7:9) entry(7:9) = +QUEUED
56 108 2 EXEC = *[:1, :1]
57 109 2 BRPOP celery "celery\x06\x163" "celery\x06\x166" "celery\x06\x169" 1 = *[$celery, $env(7:10)]
58 109 2 MULTI = +OK
59 109 2 ZADD unacked_index 109 tag(7:10) = +QUEUED
60 109 2 HSET unacked tag(7:10) entry(7:10) = +QUEUED
61 109 2 EXEC = *[:1, :1]
62 109 2 BRPOP celery "celery\x06\x163" "celery\x06\x166" "celery\x06\x169" 1 = *[$celery, $env(7:11)]
63 109 2 MULTI = +OK
64 109 2 ZADD unacked_index 109 tag(7:11) = +QUEUED
65 109 2 HSET unacked tag(7:11) entry(7:11) = +QUEUED
66 109 2 EXEC = *[:1, :1]
67 4000 3 SET unacked_mutex 9:1 NX EX 300 = +OK
68 4000 3 ZREVRANGEBYSCORE unacked_index 400 0 LIMIT 0 10 = *[$tag(7:11), $tag(7:10), $tag(7:9), $tag(7:8), $tag(7:7), $tag(7:6), $tag(7:5), $tag(7:4), $tag(7:3), $tag(7:2)]
69 4000 3 WATCH unacked = +OK
70 4000 3 HGET unacked tag(7:11) = $entry(7:11)
71 4000 3 MULTI = +OK
72 4000 3 ZREM unacked_index tag(7:11) = +QUEUED
73 4000 3 HDEL unacked tag(7:11) = +QUEUED
74 4000 3 RPUSH celery env(7:11)* = +QUEUED
75 4000 3 EXEC = *[:1, :1, :1]
76 4000 3 WATCH unacked = +OK
77 4000 3 HGET unacked tag(7:10) = $entry(7:10)
78 4000 3 MULTI = +OK
79 4000 3 ZREM unacked_index tag(7:10) = +QUEUED
80 4000 3 HDEL unacked tag(7:10) = +QUEUED
81 4000 3 RPUSH celery env(7:10)* = +QUEUED
82 4000 3 EXEC = *[:1, :1, :2]
83 4000 3 WATCH unacked = +OK
84 4000 3 HGET unacked tag(7:9) = $entry(7:9)
85 4000 3 MULTI = +OK
86 4000 3 ZREM unacked_index tag(7:9) = +QUEUED
87 4000 3 HDEL unacked tag(7:9) = +QUEUED
88 4000 3 RPUSH celery env(7:9)* = +QUEUED
89 4000 3 EXEC = *[:1, :1, :3]
90 4000 3 WATCH unacked = +OK
91 4000 3 HGET unacked tag(7:8) = $entry(7:8)
92 4000 3 MULTI = +OK
93 4000 3 ZREM unacked_index tag(7:8) = +QUEUED
94 4000 3 HDEL unacked tag(7:8) = +QUEUED
95 4000 3 RPUSH celery env(7:8)* = +QUEUED
96 4000 3 EXEC = *[:1, :1, :4]
97 4000 3 WATCH unacked = +OK
98 4000 3 HGET unacked tag(7:7) = $entry(7:7)
99 4000 3 MULTI = +OK
100 4000 3 ZREM unacked_index tag(7:7) = +QUEUED
101 4000 3 HDEL unacked tag(7:7) = +QUEUED
102 4000 3 RPUSH celery env(7:7)* = +QUEUED
103 4000 3 EXEC = *[:1, :1, :5]
104 4000 3 WATCH unacked = +OK
105 4000 3 HGET unacked tag(7:6) = $entry(7:6)
106 4000 3 MULTI = +OK
107 4000 3 ZREM unacked_index tag(7:6) = +QUEUED
108 4000 3 HDEL unacked tag(7:6) = +QUEUED
109 4000 3 RPUSH celery env(7:6)* = +QUEUED
110 4000 3 EXEC = *[:1, :1, :6]
111 4000 3 WATCH unacked = +OK
112 4000 3 HGET unacked tag(7:5) = $entry(7:5)
113 4000 3 MULTI = +OK
114 4000 3 ZREM unacked_index tag(7:5) = +QUEUED
115 4000 3 HDEL unacked tag(7:5) = +QUEUED
116 4000 3 RPUSH celery env(7:5)* = +QUEUED
117 4000 3 EXEC = *[:1, :1, :7]
118 4000 3 WATCH unacked = +OK
119 4000 3 HGET unacked tag(7:4) = $entry(7:4)
120 4000 3 MULTI = +OK
121 4000 3 ZREM unacked_index tag(7:4) = +QUEUED
122 4000 3 HDEL unacked tag(7:4) = +QUEUED
123 4000 3 RPUSH celery env(7:4)* = +QUEUED
124 4000 3 EXEC = *[:1, :1, :8]
125 4000 3 WATCH unacked = +OK
126 4000 3 HGET unacked tag(7:3) = $entry(7:3)
127 4000 3 MULTI = +OK
128 4000 3 ZREM unacked_index tag(7:3) = +QUEUED
129 4000 3 HDEL unacked tag(7:3) = +QUEUED
130 4000 3 RPUSH celery env(7:3)* = +QUEUED
131 4000 3 EXEC = *[:1, :1, :9]
132 4000 3 WATCH unacked = +OK
133 4000 3 HGET unacked tag(7:2) = $entry(7:2)
134 4000 3 MULTI = +OK
135 4000 3 ZREM unacked_index tag(7:2) = +QUEUED
136 4000 3 HDEL unacked tag(7:2) = +QUEUED
137 4000 3 RPUSH celery env(7:2)* = +QUEUED
138 4000 3 EXEC = *[:1, :1, :10]
139 4000 3 WATCH unacked_mutex = +OK
140 4000 3 GET unacked_mutex = $9:1
141 4000 3 MULTI = +OK
142 4000 3 DEL unacked_mutex = +QUEUED
143 4000 3 EXEC = *[:1]
144 4000 4 BRPOP celery "celery\x06\x163" "celery\x06\x166" "celery\x06\x169" 1 = *[$celery, $env(7:2)*]
145 4000 4 MULTI = +OK
146 4000 4 ZADD unacked_index 4000 tag(7:2) = +QUEUED
147 4000 4 HSET unacked tag(7:2) entry(7:2)* = +QUEUED
148 4000 4 EXEC = *[:1, :1]
place 7:1 unacked
place 7:2 unacked
place 7:3 list celery 0
place 7:4 list celery 0
place 7:5 list celery 0
place 7:6 list celery 0
place 7:7 list celery 0
place 7:8 list celery 0
place 7:9 list celery 0
place 7:10 list celery 0
place 7:11 list celery 0
total list 9 unacked 2 hand 0 ended 0 lost 0 copies 0
# A worker still has a message when a pass finds it overdue, and takes it again. One message, delivered twice and in one place.
celery-schedule 1
client 1 seed 7
client 2 seed 8
client 3 seed 9
client 4 seed 10
at 100
begin 1 publish - celery 0 tasks.add [2,3]
run 1
begin 2 pop celery
run 2
at 3700
begin 3 pass 3600
run 3
begin 2 pop celery
run 2
celery-report 1
1 100 1 LPUSH celery env(7:1) = :1
2 100 2 BRPOP celery "celery\x06\x163" "celery\x06\x166" "celery\x06\x169" 1 = *[$celery, $env(7:1)]
3 100 2 MULTI = +OK
4 100 2 ZADD unacked_index 100 tag(7:1) = +QUEUED
5 100 2 HSET unacked tag(7:1) entry(7:1) = +QUEUED
6 100 2 EXEC = *[:1, :1]
7 3700 3 SET unacked_mutex 9:1 NX EX 300 = +OK
8 3700 3 ZREVRANGEBYSCORE unacked_index 100 0 LIMIT 0 10 = *[$tag(7:1)]
9 3700 3 WATCH unacked = +OK
10 3700 3 HGET unacked tag(7:1) = $entry(7:1)
11 3700 3 MULTI = +OK
12 3700 3 ZREM unacked_index tag(7:1) = +QUEUED
13 3700 3 HDEL unacked tag(7:1) = +QUEUED
14 3700 3 RPUSH celery env(7:1)* = +QUEUED
15 3700 3 EXEC = *[:1, :1, :1]
16 3700 3 WATCH unacked_mutex = +OK
17 3700 3 GET unacked_mutex = $9:1
18 3700 3 MULTI = +OK
19 3700 3 DEL unacked_mutex = +QUEUED
20 3700 3 EXEC = *[:1]
21 3700 2 BRPOP celery "celery\x06\x163" "celery\x06\x166" "celery\x06\x169" 1 = *[$celery, $env(7:1)*]
22 3700 2 MULTI = +OK
23 3700 2 ZADD unacked_index 3700 tag(7:1) = +QUEUED
24 3700 2 HSET unacked tag(7:1) entry(7:1)* = +QUEUED
25 3700 2 EXEC = *[:1, :1]
place 7:1 unacked
total list 0 unacked 1 hand 0 ended 0 lost 0 copies 0
# A pass whose transaction finds the table altered by a return, and a second pass by the same client. The pass goes on with the tag that is gone; its second token is another one.
celery-schedule 1
client 1 seed 7
client 2 seed 8
client 3 seed 9
client 4 seed 10
at 100
begin 1 publish - celery 0 tasks.add [2,3]
run 1
begin 2 pop celery
run 2
at 3700
begin 3 pass 3600
step 3
step 3
step 3
step 3
step 3
step 3
step 3
begin 4 restore 7:1
run 4
run 3
begin 2 pop celery
run 2
at 8000
begin 3 pass 0
run 3
celery-report 1
1 100 1 LPUSH celery env(7:1) = :1
2 100 2 BRPOP celery "celery\x06\x163" "celery\x06\x166" "celery\x06\x169" 1 = *[$celery, $env(7:1)]
3 100 2 MULTI = +OK
4 100 2 ZADD unacked_index 100 tag(7:1) = +QUEUED
5 100 2 HSET unacked tag(7:1) entry(7:1) = +QUEUED
6 100 2 EXEC = *[:1, :1]
7 3700 3 SET unacked_mutex 9:1 NX EX 300 = +OK
8 3700 3 ZREVRANGEBYSCORE unacked_index 100 0 LIMIT 0 10 = *[$tag(7:1)]
9 3700 3 WATCH unacked = +OK
10 3700 3 HGET unacked tag(7:1) = $entry(7:1)
11 3700 3 MULTI = +OK
12 3700 3 ZREM unacked_index tag(7:1) = +QUEUED
13 3700 3 HDEL unacked tag(7:1) = +QUEUED
14 3700 4 WATCH unacked = +OK
15 3700 4 HGET unacked tag(7:1) = $entry(7:1)
16 3700 4 MULTI = +OK
17 3700 4 ZREM unacked_index tag(7:1) = +QUEUED
18 3700 4 HDEL unacked tag(7:1) = +QUEUED
19 3700 4 RPUSH celery env(7:1)* = +QUEUED
20 3700 4 EXEC = *[:1, :1, :1]
21 3700 3 RPUSH celery env(7:1)* = +QUEUED
22 3700 3 EXEC = *-
23 3700 3 WATCH unacked = +OK
24 3700 3 HGET unacked tag(7:1) = $-
25 3700 3 UNWATCH = +OK
26 3700 3 WATCH unacked_mutex = +OK
27 3700 3 GET unacked_mutex = $9:1
28 3700 3 MULTI = +OK
29 3700 3 DEL unacked_mutex = +QUEUED
30 3700 3 EXEC = *[:1]
31 3700 2 BRPOP celery "celery\x06\x163" "celery\x06\x166" "celery\x06\x169" 1 = *[$celery, $env(7:1)*]
32 3700 2 MULTI = +OK
33 3700 2 ZADD unacked_index 3700 tag(7:1) = +QUEUED
34 3700 2 HSET unacked tag(7:1) entry(7:1)* = +QUEUED
35 3700 2 EXEC = *[:1, :1]
36 8000 3 SET unacked_mutex 9:2 NX EX 300 = +OK
37 8000 3 ZREVRANGEBYSCORE unacked_index 8000 0 LIMIT 0 10 = *[$tag(7:1)]
38 8000 3 WATCH unacked = +OK
39 8000 3 HGET unacked tag(7:1) = $entry(7:1)*
40 8000 3 MULTI = +OK
41 8000 3 ZREM unacked_index tag(7:1) = +QUEUED
42 8000 3 HDEL unacked tag(7:1) = +QUEUED
43 8000 3 RPUSH celery env(7:1)* = +QUEUED
44 8000 3 EXEC = *[:1, :1, :1]
45 8000 3 WATCH unacked_mutex = +OK
46 8000 3 GET unacked_mutex = $9:2
47 8000 3 MULTI = +OK
48 8000 3 DEL unacked_mutex = +QUEUED
49 8000 3 EXEC = *[:1]
place 7:1 list celery 0
total list 1 unacked 0 hand 0 ended 0 lost 0 copies 0"#
}
