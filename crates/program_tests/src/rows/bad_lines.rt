//! Bad lines with their reasons: every reason that a line can have, and which of two holds first.
//!
//! A row is the number of the bad line, where the header is line 1, its reason, and the schedule, in which `\n` is a line
//! feed, `\xff` a byte by its two digits, and `\(256:q)` so many letters. A row with `#` at its front is a remark.

/// Whole schedules whose header is bad.
pub fn headers() -> &'static str {
    r#"
1 header | \(0:q)
1 header | \n
1 header | celery-schedule 2\n
1 header | celery-schedule 1\r\n
1 header | stop 1\ncelery-schedule 1\n
1 text | celery-schedule 1\xff\n
"#
}

/// The lines after the header: one for each reason, for each way in which it comes, and for its limits.
pub fn after_a_header() -> &'static str {
    r#"
# The lines after the header: one for each reason, and for each way in which the reason comes.
2 text | at 1\xff\n
2 syntax | begin 1 pass\n
2 syntax | begin 1 pass 4294967296\n
2 syntax | begin 1 pass 3600 1\n
2 unknown client | begin 1 pass 3600\n
4 stopped | client 1 seed 7\nstop 1\nbegin 1 pass 3600\n
5 busy | client 1 seed 7\nbegin 1 pass 3600\nstep 1\nbegin 1 pass 3600\n
2 syntax | \n
2 syntax | CLIENT 1 seed 7\n
2 syntax |  client 1 seed 7\n
2 syntax | begin 1  pop celery\n
2 syntax | begin\n
2 syntax | begin 1\n
2 syntax | begin 1 publish\n
2 syntax | begin 1 publish - celery 0 tasks.add\n
2 syntax | begin 1 publish - celery 256 tasks.add []\n
2 syntax | begin 1 publish - caf\xc3\xa9 0 tasks.add []\n
2 syntax | begin 1 pop\n
2 syntax | begin 1 pop celery \n
2 syntax | begin 1 declare news\n
2 syntax | begin 1 declare - hot - celery\n
2 syntax | begin 1 undeclare news hot - celery paper\n
2 syntax | begin 1 restore\n
2 syntax | begin 1 requeue 7:1 7:2\n
2 syntax | begin 1 return 7:1\n
2 syntax | stop\n
2 syntax | stop 1 2\n
2 syntax | stop 4097\n
2 syntax | begin 1 ack 7\n
2 syntax | begin 1 ack 7:01\n
2 syntax | begin 1 ack 7:18446744073709551616\n
2 syntax | client 0 seed 7\n
2 syntax | client 4097 seed 7\n
2 syntax | client 1 seed 0\n
2 syntax | client 1 seed 4611686018427387905\n
2 syntax | client 1 seed 7\r\n
2 syntax | client 1 sead 7\n
2 syntax | at -1\n
2 syntax | at 1 2\n
2 syntax | step\n
3 syntax | client 1 seed 7\nrun 01\n
3 unknown client | client 1 seed 7\nbegin 2 pop celery\n
3 unknown client | client 1 seed 7\nstep 2\n
3 unknown client | client 1 seed 7\nstop 2\n
2 unknown client | begin 1 declare news hot - celery\n
4 stopped | client 1 seed 7\nstop 1\nstop 1\n
4 stopped | client 1 seed 7\nstop 1\nbegin 1 restore 7:1\n
5 stopped | client 1 seed 7\nbegin 1 ack 7:1\nstop 1\nstep 1\n
6 stopped | client 1 seed 7\nbegin 1 ack 7:1\nstep 1\nstop 1\nrun 1\n
4 busy | client 1 seed 7\nbegin 1 ack 7:1\nbegin 1 pop celery\n
5 busy | client 1 seed 7\nbegin 1 ack 7:1\nstep 1\nbegin 1 ack 7:1\n
3 idle | client 1 seed 7\nstep 1\n
3 idle | client 1 seed 7\nrun 1\n
5 idle | client 1 seed 7\nbegin 1 pop celery\nstep 1\nrun 1\n
5 idle | client 1 seed 7\nbegin 1 ack 7:1\nrun 1\nstep 1\n
3 repeated | client 1 seed 7\nclient 1 seed 8\n
3 repeated | client 1 seed 7\nclient 2 seed 7\n
2 moment | at 1099511627776\n
2 moment | at 100000000000000000000000000000\n
4 moment | at 5\nat 5\nat 4\n
4 busy | client 1 seed 7\nbegin 1 restore 7:1\nbegin 1 requeue 7:1\n
3 name | client 1 seed 7\nbegin 1 publish - - 0 tasks.add []\n
3 reserved | client 1 seed 7\nbegin 1 declare news hot - unacked\n
3 reserved | client 1 seed 7\nbegin 1 undeclare news hot - unacked\n
3 json | client 1 seed 7\nbegin 1 publish news hot 0 tasks.add {}\n
3 reserved | client 1 seed 7\nbegin 1 publish - unacked 0 tasks.add []\n
3 reserved | client 1 seed 7\nbegin 1 pop unacked_index\n
3 reserved | client 1 seed 7\nbegin 1 pop unacked_mutex\n
3 reserved | client 1 seed 7\nbegin 1 pop celery _kombu.binding.news\n
3 reserved | client 1 seed 7\nbegin 1 pop celery-task-meta- celery\n
3 reserved | client 1 seed 7\nbegin 1 pop 5.reply.celery.pidbox\n
2 syntax | at\n
# Lines for which two reasons hold, or more: the one that is tested first is given.
# `text` and `syntax`, `syntax` and `unknown client`.
2 text | stop 1 2\xff\n
2 syntax | begin 1 pass 03600\n
# `syntax` before what is known of the client, the moment and the names.
2 syntax | begin 1 ack 1:1:1\n
3 syntax | client 1 seed 7\nclient 1 seed 07\n
2 syntax | at 1099511627776 0\n
3 syntax | client 1 seed 7\nbegin 1 pop unacked  celery\n
3 syntax | client 1 seed 7\nbegin 1 publish - unacked 300 tasks.add {}\n
# `unknown client` before the reasons after it.
2 unknown client | run 1\n
2 unknown client | begin 1 pop unacked\n
2 unknown client | begin 1 publish - celery 0 tasks.add {}\n
2 unknown client | stop 1\n
# So it is with `stopped`: a client that is gone is there, and has its number and its seed.
4 stopped | client 1 seed 7\nstop 1\nclient 1 seed 7\n
4 repeated | client 1 seed 7\nstop 1\nclient 2 seed 7\n
4 stopped | client 1 seed 7\nstop 1\nbegin 1 pop unacked\n
5 stopped | client 1 seed 7\nbegin 1 ack 7:1\nstop 1\nbegin 1 ack 7:1\n
4 stopped | client 1 seed 7\nstop 1\nstep 1\n
# `busy` likewise.
4 busy | client 1 seed 7\nbegin 1 ack 7:1\nbegin 1 pop unacked\n
4 busy | client 1 seed 7\nbegin 1 ack 7:1\nbegin 1 publish - - 0 tasks.add []\n
4 busy | client 1 seed 7\nbegin 1 ack 7:1\nbegin 1 publish - celery 0 tasks.add {}\n
# `name` and `json`, `reserved` and `json`.
3 name | client 1 seed 7\nbegin 1 publish - - 0 tasks.add {}\n
3 reserved | client 1 seed 7\nbegin 1 publish - unacked 0 tasks.add {}\n
# `json` and `task`, `name` and `reserved`.
3 json | client 1 seed 7\nbegin 1 publish \(256:x) hot 0 tasks.add {}\n
3 name | client 1 seed 7\nbegin 1 declare \(256:x) hot - unacked\n
# The first bad line decides, whichever reasons the later ones have.
3 idle | client 1 seed 7\nrun 1\nstop 1\n\xff\n
3 json | client 1 seed 7\nbegin 1 publish - celery 0 tasks.add {}\nat x\n
4 moment | client 1 seed 7\nat 3\nat 2\nclient 1 seed 7\nrun 9
# So does a bad line at the end, with or without its line feed.
6 idle | client 1 seed 7\nbegin 1 pop celery\nrun 1\nat 7\nrun 1\n
6 idle | client 1 seed 7\nbegin 1 pop celery\nrun 1\nat 7\nrun 1
# Long names. The front of an exchange's bindings has 15 bytes.
3 name | client 1 seed 7\nbegin 1 pop \(256:q)
3 name | client 1 seed 7\nbegin 1 pop celery \(256:q) celery
3 name | client 1 seed 7\nbegin 1 publish - \(256:q) 0 tasks.add []
3 name | client 1 seed 7\nbegin 1 publish - \(256:q) 0 tasks.add {}
3 reserved | client 1 seed 7\nbegin 1 pop _kombu.binding.\(240:q)
3 name | client 1 seed 7\nbegin 1 pop _kombu.binding.\(241:q)
3 name | client 1 seed 7\nbegin 1 pop _kombu.binding.\(300:q)
3 name | client 1 seed 7\nbegin 1 publish - _kombu.binding.\(300:q) 0 tasks.add []
3 reserved | client 1 seed 7\nbegin 1 publish - _kombu.binding.\(240:q) 0 tasks.add {}
3 name | client 1 seed 7\nbegin 1 declare \(256:x) hot - celery
3 name | client 1 seed 7\nbegin 1 declare news \(256:k) - celery
3 name | client 1 seed 7\nbegin 1 undeclare news - \(256:p) celery
3 name | client 1 seed 7\nbegin 1 undeclare news - - \(256:q)
3 task | client 1 seed 7\nbegin 1 publish \(256:x) hot 0 tasks.add []
3 task | client 1 seed 7\nbegin 1 publish news \(256:k) 0 tasks.add []
3 name | client 1 seed 7\nbegin 1 pop unacked \(256:q)
3 name | client 1 seed 7\nbegin 1 pop \(256:q) unacked
# Arguments that are none.
3 json | client 1 seed 7\nbegin 1 publish - celery 0 tasks.add \n
3 json | client 1 seed 7\nbegin 1 publish - celery 0 tasks.add  \n
3 json | client 1 seed 7\nbegin 1 publish - celery 0 tasks.add [\n
3 json | client 1 seed 7\nbegin 1 publish - celery 0 tasks.add [] x\n
3 json | client 1 seed 7\nbegin 1 publish - celery 0 tasks.add {}\n
3 json | client 1 seed 7\nbegin 1 publish - celery 0 tasks.add "[]"\n
3 json | client 1 seed 7\nbegin 1 publish - celery 0 tasks.add 1\n
3 json | client 1 seed 7\nbegin 1 publish - celery 0 tasks.add [1.5]\n
3 json | client 1 seed 7\nbegin 1 publish - celery 0 tasks.add [1.0]\n
3 json | client 1 seed 7\nbegin 1 publish - celery 0 tasks.add [1e2]\n
3 json | client 1 seed 7\nbegin 1 publish - celery 0 tasks.add [-0]\n
3 json | client 1 seed 7\nbegin 1 publish - celery 0 tasks.add [18446744073709551616]\n
3 json | client 1 seed 7\nbegin 1 publish - celery 0 tasks.add [1e400]\n
3 json | client 1 seed 7\nbegin 1 publish - celery 0 tasks.add [{"a": [0.5]}]\n
3 json | client 1 seed 7\nbegin 1 publish - celery 0 tasks.add [{"a": 1, "a": 1.5}]\n
3 json | client 1 seed 7\nbegin 1 publish - celery 0 tasks.add \(91:[)\(91:])\n
3 json | client 1 seed 7\nbegin 1 publish - celery 0 tasks.add 2\n
3 json | client 1 seed 7\nbegin 1 publish - celery 0 tasks.add [2\n
3 json | client 1 seed 7\nbegin 1 publish - celery 0 tasks.add [2] 3\n
3 json | client 1 seed 7\nbegin 1 publish - celery 0 tasks.add [{"a":1,"a":1.5}]\n
"#
}
