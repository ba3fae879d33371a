//! Schedules at the limits: of a line, of the whole input, of names, numbers and arguments.
//!
//! A row is the status, the place of what is bad, the text that is written, and the schedule, in which `\n` is a line
//! feed, `\r` a carriage return, `\xff` a byte by its two digits, and `\(256:q)` so many letters. Of the text, `report` and
//! `nothing` stand for the reports of one message and of no lines, and `*` for any text. A row with `#` at its front is a remark.

/// Schedules at the limits.
pub fn at_limits() -> &'static str {
    r#"
# Lines of 65,536 bytes, and of one more. A line feed isn't counted, and may be wanting at the end; a carriage return counts.
0 0 | report | celery-schedule 1\nclient 1 seed 7\nat 100\nbegin 1 publish - celery 0 tasks.add [\(65497: )]\nrun 1\n
0 0 | report | celery-schedule 1\nclient 1 seed 7\nat 100\nbegin 1 publish - celery 0 tasks.add [\(65496: )]\r\nrun 1\n
0 0 | nothing | celery-schedule 1\nclient 1 seed 7\nat 100\nbegin 1 publish - celery 0 tasks.add [\(65497: )]
3 4 | bad line 4: long | celery-schedule 1\nclient 1 seed 7\nat 100\nbegin 1 publish - celery 0 tasks.add [\(65498: )]\nrun 1\n
3 4 | bad line 4: long | celery-schedule 1\nclient 1 seed 7\nat 100\nbegin 1 publish - celery 0 tasks.add [\(65497: )]\r\nrun 1\n
3 4 | bad line 4: long | celery-schedule 1\nclient 1 seed 7\nat 100\nbegin 1 publish - celery 0 tasks.add [\(65498: )]
3 4 | bad line 4: long | celery-schedule 1\nclient 1 seed 7\nat 100\nbegin 1 publish - celery 0 tasks.add [\(65498: )]\nat 1 1\n
# `long` comes before each other reason; but a bad line before decides, and so does a long one before another bad one.
3 1 | bad line 1: long | \(65537:q)\n
3 2 | bad line 2: long | celery-schedule 1\n\(65536:q)\xff\n
3 2 | bad line 2: text | celery-schedule 1\n\(65535:q)\xff\n
3 2 | bad line 2: long | celery-schedule 1\n\(65537:q)\n
3 2 | bad line 2: syntax | celery-schedule 1\n\(65536:q)\n
3 2 | bad line 2: unknown client | celery-schedule 1\nrun 1\n\(65537:q)\n
3 2 | bad line 2: long | celery-schedule 1\n\(65537:q)\n\xff\n
# What is at the limit of what is lawful.
0 0 | * | celery-schedule 1\nclient 4096 seed 4611686018427387904\n
0 0 | * | celery-schedule 1\nat 1099511627775\nat 1099511627775\n
0 0 | * | celery-schedule 1\nclient 1 seed 7\nbegin 1 ack 18446744073709551615:18446744073709551615\nrun 1\n
0 0 | * | celery-schedule 1\nclient 1 seed 7\nbegin 1 pop unacked_ xunacked celery-task-meta _kombu.binding 5.reply.celery.pidbox5\n
0 0 | * | celery-schedule 1\nclient 1 seed 7\nbegin 1 pop \(255:q)\n
0 0 | * | celery-schedule 1\nclient 1 seed 7\nbegin 1 publish - \(255:q) 255 tasks.add []\n
0 0 | * | celery-schedule 1\nclient 1 seed 7\nbegin 1 publish - celery 0 ! \x09[1, -9223372036854775808, 18446744073709551615]\r\n
0 0 | * | celery-schedule 1\nclient 1 seed 7\nbegin 1 publish - celery 0 tasks.add  [{"a": 1.5, "a": 1}]\n
0 0 | * | celery-schedule 1\nclient 1 seed 7\nbegin 1 publish - celery 0 tasks.add \(90:[)\(90:])
0 0 | * | celery-schedule 1\nclient 1 seed 7\nbegin 1 publish - celery 0 tasks.add []\n
0 0 | * | celery-schedule 1\nclient 1 seed 7\nbegin 1 publish \(255:x) \(255:k) 0 tasks.add []\n
0 0 | * | celery-schedule 1\nclient 1 seed 7\nbegin 1 publish news unacked 0 tasks.add []\n
0 0 | * | celery-schedule 1\nclient 1 seed 7\nbegin 1 declare \(255:x) \(255:k) \(255:p) \(255:q)\n
0 0 | * | celery-schedule 1\nclient 1 seed 7\nbegin 1 restore 18446744073709551615:0\n
0 0 | * | celery-schedule 1\nclient 1 seed 7\nbegin 1 publish - celery 0 tasks.add  [2, 3]\n
0 0 | * | celery-schedule 1\nclient 1 seed 7\nbegin 1 publish - celery 0 tasks.add [18446744073709551615, -9223372036854775808]\n
0 0 | * | celery-schedule 1\nclient 1 seed 7\nbegin 1 publish - celery 0 tasks.add [{"a":1.5,"a":1}]\n
"#
}
