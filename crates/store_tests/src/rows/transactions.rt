//! Transactions, the faults that break them, and watched keys; from Redis' command pages.

/// The scripts.
pub fn scripts() -> &'static str {
    r#"
== Commands are queued, and a transaction runs them.
7 1 MULTI = +OK
7 1 ZADD unacked_index 7 t1 = +QUEUED
7 1 HSET unacked t1 entry = +QUEUED
7 2 HGET unacked t1 = $-
7 1 EXEC = *[:1, :1]
7 2 HGET unacked t1 = $entry
# An error of a queued command stands among the answers, and the others run.
7 1 SET text v = +OK
7 1 MULTI = +OK
7 1 LPUSH text a = +QUEUED
7 1 PING = +QUEUED
7 1 EXEC = *[-WRONGTYPE, +PONG]
# A command that can't be queued breaks the queue, and nothing of it runs.
7 1 MULTI = +OK
7 1 LPUSH q a = +QUEUED
7 1 GET text = -"ERR inside"
7 1 LPUSH q b = +QUEUED
7 1 EXEC = -EXECABORT
7 1 LLEN q = :0
7 1 EXEC = -"ERR outside"
7 1 MULTI = +OK
7 1 LPUSH q a = +QUEUED
7 1 DISCARD = +OK
7 1 DISCARD = -"ERR outside"
entries = 22
== A queue is broken at each fault.
0 1 MULTI = +OK
0 1 NOSUCH = -"ERR command"
0 1 EXEC = -EXECABORT
0 1 MULTI = +OK
0 1 EXEC x = -"ERR arity"
0 1 EXEC = -EXECABORT
0 1 MULTI = +OK
0 1 SET k v XX = -"ERR syntax"
0 1 EXEC = -EXECABORT
0 1 MULTI = +OK
0 1 EXPIRE k 0 = -"ERR integer"
0 1 EXEC = -EXECABORT
0 1 MULTI = +OK
0 1 MULTI = -"ERR inside"
0 1 EXEC = -EXECABORT
0 1 MULTI = +OK
0 1 EXEC = *[]
entries = 17
== Watchers are marked.
# Another's write.
0 1 HSET unacked t1 entry = :1
0 1 WATCH unacked other = +OK
0 2 HDEL unacked t1 = :1
0 1 MULTI = +OK
0 1 RPUSH q entry = +QUEUED
0 1 EXEC = *-
0 1 LLEN q = :0
# What alters nothing marks nobody.
0 1 WATCH unacked = +OK
0 2 HDEL unacked t1 = :0
0 1 MULTI = +OK
0 1 PING = +QUEUED
0 1 EXEC = *[+PONG]
# One's own write, and UNWATCH.
0 1 WATCH k = +OK
0 1 SET k v = +OK
0 1 MULTI = +OK
0 1 EXEC = *-
0 1 WATCH k = +OK
0 2 SET k w = +OK
0 1 UNWATCH = +OK
0 1 MULTI = +OK
0 1 EXEC = *[]
# A key that is due.
10 1 SET mutex me NX EX 5 = +OK
10 1 WATCH mutex = +OK
15 2 PING = +PONG
15 1 MULTI = +OK
15 1 EXEC = *-
# A member that has its score already is no change.
15 2 ZADD z 5 a = :1
15 1 WATCH z = +OK
15 2 ZADD z 5 a = :0
15 1 MULTI = +OK
15 1 EXEC = *[]
entries = 31
"#
}
