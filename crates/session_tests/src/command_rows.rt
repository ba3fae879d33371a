//! Rows of commands at one store: each command of the table, and each error in its order.
use crate::shared_stores::{Row, at_once};

/// Errors, of which the earlier one is answered, and each command of the table.
pub fn rows_of_commands() -> [Row; 6] {
    [
        at_once(
            "faulty commands",
            &[],
            &[(
                1,
                &[
                    "NOSUCH a b c",
                    "GET",
                    "GET a b",
                    "SET k v NX EX 5 6",
                    "SET k v ex 5",
                    "SET k v EX NX 0",
                    "SET k v EX 0",
                    "EXPIRE k 05",
                    "SELECT -0",
                    "SELECT 1",
                    "EXEC",
                    "DISCARD",
                ],
                b"-ERR command\r\n-ERR arity\r\n-ERR arity\r\n-ERR arity\r\n-ERR syntax\r\n-ERR syntax\r\n\
                  -ERR integer\r\n-ERR integer\r\n-ERR integer\r\n-ERR database\r\n-ERR outside\r\n-ERR outside\r\n",
            )],
        ),
        at_once(
            "another kind of value, after what is wrong with the words",
            &[(2, "LPUSH q a")],
            &[(
                1,
                &[
                    "ZADD q 1",
                    "ZADD q x a",
                    "ZADD q 1 a",
                    "GET q",
                    "HGET q f",
                    "SADD q a",
                    "LLEN q",
                ],
                b"-ERR arity\r\n-ERR integer\r\n-WRONGTYPE\r\n-WRONGTYPE\r\n-WRONGTYPE\r\n-WRONGTYPE\r\n:1\r\n",
            )],
        ),
        at_once(
            "a broken transaction",
            &[],
            &[(
                1,
                &[
                    "MULTI", "FOO", "EXEC", "MULTI", "SET k v", "GET k", "EXEC", "GET k",
                ],
                b"+OK\r\n-ERR command\r\n-EXECABORT\r\n+OK\r\n+QUEUED\r\n-ERR inside\r\n-EXECABORT\r\n$-1\r\n",
            )],
        ),
        at_once(
            "texts, keys and transactions",
            &[],
            &[(
                1,
                &[
                    "PING",
                    "SELECT 0",
                    "SET k v",
                    "GET k",
                    "EXPIRE k 9",
                    "DEL k other",
                    "WATCH k",
                    "UNWATCH",
                    "MULTI",
                    "DISCARD",
                    "MULTI",
                    "PUBLISH c x",
                    "EXEC",
                ],
                b"+PONG\r\n+OK\r\n+OK\r\n$1\r\nv\r\n:1\r\n:1\r\n+OK\r\n+OK\r\n+OK\r\n+OK\r\n+OK\r\n+QUEUED\r\n*1\r\n:0\r\n",
            )],
        ),
        at_once(
            "lists and sets",
            &[],
            &[(
                1,
                &[
                    "LPUSH q b a",
                    "RPUSH q c",
                    "LLEN q",
                    "RPOP q",
                    "BRPOP none q 1",
                    "BRPOP none 1",
                    "SADD s y x x",
                    "SMEMBERS s",
                    "SREM s x z",
                    "SMEMBERS none",
                ],
                b":2\r\n:3\r\n:3\r\n$1\r\nc\r\n*2\r\n$1\r\nq\r\n$1\r\nb\r\n*-1\r\n\
                  :2\r\n*2\r\n$1\r\nx\r\n$1\r\ny\r\n:1\r\n*0\r\n",
            )],
        ),
        at_once(
            "hashes and sorted sets",
            &[],
            &[(
                1,
                &[
                    "HSET h f v",
                    "HSET h f w",
                    "HGET h f",
                    "HGET h g",
                    "HLEN h",
                    "HDEL h f g",
                    "ZADD z 2 b",
                    "ZADD z 1 a",
                    "ZCARD z",
                    "ZREVRANGEBYSCORE z 2 1 LIMIT 0 10",
                    "ZREM z a c",
                    "ZREVRANGEBYSCORE z 1 0 LIMIT 0 10",
                ],
                b":1\r\n:0\r\n$1\r\nw\r\n$-1\r\n:1\r\n:1\r\n:1\r\n:1\r\n:2\r\n\
                  *2\r\n$1\r\nb\r\n$1\r\na\r\n:1\r\n*0\r\n",
            )],
        ),
    ]
}

/// Each error of a command's words, of which the earlier one is answered.
pub fn rows_of_errors() -> [Row; 6] {
    [
        at_once(
            "too few words, or too many",
            &[],
            &[(
                1,
                &[
                    "PING x",
                    "SELECT",
                    "GET",
                    "SET k",
                    "SET k v NX EX 1 x",
                    "DEL",
                    "EXPIRE k",
                    "LPUSH k",
                    "RPUSH k",
                    "RPOP",
                    "BRPOP k",
                    "LLEN k k",
                    "HLEN",
                    "ZCARD",
                    "SADD s",
                    "SREM s",
                    "SMEMBERS",
                    "HSET h f",
                    "HGET h",
                    "HDEL h",
                    "ZADD z 1",
                    "ZREM z",
                    "ZREVRANGEBYSCORE z 1",
                    "ZREVRANGEBYSCORE z 1 0 LIMIT",
                    "WATCH",
                    "UNWATCH x",
                    "MULTI x",
                    "EXEC x",
                    "DISCARD x",
                    "PUBLISH c",
                    "SUBSCRIBE",
                    "UNSUBSCRIBE c c",
                ],
                b"-ERR arity\r\n-ERR arity\r\n-ERR arity\r\n-ERR arity\r\n-ERR arity\r\n-ERR arity\r\n\
                  -ERR arity\r\n-ERR arity\r\n-ERR arity\r\n-ERR arity\r\n-ERR arity\r\n-ERR arity\r\n\
                  -ERR arity\r\n-ERR arity\r\n-ERR arity\r\n-ERR arity\r\n-ERR arity\r\n-ERR arity\r\n\
                  -ERR arity\r\n-ERR arity\r\n-ERR arity\r\n-ERR arity\r\n-ERR arity\r\n-ERR arity\r\n\
                  -ERR arity\r\n-ERR arity\r\n-ERR arity\r\n-ERR arity\r\n-ERR arity\r\n-ERR arity\r\n\
                  -ERR arity\r\n-ERR arity\r\n",
            )],
        ),
        at_once(
            "a fixed word, before the integers",
            &[],
            &[(
                1,
                &[
                    "SET k v XX",
                    "SET k v PX 0",
                    "SET k v NX PX 0",
                    "SET k v EX EX 0",
                    "ZREVRANGEBYSCORE z x y limit -1 -1",
                ],
                b"-ERR syntax\r\n-ERR syntax\r\n-ERR syntax\r\n-ERR syntax\r\n-ERR syntax\r\n",
            )],
        ),
        at_once(
            "integers that are none, or out of their range",
            &[],
            &[(
                1,
                &[
                    "SELECT 00",
                    "SET k v EX 4294967296",
                    "SET k v NX EX 0",
                    "EXPIRE k +1",
                    "BRPOP q -1",
                    "BRPOP q 0.5",
                    "ZADD z 1.5 a",
                    "ZADD z 9223372036854775808 a",
                    "ZREVRANGEBYSCORE z inf 0",
                    "ZREVRANGEBYSCORE z 1 0 LIMIT -1 1",
                    "ZREVRANGEBYSCORE z 1 0 LIMIT 0 01",
                    "ZADD z -9223372036854775808 a",
                ],
                b"-ERR integer\r\n-ERR integer\r\n-ERR integer\r\n-ERR integer\r\n-ERR integer\r\n\
                  -ERR integer\r\n-ERR integer\r\n-ERR integer\r\n-ERR integer\r\n-ERR integer\r\n\
                  -ERR integer\r\n:1\r\n",
            )],
        ),
        at_once(
            "what may not be queued, after what is wrong with the words",
            &[],
            &[(
                1,
                &[
                    "MULTI",
                    "GET",
                    "GET k",
                    "SELECT x",
                    "SELECT 1",
                    "RPOP q",
                    "BRPOP q x",
                    "BRPOP q 1",
                    "SMEMBERS s",
                    "HGET h f",
                    "ZREVRANGEBYSCORE z 1 0",
                    "WATCH k",
                    "UNWATCH",
                    "MULTI",
                    "SUBSCRIBE c",
                    "UNSUBSCRIBE c",
                    "EXEC",
                ],
                b"+OK\r\n-ERR arity\r\n-ERR inside\r\n-ERR integer\r\n-ERR inside\r\n-ERR inside\r\n\
                  -ERR integer\r\n-ERR inside\r\n-ERR inside\r\n-ERR inside\r\n-ERR inside\r\n\
                  -ERR inside\r\n-ERR inside\r\n-ERR inside\r\n-ERR inside\r\n-ERR inside\r\n\
                  -EXECABORT\r\n",
            )],
        ),
        at_once(
            "errors of commands that were queued stand among the answers",
            &[(1, "SET t v")],
            &[(
                1,
                &[
                    "MULTI",
                    "LPUSH t x",
                    "SET k v NX EX 9",
                    "EXPIRE t 9",
                    "RPUSH q a b",
                    "LLEN q",
                    "SADD s a",
                    "SREM s b",
                    "HSET h f v",
                    "HLEN h",
                    "HDEL h g",
                    "ZADD z 1 a",
                    "ZCARD z",
                    "ZREM z b",
                    "DEL q none",
                    "PING",
                    "EXEC",
                ],
                b"+OK\r\n+QUEUED\r\n+QUEUED\r\n+QUEUED\r\n+QUEUED\r\n+QUEUED\r\n+QUEUED\r\n+QUEUED\r\n\
                  +QUEUED\r\n+QUEUED\r\n+QUEUED\r\n+QUEUED\r\n+QUEUED\r\n+QUEUED\r\n+QUEUED\r\n\
                  +QUEUED\r\n*15\r\n-WRONGTYPE\r\n+OK\r\n:1\r\n:2\r\n:2\r\n:1\r\n:0\r\n:1\r\n:1\r\n\
                  :0\r\n:1\r\n:1\r\n:0\r\n:1\r\n+PONG\r\n",
            )],
        ),
        at_once(
            "a subscribed connection, before all that is wrong",
            &[],
            &[(
                1,
                &[
                    "SUBSCRIBE c",
                    "SUBSCRIBE c",
                    "NOSUCH",
                    "GET",
                    "MULTI",
                    "PING x",
                    "SUBSCRIBE",
                    "PING",
                    "UNSUBSCRIBE d",
                    "UNSUBSCRIBE c",
                    "PING",
                ],
                b"*3\r\n$9\r\nsubscribe\r\n$1\r\nc\r\n:1\r\n*3\r\n$9\r\nsubscribe\r\n$1\r\nc\r\n:1\r\n\
                  -ERR subscribed\r\n-ERR subscribed\r\n-ERR subscribed\r\n-ERR arity\r\n-ERR arity\r\n\
                  *2\r\n$4\r\npong\r\n$0\r\n\r\n*3\r\n$11\r\nunsubscribe\r\n$1\r\nd\r\n:1\r\n\
                  *3\r\n$11\r\nunsubscribe\r\n$1\r\nc\r\n:0\r\n+PONG\r\n",
            )],
        ),
    ]
}

/// Keys that hold another kind of value, and keys that hold nothing, by the commands on each kind.
pub fn rows_of_kinds() -> [Row; 2] {
    [
        at_once(
            "each command at another kind of value",
            &[
                (2, "SET t v"),
                (2, "LPUSH q a"),
                (2, "SADD s a"),
                (2, "HSET h f v"),
                (2, "ZADD z 1 a"),
            ],
            &[(
                1,
                &[
                    "GET q",
                    "LPUSH t x",
                    "RPUSH s x",
                    "RPOP h",
                    "BRPOP none z 1",
                    "LLEN t",
                    "SADD q x",
                    "SREM h x",
                    "SMEMBERS z",
                    "HSET t f v",
                    "HGET q f",
                    "HDEL s f",
                    "HLEN z",
                    "ZADD h 1 a",
                    "ZREM t a",
                    "ZCARD q",
                    "ZREVRANGEBYSCORE s 1 0",
                    "SET q v NX",
                    "SET q w",
                    "EXPIRE z 9",
                    "DEL t q s h z",
                ],
                b"-WRONGTYPE\r\n-WRONGTYPE\r\n-WRONGTYPE\r\n-WRONGTYPE\r\n-WRONGTYPE\r\n-WRONGTYPE\r\n\
                  -WRONGTYPE\r\n-WRONGTYPE\r\n-WRONGTYPE\r\n-WRONGTYPE\r\n-WRONGTYPE\r\n-WRONGTYPE\r\n\
                  -WRONGTYPE\r\n-WRONGTYPE\r\n-WRONGTYPE\r\n-WRONGTYPE\r\n-WRONGTYPE\r\n$-1\r\n+OK\r\n\
                  :1\r\n:5\r\n",
            )],
        ),
        at_once(
            "absent keys",
            &[],
            &[(
                1,
                &[
                    "GET k",
                    "DEL k",
                    "EXPIRE k 1",
                    "RPOP k",
                    "LLEN k",
                    "HLEN k",
                    "ZCARD k",
                    "SREM k a",
                    "SMEMBERS k",
                    "HGET k f",
                    "HDEL k f",
                    "ZREM k a",
                    "ZREVRANGEBYSCORE k 1 0",
                    "PUBLISH c x",
                    "SELECT 0",
                    "ping",
                ],
                b"$-1\r\n:0\r\n:0\r\n$-1\r\n:0\r\n:0\r\n:0\r\n:0\r\n*0\r\n$-1\r\n:0\r\n:0\r\n*0\r\n\
                  :0\r\n+OK\r\n+PONG\r\n",
            )],
        ),
    ]
}
