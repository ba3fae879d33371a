//! Each kind of key, expiry, and what a blocking pop would find; from Redis' command pages.

/// The scripts.
pub fn scripts() -> &'static str {
    r#"
== Lists.
0 1 LPUSH q a b = :2
0 1 rpush q c = :3
0 1 LLEN q = :3
0 1 BRPOP none q 1 = *[$q, $c]
0 1 RPOP q = $a
0 1 BRPOP q none 1 = *[$q, $b]
0 1 BRPOP q none 0 = *-
0 1 RPOP q = $-
0 1 LLEN q = :0
0 1 SET text v = +OK
0 1 LPUSH q z = :1
0 1 BRPOP none text q 1 = -WRONGTYPE
0 1 BRPOP none q text 1 = *[$q, $z]
0 1 LLEN text = -WRONGTYPE
0 1 SMEMBERS text = -WRONGTYPE
entries = 15
== Keys expire.
0 1 SET mutex one NX EX 300 = +OK
299 2 SET mutex two NX EX 300 = $-
299 2 GET mutex = $one
300 2 SET mutex two NX EX 300 = +OK
300 1 GET mutex = $two
# SET without EX takes the expiry away, another write keeps it.
400 1 SET mutex three = +OK
900 1 GET mutex = $three
900 1 SET mutex four NX = $-
900 1 EXPIRE mutex 10 = :1
909 1 GET mutex = $three
910 1 GET mutex = $-
910 1 EXPIRE mutex 10 = :0
1000 1 RPUSH reply a = :1
1000 1 EXPIRE reply 10 = :1
1009 1 RPUSH reply b = :2
1010 1 LLEN reply = :0
# What was emptied is gone with its expiry.
1010 1 RPUSH reply a = :1
1010 1 EXPIRE reply 10 = :1
1010 1 RPOP reply = $a
1010 1 RPUSH reply b = :1
1030 1 LLEN reply = :1
1030 1 SET k v EX 5 = +OK
1034 1 DEL k reply k none = :2
1034 1 GET k = $-
entries = 24
== Sets and hashes.
0 1 SADD s b a b = :2
0 1 SADD s a = :0
0 1 SADD s B = :1
0 1 SMEMBERS s = *[$B, $a, $b]
0 1 SREM s a x a = :1
0 1 SREM s b B = :2
0 1 SMEMBERS s = *[]
0 1 LPUSH s now-a-list = :1
0 1 HSET h f v = :1
0 1 HSET h f w = :0
0 1 HSET h g x = :1
0 1 HGET h f = $w
0 1 HLEN h = :2
0 1 HDEL h f none g = :2
0 1 HGET h f = $-
0 1 HLEN h = :0
0 1 ZADD h 1 m = :1
entries = 17
== Sorted sets.
0 1 ZADD z 5 a = :1
0 1 ZADD z -3 c = :1
0 1 ZADD z 5 b = :1
0 1 ZADD z 9 d = :1
0 1 ZCARD z = :4
0 1 ZREVRANGEBYSCORE z 10 -10 = *[$d, $b, $a, $c]
0 1 ZREVRANGEBYSCORE z 5 5 = *[$b, $a]
0 1 ZREVRANGEBYSCORE z 5 -3 = *[$b, $a, $c]
0 1 ZREVRANGEBYSCORE z -3 5 = *[]
0 1 ZREVRANGEBYSCORE z 10 -10 LIMIT 0 2 = *[$d, $b]
0 1 ZREVRANGEBYSCORE z 10 -10 LIMIT 1 2 = *[$b, $a]
0 1 ZREVRANGEBYSCORE z 10 -10 LIMIT 3 9223372036854775807 = *[$c]
0 1 ZREVRANGEBYSCORE z 10 -10 LIMIT 9223372036854775807 9223372036854775807 = *[]
0 1 ZREVRANGEBYSCORE z 10 -10 LIMIT 0 0 = *[]
0 1 ZADD z 6 a = :0
0 1 ZREVRANGEBYSCORE z 6 5 = *[$a, $b]
0 1 ZREM z a b none a = :2
0 1 ZREM z c d = :2
0 1 ZREVRANGEBYSCORE z 10 -10 = *[]
entries = 19
== Whether a command finds what it would wait for.
0 1 LPUSH q a = :1
0 1 LPUSH reply a = :1
0 1 EXPIRE reply 10 = :1
finds 0 BRPOP q 1 = yes
finds 0 BRPOP none 1 = no
finds 0 brpop none q 1 = yes
finds 0 BRPOP none -1 = yes
finds 0 BRPOP none = yes
finds 9 BRPOP reply 1 = yes
finds 10 BRPOP reply none 1 = no
finds 0 PING = yes
finds 0 = yes
entries = 3
"#
}
