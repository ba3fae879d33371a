//! Faulty commands and kinds of keys that don't fit; the texts are the store's own.

/// The scripts.
pub fn scripts() -> &'static str {
    r#"
== Faulty commands, each fault before the later ones.
0 1 = -"ERR command"
0 1 NOSUCH a b c = -"ERR command"
0 1 GET = -"ERR arity"
0 1 GET a b = -"ERR arity"
0 1 PING x = -"ERR arity"
0 1 LPUSH q = -"ERR arity"
0 1 BRPOP 0 = -"ERR arity"
0 1 SET k v NX EX 5 6 = -"ERR arity"
0 1 SUBSCRIBE a b = -"ERR arity"
0 1 ZREVRANGEBYSCORE z 1 0 LIMIT 0 = -"ERR arity"
0 1 SET k v nx = -"ERR syntax"
0 1 SET k v ex 5 = -"ERR syntax"
0 1 SET k v EX NX 0 = -"ERR syntax"
0 1 ZREVRANGEBYSCORE z x y limit 0 1 = -"ERR syntax"
0 1 SET k v EX 0 = -"ERR integer"
0 1 SET k v EX 4294967296 = -"ERR integer"
0 1 SET k v EX 4294967295 = +OK
0 1 EXPIRE k 05 = -"ERR integer"
0 1 BRPOP k -1 = -"ERR integer"
0 1 BRPOP k 1.5 = -"ERR integer"
0 1 SELECT -0 = -"ERR integer"
0 1 SELECT 1 = -"ERR database"
0 1 SELECT 0 = +OK
0 1 ZADD z +1 a = -"ERR integer"
0 1 ZADD z 9223372036854775808 a = -"ERR integer"
0 1 ZADD z 9223372036854775807 a = :1
0 1 ZADD z -9223372036854775808 a = :0
0 1 ZADD z -9223372036854775809 a = -"ERR integer"
0 1 ZREVRANGEBYSCORE z 1 0 LIMIT -1 1 = -"ERR integer"
0 1 SADD z a = -WRONGTYPE
0 1 HSET z a b = -WRONGTYPE
0 1 ZREM k a = -WRONGTYPE
0 1 SET z v = +OK
entries = 33
"#
}
