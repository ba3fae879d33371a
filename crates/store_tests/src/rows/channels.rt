//! Subscribers, and what they are told; from Redis' command pages.

/// The scripts.
pub fn scripts() -> &'static str {
    r#"
== Subscribers are told.
0 1 SUBSCRIBE c = *[$subscribe, $c, :1]
0 1 SUBSCRIBE d = *[$subscribe, $d, :2]
0 1 SUBSCRIBE d = *[$subscribe, $d, :2]
0 3 SUBSCRIBE c = *[$subscribe, $c, :1]
0 2 PUBLISH c first = :2
0 2 PUBLISH other lost = :0
0 2 MULTI = +OK
0 2 PUBLISH d second = +QUEUED
0 2 EXEC = *[:1]
0 1 PING = *[$message, $c, $first] ; *[$message, $d, $second] ; *[$pong, $""]
0 1 PING = *[$pong, $""]
0 3 GET k = *[$message, $c, $first] ; -"ERR subscribed"
0 1 UNSUBSCRIBE c = *[$unsubscribe, $c, :1]
0 1 UNSUBSCRIBE c = *[$unsubscribe, $c, :1]
0 2 PUBLISH c third = :1
0 1 UNSUBSCRIBE d = *[$unsubscribe, $d, :0]
0 1 PING = +PONG
0 3 NOSUCH = *[$message, $c, $third] ; -"ERR subscribed"
0 3 SUBSCRIBE = -"ERR arity"
0 3 MULTI = -"ERR subscribed"
gone 3
0 2 PUBLISH c fourth = :0
0 3 GET k = $-
entries = 22
"#
}
