//! Commands that concern no message, a transaction that can't be queued, and the mutex of a pass.

/// The scripts.
pub fn scripts() -> &'static str {
    r#"
== A command that can't be queued breaks the queue, and nothing of it runs.
message 7:1 0 celery
100 1 LPUSH celery env(7:1) = :1
100 1 MULTI = +OK
100 1 DEL celery = +QUEUED
100 1 GET celery = -"ERR inside"
100 1 EXEC = -EXECABORT
100 1 LLEN celery = :1
place 7:1 = list celery 0
entries = 6
== A message of a control channel, its reply, and what else concerns no message; a subscribed
# client is told what is pending before its own answer.
message 7:1 0 celery
100 1 LPUSH celery env(7:1) = :1
100 1 PING = +PONG
100 1 SELECT 0 = +OK
100 1 LLEN celery = :1
100 2 SUBSCRIBE /0.celery.pidbox = *[$subscribe, $/0.celery.pidbox, :1]
100 1 PUBLISH /0.celery.pidbox ping = :1
100 2 PING = *[$message, $/0.celery.pidbox, $ping] ; *[$pong, $""]
100 2 PING = *[$pong, $""]
100 2 UNSUBSCRIBE /0.celery.pidbox = *[$unsubscribe, $/0.celery.pidbox, :0]
100 2 LPUSH 5.reply.celery.pidbox pong = :1
100 2 EXPIRE 5.reply.celery.pidbox 60 = :1
159 1 BRPOP 5.reply.celery.pidbox 1 = *[$5.reply.celery.pidbox, $pong]
159 1 BRPOP 5.reply.celery.pidbox 1 = *-
place 7:1 = list celery 0
total = list 1 unacked 0 hand 0 ended 0 lost 0 copies 0
entries = 13
== A pass holds the mutex against another one for 300 seconds; after that it finds the other's
# token and lets it be.
100 3 SET unacked_mutex 9:1 NX EX 300 = +OK
100 4 SET unacked_mutex 10:1 NX EX 300 = $-
400 4 SET unacked_mutex 10:2 NX EX 300 = +OK
400 3 ZREVRANGEBYSCORE unacked_index -3200 0 LIMIT 0 10 = *[]
400 3 WATCH unacked_mutex = +OK
400 3 GET unacked_mutex = $10:2
400 3 UNWATCH = +OK
total = list 0 unacked 0 hand 0 ended 0 lost 0 copies 0
entries = 7
== A watched mutex that expires is an altered key: the transaction doesn't run.
100 3 SET unacked_mutex 9:1 NX EX 300 = +OK
100 3 ZREVRANGEBYSCORE unacked_index -3500 0 LIMIT 0 10 = *[]
100 3 WATCH unacked_mutex = +OK
100 3 GET unacked_mutex = $9:1
399 3 MULTI = +OK
399 3 DEL unacked_mutex = +QUEUED
400 3 EXEC = *-
400 4 SET unacked_mutex 10:1 NX EX 300 = +OK
entries = 8
"#
}
