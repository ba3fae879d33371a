//! The keys of queues, and a message as Celery writes it.

/// The scripts.
pub fn scripts() -> &'static str {
    r#"
== The keys of queues, and of a pop of them.
key celery 3 = "celery\x06\x163"
keys celery = celery "celery\x06\x163" "celery\x06\x166" "celery\x06\x169"
== A message as Celery writes it is in its queue.
0 1 LPUSH celery text(7:1) = :1
place 7:1 = list celery 0
place 7:2 = never
places = 7:1 list celery 0
entries = 1
"#
}
