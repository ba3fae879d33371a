//! An envelope as Celery writes it, and texts that are made from it.
//!
//! The texts stand behind functions without clauses, so that no proof has to read them.
use std::alloc::{AllocError, Global};

/// A message of `tasks.add` as Celery 5 writes it by Kombu's Redis transport.
pub fn usual() -> &'static str {
    r#"{"body": "W1syLCAyXSwge30sIHsiY2FsbGJhY2tzIjogbnVsbCwgImVycmJhY2tzIjogbnVsbCwgImNoYWluIjogbnVsbCwgImNob3JkIjogbnVsbH1d", "content-encoding": "utf-8", "content-type": "application/json", "headers": {"lang": "py", "task": "tasks.add", "id": "c1", "shadow": null, "eta": "2024-05-01T12:00:00.500000+00:00", "expires": null, "group": null, "group_index": null, "retries": 0, "timelimit": [null, null], "root_id": "c1", "parent_id": null, "argsrepr": "(2, 2)", "kwargsrepr": "{}", "origin": "gen1@host", "ignore_result": false, "replaced_task_nesting": 0, "stamped_headers": null, "stamps": {}}, "properties": {"correlation_id": "c1", "reply_to": "r1", "delivery_mode": 2, "delivery_info": {"exchange": "", "routing_key": "celery"}, "priority": 0, "body_encoding": "base64", "delivery_tag": "00000000-0000-0007-0000-000000000001"}}"#
}

/// The same, compact and with its members in order.
pub fn written() -> &'static str {
    r#"{"body":"W1syLCAyXSwge30sIHsiY2FsbGJhY2tzIjogbnVsbCwgImVycmJhY2tzIjogbnVsbCwgImNoYWluIjogbnVsbCwgImNob3JkIjogbnVsbH1d","content-encoding":"utf-8","content-type":"application/json","headers":{"argsrepr":"(2, 2)","eta":"2024-05-01T12:00:00.500000+00:00","expires":null,"group":null,"group_index":null,"id":"c1","ignore_result":false,"kwargsrepr":"{}","lang":"py","origin":"gen1@host","parent_id":null,"replaced_task_nesting":0,"retries":0,"root_id":"c1","shadow":null,"stamped_headers":null,"stamps":{},"task":"tasks.add","timelimit":[null,null]},"properties":{"body_encoding":"base64","correlation_id":"c1","delivery_info":{"exchange":"","routing_key":"celery"},"delivery_mode":2,"delivery_tag":"00000000-0000-0007-0000-000000000001","priority":0,"reply_to":"r1"}}"#
}

/// The same with both redelivered marks.
pub fn marked() -> &'static str {
    r#"{"body":"W1syLCAyXSwge30sIHsiY2FsbGJhY2tzIjogbnVsbCwgImVycmJhY2tzIjogbnVsbCwgImNoYWluIjogbnVsbCwgImNob3JkIjogbnVsbH1d","content-encoding":"utf-8","content-type":"application/json","headers":{"argsrepr":"(2, 2)","eta":"2024-05-01T12:00:00.500000+00:00","expires":null,"group":null,"group_index":null,"id":"c1","ignore_result":false,"kwargsrepr":"{}","lang":"py","origin":"gen1@host","parent_id":null,"redelivered":true,"replaced_task_nesting":0,"retries":0,"root_id":"c1","shadow":null,"stamped_headers":null,"stamps":{},"task":"tasks.add","timelimit":[null,null]},"properties":{"body_encoding":"base64","correlation_id":"c1","delivery_info":{"exchange":"","redelivered":true,"routing_key":"celery"},"delivery_mode":2,"delivery_tag":"00000000-0000-0007-0000-000000000001","priority":0,"reply_to":"r1"}}"#
}

/// The content of the usual envelope.
pub fn content() -> &'static str {
    r#"[[2, 2], {}, {"callbacks": null, "errbacks": null, "chain": null, "chord": null}]"#
}

/// A text with the first `old` replaced.
pub fn edited(alloc: Global, text: &str, old: &str, new: &str) -> Result<String, AllocError> {
    match text.split_once(old) {
        Some((before, after)) => format!(in alloc; "{before}{new}{after}"),
        None => String::from_str(alloc, "no such text"),
    }
}

/// So many copies of a letter before a text.
pub fn repeated(
    alloc: Global,
    letter: &str,
    count: usize,
    text: &str,
) -> Result<String, AllocError> {
    let mut out = String::new(alloc);
    for _ in 0..count {
        out.push_str(letter)?;
    }
    out.push_str(text)?;
    Ok(out)
}
