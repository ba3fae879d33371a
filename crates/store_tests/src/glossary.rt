//! The names that rows have for byte strings, as `env(7:1)` for an envelope.
ghost use Rattle.std.specs.Prelude.{IfOk, IsUtf8};

use crate::spelled::spelled;
use envelope::{Envelope, EnvelopeFault, Tag, redelivered, write, write_entry};
use line_text::{Legend, Shape, number_in, short_word, short_words};
use queue_keys::{QueueName, pop_keys, queue_key, step_of};
use sealed_drafts::{Draft, seal};
use serde_json::Value as Tree;
use std::alloc::{AllocError, Global};
use std::process::Abort;
use store_model::Reply;
use wire_values::{Bytes, List, Value, Words};

/// A message as Celery writes it for the queue `celery`, with the tag of seed 7 and counter 1.
fn celery_message() -> &'static str {
    r#"{"body": "W1syLCAyXSwge30sIHsiY2FsbGJhY2tzIjogbnVsbCwgImVycmJhY2tzIjogbnVsbCwgImNoYWluIjogbnVsbCwgImNob3JkIjogbnVsbH1d", "content-encoding": "utf-8", "content-type": "application/json", "headers": {"lang": "py", "task": "tasks.add", "id": "c1"}, "properties": {"correlation_id": "c1", "reply_to": "r1", "delivery_mode": 2, "delivery_info": {"exchange": "", "routing_key": "celery"}, "priority": 0, "body_encoding": "base64", "delivery_tag": "00000000-0000-0007-0000-000000000001"}}"#
}

/// A legend without shapes: what has no name is shown as it stands, or quoted.
struct Plain;

impl Legend for Plain {
    ghost use Rattle.line_text.specs.declared.short.Shape.TheVariants.{Other};

    ghost shape = { λ _ _. Other };

    fn shape(&self, _alloc: Global, _bytes: &[u8]) -> Result<Shape, AllocError> {
        Ok(Shape::Other)
    }
}

/// A byte string and its name.
#[derive(Drop)]
struct Term {
    name: String,
    bytes: Bytes,
}

/// The byte strings that have names: `tag(7:1)` is a tag's text, `env(7:1)` its envelope, `entry(7:1)` the entry of that
/// envelope, and the last two with a star behind them are marked as delivered again.
#[derive(Drop)]
pub struct Glossary {
    terms: Vec<Term>,
}

impl Glossary {
    /// No names.
    pub fn new(alloc: Global) -> Glossary {
        Glossary {
            terms: Vec::new(alloc),
        }
    }

    /// Names a byte string.
    pub fn name(&mut self, name: String, bytes: Bytes) -> Result<(), AllocError> {
        Ok(self.terms.push(Term { name, bytes })?)
    }

    /// Names the message that Celery writes.
    pub fn celery_text(&mut self, alloc: Global) -> Result<(), AllocError> {
        let bytes = Bytes::from_slice(alloc, celery_message().as_bytes())?;
        self.name(String::from_str(alloc, "text(7:1)")?, bytes)
    }

    /// Names what belongs to a message of this tag, which goes by its exchange and routing key.
    pub fn message(
        &mut self,
        alloc: Global,
        tag: Tag,
        way: (&str, &str),
        priority: i64,
    ) -> Result<(), EnvelopeFault> {
        let sent = sealed(alloc, tag, way, priority)?;
        self.tag(alloc, tag)?;
        self.delivery(alloc, tag, "", &sent)?;
        let again = redelivered(alloc, &sent)?;
        self.delivery(alloc, tag, "*", &again)
    }

    /// Names a tag's text.
    fn tag(&mut self, alloc: Global, tag: Tag) -> Result<(), AllocError> {
        let name = name_of(alloc, "tag", tag, "")?;
        let text = Bytes::from_slice(alloc, tag.text().as_slice())?;
        self.name(name, text)
    }

    /// Names an envelope and its entry, with this mark behind them.
    fn delivery(
        &mut self,
        alloc: Global,
        tag: Tag,
        mark: &str,
        envelope: &Envelope,
    ) -> Result<(), EnvelopeFault> {
        let bytes = write(alloc, envelope)?;
        self.marked(alloc, "env", tag, mark, bytes)?;
        let bytes = write_entry(alloc, envelope)?;
        Ok(self.marked(alloc, "entry", tag, mark, bytes)?)
    }

    /// Names bytes of this kind.
    fn marked(
        &mut self,
        alloc: Global,
        kind: &str,
        tag: Tag,
        mark: &str,
        bytes: Bytes,
    ) -> Result<(), AllocError> {
        let name = name_of(alloc, kind, tag, mark)?;
        self.name(name, bytes)
    }

    /// The byte string of a word of a row: what it names, else what it spells.
    fn bytes_of(&self, alloc: Global, word: &str) -> Result<Bytes, AllocError> {
        for term in &self.terms {
            if term.name.as_str() == word {
                return term.bytes.copy(alloc);
            }
        }
        spelled(alloc, word)
    }

    /// The words of a row's command, parted by one space each; none in an empty one.
    pub fn words_of(&self, alloc: Global, command: &str) -> Result<Words, AllocError> {
        let mut out = List::new();
        if command.is_empty() {
            return Ok(out);
        }
        for word in command.split(' ') {
            self.push_word(alloc, &mut out, word)?;
        }
        Ok(out)
    }

    /// Appends what a word of a row stands for.
    fn push_word(&self, alloc: Global, out: &mut Words, word: &str) -> Result<(), AllocError> {
        if word == "K" {
            return push_keys(alloc, out);
        }
        out.push(alloc, self.bytes_of(alloc, word)?)
    }

    /// Appends the name of a byte string, else its short form.
    fn show_bytes(&self, alloc: Global, out: &mut Vec<u8>, bytes: &[u8]) -> Result<(), AllocError> {
        for term in &self.terms {
            if term.bytes.as_slice() == bytes {
                return Ok(out.extend_from_slice(term.name.as_bytes())?);
            }
        }
        short_word(alloc, &Plain, out, bytes)
    }

    /// Appends a sign and a byte string.
    fn show_signed(
        &self,
        alloc: Global,
        out: &mut Vec<u8>,
        sign: u8,
        bytes: &[u8],
    ) -> Result<(), AllocError> {
        out.push(sign)?;
        self.show_bytes(alloc, out, bytes)
    }

    /// Appends values parted by commas.
    fn show_items(
        &self,
        alloc: Global,
        out: &mut Vec<u8>,
        items: &[Value],
    ) -> Result<(), AllocError> {
        let mut separator = b"".as_slice();
        for item in items {
            out.extend_from_slice(separator)?;
            self.show_item(alloc, out, item)?;
            separator = b", ";
        }
        Ok(())
    }

    /// Appends a value as a report has it.
    fn show(&self, alloc: Global, out: &mut Vec<u8>, value: &Value) -> Result<(), AllocError> {
        let Value::Array(items) = value else {
            return self.show_item(alloc, out, value);
        };
        out.extend_from_slice(b"*[")?;
        self.show_items(alloc, out, items.as_slice())?;
        Ok(out.push(b']')?)
    }

    /// Appends a value that holds no others, as a report has it; no row has an array in an array.
    fn show_item(&self, alloc: Global, out: &mut Vec<u8>, value: &Value) -> Result<(), AllocError> {
        match value {
            Value::Status(text) => self.show_signed(alloc, out, b'+', text.as_slice()),
            Value::Error(text) => self.show_signed(alloc, out, b'-', text.as_slice()),
            Value::Integer(number) => show_integer(alloc, out, *number),
            Value::Bulk(bytes) => self.show_signed(alloc, out, b'$', bytes.as_slice()),
            Value::NullBulk => Ok(out.extend_from_slice(b"$-")?),
            Value::Array(_) => Ok(out.extend_from_slice(b"an inner array")?),
            Value::NullArray => Ok(out.extend_from_slice(b"*-")?),
        }
    }

    /// A reply as a report has it.
    pub fn reply_text(&self, alloc: Global, reply: &Reply) -> Result<Vec<u8>, AllocError> {
        let mut out = Vec::new(alloc);
        for value in reply.pushed.as_slice() {
            self.show(alloc, &mut out, value)?;
            out.extend_from_slice(b" ; ")?;
        }
        self.show(alloc, &mut out, &reply.answer)?;
        Ok(out)
    }
}

/// Appends the keys of the queue `celery`.
fn push_keys(alloc: Global, out: &mut Words) -> Result<(), AllocError> {
    for key in [
        b"celery".as_slice(),
        b"celery\x06\x163",
        b"celery\x06\x166",
        b"celery\x06\x169",
    ] {
        out.push(alloc, Bytes::from_slice(alloc, key)?)?;
    }
    Ok(())
}

/// The key of a queue for a priority, as a report has it.
pub fn key_text<R: Abort>(rt: &R, alloc: Global, row: &str) -> Result<Vec<u8>, AllocError> {
    let (queue, priority) = row.split_once(' ').expect(rt, "a queue and a priority");
    let priority = number_in(0, 255, priority).expect(rt, "a priority") as u8;
    let name = queue_in(rt, alloc, queue);
    let key = queue_key(alloc, &name, step_of(priority))?;
    let mut out = Vec::new(alloc);
    short_word(alloc, &Plain, &mut out, key.as_slice())?;
    Ok(out)
}

/// The keys of a pop of a queue, with spaces between them.
pub fn keys_text<R: Abort>(rt: &R, alloc: Global, queue: &str) -> Result<Vec<u8>, AllocError> {
    let queues = [queue_in(rt, alloc, queue)];
    let keys = pop_keys(alloc, queues.as_slice())?;
    let mut out = Vec::new(alloc);
    short_words(alloc, &Plain, &mut out, keys.as_slice())?;
    let _space = out.pop();
    Ok(out)
}

/// The queue of a name.
fn queue_in<R: Abort>(rt: &R, alloc: Global, name: &str) -> QueueName {
    QueueName::new(alloc, name.as_bytes())
        .ok()
        .expect(rt, "a name")
}

/// The name of what belongs to a tag.
fn name_of(alloc: Global, kind: &str, tag: Tag, mark: &str) -> Result<String, AllocError> {
    let seed = tag.seed();
    let counter = tag.counter();
    format!(in alloc; "{kind}({seed}:{counter}){mark}")
}

/// Appends an integer.
fn show_integer(alloc: Global, out: &mut Vec<u8>, number: i64) -> Result<(), AllocError> {
    let text = format!(in alloc; ":{number}")?;
    Ok(out.extend_from_slice(text.as_bytes())?)
}

/// A version 2 message of `tasks.add` under this tag.
fn sealed(
    alloc: Global,
    tag: Tag,
    way: (&str, &str),
    priority: i64,
) -> Result<Envelope, EnvelopeFault> {
    let (exchange, routing_key) = way;
    let draft = Draft {
        content: text_bytes(alloc, "[[2,3],{},{}]")?,
        headers: headers(alloc)?,
        id: text_bytes(alloc, "a1")?,
        exchange: text_bytes(alloc, exchange)?,
        routing_key: text_bytes(alloc, routing_key)?,
        priority,
    };
    seal(alloc, &draft, tag)
}

/// The bytes of a text.
fn text_bytes(alloc: Global, text: &str) -> Result<Bytes, AllocError>
    ensures { IfOk result (λ bytes. IsUtf8 bytes) }
{
    Bytes::from_slice(alloc, text.as_bytes())
}

/// The headers of that task.
fn headers(alloc: Global) -> Result<Tree, EnvelopeFault> {
    match Tree::from_slice(alloc, br#"{"task":"tasks.add","id":"a1","retries":0}"#) {
        Ok(headers) => Ok(headers),
        Err(_) => Err(EnvelopeFault::NotJson),
    }
}
