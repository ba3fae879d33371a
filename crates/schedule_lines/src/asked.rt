//! What a line of a schedule begins, as its words spell it.
ghost use Rattle.std.specs.Prelude.{◌≡◌, ◌∷◌, IfOk, List, MatchOption, None, Option, Some, map, option_map, ℕ};
ghost use Rattle.line_text.specs.Numbers.{number_in};
ghost use Rattle.schedule_model.specs.Lines.{asked_in, dashed_in, declare_in, name_in, pass_in, publish_in, queues_in, tagged_in, made_of_four, made_of_one, made_of_two};
ghost use Rattle.schedule_lines.specs.Bindings.{bound, sent};
ghost use Rattle.schedule_lines.specs.Simple.{simple_block};
ghost use Rattle.schedule_model.specs.declared.line.Asked.{Asked as Begun};
ghost use Rattle.schedule_model.specs.declared.line.Asked.TheVariants.{Ack, Declare, Pop, Publish, Requeue, Restore, Undeclare};

use line_text::tag_in;
use schedule_model::Asked;
use schedule_words::{dashed_in, joined, name_in, priority_in, queues_in, visibility_in};
use std::alloc::{AllocError, Global};
use wire_values::Bytes;

/// What these words begin, the word of the block before the others. None where they spell nothing that can be begun.
pub fn asked_in(alloc: Global, block: &str, words: &[&str]) -> Result<Option<Asked>, AllocError>
    ensures { IfOk result (λ found. found
        ≡ asked_in block.now (map (λ word. word.now) words.now)) }
{
    if block == "publish" {
        publish_in(alloc, words)
    } else if block == "declare" {
        declare_in(alloc, words)
    } else if block == "undeclare" {
        undeclare_in(alloc, words)
    } else if block == "pop" {
        pop_in(alloc, words)
    } else {
        Ok(simple_block(block, words))
    }
}

/// The block of a tag or of a visibility timeout that these words begin.
fn simple_block(block: &str, words: &[&str]) -> Option<Asked>
    ensures { result ≡ simple_block block.now (map (λ word. word.now) words.now) }
{
    if block == "ack" {
        ack_in(words)
    } else if block == "restore" {
        restore_in(words)
    } else if block == "requeue" {
        requeue_in(words)
    } else if block == "pass" {
        pass_in(words)
    } else {
        None
    }
}

/// A publication, whose arguments are the rest of the line.
fn publish_in(alloc: Global, words: &[&str]) -> Result<Option<Asked>, AllocError>
    ensures { IfOk result (λ found. found ≡ publish_in (map (λ word. word.now) words.now)) }
{
    match words {
        [] | [_] => Ok(None),
        [exchange, routing_key, rest @ ..] => publish_to(alloc, exchange, routing_key, rest),
    }
}

/// A publication to an exchange by a routing key.
fn publish_to(
    alloc: Global,
    exchange: &str,
    routing_key: &str,
    words: &[&str],
) -> Result<Option<Asked>, AllocError>
    ensures { IfOk result (λ found. found
        ≡ publish_in (exchange.now ∷ routing_key.now ∷ map (λ word. word.now) words.now)) }
{
    match words {
        [] | [_] => Ok(None),
        [priority, task, rest @ ..] => {
            publish_task(alloc, exchange, routing_key, priority, task, rest)
        }
    }
}

/// A publication of a task, whose arguments are these words.
fn publish_task(
    alloc: Global,
    exchange: &str,
    routing_key: &str,
    priority: &str,
    task: &str,
    words: &[&str],
) -> Result<Option<Asked>, AllocError>
    ensures { IfOk result (λ found. found ≡ publish_in (exchange.now ∷ routing_key.now
        ∷ priority.now ∷ task.now ∷ map (λ word. word.now) words.now)) }
{
    match words {
        [] => Ok(None),
        [_, ..] => {
            let arguments = joined(alloc, words)?;
            publication(alloc, exchange, routing_key, priority, task, arguments)
        }
    }
}

/// A publication of these words and arguments.
fn publication(
    alloc: Global,
    exchange: &str,
    routing_key: &str,
    priority: &str,
    task: &str,
    arguments: Bytes,
) -> Result<Option<Asked>, AllocError>
    ensures { IfOk result (λ found. found ≡ made_of_four (λ x k p t. Publish x k p t arguments)
        (dashed_in exchange.now) (dashed_in routing_key.now)
        (number_in 0 255 priority.now) (name_in task.now)) }
{
    let Some(sending) = sending_in(alloc, exchange, routing_key, priority, task)? else {
        return Ok(None);
    };
    Ok(Some(Asked::Publish {
        exchange: sending.exchange,
        routing_key: sending.routing_key,
        priority: sending.priority,
        task: sending.task,
        arguments,
    }))
}

/// A publication but for its arguments.
#[derive(Drop)]
struct Sending {
    exchange: Bytes,
    routing_key: Bytes,
    priority: u8,
    task: Bytes,
}

/// A publication of these words but for its arguments.
fn sending_in(
    alloc: Global,
    exchange: &str,
    routing_key: &str,
    priority: &str,
    task: &str,
) -> Result<Option<Sending>, AllocError>
    ensures { IfOk result (λ found. (f : List ℕ → List ℕ → ℕ → List ℕ → Begun)
        → made_of_four f (dashed_in exchange.now) (dashed_in routing_key.now)
        (number_in 0 255 priority.now) (name_in task.now) ≡ option_map (sent f) found) }
{
    let Some(target) = target_in(alloc, exchange, routing_key)? else {
        return Ok(None);
    };
    let Some(priority) = priority_in(priority) else {
        return Ok(None);
    };
    let Some(task) = name_in(alloc, task)? else {
        return Ok(None);
    };
    Ok(Some(Sending {
        exchange: target.exchange,
        routing_key: target.routing_key,
        priority,
        task,
    }))
}

/// An exchange and a routing key.
#[derive(Drop)]
struct Target {
    exchange: Bytes,
    routing_key: Bytes,
}

/// The exchange and the routing key of a publication, where a dash stands for an empty one.
fn target_in(alloc: Global, exchange: &str, routing_key: &str) -> Result<Option<Target>, AllocError>
    ensures { IfOk result (λ found. MatchOption found
        ((f : List ℕ → List ℕ → ℕ → List ℕ → Begun) (p : Option ℕ) (t : Option (List ℕ))
        → made_of_four f (dashed_in exchange.now) (dashed_in routing_key.now) p t ≡ None)
        (λ target. (dashed_in exchange.now ≡ Some target.exchange)
        × (dashed_in routing_key.now ≡ Some target.routing_key))) }
{
    let Some(exchange) = dashed_in(alloc, exchange)? else {
        return Ok(None);
    };
    let Some(routing_key) = dashed_in(alloc, routing_key)? else {
        return Ok(None);
    };
    Ok(Some(Target {
        exchange,
        routing_key,
    }))
}

/// The exchange, routing key, pattern and queue of a binding.
#[derive(Drop)]
struct Binding {
    exchange: Bytes,
    routing_key: Bytes,
    pattern: Bytes,
    queue: Bytes,
}

/// A binding to be added.
fn declare_in(alloc: Global, words: &[&str]) -> Result<Option<Asked>, AllocError>
    ensures { IfOk result (λ found. found
        ≡ declare_in Declare (map (λ word. word.now) words.now)) }
{
    let Some(binding) = binding_in(alloc, words)? else {
        return Ok(None);
    };
    Ok(Some(Asked::Declare {
        exchange: binding.exchange,
        routing_key: binding.routing_key,
        pattern: binding.pattern,
        queue: binding.queue,
    }))
}

/// A binding to be removed.
fn undeclare_in(alloc: Global, words: &[&str]) -> Result<Option<Asked>, AllocError>
    ensures { IfOk result (λ found. found
        ≡ declare_in Undeclare (map (λ word. word.now) words.now)) }
{
    let Some(binding) = binding_in(alloc, words)? else {
        return Ok(None);
    };
    Ok(Some(Asked::Undeclare {
        exchange: binding.exchange,
        routing_key: binding.routing_key,
        pattern: binding.pattern,
        queue: binding.queue,
    }))
}

/// A binding of these words.
fn binding_in(alloc: Global, words: &[&str]) -> Result<Option<Binding>, AllocError>
    ensures { IfOk result (λ found. (f : List ℕ → List ℕ → List ℕ → List ℕ → Begun)
        → declare_in f (map (λ word. word.now) words.now) ≡ option_map (bound f) found) }
{
    match words {
        [exchange, routing_key, pattern, queue] => {
            if *exchange == "-" {
                Ok(None)
            } else {
                made_binding(alloc, exchange, routing_key, pattern, queue)
            }
        }
        [] | [_] | [_, _] | [_, _, _] | [_, _, _, _, _, ..] => Ok(None),
    }
}

/// A binding of an exchange that isn't empty.
fn made_binding(
    alloc: Global,
    exchange: &str,
    routing_key: &str,
    pattern: &str,
    queue: &str,
) -> Result<Option<Binding>, AllocError>
    ensures { IfOk result (λ found. (f : List ℕ → List ℕ → List ℕ → List ℕ → Begun)
        → made_of_four f (name_in exchange.now) (dashed_in routing_key.now)
        (dashed_in pattern.now) (name_in queue.now) ≡ option_map (bound f) found) }
{
    let Some(source) = source_in(alloc, exchange, routing_key)? else {
        return Ok(None);
    };
    let Some(end) = end_in(alloc, pattern, queue)? else {
        return Ok(None);
    };
    Ok(Some(Binding {
        exchange: source.exchange,
        routing_key: source.routing_key,
        pattern: end.pattern,
        queue: end.queue,
    }))
}

/// The pattern and the queue of a binding.
#[derive(Drop)]
struct BindingEnd {
    pattern: Bytes,
    queue: Bytes,
}

/// The pattern of a binding and its queue, which has a name.
fn end_in(alloc: Global, pattern: &str, queue: &str) -> Result<Option<BindingEnd>, AllocError>
    ensures { IfOk result (λ found. MatchOption found
        ((f : List ℕ → List ℕ → Begun)
        → made_of_two f (dashed_in pattern.now) (name_in queue.now) ≡ None)
        (λ end. (dashed_in pattern.now ≡ Some end.pattern)
        × (name_in queue.now ≡ Some end.queue))) }
{
    let Some(pattern) = dashed_in(alloc, pattern)? else {
        return Ok(None);
    };
    let Some(queue) = name_in(alloc, queue)? else {
        return Ok(None);
    };
    Ok(Some(BindingEnd { pattern, queue }))
}

/// The exchange of a binding, which has a name, and its routing key.
fn source_in(alloc: Global, exchange: &str, routing_key: &str) -> Result<Option<Target>, AllocError>
    ensures { IfOk result (λ found. MatchOption found
        ((f : List ℕ → List ℕ → List ℕ → List ℕ → Begun) (p q : Option (List ℕ))
        → made_of_four f (name_in exchange.now) (dashed_in routing_key.now) p q ≡ None)
        (λ source. (name_in exchange.now ≡ Some source.exchange)
        × (dashed_in routing_key.now ≡ Some source.routing_key))) }
{
    let Some(exchange) = name_in(alloc, exchange)? else {
        return Ok(None);
    };
    let Some(routing_key) = dashed_in(alloc, routing_key)? else {
        return Ok(None);
    };
    Ok(Some(Target {
        exchange,
        routing_key,
    }))
}

/// The queues of a pop.
fn pop_in(alloc: Global, words: &[&str]) -> Result<Option<Asked>, AllocError>
    ensures { IfOk result (λ found. found
        ≡ made_of_one Pop (queues_in (map (λ word. word.now) words.now))) }
{
    let Some(queues) = queues_in(alloc, words)? else {
        return Ok(None);
    };
    Ok(Some(Asked::Pop { queues }))
}

/// The tag that is acknowledged.
fn ack_in(words: &[&str]) -> Option<Asked>
    ensures { result ≡ tagged_in Ack (map (λ word. word.now) words.now) }
{
    match words {
        [tag] => {
            let (seed, counter) = tag_in(tag)?;
            Some(Asked::Ack { seed, counter })
        }
        [] | [_, _, ..] => None,
    }
}

/// The tag whose message is returned to the tail.
fn restore_in(words: &[&str]) -> Option<Asked>
    ensures { result ≡ tagged_in Restore (map (λ word. word.now) words.now) }
{
    match words {
        [tag] => {
            let (seed, counter) = tag_in(tag)?;
            Some(Asked::Restore { seed, counter })
        }
        [] | [_, _, ..] => None,
    }
}

/// The tag whose message is returned to the head.
fn requeue_in(words: &[&str]) -> Option<Asked>
    ensures { result ≡ tagged_in Requeue (map (λ word. word.now) words.now) }
{
    match words {
        [tag] => {
            let (seed, counter) = tag_in(tag)?;
            Some(Asked::Requeue { seed, counter })
        }
        [] | [_, _, ..] => None,
    }
}

/// The visibility timeout of a pass.
fn pass_in(words: &[&str]) -> Option<Asked>
    ensures { result ≡ pass_in (map (λ word. word.now) words.now) }
{
    match words {
        [visibility] => {
            let visibility = visibility_in(visibility)?;
            Some(Asked::Pass { visibility })
        }
        [] | [_, _, ..] => None,
    }
}
