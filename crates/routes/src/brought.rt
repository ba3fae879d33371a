//! What an answer brings to a publication.
ghost use Rattle.std.specs.Prelude.{◌≡◌, IfOk, Some};
ghost use Rattle.command_blocks.specs.Answers.{number_of};
ghost use Rattle.command_blocks.specs.Scripts.{texts_of};
ghost use Rattle.envelope.specs.Envelopes.{parts_in};
ghost use Rattle.routes.specs.Bringing.{IsAsked, IsFurther, IsBrought, IsPushed, IsRouted, direct_by};
ghost use Rattle.serde_json.specs.View.{view as data_of};

use crate::publish::PublishEnd;
use crate::route::{Publishing, Route};
use block_words::texts;
use command_blocks::answer::integer;
use envelope::{Envelope, Tag};
use lookups::queues_for;
use queue_keys::QueueName;
use std::alloc::{AllocError, Global};
use wire_values::{List, Value, Words};

/// What an answer brings.
#[derive(Drop)]
pub(crate) enum Brought {
    /// The message is pushed to the next queue.
    Next(Route),
    /// The publication is over.
    Over(PublishEnd),
    /// The answer isn't a listed one.
    Refused,
}

/// What an answer to the next command of an envelope's publication brings.
pub(crate) fn bring(
    alloc: Global,
    envelope: &Envelope,
    next: Publishing,
    answer: &Value,
) -> Result<Brought, AllocError>
    ensures { IfOk result (λ brought. IsBrought (data_of envelope.now) next answer.now brought) }
{
    match next {
        Publishing::Direct => Ok(direct(envelope.tag(), answer)),
        Publishing::Asking => asked(alloc, envelope, answer),
        Publishing::Pushing(route) => Ok(pushed(envelope.tag(), route, answer)),
    }
}

/// What an answer to the one push on the empty exchange brings.
fn direct(tag: Tag, answer: &Value) -> Brought
    ensures { result ≡ direct_by tag (number_of answer.now) }
{
    match integer(answer) {
        Some(_) => Brought::Over(PublishEnd::Sent { tag, queues: 1 }),
        None => Brought::Refused,
    }
}

/// What the answer to SMEMBERS brings.
fn asked(alloc: Global, envelope: &Envelope, answer: &Value) -> Result<Brought, AllocError>
    ensures { IfOk result (λ brought. IsAsked (parts_in (data_of envelope.now)) (texts_of answer.now) brought) }
{
    match texts(alloc, answer)? {
        Some(members) => found(alloc, envelope, &members),
        None => Ok(Brought::Refused),
    }
}

/// What the members of an exchange's bindings bring.
fn found(alloc: Global, envelope: &Envelope, members: &Words) -> Result<Brought, AllocError>
    ensures { IfOk result (λ brought. IsAsked (parts_in (data_of envelope.now)) (Some members.now) brought) }
{
    let exchange = envelope.exchange();
    let routing_key = envelope.routing_key();
    let queues = queues_for(alloc, exchange, routing_key, members.as_slice())?;
    Ok(routed(envelope.tag(), queues))
}

/// What the queues that were found bring.
fn routed(tag: Tag, queues: List<QueueName>) -> Brought
    ensures { IsRouted tag.0 queues result }
{
    if queues.as_slice().is_empty() {
        Brought::Over(PublishEnd::NoQueue(tag))
    } else {
        Brought::Next(Route { queues, place: 0 })
    }
}

/// What an answer to a push on an exchange with a name brings.
fn pushed(tag: Tag, route: Route, answer: &Value) -> Brought
    ensures { IsPushed tag.0 route (number_of answer.now) result }
{
    match integer(answer) {
        Some(_) => further(tag, route),
        None => Brought::Refused,
    }
}

/// What a push that was answered an integer brings.
fn further(tag: Tag, route: Route) -> Brought
    ensures { IsFurther tag.0 route result }
{
    let count = route.queues.as_slice().len();
    let place = route.place + 1;
    if place < count {
        let queues = route.queues;
        Brought::Next(Route { queues, place })
    } else {
        let queues = count as u64;
        Brought::Over(PublishEnd::Sent { tag, queues })
    }
}
