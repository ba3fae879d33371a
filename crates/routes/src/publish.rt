//! A publication: a message is pushed to the lists of its queues.
ghost use Rattle.std.specs.Prelude.{◌≡◌, ◌∷◌, ◌+◌, [], ℕ, suc, true, codes, drop, IfOk, Some, None};
ghost use Rattle.wire_grammar.specs.Fits.{IsWithinLimits};
ghost use Rattle.command_blocks.specs.EnvelopeTexts.{plain_setting};
ghost use Rattle.command_blocks.specs.Scripts.{Publish, next_words, publish_script};
ghost use Rattle.block_core.specs.Cores.{core_end};
ghost use Rattle.block_laws.specs.Rows.{IsLawfulPlan};
ghost use Rattle.envelope.specs.Envelopes.{parts_in, priority_of};
ghost use Rattle.queue_keys.specs.Layouts.{plain, step_of};
ghost use Rattle.queue_keys.specs.QueueKeys.{queue_key};
ghost use Rattle.routes.specs.Named.{is_named};
ghost use Rattle.routes.specs.Publishes.{HasPublishing, BeginsOn, IsProgress, IsPublishable, publish_left, publishing_left};
ghost use Rattle.serde_json.specs.View.{view as data_of};
ghost use Rattle.serde_json.specs.Written.{compact_text};

use crate::brought::{Brought, bring};
use crate::route::{Publishing, Route};
use crate::stage::PublishStage;
use block_core::{BlockCore, Progress, Stage};
use block_words::{three_words, two_words};
use envelope::{Envelope, Tag};
use lookups::{binding_key, lawful_name};
use queue_keys::{QueueName, queue_key, step_of};
use std::alloc::{AllocError, Global};
use wire_values::{Value, Words};

/// The publication of a message: on the empty exchange one LPUSH to the queue that its routing key names; on any other
/// SMEMBERS of the exchange's bindings, and an LPUSH to each queue that the routing key goes to by them.
pub type PublishCore = BlockCore<PublishStage, PublishEnd>;

/// How a publication ended.
#[derive(Clone, Copy, Debug, Drop)]
pub enum PublishEnd {
    /// The message of this tag was pushed to so many queues, one at least.
    Sent { tag: Tag, queues: u64 },
    /// No binding of its exchange takes the message of this tag to a queue.
    NoQueue(Tag),
}

impl Stage for PublishStage {
    ghost use Rattle.routes.specs.Publishes.{PublishHad, TellsPublish, publish_stage_left, publishing_says};
    ghost use Rattle.serde_json.specs.View.{view as data_of};

    type End = PublishEnd;

    ghost left = { publish_stage_left };

    ghost had = { PublishHad };

    ghost tells = { TellsPublish };

    fn words(&self, alloc: Global, _at: u64) -> Result<Words, AllocError> {
        publishing_words(alloc, &self.envelope, &self.next)
    }

    fn answered(
        self,
        alloc: Global,
        answer: &Value,
    ) -> Result<Progress<PublishStage, PublishEnd>, AllocError> {
        let envelope = self.envelope;
        let brought = bring(alloc, &envelope, self.next, answer)?;
        Ok(progress(envelope, brought))
    }

    ghost says = { λ stage. publishing_says (data_of stage.envelope) stage.next };
}

/// The publication of an envelope; takes no memory.
///
/// On the empty exchange its routing key is the lawful name of a queue.
pub fn publish_core(envelope: Envelope) -> PublishCore
    requires { IsPublishable (data_of envelope) }
    ensures left { publish_left result ≡ publish_script plain_setting (compact_text (data_of envelope)) }
    ensures end { core_end result ≡ None }
    // The plan is lawful for each client whose next tag is the envelope's.
    ensures lawful { let v = compact_text (data_of envelope) in (s n : ℕ)
        → plain_setting.written_tag v ≡ Some (plain_setting.tag s (suc n)) → IsLawfulPlan plain_setting s n (Publish v) }
    ensures traced { (s p : ℕ) → HasPublishing s p (compact_text (data_of envelope)) [] result }
{
    // The text is read again as the same envelope.
    let _text = envelope.text();
    let next = first_of(envelope.exchange());
    BlockCore::new(PublishStage { envelope, next })
}

/// Which command of a publication on this exchange is the first.
fn first_of(exchange: &[u8]) -> Publishing
    ensures { BeginsOn exchange.now result }
{
    if exchange.is_empty() {
        Publishing::Direct
    } else {
        Publishing::Asking
    }
}

/// How the publication of an envelope goes on by what the answer brought.
fn progress(envelope: Envelope, brought: Brought) -> Progress<PublishStage, PublishEnd>
    ensures { IsProgress (data_of envelope) brought result }
{
    match brought {
        Brought::Next(route) => Progress::Next(PublishStage {
            envelope,
            next: Publishing::Pushing(route),
        }),
        Brought::Over(end) => Progress::Over(end),
        Brought::Refused => Progress::Refused,
    }
}

/// The words of the next command of an envelope's publication.
fn publishing_words(
    alloc: Global,
    envelope: &Envelope,
    next: &Publishing,
) -> Result<Words, AllocError>
    requires { is_named (data_of envelope.now) next.now ≡ true }
    ensures words { IfOk result (λ words. (at : ℕ)
        → Some words ≡ next_words (publishing_left (data_of envelope.now) next.now) at) }
    ensures limits { IfOk result (λ words. IsWithinLimits words) }
{
    match next {
        Publishing::Direct => {
            let queue = lawful_name(alloc, envelope.routing_key())?;
            push_words(alloc, envelope, &queue)
        }
        Publishing::Asking => asking_words(alloc, envelope),
        Publishing::Pushing(route) => push_words(alloc, envelope, next_queue(route)),
    }
}

/// The queue that gets the message next: the first of those that are left.
fn next_queue(route: &Route) -> &QueueName
    ensures { drop route.now.place route.now.queues ≡ result.now ∷ drop (route.now.place + 1) route.now.queues }
{
    &route.queues.as_slice()[route.place]
}

/// The words that read the bindings of an envelope's exchange.
fn asking_words(alloc: Global, e: &Envelope) -> Result<Words, AllocError>
    ensures words { IfOk result (λ words. let p = parts_in (data_of e.now) in
        words ≡ codes "SMEMBERS" ∷ plain_setting.binding p.exchange ∷ []) }
    ensures limits { IfOk result (λ words. IsWithinLimits words) }
{
    // An envelope's exchange is short.
    let _tree = e.tree();
    let key = binding_key(alloc, e.exchange())?;
    two_words(alloc, b"SMEMBERS", key.as_slice())
}

/// The words that push an envelope to the list of a queue.
fn push_words(alloc: Global, e: &Envelope, queue: &QueueName) -> Result<Words, AllocError>
    ensures words { IfOk result (λ words. let d = data_of e.now in
        words ≡ codes "LPUSH" ∷ queue_key plain queue.now (step_of plain (priority_of d)) ∷ compact_text d ∷ []) }
    ensures limits { IfOk result (λ words. IsWithinLimits words) }
{
    // The queue's name is lawful, so that its key is short.
    let _name = queue.bytes();
    let key = queue_key(alloc, queue, step_of(e.priority()))?;
    three_words(alloc, b"LPUSH", key.as_slice(), e.text())
}
