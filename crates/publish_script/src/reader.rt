//! The lines of a publish script, one after the other.
ghost use Rattle.std.specs.Prelude.{◌≡◌, ◌≤◌, ◌∷◌, IfOk, None, Option, Some, length, map, true, ℤ};
ghost use Rattle.serde_json.specs.View.{view as data_of};
ghost use Rattle.task_message.specs.Drafted.{is_writable};
ghost use Rattle.task_message.specs.Shown.{micros_if};
ghost use Rattle.publish_script.specs.Drafts.{Times};
ghost use Rattle.publish_script.specs.Scripts.{ScriptReader, moment_step, times_step};

use crate::draft::{Sending, sealed_task};
use client_plans::{PlanFault, arguments_of, declaration_of, is_no_binding, way_fault};
use envelope::{Envelope, Tree};
use line_text::{LINE_LIMIT, Reason, line_text, words};
use moments::Moment;
use queue_keys::is_reserved;
use routes::{Change, Declaration};
use schedule_lines::asked_in;
use schedule_model::Asked;
use std::alloc::Global;
use wire_values::Bytes;

/// A block that a line of a script says.
#[derive(Drop)]
pub enum PublishStep {
    /// A binding is declared.
    Declare(Declaration),
    /// An envelope is published; on the empty exchange its routing key is the lawful name of a queue.
    Publish(Envelope),
}

/// A publish script being read line by line, for a client of a seed: how many tags it drew, and the moments that are given
/// for its next publish line.
#[derive(Drop)]
pub struct PublishReader {
    seed: u64,
    drawn: u64,
    eta: Option<Moment>,
    expires: Option<Moment>,
    ghost eta_written: { is_writable (micros_if eta) ≡ true },
    ghost expires_written: { is_writable (micros_if expires) ≡ true },
}

impl PublishReader {
    ghost use Rattle.std.specs.Prelude.{codes};
    ghost use Rattle.line_text.specs.Words.{words_of};
    ghost use Rattle.moments.specs.MomentTexts.{moment_of};
    ghost use Rattle.queue_keys.specs.Names.{Bytes as Text};
    ghost use Rattle.schedule_model.specs.Drafts.{arguments_of, if_arguments};
    ghost use Rattle.schedule_model.specs.declared.line.Asked.TheVariants.{Declare, Publish};
    ghost use Rattle.client_plans.specs.Plans.{way_reason};
    ghost use Rattle.publish_script.specs.Readings.{ArePublishers, IsLineRead, IsPublishers, reader_of, times_of};
    ghost use Rattle.publish_script.specs.Scripts.{asked_step, line_step, new_reader, with_eta, with_expires, words_step};

    /// Before the first line after the header; takes no memory.
    pub fn new(seed: u64) -> PublishReader
        ensures reader { reader_of result ≡ new_reader }
        ensures seed { result.seed ≡ seed }
    {
        PublishReader {
            seed,
            drawn: 0,
            eta: None,
            expires: None,
        }
    }

    /// How many tags were drawn: the counter of the last one.
    pub fn drawn(&self) -> u64
        ensures { result ≡ self.now.drawn }
    {
        self.drawn
    }

    /// The seed of the tags.
    pub fn seed(&self) -> u64
        ensures { result ≡ self.now.seed }
    {
        self.seed
    }

    /// Takes a line after the header, without its line feed: the block that it says, or none for a moment.
    ///
    /// # Errors
    /// `Bad` with the first reason that holds of the line. `Memory` is want of memory, or of a tag that can be drawn.
    pub fn line(&mut self, alloc: Global, text: &[u8]) -> Result<Option<PublishStep>, PlanFault>
        ensures read { IsLineRead self.old.seed self.old.drawn (line_step self.old.seed (reader_of self.old) text.now) (reader_of self.new) result }
        ensures seed { self.new.seed ≡ self.old.seed }
    {
        match line_text(LINE_LIMIT, text) {
            Ok(line) => self.spoken(alloc, line),
            Err(reason) => Err(PlanFault::Bad(reason)),
        }
    }

    /// Takes the words of a line.
    fn spoken(&mut self, alloc: Global, line: &str) -> Result<Option<PublishStep>, PlanFault>
        ensures read { IsLineRead self.old.seed self.old.drawn (words_step self.old.seed (reader_of self.old) (words_of line.now)) (reader_of self.new) result }
        ensures seed { self.new.seed ≡ self.old.seed }
    {
        let words = words(alloc, line)?;
        self.worded(alloc, words.as_slice())
    }

    /// Takes the line that these words spell.
    fn worded(&mut self, alloc: Global, words: &[&str]) -> Result<Option<PublishStep>, PlanFault>
        ensures read { IsLineRead self.old.seed self.old.drawn (words_step self.old.seed (reader_of self.old) (map (λ word. word.now) words.now)) (reader_of self.new) result }
        ensures seed { self.new.seed ≡ self.old.seed }
    {
        match words {
            [] => Err(PlanFault::Bad(Reason::Syntax)),
            [first, rest @ ..] => self.named(alloc, first, rest),
        }
    }

    /// Takes the line of a first word and the others.
    fn named(
        &mut self,
        alloc: Global,
        first: &str,
        rest: &[&str],
    ) -> Result<Option<PublishStep>, PlanFault>
        ensures read { IsLineRead self.old.seed self.old.drawn (words_step self.old.seed (reader_of self.old) (first.now ∷ map (λ word. word.now) rest.now)) (reader_of self.new) result }
        ensures seed { self.new.seed ≡ self.old.seed }
    {
        if first == "publish" {
            let found = asked_in(alloc, "publish", rest)?;
            self.begin_if(alloc, &found)
        } else if first == "declare" {
            let found = asked_in(alloc, "declare", rest)?;
            self.begin_if(alloc, &found)
        } else if first == "eta" {
            self.set_eta(rest)
        } else if first == "expires" {
            self.set_expires(rest)
        } else {
            Err(PlanFault::Bad(Reason::Syntax))
        }
    }

    /// Takes the moment before which the next task waits.
    fn set_eta(&mut self, words: &[&str]) -> Result<Option<PublishStep>, PlanFault>
        ensures read { IsLineRead self.old.seed self.old.drawn (times_step (reader_of self.old) with_eta (map (λ word. word.now) words.now)) (reader_of self.new) result }
        ensures seed { self.new.seed ≡ self.old.seed }
    {
        match moment_in(words) {
            Some(moment) => {
                self.eta = Some(moment);
                Ok(None)
            }
            None => Err(PlanFault::Bad(Reason::Syntax)),
        }
    }

    /// Takes the moment after which the next task is expired.
    fn set_expires(&mut self, words: &[&str]) -> Result<Option<PublishStep>, PlanFault>
        ensures read { IsLineRead self.old.seed self.old.drawn (times_step (reader_of self.old) with_expires (map (λ word. word.now) words.now)) (reader_of self.new) result }
        ensures seed { self.new.seed ≡ self.old.seed }
    {
        match moment_in(words) {
            Some(moment) => {
                self.expires = Some(moment);
                Ok(None)
            }
            None => Err(PlanFault::Bad(Reason::Syntax)),
        }
    }

    /// Begins what was found to be asked for.
    fn begin_if(
        &mut self,
        alloc: Global,
        found: &Option<Asked>,
    ) -> Result<Option<PublishStep>, PlanFault>
        requires { ArePublishers found.now }
        ensures read { IsLineRead self.old.seed self.old.drawn (asked_step self.old.seed (reader_of self.old) found.now) (reader_of self.new) result }
        ensures seed { self.new.seed ≡ self.old.seed }
    {
        match found {
            Some(asked) => self.begin(alloc, asked),
            None => Err(PlanFault::Bad(Reason::Syntax)),
        }
    }

    /// Begins what is asked for.
    fn begin(&mut self, alloc: Global, asked: &Asked) -> Result<Option<PublishStep>, PlanFault>
        requires { IsPublishers asked.now }
        ensures read { IsLineRead self.old.seed self.old.drawn (asked_step self.old.seed (reader_of self.old) (Some asked.now)) (reader_of self.new) result }
        ensures seed { self.new.seed ≡ self.old.seed }
    {
        match asked {
            Asked::Publish {
                exchange,
                routing_key,
                priority,
                task,
                arguments,
            } => self.publication(alloc, exchange, routing_key, *priority, task, arguments),
            Asked::Declare {
                exchange,
                routing_key,
                pattern,
                queue,
            } => self.declaration(alloc, exchange, routing_key, pattern, queue),
            Asked::Undeclare { .. }
            | Asked::Pop { .. }
            | Asked::Ack { .. }
            | Asked::Restore { .. }
            | Asked::Requeue { .. }
            | Asked::Pass { .. } => unreachable!(),
        }
    }

    /// Begins a publication.
    fn publication(
        &mut self,
        alloc: Global,
        exchange: &Bytes,
        routing_key: &Bytes,
        priority: u8,
        task: &Bytes,
        text: &Bytes,
    ) -> Result<Option<PublishStep>, PlanFault>
        requires { 1 ≤ length task.now }
        ensures read { IsLineRead self.old.seed self.old.drawn (asked_step self.old.seed (reader_of self.old)
            (Some (Publish exchange.now routing_key.now priority task.now text.now))) (reader_of self.new) result }
        ensures seed { self.new.seed ≡ self.old.seed }
    {
        if let Some(reason) = way_fault(exchange, routing_key) {
            return Err(PlanFault::Bad(reason));
        }
        let Some(arguments) = arguments_of(alloc, text.as_slice())? else {
            return Err(PlanFault::Bad(Reason::Json));
        };
        let sending = Sending {
            exchange: exchange.as_slice(),
            routing_key: routing_key.as_slice(),
            priority,
            task: task.as_slice(),
            eta: self.eta,
            expires: self.expires,
        };
        self.sealing(alloc, &sending, arguments)
    }

    /// Begins the publication of a task with these arguments, at the moments that were given; on the empty exchange its
    /// routing key is the lawful name of a queue.
    fn sealing(
        &mut self,
        alloc: Global,
        asked: &Sending,
        arguments: Tree,
    ) -> Result<Option<PublishStep>, PlanFault>
        requires way { way_reason asked.now.exchange.now asked.now.routing_key.now ≡ None }
        requires task { 1 ≤ length asked.now.task.now }
        requires lawful { if_arguments (data_of arguments) ≡ Some (data_of arguments) }
        requires times { times_of asked.now ≡ (reader_of self.old).times }
        // Whatever text spells the arguments.
        ensures read { (j : Text) → arguments_of j ≡ Some (data_of arguments)
            → IsLineRead self.old.seed self.old.drawn (asked_step self.old.seed (reader_of self.old)
            (Some (Publish asked.now.exchange.now asked.now.routing_key.now asked.now.priority asked.now.task.now j))) (reader_of self.new) result }
        ensures seed { self.new.seed ≡ self.old.seed }
    {
        // No script has room for 2^64 tags.
        let Some(counter) = self.drawn.checked_add(1) else {
            return Err(PlanFault::Memory);
        };
        match sealed_task(alloc, self.seed, counter, asked, arguments)? {
            Some(envelope) => {
                self.drawn = counter;
                self.eta = None;
                self.expires = None;
                Ok(Some(PublishStep::Publish(envelope)))
            }
            None => Err(PlanFault::Bad(Reason::Task)),
        }
    }

    /// Begins a declaration.
    fn declaration(
        &mut self,
        alloc: Global,
        exchange: &Bytes,
        routing_key: &Bytes,
        pattern: &Bytes,
        queue: &Bytes,
    ) -> Result<Option<PublishStep>, PlanFault>
        ensures read { IsLineRead self.old.seed self.old.drawn (asked_step self.old.seed (reader_of self.old)
            (Some (Declare exchange.now routing_key.now pattern.now queue.now))) (reader_of self.new) result }
        ensures seed { self.new.seed ≡ self.old.seed }
    {
        if is_no_binding(exchange, routing_key, pattern, queue) {
            return Err(PlanFault::Bad(Reason::Name));
        }
        if is_reserved(queue.as_slice()) {
            return Err(PlanFault::Bad(Reason::Reserved));
        }
        let declaration = declaration_of(
            alloc,
            Change::Add,
            exchange,
            routing_key,
            pattern,
            queue,
        )?;
        Ok(Some(PublishStep::Declare(declaration)))
    }
}

/// The moment that the one word spells. None where it is none, or not one word.
fn moment_in(words: &[&str]) -> Option<Moment>
    ensures moment { (d : ScriptReader) (f : Times → ℤ → Times) → times_step d f (map (λ word. word.now) words.now) ≡ moment_step d f (micros_if result) }
    ensures writable { is_writable (micros_if result) ≡ true }
{
    match words {
        [word] => Moment::read(word.as_bytes()),
        [] | [_, _, ..] => None,
    }
}
