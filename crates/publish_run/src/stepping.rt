//! The blocks of a script's lines, said one after the other, and told.
ghost use Rattle.std.specs.Prelude.{◌≡◌, List as Listed, false, suc, ℕ};
ghost use Rattle.links.specs.Views.{SinkView, sink_view};
ghost use Rattle.line_text.specs.LinesLeft.{lines_left};
ghost use Rattle.serde_json.specs.View.{view as data_of};
ghost use Rattle.serde_json.specs.Written.{compact_text};
ghost use Rattle.command_blocks.specs.Scripts.{Plan, Publish};
ghost use Rattle.desks.specs.Faults.{IsOpen};
ghost use Rattle.routes.specs.Declares.{declaration_plan};
ghost use Rattle.routes.specs.Publishes.{IsPublishable};
ghost use Rattle.publish_script.specs.Readings.{IsNextEnvelope, IsSayable, plan_said, reader_of};
ghost use Rattle.publish_script.specs.Scripts.{Blocks, line_step, lines_script, new_reader};
ghost use Rattle.publish_run.specs.Publishings.{HasSaidLine, HasSaidPlan, HasSaidScript, HasToldEnd, IsEndAt, HasWritten};
ghost use Rattle.publish_run.specs.Saids.{IsLater, desk_shows};
ghost use Rattle.publish_run.specs.Blocks.{HasCounter, IsNotWrong, end_line};

use crate::ending::PublishingEnd;
use crate::lines::end_line;
use crate::saying::{SayFault, say_block};
use client_plans::PlanFault;
use desks::{Desk, DeskFault};
use envelope::Envelope;
use line_text::Lines;
use links::{Sink, write_all};
use publish_script::{PublishReader, PublishStep};
use routes::{Declaration, PublishEnd, declare_core, publish_core};
use std::alloc::Global;

/// Says the blocks of a script's lines after the header, for a client of a seed, in order, and tells of each publication
/// as its block ends. None of the lines is bad.
pub(crate) fn say_lines<D: Desk, K: Sink>(
    alloc: Global,
    desk: &mut D,
    out: &mut K,
    seed: u64,
    mut lines: Lines,
) -> PublishingEnd
    requires open { IsOpen (D.fault desk.old) (D.stopped desk.old) }
    requires good { (plans : Listed Plan) × (lines_script seed false new_reader (lines_left lines) ≡ Blocks plans) }
    ensures said { (plans : Listed Plan) × (lines_script seed false new_reader (lines_left lines.entry) ≡ Blocks plans)
        × HasSaidScript D.goes D.refuses D.remote D.shared seed 0 plans desk.old desk.new
        (desk_shows D.fault D.stopped D.faults D.ends desk.old) (desk_shows D.fault D.stopped D.faults D.ends desk.new)
        (sink_view K.taken K.write_faults out.old) (sink_view K.taken K.write_faults out.new) result }
{
    let mut reader = PublishReader::new(seed);
    'reading: while let Some((_, line)) = lines.next() {
        match say_line(alloc, desk, out, &mut reader, line) {
            Ok(()) => {}
            Err(end) => return end,
        }
    }
    PublishingEnd::Published
}

/// Says the block of a line, which isn't bad, and tells of it.
fn say_line<D: Desk, K: Sink>(
    alloc: Global,
    desk: &mut D,
    out: &mut K,
    reader: &mut PublishReader,
    line: &[u8],
) -> Result<(), PublishingEnd>
    requires open { IsOpen (D.fault desk.old) (D.stopped desk.old) }
    requires good { IsNotWrong (line_step reader.old.seed (reader_of reader.old) line.now) }
    ensures later { IsLater (desk_shows D.fault D.stopped D.faults D.ends desk.old) (desk_shows D.fault D.stopped D.faults D.ends desk.new) }
    ensures said { HasSaidLine D.goes D.refuses D.remote D.shared reader.old.seed reader.old.drawn
        (line_step reader.old.seed (reader_of reader.old) line.now) (reader_of reader.new) desk.old desk.new
        (desk_shows D.fault D.stopped D.faults D.ends desk.old) (desk_shows D.fault D.stopped D.faults D.ends desk.new)
        (sink_view K.taken K.write_faults out.old) (sink_view K.taken K.write_faults out.new) result }
    ensures seed { reader.new.seed ≡ reader.old.seed }
{
    match reader.line(alloc, line) {
        Ok(Some(step)) => say_step(alloc, desk, out, reader.seed(), reader.drawn(), step),
        Ok(None) => Ok(()),
        Err(PlanFault::Memory) => Err(PublishingEnd::Memory),
        Err(PlanFault::Bad(_)) => unreachable!(),
    }
}

/// Says a block for a client of a seed, and tells of it; the tag of a publication has this counter.
fn say_step<D: Desk, K: Sink>(
    alloc: Global,
    desk: &mut D,
    out: &mut K,
    seed: u64,
    counter: u64,
    step: PublishStep,
) -> Result<(), PublishingEnd>
    requires open { IsOpen (D.fault desk.old) (D.stopped desk.old) }
    requires sayable { (n : ℕ) × IsSayable seed n step }
    ensures later { IsLater (desk_shows D.fault D.stopped D.faults D.ends desk.old) (desk_shows D.fault D.stopped D.faults D.ends desk.new) }
    ensures said { (n : ℕ) → IsSayable seed n step → HasCounter n counter (plan_said step)
        → HasSaidPlan D.goes D.refuses D.remote D.shared seed n (plan_said step) desk.old desk.new
        (desk_shows D.fault D.stopped D.faults D.ends desk.old) (desk_shows D.fault D.stopped D.faults D.ends desk.new)
        (sink_view K.taken K.write_faults out.old) (sink_view K.taken K.write_faults out.new) result }
{
    match step {
        PublishStep::Declare(declaration) => declare(alloc, desk, declaration),
        PublishStep::Publish(envelope) => publish(alloc, desk, out, seed, counter, envelope),
    }
}

/// Says the block of a declaration, of which nothing is told.
fn declare<D: Desk>(
    alloc: Global,
    desk: &mut D,
    declaration: Declaration,
) -> Result<(), PublishingEnd>
    requires open { IsOpen (D.fault desk.old) (D.stopped desk.old) }
    ensures later { IsLater (desk_shows D.fault D.stopped D.faults D.ends desk.old) (desk_shows D.fault D.stopped D.faults D.ends desk.new) }
    ensures said { (s n : ℕ) (view : SinkView) → HasSaidPlan D.goes D.refuses D.remote D.shared s n (declaration_plan declaration) desk.old desk.new
        (desk_shows D.fault D.stopped D.faults D.ends desk.old) (desk_shows D.fault D.stopped D.faults D.ends desk.new) view view result }
{
    let mut core = declare_core(declaration);
    match say_block(alloc, desk, &mut core) {
        Ok(_) => Ok(()),
        Err(fault) => Err(end_at(fault)),
    }
}

/// Says the block of a publication, and tells its end under the tag of a seed and a counter. On the empty exchange its
/// routing key is the lawful name of a queue.
fn publish<D: Desk, K: Sink>(
    alloc: Global,
    desk: &mut D,
    out: &mut K,
    seed: u64,
    counter: u64,
    envelope: Envelope,
) -> Result<(), PublishingEnd>
    requires open { IsOpen (D.fault desk.old) (D.stopped desk.old) }
    requires way { IsPublishable (data_of envelope) }
    ensures later { IsLater (desk_shows D.fault D.stopped D.faults D.ends desk.old) (desk_shows D.fault D.stopped D.faults D.ends desk.new) }
    ensures said { (n : ℕ) → counter ≡ suc n → IsNextEnvelope seed n (compact_text (data_of envelope))
        → HasSaidPlan D.goes D.refuses D.remote D.shared seed n (Publish (compact_text (data_of envelope))) desk.old desk.new
        (desk_shows D.fault D.stopped D.faults D.ends desk.old) (desk_shows D.fault D.stopped D.faults D.ends desk.new)
        (sink_view K.taken K.write_faults out.old) (sink_view K.taken K.write_faults out.new) result }
{
    let mut core = publish_core(envelope);
    let said = say_block(alloc, desk, &mut core);
    tell_end(alloc, out, seed, counter, said)
}

/// Tells the end of a publication, or what its fault ends publishing by.
fn tell_end<K: Sink>(
    alloc: Global,
    out: &mut K,
    seed: u64,
    counter: u64,
    said: Result<PublishEnd, SayFault>,
) -> Result<(), PublishingEnd>
    ensures { HasToldEnd seed counter said
        (sink_view K.taken K.write_faults out.old) (sink_view K.taken K.write_faults out.new) result }
{
    match said {
        Ok(end) => write_end(alloc, out, seed, counter, end),
        Err(fault) => Err(end_at(fault)),
    }
}

/// Writes the line of a publication.
fn write_end<K: Sink>(
    alloc: Global,
    out: &mut K,
    seed: u64,
    counter: u64,
    end: PublishEnd,
) -> Result<(), PublishingEnd>
    ensures { HasWritten (end_line seed counter end)
        (sink_view K.taken K.write_faults out.old) (sink_view K.taken K.write_faults out.new) result }
{
    let Ok(line) = end_line(alloc, seed, counter, end) else {
        return Err(PublishingEnd::Memory);
    };
    match write_all(out, line.as_bytes()) {
        Ok(()) => Ok(()),
        Err(_) => Err(PublishingEnd::WriteFault),
    }
}

/// The end of publishing at a fault of a block.
fn end_at(fault: SayFault) -> PublishingEnd
    ensures { IsEndAt fault result }
{
    match fault {
        SayFault::Desk(DeskFault::Memory) | SayFault::Memory => PublishingEnd::Memory,
        SayFault::Desk(_) => PublishingEnd::LinkFault,
        SayFault::Refused(answer) => PublishingEnd::Refused(answer),
    }
}
