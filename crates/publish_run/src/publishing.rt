//! A run of publishing: a script is read and checked, and said over a link.
ghost use Rattle.std.specs.Prelude.{◌≡◌, List as Listed};
ghost use Rattle.links.specs.Views.{sink_view, source_view};
ghost use Rattle.net_links.specs.LinkViews.{link_view};
ghost use Rattle.command_blocks.specs.Scripts.{Plan};
ghost use Rattle.desks.specs.Faults.{IsOpen};
ghost use Rattle.publish_script.specs.Scripts.{Blocks, script_told};
ghost use Rattle.publish_run.specs.PublishRuns.{HasCarried, HasPublishedRun, HasReadScript, HasSaidOver, HasPublishedBytes, net_shows};
ghost use Rattle.publish_run.specs.Publishings.{HasSaidScript};
ghost use Rattle.publish_run.specs.Saids.{desk_shows};

use crate::ending::PublishingEnd;
use crate::stepping::say_lines;
use desks::Desk;
use line_text::{INPUT_LIMIT, Lines, TextFault};
use link_desk::LinkDesk;
use links::{ReadEnd, Sink, Source, read_to_end};
use net_links::{Link, Net, NetFault};
use publish_script::{check_script, script_text};
use std::alloc::Global;
use wire_values::Bytes;

/// Reads a publish script of at most 67,108,864 bytes to its end, checks it for a client of this seed, connects to an
/// address, and says the script's blocks over that link, in order. As a publication ends, `published <tag>` or
/// `no queue <tag>` is written; of a declaration nothing is. Then the link is closed.
///
/// It ends as `PublishingEnd` says. Nothing is sent or written before the whole script is read and each of its lines is
/// good.
pub fn publish_told<S: Source, K: Sink, N: Net>(
    alloc: Global,
    src: &mut S,
    out: &mut K,
    net: &mut N,
    address: &str,
    seed: u64,
) -> PublishingEnd
    ensures published { HasPublishedRun seed
        (source_view S.left S.read_faults S.ends src.old) (source_view S.left S.read_faults S.ends src.new)
        (net_shows N.closed N.faults N.closed_faults net.old) (net_shows N.closed N.faults N.closed_faults net.new)
        (sink_view K.taken K.write_faults out.old) (sink_view K.taken K.write_faults out.new) result }
{
    match read_script(alloc, src) {
        Ok(bytes) => publish_checked(alloc, out, net, address, seed, bytes.as_slice()),
        Err(end) => end,
    }
}

/// Reads a script to its end, or to one byte past its limit.
fn read_script<S: Source>(alloc: Global, src: &mut S) -> Result<Bytes, PublishingEnd>
    ensures { HasReadScript
        (source_view S.left S.read_faults S.ends src.old) (source_view S.left S.read_faults S.ends src.new) result }
{
    match read_to_end(alloc, src, INPUT_LIMIT as u64) {
        Ok(bytes) => Ok(bytes),
        Err(ReadEnd::Long(bytes)) => Ok(bytes),
        Err(ReadEnd::Fault) => Err(PublishingEnd::ReadFault),
        Err(ReadEnd::Memory) => Err(PublishingEnd::Memory),
    }
}

/// Publishes a script, where each of its lines is good.
fn publish_checked<K: Sink, N: Net>(
    alloc: Global,
    out: &mut K,
    net: &mut N,
    address: &str,
    seed: u64,
    bytes: &[u8],
) -> PublishingEnd
    ensures { HasPublishedBytes seed bytes.now
        (net_shows N.closed N.faults N.closed_faults net.old) (net_shows N.closed N.faults N.closed_faults net.new)
        (sink_view K.taken K.write_faults out.old) (sink_view K.taken K.write_faults out.new) result }
{
    match check_script(alloc, seed, bytes) {
        Ok(()) => publish_linked(alloc, out, net, address, seed, bytes),
        Err(TextFault::Bad(bad)) => PublishingEnd::BadLine(bad),
        Err(TextFault::Memory) => PublishingEnd::Memory,
    }
}

/// Publishes a script of good lines over a link to an address, and closes it.
fn publish_linked<K: Sink, N: Net>(
    alloc: Global,
    out: &mut K,
    net: &mut N,
    address: &str,
    seed: u64,
    bytes: &[u8],
) -> PublishingEnd
    requires good { (plans : Listed Plan) × (script_told seed bytes.now ≡ Blocks plans) }
    ensures { (plans : Listed Plan) × (script_told seed bytes.now ≡ Blocks plans) × HasSaidOver seed plans
        (net_shows N.closed N.faults N.closed_faults net.old) (net_shows N.closed N.faults N.closed_faults net.new)
        (sink_view K.taken K.write_faults out.old) (sink_view K.taken K.write_faults out.new) result }
{
    match net.connect(alloc, address) {
        Ok(link) => {
            let (link, end) = say_over(alloc, link, out, seed, bytes);
            net.close(link);
            end
        }
        Err(NetFault::Failed) => PublishingEnd::LinkFault,
        Err(NetFault::Memory) => PublishingEnd::Memory,
    }
}

/// Says the blocks of a script of good lines over a link, tells of them, and gives the link back.
fn say_over<K: Sink, L: Link + Drop>(
    alloc: Global,
    link: L,
    out: &mut K,
    seed: u64,
    bytes: &[u8],
) -> (L, PublishingEnd)
    requires good { (plans : Listed Plan) × (script_told seed bytes.now ≡ Blocks plans) }
    ensures { (plans : Listed Plan) × (script_told seed bytes.now ≡ Blocks plans) × HasCarried seed plans
        (link_view L.sent L.received L.faults L.ends L.gains link) (link_view L.sent L.received L.faults L.ends L.gains result.0)
        (sink_view K.taken K.write_faults out.old) (sink_view K.taken K.write_faults out.new) result.1 }
{
    let mut desk = LinkDesk::new(alloc, link);
    let end = say_script(alloc, &mut desk, out, seed, bytes);
    (desk.into_link(), end)
}

/// Says the blocks of a script of good lines at a desk, and tells of them.
fn say_script<D: Desk, K: Sink>(
    alloc: Global,
    desk: &mut D,
    out: &mut K,
    seed: u64,
    bytes: &[u8],
) -> PublishingEnd
    requires open { IsOpen (D.fault desk.old) (D.stopped desk.old) }
    requires good { (plans : Listed Plan) × (script_told seed bytes.now ≡ Blocks plans) }
    ensures said { (plans : Listed Plan) × (script_told seed bytes.now ≡ Blocks plans)
        × HasSaidScript D.goes D.refuses D.remote D.shared seed 0 plans desk.old desk.new
        (desk_shows D.fault D.stopped D.faults D.ends desk.old) (desk_shows D.fault D.stopped D.faults D.ends desk.new)
        (sink_view K.taken K.write_faults out.old) (sink_view K.taken K.write_faults out.new) result }
{
    let mut lines = Lines::new(script_text(bytes));
    let _header = lines.next();
    say_lines(alloc, desk, out, seed, lines)
}
