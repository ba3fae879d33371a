//! What a run of publishing came to, as laws: functions whose bodies are empty.
#![tactic(auto)]

ghost use Rattle.std.specs.Prelude.{ℕ};
ghost use Rattle.links.specs.Views.{SinkView, SourceView};
ghost use Rattle.publish_run.specs.PublishRuns.{HasPublishedRun, NetShows};
ghost use Rattle.publish_run.specs.declared.ending.PublishingEnd.{PublishingEnd};
ghost use Rattle.publish_run.specs.declared.ending.PublishingEnd.TheVariants.{LinkFault, Published};
ghost use Rattle.publish_run_laws.specs.Parts.{IsSentInOrder};
ghost use Rattle.publish_run_laws.specs.Published.{IsLinkShown, IsPublishedWhole};

/// Where all of a script was said, its input was read to its end, the link that was closed sent the commands of the
/// script's blocks, whole and in order, and nothing else, and the lines of its publications were written.
pub fn whole_scripts_are_sent()
    ensures { (s : ℕ) (src src2 : SourceView) (before after : NetShows) (old new : SinkView)
        → HasPublishedRun s src src2 before after old new Published → IsPublishedWhole s src src2 before after old new }
{}

/// Publishing ends as at a fault of its link only where the net's count of faults rose, or its count of links that were
/// closed with a fault or an end; or where what the closed link received is no RESP2 or has 1,025 pushed values in a row.
pub fn link_faults_are_shown()
    ensures { (s : ℕ) (src src2 : SourceView) (before after : NetShows) (old new : SinkView)
        → HasPublishedRun s src src2 before after old new LinkFault → IsLinkShown before after }
{}

/// However publishing ends, it closed no link; or the closed link sent the commands of the whole blocks of the script's first
/// lines, in order, and then of the next block no more than the commands with which it begins, the last one perhaps cut.
pub fn fronts_are_sent()
    ensures { (s : ℕ) (src src2 : SourceView) (before after : NetShows) (old new : SinkView) (end : PublishingEnd)
        → HasPublishedRun s src src2 before after old new end → IsSentInOrder s src src2 before after }
{}
