//! How a pass lets go of the mutex.
ghost use Rattle.std.specs.Prelude.{◌≡◌, [], if◌then◌else◌};
ghost use Rattle.command_blocks.specs.Calls.{call};
ghost use Rattle.command_blocks.specs.EnvelopeTexts.{plain_setting};
ghost use Rattle.command_blocks.specs.Scripts.{after_call, on_released, on_token};
ghost use Rattle.block_core.specs.Stages.{progress_left};
ghost use Rattle.block_core.specs.declared.stage.Progress.TheVariants as found;
ghost use Rattle.passes.specs.Releases.{release_left};
ghost use Rattle.passes.specs.declared.release.Release.TheVariants as Release;
ghost use Rattle.queue_keys.specs.Names.{Bytes as Text};

use block_core::Progress;
use block_words::{bulk, is_null_bulk};
use command_blocks::answer::{is_null_array, is_status, items};
use queue_keys::are_same;
use wire_values::Value;

/// Which command of a release is next.
#[derive(Clone, Copy, Debug)]
pub(crate) enum Release {
    /// WATCH of the mutex.
    Watch,
    /// GET of the mutex.
    Read,
    /// MULTI.
    Begin,
    /// DEL of the mutex.
    Remove,
    /// EXEC.
    Run,
    /// UNWATCH, where another pass has the mutex, or none.
    Leave,
}

impl Release {
    /// What the answer to it brings, under this token.
    pub(crate) fn answered(self, token: &[u8], answer: &Value) -> Progress<Release, ()>
        ensures { progress_left (release_left token.now) result
            ≡ after_call (release_left token.now self) (call 0 [] answer.now) }
    {
        match self {
            Release::Watch => next_if(is_status(answer, b"OK"), Release::Read),
            Release::Read => holder(token, answer),
            Release::Begin => next_if(is_status(answer, b"OK"), Release::Remove),
            Release::Remove => next_if(is_status(answer, b"QUEUED"), Release::Run),
            Release::Run => ran(answer),
            Release::Leave => over_if(is_status(answer, b"OK")),
        }
    }
}

/// A command is next, where the answer is a listed one.
fn next_if(listed: bool, release: Release) -> Progress<Release, ()>
    ensures { result ≡ (if listed then found.Next release else found.Refused) }
{
    if listed {
        Progress::Next(release)
    } else {
        Progress::Refused
    }
}

/// The release is over, where the answer is a listed one.
fn over_if(listed: bool) -> Progress<Release, ()>
    ensures { result ≡ (if listed then found.Over tt else found.Refused) }
{
    if listed {
        Progress::Over(())
    } else {
        Progress::Refused
    }
}

/// What the answer to GET brings: the mutex is deleted only under the own token.
fn holder(token: &[u8], answer: &Value) -> Progress<Release, ()>
    ensures { progress_left (release_left token.now) result ≡ on_token plain_setting token.now answer.now }
{
    if is_null_bulk(answer) {
        return Progress::Next(Release::Leave);
    }
    match bulk(answer) {
        Some(holder) => held_by(are_same(holder, token)),
        None => Progress::Refused,
    }
}

/// What is next, by whether the mutex is held under the own token.
fn held_by(own: bool) -> Progress<Release, ()>
    ensures { result ≡ found.Next (if own then Release.Begin else Release.Leave) }
{
    if own {
        Progress::Next(Release::Begin)
    } else {
        Progress::Next(Release::Leave)
    }
}

/// What the answer to EXEC brings.
fn ran(answer: &Value) -> Progress<Release, ()>
    ensures { (token : Text) → progress_left (release_left token) result ≡ on_released answer.now }
{
    if is_null_array(answer) {
        return Progress::Over(());
    }
    match items(answer) {
        Some(_) => Progress::Over(()),
        None => Progress::Refused,
    }
}
