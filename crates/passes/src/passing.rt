//! From command to command of a pass.
ghost use Rattle.std.specs.Prelude.{List as Listed, ◌≡◌, ◌≤◌, [], IfOk, drop, length};
ghost use Rattle.command_blocks.specs.Calls.{Call, call};
ghost use Rattle.command_blocks.specs.EnvelopeTexts.{plain_setting};
ghost use Rattle.command_blocks.specs.Scripts.{after_call, on_locked, returns_script};
ghost use Rattle.block_core.specs.Stages.{progress_left};
ghost use Rattle.passes.specs.Counts.{returned_count, tag_texts};
ghost use Rattle.passes.specs.Passes.{HasEnded, PassHad, PassingHad, TellsNext, after_return, pass_stage_left, passing_left, range_left, returned_so};
ghost use Rattle.passes.specs.Told.{HasReturned, IsOn};
ghost use Rattle.passes.specs.declared.passing.Passing.TheVariants as Passing;
ghost use Rattle.passes.specs.declared.release.Release.TheVariants as Release;

use crate::counts::Counts;
use crate::ended::PassEnd;
use crate::members::{tag_at, tags_among};
use crate::release::Release;
use crate::terms::Terms;
use crate::turns::Returns;
use block_core::Progress;
use block_words::{is_null_bulk, texts};
use command_blocks::Side;
use command_blocks::answer::is_status;
use envelope::Tag;
use returns::{Returned, Trying};
use std::alloc::{AllocError, Global};
use wire_values::{List, Value};

/// A command of a pass.
#[derive(Drop)]
pub struct PassStage {
    pub(crate) terms: Terms,
    pub(crate) at: Passing,
}

/// Which command of a pass is next.
#[derive(Drop)]
pub(crate) enum Passing {
    /// SET of the mutex.
    Lock,
    /// ZREVRANGEBYSCORE of the index.
    Range,
    /// A command of a return.
    Returning(Trying, Returns),
    /// A command of the release, after which the pass ends so.
    Releasing(Release, PassEnd),
}

impl Terms {
    /// This command is next.
    fn at(self, at: Passing) -> PassStage
        ensures { result ≡ record { terms = self; at = at } }
    {
        PassStage { terms: self, at }
    }

    /// What the answer to SET brings.
    pub(crate) fn locked(self, answer: &Value) -> Progress<PassStage, PassEnd>
        ensures left { progress_left pass_stage_left result ≡ on_locked (range_left self) answer.now }
        ensures tells { TellsNext (PassingHad Passing.Lock) answer.now result }
    {
        if is_null_bulk(answer) {
            return Progress::Over(PassEnd::Held);
        }
        if is_status(answer, b"OK") {
            return Progress::Next(self.at(Passing::Range));
        }
        Progress::Refused
    }

    /// What the answer to ZREVRANGEBYSCORE brings.
    pub(crate) fn ranged(
        self,
        alloc: Global,
        answer: &Value,
    ) -> Result<Progress<PassStage, PassEnd>, AllocError>
        ensures left { IfOk result (λ p. progress_left pass_stage_left p
            ≡ after_call (range_left self) (call 0 [] answer.now)) }
        ensures tells { IfOk result (λ p. TellsNext (PassingHad Passing.Range) answer.now p) }
    {
        match texts(alloc, answer)? {
            Some(members) => {
                let tags = tags_among(alloc, members.as_slice())?;
                Ok(Progress::Next(self.turn(tags, Counts::none())))
            }
            None => Ok(Progress::Refused),
        }
    }

    /// The return of the tag after so many returns, or the release after all.
    fn turn(self, tags: List<Tag>, counts: Counts) -> PassStage
        requires within { returned_count counts ≤ length tags }
        ensures left { pass_stage_left result
            ≡ returns_script plain_setting self.token (drop (returned_count counts) (tag_texts tags)) }
        ensures had { (calls : Listed Call) → HasReturned tags counts [] calls → PassHad calls result }
    {
        match tag_at(tags.as_slice(), counts.total()) {
            Some(tag) => {
                let trying = Trying::new(tag, Side::Right);
                self.at(Passing::Returning(trying, Returns { tags, counts }))
            }
            None => self.releases(counts.end()),
        }
    }

    /// The release is next.
    fn releases(self, end: PassEnd) -> PassStage
        ensures { result ≡ record { terms = self; at = Passing.Releasing Release.Watch end } }
    {
        self.at(Passing::Releasing(Release::Watch, end))
    }

    /// What the answer to a command of a return brings.
    pub(crate) fn tried(
        self,
        alloc: Global,
        trying: Trying,
        returns: Returns,
        answer: &Value,
    ) -> Result<Progress<PassStage, PassEnd>, AllocError>
        ensures left { IfOk result (λ p. progress_left pass_stage_left p
            ≡ after_call (passing_left self (Passing.Returning trying returns)) (call 0 [] answer.now)) }
        ensures tells { IfOk result (λ p. TellsNext (PassingHad (Passing.Returning trying returns)) answer.now p) }
    {
        match trying.took(alloc, answer)? {
            Progress::Next(trying) => Ok(Progress::Next(self.at(Passing::Returning(
                trying, returns,
            )))),
            Progress::Over(end) => Ok(Progress::Next(self.returned(returns, end))),
            Progress::Refused => Ok(Progress::Refused),
        }
    }

    /// What follows a return that ended so.
    fn returned(self, returns: Returns, end: Returned) -> PassStage
        ensures left { pass_stage_left result ≡ returned_so self returns end }
        ensures had { (calls : Listed Call) → HasEnded returns end calls → PassHad calls result }
    {
        match end {
            Returned::Contended(tag) => self.releases(PassEnd::Contended(tag)),
            Returned::Moved => self.further(returns, Returned::Moved),
            Returned::Gone => self.further(returns, Returned::Gone),
            Returned::Stayed => self.further(returns, Returned::Stayed),
        }
    }

    /// What follows a return that ended so, and wasn't contended.
    fn further(self, returns: Returns, end: Returned) -> PassStage
        requires on { IsOn end }
        ensures left { pass_stage_left result ≡ after_return self returns }
        ensures had { (calls : Listed Call) → HasEnded returns end calls → PassHad calls result }
    {
        let counts = returns.counts.with(end);
        self.turn(returns.tags, counts)
    }

    /// What the answer to a command of the release brings.
    pub(crate) fn released(
        self,
        release: Release,
        end: PassEnd,
        answer: &Value,
    ) -> Progress<PassStage, PassEnd>
        ensures left { progress_left pass_stage_left result
            ≡ after_call (passing_left self (Passing.Releasing release end)) (call 0 [] answer.now) }
        ensures tells { TellsNext (PassingHad (Passing.Releasing release end)) answer.now result }
    {
        match release.answered(self.token.as_slice(), answer) {
            Progress::Next(release) => Progress::Next(self.at(Passing::Releasing(release, end))),
            Progress::Over(()) => Progress::Over(end),
            Progress::Refused => Progress::Refused,
        }
    }
}
