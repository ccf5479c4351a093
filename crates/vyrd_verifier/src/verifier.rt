//! A verifier: it takes in events in any order, and judges those whose turn has come.

ghost use Rattle.std.specs.Prelude.{◌≡◌, ◌<◌, ◌^◌, true, false, List, [], ◌∷◌, ◌++◌, is_some, IfOk};
ghost use Rattle.std.specs.Prelude.{OnOk, OnErr};
ghost use Rattle.std.specs.Result.{is_err};
ghost use Rattle.vyrd_base.specs.declared.history.Stamped.{Stamped};
ghost use Rattle.vyrd_base.specs.Histories.{log_of};
ghost use Rattle.vyrd_base.specs.Rules.{built_in, rules_by};
ghost use Rattle.vyrd_base.specs.Subjects.{is_built_in};
ghost use Rattle.vyrd_base.specs.Verdicts.{verdict_so_far, verdict};
ghost use Rattle.vyrd_verifier.specs.Judging.{HasJudged};
ghost use Rattle.vyrd_verifier.specs.Taken.{numbered, in_order_below, has_failed, has_number};
ghost use Rattle.vyrd_verifier.specs.Taken.{HasTakenIn};

use crate::run_judge::RunJudge;
use crate::sequencer::Sequencer;
use std::alloc::{AllocError, Global};
use std::marker::Model;
use vyrd_base::{Header, Stamped, Verdict};

/// Judges a history while its events come in, in whatever order.
///
/// It has judged the events with the numbers 0 to m - 1, where m is the least number that wasn't
/// taken in, and doesn't keep them. Those with greater numbers it holds. Time: an event takes what
/// [`AnyJudge::feed`](vyrd_judge::AnyJudge::feed) takes, and what [`Reorder`](vyrd_relay::Reorder)
/// takes to put it in order. Memory: that of the judge, and in proportion to the events held.
///
/// Out of memory may be met in [`Verifier::take_in`] alone. From then on `take_in` and `finish`
/// answer it, and `had` goes on to say what was taken in.
#[derive(Drop)]
pub struct Verifier {
    sequencer: Sequencer<RunJudge>,
}

impl Model for Verifier {
    ghost use Rattle.std.specs.Prelude.{◌≡◌, None, false};
    ghost use Rattle.vyrd_verifier.specs.Judging.{RunJudgeView};
    ghost use Rattle.vyrd_verifier.specs.Taken.{SequencerView};

    ghost Value = { SequencerView RunJudgeView };

    ghost view = { λ v. v.sequencer };

    ghost invariant = { λ v. v.sequencer.refused ≡ None
        → v.sequencer.sink.judge.has_failed ≡ false };
}

impl Verifier {
    /// A verifier that has taken in nothing.
    pub fn new(alloc: Global, header: Header) -> Result<Verifier, AllocError>
        requires built_in { is_built_in header.subject ≡ true }
        ensures taken { IfOk result (λ v. HasTakenIn HasJudged v []) }
        ensures charter { IfOk result (λ v. v.sink.judge.kept.charter ≡ built_in header) }
        ensures has_failed { IfOk result (λ v. has_failed v ≡ false) }
    {
        let judge = RunJudge::new(alloc, header)?;
        let sequencer = Sequencer::new(alloc, judge)?;
        Ok(Verifier { sequencer })
    }

    /// Takes in an event whose number is below 2^62 and wasn't taken in before, and judges all
    /// whose turn has come. The answer is the verdict so far about their log: `None` if nothing
    /// stands yet.
    ///
    /// After out of memory the event wasn't taken in, and each later call answers the same.
    pub fn take_in(&mut self, item: Stamped) -> Result<Option<Verdict>, AllocError>
        requires number { item.number < 2 ^ 62 }
        requires new { has_number self.old item.number ≡ false }
        ensures answer { (taken : List Stamped) → HasTakenIn HasJudged self.old taken
            → IfOk result (λ v. v ≡ verdict_so_far (rules_by self.old.sink.judge.kept.charter) []
            (log_of (in_order_below self.new.kept.next (taken ++ item ∷ [])))) }
        ensures taken { (taken : List Stamped) → HasTakenIn HasJudged self.old taken
            → OnOk result (HasTakenIn HasJudged self.new (taken ++ item ∷ [])) }
        ensures refused { (taken : List Stamped) → HasTakenIn HasJudged self.old taken
            → OnErr result (HasTakenIn HasJudged self.new taken) }
        ensures has_failed { has_failed self.new ≡ is_err result }
        ensures fails_again { has_failed self.old ≡ true → is_err result ≡ true }
        ensures charter { OnOk result
            (self.new.sink.judge.kept.charter ≡ self.old.sink.judge.kept.charter) }
    {
        self.sequencer.take_in(item)?;
        Ok(self.sequencer.sink().so_far())
    }

    /// Whether an event with this number was taken in. It takes no memory.
    pub fn had(&self, number: u64) -> bool
        ensures value { result ≡ has_number self.now number }
        ensures taken { (taken : List Stamped) → HasTakenIn HasJudged self.now taken
            → result ≡ is_some (numbered number taken) }
    {
        self.sequencer.had(number)
    }

    /// The verdict about the whole log of the events before the least number that wasn't taken in.
    /// It takes no memory, and out of memory comes exactly when an earlier `take_in` answered it.
    pub fn finish(&self) -> Result<Verdict, AllocError>
        ensures verdict { (taken : List Stamped) → HasTakenIn HasJudged self.now taken
            → IfOk result (λ v. v ≡ verdict (rules_by self.now.sink.judge.kept.charter) []
            (log_of (in_order_below self.now.kept.next taken))) }
        ensures has_failed { is_err result ≡ has_failed self.now }
    {
        if self.sequencer.has_failed() {
            return Err(AllocError);
        }
        self.sequencer.sink().finish()
    }
}
