//! A judge that follows a run.

ghost use Rattle.std.specs.Prelude.{◌≡◌, Bool, true, false, List, [], IfOk};
ghost use Rattle.std.specs.Result.{is_err};
ghost use Rattle.vyrd_base.specs.declared.history.Stamped.{Stamped};
ghost use Rattle.vyrd_base.specs.Histories.{log_of};
ghost use Rattle.vyrd_base.specs.Rules.{Charter, built_in, rules_by};
ghost use Rattle.vyrd_base.specs.Subjects.{is_built_in};
ghost use Rattle.vyrd_base.specs.Verdicts.{verdict, verdict_so_far};
ghost use Rattle.vyrd_verifier.specs.Judging.{HasJudged};

use std::alloc::{AllocError, Global};
use std::marker::Model;
use vyrd_base::{Header, Stamped, Verdict};
use vyrd_judge::{AnyJudge, entry_of};
use vyrd_memory::EventSink;

/// Judges the log of a run while the run's events come in, in their order. It keeps the judge and
/// no event.
#[derive(Drop)]
pub struct RunJudge {
    judge: AnyJudge,
    count: u64,
}

impl Model for RunJudge {
    ghost use Rattle.std.specs.Prelude.{◌≤◌};
    ghost use Rattle.vyrd_verifier.specs.Judging.{RunJudgeView};

    ghost Value = { RunJudgeView };

    ghost view = { λ j. record { judge = j.judge; count = j.count } };

    ghost invariant = { λ j. j.judge.kept.entries ≤ j.count };
}

impl RunJudge {
    /// A judge of a run in which nothing was done yet.
    pub fn new(alloc: Global, header: Header) -> Result<RunJudge, AllocError>
        requires built_in { is_built_in header.subject ≡ true }
        ensures judged { IfOk result (λ j. HasJudged j []) }
        ensures charter { IfOk result (λ j. j.judge.kept.charter ≡ built_in header) }
        ensures has_failed { IfOk result (λ j. j.judge.has_failed ≡ false) }
    {
        let judge = AnyJudge::new(alloc, header)?;
        Ok(RunJudge { judge, count: 0 })
    }

    /// The verdict so far about the log of the run: `None` if nothing stands yet.
    pub fn so_far(&self) -> Option<Verdict>
        ensures { (history : List Stamped) → HasJudged self.now history
            → result ≡ verdict_so_far (rules_by self.now.judge.kept.charter) [] (log_of history) }
    {
        self.judge.so_far()
    }

    /// The verdict about the whole log, if nothing more is done in the run. It takes no memory, and
    /// out of memory comes exactly when it came to the judge before.
    pub fn finish(&self) -> Result<Verdict, AllocError>
        ensures verdict { (history : List Stamped) → HasJudged self.now history → IfOk result
            (λ v. v ≡ verdict (rules_by self.now.judge.kept.charter) [] (log_of history)) }
        ensures has_failed { is_err result ≡ self.now.judge.has_failed }
    {
        self.judge.finish()
    }
}

impl EventSink for RunJudge {
    ghost Fixed = { Charter × Bool };

    ghost fixed = { λ j. (j.judge.kept.charter, j.judge.has_failed) };

    ghost count = { λ j. j.count };

    ghost has_taken = { HasJudged };

    fn taken(&self) -> u64 {
        self.count
    }

    fn take(&mut self, event: Stamped) -> Result<(), AllocError> {
        self.count += 1;
        if let Some(entry) = entry_of(event) {
            self.judge.feed(entry)?;
        }
        Ok(())
    }

    ghost counted = { λ j history judged. judged.counted };
}
