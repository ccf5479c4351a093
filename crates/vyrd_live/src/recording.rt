//! A run that is kept and judged.

ghost use Rattle.std.specs.Prelude.{◌≡◌, true, List, [], IfOk};
ghost use Rattle.vyrd_base.specs.declared.history.Stamped.{Stamped};
ghost use Rattle.vyrd_base.specs.Histories.{log_of};
ghost use Rattle.vyrd_base.specs.Rules.{Charter, built_in, rules_by};
ghost use Rattle.vyrd_base.specs.Subjects.{is_built_in};
ghost use Rattle.vyrd_base.specs.Verdicts.{verdict};
ghost use Rattle.vyrd_live.specs.Recorded.{HasRecorded};

use crate::run::Run;
use std::alloc::{AllocError, Global};
use vyrd_base::{Header, Stamped};
use vyrd_memory::EventSink;
use vyrd_verifier::RunJudge;

/// Keeps the history of a run, and judges its log while the events come in, in their order.
#[derive(Drop)]
pub(crate) struct Recording {
    pub(crate) judge: RunJudge,
    pub(crate) history: Vec<Stamped>,
}

impl Recording {
    /// A recording of a run in which nothing was done yet.
    pub(crate) fn new(alloc: Global, header: Header) -> Result<Recording, AllocError>
        requires built_in { is_built_in header.subject ≡ true }
        ensures recorded { IfOk result (λ r. HasRecorded r []) }
        ensures charter { IfOk result (λ r. r.judge.judge.kept.charter ≡ built_in header) }
    {
        Ok(Recording {
            judge: RunJudge::new(alloc, header)?,
            history: Vec::new(alloc),
        })
    }

    /// The run that was recorded, with its last words.
    pub(crate) fn finish(self, words: Vec<u64>) -> Result<Run, AllocError>
        ensures history { IfOk result (λ run. run.history.items ≡ self.history.items) }
        ensures words { IfOk result (λ run. run.words.items ≡ words.items) }
        ensures verdict { (history : List Stamped) → HasRecorded self history → IfOk result
            (λ run. run.verdict
            ≡ verdict (rules_by self.judge.judge.kept.charter) [] (log_of history)) }
    {
        let verdict = self.judge.finish()?;
        Ok(Run {
            history: self.history,
            words,
            verdict,
        })
    }
}

impl EventSink for Recording {
    ghost Fixed = { Charter };

    ghost fixed = { λ r. r.judge.judge.kept.charter };

    ghost count = { λ r. r.judge.count };

    ghost has_taken = { HasRecorded };

    fn taken(&self) -> u64 {
        self.judge.taken()
    }

    fn take(&mut self, event: Stamped) -> Result<(), AllocError> {
        self.history.push(event)?;
        self.judge.take(event)
    }

    ghost counted = { λ r history recorded. recorded.judged.counted };
}
