//! The part of a log that is judged.

ghost use Rattle.std.specs.Prelude.{◌≡◌, ◌<◌, ◌≤◌, ◌+◌, ◌*◌, ◌^◌, ◌∷◌, ℕ, List, [], true, false};
ghost use Rattle.std.specs.Prelude.{Some, None};
ghost use Rattle.std.specs.Prelude.{IfOk, OnOk, slice_get, slice_set, length, replicate};
ghost use Rattle.vyrd_base.specs.Rules.{rules_by};
ghost use Rattle.vyrd_base.specs.declared.log.Entry.{Entry};
ghost use Rattle.vyrd_base.specs.declared.log.StartWord.{StartWord};
ghost use Rattle.vyrd_base.specs.Subjects.{is_observer, must_commit};
ghost use Rattle.vyrd_judge.specs.declared.waiting.Waiting.{Waiting};
ghost use Rattle.vyrd_base.specs.Entries.{has_method};
ghost use Rattle.vyrd_judge.specs.Costs.{judging_cost};
ghost use Rattle.vyrd_judge.specs.Judged.{Judged, HeadGives, MayJudge, CommitLeads, KnowsState};
ghost use Rattle.vyrd_judge.specs.Queued.{CanLeave};
ghost use Rattle.vyrd_observers.specs.Costs.{owed};
ghost use Rattle.vyrd_observers.specs.Watching.{AreCurrent, KeepsFew};
ghost use Rattle.vyrd_observers.specs.Watching.{Seen, unwatched, has_answer};
ghost use Rattle.vyrd_view.specs.Known.{view_by};
ghost use Rattle.vyrd_words.specs.Effects.{AreFew};

use crate::outcome::Outcome;
use crate::waiting::{Event, Waiting};
use std::alloc::{AllocError, Global};
use std::sync::ledger::Ledger;
use vyrd_base::{Args, Header, Method, Steps, Why};
use vyrd_observers::Watches;
use vyrd_spec::Spec;
use vyrd_words::Words;

/// What is known when all entries before some place are judged: the state of the specification
/// there, and for each caller whose open execution may return without a commit what it may answer.
#[derive(Drop)]
pub(crate) struct Replay<S: Spec> {
    pub spec: S,
    pub watches: Watches,
    ghost watching: { watches.header ≡ (rules_by (S.charter spec)).header },
    ghost callers: { length watches.by_caller ≡ (rules_by (S.charter spec)).header.callers },
    ghost few: { KeepsFew watches },
}

impl<S: Spec> Replay<S> {
    /// The place before the first entry, with the specification in its state at the start.
    pub fn new(alloc: Global, header: Header, spec: S) -> Result<Replay<S>, AllocError>
        requires spec_header { (rules_by (S.charter spec)).header ≡ header }
        ensures spec { IfOk result (λ r. r.spec ≡ spec) }
        ensures unwatched { IfOk result
            (λ r. r.watches.by_caller ≡ replicate header.callers unwatched) }
        ensures owed { IfOk result (λ r. owed r.watches ≡ 0) }
    {
        Ok(Replay {
            spec,
            watches: Watches::new(alloc, header)?,
        })
    }

    /// An execution that may return without a commit begins, in the state here. The specification's
    /// answer is one step.
    #[inline(never)]
    fn begin<L: Ledger>(
        &mut self,
        caller: u32,
        method: Method,
        args: Args,
        steps: &mut Steps<L>,
    ) -> Result<(), AllocError>
        requires caller { caller < (rules_by (S.charter self.old.spec)).header.callers }
        requires allowed { has_method (rules_by (S.charter self.old.spec)).header method args
            ≡ true }
        requires may_answer { must_commit method ≡ false }
        ensures watches { OnOk result (self.new.watches.by_caller
            ≡ slice_set self.old.watches.by_caller caller (record {
              is_open = true;
              method = method;
              args = args;
              answers = (rules_by (S.charter self.old.spec)).answer
                  (S.state self.old.spec) method args ∷ [];
            })) }
        ensures spec { self.new.spec ≡ self.old.spec }
        ensures steps { steps.new + owed self.new.watches ≤ steps.old + owed self.old.watches
            + (5 * (rules_by (S.charter self.old.spec)).header.callers + 4) }
    {
        steps.tick();
        let answer = self.spec.answer(method, args);
        self.watches
            .begin_counted(caller, method, args, answer, steps)
    }

    /// An execution without a commit returns. It says whether some state since its call answers the
    /// reply.
    #[inline(never)]
    fn end<L: Ledger>(&mut self, caller: u32, reply: u64, steps: &mut Steps<L>) -> bool
        requires caller { caller < (rules_by (S.charter self.old.spec)).header.callers }
        ensures answered { (seen : Seen) → slice_get self.old.watches.by_caller caller ≡ Some seen
            → result ≡ has_answer seen.answers reply }
        ensures watches { self.new.watches.by_caller
            ≡ slice_set self.old.watches.by_caller caller unwatched }
        ensures spec { self.new.spec ≡ self.old.spec }
        ensures steps { steps.new + owed self.new.watches ≤ steps.old + owed self.old.watches
            + 3 * (rules_by (S.charter self.old.spec)).header.callers }
    {
        self.watches.end_counted(caller, reply, steps)
    }

    /// A commit is judged by its reply and by the words there, which wait first. Its execution is
    /// watched no more, since it is judged by its commit. What is watched sees the state after it.
    /// The specification's step is one step, and the comparison of the words is counted as
    /// `vyrd_words` does.
    #[inline(never)]
    fn commit<L: Ledger>(
        &mut self,
        words: &mut Words<S::Compared>,
        caller: u32,
        method: Method,
        args: Args,
        reply: u64,
        steps: &mut Steps<L>,
    ) -> Result<Outcome, AllocError>
        requires caller { caller < (rules_by (S.charter self.old.spec)).header.callers }
        requires shows { view_by words.old.views.shows
            ≡ (rules_by (S.charter self.old.spec)).view }
        requires may { has_method (rules_by (S.charter self.old.spec)).header method args ≡ true }
        requires mutates { is_observer method ≡ false }
        requires few { S.made self.old.spec < 2 ^ 62 }
        requires current { AreCurrent
            ((rules_by (S.charter self.old.spec)).answer (S.state self.old.spec))
            self.old.watches.by_caller }
        requires sound { words.old.views.refused ≡ false }
        ensures leads { (part : List (ℕ × ℕ)) (rest : List (List (ℕ × ℕ)))
            → words.old.views.since ≡ part ∷ rest
            → words.old.views.specified
            ≡ (rules_by (S.charter self.old.spec)).shown (S.state self.old.spec)
            → IfOk result
            (CommitLeads (rules_by (S.charter self.old.spec)) words.old.views.first part rest
            caller (record { method = method; args = args }) reply (S.state self.old.spec)
            (S.made self.old.spec) self.old.watches.by_caller (S.state self.new.spec)
            (S.made self.new.spec) self.new.watches.by_caller words.new.views.first
            words.new.views.since) }
        ensures known { words.old.views.specified
            ≡ (rules_by (S.charter self.old.spec)).shown (S.state self.old.spec)
            → IfOk result
            (KnowsState (rules_by (S.charter self.old.spec)) words.new.views
            (S.state self.new.spec)) }
        ensures few { (part : List (ℕ × ℕ)) (rest parts : List (List (ℕ × ℕ)))
            → words.old.views.since ≡ part ∷ rest
            → AreFew words.old.views.begun words.old.views.since parts
            → OnOk result (AreFew words.new.views.begun words.new.views.since parts) }
        ensures charter { S.charter self.new.spec ≡ S.charter self.old.spec }
        ensures views_header { words.new.views.header ≡ words.old.views.header }
        ensures shows { words.new.views.shows ≡ words.old.views.shows }
        ensures shadow { words.new.shadow ≡ words.old.shadow }
        ensures inner { words.new.inner ≡ words.old.inner }
        ensures steps { OnOk result (steps.new + owed self.new.watches + words.new.views.pending
            + 2 * S.owes self.new.spec
            ≤ steps.old + owed self.old.watches + words.old.views.pending
            + 2 * S.owes self.old.spec
            + judging_cost (rules_by (S.charter self.old.spec)).header.callers
            (S.most_touched (S.charter self.old.spec))) }
    {
        steps.tick();
        if !self.spec.step(method, args, reply)? {
            return Ok(Outcome::Faults(Why::Reply(reply)));
        }
        if let Some(key) = words.difference_counted(&self.spec, steps)? {
            return Ok(Outcome::Faults(Why::View(key)));
        }
        self.watches.close_counted(caller, steps);
        self.watches.see_all_counted(&self.spec, steps)?;
        Ok(Outcome::Goes)
    }

    /// Judges the entry that waits first, which isn't a commit that hasn't returned. A commit takes
    /// time in proportion to the different questions of open observers, the most that there were at
    /// one time, besides that of the specification's step and of the comparison. The comparison is
    /// paid by what is pending for the words, and where a step touches more keys than it pays for, by
    /// what the specification owes.
    #[inline(always)]
    pub fn judge<L: Ledger>(
        &mut self,
        words: &mut Words<S::Compared>,
        x: Waiting,
        steps: &mut Steps<L>,
    ) -> Result<Outcome, AllocError>
        requires shows { view_by words.old.views.shows
            ≡ (rules_by (S.charter self.old.spec)).view }
        requires may { MayJudge (rules_by (S.charter self.old.spec)) (S.state self.old.spec)
            (S.made self.old.spec)
            self.old.watches.by_caller x words.old.views.first words.old.views.since }
        requires can_leave { CanLeave x }
        requires sound { words.old.views.refused ≡ false }
        ensures gives { (starting : List StartWord) (log : List Entry) (xs : List Waiting)
            → Judged (rules_by (S.charter self.old.spec)) starting log (S.state self.old.spec)
            (S.made self.old.spec)
            self.old.watches.by_caller (x ∷ xs) words.old.views.first words.old.views.since
            → words.old.views.specified
            ≡ (rules_by (S.charter self.old.spec)).shown (S.state self.old.spec)
            → IfOk result
            (HeadGives (rules_by (S.charter self.old.spec)) starting log (S.state self.new.spec)
            (S.made self.new.spec) self.new.watches.by_caller x xs words.new.views.first
            words.new.views.since) }
        ensures known { words.old.views.specified
            ≡ (rules_by (S.charter self.old.spec)).shown (S.state self.old.spec)
            → IfOk result
            (KnowsState (rules_by (S.charter self.old.spec)) words.new.views
            (S.state self.new.spec)) }
        ensures few { (starting : List StartWord) (log : List Entry) (xs : List Waiting)
            (parts : List (List (ℕ × ℕ)))
            → Judged (rules_by (S.charter self.old.spec)) starting log (S.state self.old.spec)
            (S.made self.old.spec)
            self.old.watches.by_caller (x ∷ xs) words.old.views.first words.old.views.since
            → AreFew words.old.views.begun words.old.views.since parts
            → OnOk result (AreFew words.new.views.begun words.new.views.since parts) }
        ensures charter { S.charter self.new.spec ≡ S.charter self.old.spec }
        ensures views_header { words.new.views.header ≡ words.old.views.header }
        ensures shows { words.new.views.shows ≡ words.old.views.shows }
        ensures shadow { words.new.shadow ≡ words.old.shadow }
        ensures inner { words.new.inner ≡ words.old.inner }
        ensures steps { OnOk result (steps.new + owed self.new.watches + words.new.views.pending
            + 2 * S.owes self.new.spec
            ≤ steps.old + owed self.old.watches + words.old.views.pending
            + 2 * S.owes self.old.spec
            + judging_cost (rules_by (S.charter self.old.spec)).header.callers
            (S.most_touched (S.charter self.old.spec))) }
    {
        match x.event() {
            Event::Begins(method, args) => {
                self.begin(x.caller(), method, args, steps)?;
                Ok(Outcome::Goes)
            }
            Event::Commits(method, args, reply) => match reply {
                Some(reply) => self.commit(words, x.caller(), method, args, reply, steps),
                None => unreachable!(),
            },
            Event::Returns(reply) => {
                if self.end(x.caller(), reply, steps) {
                    Ok(Outcome::Goes)
                } else {
                    Ok(Outcome::Faults(Why::Observer(reply)))
                }
            }
        }
    }
}
