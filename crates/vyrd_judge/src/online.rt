//! The online judge.

ghost use Rattle.std.specs.Prelude.{◌≡◌, length, ◌<◌, ◌≤◌, ◌+◌, ◌*◌, ◌^◌, ◌∷◌, ◌++◌, true, false};
ghost use Rattle.std.specs.Prelude.{List, [], Option, Some, None, Ok, IfOk, OnOk, OnErr, unwrap_or};
ghost use Rattle.std.specs.Prelude.{is_none, IfSome};
ghost use Rattle.std.specs.Result.{is_err};
ghost use Rattle.std.specs.List.{cons_option};
ghost use Rattle.vyrd_base.specs.declared.log.Entry.{Entry};
ghost use Rattle.vyrd_base.specs.declared.log.StartWord.{StartWord};
ghost use Rattle.vyrd_base.specs.Starts.{may_start, do_follow, words_at_start, state_at_start};
ghost use Rattle.vyrd_base.specs.declared.verdict.Verdict.{Verdict};
ghost use Rattle.vyrd_base.specs.declared.verdict.Verdict.TheVariants.{Malformed};
ghost use Rattle.vyrd_base.specs.declared.header.Header.{Header};
ghost use Rattle.vyrd_base.specs.Rules.{built_in, rules_of, rules_by};
ghost use Rattle.vyrd_base.specs.Histories.{logged, log_of};
ghost use Rattle.vyrd_base.specs.Verdicts.{verdict, verdict_so_far};
ghost use Rattle.vyrd_judge.specs.Costs.{callers_of, judge_debt, entry_cost, log_cost, start_cost};
ghost use Rattle.vyrd_judge.specs.Following.{HasFollowed};
ghost use Rattle.vyrd_view.specs.Known.{by_rules};

use crate::follower::Follower;
use crate::logged::entry_of;
use std::alloc::{AllocError, Global};
use std::marker::{Brand, Model};
use std::sync::ledger::{Blank, Ledger};
use vyrd_base::{Entry, Header, Rule, Stamped, StartWord, Steps, Verdict};
use vyrd_spec::{BuiltIn, Spec};
use vyrd_words::words_at_start;

/// A judge that takes the entries of a log one by one, in their order, and never looks back. `S` is
/// the specification of the header's subject.
///
/// After each entry it knows the verdict that stands, however the log goes on: the first fault, or
/// the first break of a rule of shape if no fault stands before it. A commit waits until its
/// execution has returned, and then all commits before it have to be judged; so do observers that
/// return after it.
///
/// Time: an entry takes constant time on average, besides what the specification, the words and the
/// comparison of the views take. But a commit and an observer's call take time in proportion to the
/// different questions of open observers, the most that there were at one time, and an observer's
/// return in proportion to the callers and to the answers that its question has had since its call
/// or that of another open observer. Memory: in proportion to the header's words, the keys of the
/// specification's state and the writes of open blocks. Besides, an entry that waits is kept, and a
/// write that takes effect while a commit waits, so that memory grows with the log only while some
/// execution stays open; and so do the answers to what open observers ask, which are kept once for
/// all that ask the same.
///
/// Memory may run out in [`Judge::feed`], [`Judge::follow`] and [`Judge::follow_history`] alone.
/// From then on these, `finish` and `stop` answer it.
pub struct Judge<S: Spec> {
    follower: Follower<S>,
    so_far: Option<Verdict>,
    has_failed: bool,
}

impl<S: Spec> Drop for Judge<S> {
    /// By hand, so that dropping a judge is one call to prove, and not the drop of each of its
    /// parts.
    fn drop(self) {
        let Judge {
            follower,
            so_far: _,
            has_failed: _,
        } = self;
        drop(follower);
    }
}

impl<S: Spec> Model for Judge<S> {
    ghost use Rattle.std.specs.Prelude.{◌≡◌, None, false};
    ghost use Rattle.vyrd_judge.specs.Following.{JudgeView, IsSomewhere};

    ghost Value = { JudgeView };

    ghost view = { λ j.
        record { kept = j.follower; so_far = j.so_far; has_failed = j.has_failed } };

    ghost invariant = { λ j. j.has_failed ≡ false → j.so_far ≡ None → IsSomewhere j.follower };
}

impl<S: BuiltIn> Judge<S> {
    /// A judge that has followed no entry. It takes memory in proportion to the header's words and
    /// callers.
    pub fn new(alloc: Global, header: Header) -> Result<Judge<S>, AllocError>
        requires serves { S.serves header.subject }
        ensures followed { IfOk result (λ j. HasFollowed j [] []) }
        ensures charter { IfOk result (λ j. j.kept.charter ≡ built_in header) }
        ensures shows { IfOk result (λ j. j.kept.views.shows ≡ by_rules (built_in header)) }
        ensures entries { IfOk result (λ j. j.kept.entries ≡ 0) }
        ensures so_far { IfOk result (λ j. j.so_far ≡ None) }
        ensures has_failed { IfOk result (λ j. j.has_failed ≡ false) }
        ensures owed { IfOk result
            (λ j. judge_debt S.Compared.price S.most_touched j [] ≡ 0) }
    {
        let words = words_at_start(alloc, header, &[])?;
        let spec = S::start(alloc, header)?;
        Judge::begin(alloc, header, &[], &words, spec)
    }

    /// A judge of a log that begins with these words, which has followed no entry. It is `None`
    /// exactly when the words stand for no state of the specification. It takes memory in
    /// proportion to the header's words and callers.
    pub fn start_from(
        alloc: Global,
        header: Header,
        start: &[StartWord],
    ) -> Result<Option<Judge<S>>, AllocError>
        requires serves { S.serves header.subject }
        requires may_start { may_start header start.now ≡ true }
        ensures none { IfOk result
            (λ j. is_none j ≡ is_none (state_at_start (rules_of header) start.now)) }
        ensures followed { IfOk result (λ o. IfSome o (λ j. HasFollowed j start.now [])) }
        ensures charter { IfOk result (λ o. IfSome o (λ j. j.kept.charter ≡ built_in header)) }
        ensures shows { IfOk result
            (λ o. IfSome o (λ j. j.kept.views.shows ≡ by_rules (built_in header))) }
        ensures entries { IfOk result (λ o. IfSome o (λ j. j.kept.entries ≡ 0)) }
        ensures so_far { IfOk result (λ o. IfSome o (λ j. j.so_far ≡ None)) }
        ensures has_failed { IfOk result (λ o. IfSome o (λ j. j.has_failed ≡ false)) }
        ensures owed { IfOk result
            (λ o. IfSome o (λ j. judge_debt S.Compared.price S.most_touched j []
            ≡ start_cost (S.Compared.price j.kept.views.shows) start.now)) }
    {
        if start.is_empty() {
            return Ok(Some(Judge::new(alloc, header)?));
        }
        let words = words_at_start(alloc, header, start)?;
        let Some(spec) = S::start_from(alloc, header, &words)? else {
            return Ok(None);
        };
        Ok(Some(Judge::begin(alloc, header, start, &words, spec)?))
    }
}

impl<S: Spec> Judge<S> {
    /// A judge that has followed no entry of a log that begins with these words, by the rules of a
    /// specification that is in its state at the start. The words are in the header's ranges, and
    /// rise. What it owes is the comparison of these words, and what the specification owes.
    pub fn begin(
        alloc: Global,
        header: Header,
        start: &[StartWord],
        words: &[u64],
        spec: S,
    ) -> Result<Judge<S>, AllocError>
        requires spec_header { (rules_by (S.charter spec)).header ≡ header }
        requires made { S.made spec ≡ 0 }
        requires follows { do_follow header None start.now ≡ true }
        requires words { words.now ≡ words_at_start header start.now }
        requires state { state_at_start (rules_by (S.charter spec)) start.now
            ≡ Some (S.state spec) }
        ensures followed { IfOk result (λ j. HasFollowed j start.now []) }
        ensures charter { IfOk result (λ j. j.kept.charter ≡ S.charter spec) }
        ensures shows { IfOk result (λ j. j.kept.views.shows ≡ by_rules (S.charter spec)) }
        ensures entries { IfOk result (λ j. j.kept.entries ≡ 0) }
        ensures so_far { IfOk result (λ j. j.so_far ≡ None) }
        ensures has_failed { IfOk result (λ j. j.has_failed ≡ false) }
        ensures owed { IfOk result (λ j. judge_debt S.Compared.price S.most_touched j []
            ≡ start_cost (S.Compared.price j.kept.views.shows) start.now + 2 * S.owes spec) }
    {
        Ok(Judge {
            follower: Follower::new(alloc, header, start, words, spec)?,
            so_far: None,
            has_failed: false,
        })
    }

    /// Follows one more entry. The answer is the verdict so far, with this entry: `None` if nothing
    /// stands yet. Once there is a verdict it is answered again, and entries aren't looked at.
    #[inline(always)]
    pub fn feed(&mut self, entry: Entry) -> Result<Option<Verdict>, AllocError>
        requires few { self.old.kept.entries < 2 ^ 62 }
        ensures answer { (starting : List StartWord) (log : List Entry)
            → HasFollowed self.old starting log
            → IfOk result
            (λ v. v
            ≡ verdict_so_far (rules_by self.old.kept.charter) starting (log ++ entry ∷ [])) }
        ensures followed { (starting : List StartWord) (log : List Entry)
            → HasFollowed self.old starting log
            → OnOk result (HasFollowed self.new starting (log ++ entry ∷ [])) }
        ensures so_far { IfOk result (λ v. self.new.so_far ≡ v) }
        ensures stays { OnErr result (self.new.so_far ≡ self.old.so_far) }
        ensures stands { (v : Verdict) → self.old.so_far ≡ Some v → self.old.has_failed ≡ false
            → result ≡ Ok (Some v) }
        ensures has_failed { self.new.has_failed ≡ is_err result }
        ensures fails_again { self.old.has_failed ≡ true → is_err result ≡ true }
        ensures counted { self.new.kept.entries ≤ self.old.kept.entries + 1 }
        ensures charter { self.new.kept.charter ≡ self.old.kept.charter }
    {
        feed_alone::<S, Brand>(Blank::new(1), self, entry)
    }

    /// The same, with its steps counted. One step is one of the rules of shape, of the work on the
    /// words and their comparison, or of open observers, as `vyrd_shape`, `vyrd_words` and
    /// `vyrd_observers` count them; an entry that is put among those that wait, is given its reply
    /// there, or is handed out; and a step or an answer of the specification. What an entry that
    /// waits will cost is owed from then on, and so is the comparison of a word that it changes. So
    /// each entry pays a constant, by the number of callers and the specification, and a write
    /// the price of its word; and a log costs no more than that for each of its entries.
    #[inline(always)]
    pub fn feed_counted<L: Ledger>(
        &mut self,
        entry: Entry,
        steps: &mut Steps<L>,
    ) -> Result<Option<Verdict>, AllocError>
        requires few { self.old.kept.entries < 2 ^ 62 }
        ensures answer { (starting : List StartWord) (log : List Entry)
            → HasFollowed self.old starting log
            → IfOk result
            (λ v. v
            ≡ verdict_so_far (rules_by self.old.kept.charter) starting (log ++ entry ∷ [])) }
        ensures followed { (starting : List StartWord) (log : List Entry)
            → HasFollowed self.old starting log
            → OnOk result (HasFollowed self.new starting (log ++ entry ∷ [])) }
        ensures so_far { IfOk result (λ v. self.new.so_far ≡ v) }
        ensures stays { OnErr result (self.new.so_far ≡ self.old.so_far) }
        ensures stands { (v : Verdict) → self.old.so_far ≡ Some v → self.old.has_failed ≡ false
            → result ≡ Ok (Some v) }
        ensures has_failed { self.new.has_failed ≡ is_err result }
        ensures fails_again { self.old.has_failed ≡ true → is_err result ≡ true }
        ensures counted { self.new.kept.entries ≤ self.old.kept.entries + 1 }
        ensures charter { self.new.kept.charter ≡ self.old.kept.charter }
        ensures shows { self.new.kept.views.shows ≡ self.old.kept.views.shows }
        ensures steps { (starting : List StartWord) (log : List Entry)
            → HasFollowed self.old starting log
            → OnOk result (steps.new
            + judge_debt S.Compared.price S.most_touched self.new (log ++ entry ∷ [])
            ≤ steps.old + judge_debt S.Compared.price S.most_touched self.old log
            + entry_cost S.Compared.price S.most_touched self.old.kept entry) }
    {
        if self.has_failed {
            return Err(AllocError);
        }
        if let Some(verdict) = self.so_far {
            return Ok(Some(verdict));
        }
        self.take(entry, steps)
    }

    /// Follows one more entry, as `feed` does, where no verdict stands and memory hasn't run out.
    #[inline(always)]
    fn take<L: Ledger>(
        &mut self,
        entry: Entry,
        steps: &mut Steps<L>,
    ) -> Result<Option<Verdict>, AllocError>
        requires few { self.old.kept.entries < 2 ^ 62 }
        requires works { self.old.has_failed ≡ false }
        requires undecided { self.old.so_far ≡ None }
        ensures answer { (starting : List StartWord) (log : List Entry)
            → HasFollowed self.old starting log
            → IfOk result
            (λ v. v
            ≡ verdict_so_far (rules_by self.old.kept.charter) starting (log ++ entry ∷ [])) }
        ensures followed { (starting : List StartWord) (log : List Entry)
            → HasFollowed self.old starting log
            → OnOk result (HasFollowed self.new starting (log ++ entry ∷ [])) }
        ensures so_far { IfOk result (λ v. self.new.so_far ≡ v) }
        ensures stays { OnErr result (self.new.so_far ≡ None) }
        ensures has_failed { self.new.has_failed ≡ is_err result }
        ensures counted { self.new.kept.entries ≤ self.old.kept.entries + 1 }
        ensures charter { self.new.kept.charter ≡ self.old.kept.charter }
        ensures shows { self.new.kept.views.shows ≡ self.old.kept.views.shows }
        ensures steps { (starting : List StartWord) (log : List Entry)
            → HasFollowed self.old starting log
            → OnOk result (steps.new
            + judge_debt S.Compared.price S.most_touched self.new (log ++ entry ∷ [])
            ≤ steps.old + judge_debt S.Compared.price S.most_touched self.old log
            + entry_cost S.Compared.price S.most_touched self.old.kept entry) }
    {
        match self.follower.take_in(entry, steps) {
            Ok(None) => Ok(None),
            Ok(Some(verdict)) => {
                self.so_far = Some(verdict);
                Ok(Some(verdict))
            }
            Err(error) => {
                self.has_failed = true;
                Err(error)
            }
        }
    }

    /// Follows further entries, in their order. The answer is the verdict so far, with all of them.
    pub fn follow(&mut self, entries: &[Entry]) -> Result<Option<Verdict>, AllocError>
        requires few { self.old.kept.entries + length entries.now ≤ 2 ^ 62 }
        ensures answer { (starting : List StartWord) (log : List Entry)
            → HasFollowed self.old starting log
            → IfOk result
            (λ v. v
            ≡ verdict_so_far (rules_by self.old.kept.charter) starting (log ++ entries.now)) }
        ensures followed { (starting : List StartWord) (log : List Entry)
            → HasFollowed self.old starting log
            → OnOk result (HasFollowed self.new starting (log ++ entries.now)) }
        ensures so_far { IfOk result (λ v. self.new.so_far ≡ v) }
        ensures stays { OnErr result (self.new.so_far ≡ self.old.so_far) }
        ensures stands { (v : Verdict) → self.old.so_far ≡ Some v → self.old.has_failed ≡ false
            → result ≡ Ok (Some v) }
        ensures has_failed { self.new.has_failed ≡ is_err result }
        ensures fails_again { self.old.has_failed ≡ true → is_err result ≡ true }
        ensures counted { self.new.kept.entries ≤ self.old.kept.entries + length entries.now }
        ensures charter { self.new.kept.charter ≡ self.old.kept.charter }
    {
        follow_alone::<S, Brand>(Blank::new(1), self, entries)
    }

    /// The same, with its steps counted as in `feed_counted`.
    pub fn follow_counted<L: Ledger>(
        &mut self,
        entries: &[Entry],
        steps: &mut Steps<L>,
    ) -> Result<Option<Verdict>, AllocError>
        requires few { self.old.kept.entries + length entries.now ≤ 2 ^ 62 }
        ensures answer { (starting : List StartWord) (log : List Entry)
            → HasFollowed self.old starting log
            → IfOk result
            (λ v. v
            ≡ verdict_so_far (rules_by self.old.kept.charter) starting (log ++ entries.now)) }
        ensures followed { (starting : List StartWord) (log : List Entry)
            → HasFollowed self.old starting log
            → OnOk result (HasFollowed self.new starting (log ++ entries.now)) }
        ensures so_far { IfOk result (λ v. self.new.so_far ≡ v) }
        ensures stays { OnErr result (self.new.so_far ≡ self.old.so_far) }
        ensures stands { (v : Verdict) → self.old.so_far ≡ Some v → self.old.has_failed ≡ false
            → result ≡ Ok (Some v) }
        ensures has_failed { self.new.has_failed ≡ is_err result }
        ensures fails_again { self.old.has_failed ≡ true → is_err result ≡ true }
        ensures counted { self.new.kept.entries ≤ self.old.kept.entries + length entries.now }
        ensures charter { self.new.kept.charter ≡ self.old.kept.charter }
        ensures shows { self.new.kept.views.shows ≡ self.old.kept.views.shows }
        ensures steps { (starting : List StartWord) (log : List Entry)
            → HasFollowed self.old starting log
            → OnOk result (steps.new
            + judge_debt S.Compared.price S.most_touched self.new (log ++ entries.now)
            ≤ steps.old + judge_debt S.Compared.price S.most_touched self.old log
            + log_cost S.Compared.price S.most_touched self.old.kept entries.now) }
    {
        if self.has_failed {
            return Err(AllocError);
        }
        if let Some(verdict) = self.so_far {
            return Ok(Some(verdict));
        }
        for entry in entries {
            if let Some(verdict) = self.take(*entry, steps)? {
                return Ok(Some(verdict));
            }
        }
        Ok(None)
    }

    /// Follows the log of a history: its marks and its writes, in their order. The answer is the
    /// verdict so far, with all of them.
    pub fn follow_history(&mut self, history: &[Stamped]) -> Result<Option<Verdict>, AllocError>
        requires few { self.old.kept.entries + length history.now ≤ 2 ^ 62 }
        ensures answer { (starting : List StartWord) (log : List Entry)
            → HasFollowed self.old starting log
            → IfOk result
            (λ v. v
            ≡ verdict_so_far (rules_by self.old.kept.charter) starting
            (log ++ log_of history.now)) }
        ensures followed { (starting : List StartWord) (log : List Entry)
            → HasFollowed self.old starting log
            → OnOk result (HasFollowed self.new starting (log ++ log_of history.now)) }
        ensures so_far { IfOk result (λ v. self.new.so_far ≡ v) }
        ensures stays { OnErr result (self.new.so_far ≡ self.old.so_far) }
        ensures stands { (v : Verdict) → self.old.so_far ≡ Some v → self.old.has_failed ≡ false
            → result ≡ Ok (Some v) }
        ensures has_failed { self.new.has_failed ≡ is_err result }
        ensures fails_again { self.old.has_failed ≡ true → is_err result ≡ true }
        ensures counted { self.new.kept.entries ≤ self.old.kept.entries + length history.now }
        ensures charter { self.new.kept.charter ≡ self.old.kept.charter }
    {
        follow_history_alone::<S, Brand>(Blank::new(1), self, history)
    }

    /// The same, with its steps counted as in `feed_counted`, and one for each event.
    pub fn follow_history_counted<L: Ledger>(
        &mut self,
        history: &[Stamped],
        steps: &mut Steps<L>,
    ) -> Result<Option<Verdict>, AllocError>
        requires few { self.old.kept.entries + length history.now ≤ 2 ^ 62 }
        ensures answer { (starting : List StartWord) (log : List Entry)
            → HasFollowed self.old starting log
            → IfOk result
            (λ v. v
            ≡ verdict_so_far (rules_by self.old.kept.charter) starting
            (log ++ log_of history.now)) }
        ensures followed { (starting : List StartWord) (log : List Entry)
            → HasFollowed self.old starting log
            → OnOk result (HasFollowed self.new starting (log ++ log_of history.now)) }
        ensures so_far { IfOk result (λ v. self.new.so_far ≡ v) }
        ensures stays { OnErr result (self.new.so_far ≡ self.old.so_far) }
        ensures stands { (v : Verdict) → self.old.so_far ≡ Some v → self.old.has_failed ≡ false
            → result ≡ Ok (Some v) }
        ensures has_failed { self.new.has_failed ≡ is_err result }
        ensures fails_again { self.old.has_failed ≡ true → is_err result ≡ true }
        ensures counted { self.new.kept.entries ≤ self.old.kept.entries + length history.now }
        ensures charter { self.new.kept.charter ≡ self.old.kept.charter }
        ensures shows { self.new.kept.views.shows ≡ self.old.kept.views.shows }
        ensures steps { (starting : List StartWord) (log : List Entry)
            → HasFollowed self.old starting log
            → OnOk result (steps.new
            + judge_debt S.Compared.price S.most_touched self.new (log ++ log_of history.now)
            ≤ steps.old + judge_debt S.Compared.price S.most_touched self.old log
            + log_cost S.Compared.price S.most_touched self.old.kept (log_of history.now)
            + length history.now) }
    {
        if self.has_failed {
            return Err(AllocError);
        }
        if let Some(verdict) = self.so_far {
            return Ok(Some(verdict));
        }
        for event in history {
            if let Some(verdict) = self.take_event(*event, steps)? {
                return Ok(Some(verdict));
            }
        }
        Ok(None)
    }

    /// Follows one more event of a history, as `take` does its entry, if it has one. The event
    /// itself is a step.
    #[inline(always)]
    fn take_event<L: Ledger>(
        &mut self,
        event: Stamped,
        steps: &mut Steps<L>,
    ) -> Result<Option<Verdict>, AllocError>
        requires few { self.old.kept.entries < 2 ^ 62 }
        requires works { self.old.has_failed ≡ false }
        requires undecided { self.old.so_far ≡ None }
        ensures followed { (starting : List StartWord) (log : List Entry)
            → HasFollowed self.old starting log
            → OnOk result (HasFollowed self.new starting
            (log ++ cons_option (logged event.caller event.did) [])) }
        ensures so_far { IfOk result (λ v. self.new.so_far ≡ v) }
        ensures stays { OnErr result (self.new.so_far ≡ None) }
        ensures has_failed { self.new.has_failed ≡ is_err result }
        ensures counted { self.new.kept.entries ≤ self.old.kept.entries + 1 }
        ensures charter { self.new.kept.charter ≡ self.old.kept.charter }
        ensures shows { self.new.kept.views.shows ≡ self.old.kept.views.shows }
        ensures steps { (starting : List StartWord) (log : List Entry)
            → HasFollowed self.old starting log
            → OnOk result (steps.new + judge_debt S.Compared.price S.most_touched self.new
            (log ++ cons_option (logged event.caller event.did) [])
            ≤ steps.old + judge_debt S.Compared.price S.most_touched self.old log
            + log_cost S.Compared.price S.most_touched self.old.kept
            (cons_option (logged event.caller event.did) [])
            + 1) }
    {
        steps.tick();
        match entry_of(event) {
            Some(entry) => self.take(entry, steps),
            None => Ok(None),
        }
    }

    /// The verdict so far, as the last call that wasn't refused has answered it.
    pub fn so_far(&self) -> Option<Verdict>
        ensures { result ≡ self.now.so_far }
    {
        self.so_far
    }

    /// The verdict about the whole log, given that `end` stands after the entries.
    pub fn finish(&self) -> Result<Verdict, AllocError>
        ensures verdict { (starting : List StartWord) (log : List Entry)
            → HasFollowed self.now starting log
            → IfOk result (λ v. v ≡ verdict (rules_by self.now.kept.charter) starting log) }
        ensures has_failed { is_err result ≡ self.now.has_failed }
    {
        finish_alone::<S, Brand>(Blank::new(1), self)
    }

    /// The same, with its steps counted: one for each caller at most.
    pub fn finish_counted<L: Ledger>(&self, steps: &mut Steps<L>) -> Result<Verdict, AllocError>
        ensures verdict { (starting : List StartWord) (log : List Entry)
            → HasFollowed self.now starting log
            → IfOk result (λ v. v ≡ verdict (rules_by self.now.kept.charter) starting log) }
        ensures has_failed { is_err result ≡ self.now.has_failed }
        ensures steps { steps.new ≤ steps.old + callers_of self.now.kept }
    {
        if self.has_failed {
            return Err(AllocError);
        }
        match self.so_far {
            Some(verdict) => Ok(verdict),
            None => Ok(self.follower.end(steps)),
        }
    }

    /// The verdict if the text breaks a rule on this line: the one that stands, or otherwise that
    /// break.
    pub fn stop(&self, line: u64, rule: Rule) -> Result<Verdict, AllocError>
        ensures verdict { (starting : List StartWord) (log : List Entry)
            → HasFollowed self.now starting log
            → IfOk result (λ v. v
            ≡ unwrap_or (verdict_so_far (rules_by self.now.kept.charter) starting log)
            (Malformed line rule)) }
        ensures has_failed { is_err result ≡ self.now.has_failed }
    {
        if self.has_failed {
            return Err(AllocError);
        }
        match self.so_far {
            Some(verdict) => Ok(verdict),
            None => Ok(Verdict::Malformed { line, rule }),
        }
    }
}

/// Follows an entry with a count of its own.
#[inline(always)]
fn feed_alone<S: Spec, L: Ledger>(
    blank: Blank,
    judge: &mut Judge<S>,
    entry: Entry,
) -> Result<Option<Verdict>, AllocError>
    requires name { blank.name ≡ L.name }
    requires parts { blank.parts ≡ L.parts }
    requires some { 0 < blank.parts }
    requires few { judge.old.kept.entries < 2 ^ 62 }
    ensures answer { (starting : List StartWord) (log : List Entry)
        → HasFollowed judge.old starting log
        → IfOk result
        (λ v. v
        ≡ verdict_so_far (rules_by judge.old.kept.charter) starting (log ++ entry ∷ [])) }
    ensures followed { (starting : List StartWord) (log : List Entry)
        → HasFollowed judge.old starting log
        → OnOk result (HasFollowed judge.new starting (log ++ entry ∷ [])) }
    ensures so_far { IfOk result (λ v. judge.new.so_far ≡ v) }
    ensures stays { OnErr result (judge.new.so_far ≡ judge.old.so_far) }
    ensures stands { (v : Verdict) → judge.old.so_far ≡ Some v → judge.old.has_failed ≡ false
        → result ≡ Ok (Some v) }
    ensures has_failed { judge.new.has_failed ≡ is_err result }
    ensures fails_again { judge.old.has_failed ≡ true → is_err result ≡ true }
    ensures counted { judge.new.kept.entries ≤ judge.old.kept.entries + 1 }
    ensures charter { judge.new.kept.charter ≡ judge.old.kept.charter }
{
    let mut steps = Steps::<L>::new(blank);
    judge.feed_counted(entry, &mut steps)
}

/// Follows entries with a count of its own.
fn follow_alone<S: Spec, L: Ledger>(
    blank: Blank,
    judge: &mut Judge<S>,
    entries: &[Entry],
) -> Result<Option<Verdict>, AllocError>
    requires name { blank.name ≡ L.name }
    requires parts { blank.parts ≡ L.parts }
    requires some { 0 < blank.parts }
    requires few { judge.old.kept.entries + length entries.now ≤ 2 ^ 62 }
    ensures answer { (starting : List StartWord) (log : List Entry)
        → HasFollowed judge.old starting log
        → IfOk result
        (λ v. v
        ≡ verdict_so_far (rules_by judge.old.kept.charter) starting (log ++ entries.now)) }
    ensures followed { (starting : List StartWord) (log : List Entry)
        → HasFollowed judge.old starting log
        → OnOk result (HasFollowed judge.new starting (log ++ entries.now)) }
    ensures so_far { IfOk result (λ v. judge.new.so_far ≡ v) }
    ensures stays { OnErr result (judge.new.so_far ≡ judge.old.so_far) }
    ensures stands { (v : Verdict) → judge.old.so_far ≡ Some v → judge.old.has_failed ≡ false
        → result ≡ Ok (Some v) }
    ensures has_failed { judge.new.has_failed ≡ is_err result }
    ensures fails_again { judge.old.has_failed ≡ true → is_err result ≡ true }
    ensures counted { judge.new.kept.entries ≤ judge.old.kept.entries + length entries.now }
    ensures charter { judge.new.kept.charter ≡ judge.old.kept.charter }
{
    let mut steps = Steps::<L>::new(blank);
    judge.follow_counted(entries, &mut steps)
}

/// Follows a history with a count of its own.
fn follow_history_alone<S: Spec, L: Ledger>(
    blank: Blank,
    judge: &mut Judge<S>,
    history: &[Stamped],
) -> Result<Option<Verdict>, AllocError>
    requires name { blank.name ≡ L.name }
    requires parts { blank.parts ≡ L.parts }
    requires some { 0 < blank.parts }
    requires few { judge.old.kept.entries + length history.now ≤ 2 ^ 62 }
    ensures answer { (starting : List StartWord) (log : List Entry)
        → HasFollowed judge.old starting log
        → IfOk result
        (λ v. v
        ≡ verdict_so_far (rules_by judge.old.kept.charter) starting
        (log ++ log_of history.now)) }
    ensures followed { (starting : List StartWord) (log : List Entry)
        → HasFollowed judge.old starting log
        → OnOk result (HasFollowed judge.new starting (log ++ log_of history.now)) }
    ensures so_far { IfOk result (λ v. judge.new.so_far ≡ v) }
    ensures stays { OnErr result (judge.new.so_far ≡ judge.old.so_far) }
    ensures stands { (v : Verdict) → judge.old.so_far ≡ Some v → judge.old.has_failed ≡ false
        → result ≡ Ok (Some v) }
    ensures has_failed { judge.new.has_failed ≡ is_err result }
    ensures fails_again { judge.old.has_failed ≡ true → is_err result ≡ true }
    ensures counted { judge.new.kept.entries ≤ judge.old.kept.entries + length history.now }
    ensures charter { judge.new.kept.charter ≡ judge.old.kept.charter }
{
    let mut steps = Steps::<L>::new(blank);
    judge.follow_history_counted(history, &mut steps)
}

/// Ends with a count of its own.
fn finish_alone<S: Spec, L: Ledger>(blank: Blank, judge: &Judge<S>) -> Result<Verdict, AllocError>
    requires name { blank.name ≡ L.name }
    requires parts { blank.parts ≡ L.parts }
    requires some { 0 < blank.parts }
    ensures verdict { (starting : List StartWord) (log : List Entry)
        → HasFollowed judge.now starting log
        → IfOk result (λ v. v ≡ verdict (rules_by judge.now.kept.charter) starting log) }
    ensures has_failed { is_err result ≡ judge.now.has_failed }
{
    let mut steps = Steps::<L>::new(blank);
    judge.finish_counted(&mut steps)
}
