//! All that is kept of a log in which nothing is wrong so far.

ghost use Rattle.std.specs.Prelude.{◌≡◌, ◌<◌, ◌≤◌, ◌+◌, ◌*◌, ◌^◌, ◌∷◌, ◌++◌, true, false, List, []};
ghost use Rattle.std.specs.Prelude.{length};
ghost use Rattle.std.specs.Prelude.{Option, Some, None, Ok, IfOk, IfSome, if◌then◌else◌};
ghost use Rattle.std.specs.List.{cons_option};
ghost use Rattle.vyrd_base.specs.Rules.{rules_by};
ghost use Rattle.vyrd_base.specs.declared.header.Header.{Header};
ghost use Rattle.vyrd_base.specs.declared.log.Entry.{Entry};
ghost use Rattle.vyrd_base.specs.declared.log.StartWord.{StartWord};
ghost use Rattle.vyrd_base.specs.Starts.{do_follow, words_at_start, state_at_start};
ghost use Rattle.vyrd_base.specs.Commits.{is_commit};
ghost use Rattle.vyrd_base.specs.Verdicts.{first_fault, verdict, verdict_so_far};
ghost use Rattle.vyrd_judge.specs.Costs.{debt, debt_after, debt_by, entry_cost, start_cost};
ghost use Rattle.vyrd_judge.specs.Costs.{callers_of};
ghost use Rattle.vyrd_judge.specs.Following.{FollowerKept, HasTakenIn, IsFaultless, IsSomewhere};
ghost use Rattle.vyrd_judge.specs.Following.{IsCatchingUp, MayCatchUp, AdvanceGives, with_first};
ghost use Rattle.vyrd_judge.specs.Queued.{CanLeave};
ghost use Rattle.vyrd_shadow.specs.Costs.{owed as shadow_owed};
ghost use Rattle.vyrd_view.specs.Known.{by_rules, view_by};
ghost use Rattle.vyrd_words.specs.HasWords.{HasWords};
ghost use Rattle.vyrd_judge.specs.declared.outcome.Advance.TheVariants.{Goes};
ghost use Rattle.vyrd_judge.specs.declared.waiting.Waiting.{Waiting};

use crate::outcome::{Advance, Outcome};
use crate::queue::Queue;
use crate::replay::Replay;
use crate::waiting::Waiting;
use std::alloc::{AllocError, Global};
use std::marker::Model;
use std::sync::ledger::Ledger;
use vyrd_base::{Entry, Header, Kind, Rule, StartWord, Steps, Verdict};
use vyrd_shape::Shape;
use vyrd_spec::Spec;
use vyrd_words::{Words, words_of};

/// What is kept of a log in which nothing is wrong so far: what the rules of shape need to know of
/// it, its words, the entries that wait to be judged, and the state at the first of these.
#[derive(Drop)]
pub(crate) struct Follower<S: Spec> {
    /// How many starting words stand before the first entry.
    started: u64,
    shape: Shape,
    words: Words<S::Compared>,
    queue: Queue,
    replay: Replay<S>,
    entries: u64,
    commits: u64,
    /// How many executions have returned without a commit.
    observers: u64,
}

impl<S: Spec> Model for Follower<S> {
    ghost use Rattle.std.specs.Prelude.{◌≡◌, ◌≤◌, ◌^◌};
    ghost use Rattle.vyrd_base.specs.Rules.{rules_by};
    ghost use Rattle.vyrd_judge.specs.Following.{FollowerKept};
    ghost use Rattle.vyrd_view.specs.Known.{view_by};

    ghost Value = { FollowerKept };

    ghost view = { λ f. record {
      charter = S.charter f.replay.spec;
      started = f.started;
      shape = f.shape;
      shadow = f.words.shadow;
      inner = f.words.inner;
      views = f.words.views;
      waiting = f.queue.waiting.items;
      taken = f.queue.taken;
      callers = f.queue.callers.items;
      state = S.state f.replay.spec;
      made = S.made f.replay.spec;
      owes = S.owes f.replay.spec;
      watches = f.replay.watches.by_caller;
      answers = f.replay.watches.kept;
      entries = f.entries;
      commits = f.commits;
      observers = f.observers;
    } };

    ghost invariant = { λ f. (f.shape.header ≡ (rules_by (S.charter f.replay.spec)).header)
        × (f.words.shadow.header ≡ (rules_by (S.charter f.replay.spec)).header)
        × (f.queue.header ≡ (rules_by (S.charter f.replay.spec)).header)
        × (f.started ≤ 2 ^ 32) × (f.entries ≤ 2 ^ 62)
        × (f.words.views.header ≡ (rules_by (S.charter f.replay.spec)).header)
        × (view_by f.words.views.shows ≡ (rules_by (S.charter f.replay.spec)).view) };
}

impl<S: Spec> Follower<S> {
    /// No entry was taken in. These are the starting words, all words at the start, and the
    /// specification in the state for which they stand.
    pub fn new(
        alloc: Global,
        header: Header,
        start: &[StartWord],
        words: &[u64],
        spec: S,
    ) -> Result<Follower<S>, AllocError>
        requires spec_header { (rules_by (S.charter spec)).header ≡ header }
        requires made { S.made spec ≡ 0 }
        requires follows { do_follow header None start.now ≡ true }
        requires words { words.now ≡ words_at_start header start.now }
        requires state { state_at_start (rules_by (S.charter spec)) start.now
            ≡ Some (S.state spec) }
        ensures taken_in { IfOk result (λ f. HasTakenIn f start.now []) }
        ensures charter { IfOk result (λ f. f.charter ≡ S.charter spec) }
        ensures shows { IfOk result (λ f. f.views.shows ≡ by_rules (S.charter spec)) }
        ensures entries { IfOk result (λ f. f.entries ≡ 0) }
        ensures owed { IfOk result (λ f. debt S.Compared.price S.most_touched f []
            ≡ start_cost (S.Compared.price f.views.shows) start.now + 2 * S.owes spec) }
    {
        let queue = Queue::new(alloc, header)?;
        let replay = Replay::new(alloc, header, spec)?;
        let shape = Shape::new(alloc, header)?;
        let words = first_words(alloc, header, start, words, &replay.spec)?;
        Ok(Follower {
            started: start.len() as u64,
            shape,
            words,
            queue,
            replay,
            entries: 0,
            commits: 0,
            observers: 0,
        })
    }

    /// Takes in one more entry, and judges what can be judged then: before and after it nothing
    /// waits, or what waits first is a commit whose execution hasn't returned. The answer is the
    /// verdict that stands with it. After a verdict nothing is known of what is kept, and nothing
    /// after memory has run out.
    #[inline(always)]
    pub fn take_in<L: Ledger>(
        &mut self,
        entry: Entry,
        steps: &mut Steps<L>,
    ) -> Result<Option<Verdict>, AllocError>
        requires few { self.old.entries < 2 ^ 62 }
        requires somewhere { IsSomewhere self.old }
        ensures answer { (starting : List StartWord) (log : List Entry)
            → IsFaultless self.old starting log
            → IfOk result
            (λ v. v ≡ verdict_so_far (rules_by self.old.charter) starting (log ++ entry ∷ [])) }
        ensures follows { (starting : List StartWord) (log : List Entry)
            → IsFaultless self.old starting log → result ≡ Ok None
            → IsFaultless self.new starting (log ++ entry ∷ []) }
        ensures counted { self.new.entries ≤ self.old.entries + 1 }
        ensures charter { self.new.charter ≡ self.old.charter }
        ensures shows { self.new.views.shows ≡ self.old.views.shows }
        ensures steps { (starting : List StartWord) (log : List Entry)
            → IsFaultless self.old starting log
            → IfOk result (λ v. steps.new
            + debt_after S.Compared.price S.most_touched v self.new (log ++ entry ∷ [])
            ≤ steps.old + debt S.Compared.price S.most_touched self.old log
            + entry_cost S.Compared.price S.most_touched self.old entry) }
    {
        let caller = entry.caller;
        // Each call is compiled for its kind, so that no part of it looks at the kind again. It is as
        // long as `take` isn't too large for that: docs/ARCHITECTURE.md, "Compiled in place".
        match entry.kind {
            Kind::Call(method, args) => self.take(
                Entry {
                    caller,
                    kind: Kind::Call(method, args),
                },
                steps,
            ),
            Kind::Return(reply) => self.take(
                Entry {
                    caller,
                    kind: Kind::Return(reply),
                },
                steps,
            ),
            Kind::Write(word, value) => self.take(
                Entry {
                    caller,
                    kind: Kind::Write(word, value),
                },
                steps,
            ),
            Kind::Commit => self.take(
                Entry {
                    caller,
                    kind: Kind::Commit,
                },
                steps,
            ),
            Kind::BlockOpen => self.take(
                Entry {
                    caller,
                    kind: Kind::BlockOpen,
                },
                steps,
            ),
            Kind::BlockClose => self.take(
                Entry {
                    caller,
                    kind: Kind::BlockClose,
                },
                steps,
            ),
            Kind::BlockCommit => self.take(
                Entry {
                    caller,
                    kind: Kind::BlockCommit,
                },
                steps,
            ),
        }
    }

    /// Takes in an entry, as `take_in` does.
    #[inline(always)]
    fn take<L: Ledger>(
        &mut self,
        entry: Entry,
        steps: &mut Steps<L>,
    ) -> Result<Option<Verdict>, AllocError>
        requires few { self.old.entries < 2 ^ 62 }
        requires somewhere { IsSomewhere self.old }
        ensures answer { (starting : List StartWord) (log : List Entry)
            → IsFaultless self.old starting log
            → IfOk result
            (λ v. v ≡ verdict_so_far (rules_by self.old.charter) starting (log ++ entry ∷ [])) }
        ensures follows { (starting : List StartWord) (log : List Entry)
            → IsFaultless self.old starting log → result ≡ Ok None
            → IsFaultless self.new starting (log ++ entry ∷ []) }
        ensures counted { self.new.entries ≤ self.old.entries + 1 }
        ensures charter { self.new.charter ≡ self.old.charter }
        ensures shows { self.new.views.shows ≡ self.old.views.shows }
        ensures steps { (starting : List StartWord) (log : List Entry)
            → IsFaultless self.old starting log
            → IfOk result (λ v. steps.new
            + debt_after S.Compared.price S.most_touched v self.new (log ++ entry ∷ [])
            ≤ steps.old + debt S.Compared.price S.most_touched self.old log
            + entry_cost S.Compared.price S.most_touched self.old entry) }
    {
        if let Err(fault) = self.shape.step_counted(&entry, steps) {
            return Ok(Some(Verdict::Malformed {
                line: self.started + self.entries + 2,
                rule: fault.rule,
            }));
        }
        let observes = self.queue.observer_returns(entry);
        self.words.follow_counted(entry, self.commits, steps)?;
        let position = self.entries;
        self.commits = counted(self.commits, is_commit(entry.kind));
        self.observers = counted(self.observers, observes);
        self.entries += 1;
        let first = self.queue.follow(entry, position, steps)?;
        self.catch_up(first, steps)
    }

    /// The verdict if `end` stands after the entries. It takes a step for each caller.
    pub fn end<L: Ledger>(&self, steps: &mut Steps<L>) -> Verdict
        ensures verdict { (starting : List StartWord) (log : List Entry)
            → IsFaultless self.now starting log
            → result ≡ verdict (rules_by self.now.charter) starting log }
        ensures steps { steps.new ≡ steps.old + callers_of self.now }
    {
        if self.shape.end_counted(steps).is_err() {
            return Verdict::Malformed {
                line: self.started + self.entries + 2,
                rule: Rule::CallOpen,
            };
        }
        Verdict::Accepted {
            entries: self.entries,
            commits: self.commits,
            observers: self.observers,
        }
    }

    /// Judges the entry that was handed out, if one was, and then those that wait, as far as they
    /// can be judged. The answer is the first fault so far.
    #[inline(always)]
    fn catch_up<L: Ledger>(
        &mut self,
        first: Option<Waiting>,
        steps: &mut Steps<L>,
    ) -> Result<Option<Verdict>, AllocError>
        requires may { MayCatchUp first self.old }
        requires can_leave { IfSome first CanLeave }
        ensures answer { (starting : List StartWord) (log : List Entry)
            → IsCatchingUp first self.old starting log
            → IfOk result (λ v. v ≡ first_fault (rules_by self.old.charter) starting log) }
        ensures follows { (starting : List StartWord) (log : List Entry)
            → IsCatchingUp first self.old starting log → result ≡ Ok None
            → IsFaultless self.new starting log }
        ensures entries { self.new.entries ≡ self.old.entries }
        ensures charter { self.new.charter ≡ self.old.charter }
        ensures shows { self.new.views.shows ≡ self.old.views.shows }
        ensures steps { (starting : List StartWord) (log : List Entry)
            → IsCatchingUp first self.old starting log
            → IfOk result (λ v. steps.new
            + debt_after S.Compared.price S.most_touched v self.new log
            ≤ steps.old + debt S.Compared.price S.most_touched (with_first first self.old) log) }
    {
        let Some(x) = first else {
            return Ok(None);
        };
        match self.judge(x, steps)? {
            Advance::Goes(None) => Ok(None),
            Advance::Goes(next) => self.go_on(next, steps),
            Advance::Stops(verdict) => Ok(Some(verdict)),
        }
    }

    /// The same, for an entry that has waited. It is a function of its own, so that `catch_up` has
    /// no loop, and is compiled for each kind of entry.
    #[inline(never)]
    fn go_on<L: Ledger>(
        &mut self,
        first: Option<Waiting>,
        steps: &mut Steps<L>,
    ) -> Result<Option<Verdict>, AllocError>
        requires may { MayCatchUp first self.old }
        requires can_leave { IfSome first CanLeave }
        ensures answer { (starting : List StartWord) (log : List Entry)
            → IsCatchingUp first self.old starting log
            → IfOk result (λ v. v ≡ first_fault (rules_by self.old.charter) starting log) }
        ensures follows { (starting : List StartWord) (log : List Entry)
            → IsCatchingUp first self.old starting log → result ≡ Ok None
            → IsFaultless self.new starting log }
        ensures entries { self.new.entries ≡ self.old.entries }
        ensures charter { self.new.charter ≡ self.old.charter }
        ensures shows { self.new.views.shows ≡ self.old.views.shows }
        ensures steps { (starting : List StartWord) (log : List Entry)
            → IsCatchingUp first self.old starting log
            → IfOk result (λ v. steps.new
            + debt_after S.Compared.price S.most_touched v self.new log
            ≤ steps.old + debt S.Compared.price S.most_touched (with_first first self.old) log) }
    {
        let mut next = first;
        while let Some(x) = next {
            match self.judge(x, steps)? {
                Advance::Goes(more) => next = more,
                Advance::Stops(verdict) => return Ok(Some(verdict)),
            }
        }
        Ok(None)
    }

    /// Judges an entry that was handed out. The next one is handed out, if it can be judged.
    #[inline]
    fn judge<L: Ledger>(&mut self, x: Waiting, steps: &mut Steps<L>) -> Result<Advance, AllocError>
        requires may { MayCatchUp (Some x) self.old }
        requires can_leave { CanLeave x }
        ensures gives { (starting : List StartWord) (log : List Entry)
            → IsCatchingUp (Some x) self.old starting log
            → IfOk result (AdvanceGives (rules_by self.old.charter) starting log self.new) }
        ensures can_leave { (next : Option Waiting) → result ≡ Ok (Goes next)
            → IfSome next CanLeave }
        ensures waiting { (next : Option Waiting) → result ≡ Ok (Goes next)
            → cons_option next self.new.waiting ≡ self.old.waiting }
        ensures entries { self.new.entries ≡ self.old.entries }
        ensures charter { self.new.charter ≡ self.old.charter }
        ensures shows { self.new.views.shows ≡ self.old.views.shows }
        ensures steps { (starting : List StartWord) (log : List Entry)
            → IsCatchingUp (Some x) self.old starting log
            → IfOk result (λ advance. steps.new
            + debt_by S.Compared.price S.most_touched advance self.new log
            ≤ steps.old
            + debt S.Compared.price S.most_touched (with_first (Some x) self.old) log) }
    {
        match self.replay.judge(&mut self.words, x, steps)? {
            Outcome::Goes => Ok(Advance::Goes(self.queue.leave(steps))),
            Outcome::Faults(why) => {
                let line = self.started + x.position() + 2;
                Ok(Advance::Stops(Verdict::Violation { line, why }))
            }
        }
    }
}

/// The words at the start, and what the specification's state shows there. They are compared by what
/// was told nothing yet.
fn first_words<S: Spec>(
    alloc: Global,
    header: Header,
    start: &[StartWord],
    words: &[u64],
    spec: &S,
) -> Result<Words<S::Compared>, AllocError>
    requires spec_header { (rules_by (S.charter spec.now)).header ≡ header }
    requires follows { do_follow header None start.now ≡ true }
    requires words { words.now ≡ words_at_start header start.now }
    ensures words { IfOk result (λ w. HasWords w.shadow w.inner start.now []) }
    ensures header { IfOk result (λ w. w.shadow.header ≡ header) }
    ensures views_header { IfOk result (λ w. w.views.header ≡ header) }
    ensures shows { IfOk result
        (λ w. view_by w.views.shows ≡ (rules_by (S.charter spec.now)).view) }
    ensures named { IfOk result (λ w. w.views.shows ≡ by_rules (S.charter spec.now)) }
    ensures first { IfOk result (λ w. w.views.first ≡ words.now) }
    ensures since { IfOk result (λ w. w.views.since ≡ []) }
    ensures begun { IfOk result (λ w. w.views.begun ≡ 0) }
    ensures specified { IfOk result
        (λ w. w.views.specified ≡ (rules_by (S.charter spec.now)).shown (S.state spec.now)) }
    ensures sound { IfOk result (λ w. w.views.refused ≡ false) }
    ensures pending { IfOk result (λ w. w.views.pending
        ≡ start_cost (S.Compared.price w.views.shows) start.now) }
    ensures rebuilt { IfOk result (λ w. shadow_owed w.shadow ≡ 0) }
{
    let changed = words_of(alloc, start)?;
    let state = spec.view(alloc)?;
    let compared = spec.compared(alloc)?;
    Words::new(alloc, header, words, changed, &state, compared)
}

/// A count, with one more if this is true.
fn counted(count: u64, more: bool) -> u64
    requires { count + 1 < 2 ^ 64 }
    ensures { result ≡ count + (if more then 1 else 0) }
{
    if more { count + 1 } else { count }
}

/// Whether an entry of this kind commits.
fn is_commit(kind: Kind) -> bool
    ensures { result ≡ is_commit kind }
{
    matches!(kind, Kind::Commit | Kind::BlockCommit)
}
