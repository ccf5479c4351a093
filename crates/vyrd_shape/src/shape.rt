//! The rules of shape, one entry at a time.

ghost use Rattle.std.specs.Prelude.{◌≡◌, ◌<◌, ◌≤◌, ◌+◌, ◌^◌, true, false, List, [], ◌∷◌, length};
ghost use Rattle.std.specs.Prelude.{Some, None, is_some, IfOk, IfErr, IfNone, OnOk, OnErr};
ghost use Rattle.std.specs.Prelude.{MatchResult};
ghost use Rattle.std.specs.List.{list_any};
ghost use Rattle.vyrd_base.specs.declared.log.Entry.{Entry};
ghost use Rattle.vyrd_base.specs.Layout.{plain_words};
ghost use Rattle.vyrd_base.specs.Shape.{broken_rule, checks_of, first_broken, is_raced};
ghost use Rattle.vyrd_base.specs.Verdicts.{is_call_open};
ghost use Rattle.vyrd_base.specs.Words.{is_passed};
ghost use Rattle.vyrd_shape.specs.Costs.{owed, adding_cost};
ghost use Rattle.vyrd_shape.specs.Phases.{phase_of};
ghost use Rattle.vyrd_shape.specs.Holding.{IsWordBelow};
ghost use Rattle.vyrd_shape.specs.Following.{HasFollowed, IsInRange};
ghost use Rattle.vyrd_shape.specs.Stamps.{effect_stamp};

use crate::commits::Commits;
use crate::holders::Holders;
use crate::phase::Phase;
use crate::stamps::Stamps;
use std::alloc::{AllocError, Global};
use std::error::Error;
use std::fmt;
use std::marker::{Brand, Model};
use std::sync::ledger::{Blank, Ledger};
use vyrd_base::{Entry, Header, Kind, Rule, Steps};

/// A rule of shape that an entry, or the end of the log, breaks.
#[derive(Clone, Copy, Debug, PartialEq, Eq)]
pub struct ShapeFault {
    /// The first of the rules that is broken, in their order.
    pub rule: Rule,
}

impl fmt::Display for ShapeFault {
    fn fmt<W: fmt::Write>(&self, f: &mut fmt::Formatter<W>) -> fmt::Result {
        write!(f, "{:?}", self.rule)
    }
}

impl Error for ShapeFault {}

/// What the rules of shape need to know of the entries so far: for each caller what it is in the
/// middle of, for each word which caller's open block has written it, and what came first, a lone
/// commit inside a block or the last effect on a word.
#[derive(Drop)]
pub struct Shape {
    header: Header,
    /// By caller.
    phases: Vec<Phase>,
    holders: Holders,
    commits: Commits,
    /// Of no word in version 1, in which no block has a lone commit inside it.
    stamps: Stamps,
}

impl Model for Shape {
    ghost use Rattle.vyrd_shape.specs.Following.{ShapeKept, IsComplete};

    ghost Value = { ShapeKept };

    ghost view = { λ s. record {
      header = s.header;
      phases = s.phases.items;
      holders = s.holders.by_word;
      commits = s.commits;
      stamps = s.stamps;
    } };

    ghost invariant = { λ s. IsComplete s.header s.phases.items s.holders s.commits s.stamps };
}

impl Shape {
    /// A shape that has followed no entry. All of its memory is taken here, in proportion to the
    /// words and the callers.
    pub fn new(alloc: Global, header: Header) -> Result<Shape, AllocError>
        ensures followed { IfOk result (λ s. HasFollowed s []) }
        ensures header { IfOk result (λ s. s.header ≡ header) }
        ensures owed { IfOk result (λ s. owed s ≡ 0) }
    {
        let words = header.plain_words();
        Ok(Shape {
            header,
            phases: vec![in alloc; Phase::start(); header.callers() as usize]?,
            holders: Holders::new(alloc, words, header.callers())?,
            commits: Commits::new(alloc, header.callers())?,
            stamps: Stamps::new(alloc, if header.version() == 1 { 0 } else { words })?,
        })
    }

    /// Follows one more entry, or says which rule it breaks first, and then the entry isn't
    /// followed. A block's end takes time linear in the number of words that the block has written,
    /// and any other entry takes constant time. No memory is taken.
    #[inline(always)]
    pub fn step(&mut self, entry: &Entry) -> Result<(), ShapeFault>
        ensures ok { (earlier : List Entry) → HasFollowed self.old earlier
            → OnOk result ((broken_rule self.old.header earlier entry.now ≡ None)
            × HasFollowed self.new (entry.now ∷ earlier)) }
        ensures fault { (earlier : List Entry) → HasFollowed self.old earlier
            → IfErr result (λ f. broken_rule self.old.header earlier entry.now ≡ Some f.rule) }
        ensures refused { OnErr result (self.new ≡ self.old) }
        ensures header { self.new.header ≡ self.old.header }
    {
        step_alone::<Brand>(Blank::new(1), self, entry)
    }

    /// The same, with its steps counted. One step is an entry, or a word that a block's end lets go
    /// of, which is owed from the write on that held it. So each entry pays two, and a log costs no
    /// more than that for each of its entries. If 2^64 commits stood inside blocks, stamps are
    /// numbered again, and that costs more; but no log of less than 2^63 entries has so many.
    #[inline(always)]
    pub fn step_counted<L: Ledger>(
        &mut self,
        entry: &Entry,
        steps: &mut Steps<L>,
    ) -> Result<(), ShapeFault>
        ensures ok { (earlier : List Entry) → HasFollowed self.old earlier
            → OnOk result ((broken_rule self.old.header earlier entry.now ≡ None)
            × HasFollowed self.new (entry.now ∷ earlier)) }
        ensures fault { (earlier : List Entry) → HasFollowed self.old earlier
            → IfErr result (λ f. broken_rule self.old.header earlier entry.now ≡ Some f.rule) }
        ensures refused { OnErr result (self.new ≡ self.old) }
        ensures header { self.new.header ≡ self.old.header }
        ensures steps { (earlier : List Entry) → HasFollowed self.old earlier
            → length earlier < 2 ^ 63
            → steps.new + owed self.new ≤ steps.old + owed self.old + 2 }
        ensures most { steps.new + owed self.new
            ≤ steps.old + owed self.old + 2 + adding_cost self.old.commits self.old.stamps }
    {
        steps.tick();
        match self.broken_by(entry) {
            Some(rule) => Err(ShapeFault { rule }),
            None => {
                self.follow(entry, steps);
                Ok(())
            }
        }
    }

    /// Whether the log may end here: no execution is open. Otherwise the fault is `CallOpen`. It
    /// takes time linear in the number of callers.
    pub fn end(&self) -> Result<(), ShapeFault>
        ensures { (earlier : List Entry) → HasFollowed self.now earlier
            → MatchResult result (λ _. is_call_open self.now.header earlier ≡ false)
            (λ f. (is_call_open self.now.header earlier ≡ true) × (f.rule ≡ Rule.CallOpen)) }
    {
        end_alone::<Brand>(Blank::new(1), self)
    }

    /// The same, with its steps counted: one for each caller.
    pub fn end_counted<L: Ledger>(&self, steps: &mut Steps<L>) -> Result<(), ShapeFault>
        ensures end { (earlier : List Entry) → HasFollowed self.now earlier
            → MatchResult result (λ _. is_call_open self.now.header earlier ≡ false)
            (λ f. (is_call_open self.now.header earlier ≡ true) × (f.rule ≡ Rule.CallOpen)) }
        ensures steps { steps.new ≡ steps.old + self.now.header.callers }
    {
        if is_any_open(&self.phases, steps) {
            Err(ShapeFault {
                rule: Rule::CallOpen,
            })
        } else {
            Ok(())
        }
    }

    /// The first rule that the entry breaks.
    #[inline(always)]
    fn broken_by(&self, entry: &Entry) -> Option<Rule>
        ensures rule { (earlier : List Entry) → HasFollowed self.now earlier
            → result ≡ broken_rule self.now.header earlier entry.now }
        ensures in_range { IfNone result (IsInRange self.now.header entry.now) }
    {
        if entry.caller >= self.header.callers() {
            return Some(Rule::CallerRange);
        }
        let phase = self.phases[entry.caller as usize];
        self.broken_in(phase, entry)
    }

    /// The first rule after that of the callers that the entry of a caller in this phase breaks.
    #[inline(always)]
    fn broken_in(&self, phase: Phase, entry: &Entry) -> Option<Rule>
        requires { entry.now.caller < self.now.header.callers }
        ensures rule { (earlier : List Entry) → HasFollowed self.now earlier
            → phase ≡ phase_of entry.now.caller earlier
            → result
            ≡ first_broken (checks_of self.now.header earlier entry.now.caller entry.now.kind) }
        ensures word { IfNone result (IsWordBelow (plain_words self.now.header) entry.now.kind) }
    {
        match entry.kind {
            Kind::Call(method, args) => phase.call_rule(self.header, method, args),
            Kind::Return(_) => phase.return_rule(),
            Kind::Write(word, value) => self.broken_by_write(phase, entry.caller, word, value),
            Kind::Commit => phase.commit_rule(self.header),
            Kind::BlockOpen => phase.open_rule(),
            Kind::BlockClose => phase.close_rule(),
            Kind::BlockCommit => phase.block_commit_rule(),
        }
    }

    /// The first rule that a write breaks, of a caller in this phase.
    #[inline(always)]
    fn broken_by_write(&self, phase: Phase, caller: u32, word: u32, value: u64) -> Option<Rule>
        requires { caller < self.now.header.callers }
        ensures rule { (earlier : List Entry) → HasFollowed self.now earlier
            → phase ≡ phase_of caller earlier
            → result
            ≡ first_broken (checks_of self.now.header earlier caller (Kind.Write word value)) }
        ensures word { IfNone result (word < plain_words self.now.header) }
    {
        let rule = phase.write_rule(self.header, word, value);
        if rule.is_none() && self.is_raced(phase, caller, word) {
            Some(Rule::BlockRaced)
        } else {
            rule
        }
    }

    /// Whether another caller holds the word, or it is passed for the caller, whose phase this is.
    #[inline(always)]
    fn is_raced(&self, phase: Phase, caller: u32, word: u32) -> bool
        requires caller { caller < self.now.header.callers }
        requires word { word < plain_words self.now.header }
        ensures { (earlier : List Entry) → HasFollowed self.now earlier
            → phase ≡ phase_of caller earlier
            → result ≡ is_raced self.now.header caller word earlier }
    {
        self.holders.is_held_by_another(caller, word) || self.is_passed(phase, caller, word)
    }

    /// Whether the word is passed for the caller, whose phase this is.
    #[inline(always)]
    fn is_passed(&self, phase: Phase, caller: u32, word: u32) -> bool
        requires caller { caller < self.now.header.callers }
        requires word { word < plain_words self.now.header }
        ensures { (earlier : List Entry) → HasFollowed self.now earlier
            → phase ≡ phase_of caller earlier → result ≡ is_passed caller word earlier }
    {
        phase.inner && self.stamps.is_later(word, self.commits.of(caller))
    }

    /// Follows an entry that breaks no rule.
    #[inline(always)]
    fn follow<L: Ledger>(&mut self, entry: &Entry, steps: &mut Steps<L>)
        requires in_range { IsInRange self.old.header entry.now }
        ensures followed { (earlier : List Entry) → HasFollowed self.old earlier
            → broken_rule self.old.header earlier entry.now ≡ None
            → HasFollowed self.new (entry.now ∷ earlier) }
        ensures header { self.new.header ≡ self.old.header }
        ensures most { steps.new + owed self.new
            ≤ steps.old + owed self.old + 1 + adding_cost self.old.commits self.old.stamps }
    {
        let place = entry.caller as usize;
        let phase = self.phases[place];
        let stamp = self.effect_stamp(phase, entry.caller);
        self.holders
            .follow(phase.in_block, entry, stamp, &mut self.stamps, steps);
        if phase.commits_inside(entry.kind) {
            self.commits.add(entry.caller, &mut self.stamps, steps);
        }
        self.phases[place] = phase.after(entry.kind);
    }

    /// When the writes take effect that do so once an entry of the caller, whose phase this is,
    /// stands: at the lone commit inside its block, and if there is none, at that entry.
    #[inline(always)]
    fn effect_stamp(&self, phase: Phase, caller: u32) -> u64
        requires { caller < self.now.header.callers }
        ensures { result ≡ effect_stamp self.now.commits phase.inner caller }
    {
        if phase.inner {
            self.commits.of(caller)
        } else {
            self.commits.next()
        }
    }
}

/// Follows an entry with a count of its own.
#[inline(always)]
fn step_alone<L: Ledger>(blank: Blank, shape: &mut Shape, entry: &Entry) -> Result<(), ShapeFault>
    requires name { blank.name ≡ L.name }
    requires parts { blank.parts ≡ L.parts }
    requires some { 0 < blank.parts }
    ensures ok { (earlier : List Entry) → HasFollowed shape.old earlier
        → OnOk result ((broken_rule shape.old.header earlier entry.now ≡ None)
        × HasFollowed shape.new (entry.now ∷ earlier)) }
    ensures fault { (earlier : List Entry) → HasFollowed shape.old earlier
        → IfErr result (λ f. broken_rule shape.old.header earlier entry.now ≡ Some f.rule) }
    ensures refused { OnErr result (shape.new ≡ shape.old) }
    ensures header { shape.new.header ≡ shape.old.header }
{
    let mut steps = Steps::<L>::new(blank);
    shape.step_counted(entry, &mut steps)
}

/// Ends with a count of its own.
fn end_alone<L: Ledger>(blank: Blank, shape: &Shape) -> Result<(), ShapeFault>
    requires name { blank.name ≡ L.name }
    requires parts { blank.parts ≡ L.parts }
    requires some { 0 < blank.parts }
    ensures { (earlier : List Entry) → HasFollowed shape.now earlier
        → MatchResult result (λ _. is_call_open shape.now.header earlier ≡ false)
        (λ f. (is_call_open shape.now.header earlier ≡ true) × (f.rule ≡ Rule.CallOpen)) }
{
    let mut steps = Steps::<L>::new(blank);
    shape.end_counted(&mut steps)
}

/// Whether one of the callers has an open execution. It takes a step for each caller.
fn is_any_open<L: Ledger>(phases: &[Phase], steps: &mut Steps<L>) -> bool
    ensures any { result ≡ list_any (λ phase. is_some phase.open_method) phases.now }
    ensures steps { steps.new ≡ steps.old + length phases.now }
{
    steps.add(phases.len());
    phases.iter().any(|phase| phase.open_method.is_some())
}
