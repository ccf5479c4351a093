//! The words at the commits that wait, and what they show.

ghost use Rattle.std.specs.Prelude.{◌≡◌, ◌<◌, ◌≤◌, ◌^◌, ◌+◌, ◌*◌, ◌++◌, ℕ, false, List, [], ◌∷◌};
ghost use Rattle.std.specs.Prelude.{length, map, take, drop, sum_by, replicate, Some, if◌then◌else◌};
ghost use Rattle.std.specs.Prelude.{slice_set, slice_index, IfOk, OnOk, vec_len, vec_capacity, All};
ghost use Rattle.vyrd_base.specs.Rules.{rules_by};
ghost use Rattle.vyrd_base.specs.Amounts.{first_difference as least_difference};
ghost use Rattle.std.specs.Result.{is_err, is_ok};
ghost use Rattle.vyrd_base.specs.Layout.{plain_words};
ghost use Rattle.vyrd_shadow.specs.Blocks.{with_writes, AreInRange};
ghost use Rattle.vyrd_words.specs.Costs.{pending_for};
ghost use Rattle.vyrd_words.specs.Cuts.{first_with, with_part, begun_with, written};
ghost use Rattle.vyrd_spec.specs.Touching.{with_touched};
ghost use Rattle.vyrd_view.specs.Comparing.{AgreeElsewhere};
ghost use Rattle.vyrd_view.specs.Known.{IsNew, view_by};

use crate::counts::Counts;
use crate::write::Write;
use std::alloc::{AllocError, Global};
use std::collections::VecDeque;
use std::marker::{Brand, Model};
use std::sync::ledger::{Blank, Ledger};
use vyrd_base::{Header, Steps, View};
use vyrd_spec::Spec;
use vyrd_view::Compare;

/// How many changed words are kept before they are compared, so that their list doesn't grow with
/// the log.
const MOST_CHANGED: usize = 1024;

/// The words at the last commit that was compared, and the writes that took effect since then, up
/// to each commit that waits and after the last of them.
///
/// The only error of its calls is that memory has run out. Nothing is known of the words after it
/// but what a clause says.
#[derive(Drop)]
pub(crate) struct Views<C: Compare> {
    header: Header,
    words: Vec<u64>,
    /// How many of the writes took effect between each commit that waits and the commit before it,
    /// and the late writes of each, which aren't among the writes: those of a block take effect at
    /// the lone commit inside it, if there is one, and aren't known before the block's end.
    counts: Counts,
    writes: VecDeque<Write>,
    /// How many of the writes took effect after the last commit.
    tail: usize,
    /// Which words have changed since they were compared.
    changed: Vec<u32>,
    compared: C,
}

impl<C: Compare> Model for Views<C> {
    ghost use Rattle.std.specs.Prelude.{◌++◌};
    ghost use Rattle.vyrd_words.specs.Costs.{pending_for};
    ghost use Rattle.vyrd_words.specs.Counts.{late_writes};
    ghost use Rattle.vyrd_words.specs.Cuts.{Cuts, first_of, since_of, begun_of};
    ghost use Rattle.vyrd_words.specs.Cuts.{AreCuts, AreKnown};

    ghost Value = { Cuts };

    ghost view = { λ v. record {
      header = v.header;
      base = v.words.items;
      first = first_of v.words.items v.counts v.writes.items;
      since = since_of v.counts v.writes.items;
      begun = begun_of v.counts v.writes.items;
      shows = (C.known v.compared).shows;
      compared = (C.known v.compared).words;
      specified = (C.known v.compared).specified;
      refused = (C.known v.compared).refused;
      pending = pending_for (C.price (C.known v.compared).shows) v.changed.items
          (v.writes.items ++ late_writes v.counts);
    } };

    ghost invariant = { λ v. AreCuts v.header v.words.items v.counts v.writes.items v.tail
        × AreKnown v.header v.words.items v.changed.items (C.known v.compared) };
}

impl<C: Compare> Views<C> {
    /// These are the words now; all but the changed ones are 0. No commit waits. They are compared
    /// by what was told nothing yet.
    pub fn new(
        alloc: Global,
        header: Header,
        words: &[u64],
        changed: Vec<u32>,
        compared: C,
    ) -> Result<Views<C>, AllocError>
        requires all { length words.now ≡ plain_words header }
        requires values { (w : ℕ) → slice_index words.now w < 2 ^ 63 }
        requires changed { All (λ w. w < plain_words header) changed.items }
        requires elsewhere { AgreeElsewhere (replicate (plain_words header) 0) words.now
            changed.items }
        requires compared { IsNew (plain_words header) (C.known compared) }
        ensures header { IfOk result (λ v. v.header ≡ header) }
        ensures shows { IfOk result (λ v. v.shows ≡ (C.known compared).shows) }
        ensures first { IfOk result (λ v. v.first ≡ words.now) }
        ensures since { IfOk result (λ v. v.since ≡ []) }
        ensures begun { IfOk result (λ v. v.begun ≡ 0) }
        ensures specified { IfOk result (λ v. v.specified ≡ []) }
        ensures sound { IfOk result (λ v. v.refused ≡ false) }
        ensures pending { IfOk result (λ v. v.pending
            ≡ pending_for (C.price (C.known compared).shows) changed.items []) }
    {
        Ok(Views {
            header,
            words: Vec::from_slice(alloc, words)?,
            counts: Counts::new(alloc),
            writes: VecDeque::new(alloc),
            tail: 0,
            changed,
            compared,
        })
    }

    /// The specification has these amounts at the start.
    pub fn specify_start(&mut self, state: &View) -> Result<(), AllocError>
        requires sound { self.old.refused ≡ false }
        requires none { self.old.specified ≡ [] }
        ensures specified { OnOk result (self.new.specified ≡ state.now) }
        ensures sound { OnOk result (self.new.refused ≡ false) }
        ensures first { self.new.first ≡ self.old.first }
        ensures since { self.new.since ≡ self.old.since }
        ensures begun { self.new.begun ≡ self.old.begun }
        ensures header { self.new.header ≡ self.old.header }
        ensures shows { self.new.shows ≡ self.old.shows }
        ensures pending { self.new.pending ≡ self.old.pending }
    {
        tell_amounts::<C, Brand>(Blank::new(1), &mut self.compared, state)
    }

    /// A write takes effect. If no commit waits, it does so at once, and otherwise it waits too.
    #[inline(always)]
    pub fn effect<L: Ledger>(
        &mut self,
        word: u32,
        value: u64,
        steps: &mut Steps<L>,
    ) -> Result<(), AllocError>
        requires word { word < plain_words self.old.header }
        requires value { value < 2 ^ 63 }
        requires sound { self.old.refused ≡ false }
        ensures first { OnOk result
            (self.new.first ≡ first_with 0 ((word, value) ∷ []) self.old.first self.old.since) }
        ensures since { OnOk result
            (self.new.since ≡ with_part 0 ((word, value) ∷ []) self.old.since) }
        ensures begun { OnOk result (self.new.begun
            ≤ begun_with 0 ((word, value) ∷ []) self.old.begun self.old.since) }
        ensures specified { OnOk result (self.new.specified ≡ self.old.specified) }
        ensures sound { OnOk result (self.new.refused ≡ false) }
        ensures header { self.new.header ≡ self.old.header }
        ensures shows { self.new.shows ≡ self.old.shows }
        ensures steps { OnOk result (steps.new + self.new.pending
            ≤ steps.old + self.old.pending + C.price self.old.shows word + 3) }
        ensures most { steps.new
            ≤ steps.old + self.old.pending + C.price self.old.shows word + 3 }
    {
        if self.counts.is_empty() {
            self.take_effect(word, value, steps)
        } else {
            self.writes.push_back(Write::new(word, value))?;
            self.tail += 1;
            Ok(())
        }
    }

    /// A write takes effect at once, if no commit waits.
    #[inline(always)]
    fn take_effect<L: Ledger>(
        &mut self,
        word: u32,
        value: u64,
        steps: &mut Steps<L>,
    ) -> Result<(), AllocError>
        requires word { word < plain_words self.old.header }
        requires value { value < 2 ^ 63 }
        requires sound { self.old.refused ≡ false }
        requires none_waits { self.old.since ≡ [] }
        ensures first { OnOk result (self.new.first ≡ slice_set self.old.first word value) }
        ensures since { OnOk result (self.new.since ≡ []) }
        ensures begun { OnOk result (self.new.begun ≡ 0) }
        ensures specified { OnOk result (self.new.specified ≡ self.old.specified) }
        ensures sound { OnOk result (self.new.refused ≡ false) }
        ensures header { self.new.header ≡ self.old.header }
        ensures shows { self.new.shows ≡ self.old.shows }
        ensures steps { OnOk result (steps.new + self.new.pending
            ≤ steps.old + self.old.pending + C.price self.old.shows word + 3) }
        ensures most { steps.new
            ≤ steps.old + self.old.pending + C.price self.old.shows word + 3 }
    {
        self.changed.reserve(self.tail + 1)?;
        catch_up(
            &mut self.words,
            &mut self.changed,
            &mut self.writes,
            self.tail,
            steps,
        );
        self.tail = 0;
        self.words[word as usize] = value;
        note(&mut self.changed, word);
        if self.changed.len() >= MOST_CHANGED {
            return self.compare_words(steps);
        }
        Ok(())
    }

    /// The changed words have these values at a commit already, after which that many lists of
    /// writes stand: their writes take effect there, after all others. If no such commit waits,
    /// nothing happens. It takes time for each of the words, and for each commit since.
    pub fn late<L: Ledger>(
        &mut self,
        behind: usize,
        changed: &[u32],
        words: &[u64],
        steps: &mut Steps<L>,
    ) -> Result<(), AllocError>
        requires some { 0 < behind }
        requires changed { All (λ w. w < plain_words self.old.header) changed.now }
        requires all { length words.now ≡ plain_words self.old.header }
        requires values { (w : ℕ) → slice_index words.now w < 2 ^ 63 }
        ensures first { OnOk result (self.new.first
            ≡ first_with behind (written words.now changed.now) self.old.first self.old.since) }
        ensures since { OnOk result
            (self.new.since ≡ with_part behind (written words.now changed.now) self.old.since) }
        ensures begun { OnOk result (self.new.begun
            ≡ begun_with behind (written words.now changed.now) self.old.begun self.old.since) }
        ensures specified { self.new.specified ≡ self.old.specified }
        ensures sound { self.new.refused ≡ self.old.refused }
        ensures header { self.new.header ≡ self.old.header }
        ensures shows { self.new.shows ≡ self.old.shows }
        ensures steps { steps.new ≤ steps.old + length changed.now + 2 * behind }
        ensures pending { OnOk result (self.new.pending ≤ self.old.pending
            + sum_by (C.price self.old.shows) changed.now
            + 2 * length changed.now) }
    {
        if behind > self.counts.len() {
            return Ok(());
        }
        let index = self.counts.len() - behind;
        self.counts.add_late(index, changed, words, steps)?;
        Ok(())
    }

    /// A commit waits from here on.
    #[inline(always)]
    pub fn cut(&mut self) -> Result<(), AllocError>
        ensures first { OnOk result (self.new.first ≡ self.old.first) }
        ensures since { OnOk result (self.new.since ≡ self.old.since ++ [] ∷ []) }
        ensures begun { OnOk result (self.new.begun ≡ self.old.begun) }
        ensures specified { self.new.specified ≡ self.old.specified }
        ensures sound { self.new.refused ≡ self.old.refused }
        ensures header { self.new.header ≡ self.old.header }
        ensures shows { self.new.shows ≡ self.old.shows }
        ensures pending { self.new.pending ≡ self.old.pending }
    {
        self.counts.push(self.tail)?;
        self.tail = 0;
        Ok(())
    }

    /// The first commit no longer waits: its words are those to be compared.
    #[inline(always)]
    fn advance<L: Ledger>(&mut self, steps: &mut Steps<L>) -> Result<(), AllocError>
        ensures base { (part : List (ℕ × ℕ)) (rest : List (List (ℕ × ℕ)))
            → self.old.since ≡ part ∷ rest
            → OnOk result (self.new.base ≡ self.old.first) }
        ensures first { (part : List (ℕ × ℕ)) (rest : List (List (ℕ × ℕ)))
            → self.old.since ≡ part ∷ rest
            → OnOk result (self.new.first ≡ with_writes self.old.first part) }
        ensures since { (part : List (ℕ × ℕ)) (rest : List (List (ℕ × ℕ)))
            → self.old.since ≡ part ∷ rest
            → OnOk result (self.new.since ≡ rest) }
        ensures begun { (part : List (ℕ × ℕ)) (rest : List (List (ℕ × ℕ)))
            → self.old.since ≡ part ∷ rest
            → OnOk result (self.new.begun ≡ length part) }
        ensures specified { self.new.specified ≡ self.old.specified }
        ensures sound { self.new.refused ≡ self.old.refused }
        ensures header { self.new.header ≡ self.old.header }
        ensures shows { self.new.shows ≡ self.old.shows }
        ensures steps { OnOk result
            (steps.new + self.new.pending ≤ steps.old + self.old.pending) }
        ensures most { steps.new ≤ steps.old + self.old.pending }
    {
        let Some(count) = self.counts.first() else {
            return Ok(());
        };
        self.changed.reserve(count)?;
        let late = self.counts.pop();
        catch_up(
            &mut self.words,
            &mut self.changed,
            &mut self.writes,
            count,
            steps,
        );
        take_late(&mut self.words, &mut self.changed, &late, steps)?;
        Ok(())
    }

    /// The changed words are compared.
    fn compare_words<L: Ledger>(&mut self, steps: &mut Steps<L>) -> Result<(), AllocError>
        requires sound { self.old.refused ≡ false }
        ensures first { self.new.first ≡ self.old.first }
        ensures since { self.new.since ≡ self.old.since }
        ensures begun { self.new.begun ≡ self.old.begun }
        ensures compared { OnOk result (self.new.compared ≡ self.old.base) }
        ensures specified { OnOk result (self.new.specified ≡ self.old.specified) }
        ensures sound { OnOk result (self.new.refused ≡ false) }
        ensures header { self.new.header ≡ self.old.header }
        ensures shows { self.new.shows ≡ self.old.shows }
        ensures steps { OnOk result
            (steps.new + self.new.pending ≤ steps.old + self.old.pending + 2) }
        ensures most { steps.new ≤ steps.old + self.old.pending + 2 }
    {
        self.compared
            .words_changed(&self.words, &self.changed, steps)?;
        forget(&mut self.changed, steps);
        Ok(())
    }

    /// Compares what the words at the first commit that waits show with the specification's state
    /// after it: the least key where they differ. That commit no longer waits then. The state
    /// differs from that of the last comparison in the touched keys alone.
    #[inline(always)]
    pub fn difference<S: Spec, L: Ledger>(
        &mut self,
        spec: &S,
        steps: &mut Steps<L>,
    ) -> Result<Option<u64>, AllocError>
        requires sound { self.old.refused ≡ false }
        ensures difference { (part : List (ℕ × ℕ)) (rest : List (List (ℕ × ℕ)))
            → self.old.since ≡ part ∷ rest
            → with_touched (S.touched spec.now)
            ((rules_by (S.charter spec.now)).shown (S.state spec.now)) self.old.specified
            ≡ (rules_by (S.charter spec.now)).shown (S.state spec.now)
            → IfOk result (λ found. found
            ≡ least_difference (view_by self.old.shows self.old.first)
            ((rules_by (S.charter spec.now)).shown (S.state spec.now))) }
        ensures first { (part : List (ℕ × ℕ)) (rest : List (List (ℕ × ℕ)))
            → self.old.since ≡ part ∷ rest
            → OnOk result (self.new.first ≡ with_writes self.old.first part) }
        ensures since { (part : List (ℕ × ℕ)) (rest : List (List (ℕ × ℕ)))
            → self.old.since ≡ part ∷ rest
            → OnOk result (self.new.since ≡ rest) }
        ensures begun { (part : List (ℕ × ℕ)) (rest : List (List (ℕ × ℕ)))
            → self.old.since ≡ part ∷ rest
            → OnOk result (self.new.begun ≡ length part) }
        ensures specified { OnOk result
            (self.new.specified
            ≡ with_touched (S.touched spec.now)
            ((rules_by (S.charter spec.now)).shown (S.state spec.now)) self.old.specified) }
        ensures sound { OnOk result (self.new.refused ≡ false) }
        ensures header { self.new.header ≡ self.old.header }
        ensures shows { self.new.shows ≡ self.old.shows }
        ensures steps { OnOk result (steps.new + self.new.pending
            ≤ steps.old + self.old.pending + 2 * length (S.touched spec.now) + 3) }
        ensures most { steps.new
            ≤ steps.old + self.old.pending + 2 * length (S.touched spec.now) + 3 }
    {
        self.advance(steps)?;
        self.compare_words(steps)?;
        self.specify(spec, steps)?;
        steps.tick();
        Ok(self.compared.first_difference())
    }

    /// The specification has its amounts of the touched keys now.
    #[inline(always)]
    fn specify<S: Spec, L: Ledger>(
        &mut self,
        spec: &S,
        steps: &mut Steps<L>,
    ) -> Result<(), AllocError>
        requires sound { self.old.refused ≡ false }
        ensures specified { OnOk result
            (self.new.specified
            ≡ with_touched (S.touched spec.now)
            ((rules_by (S.charter spec.now)).shown (S.state spec.now)) self.old.specified) }
        ensures sound { OnOk result (self.new.refused ≡ false) }
        ensures first { self.new.first ≡ self.old.first }
        ensures since { self.new.since ≡ self.old.since }
        ensures begun { self.new.begun ≡ self.old.begun }
        ensures compared { OnOk result (self.new.compared ≡ self.old.compared) }
        ensures header { self.new.header ≡ self.old.header }
        ensures shows { self.new.shows ≡ self.old.shows }
        ensures pending { self.new.pending ≡ self.old.pending }
        ensures steps { steps.new ≤ steps.old + 2 * length (S.touched spec.now) }
    {
        tell_touched(&mut self.compared, spec, steps)
    }
}

/// The comparison learns all amounts that a state shows, with a count of its own.
fn tell_amounts<C: Compare, L: Ledger>(
    blank: Blank,
    compared: &mut C,
    state: &View,
) -> Result<(), AllocError>
    requires name { blank.name ≡ L.name }
    requires parts { blank.parts ≡ L.parts }
    requires some { 0 < blank.parts }
    requires sound { (C.known compared.old).refused ≡ false }
    requires none { (C.known compared.old).specified ≡ [] }
    ensures ok { OnOk result
        (C.known compared.new ≡ record (C.known compared.old) { specified = state.now }) }
    ensures refused { (C.known compared.new).refused ≡ is_err result }
    ensures shows { (C.known compared.new).shows ≡ (C.known compared.old).shows }
    ensures count { (C.known compared.new).count ≡ (C.known compared.old).count }
{
    let mut steps = Steps::<L>::new(blank);
    for (key, amount) in state.pairs() {
        compared.spec_changed(*key, *amount, &mut steps)?;
    }
    Ok(())
}

/// The comparison learns the amounts of the keys that the last step touched. For each of them one
/// step asks for the amount, and one tells it.
#[inline(always)]
fn tell_touched<C: Compare, S: Spec, L: Ledger>(
    compared: &mut C,
    spec: &S,
    steps: &mut Steps<L>,
) -> Result<(), AllocError>
    requires sound { (C.known compared.old).refused ≡ false }
    ensures ok { OnOk result (C.known compared.new
        ≡ record (C.known compared.old) {
          specified = with_touched (S.touched spec.now)
              ((rules_by (S.charter spec.now)).shown (S.state spec.now))
              (C.known compared.old).specified;
        }) }
    ensures refused { (C.known compared.new).refused ≡ is_err result }
    ensures shows { (C.known compared.new).shows ≡ (C.known compared.old).shows }
    ensures count { (C.known compared.new).count ≡ (C.known compared.old).count }
    ensures steps { steps.new ≤ steps.old + 2 * length (S.touched spec.now) }
{
    for key in spec.touched() {
        steps.tick();
        compared.spec_changed(*key, spec.amount(*key), steps)?;
    }
    Ok(())
}

/// The first writes take effect, and no longer wait. Mostly there are none.
#[inline(always)]
fn catch_up<L: Ledger>(
    words: &mut Vec<u64>,
    changed: &mut Vec<u32>,
    writes: &mut VecDeque<Write>,
    count: usize,
    steps: &mut Steps<L>,
)
    requires count { count ≤ length writes.old.items }
    requires in_range { AreInRange (vec_len words.old) writes.old.items }
    requires room { vec_len changed.old + count ≤ vec_capacity changed.old }
    ensures words { words.new.items ≡ with_writes words.old.items (take count writes.old.items) }
    ensures changed { changed.new.items
        ≡ changed.old.items ++ map (λ write. write.0) (take count writes.old.items) }
    ensures writes { writes.new.items ≡ drop count writes.old.items }
    ensures all { vec_len words.new ≡ vec_len words.old }
    ensures capacity { vec_capacity changed.old ≤ vec_capacity changed.new }
    ensures steps { steps.new ≡ steps.old + count }
{
    if count != 0 {
        write_first(words, changed, writes, count, steps);
    }
}

/// The first writes take effect, however many they are.
fn write_first<L: Ledger>(
    words: &mut Vec<u64>,
    changed: &mut Vec<u32>,
    writes: &mut VecDeque<Write>,
    count: usize,
    steps: &mut Steps<L>,
)
    requires count { count ≤ length writes.old.items }
    requires in_range { AreInRange (vec_len words.old) writes.old.items }
    requires room { vec_len changed.old + count ≤ vec_capacity changed.old }
    ensures words { words.new.items ≡ with_writes words.old.items (take count writes.old.items) }
    ensures changed { changed.new.items
        ≡ changed.old.items ++ map (λ write. write.0) (take count writes.old.items) }
    ensures writes { writes.new.items ≡ drop count writes.old.items }
    ensures all { vec_len words.new ≡ vec_len words.old }
    ensures capacity { vec_capacity changed.old ≤ vec_capacity changed.new }
    ensures steps { steps.new ≡ steps.old + count }
{
    for _ in 0..count {
        steps.tick();
        if let Some(write) = writes.pop_front() {
            let word = write.word();
            words[word as usize] = write.value();
            note(changed, word);
        }
    }
}

/// The late writes of a commit take effect. Mostly there are none. An error, that memory has run out,
/// leaves the words as they were.
#[inline(always)]
fn take_late<L: Ledger>(
    words: &mut Vec<u64>,
    changed: &mut Vec<u32>,
    late: &[Write],
    steps: &mut Steps<L>,
) -> Result<(), AllocError>
    requires in_range { AreInRange (vec_len words.old) late.now }
    ensures words { words.new.items
        ≡ (if is_ok result then with_writes words.old.items late.now else words.old.items) }
    ensures changed { changed.new.items ≡ (if is_ok result
        then changed.old.items ++ map (λ write. write.0) late.now
        else changed.old.items) }
    ensures all { vec_len words.new ≡ vec_len words.old }
    ensures steps { steps.new ≤ steps.old + length late.now }
{
    if late.is_empty() {
        return Ok(());
    }
    changed.reserve(late.len())?;
    write_late(words, changed, late, steps);
    Ok(())
}

/// The late writes take effect, however many they are.
fn write_late<L: Ledger>(
    words: &mut Vec<u64>,
    changed: &mut Vec<u32>,
    late: &[Write],
    steps: &mut Steps<L>,
)
    requires in_range { AreInRange (vec_len words.old) late.now }
    requires room { vec_len changed.old + length late.now ≤ vec_capacity changed.old }
    ensures words { words.new.items ≡ with_writes words.old.items late.now }
    ensures changed { changed.new.items ≡ changed.old.items ++ map (λ write. write.0) late.now }
    ensures all { vec_len words.new ≡ vec_len words.old }
    ensures steps { steps.new ≡ steps.old + length late.now }
{
    for write in late {
        steps.tick();
        let word = write.word();
        words[word as usize] = write.value();
        note(changed, word);
    }
}

/// One more word has changed. There is room for it.
#[inline(always)]
fn note(changed: &mut Vec<u32>, word: u32)
    requires { vec_len changed.old < vec_capacity changed.old }
    ensures items { changed.new.items ≡ changed.old.items ++ word ∷ [] }
    ensures len { vec_len changed.new ≡ vec_len changed.old + 1 }
    ensures capacity { vec_capacity changed.old ≤ vec_capacity changed.new }
{
    changed.push_reserved(word);
}

/// Drops the changed words, with a step for each of them.
#[inline(always)]
fn forget<L: Ledger>(changed: &mut Vec<u32>, steps: &mut Steps<L>)
    ensures none { changed.new.items ≡ [] }
    ensures steps { steps.new ≡ steps.old + length changed.old.items }
{
    steps.add(changed.len());
    changed.clear();
}
