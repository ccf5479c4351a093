//! What is known at a place of a front, on the way along it.

ghost use Rattle.std.specs.Prelude.{◌≡◌, ◌+◌, ◌<◌, ◌≤◌, [], length, take, IfOk, OnOk};
ghost use Rattle.std.specs.Prelude.{None, vec_len};
ghost use Rattle.vyrd_base.specs.Front.{first_break};
ghost use Rattle.vyrd_base.specs.Layout.{plain_words};
ghost use Rattle.vyrd_base.specs.Places.{newest_first};
ghost use Rattle.vyrd_base.specs.Rules.{rules_by};
ghost use Rattle.vyrd_base.specs.Starts.{words_at_start};
ghost use Rattle.vyrd_witness.specs.Changes.{amount_shown, changes_in, words_through};
ghost use Rattle.vyrd_witness.specs.Effects.{effects_along, effects_there};
ghost use Rattle.vyrd_witness.specs.Phases.{ArePhases};

use crate::change::{Change, Followed, apply, push_changes};
use crate::effect::{Effect, effects_by, entry_at};
use crate::phase::{Phase, phase_after};
use crate::shown::Shown;
use std::alloc::{AllocError, Global};
use vyrd_base::{Entry, Header, StartWord};

/// The plain words at a place of a front that keeps all rules, and what each caller is in the
/// middle of there.
#[derive(Drop)]
pub struct Walk {
    /// The words.
    pub words: Vec<u64>,
    /// What each caller is in the middle of.
    pub phases: Vec<Phase>,
}

impl Walk {
    /// The place before the first entry. It takes memory for the words, and a few bytes for each
    /// caller.
    pub fn new(alloc: Global, header: Header, starting: &[StartWord]) -> Result<Walk, AllocError>
        ensures words { IfOk result
            (λ w. w.words.items ≡ words_at_start header starting.now) }
        ensures phases { IfOk result (λ w. ArePhases header w.phases.items []) }
    {
        let rest = Phase {
            in_block: false,
            has_commit: false,
        };
        Ok(Walk {
            words: words_at_start(alloc, header, starting)?,
            phases: vec![in alloc; rest; header.callers() as usize]?,
        })
    }

    /// Goes on from the first place to another, and lets all effects take place on the way.
    pub(crate) fn pass(
        &mut self,
        alloc: Global,
        header: Header,
        front: &[Entry],
        to: usize,
    ) -> Result<(), AllocError>
        requires within { to ≤ length front.now }
        requires kept { first_break header front.now ≡ None }
        requires count { vec_len self.old.words ≡ plain_words header }
        requires here { ArePhases header self.old.phases.items [] }
        ensures words { OnOk result (self.new.words.items
            ≡ words_through self.old.words.items (effects_along front.now 0 to)) }
        ensures count { OnOk result (vec_len self.new.words ≡ plain_words header) }
        ensures there { OnOk result
            (ArePhases header self.new.phases.items (newest_first (take to front.now))) }
    {
        for at in 0..to {
            let effects = self.step(alloc, header, front, at)?;
            apply(&mut self.words, &effects);
        }
        Ok(())
    }

    /// Goes on from one place to another, and finds the effects on the way that change what the
    /// words show of the key that is followed.
    pub(crate) fn changes<S: Shown>(
        &mut self,
        alloc: Global,
        shown: &S,
        followed: &mut Followed,
        front: &[Entry],
        from: usize,
        to: usize,
    ) -> Result<Vec<Change>, AllocError>
        requires order { from ≤ to }
        requires within { to ≤ length front.now }
        requires kept { first_break (rules_by (S.charter shown.now)).header front.now ≡ None }
        requires count { vec_len self.old.words
            ≡ plain_words (rules_by (S.charter shown.now)).header }
        requires here { ArePhases (rules_by (S.charter shown.now)).header self.old.phases.items
            (newest_first (take from front.now)) }
        requires shown { followed.old.amount ≡ amount_shown (rules_by (S.charter shown.now))
            self.old.words.items followed.old.key }
        ensures changes { IfOk result (λ changes. changes.items
            ≡ changes_in (rules_by (S.charter shown.now)) followed.old.key self.old.words.items
            (effects_along front.now from to)) }
        ensures words { OnOk result (self.new.words.items
            ≡ words_through self.old.words.items (effects_along front.now from to)) }
        ensures count { OnOk result (vec_len self.new.words ≡ vec_len self.old.words) }
        ensures there { OnOk result (followed.new.amount ≡ amount_shown
            (rules_by (S.charter shown.now)) self.new.words.items followed.old.key) }
    {
        let header = shown.header();
        let mut changes = Vec::new(alloc);
        for at in from..to {
            let effects = self.step(alloc, header, front, at)?;
            push_changes(
                alloc,
                shown,
                followed,
                &mut self.words,
                &effects,
                &mut changes,
            )?;
        }
        Ok(changes)
    }

    /// Goes on from one place to another, and finds all effects on the way. It doesn't let them
    /// take place.
    pub(crate) fn effects(
        &mut self,
        alloc: Global,
        header: Header,
        front: &[Entry],
        from: usize,
        to: usize,
    ) -> Result<Vec<Effect>, AllocError>
        requires order { from ≤ to }
        requires within { to ≤ length front.now }
        requires kept { first_break header front.now ≡ None }
        requires here { ArePhases header self.old.phases.items
            (newest_first (take from front.now)) }
        ensures { IfOk result
            (λ effects. effects.items ≡ effects_along front.now from to) }
    {
        let mut effects = Vec::new(alloc);
        for at in from..to {
            let here = self.step(alloc, header, front, at)?;
            effects.extend_from_slice(&here)?;
        }
        Ok(effects)
    }

    /// The writes that take effect at the entry at a place, the first to do so first. The callers
    /// are then seen as they are after it; the words stay as they are. The front keeps all rules of
    /// shape.
    ///
    /// It goes over the entries of the block that ends there, or has its commit there. It takes
    /// memory for the block's writes. The only error is that memory has run out.
    pub fn step(
        &mut self,
        alloc: Global,
        header: Header,
        front: &[Entry],
        at: usize,
    ) -> Result<Vec<Effect>, AllocError>
        requires within { at < length front.now }
        requires kept { first_break header front.now ≡ None }
        requires here { ArePhases header self.old.phases.items (newest_first (take at front.now)) }
        ensures effects { IfOk result
            (λ effects. effects.items ≡ effects_there front.now at) }
        ensures next { OnOk result (ArePhases header self.new.phases.items
            (newest_first (take (at + 1) front.now))) }
        ensures words { self.new.words ≡ self.old.words }
    {
        let entry = entry_at(front, at);
        let caller = entry.caller as usize;
        let phase = self.phases[caller];
        let effects = effects_by(alloc, front, at, entry, phase)?;
        self.phases[caller] = phase_after(entry.kind, phase);
        Ok(effects)
    }
}

/// The plain words at the start: those that a log begins with have their values, and all others are
/// 0. The first of several values of one word counts.
pub fn words_at_start(
    alloc: Global,
    header: Header,
    starting: &[StartWord],
) -> Result<Vec<u64>, AllocError>
    ensures { IfOk result (λ words. words.items ≡ words_at_start header starting.now) }
{
    let mut words = vec![in alloc; 0; header.plain_words() as usize]?;
    for i in 0..starting.len() {
        let start = starting[starting.len() - 1 - i];
        if (start.word as usize) < words.len() {
            words[start.word as usize] = start.value;
        }
    }
    Ok(words)
}
