//! Which caller's open block has written each word.

ghost use Rattle.std.specs.Prelude.{◌≡◌, ◌+◌, ◌<◌, ◌≤◌, ◌==◌, map, length, slice_index};
ghost use Rattle.std.specs.Prelude.{slice_set, replicate, IfOk, if◌then◌else◌};
ghost use Rattle.vyrd_shape.specs.Costs.{held_count};
ghost use Rattle.vyrd_shape.specs.Holding.{released, holders_after, is_held_by_another, IsLinked};
ghost use Rattle.vyrd_shape.specs.Holding.{IsWordBelow};
ghost use Rattle.vyrd_shape.specs.Stamps.{takes_effect, AreRaised};

use crate::stamps::Stamps;
use std::alloc::{AllocError, Global};
use std::marker::Model;
use std::sync::ledger::Ledger;
use vyrd_base::{Entry, Kind, Steps};

/// The holder of each word, with the words of one holder linked, so that letting go of them looks
/// at no others.
#[derive(Drop)]
pub(crate) struct Holders {
    /// By word: the holder's number plus 1, and 0 if there is none.
    by_word: Vec<u32>,
    /// By held word: the word that its holder wrote before it, plus 1, and 0 if there is none.
    links: Vec<u32>,
    /// By caller: the word that it holds since the shortest time, plus 1, and 0 if there is none.
    firsts: Vec<u32>,
}

impl Model for Holders {
    ghost use Rattle.std.specs.Prelude.{length};
    ghost use Rattle.vyrd_shape.specs.Holding.{Holding, AreLinked};

    ghost Value = { Holding };

    ghost view = { λ s. record { callers = length s.firsts.items; by_word = s.by_word.items } };

    ghost invariant = { λ s. AreLinked s.by_word.items s.links.items s.firsts.items };
}

impl Holders {
    /// No word is held.
    pub fn new(alloc: Global, words: u32, callers: u32) -> Result<Holders, AllocError>
        ensures callers { IfOk result (λ s. s.callers ≡ callers) }
        ensures by_word { IfOk result (λ s. s.by_word ≡ replicate words 0) }
    {
        Ok(Holders {
            by_word: vec![in alloc; 0; words as usize]?,
            links: vec![in alloc; 0; words as usize]?,
            firsts: vec![in alloc; 0; callers as usize]?,
        })
    }

    /// Whether another caller holds the word.
    #[inline(always)]
    pub fn is_held_by_another(&self, caller: u32, word: u32) -> bool
        requires { word < length self.now.by_word }
        ensures { result ≡ is_held_by_another self.now caller word }
    {
        let holder = self.by_word[word as usize];
        holder != 0 && holder - 1 != caller
    }

    /// Follows an entry of a caller that has an open block or hasn't. A write in a block holds its
    /// word, and a block's end lets go of the caller's words. The words on which writes take effect
    /// get at least this stamp.
    #[inline(always)]
    pub fn follow<L: Ledger>(
        &mut self,
        in_block: bool,
        entry: &Entry,
        stamp: u64,
        stamps: &mut Stamps,
        steps: &mut Steps<L>,
    )
        requires caller { entry.now.caller < self.old.callers }
        requires word { IsWordBelow (length self.old.by_word) entry.now.kind }
        ensures callers { self.new.callers ≡ self.old.callers }
        ensures by_word { self.new.by_word
            ≡ holders_after self.old.by_word in_block entry.now.caller entry.now.kind }
        ensures stamps { AreRaised
            (takes_effect self.old.by_word in_block entry.now.caller entry.now.kind) stamp
            stamps.old stamps.new }
        ensures steps { steps.new + held_count self.new.by_word
            ≤ steps.old + held_count self.old.by_word + 1 }
    {
        match entry.kind {
            Kind::Write(word, _) => {
                if in_block {
                    self.hold(entry.caller, word);
                } else {
                    stamps.raise(word, stamp);
                }
            }
            Kind::BlockClose | Kind::BlockCommit => self.release(
                entry.caller,
                stamp,
                stamps,
                steps,
            ),
            _ => {}
        }
    }

    /// The caller holds the word, if nobody did.
    #[inline(always)]
    pub fn hold(&mut self, caller: u32, word: u32)
        requires caller { caller < self.old.callers }
        requires word { word < length self.old.by_word }
        ensures callers { self.new.callers ≡ self.old.callers }
        ensures by_word { self.new.by_word ≡ (if slice_index self.old.by_word word == 0
            then slice_set self.old.by_word word (caller + 1)
            else self.old.by_word) }
        ensures held { held_count self.new.by_word ≤ held_count self.old.by_word + 1 }
    {
        let place = word as usize;
        if self.by_word[place] == 0 {
            self.by_word[place] = caller + 1;
            self.links[place] = self.firsts[caller as usize];
            self.firsts[caller as usize] = word + 1;
        }
    }

    /// The caller lets go of all of its words, with a step for each of them, and they get at least
    /// this stamp.
    pub fn release<L: Ledger>(
        &mut self,
        caller: u32,
        stamp: u64,
        stamps: &mut Stamps,
        steps: &mut Steps<L>,
    )
        requires { caller < self.old.callers }
        ensures callers { self.new.callers ≡ self.old.callers }
        ensures by_word { self.new.by_word ≡ map (released (caller + 1)) self.old.by_word }
        ensures stamps { AreRaised (λ w. slice_index self.old.by_word w == caller + 1) stamp
            stamps.old stamps.new }
        ensures steps { steps.new + held_count self.new.by_word
            ≡ steps.old + held_count self.old.by_word }
    {
        let first = self.firsts[caller as usize];
        release_linked(
            &mut self.by_word,
            &self.links,
            caller + 1,
            first,
            stamp,
            stamps,
            steps,
        );
        self.firsts[caller as usize] = 0;
    }
}

/// The holder lets go of its words, which are linked from `first` on, and they get at least this
/// stamp.
fn release_linked<L: Ledger>(
    by_word: &mut [u32],
    links: &[u32],
    holder: u32,
    mut first: u32,
    stamp: u64,
    stamps: &mut Stamps,
    steps: &mut Steps<L>,
)
    requires some { 0 < holder }
    requires lengths { length links.now ≡ length by_word.old }
    requires linked { IsLinked holder by_word.old links.now first }
    ensures by_word { by_word.new ≡ map (released holder) by_word.old }
    ensures stamps { AreRaised (λ w. slice_index by_word.old w == holder) stamp
        stamps.old stamps.new }
    ensures steps { steps.new + held_count by_word.new ≡ steps.old + held_count by_word.old }
{
    while first != 0 {
        steps.tick();
        let word = first - 1;
        stamps.raise(word, stamp);
        by_word[word as usize] = 0;
        first = links[word as usize];
    }
}
