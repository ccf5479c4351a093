//! A set of locks.

ghost use Rattle.std.specs.Prelude.{◌≡◌, ℕ, ◌/◌, ◌^◌, ◌<◌, true, false, length, replicate, IfOk};
ghost use Rattle.std.specs.Prelude.{slice_index};
ghost use Rattle.vyrd_mover.specs.LockSets.{words_for, has_lock, with_lock, without_lock, in_both};

use std::alloc::{AllocError, Global};
use std::marker::Model;

/// A set of locks, which are numbered from 0: a bit for each.
#[derive(Drop)]
pub(crate) struct LockSet {
    /// Lock k is bit `k % 64` of word `k / 64`.
    words: Vec<u64>,
}

impl Model for LockSet {
    ghost use Rattle.std.specs.Prelude.{ℕ, List};

    ghost Value = { List ℕ };

    ghost view = { λ s. s.words.items };
}

impl LockSet {
    /// A set without locks and without room for any.
    pub fn new(alloc: Global) -> LockSet
        ensures { result ≡ replicate 0 0 }
    {
        LockSet {
            words: Vec::new(alloc),
        }
    }

    /// A set without locks, which has room for as many.
    pub fn with_room(alloc: Global, locks: u32) -> Result<LockSet, AllocError>
        requires few { locks < 2 ^ 31 }
        ensures { IfOk result (λ s. s ≡ replicate (words_for locks) 0) }
    {
        let words = vec![in alloc; 0; ((locks + 63) / 64) as usize]?;
        Ok(LockSet { words })
    }

    /// The same set once more.
    pub fn duplicate(&self) -> Result<LockSet, AllocError>
        ensures { IfOk result (λ s. s ≡ self.now) }
    {
        let words = self.words.clone()?;
        Ok(LockSet { words })
    }

    /// Puts a lock in.
    #[tactic(auto, unfolding(crate::specs::LockSets::with_lock))]
    pub fn insert(&mut self, lock: u32)
        requires room { lock / 64 < length self.old }
        ensures { self.new ≡ with_lock self.old lock }
    {
        self.words[lock as usize / 64] |= 1 << (lock % 64);
    }

    /// Takes a lock out.
    #[tactic(auto, unfolding(crate::specs::LockSets::without_lock))]
    pub fn remove(&mut self, lock: u32)
        requires room { lock / 64 < length self.old }
        ensures { self.new ≡ without_lock self.old lock }
    {
        self.words[lock as usize / 64] &= !(1 << (lock % 64));
    }

    /// Keeps only the locks that are in the other set too. It looks at 64 of them at a time.
    pub fn intersect_with(&mut self, other: &LockSet)
        ensures { self.new ≡ in_both self.old other.now }
    {
        for place in 0..self.words.len() {
            self.words[place] &= other.word(place);
        }
    }

    /// The bits at a place. There are none behind the last word.
    fn word(&self, place: usize) -> u64
        ensures { result ≡ slice_index self.now place }
    {
        self.words.get(place).copied().unwrap_or(0)
    }

    /// Whether no lock is in the set.
    pub fn is_empty(&self) -> bool
        ensures none { result ≡ true → (lock : ℕ) → has_lock self.now lock ≡ false }
        ensures some { ((lock : ℕ) → has_lock self.now lock ≡ false) → result ≡ true }
    {
        for word in &self.words {
            if *word != 0 {
                return false;
            }
        }
        true
    }
}
