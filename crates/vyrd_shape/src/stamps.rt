//! When a write last took effect on each word.

ghost use Rattle.std.specs.Prelude.{◌≡◌, ℕ, ◌+◌, ◌≤◌, max, length, replicate, slice_index};
ghost use Rattle.std.specs.Prelude.{slice_set, nat_lt, IfOk};
ghost use Rattle.vyrd_shape.specs.Costs.{ranking_cost};
ghost use Rattle.vyrd_shape.specs.Stamps.{rank, AreRanked};

use std::alloc::{AllocError, Global};
use std::marker::Model;
use std::sync::ledger::Ledger;
use vyrd_base::Steps;

/// For each word a stamp of when a write to it last took effect, and 0 if none did. `Commits` gives
/// the stamps.
#[derive(Drop)]
pub(crate) struct Stamps {
    /// By word, and of no word if stamps aren't needed.
    by_word: Vec<u64>,
}

impl Model for Stamps {
    ghost use Rattle.std.specs.Prelude.{ℕ, List};

    ghost Value = { List ℕ };

    ghost view = { λ s. s.by_word.items };
}

impl Stamps {
    /// The stamps of words to which nothing was written.
    pub fn new(alloc: Global, words: u32) -> Result<Stamps, AllocError>
        ensures { IfOk result (λ s. s ≡ replicate words 0) }
    {
        Ok(Stamps {
            by_word: vec![in alloc; 0; words as usize]?,
        })
    }

    /// Whether a write took effect on the word after the commit with this stamp.
    #[inline(always)]
    pub fn is_later(&self, word: u32, stamp: u64) -> bool
        ensures { result ≡ nat_lt stamp (slice_index self.now word) }
    {
        stamp < self.by_word.get(word as usize).copied().unwrap_or(0)
    }

    /// A write takes effect on the word when this stamp says. Others may have taken effect on it
    /// after that already.
    #[inline(always)]
    pub fn raise(&mut self, word: u32, stamp: u64)
        ensures { self.new ≡ slice_set self.old word (max (slice_index self.old word) stamp) }
    {
        let place = word as usize;
        if place < self.by_word.len() && self.by_word[place] < stamp {
            self.by_word[place] = stamp;
        }
    }

    /// Gives each stamp the number of these commits before it.
    pub fn renumber<L: Ledger>(&mut self, commits: &[u64], steps: &mut Steps<L>)
        ensures ranked { AreRanked commits.now self.old self.new }
        ensures steps { steps.new
            ≡ steps.old + ranking_cost (length commits.now) (length self.old) }
    {
        renumber(&mut self.by_word, commits, steps);
    }
}

/// Gives each of the stamps the number of these commits before it. It looks at all commits for each
/// stamp.
pub(crate) fn renumber<L: Ledger>(stamps: &mut Vec<u64>, commits: &[u64], steps: &mut Steps<L>)
    ensures ranked { AreRanked commits.now stamps.old.items stamps.new.items }
    ensures steps { steps.new
        ≡ steps.old + ranking_cost (length commits.now) (length stamps.old.items) }
{
    for place in 0..stamps.len() {
        steps.tick();
        stamps[place] = rank(commits, stamps[place], steps);
    }
}

/// How many of the commits are before this stamp, which takes a step for each of them.
fn rank<L: Ledger>(commits: &[u64], stamp: u64, steps: &mut Steps<L>) -> u64
    ensures value { result ≡ rank commits.now stamp }
    ensures most { result ≤ length commits.now }
    ensures steps { steps.new ≡ steps.old + length commits.now }
{
    steps.add(commits.len());
    commits.iter().filter(|commit| **commit < stamp).count() as u64
}
