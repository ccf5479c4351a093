//! When each caller's last lone commit inside a block was.

ghost use Rattle.std.specs.Prelude.{◌≡◌, ◌+◌, ◌<◌, ◌≤◌, length, replicate, slice_index, IfOk};
ghost use Rattle.vyrd_shape.specs.Costs.{renumbering_cost, adding_cost};
ghost use Rattle.vyrd_shape.specs.Stamps.{AreRanked, IsAdded};

use crate::stamps::{Stamps, renumber};
use std::alloc::{AllocError, Global};
use std::marker::Model;
use std::sync::ledger::Ledger;
use vyrd_base::Steps;

/// For each caller the stamp of its last lone commit inside a block. A stamp is greater than all
/// that were given before it. Only their order counts.
#[derive(Drop)]
pub(crate) struct Commits {
    /// By caller.
    by_caller: Vec<u64>,
    /// By caller, what is copied here while the stamps are renumbered.
    before: Vec<u64>,
    /// The next stamp, which is greater than that of any commit.
    next: u64,
}

impl Model for Commits {
    ghost use Rattle.std.specs.Prelude.{◌≡◌, length};
    ghost use Rattle.vyrd_shape.specs.Stamps.{CommitStamps, AreGiven};

    ghost Value = { CommitStamps };

    ghost view = { λ s. record { by_caller = s.by_caller.items; next = s.next } };

    ghost invariant = { λ s. AreGiven s.by_caller.items s.next
        × (length s.before.items ≡ length s.by_caller.items) };
}

impl Commits {
    /// No caller has had such a commit.
    pub fn new(alloc: Global, callers: u32) -> Result<Commits, AllocError>
        ensures { IfOk result (λ s. s ≡ record { by_caller = replicate callers 0; next = 1 }) }
    {
        Ok(Commits {
            by_caller: vec![in alloc; 0; callers as usize]?,
            before: vec![in alloc; 0; callers as usize]?,
            next: 1,
        })
    }

    /// The stamp of the caller's commit.
    #[inline(always)]
    pub fn of(&self, caller: u32) -> u64
        requires { caller < length self.now.by_caller }
        ensures stamp { result ≡ slice_index self.now.by_caller caller }
        ensures given { result < self.now.next }
    {
        self.by_caller[caller as usize]
    }

    /// The stamp of what happens now.
    #[inline(always)]
    pub fn next(&self) -> u64
        ensures { result ≡ self.now.next }
    {
        self.next
    }

    /// The caller commits inside its block. It takes constant time, except for one call in 2^64, or
    /// fewer: if the next stamp is the greatest, all are numbered again in their order.
    pub fn add<L: Ledger>(&mut self, caller: u32, stamps: &mut Stamps, steps: &mut Steps<L>)
        requires { caller < length self.old.by_caller }
        ensures added { IsAdded caller self.old stamps.old self.new stamps.new }
        ensures steps { steps.new ≤ steps.old + adding_cost self.old stamps.old }
    {
        if self.next == u64::MAX {
            self.renumber(stamps, steps);
        }
        self.by_caller[caller as usize] = self.next;
        self.next += 1;
    }

    /// Gives each stamp the number of commits before it, so that the order of commits, and of a
    /// commit and a write, stays.
    fn renumber<L: Ledger>(&mut self, stamps: &mut Stamps, steps: &mut Steps<L>)
        ensures commits { AreRanked self.old.by_caller self.old.by_caller self.new.by_caller }
        ensures next { self.new.next ≡ length self.old.by_caller + 1 }
        ensures stamps { AreRanked self.old.by_caller stamps.old stamps.new }
        ensures steps { steps.new ≡ steps.old + renumbering_cost self.old stamps.old }
    {
        copy(&self.by_caller, &mut self.before, steps);
        stamps.renumber(&self.before, steps);
        renumber(&mut self.by_caller, &self.before, steps);
        self.next = self.by_caller.len() as u64 + 1;
    }
}

/// Copies the stamps, which takes a step for each of them.
fn copy<L: Ledger>(stamps: &[u64], before: &mut [u64], steps: &mut Steps<L>)
    requires { length before.old ≡ length stamps.now }
    ensures stamps { before.new ≡ stamps.now }
    ensures steps { steps.new ≡ steps.old + length stamps.now }
{
    steps.add(stamps.len());
    before.copy_from_slice(stamps);
}
