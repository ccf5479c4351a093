//! What the words and the specification have of each key.

ghost use Rattle.std.specs.Prelude.{◌≡◌, ℕ, ◌+◌, ◌<◌, ◌==◌, [], true, OnOk, IfOk, if◌then◌else◌};
ghost use Rattle.vyrd_base.specs.Amounts.{amount_of, with_amount};
ghost use Rattle.vyrd_view.specs.TwoAmounts.{is_apart, apart_once, IsCount};

use crate::both::Both;
use std::alloc::{AllocError, Global};
use std::sync::ledger::Ledger;
use vyrd_base::Steps;
use vyrd_table::{Marked, Slot, Table};

/// The amounts of each key on two sides: what the words show and what the specification has. They
/// stand in a hash table, so the time that a key costs doesn't grow with the keys, and keys chosen
/// to share a place cost the logarithm of their number. A step is one key compared; what the table
/// looks at and what it costs to grow isn't counted.
#[derive(Drop)]
pub(crate) struct Sides {
    pub(crate) table: Table<Both>,
    /// How many keys have amounts that differ. If it ever comes to `usize::MAX`, it stays there.
    pub(crate) apart: usize,
}

impl Sides {
    ghost use Rattle.vyrd_view.specs.Apart.{IsLeastApart};
    ghost use Rattle.vyrd_view.specs.Sided.{IsSettled, IsAt, shown_at, specified_of};

    /// Both sides are empty. The table is made for that many keys.
    pub(crate) fn new(alloc: Global, keys: usize) -> Result<Sides, AllocError>
        ensures settled { IfOk result (λ sides. IsSettled sides) }
        ensures shown { IfOk result (λ sides. (q : ℕ) → shown_at sides q ≡ 0) }
        ensures specified { IfOk result (λ sides. specified_of sides ≡ []) }
    {
        Ok(Sides {
            table: Table::new(alloc, keys)?,
            apart: 0,
        })
    }

    /// The specification has this amount of the key. Once memory was refused it may only be
    /// dropped.
    #[inline(always)]
    pub(crate) fn specify<L: Ledger>(
        &mut self,
        key: u64,
        amount: u64,
        steps: &mut Steps<L>,
    ) -> Result<(), AllocError>
        requires settled { IsSettled self.old }
        ensures settled { OnOk result (IsSettled self.new) }
        ensures shown { OnOk result ((q : ℕ) → shown_at self.new q ≡ shown_at self.old q) }
        ensures specified { OnOk result
            (specified_of self.new ≡ with_amount (specified_of self.old) key amount) }
        ensures steps { steps.new ≡ steps.old + 1 }
    {
        let slot = self.at(key);
        let both = Both {
            shown: slot.value.shown,
            specified: amount,
        };
        self.put(key, slot, both, steps)
    }

    /// The least key whose two amounts differ, or none if there is none. If there is none, it takes
    /// constant time. Otherwise it goes through the table.
    pub(crate) fn first_difference(&self) -> Option<u64>
        requires { IsSettled self.now }
        ensures { IsLeastApart (shown_at self.now) (amount_of (specified_of self.now)) result }
    {
        if self.apart == 0 {
            return None;
        }
        self.table.first_marked()
    }

    /// The amounts of the key, and where they are to be put.
    #[inline(always)]
    pub(crate) fn at(&self, key: u64) -> Slot<Both>
        requires { IsSettled self.now }
        ensures shown { result.value.shown ≡ shown_at self.now key }
        ensures specified { result.value.specified ≡ amount_of (specified_of self.now) key }
        ensures slot { IsAt self.now key result }
    {
        self.table.find(key)
    }

    /// Gives the key, which was looked up, new amounts, and compares them.
    #[inline(always)]
    pub(crate) fn put<L: Ledger>(
        &mut self,
        key: u64,
        slot: Slot<Both>,
        both: Both,
        steps: &mut Steps<L>,
    ) -> Result<(), AllocError>
        requires settled { IsSettled self.old }
        requires slot { IsAt self.old key slot }
        ensures settled { OnOk result (IsSettled self.new) }
        ensures shown { OnOk result ((q : ℕ)
            → shown_at self.new q ≡ (if q == key then both.shown else shown_at self.old q)) }
        ensures specified { OnOk result
            (specified_of self.new ≡ with_amount (specified_of self.old) key both.specified) }
        ensures steps { steps.new ≡ steps.old + 1 }
    {
        steps.tick();
        self.put_uncounted(key, slot, both)
    }

    /// The same where the key isn't counted as compared.
    #[inline(always)]
    pub(crate) fn put_uncounted(
        &mut self,
        key: u64,
        slot: Slot<Both>,
        both: Both,
    ) -> Result<(), AllocError>
        requires settled { IsSettled self.old }
        requires slot { IsAt self.old key slot }
        ensures settled { OnOk result (IsSettled self.new) }
        ensures shown { OnOk result ((q : ℕ)
            → shown_at self.new q ≡ (if q == key then both.shown else shown_at self.old q)) }
        ensures specified { OnOk result
            (specified_of self.new ≡ with_amount (specified_of self.old) key both.specified) }
    {
        let before = slot.value;
        self.table.put(key, slot, both)?;
        self.apart = recounted(self.apart, before, both);
        Ok(())
    }
}

/// So many keys differ, of so many that did, once one of them has other amounts than before.
#[inline(always)]
fn recounted(apart: usize, before: Both, both: Both) -> usize
    requires { is_apart before ≡ true → 0 < apart }
    ensures { (others : ℕ) → IsCount apart (others + apart_once before)
        → IsCount result (others + apart_once both) }
{
    match (before.is_marked(), both.is_marked()) {
        (false, true) => apart.saturating_add(1),
        (true, false) if apart < usize::MAX => apart - 1,
        _ => apart,
    }
}
