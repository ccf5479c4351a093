//! What the words show of each key, exactly, beside the specification's amounts.

ghost use Rattle.std.specs.Prelude.{◌≡◌, ℕ, ◌+◌, ◌-◌, ◌*◌, ◌/◌, ◌%◌, ◌<◌, ◌≤◌, ◌^◌, ◌==◌};
ghost use Rattle.std.specs.Prelude.{[], true, OnOk, IfOk, IfSome, if◌then◌else◌};
ghost use Rattle.vyrd_base.specs.Amounts.{amount_of, with_amount, part_given};

use crate::both::Both;
use crate::sides::Sides;
use std::alloc::{AllocError, Global};
use std::sync::ledger::Ledger;
use vyrd_base::Steps;
use vyrd_table::Slot;

/// What the carries of a key count: 2^64.
const WHOLE: u128 = 1 << 64;

/// The table of the carries is made for no key: almost no sum ever has one.
const CARRIED_KEYS: usize = 0;

/// The sum of what the words show of each key, however great it is, beside the specification's
/// amount. A sum below 2^64, as almost each one is, stands in `sides`, and costs nothing more. Of
/// any other, `sides` has what is left modulo 2^64, and `carries`, in a small table of its own, how
/// often 2^64 was left out. A key with a carry differs from the specification, whose amounts are
/// below 2^64.
#[derive(Drop)]
pub(crate) struct Sums {
    pub(crate) sides: Sides,
    /// The carries of each key against none.
    pub(crate) carries: Sides,
}

impl Sums {
    ghost use Rattle.vyrd_view.specs.Apart.{IsLeastApart};
    ghost use Rattle.vyrd_view.specs.Sided.{IsAt, shown_at, specified_of};
    ghost use Rattle.vyrd_view.specs.Summed.{IsSettled, sum_at};

    /// All sums are 0, and nothing is specified. The table is made for that many keys.
    pub(crate) fn new(alloc: Global, keys: usize) -> Result<Sums, AllocError>
        ensures settled { IfOk result (λ sums. IsSettled sums) }
        ensures shown { IfOk result (λ sums. (q : ℕ) → sum_at sums q ≡ 0) }
        ensures specified { IfOk result (λ sums. specified_of sums.sides ≡ []) }
    {
        Ok(Sums {
            sides: Sides::new(alloc, keys)?,
            carries: Sides::new(alloc, CARRIED_KEYS)?,
        })
    }

    /// The words show less of the key by one amount, and more by another. Once memory was refused
    /// it may only be dropped.
    #[inline(always)]
    pub(crate) fn exchange<L: Ledger>(
        &mut self,
        key: u64,
        less: u64,
        more: u64,
        steps: &mut Steps<L>,
    ) -> Result<(), AllocError>
        requires settled { IsSettled self.old }
        requires enough { less ≤ sum_at self.old key }
        requires fits { less < more → sum_at self.old key - less + more < 2 ^ 128 }
        ensures settled { OnOk result (IsSettled self.new) }
        ensures shown { OnOk result ((q : ℕ) → sum_at self.new q
            ≡ (if q == key then sum_at self.old key - less + more else sum_at self.old q)) }
        ensures specified { OnOk result
            (specified_of self.new.sides ≡ specified_of self.old.sides) }
        ensures steps { steps.new ≤ steps.old + 1 }
    {
        let slot = self.sides.at(key);
        if !stays_below(slot.value.shown, less, more) {
            return self.carry(key, slot, less, more, steps);
        }
        let both = Both {
            shown: slot.value.shown - less + more,
            specified: slot.value.specified,
        };
        self.sides.put(key, slot, both, steps)
    }

    /// The same for a sum that has carries, or gets one.
    #[inline(never)]
    fn carry<L: Ledger>(
        &mut self,
        key: u64,
        slot: Slot<Both>,
        less: u64,
        more: u64,
        steps: &mut Steps<L>,
    ) -> Result<(), AllocError>
        requires settled { IsSettled self.old }
        requires shown { slot.value.shown ≡ shown_at self.old.sides key }
        requires specified { slot.value.specified ≡ amount_of (specified_of self.old.sides) key }
        requires slot { IsAt self.old.sides key slot }
        requires enough { less ≤ sum_at self.old key }
        requires fits { less < more → sum_at self.old key - less + more < 2 ^ 128 }
        ensures settled { OnOk result (IsSettled self.new) }
        ensures shown { OnOk result ((q : ℕ) → sum_at self.new q
            ≡ (if q == key then sum_at self.old key - less + more else sum_at self.old q)) }
        ensures specified { OnOk result
            (specified_of self.new.sides ≡ specified_of self.old.sides) }
        ensures steps { steps.new ≤ steps.old + 1 }
    {
        let before = self.carries.at(key);
        let sum = exchanged(before.value.shown, slot.value.shown, less, more);
        let carried = Both {
            shown: sum.carries,
            specified: 0,
        };
        let both = Both {
            shown: sum.left,
            specified: slot.value.specified,
        };
        self.carries.put_uncounted(key, before, carried)?;
        self.sides.put(key, slot, both, steps)
    }

    /// The words show one pair no more, and show another.
    #[inline(always)]
    pub(crate) fn change<L: Ledger>(
        &mut self,
        before: (u64, u64),
        pair: (u64, u64),
        steps: &mut Steps<L>,
    ) -> Result<(), AllocError>
        requires settled { IsSettled self.old }
        requires enough { before.1 ≤ sum_at self.old before.0 }
        requires fits { sum_at self.old pair.0 + pair.1 < 2 ^ 128 + part_given pair.0 before }
        ensures settled { OnOk result (IsSettled self.new) }
        ensures shown { OnOk result ((q : ℕ)
            → sum_at self.new q + part_given q before ≡ sum_at self.old q + part_given q pair) }
        ensures specified { OnOk result
            (specified_of self.new.sides ≡ specified_of self.old.sides) }
        ensures steps { steps.new ≤ steps.old + 2 }
    {
        if before.0 == pair.0 {
            return self.exchange(pair.0, before.1, pair.1, steps);
        }
        if before.1 != 0 {
            self.exchange(before.0, before.1, 0, steps)?;
        }
        if pair.1 != 0 {
            self.exchange(pair.0, 0, pair.1, steps)?;
        }
        Ok(())
    }

    /// The specification has this amount of the key. Once memory was refused it may only be
    /// dropped.
    #[inline(always)]
    pub(crate) fn specify<L: Ledger>(
        &mut self,
        key: u64,
        amount: u64,
        steps: &mut Steps<L>,
    ) -> Result<(), AllocError>
        requires settled { IsSettled self.old }
        ensures settled { OnOk result (IsSettled self.new) }
        ensures shown { OnOk result ((q : ℕ) → sum_at self.new q ≡ sum_at self.old q) }
        ensures specified { OnOk result
            (specified_of self.new.sides ≡ with_amount (specified_of self.old.sides) key amount) }
        ensures steps { steps.new ≡ steps.old + 1 }
    {
        self.sides.specify(key, amount, steps)
    }

    /// The least key whose sum isn't the specification's amount, or none if there is none.
    pub(crate) fn first_difference(&self) -> Option<u64>
        requires { IsSettled self.now }
        ensures { IsLeastApart (sum_at self.now) (amount_of (specified_of self.now.sides)) result }
    {
        match (self.sides.first_difference(), self.first_carried()) {
            (one, None) => one,
            (None, Some(key)) => Some(key),
            (Some(one), Some(other)) => Some(one.min(other)),
        }
    }

    /// The least key that has a carry, or none if there is none.
    #[inline(always)]
    fn first_carried(&self) -> Option<u64>
        requires { IsSettled self.now }
        ensures least { IsLeastApart (shown_at self.now.carries) (λ q. 0) result }
        ensures small { IfSome result
            (λ key. amount_of (specified_of self.now.sides) key < 2 ^ 64) }
    {
        match self.carries.first_difference() {
            None => None,
            Some(key) => {
                let _specified = self.sides.at(key).value.specified;
                Some(key)
            }
        }
    }
}

/// Whether an amount stays below 2^64 when one amount is taken away and then another comes.
#[inline(always)]
fn stays_below(amount: u64, less: u64, more: u64) -> bool
    ensures enough { result ≡ true → less ≤ amount }
    ensures fits { result ≡ true → amount - less + more < 2 ^ 64 }
{
    less <= amount && more <= u64::MAX - (amount - less)
}

/// A sum as how often it has 2^64, and what is left.
#[derive(Clone, Copy)]
struct Sum {
    carries: u64,
    left: u64,
}

/// A sum from which one amount is taken away, and to which another comes.
#[inline(always)]
fn exchanged(carries: u64, left: u64, less: u64, more: u64) -> Sum
    requires enough { less ≤ left + 2 ^ 64 * carries }
    requires fits { less < more → left + 2 ^ 64 * carries - less + more < 2 ^ 128 }
    ensures carries { result.carries ≡ (left + 2 ^ 64 * carries - less + more) / 2 ^ 64 }
    ensures left { result.left ≡ (left + 2 ^ 64 * carries - less + more) % 2 ^ 64 }
{
    let before = carries as u128 * WHOLE + left as u128;
    let sum = before - less as u128 + more as u128;
    Sum {
        carries: (sum / WHOLE) as u64,
        left: (sum % WHOLE) as u64,
    }
}
