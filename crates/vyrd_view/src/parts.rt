//! What the parts give, pair by pair.

ghost use Rattle.std.specs.Prelude.{◌≡◌, ℕ, ◌+◌, ◌<◌, ◌≤◌, [], ◌∷◌, ◌++◌, true, false, length};
ghost use Rattle.std.specs.Prelude.{slice_set, OnOk, OnErr, IfOk};
ghost use Rattle.vyrd_base.specs.Amounts.{with_amount, collected, first_difference, given};

use crate::sums::Sums;
use std::alloc::{AllocError, Global};
use std::marker::Model;
use std::sync::ledger::Ledger;
use vyrd_base::Steps;

/// The pairs of a key and an amount that the parts of the words give, each in a place of its own,
/// beside the specification's amounts. A pair whose amount is 0 gives nothing.
#[derive(Drop)]
pub(crate) struct Parts {
    pairs: Vec<(u64, u64)>,
    sums: Sums,
    refused: bool,
}

impl Model for Parts {
    ghost use Rattle.std.specs.Prelude.{◌≡◌, ℕ, ◌-◌, ◌^◌, false};
    ghost use Rattle.vyrd_base.specs.Amounts.{given};
    ghost use Rattle.vyrd_view.specs.Kept.{ComparedKept};
    ghost use Rattle.vyrd_view.specs.Pairs.{EachAtMost};
    ghost use Rattle.vyrd_view.specs.Sided.{specified_of};
    ghost use Rattle.vyrd_view.specs.Summed.{IsSettled, sum_at};

    ghost Value = { ComparedKept };

    ghost view = { λ p. record {
      pairs = p.pairs.items;
      specified = specified_of p.sums.sides;
      refused = p.refused;
    } };

    ghost invariant = { λ p. p.refused ≡ false
        → (IsSettled p.sums × ((q : ℕ) → sum_at p.sums q ≡ given q p.pairs.items)
        × EachAtMost (2 ^ 64 - 1) p.pairs.items) };
}

impl Parts {
    /// These pairs, which give nothing, and an empty specification. The table is made for that many
    /// keys.
    pub(crate) fn new(
        alloc: Global,
        pairs: Vec<(u64, u64)>,
        keys: usize,
    ) -> Result<Parts, AllocError>
        requires { (q : ℕ) → given q pairs.items ≡ 0 }
        ensures { IfOk result
            (λ p. p ≡ record { pairs = pairs.items; specified = []; refused = false }) }
    {
        Ok(Parts {
            pairs,
            sums: Sums::new(alloc, keys)?,
            refused: false,
        })
    }

    /// A pair that gives nothing gets a place, after all others.
    pub(crate) fn push(&mut self, pair: (u64, u64)) -> Result<(), AllocError>
        requires sound { self.old.refused ≡ false }
        requires nothing { pair.1 ≡ 0 }
        ensures { OnOk result
            (self.new ≡ record self.old { pairs = self.old.pairs ++ pair ∷ [] }) }
    {
        self.pairs.push(pair)?;
        Ok(())
    }

    /// The pair in this place gives way to another. If it is the same pair, nothing is compared.
    /// Once memory was refused the value may only be dropped.
    #[inline(always)]
    pub(crate) fn replace<L: Ledger>(
        &mut self,
        place: usize,
        pair: (u64, u64),
        steps: &mut Steps<L>,
    ) -> Result<(), AllocError>
        requires sound { self.old.refused ≡ false }
        requires place { place < length self.old.pairs }
        ensures ok { OnOk result
            (self.new ≡ record self.old { pairs = slice_set self.old.pairs place pair }) }
        ensures refused { OnErr result (self.new.refused ≡ true) }
        ensures steps { steps.new ≤ steps.old + 2 }
    {
        let before = self.pairs[place];
        if before.0 == pair.0 && before.1 == pair.1 {
            return Ok(());
        }
        self.write(place, pair.0, pair.1, steps)
    }

    /// Another pair comes to this place.
    #[inline(never)]
    fn write<L: Ledger>(
        &mut self,
        place: usize,
        key: u64,
        amount: u64,
        steps: &mut Steps<L>,
    ) -> Result<(), AllocError>
        requires sound { self.old.refused ≡ false }
        requires place { place < length self.old.pairs }
        ensures ok { OnOk result
            (self.new ≡ record self.old { pairs = slice_set self.old.pairs place (key, amount) }) }
        ensures refused { OnErr result (self.new.refused ≡ true) }
        ensures steps { steps.new ≤ steps.old + 2 }
    {
        let before = self.pairs[place];
        let pair = (key, amount);
        self.pairs[place] = pair;
        match self.sums.change(before, pair, steps) {
            Ok(()) => Ok(()),
            Err(refusal) => {
                self.refused = true;
                Err(refusal)
            }
        }
    }

    /// The specification has this amount of the key. Once memory was refused the value may only be
    /// dropped.
    #[inline(always)]
    pub(crate) fn specify<L: Ledger>(
        &mut self,
        key: u64,
        amount: u64,
        steps: &mut Steps<L>,
    ) -> Result<(), AllocError>
        requires { self.old.refused ≡ false }
        ensures ok { OnOk result
            (self.new ≡ record self.old { specified = with_amount self.old.specified key amount }) }
        ensures refused { OnErr result (self.new.refused ≡ true) }
        ensures steps { steps.new ≤ steps.old + 1 }
    {
        match self.sums.specify(key, amount, steps) {
            Ok(()) => Ok(()),
            Err(refusal) => {
                self.refused = true;
                Err(refusal)
            }
        }
    }

    /// The least key at which the sum of the pairs isn't the specification's amount, or none if
    /// there is none.
    pub(crate) fn first_difference(&self) -> Option<u64>
        requires { self.now.refused ≡ false }
        ensures { result ≡ first_difference (collected self.now.pairs) self.now.specified }
    {
        self.sums.first_difference()
    }

    /// Memory was refused.
    pub(crate) fn refuse(&mut self)
        ensures { self.new.refused ≡ true }
    {
        self.refused = true;
    }

    /// Whether memory was refused.
    pub(crate) fn refused(&self) -> bool
        ensures { result ≡ self.now.refused }
    {
        self.refused
    }
}
