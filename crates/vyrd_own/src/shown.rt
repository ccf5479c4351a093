//! The shown amounts: in a table, and in the order of their keys.

ghost use Rattle.std.specs.Prelude.{◌≡◌, OnOk, OnErr, IfOk, [], length};
ghost use Rattle.vyrd_base.specs.Amounts.{IsAmounts, amount_of, with_amount};
ghost use Rattle.vyrd_base.specs.Own.Expressions.{least_from, greatest_to};

use crate::ordered::OrderedAmounts;
use std::alloc::{AllocError, Global};
use std::marker::Model;
use vyrd_base::View;
use vyrd_table::AmountTable;

/// Amounts by key, to be looked up in constant time, and to be asked for the nearest key in
/// logarithmic time. A change takes logarithmic time where a key comes or goes, and constant time
/// otherwise.
#[derive(Drop)]
pub struct ShownAmounts {
    table: AmountTable,
    keys: OrderedAmounts,
}

impl Model for ShownAmounts {
    ghost use Rattle.std.specs.Prelude.{◌≡◌};
    ghost use Rattle.vyrd_base.specs.Amounts.{Amounts, IsAmounts};
    ghost use Rattle.vyrd_own.specs.Marks.{marked};

    ghost Value = { Amounts };

    ghost view = { λ s. s.table };

    ghost invariant = { λ s. (s.keys ≡ marked s.table) × IsAmounts s.table };
}

impl ShownAmounts {
    /// No key, in a table that is made for so many.
    pub fn new(alloc: Global, keys: usize) -> Result<ShownAmounts, AllocError>
        ensures { IfOk result (λ s. s ≡ []) }
    {
        Ok(ShownAmounts {
            table: AmountTable::new(alloc, keys)?,
            keys: OrderedAmounts::new(alloc),
        })
    }

    /// The amount of the key, and 0 if it isn't there.
    #[inline(always)]
    pub fn amount(&self, key: u64) -> u64
        ensures amount { result ≡ amount_of self.now key }
        ensures formed { IsAmounts self.now }
    {
        self.table.amount(key)
    }

    /// Gives the key this amount; 0 takes the key out. Only a key that isn't there yet takes
    /// memory; if there is none, all is as it was.
    pub fn set(&mut self, key: u64, amount: u64) -> Result<(), AllocError>
        ensures ok { OnOk result (self.new ≡ with_amount self.old key amount) }
        ensures err { OnErr result (self.new ≡ self.old) }
        ensures absent { OnErr result (amount_of self.old key ≡ 0) }
    {
        let before = self.table.amount(key);
        self.table.set(key, amount)?;
        if before != 0 && amount != 0 {
            return Ok(());
        }
        match self.keys.set(key, amount.min(1)) {
            Ok(()) => Ok(()),
            Err(error) => {
                self.table.remove(key);
                Err(error)
            }
        }
    }

    /// Takes the key out, if it is there.
    pub fn remove(&mut self, key: u64)
        ensures { self.new ≡ with_amount self.old key 0 }
    {
        self.table.remove(key);
        self.keys.remove(key);
    }

    /// The least key from this one on.
    pub fn least(&self, key: u64) -> u64
        ensures { result ≡ least_from key self.now }
    {
        self.keys.least(key)
    }

    /// The greatest key up to this one.
    pub fn greatest(&self, key: u64) -> u64
        ensures { result ≡ greatest_to key self.now }
    {
        self.keys.greatest(key)
    }

    /// How many keys have an amount.
    pub fn count(&self) -> u64
        ensures { result ≡ length self.now }
    {
        self.keys.count()
    }

    /// The keys with their amounts, as a view. It costs time and memory for each key, and time for
    /// the whole table.
    pub fn view(&self, alloc: Global) -> Result<View, AllocError>
        ensures { IfOk result (λ v. v ≡ self.now) }
    {
        self.table.view(alloc)
    }
}
