//! Amounts by key in a hash table.

ghost use Rattle.std.specs.Prelude.{◌≡◌, ◌≢◌, ◌+◌, ◌-◌, ◌<◌, ◌^◌, OnOk, OnErr, IfOk, []};
ghost use Rattle.vyrd_base.specs.Amounts.{IsAmounts, amount_of, with_amount, plus_amount};

use crate::table::Table;
use std::alloc::{AllocError, Global};
use std::marker::Model;
use vyrd_base::View;

/// Amounts by key, to be looked up and changed. A key that isn't there has the amount 0. Each call
/// except `view` is one look-up of a [`Table`], and one value that is set if it changes something.
#[derive(Drop)]
pub struct AmountTable {
    table: Table<u64>,
}

impl Model for AmountTable {
    ghost use Rattle.vyrd_base.specs.Amounts.{Amounts};

    ghost Value = { Amounts };

    ghost view = { λ t. t.table.entries };
}

impl AmountTable {
    /// The table with no key, made for that many keys: it grows up to two to four places for each,
    /// and has 64 places or fewer at first. It takes 16 bytes for each place, while it grows those
    /// of the old places too, and no further memory for the keys that find a place there.
    pub fn new(alloc: Global, keys: usize) -> Result<AmountTable, AllocError>
        ensures { IfOk result (λ t. t ≡ []) }
    {
        Ok(AmountTable {
            table: Table::new(alloc, keys)?,
        })
    }

    /// The amount of the key, and 0 if it isn't there.
    #[inline(always)]
    pub fn amount(&self, key: u64) -> u64
        ensures amount { result ≡ amount_of self.now key }
        ensures formed { IsAmounts self.now }
    {
        self.table.value(key)
    }

    /// Gives the key this amount; 0 takes the key out. Only a key that isn't there yet takes
    /// memory; if there is none, the table has the amounts that it had.
    #[inline(always)]
    pub fn set(&mut self, key: u64, amount: u64) -> Result<(), AllocError>
        ensures ok { OnOk result (self.new ≡ with_amount self.old key amount) }
        ensures err { OnErr result (self.new ≡ self.old) }
        ensures absent { OnErr result (amount_of self.old key ≡ 0) }
        ensures some { OnErr result (amount ≢ 0) }
    {
        self.table.set(key, amount)
    }

    /// Takes the key out, if it is there.
    #[inline(always)]
    pub fn remove(&mut self, key: u64)
        ensures { self.new ≡ with_amount self.old key 0 }
    {
        match self.set(key, 0) {
            Ok(()) => {}
            Err(_) => unreachable!(),
        }
    }

    /// Adds to the amount of the key; the sum has to fit 64 bits. If memory runs out, the table has
    /// the amounts that it had.
    #[inline(always)]
    pub fn add(&mut self, key: u64, more: u64) -> Result<(), AllocError>
        requires { amount_of self.old key + more < 2 ^ 64 }
        ensures ok { OnOk result (self.new ≡ plus_amount self.old key more) }
        ensures err { OnErr result (self.new ≡ self.old) }
        ensures formed { IsAmounts self.old }
    {
        let slot = self.table.find(key);
        let before = slot.value;
        self.table.put(key, slot, before + more)
    }

    /// Takes 1 from the amount of a key that is there. It takes no memory.
    #[inline(always)]
    pub fn take_one(&mut self, key: u64)
        requires { amount_of self.old key ≢ 0 }
        ensures { self.new ≡ with_amount self.old key (amount_of self.old key - 1) }
    {
        let slot = self.table.find(key);
        let before = slot.value;
        match self.table.put(key, slot, before - 1) {
            Ok(()) => {}
            Err(_) => unreachable!(),
        }
    }

    /// The keys with their amounts, as a view. It goes through the whole table, and costs memory
    /// for each key.
    pub fn view(&self, alloc: Global) -> Result<View, AllocError>
        ensures { IfOk result (λ v. v ≡ self.now) }
    {
        Ok(View::of(self.table.entries(alloc)?))
    }
}
