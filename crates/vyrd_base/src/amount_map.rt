//! Amounts by key in memory, where each can be looked up and changed.

ghost use Rattle.std.specs.Prelude.{◌≡◌, ◌≢◌, ◌+◌, ◌-◌, ◌<◌, ◌^◌, OnOk, OnErr, IfOk, []};
ghost use Rattle.vyrd_base.specs.Amounts.{IsAmounts, amount_of, with_amount, plus_amount};

use crate::view::View;
use std::alloc::{AllocError, Global};
use std::collections::BTreeMap;
use std::marker::Model;

/// Amounts by key, to be looked up and changed. A key that isn't there has the amount 0, and takes
/// no memory. Each call except `view` takes time in the logarithm of the number of keys.
#[derive(Drop)]
pub struct AmountMap {
    pairs: BTreeMap<u64, u64>,
}

impl Model for AmountMap {
    ghost use Rattle.vyrd_base.specs.Amounts.{Amounts, IsAmounts};

    ghost Value = { Amounts };

    ghost view = { λ m. m.pairs.entries };

    ghost invariant = { λ m. IsAmounts m.pairs.entries };
}

impl AmountMap {
    /// The map with no key. It takes no memory.
    pub fn new(alloc: Global) -> AmountMap
        ensures { result ≡ [] }
    {
        AmountMap {
            pairs: BTreeMap::new(alloc),
        }
    }

    /// The amount of the key, and 0 if it isn't there.
    pub fn amount(&self, key: u64) -> u64
        ensures amount { result ≡ amount_of self.now key }
        ensures formed { IsAmounts self.now }
    {
        self.pairs.get(&key).copied().unwrap_or(0)
    }

    /// Gives the key this amount; 0 takes the key out. Only a key that isn't there yet takes
    /// memory; if there is none, the map is as it was.
    pub fn set(&mut self, key: u64, amount: u64) -> Result<(), AllocError>
        ensures ok { OnOk result (self.new ≡ with_amount self.old key amount) }
        ensures err { OnErr result (self.new ≡ self.old) }
        ensures absent { OnErr result (amount_of self.old key ≡ 0) }
        ensures none { OnErr result (amount ≢ 0) }
    {
        if amount == 0 {
            self.remove(key);
        } else {
            self.pairs.insert(key, amount)?;
        }
        Ok(())
    }

    /// Takes the key out, if it is there.
    pub fn remove(&mut self, key: u64)
        ensures { self.new ≡ with_amount self.old key 0 }
    {
        self.pairs.remove(&key);
    }

    /// Adds to the amount of the key; the sum has to fit 64 bits. If memory runs out, the map is as
    /// it was.
    pub fn add(&mut self, key: u64, more: u64) -> Result<(), AllocError>
        requires { amount_of self.old key + more < 2 ^ 64 }
        ensures ok { OnOk result (self.new ≡ plus_amount self.old key more) }
        ensures err { OnErr result (self.new ≡ self.old) }
        ensures absent { OnErr result (amount_of self.old key ≡ 0) }
        ensures none { OnErr result (more ≢ 0) }
        ensures formed { IsAmounts self.old }
    {
        let before = self.amount(key);
        self.set(key, before + more)
    }

    /// Takes 1 from the amount of a key that is there. It takes no memory.
    #[inline(never)]
    pub fn take_one(&mut self, key: u64)
        requires { amount_of self.old key ≢ 0 }
        ensures { self.new ≡ with_amount self.old key (amount_of self.old key - 1) }
    {
        let before = self.amount(key);
        match self.set(key, before - 1) {
            Ok(()) => {}
            Err(_) => unreachable!(),
        }
    }

    /// The keys with their amounts, as a view. It costs time and memory for each key.
    pub fn view(&self, alloc: Global) -> Result<View, AllocError>
        ensures { IfOk result (λ v. v ≡ self.now) }
    {
        let mut view = View::new(alloc);
        for (key, amount) in &self.pairs {
            view.push(*key, *amount)?;
        }
        Ok(view)
    }
}
