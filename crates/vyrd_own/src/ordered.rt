//! Amounts by key in the order of their keys.

ghost use Rattle.std.specs.Prelude.{◌≡◌, ◌≢◌, OnOk, OnErr, IfOk, [], length};
ghost use Rattle.vyrd_base.specs.Amounts.{amount_of, with_amount};
ghost use Rattle.vyrd_base.specs.Own.Expressions.{least_from, greatest_to};

use std::alloc::{AllocError, Global};
use std::collections::BTreeMap;
use std::marker::Model;
use std::ops::Bound;

/// Amounts by key, to be looked up, changed and asked for the nearest key. Each call takes time in
/// the logarithm of the number of keys.
#[derive(Drop)]
pub struct OrderedAmounts {
    pairs: BTreeMap<u64, u64>,
}

impl Model for OrderedAmounts {
    ghost use Rattle.vyrd_base.specs.Amounts.{Amounts, IsAmounts};

    ghost Value = { Amounts };

    ghost view = { λ m. m.pairs.entries };

    ghost invariant = { λ m. IsAmounts m.pairs.entries };
}

impl OrderedAmounts {
    /// No key.
    pub fn new(alloc: Global) -> OrderedAmounts
        ensures { result ≡ [] }
    {
        OrderedAmounts {
            pairs: BTreeMap::new(alloc),
        }
    }

    /// Gives the key this amount; 0 takes the key out. Only a key that isn't there yet takes
    /// memory; if there is none, all is as it was.
    pub fn set(&mut self, key: u64, amount: u64) -> Result<(), AllocError>
        ensures ok { OnOk result (self.new ≡ with_amount self.old key amount) }
        ensures err { OnErr result (self.new ≡ self.old) }
        ensures absent { OnErr result (amount_of self.old key ≡ 0) }
    {
        if amount == 0 {
            self.remove(key);
        } else {
            self.pairs.insert(key, amount)?;
        }
        Ok(())
    }

    /// How many keys there are.
    pub fn count(&self) -> u64
        ensures { result ≡ length self.now }
    {
        self.pairs.len() as u64
    }

    /// Takes the key out, if it is there.
    pub fn remove(&mut self, key: u64)
        ensures { self.new ≡ with_amount self.old key 0 }
    {
        self.pairs.remove(&key);
    }

    /// The least key from this one on.
    pub fn least(&self, key: u64) -> u64
        ensures { result ≡ least_from key self.now }
    {
        match self
            .pairs
            .range((Bound::Included(key), Bound::Unbounded))
            .next()
        {
            Some((found, _)) => *found,
            None => u64::MAX,
        }
    }

    /// The greatest key up to this one.
    pub fn greatest(&self, key: u64) -> u64
        ensures { result ≡ greatest_to key self.now }
    {
        match self
            .pairs
            .range((Bound::Unbounded, Bound::Included(key)))
            .next_back()
        {
            Some((found, _)) => *found,
            None => u64::MAX,
        }
    }
}
