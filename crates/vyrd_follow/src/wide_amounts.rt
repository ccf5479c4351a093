//! Amounts of 128 bits by key in memory, where each can be looked up and changed.

ghost use Rattle.std.specs.Prelude.{◌≡◌, OnOk, []};
ghost use Rattle.vyrd_base.specs.Amounts.{IsAmounts, amount_of, with_amount};

use std::alloc::{AllocError, Global};
use std::collections::BTreeMap;
use std::marker::Model;

/// Amounts by key, to be looked up and changed. A key that isn't there has the amount 0, and takes
/// no memory. Each call takes time in the logarithm of the number of keys.
#[derive(Drop)]
pub(crate) struct WideAmounts {
    pairs: BTreeMap<u64, u128>,
}

impl Model for WideAmounts {
    ghost use Rattle.vyrd_base.specs.Amounts.{Amounts, IsAmounts};

    ghost Value = { Amounts };

    ghost view = { λ m. m.pairs.entries };

    ghost invariant = { λ m. IsAmounts m.pairs.entries };
}

impl WideAmounts {
    /// Those with no key. They take no memory.
    pub(crate) fn new(alloc: Global) -> WideAmounts
        ensures { result ≡ [] }
    {
        WideAmounts {
            pairs: BTreeMap::new(alloc),
        }
    }

    /// The amount of the key, and 0 if it isn't there.
    pub(crate) fn amount(&self, key: u64) -> u128
        ensures amount { result ≡ amount_of self.now key }
        ensures formed { IsAmounts self.now }
    {
        self.pairs.get(&key).copied().unwrap_or(0)
    }

    /// Gives the key this amount; 0 takes the key out. Only a key that isn't there yet takes
    /// memory. The only error is that there is none.
    pub(crate) fn set(&mut self, key: u64, amount: u128) -> Result<(), AllocError>
        ensures { OnOk result (self.new ≡ with_amount self.old key amount) }
    {
        if amount == 0 {
            self.pairs.remove(&key);
        } else {
            self.pairs.insert(key, amount)?;
        }
        Ok(())
    }
}
