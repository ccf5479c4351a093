//! All keys with their values, in the order of the keys.

ghost use Rattle.std.specs.Prelude.{◌≡◌, cond, OnOk, IfOk};
ghost use Rattle.vyrd_table.specs.Entries.{IsEntries, with_value};
ghost use Rattle.vyrd_table.specs.Places.{AreNew, entries_in};

use crate::places::Places;
use crate::rest::Rest;
use crate::value::Value;
use std::alloc::{AllocError, Global};

impl<V: Value> Places<V> {
    ghost use Rattle.vyrd_table.specs.Placed.{ArePlaced, entries_of};

    /// The keys with their values, the keys rising.
    pub(crate) fn listed(&self, alloc: Global) -> Result<Vec<(u64, V)>, AllocError>
        requires { ArePlaced V.nothing V.is_nothing self.now }
        ensures { IfOk result (λ pairs. pairs.items ≡ entries_of V.is_nothing self.now) }
    {
        let mut all = Rest::new(alloc);
        let rest = self.rest.pairs(alloc)?;
        all.take_all(&rest)?;
        all.take_all(&self.pairs)?;
        all.pairs(alloc)
    }
}

impl<V: Value> Rest<V> {
    /// The key of each of these places comes with its value.
    fn take_all(&mut self, pairs: &[(u64, V)]) -> Result<(), AllocError>
        requires formed { IsEntries V.is_nothing self.old.map.entries }
        requires new { AreNew V.nothing V.is_nothing self.old.map.entries pairs.now }
        ensures { OnOk result
            (self.new.map.entries ≡ entries_in V.is_nothing pairs.now self.old.map.entries) }
    {
        for pair in pairs {
            self.take(pair)?;
        }
        Ok(())
    }

    /// The key of a place comes with its value, if it has one.
    fn take(&mut self, pair: &(u64, V)) -> Result<(), AllocError>
        requires { IsEntries V.is_nothing self.old.map.entries }
        ensures { OnOk result (self.new.map.entries
            ≡ cond (V.is_nothing pair.now.1) self.old.map.entries
            (with_value V.is_nothing self.old.map.entries pair.now.0 pair.now.1)) }
    {
        let (key, value) = *pair;
        if value.is_nothing() {
            return Ok(());
        }
        self.put(key, value)
    }
}
