//! The values of keys that have no place of their own.

ghost use Rattle.std.specs.Prelude.{◌≡◌, false, ◌+◌, [], length, OnOk, OnErr, IfOk};
ghost use Rattle.vyrd_table.specs.Entries.{IsEntries, value_of, with_value};
ghost use Rattle.vyrd_table.specs.Prices.{question};

use crate::value::Value;
use std::alloc::{AllocError, Global};
use std::collections::BTreeMap;
use std::sync::ledger::Ledger;
use vyrd_base::Steps;

/// Values by key in an ordered map: whatever the keys are, a question to it costs the logarithm of
/// their number.
#[derive(Drop)]
pub(crate) struct Rest<V> {
    pub(crate) map: BTreeMap<u64, V>,
}

impl<V: Value> Rest<V> {
    /// No key has a value.
    pub(crate) fn new(alloc: Global) -> Rest<V>
        ensures { result.map.entries ≡ [] }
    {
        Rest {
            map: BTreeMap::new(alloc),
        }
    }

    /// The value of the key.
    #[inline(never)]
    pub(crate) fn value<L: Ledger>(&self, key: u64, steps: &mut Steps<L>) -> V
        ensures value { result ≡ value_of V.nothing self.now.map.entries key }
        ensures steps { steps.new ≡ steps.old + question (length self.now.map.entries) }
    {
        steps.add(question_of(self.map.len()));
        self.map.get(&key).copied().unwrap_or(V::nothing())
    }

    /// Gives the key this value; nothing takes the key out. Only a key that isn't there yet takes
    /// memory; if there is none, each key has the value that it had.
    #[inline(never)]
    pub(crate) fn set<L: Ledger>(
        &mut self,
        key: u64,
        value: V,
        steps: &mut Steps<L>,
    ) -> Result<(), AllocError>
        requires { IsEntries V.is_nothing self.old.map.entries }
        ensures ok { OnOk result
            (self.new.map.entries ≡ with_value V.is_nothing self.old.map.entries key value) }
        ensures err { OnErr result (self.new.map.entries ≡ self.old.map.entries) }
        ensures absent { OnErr result
            (value_of V.nothing self.old.map.entries key ≡ V.nothing) }
        ensures some { OnErr result (V.is_nothing value ≡ false) }
        ensures steps { steps.new ≡ steps.old + question (length self.old.map.entries) }
    {
        steps.add(question_of(self.map.len()));
        self.put(key, value)
    }

    /// The same, with no step counted.
    pub(crate) fn put(&mut self, key: u64, value: V) -> Result<(), AllocError>
        requires { IsEntries V.is_nothing self.old.map.entries }
        ensures ok { OnOk result
            (self.new.map.entries ≡ with_value V.is_nothing self.old.map.entries key value) }
        ensures err { OnErr result (self.new.map.entries ≡ self.old.map.entries) }
        ensures absent { OnErr result
            (value_of V.nothing self.old.map.entries key ≡ V.nothing) }
        ensures some { OnErr result (V.is_nothing value ≡ false) }
    {
        if value.is_nothing() {
            self.map.remove(&key);
        } else {
            self.map.insert(key, value)?;
        }
        Ok(())
    }

    /// The keys with their values, one after the other.
    pub(crate) fn pairs(&self, alloc: Global) -> Result<Vec<(u64, V)>, AllocError>
        ensures pairs { IfOk result (λ pairs. pairs.items ≡ self.now.map.entries) }
    {
        let mut pairs = Vec::new(alloc);
        for (key, value) in &self.map {
            pairs.push((*key, *value))?;
        }
        Ok(pairs)
    }
}

/// What a question to an ordered map of so many keys is taken to cost, in steps.
#[inline(always)]
fn question_of(keys: usize) -> usize
    ensures { result ≡ question keys }
{
    (usize::BITS - keys.leading_zeros()) as usize + 1
}
