//! Places that all keys come to, one by one.

ghost use Rattle.std.specs.Prelude.{◌≡◌, ◌+◌, ◌*◌, ◌<◌, ◌≤◌, length, cond, count_by};
ghost use Rattle.std.specs.Prelude.{OnOk, IfOk};
ghost use Rattle.vyrd_table.specs.Entries.{with_value};
ghost use Rattle.vyrd_table.specs.Places.{reach, bits_at_most, place_count, is_taken, is_named};
ghost use Rattle.vyrd_table.specs.Places.{one_name, AreNew};
ghost use Rattle.vyrd_table.specs.Places.{entries_in};
ghost use Rattle.vyrd_table.specs.Prices.{most_keys, newcomer_price, transfer_price};
ghost use Rattle.vyrd_table.specs.Prices.{moving_price};

use crate::places::Places;
use crate::value::Value;
use std::alloc::AllocError;
use std::sync::ledger::Ledger;
use vyrd_base::Steps;

impl<V: Value> Places<V> {
    ghost use Rattle.vyrd_table.specs.Placed.{ArePlaced, entries_of, names_of};

    /// The same values in 2^bits places.
    pub(crate) fn moved<L: Ledger>(
        &self,
        bits: u32,
        steps: &mut Steps<L>,
    ) -> Result<Places<V>, AllocError>
        requires placed { ArePlaced V.nothing V.is_nothing self.now }
        requires bits { (1 ≤ bits) × (bits ≤ bits_at_most) }
        requires fits { length (entries_of V.is_nothing self.now) < most_keys }
        ensures placed { IfOk result (λ places. ArePlaced V.nothing V.is_nothing places) }
        ensures entries { IfOk result
            (λ places. entries_of V.is_nothing places ≡ entries_of V.is_nothing self.now) }
        ensures names { IfOk result (λ places. names_of places ≤ names_of self.now) }
        ensures shift { IfOk result (λ places. places.shift + bits ≡ 64) }
        ensures steps { steps.new ≤ steps.old
            + moving_price (length (entries_of V.is_nothing self.now))
            (length self.now.pairs.items) (place_count bits) }
    {
        let alloc = *self.pairs.allocator();
        let mut larger = Places::new(alloc, bits, steps)?;
        steps.add(self.rest.map.len());
        let rest = self.rest.pairs(alloc)?;
        larger.take_all(&rest, steps)?;
        larger.take_all(&self.pairs, steps)?;
        Ok(larger)
    }

    /// The key of each of these places comes with its value.
    fn take_all<L: Ledger>(
        &mut self,
        pairs: &[(u64, V)],
        steps: &mut Steps<L>,
    ) -> Result<(), AllocError>
        requires placed { ArePlaced V.nothing V.is_nothing self.old }
        requires new { AreNew V.nothing V.is_nothing (entries_of V.is_nothing self.old) pairs.now }
        requires fits { length (entries_of V.is_nothing self.old)
            + count_by (is_taken V.is_nothing) pairs.now < most_keys }
        ensures placed { OnOk result (ArePlaced V.nothing V.is_nothing self.new) }
        ensures ok { OnOk result (entries_of V.is_nothing self.new
            ≡ entries_in V.is_nothing pairs.now (entries_of V.is_nothing self.old)) }
        ensures names { OnOk result
            (names_of self.new ≤ names_of self.old + count_by is_named pairs.now) }
        ensures shift { OnOk result (self.new.shift ≡ self.old.shift) }
        ensures steps { steps.new ≤ steps.old
            + (length pairs.now + transfer_price * count_by (is_taken V.is_nothing) pairs.now) }
    {
        for pair in pairs {
            self.take(pair, steps)?;
        }
        Ok(())
    }

    /// The key of a place comes with its value, if it has one.
    fn take<L: Ledger>(&mut self, pair: &(u64, V), steps: &mut Steps<L>) -> Result<(), AllocError>
        requires placed { ArePlaced V.nothing V.is_nothing self.old }
        requires fits { length (entries_of V.is_nothing self.old) < most_keys }
        ensures placed { ArePlaced V.nothing V.is_nothing self.new }
        ensures ok { OnOk result (entries_of V.is_nothing self.new
            ≡ cond (V.is_nothing pair.now.1) (entries_of V.is_nothing self.old)
            (with_value V.is_nothing (entries_of V.is_nothing self.old) pair.now.0 pair.now.1)) }
        ensures names { names_of self.new ≤ names_of self.old + one_name pair.now.0 }
        ensures shift { self.new.shift ≡ self.old.shift }
        ensures steps { steps.new
            ≤ steps.old + (1 + transfer_price * cond (V.is_nothing pair.now.1) 0 1) }
    {
        steps.tick();
        let (key, value) = *pair;
        if value.is_nothing() {
            return Ok(());
        }
        self.put_in_place(key, value, steps)
    }

    /// Gives the key a value in the places that there are.
    fn put_in_place<L: Ledger>(
        &mut self,
        key: u64,
        value: V,
        steps: &mut Steps<L>,
    ) -> Result<(), AllocError>
        requires placed { ArePlaced V.nothing V.is_nothing self.old }
        ensures placed { ArePlaced V.nothing V.is_nothing self.new }
        ensures ok { OnOk result (entries_of V.is_nothing self.new
            ≡ with_value V.is_nothing (entries_of V.is_nothing self.old) key value) }
        ensures names { names_of self.new ≤ names_of self.old + one_name key }
        ensures shift { self.new.shift ≡ self.old.shift }
        ensures steps { steps.new ≤ steps.old
            + (reach + newcomer_price (length (entries_of V.is_nothing self.old))) }
    {
        match self.find(key, steps) {
            Some(place) => {
                self.put_at(key, place, value, steps);
                Ok(())
            }
            None => self.put_anew(key, value, steps),
        }
    }
}
