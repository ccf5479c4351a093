//! Places in a row in which a key may stand.

ghost use Rattle.std.specs.Prelude.{◌≡◌, ◌+◌, ◌-◌, ◌<◌, ◌≤◌, ◌==◌, true, false, length};
ghost use Rattle.std.specs.Prelude.{replicate, [], OnOk, OnErr, IfOk, IfSome, Some, None};
ghost use Rattle.vyrd_table.specs.Entries.{value_of, with_value};
ghost use Rattle.vyrd_table.specs.Places.{reach, bits_at_most, place_count, first_place, is_taken};
ghost use Rattle.vyrd_table.specs.Places.{one_name, place_at, IsFoundAt};
ghost use Rattle.vyrd_table.specs.Prices.{question, newcomer_price};

use crate::rest::Rest;
use crate::value::Value;
use std::alloc::{AllocError, Global};
use std::sync::ledger::Ledger;
use vyrd_base::Steps;

/// How many places in a row a key may stand in.
pub(crate) const REACH: usize = 4;

/// 2^64 times the fraction of the golden ratio, an odd number. Its multiples modulo 2^64 lie far
/// apart.
const SPREAD: u64 = 0x9E37_79B9_7F4A_7C15;

/// Places, each with a key and its value, and the keys that find no place. A key with a value
/// stands in one of four places, and if these are taken by others, it is among the rest.
#[derive(Drop)]
pub(crate) struct Places<V> {
    pub(crate) pairs: Vec<(u64, V)>,
    pub(crate) shift: u32,
    pub(crate) rest: Rest<V>,
}

impl<V: Value> Places<V> {
    ghost use Rattle.vyrd_table.specs.Placed.{ArePlaced, entries_of, names_of};

    /// No key has a value. There are 2^bits places and a few more.
    pub(crate) fn new<L: Ledger>(
        alloc: Global,
        bits: u32,
        steps: &mut Steps<L>,
    ) -> Result<Places<V>, AllocError>
        requires { (1 ≤ bits) × (bits ≤ bits_at_most) }
        ensures placed { IfOk result (λ places. ArePlaced V.nothing V.is_nothing places) }
        ensures entries { IfOk result (λ places. entries_of V.is_nothing places ≡ []) }
        ensures names { IfOk result (λ places. names_of places ≡ 1) }
        ensures shift { IfOk result (λ places. places.shift + bits ≡ 64) }
        ensures steps { steps.new ≡ steps.old + place_count bits }
    {
        Ok(Places {
            pairs: free_places::<V, L>(alloc, bits, steps)?,
            shift: u64::BITS - bits,
            rest: Rest::new(alloc),
        })
    }

    /// The first of the places in which the key may stand.
    #[inline(always)]
    fn first_of(&self, key: u64) -> usize
        requires { self.now.shift < 64 }
        ensures { result ≡ first_place self.now.shift key }
    {
        (key.wrapping_mul(SPREAD) >> self.shift) as usize
    }

    /// The first place of the key that has its name, if there is one.
    #[inline(always)]
    pub(crate) fn find<L: Ledger>(&self, key: u64, steps: &mut Steps<L>) -> Option<usize>
        requires shift { self.now.shift < 64 }
        requires room { first_place self.now.shift key + reach ≤ length self.now.pairs.items }
        ensures found { IsFoundAt V.nothing self.now.shift self.now.pairs.items key result }
        ensures steps { steps.new ≤ steps.old + reach }
    {
        let first = self.first_of(key);
        for i in first..first + REACH {
            steps.tick();
            if self.pairs[i].0 == key {
                return Some(i);
            }
        }
        None
    }

    /// A free place for the key, if there is one.
    fn free_place<L: Ledger>(&self, key: u64, steps: &mut Steps<L>) -> Option<usize>
        requires shift { self.now.shift < 64 }
        requires room { first_place self.now.shift key + reach ≤ length self.now.pairs.items }
        ensures from { IfSome result (λ i. first_place self.now.shift key ≤ i) }
        ensures to { IfSome result (λ i. i < first_place self.now.shift key + reach) }
        ensures free { IfSome result
            (λ i. is_taken V.is_nothing (place_at V.nothing self.now.pairs.items i) ≡ false) }
        ensures steps { steps.new ≤ steps.old + reach }
    {
        let first = self.first_of(key);
        for i in first..first + REACH {
            steps.tick();
            if self.pairs[i].1.is_nothing() {
                return Some(i);
            }
        }
        None
    }

    /// The value of a key that stands there.
    #[inline(always)]
    pub(crate) fn value_at<L: Ledger>(
        &self,
        key: u64,
        place: Option<usize>,
        steps: &mut Steps<L>,
    ) -> V
        requires placed { ArePlaced V.nothing V.is_nothing self.now }
        requires found { IsFoundAt V.nothing self.now.shift self.now.pairs.items key place }
        ensures value { result ≡ value_of V.nothing (entries_of V.is_nothing self.now) key }
        ensures steps { steps.new
            ≤ steps.old + question (length (entries_of V.is_nothing self.now)) }
    {
        match place {
            Some(place) => self.pairs[place].1,
            None => self.rest.value(key, steps),
        }
    }

    /// Gives a key a value in the place that has its name.
    #[inline(always)]
    pub(crate) fn put_at<L: Ledger>(
        &mut self,
        key: u64,
        place: usize,
        value: V,
        steps: &mut Steps<L>,
    )
        requires placed { ArePlaced V.nothing V.is_nothing self.old }
        requires found { IsFoundAt V.nothing self.old.shift self.old.pairs.items key (Some place) }
        ensures placed { ArePlaced V.nothing V.is_nothing self.new }
        ensures entries { entries_of V.is_nothing self.new
            ≡ with_value V.is_nothing (entries_of V.is_nothing self.old) key value }
        ensures names { names_of self.new ≤ names_of self.old }
        ensures shift { self.new.shift ≡ self.old.shift }
        ensures steps { steps.new ≡ steps.old + 1 }
    {
        steps.tick();
        self.pairs[place] = (key, value);
    }

    /// Gives a value to a key that no place has the name of: in a free place of its own, if there
    /// is one and it isn't among the rest. Nothing takes the key out.
    pub(crate) fn put_anew<L: Ledger>(
        &mut self,
        key: u64,
        value: V,
        steps: &mut Steps<L>,
    ) -> Result<(), AllocError>
        requires placed { ArePlaced V.nothing V.is_nothing self.old }
        requires missing { IsFoundAt V.nothing self.old.shift self.old.pairs.items key None }
        ensures placed { ArePlaced V.nothing V.is_nothing self.new }
        ensures ok { OnOk result (entries_of V.is_nothing self.new
            ≡ with_value V.is_nothing (entries_of V.is_nothing self.old) key value) }
        ensures err { OnErr result
            (entries_of V.is_nothing self.new ≡ entries_of V.is_nothing self.old) }
        ensures absent { OnErr result
            (value_of V.nothing (entries_of V.is_nothing self.old) key ≡ V.nothing) }
        ensures some { OnErr result (V.is_nothing value ≡ false) }
        ensures names { names_of self.new ≤ names_of self.old + one_name key }
        ensures unnamed { OnErr result (names_of self.new ≡ names_of self.old) }
        ensures taken_out { V.is_nothing value ≡ true → names_of self.new ≤ names_of self.old }
        ensures shift { self.new.shift ≡ self.old.shift }
        ensures steps { steps.new
            ≤ steps.old + newcomer_price (length (entries_of V.is_nothing self.old)) }
    {
        match self.place_for(key, value, steps) {
            Some(place) => {
                steps.tick();
                self.pairs[place] = (key, value);
                Ok(())
            }
            None => self.rest.set(key, value, steps),
        }
    }

    /// A free place for a key with this value, if there is one and the key isn't among the rest.
    /// Nothing needs none.
    fn place_for<L: Ledger>(&self, key: u64, value: V, steps: &mut Steps<L>) -> Option<usize>
        requires shift { self.now.shift < 64 }
        requires room { first_place self.now.shift key + reach ≤ length self.now.pairs.items }
        ensures from { IfSome result (λ i. first_place self.now.shift key ≤ i) }
        ensures to { IfSome result (λ i. i < first_place self.now.shift key + reach) }
        ensures free { IfSome result
            (λ i. is_taken V.is_nothing (place_at V.nothing self.now.pairs.items i) ≡ false) }
        ensures away { IfSome result
            (λ _. V.is_nothing (value_of V.nothing self.now.rest.map.entries key) ≡ true) }
        ensures some { IfSome result (λ _. V.is_nothing value ≡ false) }
        ensures steps { steps.new
            ≤ steps.old + (reach + question (length self.now.rest.map.entries)) }
    {
        if value.is_nothing() || !self.rest.value(key, steps).is_nothing() {
            return None;
        }
        self.free_place(key, steps)
    }
}

/// Free places, 2^bits and a few more.
fn free_places<V: Value, L: Ledger>(
    alloc: Global,
    bits: u32,
    steps: &mut Steps<L>,
) -> Result<Vec<(u64, V)>, AllocError>
    requires { (1 ≤ bits) × (bits ≤ bits_at_most) }
    ensures free { IfOk result
        (λ places. places.items ≡ replicate (place_count bits) (0, V.nothing)) }
    ensures steps { steps.new ≡ steps.old + place_count bits }
{
    let count = count_of(bits);
    steps.add(count);
    vec![in alloc; (0, V::nothing()); count]
}

/// How many places there are: 2^bits, and as many more as the last of them has after it for its
/// keys.
fn count_of(bits: u32) -> usize
    requires { bits ≤ bits_at_most }
    ensures { result ≡ place_count bits }
{
    (1 << bits) + (REACH - 1)
}
