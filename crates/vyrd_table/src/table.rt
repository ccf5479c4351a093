//! Values by key, with the steps that the calls cost.

ghost use Rattle.std.specs.Prelude.{◌≡◌, false, ◌+◌, ◌<◌, ◌≤◌, [], length, OnOk, OnErr, IfOk, None};
ghost use Rattle.vyrd_table.specs.Contents.{IsSlotOf};
ghost use Rattle.vyrd_table.specs.Entries.{IsEntries, value_of, with_value};
ghost use Rattle.vyrd_table.specs.First.{IsFirst};
ghost use Rattle.vyrd_table.specs.Places.{IsFoundAt};
ghost use Rattle.vyrd_table.specs.Prices.{look_up_price, put_price, set_price, new_price};

use crate::growing::{room_after, room_for, table_bits};
use crate::marked::Marked;
use crate::places::Places;
use crate::slot::Slot;
use crate::value::Value;
use std::alloc::{AllocError, Global};
use std::marker::{Brand, Model};
use std::sync::ledger::{Blank, Ledger};
use vyrd_base::Steps;

/// A table starts with 2^6 places at most.
const MOST_BITS_AT_FIRST: u32 = 6;

/// Values by key, to be looked up and changed. A key that isn't there has the value nothing.
///
/// A key with a value stands in one of four places of a table, and if these are taken by others, it
/// is in an ordered map. The table starts small. Once newcomers, keys that no place has the name
/// of, have come for a quarter of its places it grows fourfold, up to the places that it is made
/// for. If there is no memory for that, it never grows again.
///
/// The contracts say what the calls cost: a look-up costs no more than four places and a question
/// to the ordered map, which is the logarithm of the number of keys, whatever the keys are. A value
/// that is set costs no more than twice that and a share of what growing costs; what of the share
/// isn't used is saved.
#[derive(Drop)]
pub struct Table<V: Value> {
    places: Places<V>,
    /// So many newcomers may come before it grows; 0 if it doesn't grow.
    room: usize,
    /// It grows up to 2^most_bits places.
    most_bits: u32,
}

impl<V: Value> Model for Table<V> {
    ghost use Rattle.std.specs.Prelude.{◌-◌};
    ghost use Rattle.vyrd_table.specs.Contents.{Contents};

    ghost Value = { Contents V };

    ghost use Rattle.vyrd_table.specs.Growing.{IsTable};
    ghost use Rattle.vyrd_table.specs.Placed.{entries_of};
    ghost use Rattle.vyrd_table.specs.Prices.{saved_by};

    ghost view = { λ t. record {
      entries = entries_of V.is_nothing t.places;
      saved = saved_by (64 - t.places.shift) t.room;
      places = t.places.pairs.items;
      shift = t.places.shift;
    } };

    ghost invariant = { λ t. IsTable V.nothing V.is_nothing t.places t.room t.most_bits };
}

impl<V: Value> Table<V> {
    /// The table with no key, made for that many keys: it grows up to two to four places for each,
    /// and has 64 places or fewer at first. Each place takes the room of a key and a value, while
    /// the table grows those of the old places too, and a key that finds a place takes no further
    /// memory.
    pub fn new_counted<L: Ledger>(
        alloc: Global,
        keys: usize,
        steps: &mut Steps<L>,
    ) -> Result<Table<V>, AllocError>
        ensures entries { IfOk result (λ table. table.entries ≡ []) }
        ensures saved { IfOk result (λ table. table.saved ≡ 0) }
        ensures steps { steps.new ≤ steps.old + new_price }
    {
        let most_bits = table_bits(keys);
        let bits = most_bits.min(MOST_BITS_AT_FIRST);
        Ok(Table {
            places: Places::new(alloc, bits, steps)?,
            room: room_for(bits, most_bits),
            most_bits,
        })
    }

    /// The value of the key.
    #[inline(always)]
    pub fn value_counted<L: Ledger>(&self, key: u64, steps: &mut Steps<L>) -> V
        ensures value { result ≡ value_of V.nothing self.now.entries key }
        ensures formed { IsEntries V.is_nothing self.now.entries }
        ensures steps { steps.new ≤ steps.old + look_up_price (length self.now.entries) }
    {
        let place = self.places.find(key, steps);
        self.places.value_at(key, place, steps)
    }

    /// The value of the key, and where it is to be put.
    #[inline(always)]
    pub fn find_counted<L: Ledger>(&self, key: u64, steps: &mut Steps<L>) -> Slot<V>
        ensures value { result.value ≡ value_of V.nothing self.now.entries key }
        ensures formed { IsEntries V.is_nothing self.now.entries }
        ensures slot { IsSlotOf V.nothing self.now key result }
        ensures steps { steps.new ≤ steps.old + look_up_price (length self.now.entries) }
    {
        let place = self.places.find(key, steps);
        Slot {
            value: self.places.value_at(key, place, steps),
            place,
        }
    }

    /// Gives the key, which was looked up, this value. Nothing takes the key out. Only a key that
    /// isn't there yet takes memory; if there is none, the table has the values that it had.
    #[inline(always)]
    pub fn put_counted<L: Ledger>(
        &mut self,
        key: u64,
        slot: Slot<V>,
        value: V,
        steps: &mut Steps<L>,
    ) -> Result<(), AllocError>
        requires slot { IsSlotOf V.nothing self.old key slot }
        ensures ok { OnOk result
            (self.new.entries ≡ with_value V.is_nothing self.old.entries key value) }
        ensures err { OnErr result (self.new.entries ≡ self.old.entries) }
        ensures absent { OnErr result (value_of V.nothing self.old.entries key ≡ V.nothing) }
        ensures some { OnErr result (V.is_nothing value ≡ false) }
        ensures steps { steps.new + self.new.saved
            ≤ steps.old + self.old.saved + put_price (length self.old.entries) }
    {
        match slot.place {
            Some(place) => {
                self.places.put_at(key, place, value, steps);
                Ok(())
            }
            None => self.put_anew(key, value, steps),
        }
    }

    /// Gives a key that no place has the name of this value, and then the table grows if that is
    /// due.
    #[inline(never)]
    fn put_anew<L: Ledger>(
        &mut self,
        key: u64,
        value: V,
        steps: &mut Steps<L>,
    ) -> Result<(), AllocError>
        requires { IsFoundAt V.nothing self.old.shift self.old.places key None }
        ensures ok { OnOk result
            (self.new.entries ≡ with_value V.is_nothing self.old.entries key value) }
        ensures err { OnErr result (self.new.entries ≡ self.old.entries) }
        ensures absent { OnErr result (value_of V.nothing self.old.entries key ≡ V.nothing) }
        ensures some { OnErr result (V.is_nothing value ≡ false) }
        ensures steps { steps.new + self.new.saved
            ≤ steps.old + self.old.saved + put_price (length self.old.entries) }
    {
        self.places.put_anew(key, value, steps)?;
        if value.is_nothing() {
            return Ok(());
        }
        self.room = room_after(&mut self.places, self.room, self.most_bits, steps);
        Ok(())
    }

    /// Gives the key this value. Nothing takes the key out. Only a key that isn't there yet takes
    /// memory; if there is none, the table has the values that it had.
    #[inline(always)]
    pub fn set_counted<L: Ledger>(
        &mut self,
        key: u64,
        value: V,
        steps: &mut Steps<L>,
    ) -> Result<(), AllocError>
        ensures ok { OnOk result
            (self.new.entries ≡ with_value V.is_nothing self.old.entries key value) }
        ensures err { OnErr result (self.new.entries ≡ self.old.entries) }
        ensures absent { OnErr result (value_of V.nothing self.old.entries key ≡ V.nothing) }
        ensures some { OnErr result (V.is_nothing value ≡ false) }
        ensures steps { steps.new + self.new.saved
            ≤ steps.old + self.old.saved + set_price (length self.old.entries) }
    {
        match self.places.find(key, steps) {
            Some(place) => {
                self.places.put_at(key, place, value, steps);
                Ok(())
            }
            None => self.put_anew(key, value, steps),
        }
    }

    /// All keys with their values, the keys rising. It goes through the whole table, and takes time
    /// and memory for each place and each key.
    pub fn entries(&self, alloc: Global) -> Result<Vec<(u64, V)>, AllocError>
        ensures entries { IfOk result (λ pairs. pairs.items ≡ self.now.entries) }
        ensures formed { IsEntries V.is_nothing self.now.entries }
    {
        self.places.listed(alloc)
    }

    /// The table with no key, as `new_counted` makes it.
    pub fn new(alloc: Global, keys: usize) -> Result<Table<V>, AllocError>
        ensures entries { IfOk result (λ table. table.entries ≡ []) }
    {
        new_alone::<V, Brand>(Blank::new(1), alloc, keys)
    }

    /// The value of the key.
    #[inline(always)]
    pub fn value(&self, key: u64) -> V
        ensures value { result ≡ value_of V.nothing self.now.entries key }
        ensures formed { IsEntries V.is_nothing self.now.entries }
    {
        value_alone::<V, Brand>(Blank::new(1), self, key)
    }

    /// The value of the key, and where it is to be put.
    #[inline(always)]
    pub fn find(&self, key: u64) -> Slot<V>
        ensures value { result.value ≡ value_of V.nothing self.now.entries key }
        ensures formed { IsEntries V.is_nothing self.now.entries }
        ensures slot { IsSlotOf V.nothing self.now key result }
    {
        find_alone::<V, Brand>(Blank::new(1), self, key)
    }

    /// Gives the key, which was looked up, this value, as `put_counted` does.
    #[inline(always)]
    pub fn put(&mut self, key: u64, slot: Slot<V>, value: V) -> Result<(), AllocError>
        requires slot { IsSlotOf V.nothing self.old key slot }
        ensures ok { OnOk result
            (self.new.entries ≡ with_value V.is_nothing self.old.entries key value) }
        ensures err { OnErr result (self.new.entries ≡ self.old.entries) }
        ensures absent { OnErr result (value_of V.nothing self.old.entries key ≡ V.nothing) }
        ensures some { OnErr result (V.is_nothing value ≡ false) }
    {
        put_alone::<V, Brand>(Blank::new(1), self, key, slot, value)
    }

    /// Gives the key this value, as `set_counted` does.
    #[inline(always)]
    pub fn set(&mut self, key: u64, value: V) -> Result<(), AllocError>
        ensures ok { OnOk result
            (self.new.entries ≡ with_value V.is_nothing self.old.entries key value) }
        ensures err { OnErr result (self.new.entries ≡ self.old.entries) }
        ensures absent { OnErr result (value_of V.nothing self.old.entries key ≡ V.nothing) }
        ensures some { OnErr result (V.is_nothing value ≡ false) }
    {
        set_alone::<V, Brand>(Blank::new(1), self, key, value)
    }
}

impl<V: Marked> Table<V> {
    /// The least key whose value is marked, or none if there is none. It goes through the whole
    /// table, and takes no memory.
    pub fn first_marked(&self) -> Option<u64>
        ensures { IsFirst V.nothing V.is_marked self.now.entries result }
    {
        self.places.first_marked()
    }
}

/// Makes a table with a count of its own.
fn new_alone<V: Value, L: Ledger>(
    blank: Blank,
    alloc: Global,
    keys: usize,
) -> Result<Table<V>, AllocError>
    requires name { blank.name ≡ L.name }
    requires parts { blank.parts ≡ L.parts }
    requires some { 0 < blank.parts }
    ensures entries { IfOk result (λ table. table.entries ≡ []) }
{
    let mut steps = Steps::<L>::new(blank);
    Table::new_counted(alloc, keys, &mut steps)
}

/// Looks a key up with a count of its own.
#[inline(always)]
fn value_alone<V: Value, L: Ledger>(blank: Blank, table: &Table<V>, key: u64) -> V
    requires name { blank.name ≡ L.name }
    requires parts { blank.parts ≡ L.parts }
    requires some { 0 < blank.parts }
    ensures value { result ≡ value_of V.nothing table.now.entries key }
    ensures formed { IsEntries V.is_nothing table.now.entries }
{
    let mut steps = Steps::<L>::new(blank);
    table.value_counted(key, &mut steps)
}

/// Looks a key up for a `put`, with a count of its own.
#[inline(always)]
fn find_alone<V: Value, L: Ledger>(blank: Blank, table: &Table<V>, key: u64) -> Slot<V>
    requires name { blank.name ≡ L.name }
    requires parts { blank.parts ≡ L.parts }
    requires some { 0 < blank.parts }
    ensures value { result.value ≡ value_of V.nothing table.now.entries key }
    ensures formed { IsEntries V.is_nothing table.now.entries }
    ensures slot { IsSlotOf V.nothing table.now key result }
{
    let mut steps = Steps::<L>::new(blank);
    table.find_counted(key, &mut steps)
}

/// Gives a key that was looked up a value, with a count of its own.
#[inline(always)]
fn put_alone<V: Value, L: Ledger>(
    blank: Blank,
    table: &mut Table<V>,
    key: u64,
    slot: Slot<V>,
    value: V,
) -> Result<(), AllocError>
    requires name { blank.name ≡ L.name }
    requires parts { blank.parts ≡ L.parts }
    requires some { 0 < blank.parts }
    requires slot { IsSlotOf V.nothing table.old key slot }
    ensures ok { OnOk result
        (table.new.entries ≡ with_value V.is_nothing table.old.entries key value) }
    ensures err { OnErr result (table.new.entries ≡ table.old.entries) }
    ensures absent { OnErr result (value_of V.nothing table.old.entries key ≡ V.nothing) }
    ensures some { OnErr result (V.is_nothing value ≡ false) }
{
    let mut steps = Steps::<L>::new(blank);
    table.put_counted(key, slot, value, &mut steps)
}

/// Gives a key a value with a count of its own.
#[inline(always)]
fn set_alone<V: Value, L: Ledger>(
    blank: Blank,
    table: &mut Table<V>,
    key: u64,
    value: V,
) -> Result<(), AllocError>
    requires name { blank.name ≡ L.name }
    requires parts { blank.parts ≡ L.parts }
    requires some { 0 < blank.parts }
    ensures ok { OnOk result
        (table.new.entries ≡ with_value V.is_nothing table.old.entries key value) }
    ensures err { OnErr result (table.new.entries ≡ table.old.entries) }
    ensures absent { OnErr result (value_of V.nothing table.old.entries key ≡ V.nothing) }
    ensures some { OnErr result (V.is_nothing value ≡ false) }
{
    let mut steps = Steps::<L>::new(blank);
    table.set_counted(key, value, &mut steps)
}
