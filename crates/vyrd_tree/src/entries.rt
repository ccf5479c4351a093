//! The entries of a node, as they are loaded and as they are to be written.

ghost use Rattle.std.specs.Prelude.{◌≡◌, ◌<◌, ◌≤◌, ◌^◌, ◌+◌, ◌-◌, All, take, drop, slice_set};
ghost use Rattle.std.specs.Prelude.{slice_index_or, insert, remove, map, MatchOption, None, Some};
ghost use Rattle.vyrd_tree.specs.Procedures.{place_of, reply_of};
ghost use Rattle.vyrd_tree.specs.Procedures.Split.{place_below, first_key};
ghost use Rattle.vyrd_tree.specs.Procedures.Walk.{child_place};

use crate::slot::Slot;

/// A key, and its value or child.
pub(crate) type Entry = (u64, u64);

/// The entries of a node, as far as they are loaded. Loaded words are below 2^63.
#[derive(Clone, Copy)]
pub(crate) struct Entries {
    pub(crate) slots: [Entry; 4],
    ghost small: { All (λ entry. entry.1 < 2 ^ 63) slots },
}

impl Entries {
    /// Nothing is loaded.
    pub(crate) fn new() -> Entries {
        Entries { slots: [(0, 0); 4] }
    }

    /// Puts the key into the slot.
    pub(crate) fn set_key(&mut self, slot: Slot, key: u64)
        ensures { self.new.slots ≡ slice_set self.old.slots slot.place (key, 0) }
    {
        self.slots[slot.place as usize] = (key, 0);
    }

    /// Puts the value into the slot, beside the key.
    pub(crate) fn set_value(&mut self, slot: Slot, value: u64)
        requires { value < 2 ^ 63 }
        ensures { self.new.slots ≡ slice_set self.old.slots slot.place
            ((slice_index_or self.old.slots slot.place (0, 0)).0, value) }
    {
        self.slots[slot.place as usize].1 = value;
    }

    /// The value in the slot.
    fn value(self, slot: Slot) -> u64
        ensures value { result ≡ (slice_index_or self.slots slot.place (0, 0)).1 }
        ensures small { result < 2 ^ 63 }
    {
        self.slots[slot.place as usize].1
    }

    /// The place of the first entry that has the key, among this many.
    fn place_of(self, count: u32, key: u64) -> Option<usize>
        requires { count ≤ 4 }
        ensures { result ≡ place_of key (take count self.slots) }
    {
        let entries = &self.slots[..count as usize];
        entries.iter().position(|entry| entry.0 == key)
    }

    /// The slot of that entry.
    pub(crate) fn slot_of(self, count: u32, key: u64) -> Option<Slot>
        requires { count ≤ 4 }
        ensures { MatchOption result (place_of key (take count self.slots) ≡ None)
            (λ slot. (place_of key (take count self.slots) ≡ Some slot.place) × (slot.of ≡ count)) }
    {
        match self.place_of(count, key) {
            Some(place) => Slot::new(place as u32, count),
            None => None,
        }
    }

    /// What a lookup of the key replies: its value plus 1, or 0 if no entry has it.
    pub(crate) fn reply(self, count: u32, key: u64) -> u64
        requires { count ≤ 4 }
        ensures { result ≡ reply_of (take count self.slots) (place_of key (take count self.slots)) }
    {
        match self.slot_of(count, key) {
            Some(slot) => self.value(slot) + 1,
            None => 0,
        }
    }

    /// How many of the first keys, of this number, are below the key.
    pub(crate) fn place_below(self, count: u32, key: u64) -> u32
        requires { count ≤ 4 }
        ensures place { result ≡ place_below key (take count self.slots) }
        ensures few { result ≤ count }
    {
        let entries = &self.slots[..count as usize];
        entries.iter().filter(|entry| entry.0 < key).count() as u32
    }

    /// The slot of the child that the key belongs to: that of the last key, among this many, that
    /// is at most the key, and the first slot if there is none.
    pub(crate) fn child_slot(&self, count: u32, key: u64) -> Option<Slot>
        requires { count ≤ 4 }
        ensures { MatchOption result (count ≡ 0) (λ slot.
            (slot.place ≡ child_place key (map (λ entry. entry.0) (take count self.now.slots)))
            × (slot.of ≡ count)) }
    {
        let mut last = 0;
        for place in 1..count {
            if self.slots[place as usize].0 <= key {
                last = place;
            }
        }
        Slot::new(last, count)
    }

    /// With a new entry at a place: five entries.
    pub(crate) fn with(self, place: u32, entry: Entry) -> [Entry; 5]
        requires { place ≤ 4 }
        ensures { result ≡ insert self.slots place entry }
    {
        let [a, b, c, d] = self.slots;
        match place {
            0 => [entry, a, b, c, d],
            1 => [a, entry, b, c, d],
            2 => [a, b, entry, c, d],
            3 => [a, b, c, entry, d],
            _ => [a, b, c, d, entry],
        }
    }

    /// Without the entry at a place: the entries after it have moved up by one.
    pub(crate) fn without(self, slot: Slot) -> [Entry; 4]
        ensures { take (slot.of - 1) result ≡ remove (take slot.of self.slots) slot.place }
    {
        let [a, b, c, d] = self.slots;
        match slot.place {
            0 => [b, c, d, d],
            1 => [a, c, d, d],
            2 => [a, b, d, d],
            _ => [a, b, c, d],
        }
    }
}

/// The first four of five entries.
pub(crate) fn first_four(five: [Entry; 5]) -> [Entry; 4]
    ensures { result ≡ take 4 five }
{
    let [a, b, c, d, _] = five;
    [a, b, c, d]
}

/// The last two of five entries, which a split moves to a new node.
pub(crate) fn last_two(five: [Entry; 5]) -> [Entry; 4]
    ensures { take 2 result ≡ drop 3 five }
{
    let [_, _, _, d, e] = five;
    [d, e, (0, 0), (0, 0)]
}

/// The key of the first of these two.
pub(crate) fn split_key(five: [Entry; 5]) -> u64
    ensures { result ≡ first_key (drop 3 five) }
{
    five[3].0
}
