//! When a table grows, and to how many places.

ghost use Rattle.std.specs.Prelude.{◌≡◌, ◌+◌, ◌-◌, ◌*◌, ◌/◌, ◌<◌, ◌≤◌, ◌^◌, min};
ghost use Rattle.vyrd_table.specs.Growing.{HasRoom};
ghost use Rattle.vyrd_table.specs.Placed.{ArePlaced, entries_of, names_of};
ghost use Rattle.vyrd_table.specs.Places.{bits_at_least, bits_at_most};
ghost use Rattle.vyrd_table.specs.Prices.{growing_share, saved_by, first_room};

use crate::places::Places;
use crate::value::Value;
use std::sync::ledger::Ledger;
use vyrd_base::Steps;

/// A table is made for 2^3 places at least.
const LEAST_BITS: u32 = 3;

/// A table has 2^20 places at most.
const MOST_BITS: u32 = 20;

/// A table grows to 2^2 times as many places.
const MORE_BITS: u32 = 2;

/// A table grows once keys have come for 1 in 2^2 of its places.
const FILLED_BITS: u32 = 2;

/// One newcomer has come to a table that had room for that many more before it grows up to
/// 2^most_bits places. Answers for how many it has room now.
pub(crate) fn room_after<V: Value, L: Ledger>(
    places: &mut Places<V>,
    room: usize,
    most_bits: u32,
    steps: &mut Steps<L>,
) -> usize
    requires placed { ArePlaced V.nothing V.is_nothing places.old }
    requires room { HasRoom (64 - places.old.shift) (names_of places.old - 1) most_bits room }
    ensures placed { ArePlaced V.nothing V.is_nothing places.new }
    ensures entries { entries_of V.is_nothing places.new ≡ entries_of V.is_nothing places.old }
    ensures room { HasRoom (64 - places.new.shift) (names_of places.new) most_bits result }
    ensures steps { steps.new + saved_by (64 - places.new.shift) result
        ≤ steps.old + (saved_by (64 - places.old.shift) room + growing_share) }
{
    match room {
        0 => 0,
        1 => grow(places, most_bits, steps),
        _ => room - 1,
    }
}

/// Makes four times as many places, up to 2^most_bits, and has each key among them. Answers how
/// many newcomers may come before they become more. If there is no memory, the places stay as they
/// are, and no newcomer makes them more.
#[inline(never)]
fn grow<V: Value, L: Ledger>(places: &mut Places<V>, most_bits: u32, steps: &mut Steps<L>) -> usize
    requires placed { ArePlaced V.nothing V.is_nothing places.old }
    requires half { names_of places.old ≤ 2 ^ (64 - places.old.shift) / 2 }
    requires least { bits_at_least ≤ 64 - places.old.shift }
    requires larger { 64 - places.old.shift < most_bits }
    requires most { most_bits ≤ bits_at_most }
    ensures placed { ArePlaced V.nothing V.is_nothing places.new }
    ensures entries { entries_of V.is_nothing places.new ≡ entries_of V.is_nothing places.old }
    ensures room { HasRoom (64 - places.new.shift) (names_of places.new) most_bits result }
    ensures saved { saved_by (64 - places.new.shift) result ≡ 0 }
    ensures steps { steps.new
        ≤ steps.old + growing_share * (2 ^ (64 - places.old.shift) / 4) }
{
    let bits = grown_bits(places.shift, most_bits);
    match places.moved(bits, steps) {
        Ok(larger) => {
            *places = larger;
            room_for(bits, most_bits)
        }
        Err(_) => 0,
    }
}

/// So many newcomers may come to 2^bits places before these become more, up to 2^most_bits.
pub(crate) fn room_for(bits: u32, most_bits: u32) -> usize
    requires { bits ≤ bits_at_most }
    ensures { result ≡ first_room bits most_bits }
{
    if bits < most_bits {
        quarter_of(bits)
    } else {
        0
    }
}

/// A quarter of 2^bits.
fn quarter_of(bits: u32) -> usize
    requires { bits ≤ bits_at_most }
    ensures { result ≡ 2 ^ bits / 4 }
{
    (1 << bits) >> FILLED_BITS
}

/// Places become 2^bits: four times as many, but no more than 2^most_bits.
fn grown_bits(shift: u32, most_bits: u32) -> u32
    requires { shift ≤ 64 }
    ensures { result ≡ min (64 - shift + 2) most_bits }
{
    (u64::BITS - shift + MORE_BITS).min(most_bits)
}

/// The table for that many keys grows up to 2^bits places: two to four for each.
pub(crate) fn table_bits(keys: usize) -> u32
    ensures { (bits_at_least ≤ result) × (result ≤ bits_at_most) }
{
    (usize::BITS + 1 - keys.leading_zeros())
        .max(LEAST_BITS)
        .min(MOST_BITS)
}
