//! Laws of the definitions. Each function does nothing: its contract is the law.

ghost use Rattle.std.specs.Prelude.{◌≡◌, ℕ, ◌+◌, ◌*◌, ◌^◌, ◌<◌, ◌≤◌, ◌==◌, List};
ghost use Rattle.std.specs.Prelude.{if◌then◌else◌};
ghost use Rattle.vyrd_table.specs.Entries.{IsEntries, value_of, with_value};
ghost use Rattle.vyrd_table.specs.Prices.{digits, look_up_price, set_price};

use crate::value::Value;

/// With a value set, the key has that value and every other key the one that it had. Entries in
/// which each key has the same value are the same.
pub fn entries_are_a_map<V: Value>()
    ensures set { (entries : List (ℕ × V)) (key q : ℕ) (value : V)
        → value_of V.nothing (with_value V.is_nothing entries key value) q
        ≡ (if q == key then value else value_of V.nothing entries q) }
    ensures same { (one other : List (ℕ × V)) → IsEntries V.is_nothing one
        → IsEntries V.is_nothing other
        → ((q : ℕ) → value_of V.nothing one q ≡ value_of V.nothing other q) → one ≡ other }
{}

/// The digits of a number are its logarithm to the base 2: it is below 2 to their power, and 2 to
/// their power is twice the number and 1 at most.
pub fn digits_are_the_logarithm()
    ensures below { (n : ℕ) → n < 2 ^ digits n }
    ensures most { (n : ℕ) → 2 ^ digits n ≤ 2 * n + 1 }
{}

/// Fewer keys cost no more.
pub fn prices_rise()
    ensures look_up { (fewer keys : ℕ) → fewer ≤ keys → look_up_price fewer ≤ look_up_price keys }
    ensures set { (fewer keys : ℕ) → fewer ≤ keys → set_price fewer ≤ set_price keys }
{}
