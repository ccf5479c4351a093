//! The first of the keys whose values are marked.

ghost use Rattle.std.specs.Prelude.{◌≡◌, Bool, false};
ghost use Rattle.vyrd_table.specs.Entries.{IsEntries};
ghost use Rattle.vyrd_table.specs.First.{IsFirst, IsFirstOf};

use crate::places::Places;
use crate::rest::Rest;
use crate::value::Value;

/// A value that can be marked, as two amounts are that differ. Nothing isn't marked.
pub trait Marked: Value {
    /// whether a value is marked
    ghost is_marked: { Self → Bool };

    /// Whether the value is marked.
    fn is_marked(self) -> bool
        ensures { result ≡ is_marked self };

    /// nothing isn't
    ghost nothing_is_plain: { is_marked Self.nothing ≡ false };
}

impl<V: Marked> Places<V> {
    ghost use Rattle.vyrd_table.specs.Placed.{ArePlaced, entries_of};

    /// The least key whose value is marked, or none if there is none. It goes through all places.
    pub(crate) fn first_marked(&self) -> Option<u64>
        requires { ArePlaced V.nothing V.is_nothing self.now }
        ensures { IsFirst V.nothing V.is_marked (entries_of V.is_nothing self.now) result }
    {
        let mut first = self.rest.first_marked();
        for pair in &self.pairs {
            first = first_of(first, pair);
        }
        first
    }
}

impl<V: Marked> Rest<V> {
    /// The least key whose value is marked, or none if there is none.
    fn first_marked(&self) -> Option<u64>
        requires { IsEntries V.is_nothing self.now.map.entries }
        ensures { IsFirst V.nothing V.is_marked self.now.map.entries result }
    {
        for (key, value) in &self.map {
            if value.is_marked() {
                return Some(*key);
            }
        }
        None
    }
}

/// The lesser of a key that was found, if there is one, and the key of this place, if its value is
/// marked.
#[inline(always)]
fn first_of<V: Marked>(found: Option<u64>, pair: &(u64, V)) -> Option<u64>
    ensures { IsFirstOf V.is_marked found pair.now result }
{
    let (key, value) = *pair;
    if !value.is_marked() {
        return found;
    }
    match found {
        None => Some(key),
        Some(first) => Some(first.min(key)),
    }
}
