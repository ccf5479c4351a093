//! What a part of the words gave before one of them changed, and what it gives after that.

ghost use Rattle.std.specs.Prelude.{◌≡◌, ◌≢◌, ◌+◌, ◌*◌, ◌<◌, ◌≤◌, ◌++◌, ℕ, true, length, map};
ghost use Rattle.std.specs.Prelude.{OnOk, IfSome};
ghost use Rattle.vyrd_base.specs.Amounts.{IsAmounts, amount_of, given};
ghost use Rattle.vyrd_follow.specs.Following.{differences};
ghost use Rattle.vyrd_follow.specs.NextKeys.{GivesWay, changed_item, comes_before};
ghost use Rattle.vyrd_own_states.specs.PartPairs.{pairs_in};
ghost use Rattle.vyrd_view.specs.Known.{view_by};

use crate::wide_amounts::WideAmounts;
use std::alloc::AllocError;
use vyrd_own_states::own_amount::{amount_turned, given_in};
use vyrd_view::Decode;
use vyrd_witness::{Change, Effect, Item};

/// What a part gave, and what it gives, in so many places.
#[derive(Clone, Copy)]
pub(crate) struct PartChange {
    places: usize,
    old: [(u64, u64); 4],
    new: [(u64, u64); 4],
    ghost few: { places ≤ 4 },
}

impl PartChange {
    /// Those of a part.
    pub(crate) fn new(places: usize, old: [(u64, u64); 4], new: [(u64, u64); 4]) -> PartChange
        requires few { places ≤ 4 }
        ensures places { result.places ≡ places }
        ensures old { result.old ≡ old }
        ensures new { result.new ≡ new }
    {
        PartChange { places, old, new }
    }

    /// The least key from `from` on that the part gave or gives something.
    fn next(&self, from: u128) -> Option<u64>
        ensures from { IfSome result (λ key. from ≤ key) }
        ensures none { (q : ℕ) → from ≤ q → comes_before result q ≡ true
            → (given q (pairs_in self.now.places self.now.old) ≡ 0)
            × (given q (pairs_in self.now.places self.now.new) ≡ 0) }
    {
        let known = next_key(self.old, self.places, from, None);
        next_key(self.new, self.places, from, known)
    }

    /// Puts an item at the end for each key of which the words show another amount since the part
    /// has changed, the least first, and brings the amounts up to date.
    pub(crate) fn put_items<D: Decode>(
        &self,
        decoder: &D,
        words: &[u64],
        effect: Effect,
        was: u64,
        shown: &mut WideAmounts,
        items: &mut Vec<Item>,
    ) -> Result<(), AllocError>
        requires count { length words.now ≡ D.parts decoder.now * D.width decoder.now }
        requires formed { IsAmounts shown.old }
        requires turned { GivesWay shown.old (view_by (D.shows decoder.now) words.now)
            (pairs_in self.now.places self.now.old) (pairs_in self.now.places self.now.new) }
        ensures shown { OnOk result (shown.new ≡ view_by (D.shows decoder.now) words.now) }
        ensures items { OnOk result (items.new.items ≡ items.old.items
            ++ map (changed_item effect was shown.old (view_by (D.shows decoder.now) words.now))
            (differences shown.old (view_by (D.shows decoder.now) words.now))) }
    {
        let mut next = self.next(0);
        while let Some(key) = next {
            let before = shown.amount(key);
            let after = self.amount_after(decoder, words, key, before);
            if before != after {
                let change = Change {
                    effect,
                    was,
                    before,
                    after,
                };
                items.push(Item::Changed { key, change })?;
                shown.set(key, after)?;
            }
            next = self.next(u128::from(key) + 1);
        }
        Ok(())
    }

    /// What the words show of the key, given what they showed before the part changed.
    fn amount_after<D: Decode>(&self, decoder: &D, words: &[u64], key: u64, before: u128) -> u128
        requires count { length words.now ≡ D.parts decoder.now * D.width decoder.now }
        requires turned { before + given key (pairs_in self.now.places self.now.new)
            ≡ amount_of (view_by (D.shows decoder.now) words.now) key
            + given key (pairs_in self.now.places self.now.old) }
        ensures { result ≡ amount_of (view_by (D.shows decoder.now) words.now) key }
    {
        let old = given_in(self.old, self.places, key);
        let new = given_in(self.new, self.places, key);
        amount_turned(decoder, words, key, before, old, new)
    }
}

/// The least key of the first pairs that is `from` or more, unless another one before it is found.
fn next_key(pairs: [(u64, u64); 4], places: usize, from: u128, found: Option<u64>) -> Option<u64>
    requires few { places ≤ 4 }
    requires from { IfSome found (λ key. from ≤ key) }
    ensures from { IfSome result (λ key. from ≤ key) }
    ensures before { (q : ℕ) → comes_before result q ≡ true → comes_before found q ≡ true }
    ensures none { (q : ℕ) → from ≤ q → comes_before result q ≡ true
        → given q (pairs_in places pairs) ≡ 0 }
{
    let mut next = found;
    for place in 0..places {
        next = nearer(next, from, pairs[place].0);
    }
    next
}

/// This key, if it is `from` or more and comes before the one that is found.
fn nearer(found: Option<u64>, from: u128, key: u64) -> Option<u64>
    requires from { IfSome found (λ other. from ≤ other) }
    ensures from { IfSome result (λ next. from ≤ next) }
    ensures before { (q : ℕ) → comes_before result q ≡ true → comes_before found q ≡ true }
    ensures apart { (q : ℕ) → from ≤ q → comes_before result q ≡ true → key ≢ q }
{
    if u128::from(key) < from {
        return found;
    }
    match found {
        Some(other) if other <= key => found,
        _ => Some(key),
    }
}
