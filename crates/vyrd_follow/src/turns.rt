//! The keys of which a built-in structure's words show another amount after a write.

ghost use Rattle.std.specs.Prelude.{◌≡◌, ◌≢◌, ◌≤◌, ◌<◌, ◌^◌, ◌++◌, ℕ, [], ◌∷◌, true, filter, map};
ghost use Rattle.std.specs.Prelude.{length, slice_set, IfOk, OnOk};
ghost use Rattle.vyrd_base.specs.Amounts.{amount_of};
ghost use Rattle.vyrd_base.specs.Layout.{plain_words};
ghost use Rattle.vyrd_base.specs.Subjects.{is_built_in};
ghost use Rattle.vyrd_base.specs.Views.{view_of_words};
ghost use Rattle.vyrd_follow.specs.Doings.{differ_at};
ghost use Rattle.vyrd_follow.specs.Turns.{turned_to, turns};

use crate::differing::differing;
use crate::node::{NODE_WORDS, RIGHT};
use crate::nodes::node_turns;
use crate::touched::touched_keys;
use std::alloc::{AllocError, Global};
use vyrd_base::{AmountMap, Header};
use vyrd_view::view_of;
use vyrd_witness::{BuiltInShown, Shown};

/// Each key of which the words show another amount, with that, after one of them got its value,
/// given what they showed before, when that word had this other value. The least key comes first.
pub(crate) fn turns(
    alloc: Global,
    header: Header,
    words: &[u64],
    word: usize,
    was: u64,
    shown: &AmountMap,
) -> Result<Vec<(u64, u64)>, AllocError>
    requires built_in { is_built_in header.subject ≡ true }
    requires count { length words.now ≡ plain_words header }
    requires within { word < length words.now }
    requires shown { shown.now ≡ view_of_words header (slice_set words.now word was) }
    ensures { IfOk result
        (λ found. found.items ≡ turns shown.now (view_of_words header words.now)) }
{
    match touched_keys(header, words, word, was) {
        Some((low, high)) => turns_of(alloc, header, words, word, was, shown, low, high),
        None if word % NODE_WORDS != RIGHT => node_turns(alloc, header, words, word, was, shown),
        None => {
            let before = shown.view(alloc)?;
            let after = view_of(alloc, header, words)?;
            differing(alloc, before.pairs(), after.pairs())
        }
    }
}

/// The same where no other keys than these two can have another amount.
fn turns_of(
    alloc: Global,
    header: Header,
    words: &[u64],
    word: usize,
    was: u64,
    shown: &AmountMap,
    low: u64,
    high: u64,
) -> Result<Vec<(u64, u64)>, AllocError>
    requires built_in { is_built_in header.subject ≡ true }
    requires count { length words.now ≡ plain_words header }
    requires within { word < length words.now }
    requires shown { shown.now ≡ view_of_words header (slice_set words.now word was) }
    requires order { low ≤ high }
    requires others { (q : ℕ) → q ≢ low → q ≢ high
        → amount_of shown.now q ≡ amount_of (view_of_words header words.now) q }
    requires fits { (q : ℕ) → amount_of (view_of_words header words.now) q < 2 ^ 64 }
    ensures { IfOk result
        (λ found. found.items ≡ turns shown.now (view_of_words header words.now)) }
{
    let mut found = Vec::new(alloc);
    put_turn(alloc, header, words, word, was, shown, low, &mut found)?;
    if low != high {
        put_turn(alloc, header, words, word, was, shown, high, &mut found)?;
    }
    Ok(found)
}

/// Puts the key at the end, with its amount, if it has another amount than before.
fn put_turn(
    alloc: Global,
    header: Header,
    words: &[u64],
    word: usize,
    was: u64,
    shown: &AmountMap,
    key: u64,
    found: &mut Vec<(u64, u64)>,
) -> Result<(), AllocError>
    requires built_in { is_built_in header.subject ≡ true }
    requires count { length words.now ≡ plain_words header }
    requires within { word < length words.now }
    requires shown { shown.now ≡ view_of_words header (slice_set words.now word was) }
    requires fits { (q : ℕ) → amount_of (view_of_words header words.now) q < 2 ^ 64 }
    ensures { OnOk result (found.new.items ≡ found.old.items
        ++ map (turned_to (view_of_words header words.now))
        (filter (differ_at shown.now (view_of_words header words.now)) (key ∷ []))) }
{
    let before = shown.amount(key);
    let rules = BuiltInShown::new(header);
    let after = rules.amount_after(alloc, words, key, u128::from(before), word, was)? as u64;
    if before != after {
        found.push((key, after))?;
    }
    Ok(())
}
