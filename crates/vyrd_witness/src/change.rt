//! The effects that change what the words show of a key.

ghost use Rattle.std.specs.Prelude.{◌≡◌, ◌<◌, ◌++◌, All, IfOk, OnOk, length, vec_len, slice_set};
ghost use Rattle.vyrd_base.specs.Layout.{plain_words};
ghost use Rattle.vyrd_base.specs.Rules.{rules_by};
ghost use Rattle.vyrd_witness.specs.Changes.{changes_in, change_by, words_through};
ghost use Rattle.vyrd_witness.specs.Changes.{words_after_effect, amount_shown};

use crate::effect::Effect;
use crate::shown::Shown;
use std::alloc::{AllocError, Global};

/// An effect that changes what the words show of a key.
#[derive(Clone, Copy, Debug, PartialEq, Eq)]
pub struct Change {
    /// The write, and where it takes effect.
    pub effect: Effect,
    /// The word's value before it.
    pub was: u64,
    /// What the words show of the key before it.
    pub before: u128,
    /// What they show of it after it.
    pub after: u128,
}

/// A key that is followed along effects, and what the words show of it so far.
#[derive(Clone, Copy)]
pub(crate) struct Followed {
    pub key: u64,
    pub amount: u128,
}

/// Appends those of these effects, one after the other on these words, that change what the words
/// show of the key that is followed. The words are then those after all of them.
pub(crate) fn push_changes<S: Shown>(
    alloc: Global,
    shown: &S,
    followed: &mut Followed,
    words: &mut Vec<u64>,
    effects: &[Effect],
    changes: &mut Vec<Change>,
) -> Result<(), AllocError>
    requires count { vec_len words.old ≡ plain_words (rules_by (S.charter shown.now)).header }
    requires within { All (λ e. e.word < vec_len words.old) effects.now }
    requires here { followed.old.amount ≡ amount_shown (rules_by (S.charter shown.now))
        words.old.items followed.old.key }
    ensures changes { OnOk result (changes.new.items ≡ changes.old.items
        ++ changes_in (rules_by (S.charter shown.now)) followed.old.key words.old.items
        effects.now) }
    ensures words { OnOk result (words.new.items ≡ words_through words.old.items effects.now) }
    ensures count { OnOk result (vec_len words.new ≡ vec_len words.old) }
    ensures key { OnOk result (followed.new.key ≡ followed.old.key) }
    ensures there { OnOk result (followed.new.amount
        ≡ amount_shown (rules_by (S.charter shown.now)) words.new.items followed.old.key) }
{
    for effect in effects {
        let change = change_by(alloc, shown, *followed, words, *effect)?;
        followed.amount = change.after;
        if change.before != change.after {
            changes.push(change)?;
        }
    }
    Ok(())
}

/// What an effect does to its word, and to what the words show of the key that is followed. The
/// words are then those after it.
fn change_by<S: Shown>(
    alloc: Global,
    shown: &S,
    followed: Followed,
    words: &mut Vec<u64>,
    effect: Effect,
) -> Result<Change, AllocError>
    requires count { vec_len words.old ≡ plain_words (rules_by (S.charter shown.now)).header }
    requires within { effect.word < vec_len words.old }
    requires here { followed.amount
        ≡ amount_shown (rules_by (S.charter shown.now)) words.old.items followed.key }
    ensures change { IfOk result (λ c. c
        ≡ change_by (rules_by (S.charter shown.now)) followed.key words.old.items effect) }
    ensures words { OnOk result (words.new.items ≡ words_after_effect words.old.items effect) }
    ensures count { OnOk result (vec_len words.new ≡ vec_len words.old) }
{
    let word = effect.word as usize;
    let was = words[word];
    words[word] = effect.value;
    let after = amount_after(alloc, shown, followed, words, word, was)?;
    Ok(Change {
        effect,
        was,
        before: followed.amount,
        after,
    })
}

/// What the words show of the key that is followed, after one of them got its value. They are asked
/// only if it had another one before.
fn amount_after<S: Shown>(
    alloc: Global,
    shown: &S,
    followed: Followed,
    words: &[u64],
    word: usize,
    was: u64,
) -> Result<u128, AllocError>
    requires count { length words.now ≡ plain_words (rules_by (S.charter shown.now)).header }
    requires within { word < length words.now }
    requires before { followed.amount ≡ amount_shown (rules_by (S.charter shown.now))
        (slice_set words.now word was) followed.key }
    ensures { IfOk result (λ amount. amount
        ≡ amount_shown (rules_by (S.charter shown.now)) words.now followed.key) }
{
    if words[word] == was {
        return Ok(followed.amount);
    }
    shown.amount_after(alloc, words, followed.key, followed.amount, word, was)
}

/// Lets the effects take place, one after the other.
pub(crate) fn apply(words: &mut Vec<u64>, effects: &[Effect])
    requires within { All (λ e. e.word < vec_len words.old) effects.now }
    ensures words { words.new.items ≡ words_through words.old.items effects.now }
    ensures count { vec_len words.new ≡ vec_len words.old }
{
    for effect in effects {
        words[effect.word as usize] = effect.value;
    }
}
