//! What the words of a user's own structure show of a key: what its parts give, all of them
//! together, and only the one that a changed word is in.

ghost use Rattle.std.specs.Prelude.{◌≡◌, ◌+◌, ◌*◌, ◌/◌, ◌<◌, ◌≤◌, ◌^◌, ◌++◌, length, slice_set};
ghost use Rattle.std.specs.Prelude.{IfOk, OnOk};
ghost use Rattle.vyrd_base.specs.Amounts.{amount_of, given};
ghost use Rattle.vyrd_own_states.specs.PartPairs.{own_pairs, pairs_in, part_pairs};
ghost use Rattle.vyrd_view.specs.Known.{view_by};
ghost use Rattle.vyrd_witness.specs.Given.{given_parts, numbered, told};

use std::alloc::{AllocError, Global};
use vyrd_view::Decode;

/// What the parts show of the key.
pub fn amount_by<D: Decode>(decoder: &D, words: &[u64], key: u64) -> u128
    requires count { length words.now ≡ D.parts decoder.now * D.width decoder.now }
    ensures { result ≡ amount_of (view_by (D.shows decoder.now) words.now) key }
{
    let mut amount = 0;
    for part in 0..decoder.parts() {
        amount += amount_of_part(decoder, part, words, key);
    }
    amount
}

/// What the words show of the key after one of them got its value, given what they showed before,
/// when that word had this other value: what its part gave gives way to what it gives now. The only
/// error is that memory has run out.
pub(crate) fn amount_after<D: Decode>(
    alloc: Global,
    decoder: &D,
    words: &[u64],
    key: u64,
    before: u128,
    word: usize,
    was: u64,
) -> Result<u128, AllocError>
    requires count { length words.now ≡ D.parts decoder.now * D.width decoder.now }
    requires within { word < length words.now }
    requires before { before
        ≡ amount_of (view_by (D.shows decoder.now) (slice_set words.now word was)) key }
    ensures { IfOk result
        (λ amount. amount ≡ amount_of (view_by (D.shows decoder.now) words.now) key) }
{
    let old = given_before(alloc, decoder, words, key, word, was)?;
    let new = amount_of_part(decoder, word / decoder.width(), words, key);
    Ok(amount_turned(decoder, words, key, before, old, new))
}

/// What the parts show of the key, given what they showed before, when one of them gave this much
/// to the key that gives that much now. Parts give far too little for the sum to pass 128 bits; if
/// it did, all of them would be added up.
pub fn amount_turned<D: Decode>(
    decoder: &D,
    words: &[u64],
    key: u64,
    before: u128,
    old: u128,
    new: u128,
) -> u128
    requires count { length words.now ≡ D.parts decoder.now * D.width decoder.now }
    requires turned { before + new
        ≡ amount_of (view_by (D.shows decoder.now) words.now) key + old }
    ensures { result ≡ amount_of (view_by (D.shows decoder.now) words.now) key }
{
    match before.checked_add(new) {
        Some(both) => both - old,
        None => amount_by(decoder, words, key),
    }
}

/// What the part of a word gave to the key when the word had this value, by a copy of the part's
/// words.
fn given_before<D: Decode>(
    alloc: Global,
    decoder: &D,
    words: &[u64],
    key: u64,
    word: usize,
    was: u64,
) -> Result<u128, AllocError>
    requires count { length words.now ≡ D.parts decoder.now * D.width decoder.now }
    requires within { word < length words.now }
    ensures { IfOk result (λ amount. amount ≡ given key (part_pairs (D.width decoder.now)
        (D.places decoder.now) (D.gives decoder.now) (slice_set words.now word was)
        (word / D.width decoder.now))) }
{
    let width = decoder.width();
    let part = word / width;
    let first = part * width;
    let mut own = words[first..first + width].to_vec(alloc)?;
    own[word - first] = was;
    Ok(given_by_words(decoder, part, &own, key))
}

/// Puts the parts that give something to the key at the end, each by its number and with what it
/// gives. It takes time in proportion to the words. The only error is that memory has run out.
pub(crate) fn put_given<D: Decode>(
    decoder: &D,
    words: &[u64],
    key: u64,
    parts: &mut Vec<(usize, u128)>,
) -> Result<(), AllocError>
    requires count { length words.now ≡ D.parts decoder.now * D.width decoder.now }
    ensures { OnOk result (parts.new.items ≡ parts.old.items ++ given_parts key (numbered
        (part_pairs (D.width decoder.now) (D.places decoder.now) (D.gives decoder.now) words.now)
        (D.parts decoder.now))) }
{
    for part in 0..decoder.parts() {
        put_part(part, amount_of_part(decoder, part, words, key), parts)?;
    }
    Ok(())
}

/// Puts a part with what it gives at the end, if that isn't 0.
fn put_part(part: usize, amount: u128, parts: &mut Vec<(usize, u128)>) -> Result<(), AllocError>
    ensures { OnOk result (parts.new.items ≡ parts.old.items ++ told part amount) }
{
    if amount != 0 {
        parts.push((part, amount))?;
    }
    Ok(())
}

/// What one part gives to the key.
fn amount_of_part<D: Decode>(decoder: &D, part: usize, words: &[u64], key: u64) -> u128
    requires part { part < D.parts decoder.now }
    requires count { length words.now ≡ D.parts decoder.now * D.width decoder.now }
    ensures given { result ≡ given key (part_pairs (D.width decoder.now) (D.places decoder.now)
        (D.gives decoder.now) words.now part) }
    ensures low { result ≤ 4 * 2 ^ 64 }
{
    let width = decoder.width();
    let first = part * width;
    given_by_words(decoder, part, &words[first..first + width], key)
}

/// What a part with these words gives to the key.
fn given_by_words<D: Decode>(decoder: &D, part: usize, words: &[u64], key: u64) -> u128
    requires part { part < D.parts decoder.now }
    requires count { length words.now ≡ D.width decoder.now }
    ensures given { result ≡ given key (own_pairs (D.places decoder.now)
        (D.gives decoder.now part words.now)) }
    ensures low { result ≤ 4 * 2 ^ 64 }
{
    given_in(decoder.decode(part, words), decoder.places(), key)
}

/// What the first pairs give to the key.
pub fn given_in(pairs: [(u64, u64); 4], places: usize, key: u64) -> u128
    requires few { places ≤ 4 }
    ensures given { result ≡ given key (pairs_in places pairs) }
    ensures low { result ≤ 4 * 2 ^ 64 }
{
    let mut amount = 0;
    for place in 0..places {
        if pairs[place].0 == key {
            amount += u128::from(pairs[place].1);
        }
    }
    amount
}
