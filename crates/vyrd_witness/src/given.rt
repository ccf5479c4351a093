//! What one slot, chunk or buffer gives to a key.

ghost use Rattle.std.specs.Prelude.{◌≡◌, ◌+◌, ◌*◌, ◌==◌, ◌<◌, ◌≤◌, ◌^◌, [], ◌∷◌, length};
ghost use Rattle.std.specs.Prelude.{if◌then◌else◌};
ghost use Rattle.vyrd_base.specs.Amounts.{given, part_given};
ghost use Rattle.vyrd_base.specs.Buffers.{buffer_at, buffer_parts};
ghost use Rattle.vyrd_base.specs.Cache.{chunk_at, chunk_parts, is_chunk, pair_amount};

use vyrd_base::buffer_text;

/// How many words a slot of a multiset has: its state and its value.
pub(crate) const SLOT_WORDS: usize = 2;

/// The state of a slot that holds a value of the multiset.
const VALID: u64 = 2;

/// How many words a chunk of a cache has: its state, and the cached and the stored pair, each with
/// its lower half first.
pub(crate) const CHUNK_WORDS: usize = 5;

/// The state of a chunk that isn't cached.
const ABSENT: u64 = 0;

/// The state of a chunk whose cached pair is to be the stored one.
const CLEAN: u64 = 1;

/// The state of a chunk whose cached pair may be newer than the stored one. It is the greatest.
const DIRTY: u64 = 2;

/// What the halves of a pair are below.
const HALF_END: u64 = 1 << 32;

/// What a clean chunk whose pairs differ gives to the key past the chunks.
const UNEQUAL: u128 = 1;

/// What words that aren't a chunk give to that key.
const NO_CHUNK: u128 = 2;

/// What words that aren't a buffer give to the key past the buffers.
const NO_BUFFER: u128 = 1;

/// What a pair of a key and an amount gives to a key.
pub(crate) fn given_by_pair(own: u64, amount: u128, key: u64) -> u128
    ensures given { result ≡ part_given key (own, amount) }
    ensures low { result ≤ amount }
{
    if key == own { amount } else { 0 }
}

/// What a slot of this state and value gives to the key.
pub(crate) fn given_by_slot(state: u64, value: u64, key: u64) -> u128
    ensures { result ≡ given key (if state == 2 then (value, 1) ∷ [] else []) }
{
    if state == VALID && key == value { 1 } else { 0 }
}

/// What the chunk of that number gives to the key.
pub(crate) fn given_by_chunk(size: u32, words: &[u64], number: usize, key: u64) -> u128
    requires within { 5 * number + 4 < length words.now }
    requires low { number < size }
    ensures { result ≡ given key (chunk_parts size number (chunk_at words.now number)) }
{
    let past = u64::from(size) + number as u64;
    if !is_chunk(words, number) {
        return given_by_pair(past, NO_CHUNK, key);
    }
    let first = CHUNK_WORDS * number;
    let state = words[first];
    let cached = pair_amount(words[first + 1], words[first + 2]);
    let stored = pair_amount(words[first + 3], words[first + 4]);
    let shown = if state == ABSENT { stored } else { cached };
    let own = given_by_pair(number as u64, shown, key);
    if state == CLEAN && cached != stored {
        own + given_by_pair(past, UNEQUAL, key)
    } else {
        own
    }
}

/// Whether the state of a chunk is one of the three, and the halves of its pairs are below 2^32.
fn is_chunk(words: &[u64], number: usize) -> bool
    requires within { 5 * number + 4 < length words.now }
    ensures { result ≡ is_chunk (chunk_at words.now number) }
{
    let first = CHUNK_WORDS * number;
    words[first] <= DIRTY
        && words[first + 1] < HALF_END
        && words[first + 2] < HALF_END
        && words[first + 3] < HALF_END
        && words[first + 4] < HALF_END
}

/// A pair of a chunk as one number.
fn pair_amount(lo: u64, hi: u64) -> u128
    ensures amount { result ≡ pair_amount lo hi }
    ensures low { result < 2 ^ 100 }
{
    u128::from(hi) * u128::from(HALF_END) + u128::from(lo)
}

/// What the buffer of that number gives to the key.
pub(crate) fn given_by_buffer(size: u32, words: &[u64], number: usize, key: u64) -> u128
    requires within { 8 * number + 7 < length words.now }
    requires low { number < size }
    ensures { result ≡ given key (buffer_parts size number (buffer_at words.now number)) }
{
    match buffer_text(words, number) {
        Some(text) => given_by_pair(number as u64, u128::from(text), key),
        None => given_by_pair(u64::from(size) + number as u64, NO_BUFFER, key),
    }
}
