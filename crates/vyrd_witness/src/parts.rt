//! Which slots, chunks and buffers give something to a key.

ghost use Rattle.std.specs.Prelude.{◌≡◌, ◌++◌, ◌-◌, ◌*◌, ◌<◌, ◌^◌, nat_lt, length, sum_by};
ghost use Rattle.std.specs.Prelude.{OnOk, if◌then◌else◌};
ghost use Rattle.vyrd_base.specs.Buffers.{buffer_at, buffer_parts};
ghost use Rattle.vyrd_base.specs.Cache.{chunk_at, chunk_parts};
ghost use Rattle.vyrd_base.specs.Multiset.{slot_parts};
ghost use Rattle.vyrd_witness.specs.Given.{given_parts, numbered, told};

use crate::given::{SLOT_WORDS, given_by_buffer, given_by_chunk, given_by_slot};
use std::alloc::AllocError;

/// Puts a part with what it gives at the end, if that isn't 0.
pub(crate) fn put_given(
    part: usize,
    amount: u128,
    parts: &mut Vec<(usize, u128)>,
) -> Result<(), AllocError>
    ensures { OnOk result (parts.new.items ≡ parts.old.items ++ told part amount) }
{
    if amount != 0 {
        parts.push((part, amount))?;
    }
    Ok(())
}

/// Puts the slots of a multiset that give something to the key at the end, with one look at each.
pub(crate) fn put_slots(
    size: u32,
    words: &[u64],
    key: u64,
    parts: &mut Vec<(usize, u128)>,
) -> Result<(), AllocError>
    requires count { length words.now ≡ 8 * size }
    ensures { OnOk result (parts.new.items ≡ parts.old.items
        ++ given_parts key (numbered (slot_parts words.now) (4 * size))) }
{
    for slot in 0..words.len() / SLOT_WORDS {
        let first = SLOT_WORDS * slot;
        put_given(
            slot,
            given_by_slot(words[first], words[first + 1], key),
            parts,
        )?;
    }
    Ok(())
}

/// Puts the chunk that gives something to the key at the end, if there is one.
pub(crate) fn put_chunk(
    size: u32,
    words: &[u64],
    key: u64,
    parts: &mut Vec<(usize, u128)>,
) -> Result<(), AllocError>
    requires count { length words.now ≡ 5 * size }
    ensures { OnOk result (parts.new.items ≡ parts.old.items ++ given_parts key
        (numbered (λ n. chunk_parts size n (chunk_at words.now n)) size)) }
{
    let chunk = number_of(size, key);
    if chunk < size as usize {
        put_given(chunk, given_by_chunk(size, words, chunk, key), parts)?;
    }
    Ok(())
}

/// Puts the buffer that gives something to the key at the end, if there is one.
pub(crate) fn put_buffer(
    size: u32,
    words: &[u64],
    key: u64,
    parts: &mut Vec<(usize, u128)>,
) -> Result<(), AllocError>
    requires count { length words.now ≡ 8 * size }
    ensures { OnOk result (parts.new.items ≡ parts.old.items ++ given_parts key
        (numbered (λ n. buffer_parts size n (buffer_at words.now n)) size)) }
{
    let buffer = number_of(size, key);
    if buffer < size as usize {
        put_given(buffer, given_by_buffer(size, words, buffer, key), parts)?;
    }
    Ok(())
}

/// The number of the only chunk or buffer that can give something to the key. It isn't below the
/// size if there is none.
fn number_of(size: u32, key: u64) -> usize
    ensures { result ≡ (if nat_lt key size then key else key - size) }
{
    let size = u64::from(size);
    if key < size {
        key as usize
    } else {
        (key - size) as usize
    }
}

/// What parts give together.
pub(crate) fn sum_of(parts: &[(usize, u128)]) -> u128
    requires { sum_by (λ part. part.1) parts.now < 2 ^ 128 }
    ensures { result ≡ sum_by (λ part. part.1) parts.now }
{
    let mut sum = 0;
    for part in parts {
        sum += part.1;
    }
    sum
}
