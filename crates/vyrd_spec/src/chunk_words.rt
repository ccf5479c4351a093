//! The chunks of a cache's words: the pairs that they show, if they stand for a state. A chunk has
//! five words: its state, and the low and the high half of the cached and of the stored pair.

ghost use Rattle.std.specs.Prelude.{◌≡◌, ◌*◌, ◌+◌, ◌<◌, ◌^◌, ◌&&◌, nat_lt, length, IfOk};
ghost use Rattle.std.specs.Prelude.{MatchOption};
ghost use Rattle.std.specs.Bool.{then_some};
ghost use Rattle.vyrd_base.specs.Cache.{is_sound_chunk};
ghost use Rattle.vyrd_base.specs.Cache.{chunk_at, pair_amount};
ghost use Rattle.vyrd_spec.specs.Chunks.{sound_pairs, shown_pair};

use std::alloc::{AllocError, Global};

/// The state of a chunk that isn't cached.
const ABSENT: u64 = 0;

/// The state of a chunk whose cached pair is the stored one.
const CLEAN: u64 = 1;

/// The state of a chunk whose cached pair may be newer than the stored one.
const DIRTY: u64 = 2;

/// What the halves of a pair are below.
const HALF_END: u64 = 1 << 32;

/// The pair of each chunk, and `None` if the words stand for no state.
pub(crate) fn pairs_of(
    alloc: Global,
    size: usize,
    words: &[u64],
) -> Result<Option<Vec<u64>>, AllocError>
    requires count { length words.now ≡ 5 * size }
    ensures { IfOk result (λ found. MatchOption found (sound_pairs size words.now ≡ None)
        (λ pairs. sound_pairs size words.now ≡ Some pairs.items)) }
{
    let mut pairs = Vec::with_capacity(alloc, size)?;
    for chunk in 0..size {
        match pair_at(words, chunk) {
            Some(pair) => pairs.push(pair)?,
            None => return Ok(None),
        }
    }
    Ok(Some(pairs))
}

/// The pair of one chunk, and `None` if its words stand for no state: its state or a half is out of
/// range, or it is clean and its pairs differ.
fn pair_at(words: &[u64], chunk: usize) -> Option<u64>
    requires { 5 * chunk + 4 < length words.now }
    ensures { result ≡ then_some (is_sound_chunk (chunk_at words.now chunk))
        (shown_pair (chunk_at words.now chunk)) }
{
    let first = 5 * chunk;
    let cached = pair_of_halves(words[first + 1], words[first + 2])?;
    let stored = pair_of_halves(words[first + 3], words[first + 4])?;
    match words[first] {
        ABSENT => Some(stored),
        CLEAN if cached == stored => Some(cached),
        DIRTY => Some(cached),
        _ => None,
    }
}

/// The halves as one number, and `None` if one of them isn't below 2^32.
fn pair_of_halves(lo: u64, hi: u64) -> Option<u64>
    ensures { result ≡ then_some (nat_lt lo (2 ^ 32) && nat_lt hi (2 ^ 32)) (pair_amount lo hi) }
{
    if lo < HALF_END && hi < HALF_END {
        Some(hi * HALF_END + lo)
    } else {
        None
    }
}
