//! Words that are decoded part by part, from scratch.

ghost use Rattle.std.specs.Prelude.{◌≡◌, ℕ, ◌+◌, ◌*◌, ◌<◌, ◌^◌, length, map, slice_index_or};
ghost use Rattle.std.specs.Prelude.{◌++◌, IfOk, OnOk};
ghost use Rattle.vyrd_base.specs.Places.{numbers_below};
ghost use Rattle.vyrd_base.specs.Amounts.{collected, given};
ghost use Rattle.vyrd_view.specs.Decoded.{pair_at, pairs_by};
ghost use Rattle.vyrd_view.specs.Known.{view_by};

use crate::decode::Decode;
use std::alloc::{AllocError, Global};
use vyrd_base::AmountMap;

/// What the words show: each key with the sum of what the parts give to it, which has to be below
/// 2^64.
pub(crate) fn collect<D: Decode>(
    alloc: Global,
    decoder: &D,
    words: &[u64],
) -> Result<AmountMap, AllocError>
    requires count { length words.now ≡ D.parts decoder.now * D.width decoder.now }
    requires fits { (q : ℕ) → given q (pairs_by (D.width decoder.now) (D.places decoder.now)
        (D.parts decoder.now) (D.gives decoder.now) words.now) < 2 ^ 64 }
    ensures { IfOk result (λ sums. sums ≡ view_by (D.shows decoder.now) words.now) }
{
    let mut sums = AmountMap::new(alloc);
    for part in 0..decoder.parts() {
        add_part(&mut sums, decoder, part, words)?;
    }
    Ok(sums)
}

/// Adds what one part gives to what those before it give.
fn add_part<D: Decode>(
    sums: &mut AmountMap,
    decoder: &D,
    part: usize,
    words: &[u64],
) -> Result<(), AllocError>
    requires part { part < D.parts decoder.now }
    requires count { length words.now ≡ D.parts decoder.now * D.width decoder.now }
    requires fits { (q : ℕ) → given q (pairs_by (D.width decoder.now) (D.places decoder.now)
        (D.parts decoder.now) (D.gives decoder.now) words.now) < 2 ^ 64 }
    requires sums { sums.old ≡ collected (pairs_by (D.width decoder.now) (D.places decoder.now) part
        (D.gives decoder.now) words.now) }
    ensures { OnOk result (sums.new ≡ collected (pairs_by (D.width decoder.now)
        (D.places decoder.now) (part + 1) (D.gives decoder.now) words.now)) }
{
    let pairs = decoded_part(decoder, part, words);
    for place in 0..decoder.places() {
        let pair = pairs[place];
        if pair.1 != 0 {
            sums.add(pair.0, pair.1)?;
        }
    }
    Ok(())
}

/// What one part gives, place by place.
#[inline(always)]
pub(crate) fn decoded_part<D: Decode>(decoder: &D, part: usize, words: &[u64]) -> [(u64, u64); 4]
    requires part { part < D.parts decoder.now }
    requires count { length words.now ≡ D.parts decoder.now * D.width decoder.now }
    ensures { (j : ℕ) → j < D.places decoder.now → slice_index_or result j (0, 0)
        ≡ pair_at (D.width decoder.now) (D.places decoder.now) (D.gives decoder.now) words.now
        (part * D.places decoder.now + j) }
{
    let first = part * decoder.width();
    decoder.decode(part, &words[first..first + decoder.width()])
}
