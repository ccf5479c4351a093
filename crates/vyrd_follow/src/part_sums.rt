//! What the words show, added up part by part.

ghost use Rattle.std.specs.Prelude.{◌≡◌, ◌+◌, ◌*◌, ◌<◌, ◌≤◌, ◌^◌, ℕ, length, IfOk, OnOk};
ghost use Rattle.vyrd_base.specs.Amounts.{IsAmounts, amount_of, given};
ghost use Rattle.vyrd_own_states.specs.PartPairs.{pairs_in, part_pairs};
ghost use Rattle.vyrd_view.specs.Known.{view_by};

use crate::wide_amounts::WideAmounts;
use std::alloc::{AllocError, Global};
use vyrd_view::Decode;

/// Each key with the sum of what the parts give to it. It takes time in proportion to the words,
/// times the logarithm of the keys, and memory for the keys. The only error is that memory has run
/// out.
pub(crate) fn sums_of<D: Decode>(
    alloc: Global,
    decoder: &D,
    words: &[u64],
) -> Result<WideAmounts, AllocError>
    requires count { length words.now ≡ D.parts decoder.now * D.width decoder.now }
    ensures { IfOk result (λ sums. sums ≡ view_by (D.shows decoder.now) words.now) }
{
    let mut sums = WideAmounts::new(alloc);
    for part in 0..decoder.parts() {
        add_pairs(&mut sums, pairs_of(decoder, part, words), decoder.places())?;
    }
    Ok(sums)
}

/// What a part gives, in its places.
pub(crate) fn pairs_of<D: Decode>(decoder: &D, part: usize, words: &[u64]) -> [(u64, u64); 4]
    requires part { part < D.parts decoder.now }
    requires count { length words.now ≡ D.parts decoder.now * D.width decoder.now }
    ensures { (q : ℕ) → given q (pairs_in (D.places decoder.now) result)
        ≡ given q (part_pairs (D.width decoder.now) (D.places decoder.now) (D.gives decoder.now)
        words.now part) }
{
    let width = decoder.width();
    let first = part * width;
    decoder.decode(part, &words[first..first + width])
}

/// Adds what the first pairs give.
fn add_pairs(
    sums: &mut WideAmounts,
    pairs: [(u64, u64); 4],
    places: usize,
) -> Result<(), AllocError>
    requires few { places ≤ 4 }
    requires formed { IsAmounts sums.old }
    requires low { (q : ℕ) → amount_of sums.old q ≤ 2 ^ 100 }
    ensures sums { OnOk result ((q : ℕ) → amount_of sums.new q
        ≡ amount_of sums.old q + given q (pairs_in places pairs)) }
    ensures formed { OnOk result (IsAmounts sums.new) }
    ensures low { OnOk result
        ((q : ℕ) → amount_of sums.new q ≤ amount_of sums.old q + 4 * 2 ^ 64) }
{
    for place in 0..places {
        let (key, more) = pairs[place];
        let before = sums.amount(key);
        sums.set(key, before + u128::from(more))?;
    }
    Ok(())
}
