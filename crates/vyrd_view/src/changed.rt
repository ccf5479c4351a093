//! The parts in which words have changed.

ghost use Rattle.std.specs.Prelude.{◌≡◌, ◌≢◌, ℕ, ◌+◌, ◌*◌, ◌/◌, ◌<◌, ◌≤◌, true, false, length};
ghost use Rattle.std.specs.Prelude.{All, slice_index_or, OnOk, OnErr};
ghost use Rattle.vyrd_view.specs.Decoded.{pair_at, pairs_by};
ghost use Rattle.vyrd_view.specs.Pairs.{is_touched};

use crate::decode::Decode;
use crate::decoded::decoded_part;
use crate::parts::Parts;
use std::alloc::AllocError;
use std::sync::ledger::Ledger;
use vyrd_base::Steps;

/// Each part that a changed word is in gives what its words show now. It is one of the first parts,
/// as many as have places. Once memory was refused the parts may only be dropped.
#[inline(always)]
pub(crate) fn parts_changed<D: Decode, L: Ledger>(
    decoder: &D,
    parts: &mut Parts,
    held: usize,
    words: &[u64],
    changed: &[u32],
    steps: &mut Steps<L>,
) -> Result<(), AllocError>
    requires sound { parts.old.refused ≡ false }
    requires count { length words.now ≡ D.parts decoder.now * D.width decoder.now }
    requires held { held ≤ D.parts decoder.now }
    requires within { All (λ w. w < held * D.width decoder.now) changed.now }
    requires places { length parts.old.pairs ≡ held * D.places decoder.now }
    requires others { (m : ℕ) → m < length parts.old.pairs
        → is_touched (D.width decoder.now) (m / D.places decoder.now) changed.now ≡ false
        → slice_index_or parts.old.pairs m (0, 0)
        ≡ pair_at (D.width decoder.now) (D.places decoder.now) (D.gives decoder.now) words.now m }
    ensures ok { OnOk result (parts.new ≡ record parts.old {
      pairs = pairs_by (D.width decoder.now) (D.places decoder.now) held (D.gives decoder.now)
          words.now;
    }) }
    ensures refused { OnErr result (parts.new.refused ≡ true) }
    ensures steps { steps.new ≤ steps.old + length changed.now * (1 + 2 * D.places decoder.now) }
{
    for word in changed {
        let part = *word as usize / decoder.width();
        part_changed(decoder, parts, part, words, steps)?;
    }
    Ok(())
}

/// The places of one part give what its words show now. Once memory was refused the parts may only
/// be dropped.
#[inline(always)]
fn part_changed<D: Decode, L: Ledger>(
    decoder: &D,
    parts: &mut Parts,
    part: usize,
    words: &[u64],
    steps: &mut Steps<L>,
) -> Result<(), AllocError>
    requires sound { parts.old.refused ≡ false }
    requires part { part < D.parts decoder.now }
    requires count { length words.now ≡ D.parts decoder.now * D.width decoder.now }
    requires places { part * D.places decoder.now + D.places decoder.now ≤ length parts.old.pairs }
    ensures sound { OnOk result (parts.new.refused ≡ false) }
    ensures specified { OnOk result (parts.new.specified ≡ parts.old.specified) }
    ensures places { OnOk result (length parts.new.pairs ≡ length parts.old.pairs) }
    ensures inside { OnOk result ((j : ℕ) → j < D.places decoder.now
        → slice_index_or parts.new.pairs (part * D.places decoder.now + j) (0, 0)
        ≡ pair_at (D.width decoder.now) (D.places decoder.now) (D.gives decoder.now) words.now
        (part * D.places decoder.now + j)) }
    ensures outside { OnOk result ((m : ℕ) → m / D.places decoder.now ≢ part
        → slice_index_or parts.new.pairs m (0, 0) ≡ slice_index_or parts.old.pairs m (0, 0)) }
    ensures refused { OnErr result (parts.new.refused ≡ true) }
    ensures steps { steps.new ≤ steps.old + 1 + 2 * D.places decoder.now }
{
    let pairs = counted_part(decoder, part, words, steps);
    for place in 0..decoder.places() {
        parts.replace(part * decoder.places() + place, pairs[place], steps)?;
    }
    Ok(())
}

/// What one part gives, place by place. It is one step.
#[inline(always)]
fn counted_part<D: Decode, L: Ledger>(
    decoder: &D,
    part: usize,
    words: &[u64],
    steps: &mut Steps<L>,
) -> [(u64, u64); 4]
    requires part { part < D.parts decoder.now }
    requires count { length words.now ≡ D.parts decoder.now * D.width decoder.now }
    ensures pairs { (j : ℕ) → j < D.places decoder.now → slice_index_or result j (0, 0)
        ≡ pair_at (D.width decoder.now) (D.places decoder.now) (D.gives decoder.now) words.now
        (part * D.places decoder.now + j) }
    ensures steps { steps.new ≡ steps.old + 1 }
{
    steps.tick();
    decoded_part(decoder, part, words)
}
