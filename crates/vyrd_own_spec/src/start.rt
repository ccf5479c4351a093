//! What words show at the start.

ghost use Rattle.std.specs.Prelude.{◌≡◌, ◌+◌, ◌*◌, ◌<◌, ◌≤◌, ◌^◌, ℕ, [], length, map, Ok, Some, None};
ghost use Rattle.std.specs.Prelude.{true, false, not, is_none, IfOk, IfSome};
ghost use Rattle.std.specs.Arc.{arc_value};
ghost use Rattle.vyrd_base.specs.Amounts.{IsAmounts, amount_of, plus_amount, given};
ghost use Rattle.vyrd_base.specs.Places.{numbers_below};
ghost use Rattle.vyrd_base.specs.Own.OwnRules.{is_whole, own_view};
ghost use Rattle.vyrd_base.specs.Own.Reader.{written_in};
ghost use Rattle.vyrd_view.specs.Decoded.{pair_at};
ghost use Rattle.vyrd_own_spec.specs.Parts.{own_gives, IsWhole};
ghost use Rattle.vyrd_own_spec.specs.Sums.{are_low, HasSums};

use crate::parts::OwnParts;
use crate::specification::Specification;
use std::alloc::{AllocError, Global};
use std::sync::Arc;
use vyrd_base::Header;
use vyrd_own::ShownAmounts;
use vyrd_view::Decode;

/// For how many keys a table is made. More take longer, and further memory.
pub(crate) const KEYS: usize = 1024;

/// Whether so many words are a whole number of parts.
pub(crate) fn is_whole(specification: &Specification, count: usize) -> bool
    ensures { result ≡ is_whole (written_in specification.now) count }
{
    let words = specification.program().words;
    words == 0 || count / words * words == count
}

/// What these words show, or none if a key has more than 2^64 - 1.
pub(crate) fn shown_at_start(
    alloc: Global,
    header: Header,
    specification: &Arc<Specification>,
    words: &[u64],
) -> Result<Option<ShownAmounts>, AllocError>
    requires count { length words.now ≡ header.size }
    requires whole { IsWhole header.size (written_in (arc_value specification.now)) }
    ensures shown { IfOk result (λ found. IfSome found (λ shown. shown
        ≡ own_view (written_in (arc_value specification.now)) words.now)) }
    ensures formed { IfOk result (λ found. IfSome found IsAmounts) }
    ensures fits { IfOk result (λ found. is_none found
        ≡ not (are_low (own_view (written_in (arc_value specification.now)) words.now))) }
{
    let decoder = OwnParts::new(alloc, header, Arc::try_clone(specification)?)?;
    let mut shown = ShownAmounts::new(alloc, KEYS)?;
    if !add_parts(&decoder, words, &mut shown)? {
        return Ok(None);
    }
    Ok(Some(shown))
}

/// Adds what all parts give to keys. `false` says that a sum doesn't fit 64 bits.
pub(crate) fn add_parts(
    decoder: &OwnParts,
    words: &[u64],
    shown: &mut ShownAmounts,
) -> Result<bool, AllocError>
    requires count { length words.now ≡ decoder.now.parts * decoder.now.width }
    requires none { shown.old ≡ [] }
    ensures fits { result ≡ Ok true → HasSums shown.new
        (pair_at decoder.now.width decoder.now.places
        (own_gives (written_in (arc_value decoder.now.specification))) words.now)
        (decoder.now.parts * decoder.now.places) }
    ensures beyond { result ≡ Ok false → (q : ℕ) × (2 ^ 64 ≤ given q
        (map (pair_at decoder.now.width decoder.now.places
        (own_gives (written_in (arc_value decoder.now.specification))) words.now)
        (numbers_below (decoder.now.parts * decoder.now.places)))) }
{
    for part in 0..decoder.parts() {
        if !add_part(decoder, part, words, shown)? {
            return Ok(false);
        }
    }
    Ok(true)
}

/// Adds what a part gives, after the parts before it.
fn add_part(
    decoder: &OwnParts,
    part: usize,
    words: &[u64],
    shown: &mut ShownAmounts,
) -> Result<bool, AllocError>
    requires part { part < decoder.now.parts }
    requires count { length words.now ≡ decoder.now.parts * decoder.now.width }
    requires sums { HasSums shown.old
        (pair_at decoder.now.width decoder.now.places
        (own_gives (written_in (arc_value decoder.now.specification))) words.now)
        (part * decoder.now.places) }
    ensures fits { result ≡ Ok true → HasSums shown.new
        (pair_at decoder.now.width decoder.now.places
        (own_gives (written_in (arc_value decoder.now.specification))) words.now)
        ((part + 1) * decoder.now.places) }
    ensures beyond { result ≡ Ok false → (q : ℕ) × (2 ^ 64 ≤ given q
        (map (pair_at decoder.now.width decoder.now.places
        (own_gives (written_in (arc_value decoder.now.specification))) words.now)
        (numbers_below (decoder.now.parts * decoder.now.places)))) }
{
    let first = part * decoder.width();
    let pairs = decoder.decode(part, &words[first..first + decoder.width()]);
    for place in 0..decoder.places() {
        if !add(shown, pairs[place])? {
            return Ok(false);
        }
    }
    Ok(true)
}

/// Adds a pair, if the sum fits 64 bits.
fn add(shown: &mut ShownAmounts, pair: (u64, u64)) -> Result<bool, AllocError>
    ensures fits { result ≡ Ok true → shown.new ≡ plus_amount shown.old pair.0 pair.1 }
    ensures low { result ≡ Ok true → amount_of shown.old pair.0 + pair.1 < 2 ^ 64 }
    ensures beyond { result ≡ Ok false → 2 ^ 64 ≤ amount_of shown.old pair.0 + pair.1 }
{
    match shown.amount(pair.0).checked_add(pair.1) {
        Some(sum) => {
            shown.set(pair.0, sum)?;
            Ok(true)
        }
        None => Ok(false),
    }
}
