//! One write to words that are decoded part by part.

ghost use Rattle.std.specs.Prelude.{◌≡◌, ◌*◌, ◌<◌, ◌≤◌, ◌++◌, length, map, take, vec_len};
ghost use Rattle.std.specs.Prelude.{slice_index, slice_set, OnOk};
ghost use Rattle.vyrd_follow.specs.Following.{differences};
ghost use Rattle.vyrd_follow.specs.NextKeys.{changed_item};
ghost use Rattle.vyrd_view.specs.Known.{view_by};

use crate::part_change::PartChange;
use crate::part_sums::pairs_of;
use crate::wide_amounts::WideAmounts;
use std::alloc::AllocError;
use vyrd_view::Decode;
use vyrd_witness::{Effect, Item};

/// Lets a write to a word of a part take effect, puts an item at the end for each key of which the
/// words then show another amount, the least first, and brings the amounts up to date. Words behind
/// the last part show nothing. The only error is that memory has run out; then the word has its new
/// value, and the amounts are of no use.
pub(crate) fn write_word<D: Decode>(
    decoder: &D,
    words: &mut Vec<u64>,
    shown: &mut WideAmounts,
    effect: Effect,
    items: &mut Vec<Item>,
) -> Result<(), AllocError>
    requires within { effect.word < D.parts decoder.now * D.width decoder.now }
    requires count { D.parts decoder.now * D.width decoder.now ≤ vec_len words.old }
    requires shown { shown.old ≡ view_by (D.shows decoder.now)
        (take (D.parts decoder.now * D.width decoder.now) words.old.items) }
    ensures words { words.new.items ≡ slice_set words.old.items effect.word effect.value }
    ensures shown { OnOk result (shown.new ≡ view_by (D.shows decoder.now)
        (take (D.parts decoder.now * D.width decoder.now) words.new.items)) }
    ensures items { OnOk result (items.new.items ≡ items.old.items ++ map
        (changed_item effect (slice_index words.old.items effect.word) shown.old
        (view_by (D.shows decoder.now)
        (take (D.parts decoder.now * D.width decoder.now) words.new.items)))
        (differences shown.old (view_by (D.shows decoder.now)
        (take (D.parts decoder.now * D.width decoder.now) words.new.items)))) }
{
    let word = effect.word as usize;
    let whole = decoder.parts() * decoder.width();
    let part = word / decoder.width();
    let was = words[word];
    let old = pairs_of(decoder, part, &words[..whole]);
    words[word] = effect.value;
    let new = pairs_of(decoder, part, &words[..whole]);
    let change = PartChange::new(decoder.places(), old, new);
    change.put_items(decoder, &words[..whole], effect, was, shown, items)
}
