//! The slots of a multiset's words: whether they stand for a state, and what is in them. A bucket
//! has four slots, and a slot two words: its state and its value.

ghost use Rattle.std.specs.Prelude.{◌≡◌, ◌*◌, ◌+◌, ◌<◌, ◌≤◌, ◌^◌, ◌==◌, [], ◌∷◌, length};
ghost use Rattle.std.specs.Prelude.{if◌then◌else◌, IfOk, OnOk};
ghost use Rattle.vyrd_base.specs.declared.subject.Subject.TheVariants.{Multiset};
ghost use Rattle.vyrd_base.specs.Added.{added};
ghost use Rattle.vyrd_base.specs.Amounts.{amount_of, collected};
ghost use Rattle.vyrd_base.specs.Represented.{is_sound};
ghost use Rattle.vyrd_base.specs.Multiset.{is_sound_slot};
ghost use Rattle.vyrd_base.specs.Views.{parts_of};

use std::alloc::{AllocError, Global};
use vyrd_table::AmountTable;

/// The state of a slot that holds a value of the multiset.
const VALID: u64 = 2;

/// Whether the words stand for a state.
pub(crate) fn are_sound(size: usize, words: &[u64]) -> bool
    requires count { length words.now ≡ 8 * size }
    requires some { 0 < size }
    requires few { size ≤ 1024 }
    ensures { result ≡ is_sound Multiset size words.now }
{
    for slot in 0..4 * size {
        if !is_sound_slot(size, words, slot) {
            return false;
        }
    }
    true
}

/// Whether the slot isn't valid, or has a value of its bucket.
fn is_sound_slot(size: usize, words: &[u64], slot: usize) -> bool
    requires within { 2 * slot + 1 < length words.now }
    requires some { 0 < size }
    requires few { size ≤ 1024 }
    ensures { result ≡ is_sound_slot size words.now slot }
{
    let bucket = slot as u64 / 4;
    words[2 * slot] != VALID || words[2 * slot + 1] % size as u64 == bucket
}

/// How often each value stands in a valid slot.
pub(crate) fn counts(alloc: Global, size: usize, words: &[u64]) -> Result<AmountTable, AllocError>
    requires count { length words.now ≡ 8 * size }
    requires few { size ≤ 1024 }
    ensures { IfOk result (λ counts. counts ≡ collected (parts_of Multiset size words.now)) }
{
    let mut counts = AmountTable::new(alloc, 4 * size)?;
    for slot in 0..4 * size {
        add_slot(&mut counts, words[2 * slot], words[2 * slot + 1])?;
    }
    Ok(counts)
}

/// One more of the value of a valid slot.
fn add_slot(counts: &mut AmountTable, state: u64, value: u64) -> Result<(), AllocError>
    requires { amount_of counts.old value + 1 < 2 ^ 64 }
    ensures { OnOk result
        (counts.new ≡ added counts.old (if state == 2 then (value, 1) ∷ [] else [])) }
{
    if state == VALID {
        counts.add(value, 1)?;
    }
    Ok(())
}
