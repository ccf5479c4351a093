//! What the state has of a key after an entry.

ghost use Rattle.std.specs.Prelude.{◌≡◌, ◌<◌, ◌^◌, true, length, IfOk, None};
ghost use Rattle.vyrd_base.specs.Front.{first_break};
ghost use Rattle.vyrd_base.specs.Rules.{rules_by};
ghost use Rattle.vyrd_base.specs.Starts.{may_start};
ghost use Rattle.vyrd_base.specs.Subjects.{is_built_in};
ghost use Rattle.vyrd_states.specs.Known.{after_items};

use crate::begins::Begins;
use crate::known::spec_at;
use std::alloc::{AllocError, Global};
use vyrd_base::{Entry, StartWord};
use vyrd_spec::Spec;
use vyrd_witness::Item;

/// What the specification's state shows of a key after the entry at a position of a front: one
/// item, or none if the state isn't known there. The front keeps all rules of shape, and begins
/// with these starting words.
///
/// It takes the time and the memory that `spec_at` takes. The only error is that memory has run
/// out.
pub fn after_items<B: Begins>(
    alloc: Global,
    begins: &B,
    starting: &[StartWord],
    front: &[Entry],
    at: usize,
    key: u64,
) -> Result<Vec<Item>, AllocError>
    requires may_start { is_built_in (rules_by (B.charter begins.now)).header.subject ≡ true
        → may_start (rules_by (B.charter begins.now)).header starting.now ≡ true }
    requires within { at < length front.now }
    requires kept { first_break (rules_by (B.charter begins.now)).header front.now ≡ None }
    requires few { length front.now < 2 ^ 62 }
    ensures { IfOk result (λ items. items.items
        ≡ after_items (rules_by (B.charter begins.now)) starting.now front.now at key) }
{
    let mut items = Vec::new(alloc);
    if let Some(spec) = spec_at(alloc, begins, starting, front, at + 1)? {
        let amount = spec.amount(key);
        items.push(Item::After { at, key, amount })?;
    }
    Ok(items)
}
