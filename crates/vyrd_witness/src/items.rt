//! From a witness to what is said of it, item by item.

ghost use Rattle.std.specs.Prelude.{◌≡◌, ◌≢◌, ◌++◌, ◌<◌, [], length, map, IfOk, OnOk, None};
ghost use Rattle.vyrd_base.specs.Front.{first_break};
ghost use Rattle.vyrd_base.specs.Rules.{rules_by};
ghost use Rattle.vyrd_witness.specs.declared.item.Item.TheVariants.{Changed};
ghost use Rattle.vyrd_witness.specs.Given.{given_items};
ghost use Rattle.vyrd_witness.specs.Items.{execution_items, called_items, agreed_item};
ghost use Rattle.vyrd_witness.specs.Items.{witness_items, view_items};

use crate::change::Change;
use crate::effect::entry_at;
use crate::execution::{Execution, execution_of};
use crate::item::Item;
use crate::shown::Shown;
use crate::view::{ViewWitness, view_witness};
use std::alloc::{AllocError, Global};
use vyrd_base::{Entry, StartWord};

/// What is said of a view that differs at a key, at the entry at a position of a front: where the
/// execution was called and returns, what the words showed of the key at the commit before and show
/// now, which parts of them give that, and each write since then that changed it. The front keeps
/// all rules of shape, and begins with these starting words.
///
/// The only error is that memory has run out. Time and memory are those of `view_witness`.
pub fn view_items<S: Shown>(
    alloc: Global,
    shown: &S,
    starting: &[StartWord],
    front: &[Entry],
    at: usize,
    key: u64,
) -> Result<Vec<Item>, AllocError>
    requires within { at < length front.now }
    requires kept { first_break (rules_by (S.charter shown.now)).header front.now ≡ None }
    ensures { IfOk result (λ items. items.items
        ≡ view_items (S.charter shown.now) starting.now front.now at key) }
{
    let witness = view_witness(alloc, shown, starting, front, at, key)?;
    let mut items = called_items(alloc, front, at)?;
    push_witness(at, &witness, &mut items)?;
    Ok(items)
}

/// Where the execution was called and returns in whose midst the entry at a position stands.
///
/// The only error is that memory has run out. Time is that of `execution_of`.
pub fn called_items(alloc: Global, front: &[Entry], at: usize) -> Result<Vec<Item>, AllocError>
    requires { at < length front.now }
    ensures { IfOk result (λ items. items.items ≡ called_items front.now at) }
{
    let mut items = Vec::new(alloc);
    if let Some(execution) = execution_of(front, at, entry_at(front, at).caller) {
        push_execution(execution, &mut items)?;
    }
    Ok(items)
}

/// Puts what a witness says at the end.
fn push_witness(at: usize, witness: &ViewWitness, items: &mut Vec<Item>) -> Result<(), AllocError>
    ensures { OnOk result (items.new.items ≡ items.old.items ++ witness_items at witness.now) }
{
    let key = witness.key;
    items.push(agreed_item(key, witness.since, witness.agreed))?;
    let amount = witness.shown;
    items.push(Item::Shown { at, key, amount })?;
    push_given(at, key, &witness.parts, items)?;
    push_changes(key, &witness.changes, items)
}

/// Puts what parts give to the key at the end.
fn push_given(
    at: usize,
    key: u64,
    parts: &[(usize, u128)],
    items: &mut Vec<Item>,
) -> Result<(), AllocError>
    ensures { OnOk result (items.new.items ≡ items.old.items ++ given_items at key parts.now) }
{
    for given in parts {
        let (part, amount) = *given;
        items.push(Item::Given {
            at,
            part,
            key,
            amount,
        })?;
    }
    Ok(())
}

/// Puts changes at the end.
fn push_changes(key: u64, changes: &[Change], items: &mut Vec<Item>) -> Result<(), AllocError>
    ensures { OnOk result (items.new.items ≡ items.old.items ++ map (Changed key) changes.now) }
{
    for change in changes {
        let change = *change;
        items.push(Item::Changed { key, change })?;
    }
    Ok(())
}

/// Puts where an execution was called, and where it returns, at the end.
fn push_execution(execution: Execution, items: &mut Vec<Item>) -> Result<(), AllocError>
    ensures { OnOk result (items.new.items ≡ items.old.items ++ execution_items execution) }
{
    let at = execution.called_at;
    items.push(Item::Called { at })?;
    if let Some(back) = execution.returned {
        let at = back.at;
        items.push(Item::Replied { at })?;
    }
    Ok(())
}

/// What the words showed at the commit before, or at the start.
fn agreed_item(key: u64, since: Option<usize>, amount: u128) -> Item
    ensures { result ≡ agreed_item key since amount }
{
    match since {
        Some(at) => Item::Agreed { at, key, amount },
        None => Item::AgreedAtStart { key, amount },
    }
}
