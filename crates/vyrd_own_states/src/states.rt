//! What a state has.

ghost use Rattle.std.specs.Prelude.{◌≡◌, ◌++◌, map, OnOk};
ghost use Rattle.vyrd_base.specs.Amounts.{amount_of};
ghost use Rattle.vyrd_witness.specs.declared.item.Item.TheVariants.{Before, Hidden};
ghost use Rattle.vyrd_own_states.specs.OwnReplies.{register_items, list_items, amount_items};
ghost use Rattle.vyrd_own_states.specs.OwnReplies.{shown_keys, hidden_keys};

use crate::keys::{hidden_keys, shown_keys};
use std::alloc::{AllocError, Global};
use vyrd_own::{StateOf, Worth};
use vyrd_witness::Item;

/// Puts the registers of a state at the end.
pub(crate) fn push_registers(
    state: &StateOf,
    at: usize,
    items: &mut Vec<Item>,
) -> Result<(), AllocError>
    ensures { OnOk result (items.new.items ≡ items.old.items ++ register_items at state.now) }
{
    let registers = state.registers();
    for number in 0..registers.len() {
        let value = registers[number];
        items.push(Item::Register { at, number, value })?;
    }
    Ok(())
}

/// Puts its lists at the end, each by its size and its ends.
pub(crate) fn push_lists(
    state: &StateOf,
    at: usize,
    items: &mut Vec<Item>,
) -> Result<(), AllocError>
    ensures { OnOk result (items.new.items ≡ items.old.items ++ list_items at state.now) }
{
    for number in 0..state.list_count() {
        items.push(Item::Elements {
            at,
            number,
            size: state.size(number),
            first: state.first(number),
            last: state.last(number),
        })?;
    }
    Ok(())
}

/// Puts the amounts of it that are read at the end.
pub(crate) fn push_amounts(
    alloc: Global,
    state: &StateOf,
    at: usize,
    worths: &[Worth],
    items: &mut Vec<Item>,
) -> Result<(), AllocError>
    ensures { OnOk result
        (items.new.items ≡ items.old.items ++ amount_items at state.now worths.now) }
{
    push_shown(state, at, &shown_keys(alloc, worths)?, items)?;
    push_hidden(state, at, &hidden_keys(alloc, worths)?, items)
}

/// Puts the shown amounts of keys at the end.
fn push_shown(
    state: &StateOf,
    at: usize,
    keys: &[u64],
    items: &mut Vec<Item>,
) -> Result<(), AllocError>
    ensures { OnOk result (items.new.items ≡ items.old.items
        ++ map (λ key. Before at key (amount_of state.now.shown key)) keys.now) }
{
    for key in keys {
        let key = *key;
        let amount = state.shown().amount(key);
        items.push(Item::Before { at, key, amount })?;
    }
    Ok(())
}

/// Puts the hidden amounts of keys at the end.
fn push_hidden(
    state: &StateOf,
    at: usize,
    keys: &[u64],
    items: &mut Vec<Item>,
) -> Result<(), AllocError>
    ensures { OnOk result (items.new.items ≡ items.old.items
        ++ map (λ key. Hidden at key (amount_of state.now.hidden key)) keys.now) }
{
    for key in keys {
        let key = *key;
        let amount = state.hidden().amount(key);
        items.push(Item::Hidden { at, key, amount })?;
    }
    Ok(())
}
