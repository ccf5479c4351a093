//! What is open after the entries of a log, item by item.

ghost use Rattle.std.specs.Prelude.{◌≡◌, ◌++◌, IfOk, OnOk};
ghost use Rattle.vyrd_base.specs.Places.{newest_first};
ghost use Rattle.vyrd_witness.specs.Opens.{opened_in, open_items_of, open_items};

use crate::execution::begun_in;
use crate::item::Item;
use std::alloc::{AllocError, Global};
use vyrd_base::{Entry, Header, Kind};

/// What is open after the entries of a front: for each caller, the first one first, where its call
/// stands that hasn't returned, and where its block begins that hasn't ended. The front may be any:
/// nothing is asked of its shape.
///
/// The only error is that memory has run out. Time is in proportion to the front times the callers.
/// Memory: two items for each caller at most.
pub fn open_items(alloc: Global, header: Header, front: &[Entry]) -> Result<Vec<Item>, AllocError>
    ensures { IfOk result (λ items. items.items ≡ open_items header front.now) }
{
    let mut items = Vec::new(alloc);
    for caller in 0..header.callers() {
        push_open(caller, front, &mut items)?;
    }
    Ok(items)
}

/// Puts what the caller has open at the end.
fn push_open(caller: u32, front: &[Entry], items: &mut Vec<Item>) -> Result<(), AllocError>
    ensures { OnOk result (items.new.items
        ≡ items.old.items ++ open_items_of (newest_first front.now) caller) }
{
    if let Some(begun) = begun_in(caller, front) {
        let at = begun.at;
        items.push(Item::OpenCall { at })?;
    }
    if let Some(at) = opened_in(caller, front) {
        items.push(Item::OpenBlock { at })?;
    }
    Ok(())
}

/// Where the caller's block begins that these entries leave open.
fn opened_in(caller: u32, front: &[Entry]) -> Option<usize>
    ensures { result ≡ opened_in caller (newest_first front.now) }
{
    let mut opened = None;
    for (at, entry) in front.iter().enumerate() {
        if entry.caller == caller {
            match entry.kind {
                Kind::BlockOpen => opened = Some(at),
                Kind::BlockClose | Kind::BlockCommit => opened = None,
                _ => {}
            }
        }
    }
    opened
}
