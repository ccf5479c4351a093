//! What has to do with a write that races, item by item.

ghost use Rattle.std.specs.Prelude.{◌≡◌, ◌≤◌, ◌<◌, ◌++◌, length, map, filter, IfOk, OnOk, IfSome};
ghost use Rattle.std.specs.Prelude.{None, unwrap_or, if◌then◌else◌};
ghost use Rattle.vyrd_base.specs.Callers.{holds_word, has_inner_commit, open_or_close};
ghost use Rattle.vyrd_base.specs.Callers.{write_or_open, commit_or_open};
ghost use Rattle.vyrd_base.specs.Front.{first_break};
ghost use Rattle.vyrd_base.specs.Places.{newest_first};
ghost use Rattle.vyrd_base.specs.Words.{is_lone_commit};
ghost use Rattle.vyrd_witness.specs.declared.item.Item.TheVariants.{Passed};
ghost use Rattle.vyrd_witness.specs.Effects.{effects_along};
ghost use Rattle.vyrd_witness.specs.Races.{last_of, last_after, is_write_to, held_by, held_items};
ghost use Rattle.vyrd_witness.specs.Races.{is_of_other, passed_items, race_items};

use crate::effect::Effect;
use crate::item::Item;
use crate::walk::Walk;
use std::alloc::{AllocError, Global};
use vyrd_base::{Entry, Header, Kind};

/// What has to do with an entry that stands behind a front, if it is a write that races: for each
/// other caller, the first one first, the last write of its open block to the word; and, if a lone
/// commit stands in the writer's own open block, the writes of others to the word that took effect
/// since that commit. There are none if the entry is no write, or one that doesn't race. The entry
/// may be any, the front keeps all rules of shape.
///
/// The only error is that memory has run out. Time is in proportion to the front times the callers,
/// and if the writer has such a commit, the effects along the front take the time that they take in
/// `view_witness`. Memory: the items, and if there is such a commit, the words, a few bytes for each
/// caller, and the effects since that commit.
pub fn race_items(
    alloc: Global,
    header: Header,
    front: &[Entry],
    entry: Entry,
) -> Result<Vec<Item>, AllocError>
    requires kept { first_break header front.now ≡ None }
    ensures { IfOk result (λ items. items.items ≡ race_items header front.now entry) }
{
    let mut items = Vec::new(alloc);
    if let Kind::Write(word, _) = entry.kind {
        push_held(header, front, entry.caller, word, &mut items)?;
        push_passed(alloc, header, front, entry.caller, word, &mut items)?;
    }
    Ok(items)
}

/// Puts the last writes of other callers' open blocks to the word at the end.
fn push_held(
    header: Header,
    front: &[Entry],
    caller: u32,
    word: u32,
    items: &mut Vec<Item>,
) -> Result<(), AllocError>
    ensures { OnOk result (items.new.items
        ≡ items.old.items ++ held_items header front.now caller word) }
{
    for other in 0..header.callers() {
        push_held_by(front, caller, word, other, items)?;
    }
    Ok(())
}

/// Puts the last write of the other caller's open block to the word at the end, if it holds the
/// word.
fn push_held_by(
    front: &[Entry],
    caller: u32,
    word: u32,
    other: u32,
    items: &mut Vec<Item>,
) -> Result<(), AllocError>
    ensures { OnOk result (items.new.items
        ≡ items.old.items ++ held_by caller word (newest_first front.now) other) }
{
    if other == caller {
        return Ok(());
    }
    if let Some(at) = held_write(front, other, word) {
        items.push(Item::Held { at })?;
    }
    Ok(())
}

/// The last write of the caller's open block to the word.
fn held_write(front: &[Entry], caller: u32, word: u32) -> Option<usize>
    ensures { result ≡ if holds_word caller word (newest_first front.now)
        then last_of caller (is_write_to word) (newest_first front.now)
        else None }
{
    let mut in_block = false;
    let mut held = None;
    for (at, entry) in front.iter().enumerate() {
        if entry.caller == caller {
            in_block = block_after(entry.kind, in_block);
            held = write_after(entry.kind, word, at, held);
        }
    }
    if in_block { held } else { None }
}

/// Whether a block is open after an entry of its caller, given whether one was before it.
fn block_after(kind: Kind, in_block: bool) -> bool
    ensures { result ≡ unwrap_or (open_or_close kind) in_block }
{
    match kind {
        Kind::BlockOpen => true,
        Kind::BlockClose | Kind::BlockCommit => false,
        _ => in_block,
    }
}

/// The last write to the word since the open, after an entry at a position, given the last one
/// before it.
fn write_after(kind: Kind, word: u32, at: usize, last: Option<usize>) -> Option<usize>
    ensures { result ≡ last_after (write_or_open word kind) at last }
{
    match kind {
        Kind::BlockOpen => None,
        Kind::Write(other, _) if other == word => Some(at),
        _ => last,
    }
}

/// Puts the effects of other callers on the word at the end that came behind the commit inside the
/// caller's open block, if there is one.
fn push_passed(
    alloc: Global,
    header: Header,
    front: &[Entry],
    caller: u32,
    word: u32,
    items: &mut Vec<Item>,
) -> Result<(), AllocError>
    requires kept { first_break header front.now ≡ None }
    ensures { OnOk result (items.new.items
        ≡ items.old.items ++ passed_items front.now caller word) }
{
    if let Some(commit) = inner_commit(front, caller) {
        let effects = effects_from(alloc, header, front, commit + 1)?;
        push_others(caller, word, &effects, items)?;
    }
    Ok(())
}

/// The lone commit inside the caller's open block.
fn inner_commit(front: &[Entry], caller: u32) -> Option<usize>
    ensures commit { result ≡ if has_inner_commit caller (newest_first front.now)
        then last_of caller is_lone_commit (newest_first front.now)
        else None }
    ensures within { IfSome result (λ at. at < length front.now) }
{
    let mut in_block = false;
    let mut commit = None;
    for (at, entry) in front.iter().enumerate() {
        if entry.caller == caller {
            in_block = block_after(entry.kind, in_block);
            commit = commit_after(entry.kind, at, commit);
        }
    }
    if in_block { commit } else { None }
}

/// The last lone commit since the open, after an entry at a position, given the last one before it.
fn commit_after(kind: Kind, at: usize, last: Option<usize>) -> Option<usize>
    ensures { result ≡ last_after (commit_or_open kind) at last }
{
    match kind {
        Kind::BlockOpen => None,
        Kind::Commit => Some(at),
        _ => last,
    }
}

/// The writes that take effect from a position on.
fn effects_from(
    alloc: Global,
    header: Header,
    front: &[Entry],
    from: usize,
) -> Result<Vec<Effect>, AllocError>
    requires within { from ≤ length front.now }
    requires kept { first_break header front.now ≡ None }
    ensures { IfOk result
        (λ effects. effects.items ≡ effects_along front.now from (length front.now)) }
{
    let mut walk = Walk::new(alloc, header, &[])?;
    walk.pass(alloc, header, front, from)?;
    walk.effects(alloc, header, front, from, front.len())
}

/// Puts those of the effects at the end that are another caller's on the word.
fn push_others(
    caller: u32,
    word: u32,
    effects: &[Effect],
    items: &mut Vec<Item>,
) -> Result<(), AllocError>
    ensures { OnOk result (items.new.items
        ≡ items.old.items ++ map Passed (filter (is_of_other caller word) effects.now)) }
{
    for effect in effects {
        let effect = *effect;
        if effect.word == word && effect.caller != caller {
            items.push(Item::Passed { effect })?;
        }
    }
    Ok(())
}
