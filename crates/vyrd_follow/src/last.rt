//! Which steps were the last that set what is told of a state.

ghost use Rattle.std.specs.Prelude.{◌≡◌, ◌++◌, ◌<◌, ◌≤◌, ◌^◌, ℕ, List, length, map, filter_map};
ghost use Rattle.std.specs.Prelude.{vec_len, None, Some, IfOk};
ghost use Rattle.vyrd_base.specs.declared.own.effect.Effect.{Effect};
ghost use Rattle.vyrd_base.specs.Front.{first_break};
ghost use Rattle.vyrd_base.specs.Rules.{rules_by};
ghost use Rattle.vyrd_base.specs.Starts.{state_at_start};
ghost use Rattle.vyrd_follow.specs.LastSteps.{placed_at, last_of, last_item, last_items};

use crate::step::pass;
use crate::tells::Tells;
use crate::thing::{Thing, told_by};
use std::alloc::{AllocError, Global};
use vyrd_base::{Effect, Entry, StartWord};
use vyrd_witness::Item;

/// For each of some items that tells something of the state before the entry at a position of a
/// front, the last step before that entry that set it, if there is one. The specification is in the
/// state of the start, for which the starting words stand. The front keeps all rules of shape.
///
/// The specification runs up to the entry once, and each effect of a step is compared with each
/// item. It takes memory for an effect an item, and that of the specification. The only error is
/// that memory has run out.
pub fn last_items<S: Tells>(
    alloc: Global,
    spec: S,
    starting: &[StartWord],
    front: &[Entry],
    at: usize,
    items: &[Item],
) -> Result<Vec<Item>, AllocError>
    requires state { state_at_start (rules_by (S.charter spec)) starting.now
        ≡ Some (S.state spec) }
    requires made { S.made spec ≡ 0 }
    requires within { at ≤ length front.now }
    requires kept { first_break (rules_by (S.charter spec)).header front.now ≡ None }
    requires few { length front.now < 2 ^ 62 }
    ensures { IfOk result (λ found. found.items
        ≡ last_items (S.charter spec) starting.now front.now at items.now) }
{
    let mut last: Vec<Option<Item>> = vec![in alloc; None; items.len()]?;
    let mut spec = Some(spec);
    let mut done = Vec::new(alloc);
    for p in 0..at {
        spec = pass(alloc, spec, front, p, &mut done)?;
        note_all(p, &done, items, &mut last);
    }
    found_in(alloc, &last)
}

/// The items that are there, in their order.
fn found_in(alloc: Global, last: &[Option<Item>]) -> Result<Vec<Item>, AllocError>
    ensures { IfOk result (λ found. found.items ≡ filter_map (λ o. o) last.now) }
{
    let mut found = Vec::new(alloc);
    for item in last {
        if let Some(item) = item {
            found.push(*item)?;
        }
    }
    Ok(found)
}

/// Keeps for each item the last of what the step at a position does that sets what the item tells.
/// There is a place for each item.
fn note_all(at: usize, done: &[Effect], items: &[Item], last: &mut Vec<Option<Item>>)
    requires count { vec_len last.old ≡ length items.now }
    ensures count { vec_len last.new ≡ length items.now }
    ensures last { (before : List (ℕ × Effect)) → last.old.items ≡ map (last_item before) items.now
        → last.new.items
        ≡ map (last_item (before ++ map (placed_at at) done.now)) items.now }
{
    for i in 0..items.len() {
        last[i] = noted(told_by(items[i]), last[i], at, done);
    }
}

/// The last step that set something, once what the step at a position does is counted too.
fn noted(told: Thing, last: Option<Item>, at: usize, done: &[Effect]) -> Option<Item>
    ensures { (before : List (ℕ × Effect)) → last ≡ last_of before told
        → result ≡ last_of (before ++ map (placed_at at) done.now) told }
{
    let mut found = last;
    for effect in done {
        let doing = *effect;
        if told.is_set_by(doing) {
            found = Some(Item::LastStepped { at, doing });
        }
    }
    found
}
