//! The example of docs/TRACING.md: a multiset with one slot.

ghost use Rattle.std.specs.Prelude.{◌≡◌, ◌+◌, ◌<◌, ◌≤◌};
ghost use Rattle.vyrd_base.specs.declared.history.Did.TheVariants.{Read, Wrote, Took};
ghost use Rattle.vyrd_trace.specs.Hands.{IsOf, with_one_more};

use super::{close_two, two};
use std::sync::Wait;
use std::test::Fail;
use std::thread::{Threads, join};
use vyrd_base::{Args, Kind, Method, MultisetMethod};
use vyrd_trace::{Hand, Seen, Traced};

// The slot is free while its state is 0, and has its value while that is 2.
const STATE: u32 = 0;

const VALUE: u32 = 1;

const LOCK: u32 = 2;

// The most events that one insert makes.
const EVENTS: u64 = 9;

// Loads a cell, trying again while it is busy.
pub(super) fn load_again<R: Wait>(rt: &R, traced: &Traced, hand: &mut Hand, cell: u32) -> Seen
    requires hand { IsOf traced.now hand.old × (0 < hand.old.spare) }
    requires cell { cell < traced.now.plan.plain }
    ensures { hand.new
        ≡ with_one_more hand.old result.number (Read cell result.value) hand.new.look }
{
    for _ in rt.forever() {
        if let Ok(seen) = traced.load(hand, cell) {
            return seen;
        }
    }
    unreachable!()
}

// Stores a value in a cell, trying again while it is busy.
pub(super) fn store_again<R: Wait>(
    rt: &R,
    traced: &Traced,
    hand: &mut Hand,
    cell: u32,
    value: u32,
) -> u64
    requires hand { IsOf traced.now hand.old × (0 < hand.old.spare) }
    requires cell { cell < traced.now.plan.plain }
    ensures { hand.new ≡ with_one_more hand.old result (Wrote cell value) hand.new.look }
{
    for _ in rt.forever() {
        if let Ok(number) = traced.store(hand, cell, value as u64) {
            return number;
        }
    }
    unreachable!()
}

// Takes a lock, trying again while it is busy.
fn take_again<R: Wait>(rt: &R, traced: &Traced, hand: &mut Hand, lock: u32) -> u64
    requires hand { IsOf traced.now hand.old × (0 < hand.old.spare) }
    requires lock { (traced.now.plan.plain ≤ lock)
        × (lock < traced.now.plan.plain + traced.now.plan.locks) }
    ensures { hand.new ≡ with_one_more hand.old result (Took lock) hand.new.look }
{
    for _ in rt.forever() {
        if let Ok(number) = traced.take(hand, lock) {
            return number;
        }
    }
    unreachable!()
}

// Puts a value into the slot if that is free. Replies 1 if it did, and 0 otherwise.
fn insert<R: Wait>(rt: &R, traced: &Traced, hand: &mut Hand, value: u32) -> u64
    requires hand { IsOf traced.now hand.old × (9 ≤ hand.old.spare) }
    requires cells { (traced.now.plan.plain ≡ 2) × (traced.now.plan.locks ≡ 1) }
    ensures { IsOf traced.now hand.new × (hand.new.caller ≡ hand.old.caller)
        × (hand.new.forgotten ≡ hand.old.forgotten) }
{
    let args = Args {
        a: value,
        b: 0,
        c: 0,
    };
    traced.mark(
        hand,
        Kind::Call(Method::Multiset(MultisetMethod::Insert), args),
    );
    take_again(rt, traced, hand, LOCK);
    let free = load_again(rt, traced, hand, STATE).value == 0;
    if free {
        traced.mark(hand, Kind::BlockOpen);
        store_again(rt, traced, hand, VALUE, value);
        store_again(rt, traced, hand, STATE, 2);
        traced.mark(hand, Kind::BlockCommit);
    } else {
        traced.mark(hand, Kind::Commit);
    }
    traced.give(hand, LOCK);
    traced.mark(hand, Kind::Return(free as u64));
    free as u64
}

// Inserts by one hand, and gives the hand back with the reply.
fn insert_with<R: Wait>(rt: &R, traced: &Traced, mut hand: Hand, value: u32) -> (Hand, u64)
    requires hand { IsOf traced.now hand × (9 ≤ hand.spare) }
    requires cells { (traced.now.plan.plain ≡ 2) × (traced.now.plan.locks ≡ 1) }
    ensures { IsOf traced.now result.0 × (result.0.caller ≡ hand.caller)
        × (result.0.forgotten ≡ hand.forgotten) }
{
    let reply = insert(rt, traced, &mut hand, value);
    (hand, reply)
}

fn insert_at_once<R: Threads + Wait + Sync>(
    rt: &R,
    traced: &Traced,
    first: Hand,
    second: Hand,
) -> ((Hand, u64), (Hand, u64))
    requires first { IsOf traced.now first × (9 ≤ first.spare) }
    requires second { IsOf traced.now second × (9 ≤ second.spare) }
    requires cells { (traced.now.plan.plain ≡ 2) × (traced.now.plan.locks ≡ 1) }
    ensures first { IsOf traced.now result.0.0 × (result.0.0.caller ≡ first.caller)
        × (result.0.0.forgotten ≡ first.forgotten) }
    ensures second { IsOf traced.now result.1.0 × (result.1.0.caller ≡ second.caller)
        × (result.1.0.forgotten ≡ second.forgotten) }
{
    join(
        rt,
        || insert_with(rt, traced, first, 7),
        || insert_with(rt, traced, second, 5),
    )
}

#[test]
fn one_of_two_inserts_has_the_slot(rt: HostRuntime) -> Result<(), Fail> {
    let (traced, mut first, mut second) = two(rt.alloc(), 2, 1, EVENTS)?;
    if first.reserve(EVENTS).is_err() || second.reserve(EVENTS).is_err() {
        panic!(rt; "no memory")
    }
    let ((first, one), (second, other)) = insert_at_once(&rt, &traced, first, second);
    let value = if one == 1 { 7 } else { 5 };
    let Some(closed) = close_two(rt.alloc(), traced, first, second) else {
        panic!(rt; "no memory")
    };
    assert!(rt; (one, other) == (1, 0) || (one, other) == (0, 1));
    assert!(rt; closed.history.len() == 15 && closed.words.as_slice() == [2, value, 0].as_slice());
    Ok(())
}
