//! Each public call with ample memory, the worked case of two hands, and two threads at one cell.

ghost use Rattle.std.specs.Prelude.{◌≡◌, ◌+◌, ◌<◌, ◌≤◌, [], IfOk, IfSome};
ghost use Rattle.vyrd_base.specs.Parts.{part};
ghost use Rattle.vyrd_trace.specs.Hands.{IsOf, most_events, most_cells};

mod example;

use self::example::{load_again, store_again};
use std::alloc::{AllocError, Global};
use std::sync::Wait;
use std::test::Fail;
use std::thread::{Threads, join};
use vyrd_trace::{Busy, Closed, Hand, Reserve, Seen, Traced};

/// A memory with two hands.
fn two(
    alloc: Global,
    plain: u32,
    locks: u32,
    limit: u64,
) -> Result<(Traced, Hand, Hand), AllocError>
    requires { (plain + locks ≤ most_cells) × (limit ≤ most_events) }
    ensures plan { IfOk result
        (λ r. r.0.plan ≡ record { plain = plain; locks = locks; callers = 2; limit = limit }) }
    ensures first { IfOk result
        (λ r. IsOf r.0 r.1 × (r.1.caller ≡ 0) × (r.1.lane ≡ []) × (r.1.forgotten ≡ 0)) }
    ensures second { IfOk result
        (λ r. IsOf r.0 r.2 × (r.2.caller ≡ 1) × (r.2.lane ≡ []) × (r.2.forgotten ≡ 0)) }
{
    let (traced, mut hands) = Traced::new(alloc, plain, locks, 2, limit)?;
    let Some(second) = hands.pop() else {
        return Err(AllocError);
    };
    let Some(first) = hands.pop() else {
        return Err(AllocError);
    };
    Ok((traced, first, second))
}

/// The history of two hands: their lanes are its parts.
fn close_two(alloc: Global, traced: Traced, first: Hand, second: Hand) -> Option<Closed>
    requires plan { traced.plan.callers ≡ 2 }
    requires first { IsOf traced first × (first.caller ≡ 0) × (first.forgotten ≡ 0) }
    requires second { IsOf traced second × (second.caller ≡ 1) × (second.forgotten ≡ 0) }
    ensures { IfSome result
        (λ c. (part 0 c.history.items ≡ first.lane) × (part 1 c.history.items ≡ second.lane)) }
{
    let Ok(mut hands) = Vec::with_capacity(alloc, 2) else {
        return None;
    };
    hands.push_reserved(first);
    hands.push_reserved(second);
    traced.close(hands).ok()
}

/// The last values that two hands leave.
fn end_two(alloc: Global, traced: Traced, first: Hand, second: Hand) -> Option<Vec<u64>>
    requires plan { traced.plan.callers ≡ 2 }
    requires first { IsOf traced first × (first.caller ≡ 0) }
    requires second { IsOf traced second × (second.caller ≡ 1) }
{
    let Ok(mut hands) = Vec::with_capacity(alloc, 2) else {
        return None;
    };
    hands.push_reserved(first);
    hands.push_reserved(second);
    traced.end(hands).ok()
}

/// Loads and stores cell 0, 1,000 times each.
fn work<R: Wait>(rt: &R, traced: &Traced, mut hand: Hand) -> Hand
    requires hand { IsOf traced.now hand × (2000 ≤ hand.spare) }
    requires cell { 0 < traced.now.plan.plain }
    ensures { IsOf traced.now result × (result.caller ≡ hand.caller)
        × (result.forgotten ≡ hand.forgotten) }
{
    for i in 0..1000u32 {
        load_again(rt, traced, &mut hand, 0);
        store_again(rt, traced, &mut hand, 0, i);
    }
    hand
}

fn work_at_once<R: Threads + Wait + Sync>(
    rt: &R,
    traced: &Traced,
    first: Hand,
    second: Hand,
) -> (Hand, Hand)
    requires first { IsOf traced.now first × (2000 ≤ first.spare) }
    requires second { IsOf traced.now second × (2000 ≤ second.spare) }
    requires cell { 0 < traced.now.plan.plain }
    ensures first { IsOf traced.now result.0 × (result.0.caller ≡ first.caller)
        × (result.0.forgotten ≡ first.forgotten) }
    ensures second { IsOf traced.now result.1 × (result.1.caller ≡ second.caller)
        × (result.1.forgotten ≡ second.forgotten) }
{
    join(rt, || work(rt, traced, first), || work(rt, traced, second))
}

#[test]
fn two_threads_at_one_cell(rt: HostRuntime) -> Result<(), Fail> {
    let (traced, mut first, mut second) = two(rt.alloc(), 1, 0, 2000)?;
    if first.reserve(2000).is_err() || second.reserve(2000).is_err() {
        panic!(rt; "no memory")
    }
    let (first, second) = work_at_once(&rt, &traced, first, second);
    let Some(closed) = close_two(rt.alloc(), traced, first, second) else {
        panic!(rt; "no memory")
    };
    assert!(rt; closed.history.len() == 4000 && closed.words.as_slice() == [999].as_slice());
    Ok(())
}

/// Whether each action of two hands in one thread answers as it is to.
fn actions_answer(traced: &Traced, first: &mut Hand, second: &mut Hand) -> bool
    requires first { IsOf traced.now first.old × (2 ≤ first.old.spare) }
    requires second { IsOf traced.now second.old × (2 ≤ second.old.spare) }
    requires cells { (traced.now.plan.plain ≡ 1) × (traced.now.plan.locks ≡ 1) }
    ensures first { IsOf traced.now first.new × (first.new.caller ≡ first.old.caller)
        × (first.new.forgotten ≡ first.old.forgotten) }
    ensures second { IsOf traced.now second.new × (second.new.caller ≡ second.old.caller)
        × (second.new.forgotten ≡ second.old.forgotten) }
{
    let took = traced.take(first, 1);
    let busy = traced.take(second, 1);
    if took != Ok(0) || busy != Err(Busy { found: 2 }) {
        return false;
    }
    let stored = traced.store(second, 0, 7);
    let loaded = traced.load(first, 0);
    stored == Ok(1)
        && loaded
            == Ok(Seen {
                number: 2,
                value: 7,
            })
}

#[test]
fn actions_of_two_hands(rt: HostRuntime) -> Result<(), Fail> {
    let (traced, mut first, mut second) = two(rt.alloc(), 1, 1, 3)?;
    let refused = first.reserve(4);
    if first.reserve(3).is_err() || second.reserve(3).is_err() {
        panic!(rt; "no memory")
    }
    assert!(rt; refused == Err(Reserve::Spent) && actions_answer(&traced, &mut first, &mut second));
    assert!(rt; first.caller() == 0 && first.lane().len() == 2);
    assert!(rt; second.caller() == 1 && second.lane().len() == 1);
    let Some(closed) = close_two(rt.alloc(), traced, first, second) else {
        panic!(rt; "no memory")
    };
    assert!(rt; closed.history.len() == 3 && closed.words.as_slice() == [7, 1].as_slice());
    Ok(())
}

#[test]
fn forgotten_events_still_count(rt: HostRuntime) -> Result<(), Fail> {
    let (traced, mut first, second) = two(rt.alloc(), 1, 0, 3)?;
    if first.reserve(2).is_err() {
        panic!(rt; "no memory")
    }
    let stored = traced.store(&mut first, 0, 7);
    first.forget();
    let kept = first.lane().len();
    let loaded = traced.load(&mut first, 0);
    let seen = Seen {
        number: 1,
        value: 7,
    };
    assert!(rt; stored == Ok(0) && kept == 0 && loaded == Ok(seen));
    assert!(rt; first.made() == 2 && first.forgotten() == 1 && first.lane().len() == 1);
    assert!(rt; first.reserve(2) == Err(Reserve::Spent) && first.reserve(1) == Ok(()));
    first.forget();
    assert!(rt; first.forgotten() == 2);
    let Some(words) = end_two(rt.alloc(), traced, first, second) else {
        panic!(rt; "no memory")
    };
    assert!(rt; words.as_slice() == [7].as_slice());
    Ok(())
}
