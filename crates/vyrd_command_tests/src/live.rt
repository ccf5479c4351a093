//! Live runs by the top call, with gates that count who asks and that hold the sink.

use crate::case::{Case, Devices, LONG, answer_to};
use std::alloc::{AllocError, Global};
use std::sync::Wait;
use std::sync::atomic::{AtomicU64, Ordering};
use std::thread::Threads;
use vyrd_base::{Did, Gate, OpenGate, Stamped, Verdict};
use vyrd_command::MOST_EVENTS;
use vyrd_live::run_live;
use vyrd_work::read_work;

const RUN: &[&str] = &["run"];

/// Devices that give 64 bytes a call, and never fail.
const FEW_BYTES: Devices<'static> = Devices {
    longest_read: 64,
    ..LONG
};

#[test]
fn twenty_live_runs(rt: HostRuntime) {
    for run in 1..=20_usize {
        assert!(rt; are_right(&rt, rt.alloc(), run) == Ok(true), "run {run}");
    }
}

/// Whether the program accepts a live run of a mixed workload, and another one is accepted too and
/// leaves a legal history.
fn are_right<R: Threads + Wait + Sync>(
    rt: &R,
    alloc: Global,
    run: usize,
) -> Result<bool, AllocError> {
    let work = mixed_work(alloc, run)?;
    let answer = answer_to(rt, alloc, RUN, &work, &FEW_BYTES, &OpenGate)?;
    Ok(answer.status == 0 && is_legal_live(rt, alloc, &work) == Some(true))
}

/// Whether another live run of the workload is accepted and leaves a legal history.
fn is_legal_live<R: Threads + Wait + Sync>(rt: &R, alloc: Global, work: &[u8]) -> Option<bool> {
    let work = read_work(alloc, work).ok()?;
    let run = run_live(rt, alloc, &work, MOST_EVENTS, &OpenGate).ok()?;
    Some(is_accepted(run.verdict) && is_legal(alloc, &run.history) == Ok(true))
}

fn is_accepted(verdict: Verdict) -> bool {
    matches!(verdict, Verdict::Accepted { .. })
}

/// The first line of a mixed workload of size 9 and of one of size 2, and a round of operations of
/// three callers who share a few keys.
const MIXED: [(&[u8], &[u8], &[u8]); 4] = [
    (
        b"work multiset 9 3 correct\n",
        b"work multiset 2 3 correct\n",
        b"op 0 insert 1\nop 1 insert 1\nop 2 insert 1\nop 0 delete 1\nop 1 delete 1\nop 2 delete 1\nop 0 insert_pair 1 2\nop 1 insert_pair 1 2\nop 2 insert_pair 1 2\nop 0 lookup 2\nop 1 lookup 2\nop 2 lookup 2\n",
    ),
    (
        b"work cache 9 3 correct\n",
        b"work cache 2 3 correct\n",
        b"op 0 write 0 1 2\nop 1 write 0 1 2\nop 2 write 0 1 2\nop 0 flush 0\nop 1 flush 0\nop 2 flush 0\nop 0 evict 0\nop 1 evict 0\nop 2 evict 0\nop 0 read 0\nop 1 read 0\nop 2 read 0\n",
    ),
    (
        b"work tree 9 3 correct\n",
        b"work tree 2 3 correct\n",
        b"op 0 insert 1 7\nop 1 insert 1 7\nop 2 insert 1 7\nop 0 delete 2\nop 1 delete 2\nop 2 delete 2\nop 0 insert 2 8\nop 1 insert 2 8\nop 2 insert 2 8\nop 0 lookup 1\nop 1 lookup 1\nop 2 lookup 1\n",
    ),
    (
        b"work buffers 9 3 correct\n",
        b"work buffers 2 3 correct\n",
        b"op 0 append 0 65\nop 1 append 0 65\nop 2 append 0 65\nop 0 append_from 1 0\nop 1 append_from 1 0\nop 2 append_from 1 0\nop 0 cut 1 2\nop 1 cut 1 2\nop 2 cut 1 2\nop 0 read 1\nop 1 read 1\nop 2 read 1\n",
    ),
];

/// Five rounds of operations on one of the structures, in turn, and from run 10 on at size 2.
fn mixed_work(alloc: Global, run: usize) -> Result<Vec<u8>, AllocError> {
    let (of_size_9, of_size_2, round) = MIXED[run % 4];
    let mut work = Vec::from_slice(alloc, if run < 10 { of_size_9 } else { of_size_2 })?;
    for _ in 0..5 {
        work.extend_from_slice(round)?;
    }
    work.extend_from_slice(b"end\n")?;
    Ok(work)
}

/// Whether the history is legal, played over again in a memory of its own.
fn is_legal(alloc: Global, history: &[Stamped]) -> Result<bool, AllocError> {
    let mut cells = vec![in alloc; 0u64; 2048]?;
    for (at, event) in history.iter().enumerate() {
        if event.number != at as u64 || !may_happen(&mut cells, event) {
            return Ok(false);
        }
    }
    Ok(true)
}

/// Whether the event may happen, which it then does.
fn may_happen(cells: &mut [u64], event: &Stamped) -> bool {
    let holder = u64::from(event.caller) + 1;
    match event.did {
        Did::Read(cell, value) => turns(cells, cell, Some(value), value),
        Did::Wrote(cell, value) => turns(cells, cell, None, value),
        Did::Took(lock) => turns(cells, lock, Some(0), holder),
        Did::Gave(lock) => turns(cells, lock, Some(holder), 0),
        Did::Marked(_) => true,
    }
}

/// Whether the cell has the value that it has to have, if there is one. It then gets the new one.
fn turns(cells: &mut [u64], cell: u32, before: Option<u64>, after: u64) -> bool {
    let Some(found) = cells.get_mut(cell as usize) else {
        return false;
    };
    if let Some(value) = before {
        if value != *found {
            return false;
        }
    }
    *found = after;
    true
}

/// How many rounds of five operations each of four callers plays in a long run.
const ROUNDS: u32 = 1000;

/// Four callers, each of which inserts its own number, looks for it, deletes it and looks for it
/// twice, again and again. Its counts don't depend on the schedule: a round has 18 entries, 2 of
/// them commits, and 3 observers.
fn long_work(alloc: Global) -> Result<Vec<u8>, AllocError> {
    let mut work = Vec::from_slice(alloc, b"work multiset 8 4 correct\n")?;
    for own in OWN {
        put_rounds(own, &mut work)?;
    }
    work.extend_from_slice(b"end\n")?;
    Ok(work)
}

/// A round of each caller.
const OWN: &[&[u8]] = &[
    b"op 0 insert 0\nop 0 lookup 0\nop 0 delete 0\nop 0 lookup 0\nop 0 lookup 0\n",
    b"op 1 insert 1\nop 1 lookup 1\nop 1 delete 1\nop 1 lookup 1\nop 1 lookup 1\n",
    b"op 2 insert 2\nop 2 lookup 2\nop 2 delete 2\nop 2 lookup 2\nop 2 lookup 2\n",
    b"op 3 insert 3\nop 3 lookup 3\nop 3 delete 3\nop 3 lookup 3\nop 3 lookup 3\n",
];

/// Appends a caller's rounds.
fn put_rounds(own: &[u8], work: &mut Vec<u8>) -> Result<(), AllocError> {
    for _ in 0..ROUNDS {
        work.extend_from_slice(own)?;
    }
    Ok(())
}

const LONG_RUN: Case = Case {
    name: "long run",
    words: RUN,
    input: b"",
    devices: LONG,
    status: 0,
    answer: b"accepted: 72000 entries, 8000 commits, 12000 observers\n",
};

/// A gate that counts who asks. It lets the callers do what they want, and holds the sink until it
/// has asked that often.
#[derive(Drop)]
struct Counting {
    held: u64,
    by_callers: AtomicU64,
    by_sink: AtomicU64,
}

impl Gate for Counting {
    fn may_start(&self, caller: u32, _place: u64) -> bool {
        if caller < 4 {
            self.by_callers.fetch_add(1, Ordering::SeqCst);
            return true;
        }
        self.by_sink.fetch_add(1, Ordering::SeqCst) >= self.held
    }
}

/// Whether the long run is answered so under a gate that holds the sink so long, and how often the
/// callers and the sink have asked.
fn long_run<R: Threads + Wait + Sync>(
    rt: &R,
    alloc: Global,
    held: u64,
) -> Result<(bool, u64, u64), AllocError> {
    let work = long_work(alloc)?;
    let gate = Counting {
        held,
        by_callers: AtomicU64::new(0),
        by_sink: AtomicU64::new(0),
    };
    let is_right = LONG_RUN.is_answered_to(rt, alloc, &work, &gate);
    let by_callers = gate.by_callers.load(Ordering::SeqCst);
    Ok((is_right, by_callers, gate.by_sink.load(Ordering::SeqCst)))
}

/// Whether each event of the callers is asked for at the gate, so that they ask as often as there
/// are entries at least, and whether the sink has asked at least so often.
fn asks<R: Threads + Wait + Sync>(rt: &R, alloc: Global, held: u64, least: u64) -> bool {
    match long_run(rt, alloc, held) {
        Ok((is_right, by_callers, by_sink)) => {
            is_right && by_callers >= 72_000 && by_sink >= least
        }
        Err(_) => false,
    }
}

/// It has more events than the relay has room for, so callers wait for the sink.
#[test]
fn long_live_run(rt: HostRuntime) {
    assert!(rt; asks(&rt, rt.alloc(), 0, 8193));
}

/// A gate that holds the sink for long holds no caller: they make more events than the relay has
/// room for. In the first run the sink goes on then, and in the second it is held to the end.
#[test]
fn sink_that_a_gate_holds(rt: HostRuntime) {
    assert!(rt; asks(&rt, rt.alloc(), 20_000, 1));
    assert!(rt; asks(&rt, rt.alloc(), u64::MAX, 1));
}
