//! Live runs of small workloads, with gates that hold callers in the middle of their work: by
//! `run_live`, and by `show_live`, as the program does.

ghost use Rattle.std.specs.Prelude.{◌≤◌};
ghost use Rattle.vyrd_trace.specs.Hands.{most_events};

use std::alloc::{AllocError, Global};
use std::sync::Wait;
use std::sync::atomic::{AtomicBool, AtomicU64, Ordering};
use std::test::Fail;
use std::thread::Threads;
use vyrd_base::{Gate, OpenGate, Verdict, Why};
use vyrd_judge::judge_history;
use vyrd_live::{LiveFault, Run, run_live, show_live};
use vyrd_work::read_work;

/// How often a gate is asked, or looks for another caller, before it gives up.
const PATIENCE: u64 = 50_000_000;

/// The live run of a workload's text, if that is one.
fn run_text<R: Threads + Wait + Sync, G: Gate>(
    rt: &R,
    alloc: Global,
    text: &[u8],
    limit: u64,
    gate: &G,
) -> Option<Result<Run, LiveFault>>
    requires { limit ≤ most_events }
{
    let Ok(work) = read_work(alloc, text) else {
        return None;
    };
    Some(run_live(rt, alloc, &work, limit, gate))
}

/// The verdict about that run, if it ends.
fn judged<R: Threads + Wait + Sync, G: Gate>(
    rt: &R,
    alloc: Global,
    text: &[u8],
    limit: u64,
    gate: &G,
) -> Option<Verdict>
    requires { limit ≤ most_events }
{
    match run_text(rt, alloc, text, limit, gate) {
        Some(Ok(run)) => Some(run.verdict),
        _ => None,
    }
}

/// The most events of a run here.
const MOST: usize = 1000;

/// The verdict about a live run of a workload's text, if that is one, whose events a vector takes.
#[tactic(auto, using(vyrd_work::proofs::BuiltIn::work_built_in))]
fn shown<R: Threads + Wait + Sync, G: Gate>(
    rt: &R,
    alloc: Global,
    text: &[u8],
    gate: &G,
) -> Option<Verdict> {
    let Ok(work) = read_work(alloc, text) else {
        return None;
    };
    let header = work.header;
    let played = show_live(rt, alloc, work, MOST as u64, gate, Vec::new(alloc)).ok()?;
    if played.sink.len() > MOST || played.spent.is_some() {
        return None;
    }
    judge_history(alloc, header, &played.sink).ok()
}

fn accepted(entries: u64, commits: u64, observers: u64) -> Option<Verdict> {
    Some(Verdict::Accepted {
        entries,
        commits,
        observers,
    })
}

/// A gate that lets callers 0 and 1 begin once both want to. It looks for the other one that many
/// times, and remembers if it didn't find it.
#[derive(Drop)]
struct Meeting {
    first: AtomicBool,
    second: AtomicBool,
    missed: AtomicBool,
}

impl Meeting {
    fn new() -> Meeting {
        Meeting {
            first: AtomicBool::new(false),
            second: AtomicBool::new(false),
            missed: AtomicBool::new(false),
        }
    }

    /// Leaves a note in `own`, and looks for one in `other`.
    fn meet(&self, own: &AtomicBool, other: &AtomicBool) {
        own.store(true, Ordering::SeqCst);
        for _ in 0..PATIENCE {
            if other.load(Ordering::SeqCst) {
                return;
            }
        }
        self.missed.store(true, Ordering::SeqCst);
    }
}

impl Gate for Meeting {
    fn may_start(&self, caller: u32, place: u64) -> bool {
        match (caller, place) {
            (0, 0) => self.meet(&self.first, &self.second),
            (1, 0) => self.meet(&self.second, &self.first),
            _ => {}
        }
        true
    }
}

/// In one thread, in whatever order, one of the two callers would not find the other's note.
#[test]
fn two_callers_at_once(rt: HostRuntime) {
    let text = b"work multiset 2 2 correct\nop 0 lookup 1\nop 1 lookup 0\nop 1 lookup 0\nend\n";
    let gate = Meeting::new();
    let verdict = judged(&rt, rt.alloc(), text, MOST as u64, &gate);
    assert!(rt; verdict == accepted(6, 0, 3) && !gate.missed.load(Ordering::SeqCst));

    let gate = Meeting::new();
    let verdict = shown(&rt, rt.alloc(), text, &gate);
    assert!(rt; verdict == accepted(6, 0, 3) && !gate.missed.load(Ordering::SeqCst));
}

/// Whether caller 0 is stopped before its first event.
fn stops_at_once<R: Threads + Wait + Sync>(rt: &R, alloc: Global, text: &[u8], limit: u64) -> bool
    requires { limit ≤ most_events }
{
    match run_text(rt, alloc, text, limit, &OpenGate) {
        Some(Err(LiveFault::Spent(spent))) => spent.caller == 0 && spent.history.is_empty(),
        _ => false,
    }
}

/// The bound of a multiset's operation is 32.
#[test]
fn bound_of_events(rt: HostRuntime) {
    let text = b"work multiset 1 1 correct\nop 0 lookup 5\nend\n";
    assert!(rt; stops_at_once(&rt, rt.alloc(), text, 31));
    assert!(rt; judged(&rt, rt.alloc(), text, 32, &OpenGate) == accepted(2, 0, 1));
}

/// A gate that holds each of two callers in the middle of its work until the other one has come to
/// a place. It counts how often it is asked, and gives up after a number of questions.
#[derive(Drop)]
struct Turnstile {
    asked: AtomicU64,
    gave_up: AtomicBool,
    // Which places callers have asked at: 0 of caller 0, 9 of caller 0, and 10 of caller 1.
    zero_at_2: AtomicBool,
    zero_at_9: AtomicBool,
    one_at_10: AtomicBool,
}

impl Turnstile {
    fn new() -> Turnstile {
        Turnstile {
            asked: AtomicU64::new(0),
            gave_up: AtomicBool::new(false),
            zero_at_2: AtomicBool::new(false),
            zero_at_9: AtomicBool::new(false),
            one_at_10: AtomicBool::new(false),
        }
    }

    /// Whether the caller has come so far that the other one may go on. It notes that this one has
    /// come to its place.
    fn has_come(&self, caller: u32, place: u64) -> bool {
        match (caller, place) {
            (0, 2) => {
                self.zero_at_2.store(true, Ordering::SeqCst);
                self.one_at_10.load(Ordering::SeqCst)
            }
            (0, 9) => {
                self.zero_at_9.store(true, Ordering::SeqCst);
                true
            }
            (1, 0) => self.zero_at_2.load(Ordering::SeqCst),
            (1, 10) => {
                self.one_at_10.store(true, Ordering::SeqCst);
                self.zero_at_9.load(Ordering::SeqCst)
            }
            _ => true,
        }
    }
}

impl Gate for Turnstile {
    fn may_start(&self, caller: u32, place: u64) -> bool {
        let may = self.has_come(caller, place);
        if self.asked.fetch_add(1, Ordering::SeqCst) < PATIENCE {
            return may;
        }
        self.gave_up.store(true, Ordering::SeqCst);
        true
    }
}

/// Playing one script after the other doesn't lead to this order of events.
#[test]
fn schedule_forced_by_the_gate(rt: HostRuntime) {
    let text = b"work multiset 1 2 broken\nop 0 insert 5\nop 1 insert 6\nop 1 lookup 9\nend\n";
    let differs = Verdict::Violation {
        line: 14,
        why: Why::View(6),
    };
    let gate = Turnstile::new();
    let verdict = judged(&rt, rt.alloc(), text, MOST as u64, &gate);
    assert!(rt; verdict == Some(differs) && !gate.gave_up.load(Ordering::SeqCst));

    let gate = Turnstile::new();
    let verdict = shown(&rt, rt.alloc(), text, &gate);
    assert!(rt; verdict == Some(differs) && !gate.gave_up.load(Ordering::SeqCst));
}

/// Four callers, each of which inserts its key, looks for it, deletes it and looks for it twice,
/// ten times over.
fn four_callers(alloc: Global) -> Result<Vec<u8>, AllocError> {
    let lines = [
        b"op 0 insert 0\nop 0 lookup 0\nop 0 delete 0\nop 0 lookup 0\nop 0 lookup 0\n",
        b"op 1 insert 1\nop 1 lookup 1\nop 1 delete 1\nop 1 lookup 1\nop 1 lookup 1\n",
        b"op 2 insert 0\nop 2 lookup 0\nop 2 delete 0\nop 2 lookup 0\nop 2 lookup 0\n",
        b"op 3 insert 1\nop 3 lookup 1\nop 3 delete 1\nop 3 lookup 1\nop 3 lookup 1\n",
    ];
    let mut text = Vec::new(alloc);
    text.extend_from_slice(b"work multiset 8 4 correct\n")?;
    for own in lines {
        for _ in 0..10 {
            text.extend_from_slice(own)?;
        }
    }
    text.extend_from_slice(b"end\n")?;
    Ok(text)
}

#[test]
fn four_callers_beside(rt: HostRuntime) -> Result<(), Fail> {
    let text = four_callers(rt.alloc())?;
    let verdict = judged(&rt, rt.alloc(), &text, 16_777_216, &OpenGate);
    assert!(rt; verdict == accepted(720, 80, 120));
    Ok(())
}

/// A gate that holds caller 0 at its ninth event until the verifier asked for its eighth. With one
/// caller the verifier asks as caller 1. The gate gives up after a number of questions, and
/// remembers it.
#[derive(Drop)]
struct Beside {
    asked: AtomicU64,
    seen: AtomicBool,
    gave_up: AtomicBool,
}

impl Beside {
    fn new() -> Beside {
        Beside {
            asked: AtomicU64::new(0),
            seen: AtomicBool::new(false),
            gave_up: AtomicBool::new(false),
        }
    }
}

impl Gate for Beside {
    fn may_start(&self, caller: u32, place: u64) -> bool {
        if self.asked.fetch_add(1, Ordering::SeqCst) >= PATIENCE {
            self.gave_up.store(true, Ordering::SeqCst);
            return true;
        }
        if caller == 1 && place == 7 {
            self.seen.store(true, Ordering::SeqCst);
        }
        caller != 0 || place != 8 || self.seen.load(Ordering::SeqCst)
    }
}

/// A verifier that begins to take in events once the workers have ended doesn't ask in time.
#[test]
fn verifier_beside_the_worker(rt: HostRuntime) {
    let text = b"work multiset 1 1 correct\nop 0 lookup 5\nop 0 lookup 5\nend\n";
    let gate = Beside::new();
    let verdict = judged(&rt, rt.alloc(), text, MOST as u64, &gate);
    assert!(rt; verdict == accepted(4, 0, 2) && !gate.gave_up.load(Ordering::SeqCst));

    let gate = Beside::new();
    let verdict = shown(&rt, rt.alloc(), text, &gate);
    assert!(rt; verdict == accepted(4, 0, 2) && !gate.gave_up.load(Ordering::SeqCst));
}
