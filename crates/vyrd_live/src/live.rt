//! The live run of a workload.

ghost use Rattle.std.specs.Prelude.{[], ◌≡◌, ◌<◌, ◌≤◌, true, map, None, IfOk, IfErr, IfSome};
ghost use Rattle.std.specs.List.{All};
ghost use Rattle.vyrd_base.specs.Places.{newest_first};
ghost use Rattle.vyrd_base.specs.Histories.{cells_of, is_legal, log_of};
ghost use Rattle.vyrd_base.specs.Rules.{built_in, rules_of};
ghost use Rattle.vyrd_base.specs.Verdicts.{accepted, verdict};
ghost use Rattle.vyrd_memory.specs.Bounds.{bounds_of};
ghost use Rattle.vyrd_memory.specs.Playing.{memory_after};
ghost use Rattle.vyrd_memory.specs.Runs.{PlayToTheEnd};
ghost use Rattle.vyrd_trace.specs.Hands.{AreAll, most_events};
ghost use Rattle.vyrd_work.specs.Workloads.{workload_of};
ghost use Rattle.vyrd_work.specs.WorkLimits.{KeepsLimits};
ghost use Rattle.vyrd_work.specs.WorkScripts.{ops_of, work_scripts};
ghost use Rattle.vyrd_every.specs.Schedules.{IsCorrect, IsCorrectWithFewEvents, most_few_events};
ghost use Rattle.vyrd_live.specs.declared.run.LiveFault.TheVariants.{Memory};
ghost use Rattle.vyrd_live.specs.Recorded.{HasRecorded};
ghost use Rattle.vyrd_live.specs.Workers.{IsFresh, IsWorkerOf, AreMadeFor, plan_of};
ghost use Rattle.vyrd_live.specs.Workers.{work_bounds};
ghost use Rattle.vyrd_live.specs.LiveRuns.{AllHadRoom, IsCause, IsTooLow, LeavesRun};

use crate::recording::Recording;
use crate::run::{LiveFault, Overrun, Played, Run};
use crate::worker::Worker;
use crate::workers::play_all;
use std::alloc::{AllocError, Global};
use std::sync::Wait;
use std::thread::Threads;
use vyrd_base::Gate;
use vyrd_memory::EventSink;
use vyrd_trace::{Hand, Traced};
use vyrd_work::{AnyMachine, Work, WorkMachine};

/// Plays the callers of a workload, each on a thread of its own, and shows the events to a sink
/// that has taken nothing, in their order. If a thread can't be started, its work is done by the
/// thread that would have started it. The workload's turns have no effect, and its operations are
/// let go once each caller has its own.
///
/// Each caller asks the gate before each of its events, again and again until the answer is true,
/// and may have `limit` events. Before an operation it makes room for as many events as the
/// operation may have. Where the limit leaves fewer it stops, with no operation under way and no
/// lock held, and the run is spent once the others have ended too. That doesn't come if the bounds
/// of each caller's operations sum to at most `limit`: for each caller of a correct structure that
/// isn't a tree, 6,400,000 events are enough.
///
/// The sink takes the events in a thread beside the callers. While these run it asks the gate
/// before each event, as if it were one caller more, and the place is how many it has taken in.
/// Between two operations a caller that keeps 256 events or more waits until all of them are on
/// their way to the sink, and then lets go of them. So the memory doesn't grow with the run, except
/// for that of the sink. While the gate holds the sink, nobody waits for it, and the events are
/// kept; and if its thread can't be started, all events are kept until the callers have ended.
///
/// It may wait forever: if the gate never lets a caller's event start, or if callers wait for one
/// another's locks. The only error is that memory ran out, which may be met at any time.
pub fn show_live<R: Threads + Wait + Sync, G: Gate, S: EventSink + Drop + Send>(
    rt: &R,
    alloc: Global,
    work: Work,
    limit: u64,
    gate: &G,
    sink: S,
) -> Result<Played<S>, AllocError>
    requires limit { limit ≤ most_events }
    requires limits { KeepsLimits (workload_of work) }
    requires none { S.has_taken sink [] }
    ensures run { IfOk result (λ played. LeavesRun work.header limit
        (work_scripts (workload_of work)) S.has_taken played.sink played.words.items
        played.spent) }
    ensures fixed { IfOk result (λ played. S.fixed played.sink ≡ S.fixed sink) }
    ensures too_low { IfOk result (λ played. IfSome played.spent
        (λ caller. limit < bounds_of work.header (ops_of caller work.ops.items))) }
    ensures never_spent { IsCorrectWithFewEvents (workload_of work) → most_few_events ≤ limit
        → IfOk result (λ played. played.spent ≡ None) }
{
    let (traced, workers) = begin::<AnyMachine>(alloc, &work, limit)?;
    let Work {
        header,
        ops,
        turns,
        ..
    } = work;
    drop(ops);
    drop(turns);
    play_all(rt, alloc, traced, gate, header, workers, sink)
}

/// Plays the callers of a workload as [`show_live`] does, and judges the log of what they did while
/// they are at it. The history takes memory for each event.
///
/// A run that the limit ended is `Spent`. A run of a correct structure is accepted, in whatever
/// order its callers' events come. `Memory` may come at any time.
pub fn run_live<R: Threads + Wait + Sync, G: Gate>(
    rt: &R,
    alloc: Global,
    work: &Work,
    limit: u64,
    gate: &G,
) -> Result<Run, LiveFault>
    requires limit { limit ≤ most_events }
    requires limits { KeepsLimits (workload_of work.now) }
    ensures legal { IfOk result
        (λ run. is_legal (cells_of work.now.header) run.history.items ≡ true) }
    ensures parts { IfOk result
        (λ run. PlayToTheEnd (work_scripts (workload_of work.now)) run.history.items) }
    ensures words { IfOk result
        (λ run. run.words.items ≡ memory_after work.now.header (newest_first run.history.items)) }
    ensures verdict { IfOk result
        (λ run. run.verdict ≡ verdict (rules_of work.now.header) [] (log_of run.history.items)) }
    ensures room { IfOk result (λ run. AllHadRoom work.now.header limit run.history.items) }
    ensures cause { IfErr result
        (IsCause work.now.header limit (work_scripts (workload_of work.now))) }
    ensures too_low { IfErr result (IsTooLow (workload_of work.now) limit) }
    ensures every_schedule { IsCorrect (workload_of work.now) →
        IfOk result (λ run. run.verdict ≡ accepted (log_of run.history.items)) }
    ensures never_spent { IsCorrectWithFewEvents (workload_of work.now) →
        most_few_events ≤ limit → IfErr result (λ fault. fault ≡ Memory) }
{
    let Ok(played) = record(rt, alloc, work, limit, gate) else {
        return Err(LiveFault::Memory);
    };
    let Played { sink, words, spent } = played;
    if let Some(caller) = spent {
        let Recording { history, .. } = sink;
        return Err(LiveFault::Spent(Overrun { caller, history }));
    }
    match sink.finish(words) {
        Ok(run) => Ok(run),
        Err(AllocError) => Err(LiveFault::Memory),
    }
}

/// Plays the callers of a workload, and records the run.
fn record<R: Threads + Wait + Sync, G: Gate>(
    rt: &R,
    alloc: Global,
    work: &Work,
    limit: u64,
    gate: &G,
) -> Result<Played<Recording>, AllocError>
    requires limit { limit ≤ most_events }
    requires limits { KeepsLimits (workload_of work.now) }
    ensures run { IfOk result (λ played. LeavesRun work.now.header limit
        (work_scripts (workload_of work.now)) HasRecorded played.sink played.words.items
        played.spent) }
    ensures charter { IfOk result
        (λ played. played.sink.judge.judge.kept.charter ≡ built_in work.now.header) }
    ensures too_low { IfOk result (λ played. IfSome played.spent
        (λ caller. limit < bounds_of work.now.header (ops_of caller work.now.ops.items))) }
{
    let recording = Recording::new(alloc, work.header)?;
    let (traced, workers) = begin::<AnyMachine>(alloc, work, limit)?;
    play_all(rt, alloc, traced, gate, work.header, workers, recording)
}

/// The memory of a workload, and a worker for each caller, by a machine of this type.
fn begin<M: WorkMachine>(
    alloc: Global,
    work: &Work,
    limit: u64,
) -> Result<(Traced, Vec<Worker<M>>), AllocError>
    requires limit { limit ≤ most_events }
    requires limits { KeepsLimits (workload_of work.now) }
    ensures fresh { IfOk result (λ r.
        All (λ w. IsFresh M.header_of M.script r.0 w.machine w.hand) r.1.items) }
    ensures hands { IfOk result (λ r. AreAll r.0 (map (λ w. w.hand) r.1.items)) }
    ensures plan { IfOk result (λ r. r.0.plan ≡ plan_of work.now.header limit) }
    ensures made { IfOk result
        (λ r. AreMadeFor work.now.header (map (λ w. M.header_of w.machine) r.1.items)) }
    ensures scripts { IfOk result
        (λ r. map (λ w. M.script w.machine) r.1.items ≡ work_scripts (workload_of work.now)) }
    ensures bounds { IfOk result
        (λ r. map (λ w. M.ahead w.machine) r.1.items ≡ work_bounds (workload_of work.now)) }
{
    let header = &work.header;
    let (traced, hands) = Traced::new(
        alloc,
        header.plain_words(),
        header.lock_words(),
        header.callers(),
        limit,
    )?;
    let workers = workers_of(alloc, work, hands)?;
    Ok((traced, workers))
}

/// The machine of each hand's caller, with the hand.
fn workers_of<M: WorkMachine>(
    alloc: Global,
    work: &Work,
    hands: Vec<Hand>,
) -> Result<Vec<Worker<M>>, AllocError>
    requires limits { KeepsLimits (workload_of work.now) }
    requires callers { All (λ h. h.caller < work.now.header.callers) hands.items }
    ensures hands { IfOk result (λ workers. map (λ w. w.hand) workers.items ≡ hands.items) }
    ensures made { IfOk result (λ workers. All (λ w. IsWorkerOf M.header_of M.script M.ahead
        (workload_of work.now) w.machine w.hand) workers.items) }
{
    let mut workers = Vec::new(alloc);
    for hand in hands {
        let machine = M::of_caller(alloc, work, hand.caller())?;
        workers.push(Worker { machine, hand })?;
    }
    Ok(workers)
}
