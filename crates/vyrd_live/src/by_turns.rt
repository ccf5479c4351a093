//! The run of a workload by turns, over plain memory.

ghost use Rattle.std.specs.Prelude.{◌≡◌, [], length, map, All, IfOk, IfSome, IsSome};
ghost use Rattle.std.specs.Prelude.{MatchOption};
ghost use Rattle.vyrd_base.specs.Histories.{log_of};
ghost use Rattle.vyrd_base.specs.Verdicts.{accepted};
ghost use Rattle.vyrd_memory.specs.Turns.{GetsStuck};
ghost use Rattle.vyrd_memory.specs.Showing.{HasRun};
ghost use Rattle.vyrd_work.specs.Workloads.{workload_of};
ghost use Rattle.vyrd_work.specs.WorkLimits.{KeepsLimits};
ghost use Rattle.vyrd_work.specs.WorkScripts.{work_scripts};
ghost use Rattle.vyrd_every.specs.Schedules.{IsCorrect};
ghost use Rattle.vyrd_live.specs.TurnRuns.{IsRunByTurns};

use crate::recording::Recording;
use crate::run::Run;
use std::alloc::{AllocError, Global};
use vyrd_memory::{EventSink, StepFault, show_turns};
use vyrd_work::{Work, WorkMachine};

/// Plays a workload by its turns and judges the run: what each caller does, event by event, is
/// settled by the workload alone. There is no run if it gets stuck, as two callers do that wait for
/// each other's lock. A correct structure doesn't get stuck, and is accepted. It takes memory for
/// the whole history.
pub fn run_by_turns<M: WorkMachine>(alloc: Global, work: &Work) -> Result<Option<Run>, AllocError>
    requires limits { KeepsLimits (workload_of work.now) }
    ensures played { IfOk result (λ run. MatchOption run
        (GetsStuck (work_scripts (workload_of work.now)) work.now.turns.items)
        (IsRunByTurns (workload_of work.now))) }
    ensures every_schedule { IsCorrect (workload_of work.now) → IfOk result (λ run.
        MatchOption run ⊥ (λ run. run.verdict ≡ accepted (log_of run.history.items))) }
{
    let mut recording = Recording::new(alloc, work.header)?;
    let mut machines: Vec<M> = machines_of(alloc, work)?;
    match show_turns(
        alloc,
        work.header,
        &mut machines,
        &work.turns,
        &mut recording,
    ) {
        Ok(words) => Ok(Some(recording.finish(words)?)),
        Err(StepFault::Stuck) => Ok(None),
        Err(StepFault::Memory) => Err(AllocError),
    }
}

/// Plays a workload by its turns, and shows each event to a sink that has taken nothing. The answer
/// is the memory at the end: the plain words, and then the locks. There is none if the run gets
/// stuck, which that of a correct structure doesn't.
///
/// No event is kept beside the sink, and the workload's operations are let go once each caller has
/// its own. The only error is that memory ran out.
pub fn show_by_turns<M: WorkMachine, S: EventSink>(
    alloc: Global,
    work: Work,
    sink: &mut S,
) -> Result<Option<Vec<u64>>, AllocError>
    requires limits { KeepsLimits (workload_of work) }
    requires none { S.has_taken sink.old [] }
    ensures played { IfOk result (λ words. MatchOption words
        (GetsStuck (work_scripts (workload_of work)) work.turns.items)
        (λ w. HasRun (work_scripts (workload_of work)) work.turns.items work.header
        S.has_taken sink.new w.items)) }
    ensures fixed { IfOk result (λ words. IfSome words
        (λ _. S.fixed sink.new ≡ S.fixed sink.old)) }
    ensures ends { IsCorrect (workload_of work) → IfOk result IsSome }
{
    let mut machines: Vec<M> = machines_of(alloc, &work)?;
    let Work {
        header,
        ops,
        turns,
        ..
    } = work;
    drop(ops);
    match show_turns(alloc, header, &mut machines, &turns, sink) {
        Ok(words) => Ok(Some(words)),
        Err(StepFault::Stuck) => Ok(None),
        Err(StepFault::Memory) => Err(AllocError),
    }
}

/// The machines of a workload's callers, in their order.
fn machines_of<M: WorkMachine>(alloc: Global, work: &Work) -> Result<Vec<M>, AllocError>
    requires limits { KeepsLimits (workload_of work.now) }
    ensures count { IfOk result (λ machines. length machines.items ≡ work.now.header.callers) }
    ensures header { IfOk result
        (λ machines. All (λ m. M.header_of m ≡ work.now.header) machines.items) }
    ensures scripts { IfOk result
        (λ machines. map M.script machines.items ≡ work_scripts (workload_of work.now)) }
{
    let mut machines = Vec::new(alloc);
    for caller in 0..work.header.callers() {
        machines.push(M::of_caller(alloc, work, caller)?)?;
    }
    Ok(machines)
}
