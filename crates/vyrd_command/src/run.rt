//! What `run` answers.

ghost use Rattle.std.specs.Prelude.{◌≡◌, ◌≤◌, ◌⊎◌, ◌==◌, false, [], Ok, IfOk};
ghost use Rattle.vyrd_base.specs.Devices.{AfterReads};
ghost use Rattle.vyrd_work.specs.Workloads.{workload_of};
ghost use Rattle.vyrd_work.specs.WorkLimits.{KeepsLimits};
ghost use Rattle.vyrd_work.specs.WorkReading.{work_reading};
ghost use Rattle.vyrd_work.specs.LongInputs.{longest_input};
ghost use Rattle.vyrd_trace.specs.Hands.{most_events};
ghost use Rattle.vyrd_command.specs.Inputs.{IsInputTaken, IsFewTaken};
ghost use Rattle.vyrd_command.specs.Runs.{AnswersRun, IsRunAnswer, IsRunStatus};

use crate::account::Account;
use crate::read_input::{LONGEST_WORK, read_input};
use crate::show::Show;
use crate::status::{MEMORY, READ_FAULT};
use crate::telling::{overrun, refuse, told_of};
use std::alloc::{AllocError, Global};
use std::sync::Wait;
use std::thread::Threads;
use vyrd_base::{Gate, Source};
use vyrd_check_command::{Answer, ReadFault};
use vyrd_live::{Played, show_live};
use vyrd_work::{Work, WorkFault, read_work};

/// How many events a caller of a live run may have.
pub const MOST_EVENTS: u64 = 16_777_216;

/// The answer to a workload: what is to be shown of a live run, with the status of the verdict
/// about it; or that it is refused, or that a caller's events are spent; or nothing if a read
/// failed or there is no memory.
pub fn run<R: Threads + Wait + Sync, S: Source, G: Gate>(
    rt: &R,
    alloc: Global,
    show: Show,
    source: &mut S,
    gate: &G,
) -> Answer
    requires unended { (S.known source.old).ended ≡ false }
    ensures statuses { IsRunStatus result.status ⊎ (result.status ≡ 4) ⊎ (result.status ≡ 6) }
    ensures answers { IsRunStatus result.status
        → AnswersRun show (S.known source.old).rest result.status result.text.items }
    ensures consumed { IsRunStatus result.status
        → IsInputTaken longest_input 7 result.status (S.known source.old) (S.known source.new) }
    ensures few { IsFewTaken longest_input (S.known source.old) (S.known source.new) }
    ensures silent { result.status ≡ 4 ⊎ result.status ≡ 6 → result.text.items ≡ [] }
    ensures source { AfterReads (result.status == 4) (S.known source.old) (S.known source.new) }
{
    match read_input(alloc, LONGEST_WORK, source) {
        Ok(bytes) => match answer_to(rt, alloc, show, bytes, gate) {
            Ok(answer) => answer,
            Err(_) => Answer::silent(alloc, MEMORY),
        },
        Err(ReadFault::Failed) => Answer::silent(alloc, READ_FAULT),
        Err(ReadFault::Memory) => Answer::silent(alloc, MEMORY),
    }
}

/// The answer to the bytes of a workload, which aren't kept while it is played.
fn answer_to<R: Threads + Wait + Sync, G: Gate>(
    rt: &R,
    alloc: Global,
    show: Show,
    bytes: Vec<u8>,
    gate: &G,
) -> Result<Answer, AllocError>
    ensures { IfOk result (λ answer. IsRunAnswer show (work_reading bytes.items) answer.status
        answer.text.items) }
{
    let read = read_work(alloc, &bytes);
    drop(bytes);
    match read {
        Ok(work) => play(rt, alloc, show, work, MOST_EVENTS, gate),
        Err(WorkFault::Refused { line, rule }) => refuse(alloc, line, rule),
        Err(WorkFault::Memory) => Err(AllocError),
    }
}

/// The answer to a workload that was read, each of whose callers may have `limit` events: what is
/// to be shown of a live run, with the status of the verdict about it, or that a caller's events
/// are spent.
///
/// `limit` is at most [`MOST_EVENTS`], with which `run` plays; the contract says of that limit
/// alone what is answered. The callers have threads of their own and ask the gate before each
/// event. The call waits for them, forever if they do. The only error is out of memory.
pub fn play<R: Threads + Wait + Sync, G: Gate>(
    rt: &R,
    alloc: Global,
    show: Show,
    work: Work,
    limit: u64,
    gate: &G,
) -> Result<Answer, AllocError>
    requires limits { KeepsLimits (workload_of work) }
    requires limit { limit ≤ most_events }
    ensures { limit ≡ most_events
        → IfOk result (λ answer. IsRunAnswer show (Ok (workload_of work)) answer.status
        answer.text.items) }
{
    let account = Account::new(alloc, work.header, show)?;
    let played = show_live(rt, alloc, work, limit, gate, account)?;
    let Played { sink, spent, .. } = played;
    match spent {
        Some(caller) => overrun(alloc, caller),
        None => told_of(sink),
    }
}
