//! What `step` answers.

ghost use Rattle.std.specs.Prelude.{◌≡◌, ◌⊎◌, ◌==◌, false, [], Ok, IfOk};
ghost use Rattle.vyrd_base.specs.Devices.{AfterReads};
ghost use Rattle.vyrd_work.specs.Workloads.{workload_of};
ghost use Rattle.vyrd_work.specs.WorkLimits.{KeepsLimits};
ghost use Rattle.vyrd_work.specs.WorkReading.{work_reading};
ghost use Rattle.vyrd_work.specs.LongInputs.{longest_input};
ghost use Rattle.vyrd_command.specs.Inputs.{IsInputTaken, IsFewTaken};
ghost use Rattle.vyrd_command.specs.Steps.{AnswersStep, IsStepAnswer, IsStepStatus};

use crate::account::Account;
use crate::read_input::{LONGEST_WORK, read_input};
use crate::show::Show;
use crate::status::{MEMORY, READ_FAULT};
use crate::telling::{refuse, stuck, told_of};
use std::alloc::{AllocError, Global};
use vyrd_base::Source;
use vyrd_check_command::{Answer, ReadFault};
use vyrd_live::show_by_turns;
use vyrd_work::{AnyMachine, Work, WorkFault, read_work};

/// The answer to a workload: what is to be shown of its run by turns, with the status of the
/// verdict about it; or that it is refused, or gets stuck; or nothing if a read failed or there is
/// no memory.
pub fn step<S: Source>(alloc: Global, show: Show, source: &mut S) -> Answer
    requires unended { (S.known source.old).ended ≡ false }
    ensures statuses { IsStepStatus result.status ⊎ (result.status ≡ 4) ⊎ (result.status ≡ 6) }
    ensures answers { IsStepStatus result.status
        → AnswersStep show (S.known source.old).rest result.status result.text.items }
    ensures consumed { IsStepStatus result.status
        → IsInputTaken longest_input 7 result.status (S.known source.old) (S.known source.new) }
    ensures few { IsFewTaken longest_input (S.known source.old) (S.known source.new) }
    ensures silent { result.status ≡ 4 ⊎ result.status ≡ 6 → result.text.items ≡ [] }
    ensures source { AfterReads (result.status == 4) (S.known source.old) (S.known source.new) }
{
    match read_input(alloc, LONGEST_WORK, source) {
        Ok(bytes) => match answer_to(alloc, show, bytes) {
            Ok(answer) => answer,
            Err(_) => Answer::silent(alloc, MEMORY),
        },
        Err(ReadFault::Failed) => Answer::silent(alloc, READ_FAULT),
        Err(ReadFault::Memory) => Answer::silent(alloc, MEMORY),
    }
}

/// The answer to the bytes of a workload, which aren't kept while it is played.
fn answer_to(alloc: Global, show: Show, bytes: Vec<u8>) -> Result<Answer, AllocError>
    ensures { IfOk result (λ answer. IsStepAnswer show (work_reading bytes.items) answer.status
        answer.text.items) }
{
    let read = read_work(alloc, &bytes);
    drop(bytes);
    match read {
        Ok(work) => play(alloc, show, work),
        Err(WorkFault::Refused { line, rule }) => refuse(alloc, line, rule),
        Err(WorkFault::Memory) => Err(AllocError),
    }
}

/// The answer to a workload that keeps its limits.
fn play(alloc: Global, show: Show, work: Work) -> Result<Answer, AllocError>
    requires { KeepsLimits (workload_of work) }
    ensures { IfOk result (λ answer. IsStepAnswer show (Ok (workload_of work)) answer.status
        answer.text.items) }
{
    let mut account = Account::new(alloc, work.header, show)?;
    match show_by_turns::<AnyMachine, Account>(alloc, work, &mut account)? {
        Some(_) => told_of(account),
        None => stuck(alloc),
    }
}
