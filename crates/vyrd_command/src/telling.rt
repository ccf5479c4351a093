//! The texts of the answers to a workload.

ghost use Rattle.std.specs.Prelude.{◌≡◌, ◌++◌, [], List, length, IfOk};
ghost use Rattle.vyrd_base.specs.declared.history.Stamped.{Stamped};
ghost use Rattle.vyrd_base.specs.Histories.{log_of};
ghost use Rattle.vyrd_base.specs.Rules.{rules_by};
ghost use Rattle.vyrd_base.specs.Verdicts.{verdict};
ghost use Rattle.vyrd_base.specs.VerdictText.{verdict_text};
ghost use Rattle.vyrd_work.specs.Refusals.{refusal_text};
ghost use Rattle.vyrd_check_command.specs.Outputs.{status_of};
ghost use Rattle.vyrd_command.specs.Inside.Accounts.{HasTaken};
ghost use Rattle.vyrd_command.specs.Steps.{run_text, stuck_line};
ghost use Rattle.vyrd_command.specs.Runs.{spent_line};
ghost use Rattle.vyrd_command.specs.Generated.{generated_line};

use crate::account::{Account, Told};
use crate::status::{REFUSED, SPENT, STUCK};
use std::alloc::{AllocError, Global};
use vyrd_check_command::{Answer, status_of};
use vyrd_text::{LineBuffer, write_verdict};
use vyrd_work::{WorkRule, write_refusal};

/// The answer that a run by turns gets stuck.
pub fn stuck(alloc: Global) -> Result<Answer, AllocError>
    ensures status { IfOk result (λ answer. answer.status ≡ 8) }
    ensures text { IfOk result (λ answer. answer.text.items ≡ stuck_line) }
{
    let mut text = Vec::new(alloc);
    text.extend_from_slice(b"stuck\n")?;
    Ok(Answer {
        status: STUCK,
        text,
    })
}

/// The answer that a workload is refused.
pub fn refuse(alloc: Global, line: u64, rule: WorkRule) -> Result<Answer, AllocError>
    ensures status { IfOk result (λ answer. answer.status ≡ 7) }
    ensures text { IfOk result (λ answer. answer.text.items ≡ refusal_text line rule) }
{
    let mut text = Vec::new(alloc);
    write_refusal(line, rule, &mut text)?;
    Ok(Answer {
        status: REFUSED,
        text,
    })
}

/// The answer that the events of a caller are spent.
pub fn overrun(alloc: Global, caller: u32) -> Result<Answer, AllocError>
    ensures status { IfOk result (λ answer. answer.status ≡ 9) }
    ensures text { IfOk result (λ answer. answer.text.items ≡ spent_line caller) }
{
    let mut line = LineBuffer::new();
    line.push(b"events spent by caller ");
    line.push_number(u64::from(caller));
    line.push(b"\n");
    let mut text = Vec::new(alloc);
    text.extend_from_slice(line.as_slice())?;
    Ok(Answer {
        status: SPENT,
        text,
    })
}

/// What an account tells of a run, with the status of its verdict.
pub fn told_of(account: Account) -> Result<Answer, AllocError>
    ensures status { (history : List Stamped) → HasTaken account history → IfOk result
        (λ answer. answer.status
        ≡ status_of (verdict (rules_by account.judge.kept.charter) [] (log_of history))) }
    ensures text { (history : List Stamped) → HasTaken account history → IfOk result
        (λ answer. answer.text.items
        ≡ run_text account.show (rules_by account.judge.kept.charter).header history
        (verdict (rules_by account.judge.kept.charter) [] (log_of history))) }
{
    let Told { verdict, text, .. } = account.close()?;
    Ok(Answer {
        status: status_of(verdict),
        text,
    })
}

/// How many operations were generated, how many events their run has, and the verdict about it, as
/// an account tells them.
pub fn generated(alloc: Global, count: u32, account: Account) -> Result<Answer, AllocError>
    ensures status { (history : List Stamped) → HasTaken account history → IfOk result
        (λ answer. answer.status
        ≡ status_of (verdict (rules_by account.judge.kept.charter) [] (log_of history))) }
    ensures text { (history : List Stamped) → HasTaken account history → IfOk result
        (λ answer. answer.text.items ≡ generated_line count (length history)
        ++ verdict_text (verdict (rules_by account.judge.kept.charter) [] (log_of history))) }
{
    let told = account.close()?;
    let mut text = counts(alloc, count, told.count)?;
    write_verdict(&told.verdict, &mut text)?;
    Ok(Answer {
        status: status_of(told.verdict),
        text,
    })
}

/// The line that says how many operations and events there are.
fn counts(alloc: Global, count: u32, events: u64) -> Result<Vec<u8>, AllocError>
    ensures { IfOk result (λ text. text.items ≡ generated_line count events) }
{
    let mut line = LineBuffer::new();
    line.push(b"generated: ");
    line.push_number(u64::from(count));
    line.push(b" operations, ");
    line.push_number(events);
    line.push(b" events\n");
    let mut text = Vec::new(alloc);
    text.extend_from_slice(line.as_slice())?;
    Ok(text)
}
