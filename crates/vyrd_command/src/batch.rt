//! What `batch` answers.

ghost use Rattle.std.specs.Prelude.{◌≡◌, ◌≤◌, ◌<◌, ◌^◌, ◌⊎◌, ◌==◌, false, ℕ, List, []};
ghost use Rattle.std.specs.Prelude.{◌+◌, ◌*◌, ◌++◌, length, IfOk, OnOk};
ghost use Rattle.vyrd_base.specs.Devices.{AfterReads};
ghost use Rattle.vyrd_batch.specs.Batches.{batch_logs};
ghost use Rattle.vyrd_batch.specs.BatchAnswers.{batch_status, batch_text, refused_line};
ghost use Rattle.vyrd_batch.specs.LongBatches.{longest_batch_input};
ghost use Rattle.vyrd_batch.specs.Rounds.{IsJudged, IsSpent};
ghost use Rattle.vyrd_batch.specs.Costs.{round_cost};
ghost use Rattle.vyrd_check_command.specs.Inputs.{is_failed};
ghost use Rattle.vyrd_command.specs.Inputs.{IsInputTaken, IsFewTaken};
ghost use Rattle.vyrd_command.specs.Batches.{AnswersBatch, IsBatchAnswer, IsBatchRead};
ghost use Rattle.vyrd_command.specs.Batches.{IsBatchStatus};
ghost use Rattle.vyrd_command.specs.Inside.BatchCosts.{IsSinceRound, IsPaidRound, IsReadFor};
ghost use Rattle.vyrd_command.specs.Inside.BatchCosts.{IsTakenFor};

use crate::read_input::{LONGEST_BATCH, read_more};
use crate::status::{BATCH_REFUSED, MEMORY, READ_FAULT};
use std::alloc::{AllocError, Global};
use std::marker::Brand;
use std::sync::ledger::{Blank, Ledger};
use std::thread::Threads;
use vyrd_base::{Source, Steps, Verdict};
use vyrd_batch::{BatchFault, BatchJudge, status_of, write_refusal, write_verdicts};
use vyrd_check_command::{Answer, ReadFault};

/// How many bytes more are read before the logs that are whole by then are judged: 1 MiB. So
/// threads have enough to do for the time that it takes to start them, and the bytes are few enough
/// to stay near the processor.
const ROUND: usize = 1_048_576;

/// The answer to a batch: a line for each log's verdict and one that counts them; or that it is
/// refused; or nothing after a failed read or out of memory.
///
/// Logs are judged while later ones are still to be read. So the memory is that of a round, of the
/// longest log, and of the verdicts. An input that isn't a batch is read on too, but no more than a
/// round of it is kept.
pub fn batch<R: Threads + Sync, S: Source>(rt: &R, alloc: Global, source: &mut S) -> Answer
    requires unended { (S.known source.old).ended ≡ false }
    ensures statuses { IsBatchStatus result.status ⊎ (result.status ≡ 4) ⊎ (result.status ≡ 6) }
    ensures answers { IsBatchStatus result.status
        → AnswersBatch (S.known source.old).rest result.status result.text.items }
    ensures consumed { IsBatchStatus result.status
        → IsInputTaken longest_batch_input 11 result.status (S.known source.old)
        (S.known source.new) }
    ensures few { IsFewTaken longest_batch_input (S.known source.old) (S.known source.new) }
    ensures silent { result.status ≡ 4 ⊎ result.status ≡ 6 → result.text.items ≡ [] }
    ensures source { AfterReads (result.status == 4) (S.known source.old) (S.known source.new) }
{
    batch_alone::<R, S, Brand>(Blank::new(1), rt, alloc, source)
}

/// The same, with the steps counted that aren't those of reading, of judging a log, or of the text:
/// those that find where the logs stand, hand them to threads, collect their verdicts, and move
/// bytes, as [`BatchJudge`] counts them. They are four at most for each byte that is taken of the
/// source, and 32 besides, whatever comes of it.
pub fn batch_counted<R: Threads + Sync, S: Source, L: Ledger>(
    rt: &R,
    alloc: Global,
    source: &mut S,
    steps: &mut Steps<L>,
) -> Answer
    requires unended { (S.known source.old).ended ≡ false }
    ensures statuses { IsBatchStatus result.status ⊎ (result.status ≡ 4) ⊎ (result.status ≡ 6) }
    ensures answers { IsBatchStatus result.status
        → AnswersBatch (S.known source.old).rest result.status result.text.items }
    ensures consumed { IsBatchStatus result.status
        → IsInputTaken longest_batch_input 11 result.status (S.known source.old)
        (S.known source.new) }
    ensures few { IsFewTaken longest_batch_input (S.known source.old) (S.known source.new) }
    ensures silent { result.status ≡ 4 ⊎ result.status ≡ 6 → result.text.items ≡ [] }
    ensures source { AfterReads (result.status == 4) (S.known source.old) (S.known source.new) }
    ensures steps { IsTakenFor steps.old steps.new (S.known source.old) (S.known source.new) }
{
    let mut judge = BatchJudge::new(alloc);
    match read_rounds(rt, alloc, &mut judge, source, steps) {
        Ok(rest) => match answer_to(rt, alloc, &mut judge, rest, steps) {
            Ok(answer) => answer,
            Err(_) => Answer::silent(alloc, MEMORY),
        },
        Err(ReadFault::Failed) => Answer::silent(alloc, READ_FAULT),
        Err(ReadFault::Memory) => Answer::silent(alloc, MEMORY),
    }
}

/// Answers with a count of its own.
fn batch_alone<R: Threads + Sync, S: Source, L: Ledger>(
    blank: Blank,
    rt: &R,
    alloc: Global,
    source: &mut S,
) -> Answer
    requires name { blank.name ≡ L.name }
    requires parts { blank.parts ≡ L.parts }
    requires some { 0 < blank.parts }
    requires unended { (S.known source.old).ended ≡ false }
    ensures statuses { IsBatchStatus result.status ⊎ (result.status ≡ 4) ⊎ (result.status ≡ 6) }
    ensures answers { IsBatchStatus result.status
        → AnswersBatch (S.known source.old).rest result.status result.text.items }
    ensures consumed { IsBatchStatus result.status
        → IsInputTaken longest_batch_input 11 result.status (S.known source.old)
        (S.known source.new) }
    ensures few { IsFewTaken longest_batch_input (S.known source.old) (S.known source.new) }
    ensures silent { result.status ≡ 4 ⊎ result.status ≡ 6 → result.text.items ≡ [] }
    ensures source { AfterReads (result.status == 4) (S.known source.old) (S.known source.new) }
{
    let mut steps = Steps::<L>::new(blank);
    batch_counted(rt, alloc, source, &mut steps)
}

/// Reads to the source's end, or as many bytes as settle what a batch says, and judges meanwhile
/// the logs that are whole. The answer is the bytes that are left.
fn read_rounds<R: Threads + Sync, S: Source, L: Ledger>(
    rt: &R,
    alloc: Global,
    judge: &mut BatchJudge,
    source: &mut S,
    steps: &mut Steps<L>,
) -> Result<Vec<u8>, ReadFault>
    requires fresh { IsJudged [] judge.old [] }
    requires spent { IsSpent judge.old [] }
    requires unended { (S.known source.old).ended ≡ false }
    ensures read { IfOk result
        (λ rest. IsBatchRead (S.known source.old) (S.known source.new) judge.new rest.items) }
    ensures few { IsFewTaken longest_batch_input (S.known source.old) (S.known source.new) }
    ensures source { AfterReads (is_failed result) (S.known source.old) (S.known source.new) }
    ensures paid { IfOk result (λ rest. IsReadFor (S.known source.old) (S.known source.new)
        judge.new rest.items steps.old steps.new) }
    ensures steps { IsTakenFor steps.old steps.new (S.known source.old) (S.known source.new) }
{
    let mut bytes = Vec::new(alloc);
    let mut count = 0;
    let mut next = ROUND;
    while count < LONGEST_BATCH {
        let n = read_more(LONGEST_BATCH - count, &mut bytes, source)?;
        if n == 0 {
            break;
        }
        count += n;
        next = judge_round(rt, next, judge, &mut bytes, steps)?;
    }
    Ok(bytes)
}

/// Judges the logs that are whole, if there are `next` bytes. The answer is how many bytes there
/// have to be the next time.
fn judge_round<R: Threads + Sync, L: Ledger>(
    rt: &R,
    next: usize,
    judge: &mut BatchJudge,
    bytes: &mut Vec<u8>,
    steps: &mut Steps<L>,
) -> Result<usize, AllocError>
    ensures judged { (input : List ℕ) → IsJudged input judge.old bytes.old.items
        → OnOk result (IsJudged input judge.new bytes.new.items) }
    ensures paid { (count : ℕ) → IsSinceRound judge.old bytes.old.items next count
        → IfOk result (λ next.
        IsPaidRound judge.new bytes.new.items next steps.old steps.new count) }
    ensures steps { (count : ℕ) → IsSinceRound judge.old bytes.old.items next count
        → steps.new ≤ steps.old + 4 * count }
{
    if bytes.len() < next {
        return Ok(next);
    }
    judge.judge_counted(rt, bytes, steps)?;
    Ok(bytes.len().saturating_add(ROUND))
}

/// The answer to a batch of which these bytes are left.
fn answer_to<R: Threads + Sync, L: Ledger>(
    rt: &R,
    alloc: Global,
    judge: &mut BatchJudge,
    rest: Vec<u8>,
    steps: &mut Steps<L>,
) -> Result<Answer, AllocError>
    ensures answer { (input : List ℕ) → IsJudged input judge.old rest.items →
        IfOk result (λ answer. IsBatchAnswer (batch_logs input) answer.status answer.text.items) }
    ensures statuses { IfOk result (λ answer. IsBatchStatus answer.status) }
    ensures steps { (left fresh : List ℕ) → IsSpent judge.old left → rest.items ≡ left ++ fresh
        → steps.new ≤ steps.old + round_cost (length fresh) }
{
    let mut bytes = rest;
    let finished = judge.finish_counted(rt, &mut bytes, steps);
    // No byte is kept while the text is made.
    drop(bytes);
    match finished {
        Ok(()) => tell(alloc, judge.verdicts()),
        Err(BatchFault::Refused { log }) => refuse(alloc, log),
        Err(BatchFault::Memory) => Err(AllocError),
    }
}

/// The verdicts about the logs of a batch.
fn tell(alloc: Global, verdicts: &[Verdict]) -> Result<Answer, AllocError>
    requires { length verdicts.now < 2 ^ 62 }
    ensures status { IfOk result (λ answer. answer.status ≡ batch_status verdicts.now) }
    ensures low { IfOk result (λ answer. answer.status ≤ 2) }
    ensures text { IfOk result (λ answer. answer.text.items ≡ batch_text verdicts.now) }
{
    let mut text = Vec::new(alloc);
    write_verdicts(verdicts, &mut text)?;
    Ok(Answer {
        status: status_of(verdicts),
        text,
    })
}

/// The answer that a batch is refused.
fn refuse(alloc: Global, log: u64) -> Result<Answer, AllocError>
    ensures status { IfOk result (λ answer. answer.status ≡ 11) }
    ensures text { IfOk result (λ answer. answer.text.items ≡ refused_line log) }
{
    let mut text = Vec::new(alloc);
    write_refusal(log, &mut text)?;
    Ok(Answer {
        status: BATCH_REFUSED,
        text,
    })
}
