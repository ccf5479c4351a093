//! What `check` answers.

ghost use Rattle.std.specs.Prelude.{◌≡◌, ◌≤◌, ◌<◌, ◌⊎◌, ◌==◌, false, [], IfOk};
ghost use Rattle.vyrd_base.specs.Devices.{IsAtEnd, AfterReads};
ghost use Rattle.vyrd_base.specs.VerdictText.{verdict_text};
ghost use Rattle.vyrd_base.specs.Limits.{most_lines};
ghost use Rattle.vyrd_check_command.specs.Outputs.{status_of};
ghost use Rattle.vyrd_check_command.specs.Checks.{IsJudged, IsSettled, IsUnsettled, IsReadNoFurther};
ghost use Rattle.vyrd_check_command.specs.Checks.{IsCounted};

use crate::answer::{Answer, status_of};
use crate::read_log::{ReadFault, read_verdict};
use crate::status::{MEMORY, READ_FAULT};
use std::alloc::{AllocError, Global};
use std::marker::Brand;
use std::sync::ledger::{Blank, Ledger};
use vyrd_base::{Source, Steps, Verdict};
use vyrd_text::write_verdict;

/// The answer to a log of at most `max_lines` lines: the line of its verdict, or nothing after a
/// failed read or out of memory. It takes no more of the source once the verdict stands.
pub fn check<S: Source>(alloc: Global, max_lines: u64, source: &mut S) -> Answer
    requires low { 1 ≤ max_lines }
    requires high { max_lines ≤ most_lines }
    requires unended { (S.known source.old).ended ≡ false }
    ensures statuses { (result.status ≤ 2) ⊎ (result.status ≡ 4) ⊎ (result.status ≡ 6) }
    ensures verdict { result.status ≤ 2
        → IsJudged max_lines (S.known source.old).rest result.status result.text.items }
    ensures consumed { result.status ≤ 2
        → IsSettled max_lines (S.known source.old) (S.known source.new) }
    ensures accepted_at_end { result.status ≡ 0 → IsAtEnd (S.known source.new) }
    ensures no_further { IsReadNoFurther max_lines (S.known source.old) (S.known source.new) }
    ensures unsettled { result.status ≡ 4
        → IsUnsettled max_lines (S.known source.old) (S.known source.new) }
    ensures silent { 2 < result.status → result.text.items ≡ [] }
    ensures source { AfterReads (result.status == 4) (S.known source.old) (S.known source.new) }
{
    check_alone::<S, Brand>(Blank::new(1), alloc, max_lines, source)
}

/// The same, with the judge's steps counted, as a [`LogChecker`](vyrd_log_check::LogChecker) counts
/// them: if there is a verdict, they are at most what the bytes that it took of the source cost,
/// with what it costs to end. Reading isn't counted.
pub fn check_counted<S: Source, L: Ledger>(
    alloc: Global,
    max_lines: u64,
    source: &mut S,
    steps: &mut Steps<L>,
) -> Answer
    requires low { 1 ≤ max_lines }
    requires high { max_lines ≤ most_lines }
    requires unended { (S.known source.old).ended ≡ false }
    ensures statuses { (result.status ≤ 2) ⊎ (result.status ≡ 4) ⊎ (result.status ≡ 6) }
    ensures verdict { result.status ≤ 2
        → IsJudged max_lines (S.known source.old).rest result.status result.text.items }
    ensures consumed { result.status ≤ 2
        → IsSettled max_lines (S.known source.old) (S.known source.new) }
    ensures accepted_at_end { result.status ≡ 0 → IsAtEnd (S.known source.new) }
    ensures no_further { IsReadNoFurther max_lines (S.known source.old) (S.known source.new) }
    ensures unsettled { result.status ≡ 4
        → IsUnsettled max_lines (S.known source.old) (S.known source.new) }
    ensures silent { 2 < result.status → result.text.items ≡ [] }
    ensures source { AfterReads (result.status == 4) (S.known source.old) (S.known source.new) }
    ensures steps { result.status ≤ 2
        → IsCounted max_lines (S.known source.old) (S.known source.new) steps.old steps.new }
{
    match read_verdict(alloc, max_lines, source, steps) {
        Ok(verdict) => match answer_with(alloc, verdict) {
            Ok(answer) => answer,
            Err(_) => Answer::silent(alloc, MEMORY),
        },
        Err(ReadFault::Failed) => Answer::silent(alloc, READ_FAULT),
        Err(ReadFault::Memory) => Answer::silent(alloc, MEMORY),
    }
}

/// Checks with a count of its own.
fn check_alone<S: Source, L: Ledger>(
    blank: Blank,
    alloc: Global,
    max_lines: u64,
    source: &mut S,
) -> Answer
    requires name { blank.name ≡ L.name }
    requires parts { blank.parts ≡ L.parts }
    requires some { 0 < blank.parts }
    requires low { 1 ≤ max_lines }
    requires high { max_lines ≤ most_lines }
    requires unended { (S.known source.old).ended ≡ false }
    ensures statuses { (result.status ≤ 2) ⊎ (result.status ≡ 4) ⊎ (result.status ≡ 6) }
    ensures verdict { result.status ≤ 2
        → IsJudged max_lines (S.known source.old).rest result.status result.text.items }
    ensures consumed { result.status ≤ 2
        → IsSettled max_lines (S.known source.old) (S.known source.new) }
    ensures accepted_at_end { result.status ≡ 0 → IsAtEnd (S.known source.new) }
    ensures no_further { IsReadNoFurther max_lines (S.known source.old) (S.known source.new) }
    ensures unsettled { result.status ≡ 4
        → IsUnsettled max_lines (S.known source.old) (S.known source.new) }
    ensures silent { 2 < result.status → result.text.items ≡ [] }
    ensures source { AfterReads (result.status == 4) (S.known source.old) (S.known source.new) }
{
    let mut steps = Steps::<L>::new(blank);
    check_counted(alloc, max_lines, source, &mut steps)
}

/// The line of a verdict, with its status.
fn answer_with(alloc: Global, verdict: Verdict) -> Result<Answer, AllocError>
    ensures status { IfOk result (λ answer. answer.status ≡ status_of verdict) }
    ensures text { IfOk result (λ answer. answer.text.items ≡ verdict_text verdict) }
{
    let mut text = Vec::new(alloc);
    write_verdict(&verdict, &mut text)?;
    let status = status_of(verdict);
    Ok(Answer { status, text })
}
