//! Judging the logs of a batch side by side.

ghost use Rattle.std.specs.Prelude.{◌≡◌, ◌≤◌, ◌<◌, ◌+◌, ◌*◌, length, map, flat_map, IfOk, OnOk};
ghost use Rattle.std.specs.List.{AllByRecursion};
ghost use Rattle.vyrd_base.specs.LogVerdicts.{log_verdict};
ghost use Rattle.vyrd_base.specs.Limits.{most_lines};
ghost use Rattle.vyrd_batch.specs.Batches.{LiesWithin, bytes_of};
ghost use Rattle.vyrd_batch.specs.BatchAnswers.{verdicts_of};
ghost use Rattle.vyrd_batch.specs.Costs.{logs_cost};
ghost use Rattle.vyrd_log_check.specs.Costs.{log_cost};

use crate::parts::{part_weight, parts_of};
use crate::span::Span;
use rayon::current_num_threads;
use rayon::prelude::*;
use std::alloc::{AllocError, Global};
use std::marker::Brand;
use std::sync::ledger::{Blank, Ledger};
use std::thread::Threads;
use vyrd_base::{Steps, Verdict};
use vyrd_log_check::log_verdict_of_counted;

/// How many lines a log may have.
const MOST_LINES: u64 = 268_435_456;

/// The verdicts about the bytes of each span as a whole input, in the order of the spans.
///
/// The spans are cut into parts of about the same weight, two for each processor, and the parts are
/// judged on threads of their own. The bytes are read where they lie. The memory is that of the
/// logs that are judged at one time. The only error is out of memory.
pub fn judge_batch<R: Threads + Sync>(
    rt: &R,
    alloc: Global,
    bytes: &[u8],
    spans: &[Span],
) -> Result<Vec<Verdict>, AllocError>
    requires { AllByRecursion (LiesWithin (length bytes.now)) spans.now }
    ensures { IfOk result
        (λ verdicts. verdicts.items ≡ verdicts_of (map (bytes_of bytes.now) spans.now)) }
{
    judge_batch_alone::<R, Brand>(Blank::new(1), rt, alloc, bytes, spans)
}

/// The same, with the steps counted that aren't those of judging a log: two for each log as parts
/// are made, and two as their verdicts are put together.
pub fn judge_batch_counted<R: Threads + Sync, L: Ledger>(
    rt: &R,
    alloc: Global,
    bytes: &[u8],
    spans: &[Span],
    steps: &mut Steps<L>,
) -> Result<Vec<Verdict>, AllocError>
    requires { AllByRecursion (LiesWithin (length bytes.now)) spans.now }
    ensures verdicts { IfOk result
        (λ verdicts. verdicts.items ≡ verdicts_of (map (bytes_of bytes.now) spans.now)) }
    ensures steps { steps.new ≤ steps.old + 4 * length spans.now }
{
    let processors = current_num_threads(rt);
    let weight = part_weight(bytes.len(), spans.len(), processors.saturating_mul(2));
    let parts = parts_of(alloc, weight, spans, steps)?;
    let judged = judge_parts(rt, alloc, bytes, &parts)?;
    joined(alloc, &judged, steps)
}

/// Judges with a count of its own.
fn judge_batch_alone<R: Threads + Sync, L: Ledger>(
    blank: Blank,
    rt: &R,
    alloc: Global,
    bytes: &[u8],
    spans: &[Span],
) -> Result<Vec<Verdict>, AllocError>
    requires name { blank.name ≡ L.name }
    requires parts { blank.parts ≡ L.parts }
    requires some { 0 < blank.parts }
    requires inside { AllByRecursion (LiesWithin (length bytes.now)) spans.now }
    ensures { IfOk result
        (λ verdicts. verdicts.items ≡ verdicts_of (map (bytes_of bytes.now) spans.now)) }
{
    let mut steps = Steps::<L>::new(blank);
    judge_batch_counted(rt, alloc, bytes, spans, &mut steps)
}

/// The verdicts about the spans of each part.
fn judge_parts<R: Threads + Sync>(
    rt: &R,
    alloc: Global,
    bytes: &[u8],
    parts: &[&[Span]],
) -> Result<Vec<Vec<Verdict>>, AllocError>
    requires { AllByRecursion (λ part. AllByRecursion (LiesWithin (length bytes.now)) part.now)
        parts.now }
    ensures { IfOk result (λ judged. map (λ verdicts. verdicts.items) judged.items
        ≡ map (λ part. verdicts_of (map (bytes_of bytes.now) part.now)) parts.now) }
{
    // A part is worth a thread of its own, however few there are.
    let judged: Result<Vec<Vec<Verdict>>, AllocError> = parts
        .par_iter()
        .with_min_len(1)
        .map(
            |part: &&[Span]| -> Result<Vec<Verdict>, AllocError>
                requires { AllByRecursion (LiesWithin (length bytes.now)) part.now.now }
                ensures { IfOk result (λ verdicts. verdicts.items
                    ≡ verdicts_of (map (bytes_of bytes.entry.now) part.now.now)) }
            { judge_part(alloc, bytes, part) },
        )
        .collect(rt, alloc)?;
    judged
}

/// The verdicts about the spans of a part.
fn judge_part(alloc: Global, bytes: &[u8], spans: &[Span]) -> Result<Vec<Verdict>, AllocError>
    requires { AllByRecursion (LiesWithin (length bytes.now)) spans.now }
    ensures { IfOk result
        (λ verdicts. verdicts.items ≡ verdicts_of (map (bytes_of bytes.now) spans.now)) }
{
    judge_part_alone::<Brand>(Blank::new(1), alloc, bytes, spans)
}

/// The same with a count of its own, as each thread has.
fn judge_part_alone<L: Ledger>(
    blank: Blank,
    alloc: Global,
    bytes: &[u8],
    spans: &[Span],
) -> Result<Vec<Verdict>, AllocError>
    requires name { blank.name ≡ L.name }
    requires parts { blank.parts ≡ L.parts }
    requires some { 0 < blank.parts }
    requires inside { AllByRecursion (LiesWithin (length bytes.now)) spans.now }
    ensures { IfOk result
        (λ verdicts. verdicts.items ≡ verdicts_of (map (bytes_of bytes.now) spans.now)) }
{
    let mut steps = Steps::<L>::new(blank);
    judge_part_counted(alloc, bytes, spans, &mut steps)
}

/// The verdicts about the spans of a part, one after the other, with the steps of their judges
/// counted: no more than each log costs by itself.
pub fn judge_part_counted<L: Ledger>(
    alloc: Global,
    bytes: &[u8],
    spans: &[Span],
    steps: &mut Steps<L>,
) -> Result<Vec<Verdict>, AllocError>
    requires { AllByRecursion (LiesWithin (length bytes.now)) spans.now }
    ensures verdicts { IfOk result
        (λ verdicts. verdicts.items ≡ verdicts_of (map (bytes_of bytes.now) spans.now)) }
    ensures steps { OnOk result
        (steps.new ≤ steps.old + logs_cost (map (bytes_of bytes.now) spans.now)) }
{
    let mut verdicts = Vec::new(alloc);
    for span in spans {
        verdicts.push(judge_span(alloc, bytes, *span, steps)?)?;
    }
    Ok(verdicts)
}

/// The verdict about the bytes of a span.
fn judge_span<L: Ledger>(
    alloc: Global,
    bytes: &[u8],
    span: Span,
    steps: &mut Steps<L>,
) -> Result<Verdict, AllocError>
    requires { LiesWithin (length bytes.now) span }
    ensures verdict { IfOk result
        (λ verdict. verdict ≡ log_verdict most_lines (bytes_of bytes.now span)) }
    ensures steps { OnOk result
        (steps.new ≤ steps.old + log_cost most_lines (bytes_of bytes.now span)) }
{
    log_verdict_of_counted(alloc, MOST_LINES, &bytes[span.first..span.past], steps)
}

/// The verdicts of all parts, in their order. A step is counted for each part and each verdict.
fn joined<L: Ledger>(
    alloc: Global,
    judged: &[Vec<Verdict>],
    steps: &mut Steps<L>,
) -> Result<Vec<Verdict>, AllocError>
    ensures all { IfOk result
        (λ verdicts. verdicts.items ≡ flat_map (λ part. part.items) judged.now) }
    ensures steps { steps.new ≤ steps.old + length judged.now
        + length (flat_map (λ part. part.items) judged.now) }
{
    let mut verdicts = Vec::new(alloc);
    for part in judged {
        steps.tick();
        verdicts.extend_from_slice(part)?;
        steps.add(part.len());
    }
    Ok(verdicts)
}
