//! The reader of a batch's text.

ghost use Rattle.std.specs.Prelude.{◌≡◌, ◌≤◌, ◌<◌, ◌+◌, ◌-◌, ◌^◌, ℕ, List, length, drop, Ok, Err};
ghost use Rattle.std.specs.Prelude.{None, Some, true, IfOk, OnOk, MatchOption, ◌++◌, ◌∷◌, [], ◌*◌};
ghost use Rattle.std.specs.List.{AllByRecursion};
ghost use Rattle.vyrd_batch.specs.Batches.{batch_reading, logs_from, log_at, log_word, size_in};
ghost use Rattle.vyrd_batch.specs.Batches.{most_logs, logs_end_within, LiesWithin};
ghost use Rattle.vyrd_batch.specs.Rounds.{IsCut, IsNoLog};
ghost use Rattle.vyrd_batch.specs.Costs.{line_look, moved, IsLeft};
ghost use Rattle.vyrd_text.specs.Steps.{is_one_line};
ghost use Rattle.vyrd_batch.specs.declared.fault.BatchFault.TheVariants.{Refused};

use crate::fault::BatchFault;
use crate::span::Span;
use std::alloc::{AllocError, Global};
use std::marker::Brand;
use std::sync::ledger::{Blank, Ledger};
use vyrd_base::Steps;
use vyrd_text::{after, is_word, read_u32, split_line};

/// The most logs.
pub(crate) const MOST_LOGS: usize = 10_000;

/// The most bytes of a log: 16 MiB.
const MOST_BYTES: usize = 16_777_216;

/// Within how many bytes of the input the logs lie: 64 MiB.
pub(crate) const LOGS_END_WITHIN: usize = 67_108_864;

/// Where the logs stand in the bytes of a batch, in their order.
///
/// `Refused` comes exactly when the bytes aren't a batch, with the number of the first log that
/// isn't framed, counted from 0. `Memory` may come at any time. The logs' own bytes aren't looked
/// at. The memory is that of the spans.
pub fn read_batch(alloc: Global, bytes: &[u8]) -> Result<Vec<Span>, BatchFault>
    ensures spans { IfOk result (λ spans. batch_reading bytes.now ≡ Ok spans.items) }
    ensures within { IfOk result
        (λ spans. AllByRecursion (LiesWithin (length bytes.now)) spans.items) }
    ensures refused { (log : ℕ) → result ≡ Err (Refused log) → batch_reading bytes.now ≡ Err log }
{
    read_batch_alone::<Brand>(Blank::new(1), alloc, bytes)
}

/// The same, with a step counted for each byte that is looked at to find the end of a line: at most
/// one for each byte.
pub fn read_batch_counted<L: Ledger>(
    alloc: Global,
    bytes: &[u8],
    steps: &mut Steps<L>,
) -> Result<Vec<Span>, BatchFault>
    ensures spans { IfOk result (λ spans. batch_reading bytes.now ≡ Ok spans.items) }
    ensures within { IfOk result
        (λ spans. AllByRecursion (LiesWithin (length bytes.now)) spans.items) }
    ensures refused { (log : ℕ) → result ≡ Err (Refused log) → batch_reading bytes.now ≡ Err log }
    ensures steps { steps.new ≤ steps.old + length bytes.now }
{
    let Some((line, rest)) = next_line(bytes, steps) else {
        return Err(BatchFault::Refused { log: 0 });
    };
    if !is_word(line, b"batch") {
        return Err(BatchFault::Refused { log: 0 });
    }
    read_logs(alloc, line.len() + 1, rest, steps)
}

/// Reads with a count of its own.
fn read_batch_alone<L: Ledger>(
    blank: Blank,
    alloc: Global,
    bytes: &[u8],
) -> Result<Vec<Span>, BatchFault>
    requires name { blank.name ≡ L.name }
    requires parts { blank.parts ≡ L.parts }
    requires some { 0 < blank.parts }
    ensures spans { IfOk result (λ spans. batch_reading bytes.now ≡ Ok spans.items) }
    ensures within { IfOk result
        (λ spans. AllByRecursion (LiesWithin (length bytes.now)) spans.items) }
    ensures refused { (log : ℕ) → result ≡ Err (Refused log) → batch_reading bytes.now ≡ Err log }
{
    let mut steps = Steps::<L>::new(blank);
    read_batch_counted(alloc, bytes, &mut steps)
}

/// Where the logs stand from a place of the input on, with these bytes from there on.
fn read_logs<L: Ledger>(
    alloc: Global,
    first: usize,
    bytes: &[u8],
    steps: &mut Steps<L>,
) -> Result<Vec<Span>, BatchFault>
    requires { first + length bytes.now < 2 ^ 63 }
    ensures spans { IfOk result (λ spans. logs_from most_logs 0 first bytes.now ≡ Ok spans.items) }
    ensures within { IfOk result
        (λ spans. AllByRecursion (LiesWithin (first + length bytes.now)) spans.items) }
    ensures refused { (log : ℕ) → result ≡ Err (Refused log)
        → logs_from most_logs 0 first bytes.now ≡ Err log }
    ensures steps { steps.new ≤ steps.old + length bytes.now }
{
    let mut spans: Vec<Span> = Vec::new(alloc);
    let mut place = first;
    let mut rest = bytes;
    while !is_word(rest, b"end\n") {
        let log = spans.len();
        if log == MOST_LOGS {
            return Err(BatchFault::Refused { log: log as u64 });
        }
        let Some((span, next)) = log_at(place, rest, steps) else {
            return Err(BatchFault::Refused { log: log as u64 });
        };
        keep(span, &mut spans)?;
        place = span.past;
        rest = next;
    }
    Ok(spans)
}

/// The logs that some bytes begin with.
pub(crate) struct Whole {
    /// Where their bytes stand, counted from the first of these bytes.
    pub(crate) spans: Vec<Span>,
    /// How many bytes they take, their lines included.
    pub(crate) taken: usize,
}

impl Drop for Whole {
    fn drop(self) {
        let Whole { spans, taken: _ } = self;
        drop(spans);
    }
}

/// The logs that these bytes begin with. The bytes stand at a place of a batch, after `log` logs.
///
/// A step is counted for each byte that is looked at to find the end of a line. If no log stood in
/// the first of these bytes, which were left then, the steps are few. The bytes that move as the
/// logs are taken away, those that are looked at again in what is left, and six for each log, are
/// in the bound too.
pub(crate) fn whole_logs<L: Ledger>(
    alloc: Global,
    log: usize,
    place: usize,
    bytes: &[u8],
    steps: &mut Steps<L>,
) -> Result<Whole, AllocError>
    requires few { log ≤ most_logs }
    requires near { place ≤ logs_end_within }
    ensures cut { IfOk result (λ found. IsCut bytes.now log place found.spans.items found.taken) }
    ensures no_more { IfOk result (λ found. IsNoLog (log + length found.spans.items)
        (place + found.taken) (drop found.taken bytes.now)) }
    ensures steps { (left fresh : List ℕ) → IsLeft log place left → bytes.now ≡ left ++ fresh
        → IfOk result (λ found. steps.new + 6 * length found.spans.items
        + line_look (drop found.taken bytes.now) + moved found.taken (length bytes.now)
        ≤ steps.old + 3 * length fresh + 26) }
    ensures first { IfOk result (λ found. steps.new + 6 * length found.spans.items
        + line_look (drop found.taken bytes.now) + length (drop found.taken bytes.now)
        ≤ steps.old + 3 * length bytes.now + 26) }
    ensures ever { (left fresh : List ℕ) → IsLeft log place left → bytes.now ≡ left ++ fresh
        → steps.new ≤ steps.old + 3 * length fresh + 26 }
{
    let mut spans: Vec<Span> = Vec::new(alloc);
    let mut taken = 0;
    let mut rest = bytes;
    while log + spans.len() < MOST_LOGS {
        let Some((span, next)) = log_at(place + taken, rest, steps) else {
            return Ok(Whole { spans, taken });
        };
        let (first, past) = (span.first - place, span.past - place);
        spans.push(Span { first, past })?;
        taken = past;
        rest = next;
    }
    Ok(Whole { spans, taken })
}

/// Appends a span.
fn keep(span: Span, spans: &mut Vec<Span>) -> Result<(), AllocError>
    ensures { OnOk result (spans.new.items ≡ spans.old.items ++ span ∷ []) }
{
    spans.push(span)?;
    Ok(())
}

/// Where the bytes of a log stand whose line begins at a place of the input, with these bytes from
/// there on; and what stands after them.
fn log_at<'a, L: Ledger>(
    place: usize,
    bytes: &'a [u8],
    steps: &mut Steps<L>,
) -> Option<(Span, &'a [u8])>
    requires { place + length bytes.now < 2 ^ 63 + 2 ^ 62 }
    ensures log { MatchOption result (log_at place bytes.now ≡ None) (λ r.
        (log_at place bytes.now ≡ Some r.0) × (r.1.now ≡ drop (r.0.past - place) bytes.now)
        × (place ≤ r.0.first) × (r.0.first ≤ r.0.past)
        × (r.0.past + length r.1.now ≡ place + length bytes.now)) }
    ensures steps { steps.new ≡ steps.old + line_look bytes.now }
{
    let (line, rest) = next_line(bytes, steps)?;
    let size = size_in(line)?;
    let first = place + line.len() + 1;
    if size > rest.len() || first + size > LOGS_END_WITHIN {
        return None;
    }
    let (_, next) = rest.split_at(size);
    let past = first + size;
    Some((Span { first, past }, next))
}

/// The bytes before the first line feed, and those after it. `None` if there is no line feed. A
/// step is counted for each byte that is looked at.
pub(crate) fn next_line<'a, L: Ledger>(
    bytes: &'a [u8],
    steps: &mut Steps<L>,
) -> Option<(&'a [u8], &'a [u8])>
    ensures line { MatchOption result (is_one_line bytes.now ≡ true)
        (λ r. (is_one_line r.0.now ≡ true) × (bytes.now ≡ r.0.now ++ 10 ∷ r.1.now)) }
    ensures steps { steps.new ≡ steps.old + line_look bytes.now }
{
    let Some((line, rest)) = split_line(bytes) else {
        steps.add(bytes.len());
        return None;
    };
    steps.add(line.len() + 1);
    Some((line, rest))
}

/// How many bytes the line before a log says, if it is such a line.
pub(crate) fn size_in(line: &[u8]) -> Option<usize>
    ensures { result ≡ size_in line.now }
{
    let digits = after(line, b"log ")?;
    let size = read_u32(digits)?;
    in_range(size)
}

/// The size, if a log may have that many bytes.
fn in_range(size: u32) -> Option<usize>
    ensures { (line : List ℕ) → line ≡ log_word size → result ≡ size_in line }
{
    let size = size as usize;
    if size > MOST_BYTES {
        return None;
    }
    Some(size)
}
