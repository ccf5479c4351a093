//! Spans in parts of about the same weight, so that threads that get a part each end at about the
//! same time.

ghost use Rattle.std.specs.Prelude.{◌≡◌, ◌<◌, ◌≤◌, ◌+◌, ◌*◌, length, flat_map, IfOk};

use crate::span::Span;
use std::alloc::{AllocError, Global};
use std::sync::ledger::Ledger;
use vyrd_base::Steps;

/// What a log weighs besides its bytes: judging the shortest one takes some time too.
const WEIGHT: usize = 64;

/// The spans in their order, in parts that weigh `most` or slightly more, except the last. No part
/// is empty. A step is counted for each span and for each part.
pub fn parts_of<'a, L: Ledger>(
    alloc: Global,
    most: usize,
    spans: &'a [Span],
    steps: &mut Steps<L>,
) -> Result<Vec<&'a [Span]>, AllocError>
    ensures all { IfOk result (λ parts. flat_map (λ part. part.now) parts.items ≡ spans.now) }
    ensures few { IfOk result (λ parts. length parts.items ≤ length spans.now) }
    ensures steps { steps.new ≤ steps.old + 2 * length spans.now }
{
    let mut parts = Vec::new(alloc);
    let mut rest = spans;
    while !rest.is_empty() {
        let (part, next) = rest.split_at(next_part(most, rest, steps));
        steps.tick();
        parts.push(part)?;
        rest = next;
    }
    Ok(parts)
}

/// How many spans are in the next part. A step is counted for each of them.
fn next_part<L: Ledger>(most: usize, spans: &[Span], steps: &mut Steps<L>) -> usize
    requires { 0 < length spans.now }
    ensures some { 0 < result }
    ensures within { result ≤ length spans.now }
    ensures steps { steps.new ≡ steps.old + result }
{
    let mut weight: usize = 0;
    for (before, span) in spans.iter().enumerate() {
        steps.tick();
        weight = weight.saturating_add(weight_of(*span));
        if weight >= most {
            return before + 1;
        }
    }
    spans.len()
}

/// What a log in this span weighs, in bytes.
fn weight_of(span: Span) -> usize {
    span.past.saturating_sub(span.first).saturating_add(WEIGHT)
}

/// How much a part weighs if the bytes and the logs make this many parts.
pub fn part_weight(bytes: usize, logs: usize, parts: usize) -> usize
    requires { 0 < parts }
{
    bytes.saturating_add(logs.saturating_mul(WEIGHT)) / parts
}
