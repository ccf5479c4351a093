//! Small batches.

ghost use Rattle.std.specs.Prelude.{◌<◌, ◌^◌, length};

use std::alloc::{AllocError, Global};
use std::process::Abort;
use std::test::*;
use std::thread::Threads;
use vyrd_base::Verdict;
use vyrd_batch::{
    BatchFault, BatchJudge, Span, judge_batch, read_batch, status_of, write_verdicts,
};

/// An accepted log, one with a violation and one that is malformed.
const THREE_LOGS: &[u8] =
    b"batch\nlog 24\nvyrd 1 multiset 1 1\nend\nlog 60\nvyrd 1 multiset 1 1\n0 call delete 5\n0 commit\n0 return 1\nend\nlog 0\nend\n";

/// What is answered about them.
const THREE_LINES: &[u8] =
    b"log 0: accepted: 0 entries, 0 commits, 0 observers\nlog 1: violation at line 3: reply 1 not allowed\nlog 2: malformed at line 1: no end\nbatch: 3 logs\n";

/// Where they stand.
const THREE_SPANS: &[Span] = &[
    Span {
        first: 13,
        past: 37,
    },
    Span {
        first: 44,
        past: 104,
    },
    Span {
        first: 110,
        past: 110,
    },
];

#[test]
fn three_logs(rt: HostRuntime) -> Result<(), Fail> {
    let alloc = rt.alloc();
    let spans = match read_batch(alloc, THREE_LOGS) {
        Ok(spans) => spans,
        Err(_) => Vec::new(alloc),
    };
    assert!(rt; spans.as_slice() == THREE_SPANS);
    let verdicts = judge_batch(&rt, alloc, THREE_LOGS, &spans)?;
    assert!(rt; are_lines(alloc, &verdicts, THREE_LINES) && status_of(&verdicts) == 1);
    Ok(())
}

/// Whether these are the lines about the verdicts.
fn are_lines(alloc: Global, verdicts: &[Verdict], lines: &[u8]) -> bool
    requires { length verdicts.now < 2 ^ 62 }
{
    match lines_of(alloc, verdicts) {
        Ok(found) => found.as_slice() == lines,
        Err(_) => false,
    }
}

/// The lines about verdicts.
fn lines_of(alloc: Global, verdicts: &[Verdict]) -> Result<Vec<u8>, AllocError>
    requires { length verdicts.now < 2 ^ 62 }
{
    let mut text = Vec::new(alloc);
    write_verdicts(verdicts, &mut text)?;
    Ok(text)
}

/// Judges a batch that comes in two pieces.
fn judged_in_two<R: Threads + Sync>(
    rt: &R,
    alloc: Global,
    front: &[u8],
    back: &[u8],
) -> Result<BatchJudge, BatchFault> {
    let mut judge = BatchJudge::new(alloc);
    let mut bytes = Vec::new(alloc);
    bytes.extend_from_slice(front)?;
    judge.judge(rt, &mut bytes)?;
    bytes.extend_from_slice(back)?;
    judge.finish(rt, &mut bytes)?;
    Ok(judge)
}

#[test]
fn two_rounds_in_every_cutting(rt: HostRuntime) {
    for cut in 0..=THREE_LOGS.len() {
        let (front, back) = THREE_LOGS.split_at(cut);
        assert!(rt; is_judged(&rt, rt.alloc(), front, back), "{cut}");
    }
}

/// Whether the three logs, in two pieces, are answered as they are to be.
fn is_judged<R: Threads + Sync>(rt: &R, alloc: Global, front: &[u8], back: &[u8]) -> bool {
    match judged_in_two(rt, alloc, front, back) {
        Ok(judge) => are_lines(alloc, judge.verdicts(), THREE_LINES),
        Err(_) => false,
    }
}

/// An input that is no batch, and the log at which it is refused.
const REFUSED: &[(&[u8], u64)] = &[
    (b"", 0),
    (b"batch", 0),
    (b"batch\n", 0),
    (b"batch\nlog 99\nend\n", 0),
    (b"batch\nlog 024\nend\n", 0),
    (b"batch\nlog 0\nend", 1),
    (b"batch\nlog 0\nend\n\n", 1),
    (b"batch\nlog 1\nxlog 2\nxend\n", 2),
];

#[test]
fn refused_batches(rt: HostRuntime) {
    for (row, (input, log)) in REFUSED.iter().enumerate() {
        assert_refused(&rt, rt.alloc(), input, *log, row);
    }
}

/// Asserts that the input is refused at this log, whole and in every cutting into two pieces.
fn assert_refused<R: Threads + Sync + Abort>(
    rt: &R,
    alloc: Global,
    input: &[u8],
    log: u64,
    row: usize,
) {
    assert!(rt;
        is_refused(read_batch(alloc, input).err(), log),
        "row {row}"
    );
    for cut in 0..=input.len() {
        let (front, back) = input.split_at(cut);
        let fault = judged_in_two(rt, alloc, front, back).err();
        assert!(rt; is_refused(fault, log), "row {row}, cut at {cut}");
    }
}

/// Whether the fault is that of this log.
fn is_refused(fault: Option<BatchFault>, log: u64) -> bool {
    fault == Some(BatchFault::Refused { log })
}

/// How many bytes are left of these inputs once what is whole in them is judged. None are where
/// what follows can't make a batch of them.
const LEFT: &[(&[u8], usize)] = &[
    (b"", 0),
    (b"batc", 4),
    (b"bats", 0),
    (b"batch\nlog 1", 5),
    (b"batch\nlog 9\nvyrd", 10),
    (b"batch\nlog 0\nlog 9\nvyrd", 10),
    (b"batch\nlog 024\n", 0),
    (b"batch\nlog 16777216", 12),
    (b"batch\nlog 16777216\n", 13),
    (b"batch\nlog 16777217\n", 0),
    (b"batch\nlog 167772160", 0),
    (b"batch\nlog 0\nen", 2),
    (b"batch\nlog 0\nend\n", 4),
    (b"batch\nlog 0\nend\n\n", 0),
];

#[test]
fn bytes_that_a_round_leaves(rt: HostRuntime) {
    for (row, (input, left)) in LEFT.iter().enumerate() {
        assert!(rt; left_of(&rt, rt.alloc(), input) == Some(*left), "row {row}");
    }
}

/// How many bytes of the input a round leaves, if memory doesn't run out.
fn left_of<R: Threads + Sync>(rt: &R, alloc: Global, input: &[u8]) -> Option<usize> {
    let mut judge = BatchJudge::new(alloc);
    let mut bytes = Vec::from_slice(alloc, input).ok()?;
    judge.judge(rt, &mut bytes).ok()?;
    Some(bytes.len())
}
