//! What the reader, the writers and the generator do on small workloads.

use std::alloc::{AllocError, Global};
use std::test::Fail;
use vyrd_base::{Args, Header, Method, MultisetMethod, Subject};
use vyrd_memory::{Op, Turn, Variant};
use vyrd_work::{
    Work, WorkFault, WorkOp, WorkRule, generate, read_work, write_refusal, write_work,
};

const SMALL: &[u8] = b"work multiset 1 2 broken
op 0 insert 5
op 1 insert 6
turn 0 2
turn 1 10
end
";

/// The operation of a caller.
fn op(caller: u32, method: MultisetMethod, a: u32, b: u32) -> WorkOp {
    WorkOp {
        caller,
        op: Op {
            method: Method::Multiset(method),
            args: Args { a, b, c: 0 },
        },
    }
}

/// The line about the text if it is refused, and nothing otherwise.
fn refusal_of(alloc: Global, text: &[u8]) -> Result<Vec<u8>, AllocError> {
    let mut line = Vec::new(alloc);
    if let Err(WorkFault::Refused { line: number, rule }) = read_work(alloc, text) {
        write_refusal(number, rule, &mut line)?;
    }
    Ok(line)
}

const SMALL_TURNS: &[Turn] = &[
    Turn {
        caller: 0,
        count: 2,
    },
    Turn {
        caller: 1,
        count: 10,
    },
];

/// Whether these are the parts of the small workload.
fn is_small(work: &Work) -> bool {
    let ops = [
        op(0, MultisetMethod::Insert, 5, 0),
        op(1, MultisetMethod::Insert, 6, 0),
    ];
    Header::new(1, Subject::Multiset, 1, 2) == Some(work.header)
        && work.variant == Variant::Broken
        && work.ops.as_slice() == ops.as_slice()
        && work.turns.as_slice() == SMALL_TURNS
}

/// The workload's text, if there is memory for it.
fn written(alloc: Global, work: &Work) -> Option<Vec<u8>> {
    let mut text = Vec::new(alloc);
    write_work(work, &mut text).ok()?;
    Some(text)
}

#[test]
fn workload_read_and_written(rt: HostRuntime) {
    let Ok(work) = read_work(rt.alloc(), SMALL) else {
        panic!(rt; "no workload")
    };
    assert!(rt; is_small(&work));
    assert!(rt; matches!(written(rt.alloc(), &work), Some(text) if text.as_slice() == SMALL));
}

/// A text whose line breaks the rule, and the line that says so.
fn refused_by(rule: WorkRule) -> (&'static [u8], &'static [u8]) {
    match rule {
        WorkRule::AfterEnd => (
            b"work multiset 1 2 correct\nend\n\n",
            b"workload refused at line 3: text after end\n",
        ),
        WorkRule::BadHeader => (
            b"work multiset 0 2 correct\nend\n",
            b"workload refused at line 1: bad header\n",
        ),
        WorkRule::BadLine => (
            b"work multiset 1 2 correct\nop 0 insert 05\nend\n",
            b"workload refused at line 2: bad line\n",
        ),
        WorkRule::CallerRange => (
            b"work multiset 1 2 correct\nop 2 insert 5\nend\n",
            b"workload refused at line 2: caller out of range\n",
        ),
        WorkRule::ArgumentRange => (
            b"work cache 1 2 correct\nop 1 flush 1\nend\n",
            b"workload refused at line 2: argument out of range\n",
        ),
        WorkRule::OpAfterTurn => (
            b"work multiset 1 2 correct\nturn 0 1\nop 0 insert 5\nend\n",
            b"workload refused at line 3: operation after turn\n",
        ),
        WorkRule::TooManyOps => (
            b"",
            b"workload refused at line 200002: too many operations\n",
        ),
        WorkRule::TooManyTurns => (
            b"work multiset 1 2 correct\nturn 0 3999999\nturn 1 2\nend\n",
            b"workload refused at line 3: too many turns\n",
        ),
        WorkRule::NoLineFeed => (
            b"work multiset 1 2 correct\nend",
            b"workload refused at line 2: no line feed\n",
        ),
        WorkRule::NoEnd => (
            b"work multiset 1 2 correct\n",
            b"workload refused at line 2: no end\n",
        ),
    }
}

/// Whether this text is refused with this line.
fn is_refused(alloc: Global, text: &[u8], line: &[u8]) -> bool {
    match refusal_of(alloc, text) {
        Ok(said) => said.as_slice() == line,
        Err(_) => false,
    }
}

#[test]
fn refused_workloads(rt: HostRuntime) {
    for rule in [
        WorkRule::AfterEnd,
        WorkRule::BadHeader,
        WorkRule::BadLine,
        WorkRule::CallerRange,
        WorkRule::ArgumentRange,
        WorkRule::OpAfterTurn,
        WorkRule::TooManyTurns,
        WorkRule::NoLineFeed,
        WorkRule::NoEnd,
    ] {
        let (text, line) = refused_by(rule);
        assert!(rt; is_refused(rt.alloc(), text, line), "{rule:?}");
    }
}

/// A workload of an operation more than there may be.
fn one_too_many(alloc: Global) -> Option<Vec<u8>> {
    let mut text = Vec::from_slice(alloc, b"work multiset 1 2 correct\n").ok()?;
    for _ in 0..200_001 {
        text.extend_from_slice(b"op 1 lookup 5\n").ok()?;
    }
    Some(text)
}

#[test]
fn too_many_operations(rt: HostRuntime) {
    let Some(text) = one_too_many(rt.alloc()) else {
        panic!(rt; "no memory")
    };
    let (_, line) = refused_by(WorkRule::TooManyOps);
    assert!(rt; is_refused(rt.alloc(), &text, line));
}

/// Whether the workload is written as a text that has its operations.
fn is_read_again(alloc: Global, work: &Work) -> bool {
    let Some(text) = written(alloc, work) else {
        return false;
    };
    match read_work(alloc, &text) {
        Ok(read) => read.ops == work.ops,
        Err(_) => false,
    }
}

#[test]
fn as_many_operations_as_there_may_be(rt: HostRuntime) -> Result<(), Fail> {
    let work = generate(rt.alloc(), 200_000)?;
    assert!(rt; work.ops.len() == 200_000 && is_read_again(rt.alloc(), &work));
    Ok(())
}

/// Whether these are the parts of the generated workload of four operations.
fn is_of_four(work: &Work) -> bool {
    let ops = [
        op(0, MultisetMethod::Insert, 227, 0),
        op(1, MultisetMethod::Lookup, 204, 0),
        op(2, MultisetMethod::InsertPair, 31, 5),
        op(3, MultisetMethod::Lookup, 207, 0),
    ];
    Header::new(1, Subject::Multiset, 64, 4) == Some(work.header)
        && work.variant == Variant::Correct
        && work.ops.as_slice() == ops.as_slice()
        && work.turns.is_empty()
}

#[test]
fn four_generated_operations(rt: HostRuntime) -> Result<(), Fail> {
    let work = generate(rt.alloc(), 4)?;
    assert!(rt; is_of_four(&work));
    Ok(())
}
