//! Each rule of shape, broken once.

use std::alloc::Global;
use vyrd_base::Kind::{BlockClose, BlockCommit, BlockOpen, Commit, Return, Write};
use vyrd_base::{Args, Entry, Header, Kind, Method, MultisetMethod, Rule, Subject, TreeMethod};
use vyrd_shape::Shape;

const KEY: Args = Args { a: 7, b: 0, c: 0 };

const INSERT: Kind = Kind::Call(Method::Multiset(MultisetMethod::Insert), KEY);

const LOOKUP: Kind = Kind::Call(Method::Multiset(MultisetMethod::Lookup), KEY);

const LOOKUP_OF_TWO: Kind = Kind::Call(
    Method::Multiset(MultisetMethod::Lookup),
    Args { a: 7, b: 1, c: 0 },
);

const TREE_LOOKUP: Kind = Kind::Call(Method::Tree(TreeMethod::Lookup), KEY);

/// The entries of a log: each a caller and what it does.
macro_rules! logged {
    ($($caller:literal $kind:expr),*) => {
        [$(Entry { caller: $caller, kind: $kind }),*]
    };
}

/// A log of a multiset of size 1 with two callers, and the first rule that it breaks.
type Row = (&'static [Entry], Option<Rule>);

/// Logs of version 1, each with the first rule that it breaks.
const NAMED: &[Row] = &[
    (&[], None),
    (
        &logged![
            0 INSERT, 0 BlockOpen, 0 Write(0, 2), 0 Write(0, 0), 0 BlockCommit,
            1 LOOKUP, 1 Write(0, 1), 1 Return(0), 0 Return(1)
        ],
        None,
    ),
    (&logged![2 INSERT], Some(Rule::CallerRange)),
    (&logged![0 TREE_LOOKUP], Some(Rule::MethodOther)),
    (&logged![0 LOOKUP_OF_TWO], Some(Rule::ArgumentRange)),
    (&logged![1 INSERT, 1 LOOKUP], Some(Rule::CallInCall)),
    (&logged![1 INSERT, 0 Commit], Some(Rule::NoCall)),
    (
        &logged![0 INSERT, 0 BlockOpen, 0 Return(1)],
        Some(Rule::ReturnInBlock),
    ),
    (&logged![0 INSERT, 0 Return(1)], Some(Rule::NoCommit)),
    (&logged![0 INSERT, 0 Write(8, 1)], Some(Rule::WordRange)),
    (
        &logged![0 INSERT, 0 Write(7, 0x8000_0000_0000_0000)],
        Some(Rule::ValueRange),
    ),
    (
        &logged![0 INSERT, 1 INSERT, 0 BlockOpen, 0 Write(3, 1), 1 Write(3, 1)],
        Some(Rule::BlockRaced),
    ),
    (&logged![0 LOOKUP, 0 Commit], Some(Rule::ObserverCommit)),
    (
        &logged![0 INSERT, 0 Commit, 0 Commit],
        Some(Rule::SecondCommit),
    ),
    (
        &logged![0 INSERT, 0 BlockOpen, 0 Commit],
        Some(Rule::CommitInBlock),
    ),
    (
        &logged![0 INSERT, 0 BlockOpen, 0 BlockOpen],
        Some(Rule::BlockInBlock),
    ),
    (&logged![0 INSERT, 0 BlockClose], Some(Rule::NoBlock)),
    (&logged![0 INSERT, 0 Commit], Some(Rule::CallOpen)),
];

#[test]
fn each_rule_is_named(rt: HostRuntime) {
    for (row, (entries, rule)) in NAMED.iter().enumerate() {
        assert!(rt;
            first_break(rt.alloc(), 1, entries) == Some(*rule),
            "row {row}"
        );
    }
}

/// Logs of version 2, each with the first rule that it breaks. A lone commit may stand inside a
/// block there, and once the block ends, its writes have taken effect at that commit.
const PASSED: &[Row] = &[
    // a word is written before the commit, after it, and after the block
    (
        &logged![
            0 INSERT, 0 BlockOpen, 0 Write(0, 2), 0 Commit, 0 Write(0, 1), 0 BlockClose,
            0 Write(0, 0), 0 Return(1)
        ],
        None,
    ),
    // the block's end isn't a second commit
    (
        &logged![0 INSERT, 0 BlockOpen, 0 Commit, 0 BlockCommit],
        Some(Rule::SecondCommit),
    ),
    // a word that another caller wrote after the commit
    (
        &logged![
            0 INSERT, 0 Write(1, 5), 0 BlockOpen, 0 Commit,
            1 INSERT, 1 Write(0, 1), 0 Write(0, 2)
        ],
        Some(Rule::BlockRaced),
    ),
    // a word that another caller wrote before the commit
    (
        &logged![
            0 INSERT, 1 INSERT, 0 BlockOpen, 1 Write(0, 1), 0 Commit, 0 Write(0, 2), 0 BlockClose,
            1 BlockOpen, 1 Write(0, 2), 1 BlockCommit, 0 Return(1), 1 Return(1)
        ],
        None,
    ),
    // a word of a block that ended after the commit, but had its own commit before it
    (
        &logged![
            0 INSERT, 1 INSERT, 1 BlockOpen, 1 Commit, 0 BlockOpen, 0 Commit,
            1 Write(0, 1), 1 BlockClose, 0 Write(0, 2), 0 BlockClose, 0 Return(1), 1 Return(1)
        ],
        None,
    ),
    // a word of a block that had its own commit after it
    (
        &logged![
            0 INSERT, 1 INSERT, 1 BlockOpen, 0 BlockOpen, 0 Commit, 1 Commit,
            1 Write(0, 1), 1 BlockClose, 0 Write(0, 2)
        ],
        Some(Rule::BlockRaced),
    ),
];

#[test]
fn words_are_passed(rt: HostRuntime) {
    for (row, (entries, rule)) in PASSED.iter().enumerate() {
        assert!(rt;
            first_break(rt.alloc(), 2, entries) == Some(*rule),
            "row {row}"
        );
    }
}

/// The first rule that the log of these entries breaks, if it breaks one, or nothing if it can't be
/// told.
fn first_break(alloc: Global, version: u32, entries: &[Entry]) -> Option<Option<Rule>> {
    let header = Header::new(version, Subject::Multiset, 1, 2)?;
    let mut shape = Shape::new(alloc, header).ok()?;
    for entry in entries {
        if let Err(fault) = shape.step(entry) {
            return Some(Some(fault.rule));
        }
    }
    Some(shape.end().err().map(|fault| fault.rule))
}
