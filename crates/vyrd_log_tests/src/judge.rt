//! The judge beside the plain judge, logs that begin with words, histories, and what a commit
//! costs.

ghost use Rattle.std.specs.Prelude.{◌≡◌, ◌≤◌, ◌<◌, ◌+◌, ◌^◌, true, length};
ghost use Rattle.vyrd_base.specs.Starts.{may_start};
ghost use Rattle.vyrd_base.specs.Subjects.{is_built_in};

use std::alloc::{AllocError, Global};
use std::test::Fail;
use vyrd_base::Kind::{BlockClose, BlockCommit, BlockOpen, Call, Commit, Return, Write};
use vyrd_base::{
    Args, BuffersMethod, CacheMethod, Did, Entry, Header, Kind, Method, MultisetMethod, Rule,
    Stamped, StartWord, Stop, Subject, TreeMethod, Verdict,
};
use vyrd_judge::{AnyJudge, Judge, entry_of, judge_history, judge_log, log_of};
use vyrd_spec::{BufferSpec, BuiltIn, CacheSpec, MultisetSpec, TreeSpec};

const INSERT: Kind = Call(
    Method::Multiset(MultisetMethod::Insert),
    Args { a: 5, b: 0, c: 0 },
);

const INSERT_SIX: Kind = Call(
    Method::Multiset(MultisetMethod::Insert),
    Args { a: 6, b: 0, c: 0 },
);

const DELETE: Kind = Call(
    Method::Multiset(MultisetMethod::Delete),
    Args { a: 5, b: 0, c: 0 },
);

const LOOKUP: Kind = Call(
    Method::Multiset(MultisetMethod::Lookup),
    Args { a: 5, b: 0, c: 0 },
);

const WRITE_EARLY: Kind = Call(Method::Cache(CacheMethod::Write), Args { a: 0, b: 1, c: 2 });

const WRITE_LATE: Kind = Call(Method::Cache(CacheMethod::Write), Args { a: 0, b: 3, c: 4 });

const FLUSH: Kind = Call(Method::Cache(CacheMethod::Flush), Args { a: 0, b: 0, c: 0 });

const INSERT_KEY: Kind = Call(Method::Tree(TreeMethod::Insert), Args { a: 5, b: 9, c: 0 });

const APPEND: Kind = Call(
    Method::Buffers(BuffersMethod::Append),
    Args { a: 1, b: 65, c: 0 },
);

const LENGTH: Kind = Call(
    Method::Buffers(BuffersMethod::Length),
    Args { a: 1, b: 0, c: 0 },
);

/// The entries of a log: each a caller and what it does.
macro_rules! logged {
    ($($caller:literal $kind:expr),*) => {
        [$(Entry { caller: $caller, kind: $kind }),*]
    };
}

fn accepted(entries: u64, commits: u64, observers: u64) -> Verdict {
    Verdict::Accepted {
        entries,
        commits,
        observers,
    }
}

/// Logs of a multiset of size 1 with two callers, each of both versions. Their verdicts are those
/// of `examples/logs`.
#[test]
fn judges_agree_on_a_multiset(rt: HostRuntime) {
    for (row, entries) in MULTISETS.iter().enumerate() {
        assert!(rt; agree_on(rt.alloc(), entries) == Ok(true), "row {row}");
    }
}

const MULTISETS: &[&[Entry]] = &[
    INSERT_WITH_ITS_WRITES,
    INSERT_WITHOUT_ITS_WRITES,
    ABSENT_DELETE_REPLIES_1,
    ABSENT_DELETE_REPLIES_0,
    LOOKUP_ACROSS_A_COMMIT_REPLIES_0,
    LOOKUP_ACROSS_A_COMMIT_REPLIES_1,
    LOOKUP_BEFORE_THE_COMMIT,
    COMMIT_BEFORE_ITS_WRITE,
    // In these something waits, or is wrong before something else.
    OPEN_BLOCK_IS_LEFT_OUT,
    WRITE_OUTSIDE_A_BLOCK_COUNTS,
    BLOCK_RACED,
    DELETE_BEHIND_A_LOOKUP_REPLIES_1,
    DELETE_BEHIND_A_LOOKUP_REPLIES_0,
    CUT_BEFORE_END,
    ANOTHER_COMMIT_BETWEEN,
];

/// The same of the other structures.
#[test]
fn judges_agree_on_each_structure(rt: HostRuntime) {
    let alloc = rt.alloc();
    let cache = Header::new(1, Subject::Cache, 1, 2).unwrap();
    let tree = Header::new(1, Subject::Tree, 1, 1).unwrap();
    let buffers = Header::new(1, Subject::Buffers, 2, 4).unwrap();
    assert!(rt; judges_agree::<CacheSpec>(alloc, cache, WRITE_BEHIND_A_FLUSH) == Ok(true));
    assert!(rt; judges_agree::<TreeSpec>(alloc, tree, ABSENT_INSERT_REPLIES_2) == Ok(true));
    assert!(rt; judges_agree::<BufferSpec>(alloc, buffers, THREE_LENGTHS) == Ok(true));
}

/// Whether the judges agree on the log of a multiset, of either version. It has 20 entries at most.
fn agree_on(alloc: Global, entries: &[Entry]) -> Result<bool, AllocError> {
    if entries.len() > 20 {
        return Ok(false);
    }
    for version in 1..3 {
        match Header::new(version, Subject::Multiset, 1, 2) {
            Some(header) if judges_agree::<MultisetSpec>(alloc, header, entries)? => {}
            _ => return Ok(false),
        }
    }
    Ok(true)
}

/// Whether the judge answers at each entry, and at the end, what the plain judge knows of the
/// entries up to there.
fn judges_agree<S: BuiltIn>(
    alloc: Global,
    header: Header,
    entries: &[Entry],
) -> Result<bool, AllocError>
    requires serves { S.serves header.subject }
    requires few { length entries.now ≤ 20 }
{
    let (line, rule) = (1, Rule::BadHeader);
    let mut judge = Judge::<S>::new(alloc, header)?;
    for i in 0..entries.len() {
        let plain = judge_log::<S>(alloc, header, &entries[..i + 1], Stop::Text { line, rule })?;
        let so_far = judge.feed(entries[i])?;
        let answers = so_far.unwrap_or(Verdict::Malformed { line, rule });
        if answers != plain || judge.so_far() != so_far || judge.stop(line, rule)? != plain {
            return Ok(false);
        }
    }
    Ok(judge.finish()? == judge_log::<S>(alloc, header, entries, Stop::End)?)
}

const INSERT_WITH_ITS_WRITES: &[Entry] = &logged![
    0 INSERT, 0 Write(1, 5), 0 Write(0, 1), 0 BlockOpen, 0 Write(0, 2), 0 BlockCommit,
    0 Return(1)
];

const INSERT_WITHOUT_ITS_WRITES: &[Entry] = &logged![0 INSERT, 0 Commit, 0 Return(1)];

const ABSENT_DELETE_REPLIES_1: &[Entry] = &logged![0 DELETE, 0 Commit, 0 Return(1)];

const ABSENT_DELETE_REPLIES_0: &[Entry] = &logged![0 DELETE, 0 Commit, 0 Return(0)];

const LOOKUP_ACROSS_A_COMMIT_REPLIES_0: &[Entry] = &logged![
    0 INSERT, 0 Write(1, 5), 0 Write(0, 1), 1 LOOKUP,
    0 BlockOpen, 0 Write(0, 2), 0 BlockCommit, 0 Return(1), 1 Return(0)
];

const LOOKUP_ACROSS_A_COMMIT_REPLIES_1: &[Entry] = &logged![
    0 INSERT, 0 Write(1, 5), 0 Write(0, 1), 1 LOOKUP,
    0 BlockOpen, 0 Write(0, 2), 0 BlockCommit, 0 Return(1), 1 Return(1)
];

const LOOKUP_BEFORE_THE_COMMIT: &[Entry] = &logged![
    0 INSERT, 0 Write(1, 5), 0 Write(0, 1), 1 LOOKUP, 1 Return(1),
    0 BlockOpen, 0 Write(0, 2), 0 BlockCommit, 0 Return(1)
];

const OPEN_BLOCK_IS_LEFT_OUT: &[Entry] = &logged![
    0 INSERT, 0 Write(1, 5), 0 Write(0, 1), 0 BlockOpen, 0 Write(0, 2),
    1 INSERT_SIX, 1 Commit, 1 Return(0), 0 BlockCommit, 0 Return(1)
];

const WRITE_OUTSIDE_A_BLOCK_COUNTS: &[Entry] = &logged![
    0 INSERT, 0 Write(1, 5), 0 Write(0, 1), 0 Write(0, 2),
    1 INSERT_SIX, 1 Commit, 1 Return(0), 0 Commit, 0 Return(1)
];

const BLOCK_RACED: &[Entry] =
    &logged![0 INSERT, 0 BlockOpen, 0 Write(0, 2), 1 INSERT_SIX, 1 Write(0, 1)];

const DELETE_BEHIND_A_LOOKUP_REPLIES_1: &[Entry] =
    &logged![0 DELETE, 0 Commit, 1 LOOKUP, 1 Return(7), 0 Return(1)];

const DELETE_BEHIND_A_LOOKUP_REPLIES_0: &[Entry] =
    &logged![0 DELETE, 0 Commit, 1 LOOKUP, 1 Return(7), 0 Return(0)];

const CUT_BEFORE_END: &[Entry] = &logged![0 DELETE, 0 Commit, 1 LOOKUP, 1 Return(7)];

const COMMIT_BEFORE_ITS_WRITE: &[Entry] = &logged![
    0 INSERT, 0 Write(1, 5), 0 BlockOpen, 0 Commit, 0 Write(0, 2), 0 BlockClose, 0 Return(1)
];

const ANOTHER_COMMIT_BETWEEN: &[Entry] = &logged![
    0 INSERT, 0 Write(1, 5), 0 BlockOpen, 0 Commit, 1 INSERT_SIX, 1 Commit, 1 Return(0),
    0 Write(0, 2), 0 BlockClose, 0 Return(1)
];

/// A write to the cache outside a block, with another caller's flush in its middle: the flush
/// copies a torn pair.
const WRITE_BEHIND_A_FLUSH: &[Entry] = &logged![
    0 WRITE_EARLY, 0 BlockOpen, 0 Write(1, 1), 0 Write(2, 2), 0 Write(0, 2), 0 BlockCommit,
    0 Return(1),
    0 WRITE_LATE, 0 Write(1, 3),
    1 FLUSH, 1 BlockOpen, 1 Write(3, 3), 1 Write(4, 2), 1 Write(0, 1), 1 BlockCommit,
    1 Return(1),
    0 Write(2, 4), 0 Commit, 0 Return(1)
];

/// An insert that says it replaced a key which the tree doesn't have.
const ABSENT_INSERT_REPLIES_2: &[Entry] = &logged![0 INSERT_KEY, 0 Commit, 0 Return(2)];

/// A call before the first append, one between the two, and one after both. Then they return in
/// this order.
const THREE_LENGTHS: &[Entry] = &logged![
    1 LENGTH,
    0 APPEND, 0 BlockOpen, 0 Write(9, 65), 0 Write(8, 1), 0 BlockCommit, 0 Return(1),
    2 LENGTH,
    0 APPEND, 0 BlockOpen, 0 Write(10, 65), 0 Write(8, 2), 0 BlockCommit, 0 Return(1),
    3 LENGTH, 1 Return(0), 2 Return(1), 3 Return(1)
];

/// A value that stands there at the start is deleted. In two buckets it stands in one that isn't
/// its own.
#[test]
fn a_start_is_a_state_or_none(rt: HostRuntime) {
    let one = Header::new(2, Subject::Multiset, 1, 1).unwrap();
    let deleted = judged_from(rt.alloc(), one, &ONE_FIVE, &DELETE_OF_A_START);
    assert!(rt; deleted == Ok(Some(accepted(5, 1, 0))));
    let two = Header::new(2, Subject::Multiset, 2, 1).unwrap();
    assert!(rt; judged_from(rt.alloc(), two, &ONE_FIVE, &[]) == Ok(None));
}

const ONE_FIVE: [StartWord; 2] = [
    StartWord { word: 0, value: 2 },
    StartWord { word: 1, value: 5 },
];

const DELETE_OF_A_START: [Entry; 5] =
    logged![0 DELETE, 0 BlockOpen, 0 Write(0, 0), 0 BlockCommit, 0 Return(1)];

/// The verdict about a log that begins with these words, if they stand for a state.
fn judged_from(
    alloc: Global,
    header: Header,
    start: &[StartWord],
    entries: &[Entry],
) -> Result<Option<Verdict>, AllocError>
    requires built_in { is_built_in header.subject ≡ true }
    requires may_start { may_start header start.now ≡ true }
    requires few { length entries.now ≤ 20 }
{
    let Some(mut judge) = AnyJudge::start_from(alloc, header, start)? else {
        return Ok(None);
    };
    judge.follow(entries)?;
    Ok(Some(judge.finish()?))
}

/// Of a lookup that reads a word, the log has the call and the return.
#[test]
fn a_history_has_a_log(rt: HostRuntime) {
    let header = Header::new(1, Subject::Multiset, 1, 1).unwrap();
    let history = [
        did(0, Did::Marked(LOOKUP)),
        did(1, Did::Read(0, 0)),
        did(2, Did::Marked(Return(0))),
    ];
    assert!(rt; is_log(rt.alloc(), &history, &logged![0 LOOKUP, 0 Return(0)]));
    assert!(rt; entry_of(history[1]).is_none());
    let verdict = judge_history(rt.alloc(), header, &history);
    assert!(rt; verdict == Ok(accepted(2, 0, 1)));
}

/// Whether the history has this log.
fn is_log(alloc: Global, history: &[Stamped], log: &[Entry]) -> bool {
    match log_of(alloc, history) {
        Ok(found) => found.as_slice() == log,
        Err(_) => false,
    }
}

fn did(number: u64, did: Did) -> Stamped {
    Stamped {
        number,
        caller: 0,
        did,
    }
}

/// 4,096 values in 1,024 buckets, and then 500,000 rounds that delete one of them and insert it
/// again. A judge that takes both views whole at each commit looks at more than four thousand
/// million slots here.
#[test]
fn a_commit_costs_what_it_changed(rt: HostRuntime) -> Result<(), Fail> {
    let header = Header::new(1, Subject::Multiset, 1024, 1).ok_or("no header")?;
    let mut judge = Judge::<MultisetSpec>::new(rt.alloc(), header)?;
    for x in 0..4096_u32 {
        insert(&mut judge, x)?;
    }
    for _ in 0..500_000_u32 {
        delete_the_last(&mut judge)?;
        insert(&mut judge, 4095)?;
    }
    assert_eq!(rt; judge.finish()?, accepted(6_028_672, 1_004_096, 0));
    Ok(())
}

/// An insert of a value with its writes, in slot x / 1024 of bucket x mod 1024.
fn insert(judge: &mut Judge<MultisetSpec>, x: u32) -> Result<(), AllocError>
    requires value { x < 4096 }
    requires few { judge.old.kept.entries + 7 ≤ 2 ^ 62 }
    ensures counted { judge.new.kept.entries ≤ judge.old.kept.entries + 7 }
{
    let insert = Call(
        Method::Multiset(MultisetMethod::Insert),
        Args { a: x, b: 0, c: 0 },
    );
    let state = 2 * (4 * (x % 1024) + x / 1024);
    judge.follow(&logged![
        0 insert, 0 Write(state + 1, u64::from(x)), 0 Write(state, 1),
        0 BlockOpen, 0 Write(state, 2), 0 BlockCommit, 0 Return(1)
    ])?;
    Ok(())
}

/// A delete of 4095, which stands in slot 3 of bucket 1023.
fn delete_the_last(judge: &mut Judge<MultisetSpec>) -> Result<(), AllocError>
    requires few { judge.old.kept.entries + 5 ≤ 2 ^ 62 }
    ensures counted { judge.new.kept.entries ≤ judge.old.kept.entries + 5 }
{
    let delete = Call(
        Method::Multiset(MultisetMethod::Delete),
        Args {
            a: 4095,
            b: 0,
            c: 0,
        },
    );
    judge.follow(&logged![0 delete, 0 BlockOpen, 0 Write(8190, 0), 0 BlockCommit, 0 Return(1)])?;
    Ok(())
}
