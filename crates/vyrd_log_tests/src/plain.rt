//! Logs that are accepted, one for each specification.

ghost use Rattle.std.specs.Prelude.{◌≡◌, ◌≤◌, length};

use std::alloc::{AllocError, Global};
use vyrd_base::Kind::{BlockCommit, BlockOpen, Call, Return, Write};
use vyrd_base::{
    Args, BuffersMethod, CacheMethod, Entry, Header, Kind, Method, MultisetMethod, Stop, Subject,
    TreeMethod, Verdict,
};
use vyrd_plain::judge_log;
use vyrd_spec::{BufferSpec, BuiltIn, CacheSpec, MultisetSpec, TreeSpec};

/// The entries of a log: each a caller and what it does.
macro_rules! logged {
    ($($caller:literal $kind:expr),*) => {
        [$(Entry { caller: $caller, kind: $kind }),*]
    };
}

#[test]
fn each_structure_is_judged(rt: HostRuntime) {
    let alloc = rt.alloc();
    let (multiset, cache) = (accepted(7, 1, 0), accepted(7, 1, 0));
    let (tree, buffers) = (accepted(2, 0, 1), accepted(8, 1, 1));
    assert!(rt; judged::<MultisetSpec>(alloc, Subject::Multiset, INSERTED) == Ok(Some(multiset)));
    assert!(rt; judged::<CacheSpec>(alloc, Subject::Cache, WRITTEN) == Ok(Some(cache)));
    assert!(rt; judged::<TreeSpec>(alloc, Subject::Tree, LOOKED_UP) == Ok(Some(tree)));
    assert!(rt; judged::<BufferSpec>(alloc, Subject::Buffers, READ) == Ok(Some(buffers)));
}

/// The verdict about a log of this structure, of size 1 and with two callers.
fn judged<S: BuiltIn>(
    alloc: Global,
    subject: Subject,
    entries: &[Entry],
) -> Result<Option<Verdict>, AllocError>
    requires serves { S.serves subject }
    requires few { length entries.now ≤ 20 }
{
    let Some(header) = Header::new(1, subject, 1, 2) else {
        return Ok(None);
    };
    Ok(Some(judge_log::<S>(alloc, header, entries, Stop::End)?))
}

fn accepted(entries: u64, commits: u64, observers: u64) -> Verdict {
    Verdict::Accepted {
        entries,
        commits,
        observers,
    }
}

/// A multiset gets 5.
const INSERTED: &[Entry] = &logged![
    0 INSERT, 0 Write(1, 5), 0 Write(0, 1), 0 BlockOpen, 0 Write(0, 2), 0 BlockCommit,
    0 Return(1)
];

const INSERT: Kind = Call(
    Method::Multiset(MultisetMethod::Insert),
    Args { a: 5, b: 0, c: 0 },
);

/// Chunk 0 of a cache becomes 1 and 2, and is dirty.
const WRITTEN: &[Entry] = &logged![
    0 WRITE, 0 BlockOpen, 0 Write(1, 1), 0 Write(2, 2), 0 Write(0, 2), 0 BlockCommit,
    0 Return(1)
];

const WRITE: Kind = Call(Method::Cache(CacheMethod::Write), Args { a: 0, b: 1, c: 2 });

/// An empty tree has no key 5.
const LOOKED_UP: &[Entry] = &logged![0 LOOKUP, 0 Return(0)];

const LOOKUP: Kind = Call(Method::Tree(TreeMethod::Lookup), Args { a: 5, b: 0, c: 0 });

/// The character 65 alone is the text 66.
const READ: &[Entry] = &logged![
    0 APPEND, 0 BlockOpen, 0 Write(1, 65), 0 Write(0, 1), 0 BlockCommit, 0 Return(1),
    1 READ_ZERO, 1 Return(66)
];

const APPEND: Kind = Call(
    Method::Buffers(BuffersMethod::Append),
    Args { a: 0, b: 65, c: 0 },
);

const READ_ZERO: Kind = Call(
    Method::Buffers(BuffersMethod::Read),
    Args { a: 0, b: 0, c: 0 },
);
