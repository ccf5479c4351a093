//! The subjects that can be watched, their methods, and the arguments of a call.

ghost use Rattle.std.specs.Prelude.{◌≡◌, ◌≤◌, length};
ghost use Rattle.vyrd_base.specs.Layout.{plain_words_of, lock_words_of};
ghost use Rattle.vyrd_base.specs.Limits.{is_within, longest_subject, longest_method};
ghost use Rattle.vyrd_base.specs.Spelling.{subject_name, method_name};
ghost use Rattle.vyrd_base.specs.Subjects.{subject_of, is_observer, arity_of, are_padded};
ghost use Rattle.vyrd_base.specs.Subjects.{are_ranged, commits_of, must_commit, methods_of};
ghost use Rattle.vyrd_base.specs.Subjects.{some_method, limits_of, own_call, own_number};

use crate::buffers::BuffersMethod;
use crate::cache::CacheMethod;
use crate::multiset::MultisetMethod;
use crate::own::OwnMethod;
use crate::tree::TreeMethod;

/// The data structure that is watched.
#[derive(Clone, Copy, Debug, PartialEq, Eq)]
pub enum Subject {
    /// A multiset of numbers, in buckets of 4 slots. A value belongs to the bucket of its remainder
    /// by the size.
    Multiset,
    /// A cache of chunks, each of a pair of numbers, over a store of the same chunks.
    Cache,
    /// A B-link tree from keys to values, with at most 4 entries in each node (Lehman and Yao, TODS
    /// 1981).
    Tree,
    /// String buffers of at most 7 characters each. A character is a number below 255.
    Buffers,
    /// A structure of the user's own, which a specification in front of the log describes.
    Own,
}

impl Subject {
    /// Its name in the first line of a log.
    pub fn name(self) -> &'static [u8]
        ensures text { result.now ≡ subject_name self }
        ensures len { length result.now ≤ longest_subject }
    {
        match self {
            Subject::Multiset => b"multiset",
            Subject::Cache => b"cache",
            Subject::Tree => b"tree",
            Subject::Buffers => b"buffers",
            Subject::Own => b"own",
        }
    }

    /// Its methods, if it is built in. Those of the user's own stand in their specification.
    pub fn methods(self) -> &'static [Method]
        ensures { result.now ≡ methods_of self }
    {
        match self {
            Subject::Multiset => &[
                Method::Multiset(MultisetMethod::Insert),
                Method::Multiset(MultisetMethod::InsertPair),
                Method::Multiset(MultisetMethod::Delete),
                Method::Multiset(MultisetMethod::Lookup),
            ],
            Subject::Cache => &[
                Method::Cache(CacheMethod::Write),
                Method::Cache(CacheMethod::Flush),
                Method::Cache(CacheMethod::Evict),
                Method::Cache(CacheMethod::Read),
            ],
            Subject::Tree => &[
                Method::Tree(TreeMethod::Insert),
                Method::Tree(TreeMethod::Delete),
                Method::Tree(TreeMethod::Lookup),
            ],
            Subject::Buffers => &[
                Method::Buffers(BuffersMethod::Append),
                Method::Buffers(BuffersMethod::AppendFrom),
                Method::Buffers(BuffersMethod::Cut),
                Method::Buffers(BuffersMethod::Length),
                Method::Buffers(BuffersMethod::Read),
            ],
            Subject::Own => &[],
        }
    }

    /// Whether a header may have this version, this size and this number of callers.
    pub(crate) fn allows(self, version: u32, size: u32, callers: u32) -> bool
        ensures { result ≡ limits_of self version size callers }
    {
        match self {
            Subject::Multiset => are_within(version, size, callers),
            Subject::Cache => are_within(version, size, callers),
            Subject::Tree => are_within(version, size, callers),
            Subject::Buffers => are_within(version, size, callers),
            Subject::Own => { version == 3 && size <= 65_536 && 1 <= callers && callers <= 256 }
        }
    }

    /// How many plain words it has, for a size of at most 65,536.
    #[inline(always)]
    pub(crate) fn plain_words(self, size: u32) -> u32
        requires { size ≤ 65536 }
        ensures { result ≡ plain_words_of self size }
    {
        match self {
            Subject::Multiset => 8 * size,
            Subject::Cache => 5 * size,
            Subject::Tree => 12 * size + 2,
            Subject::Buffers => 8 * size,
            Subject::Own => size,
        }
    }

    /// How many locks it has, for a size of at most 65,536.
    pub(crate) fn lock_words(self, size: u32) -> u32
        requires { size ≤ 65536 }
        ensures { result ≡ lock_words_of self size }
    {
        match self {
            Subject::Multiset => size,
            Subject::Cache => size,
            Subject::Tree => size + 2,
            Subject::Buffers => size,
            Subject::Own => 0,
        }
    }
}

/// The limits of the built-in subjects: version 1 or 2, a size from 1 to 1,024, and 1 to 64 callers.
#[tactic(auto, using(crate::proofs::VersionNumbers::known_versions))]
fn are_within(version: u32, size: u32, callers: u32) -> bool
    ensures { result ≡ is_within version size callers }
{
    (version == 1 || version == 2) && 1 <= size && size <= 1024 && 1 <= callers && callers <= 64
}

/// A method of a subject. Observers only look, and never commit; all others are mutators. A method of
/// the user's own has a number, its place among those of its specification from 0 on; how often it
/// commits is all that is known of it without the specification.
#[derive(Clone, Copy, Debug, PartialEq, Eq)]
pub enum Method {
    /// One of the multiset's.
    Multiset(MultisetMethod),
    /// One of the cache's.
    Cache(CacheMethod),
    /// One of the tree's.
    Tree(TreeMethod),
    /// One of the string buffers'.
    Buffers(BuffersMethod),
    /// One of the user's own that never commits.
    OwnNever(u8),
    /// One of the user's own that commits at most once.
    OwnAtMostOnce(u8),
    /// One of the user's own that commits exactly once.
    OwnOnce(u8),
}

/// How often an execution of a method commits.
#[derive(Clone, Copy, Debug, PartialEq, Eq)]
pub enum Commits {
    /// Never: it only looks.
    Never,
    /// At most once. One that returns without a commit has only looked, and is judged as an
    /// observer is.
    AtMostOnce,
    /// Exactly once.
    Once,
}

impl Method {
    /// Some method, to stand where none is called.
    pub fn some() -> Method
        ensures { result ≡ some_method }
    {
        Method::Multiset(MultisetMethod::Insert)
    }

    /// What is known without the specification of a method of the user's own.
    pub fn own(method: OwnMethod) -> Method
        ensures { result ≡ own_call method }
    {
        match method.commits {
            Commits::Never => Method::OwnNever(method.number),
            Commits::AtMostOnce => Method::OwnAtMostOnce(method.number),
            Commits::Once => Method::OwnOnce(method.number),
        }
    }

    /// Its number in the specification, if it is one of the user's own.
    #[inline(always)]
    pub fn own_number(self) -> Option<u8>
        ensures { result ≡ own_number self }
    {
        match self {
            Method::Multiset(_) => None,
            Method::Cache(_) => None,
            Method::Tree(_) => None,
            Method::Buffers(_) => None,
            Method::OwnNever(number) => Some(number),
            Method::OwnAtMostOnce(number) => Some(number),
            Method::OwnOnce(number) => Some(number),
        }
    }

    /// Its name in the line of a call. It identifies the method only together with its subject. A
    /// method of the user's own has its name in its specification alone.
    pub fn name(self) -> &'static [u8]
        ensures text { result.now ≡ method_name self }
        ensures len { length result.now ≤ longest_method }
    {
        match self {
            Method::Multiset(method) => method.name(),
            Method::Cache(method) => method.name(),
            Method::Tree(method) => method.name(),
            Method::Buffers(method) => method.name(),
            Method::OwnNever(_) => b"own",
            Method::OwnAtMostOnce(_) => b"own",
            Method::OwnOnce(_) => b"own",
        }
    }

    /// The subject whose method it is.
    #[inline(always)]
    pub fn subject(self) -> Subject
        ensures { result ≡ subject_of self }
    {
        match self {
            Method::Multiset(_) => Subject::Multiset,
            Method::Cache(_) => Subject::Cache,
            Method::Tree(_) => Subject::Tree,
            Method::Buffers(_) => Subject::Buffers,
            Method::OwnNever(_) => Subject::Own,
            Method::OwnAtMostOnce(_) => Subject::Own,
            Method::OwnOnce(_) => Subject::Own,
        }
    }

    /// How many arguments the method has: from 1 to 3, or 3 at most if it is one of the user's own.
    #[inline(always)]
    pub fn arity(self) -> u32
        ensures { result ≡ arity_of self }
    {
        match self {
            Method::Multiset(method) => method.arity(),
            Method::Cache(method) => method.arity(),
            Method::Tree(method) => method.arity(),
            Method::Buffers(method) => method.arity(),
            Method::OwnNever(_) => 3,
            Method::OwnAtMostOnce(_) => 3,
            Method::OwnOnce(_) => 3,
        }
    }

    /// Whether the arguments are in their ranges, given that there are `size` chunks or buffers.
    #[inline(always)]
    pub(crate) fn are_ranged(self, size: u32, args: Args) -> bool
        ensures { result ≡ are_ranged size self args }
    {
        match self {
            Method::Multiset(method) => method.takes(size, args),
            Method::Cache(method) => method.takes(size, args),
            Method::Tree(method) => method.takes(size, args),
            Method::Buffers(method) => method.takes(size, args),
            Method::OwnNever(_) => true,
            Method::OwnAtMostOnce(_) => true,
            Method::OwnOnce(_) => true,
        }
    }

    /// How often each of its executions commits.
    #[inline(always)]
    pub fn commits(self) -> Commits
        ensures { result ≡ commits_of self }
    {
        match self {
            Method::Multiset(method) => method.commits(),
            Method::Cache(method) => method.commits(),
            Method::Tree(method) => method.commits(),
            Method::Buffers(method) => method.commits(),
            Method::OwnNever(_) => Commits::Never,
            Method::OwnAtMostOnce(_) => Commits::AtMostOnce,
            Method::OwnOnce(_) => Commits::Once,
        }
    }

    /// Whether the method only looks: none of its executions commits.
    #[inline(always)]
    pub fn is_observer(self) -> bool
        ensures { result ≡ is_observer self }
    {
        matches!(self.commits(), Commits::Never)
    }

    /// Whether each of its executions has to commit. One of any other may return without a commit.
    #[inline(always)]
    pub fn must_commit(self) -> bool
        ensures { result ≡ must_commit self }
    {
        matches!(self.commits(), Commits::Once)
    }
}

/// The arguments of a call. Those that the method doesn't have are 0.
#[derive(Clone, Copy, Debug, PartialEq, Eq)]
pub struct Args {
    /// The first: a value, a chunk, a key or a buffer.
    pub a: u32,
    /// The second: a value, the lower half of a pair, a character, a buffer or a number of
    /// characters.
    pub b: u32,
    /// The third: the upper half of a pair.
    pub c: u32,
}

impl Args {
    /// Whether all arguments past the first `arity` are 0.
    #[inline(always)]
    pub(crate) fn are_padded(self, arity: u32) -> bool
        ensures { result ≡ are_padded arity self }
    {
        (self.b == 0 || 1 < arity) && (self.c == 0 || 2 < arity)
    }
}
