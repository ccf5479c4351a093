//! The methods of the multiset.

ghost use Rattle.std.specs.Prelude.{◌≡◌, ◌≤◌, length};
ghost use Rattle.vyrd_base.specs.Limits.{longest_method};
ghost use Rattle.vyrd_base.specs.Multiset.{called, arity, commits, takes};

use crate::subject::{Args, Commits};

/// A method of the multiset.
#[derive(Clone, Copy, Debug, PartialEq, Eq)]
pub enum MultisetMethod {
    /// `insert x` adds one x to the multiset and replies 1, or changes nothing and replies 0.
    Insert,
    /// `insert_pair x y` adds one x and one y and replies 1, or changes nothing and replies 0.
    InsertPair,
    /// `delete x` removes one x and replies 1, or replies 0 if there is none.
    Delete,
    /// `lookup x` observes whether x is there: 1 if it is, and 0 otherwise.
    Lookup,
}

impl MultisetMethod {
    /// Its name in the line of a call.
    pub(crate) fn name(self) -> &'static [u8]
        ensures text { result.now ≡ called self }
        ensures len { length result.now ≤ longest_method }
    {
        match self {
            MultisetMethod::Insert => b"insert",
            MultisetMethod::InsertPair => b"insert_pair",
            MultisetMethod::Delete => b"delete",
            MultisetMethod::Lookup => b"lookup",
        }
    }

    /// How many arguments the method has.
    #[inline(always)]
    pub(crate) fn arity(self) -> u32
        ensures { result ≡ arity self }
    {
        match self {
            MultisetMethod::Insert => 1,
            MultisetMethod::InsertPair => 2,
            MultisetMethod::Delete => 1,
            MultisetMethod::Lookup => 1,
        }
    }

    /// How often each of its executions commits.
    #[inline(always)]
    pub(crate) fn commits(self) -> Commits
        ensures { result ≡ commits self }
    {
        match self {
            MultisetMethod::Insert => Commits::Once,
            MultisetMethod::InsertPair => Commits::Once,
            MultisetMethod::Delete => Commits::Once,
            MultisetMethod::Lookup => Commits::Never,
        }
    }

    /// Whether the arguments are in their ranges.
    #[inline(always)]
    pub(crate) fn takes(self, size: u32, args: Args) -> bool
        ensures { result ≡ takes size self args }
    {
        match self {
            MultisetMethod::Insert => true,
            MultisetMethod::InsertPair => true,
            MultisetMethod::Delete => true,
            MultisetMethod::Lookup => true,
        }
    }
}
