//! The methods of the tree.

ghost use Rattle.std.specs.Prelude.{◌≡◌, ◌≤◌, length};
ghost use Rattle.vyrd_base.specs.Limits.{longest_method};
ghost use Rattle.vyrd_base.specs.Tree.{called, arity, commits, takes};

use crate::subject::{Args, Commits};

/// A method of the tree.
#[derive(Clone, Copy, Debug, PartialEq, Eq)]
pub enum TreeMethod {
    /// `insert k v` gives the key k the value v and replies 1 if the key is new, and 2 if it was
    /// there; or it changes nothing and replies 0.
    Insert,
    /// `delete k` removes the key and replies 1, or replies 0 if it isn't there.
    Delete,
    /// `lookup k` observes the key's value plus 1, or 0 if the key isn't there.
    Lookup,
}

impl TreeMethod {
    /// Its name in the line of a call.
    pub(crate) fn name(self) -> &'static [u8]
        ensures text { result.now ≡ called self }
        ensures len { length result.now ≤ longest_method }
    {
        match self {
            TreeMethod::Insert => b"insert",
            TreeMethod::Delete => b"delete",
            TreeMethod::Lookup => b"lookup",
        }
    }

    /// How many arguments the method has.
    #[inline(always)]
    pub(crate) fn arity(self) -> u32
        ensures { result ≡ arity self }
    {
        match self {
            TreeMethod::Insert => 2,
            TreeMethod::Delete => 1,
            TreeMethod::Lookup => 1,
        }
    }

    /// How often each of its executions commits.
    #[inline(always)]
    pub(crate) fn commits(self) -> Commits
        ensures { result ≡ commits self }
    {
        match self {
            TreeMethod::Insert => Commits::Once,
            TreeMethod::Delete => Commits::Once,
            TreeMethod::Lookup => Commits::Never,
        }
    }

    /// Whether the arguments are in their ranges.
    #[inline(always)]
    pub(crate) fn takes(self, size: u32, args: Args) -> bool
        ensures { result ≡ takes size self args }
    {
        match self {
            TreeMethod::Insert => true,
            TreeMethod::Delete => true,
            TreeMethod::Lookup => true,
        }
    }
}
