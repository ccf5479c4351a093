//! The methods of the cache.

ghost use Rattle.std.specs.Prelude.{◌≡◌, ◌≤◌, length};
ghost use Rattle.vyrd_base.specs.Limits.{longest_method};
ghost use Rattle.vyrd_base.specs.Cache.{called, arity, commits, takes};

use crate::subject::{Args, Commits};

/// A method of the cache.
#[derive(Clone, Copy, Debug, PartialEq, Eq)]
pub enum CacheMethod {
    /// `write h lo hi` gives the chunk h its pair and replies 1.
    Write,
    /// `flush h` stores the chunk if it is dirty, changes no pair, and replies 1.
    Flush,
    /// `evict h` drops the chunk from the cache, changes no pair, and replies 1.
    Evict,
    /// `read h` observes the chunk's pair, as hi * 2^32 + lo.
    Read,
}

impl CacheMethod {
    /// Its name in the line of a call.
    pub(crate) fn name(self) -> &'static [u8]
        ensures text { result.now ≡ called self }
        ensures len { length result.now ≤ longest_method }
    {
        match self {
            CacheMethod::Write => b"write",
            CacheMethod::Flush => b"flush",
            CacheMethod::Evict => b"evict",
            CacheMethod::Read => b"read",
        }
    }

    /// How many arguments the method has.
    #[inline(always)]
    pub(crate) fn arity(self) -> u32
        ensures { result ≡ arity self }
    {
        match self {
            CacheMethod::Write => 3,
            CacheMethod::Flush => 1,
            CacheMethod::Evict => 1,
            CacheMethod::Read => 1,
        }
    }

    /// How often each of its executions commits.
    #[inline(always)]
    pub(crate) fn commits(self) -> Commits
        ensures { result ≡ commits self }
    {
        match self {
            CacheMethod::Write => Commits::Once,
            CacheMethod::Flush => Commits::Once,
            CacheMethod::Evict => Commits::Once,
            CacheMethod::Read => Commits::Never,
        }
    }

    /// Whether the arguments are in their ranges, given that there are `size` chunks.
    #[inline(always)]
    pub(crate) fn takes(self, size: u32, args: Args) -> bool
        ensures { result ≡ takes size self args }
    {
        match self {
            CacheMethod::Write => args.a < size,
            CacheMethod::Flush => args.a < size,
            CacheMethod::Evict => args.a < size,
            CacheMethod::Read => args.a < size,
        }
    }
}
