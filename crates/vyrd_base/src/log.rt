//! The entries of a log, and the words that it begins with. With s starting words the entry at
//! position p, from 0, stands on line s + p + 2 of the log's text.

use crate::subject::{Args, Method};

/// What an entry says of its caller.
#[derive(Clone, Copy, Debug, PartialEq, Eq)]
pub enum Kind {
    /// An execution of the method with these arguments begins.
    Call(Method, Args),
    /// The caller's open execution ends with this reply.
    Return(u64),
    /// The plain word gets the value, which is below 2^63 in a well-formed log.
    Write(u32, u64),
    /// The execution takes effect here. In version 1 no block of the caller is open; in version 2
    /// one may be, and then the block's writes take effect here too.
    Commit,
    /// A block begins: its writes take effect together, at the lone commit inside it, or at its
    /// end.
    BlockOpen,
    /// The block ends.
    BlockClose,
    /// The block ends, and with it the execution takes effect.
    BlockCommit,
}

/// A word that isn't 0 at the beginning of a log. In the log's text it has a line of its own before
/// the first entry.
#[derive(Clone, Copy, Debug, PartialEq, Eq)]
pub struct StartWord {
    /// Which plain word.
    pub word: u32,
    /// Its value: from 1, and below 2^63.
    pub value: u64,
}

/// One entry: who did what.
#[derive(Clone, Copy, Debug, PartialEq, Eq)]
pub struct Entry {
    /// Who did it: a number below the header's callers in a well-formed log.
    pub caller: u32,
    /// What was done.
    pub kind: Kind,
}
