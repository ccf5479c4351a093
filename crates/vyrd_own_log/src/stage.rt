//! Which lines of a log may come next, and what a line brings.

use vyrd_base::{Entry, Header, StartWord};

/// Which lines may come next.
#[derive(Clone, Copy)]
pub(crate) enum Stage {
    /// The header.
    Header,
    /// The specification.
    Specification(Header),
    /// Starting words, after the last of those before, and entries.
    Starts(Header, Option<StartWord>),
    /// Entries.
    Entries(Header),
    /// None: the line `end` was read.
    End(Header),
}

/// What a line brings.
#[derive(Clone, Copy)]
pub(crate) enum Found {
    /// Nothing that is counted.
    Nothing,
    /// A line of the specification.
    Specified,
    /// A starting word.
    Start(StartWord),
    /// An entry.
    Entry(Entry),
    /// The end.
    End,
}
