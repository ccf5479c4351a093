//! The events of a run, numbered in the order in which they took place. A cell is a plain word or a
//! lock.

use crate::log::Kind;

/// What an event did to a cell, or the mark that it left in the log.
#[derive(Clone, Copy, Debug, PartialEq, Eq)]
pub enum Did {
    /// The plain cell was read, and this value was found.
    Read(u32, u64),
    /// The plain cell got this value. The log shows it as a write.
    Wrote(u32, u64),
    /// The lock, which was free, was taken.
    Took(u32),
    /// The lock, which the caller held, was given back.
    Gave(u32),
    /// The log got this entry, which isn't a write.
    Marked(Kind),
}

/// An event with its number and its caller.
#[derive(Clone, Copy, Debug, PartialEq, Eq)]
pub struct Stamped {
    /// How many events took place before this one.
    pub number: u64,
    /// Whose event it is: a number below the header's callers.
    pub caller: u32,
    /// What the caller did.
    pub did: Did,
}
