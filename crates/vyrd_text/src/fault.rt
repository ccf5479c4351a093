//! Faults of text.

use std::error::Error;
use std::fmt;
use vyrd_base::Rule;

/// Why a text isn't read on.
#[derive(Clone, Copy, Debug, PartialEq, Eq)]
pub enum TextFault {
    /// The line breaks the rule of text. Lines count from 1. Further bytes change nothing.
    Malformed { line: u64, rule: Rule },
    /// There was no memory for the entries. Nothing was taken in, and the call can be made again.
    Memory,
}

impl fmt::Display for TextFault {
    fn fmt<W: fmt::Write>(&self, f: &mut fmt::Formatter<W>) -> fmt::Result {
        match self {
            TextFault::Malformed { line, rule } => write!(f, "line {line}: {rule:?}"),
            TextFault::Memory => write!(f, "out of memory"),
        }
    }
}

impl Error for TextFault {}

/// A line that breaks a rule of text.
#[derive(Clone, Copy)]
pub(crate) struct LineFault {
    pub(crate) line: u64,
    pub(crate) rule: Rule,
}
