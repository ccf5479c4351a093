//! Operations: what the callers of a structure call.

use vyrd_base::{Args, Method};

/// One of the two ways in which a structure is built.
#[derive(Clone, Copy, Debug, PartialEq, Eq)]
pub enum Variant {
    /// Each operation, played alone, does what the specification says.
    Correct,
    /// A mistake is built in: in a multiset and a cache one that shows only when callers meet, and
    /// in a tree a walk that doesn't move right among the leaves.
    Broken,
}

/// A method that is to be called, with its arguments. Those that the method doesn't have are 0.
#[derive(Clone, Copy, Debug, PartialEq, Eq)]
pub struct Op {
    /// The method.
    pub method: Method,
    /// Its arguments.
    pub args: Args,
}

/// A number of turns of one caller.
#[derive(Clone, Copy, Debug, PartialEq, Eq)]
pub struct Turn {
    /// Whose turns they are: a number below the header's callers.
    pub caller: u32,
    /// How many there are.
    pub count: u32,
}
