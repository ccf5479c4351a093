//! A method of the user's own, as a call names it.

use crate::subject::Commits;

/// A method of a specification of the user's own, as the specification says it.
#[derive(Clone, Copy, Debug, PartialEq, Eq)]
pub struct OwnMethod {
    /// Its place among the specification's methods, from 0 on.
    pub number: u8,
    /// How many arguments it has, at most 3.
    pub arity: u8,
    /// How often each of its executions commits.
    pub commits: Commits,
}
