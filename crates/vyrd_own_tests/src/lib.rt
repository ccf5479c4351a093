//! Tests of the public calls of the crates for specifications of a user's own.
//!
//! They show what no clause says: specifications of known structures, read and stepped, and each
//! kind of refusal with its column. They stand in a crate of their own since a crate is proved once
//! more with its tests.
#![tactic(auto)]

#[cfg(test)]
mod costs;
#[cfg(test)]
mod judged;
#[cfg(test)]
mod logs;
#[cfg(test)]
mod refusals;
#[cfg(test)]
mod specifications;
#[cfg(test)]
mod steps;
#[cfg(test)]
mod verdicts;
