//! Tests of the public calls of the crates that play a workload, a module for each.
//!
//! They show what no clause says: worked cases as tables, operations over words that no run leaves,
//! each call on its happy path. What each operation does over words that a run leaves is shown, act
//! by act, by the histories of `examples/`, which ask nothing of the prover. The tests stand in a
//! crate of their own since a crate is proved once more with its tests.
#![tactic(auto)]

#[cfg(test)]
mod buffers;
#[cfg(test)]
mod cache;
#[cfg(test)]
mod cases;
#[cfg(test)]
mod errors;
#[cfg(test)]
mod live;
#[cfg(test)]
mod memory;
#[cfg(test)]
mod multiset;
#[cfg(test)]
mod relay;
#[cfg(test)]
mod trace;
#[cfg(test)]
mod tree;
#[cfg(test)]
mod verifier;
#[cfg(test)]
mod work;
