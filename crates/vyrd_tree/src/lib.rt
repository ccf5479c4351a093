//! The operations of the B-link tree, step by step.
//!
//! What an operation does is a procedure in `specs/Procedures.antt`, to be read like a description
//! of the tree: a walk from the root, the split of a full node, and the ascent that gives the new
//! node an entry above (Lehman and Yao, TODS 1981). The central type is [`TreeMachine`], a caller
//! that plays the procedures of its operations. [`TreeProgress`] says how far an operation has
//! come, and meets its procedure: each is sound, ends in time and, played alone, does what the
//! specification says.
#![tactic(auto)]

mod arrive;
mod ascent;
mod cells;
mod entries;
pub mod laws;
mod machine;
mod node;
mod place;
mod progress;
mod slot;
mod split;
mod storing;
mod task;
mod visit;
mod walk;
mod written;

pub use machine::TreeMachine;
pub use progress::TreeProgress;
