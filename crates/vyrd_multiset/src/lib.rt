//! The multiset over plain memory: the procedures of its operations, and the type that plays them
//! step by step.
//!
//! What an operation does is a procedure in `specs/Procedures.antt`. The central type is
//! [`MultisetMachine`], a caller that plays the procedures of its operations. [`MultisetProgress`]
//! says how far an operation has come, and meets its procedure: each is sound, ends in time and,
//! played alone, does what the specification says.
#![tactic(auto)]

mod cells;
pub mod laws;
mod machine;
mod place;
mod progress;
mod task;

pub use machine::MultisetMachine;
pub use progress::MultisetProgress;
