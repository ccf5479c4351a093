//! The operations on string buffers, step by step.
//!
//! What an operation does is a procedure in `specs/Procedures.antt`. The central type is
//! [`BufferMachine`], a caller that plays the procedures of its operations. [`BufferProgress`] says
//! how far an operation has come, and meets its procedure: each is sound, ends in time and, played
//! alone, does what the specification says.
#![tactic(auto)]

mod cells;
mod held;
pub mod laws;
mod machine;
mod place;
mod progress;
mod task;
mod text;

pub use machine::BufferMachine;
pub use progress::BufferProgress;
