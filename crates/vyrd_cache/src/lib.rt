//! The operations of the cache, step by step.
//!
//! What an operation does is a procedure in `specs/Procedures.antt`. The central type is
//! [`CacheMachine`], a caller that plays the procedures of its operations. [`CacheProgress`] says
//! how far an operation has come, and meets its procedure: each is sound, ends in time and, played
//! alone, does what the specification says.
#![tactic(auto)]

mod cells;
pub mod laws;
mod machine;
mod place;
mod progress;
mod task;

pub use machine::CacheMachine;
pub use progress::CacheProgress;
