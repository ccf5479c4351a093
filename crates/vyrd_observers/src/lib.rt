//! The open observers of all callers, and what the states since their calls answer.
//!
//! The central type is [`Watches`]. An observer begins in a state, sees each state that follows,
//! and returns with a reply; then it is said whether one of these states answers the reply.
//! Observers that ask the same share one list of answers, so that a commit takes time in proportion
//! to the different questions that are asked, and not to the observers.
//!
//! How the pieces go: each open observer has a `watch`, which is on the `trail` of its question,
//! one of all `trails`. When an observer has returned, `leaving` drops the answers that nobody
//! needs any more.
#![tactic(auto)]

mod leaving;
mod trail;
mod trails;
mod watch;
mod watches;

pub use watches::Watches;
