//! The rules of shape of a log, judged one entry at a time.
//!
//! A [`Shape`] follows the entries of a log in their order. [`Shape::step`] says of each whether it
//! keeps the rules after those before it, and which rule is the first that it breaks, as
//! `broken_rule` of `vyrd_base` defines it.
#![tactic(auto)]

mod commits;
mod holders;
mod phase;
mod shape;
mod stamps;

pub use shape::{Shape, ShapeFault};
