//! The verdict about the bytes of a log, which may come in pieces of any size.
//!
//! The central type is [`Checker`]. It is fed a log's bytes piece by piece, and answers the verdict
//! so far of all of them: a start that stands for no state, a fault, a break of a rule of shape, a
//! call that is open at `end`, or a line that breaks a rule of text, as `text_verdict_so_far` of
//! `vyrd_base` defines it. At the input's end it answers the verdict about the whole. It keeps the
//! starting words, an unfinished line, the entries of one part of a piece and what the judge keeps,
//! so that its memory grows with the log only while an execution stays open. [`verdict_of`] is the
//! verdict about an input that lies in memory.
#![tactic(auto)]

mod checker;
mod text_judge;

pub use checker::{Checker, verdict_of};
