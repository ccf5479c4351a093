//! The verdict about the bytes of a log of version 3, which may come in pieces of any size.
//!
//! The central type is [`OwnChecker`]. It is fed a log's bytes piece by piece, and answers the
//! verdict so far of all of them, as `own_text_verdict_so_far` of `vyrd_base` defines it: by the
//! rules that the log's own specification gives, and told by the lines of the text. At the input's
//! end it answers the verdict about the whole. It keeps the specification, the starting words, an
//! unfinished line, the entries of one part of a piece, where entries stand among notes, and what
//! the judge keeps. [`own_verdict_of`] is the verdict about an input that lies in memory, and
//! [`read_specification`] the specification that a log's lines spell.
#![tactic(auto)]

mod checker;
mod lines;
mod numbers;
mod run;
mod starting;
mod text_judge;

pub use checker::{OwnChecker, own_verdict_of};
pub use starting::read_specification;
