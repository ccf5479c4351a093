//! The verdict about the bytes of a log of any version, which may come in pieces of any size.
//!
//! The central type is [`LogChecker`]. It is fed a log's bytes piece by piece, and answers the
//! verdict so far of all of them, as `log_verdict_so_far` of `vyrd_base` defines it: that of a log
//! with a specification in front if they begin as such a log does, and that of a log of versions 1
//! and 2 otherwise. At the input's end it answers the verdict about the whole. It keeps what the
//! checkers of both kinds keep. [`log_verdict_of`] is the verdict about an input that lies in
//! memory, and `laws` says what is true of these verdicts.
#![tactic(auto)]

mod beginning;
mod checker;
mod laws;
pub mod worked;

pub use checker::{LogChecker, log_verdict_of, log_verdict_of_counted};
pub use laws::{
    little_is_kept, log_verdict_lasts, nothing_of_no_bytes, so_far_never_accepted,
    undecided_is_short,
};
