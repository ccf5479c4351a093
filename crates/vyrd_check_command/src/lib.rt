//! The command `check` as a call, from a source to a sink, and what all forms of the command share:
//! the answer before it is written, the statuses, how it is written, and the words that a program
//! is started with.
//!
//! The call is [`check_limited`]: it reads the log of a run of a concurrent data structure, and
//! writes whether the run refines its sequential specification. Its contract says by the status of
//! [`Ended`] what it has written: the line of the verdict of all that the source held, or why there
//! is none. [`check_counted`] makes the same answer ready with its steps counted, and doesn't write
//! it.
//!
//! [`check_only`] is the top call of a program that only checks. It stands on fewer crates than the
//! program of all forms, so it is proved and built sooner.
//!
//! What is promised stands in `specs/`: in `Checks` what is answered and what is taken of the
//! source, and in `Words` the words of a program that only checks.
#![tactic(auto)]

mod answer;
mod arguments;
mod check;
mod deliver;
mod ended;
mod limited;
mod program;
mod read_log;
pub mod status;

pub use answer::{Answer, status_of};
pub use arguments::{as_text, words_given};
pub use check::check_counted;
pub use deliver::{give, give_usage};
pub use ended::Ended;
pub use limited::check_limited;
pub use program::{MAX_LINES, check_only};
pub use read_log::{LONGEST_READ, ReadFault};
