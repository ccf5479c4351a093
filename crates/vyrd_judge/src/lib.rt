//! The verdict about a log: whether what concurrent callers logged refines the specification of
//! their data structure.
//!
//! The central type is [`Judge`]. It takes the entries of a log one by one and never looks back,
//! and answers after each the verdict so far that `verdict_so_far` of `vyrd_base` defines: the
//! first fault of a commit or of an observer, or the first break of a rule of shape if no fault
//! stands before it. [`AnyJudge`] is the judge of a structure that is known only as the program
//! runs, and [`judge_history`] gives the verdict about the log of a history without making that
//! log.
//!
//! How the pieces go: a `follower` takes in each entry. The rules of `vyrd_shape`, the words of
//! `vyrd_words` and the `queue` follow it at once. After them the `replay` judges what is `waiting`
//! in the queue: commits by the specification of `vyrd_spec` and by the words, and observers by the
//! answers of `vyrd_observers`.
//!
//! [`judge_log`] is the plain judge of `vyrd_plain`, which has all entries before it begins. It is
//! what this one is compared with. The two share the crates below them, and no code of their own.
#![tactic(auto)]

mod any;
mod caller;
mod follower;
pub mod laws;
mod logged;
mod online;
mod outcome;
mod queue;
mod replay;
mod waiting;

pub use any::{AnyJudge, judge_history};
pub use logged::{entry_of, log_of};
pub use online::Judge;
pub use vyrd_plain::judge_log;
