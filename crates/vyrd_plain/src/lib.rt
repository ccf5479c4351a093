//! The verdict about a whole log, by a judge that looks at all of its entries at once.
//!
//! The one call is [`judge_log`]. It is the short form of a judge, and what the judge of
//! `vyrd_judge`, which takes the entries one by one, is compared with. Its contract: for any
//! entries and any way in which the text stops after them, the answer is exactly the verdict that
//! `verdict_at` of `vyrd_base` defines, for a log that begins with no words.
//!
//! How the pieces go: the `front` is the longest beginning that keeps the rules of shape. A `scan`
//! goes over it entry by entry. It has the words, to which the `effects` of the writes lead, and
//! each caller's `execution`, whose reply is looked up ahead. What an entry leads to is its
//! `outcome`. The first `violation` is the answer, otherwise the rule that ends the front, or
//! how the text stops; and if nothing is wrong, the `counts` of the log.
#![tactic(auto)]

mod counts;
mod effects;
mod execution;
mod front;
mod judge;
mod outcome;
mod scan;
mod violation;

pub use judge::judge_log;
