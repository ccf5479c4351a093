//! A run judged while its events come in, in whatever order.
//!
//! The central type is [`Sequencer`]: it takes in the events of a run in any order, and shows them
//! to a sink by their numbers. A [`RunJudge`] is a sink that judges the log of the run, and keeps
//! no event. A [`Verifier`] is both: a sequencer whose sink judges.
//!
//! What they promise stands in `specs/`: `Taken` says what a sequencer has taken in, and what of it
//! its sink has, and `Judging` what a judge that follows a run has seen.
#![tactic(auto)]

mod run_judge;
mod sequencer;
mod verifier;

pub use run_judge::RunJudge;
pub use sequencer::Sequencer;
pub use verifier::Verifier;
