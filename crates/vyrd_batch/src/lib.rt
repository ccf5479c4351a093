//! Many logs in one text, judged side by side.
//!
//! The central calls are [`read_batch`], which finds where the logs stand in the bytes of a batch,
//! and [`judge_batch`], which judges each of them as a whole input, on as many threads as there are
//! processors. The verdicts come in the order of the logs, and each is that of its own bytes alone,
//! whatever the threads do. What the bytes of a batch say stands in `specs/Batches`, and what is
//! answered in `specs/BatchAnswers`.
#![tactic(auto)]

mod answer;
mod fault;
mod judging;
pub mod laws;
mod parts;
mod reader;
mod rounds;
mod span;
mod unfinished;
pub mod worked;

pub use answer::{status_of, write_refusal, write_verdicts};
pub use fault::BatchFault;
pub use judging::{judge_batch, judge_batch_counted, judge_part_counted};
pub use reader::{read_batch, read_batch_counted};
pub use rounds::BatchJudge;
pub use span::Span;
