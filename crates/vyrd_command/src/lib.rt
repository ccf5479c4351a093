//! The command `vyrd` as a call. The program is this call over the system's streams, and other
//! programs can make it too.
//!
//! The call is [`vyrd`]. It carries out the words that stand after the program's name: it reads the
//! log of a run of a concurrent data structure, and says whether the run refines its sequential
//! specification; or it plays a workload, or looks at a history. It is generic over what it reads
//! from, what it writes to and the gate that live runs ask. Its contract says what it answers: by
//! the status of [`Ended`], the answer to all bytes that the source held, or why there is none.
//!
//! `check` is answered by [`check_limited`] of `vyrd_check_command`, under this program's limit of
//! lines. [`answer_explained`] answers `explain` and `follow` under a limit that the caller
//! chooses, and [`play`] a live run under a limit of events; neither writes the [`Answer`]. Nor do
//! [`check_counted`] and [`batch_counted`], which answer `check` and `batch` with their steps
//! counted. `status` names the statuses without a verdict, and `laws` says what follows from the
//! clauses of `vyrd`.
//!
//! What is promised stands in `specs/`. `Commands` has a table each for what depends on the form of
//! the words (`Forms`), and `Steps`, `Runs`, `Generated`, `Moved`, `Batches` and `Explains` have
//! the answers of the forms, as `Checks` of `vyrd_check_command` has those of `check`.
#![tactic(auto)]

mod account;
mod batch;
mod command;
mod explain;
mod form;
mod generate;
pub mod laws;
mod movers;
mod program;
mod read_input;
mod run;
mod show;
pub mod status;
mod step;
mod telling;

pub use batch::batch_counted;
pub use explain::answer_explained;
pub use program::vyrd;
pub use run::{MOST_EVENTS, play};
pub use show::Show;
pub use vyrd_check_command::{Answer, Ended, check_counted, check_limited};
