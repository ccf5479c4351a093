//! Runs of a workload, judged: live ones, with the callers on threads of their own over one traced
//! memory, and those by turns.
//!
//! The central call is [`show_live`]. Each caller's machine is played by a worker with a thread of
//! its own, and what the workers do is one legal history in which each caller's part plays the
//! caller's script. A sink takes the events in their order, in a thread beside the workers: they
//! send them through a relay, and a [`Sequencer`](vyrd_verifier::Sequencer) at its end puts them in
//! order. No event is kept beside the sink. [`show_by_turns`] is the same without threads, over
//! plain memory.
//!
//! [`run_live`] and [`run_by_turns`] keep the history too: a [`Run`] has it, the memory at the end
//! and the verdict about the history's log.
//!
//! What a run promises stands in `specs/`: `LiveRuns` and `TurnRuns` say what it leaves, and
//! `Rooms` when a limit leaves room for an operation. No promise says that two threads ran at one
//! time, or that the sink took anything before the workers ended. Tests with gates speak of that,
//! for [`run_live`] and for [`show_live`].
#![tactic(auto)]

mod acting;
mod by_turns;
mod live;
mod outbox;
mod recording;
mod run;
mod signals;
mod watch;
mod worker;
mod workers;

pub use by_turns::{run_by_turns, show_by_turns};
pub use live::{run_live, show_live};
pub use run::{LiveFault, Overrun, Played, Run};
