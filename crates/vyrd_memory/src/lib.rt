//! Step machines over plain memory, played by turns.
//!
//! The central trait is [`Machine`]: a caller of a structure that says one act at a time what it
//! wants and is told what it found. What it wants is given by a script, a procedure that each
//! structure defines. [`Player`] makes a machine of any structure's operations, and [`show_turns`]
//! plays machines over plain memory in a given order and shows an [`EventSink`] the one history of
//! that order, event by event.
#![tactic(auto)]

mod act;
mod bound;
mod event_sink;
pub mod laws;
mod machine;
mod op;
mod player;
mod progress;
mod turns;
mod underway;

pub use act::Act;
pub use event_sink::EventSink;
pub use machine::Machine;
pub use op::{Op, Turn, Variant};
pub use player::Player;
pub use progress::Progress;
pub use turns::{Ran, StepFault, run_turns, show_turns};
