//! What in a log shows why its verdict is what it is, and what changes along it, as text.
//!
//! The central type is [`Explainer`]. It is fed a log's bytes piece by piece, and at their end it
//! answers the line of the verdict, as `check` writes it, and lines behind it: `explained` of the
//! definitions, whatever the pieces are. [`About`] says what the lines are about.
//!
//! `About::Fault` asks for a line for each thing in the log that has to do with the verdict. Of a
//! violation these are the call and the return, and then what the words showed, which of their
//! parts give it and what changed it, or what the specification's state has, which replies it
//! allows and which step was the last that set it, or what an observer would have answered from
//! when on; of a broken rule what a write races with, and what is open there. `About::Changes` asks
//! for what `vyrd_follow` tells of the log.
//!
//! The entries are kept, so its memory grows with the log. `laws` says when no further byte changes
//! the answer.
#![tactic(auto)]

mod about;
mod changes;
mod explainer;
mod explains;
mod front;
mod items;
mod last;
pub mod laws;
mod own_lines;
mod own_reading;
mod own_structure;
mod own_text;
mod reading;
mod structure;
mod text;
pub mod worked;

pub use about::About;
pub use explainer::{Explained, Explainer};
