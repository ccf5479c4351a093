//! The text of a log of version 3: the header, a specification of the user's own, starting words,
//! entries that call methods by the names of the specification, and `end`.
//!
//! The central type is `OwnLogReader`. Whatever pieces a text comes in, the reader appends the
//! entries that the definition of reading finds in the bytes so far (`own_reading` of `vyrd_base`,
//! in `specs/Own/Log`), with the numbers of their lines, keeps the header, the specification and the
//! starting words that it finds, and answers the first fault of text exactly when that definition
//! has one. It keeps at most one unfinished line, of at most 200 bytes.
//!
//! It has two layers. One reads whole lines, and what it does with a line is a definition
//! (`own_step`, in `specs/Steps`), which is shown to be what `own_reading` makes of that line. The
//! other cuts pieces at their line feeds, and reads entries that lie whole in a piece where they lie,
//! in one scan. `read_entry` and `read_own_header` read a line alone.
#![tactic(auto)]

mod entry;
mod fault;
mod header;
pub mod laws;
mod line_reader;
mod piece_reader;
mod quick;
mod reader;
mod stage;

pub use entry::read_entry;
pub use header::read_own_header;
pub use reader::OwnLogReader;
