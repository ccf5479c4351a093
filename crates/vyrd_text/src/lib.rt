//! The text of a log and of its verdict: read in pieces of any size, and written.
//!
//! The central type is `LogReader`. Whatever pieces a text comes in, the reader appends the entries
//! that the definition of reading finds in the bytes so far, in their order, keeps the starting
//! words that it finds, and answers the first fault of text exactly when that definition has one.
//! It takes no memory but room for starting words and entries, keeps at most one unfinished line,
//! and reads a line that lies whole in a piece where it lies.
//!
//! The parts of lines are there for texts that share them: `read_call`, `read_subject` and the
//! numbers to read, `LineBuffer` and `push_call` to write. `quick` has those that are read where they
//! lie, up to a line feed.
#![tactic(auto)]

mod fault;
mod header;
pub mod laws;
mod line;
mod line_buffer;
mod line_reader;
mod lines;
mod number;
pub mod quick;
mod reader;
mod start;
mod verdict;
mod writer;

pub use fault::TextFault;
pub use header::read_subject;
pub use line::{after, is_word, read_args, read_call, read_line};
pub use line_buffer::LineBuffer;
pub use lines::split_line;
pub use number::{read_u32, read_u32_and_space, read_u64};
pub use reader::LogReader;
pub use start::{read_start, rule_of_start};
pub use verdict::write_verdict;
pub use writer::{push_call, write_entry, write_header, write_line, write_log, write_started};
