//! The lines that items about a log are written as: one line for each, in words and numbers alone.
//!
//! The central call is `put_items`, which puts the lines of items behind a text, and `text_of` is
//! the text of items alone. Each is the value of a definition (`ItemText`), whatever the items are.
//! A line names an entry of the log by the line on which it stands: the trait `Lines` says which
//! that is.
#![tactic(auto)]

mod doing_text;
mod lines;
mod own_text;
mod text;
pub mod worked;
mod write_text;

pub use lines::{InRow, Lines};
pub use text::{put_items, text_of};
