//! The commit blocks of a history, checked by Lipton's reduction (CACM 1975), and the text of a
//! history.
//!
//! The central call is `check_blocks`: it says that all blocks of a legal history that end are
//! reducible, or names the first that isn't, and the event at which that shows. A block is
//! reducible if its caller's events in it are takes and accesses of race-free cells, then any one
//! event, then gives and accesses of race-free cells. If it answers that all are, its contract says
//! that each block that ends can be gathered: in some legal history each caller does the same in
//! the same order, and all that the block's caller does from its open to its end stands side by
//! side.
//!
//! A block that isn't reducible may still be atomic. Nothing is said of that.
//!
//! A [`BlockChecker`] takes the history in event by event, and keeps 4 bytes of each. A
//! [`HistoryReader`] reads the text of a history, in pieces of any size, and says the same of its
//! blocks, or names the first bad line and the rule that it breaks. `write_history` writes that
//! text. That the text of a history within the limits says that history is a law of the definitions
//! (`history_is_read`): no call gives a history back.
#![tactic(auto)]

mod ahead;
mod blocks;
mod check;
mod checker;
mod events;
mod fault;
mod front;
pub mod laws;
mod ledger;
mod line;
mod lines;
mod lock_set;
mod reader;
mod step;
mod survey;
mod usage;
mod uses;
pub mod worked;
pub mod worked_text;
mod writer;

pub use blocks::{Blocks, write_blocks};
pub use check::check_blocks;
pub use checker::BlockChecker;
pub use fault::{HistoryFault, HistoryRule, write_history_refusal};
pub use reader::{HistoryReader, read_blocks};
pub use writer::{write_event, write_history, write_history_header};
