//! The states of a specification of a user's own along the commits of a log, and what of them shows
//! why a reply is refused.
//!
//! A [`FromSpecification`] is what such a specification begins from, so that `after_items` and
//! `observer_items` of `vyrd_states` say of its states what they say of a built-in one.
//! [`own_reply_items`] says what the state before a commit has, as far as the cases of the method
//! that is called read it, and which of the numbers that stand in these cases it allows as replies.
//! Each is the value of a definition over the states that a verdict is defined by. `laws` says what
//! the cases are worth themselves.
//!
//! An [`OwnShown`] tells what the words of such a structure show of a key. `own_amount` adds that
//! up, part by part.
#![tactic(auto)]

mod begins;
mod keys;
pub mod laws;
mod once;
pub mod own_amount;
mod own_shown;
mod replies;
mod states;

pub use begins::FromSpecification;
pub use own_shown::OwnShown;
pub use replies::own_reply_items;
