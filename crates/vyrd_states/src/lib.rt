//! The specification's states along the commits of a log, and what of them shows why a verdict is
//! what it is.
//!
//! Three calls say it item by item, for a log that keeps the rules of shape: `after_items` what the
//! state shows of a key after a commit, `observer_items` what an observer would answer in each of
//! the states from its call to its return, and, of a structure that is built in, `reply_items` which
//! replies the state before a commit allows and what it has of the keys that the call looks at. Each
//! of these is the value of a definition over the states that a verdict is defined by
//! (`states_along` of `vyrd_base`), as far as these are known: up to the first commit whose
//! execution doesn't return, or whose reply is refused. `laws` says that no reply is left out of
//! those that are tried.
//!
//! The specification is any that can be begun ([`Begins`]). It runs along the log's commits, from
//! the state for which the starting words stand (`spec_at`), and each call runs it anew. So no state
//! is kept but the one that is asked, and nothing has to be kept while a log is judged.
#![tactic(auto)]

mod after;
mod begins;
mod known;
pub mod laws;
mod looks;
mod replies;
mod windows;

pub use after::after_items;
pub use begins::{Begins, FromHeader};
pub use known::{entry_at, spec_at};
pub use looks::keys_named;
pub use replies::reply_items;
pub use windows::observer_items;
