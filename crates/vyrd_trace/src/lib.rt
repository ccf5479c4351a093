//! Shared memory whose every event is traced: cells that threads load and store, and locks that
//! they take and give.
//!
//! The central type is [`Traced`]. Each thread acts on it through a [`Hand`] of its own, and an
//! action that isn't refused as busy adds exactly one event, with a number, to the hand's lane. In
//! every schedule [`Traced::close`] puts the lanes together into one legal history: each load read
//! what the last store before it wrote, each lock was free when it was taken, and each hand's lane
//! is its caller's part of it. No action takes memory or waits.
//!
//! Events that were passed on needn't be kept: a hand forgets them by [`Hand::forget`], and goes on
//! acting. Then [`Traced::end`] says that there is such a history of all that the hands have done,
//! and hands out its last values alone.
#![tactic(auto)]

mod actions;
mod board;
mod close;
mod hand;
mod look;
mod merge;
mod plan;
mod plays;
mod record;
mod rule;
mod steps;
mod traced;

pub use actions::{Busy, Seen};
pub use close::{Closed, Unclosed};
pub use hand::{Hand, Reserve};
pub use look::Look;
pub use plan::Plan;
pub use traced::Traced;
