//! Events on their way from the callers of a live run to the one that judges them meanwhile.
//!
//! The central type is [`Relay`]: a bounded queue, into which each caller's [`Sender`] pushes and
//! from which one [`Receiver`] pops. What the receiver has had of a sender, and then what is queued
//! of it, is what the sender sent, in its order, at every moment. A [`Reorder`] takes events in
//! whatever order, and hands them out by their numbers.
//!
//! How the pieces go: each end holds a pass of the ruled queue of `crossbeam_queue`. `known` says
//! what a pass knows, `plays` what each step tells it, and `rule` what holds between all passes and
//! the queued events at every moment. All three are data of the proofs alone.
#![tactic(auto)]

mod known;
mod parcel;
mod plays;
mod receiver;
mod relay;
mod reorder;
mod rule;
mod sender;

pub use parcel::{PARCEL_ROOM, Parcel};
pub use receiver::Receiver;
pub use relay::{Full, Relay};
pub use reorder::Reorder;
pub use sender::Sender;
