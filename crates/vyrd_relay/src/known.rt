//! What a pass of the queue knows. No value of these types is made: they exist in the proofs alone.

use std::collections::LinkedList;
use vyrd_base::Stamped;

/// What a pass knows, by what it is for.
pub enum Known {
    /// It pops.
    Receives(Received),
    /// It pushes one caller's events.
    Sends(Sent),
    /// Another pass has taken it in.
    Spent,
}

/// One caller's events, in the order in which it sent them.
pub struct Lane {
    pub caller: u32,
    pub items: LinkedList<Stamped>,
}

/// What the receiver knows.
pub struct Received {
    /// How many senders there are.
    pub senders: u32,
    /// How many senders have been made so far.
    pub made: u32,
    /// All events that it has had, in the order in which they came.
    pub had: LinkedList<Stamped>,
    /// The lanes of the senders that it has taken in.
    pub settled: LinkedList<Lane>,
}

/// What a sender knows.
pub struct Sent {
    /// How many senders there are.
    pub senders: u32,
    pub caller: u32,
    pub items: LinkedList<Stamped>,
}
