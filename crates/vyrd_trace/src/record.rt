//! What a hand's seat knows. No value of these types is made: they exist in the proofs alone.

use crate::look::Look;
use std::collections::LinkedList;
use vyrd_base::Stamped;

/// The action in hand.
pub enum Stage {
    /// None.
    Rest,
    /// At this claimed cell, which had this value before.
    Claimed(u32, u64),
    /// The event's number is drawn: the cell, its value before and its value after.
    Drawn(u32, u64, u64),
    /// The number of a give of this lock is drawn.
    Giving(u32),
}

/// One caller's events.
pub struct Lane {
    pub caller: u32,
    pub events: LinkedList<Stamped>,
}

/// What a seat knows: its caller, its own lane, the lanes that it gathered, the action in hand and
/// the looks.
pub struct Record {
    /// Whether no other record has gathered this one.
    pub live: bool,
    pub caller: u32,
    /// For caller 0, the caller that gets the next record.
    pub next: u32,
    pub lane: LinkedList<Stamped>,
    pub gathered: LinkedList<Lane>,
    pub stage: Stage,
    pub look: Look,
}
