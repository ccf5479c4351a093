//! What a live run leaves.

use std::error::Error;
use std::fmt;
use vyrd_base::{Stamped, Verdict};

/// What a run of a workload leaves.
#[derive(Debug, Drop)]
pub struct Run {
    /// The events in their order, numbered from 0.
    pub history: Vec<Stamped>,
    /// The memory at the end: the plain words, and then the locks.
    pub words: Vec<u64>,
    /// The verdict about the log of the history: its marks and its writes, in their order.
    pub verdict: Verdict,
}

/// What a live run leaves that was shown to a sink.
#[derive(Debug, Drop)]
pub struct Played<S> {
    /// The sink, which has taken the events of all callers, in their order.
    pub sink: S,
    /// The memory at the end: the plain words, and then the locks.
    pub words: Vec<u64>,
    /// The least caller that stopped because its next operation might have had more events than the
    /// limit leaves. A caller that didn't stop so has done all of its operations.
    pub spent: Option<u32>,
}

/// A live run that the limit of events ended.
#[derive(Debug, Drop)]
pub struct Overrun {
    /// The least caller that stopped because its next operation might have had more events than the
    /// limit leaves.
    pub caller: u32,
    /// The events of all callers, in their order, numbered from 0. A caller that didn't stop so has
    /// done all of its operations.
    pub history: Vec<Stamped>,
}

/// Why a live run has no verdict.
#[derive(Debug, Drop)]
pub enum LiveFault {
    /// The limit of events ended it.
    Spent(Overrun),
    /// There was no memory.
    Memory,
}

impl fmt::Display for LiveFault {
    fn fmt<W: fmt::Write>(&self, f: &mut fmt::Formatter<W>) -> fmt::Result {
        match self {
            LiveFault::Spent(overrun) => write!(
                f,
                "caller {} has spent its events",
                overrun.caller
            ),
            LiveFault::Memory => write!(f, "out of memory"),
        }
    }
}

impl Error for LiveFault {}
