//! What an entry that waits leads to.

use crate::waiting::Waiting;
use vyrd_base::{Verdict, Why};

/// What an entry that waits leads to.
#[derive(Clone, Copy)]
pub(crate) enum Outcome {
    /// It isn't a fault, and the next entry is to be looked at.
    Goes,
    /// It is a fault, for this reason.
    Faults(Why),
}

/// How the judging of entries that wait goes on.
#[derive(Clone, Copy)]
pub(crate) enum Advance {
    /// One was judged, and this is the next, if it can be judged.
    Goes(Option<Waiting>),
    /// One was judged, and this is the first fault.
    Stops(Verdict),
}
