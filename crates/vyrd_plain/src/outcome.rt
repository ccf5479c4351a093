//! What an entry of a front leads to.

use vyrd_base::Why;

/// What an entry of a front leads to.
#[derive(Clone, Copy)]
pub(crate) enum Outcome {
    /// It isn't a fault, and the next entry is to be looked at.
    Goes,
    /// It is a fault, for this reason.
    Faults(Why),
    /// It is the commit of an execution that hasn't returned. It isn't a fault, and neither is
    /// anything after it, since no later state is known.
    Ends,
}
