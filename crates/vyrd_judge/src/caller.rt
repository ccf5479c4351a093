//! What is known of a caller.

use vyrd_base::{Args, Method};

/// A caller's last call, and the number of its commit among the entries that were to wait, counted
/// from 1. It is 0 before the commit. Neither says anything if the caller is in no execution.
#[derive(Clone, Copy)]
pub(crate) struct Caller {
    pub method: Method,
    pub args: Args,
    pub commit: u64,
}
