//! What a machine does next, and what it is told of it.

use vyrd_base::Kind;

/// What a machine wants to do next. The numbers are cells: plain words first, then locks.
#[derive(Clone, Copy, Debug, PartialEq, Eq)]
pub enum Act {
    /// Load the plain word. The answer is the value found.
    Load(u32),
    /// Store the value, which is below 2^63, in the plain word.
    Store(u32, u64),
    /// Take the lock, which it doesn't hold. It has to wait while another caller holds it.
    Take(u32),
    /// Give back the lock, which it holds.
    Give(u32),
    /// Leave an entry in the log, which isn't a write.
    Mark(Kind),
    /// Nothing: all operations are done.
    Done,
}
