//! The machine of a caller of string buffers.

use crate::progress::BufferProgress;
use vyrd_memory::Player;

/// A caller of string buffers, which calls its operations one after the other.
///
/// It is made by `BufferMachine::new` for a header of string buffers, a caller below the header's
/// callers and at most 200,000 operations on string buffers, and it is a `Machine`. An operation
/// has at most 32 events.
pub type BufferMachine = Player<BufferProgress>;
