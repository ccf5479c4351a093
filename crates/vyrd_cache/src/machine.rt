//! The machine of a caller of a cache.

use crate::progress::CacheProgress;
use vyrd_memory::Player;

/// A caller of a cache, which calls its operations one after the other.
///
/// It is made by `CacheMachine::new` for a header of a cache, a caller below the header's callers
/// and at most 200,000 operations of a cache, and it is a `Machine`. An operation has at most 16
/// events.
pub type CacheMachine = Player<CacheProgress>;
