//! The machine of a caller of a multiset.

use crate::progress::MultisetProgress;
use vyrd_memory::Player;

/// A caller of a multiset, which calls its operations one after the other.
///
/// It is made by `MultisetMachine::new` for a header of a multiset, a caller below the header's
/// callers and at most 200,000 operations of a multiset, and it is a `Machine`. An operation has at
/// most 32 events.
pub type MultisetMachine = Player<MultisetProgress>;
