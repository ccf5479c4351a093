//! The machine of a caller of a tree.

use crate::progress::TreeProgress;
use vyrd_memory::Player;

/// A caller of a B-link tree, which calls its operations one after the other.
///
/// It is made by `TreeMachine::new` for a header of a tree, a caller below the header's callers and
/// at most 200,000 operations of a tree, and it is a `Machine`. With N nodes an insert has at most
/// 17 × (16N + 40) events, and any other operation 16N + 40.
pub type TreeMachine = Player<TreeProgress>;
