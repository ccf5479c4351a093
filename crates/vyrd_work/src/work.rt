//! A workload as data.

use vyrd_base::Header;
use vyrd_memory::{Op, Turn, Variant};

/// An operation of one caller.
#[derive(Clone, Copy, Debug, PartialEq, Eq)]
pub struct WorkOp {
    /// Whose operation it is: a number below the header's callers in a workload that keeps its
    /// limits.
    pub caller: u32,
    /// What is called.
    pub op: Op,
}

/// A workload: what the callers of a structure call, and whose turns come in which order.
///
/// It keeps its limits if each caller is below the header's callers, each operation fits the
/// header, there are at most 200,000 operations and at most 200,000 `turns`, each of 1 to 4,000,000
/// turns, and 4,000,000 turns in all.
#[derive(Debug, Drop)]
pub struct Work {
    /// The structure, its size and its callers.
    pub header: Header,
    /// How the structure is built.
    pub variant: Variant,
    /// The operations. Each caller does its own in this order.
    pub ops: Vec<WorkOp>,
    /// The turns that come first, before all callers take turns in rounds.
    pub turns: Vec<Turn>,
}
