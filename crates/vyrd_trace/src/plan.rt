//! The sizes of a traced memory.

/// How much a traced memory has of everything. Plain cells are numbered from 0, and the locks after
/// them.
#[derive(Clone, Copy)]
pub struct Plan {
    pub plain: u32,
    pub locks: u32,
    pub callers: u32,
    /// How many events one hand's lane may have.
    pub limit: u64,
}
