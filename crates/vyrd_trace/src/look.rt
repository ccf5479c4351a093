//! What a hand found when it looked at cells.

/// The last cell that a hand looked at, with the first and the last word that it found there.
/// Contracts alone speak of it, and no value of it is made.
///
/// A look is a load of a cell's word, or a try to claim the cell. Looks are counted from 1 over the
/// hand's life, and `first_at` and `last_at` are the counts at which the two words were found.
pub struct Look {
    pub looks: u64,
    pub cell: u32,
    pub first: u64,
    pub first_at: u64,
    pub last: u64,
    pub last_at: u64,
}
