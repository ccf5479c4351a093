//! The places of the procedures: what comes next.

/// How far an operation has come, after the mark of its call: its next act.
#[derive(Clone, Copy)]
pub(crate) enum Place {
    /// Taking the chunk's lock.
    Lock,
    /// Loading the chunk's state.
    LoadState,
    /// Loading the lower half of a pair.
    LoadLow,
    /// Loading the upper half.
    LoadHigh,
    /// Opening the block.
    Open,
    /// Storing the lower half of a pair.
    StoreLow,
    /// Storing the upper half.
    StoreHigh,
    /// Storing the chunk's state.
    StoreState,
    /// Closing the block.
    Close,
    /// Committing outside a block.
    Commit,
    /// Giving back the lock.
    Unlock,
    /// Returning.
    Return,
    /// Nothing: the operation is over.
    Over,
}
