//! What a step does to a state.

/// A change of a state, in numbers.
#[derive(Clone, Copy)]
pub enum Effect {
    /// The shown amount of a key becomes this.
    SetShown(u64, u64),
    /// The hidden amount of a key becomes this.
    SetHidden(u64, u64),
    /// A register becomes this.
    SetRegister(usize, u64),
    /// A list gets one more at its end.
    PutLast(usize, u64),
    /// A list gets one more at its front.
    PutFirst(usize, u64),
    /// A list loses its first.
    TakeFirst(usize),
    /// A list loses its last.
    TakeLast(usize),
    /// A list becomes empty.
    Empty(usize),
    /// All shown amounts become 0.
    EmptyShown,
}
