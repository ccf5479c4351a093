//! What stands last in a specification.

/// What the last line was that says something, if others may stand directly below it.
#[derive(Clone, Copy)]
pub enum Last {
    /// A list, or an element of it.
    List,
    /// The part, or what it gives to a key.
    Part,
    /// Any other line, or none.
    Other,
}
