//! Where a key's value is.

/// The value of a key in a table, and where in the table it is to be put. A look-up gives it to a
/// `put` of the same key, which then looks for nothing. Once the table has changed it is no longer
/// of use.
#[derive(Drop)]
pub struct Slot<V> {
    /// The key's value; nothing if the key isn't there.
    pub value: V,
    pub(crate) place: Option<usize>,
}
