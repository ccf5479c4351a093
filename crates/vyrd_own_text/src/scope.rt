//! What an expression may speak of.

/// What an expression may speak of: values and lists by their names, and the state, or not.
#[derive(Drop)]
pub struct Names {
    pub values: Vec<Vec<u8>>,
    pub lists: Vec<Vec<u8>>,
    pub reads: bool,
}
