//! A run of numbers that follow one another.

/// Where a run begins: at this place among all numbers, from 0 on, with this number.
#[derive(Clone, Copy)]
pub(crate) struct Run {
    pub(crate) place: u64,
    pub(crate) line: u64,
}
