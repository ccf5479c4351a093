//! Where the bytes of a log stand in the bytes of a batch.

/// The bytes of a log: those from place `first` on and before place `past`, counted from 0.
#[derive(Clone, Copy, Debug, PartialEq, Eq)]
pub struct Span {
    pub first: usize,
    pub past: usize,
}
