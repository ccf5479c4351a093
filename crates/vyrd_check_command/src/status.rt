//! The statuses of a call that answers without a verdict. A verdict's are 0, 1 and 2, as
//! [`Ended`](crate::Ended) says.

/// The words are none of the forms.
pub const USAGE: u8 = 3;

/// A read failed.
pub const READ_FAULT: u8 = 4;

/// A write failed.
pub const WRITE_FAULT: u8 = 5;

/// There was no memory.
pub const MEMORY: u8 = 6;
