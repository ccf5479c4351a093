//! The statuses of a call that answers without a verdict. A verdict's are 0, 1 and 2, as
//! [`vyrd`](crate::vyrd) says. Those of `check` are those of `vyrd_check_command`.

pub use vyrd_check_command::status::{MEMORY, READ_FAULT, USAGE, WRITE_FAULT};

/// The workload is refused.
pub const REFUSED: u8 = 7;

/// The run by turns is stuck.
pub const STUCK: u8 = 8;

/// The events of a caller of the live run are spent.
pub const SPENT: u8 = 9;

/// The history is refused.
pub const HISTORY_REFUSED: u8 = 10;

/// The batch is refused.
pub const BATCH_REFUSED: u8 = 11;
