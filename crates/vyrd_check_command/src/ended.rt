//! How a call ends.

/// How a call of the program ended.
#[derive(Debug, Drop)]
pub struct Ended {
    /// 0 accepted, 1 a violation, 2 malformed, 3 arguments that aren't a command, 4 a failed read,
    /// 5 a failed write, 6 no memory. A program with more forms than `check` has more statuses.
    pub status: u8,
}
