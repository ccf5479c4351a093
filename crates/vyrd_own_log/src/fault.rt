//! A line that breaks a rule.

use vyrd_base::Rule;

/// A line that breaks a rule of text.
#[derive(Clone, Copy)]
pub(crate) struct LineFault {
    pub(crate) line: u64,
    pub(crate) rule: Rule,
}
