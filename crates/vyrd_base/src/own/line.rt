//! What a line of a specification is.

use crate::own::rule::SpecificationRule;

/// What a line of a specification is.
#[derive(Clone, Copy)]
pub enum SpecificationLine {
    /// A line of the specification, which was taken in.
    More,
    /// The line `log`, which ends the specification.
    Log,
    /// A line that breaks a rule, and the column from 1 on where it was seen: that of what couldn't
    /// be read. For a line that can't stand there it is that of what follows the line's first
    /// words, and 1 for `log` and for a line past the thousandth.
    Refused(SpecificationRule, usize),
}
