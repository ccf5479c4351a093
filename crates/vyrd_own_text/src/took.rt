//! Whether a line was taken in.

use vyrd_base::SpecificationRule;

/// Whether a line was taken in, or the rule that it breaks and the text from there on.
#[derive(Clone, Copy)]
pub enum Took<'a> {
    In,
    Refused(SpecificationRule, &'a [u8]),
}
