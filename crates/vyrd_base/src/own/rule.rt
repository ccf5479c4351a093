//! The rules of a specification's text.

/// The rule that a line breaks.
#[derive(Clone, Copy, Debug, PartialEq, Eq)]
pub enum SpecificationRule {
    /// The line has more than 200 bytes.
    TooLong,
    /// It is no line of a specification.
    BadLine,
    /// It can't stand where it does.
    OutOfPlace,
    /// The name is taken.
    NameTaken,
    /// Nothing has that name there.
    UnknownName,
    /// There are as many of these already as there may be.
    TooMany,
    /// An expression is nested too deep.
    TooDeep,
    /// The state is read where there is none.
    StateIsRead,
    /// A method has neither an answer nor a case.
    NoCase,
    /// There is no method.
    NoMethod,
}
