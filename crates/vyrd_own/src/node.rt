//! An expression as a list of nodes, in which each speaks of earlier ones.

use vyrd_base::Op;

/// A step of the evaluation of an expression. Its numbers are those of earlier nodes.
#[derive(Clone, Copy)]
pub enum Node {
    /// A number.
    Number(u64),
    /// A value that has a name where the expression stands.
    At(usize),
    /// How many keys have a shown amount.
    Count,
    /// The shown amount of a key.
    Shown(usize),
    /// The hidden amount of a key.
    Hidden(usize),
    /// The least key with a shown amount, from a key on.
    Least(usize),
    /// The greatest key with a shown amount, up to a key.
    Greatest(usize),
    /// The first of the list of that number.
    First(usize),
    /// The last of the list of that number.
    Last(usize),
    /// How long the list of that number is.
    Size(usize),
    /// Whether a value is 0.
    Not(usize),
    /// Two values and what is between them.
    Infix(Op, usize, usize),
    /// The second or the third value, by the first.
    Choice(usize, usize, usize),
}
