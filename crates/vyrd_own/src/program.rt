//! A specification that was read.

use crate::code::Code;

/// A line of a case.
#[derive(Drop)]
pub enum Change {
    /// The shown amount of a key becomes this.
    Shown(Code, Code),
    /// The hidden amount of a key becomes this.
    Hidden(Code, Code),
    /// The register of that number becomes this.
    Register(usize, Code),
    /// The list of that number gets this at its end.
    Append(usize, Code),
    /// The list of that number gets this at its front.
    Prepend(usize, Code),
    /// The list of that number loses its first.
    DropFirst(usize),
    /// The list of that number loses its last.
    DropLast(usize),
    /// The list of that number becomes empty.
    Clear(usize),
    /// All shown amounts become 0.
    ClearShown,
}

/// A case: where its expression isn't 0 the reply is allowed, and the state changes so.
#[derive(Drop)]
pub struct Case {
    pub allow: Code,
    pub changes: Vec<Change>,
}

/// A method. Its names are those of its parameters and then those of its lines `let`.
#[derive(Drop)]
pub struct Method {
    pub name: Vec<u8>,
    pub names: Vec<Vec<u8>>,
    pub arity: usize,
    pub lets: Vec<Code>,
    pub answer: Option<Code>,
    pub cases: Vec<Case>,
}

/// A line `shows`: a part gives the amount to the key.
#[derive(Drop)]
pub struct Show {
    pub key: Code,
    pub amount: Code,
}

/// A specification.
#[derive(Drop)]
pub struct Program {
    pub constant_names: Vec<Vec<u8>>,
    pub constants: Vec<u64>,
    pub register_names: Vec<Vec<u8>>,
    pub registers: Vec<u64>,
    pub list_names: Vec<Vec<u8>>,
    pub lists: Vec<Vec<u64>>,
    pub hidden: Vec<(u64, u64)>,
    pub words: usize,
    pub shows: Vec<Show>,
    pub methods: Vec<Method>,
}
