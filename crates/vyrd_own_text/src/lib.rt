//! The text of a specification of a user's own, read line by line.
//!
//! The central type is `SpecificationReader`. It takes any bytes for a line, and answers that the
//! line was taken in, that it ends the specification, or the rule that it breaks and in which
//! column. That is what the definitions say of the line after those before it (`Reader` of
//! `vyrd_base`, in `specs/Own`), and what was read is what they say too.
#![tactic(auto)]

mod change;
mod expression;
mod inner;
mod last;
pub mod laws;
mod method;
mod names;
mod outer;
mod pieces;
mod reader;
mod scope;
mod scopes;
mod text;
mod took;
pub mod worked;

pub use reader::SpecificationReader;
pub use vyrd_base::{Last, SpecificationLine, SpecificationRule};
