//! What the definitions of own specifications name: a method, the operations of an expression, what
//! a step does, and what a line of such a specification is.

mod effect;
mod last;
mod line;
mod method;
mod op;
mod rule;

pub use effect::Effect;
pub use last::Last;
pub use line::SpecificationLine;
pub use method::OwnMethod;
pub use op::Op;
pub use rule::SpecificationRule;
