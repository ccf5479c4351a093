//! A specification of the user's own, by which a log can be judged.
//!
//! The central type is [`OwnSpec`]: a [`Specification`] that was read, with a state. It steps, answers
//! and shows by the rules that the specification's lines give (`own_rules` of `vyrd_base`), so that
//! `Judge` of `vyrd_judge` takes it as any other. A step that is refused, or for which memory runs
//! out, leaves all as it was. Without a step it says whether a reply is allowed, and what counts
//! for that. The words are compared part by part, as the specification decodes them
//! ([`OwnParts`]). Words that aren't a whole number of parts stand for no state.
#![tactic(auto)]

mod allowing;
mod compared;
pub mod laws;
mod own_spec;
mod parts;
mod specification;
mod start;
mod stepping;

pub use compared::OwnCompared;
pub use own_spec::OwnSpec;
pub use parts::OwnParts;
pub use specification::Specification;
