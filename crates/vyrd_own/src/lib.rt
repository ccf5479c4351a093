//! Specifications of a user's own: the values of expressions, steps, answers, and what words show.
//!
//! A `Program` is a specification that was read. `step` makes a step of a state with a call and its
//! reply, `answer` is what an execution replies that commits nothing, and `put_parts` is what a
//! part of the words gives to keys. Each answers exactly what the definitions say of the
//! specification as it is written (`Steps` and `Expressions` of `vyrd_base`, in `specs/Own`), for
//! any state and any arguments, or that memory ran out; then the state is as it was. An expression
//! is evaluated over a list of nodes, without memory; how the nodes make the expression is a matter
//! of the layout (`specs/Layout`), of which the definitions know nothing.
//!
//! What a step and an answer cost is counted, and bounded by the specification as it is written:
//! `step_counted`, `find_effects_counted` and `answer_counted` say it in steps (`specs/Prices`).
//! The calls of the same names without `counted` do the same, and count for themselves alone.
//!
//! `put_worths` says what counts for whether a call may have a reply: what the expressions are
//! worth by which that is decided, and which amounts of the state they read (`specs/Reads`).
#![tactic(auto)]

mod code;
mod evaluation;
mod few;
pub mod laws;
mod node;
mod ordered;
mod program;
mod queue;
mod reads;
mod shown;
mod state;
mod steps;
mod store;
mod updates;
mod words;
pub mod worked;

pub use code::Code;
pub use few::{answer_of_few, answer_of_few_counted};
pub use node::Node;
pub use program::{Case, Change, Method, Program, Show};
pub use reads::{Reads, Worth, put_worths};
pub use shown::ShownAmounts;
pub use state::StateOf;
pub use steps::{
    Room, answer, answer_counted, find_effects, find_effects_counted, step, step_counted,
};
pub use vyrd_base::{Effect, Op};
pub use words::{part_pairs, put_parts};
