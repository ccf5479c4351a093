//! What changes along a log: each write that takes effect, what the words show differently after
//! it, and what each step of the specification does.
//!
//! The central call is `follow`, which puts a line for each of these behind a text. Its contract:
//! the lines are those of a definition (`followed_items`), for any log that keeps the rules of
//! shape, by any rules. `last_items` says of a commit which steps before it were the last that set
//! what is told of the state before it.
//!
//! Words that are written one after another are said by the trait `Follows`: `BuiltInWords` are
//! those of a structure that is built in, and `OwnWords` those of a user's own. What a step does is
//! told by a specification with the trait `Tells`: one that is built in tells the amounts of the
//! keys that a call looks at, and `laws` says that no step changes another.
#![tactic(auto)]

mod built_in_spec;
mod built_in_words;
mod differing;
mod following;
mod follows;
mod last;
pub mod laws;
mod leaves;
mod node;
mod nodes;
mod own_spec;
mod own_words;
mod part_change;
mod part_sums;
mod step;
mod tells;
mod thing;
mod touched;
mod turns;
mod wide_amounts;
mod word;
pub mod worked;

pub use built_in_words::BuiltInWords;
pub use following::follow;
pub use follows::Follows;
pub use last::last_items;
pub use own_words::OwnWords;
pub use tells::Tells;
