//! The witness of a view that differs: what in a log shows why a commit's view differs at a key.
//!
//! The central call is `view_witness`, and its result a `ViewWitness`: what the words show of the
//! key at the commit, which parts of the words give that, where the commit before stands, what the
//! words showed of the key there, and each write since then that changed it, by who wrote it, where
//! it was written, where it took effect, and the values and amounts before and after. Its contract:
//! each of these is the value of a definition (`IsViewWitness`), for any log that keeps the rules
//! of shape. Together the parts give what the words show (the law `parts_give_what_is_shown`). It
//! goes over the entries a second time, after a judge, and asks for them whole.
//!
//! `view_items` says the same item by item, with where the execution was called and returns
//! (`execution_of`). Two calls give the items of other verdicts: `open_items` says what is open after
//! a front, and `race_items` what has to do with a write that races. Each is the value of a
//! definition too, and a write has an item exactly where it races (the law `races_have_items`).
//!
//! Who goes along a log by himself takes a `Walk`, which says at each entry which writes take effect
//! there.
//!
//! What words show is said by the trait `Shown`, by any rules; `BuiltInShown` is that of the
//! built-in subjects. When a write takes effect is said by the one definition of it, `effects_at`
//! of `vyrd_base`, applied to the log in which each write writes its own position (`Numbered`).
#![tactic(auto)]

mod after;
mod built_in;
mod change;
mod effect;
mod execution;
mod given;
mod item;
mod items;
pub mod laws;
mod nodes;
mod opens;
mod parts;
mod phase;
mod races;
mod shown;
mod view;
mod walk;
pub mod worked;

pub use built_in::BuiltInShown;
pub use change::Change;
pub use effect::Effect;
pub use execution::{Execution, Returned, execution_of};
pub use item::Item;
pub use items::{called_items, view_items};
pub use opens::open_items;
pub use phase::Phase;
pub use races::race_items;
pub use shown::Shown;
pub use view::{ViewWitness, view_witness};
pub use walk::{Walk, words_at_start};
