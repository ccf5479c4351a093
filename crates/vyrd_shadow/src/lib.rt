//! The words of a log, as the effects of its writes leave them.
//!
//! A [`Shadow`] follows the writes and blocks of a log in their order, and has the words that
//! `words_after` of `vyrd_base` defines, from the log's starting words on. A write outside a block
//! takes effect where it stands, and the writes of a block are kept back until the block ends. If a
//! lone commit stands in the block, they take effect at that commit by definition. But they aren't
//! all known before the end, and no other caller's write has taken effect on their words in
//! between. So the words after the end are the same, and a lone commit needn't be told.
#![tactic(auto)]

mod block;
mod blocks;
pub mod laws;
mod shadow;

pub use shadow::Shadow;
