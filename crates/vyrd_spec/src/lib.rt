//! Specifications that run: what a call with its reply may do to a state, and what an observer
//! answers in it.
//!
//! The central type is the trait `Spec`. A step answers `true` exactly when the rules allow the
//! reply in this state, and the state is then the next one by the rules; after `false`, and when
//! memory runs out, it is as it was. It says which keys its last step has touched, and gives what
//! compares the words with its states. `BuiltIn` are the specifications of the four subjects, by the
//! rules of a header, and [`AnySpec`] is that of the subject which the header names.
#![tactic(auto)]

mod any;
mod buffer_words;
mod buffers;
mod cache;
mod chunk_words;
pub mod laws;
mod leaves;
mod multiset;
mod neighbours;
mod nodes;
mod row;
mod slot_words;
mod spec;
mod text;
mod touched;
mod tree;
mod tree_words;

pub use any::AnySpec;
pub use buffers::BufferSpec;
pub use cache::CacheSpec;
pub use multiset::MultisetSpec;
pub use spec::{BuiltIn, Spec};
pub use tree::TreeSpec;
