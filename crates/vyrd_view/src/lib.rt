//! What the words of a log show, and where that differs from what a specification has.
//!
//! The central trait is `Compare`: what compares the words with a specification's amounts. It is
//! told what changes on either side, and names the least key at which the two differ. `NoParts` is
//! the comparison of words that show nothing.
//!
//! That of the built-in subjects is `Compared`. Its contract: `first_difference` answers exactly
//! the first difference of `view_of_words` and the specification's amounts, and what a change
//! costs depends on the words that changed, and not on all that there are, except that a right link
//! of a tree that leads to another node than before costs a look at all nodes. That cost is counted
//! (`Steps`): one step is one part decoded (a slot, a chunk, a node or a buffer) or one key compared.
//!
//! How words are decoded is said for one part alone, by a type with `Decode`: what the part gives
//! to which keys follows from its number and its own words. The loops over parts are the same for
//! all such types: `ByParts` compares what they show with a specification's amounts, by what
//! changes, and `view_of` collects it from scratch, as a whole view. The nodes of a tree are
//! decoded apart, since a node counts only while it is on the chain of leaves.
//!
//! What the words show of each key and what the specification has of it stand side by side in a
//! hash table of `vyrd_table` (`sides`), with the number of keys at which they differ, so that it
//! takes constant time to see that there are none. What is shown of a key is the sum of its pairs;
//! if it passes 64 bits, what is beyond them stands in a second such table (`sums`).
//!
//! `first_difference` compares two whole views.
#![tactic(auto)]

mod any_parts;
mod both;
mod buffers;
mod by_parts;
mod chain;
mod changed;
mod chunk;
mod chunks;
mod compare;
mod compared;
mod decode;
mod decoded;
mod difference;
mod leaves;
mod no_parts;
mod parts;
mod room;
mod shown;
mod sides;
mod slots;
mod sums;
mod tree;
mod words;

pub use by_parts::ByParts;
pub use compare::Compare;
pub use compared::Compared;
pub use decode::Decode;
pub use difference::first_difference;
pub use no_parts::NoParts;
pub use shown::view_of;
