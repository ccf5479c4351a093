//! The words of a log, as they are at each commit that waits to be judged, and what they show.
//!
//! The central type is [`Words`]. It takes in the entries of a log that keep the rules of shape. A
//! `shadow` rebuilds the words from the logged writes. `views` has the words at the last commit
//! that was judged, and each `write` since, with `counts` of those up to each commit that waits,
//! and its late writes, which stand `apart`. At a commit that is judged, it says where the view of
//! these words differs from the specification's.
//!
//! `starting` has the words that a log begins with.
#![tactic(auto)]

mod apart;
mod counts;
mod starting;
mod views;
mod words;
mod write;

pub use starting::{words_at_start, words_of};
pub use words::Words;
