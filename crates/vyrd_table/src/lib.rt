//! Values by key in a hash table, whose calls say what they cost.
//!
//! The central type is [`Table`]. It is generic over the [`Value`] that it keeps of a key, and a
//! contract sees it as `Contents`: its keys with their values, the keys rising, and the steps that
//! were paid for growing and aren't used yet. A key stands in one of four places, or if these are
//! taken by other keys, in an ordered map. So keys that someone has chosen to share their places
//! cost the logarithm of their number, and no key costs more: that is a clause, and not an average.
//!
//! - A look-up costs `look_up_price` of the number of keys: four places, and a question to the
//!   ordered map.
//! - A value that is set costs `set_price` of the number of keys and what was saved before, less
//!   what is saved after: the look-up, twice that much again at most, and a share of what growing
//!   costs. So any calls together cost no more than their prices.
//! - What std does for a question to an ordered map isn't seen by any proof. It is taken to be as
//!   many steps as the number of its keys has binary digits, and one more.
//!
//! A key is looked up once and its value set in the place that was found by `find` and `put`, whose
//! [`Slot`] passes on the place.
//!
//! All keys with their values are given by `entries`. The least key whose value is [`Marked`] is
//! found without memory.
//!
//! An [`AmountTable`] is a table of amounts, seen as the amounts alone.
//!
//! `places` has the places with the rest of the keys, `moved` has all keys come to new places,
//! `growing` says when they do, and `rest` is the ordered map. `laws` says that entries are a map,
//! and what a logarithm is; `worked` has small cases.
#![tactic(auto)]

mod amounts;
mod growing;
pub mod laws;
mod listed;
mod marked;
mod moved;
mod places;
mod rest;
mod slot;
mod table;
mod value;
pub mod worked;

pub use amounts::AmountTable;
pub use marked::Marked;
pub use slot::Slot;
pub use table::Table;
pub use value::Value;
