//! Structures of the user's own.

use crate::explains::Explains;
use crate::last::with_last;
use std::alloc::{AllocError, Global};
use vyrd_base::{Entry, StartWord, Why};
use vyrd_own_states::{OwnShown, own_reply_items};
use vyrd_states::{Begins, after_items, observer_items};
use vyrd_witness::Item;

impl Explains for OwnShown {
    fn state_items(
        &self,
        alloc: Global,
        starting: &[StartWord],
        front: &[Entry],
        at: usize,
        why: Why,
    ) -> Result<Vec<Item>, AllocError> {
        let begins = self.begins()?;
        match why {
            Why::Reply(reply) => {
                let items = own_reply_items(alloc, &begins, starting, front, at, reply)?;
                let spec = begins.begin(alloc, starting)?;
                with_last(alloc, spec, starting, front, at, items)
            }
            Why::View(key) => after_items(alloc, &begins, starting, front, at, key),
            Why::Observer(_) => observer_items(alloc, &begins, starting, front, at),
        }
    }
}
