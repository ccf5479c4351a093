//! Nodes as they are to be stored.

ghost use Rattle.std.specs.Prelude.{◌≤◌};

use crate::entries::Entry;
use crate::node::{Node, Word};

/// A node as it is to be, with its first entries. An operation need not store all of it.
#[derive(Clone, Copy)]
pub(crate) struct Written {
    pub(crate) node: Node,
    pub(crate) level: u64,
    pub(crate) count: u32,
    pub(crate) bound: u64,
    pub(crate) right: u64,
    pub(crate) entries: [Entry; 4],
    ghost few: { count ≤ 4 },
}

impl Written {
    ghost use Rattle.std.specs.Prelude.{◌≡◌};
    ghost use Rattle.vyrd_tree.specs.Rests.Written.{word_in};

    /// What a word is to be.
    pub(crate) fn word(self, word: Word) -> u64
        ensures { result ≡ word_in self word }
    {
        match word {
            Word::Level => self.level,
            Word::Count => u64::from(self.count),
            Word::Bound => self.bound,
            Word::Right => self.right,
            Word::Key(slot) => self.entries[slot.place as usize].0,
            Word::Value(slot) => self.entries[slot.place as usize].1,
        }
    }
}
