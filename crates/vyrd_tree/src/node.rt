//! Nodes, with the cells of their words and locks.

ghost use Rattle.std.specs.Prelude.{◌≡◌, ◌<◌, ◌≤◌, MatchOption};
ghost use Rattle.vyrd_tree.specs.Cells.{lock_of};
ghost use Rattle.vyrd_tree.specs.Rests.Words.{cell_of};

use crate::cells::NODE_WORDS;
use crate::slot::Slot;
use vyrd_base::Header;

/// A node of the tree, by its number, which is below the header's size.
#[derive(Clone, Copy)]
pub(crate) struct Node {
    pub(crate) number: u32,
    ghost small: { number < 1048576 },
}

/// A word of a node.
#[derive(Clone, Copy)]
pub(crate) enum Word {
    /// Its level, which is 0 for a leaf.
    Level,
    /// How many entries it has.
    Count,
    /// Its high key plus 1, or 0 if there is no high key.
    Bound,
    /// The node on its right, or 0 if there is none.
    Right,
    /// The key of an entry.
    Key(Slot),
    /// The value of an entry of a leaf, or the child of an entry of an inner node.
    Value(Slot),
}

impl Node {
    /// The node that has this number, if there is one.
    #[tactic(auto, using(vyrd_base::proofs::HeaderLaws::most_size))]
    pub(crate) fn numbered(header: &Header, number: u64) -> Option<Node>
        ensures { MatchOption result (header.now.size ≤ number)
            (λ node. (node.number ≡ number) × (number < header.now.size)) }
    {
        if number < u64::from(header.size()) {
            Some(Node {
                number: number as u32,
            })
        } else {
            None
        }
    }

    /// Its number, as a word holds it.
    pub(crate) fn to_word(self) -> u64
        ensures { result ≡ self.number }
    {
        u64::from(self.number)
    }

    /// The cell of a word of it.
    pub(crate) fn cell(self, word: Word) -> u32
        ensures { result ≡ cell_of self.number word }
    {
        let first = NODE_WORDS * self.number;
        match word {
            Word::Level => first,
            Word::Count => first + 1,
            Word::Bound => first + 2,
            Word::Right => first + 3,
            Word::Key(slot) => first + 4 + slot.place,
            Word::Value(slot) => first + 8 + slot.place,
        }
    }

    /// The cell of its lock.
    #[tactic(auto, using(vyrd_base::proofs::HeaderLaws::most_size))]
    pub(crate) fn lock(self, header: &Header) -> u32
        ensures { result ≡ lock_of header.now self.number }
    {
        NODE_WORDS * header.size() + 2 + self.number
    }
}
