//! What an operation stores in a block, word by word.

ghost use Rattle.std.specs.Prelude.{◌≡◌, Some, None, IfSome, if◌then◌else◌};
ghost use Rattle.vyrd_base.specs.declared.header.Header.{Header};
ghost use Rattle.vyrd_memory.specs.Scripts.{Script, next_act, after_answer};
ghost use Rattle.vyrd_tree.specs.Rests.Stores.{entries_from, new_from, old_from, storing_rest};
ghost use Rattle.vyrd_tree.specs.Rests.Stores.{new_on, old_on, counting, then_rest};

use crate::cells::root_cell;
use crate::node::{Node, Word};
use crate::slot::Slot;
use crate::written::Written;
use vyrd_base::Header;
use vyrd_memory::Act;

/// How much is stored of a node that is in use.
#[derive(Clone, Copy)]
pub(crate) enum Extent {
    /// The entries from a place on, and the count.
    Entries,
    /// The same, and the bound and the right link: the node was split.
    Split,
}

/// What is stored after a node that wasn't in use.
#[derive(Clone, Copy)]
pub(crate) enum Then {
    /// The root's number: the new node is the root.
    Root,
    /// What stays in the node that was split, from a place on.
    Lower(Written, u32),
}

/// The next word that is stored in a block.
#[derive(Clone, Copy)]
pub(crate) enum Storing {
    /// A word of a node that wasn't in use, all of which is stored.
    New(Written, Word, Then),
    /// A word of a node that is in use.
    Old(Written, Word, Extent),
    /// The value of one entry, and nothing else.
    Value(Node, Slot, u64),
    /// The root's number.
    Root(Node),
}

impl Storing {
    /// The entries of a node from a place on, its count, and what else the extent says.
    pub(crate) fn entries(written: Written, place: u32, extent: Extent) -> Storing
        ensures { (h : Header) (later : Script)
            → storing_rest h result later
            ≡ entries_from written place (counting written extent later) }
    {
        match Slot::new(place, written.count) {
            Some(slot) => Storing::Old(written, Word::Key(slot), extent),
            None => Storing::Old(written, Word::Count, extent),
        }
    }

    /// The store itself.
    #[inline(always)]
    pub(crate) fn wants(&self, header: &Header) -> Act
        ensures { (later : Script) → result ≡ next_act (storing_rest header.now self.now later) }
    {
        match self {
            Storing::New(written, word, _) | Storing::Old(written, word, _) => {
                Act::Store(written.node.cell(*word), written.word(*word))
            }
            Storing::Value(node, slot, value) => Act::Store(node.cell(Word::Value(*slot)), *value),
            Storing::Root(node) => Act::Store(root_cell(header), node.to_word()),
        }
    }

    /// Goes on to what is stored after it. `false` says that nothing is.
    #[inline(always)]
    pub(crate) fn advance(&mut self) -> bool
        ensures { (h : Header) (later : Script)
            → (if result then storing_rest h self.new later else later)
            ≡ after_answer (storing_rest h self.old later) 0 }
    {
        match self {
            Storing::New(written, word, then) => {
                match written.new_word(*word) {
                    Some(next) => *word = next,
                    None => {
                        let (node, next) = (written.node, *then);
                        self.begin(node, next);
                    }
                }
                true
            }
            Storing::Old(written, word, extent) => match written.old_word(*word, *extent) {
                Some(next) => {
                    *word = next;
                    true
                }
                None => false,
            },
            Storing::Value(..) | Storing::Root(_) => false,
        }
    }

    /// Becomes what is stored after a node that wasn't in use.
    fn begin(&mut self, node: Node, next: Then)
        ensures { (h : Header) (later : Script)
            → storing_rest h self.new later ≡ then_rest h node.number next later }
    {
        *self = match next {
            Then::Root => Storing::Root(node),
            Then::Lower(lower, place) => Storing::entries(lower, place, Extent::Split),
        };
    }
}

/// The words of a node in the order in which they are stored.
impl Written {
    /// The word that follows, if the node wasn't in use. After the last value there is none.
    fn new_word(&self, word: Word) -> Option<Word>
        ensures { (later : Script)
            → new_on self.now result later ≡ after_answer (new_from self.now word later) 0 }
    {
        match word {
            Word::Level => Some(Word::Count),
            Word::Count => Some(Word::Bound),
            Word::Bound => Some(Word::Right),
            Word::Right => self.key(0),
            Word::Key(slot) => Some(Word::Value(slot)),
            Word::Value(slot) => self.key(slot.place + 1),
        }
    }

    /// The word that follows, if the node is in use.
    fn old_word(&self, word: Word, extent: Extent) -> Option<Word>
        ensures { (later : Script)
            → old_on self.now result extent later
            ≡ after_answer (old_from self.now word extent later) 0 }
    {
        match (word, extent) {
            (Word::Key(slot), _) => Some(Word::Value(slot)),
            (Word::Value(slot), _) => match self.key(slot.place + 1) {
                Some(key) => Some(key),
                None => Some(Word::Count),
            },
            (Word::Count, Extent::Split) => Some(Word::Bound),
            (Word::Bound, _) => Some(Word::Right),
            (Word::Count | Word::Right | Word::Level, _) => None,
        }
    }

    /// The key of the entry at a place, if there is one.
    fn key(&self, place: u32) -> Option<Word>
        ensures new { (later : Script)
            → new_on self.now result later ≡ entries_from self.now place later }
        ensures old { IfSome result (λ key. (extent : Extent) (later : Script)
            → old_from self.now key extent later
            ≡ entries_from self.now place (counting self.now extent later)) }
    {
        match Slot::new(place, self.count) {
            Some(slot) => Some(Word::Key(slot)),
            None => None,
        }
    }
}
