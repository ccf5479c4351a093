//! The nodes that a walk visits.

ghost use Rattle.std.specs.Prelude.{◌≡◌, ◌≤◌, min, take, drop};
ghost use Rattle.vyrd_base.specs.declared.header.Header.{Header};
ghost use Rattle.vyrd_memory.specs.declared.act.Act.TheVariants.{Store};
ghost use Rattle.vyrd_memory.specs.Scripts.{Script, next_act, perform};
ghost use Rattle.vyrd_tree.specs.Cells.{count_cell};
ghost use Rattle.vyrd_tree.specs.Procedures.Split.{write_entries};
ghost use Rattle.vyrd_tree.specs.Rests.Stores.{storing_rest};
ghost use Rattle.vyrd_tree.specs.declared.task.Task.{Task};
ghost use Rattle.vyrd_tree.specs.Rests.Errands.{toward, close_for};
ghost use Rattle.vyrd_tree.specs.Rests.Visits.{visiting_rest};

use crate::entries::{Entries, Entry};
use crate::node::{Node, Word};
use crate::slot::Slot;
use crate::storing::{Extent, Storing};
use crate::written::Written;
use vyrd_base::{Header, Kind};
use vyrd_memory::Act;

/// A round of the ascent: the node of this level was split, and the new node needs an entry with
/// this key on the next level. The rounds have their levels' numbers, since the first one is of
/// level 0.
#[derive(Clone, Copy)]
pub(crate) struct Ascent {
    pub(crate) level: u32,
    pub(crate) key: u64,
    pub(crate) node: Node,
}

/// What a walk is for.
#[derive(Clone, Copy)]
pub(crate) enum Errand {
    /// The operation itself: it goes to the leaf of its key.
    Operation,
    /// A round of the ascent: it goes to the node that gets the entry.
    Ascent(Ascent),
}

impl Errand {
    /// The level toward which the walk goes.
    pub(crate) fn toward(self) -> u64
        ensures { result ≡ toward self }
    {
        match self {
            Errand::Operation => 0,
            Errand::Ascent(ascent) => u64::from(ascent.level) + 1,
        }
    }

    /// The mark that closes the block of a change. That of the operation's own change commits.
    pub(crate) fn close(self) -> Kind
        ensures { result ≡ close_for self }
    {
        match self {
            Errand::Operation => Kind::BlockCommit,
            Errand::Ascent(_) => Kind::BlockClose,
        }
    }
}

/// A node that a walk visits, as far as it is loaded, and how many nodes the walk may visit after
/// it.
#[derive(Clone, Copy)]
pub(crate) struct Visit {
    pub(crate) errand: Errand,
    pub(crate) left: u32,
    pub(crate) node: Node,
    pub(crate) level: u64,
    pub(crate) count: u64,
    pub(crate) bound: u64,
    pub(crate) right: u64,
    pub(crate) entries: Entries,
}

impl Visit {
    /// A node of which nothing is loaded.
    pub(crate) fn new(errand: Errand, left: u32, node: Node) -> Visit
        ensures errand { result.errand ≡ errand }
        ensures left { result.left ≡ left }
        ensures node { result.node ≡ node }
    {
        Visit {
            errand,
            left,
            node,
            level: 0,
            count: 0,
            bound: 0,
            right: 0,
            entries: Entries::new(),
        }
    }

    /// What comes next of the visit.
    #[inline(always)]
    pub(crate) fn wants(&self, header: &Header, place: &Visiting) -> Act
        ensures { (task : Task)
            → result ≡ next_act (visiting_rest header.now task self.now place.now) }
    {
        match place {
            Visiting::Lock => Act::Take(self.node.lock(header)),
            Visiting::Load(word) => Act::Load(self.node.cell(*word)),
            Visiting::LoadChild(slot) => Act::Load(self.node.cell(Word::Value(*slot))),
            Visiting::Leave(_) | Visiting::Lost => Act::Give(self.node.lock(header)),
        }
    }

    /// The store of this many first entries, from a place on, and of their count.
    pub(crate) fn rewrite(self, entries: [Entry; 4], count: u32, place: u32) -> Storing
        requires { count ≤ 4 }
        ensures { (h : Header) (later : Script)
            → storing_rest h result later ≡ write_entries self.node.number place (drop place
            (take count entries)) (perform (Store (count_cell self.node.number) count) later) }
    {
        let written = Written {
            node: self.node,
            level: self.level,
            count,
            bound: self.bound,
            right: self.right,
            entries,
        };
        Storing::entries(written, place, Extent::Entries)
    }

    /// How many entries the node has: 4 at most, whatever its count says.
    pub(crate) fn entry_count(&self) -> u32
        ensures count { result ≡ min self.now.count 4 }
        ensures few { result ≤ 4 }
    {
        self.count.min(4) as u32
    }
}

/// The next act of a visit.
#[derive(Clone, Copy)]
pub(crate) enum Visiting {
    /// Lock the node.
    Lock,
    /// Load a word of it.
    Load(Word),
    /// Load the child in this slot, which is the next node to visit.
    LoadChild(Slot),
    /// Unlock the node, and visit this one.
    Leave(u64),
    /// Unlock the node. The walk is lost.
    Lost,
}

/// What comes of a step of a visit.
#[derive(Clone, Copy)]
pub(crate) enum Onward {
    /// The visit goes on, or the next one begins: this comes next.
    At(Visiting),
    /// The walk has arrived: the node has this many entries, and all are loaded.
    Arrived(u32),
    /// The walk is lost.
    Lost,
}
