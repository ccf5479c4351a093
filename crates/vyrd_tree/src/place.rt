//! The places of the procedures: what comes next, with the numbers on which the rest depends.

ghost use Rattle.std.specs.Prelude.{◌≡◌};
ghost use Rattle.vyrd_memory.specs.declared.act.Act.TheVariants.{Give};
ghost use Rattle.vyrd_memory.specs.Scripts.{Script, next_act};
ghost use Rattle.vyrd_tree.specs.Rests.{unlocking};

use crate::cells::root_lock;
use crate::entries::Entry;
use crate::node::Node;
use crate::storing::Storing;
use crate::visit::{Ascent, Errand, Visit, Visiting};
use vyrd_base::{Header, Kind};

/// How far an operation has come, after the mark of its call.
#[derive(Clone, Copy)]
pub(crate) enum Place {
    /// Load the root's number, where the operation's walk begins.
    LoadRoot,
    /// A walk visits a node.
    Visit(Visit, Visiting),
    /// Getting an unused node.
    Unused(Need, Getting),
    /// Open the block in which this is stored first.
    Open(Storing, Ending),
    /// Store a word in a block.
    Store(Storing, Ending),
    /// Close a block.
    Close(Ending),
    /// With the lock of this node held: commit, if nothing is to be changed.
    Unchanged(Node),
    /// Unlock this.
    Unlock(Lock, After),
    /// A round of the ascent begins.
    Climb(Ascent, Climbing),
    /// The walk was lost: commit.
    GiveUp,
    /// Leave the mark of the return with this reply.
    Return(u64),
    /// All is done.
    Over,
}

/// A node that is full and gets one more entry. With it there are five, and the new one has this
/// place.
#[derive(Clone, Copy)]
pub(crate) struct Full {
    pub(crate) errand: Errand,
    pub(crate) node: Node,
    pub(crate) level: u64,
    pub(crate) bound: u64,
    pub(crate) right: u64,
    pub(crate) place: u32,
    pub(crate) five: [Entry; 5],
}

/// What an unused node is needed for.
#[derive(Clone, Copy)]
pub(crate) enum Need {
    /// A node is to be split.
    Split(Full),
    /// A new root, above this one.
    Root(Ascent, Node),
}

/// The places of getting an unused node.
#[derive(Clone, Copy)]
pub(crate) enum Getting {
    /// Lock the count of nodes in use.
    Lock,
    /// Load the count.
    Load,
    /// Store the count, with this node in use.
    Store(Node),
    /// Unlock the count. This node was got, or none.
    Unlock(Option<Node>),
}

/// How a block ends, and what follows it.
#[derive(Clone, Copy)]
pub(crate) struct Ending {
    /// The mark that closes the block.
    pub(crate) close: Kind,
    /// The lock that is given back after it.
    pub(crate) lock: Lock,
    /// What comes then.
    pub(crate) after: After,
}

/// A lock that is held.
#[derive(Clone, Copy)]
pub(crate) enum Lock {
    /// That of a node.
    Node(Node),
    /// That of the root's number.
    Root,
}

impl Lock {
    /// Its cell.
    pub(crate) fn cell(self, header: &Header) -> u32
        ensures { (later : Script) → Give result ≡ next_act (unlocking header.now self later) }
    {
        match self {
            Lock::Node(node) => node.lock(header),
            Lock::Root => root_lock(header),
        }
    }
}

/// What follows the giving back of a lock.
#[derive(Clone, Copy)]
pub(crate) enum After {
    /// The return with this reply.
    Return(u64),
    /// A round of the ascent.
    Ascend(Ascent),
    /// The walk of a round, from this root.
    Walk(Ascent, Node),
}

/// The places of a round of the ascent before its walk.
#[derive(Clone, Copy)]
pub(crate) enum Climbing {
    /// Lock the root's number.
    Lock,
    /// Load it.
    LoadRoot,
    /// Load the level of this root.
    LoadLevel(Node),
}
