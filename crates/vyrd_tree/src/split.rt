//! Unused nodes: the split of a full node, and a new root.

ghost use Rattle.std.specs.Prelude.{◌≡◌, ◌<◌, ◌^◌};
ghost use Rattle.vyrd_base.specs.declared.header.Header.{Header};
ghost use Rattle.vyrd_memory.specs.Scripts.{next_act, after_answer};
ghost use Rattle.vyrd_tree.specs.Rests.{rest_at, after_rest};
ghost use Rattle.vyrd_tree.specs.Rests.Errands.{after_split};
ghost use Rattle.vyrd_tree.specs.Rests.Unused.{getting_rest, found_for, none_for};

use crate::cells::{used_cell, used_lock};
use crate::entries::{first_four, last_two, split_key};
use crate::node::{Node, Word};
use crate::place::{After, Ending, Full, Getting, Lock, Need, Place};
use crate::storing::{Storing, Then};
use crate::task::Task;
use crate::visit::{Ascent, Errand};
use crate::written::Written;
use vyrd_base::{Header, Kind};
use vyrd_memory::Act;

/// The last round of an ascent. There are 16, from round 0 on.
const LAST_ROUND: u32 = 15;

impl Getting {
    /// What comes next of getting an unused node.
    pub(crate) fn wants(self, header: &Header) -> Act
        ensures { (task : Task) (need : Need)
            → result ≡ next_act (getting_rest header.now task need self) }
    {
        match self {
            Getting::Lock => Act::Take(used_lock(header)),
            Getting::Load => Act::Load(used_cell(header)),
            Getting::Store(new) => Act::Store(used_cell(header), new.to_word()),
            Getting::Unlock(_) => Act::Give(used_lock(header)),
        }
    }
}

impl Task {
    /// The place after what came next of getting an unused node.
    pub(crate) fn after_getting(
        self,
        header: &Header,
        need: Need,
        place: Getting,
        answer: u64,
    ) -> Place
        requires { answer < 2 ^ 63 }
        ensures { rest_at header.now self result
            ≡ after_answer (getting_rest header.now self need place) answer }
    {
        let next = match place {
            Getting::Lock => Getting::Load,
            Getting::Load => match Node::numbered(header, answer + 1) {
                Some(new) => Getting::Store(new),
                None => Getting::Unlock(None),
            },
            Getting::Store(new) => Getting::Unlock(Some(new)),
            Getting::Unlock(Some(new)) => return self.found(need, new),
            Getting::Unlock(None) => return self.none(need),
        };
        Place::Unused(need, next)
    }

    /// The place after no unused node was found: the node isn't split, or the tree gets no new
    /// root.
    fn none(self, need: Need) -> Place
        ensures { (h : Header) → rest_at h self result ≡ none_for h need }
    {
        match need {
            Need::Split(full) => match full.errand {
                Errand::Operation => Place::Unchanged(full.node),
                Errand::Ascent(_) => Place::Unlock(Lock::Node(full.node), After::Return(1)),
            },
            Need::Root(..) => Place::Unlock(Lock::Root, After::Return(1)),
        }
    }

    /// The place where an unused node was got.
    fn found(self, need: Need, new: Node) -> Place
        ensures { (h : Header) → rest_at h self result ≡ found_for h self need new.number }
    {
        match need {
            Need::Split(full) => self.split(full, new),
            Need::Root(ascent, root) => grow(ascent, root, new),
        }
    }

    /// The place where a node is split: the upper two of five entries go to the new node on its
    /// right, which takes over its bound and its right link.
    fn split(self, full: Full, new: Node) -> Place
        ensures { (h : Header)
            → rest_at h self result ≡ found_for h self (Need.Split full) new.number }
    {
        let key = split_key(full.five);
        let upper = Written {
            node: new,
            level: full.level,
            count: 2,
            bound: full.bound,
            right: full.right,
            entries: last_two(full.five),
        };
        let lower = Written {
            node: full.node,
            level: full.level,
            count: 3,
            bound: key,
            right: new.to_word(),
            entries: first_four(full.five),
        };
        Place::Open(
            Storing::New(upper, Word::Level, Then::Lower(lower, full.place)),
            Ending {
                close: full.errand.close(),
                lock: Lock::Node(full.node),
                after: self.after_split(full.errand, key, new),
            },
        )
    }

    /// What follows a split: the new node, whose first key this is, gets an entry on the next
    /// level.
    fn after_split(self, errand: Errand, key: u64, new: Node) -> After
        ensures { (h : Header)
            → after_rest h self result ≡ after_split h self errand key new.number }
    {
        let level = match errand {
            Errand::Operation => 0,
            Errand::Ascent(ascent) if ascent.level < LAST_ROUND => ascent.level + 1,
            Errand::Ascent(_) => return After::Return(1),
        };
        After::Ascend(Ascent {
            level,
            key,
            node: new,
        })
    }
}

/// The place where the tree gets a new root, with the old one and the new node of its level as
/// children.
fn grow(ascent: Ascent, root: Node, new: Node) -> Place
    ensures { (h : Header) (task : Task)
        → rest_at h task result ≡ found_for h task (Need.Root ascent root) new.number }
{
    let written = Written {
        node: new,
        level: u64::from(ascent.level) + 1,
        count: 2,
        bound: 0,
        right: 0,
        entries: [
            (0, root.to_word()),
            (ascent.key, ascent.node.to_word()),
            (0, 0),
            (0, 0),
        ],
    };
    Place::Open(
        Storing::New(written, Word::Level, Then::Root),
        Ending {
            close: Kind::BlockClose,
            lock: Lock::Root,
            after: After::Return(1),
        },
    )
}
