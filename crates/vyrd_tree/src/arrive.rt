//! What an operation does when its walk has arrived, and when a node gets one more entry.

ghost use Rattle.std.specs.Prelude.{◌≡◌, ◌≤◌, take};
ghost use Rattle.vyrd_base.specs.declared.header.Header.{Header};
ghost use Rattle.vyrd_memory.specs.Scripts.{returns};
ghost use Rattle.vyrd_tree.specs.Procedures.{place_of, look_in, delete_in, insert_in};
ghost use Rattle.vyrd_tree.specs.Procedures.Ascent.{add_child};
ghost use Rattle.vyrd_tree.specs.Rests.{rest_at};
ghost use Rattle.vyrd_tree.specs.Rests.Errands.{arrived_for, add_rest, next_round};
ghost use Rattle.vyrd_tree.specs.Rests.Visits.{arrived_at};

use crate::entries::{Entry, first_four};
use crate::place::{After, Ending, Full, Getting, Lock, Need, Place};
use crate::storing::Storing;
use crate::task::{Call, Task};
use crate::visit::{Ascent, Errand, Visit};
use vyrd_base::Kind;

/// How many entries a node has room for.
const ROOM: u32 = 4;

/// What an operation does in the leaf of its key.
impl Task {
    /// Goes on after a walk has arrived at a node with this many entries.
    pub(crate) fn arrive(self, place: &mut Place, visit: Visit, count: u32)
        requires { count ≤ 4 }
        ensures { (h : Header)
            → rest_at h self place.new
            ≡ arrived_for h self visit.errand (arrived_at visit (take count visit.entries.slots)) }
    {
        *place = self.arrived(visit, count);
    }

    /// The place after a walk has arrived at a node with this many entries.
    fn arrived(self, visit: Visit, count: u32) -> Place
        requires { count ≤ 4 }
        ensures { (h : Header)
            → rest_at h self result
            ≡ arrived_for h self visit.errand (arrived_at visit (take count visit.entries.slots)) }
    {
        if let Errand::Ascent(ascent) = visit.errand {
            return self.add_child(visit, count, ascent);
        }
        match self.call {
            Call::Insert => self.insert(visit, count),
            Call::Delete => self.delete(visit, count),
            Call::Lookup => self.look_up(visit, count),
        }
    }

    /// The place of an insert that has arrived at a leaf with this many entries.
    fn insert(self, visit: Visit, count: u32) -> Place
        requires operation { visit.errand ≡ Errand.Operation }
        requires count { count ≤ 4 }
        ensures { (h : Header)
            → rest_at h self result ≡ insert_in h self.variant self.key self.value (arrived_at visit
            (take count visit.entries.slots)) (place_of self.key (take count visit.entries.slots)) }
    {
        match visit.entries.slot_of(count, u64::from(self.key)) {
            Some(slot) => Place::Open(
                Storing::Value(visit.node, slot, u64::from(self.value)),
                Ending {
                    close: Kind::BlockCommit,
                    lock: Lock::Node(visit.node),
                    after: After::Return(2),
                },
            ),
            None => self.add(visit, count, (u64::from(self.key), u64::from(self.value))),
        }
    }

    /// The place of a delete there.
    fn delete(self, visit: Visit, count: u32) -> Place
        requires { count ≤ 4 }
        ensures { (h : Header)
            → rest_at h self result ≡ delete_in h (arrived_at visit
            (take count visit.entries.slots)) (place_of self.key (take count visit.entries.slots)) }
    {
        match visit.entries.slot_of(count, u64::from(self.key)) {
            Some(slot) => Place::Open(
                visit.rewrite(visit.entries.without(slot), slot.of - 1, slot.place),
                Ending {
                    close: Kind::BlockCommit,
                    lock: Lock::Node(visit.node),
                    after: After::Return(1),
                },
            ),
            None => Place::Unchanged(visit.node),
        }
    }

    /// The place of a lookup there.
    fn look_up(self, visit: Visit, count: u32) -> Place
        requires { count ≤ 4 }
        ensures { (h : Header)
            → rest_at h self result ≡ look_in h (arrived_at visit (take count visit.entries.slots))
            (place_of self.key (take count visit.entries.slots)) }
    {
        let reply = visit.entries.reply(count, u64::from(self.key));
        Place::Unlock(Lock::Node(visit.node), After::Return(reply))
    }
}

/// One more entry in a node, which is split if it is full.
impl Task {
    /// The place after the walk of a round has arrived at a node with this many entries.
    fn add_child(self, visit: Visit, count: u32, ascent: Ascent) -> Place
        requires errand { visit.errand ≡ Errand.Ascent ascent }
        requires count { count ≤ 4 }
        ensures { (h : Header)
            → rest_at h self result ≡ add_child h ascent.level ascent.key ascent.node.number
            (arrived_at visit (take count visit.entries.slots)) (returns 1)
            (next_round h self ascent) }
    {
        if visit.level <= u64::from(ascent.level) {
            return Place::Unlock(Lock::Node(visit.node), After::Return(1));
        }
        self.add(visit, count, (ascent.key, ascent.node.to_word()))
    }

    /// The place where the node of a visit, with this many entries, gets one more.
    fn add(self, visit: Visit, count: u32, entry: Entry) -> Place
        requires { count ≤ 4 }
        ensures { (h : Header)
            → rest_at h self result ≡ add_rest h self visit.errand
            (arrived_at visit (take count visit.entries.slots)) entry.0 entry.1 }
    {
        let place = visit.entries.place_below(count, entry.0);
        let five = visit.entries.with(place, entry);
        if count < ROOM {
            return Place::Open(
                visit.rewrite(first_four(five), count + 1, place),
                Ending {
                    close: visit.errand.close(),
                    lock: Lock::Node(visit.node),
                    after: After::Return(1),
                },
            );
        }
        let full = Full {
            errand: visit.errand,
            node: visit.node,
            level: visit.level,
            bound: visit.bound,
            right: visit.right,
            place,
            five,
        };
        Place::Unused(Need::Split(full), Getting::Lock)
    }
}
