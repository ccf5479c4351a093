//! The walk: from node to node, right if the key is past a node's bound, and down if the node is
//! above the walk's level.

ghost use Rattle.std.specs.Prelude.{◌≡◌, ◌<◌, ◌≤◌, ◌^◌, take};
ghost use Rattle.vyrd_base.specs.declared.header.Header.{Header};
ghost use Rattle.vyrd_memory.specs.Scripts.{after_answer};
ghost use Rattle.vyrd_tree.specs.Procedures.Walk.{moves_right};
ghost use Rattle.vyrd_tree.specs.Rests.{rest_at};
ghost use Rattle.vyrd_tree.specs.Rests.Errands.{key_for, lost_for, walk_on};
ghost use Rattle.vyrd_tree.specs.Rests.Visits.{keys_of, with_keys, keys_from_rest};
ghost use Rattle.vyrd_tree.specs.Rests.Visits.{values_from_rest, looked_at, loading, visiting_rest};
ghost use Rattle.vyrd_tree.specs.Rests.Visits.{onward_rest, HasFew};

use crate::node::{Node, Word};
use crate::place::Place;
use crate::slot::Slot;
use crate::task::{Call, Task};
use crate::visit::{Errand, Onward, Visit, Visiting};
use vyrd_base::Header;
use vyrd_memory::Variant;

impl Task {
    /// The key of a walk.
    fn key(self, errand: Errand) -> u64
        ensures { result ≡ key_for self errand }
    {
        match errand {
            Errand::Operation => u64::from(self.key),
            Errand::Ascent(ascent) => ascent.key,
        }
    }

    /// The place where a walk begins at the node of this number, with this many visits left.
    pub(crate) fn walk(self, header: &Header, errand: Errand, left: u32, number: u64) -> Place
        ensures { rest_at header.now self result ≡ walk_on header.now self errand left number }
    {
        if left == 0 {
            return self.lost(errand);
        }
        match Node::numbered(header, number) {
            Some(node) => Place::Visit(Visit::new(errand, left - 1, node), Visiting::Lock),
            None => self.lost(errand),
        }
    }

    /// The place after a walk was lost.
    fn lost(self, errand: Errand) -> Place
        ensures { (h : Header) → rest_at h self result ≡ lost_for self errand }
    {
        match (errand, self.call) {
            (Errand::Ascent(_), _) => Place::Return(1),
            (Errand::Operation, Call::Lookup) => Place::Return(0),
            (Errand::Operation, Call::Insert | Call::Delete) => Place::GiveUp,
        }
    }

    /// Goes on after a walk was lost.
    pub(crate) fn lose(self, place: &mut Place, errand: Errand)
        ensures { (h : Header) → rest_at h self place.new ≡ lost_for self errand }
    {
        *place = self.lost(errand);
    }

    /// Goes on from a visit with an answer, in place.
    #[inline(always)]
    pub(crate) fn after_visiting(
        self,
        header: &Header,
        visit: &mut Visit,
        place: Visiting,
        answer: u64,
    ) -> Onward
        requires { answer < 2 ^ 63 }
        ensures rest { onward_rest header.now self visit.new result
            ≡ after_answer (visiting_rest header.now self visit.old place) answer }
        ensures few { HasFew result }
    {
        match place {
            Visiting::Lock => Onward::At(Visiting::Load(Word::Level)),
            Visiting::Load(word) => self.loaded(visit, word, answer),
            Visiting::LoadChild(_) => Onward::At(Visiting::Leave(answer)),
            Visiting::Leave(next) => visit.go(header, next),
            Visiting::Lost => Onward::Lost,
        }
    }

    /// Goes on after a word of the node was loaded.
    #[inline(always)]
    fn loaded(self, visit: &mut Visit, word: Word, answer: u64) -> Onward
        requires { answer < 2 ^ 63 }
        ensures rest { (h : Header) → onward_rest h self visit.new result
            ≡ after_answer (loading h self visit.old word) answer }
        ensures few { HasFew result }
    {
        match word {
            Word::Level => {
                visit.level = answer;
                Onward::At(Visiting::Load(Word::Count))
            }
            Word::Count => {
                visit.count = answer;
                Onward::At(Visiting::Load(Word::Bound))
            }
            Word::Bound => {
                visit.bound = answer;
                Onward::At(Visiting::Load(Word::Right))
            }
            Word::Right => {
                visit.right = answer;
                self.look(visit)
            }
            Word::Key(slot) => {
                visit.entries.set_key(slot, answer);
                self.keys_from(visit, slot.place + 1, slot.of)
            }
            Word::Value(slot) => {
                visit.entries.set_value(slot, answer);
                visit.values_from(slot.place + 1, slot.of)
            }
        }
    }

    /// Whether the walk moves right: the broken variant does so only above the leaves.
    fn moves_right(self, level: u64, bound: u64, key: u64) -> bool
        ensures { result ≡ moves_right self.variant level bound key }
    {
        let is_past = bound != 0 && bound <= key;
        match self.variant {
            Variant::Correct => is_past,
            Variant::Broken => level != 0 && is_past,
        }
    }

    /// What comes where the node's first four words are loaded.
    fn look(self, visit: &Visit) -> Onward
        ensures rest { (h : Header) → onward_rest h self visit.now result
            ≡ looked_at h self visit.now visit.now.level visit.now.count visit.now.bound
            visit.now.right }
        ensures few { HasFew result }
    {
        if self.moves_right(visit.level, visit.bound, self.key(visit.errand)) {
            return Onward::At(Visiting::Leave(visit.right));
        }
        self.keys_from(visit, 0, visit.entry_count())
    }

    /// What comes where a node's keys, this many, are loaded from a place on.
    fn keys_from(self, visit: &Visit, place: u32, count: u32) -> Onward
        requires count { count ≤ 4 }
        requires place { place ≤ count }
        ensures rest { (h : Header) → onward_rest h self visit.now result
            ≡ keys_from_rest h self visit.now place count }
        ensures few { HasFew result }
    {
        match Slot::new(place, count) {
            Some(slot) => Onward::At(Visiting::Load(Word::Key(slot))),
            None => self.keys_loaded(visit, count),
        }
    }

    /// What comes after all keys, this many, were loaded: down to a child, or the walk has come to
    /// its level.
    fn keys_loaded(self, visit: &Visit, count: u32) -> Onward
        requires { count ≤ 4 }
        ensures rest { (h : Header) → onward_rest h self visit.now result
            ≡ with_keys h self visit.now count (keys_of (take count visit.now.entries.slots)) }
        ensures few { HasFew result }
    {
        if visit.level > visit.errand.toward() {
            let key = self.key(visit.errand);
            return match visit.entries.child_slot(count, key) {
                Some(slot) => Onward::At(Visiting::LoadChild(slot)),
                None => Onward::At(Visiting::Lost),
            };
        }
        visit.values_from(0, count)
    }
}

impl Visit {
    /// Goes on at the node of this number, if there is one and a visit is left.
    fn go(&mut self, header: &Header, number: u64) -> Onward
        ensures rest { (task : Task) → onward_rest header.now task self.new result
            ≡ walk_on header.now task self.old.errand self.old.left number }
        ensures few { HasFew result }
    {
        if self.left == 0 {
            return Onward::Lost;
        }
        match Node::numbered(header, number) {
            Some(node) => {
                self.left -= 1;
                self.node = node;
                Onward::At(Visiting::Lock)
            }
            None => Onward::Lost,
        }
    }

    /// What comes where a node's values, this many, are loaded from a place on.
    fn values_from(&self, place: u32, count: u32) -> Onward
        requires count { count ≤ 4 }
        requires place { place ≤ count }
        ensures rest { (h : Header) (task : Task)
            → onward_rest h task self.now result ≡ values_from_rest h task self.now place count }
        ensures few { HasFew result }
    {
        match Slot::new(place, count) {
            Some(slot) => Onward::At(Visiting::Load(Word::Value(slot))),
            None => Onward::Arrived(count),
        }
    }
}
