//! The steps of the procedures: what comes next at a place, and the place after it.

ghost use Rattle.std.specs.Prelude.{◌≡◌, ◌<◌, ◌≤◌, ◌^◌, take, false};
ghost use Rattle.vyrd_memory.specs.Scripts.{next_act, after_answer};
ghost use Rattle.vyrd_base.specs.declared.header.Header.{Header};
ghost use Rattle.vyrd_tree.specs.Rests.{after_rest, rest_at, is_visit_or_store};

use crate::cells::root_cell;
use crate::place::{After, Climbing, Lock, Place};
use crate::visit::{Errand, Onward, Visit};
use vyrd_base::{Header, Kind};
use vyrd_memory::{Act, Variant};

/// What is called.
#[derive(Clone, Copy)]
pub(crate) enum Call {
    /// Give the key a value.
    Insert,
    /// Take the key out.
    Delete,
    /// Ask for the key's value.
    Lookup,
}

/// What is played: the variant, the call, and its arguments. A call without a value has 0 for it.
#[derive(Clone, Copy)]
pub(crate) struct Task {
    pub(crate) variant: Variant,
    pub(crate) call: Call,
    pub(crate) key: u32,
    pub(crate) value: u32,
}

impl Task {
    /// What comes next at a place.
    #[inline(always)]
    pub(crate) fn wants(self, header: &Header, place: &Place) -> Act
        ensures { result ≡ next_act (rest_at header.now self place.now) }
    {
        match place {
            Place::LoadRoot => Act::Load(root_cell(header)),
            Place::Visit(visit, place) => visit.wants(header, place),
            Place::Unused(_, place) => place.wants(header),
            Place::Open(..) => Act::Mark(Kind::BlockOpen),
            Place::Store(storing, _) => storing.wants(header),
            Place::Close(ending) => Act::Mark(ending.close),
            Place::Unchanged(_) | Place::GiveUp => Act::Mark(Kind::Commit),
            Place::Unlock(lock, _) => Act::Give(lock.cell(header)),
            Place::Climb(_, place) => place.wants(header),
            Place::Return(reply) => Act::Mark(Kind::Return(*reply)),
            Place::Over => Act::Done,
        }
    }

    /// Goes on from a place with an answer. Nearly all answers are those to a visit or a store,
    /// which change few words of the place. What makes another place is left to other functions,
    /// since a function clears the room of each value that it may make whenever it is called.
    #[inline(always)]
    pub(crate) fn after(self, header: &Header, place: &mut Place, answer: u64)
        requires { answer < 2 ^ 63 }
        ensures { rest_at header.now self place.new
            ≡ after_answer (rest_at header.now self place.old) answer }
    {
        match place {
            Place::Visit(visit, at) => match self.after_visiting(header, visit, *at, answer) {
                Onward::At(next) => *at = next,
                Onward::Arrived(count) => {
                    let visit = *visit;
                    self.arrive(place, visit, count);
                }
                Onward::Lost => {
                    let errand = visit.errand;
                    self.lose(place, errand);
                }
            },
            Place::Store(storing, ending) => {
                if !storing.advance() {
                    *place = Place::Close(*ending);
                }
            }
            _ => self.pass_on(header, place, answer),
        }
    }

    /// Goes on from a place that is no visit and no store.
    fn pass_on(self, header: &Header, place: &mut Place, answer: u64)
        requires answer { answer < 2 ^ 63 }
        requires other { is_visit_or_store place.old ≡ false }
        ensures { rest_at header.now self place.new
            ≡ after_answer (rest_at header.now self place.old) answer }
    {
        *place = match *place {
            Place::LoadRoot => self.walk(header, Errand::Operation, header.size(), answer),
            Place::Unused(need, place) => self.after_getting(header, need, place, answer),
            Place::Open(storing, ending) => Place::Store(storing, ending),
            Place::Close(ending) => Place::Unlock(ending.lock, ending.after),
            Place::Unchanged(node) => Place::Unlock(Lock::Node(node), After::Return(0)),
            Place::Unlock(_, after) => self.after_unlock(header, after),
            Place::Climb(ascent, place) => self.after_climbing(header, ascent, place, answer),
            Place::GiveUp => Place::Return(0),
            Place::Return(_) | Place::Over => Place::Over,
            Place::Visit(..) | Place::Store(..) => unreachable!(),
        };
    }

    /// The place after a lock was given back.
    fn after_unlock(self, header: &Header, after: After) -> Place
        ensures { rest_at header.now self result ≡ after_rest header.now self after }
    {
        match after {
            After::Return(reply) => Place::Return(reply),
            After::Ascend(ascent) => Place::Climb(ascent, Climbing::Lock),
            After::Walk(ascent, root) => self.walk(
                header,
                Errand::Ascent(ascent),
                header.size(),
                root.to_word(),
            ),
        }
    }
}
