//! The steps of the procedures: what comes next at a place, and the place after it.

ghost use Rattle.std.specs.Prelude.{◌≡◌, ◌<◌, ◌+◌, ◌^◌};
ghost use Rattle.vyrd_base.specs.declared.subject.Subject.TheVariants.{Multiset};
ghost use Rattle.vyrd_memory.specs.Scripts.{next_act, after_answer};
ghost use Rattle.vyrd_memory.specs.Soundness.{IsSoundSomewhere};
ghost use Rattle.vyrd_multiset.specs.Cells.{bucket_of, first_slot};
ghost use Rattle.vyrd_multiset.specs.Procedures.{find, find_unlock, search_from};
ghost use Rattle.vyrd_multiset.specs.Rests.{wanted, found_for, ended_for, finding_rest};
ghost use Rattle.vyrd_multiset.specs.Rests.{searching_rest, changing_rest, pairing_rest};
ghost use Rattle.vyrd_multiset.specs.Rests.{undoing_rest, first_of, second_of, rest_at};

use crate::cells::{
    FREE, RESERVED, VALID, bucket_of, first_slot_for, lock_for, lock_of, state_cell, value_cell,
};
use crate::place::{Changing, Cursor, Finding, Pairing, Place, Query, Searching, Undoing, Want};
use vyrd_base::{Header, Kind};
use vyrd_memory::{Act, Variant};

/// What is played: the variant, and the values of the call. An operation of one value has 0 for the
/// second.
#[derive(Clone, Copy)]
pub(crate) struct Task {
    pub(crate) variant: Variant,
    pub(crate) x: u32,
    pub(crate) y: u32,
}

impl Task {
    /// What comes next at a place.
    #[inline(always)]
    pub(crate) fn wants(self, header: &Header, place: Place) -> Act
        requires subject { header.now.subject ≡ Multiset }
        requires sound { IsSoundSomewhere header.now (rest_at header.now self place) }
        ensures { result ≡ next_act (rest_at header.now self place) }
    {
        match place {
            Place::Find(want, place) => self.finding_wants(header, want, place),
            Place::Search(query, place) => self.searching_wants(header, query, place),
            Place::Insert(_) => Act::Take(lock_for(header, self.x)),
            Place::Change(slot, state, place) => self.changing_wants(header, slot, state, place),
            Place::Both(slot_x, slot_y, place) => self.pairing_wants(header, slot_x, slot_y, place),
            Place::Undo(slot, place) => self.undoing_wants(header, slot, place),
            Place::Absent | Place::GiveUp => Act::Mark(Kind::Commit),
            Place::Unlock(_) => Act::Give(lock_for(header, self.x)),
            Place::Return(reply) => Act::Mark(Kind::Return(reply)),
            Place::Over => Act::Done,
        }
    }

    /// The place after an answer.
    #[inline(always)]
    pub(crate) fn after(self, header: &Header, place: Place, answer: u64) -> Place
        requires subject { header.now.subject ≡ Multiset }
        requires sound { IsSoundSomewhere header.now (rest_at header.now self place) }
        ensures { rest_at header.now self result
            ≡ after_answer (rest_at header.now self place) answer }
    {
        match place {
            Place::Find(want, place) => self.after_finding(header, want, place, answer),
            Place::Search(query, place) => self.after_searching(header, query, place, answer),
            Place::Insert(slot) => Place::Change(slot, VALID, Changing::Open),
            Place::Change(slot, state, place) => self.after_changing(header, slot, state, place),
            Place::Both(slot_x, slot_y, place) => self.after_pairing(header, slot_x, slot_y, place),
            Place::Undo(slot, place) => self.after_undoing(header, slot, place),
            Place::Absent => Place::Unlock(0),
            Place::GiveUp => Place::Return(0),
            Place::Unlock(reply) => Place::Return(reply),
            Place::Return(_) | Place::Over => Place::Over,
        }
    }
}

/// Finding a free slot.
impl Task {
    /// The value for which a slot is wanted.
    #[inline(always)]
    fn wanted(self, want: Want) -> u32
        ensures { result ≡ wanted self want }
    {
        match want {
            Want::Only | Want::First => self.x,
            Want::Second(_) => self.y,
        }
    }

    /// The place where finding a slot begins: the broken variant takes no lock.
    #[inline(always)]
    pub(crate) fn find(self, header: &Header, want: Want) -> Place
        requires { header.now.subject ≡ Multiset }
        ensures { rest_at header.now self result
            ≡ find header.now self.variant (wanted self want) (found_for header.now self want) }
    {
        match self.variant {
            Variant::Correct => Place::Find(want, Finding::Lock),
            Variant::Broken => Place::Find(
                want,
                Finding::Load(first_cursor(header, self.wanted(want))),
            ),
        }
    }

    /// What comes next of finding a slot.
    #[inline(always)]
    fn finding_wants(self, header: &Header, want: Want, place: Finding) -> Act
        requires subject { header.now.subject ≡ Multiset }
        requires sound { IsSoundSomewhere header.now (finding_rest header.now self.variant
            (wanted self want) (found_for header.now self want) place) }
        ensures { result ≡ next_act (finding_rest header.now self.variant (wanted self want)
            (found_for header.now self want) place) }
    {
        match place {
            Finding::Lock => Act::Take(lock_for(header, self.wanted(want))),
            Finding::Load(cursor) => Act::Load(state_cell(cursor.slot)),
            Finding::StoreValue(slot) => {
                Act::Store(value_cell(slot), u64::from(self.wanted(want)))
            }
            Finding::StoreState(slot) => Act::Store(state_cell(slot), RESERVED),
            Finding::Unlock(_) => Act::Give(lock_for(header, self.wanted(want))),
        }
    }

    /// The place after an answer to what came next of finding a slot.
    #[inline(always)]
    fn after_finding(self, header: &Header, want: Want, place: Finding, answer: u64) -> Place
        requires subject { header.now.subject ≡ Multiset }
        requires sound { IsSoundSomewhere header.now (finding_rest header.now self.variant
            (wanted self want) (found_for header.now self want) place) }
        ensures { rest_at header.now self result ≡ after_answer (finding_rest header.now
            self.variant (wanted self want) (found_for header.now self want) place) answer }
    {
        match place {
            Finding::Lock => Place::Find(
                want,
                Finding::Load(first_cursor(header, self.wanted(want))),
            ),
            Finding::Load(cursor) => {
                if answer == FREE {
                    Place::Find(want, Finding::StoreValue(cursor.slot))
                } else if cursor.after == 0 {
                    self.unlock_found(header, want, None)
                } else {
                    Place::Find(want, Finding::Load(cursor.next()))
                }
            }
            Finding::StoreValue(slot) => Place::Find(want, Finding::StoreState(slot)),
            Finding::StoreState(slot) => self.unlock_found(header, want, Some(slot)),
            Finding::Unlock(slot) => self.found(header, want, slot),
        }
    }

    /// The place after a slot was found, or none. The broken variant holds no lock.
    #[inline(always)]
    fn unlock_found(self, header: &Header, want: Want, slot: Option<u32>) -> Place
        requires { header.now.subject ≡ Multiset }
        ensures { rest_at header.now self result ≡ find_unlock header.now self.variant
            (bucket_of header.now (wanted self want)) (found_for header.now self want slot) }
    {
        match self.variant {
            Variant::Correct => Place::Find(want, Finding::Unlock(slot)),
            Variant::Broken => self.found(header, want, slot),
        }
    }

    /// What is done with the slot that was found, if any.
    #[inline(always)]
    fn found(self, header: &Header, want: Want, slot: Option<u32>) -> Place
        requires { header.now.subject ≡ Multiset }
        ensures { rest_at header.now self result ≡ found_for header.now self want slot }
    {
        match (want, slot) {
            (Want::Only, Some(slot)) => Place::Insert(slot),
            (Want::First, Some(slot)) => self.find(header, Want::Second(slot)),
            (Want::Second(slot_x), Some(slot)) => Place::Both(slot_x, slot, Pairing::Lock),
            (Want::Second(slot_x), None) => Place::Undo(slot_x, Undoing::Lock),
            (_, None) => Place::GiveUp,
        }
    }
}

/// Searching for a value.
impl Task {
    /// What comes next of a search.
    #[inline(always)]
    fn searching_wants(self, header: &Header, query: Query, place: Searching) -> Act
        requires subject { header.now.subject ≡ Multiset }
        requires sound { IsSoundSomewhere header.now
            (searching_rest header.now self.x (ended_for header.now self query) place) }
        ensures { result
            ≡ next_act (searching_rest header.now self.x (ended_for header.now self query) place) }
    {
        match place {
            Searching::Lock => Act::Take(lock_for(header, self.x)),
            Searching::LoadState(cursor) => Act::Load(state_cell(cursor.slot)),
            Searching::LoadValue(cursor) => Act::Load(value_cell(cursor.slot)),
        }
    }

    /// The place after an answer to what came next of a search.
    #[inline(always)]
    fn after_searching(self, header: &Header, query: Query, place: Searching, answer: u64) -> Place
        requires subject { header.now.subject ≡ Multiset }
        requires sound { IsSoundSomewhere header.now
            (searching_rest header.now self.x (ended_for header.now self query) place) }
        ensures { rest_at header.now self result ≡ after_answer
            (searching_rest header.now self.x (ended_for header.now self query) place) answer }
    {
        match place {
            Searching::Lock => Place::Search(
                query,
                Searching::LoadState(first_cursor(header, self.x)),
            ),
            Searching::LoadState(cursor) if answer == VALID => {
                Place::Search(query, Searching::LoadValue(cursor))
            }
            Searching::LoadValue(cursor) if answer == u64::from(self.x) => {
                self.ended(header, query, Some(cursor.slot))
            }
            Searching::LoadState(cursor) | Searching::LoadValue(cursor) => {
                self.search_on(header, query, cursor)
            }
        }
    }

    /// The place after a slot that doesn't have the value.
    #[inline(always)]
    fn search_on(self, header: &Header, query: Query, cursor: Cursor) -> Place
        requires { cursor.slot + 1 < 2 ^ 32 }
        ensures { rest_at header.now self result
            ≡ search_from cursor.after (cursor.slot + 1) self.x (ended_for header.now self query) }
    {
        if cursor.after == 0 {
            self.ended(header, query, None)
        } else {
            Place::Search(query, Searching::LoadState(cursor.next()))
        }
    }

    /// What is done with the slot at which the search ended, if any.
    #[inline(always)]
    fn ended(self, header: &Header, query: Query, slot: Option<u32>) -> Place
        ensures { rest_at header.now self result ≡ ended_for header.now self query slot }
    {
        match (query, slot) {
            (Query::Delete, Some(slot)) => Place::Change(slot, FREE, Changing::Open),
            (Query::Delete, None) => Place::Absent,
            (Query::Lookup, slot) => Place::Unlock(u64::from(slot.is_some())),
        }
    }
}

/// Changing slots in a block that commits.
impl Task {
    /// What comes next of the block that changes one slot.
    #[inline(always)]
    fn changing_wants(self, header: &Header, slot: u32, state: u64, place: Changing) -> Act
        requires subject { header.now.subject ≡ Multiset }
        requires sound { IsSoundSomewhere header.now
            (changing_rest header.now (bucket_of header.now self.x) slot state place) }
        ensures { result
            ≡ next_act (changing_rest header.now (bucket_of header.now self.x) slot state place) }
    {
        match place {
            Changing::Open => Act::Mark(Kind::BlockOpen),
            Changing::Store => Act::Store(state_cell(slot), state),
            Changing::Close => Act::Mark(Kind::BlockCommit),
        }
    }

    /// The place after what came next of the block that changes one slot.
    #[inline(always)]
    fn after_changing(self, header: &Header, slot: u32, state: u64, place: Changing) -> Place
        ensures { rest_at header.now self result ≡ after_answer
            (changing_rest header.now (bucket_of header.now self.x) slot state place) 0 }
    {
        match place {
            Changing::Open => Place::Change(slot, state, Changing::Store),
            Changing::Store => Place::Change(slot, state, Changing::Close),
            Changing::Close => Place::Unlock(1),
        }
    }

    /// The bucket that is locked first for a pair: the lower one, and in the broken variant that of
    /// the first value.
    fn first_of(self, header: &Header) -> u32
        requires { header.now.subject ≡ Multiset }
        ensures bucket { result ≡ first_of header.now self }
        ensures small { result < 1024 }
    {
        let (of_x, of_y) = (bucket_of(header, self.x), bucket_of(header, self.y));
        match self.variant {
            Variant::Correct => of_x.min(of_y),
            Variant::Broken => of_x,
        }
    }

    /// The bucket that is locked second for a pair, if it is another one.
    fn second_of(self, header: &Header) -> u32
        requires { header.now.subject ≡ Multiset }
        ensures bucket { result ≡ second_of header.now self }
        ensures small { result < 1024 }
    {
        let (of_x, of_y) = (bucket_of(header, self.x), bucket_of(header, self.y));
        match self.variant {
            Variant::Correct => of_x.max(of_y),
            Variant::Broken => of_y,
        }
    }

    /// What comes next of making both slots of a pair valid.
    fn pairing_wants(self, header: &Header, slot_x: u32, slot_y: u32, place: Pairing) -> Act
        requires subject { header.now.subject ≡ Multiset }
        requires sound { IsSoundSomewhere header.now (pairing_rest header.now
            (first_of header.now self) (second_of header.now self) slot_x slot_y place) }
        ensures { result ≡ next_act (pairing_rest header.now (first_of header.now self)
            (second_of header.now self) slot_x slot_y place) }
    {
        match place {
            Pairing::Lock => Act::Take(lock_of(header, self.first_of(header))),
            Pairing::LockOther => Act::Take(lock_of(header, self.second_of(header))),
            Pairing::Open => Act::Mark(Kind::BlockOpen),
            Pairing::StoreFirst => Act::Store(state_cell(slot_x), VALID),
            Pairing::StoreSecond => Act::Store(state_cell(slot_y), VALID),
            Pairing::Close => Act::Mark(Kind::BlockCommit),
            Pairing::UnlockOther => Act::Give(lock_of(header, self.second_of(header))),
            Pairing::Unlock => Act::Give(lock_of(header, self.first_of(header))),
        }
    }

    /// The place after what came next of making both slots of a pair valid.
    fn after_pairing(self, header: &Header, slot_x: u32, slot_y: u32, place: Pairing) -> Place
        requires { header.now.subject ≡ Multiset }
        ensures { rest_at header.now self result ≡ after_answer (pairing_rest header.now
            (first_of header.now self) (second_of header.now self) slot_x slot_y place) 0 }
    {
        let one_bucket = self.first_of(header) == self.second_of(header);
        let next = match place {
            Pairing::Lock if one_bucket => Pairing::Open,
            Pairing::Lock => Pairing::LockOther,
            Pairing::LockOther => Pairing::Open,
            Pairing::Open => Pairing::StoreFirst,
            Pairing::StoreFirst => Pairing::StoreSecond,
            Pairing::StoreSecond => Pairing::Close,
            Pairing::Close if one_bucket => Pairing::Unlock,
            Pairing::Close => Pairing::UnlockOther,
            Pairing::UnlockOther => Pairing::Unlock,
            Pairing::Unlock => return Place::Return(1),
        };
        Place::Both(slot_x, slot_y, next)
    }

    /// What comes next of freeing a reserved slot.
    fn undoing_wants(self, header: &Header, slot: u32, place: Undoing) -> Act
        requires subject { header.now.subject ≡ Multiset }
        requires sound { IsSoundSomewhere header.now (undoing_rest header.now self.x slot place) }
        ensures { result ≡ next_act (undoing_rest header.now self.x slot place) }
    {
        match place {
            Undoing::Lock => Act::Take(lock_for(header, self.x)),
            Undoing::Store => Act::Store(state_cell(slot), FREE),
            Undoing::Unlock => Act::Give(lock_for(header, self.x)),
        }
    }

    /// The place after what came next of freeing a reserved slot.
    fn after_undoing(self, header: &Header, slot: u32, place: Undoing) -> Place
        ensures { rest_at header.now self result
            ≡ after_answer (undoing_rest header.now self.x slot place) 0 }
    {
        match place {
            Undoing::Lock => Place::Undo(slot, Undoing::Store),
            Undoing::Store => Place::Undo(slot, Undoing::Unlock),
            Undoing::Unlock => Place::GiveUp,
        }
    }
}

/// The first slot that is looked at for a value: that of its bucket.
fn first_cursor(header: &Header, value: u32) -> Cursor
    requires { header.now.subject ≡ Multiset }
    ensures slot { result.slot ≡ first_slot (bucket_of header.now value) }
    ensures after { result.after ≡ 3 }
{
    Cursor {
        slot: first_slot_for(header, value),
        after: 3,
    }
}
