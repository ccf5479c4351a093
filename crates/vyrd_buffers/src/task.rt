//! The steps of the procedures: what comes next at a place, and the place after it.

ghost use Rattle.std.specs.Prelude.{◌≡◌, ◌<◌};
ghost use Rattle.vyrd_base.specs.declared.header.Header.{Header};
ghost use Rattle.vyrd_base.specs.declared.subject.Subject.TheVariants.{Buffers};
ghost use Rattle.vyrd_memory.specs.Scripts.{next_act, after_answer, returns};
ghost use Rattle.vyrd_memory.specs.Soundness.{IsSoundSomewhere};
ghost use Rattle.vyrd_buffers.specs.Procedures.{unlock_both};
ghost use Rattle.vyrd_buffers.specs.Rests.{counted_for, looking_rest, appending_rest};
ghost use Rattle.vyrd_buffers.specs.Rests.{changing_rest, reading_rest, first_of, second_of};
ghost use Rattle.vyrd_buffers.specs.Rests.{joined_with, counting_rest, joining_rest, rest_at};

use crate::cells::{character_cell, count_cell, lock_of};
use crate::held::Held;
use crate::place::{Appending, Changing, Counting, Joining, Looking, Place, Purpose};
use crate::text::Text;
use vyrd_base::{Header, Kind, MOST_CHARACTERS};
use vyrd_memory::{Act, Variant};

/// What is played: the variant, and the numbers of the call.
#[derive(Clone, Copy)]
pub(crate) struct Task {
    pub(crate) variant: Variant,
    /// The buffer that is changed or looked at.
    pub(crate) b: u32,
    /// The character to append, the buffer whose characters are appended, or how many characters
    /// are kept. An operation that has none of them has 0.
    pub(crate) x: u32,
}

impl Task {
    /// What comes next at a place.
    pub(crate) fn wants(self, header: &Header, place: Place) -> Act
        requires subject { header.now.subject ≡ Buffers }
        requires sound { IsSoundSomewhere header.now (rest_at header.now self place) }
        ensures { result ≡ next_act (rest_at header.now self place) }
    {
        match place {
            Place::Look(purpose, place) => self.looking_wants(header, purpose, place),
            Place::Append(count, place) => self.appending_wants(header, count, place),
            Place::Change(count, place) => self.changing_wants(header, count, place),
            Place::Read(text) => self.reading_wants(header, text),
            Place::Count(place) => self.counting_wants(header, place),
            Place::Join(place) => self.joining_wants(header, place),
            Place::Commit(_) => Act::Mark(Kind::Commit),
            Place::Unlock(_) => Act::Give(lock_of(header, self.b)),
            Place::Return(reply) => Act::Mark(Kind::Return(reply)),
            Place::Over => Act::Done,
        }
    }

    /// The place after an answer.
    pub(crate) fn after(self, place: Place, answer: u64) -> Place
        ensures { (h : Header)
            → rest_at h self result ≡ after_answer (rest_at h self place) answer }
    {
        match place {
            Place::Look(purpose, Looking::Lock) => Place::Look(purpose, Looking::Load),
            Place::Look(purpose, Looking::Load) => self.counted(purpose, answer),
            Place::Append(count, Appending::Open) => Place::Append(count, Appending::Store),
            Place::Append(count, Appending::Store) => {
                Place::Change(u64::from(count) + 1, Changing::Store)
            }
            Place::Change(count, Changing::Open) => Place::Change(count, Changing::Store),
            Place::Change(count, Changing::Store) => Place::Change(count, Changing::Close),
            Place::Change(_, Changing::Close) => Place::Unlock(1),
            Place::Read(text) => self.after_reading(text, answer),
            Place::Count(place) => self.after_counting(place, answer),
            Place::Join(place) => self.after_joining(place, answer),
            Place::Commit(reply) => Place::Unlock(reply),
            Place::Unlock(reply) => Place::Return(reply),
            Place::Return(_) | Place::Over => Place::Over,
        }
    }
}

/// The operations on one buffer.
impl Task {
    /// What comes next of looking at the count.
    fn looking_wants(self, header: &Header, purpose: Purpose, place: Looking) -> Act
        requires subject { header.now.subject ≡ Buffers }
        requires sound { IsSoundSomewhere header.now
            (looking_rest header.now self.b (counted_for header.now self purpose) place) }
        ensures { result ≡ next_act
            (looking_rest header.now self.b (counted_for header.now self purpose) place) }
    {
        match place {
            Looking::Lock => Act::Take(lock_of(header, self.b)),
            Looking::Load => Act::Load(count_cell(self.b)),
        }
    }

    /// The place after the count is loaded.
    fn counted(self, purpose: Purpose, count: u64) -> Place
        ensures { (h : Header) → rest_at h self result ≡ counted_for h self purpose count }
    {
        match purpose {
            Purpose::Append if count < MOST_CHARACTERS => {
                Place::Append(count as u32, Appending::Open)
            }
            Purpose::Append => Place::Commit(0),
            Purpose::Cut if count <= u64::from(self.x) => Place::Commit(1),
            Purpose::Cut => Place::Change(u64::from(self.x), Changing::Open),
            Purpose::Length => Place::Unlock(count.min(MOST_CHARACTERS)),
            Purpose::Read => Place::Read(Text::none_of(count.min(MOST_CHARACTERS) as u32)),
        }
    }

    /// What comes next of appending a character.
    fn appending_wants(self, header: &Header, count: u32, place: Appending) -> Act
        requires subject { header.now.subject ≡ Buffers }
        requires sound { IsSoundSomewhere header.now (appending_rest header.now self count place) }
        ensures { result ≡ next_act (appending_rest header.now self count place) }
    {
        match place {
            Appending::Open => Act::Mark(Kind::BlockOpen),
            Appending::Store => Act::Store(character_cell(self.b, count), u64::from(self.x)),
        }
    }

    /// What comes next of giving the buffer its count.
    fn changing_wants(self, header: &Header, count: u64, place: Changing) -> Act
        requires subject { header.now.subject ≡ Buffers }
        requires sound { IsSoundSomewhere header.now (changing_rest header.now self.b count place) }
        ensures { result ≡ next_act (changing_rest header.now self.b count place) }
    {
        match place {
            Changing::Open => Act::Mark(Kind::BlockOpen),
            Changing::Store => Act::Store(count_cell(self.b), count),
            Changing::Close => Act::Mark(Kind::BlockCommit),
        }
    }

    /// What comes next of reading the characters that are left.
    fn reading_wants(self, header: &Header, text: Text) -> Act
        requires subject { header.now.subject ≡ Buffers }
        requires sound { IsSoundSomewhere header.now (reading_rest header.now self.b text) }
        ensures { result ≡ next_act (reading_rest header.now self.b text) }
    {
        match text.next() {
            Some(number) => Act::Load(character_cell(self.b, number)),
            None => Act::Give(lock_of(header, self.b)),
        }
    }

    /// The place after an answer to what came next of reading.
    fn after_reading(self, text: Text, answer: u64) -> Place
        ensures { (h : Header)
            → rest_at h self result ≡ after_answer (reading_rest h self.b text) answer }
    {
        match text.next() {
            Some(_) => Place::Read(text.with(answer)),
            None => Place::Return(text.number),
        }
    }
}

/// Appending the characters of another buffer.
impl Task {
    /// The buffer that is locked first.
    fn first(self) -> u32
        ensures { result ≡ first_of self }
    {
        match self.variant {
            Variant::Correct => self.b.min(self.x),
            Variant::Broken => self.b,
        }
    }

    /// The buffer that is locked second, if it is another one.
    fn second(self) -> u32
        ensures { result ≡ second_of self }
    {
        match self.variant {
            Variant::Correct => self.b.max(self.x),
            Variant::Broken => self.b,
        }
    }

    /// What comes next of looking at the counts.
    fn counting_wants(self, header: &Header, place: Counting) -> Act
        requires subject { header.now.subject ≡ Buffers }
        requires sound { IsSoundSomewhere header.now (counting_rest header.now self place) }
        ensures { result ≡ next_act (counting_rest header.now self place) }
    {
        match place {
            Counting::LockFirst => Act::Take(lock_of(header, self.first())),
            Counting::LockOther => Act::Take(lock_of(header, self.second())),
            Counting::LockMore => Act::Take(lock_of(header, self.x)),
            Counting::UnlockMore(_) => Act::Give(lock_of(header, self.x)),
            Counting::LockCount(_) => Act::Take(lock_of(header, self.b)),
            Counting::LoadCount | Counting::LoadCountAlone(_) => Act::Load(count_cell(self.b)),
            Counting::LoadMore(_) | Counting::LoadMoreAlone => Act::Load(count_cell(self.x)),
        }
    }

    /// The place after an answer to what came next of looking at the counts.
    fn after_counting(self, place: Counting, answer: u64) -> Place
        ensures { (h : Header)
            → rest_at h self result ≡ after_answer (counting_rest h self place) answer }
    {
        let next = match place {
            Counting::LockFirst if self.first() == self.second() => Counting::LoadCount,
            Counting::LockFirst => Counting::LockOther,
            Counting::LockOther => Counting::LoadCount,
            Counting::LoadCount => Counting::LoadMore(answer),
            Counting::LoadMore(count) => return self.counted_both(count, answer),
            Counting::LockMore => Counting::LoadMoreAlone,
            Counting::LoadMoreAlone => Counting::UnlockMore(answer),
            Counting::UnlockMore(more) => Counting::LockCount(more),
            Counting::LockCount(more) => Counting::LoadCountAlone(more),
            Counting::LoadCountAlone(more) => return self.counted_both(answer, more),
        };
        Place::Count(next)
    }

    /// The place after both counts are loaded.
    fn counted_both(self, count: u64, more: u64) -> Place
        ensures { (h : Header) → rest_at h self result ≡ joined_with h self count more }
    {
        let (count, more) = (count.min(MOST_CHARACTERS), more.min(MOST_CHARACTERS));
        if count + more <= MOST_CHARACTERS {
            Place::Join(Joining::Load(count as u32, Held::none_of(more as u32)))
        } else {
            Place::Join(Joining::Refuse)
        }
    }

    /// What comes next of appending the characters of the other buffer.
    fn joining_wants(self, header: &Header, place: Joining) -> Act
        requires subject { header.now.subject ≡ Buffers }
        requires sound { IsSoundSomewhere header.now (joining_rest header.now self place) }
        ensures { result ≡ next_act (joining_rest header.now self place) }
    {
        match place {
            Joining::Load(_, held) => match held.next() {
                Some(number) => Act::Load(character_cell(self.x, number)),
                None => Act::Mark(Kind::BlockOpen),
            },
            Joining::Store(count, held, stored) => match held.character(stored) {
                Some(character) => Act::Store(character_cell(self.b, count + stored), character),
                None => Act::Store(count_cell(self.b), u64::from(count) + u64::from(held.of)),
            },
            Joining::Close => Act::Mark(Kind::BlockCommit),
            Joining::Refuse => Act::Mark(Kind::Commit),
            Joining::UnlockOther(_) => Act::Give(lock_of(header, self.second())),
            Joining::Unlock(_) => Act::Give(lock_of(header, self.first())),
        }
    }

    /// The place after an answer to what came next of appending those characters.
    fn after_joining(self, place: Joining, answer: u64) -> Place
        ensures { (h : Header)
            → rest_at h self result ≡ after_answer (joining_rest h self place) answer }
    {
        let next = match place {
            Joining::Load(count, held) => match held.next() {
                Some(_) => Joining::Load(count, held.with(answer)),
                None => Joining::Store(count, held, 0),
            },
            Joining::Store(count, held, stored) => match held.character(stored) {
                Some(_) => Joining::Store(count, held, stored + 1),
                None => Joining::Close,
            },
            Joining::Close => self.unlocking(1),
            Joining::Refuse => self.unlocking(0),
            Joining::UnlockOther(reply) => Joining::Unlock(reply),
            Joining::Unlock(reply) => return Place::Return(reply),
        };
        Place::Join(next)
    }

    /// The place where the buffers are unlocked, the second first, if it is another one.
    fn unlocking(self, reply: u64) -> Joining
        ensures { (h : Header)
            → joining_rest h self result
            ≡ unlock_both h (first_of self) (second_of self) (returns reply) }
    {
        if self.first() == self.second() {
            Joining::Unlock(reply)
        } else {
            Joining::UnlockOther(reply)
        }
    }
}
