//! The steps of the procedures: what comes next at a place, and what is played after it.

ghost use Rattle.std.specs.Prelude.{◌≡◌, ◌+◌, ◌<◌, ◌^◌};
ghost use Rattle.vyrd_base.specs.declared.header.Header.{Header};
ghost use Rattle.vyrd_base.specs.declared.subject.Subject.TheVariants.{Cache};
ghost use Rattle.vyrd_memory.specs.Scripts.{next_act, after_answer};
ghost use Rattle.vyrd_memory.specs.Soundness.{IsSoundSomewhere};
ghost use Rattle.vyrd_cache.specs.Procedures.{joined, in_order};
ghost use Rattle.vyrd_cache.specs.Rests.Actions.{source_low, target_low, state_left, close_of};
ghost use Rattle.vyrd_cache.specs.Rests.Actions.{reply_of, place_after, action_of};
ghost use Rattle.vyrd_cache.specs.Rests.{after_loads, after_state, rest_at};

use crate::cells::{ABSENT, CLEAN, DIRTY, cached_low, lock_of, state_cell, stored_low};
use crate::place::Place;
use vyrd_base::{CacheMethod, Header, Kind};
use vyrd_memory::{Act, Variant};

/// What an operation does, as far as it is decided. The chunk's state, once it is loaded, may
/// decide more.
#[derive(Clone, Copy, PartialEq, Eq)]
pub(crate) enum Action {
    /// Puts a pair into the cache and makes the chunk dirty.
    Write,
    /// A write with the built-in mistake, which looks first whether the chunk is dirty.
    LookAndWrite,
    /// A write to a dirty chunk with neither lock nor block.
    BareWrite,
    /// Puts a dirty chunk's pair into the store and makes the chunk clean.
    Flush,
    /// Puts a dirty chunk's pair into the store and makes the chunk absent.
    Evict,
    /// Makes a chunk absent whose pair is in the store.
    Forget,
    /// Reads the pair in the cache.
    Read,
    /// Reads the pair in the store, puts it into the cache and makes the chunk clean.
    Fetch,
}

impl Action {
    /// What an operation of the method does at first.
    pub(crate) fn new(method: CacheMethod, variant: Variant) -> Action
        ensures { result ≡ action_of method variant }
    {
        match method {
            CacheMethod::Write => match variant {
                Variant::Correct => Action::Write,
                Variant::Broken => Action::LookAndWrite,
            },
            CacheMethod::Flush => Action::Flush,
            CacheMethod::Evict => Action::Evict,
            CacheMethod::Read => Action::Read,
        }
    }

    /// The state that the chunk gets.
    fn state_left(self) -> u64
        ensures { result ≡ state_left self }
    {
        match self {
            Action::Write | Action::LookAndWrite | Action::BareWrite => DIRTY,
            Action::Flush | Action::Read | Action::Fetch => CLEAN,
            Action::Evict | Action::Forget => ABSENT,
        }
    }

    /// How the block is closed: a read has nothing to commit.
    fn close(self) -> Kind
        ensures { result ≡ close_of self }
    {
        match self {
            Action::Read | Action::Fetch => Kind::BlockClose,
            _ => Kind::BlockCommit,
        }
    }

    /// The place that follows a place whose act isn't a load.
    fn after(self, place: Place) -> Place
        ensures { result ≡ place_after self place }
    {
        let is_bare = self == Action::BareWrite;
        match place {
            Place::Lock if self == Action::Write => Place::Open,
            Place::Lock => Place::LoadState,
            Place::Open if self == Action::Forget => Place::StoreState,
            Place::Open => Place::StoreLow,
            Place::StoreLow => Place::StoreHigh,
            Place::StoreHigh if is_bare => Place::Commit,
            Place::StoreHigh => Place::StoreState,
            Place::StoreState => Place::Close,
            Place::Close => Place::Unlock,
            Place::Commit if is_bare => Place::Return,
            Place::Commit => Place::Unlock,
            Place::Unlock if is_bare => Place::StoreLow,
            Place::Unlock => Place::Return,
            _ => Place::Over,
        }
    }
}

/// What is played: what the operation does, on which chunk, and the pair that was given or loaded.
#[derive(Clone, Copy)]
pub(crate) struct Task {
    pub(crate) action: Action,
    pub(crate) chunk: u32,
    /// The lower half of the pair.
    pub(crate) low: u64,
    /// Its upper half.
    pub(crate) high: u64,
}

impl Task {
    /// What comes next at a place.
    pub(crate) fn wants(self, header: &Header, place: Place) -> Act
        requires subject { header.now.subject ≡ Cache }
        requires sound { IsSoundSomewhere header.now (rest_at header.now self place) }
        ensures { result ≡ next_act (rest_at header.now self place) }
    {
        match place {
            Place::Lock => Act::Take(lock_of(header, self.chunk)),
            Place::LoadState => Act::Load(state_cell(self.chunk)),
            Place::LoadLow => Act::Load(self.source()),
            Place::LoadHigh => Act::Load(self.source() + 1),
            Place::Open => Act::Mark(Kind::BlockOpen),
            Place::StoreLow => Act::Store(self.target(), self.low),
            Place::StoreHigh => Act::Store(self.target() + 1, self.high),
            Place::StoreState => Act::Store(state_cell(self.chunk), self.action.state_left()),
            Place::Close => Act::Mark(self.action.close()),
            Place::Commit => Act::Mark(Kind::Commit),
            Place::Unlock => Act::Give(lock_of(header, self.chunk)),
            Place::Return => Act::Mark(Kind::Return(self.reply())),
            Place::Over => Act::Done,
        }
    }

    /// What is played after an answer, and from which place on: what was loaded decides more of it.
    pub(crate) fn after(self, place: Place, answer: u64) -> (Task, Place)
        ensures { (h : Header) → rest_at h result.0 result.1
            ≡ after_answer (rest_at h self place) answer }
    {
        match place {
            Place::LoadState => self.knowing(answer),
            Place::LoadLow => (
                Task {
                    low: answer,
                    ..self
                },
                Place::LoadHigh,
            ),
            Place::LoadHigh => self.loaded(answer),
            place => (self, self.action.after(place)),
        }
    }
}

/// The words and the reply of what is played.
impl Task {
    /// The cell of the lower half that is loaded. The upper half is in the next one.
    fn source(self) -> u32
        requires { source_low self.action self.chunk < 2 ^ 32 }
        ensures { result ≡ source_low self.action self.chunk }
    {
        match self.action {
            Action::Fetch => stored_low(self.chunk),
            _ => cached_low(self.chunk),
        }
    }

    /// The cell of the lower half that is stored. The upper half is in the next one.
    fn target(self) -> u32
        requires { target_low self.action self.chunk < 2 ^ 32 }
        ensures { result ≡ target_low self.action self.chunk }
    {
        match self.action {
            Action::Flush | Action::Evict => stored_low(self.chunk),
            _ => cached_low(self.chunk),
        }
    }

    /// The reply of the operation.
    fn reply(self) -> u64
        ensures { result ≡ reply_of self.action self.low self.high }
    {
        match self.action {
            Action::Read | Action::Fetch => join(self.low, self.high),
            _ => 1,
        }
    }
}

/// What was loaded.
impl Task {
    /// The same with the action decided.
    fn doing(self, action: Action) -> Task
        ensures { result ≡ record self { action = action } }
    {
        Task { action, ..self }
    }

    /// What is played after the load of the chunk's state.
    fn knowing(self, state: u64) -> (Task, Place)
        ensures { (h : Header) → rest_at h result.0 result.1
            ≡ after_state h self self.action state }
    {
        match self.action {
            Action::LookAndWrite => {
                if state == DIRTY {
                    (self.doing(Action::BareWrite), Place::Unlock)
                } else {
                    (self.doing(Action::Write), Place::Open)
                }
            }
            Action::Flush => {
                if state == DIRTY {
                    (self, Place::LoadLow)
                } else {
                    (self, Place::Commit)
                }
            }
            Action::Evict => match state {
                DIRTY => (self, Place::LoadLow),
                ABSENT => (self, Place::Commit),
                _ => (self.doing(Action::Forget), Place::Open),
            },
            Action::Read => {
                if state == ABSENT {
                    (self.doing(Action::Fetch), Place::LoadLow)
                } else {
                    (self, Place::LoadLow)
                }
            }
            _ => (self, Place::Open),
        }
    }

    /// What is played after the load of the upper half.
    fn loaded(self, high: u64) -> (Task, Place)
        ensures { (h : Header) → rest_at h result.0 result.1
            ≡ in_order (after_loads h (record self { high = high }) self.action) }
    {
        let loaded = Task { high, ..self };
        match self.action {
            Action::Read => (loaded, Place::Unlock),
            _ => (loaded, Place::Open),
        }
    }
}

/// The low 32 bits of each half, as one number.
fn join(low: u64, high: u64) -> u64
    ensures { result ≡ joined low high }
{
    high % (1 << 32) * (1 << 32) + low % (1 << 32)
}
