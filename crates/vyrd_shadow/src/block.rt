//! What a caller's block keeps back.

ghost use Rattle.std.specs.Prelude.{◌≡◌, ℕ, ◌+◌, ◌*◌, ◌≤◌, true, List, [], ◌∷◌, ◌++◌, length, None, Some};
ghost use Rattle.std.specs.Prelude.{OnOk, OnErr, is_some, unwrap_or, slice_set, vec_len};
ghost use Rattle.std.specs.Prelude.{vec_capacity};
ghost use Rattle.std.specs.Map.{keys_of};
ghost use Rattle.vyrd_shadow.specs.Blocks.{with_writes, AreInRange, is_at};

use std::alloc::{AllocError, Global};
use std::marker::Model;
use std::sync::ledger::Ledger;
use vyrd_base::Steps;

/// For how many writes a closed block keeps its room at most. Else each caller that once had a large
/// block would keep room for as many writes as there are words.
const ROOM: usize = 1024;

/// A caller's block: nothing while it is closed, and while it is open the writes in it, each word
/// once in the order of the first writes, with its last value.
#[derive(Drop)]
pub(crate) struct Block {
    is_open: bool,
    writes: Vec<(u32, u64)>,
}

impl Model for Block {
    ghost use Rattle.std.specs.Prelude.{◌≡◌, ℕ, false, List, [], Option, Some, None, if◌then◌else◌};

    ghost Value = { Option (List (ℕ × ℕ)) };

    ghost view = { λ s. if s.is_open then Some s.writes.items else None };

    ghost invariant = { λ s. s.is_open ≡ false → s.writes.items ≡ [] };
}

impl Block {
    /// A closed block, which holds no memory.
    pub fn new(alloc: Global) -> Block
        ensures { result ≡ None }
    {
        Block {
            is_open: false,
            writes: Vec::new(alloc),
        }
    }

    /// Whether the block is open.
    #[inline(always)]
    pub fn is_open(&self) -> bool
        ensures { result ≡ is_some self.now }
    {
        self.is_open
    }

    /// How many writes the block keeps.
    #[inline(always)]
    pub fn len(&self) -> usize
        ensures { result ≡ length (unwrap_or self.now []) }
    {
        self.writes.len()
    }

    /// The block is open and keeps nothing.
    #[inline(always)]
    pub fn open(&mut self)
        requires { self.old ≡ None }
        ensures { self.new ≡ Some [] }
    {
        self.is_open = true;
    }

    /// Whether the block keeps a write to this word at this place.
    #[inline(always)]
    pub fn has(&self, place: usize, word: u32) -> bool
        ensures { result ≡ is_at place word (unwrap_or self.now []) }
    {
        place < self.writes.len() && self.writes[place].0 == word
    }

    /// The write at this place is to this word, and gives it this value from now on.
    #[inline(always)]
    pub fn replace(&mut self, place: usize, word: u32, value: u64)
        requires opened { is_some self.old ≡ true }
        requires there { is_at place word (unwrap_or self.old []) ≡ true }
        ensures { self.new ≡ Some (slice_set (unwrap_or self.old []) place (word, value)) }
    {
        self.writes[place] = (word, value);
    }

    /// Keeps one more write.
    #[inline(always)]
    pub fn push(&mut self, word: u32, value: u64) -> Result<(), AllocError>
        requires { is_some self.old ≡ true }
        ensures ok { OnOk result (self.new ≡ Some (unwrap_or self.old [] ++ (word, value) ∷ [])) }
        ensures err { OnErr result (self.new ≡ self.old) }
    {
        self.writes.push((word, value))?;
        Ok(())
    }

    /// The writes take effect in their order, and the block is closed. Each write is looked at
    /// twice, the second time when it is dropped.
    #[inline(always)]
    pub fn end<L: Ledger>(
        &mut self,
        words: &mut [u64],
        changed: &mut Vec<u32>,
        steps: &mut Steps<L>,
    )
        requires opened { is_some self.old ≡ true }
        requires in_range { AreInRange (length words.old) (unwrap_or self.old []) }
        requires room { vec_len changed.old + length (unwrap_or self.old [])
            ≤ vec_capacity changed.old }
        ensures closed { self.new ≡ None }
        ensures words { words.new ≡ with_writes words.old (unwrap_or self.old []) }
        ensures changed { changed.new.items ≡ changed.old.items ++ keys_of (unwrap_or self.old []) }
        ensures capacity { vec_capacity changed.old ≤ vec_capacity changed.new }
        ensures steps { steps.new ≡ steps.old + 2 * length (unwrap_or self.old []) }
    {
        take_effect(words, changed, &self.writes, steps);
        forget(&mut self.writes, steps);
        self.is_open = false;
    }
}

/// The writes take effect, and their words have changed.
#[inline(always)]
fn take_effect<L: Ledger>(
    words: &mut [u64],
    changed: &mut Vec<u32>,
    writes: &[(u32, u64)],
    steps: &mut Steps<L>,
)
    requires in_range { AreInRange (length words.old) writes.now }
    requires room { vec_len changed.old + length writes.now ≤ vec_capacity changed.old }
    ensures words { words.new ≡ with_writes words.old writes.now }
    ensures changed { changed.new.items ≡ changed.old.items ++ keys_of writes.now }
    ensures capacity { vec_capacity changed.new ≡ vec_capacity changed.old }
    ensures steps { steps.new ≡ steps.old + length writes.now }
{
    for (word, value) in writes {
        steps.tick();
        words[*word as usize] = *value;
        changed.push_reserved(*word);
    }
}

/// Drops the writes, with a step for each of them. Much room is given back.
#[inline(always)]
fn forget<L: Ledger>(writes: &mut Vec<(u32, u64)>, steps: &mut Steps<L>)
    ensures none { writes.new.items ≡ [] }
    ensures steps { steps.new ≡ steps.old + length writes.old.items }
{
    steps.add(writes.len());
    if writes.capacity() > ROOM {
        *writes = Vec::new(*writes.allocator());
    } else {
        writes.clear();
    }
}
