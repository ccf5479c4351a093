//! The blocks of all callers, and which of them keeps a write to a word.

ghost use Rattle.std.specs.Prelude.{◌≡◌, ℕ, ◌+◌, ◌*◌, ◌<◌, ◌≤◌, true, false, List, [], ◌∷◌, ◌++◌};
ghost use Rattle.std.specs.Prelude.{length, replicate, Some, None, IfOk, OnOk, OnErr, is_some};
ghost use Rattle.std.specs.Prelude.{slice_set, slice_index_or, unwrap_or, vec_len, vec_capacity};
ghost use Rattle.std.specs.Prelude.{if◌then◌else◌};
ghost use Rattle.std.specs.Map.{keys_of};
ghost use Rattle.vyrd_shadow.specs.Blocks.{with_writes, with_kept, AreInRange, is_at, kept_by, IsFree};

use crate::block::Block;
use std::alloc::{AllocError, Global};
use std::marker::Model;
use std::sync::ledger::Ledger;
use vyrd_base::Steps;

/// By caller, what its block keeps back. No two blocks keep a write to one word.
#[derive(Drop)]
pub(crate) struct Blocks {
    blocks: Vec<Block>,
    /// By word: the caller whose block took a write to it last, and at which place. So the write
    /// stands there, if the word is kept at all. There are none before the first write is kept.
    holders: Vec<(u32, usize)>,
}

impl Model for Blocks {
    ghost use Rattle.std.specs.Prelude.{ℕ, List, Option};
    ghost use Rattle.vyrd_shadow.specs.Blocks.{ArePlaced};

    ghost Value = { List (Option (List (ℕ × ℕ))) };

    ghost view = { λ s. s.blocks.items };

    ghost invariant = { λ s. ArePlaced s.blocks.items s.holders.items };
}

impl Blocks {
    /// A closed block for each caller.
    pub fn new(alloc: Global, callers: u32) -> Result<Blocks, AllocError>
        ensures { IfOk result (λ blocks. blocks ≡ replicate callers None) }
    {
        Ok(Blocks {
            blocks: closed_blocks(alloc, callers)?,
            holders: Vec::new(alloc),
        })
    }

    /// Whether the caller's block is open.
    #[inline(always)]
    pub fn is_open(&self, caller: u32) -> bool
        requires { caller < length self.now }
        ensures { result ≡ is_some (slice_index_or self.now caller None) }
    {
        self.blocks[caller as usize].is_open()
    }

    /// How many writes the caller's block keeps.
    #[inline(always)]
    pub fn len_of(&self, caller: u32) -> usize
        requires { caller < length self.now }
        ensures { result ≡ length (kept_by self.now caller) }
    {
        self.blocks[caller as usize].len()
    }

    /// The caller's block is open and keeps nothing.
    #[inline(always)]
    pub fn open(&mut self, caller: u32)
        requires caller { caller < length self.old }
        requires closed { slice_index_or self.old caller None ≡ None }
        ensures { self.new ≡ slice_set self.old caller (Some []) }
    {
        self.blocks[caller as usize].open();
    }

    /// Whether the block of another caller keeps a write to the word.
    #[inline(always)]
    pub fn is_held_elsewhere(&self, caller: u32, word: u32) -> bool
        ensures held { result ≡ true → IsFree self.now caller word → ⊥ }
        ensures free { result ≡ false → IsFree self.now caller word }
    {
        let (holder, place) = holder_of(&self.holders, word);
        holder != caller && has_at(&self.blocks, holder, place, word)
    }

    /// The caller's block keeps a write to a word, of `all` words, that no other block keeps. Says
    /// whether the word is new in the block.
    #[inline(always)]
    pub fn keep(
        &mut self,
        caller: u32,
        word: u32,
        value: u64,
        all: usize,
    ) -> Result<bool, AllocError>
        requires caller { caller < length self.old }
        requires opened { is_some (slice_index_or self.old caller None) ≡ true }
        requires free { IsFree self.old caller word }
        requires word { word < all }
        ensures ok { OnOk result (self.new
            ≡ slice_set self.old caller (Some (with_kept (kept_by self.old caller) word value))) }
        ensures err { OnErr result (self.new ≡ self.old) }
        ensures more { IfOk result (λ more. length (with_kept (kept_by self.old caller) word value)
            ≡ length (kept_by self.old caller) + (if more then 1 else 0)) }
    {
        let (_, place) = holder_of(&self.holders, word);
        if has_at(&self.blocks, caller, place, word) {
            self.blocks[caller as usize].replace(place, word, value);
            return Ok(false);
        }
        self.push(caller, word, value, all)?;
        Ok(true)
    }

    /// The caller's block keeps a write to a word, of `all` words, that no block keeps.
    #[inline(always)]
    fn push(&mut self, caller: u32, word: u32, value: u64, all: usize) -> Result<(), AllocError>
        requires caller { caller < length self.old }
        requires opened { is_some (slice_index_or self.old caller None) ≡ true }
        requires new { (c i : ℕ) → is_at i word (kept_by self.old c) ≡ false }
        requires word { word < all }
        ensures ok { OnOk result (self.new ≡ slice_set self.old caller
            (Some (kept_by self.old caller ++ (word, value) ∷ []))) }
        ensures err { OnErr result (self.new ≡ self.old) }
    {
        reach(&mut self.holders, word, all)?;
        let block = &mut self.blocks[caller as usize];
        let place = block.len();
        block.push(word, value)?;
        self.holders[word as usize] = (caller, place);
        Ok(())
    }

    /// The writes of the caller's block take effect in their order, and it is closed.
    #[inline(always)]
    pub fn end<L: Ledger>(
        &mut self,
        caller: u32,
        words: &mut [u64],
        changed: &mut Vec<u32>,
        steps: &mut Steps<L>,
    )
        requires caller { caller < length self.old }
        requires opened { is_some (slice_index_or self.old caller None) ≡ true }
        requires in_range { AreInRange (length words.old) (kept_by self.old caller) }
        requires room { vec_len changed.old + length (kept_by self.old caller)
            ≤ vec_capacity changed.old }
        ensures closed { self.new ≡ slice_set self.old caller None }
        ensures words { words.new ≡ with_writes words.old (kept_by self.old caller) }
        ensures changed { changed.new.items ≡ changed.old.items ++ keys_of (kept_by self.old caller) }
        ensures capacity { vec_capacity changed.old ≤ vec_capacity changed.new }
        ensures steps { steps.new ≡ steps.old + 2 * length (kept_by self.old caller) }
    {
        self.blocks[caller as usize].end(words, changed, steps);
    }
}

/// The caller whose block took a write to the word last, and at which place.
#[inline(always)]
fn holder_of(holders: &[(u32, usize)], word: u32) -> (u32, usize)
    ensures { result ≡ slice_index_or holders.now word (0, 0) }
{
    match holders.get(word as usize) {
        Some(holder) => *holder,
        None => (0, 0),
    }
}

/// There is a place for the holder of this word, and of each of `all` words.
#[inline(always)]
fn reach(holders: &mut Vec<(u32, usize)>, word: u32, all: usize) -> Result<(), AllocError>
    requires word { word < all }
    ensures reached { OnOk result (word < length holders.new.items) }
    ensures same { (w : ℕ) → slice_index_or holders.new.items w (0, 0)
        ≡ slice_index_or holders.old.items w (0, 0) }
{
    if word as usize >= holders.len() {
        holders.resize(all, (0, 0))?;
    }
    Ok(())
}

/// Whether the caller's block keeps a write to this word at this place.
#[inline(always)]
fn has_at(blocks: &[Block], caller: u32, place: usize, word: u32) -> bool
    ensures { result ≡ is_at place word (kept_by blocks.now caller) }
{
    match blocks.get(caller as usize) {
        Some(block) => block.has(place, word),
        None => false,
    }
}

/// A closed block for each caller.
fn closed_blocks(alloc: Global, callers: u32) -> Result<Vec<Block>, AllocError>
    ensures { IfOk result (λ blocks. blocks.items ≡ replicate callers None) }
{
    let mut blocks = Vec::with_capacity(alloc, callers as usize)?;
    for _ in 0..callers {
        blocks.push(Block::new(alloc))?;
    }
    Ok(blocks)
}
