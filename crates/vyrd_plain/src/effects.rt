//! The words at a place of a front, as the effects of the writes before it leave them.

ghost use Rattle.std.specs.Prelude.{◌≡◌, ◌<◌, ◌≤◌, ◌+◌, ℕ, List, [], ◌++◌, length, take, drop};
ghost use Rattle.std.specs.Prelude.{replicate, Option, Some, None, IfOk, IfSome, option_map};
ghost use Rattle.std.specs.Prelude.{slice_get, vec_len};
ghost use Rattle.vyrd_base.specs.declared.log.Entry.{Entry};
ghost use Rattle.vyrd_base.specs.Places.{newest_first};
ghost use Rattle.vyrd_base.specs.Front.{first_break};
ghost use Rattle.vyrd_base.specs.Layout.{plain_words};
ghost use Rattle.vyrd_base.specs.Words.{effects_at, words_with, writes_ahead};
ghost use Rattle.vyrd_plain.specs.OpenBlocks.{writes_in, block_after};

use crate::front::entry_at;
use std::alloc::{AllocError, Global};
use vyrd_base::{Entry, Header, Kind};

/// The open block of a caller.
#[derive(Clone, Copy)]
pub(crate) struct Block {
    /// The position of its open.
    pub opened: usize,
    /// Whether a lone commit stands in it.
    pub has_commit: bool,
}

/// The plain words at a place of a front, and each caller's open block.
///
/// Nothing is kept of what a block writes: its writes are looked up in the front where they take
/// effect. That is the lone commit inside the block, if there is one, so that the judge looks ahead
/// from there up to the block's end; and otherwise the end. A block that doesn't end has no effect.
#[derive(Drop)]
pub(crate) struct Effects {
    pub header: Header,
    pub words: Vec<u64>,
    /// By caller. `None` if a caller has no open block.
    pub open_blocks: Vec<Option<Block>>,
    ghost all_words: { vec_len words ≡ plain_words header },
    ghost all_callers: { vec_len open_blocks ≡ header.callers },
}

impl Effects {
    ghost use Rattle.vyrd_plain.specs.OpenBlocks.{IsOpenBlock, IsBlockOf, HasEffects};

    /// The place before the first entry: all words are 0.
    pub fn new(alloc: Global, header: Header) -> Result<Effects, AllocError>
        ensures header { IfOk result (λ e. e.header ≡ header) }
        ensures words { IfOk result (λ e. e.words.items ≡ replicate (plain_words header) 0) }
        ensures open_blocks { IfOk result
            (λ e. e.open_blocks.items ≡ replicate header.callers None) }
    {
        Ok(Effects {
            header,
            words: vec![in alloc; 0; header.plain_words() as usize]?,
            open_blocks: vec![in alloc; None; header.callers() as usize]?,
        })
    }

    /// Goes over the entry at a place of a front that keeps all rules, where these are the words
    /// and the blocks there. Then they are those at the next place. The writes of each block are
    /// looked up once, from its open to its end.
    pub fn step(&mut self, front: &[Entry], at: usize)
        requires within { at < length front.now }
        requires kept { first_break self.old.header front.now ≡ None }
        requires here { HasEffects self.old.header self.old.words.items self.old.open_blocks.items
            (take at front.now) (drop at front.now) }
        ensures next { HasEffects self.old.header self.new.words.items self.new.open_blocks.items
            (take (at + 1) front.now) (drop (at + 1) front.now) }
        ensures header { self.new.header ≡ self.old.header }
    {
        let entry = entry_at(front, at);
        let block = self.block_of(entry.caller);
        self.take_effect(front, at, block);
        self.open_blocks[entry.caller as usize] = block_after(block, entry.kind, at);
    }

    /// The plain words.
    pub fn words(&self) -> &[u64]
        ensures { result.now ≡ self.now.words.items }
    {
        &self.words
    }

    /// The caller's open block, if it has one.
    fn block_of(&self, caller: u32) -> Option<Block>
        requires { caller < self.now.header.callers }
        ensures { slice_get self.now.open_blocks.items caller ≡ Some result }
    {
        self.open_blocks
            .as_slice()
            .get(caller as usize)
            .copied()
            .unwrap()
    }

    /// The writes take effect that do so at the entry at a place. Its caller has this block before
    /// it. Outside a block a write does so at once.
    fn take_effect(&mut self, front: &[Entry], at: usize, block: Option<Block>)
        requires within { at < length front.now }
        requires kept { first_break self.old.header front.now ≡ None }
        requires block { (e : Entry) → slice_get front.now at ≡ Some e
            → IsBlockOf (take at front.now) e.caller block }
        ensures words { (e : Entry) (before : List (ℕ × ℕ)) → slice_get front.now at ≡ Some e
            → self.old.words.items ≡ words_with self.old.header [] before
            → self.new.words.items ≡ words_with self.old.header []
            (effects_at (newest_first (take at front.now)) e.caller e.kind (drop (at + 1) front.now)
            ++ before) }
        ensures open_blocks { self.new.open_blocks ≡ self.old.open_blocks }
        ensures header { self.new.header ≡ self.old.header }
    {
        match block {
            Some(block) => self.take_effect_of(block, front, at),
            None => {
                if let Kind::Write(word, value) = entry_at(front, at).kind {
                    self.words[word as usize] = value;
                }
            }
        }
    }

    /// The same if the caller has an open block. Its writes take effect at a lone commit, those
    /// that are still to come too, and otherwise at its end.
    fn take_effect_of(&mut self, block: Block, front: &[Entry], at: usize)
        requires within { at < length front.now }
        requires kept { first_break self.old.header front.now ≡ None }
        requires block { (e : Entry) → slice_get front.now at ≡ Some e
            → IsOpenBlock (take at front.now) e.caller block }
        ensures words { (e : Entry) (before : List (ℕ × ℕ)) → slice_get front.now at ≡ Some e
            → self.old.words.items ≡ words_with self.old.header [] before
            → self.new.words.items ≡ words_with self.old.header []
            (effects_at (newest_first (take at front.now)) e.caller e.kind (drop (at + 1) front.now)
            ++ before) }
        ensures open_blocks { self.new.open_blocks ≡ self.old.open_blocks }
        ensures header { self.new.header ≡ self.old.header }
    {
        let entry = entry_at(front, at);
        match entry.kind {
            Kind::Commit => {
                let (_, later) = front.split_at(at + 1);
                if let Some(len) = len_to_end(entry.caller, later) {
                    self.write_all(entry.caller, front, block.opened, at + 1 + len);
                }
            }
            Kind::BlockClose | Kind::BlockCommit => {
                if !block.has_commit {
                    self.write_all(entry.caller, front, block.opened, at);
                }
            }
            _ => {}
        }
    }

    /// The writes of the caller from one place to another take effect, in their order.
    fn write_all(&mut self, caller: u32, front: &[Entry], from: usize, to: usize)
        requires order { from ≤ to }
        requires within { to ≤ length front.now }
        requires kept { first_break self.old.header front.now ≡ None }
        ensures words { (before : List (ℕ × ℕ))
            → self.old.words.items ≡ words_with self.old.header [] before
            → self.new.words.items ≡ words_with self.old.header []
            (writes_in caller (drop from (take to front.now)) ++ before) }
        ensures open_blocks { self.new.open_blocks ≡ self.old.open_blocks }
        ensures header { self.new.header ≡ self.old.header }
    {
        for at in from..to {
            let entry = entry_at(front, at);
            if entry.caller == caller {
                if let Kind::Write(word, value) = entry.kind {
                    self.words[word as usize] = value;
                }
            }
        }
    }
}

/// How many entries stand before the end of the caller's open block, `None` if it doesn't end. It
/// looks no further than that end, and no further than the caller's next return.
fn len_to_end(caller: u32, later: &[Entry]) -> Option<usize>
    ensures within { IfSome result (λ len. len < length later.now) }
    ensures writes { writes_ahead caller later.now
        ≡ option_map (λ len. writes_in caller (take len later.now)) result }
{
    for (i, entry) in later.iter().enumerate() {
        if entry.caller == caller {
            match entry.kind {
                Kind::BlockClose | Kind::BlockCommit => return Some(i),
                Kind::Return(_) => return None,
                _ => {}
            }
        }
    }
    None
}

/// The block of an entry's caller after the entry, which stands at this place.
fn block_after(block: Option<Block>, kind: Kind, at: usize) -> Option<Block>
    ensures { result ≡ block_after at kind block }
{
    match kind {
        Kind::BlockOpen => Some(Block {
            opened: at,
            has_commit: false,
        }),
        Kind::BlockClose | Kind::BlockCommit => None,
        Kind::Commit => {
            let opened = block?.opened;
            Some(Block {
                opened,
                has_commit: true,
            })
        }
        _ => block,
    }
}
