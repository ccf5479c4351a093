//! The words, and what open blocks keep back.

ghost use Rattle.std.specs.Prelude.{◌≡◌, ℕ, ◌+◌, ◌*◌, ◌<◌, ◌≤◌, ◌^◌, true, false, List, [], ◌∷◌};
ghost use Rattle.std.specs.Prelude.{◌++◌, length, replicate, Some, None, IfOk, OnOk, OnErr};
ghost use Rattle.std.specs.Prelude.{slice_index, slice_set, vec_capacity, if◌then◌else◌};
ghost use Rattle.std.specs.List.{All};
ghost use Rattle.vyrd_base.specs.declared.log.Kind.TheVariants.{Write, BlockOpen, BlockClose};
ghost use Rattle.vyrd_base.specs.declared.log.Kind.TheVariants.{BlockCommit};
ghost use Rattle.vyrd_base.specs.declared.log.Entry.{Entry};
ghost use Rattle.vyrd_base.specs.declared.log.StartWord.{StartWord};
ghost use Rattle.vyrd_base.specs.Layout.{plain_words};
ghost use Rattle.vyrd_base.specs.Shape.{broken_rule};
ghost use Rattle.vyrd_base.specs.Starts.{words_at_start};
ghost use Rattle.vyrd_shadow.specs.Blocks.{kept_count, with_kept, IsFree};
ghost use Rattle.vyrd_shadow.specs.Costs.{owed};
ghost use Rattle.vyrd_shadow.specs.Following.{ShadowKept, HasFollowed, is_open, kept_writes, words_of};

use crate::blocks::Blocks;
use std::alloc::{AllocError, Global};
use std::marker::{Brand, Model};
use std::sync::ledger::{Blank, Ledger};
use vyrd_base::{Header, Steps};

/// The plain words of a log after its writes so far, what open blocks keep back, and which words
/// have changed.
#[derive(Drop)]
pub struct Shadow {
    header: Header,
    words: Vec<u64>,
    /// By caller.
    blocks: Blocks,
    changed: Vec<u32>,
    /// How many words all blocks keep. `changed` has room for that many more.
    count: usize,
}

impl Model for Shadow {
    ghost use Rattle.std.specs.Prelude.{vec_capacity};
    ghost use Rattle.vyrd_shadow.specs.Blocks.{IsSound};
    ghost use Rattle.vyrd_shadow.specs.Following.{ShadowKept};

    ghost Value = { ShadowKept };

    ghost view = { λ s. record {
      header = s.header;
      words = s.words.items;
      blocks = s.blocks;
      changed = s.changed.items;
    } };

    ghost invariant = { λ s. IsSound s.header s.words.items s.blocks s.changed.items s.count
        (vec_capacity s.changed) };
}

impl Shadow {
    /// All words are 0, no block is open, and no word has changed. It takes memory in proportion to
    /// the words and the callers.
    pub fn new(alloc: Global, header: Header) -> Result<Shadow, AllocError>
        ensures followed { IfOk result (λ s. HasFollowed s [] []) }
        ensures header { IfOk result (λ s. s.header ≡ header) }
        ensures closed { IfOk result (λ s. (c : ℕ) → is_open s c ≡ false) }
        ensures changed { IfOk result (λ s. s.changed ≡ []) }
        ensures owed { IfOk result (λ s. owed s ≡ 0) }
    {
        let words = vec![in alloc; 0; header.plain_words() as usize]?;
        Shadow::of_words(alloc, header, words)
    }

    /// The words are these, as a log's starting words give them, no block is open, and no word has
    /// changed. It takes memory in proportion to the words and the callers.
    pub fn start_from(alloc: Global, header: Header, words: &[u64]) -> Result<Shadow, AllocError>
        requires all { length words.now ≡ plain_words header }
        requires values { (w : ℕ) → slice_index words.now w < 2 ^ 63 }
        ensures followed { (starting : List StartWord) → words.now ≡ words_at_start header starting
            → IfOk result (λ s. HasFollowed s starting []) }
        ensures words { IfOk result (λ s. s.words ≡ words.now) }
        ensures header { IfOk result (λ s. s.header ≡ header) }
        ensures closed { IfOk result (λ s. (c : ℕ) → is_open s c ≡ false) }
        ensures changed { IfOk result (λ s. s.changed ≡ []) }
        ensures owed { IfOk result (λ s. owed s ≡ 0) }
    {
        Shadow::of_words(alloc, header, words.to_vec(alloc)?)
    }

    /// The words are these, no block is open, and no word has changed.
    fn of_words(alloc: Global, header: Header, words: Vec<u64>) -> Result<Shadow, AllocError>
        requires all { length words.items ≡ plain_words header }
        requires values { (w : ℕ) → slice_index words.items w < 2 ^ 63 }
        ensures { IfOk result (λ s. s ≡ record {
          header = header;
          words = words.items;
          blocks = replicate header.callers None;
          changed = [];
        }) }
    {
        Ok(Shadow {
            header,
            words,
            blocks: Blocks::new(alloc, header.callers())?,
            changed: Vec::new(alloc),
            count: 0,
        })
    }

    /// The caller writes the value to the word. In the caller's open block the write is kept back;
    /// otherwise it takes effect, and the word has changed. Either takes constant time on average,
    /// and the room that the end of the block will need among the changed words is made here. A
    /// write that is refused for lack of memory leaves the shadow as it is.
    ///
    /// In a block, a write to a word that the open block of another caller keeps is dropped. The
    /// rules of shape refuse such a write first, so none comes from a log that keeps them.
    #[inline(always)]
    pub fn write(&mut self, caller: u32, word: u32, value: u64) -> Result<(), AllocError>
        requires caller { caller < self.old.header.callers }
        requires word { word < plain_words self.old.header }
        requires value { value < 2 ^ 63 }
        ensures followed { (starting : List StartWord) (earlier : List Entry)
            → HasFollowed self.old starting earlier
            → broken_rule self.old.header earlier
            (record { caller = caller; kind = Write word value })
            ≡ None
            → OnOk result (HasFollowed self.new starting
            (record { caller = caller; kind = Write word value } ∷ earlier)) }
        ensures blocks { (c : ℕ) → is_open self.new c ≡ is_open self.old c }
        ensures changed { OnOk result (self.new.changed ≡ (if is_open self.old caller
            then self.old.changed
            else self.old.changed ++ word ∷ [])) }
        ensures refused { OnErr result (self.new ≡ self.old) }
        ensures header { self.new.header ≡ self.old.header }
    {
        write_alone::<Brand>(Blank::new(1), self, caller, word, value)
    }

    /// The same, with its steps counted. A write is one step: in a block it looks at the one place
    /// where its word would stand. To make room, which takes no time on average, isn't counted. The
    /// block's end costs two steps for each word, and they are paid by the word's first write.
    #[inline(always)]
    pub fn write_counted<L: Ledger>(
        &mut self,
        caller: u32,
        word: u32,
        value: u64,
        steps: &mut Steps<L>,
    ) -> Result<(), AllocError>
        requires caller { caller < self.old.header.callers }
        requires word { word < plain_words self.old.header }
        requires value { value < 2 ^ 63 }
        ensures followed { (starting : List StartWord) (earlier : List Entry)
            → HasFollowed self.old starting earlier
            → broken_rule self.old.header earlier
            (record { caller = caller; kind = Write word value })
            ≡ None
            → OnOk result (HasFollowed self.new starting
            (record { caller = caller; kind = Write word value } ∷ earlier)) }
        ensures blocks { (c : ℕ) → is_open self.new c ≡ is_open self.old c }
        ensures changed { OnOk result (self.new.changed ≡ (if is_open self.old caller
            then self.old.changed
            else self.old.changed ++ word ∷ [])) }
        ensures refused { OnErr result (self.new ≡ self.old) }
        ensures header { self.new.header ≡ self.old.header }
        ensures steps { steps.new ≡ steps.old + 1 }
        ensures paid { steps.new + owed self.new ≤ steps.old + owed self.old + 4 }
    {
        steps.tick();
        if self.blocks.is_open(caller) {
            self.keep(caller, word, value)
        } else {
            self.write_through(word, value)
        }
    }

    /// The caller opens a block.
    #[inline(always)]
    pub fn open_block(&mut self, caller: u32)
        requires caller { caller < self.old.header.callers }
        requires closed { is_open self.old caller ≡ false }
        ensures followed { (starting : List StartWord) (earlier : List Entry)
            → HasFollowed self.old starting earlier
            → broken_rule self.old.header earlier (record { caller = caller; kind = BlockOpen })
            ≡ None
            → HasFollowed self.new starting
            (record { caller = caller; kind = BlockOpen } ∷ earlier) }
        ensures opened { is_open self.new caller ≡ true }
        ensures changed { self.new.changed ≡ self.old.changed }
        ensures header { self.new.header ≡ self.old.header }
    {
        open_block_alone::<Brand>(Blank::new(1), self, caller)
    }

    /// The same, with its steps counted: one.
    #[inline(always)]
    pub fn open_block_counted<L: Ledger>(&mut self, caller: u32, steps: &mut Steps<L>)
        requires caller { caller < self.old.header.callers }
        requires closed { is_open self.old caller ≡ false }
        ensures followed { (starting : List StartWord) (earlier : List Entry)
            → HasFollowed self.old starting earlier
            → broken_rule self.old.header earlier (record { caller = caller; kind = BlockOpen })
            ≡ None
            → HasFollowed self.new starting
            (record { caller = caller; kind = BlockOpen } ∷ earlier) }
        ensures opened { is_open self.new caller ≡ true }
        ensures changed { self.new.changed ≡ self.old.changed }
        ensures header { self.new.header ≡ self.old.header }
        ensures steps { steps.new ≡ steps.old + 1 }
        ensures paid { steps.new + owed self.new ≤ steps.old + owed self.old + 1 }
    {
        steps.tick();
        self.blocks.open(caller);
    }

    /// The caller's block ends, with a commit or without: the writes that it kept back take effect
    /// in their order, in time linear in the number of their words. So they do if a lone commit
    /// stood in the block. No memory is taken.
    #[inline(always)]
    pub fn close_block(&mut self, caller: u32)
        requires caller { caller < self.old.header.callers }
        requires opened { is_open self.old caller ≡ true }
        ensures closed { (starting : List StartWord) (earlier : List Entry)
            → HasFollowed self.old starting earlier
            → broken_rule self.old.header earlier (record { caller = caller; kind = BlockClose })
            ≡ None
            → HasFollowed self.new starting
            (record { caller = caller; kind = BlockClose } ∷ earlier) }
        ensures committed { (starting : List StartWord) (earlier : List Entry)
            → HasFollowed self.old starting earlier
            → broken_rule self.old.header earlier (record { caller = caller; kind = BlockCommit })
            ≡ None
            → HasFollowed self.new starting
            (record { caller = caller; kind = BlockCommit } ∷ earlier) }
        ensures changed { self.new.changed
            ≡ self.old.changed ++ words_of (kept_writes self.old caller) }
        ensures header { self.new.header ≡ self.old.header }
    {
        close_block_alone::<Brand>(Blank::new(1), self, caller)
    }

    /// The same, with its steps counted: for each word that the block kept one to write and note it,
    /// and one to drop it.
    #[inline(always)]
    pub fn close_block_counted<L: Ledger>(&mut self, caller: u32, steps: &mut Steps<L>)
        requires caller { caller < self.old.header.callers }
        requires opened { is_open self.old caller ≡ true }
        ensures closed { (starting : List StartWord) (earlier : List Entry)
            → HasFollowed self.old starting earlier
            → broken_rule self.old.header earlier (record { caller = caller; kind = BlockClose })
            ≡ None
            → HasFollowed self.new starting
            (record { caller = caller; kind = BlockClose } ∷ earlier) }
        ensures committed { (starting : List StartWord) (earlier : List Entry)
            → HasFollowed self.old starting earlier
            → broken_rule self.old.header earlier (record { caller = caller; kind = BlockCommit })
            ≡ None
            → HasFollowed self.new starting
            (record { caller = caller; kind = BlockCommit } ∷ earlier) }
        ensures changed { self.new.changed
            ≡ self.old.changed ++ words_of (kept_writes self.old caller) }
        ensures header { self.new.header ≡ self.old.header }
        ensures steps { steps.new ≡ steps.old + 2 * length (kept_writes self.old caller) + 1 }
        ensures paid { steps.new + owed self.new ≤ steps.old + owed self.old + 1 }
    {
        steps.tick();
        self.count -= self.blocks.len_of(caller);
        self.blocks
            .end(caller, &mut self.words, &mut self.changed, steps);
    }

    /// The plain words.
    #[inline(always)]
    pub fn words(&self) -> &[u64]
        ensures words { result.now ≡ self.now.words }
        ensures all { length result.now ≡ plain_words self.now.header }
        ensures values { (w : ℕ) → slice_index result.now w < 2 ^ 63 }
    {
        &self.words
    }

    /// The words that effects have touched since the last `clear_changed`, in the order of the
    /// effects: a write outside a block adds its word, and a block's end the words written in it,
    /// once each in the order of their first writes.
    #[inline(always)]
    pub fn changed(&self) -> &[u32]
        ensures changed { result.now ≡ self.now.changed }
        ensures words { All (λ w. w < plain_words self.now.header) result.now }
    {
        &self.changed
    }

    /// No word has changed from here on.
    #[inline(always)]
    pub fn clear_changed(&mut self)
        ensures changed { self.new ≡ record self.old { changed = [] } }
        ensures followed { (starting : List StartWord) (earlier : List Entry)
            → HasFollowed self.old starting earlier
            → HasFollowed self.new starting earlier }
    {
        clear_changed_alone::<Brand>(Blank::new(1), self)
    }

    /// The same, with its steps counted: one for each word that has changed.
    #[inline(always)]
    pub fn clear_changed_counted<L: Ledger>(&mut self, steps: &mut Steps<L>)
        ensures changed { self.new ≡ record self.old { changed = [] } }
        ensures followed { (starting : List StartWord) (earlier : List Entry)
            → HasFollowed self.old starting earlier
            → HasFollowed self.new starting earlier }
        ensures steps { steps.new ≡ steps.old + length self.old.changed + 1 }
        ensures paid { steps.new + owed self.new ≤ steps.old + owed self.old + 1 }
    {
        steps.tick();
        forget(&mut self.changed, steps);
    }

    /// A write outside a block takes effect.
    #[inline(always)]
    fn write_through(&mut self, word: u32, value: u64) -> Result<(), AllocError>
        requires word { word < plain_words self.old.header }
        requires value { value < 2 ^ 63 }
        ensures ok { OnOk result (self.new ≡ record self.old {
          words = slice_set self.old.words word value;
          changed = self.old.changed ++ word ∷ [];
        }) }
        ensures refused { OnErr result (self.new ≡ self.old) }
    {
        self.changed.reserve(self.count + 1)?;
        self.words[word as usize] = value;
        self.changed.push_reserved(word);
        Ok(())
    }

    /// A write in the caller's block is kept back, if no other block keeps one to its word: the rules
    /// of shape refuse such a write.
    #[inline(always)]
    fn keep(&mut self, caller: u32, word: u32, value: u64) -> Result<(), AllocError>
        requires caller { caller < self.old.header.callers }
        requires opened { is_open self.old caller ≡ true }
        requires word { word < plain_words self.old.header }
        requires value { value < 2 ^ 63 }
        ensures ok { IsFree self.old.blocks caller word → OnOk result (self.new ≡ record self.old {
          blocks = slice_set self.old.blocks caller
              (Some (with_kept (kept_writes self.old caller) word value));
        }) }
        ensures blocks { (c : ℕ) → is_open self.new c ≡ is_open self.old c }
        ensures changed { self.new.changed ≡ self.old.changed }
        ensures header { self.new.header ≡ self.old.header }
        ensures refused { OnErr result (self.new ≡ self.old) }
        ensures count { kept_count self.new.blocks ≤ kept_count self.old.blocks + 1 }
    {
        self.changed.reserve(self.count + 1)?;
        if self.blocks.is_held_elsewhere(caller, word) {
            return Ok(());
        }
        let is_new = self.blocks.keep(caller, word, value, self.words.len())?;
        if is_new {
            self.count += 1;
        }
        Ok(())
    }
}

/// Writes with a count of its own.
#[inline(always)]
fn write_alone<L: Ledger>(
    blank: Blank,
    shadow: &mut Shadow,
    caller: u32,
    word: u32,
    value: u64,
) -> Result<(), AllocError>
    requires name { blank.name ≡ L.name }
    requires parts { blank.parts ≡ L.parts }
    requires some { 0 < blank.parts }
    requires caller { caller < shadow.old.header.callers }
    requires word { word < plain_words shadow.old.header }
    requires value { value < 2 ^ 63 }
    ensures followed { (starting : List StartWord) (earlier : List Entry)
        → HasFollowed shadow.old starting earlier
        → broken_rule shadow.old.header earlier
        (record { caller = caller; kind = Write word value })
        ≡ None
        → OnOk result (HasFollowed shadow.new starting
        (record { caller = caller; kind = Write word value } ∷ earlier)) }
    ensures blocks { (c : ℕ) → is_open shadow.new c ≡ is_open shadow.old c }
    ensures changed { OnOk result (shadow.new.changed ≡ (if is_open shadow.old caller
        then shadow.old.changed
        else shadow.old.changed ++ word ∷ [])) }
    ensures refused { OnErr result (shadow.new ≡ shadow.old) }
    ensures header { shadow.new.header ≡ shadow.old.header }
{
    let mut steps = Steps::<L>::new(blank);
    shadow.write_counted(caller, word, value, &mut steps)
}

/// Opens a block with a count of its own.
#[inline(always)]
fn open_block_alone<L: Ledger>(blank: Blank, shadow: &mut Shadow, caller: u32)
    requires name { blank.name ≡ L.name }
    requires parts { blank.parts ≡ L.parts }
    requires some { 0 < blank.parts }
    requires caller { caller < shadow.old.header.callers }
    requires closed { is_open shadow.old caller ≡ false }
    ensures followed { (starting : List StartWord) (earlier : List Entry)
        → HasFollowed shadow.old starting earlier
        → broken_rule shadow.old.header earlier (record { caller = caller; kind = BlockOpen })
        ≡ None
        → HasFollowed shadow.new starting
        (record { caller = caller; kind = BlockOpen } ∷ earlier) }
    ensures opened { is_open shadow.new caller ≡ true }
    ensures changed { shadow.new.changed ≡ shadow.old.changed }
    ensures header { shadow.new.header ≡ shadow.old.header }
{
    let mut steps = Steps::<L>::new(blank);
    shadow.open_block_counted(caller, &mut steps)
}

/// Ends a block with a count of its own.
#[inline(always)]
fn close_block_alone<L: Ledger>(blank: Blank, shadow: &mut Shadow, caller: u32)
    requires name { blank.name ≡ L.name }
    requires parts { blank.parts ≡ L.parts }
    requires some { 0 < blank.parts }
    requires caller { caller < shadow.old.header.callers }
    requires opened { is_open shadow.old caller ≡ true }
    ensures closed { (starting : List StartWord) (earlier : List Entry)
        → HasFollowed shadow.old starting earlier
        → broken_rule shadow.old.header earlier (record { caller = caller; kind = BlockClose })
        ≡ None
        → HasFollowed shadow.new starting
        (record { caller = caller; kind = BlockClose } ∷ earlier) }
    ensures committed { (starting : List StartWord) (earlier : List Entry)
        → HasFollowed shadow.old starting earlier
        → broken_rule shadow.old.header earlier (record { caller = caller; kind = BlockCommit })
        ≡ None
        → HasFollowed shadow.new starting
        (record { caller = caller; kind = BlockCommit } ∷ earlier) }
    ensures changed { shadow.new.changed
        ≡ shadow.old.changed ++ words_of (kept_writes shadow.old caller) }
    ensures header { shadow.new.header ≡ shadow.old.header }
{
    let mut steps = Steps::<L>::new(blank);
    shadow.close_block_counted(caller, &mut steps)
}

/// Clears the changed words with a count of its own.
#[inline(always)]
fn clear_changed_alone<L: Ledger>(blank: Blank, shadow: &mut Shadow)
    requires name { blank.name ≡ L.name }
    requires parts { blank.parts ≡ L.parts }
    requires some { 0 < blank.parts }
    ensures changed { shadow.new ≡ record shadow.old { changed = [] } }
    ensures followed { (starting : List StartWord) (earlier : List Entry)
        → HasFollowed shadow.old starting earlier
        → HasFollowed shadow.new starting earlier }
{
    let mut steps = Steps::<L>::new(blank);
    shadow.clear_changed_counted(&mut steps)
}

/// Drops the changed words, with a step for each of them.
#[inline(always)]
fn forget<L: Ledger>(changed: &mut Vec<u32>, steps: &mut Steps<L>)
    ensures none { changed.new.items ≡ [] }
    ensures capacity { vec_capacity changed.new ≡ vec_capacity changed.old }
    ensures steps { steps.new ≡ steps.old + length changed.old.items }
{
    steps.add(changed.len());
    changed.clear();
}
