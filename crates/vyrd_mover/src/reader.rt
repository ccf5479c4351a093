//! The reader of a history's text, which takes the text in pieces of any size.

ghost use Rattle.std.specs.Prelude.{◌≡◌, ℕ, ◌≤◌, ◌∷◌, ◌++◌, List, [], length, Ok, true, IfOk};
ghost use Rattle.std.specs.Prelude.{IfErr};
ghost use Rattle.vyrd_base.specs.Histories.{cells_of};
ghost use Rattle.vyrd_text.specs.Steps.{is_one_line};
ghost use Rattle.vyrd_mover.specs.declared.blocks.Blocks.TheVariants.{Reducible};
ghost use Rattle.vyrd_mover.specs.Gathering.{EachIsGathered};
ghost use Rattle.vyrd_mover.specs.HistoryText.{Recorded};
ghost use Rattle.vyrd_mover.specs.HistoryReading.{history_reading};
ghost use Rattle.vyrd_mover.specs.EventsRead.{AreBlocksOf};
ghost use Rattle.vyrd_mover.specs.HistoryReaders.{HasRead, IsFedTo};
ghost use Rattle.vyrd_mover.specs.Refusals.{IsRefusal};

use crate::blocks::Blocks;
use crate::fault::HistoryFault;
use crate::lines::{LONGEST, Lines};
use std::alloc::Global;
use std::marker::Model;
use std::mem;
use vyrd_text::{LineBuffer, split_line};

/// Reads the text of a history, which may come in pieces of any size, and says then whether the
/// history's blocks are reducible.
///
/// It keeps at most one unfinished line, of at most 64 bytes, and what a
/// [`BlockChecker`](crate::BlockChecker) keeps. Once the text is refused, or memory has run out, it
/// reads nothing more and takes no more memory.
#[derive(Drop)]
pub struct HistoryReader {
    alloc: Global,
    lines: Lines,
    unfinished: LineBuffer,
}

impl Model for HistoryReader {
    ghost use Rattle.vyrd_mover.specs.HistoryReaders.{ReaderState, HasReadSome};

    ghost Value = { ReaderState };

    ghost view = { λ r. record { lines = r.lines; unfinished = r.unfinished } };

    ghost invariant = { λ r.
        HasReadSome (record { lines = r.lines; unfinished = r.unfinished }) };
}

impl HistoryReader {
    /// Nothing was read. It takes no memory yet.
    pub fn new(alloc: Global) -> HistoryReader
        ensures { HasRead result [] }
    {
        HistoryReader {
            alloc,
            lines: Lines::new(),
            unfinished: LineBuffer::new(),
        }
    }

    /// Takes in the next piece of the text. What is wrong with it is said by `finish`. The time
    /// grows with the piece. Once the text is refused, or memory has run out, a piece is passed
    /// over unread, whatever its length.
    pub fn feed(&mut self, piece: &[u8])
        ensures { (bytes : List ℕ) → HasRead self.old bytes
            → HasRead self.new (bytes ++ piece.now) }
    {
        if self.lines.is_at_fault() {
            self.unfinished.clear();
            return;
        }
        let mut rest = self.take_events(piece);
        while let Some((line, next)) = split_line(rest) {
            self.end_line(line);
            rest = self.take_events(next);
        }
        self.put(rest);
    }

    /// What is said of the blocks of the history that all bytes say, if the text ends here.
    ///
    /// `Refused` comes exactly when they aren't the text of a legal history, of at most 4,000,000
    /// lines, in which each caller's blocks are opened and ended in turn. It has the first bad line
    /// and the first rule that it breaks. `Memory` says that memory ran out, now or before, and
    /// nothing of the bytes.
    pub fn finish(&self) -> Result<Blocks, HistoryFault>
        ensures said { (bytes : List ℕ) → HasRead self.now bytes
            → IfOk result (AreBlocksOf (history_reading bytes)) }
        ensures gathered { (bytes : List ℕ) (r : Recorded) (n : ℕ) → HasRead self.now bytes
            → history_reading bytes ≡ Ok r → result ≡ Ok (Reducible n)
            → EachIsGathered (cells_of r.header) r.history }
        ensures refused { (bytes : List ℕ) → HasRead self.now bytes
            → IfErr result (λ fault. IsRefusal fault (history_reading bytes)) }
    {
        self.lines.finish(self.unfinished.as_slice())
    }

    /// Takes in the events that lie whole at the front of the text, if no line is unfinished, and
    /// answers what stands after them.
    fn take_events<'a>(&mut self, text: &'a [u8]) -> &'a [u8]
        ensures fed { (bytes : List ℕ) → HasRead self.old bytes
            → IsFedTo self.new bytes text.now result.now }
        ensures shorter { length result.now ≤ length text.now }
    {
        if !self.unfinished.is_empty() {
            return text;
        }
        self.lines.take_events(text)
    }

    /// Takes in the bytes before a line feed, and that line feed.
    fn end_line(&mut self, line: &[u8])
        requires { is_one_line line.now ≡ true }
        ensures { (bytes : List ℕ) → HasRead self.old bytes
            → HasRead self.new (bytes ++ (line.now ++ 10 ∷ [])) }
    {
        if self.unfinished.is_empty() {
            self.lines.take_line(self.alloc, line);
            return;
        }
        self.put(line);
        let whole = mem::replace(&mut self.unfinished, LineBuffer::new());
        self.lines.take_line(self.alloc, whole.as_slice());
    }

    /// Takes in bytes without a line feed.
    fn put(&mut self, bytes: &[u8])
        requires { is_one_line bytes.now ≡ true }
        ensures { (before : List ℕ) → HasRead self.old before
            → HasRead self.new (before ++ bytes.now) }
    {
        if self.lines.is_at_fault() {
            self.unfinished.clear();
            return;
        }
        if self.unfinished.len() + bytes.len() > LONGEST {
            self.lines.break_long_line();
            self.unfinished.clear();
            return;
        }
        self.unfinished.push(bytes);
    }
}

/// What is said of the blocks of the history that the bytes say.
///
/// The errors, the time and the memory are those of a [`HistoryReader`].
pub fn read_blocks(alloc: Global, bytes: &[u8]) -> Result<Blocks, HistoryFault>
    ensures said { IfOk result (AreBlocksOf (history_reading bytes.now)) }
    ensures gathered { (r : Recorded) (n : ℕ) → history_reading bytes.now ≡ Ok r
        → result ≡ Ok (Reducible n) → EachIsGathered (cells_of r.header) r.history }
    ensures refused { IfErr result (λ fault. IsRefusal fault (history_reading bytes.now)) }
{
    let mut reader = HistoryReader::new(alloc);
    reader.feed(bytes);
    reader.finish()
}
