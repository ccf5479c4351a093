//! The reader of a log's text, which takes the text in pieces of any size.

ghost use Rattle.std.specs.Prelude.{◌≡◌, ◌≤◌, ℕ, List, [], ◌++◌, true, Err, OnOk, IsSome};
ghost use Rattle.vyrd_base.specs.Reading.{reading};
ghost use Rattle.vyrd_base.specs.Limits.{most_lines};
ghost use Rattle.vyrd_text.specs.Readers.{HasRead, so_far, whole};
ghost use Rattle.vyrd_text.specs.Answered.{IsAnswer, UnlessMemory, IsGrownBy};

use crate::fault::TextFault;
use crate::line_reader::LineReader;
use crate::lines::count_line_feeds;
use std::alloc::Global;
use std::marker::Model;
use vyrd_base::{Entry, Header, StartWord};

/// A reader of a log's text, which may come in pieces of any size. It keeps at most one unfinished
/// line, and the starting words.
#[derive(Drop)]
pub struct LogReader {
    lines: LineReader,
    start: Vec<StartWord>,
}

impl Model for LogReader {
    ghost use Rattle.vyrd_text.specs.Readers.{ReaderState};

    ghost Value = { ReaderState };

    ghost use Rattle.vyrd_text.specs.LogView.{reader_of};

    ghost view = { reader_of };
}

impl LogReader {
    /// A reader that has been fed nothing. A text with more than `max_lines` lines breaks a rule;
    /// `max_lines` is from 1 to 268,435,456. It takes no memory yet.
    pub fn new(alloc: Global, max_lines: u64) -> LogReader
        requires low { 1 ≤ max_lines }
        requires high { max_lines ≤ most_lines }
        ensures read { HasRead result [] }
        ensures limit { result.max_lines ≡ max_lines }
    {
        LogReader {
            lines: LineReader::new(max_lines),
            start: Vec::new(alloc),
        }
    }

    /// Takes in the next piece of the text, and appends the entries of the lines that are whole by
    /// now.
    ///
    /// `Malformed` comes if the bytes so far hold a line that breaks a rule of text; what was read
    /// before that line was appended, and from then on every call answers the same and appends
    /// nothing. `Memory` leaves the reader, its starting words and the entries unchanged. The time
    /// grows with the piece, whatever came before it; the memory is that of the starting words and
    /// the entries.
    pub fn feed(&mut self, piece: &[u8], out: &mut Vec<Entry>) -> Result<(), TextFault>
        ensures limit { self.new.max_lines ≡ self.old.max_lines }
        ensures read { (bytes : List ℕ) → HasRead self.old bytes
            → UnlessMemory result (HasRead self.new (bytes ++ piece.now)) }
        ensures start { (bytes : List ℕ) → HasRead self.old bytes → UnlessMemory result
            (self.new.start ≡ (reading (so_far self.old) (bytes ++ piece.now)).starting) }
        ensures entries { (bytes : List ℕ) → HasRead self.old bytes
            → UnlessMemory result (IsGrownBy out.old.items (reading (so_far self.old) bytes).entries
            out.new.items (reading (so_far self.old) (bytes ++ piece.now)).entries) }
        ensures answer { (bytes : List ℕ) → HasRead self.old bytes → UnlessMemory result
            (IsAnswer result (reading (so_far self.old) (bytes ++ piece.now)).fault) }
        ensures stopped { IsSome self.old.fault
            → (self.new ≡ self.old) × (out.new.items ≡ out.old.items)
            × IsAnswer result self.old.fault }
        ensures memory_leaves_reader { result ≡ Err TextFault.Memory → self.new ≡ self.old }
        ensures memory_leaves_entries { result ≡ Err TextFault.Memory
            → out.new.items ≡ out.old.items }
    {
        if self.lines.is_at_fault() {
            return self.lines.answer();
        }
        if out.reserve(count_line_feeds(piece)).is_err() {
            return Err(TextFault::Memory);
        }
        let starts = self.lines.most_starts(piece);
        if self.start.reserve(starts).is_err() {
            return Err(TextFault::Memory);
        }
        self.lines.take_piece(piece, &mut self.start, out);
        self.lines.answer()
    }

    /// The answer about the text, if it ends here. It changes nothing and takes no memory.
    ///
    /// `Ok` if the bytes so far are a whole log's text, and otherwise the first fault of text, also
    /// `NoLineFeed` for an unfinished last line and `NoEnd`.
    pub fn finish(&self) -> Result<(), TextFault>
        ensures answer { (bytes : List ℕ) → HasRead self.now bytes
            → IsAnswer result (reading (whole self.now) bytes).fault }
        ensures ended { (bytes : List ℕ) → HasRead self.now bytes
            → OnOk result ((reading (whole self.now) bytes).ended ≡ true) }
    {
        self.lines.finish()
    }

    /// The log's header, once its line was read whole and broke no rule of text.
    pub fn header(&self) -> Option<Header>
        ensures kept { result ≡ self.now.header }
        ensures read { (bytes : List ℕ) → HasRead self.now bytes
            → result ≡ (reading (so_far self.now) bytes).header }
    {
        self.lines.header()
    }

    /// The starting words that were read so far, in their order. They are all of the log's once an
    /// entry or `end` was read. It takes no memory.
    pub fn start(&self) -> &[StartWord]
        ensures kept { result.now ≡ self.now.start }
        ensures read { (bytes : List ℕ) → HasRead self.now bytes
            → result.now ≡ (reading (so_far self.now) bytes).starting }
    {
        &self.start
    }

    /// Whether the line `end` was read.
    pub fn ended(&self) -> bool
        ensures kept { result ≡ self.now.ended }
        ensures read { (bytes : List ℕ) → HasRead self.now bytes
            → result ≡ (reading (so_far self.now) bytes).ended }
    {
        self.lines.ended()
    }
}
