//! The reader of a log of version 3, which takes its text in pieces of any size.

ghost use Rattle.std.specs.Prelude.{◌≡◌, ◌≤◌, ℕ, List, [], ◌++◌, true, false, Err, OnOk, IsSome};
ghost use Rattle.vyrd_base.specs.Own.Log.{own_reading};
ghost use Rattle.vyrd_base.specs.Own.Reader.{written_in};
ghost use Rattle.vyrd_base.specs.Limits.{most_lines};
ghost use Rattle.vyrd_own.specs.Layout.{texts, written};
ghost use Rattle.vyrd_text.specs.Answered.{IsAnswer, UnlessMemory};
ghost use Rattle.vyrd_own_log.specs.States.{header_at, has_ended};
ghost use Rattle.vyrd_own_log.specs.Readers.{HasRead, IsSafe, so_far, whole, IsGrownBy};
ghost use Rattle.vyrd_own_log.specs.KeptView.{kept_of};

use crate::piece_reader::PieceReader;
use std::alloc::Global;
use vyrd_base::{Entry, Header, StartWord};
use vyrd_own::Program;
use vyrd_text::TextFault;

/// A reader of a log of version 3, whose text may come in pieces of any size. It keeps the
/// specification and its lines, the starting words and at most one unfinished line. Once `feed` has
/// found no memory, it and `finish` say so from then on.
#[derive(Drop)]
pub struct OwnLogReader {
    kept: PieceReader,
    has_failed: bool,
    ghost safe: { IsSafe (kept_of kept) },
}

impl OwnLogReader {
    ghost use Rattle.vyrd_own_log.specs.ReaderView.{state_in};

    /// A reader that has been fed nothing. A text with more than `max_lines` lines breaks a rule;
    /// `max_lines` is from 1 to 268,435,456. It takes no memory yet.
    pub fn new(alloc: Global, max_lines: u64) -> OwnLogReader
        requires low { 1 ≤ max_lines }
        requires high { max_lines ≤ most_lines }
        ensures read { HasRead (state_in result) [] }
        ensures limit { (state_in result).kept.lines.max_lines ≡ max_lines }
    {
        OwnLogReader {
            kept: PieceReader::new(alloc, max_lines),
            has_failed: false,
        }
    }

    /// Takes in the next piece of the text, and appends the entries of the lines that are whole by
    /// now. To `numbers` it appends the numbers of the lines, from 1 on, of starting words, of
    /// entries and of `end`, in the order in which they stand.
    ///
    /// `Malformed` comes if the bytes so far hold a line that breaks a rule of text; what was read
    /// before that line was appended, and from then on every call answers the same and appends
    /// nothing. After `Memory` nothing is said of what was appended, and every call answers it. The
    /// time grows with the piece, whatever came before it; the memory is that of the specification,
    /// the starting words, the entries and the numbers.
    pub fn feed(
        &mut self,
        piece: &[u8],
        out: &mut Vec<Entry>,
        numbers: &mut Vec<u64>,
    ) -> Result<(), TextFault>
        ensures limit { (state_in self.new).kept.lines.max_lines
            ≡ (state_in self.old).kept.lines.max_lines }
        ensures read { (bytes : List ℕ) → HasRead (state_in self.old) bytes
            → UnlessMemory result (HasRead (state_in self.new) (bytes ++ piece.now)) }
        ensures entries { (bytes : List ℕ) → HasRead (state_in self.old) bytes
            → UnlessMemory result (IsGrownBy
            out.old.items (own_reading (so_far (state_in self.old)) bytes).entries
            out.new.items (own_reading (so_far (state_in self.old)) (bytes ++ piece.now)).entries) }
        ensures numbers { (bytes : List ℕ) → HasRead (state_in self.old) bytes
            → UnlessMemory result (IsGrownBy
            numbers.old.items (own_reading (so_far (state_in self.old)) bytes).numbers
            numbers.new.items
            (own_reading (so_far (state_in self.old)) (bytes ++ piece.now)).numbers) }
        ensures answer { (bytes : List ℕ) → HasRead (state_in self.old) bytes
            → UnlessMemory result (IsAnswer result
            (own_reading (so_far (state_in self.old)) (bytes ++ piece.now)).fault) }
        ensures stopped { (state_in self.old).has_failed ≡ false
            → IsSome (state_in self.old).kept.lines.fault
            → (state_in self.new ≡ state_in self.old) × (out.new.items ≡ out.old.items)
            × (numbers.new.items ≡ numbers.old.items)
            × IsAnswer result (state_in self.old).kept.lines.fault }
        ensures fails { result ≡ Err TextFault.Memory → (state_in self.new).has_failed ≡ true }
        ensures fails_again { (state_in self.old).has_failed ≡ true
            → result ≡ Err TextFault.Memory }
    {
        if self.has_failed {
            return Err(TextFault::Memory);
        }
        if self.kept.lines.fault.is_some() {
            return self.kept.lines.answer();
        }
        if self.kept.take_piece(piece, out, numbers).is_err() {
            self.has_failed = true;
            return Err(TextFault::Memory);
        }
        self.kept.lines.answer()
    }

    /// The answer about the text, if it ends here. It changes nothing and takes no memory.
    ///
    /// `Ok` if the bytes so far are a whole log's text, and otherwise the first fault of text, also
    /// `NoLineFeed` for an unfinished last line and `NoEnd`. All else is the same for the whole
    /// input as for bytes that may go on.
    pub fn finish(&self) -> Result<(), TextFault>
        ensures answer { (bytes : List ℕ) → HasRead (state_in self.now) bytes
            → IsAnswer result (own_reading (whole (state_in self.now)) bytes).fault }
        ensures ended { (bytes : List ℕ) → HasRead (state_in self.now) bytes
            → OnOk result ((own_reading (whole (state_in self.now)) bytes).ended ≡ true) }
        ensures alike { (bytes : List ℕ) → HasRead (state_in self.now) bytes
            → own_reading (whole (state_in self.now)) bytes
            ≡ record (own_reading (so_far (state_in self.now)) bytes)
            { fault = (own_reading (whole (state_in self.now)) bytes).fault } }
        ensures fails { (state_in self.now).has_failed ≡ true → result ≡ Err TextFault.Memory }
    {
        if self.has_failed {
            return Err(TextFault::Memory);
        }
        self.kept.finish()
    }

    /// The log's header, once its line was read whole and broke no rule of text.
    pub fn header(&self) -> Option<Header>
        ensures kept { result ≡ header_at (state_in self.now).kept.lines.stage }
        ensures read { (bytes : List ℕ) → HasRead (state_in self.now) bytes
            → result ≡ (own_reading (so_far (state_in self.now)) bytes).header }
    {
        self.kept.lines.header()
    }

    /// The specification as far as it was read, which is all of it once a starting word, an entry
    /// or `end` was.
    pub fn program(&self) -> &Program
        ensures kept { written result.now ≡ (state_in self.now).kept.lines.said.specification }
        ensures read { (bytes : List ℕ) → HasRead (state_in self.now) bytes → written result.now
            ≡ written_in (own_reading (so_far (state_in self.now)) bytes).lines }
    {
        &self.kept.lines.specification.program
    }

    /// The lines of the specification that were read so far, in their order and without their line
    /// feeds. They are all of it once a starting word, an entry or `end` was read: at most 1,000
    /// lines of at most 200 bytes.
    pub fn lines(&self) -> &[Vec<u8>]
        ensures kept { texts result.now ≡ (state_in self.now).kept.specified }
        ensures read { (bytes : List ℕ) → HasRead (state_in self.now) bytes
            → texts result.now ≡ (own_reading (so_far (state_in self.now)) bytes).lines }
    {
        &self.kept.specified
    }

    /// The starting words that were read so far, in their order. They are all of the log's once an
    /// entry or `end` was read.
    pub fn start(&self) -> &[StartWord]
        ensures kept { result.now ≡ (state_in self.now).kept.start }
        ensures read { (bytes : List ℕ) → HasRead (state_in self.now) bytes
            → result.now ≡ (own_reading (so_far (state_in self.now)) bytes).starting }
    {
        &self.kept.start
    }

    /// Whether the line `end` was read.
    pub fn ended(&self) -> bool
        ensures kept { result ≡ has_ended (state_in self.now).kept.lines.stage }
        ensures read { (bytes : List ℕ) → HasRead (state_in self.now) bytes
            → result ≡ (own_reading (so_far (state_in self.now)) bytes).ended }
    {
        self.kept.lines.ended()
    }

    /// Whether a call has found no memory.
    pub fn has_failed(&self) -> bool
        ensures { result ≡ (state_in self.now).has_failed }
    {
        self.has_failed
    }
}
