//! What takes in the pieces of a log's text, and keeps the unfinished line.

ghost use Rattle.std.specs.Prelude.{◌≡◌, ◌≤◌, ◌∷◌, ◌++◌, [], true, length, IfOk, OnOk};
ghost use Rattle.vyrd_own.specs.Layout.{texts};
ghost use Rattle.vyrd_text.specs.Answered.{IsAnswer};
ghost use Rattle.vyrd_own_log.specs.KeptView.{kept_of};
ghost use Rattle.vyrd_own_log.specs.Readers.{fresh_kept, is_one_line, IsSafe, IsSound};
ghost use Rattle.vyrd_own_log.specs.Readers.{IsTaken, IsFed, IsFedFront};
ghost use Rattle.vyrd_own_log.specs.Rests.{fault_at_end};
ghost use Rattle.vyrd_own_log.specs.Steps.{nothing_brought, starts_of, entries_of, numbers_of};
ghost use Rattle.vyrd_own_log.specs.Steps.{lines_of};

use crate::line_reader::{LONGEST, LineReader};
use crate::quick::read_entry;
use crate::stage::{Found, Stage};
use std::alloc::{AllocError, Global};
use vyrd_base::{Entry, Rule, StartWord};
use vyrd_text::{TextFault, split_line};

/// A reader of a log's text, while it finds memory. It keeps the specification and its lines, the
/// starting words and at most one unfinished line.
#[derive(Drop)]
pub(crate) struct PieceReader {
    pub(crate) lines: LineReader,
    pub(crate) unfinished: Vec<u8>,
    pub(crate) specified: Vec<Vec<u8>>,
    pub(crate) start: Vec<StartWord>,
}

impl PieceReader {
    /// A reader that has taken in nothing. It takes no memory.
    pub(crate) fn new(alloc: Global, max_lines: u64) -> PieceReader
        ensures { kept_of result ≡ fresh_kept max_lines }
    {
        PieceReader {
            lines: LineReader::new(alloc, max_lines),
            unfinished: Vec::new(alloc),
            specified: Vec::new(alloc),
            start: Vec::new(alloc),
        }
    }

    /// The answer about the text, if it ends here.
    pub(crate) fn finish(&self) -> Result<(), TextFault>
        ensures { IsAnswer result
            (fault_at_end (kept_of self.now).lines (kept_of self.now).unfinished) }
    {
        if self.lines.fault.is_some() {
            return self.lines.answer();
        }
        if self.lines.ended() {
            return Ok(());
        }
        let rule = if self.unfinished.is_empty() {
            Rule::NoEnd
        } else {
            Rule::NoLineFeed
        };
        Err(TextFault::Malformed {
            line: self.lines.line,
            rule,
        })
    }

    /// Takes in a piece, and appends the entries that it brings, and the numbers of lines.
    pub(crate) fn take_piece(
        &mut self,
        piece: &[u8],
        out: &mut Vec<Entry>,
        numbers: &mut Vec<u64>,
    ) -> Result<(), AllocError>
        requires { IsSafe (kept_of self.old) }
        ensures fed { OnOk result (IsSound (kept_of self.old) → IsFed (kept_of self.old) piece.now
            out.old.items out.new.items numbers.old.items numbers.new.items (kept_of self.new)) }
        ensures sound { OnOk result (IsSound (kept_of self.old) → IsSound (kept_of self.new)) }
        ensures safe { IsSafe (kept_of self.new) }
        ensures limit { self.new.lines.max_lines ≡ self.old.lines.max_lines }
    {
        let mut rest = self.take_entries(piece, out, numbers)?;
        while let Some((line, after)) = split_line(rest) {
            self.take_line(line, out, numbers)?;
            rest = self.take_entries(after, out, numbers)?;
        }
        self.take_unfinished(rest)
    }

    /// Takes in the entries that lie whole at the front of the piece, each with its line feed, appends
    /// them and the numbers of their lines, and answers what stands after them. Any other line is left
    /// to `take_line`, which knows the rules.
    fn take_entries<'a>(
        &mut self,
        piece: &'a [u8],
        out: &mut Vec<Entry>,
        numbers: &mut Vec<u64>,
    ) -> Result<&'a [u8], AllocError>
        requires { IsSafe (kept_of self.old) }
        ensures fed { IfOk result (λ rest. IsSound (kept_of self.old)
            → IsFedFront (kept_of self.old) piece.now rest.now out.old.items out.new.items
            numbers.old.items numbers.new.items (kept_of self.new)) }
        ensures shorter { IfOk result (λ rest. length rest.now ≤ length piece.now) }
        ensures safe { IsSafe (kept_of self.new) }
        ensures limit { self.new.lines.max_lines ≡ self.old.lines.max_lines }
    {
        if !self.unfinished.is_empty() || self.lines.fault.is_some() {
            return Ok(piece);
        }
        let Stage::Entries(_) = self.lines.stage else {
            return Ok(piece);
        };
        let mut rest = piece;
        let mut line = self.lines.line;
        while line <= self.lines.max_lines {
            let Some((entry, after)) = read_entry(&self.lines.specification.program, rest) else {
                break;
            };
            out.push(entry)?;
            numbers.push(line)?;
            rest = after;
            line += 1;
        }
        self.lines.line = line;
        Ok(rest)
    }

    /// Takes in the bytes before a line feed and that line feed, and appends what the line brings.
    fn take_line(
        &mut self,
        line: &[u8],
        out: &mut Vec<Entry>,
        numbers: &mut Vec<u64>,
    ) -> Result<(), AllocError>
        requires safe { IsSafe (kept_of self.old) }
        requires one_line { is_one_line line.now ≡ true }
        ensures fed { OnOk result (IsSound (kept_of self.old) → IsFed (kept_of self.old)
            (line.now ++ 10 ∷ []) out.old.items out.new.items numbers.old.items numbers.new.items
            (kept_of self.new)) }
        ensures sound { OnOk result (IsSound (kept_of self.old) → IsSound (kept_of self.new)) }
        ensures safe { IsSafe (kept_of self.new) }
        ensures limit { self.new.lines.max_lines ≡ self.old.lines.max_lines }
    {
        if self.unfinished.is_empty() {
            return self.end_line(line, out, numbers);
        }
        self.take_unfinished(line)?;
        self.end_unfinished(out, numbers)
    }

    /// Takes in a line that lies whole in a piece, and its line feed.
    #[inline(always)]
    fn end_line(
        &mut self,
        line: &[u8],
        out: &mut Vec<Entry>,
        numbers: &mut Vec<u64>,
    ) -> Result<(), AllocError>
        requires safe { IsSafe (kept_of self.old) }
        requires one_line { is_one_line line.now ≡ true }
        requires begun { self.old.unfinished.items ≡ [] }
        ensures fed { OnOk result (IsSound (kept_of self.old) → IsFed (kept_of self.old)
            (line.now ++ 10 ∷ []) out.old.items out.new.items numbers.old.items numbers.new.items
            (kept_of self.new)) }
        ensures sound { OnOk result (IsSound (kept_of self.old) → IsSound (kept_of self.new)) }
        ensures safe { IsSafe (kept_of self.new) }
        ensures limit { self.new.lines.max_lines ≡ self.old.lines.max_lines }
    {
        let number = self.lines.line;
        let found = self.lines.take_line(line)?;
        keep(self.lines.alloc, line, found, &mut self.specified)?;
        put(number, found, &mut self.start, out, numbers)
    }

    /// Takes in the line feed after the unfinished line.
    fn end_unfinished(
        &mut self,
        out: &mut Vec<Entry>,
        numbers: &mut Vec<u64>,
    ) -> Result<(), AllocError>
        requires { IsSafe (kept_of self.old) }
        ensures fed { OnOk result (IsSound (kept_of self.old) → IsFed (kept_of self.old) (10 ∷ [])
            out.old.items out.new.items numbers.old.items numbers.new.items (kept_of self.new)) }
        ensures sound { OnOk result (IsSound (kept_of self.old) → IsSound (kept_of self.new)) }
        ensures safe { IsSafe (kept_of self.new) }
        ensures limit { self.new.lines.max_lines ≡ self.old.lines.max_lines }
    {
        let number = self.lines.line;
        let found = self.lines.take_line(&self.unfinished)?;
        keep(
            self.lines.alloc,
            &self.unfinished,
            found,
            &mut self.specified,
        )?;
        self.unfinished.clear();
        put(number, found, &mut self.start, out, numbers)
    }

    /// Takes in bytes without a line feed.
    fn take_unfinished(&mut self, bytes: &[u8]) -> Result<(), AllocError>
        requires safe { IsSafe (kept_of self.old) }
        requires one_line { is_one_line bytes.now ≡ true }
        ensures taken { OnOk result (IsSound (kept_of self.old)
            → IsTaken (kept_of self.old) bytes.now nothing_brought (kept_of self.new)) }
        ensures sound { OnOk result (IsSound (kept_of self.old) → IsSound (kept_of self.new)) }
        ensures safe { IsSafe (kept_of self.new) }
        ensures specified { self.new.specified ≡ self.old.specified }
        ensures start { self.new.start ≡ self.old.start }
        ensures limit { self.new.lines.max_lines ≡ self.old.lines.max_lines }
    {
        if bytes.is_empty() || self.lines.fault.is_some() {
            return Ok(());
        }
        let is_long = bytes.len() > LONGEST - self.unfinished.len();
        match self.lines.unfinished_rule(is_long) {
            Some(rule) => {
                self.lines.break_rule(rule);
                Ok(())
            }
            None => self.unfinished.extend_from_slice(bytes),
        }
    }
}

/// Keeps the line if it is one of the specification.
#[inline(always)]
fn keep(
    alloc: Global,
    line: &[u8],
    found: Found,
    specified: &mut Vec<Vec<u8>>,
) -> Result<(), AllocError>
    ensures { OnOk result
        (texts specified.new.items ≡ texts specified.old.items ++ lines_of line.now found) }
{
    match found {
        Found::Specified => {
            let kept = Vec::from_slice(alloc, line)?;
            specified.push(kept)?;
        }
        Found::Nothing => {}
        Found::Start(_) => {}
        Found::Entry(_) => {}
        Found::End => {}
    }
    Ok(())
}

/// Appends what a line brings that has this number.
#[inline(always)]
fn put(
    number: u64,
    found: Found,
    start: &mut Vec<StartWord>,
    out: &mut Vec<Entry>,
    numbers: &mut Vec<u64>,
) -> Result<(), AllocError>
    ensures start { OnOk result (start.new.items ≡ start.old.items ++ starts_of found) }
    ensures entries { OnOk result (out.new.items ≡ out.old.items ++ entries_of found) }
    ensures numbers { OnOk result
        (numbers.new.items ≡ numbers.old.items ++ numbers_of number found) }
{
    match found {
        Found::Nothing => {}
        Found::Specified => {}
        Found::Start(word) => {
            start.push(word)?;
            numbers.push(number)?;
        }
        Found::Entry(entry) => {
            out.push(entry)?;
            numbers.push(number)?;
        }
        Found::End => numbers.push(number)?,
    }
    Ok(())
}
