//! What reads the lines of a log's text, one after the other, and the lines that lie whole in a
//! piece where they lie.

ghost use Rattle.std.specs.Prelude.{◌≡◌, ◌+◌, ◌<◌, ◌≤◌, ◌==◌, [], ◌∷◌, ◌++◌, Some, None, false};
ghost use Rattle.std.specs.Prelude.{true, length, count_by, vec_len, vec_capacity, OnOk, IfNone};
ghost use Rattle.std.specs.Prelude.{IsSome, is_some, if◌then◌else◌};
ghost use Rattle.vyrd_base.specs.declared.log.Entry.{Entry};
ghost use Rattle.vyrd_base.specs.Lines.{start_in};
ghost use Rattle.vyrd_base.specs.Limits.{most_lines};
ghost use Rattle.vyrd_text.specs.Readers.{fresh, goes_on};
ghost use Rattle.vyrd_text.specs.Ahead.{starts_ahead};
ghost use Rattle.vyrd_text.specs.Steps.{IsNoticed, IsFed, IsFedFront, IsTaken, IsLineTaken};
ghost use Rattle.vyrd_text.specs.Steps.{with_line, is_one_line, IsRuleOfRest, starts_of};
ghost use Rattle.vyrd_text.specs.Steps.{entries_of};
ghost use Rattle.vyrd_text.specs.Answered.{IsAnswer};

use crate::fault::{LineFault, TextFault};
use crate::header::read_header;
use crate::line::{is_word, read_line};
use crate::line_buffer::LineBuffer;
use crate::lines::split_line;
use crate::quick::take_entries;
use crate::start::{count_later_starts, count_starts, read_start, rule_of_start};
use std::marker::Model;
use std::mem;
use vyrd_base::{Entry, Header, Rule, StartWord};

/// The longest line, without its line feed.
const LONGEST: usize = 64;

/// The version from which on a log may begin with starting words.
const STARTING_VERSION: u32 = 2;

/// What a whole line brings.
#[derive(Clone, Copy)]
pub(crate) enum Found {
    /// Neither a starting word nor an entry.
    Nothing,
    /// A starting word.
    Start(StartWord),
    /// An entry.
    Entry(Entry),
}

/// A reader of a log's lines. It keeps at most one unfinished line, and takes no memory.
#[derive(Drop)]
pub(crate) struct LineReader {
    max_lines: u64,
    line: u64,
    header: Option<Header>,
    starting: bool,
    last: Option<StartWord>,
    ended: bool,
    fault: Option<LineFault>,
    unfinished: LineBuffer,
}

impl Model for LineReader {
    ghost use Rattle.vyrd_text.specs.Readers.{LineState};

    ghost Value = { LineState };

    ghost use Rattle.vyrd_text.specs.ReaderView.{state_of, IsSteadyInside};

    ghost view = { state_of };

    ghost invariant = { IsSteadyInside };
}

impl LineReader {
    /// A reader that has taken in nothing.
    pub(crate) fn new(max_lines: u64) -> LineReader
        requires low { 1 ≤ max_lines }
        requires high { max_lines ≤ most_lines }
        ensures { result ≡ fresh max_lines }
    {
        LineReader {
            max_lines,
            line: 1,
            header: None,
            starting: false,
            last: None,
            ended: false,
            fault: None,
            unfinished: LineBuffer::new(),
        }
    }

    /// Whether a fault of text stands.
    pub(crate) fn is_at_fault(&self) -> bool
        ensures { result ≡ is_some self.now.fault }
    {
        self.fault.is_some()
    }

    /// The fault of text that stands, if one does.
    pub(crate) fn answer(&self) -> Result<(), TextFault>
        ensures { IsAnswer result self.now.fault }
    {
        match self.fault {
            Some(fault) => Err(TextFault::Malformed {
                line: fault.line,
                rule: fault.rule,
            }),
            None => Ok(()),
        }
    }

    /// The answer about the text, if it ends here.
    pub(crate) fn finish(&self) -> Result<(), TextFault>
        ensures answer { IsNoticed self.now → IsAnswer result (goes_on self.now true []).fault }
        ensures ended { IsNoticed self.now → OnOk result ((goes_on self.now true []).ended ≡ true) }
    {
        if self.fault.is_some() {
            return self.answer();
        }
        if self.ended {
            return Ok(());
        }
        let rule = if self.unfinished.is_empty() {
            Rule::NoEnd
        } else {
            Rule::NoLineFeed
        };
        Err(TextFault::Malformed {
            line: self.line,
            rule,
        })
    }

    /// The log's header, once its line was read.
    pub(crate) fn header(&self) -> Option<Header>
        ensures { result ≡ self.now.header }
    {
        self.header
    }

    /// Whether the line `end` was read.
    pub(crate) fn ended(&self) -> bool
        ensures { result ≡ self.now.ended }
    {
        self.ended
    }

    /// How many starting words the piece can bring at most: none unless they may still come, and
    /// then no more than lines at its front look like them.
    pub(crate) fn most_starts(&self, piece: &[u8]) -> usize
        ensures most { starts_ahead self.now piece.now ≤ result }
        ensures none { IsSome self.now.header → self.now.starting ≡ false → result ≡ 0 }
        ensures few { result ≤ length piece.now + 1 }
    {
        if self.header.is_none() {
            return count_later_starts(piece);
        }
        if !self.starting {
            return 0;
        }
        if self.unfinished.is_empty() {
            return count_starts(piece);
        }
        1 + count_later_starts(piece)
    }

    /// Takes in a piece, for whose starting words and entries there is room.
    pub(crate) fn take_piece(
        &mut self,
        piece: &[u8],
        start: &mut Vec<StartWord>,
        out: &mut Vec<Entry>,
    )
        requires starts { vec_len start.old + starts_ahead self.old piece.now
            ≤ vec_capacity start.old }
        requires entries { vec_len out.old + count_by (λ b. b == 10) piece.now
            ≤ vec_capacity out.old }
        ensures { IsFed self.old piece.now start.old.items start.new.items out.old.items
            out.new.items self.new }
    {
        let mut rest = piece;
        while let Some((line, after)) = split_line(rest) {
            let found = self.take_line(line);
            put(found, start, out);
            rest = self.take_whole_entries(after, out);
        }
        self.take_unfinished(rest);
    }

    /// Takes in the entries that lie whole at the front of the text, each with its line feed, and
    /// answers what stands after them. There is room for them. Any other line is left to
    /// `take_line`, which knows the rules.
    fn take_whole_entries<'a>(&mut self, text: &'a [u8], out: &mut Vec<Entry>) -> &'a [u8]
        requires { vec_len out.old + count_by (λ b. b == 10) text.now ≤ vec_capacity out.old }
        ensures fed { IsFedFront self.old text.now out.old.items out.new.items self.new result.now }
        ensures room { vec_len out.new + count_by (λ b. b == 10) result.now ≤ vec_capacity out.new }
    {
        if !self.unfinished.is_empty() || self.starting || self.ended || self.fault.is_some() {
            return text;
        }
        let Some(header) = self.header else {
            return text;
        };
        let most = self.max_lines + 1 - self.line;
        let (rest, count) = take_entries(header.subject(), most, text, out);
        self.line += count;
        rest
    }

    /// Takes in the bytes before a line feed and that line feed, and answers what the line brings.
    fn take_line(&mut self, line: &[u8]) -> Found
        requires { is_one_line line.now ≡ true }
        ensures { IsTaken self.old (line.now ++ 10 ∷ []) (starts_of result) (entries_of result)
            self.new }
    {
        if self.unfinished.is_empty() {
            return self.end_line(line);
        }
        self.take_unfinished(line);
        let whole = mem::replace(&mut self.unfinished, LineBuffer::new());
        self.end_line(whole.as_slice())
    }

    /// Takes in the line feed after a whole line, and answers what the line brings.
    fn end_line(&mut self, line: &[u8]) -> Found
        requires { is_one_line line.now ≡ true }
        ensures { IsLineTaken (with_line self.old line.now) (starts_of result) (entries_of result)
            self.new }
    {
        if self.fault.is_some() {
            return Found::Nothing;
        }
        match self.header {
            Some(header) => self.end_later_line(header, line),
            None => {
                self.end_first_line(line);
                Found::Nothing
            }
        }
    }

    /// Takes in the line feed after the first line.
    fn end_first_line(&mut self, line: &[u8])
        requires line { is_one_line line.now ≡ true }
        requires fine { self.old.fault ≡ None }
        requires first { self.old.header ≡ None }
        ensures { IsLineTaken (with_line self.old line.now) [] [] self.new }
    {
        match read_header(line) {
            Ok(header) => {
                self.header = Some(header);
                self.starting = header.version() == STARTING_VERSION;
                self.next_line();
            }
            Err(rule) => {
                self.fault = Some(LineFault {
                    line: self.line,
                    rule,
                });
            }
        }
    }

    /// Takes in the line feed after a line that isn't the first, and answers what the line brings.
    fn end_later_line(&mut self, header: Header, line: &[u8]) -> Found
        requires line { is_one_line line.now ≡ true }
        requires fine { self.old.fault ≡ None }
        requires later { self.old.header ≡ Some header }
        ensures { IsLineTaken (with_line self.old line.now) (starts_of result) (entries_of result)
            self.new }
    {
        if self.line > self.max_lines {
            self.break_rule(Rule::TooManyLines);
            return Found::Nothing;
        }
        if self.ended {
            self.break_rule(Rule::AfterEnd);
            return Found::Nothing;
        }
        match self.start_word(line) {
            Some(word) => self.end_start_line(header, line, word),
            None => self.end_entry_line(header, line),
        }
    }

    /// The starting word that the line spells, if one may come.
    fn start_word(&self, line: &[u8]) -> Option<StartWord>
        ensures { result ≡ (if self.now.starting then start_in line.now else None) }
    {
        if self.starting {
            read_start(line)
        } else {
            None
        }
    }

    /// Takes in the line feed after the line of a starting word, and answers the word, unless it
    /// breaks a rule.
    fn end_start_line(&mut self, header: Header, line: &[u8], word: StartWord) -> Found
        requires line { is_one_line line.now ≡ true }
        requires fine { self.old.fault ≡ None }
        requires later { self.old.header ≡ Some header }
        requires within { self.old.line ≤ self.old.max_lines }
        requires going { self.old.ended ≡ false }
        requires starting { self.old.starting ≡ true }
        requires word { start_in line.now ≡ Some word }
        ensures { IsLineTaken (with_line self.old line.now) (starts_of result) (entries_of result)
            self.new }
    {
        match rule_of_start(header, self.last, word) {
            Some(rule) => {
                self.break_rule(rule);
                Found::Nothing
            }
            None => {
                self.last = Some(word);
                self.next_line();
                Found::Start(word)
            }
        }
    }

    /// Takes in the line feed after any other line that isn't the first, and answers what the line
    /// brings.
    fn end_entry_line(&mut self, header: Header, line: &[u8]) -> Found
        requires line { is_one_line line.now ≡ true }
        requires fine { self.old.fault ≡ None }
        requires later { self.old.header ≡ Some header }
        requires low { 1 ≤ self.old.max_lines }
        requires within { self.old.line ≤ self.old.max_lines }
        requires going { self.old.ended ≡ false }
        requires no_start { (if self.old.starting then start_in line.now else None) ≡ None }
        ensures { IsLineTaken (with_line self.old line.now) (starts_of result) (entries_of result)
            self.new }
    {
        if is_word(line, b"end") {
            self.starting = false;
            self.ended = true;
            self.next_line();
            return Found::Nothing;
        }
        match read_line(header.subject(), line) {
            Some(entry) => {
                self.starting = false;
                self.next_line();
                Found::Entry(entry)
            }
            None => {
                self.break_rule(Rule::BadEntry);
                Found::Nothing
            }
        }
    }

    /// Takes in bytes without a line feed.
    fn take_unfinished(&mut self, bytes: &[u8])
        requires { is_one_line bytes.now ≡ true }
        ensures { IsTaken self.old bytes.now [] [] self.new }
    {
        if bytes.is_empty() || self.fault.is_some() {
            return;
        }
        match self.unfinished_rule(bytes.len()) {
            Some(rule) => self.break_rule(rule),
            None => self.unfinished.push(bytes),
        }
    }

    /// The rule that the unfinished line breaks with `more` further bytes.
    fn unfinished_rule(&self, more: usize) -> Option<Rule>
        requires some { 0 < more }
        requires fine { self.now.fault ≡ None }
        ensures rule { IsRuleOfRest self.now more result }
        ensures room { IfNone result (length self.now.unfinished + more ≤ 64) }
    {
        let is_long = more > LONGEST - self.unfinished.len();
        if self.header.is_none() {
            return if is_long { Some(Rule::BadHeader) } else { None };
        }
        if self.line > self.max_lines {
            return Some(Rule::TooManyLines);
        }
        if self.ended {
            return Some(Rule::AfterEnd);
        }
        if is_long { Some(Rule::BadEntry) } else { None }
    }

    /// Begins the next line.
    fn next_line(&mut self)
        requires room { self.old.line ≤ self.old.max_lines }
        requires later { IsSome self.old.header }
        ensures { self.new ≡ record self.old { line = self.old.line + 1; unfinished = [] } }
    {
        self.line += 1;
        self.unfinished.clear();
    }

    /// Reads nothing more, since the line that is being read breaks the rule.
    fn break_rule(&mut self, rule: Rule)
        ensures { self.new
            ≡ record self.old { fault = Some (record { line = self.old.line; rule = rule }) } }
    {
        self.fault = Some(LineFault {
            line: self.line,
            rule,
        });
    }
}

/// Appends what a line brings. There is room for it.
fn put(found: Found, start: &mut Vec<StartWord>, out: &mut Vec<Entry>)
    requires start { vec_len start.old + length (starts_of found) ≤ vec_capacity start.old }
    requires entry { vec_len out.old < vec_capacity out.old }
    ensures starts { start.new.items ≡ start.old.items ++ starts_of found }
    ensures starts_len { vec_len start.new ≡ vec_len start.old + length (starts_of found) }
    ensures starts_capacity { vec_capacity start.new ≡ vec_capacity start.old }
    ensures items { out.new.items ≡ out.old.items ++ entries_of found }
    ensures len { vec_len out.new ≤ vec_len out.old + 1 }
    ensures capacity { vec_capacity out.new ≡ vec_capacity out.old }
{
    match found {
        Found::Nothing => {}
        Found::Start(word) => start.push_reserved(word),
        Found::Entry(entry) => out.push_reserved(entry),
    }
}
