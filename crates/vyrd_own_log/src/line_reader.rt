//! What reads the lines of a log, one after the other.

ghost use Rattle.std.specs.Prelude.{◌≡◌, ◌≤◌, ◌+◌, None, IfOk, true, is_some};
ghost use Rattle.std.specs.Str.{bytes_eq};
ghost use Rattle.vyrd_base.specs.Own.Log.{is_note, own_header_in};
ghost use Rattle.vyrd_base.specs.Spelling.{end_line};
ghost use Rattle.vyrd_base.specs.Own.Reader.{nothing_read, read_next};
ghost use Rattle.vyrd_base.specs.Limits.{most_lines};
ghost use Rattle.vyrd_own_text.specs.Meaning.{so_far};
ghost use Rattle.vyrd_text.specs.Answered.{IsAnswer};
ghost use Rattle.vyrd_own_log.specs.States.{fresh, header_at, has_ended, IsSteady};
ghost use Rattle.vyrd_own_log.specs.Rests.{bad_at, rest_if};
ghost use Rattle.vyrd_own_log.specs.Steps.{next, broken, header_step, specification_step};
ghost use Rattle.vyrd_own_log.specs.Steps.{entry_step, starts_step, own_step};
ghost use Rattle.vyrd_own_log.specs.StateView.{state_of, can_call};

use crate::entry::read_entry;
use crate::fault::LineFault;
use crate::header::read_own_header;
use crate::stage::{Found, Stage};
use std::alloc::{AllocError, Global};
use vyrd_base::{Header, Rule, SpecificationLine, SpecificationRule, StartWord};
use vyrd_own_text::SpecificationReader;
use vyrd_text::{TextFault, read_start, rule_of_start};

/// How many bytes a line may have.
pub(crate) const LONGEST: usize = 200;

/// How many lines a specification may have.
const MOST_SPECIFIED: u64 = 1000;

/// A reader of a log's lines. It keeps the specification, and no line.
#[derive(Drop)]
pub(crate) struct LineReader {
    pub(crate) alloc: Global,
    pub(crate) max_lines: u64,
    pub(crate) line: u64,
    pub(crate) stage: Stage,
    pub(crate) specification: SpecificationReader,
    pub(crate) fault: Option<LineFault>,
}

impl LineReader {
    /// A reader that has read no line. It takes no memory.
    pub(crate) fn new(alloc: Global, max_lines: u64) -> LineReader
        ensures { state_of result ≡ fresh max_lines }
    {
        LineReader {
            alloc,
            max_lines,
            line: 1,
            stage: Stage::Header,
            specification: SpecificationReader::new(alloc),
            fault: None,
        }
    }

    /// The fault of text that stands, if one does.
    pub(crate) fn answer(&self) -> Result<(), TextFault>
        ensures { IsAnswer result (state_of self.now).fault }
    {
        match self.fault {
            Some(fault) => Err(TextFault::Malformed {
                line: fault.line,
                rule: fault.rule,
            }),
            None => Ok(()),
        }
    }

    /// The header, once its line was read.
    pub(crate) fn header(&self) -> Option<Header>
        ensures { result ≡ header_at self.now.stage }
    {
        match self.stage {
            Stage::Header => None,
            Stage::Specification(header) => Some(header),
            Stage::Starts(header, _) => Some(header),
            Stage::Entries(header) => Some(header),
            Stage::End(header) => Some(header),
        }
    }

    /// Whether the line `end` was read.
    pub(crate) fn ended(&self) -> bool
        ensures { result ≡ has_ended self.now.stage }
    {
        match self.stage {
            Stage::End(_) => true,
            Stage::Header => false,
            Stage::Specification(_) => false,
            Stage::Starts(_, _) => false,
            Stage::Entries(_) => false,
        }
    }

    /// The rule that the unfinished line breaks already, where it has some bytes, and more than 200
    /// if it is long.
    pub(crate) fn unfinished_rule(&self, is_long: bool) -> Option<Rule>
        ensures { result ≡ rest_if (state_of self.now) true is_long }
    {
        if self.line > self.max_lines {
            return Some(Rule::TooManyLines);
        }
        if self.ended() {
            return Some(Rule::AfterEnd);
        }
        if is_long {
            Some(self.long_rule())
        } else {
            None
        }
    }

    /// The rule that a line of more than 200 bytes breaks.
    fn long_rule(&self) -> Rule
        ensures { result ≡ bad_at (so_far self.now.specification) self.now.stage }
    {
        match self.stage {
            Stage::Header => Rule::BadHeader,
            Stage::Specification(_) => {
                if self.specification.lines >= MOST_SPECIFIED {
                    Rule::Specification(SpecificationRule::TooMany)
                } else {
                    Rule::Specification(SpecificationRule::TooLong)
                }
            }
            Stage::Starts(_, _) => Rule::BadEntry,
            Stage::Entries(_) => Rule::BadEntry,
            Stage::End(_) => Rule::AfterEnd,
        }
    }

    /// Reads a whole line, which is given without its line feed. If memory runs out, what was read
    /// of the specification is gone.
    #[inline(always)]
    pub(crate) fn take_line(&mut self, line: &[u8]) -> Result<Found, AllocError>
        requires { IsSteady (state_of self.old) }
        ensures step { IfOk result (λ found. (state_of self.new, found)
            ≡ own_step (state_of self.old) line.now) }
        ensures steady { IsSteady (state_of self.new) }
        ensures limit { self.new.max_lines ≡ self.old.max_lines }
    {
        if self.fault.is_some() {
            return Ok(Found::Nothing);
        }
        if self.line > self.max_lines {
            return Ok(self.break_rule(Rule::TooManyLines));
        }
        match self.stage {
            Stage::Header => Ok(self.take_header(line)),
            Stage::Specification(header) => self.take_specification(header, line),
            Stage::Starts(header, last) => Ok(self.take_start(header, last, line)),
            Stage::Entries(header) => Ok(self.take_entry(header, line)),
            Stage::End(_) => Ok(self.break_rule(Rule::AfterEnd)),
        }
    }

    /// Reads the first line.
    fn take_header(&mut self, line: &[u8]) -> Found
        requires { self.old.line ≤ most_lines }
        ensures step { (state_of self.new, result)
            ≡ header_step (state_of self.old) (own_header_in line.now) }
        ensures limit { self.new.max_lines ≡ self.old.max_lines }
    {
        match read_own_header(line) {
            Some(header) => {
                self.go_on(Stage::Specification(header));
                Found::Nothing
            }
            None => self.break_rule(Rule::BadHeader),
        }
    }

    /// Reads a line of the specification.
    fn take_specification(&mut self, header: Header, line: &[u8]) -> Result<Found, AllocError>
        requires few { self.old.line ≤ most_lines }
        requires callable { can_call self.old ≡ true }
        ensures step { IfOk result (λ found. (state_of self.new, found)
            ≡ specification_step (state_of self.old) header
            (read_next (so_far self.old.specification) line.now)) }
        ensures callable { can_call self.new ≡ true }
        ensures counted { self.new.line ≤ self.old.line + 1 }
        ensures limit { self.new.max_lines ≡ self.old.max_lines }
    {
        let told = match self.specification.take_line(self.alloc, line) {
            Ok(told) => told,
            Err(error) => {
                self.specification = SpecificationReader::new(self.alloc);
                return Err(error);
            }
        };
        match told {
            SpecificationLine::More => {
                self.go_on(Stage::Specification(header));
                Ok(Found::Specified)
            }
            SpecificationLine::Log => {
                self.go_on(Stage::Starts(header, None));
                Ok(Found::Nothing)
            }
            SpecificationLine::Refused(rule, _) => Ok(self.break_rule(Rule::Specification(rule))),
        }
    }

    /// Reads a line where starting words may stand, after the last of those before.
    fn take_start(&mut self, header: Header, last: Option<StartWord>, line: &[u8]) -> Found
        requires few { self.old.line ≤ most_lines }
        requires callable { can_call self.old ≡ true }
        ensures step { (state_of self.new, result)
            ≡ starts_step (state_of self.old) header last line.now }
        ensures limit { self.new.max_lines ≡ self.old.max_lines }
    {
        if is_note(line) {
            self.go_on(Stage::Starts(header, last));
            return Found::Nothing;
        }
        match read_start(line) {
            Some(word) => match rule_of_start(header, last, word) {
                Some(rule) => self.break_rule(rule),
                None => {
                    self.go_on(Stage::Starts(header, Some(word)));
                    Found::Start(word)
                }
            },
            None => self.take_entry(header, line),
        }
    }

    /// Reads a line where entries stand.
    #[inline(always)]
    fn take_entry(&mut self, header: Header, line: &[u8]) -> Found
        requires few { self.old.line ≤ most_lines }
        requires callable { can_call self.old ≡ true }
        ensures step { (state_of self.new, result)
            ≡ entry_step (state_of self.old) header line.now }
        ensures limit { self.new.max_lines ≡ self.old.max_lines }
    {
        if is_note(line) {
            self.go_on(Stage::Entries(header));
            return Found::Nothing;
        }
        if is_end(line) {
            self.go_on(Stage::End(header));
            return Found::End;
        }
        match read_entry(&self.specification.program, line) {
            Some(entry) => {
                self.go_on(Stage::Entries(header));
                Found::Entry(entry)
            }
            None => self.break_rule(Rule::BadEntry),
        }
    }

    /// Goes to the next line.
    #[inline(always)]
    fn go_on(&mut self, stage: Stage)
        requires { self.old.line ≤ most_lines }
        ensures { state_of self.new ≡ next (state_of self.old) stage }
    {
        self.line += 1;
        self.stage = stage;
    }

    /// Reads nothing more, since the line that is being read breaks the rule.
    pub(crate) fn break_rule(&mut self, rule: Rule) -> Found
        ensures { (state_of self.new, result) ≡ broken (state_of self.old) rule }
    {
        self.fault = Some(LineFault {
            line: self.line,
            rule,
        });
        Found::Nothing
    }
}

/// Whether a line says nothing.
#[inline(always)]
fn is_note(line: &[u8]) -> bool
    ensures { result ≡ is_note line.now }
{
    match line {
        [first, rest @ ..] => *first == b'#' && rest.len() < LONGEST,
        [] => false,
    }
}

/// Whether a line ends the log. A pattern tells most lines by their length, without a call.
#[inline(always)]
fn is_end(line: &[u8]) -> bool
    ensures { result ≡ bytes_eq line.now end_line }
{
    match line {
        [b'e', b'n', b'd'] => true,
        _ => false,
    }
}
