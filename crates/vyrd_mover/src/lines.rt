//! The lines of a history's text that were read so far.

ghost use Rattle.std.specs.Prelude.{◌≡◌, ℕ, ◌<◌, ◌≤◌, ◌==◌, ◌∷◌, ◌++◌, [], List, length, None};
ghost use Rattle.std.specs.Prelude.{true, false, is_some, IfOk, IfErr, OnOk};
ghost use Rattle.std.specs.List.{slice_split};
ghost use Rattle.vyrd_text.specs.Steps.{is_one_line};
ghost use Rattle.vyrd_mover.specs.HistoryText.{Recorded};
ghost use Rattle.vyrd_mover.specs.HistoryReading.{first_read, unfinished_rule, unless_too_many};
ghost use Rattle.vyrd_mover.specs.HistoryReading.{history_reading};
ghost use Rattle.vyrd_mover.specs.EventsRead.{HaveRead, HaveReadSome, HaveReadOn, AreBlocksOf};
ghost use Rattle.vyrd_mover.specs.HistoryReaders.{IsAt, IsSomewhere, GoesOn, GoesTo, IsTakenTo};
ghost use Rattle.vyrd_mover.specs.HistoryReaders.{rest_read};
ghost use Rattle.vyrd_mover.specs.Refusals.{IsRefusal, IsRefusedAt};

use crate::blocks::Blocks;
use crate::events::Events;
use crate::fault::{HistoryFault, HistoryRule};
use crate::front::front_event;
use crate::line::read_first;
use std::alloc::Global;
use vyrd_text::is_word;

/// The longest line of a history, in bytes without its line feed. So more than these without a line
/// feed begin no good line.
pub(crate) const LONGEST: usize = 64;

/// The most lines of a history's text, with those of the header and of `end`.
const MOST_LINES: u64 = 4_000_000;

/// What is kept of the lines of a history's text that were read so far.
#[derive(Drop)]
pub(crate) struct Lines {
    /// The number of the next line.
    line: u64,
    /// Once line 1 was read.
    events: Option<Events>,
    /// Whether the line `end` was read.
    ended: bool,
    /// What is wrong with the lines so far. Then nothing more is read.
    fault: Option<HistoryFault>,
}

impl Lines {
    /// No line was read.
    pub fn new() -> Lines
        ensures { IsAt result [] }
    {
        Lines {
            line: 1,
            events: None,
            ended: false,
            fault: None,
        }
    }

    /// Whether something is wrong with the lines so far.
    pub fn is_at_fault(&self) -> bool
        ensures { result ≡ is_some self.now.fault }
    {
        self.fault.is_some()
    }

    /// Takes in a line, without its line feed.
    pub fn take_line(&mut self, alloc: Global, line: &[u8])
        requires one_line { is_one_line line.now ≡ true }
        requires somewhere { IsSomewhere self.old }
        ensures { (bytes : List ℕ) → IsAt self.old bytes
            → IsAt self.new (bytes ++ (line.now ++ 10 ∷ [])) }
    {
        if self.fault.is_some() {
            return;
        }
        if self.events.is_none() {
            self.take_first_line(alloc, line);
        } else {
            self.take_later_line(line);
        }
    }

    /// Takes in line 1.
    fn take_first_line(&mut self, alloc: Global, line: &[u8])
        requires one_line { is_one_line line.now ≡ true }
        requires fine { self.old.fault ≡ None }
        requires first { self.old.events ≡ None }
        ensures { (bytes : List ℕ) → IsAt self.old bytes
            → IsAt self.new (bytes ++ (line.now ++ 10 ∷ [])) }
    {
        match read_first_line(alloc, line) {
            Ok(events) => {
                self.events = Some(events);
                self.line = 2;
            }
            Err(fault) => self.fault = Some(fault),
        }
    }

    /// Takes in a line after line 1.
    fn take_later_line(&mut self, line: &[u8])
        requires one_line { is_one_line line.now ≡ true }
        requires fine { self.old.fault ≡ None }
        requires somewhere { IsSomewhere self.old }
        ensures { (bytes : List ℕ) → IsAt self.old bytes → is_some self.old.events ≡ true
            → IsAt self.new (bytes ++ (line.now ++ 10 ∷ [])) }
    {
        if let Some(events) = &mut self.events {
            match next_line(events, self.line, self.ended, line) {
                Ok(ended) => {
                    self.ended = ended;
                    self.line += 1;
                }
                Err(fault) => self.fault = Some(fault),
            }
        }
    }

    /// Takes in the events that lie whole at the front of the text, each with its line feed, and
    /// answers what stands after them: nothing if one breaks a rule, since the rest is passed over.
    /// Any other line is left to `take_line`.
    pub fn take_events<'a>(&mut self, text: &'a [u8]) -> &'a [u8]
        requires { IsSomewhere self.old }
        ensures taken { (bytes : List ℕ) → IsAt self.old bytes
            → IsTakenTo self.new bytes text.now result.now }
        ensures shorter { length result.now ≤ length text.now }
    {
        if self.fault.is_some() || self.ended {
            return text;
        }
        let Some(events) = &mut self.events else {
            return text;
        };
        match take_front(events, self.line, text) {
            Ok((rest, number)) => {
                self.line = number;
                rest
            }
            Err(fault) => {
                self.fault = Some(fault);
                &text[text.len()..]
            }
        }
    }

    /// The bytes of the next line are more than 64: they break a rule, whatever follows them.
    pub fn break_long_line(&mut self)
        ensures { (bytes more : List ℕ) → IsAt self.old bytes → is_one_line more ≡ true
            → 64 < length more → IsAt self.new (bytes ++ more) }
    {
        if self.fault.is_some() {
            return;
        }
        let rule = if self.events.is_none() {
            HistoryRule::BadHeader
        } else if self.ended {
            HistoryRule::AfterEnd
        } else {
            HistoryRule::BadLine
        };
        self.fault = Some(HistoryFault::Refused {
            line: self.line,
            rule: unless_too_many(self.line, rule),
        });
    }

    /// What is said of the blocks if the text ends with these bytes of the next line, which has no
    /// line feed.
    pub fn finish(&self, unfinished: &[u8]) -> Result<Blocks, HistoryFault>
        requires one_line { is_one_line unfinished.now ≡ true }
        requires somewhere { IsSomewhere self.now }
        ensures said { (bytes : List ℕ) → IsAt self.now bytes
            → IfOk result (AreBlocksOf (history_reading (bytes ++ unfinished.now))) }
        ensures refused { (bytes : List ℕ) → IsAt self.now bytes → IfErr result
            (λ fault. IsRefusal fault (history_reading (bytes ++ unfinished.now))) }
    {
        if let Some(fault) = self.fault {
            return Err(fault);
        }
        let Some(events) = &self.events else {
            return Err(HistoryFault::Refused {
                line: 1,
                rule: unfinished_rule(1, HistoryRule::BadHeader, unfinished),
            });
        };
        if !self.ended {
            return Err(HistoryFault::Refused {
                line: self.line,
                rule: unfinished_rule(self.line, HistoryRule::BadLine, unfinished),
            });
        }
        finish_ended(events, self.line, unfinished)
    }
}

/// The events of a history that has none yet, with the header of line 1.
fn read_first_line(alloc: Global, line: &[u8]) -> Result<Events, HistoryFault>
    ensures ok { IfOk result (λ events. HaveReadOn events.ledger events.checker
        (first_read line.now)) }
    ensures err { IfErr result (λ fault. IsRefusedAt 1 fault (first_read line.now)) }
{
    let Some(header) = read_first(line) else {
        return Err(HistoryFault::Refused {
            line: 1,
            rule: HistoryRule::BadHeader,
        });
    };
    match Events::new(alloc, header) {
        Ok(events) => Ok(events),
        Err(_) => Err(HistoryFault::Memory),
    }
}

/// Takes in line `number`, which comes after line 1. The answer says whether `end` was read by
/// then.
fn next_line(
    events: &mut Events,
    number: u64,
    ended: bool,
    line: &[u8],
) -> Result<bool, HistoryFault>
    requires one_line { is_one_line line.now ≡ true }
    requires some { HaveReadSome events.old.ledger events.old.checker }
    ensures few { OnOk result (number ≤ 4000000) }
    ensures ok { (r : Recorded) → HaveRead events.old.ledger events.old.checker r
        → IfOk result (GoesOn events.new r number ended line.now) }
    ensures err { (r : Recorded) → HaveRead events.old.ledger events.old.checker r
        → IfErr result (λ fault. (rest : List ℕ) → IsRefusal fault
        (rest_read r number ended (slice_split (λ b. b == 10) (line.now ++ 10 ∷ rest)))) }
{
    if number > MOST_LINES {
        return Err(HistoryFault::Refused {
            line: number,
            rule: HistoryRule::TooManyLines,
        });
    }
    if ended {
        return Err(HistoryFault::Refused {
            line: number,
            rule: HistoryRule::AfterEnd,
        });
    }
    if is_word(line, b"end") {
        return Ok(true);
    }
    events.take_line(number, line)?;
    Ok(false)
}

/// Takes in the events that lie whole at the front of the text, the first of them on line `first`.
/// The answer is what stands after them, and the number of its line.
fn take_front<'a>(
    events: &mut Events,
    first: u64,
    text: &'a [u8],
) -> Result<(&'a [u8], u64), HistoryFault>
    requires { HaveReadSome events.old.ledger events.old.checker }
    ensures ok { (r : Recorded) → HaveRead events.old.ledger events.old.checker r
        → IfOk result (λ to. GoesTo events.new r first to.1 text.now to.0.now) }
    ensures err { (r : Recorded) → HaveRead events.old.ledger events.old.checker r
        → IfErr result (λ fault. (more : List ℕ) → IsRefusal fault
        (rest_read r first false (slice_split (λ b. b == 10) (text.now ++ more)))) }
{
    let mut rest = text;
    let mut number = first;
    while number <= MOST_LINES {
        let Some((event, after)) = front_event(events.subject(), events.len(), rest) else {
            break;
        };
        events.take_event(number, event)?;
        rest = after;
        number += 1;
    }
    Ok((rest, number))
}

/// What is said of the blocks if these bytes stand after the line `end`, where line `number` would
/// come.
fn finish_ended(events: &Events, number: u64, rest: &[u8]) -> Result<Blocks, HistoryFault>
    requires { HaveReadSome events.now.ledger events.now.checker }
    ensures said { (r : Recorded) → HaveRead events.now.ledger events.now.checker r → IfOk result
        (AreBlocksOf (rest_read r number true (slice_split (λ b. b == 10) rest.now))) }
    ensures refused { (r : Recorded) → IfErr result (λ fault. IsRefusal fault
        (rest_read r number true (slice_split (λ b. b == 10) rest.now))) }
{
    if !rest.is_empty() {
        return Err(HistoryFault::Refused {
            line: number,
            rule: unless_too_many(number, HistoryRule::AfterEnd),
        });
    }
    match events.answer() {
        Ok(said) => Ok(said),
        Err(_) => Err(HistoryFault::Memory),
    }
}

/// The rule of line `number`: of a line past the last one that may be there, or otherwise this
/// rule.
fn unless_too_many(number: u64, rule: HistoryRule) -> HistoryRule
    ensures { result ≡ unless_too_many number rule }
{
    if number > MOST_LINES {
        HistoryRule::TooManyLines
    } else {
        rule
    }
}

/// The rule that the bytes after the last line feed break; a line that begins with more than 64
/// bytes breaks `bad`.
fn unfinished_rule(number: u64, bad: HistoryRule, rest: &[u8]) -> HistoryRule
    ensures { result ≡ unfinished_rule number bad rest.now }
{
    if rest.is_empty() {
        HistoryRule::NoEnd
    } else if rest.len() > LONGEST {
        unless_too_many(number, bad)
    } else {
        unless_too_many(number, HistoryRule::NoLineFeed)
    }
}
