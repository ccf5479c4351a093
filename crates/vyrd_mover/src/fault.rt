//! Why bytes aren't a history. Lines are counted from 1, where the header stands.

ghost use Rattle.std.specs.Prelude.{◌≡◌, ◌≤◌, ◌++◌, length, OnOk, OnErr};
ghost use Rattle.vyrd_mover.specs.Refusals.{history_rule_text, history_refusal_text};

use std::alloc::AllocError;
use std::error::Error;
use std::fmt;
use vyrd_text::LineBuffer;

/// A rule that a line of a history can break. If a line breaks several, the first of them in this
/// order is named.
#[derive(Clone, Copy, Debug, PartialEq, Eq)]
pub enum HistoryRule {
    /// The line's number passes 4,000,000, and the line has a byte.
    TooManyLines,
    /// A byte follows the line `end`.
    AfterEnd,
    /// Line 1 isn't the spelling of a header within the limits.
    BadHeader,
    /// A later line spells neither an event nor `end`.
    BadLine,
    /// The event isn't legal after those before it.
    NotLegal,
    /// A block is opened in the caller's open block, or ended without one.
    BlockMark,
    /// The input ends inside this line, after at most 64 bytes of it.
    NoLineFeed,
    /// The input ends after a line feed, and no `end` was read. The line is the one after the last.
    NoEnd,
}

impl HistoryRule {
    /// The name of the rule, in plain words.
    pub fn text(self) -> &'static [u8]
        ensures text { result.now ≡ history_rule_text self }
        ensures len { length result.now ≤ 23 }
    {
        match self {
            HistoryRule::TooManyLines => b"too many lines",
            HistoryRule::AfterEnd => b"text after end",
            HistoryRule::BadHeader => b"bad header",
            HistoryRule::BadLine => b"bad line",
            HistoryRule::NotLegal => b"not legal",
            HistoryRule::BlockMark => b"block mark out of place",
            HistoryRule::NoLineFeed => b"no line feed",
            HistoryRule::NoEnd => b"no end",
        }
    }
}

/// Why no history was read.
#[derive(Clone, Copy, Debug, PartialEq, Eq)]
pub enum HistoryFault {
    /// The bytes aren't a history: this line is the first bad one, and this the first rule that it
    /// breaks.
    Refused {
        /// The line, counted from 1.
        line: u64,
        /// The first rule that it breaks.
        rule: HistoryRule,
    },
    /// Memory ran out. Nothing is said of the bytes.
    Memory,
}

impl fmt::Display for HistoryFault {
    fn fmt<W: fmt::Write>(&self, f: &mut fmt::Formatter<W>) -> fmt::Result {
        match self {
            HistoryFault::Refused { line, rule } => write!(f, "line {line}: {rule:?}"),
            HistoryFault::Memory => write!(f, "out of memory"),
        }
    }
}

impl Error for HistoryFault {}

/// Appends the line that says which line of a history is bad and why, with its line feed. A refusal
/// leaves `out` unchanged.
pub fn write_history_refusal(
    line: u64,
    rule: HistoryRule,
    out: &mut Vec<u8>,
) -> Result<(), AllocError>
    ensures ok { OnOk result (out.new.items ≡ out.old.items ++ history_refusal_text line rule) }
    ensures err { OnErr result (out.new.items ≡ out.old.items) }
{
    let mut text = LineBuffer::new();
    text.push(b"history refused at line ");
    text.push_number(line);
    text.push(b": ");
    text.push(rule.text());
    text.push(b"\n");
    out.extend_from_slice(text.as_slice())
}
