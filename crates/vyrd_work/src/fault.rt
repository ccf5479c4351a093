//! Why bytes aren't a workload. Lines are counted from 1, where the header stands.

ghost use Rattle.std.specs.Prelude.{◌≡◌, ◌≤◌, ◌++◌, length, OnOk, OnErr};
ghost use Rattle.vyrd_work.specs.Refusals.{work_rule_text, refusal_text};

use std::alloc::AllocError;
use std::error::Error;
use std::fmt;
use vyrd_text::LineBuffer;

/// A rule that a line of a workload can break. If a line breaks several, the first of them in this
/// order is named.
#[derive(Clone, Copy, Debug, PartialEq, Eq)]
pub enum WorkRule {
    /// A byte follows the line `end`.
    AfterEnd,
    /// Line 1 isn't the spelling of a header within the limits.
    BadHeader,
    /// A later line spells neither an operation of the subject, nor turns, nor `end`.
    BadLine,
    /// The caller isn't below the header's callers.
    CallerRange,
    /// A chunk's number isn't below the size.
    ArgumentRange,
    /// An operation follows turns.
    OpAfterTurn,
    /// An operation after 200,000 others.
    TooManyOps,
    /// Turns after 200,000 other lines of turns, or the sum of all turns passes 4,000,000.
    TooManyTurns,
    /// The input ends inside this line, after at most 64 bytes of it.
    NoLineFeed,
    /// The input ends after a line feed, and no `end` was read. The line is the one after the last.
    NoEnd,
}

impl WorkRule {
    /// The name of the rule, in plain words.
    pub fn text(self) -> &'static [u8]
        ensures text { result.now ≡ work_rule_text self }
        ensures len { length result.now ≤ 21 }
    {
        match self {
            WorkRule::AfterEnd => b"text after end",
            WorkRule::BadHeader => b"bad header",
            WorkRule::BadLine => b"bad line",
            WorkRule::CallerRange => b"caller out of range",
            WorkRule::ArgumentRange => b"argument out of range",
            WorkRule::OpAfterTurn => b"operation after turn",
            WorkRule::TooManyOps => b"too many operations",
            WorkRule::TooManyTurns => b"too many turns",
            WorkRule::NoLineFeed => b"no line feed",
            WorkRule::NoEnd => b"no end",
        }
    }
}

/// Why no workload was read.
#[derive(Clone, Copy, Debug, PartialEq, Eq)]
pub enum WorkFault {
    /// The bytes aren't a workload: this line is the first bad one, and this the first rule that it
    /// breaks.
    Refused {
        /// The line.
        line: u64,
        /// The rule.
        rule: WorkRule,
    },
    /// There was no memory for the workload.
    Memory,
}

impl fmt::Display for WorkFault {
    fn fmt<W: fmt::Write>(&self, f: &mut fmt::Formatter<W>) -> fmt::Result {
        match self {
            WorkFault::Refused { line, rule } => write!(f, "line {line}: {rule:?}"),
            WorkFault::Memory => write!(f, "out of memory"),
        }
    }
}

impl Error for WorkFault {}

/// Appends the line that says which line of a workload is bad and why, with its line feed. A
/// refusal leaves `out` unchanged.
pub fn write_refusal(line: u64, rule: WorkRule, out: &mut Vec<u8>) -> Result<(), AllocError>
    ensures ok { OnOk result (out.new.items ≡ out.old.items ++ refusal_text line rule) }
    ensures err { OnErr result (out.new.items ≡ out.old.items) }
{
    let mut text = LineBuffer::new();
    text.push(b"workload refused at line ");
    text.push_number(line);
    text.push(b": ");
    text.push(rule.text());
    text.push(b"\n");
    out.extend_from_slice(text.as_slice())
}
