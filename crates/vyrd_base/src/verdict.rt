//! The rules of text and of shape, and the verdict. Lines are counted from 1, where the header
//! stands.

use crate::own::SpecificationRule;

/// A rule that a log can break: the rules of text, which lines break, and then those of shape,
/// which entries break. If a line or an entry breaks several, the rule that is named is the first
/// in the order of its table.
#[derive(Clone, Copy, Debug, PartialEq, Eq)]
pub enum Rule {
    /// Text: the line's number is above the reader's limit.
    TooManyLines,
    /// Text: a byte follows the line `end`.
    AfterEnd,
    /// Text: line 1 isn't the spelling of a header.
    BadHeader,
    /// Text: line 1 spells a header whose version is neither 1 nor 2.
    UnknownVersion,
    /// Text: a later line spells neither an entry of the subject nor `end`, nor a starting word
    /// where one may stand: right after the header or another starting word, in version 2.
    BadEntry,
    /// Text: a starting word isn't below the number of plain words, or its value is 0 or isn't
    /// below 2^63.
    StartRange,
    /// Text: a starting word isn't greater than the one before it.
    StartOrder,
    /// Text, in version 3: the line is no line of the specification in front of the log.
    Specification(SpecificationRule),
    /// Text: the input ends inside this line.
    NoLineFeed,
    /// Text: the input ends after a line feed, and no `end` was read. The line is the one after the
    /// last.
    NoEnd,
    /// The starting words stand for no state of the specification. The line is 2, where the first
    /// of them stands.
    StartState,
    /// The caller isn't below the header's callers.
    CallerRange,
    /// A call's method isn't of the header's subject.
    MethodOther,
    /// A call's chunk isn't below the size, or an argument that the method doesn't have isn't 0.
    ArgumentRange,
    /// A call while the caller has an open execution.
    CallInCall,
    /// Any other entry while the caller has no open execution.
    NoCall,
    /// A return while the caller has an open block.
    ReturnInBlock,
    /// An execution that has to commit returns without a commit.
    NoCommit,
    /// A written word isn't below the number of plain words.
    WordRange,
    /// A written value isn't below 2^63.
    ValueRange,
    /// A write to a word that an open block of another caller has written, or on which a write of
    /// another caller took effect after the commit inside the writer's open block.
    BlockRaced,
    /// An observer commits.
    ObserverCommit,
    /// The execution has its commit already.
    SecondCommit,
    /// A lone commit while the caller has an open block, in version 1.
    CommitInBlock,
    /// A block begins while the caller has an open block.
    BlockInBlock,
    /// A block ends while the caller has none open.
    NoBlock,
    /// `end` stands while some execution is open. The line is that of `end`.
    CallOpen,
}

/// What is wrong at a violation.
#[derive(Clone, Copy, Debug, PartialEq, Eq)]
pub enum Why {
    /// This reply, of a mutator, isn't allowed in the state before the commit.
    Reply(u64),
    /// The view of the words and that of the state after the commit differ at this key, and at no
    /// lesser one.
    View(u64),
    /// This reply, of an execution without a commit, is the answer of no state from the call to the
    /// return.
    Observer(u64),
}

/// The answer about a log: starting words that stand for no state, or its first fault, or its first
/// broken rule, in this order; or that it is accepted.
#[derive(Clone, Copy, Debug, PartialEq, Eq)]
pub enum Verdict {
    /// The log keeps the rules, and its run does what the specification allows.
    Accepted {
        /// All entries, without the header, the starting words and `end`.
        entries: u64,
        /// The commits, lone ones and those of blocks.
        commits: u64,
        /// The returns without a commit, which are those of observers if no method may commit at
        /// most once.
        observers: u64,
    },
    /// The commit on this line, or the return without a commit, does what the specification doesn't
    /// allow.
    Violation {
        /// The line of the commit or of the return.
        line: u64,
        /// What is wrong there.
        why: Why,
    },
    /// This line breaks a rule, and nothing before it is a violation.
    Malformed {
        /// The line that breaks it.
        line: u64,
        /// The rule.
        rule: Rule,
    },
}

/// How the text of a log stops after its starting words and entries.
#[derive(Clone, Copy, Debug, PartialEq, Eq)]
pub enum Stop {
    /// `end` stands after them, and nothing follows it.
    End,
    /// A rule of text is broken on this line. With s starting words and n entries line s + n + 3
    /// comes after an `end` on line s + n + 2.
    Text { line: u64, rule: Rule },
}
