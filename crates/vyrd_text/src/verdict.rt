//! The line that a verdict is written as.

ghost use Rattle.std.specs.Prelude.{◌≡◌, ◌+◌, ◌≤◌, ◌++◌, length, OnOk, OnErr};
ghost use Rattle.vyrd_base.specs.VerdictText.{verdict_text, verdict_words, why_text, rule_text};
ghost use Rattle.vyrd_base.specs.VerdictText.{specification_text};

use crate::line_buffer::LineBuffer;
use std::alloc::AllocError;
use vyrd_base::{Rule, SpecificationRule, Verdict, Why};

/// Appends the verdict's line, with its line feed. A refusal leaves `out` unchanged.
#[tactic(auto, unfolding(vyrd_base::specs::VerdictText::verdict_text))]
pub fn write_verdict(verdict: &Verdict, out: &mut Vec<u8>) -> Result<(), AllocError>
    ensures ok { OnOk result (out.new.items ≡ out.old.items ++ verdict_text verdict.now) }
    ensures err { OnErr result (out.new.items ≡ out.old.items) }
{
    let mut line = LineBuffer::new();
    push_words(*verdict, &mut line);
    line.push(b"\n");
    out.extend_from_slice(line.as_slice())
}

/// Puts the verdict's words at the end of the line.
fn push_words(verdict: Verdict, line: &mut LineBuffer)
    requires { length line.old ≤ 8 }
    ensures words { line.new ≡ line.old ++ verdict_words verdict }
    ensures len { length line.new ≤ length line.old + 100 }
{
    match verdict {
        Verdict::Accepted {
            entries,
            commits,
            observers,
        } => {
            line.push(b"accepted: ");
            line.push_number(entries);
            line.push(b" entries, ");
            line.push_number(commits);
            line.push(b" commits, ");
            line.push_number(observers);
            line.push(b" observers");
        }
        Verdict::Violation { line: number, why } => {
            line.push(b"violation at line ");
            line.push_number(number);
            line.push(b": ");
            push_why(why, line);
        }
        Verdict::Malformed { line: number, rule } => {
            line.push(b"malformed at line ");
            line.push_number(number);
            line.push(b": ");
            line.push(text_of_rule(rule));
        }
    }
}

/// Puts what is wrong at the end of the line.
fn push_why(why: Why, line: &mut LineBuffer)
    requires { length line.old ≤ 64 }
    ensures words { line.new ≡ line.old ++ why_text why }
    ensures len { length line.new ≤ length line.old + 47 }
{
    match why {
        Why::Reply(reply) => {
            line.push(b"reply ");
            line.push_number(reply);
            line.push(b" not allowed");
        }
        Why::View(key) => {
            line.push(b"view differs at key ");
            line.push_number(key);
        }
        Why::Observer(reply) => {
            line.push(b"observer reply ");
            line.push_number(reply);
            line.push(b" in no state");
        }
    }
}

/// The rule's text.
fn text_of_rule(rule: Rule) -> &'static [u8]
    ensures text { result.now ≡ rule_text rule }
    ensures len { length result.now ≤ 25 }
{
    match rule {
        Rule::TooManyLines => b"too many lines",
        Rule::AfterEnd => b"text after end",
        Rule::BadHeader => b"bad header",
        Rule::UnknownVersion => b"unknown version",
        Rule::BadEntry => b"bad entry",
        Rule::StartRange => b"start out of range",
        Rule::StartOrder => b"start word not rising",
        Rule::Specification(rule) => text_of_specification_rule(rule),
        Rule::NoLineFeed => b"no line feed",
        Rule::NoEnd => b"no end",
        Rule::StartState => b"start stands for no state",
        Rule::CallerRange => b"caller out of range",
        Rule::MethodOther => b"method of another subject",
        Rule::ArgumentRange => b"argument out of range",
        Rule::CallInCall => b"call inside a call",
        Rule::NoCall => b"no call open",
        Rule::ReturnInBlock => b"return inside a block",
        Rule::NoCommit => b"no commit",
        Rule::WordRange => b"word out of range",
        Rule::ValueRange => b"value out of range",
        Rule::BlockRaced => b"block raced",
        Rule::ObserverCommit => b"observer commits",
        Rule::SecondCommit => b"second commit",
        Rule::CommitInBlock => b"commit inside a block",
        Rule::BlockInBlock => b"block inside a block",
        Rule::NoBlock => b"no block open",
        Rule::CallOpen => b"call not returned",
    }
}

/// The text of a rule of specifications.
fn text_of_specification_rule(rule: SpecificationRule) -> &'static [u8]
    ensures text { result.now ≡ specification_text rule }
    ensures len { length result.now ≤ 25 }
{
    match rule {
        SpecificationRule::TooLong => b"line too long",
        SpecificationRule::BadLine => b"bad specification line",
        SpecificationRule::OutOfPlace => b"line out of place",
        SpecificationRule::NameTaken => b"name taken",
        SpecificationRule::UnknownName => b"unknown name",
        SpecificationRule::TooMany => b"too many",
        SpecificationRule::TooDeep => b"too deep",
        SpecificationRule::StateIsRead => b"state is read here",
        SpecificationRule::NoCase => b"method without a case",
        SpecificationRule::NoMethod => b"no method",
    }
}
