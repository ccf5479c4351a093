//! What is answered about a batch.

ghost use Rattle.std.specs.Prelude.{◌≡◌, ◌++◌, ◌+◌, ◌<◌, ◌^◌, length, take, OnOk, OnErr};
ghost use Rattle.std.specs.List.{list_any};
ghost use Rattle.vyrd_batch.specs.BatchAnswers.{log_line, lines_from, batch_text, batch_status};
ghost use Rattle.vyrd_batch.specs.BatchAnswers.{refused_line, count_line, is_violation};
ghost use Rattle.vyrd_batch.specs.BatchAnswers.{is_malformed};

use std::alloc::AllocError;
use vyrd_base::Verdict;
use vyrd_text::{LineBuffer, write_verdict};

/// Appends a line for each verdict, in their order, and then the line that counts the logs. A
/// refusal leaves `out` unchanged.
pub fn write_verdicts(verdicts: &[Verdict], out: &mut Vec<u8>) -> Result<(), AllocError>
    requires { length verdicts.now < 2 ^ 62 }
    ensures ok { OnOk result (out.new.items ≡ out.old.items ++ batch_text verdicts.now) }
    ensures err { OnErr result (out.new.items ≡ out.old.items) }
{
    let start = out.len();
    let written = write_all(verdicts, out);
    if written.is_err() {
        out.truncate(start);
    }
    written
}

/// Appends all of that, or a part of it if memory ran out.
#[tactic(auto, unfolding(crate::specs::BatchAnswers::batch_text))]
fn write_all(verdicts: &[Verdict], out: &mut Vec<u8>) -> Result<(), AllocError>
    requires { length verdicts.now < 2 ^ 62 }
    ensures ok { OnOk result (out.new.items ≡ out.old.items ++ batch_text verdicts.now) }
    ensures err { OnErr result (take (length out.old.items) out.new.items ≡ out.old.items) }
{
    write_lines(verdicts, out)?;
    write_count(verdicts.len() as u64, out)
}

/// Appends a line for each verdict, or a part of them if memory ran out.
fn write_lines(verdicts: &[Verdict], out: &mut Vec<u8>) -> Result<(), AllocError>
    requires { length verdicts.now < 2 ^ 62 }
    ensures ok { OnOk result (out.new.items ≡ out.old.items ++ lines_from 0 verdicts.now) }
    ensures err { OnErr result (take (length out.old.items) out.new.items ≡ out.old.items) }
{
    for (log, verdict) in verdicts.iter().enumerate() {
        write_log_line(log as u64, verdict, out)?;
    }
    Ok(())
}

/// Appends the line that counts the logs.
fn write_count(logs: u64, out: &mut Vec<u8>) -> Result<(), AllocError>
    ensures ok { OnOk result (out.new.items ≡ out.old.items ++ count_line logs) }
    ensures err { OnErr result (out.new.items ≡ out.old.items) }
{
    let mut line = LineBuffer::new();
    line.push(b"batch: ");
    line.push_number(logs);
    line.push(b" logs\n");
    out.extend_from_slice(line.as_slice())
}

/// Appends the line of a log's verdict, or a part of it if memory ran out.
fn write_log_line(log: u64, verdict: &Verdict, out: &mut Vec<u8>) -> Result<(), AllocError>
    ensures ok { OnOk result (out.new.items ≡ out.old.items ++ log_line log verdict.now) }
    ensures err { OnErr result (take (length out.old.items) out.new.items ≡ out.old.items) }
{
    let mut line = LineBuffer::new();
    line.push(b"log ");
    line.push_number(log);
    line.push(b": ");
    out.extend_from_slice(line.as_slice())?;
    write_verdict(verdict, out)
}

/// Appends the line that says at which log a batch is refused. A refusal leaves `out` unchanged.
pub fn write_refusal(log: u64, out: &mut Vec<u8>) -> Result<(), AllocError>
    ensures ok { OnOk result (out.new.items ≡ out.old.items ++ refused_line log) }
    ensures err { OnErr result (out.new.items ≡ out.old.items) }
{
    let mut line = LineBuffer::new();
    line.push(b"batch refused at log ");
    line.push_number(log);
    line.push(b"\n");
    out.extend_from_slice(line.as_slice())
}

/// The status that the verdicts about a batch's logs end with: 1 if some is a violation, otherwise
/// 2 if some is malformed, and otherwise 0.
pub fn status_of(verdicts: &[Verdict]) -> u8
    ensures { result ≡ batch_status verdicts.now }
{
    if has_violation(verdicts) {
        return 1;
    }
    if has_malformed(verdicts) {
        return 2;
    }
    0
}

/// Whether some verdict is a violation.
fn has_violation(verdicts: &[Verdict]) -> bool
    ensures { result ≡ list_any is_violation verdicts.now }
{
    verdicts.iter().any(is_violation)
}

/// Whether some verdict is malformed.
fn has_malformed(verdicts: &[Verdict]) -> bool
    ensures { result ≡ list_any is_malformed verdicts.now }
{
    verdicts.iter().any(is_malformed)
}

/// Whether a verdict is a violation.
fn is_violation(verdict: &Verdict) -> bool
    ensures { result ≡ is_violation verdict.now }
{
    matches!(verdict, Verdict::Violation { .. })
}

/// Whether a verdict is malformed.
fn is_malformed(verdict: &Verdict) -> bool
    ensures { result ≡ is_malformed verdict.now }
{
    matches!(verdict, Verdict::Malformed { .. })
}
