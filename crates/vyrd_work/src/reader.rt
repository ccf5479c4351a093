//! The reader of a workload's text.

ghost use Rattle.std.specs.Prelude.{◌≡◌, ◌==◌, true, [], None, Ok, IfOk, IfErr, OnOk};
ghost use Rattle.std.specs.List.{slice_split};
ghost use Rattle.vyrd_base.specs.Subjects.{subject_of, same_subject};
ghost use Rattle.vyrd_work.specs.Workloads.{Workload, workload_of};
ghost use Rattle.vyrd_work.specs.WorkLines.{is_item_of};
ghost use Rattle.vyrd_work.specs.WorkReading.{turns_in, broken_by, with_item, line_read};
ghost use Rattle.vyrd_work.specs.WorkReading.{first_read, unfinished_rule, ended, lines_read};
ghost use Rattle.vyrd_work.specs.WorkReading.{work_reading};
ghost use Rattle.vyrd_work.specs.WorkLimits.{KeepsLimits};
ghost use Rattle.vyrd_work.specs.Refusals.{IsRefusal, IsRefusedAt};

use crate::fault::{WorkFault, WorkRule};
use crate::line::{Item, MOST_TURNS, read_first, read_item};
use crate::work::{Work, WorkOp};
use std::alloc::{AllocError, Global};
use vyrd_memory::Turn;
use vyrd_text::{is_word, split_line};

/// The longest line, without its line feed.
const LONGEST: usize = 64;

/// The most operations, and the most lines of turns.
const MOST_LINES: usize = 200_000;

/// The workload that the bytes say.
///
/// `Refused` comes exactly when they aren't a workload's text, with the first bad line and the
/// first rule that it breaks. `Memory` may come at any time. The time grows with the bytes, the
/// memory with the operations and the turns.
pub fn read_work(alloc: Global, bytes: &[u8]) -> Result<Work, WorkFault>
    ensures work { IfOk result (λ work. work_reading bytes.now ≡ Ok (workload_of work)) }
    ensures limits { IfOk result (λ work. KeepsLimits (workload_of work)) }
    ensures refused { IfErr result (λ fault. IsRefusal fault (work_reading bytes.now)) }
{
    let Some((line, rest)) = split_line(bytes) else {
        return Err(WorkFault::Refused {
            line: 1,
            rule: unfinished_rule(WorkRule::BadHeader, bytes),
        });
    };
    let mut work = read_first_line(alloc, line)?;
    read_lines(rest, &mut work)?;
    Ok(work)
}

/// The workload that begins with line 1.
fn read_first_line(alloc: Global, line: &[u8]) -> Result<Work, WorkFault>
    ensures ok { IfOk result (λ work. first_read line.now ≡ Ok (workload_of work)) }
    ensures empty { IfOk result (λ work. work.turns.items ≡ []) }
    ensures err { IfErr result (λ fault. IsRefusedAt 1 fault (first_read line.now)) }
{
    let Some((header, variant)) = read_first(line) else {
        return Err(WorkFault::Refused {
            line: 1,
            rule: WorkRule::BadHeader,
        });
    };
    Ok(Work {
        header,
        variant,
        ops: Vec::new(alloc),
        turns: Vec::new(alloc),
    })
}

/// Takes in the lines from line 2 on.
fn read_lines(text: &[u8], work: &mut Work) -> Result<(), WorkFault>
    requires { work.old.turns.items ≡ [] }
    ensures ok { OnOk result (lines_read (workload_of work.old) 2
        (slice_split (λ b. b == 10) text.now)
        ≡ Ok (workload_of work.new)) }
    ensures err { IfErr result (λ fault. IsRefusal fault
        (lines_read (workload_of work.old) 2 (slice_split (λ b. b == 10) text.now))) }
{
    let mut rest = text;
    let mut number: u64 = 2;
    let mut turns: u32 = 0;
    while let Some((line, next)) = split_line(rest) {
        if is_word(line, b"end") {
            return end(number + 1, next);
        }
        turns = take_line(number, line, turns, work)?;
        number += 1;
        rest = next;
    }
    Err(WorkFault::Refused {
        line: number,
        rule: unfinished_rule(WorkRule::BadLine, rest),
    })
}

/// Nothing may follow the line `end`. Line `number` comes after it.
fn end(number: u64, rest: &[u8]) -> Result<(), WorkFault>
    ensures ok { (w : Workload)
        → OnOk result (ended w number (slice_split (λ b. b == 10) rest.now) ≡ Ok w) }
    ensures err { (w : Workload)
        → IfErr result
        (λ fault. IsRefusal fault (ended w number (slice_split (λ b. b == 10) rest.now))) }
{
    if rest.is_empty() {
        return Ok(());
    }
    Err(WorkFault::Refused {
        line: number,
        rule: WorkRule::AfterEnd,
    })
}

/// Takes in a line that isn't `end`, and answers the sum of all turns after it.
fn take_line(number: u64, line: &[u8], turns: u32, work: &mut Work) -> Result<u32, WorkFault>
    requires { turns ≡ turns_in work.old.turns.items }
    ensures ok { IfOk result
        (λ sum. line_read (workload_of work.old) line.now ≡ Ok (workload_of work.new)) }
    ensures sum { IfOk result (λ sum. sum ≡ turns_in work.new.turns.items) }
    ensures err { IfErr result
        (λ fault. IsRefusedAt number fault (line_read (workload_of work.old) line.now)) }
{
    let Some(item) = read_item(work.header.subject(), line) else {
        return Err(WorkFault::Refused {
            line: number,
            rule: WorkRule::BadLine,
        });
    };
    if let Some(rule) = broken_rule(work, turns, item) {
        return Err(WorkFault::Refused { line: number, rule });
    }
    match put(item, turns, work) {
        Ok(sum) => Ok(sum),
        Err(_) => Err(WorkFault::Memory),
    }
}

/// Puts what a line says at the end of the workload, if it breaks no rule, and answers the sum of
/// all turns after it.
fn put(item: Item, turns: u32, work: &mut Work) -> Result<u32, AllocError>
    requires sum { turns ≡ turns_in work.old.turns.items }
    requires fits { broken_by (workload_of work.old) item ≡ None }
    ensures ok { IfOk result (λ sum. workload_of work.new ≡ with_item (workload_of work.old) item) }
    ensures sum { IfOk result (λ sum. sum ≡ turns_in work.new.turns.items) }
{
    match item {
        Item::Op(op) => {
            work.ops.push(op)?;
            Ok(turns)
        }
        Item::Turns(more) => {
            work.turns.push(more)?;
            Ok(turns + more.count)
        }
    }
}

/// The first rule that the item breaks after the workload so far, which has this many turns.
fn broken_rule(work: &Work, turns: u32, item: Item) -> Option<WorkRule>
    requires sum { turns ≡ turns_in work.now.turns.items }
    requires subject { is_item_of work.now.header.subject item ≡ true }
    ensures { result ≡ broken_by (workload_of work.now) item }
{
    match item {
        Item::Op(op) => rule_of_op(work, op),
        Item::Turns(more) => rule_of_turns(work, turns, more),
    }
}

/// The first rule that the operation breaks.
fn rule_of_op(work: &Work, op: WorkOp) -> Option<WorkRule>
    requires { same_subject (subject_of op.op.method) work.now.header.subject ≡ true }
    ensures { result ≡ broken_by (workload_of work.now) (Item.Op op) }
{
    if work.header.callers() <= op.caller {
        return Some(WorkRule::CallerRange);
    }
    if !work.header.fits(op.op.method, op.op.args) {
        return Some(WorkRule::ArgumentRange);
    }
    if !work.turns.is_empty() {
        return Some(WorkRule::OpAfterTurn);
    }
    if work.ops.len() >= MOST_LINES {
        return Some(WorkRule::TooManyOps);
    }
    None
}

/// The first rule that these turns break after this many others.
fn rule_of_turns(work: &Work, turns: u32, more: Turn) -> Option<WorkRule>
    requires { turns ≡ turns_in work.now.turns.items }
    ensures { result ≡ broken_by (workload_of work.now) (Item.Turns more) }
{
    if work.header.callers() <= more.caller {
        return Some(WorkRule::CallerRange);
    }
    let sum = u64::from(turns) + u64::from(more.count);
    if work.turns.len() >= MOST_LINES || sum > u64::from(MOST_TURNS) {
        return Some(WorkRule::TooManyTurns);
    }
    None
}

/// The rule that the bytes after the last line feed break; a line that begins with more than 64
/// bytes breaks `bad`.
fn unfinished_rule(bad: WorkRule, rest: &[u8]) -> WorkRule
    ensures { result ≡ unfinished_rule bad rest.now }
{
    if rest.len() > LONGEST {
        bad
    } else if rest.is_empty() {
        WorkRule::NoEnd
    } else {
        WorkRule::NoLineFeed
    }
}
