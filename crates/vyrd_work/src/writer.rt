//! The text of a workload, written.

ghost use Rattle.std.specs.Prelude.{◌≡◌, ◌+◌, ◌≤◌, ◌++◌, length, take, flat_map, OnOk, OnErr};
ghost use Rattle.vyrd_base.specs.Spelling.{ended_line};
ghost use Rattle.vyrd_work.specs.Workloads.{workload_of, work_text, work_header_line, variant_name};
ghost use Rattle.vyrd_work.specs.Workloads.{item_line};

use crate::line::Item;
use crate::work::{Work, WorkOp};
use std::alloc::AllocError;
use vyrd_base::Header;
use vyrd_memory::{Turn, Variant};
use vyrd_text::{LineBuffer, push_call};

/// Appends the workload's text. A refusal leaves `out` unchanged.
///
/// If the workload keeps its limits, the text is read as this workload again; that is the law
/// `text_is_read`. The time and the memory grow with the operations and the lines of turns.
pub fn write_work(work: &Work, out: &mut Vec<u8>) -> Result<(), AllocError>
    ensures ok { OnOk result (out.new.items ≡ out.old.items ++ work_text (workload_of work.now)) }
    ensures err { OnErr result (out.new.items ≡ out.old.items) }
{
    let start = out.len();
    let written = append_work(work, out);
    if written.is_err() {
        out.truncate(start);
    }
    written
}

/// Appends the workload's text, or a part of it if memory runs out.
fn append_work(work: &Work, out: &mut Vec<u8>) -> Result<(), AllocError>
    ensures ok { OnOk result (out.new.items ≡ out.old.items ++ work_text (workload_of work.now)) }
    ensures err { OnErr result (take (length out.old.items) out.new.items ≡ out.old.items) }
{
    append_header(work.header, work.variant, out)?;
    append_ops(&work.ops, out)?;
    append_turns(&work.turns, out)?;
    out.extend_from_slice(b"end\n")
}

/// Appends the first line. A refusal leaves `out` unchanged.
fn append_header(header: Header, variant: Variant, out: &mut Vec<u8>) -> Result<(), AllocError>
    ensures ok { OnOk result (out.new.items ≡ out.old.items
        ++ ended_line (work_header_line header.subject header.size header.callers variant)) }
    ensures err { OnErr result (out.new.items ≡ out.old.items) }
{
    let mut line = LineBuffer::new();
    line.push(b"work ");
    line.push(header.subject().name());
    line.push(b" ");
    line.push_number(u64::from(header.size()));
    line.push(b" ");
    line.push_number(u64::from(header.callers()));
    line.push(b" ");
    line.push(name_of_variant(variant));
    line.push(b"\n");
    out.extend_from_slice(line.as_slice())
}

/// Appends the operations' lines, or some of them if memory runs out.
fn append_ops(ops: &[WorkOp], out: &mut Vec<u8>) -> Result<(), AllocError>
    ensures ok { OnOk result (out.new.items
        ≡ out.old.items ++ flat_map (λ o. ended_line (item_line (Item.Op o))) ops.now) }
    ensures err { OnErr result (take (length out.old.items) out.new.items ≡ out.old.items) }
{
    let mut line = LineBuffer::new();
    for op in ops {
        line.clear();
        push_op(*op, &mut line);
        line.push(b"\n");
        out.extend_from_slice(line.as_slice())?;
    }
    Ok(())
}

/// Appends the lines of turns, or some of them if memory runs out.
fn append_turns(turns: &[Turn], out: &mut Vec<u8>) -> Result<(), AllocError>
    ensures ok { OnOk result (out.new.items
        ≡ out.old.items ++ flat_map (λ t. ended_line (item_line (Item.Turns t))) turns.now) }
    ensures err { OnErr result (take (length out.old.items) out.new.items ≡ out.old.items) }
{
    let mut line = LineBuffer::new();
    for turn in turns {
        line.clear();
        push_turn(*turn, &mut line);
        line.push(b"\n");
        out.extend_from_slice(line.as_slice())?;
    }
    Ok(())
}

/// Puts the operation's spelling into an empty line.
fn push_op(op: WorkOp, line: &mut LineBuffer)
    requires { length line.old ≡ 0 }
    ensures text { line.new ≡ line.old ++ item_line (Item.Op op) }
    ensures len { length line.new ≤ 127 }
{
    line.push(b"op ");
    line.push_number(u64::from(op.caller));
    line.push(b" ");
    push_call(op.op.method, op.op.args, line);
}

/// Puts the spelling of turns into an empty line.
fn push_turn(turn: Turn, line: &mut LineBuffer)
    requires { length line.old ≡ 0 }
    ensures text { line.new ≡ line.old ++ item_line (Item.Turns turn) }
    ensures len { length line.new ≤ 127 }
{
    line.push(b"turn ");
    line.push_number(u64::from(turn.caller));
    line.push(b" ");
    line.push_number(u64::from(turn.count));
}

/// The variant's name.
fn name_of_variant(variant: Variant) -> &'static [u8]
    ensures text { result.now ≡ variant_name variant }
    ensures len { length result.now ≤ 7 }
{
    match variant {
        Variant::Correct => b"correct",
        Variant::Broken => b"broken",
    }
}
