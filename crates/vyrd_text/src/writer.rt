//! The text of a log, written.

ghost use Rattle.std.specs.Prelude.{◌≡◌, ◌+◌, ◌≤◌, [], ◌∷◌, ◌++◌, true, length, take, flat_map};
ghost use Rattle.std.specs.Prelude.{decimal, OnOk, OnErr};
ghost use Rattle.std.specs.List.{AllByRecursion};
ghost use Rattle.vyrd_base.specs.Starts.{may_start};
ghost use Rattle.vyrd_base.specs.Spelling.{log_text, start_line, entry_line, ended_line};
ghost use Rattle.vyrd_base.specs.Spelling.{header_line, method_name, subject_name};
ghost use Rattle.vyrd_text.specs.Spelled.{call_text, kind_text};
ghost use Rattle.vyrd_text.specs.Written.{is_writable};

use crate::line_buffer::LineBuffer;
use std::alloc::AllocError;
use vyrd_base::{Args, Entry, Header, Kind, Method, StartWord};

/// Appends the one spelling of the entry, without a line feed. A refusal leaves `out` unchanged.
///
/// Arguments that the method doesn't have aren't written.
pub fn write_line(entry: &Entry, out: &mut Vec<u8>) -> Result<(), AllocError>
    ensures ok { OnOk result (out.new.items ≡ out.old.items ++ entry_line entry.now) }
    ensures err { OnErr result (out.new.items ≡ out.old.items) }
{
    let mut line = LineBuffer::new();
    push_entry(*entry, &mut line);
    out.extend_from_slice(line.as_slice())
}

/// Appends the entry's line with its line feed. A refusal leaves `out` unchanged.
///
/// After the header's line this is how a log is written entry by entry. Arguments that the method
/// doesn't have aren't written.
pub fn write_entry(entry: &Entry, out: &mut Vec<u8>) -> Result<(), AllocError>
    ensures ok { OnOk result (out.new.items ≡ out.old.items ++ ended_line (entry_line entry.now)) }
    ensures err { OnErr result (out.new.items ≡ out.old.items) }
{
    let mut line = LineBuffer::new();
    push_entry(*entry, &mut line);
    line.push(b"\n");
    out.extend_from_slice(line.as_slice())
}

/// Appends the text of a log without starting words. A refusal leaves `out` unchanged.
///
/// Each method is of the header's subject, and arguments that it doesn't have are 0. The time and
/// the memory grow with the number of entries.
pub fn write_log(header: Header, entries: &[Entry], out: &mut Vec<u8>) -> Result<(), AllocError>
    requires { AllByRecursion (λ e. is_writable header.subject e ≡ true) entries.now }
    ensures ok { OnOk result (out.new.items ≡ out.old.items ++ log_text header [] entries.now) }
    ensures err { OnErr result (out.new.items ≡ out.old.items) }
{
    write_started(header, &[], entries, out)
}

/// Appends the text of a log with its starting words. A refusal leaves `out` unchanged.
///
/// The words rise, each is below the header's number of plain words and its value is from 1 to
/// below 2^63; in version 1 there are none. Each method is of the header's subject, and arguments
/// that it doesn't have are 0. The time and the memory grow with the number of starting words and
/// entries.
pub fn write_started(
    header: Header,
    start: &[StartWord],
    entries: &[Entry],
    out: &mut Vec<u8>,
) -> Result<(), AllocError>
    requires start { may_start header start.now ≡ true }
    requires entries { AllByRecursion (λ e. is_writable header.subject e ≡ true) entries.now }
    ensures ok { OnOk result
        (out.new.items ≡ out.old.items ++ log_text header start.now entries.now) }
    ensures err { OnErr result (out.new.items ≡ out.old.items) }
{
    let len = out.len();
    let written = append_log(header, start, entries, out);
    if written.is_err() {
        out.truncate(len);
    }
    written
}

/// Appends the text of the log, or a part of it if memory runs out.
fn append_log(
    header: Header,
    start: &[StartWord],
    entries: &[Entry],
    out: &mut Vec<u8>,
) -> Result<(), AllocError>
    ensures ok { OnOk result
        (out.new.items ≡ out.old.items ++ log_text header start.now entries.now) }
    ensures err { OnErr result (take (length out.old.items) out.new.items ≡ out.old.items) }
{
    write_header(header, out)?;
    append_start(start, out)?;
    append_entries(entries, out)?;
    out.extend_from_slice(b"end\n")
}

/// Appends the line of a log's header. A refusal leaves `out` unchanged.
pub fn write_header(header: Header, out: &mut Vec<u8>) -> Result<(), AllocError>
    ensures ok { OnOk result (out.new.items ≡ out.old.items
        ++ ended_line (header_line header.version header.subject header.size header.callers)) }
    ensures err { OnErr result (out.new.items ≡ out.old.items) }
{
    let mut line = LineBuffer::new();
    line.push(b"vyrd ");
    line.push_number(u64::from(header.version()));
    line.push(b" ");
    line.push(header.subject().name());
    line.push(b" ");
    line.push_number(u64::from(header.size()));
    line.push(b" ");
    line.push_number(u64::from(header.callers()));
    line.push(b"\n");
    out.extend_from_slice(line.as_slice())
}

/// Appends the starting words' lines, or some of them if memory runs out.
fn append_start(start: &[StartWord], out: &mut Vec<u8>) -> Result<(), AllocError>
    ensures ok { OnOk result
        (out.new.items ≡ out.old.items ++ flat_map (λ s. ended_line (start_line s)) start.now) }
    ensures err { OnErr result (take (length out.old.items) out.new.items ≡ out.old.items) }
{
    let mut line = LineBuffer::new();
    for word in start {
        line.clear();
        push_start(*word, &mut line);
        line.push(b"\n");
        out.extend_from_slice(line.as_slice())?;
    }
    Ok(())
}

/// Puts the starting word's spelling at the end of the line.
fn push_start(start: StartWord, line: &mut LineBuffer)
    requires { length line.old ≡ 0 }
    ensures text { line.new ≡ line.old ++ start_line start }
    ensures len { length line.new ≤ 127 }
{
    line.push(b"start ");
    line.push_number(u64::from(start.word));
    line.push(b" ");
    line.push_number(start.value);
}

/// Appends the entries' lines, or some of them if memory runs out.
fn append_entries(entries: &[Entry], out: &mut Vec<u8>) -> Result<(), AllocError>
    ensures ok { OnOk result
        (out.new.items ≡ out.old.items ++ flat_map (λ e. ended_line (entry_line e)) entries.now) }
    ensures err { OnErr result (take (length out.old.items) out.new.items ≡ out.old.items) }
{
    let mut line = LineBuffer::new();
    for entry in entries {
        line.clear();
        push_entry(*entry, &mut line);
        line.push(b"\n");
        out.extend_from_slice(line.as_slice())?;
    }
    Ok(())
}

/// Puts the entry's spelling at the end of the line.
fn push_entry(entry: Entry, line: &mut LineBuffer)
    requires { length line.old ≡ 0 }
    ensures text { line.new ≡ line.old ++ entry_line entry }
    ensures len { length line.new ≤ 127 }
{
    line.push_number(u64::from(entry.caller));
    line.push(b" ");
    push_kind(entry.kind, line);
}

/// Puts what the entry says of its caller at the end of the line.
fn push_kind(kind: Kind, line: &mut LineBuffer)
    requires { length line.old ≤ 21 }
    ensures text { line.new ≡ line.old ++ kind_text kind }
    ensures len { length line.new ≤ length line.old + 100 }
{
    match kind {
        Kind::Call(method, args) => {
            line.push(b"call ");
            push_call(method, args, line);
        }
        Kind::Return(reply) => {
            line.push(b"return ");
            line.push_number(reply);
        }
        Kind::Write(word, value) => {
            line.push(b"write ");
            line.push_number(u64::from(word));
            line.push(b" ");
            line.push_number(value);
        }
        Kind::Commit => line.push(b"commit"),
        Kind::BlockOpen => line.push(b"open"),
        Kind::BlockClose => line.push(b"close"),
        Kind::BlockCommit => line.push(b"close commit"),
    }
}

/// Puts the method's name and the arguments that it has at the end of the line, each argument after
/// a space.
pub fn push_call(method: Method, args: Args, line: &mut LineBuffer)
    requires { length line.old ≤ 30 }
    ensures text { line.new ≡ line.old ++ call_text method args }
    ensures len { length line.new ≤ length line.old + 80 }
{
    line.push(method.name());
    push_args(method.arity(), args, line);
}

/// Puts the first `arity` arguments at the end of the line, each after a space.
fn push_args(arity: u32, args: Args, line: &mut LineBuffer)
    requires room { length line.old ≤ 41 }
    ensures text { line.new ≡ line.old
        ++ flat_map (λ n. 32 ∷ decimal n) (take arity (args.a ∷ args.b ∷ args.c ∷ [])) }
    ensures len { length line.new ≤ length line.old + 63 }
{
    if arity == 0 {
        return;
    }
    line.push(b" ");
    line.push_number(u64::from(args.a));
    if arity == 1 {
        return;
    }
    line.push(b" ");
    line.push_number(u64::from(args.b));
    if arity == 2 {
        return;
    }
    line.push(b" ");
    line.push_number(u64::from(args.c));
}
