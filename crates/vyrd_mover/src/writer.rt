//! The text of a history, written.

ghost use Rattle.std.specs.Prelude.{◌≡◌, ◌≤◌, ◌++◌, ◌∷◌, [], true, length, take, flat_map, decimal};
ghost use Rattle.std.specs.Prelude.{OnOk, OnErr};
ghost use Rattle.std.specs.List.{AllByRecursion};
ghost use Rattle.vyrd_base.specs.Spelling.{ended_line};
ghost use Rattle.vyrd_mover.specs.HistoryText.{history_text, history_header_line, event_line};
ghost use Rattle.vyrd_mover.specs.Writable.{is_padded_did};

use std::alloc::AllocError;
use vyrd_base::{Did, Entry, Header, Stamped};
use vyrd_text::{LineBuffer, write_entry};

/// Appends the text of the history. A refusal leaves `out` unchanged.
///
/// Arguments that the method of a call doesn't have are 0. By the definition of reading the text
/// says this history again if the history is legal, its marks are of the header's subject, its
/// blocks are opened and ended in turn, and it has at most 3,999,998 events. That is the law
/// `history_is_read`. No call reads the text back as a history: a `HistoryReader` answers what is
/// said of its blocks. The time and the memory grow with the number of events.
pub fn write_history(
    header: Header,
    history: &[Stamped],
    out: &mut Vec<u8>,
) -> Result<(), AllocError>
    requires { AllByRecursion (λ e. is_padded_did e.did ≡ true) history.now }
    ensures ok { OnOk result (out.new.items
        ≡ out.old.items ++ history_text (record { header = header; history = history.now })) }
    ensures err { OnErr result (out.new.items ≡ out.old.items) }
{
    let start = out.len();
    let written = append_history(header, history, out);
    if written.is_err() {
        out.truncate(start);
    }
    written
}

/// Appends the text of the history, or a beginning of it if memory runs out.
fn append_history(header: Header, history: &[Stamped], out: &mut Vec<u8>) -> Result<(), AllocError>
    ensures ok { OnOk result (out.new.items
        ≡ out.old.items ++ history_text (record { header = header; history = history.now })) }
    ensures err { OnErr result (take (length out.old.items) out.new.items ≡ out.old.items) }
{
    write_history_header(header, out)?;
    append_events(history, out)?;
    out.extend_from_slice(b"end\n")
}

/// Appends the line of a history's header. A refusal leaves `out` unchanged.
pub fn write_history_header(header: Header, out: &mut Vec<u8>) -> Result<(), AllocError>
    ensures ok { OnOk result (out.new.items ≡ out.old.items
        ++ ended_line (history_header_line header.subject header.size header.callers)) }
    ensures err { OnErr result (out.new.items ≡ out.old.items) }
{
    let mut line = LineBuffer::new();
    line.push(b"history ");
    line.push(header.subject().name());
    line.push(b" ");
    line.push_number(u64::from(header.size()));
    line.push(b" ");
    line.push_number(u64::from(header.callers()));
    line.push(b"\n");
    out.extend_from_slice(line.as_slice())
}

/// Appends the events' lines, or a beginning of them if memory runs out.
fn append_events(history: &[Stamped], out: &mut Vec<u8>) -> Result<(), AllocError>
    ensures ok { OnOk result
        (out.new.items ≡ out.old.items ++ flat_map (λ e. ended_line (event_line e)) history.now) }
    ensures err { OnErr result (take (length out.old.items) out.new.items ≡ out.old.items) }
{
    for event in history {
        write_event(*event, out)?;
    }
    Ok(())
}

/// Appends the event's line with its line feed. A refusal leaves `out` unchanged.
///
/// After the header's line this is how a history is written event by event. Arguments that the
/// method of a call doesn't have aren't written.
pub fn write_event(event: Stamped, out: &mut Vec<u8>) -> Result<(), AllocError>
    ensures ok { OnOk result (out.new.items ≡ out.old.items ++ ended_line (event_line event)) }
    ensures err { OnErr result (out.new.items ≡ out.old.items) }
{
    let caller = event.caller;
    match event.did {
        Did::Read(cell, value) => append_access(caller, b" read ", cell, value, out),
        Did::Wrote(cell, value) => append_access(caller, b" wrote ", cell, value, out),
        Did::Took(lock) => append_lock(caller, b" took ", lock, out),
        Did::Gave(lock) => append_lock(caller, b" gave ", lock, out),
        Did::Marked(kind) => write_entry(&Entry { caller, kind }, out),
    }
}

/// Appends the line of a read or a write. A refusal leaves `out` unchanged.
fn append_access(
    caller: u32,
    word: &[u8],
    cell: u32,
    value: u64,
    out: &mut Vec<u8>,
) -> Result<(), AllocError>
    requires { length word.now ≤ 7 }
    ensures ok { OnOk result (out.new.items ≡ out.old.items
        ++ (decimal caller ++ (word.now ++ (decimal cell ++ 32 ∷ (decimal value ++ 10 ∷ []))))) }
    ensures err { OnErr result (out.new.items ≡ out.old.items) }
{
    let mut line = LineBuffer::new();
    line.push_number(u64::from(caller));
    line.push(word);
    line.push_number(u64::from(cell));
    line.push(b" ");
    line.push_number(value);
    line.push(b"\n");
    out.extend_from_slice(line.as_slice())
}

/// Appends the line of a take or a give. A refusal leaves `out` unchanged.
fn append_lock(caller: u32, word: &[u8], lock: u32, out: &mut Vec<u8>) -> Result<(), AllocError>
    requires { length word.now ≤ 7 }
    ensures ok { OnOk result (out.new.items
        ≡ out.old.items ++ (decimal caller ++ (word.now ++ (decimal lock ++ 10 ∷ [])))) }
    ensures err { OnErr result (out.new.items ≡ out.old.items) }
{
    let mut line = LineBuffer::new();
    line.push_number(u64::from(caller));
    line.push(word);
    line.push_number(u64::from(lock));
    line.push(b"\n");
    out.extend_from_slice(line.as_slice())
}
