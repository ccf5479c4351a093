//! One line of a history: what it spells.

ghost use Rattle.std.specs.Prelude.{◌≡◌, ◌++◌, codes};
ghost use Rattle.vyrd_base.specs.Lines.{fields_of};
ghost use Rattle.vyrd_base.specs.declared.subject.Subject.{Subject};
ghost use Rattle.vyrd_mover.specs.HistoryLines.{history_header_in, event_in, mark_of, act_from};
ghost use Rattle.vyrd_mover.specs.HistorySpelled.{IsFirstRead, AreBoundsRead, IsActRead};
ghost use Rattle.vyrd_mover.specs.HistorySpelled.{IsPairRead, IsStampedRead};

use vyrd_base::{Did, Entry, Header, Kind, Stamped, Subject};
use vyrd_text::{after, read_line, read_subject, read_u32, read_u32_and_space, read_u64};

/// The header that the first line spells, without the line feed. `None` exactly when it spells none
/// within the limits.
pub(crate) fn read_first(line: &[u8]) -> Option<Header>
    ensures { result ≡ history_header_in line.now }
{
    let (subject, size, callers) = read_words(line)?;
    let header = Header::new(1, subject, size, callers)?;
    Some(header)
}

/// What the first line says.
fn read_words(line: &[u8]) -> Option<(Subject, u32, u32)>
    ensures { IsFirstRead line.now result }
{
    let rest = after(line, b"history ")?;
    let (subject, rest) = read_subject(rest)?;
    let (size, callers) = read_bounds(rest)?;
    Some((subject, size, callers))
}

/// The size and the number of callers.
fn read_bounds(text: &[u8]) -> Option<(u32, u32)>
    ensures { AreBoundsRead text.now result }
{
    let (size, rest) = read_u32_and_space(text)?;
    let callers = read_u32(rest)?;
    Some((size, callers))
}

/// The event that a later line spells, without the line feed, with this number. `None` exactly when
/// it spells none.
pub(crate) fn read_event(subject: Subject, number: u64, line: &[u8]) -> Option<Stamped>
    ensures { result ≡ event_in subject number line.now }
{
    match read_line(subject, line) {
        Some(entry) => mark_of(number, entry),
        None => read_act(subject, number, line),
    }
}

/// The mark that an entry is: none if it is a write.
fn mark_of(number: u64, entry: Entry) -> Option<Stamped>
    ensures { result ≡ mark_of number entry }
{
    match entry.kind {
        Kind::Write(_, _) => None,
        kind => Some(Stamped {
            number,
            caller: entry.caller,
            did: Did::Marked(kind),
        }),
    }
}

/// The read, write, take or give that the line spells.
fn read_act(subject: Subject, number: u64, line: &[u8]) -> Option<Stamped>
    ensures { result ≡ act_from subject line.now number (fields_of line.now) }
{
    read_stamped(number, line)
}

/// The same, by its caller and what it did.
fn read_stamped(number: u64, line: &[u8]) -> Option<Stamped>
    ensures { IsStampedRead number line.now result }
{
    let (caller, rest) = read_u32_and_space(line)?;
    let did = read_did(rest)?;
    Some(Stamped {
        number,
        caller,
        did,
    })
}

/// What was done to a cell.
fn read_did(text: &[u8]) -> Option<Did>
    ensures { IsActRead text.now result }
{
    if let Some(rest) = after(text, b"read ") {
        return read_read(rest);
    }
    if let Some(rest) = after(text, b"wrote ") {
        return read_wrote(rest);
    }
    if let Some(rest) = after(text, b"took ") {
        return read_took(rest);
    }
    if let Some(rest) = after(text, b"gave ") {
        return read_gave(rest);
    }
    None
}

/// The read after `read`.
fn read_read(text: &[u8]) -> Option<Did>
    ensures { IsActRead (codes "read " ++ text.now) result }
{
    let (cell, value) = read_access(text)?;
    Some(Did::Read(cell, value))
}

/// The write after `wrote`.
fn read_wrote(text: &[u8]) -> Option<Did>
    ensures { IsActRead (codes "wrote " ++ text.now) result }
{
    let (cell, value) = read_access(text)?;
    Some(Did::Wrote(cell, value))
}

/// The take after `took`.
fn read_took(text: &[u8]) -> Option<Did>
    ensures { IsActRead (codes "took " ++ text.now) result }
{
    let lock = read_u32(text)?;
    Some(Did::Took(lock))
}

/// The give after `gave`.
fn read_gave(text: &[u8]) -> Option<Did>
    ensures { IsActRead (codes "gave " ++ text.now) result }
{
    let lock = read_u32(text)?;
    Some(Did::Gave(lock))
}

/// A cell and a value.
fn read_access(text: &[u8]) -> Option<(u32, u64)>
    ensures { IsPairRead text.now result }
{
    let (cell, rest) = read_u32_and_space(text)?;
    let value = read_u64(rest)?;
    Some((cell, value))
}
