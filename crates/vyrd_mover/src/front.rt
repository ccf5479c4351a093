//! An event that lies whole at the front of a history's text, with its line feed: read where it
//! lies, in one scan.
//!
//! What isn't such an event is left where it is, for the reader of lines, which knows the rules. So
//! nothing here says why a text is refused: every `None` means only that these bytes were not read.

ghost use Rattle.std.specs.Prelude.{◌≡◌, ◌≤◌, ◌∷◌, ◌++◌, false, length, decimal, IfSome};
ghost use Rattle.vyrd_base.specs.declared.subject.Subject.{Subject};
ghost use Rattle.vyrd_base.specs.Histories.{is_write};
ghost use Rattle.vyrd_text.specs.Quick.{IsKindAtFront};
ghost use Rattle.vyrd_mover.specs.HistoryFront.{IsDidAtFront, IsEventAtFront};

use vyrd_base::{Did, Kind, Stamped, Subject};
use vyrd_text::quick::{
    caller_before_space, number_before, read_close, read_commit, read_open, read_return,
    short_before,
};
use vyrd_text::{after, read_call, split_line};

/// The event with this number at the front, and what stands after its line feed.
#[inline(always)]
pub(crate) fn front_event(subject: Subject, number: u64, text: &[u8]) -> Option<(Stamped, &[u8])>
    ensures { IfSome result (λ r. IsEventAtFront subject number text.now r.0 r.1.now) }
{
    let (caller, rest) = caller_before_space(text)?;
    let (did, rest) = front_did(subject, rest)?;
    Some((
        Stamped {
            number,
            caller,
            did,
        },
        rest,
    ))
}

/// What the text after the caller and a space says, and what stands after its line feed.
///
/// The fourth byte tells the words apart, so one jump finds the word.
#[inline(always)]
fn front_did(subject: Subject, text: &[u8]) -> Option<(Did, &[u8])>
    ensures { IfSome result (λ r. IsDidAtFront subject text.now r.0 r.1.now) }
{
    if text.len() < 4 {
        return None;
    }
    match text[3] {
        b'd' => front_read(text),
        b't' => front_wrote(text),
        b'k' => front_took(text),
        b'e' => front_gave(text),
        _ => front_mark(subject, text),
    }
}

/// A read, with its cell and its value.
#[inline(always)]
fn front_read(text: &[u8]) -> Option<(Did, &[u8])>
    ensures { (subject : Subject)
        → IfSome result (λ r. IsDidAtFront subject text.now r.0 r.1.now) }
{
    let [b'r', b'e', b'a', b'd', b' ', rest @ ..] = text else {
        return None;
    };
    let (cell, value, rest) = front_access(rest)?;
    Some((Did::Read(cell, value), rest))
}

/// A write, with its cell and its value.
#[inline(always)]
fn front_wrote(text: &[u8]) -> Option<(Did, &[u8])>
    ensures { (subject : Subject)
        → IfSome result (λ r. IsDidAtFront subject text.now r.0 r.1.now) }
{
    let [b'w', b'r', b'o', b't', b'e', b' ', rest @ ..] = text else {
        return None;
    };
    let (cell, value, rest) = front_access(rest)?;
    Some((Did::Wrote(cell, value), rest))
}

/// A take, with its lock.
#[inline(always)]
fn front_took(text: &[u8]) -> Option<(Did, &[u8])>
    ensures { (subject : Subject)
        → IfSome result (λ r. IsDidAtFront subject text.now r.0 r.1.now) }
{
    let [b't', b'o', b'o', b'k', b' ', rest @ ..] = text else {
        return None;
    };
    let (lock, rest) = short_before(rest, b'\n')?;
    Some((Did::Took(lock), rest))
}

/// A give, with its lock.
#[inline(always)]
fn front_gave(text: &[u8]) -> Option<(Did, &[u8])>
    ensures { (subject : Subject)
        → IfSome result (λ r. IsDidAtFront subject text.now r.0 r.1.now) }
{
    let [b'g', b'a', b'v', b'e', b' ', rest @ ..] = text else {
        return None;
    };
    let (lock, rest) = short_before(rest, b'\n')?;
    Some((Did::Gave(lock), rest))
}

/// A cell and a value, and what stands after their line feed.
#[inline(always)]
fn front_access(text: &[u8]) -> Option<(u32, u64, &[u8])>
    ensures { IfSome result
        (λ r. text.now ≡ (decimal r.0 ++ 32 ∷ decimal r.1) ++ 10 ∷ r.2.now) }
{
    let (cell, rest) = short_before(text, b' ')?;
    let (value, rest) = number_before(rest, b'\n')?;
    Some((cell, value, rest))
}

/// A mark.
#[inline(always)]
fn front_mark(subject: Subject, text: &[u8]) -> Option<(Did, &[u8])>
    requires { 4 ≤ length text.now }
    ensures { IfSome result (λ r. IsDidAtFront subject text.now r.0 r.1.now) }
{
    let (kind, rest) = front_kind(subject, text)?;
    Some((Did::Marked(kind), rest))
}

/// What an entry of a log says that is a mark of a history: all but a write.
#[inline(always)]
fn front_kind(subject: Subject, text: &[u8]) -> Option<(Kind, &[u8])>
    requires { 4 ≤ length text.now }
    ensures kind { IfSome result (λ r. IsKindAtFront subject text.now r.0 r.1.now) }
    ensures mark { IfSome result (λ r. is_write r.0 ≡ false) }
{
    match text[3] {
        b'l' => front_call(subject, text),
        b'u' => read_return(text),
        b'm' => read_commit(text),
        b'n' => read_open(text),
        b's' => read_close(text),
        _ => None,
    }
}

/// A call, with the method of the subject and its arguments.
///
/// Calls are few in a history, so they have no scan of their own.
fn front_call(subject: Subject, text: &[u8]) -> Option<(Kind, &[u8])>
    ensures { IfSome result (λ r. IsKindAtFront subject text.now r.0 r.1.now) }
{
    let rest = after(text, b"call ")?;
    let (line, rest) = split_line(rest)?;
    let (method, args) = read_call(subject, line)?;
    Some((Kind::Call(method, args), rest))
}
