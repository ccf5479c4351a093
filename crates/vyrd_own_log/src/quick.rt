//! An entry that lies whole at the front of a text, with its line feed: read where it lies, in one
//! scan.
//!
//! What isn't such an entry is left where it is, for the reader of lines, which knows the rules. So
//! nothing here says why a text is refused: every `None` means only that these bytes were not read.

ghost use Rattle.std.specs.Prelude.{◌≡◌, ◌≤◌, ◌++◌, ℕ, List, true, map, codes, IfSome};
ghost use Rattle.std.specs.Prelude.{MatchOption};
ghost use Rattle.vyrd_base.specs.Own.Programs.{Written};
ghost use Rattle.vyrd_own.specs.Layout.{method_of, written};
ghost use Rattle.vyrd_own_log.specs.Callable.{are_callable};
ghost use Rattle.vyrd_own_log.specs.Quick.{ends_name, IsMethodAtFront, AreOwnArgsAtFront};
ghost use Rattle.vyrd_own_log.specs.Quick.{IsOwnKindAtFront, IsOwnEntryAtFront};

use crate::entry::numbered;
use vyrd_base::{Args, Entry, Kind, OwnMethod};
use vyrd_own::{Method, Program};
use vyrd_text::quick::{
    caller_before_space, number_before, read_args, read_close, read_commit, read_open, read_write,
};

/// The entry at the front, by the specification, and what stands after its line feed. It takes no
/// memory.
#[inline(always)]
pub(crate) fn read_entry<'a>(program: &Program, text: &'a [u8]) -> Option<(Entry, &'a [u8])>
    requires { are_callable (written program.now).methods ≡ true }
    ensures { IfSome result
        (λ r. IsOwnEntryAtFront (written program.now) text.now r.0 r.1.now) }
{
    let (caller, rest) = caller_before_space(text)?;
    let (kind, rest) = read_kind(program, rest)?;
    Some((Entry { caller, kind }, rest))
}

/// What the text after the caller and a space says, and what stands after its line feed.
///
/// The second byte tells the words apart, so one jump finds the word.
#[inline(always)]
fn read_kind<'a>(program: &Program, text: &'a [u8]) -> Option<(Kind, &'a [u8])>
    requires { are_callable (written program.now).methods ≡ true }
    ensures { IfSome result
        (λ r. IsOwnKindAtFront (written program.now) text.now r.0 r.1.now) }
{
    if text.len() < 2 {
        return None;
    }
    match text[1] {
        b'r' => read_write(text),
        b'e' => read_return(text),
        b'a' => read_called(program, text),
        b'p' => read_open(text),
        b'l' => read_close(text),
        b'o' => read_commit(text),
        _ => None,
    }
}

/// A return, with its reply, below 2^64 - 1.
#[inline(always)]
fn read_return(text: &[u8]) -> Option<(Kind, &[u8])>
    ensures { (w : Written) → IfSome result (λ r. IsOwnKindAtFront w text.now r.0 r.1.now) }
{
    let [b'r', b'e', b't', b'u', b'r', b'n', b' ', rest @ ..] = text else {
        return None;
    };
    let (reply, rest) = number_before(rest, b'\n')?;
    if reply == u64::MAX {
        return None;
    }
    Some((Kind::Return(reply), rest))
}

/// A call, with its method and its arguments.
#[inline(always)]
fn read_called<'a>(program: &Program, text: &'a [u8]) -> Option<(Kind, &'a [u8])>
    requires { are_callable (written program.now).methods ≡ true }
    ensures { IfSome result
        (λ r. IsOwnKindAtFront (written program.now) text.now r.0 r.1.now) }
{
    let rest = after_call(text)?;
    let (method, rest) = front_method(&program.methods, rest)?;
    let (args, rest) = read_own_args(method.arity, rest)?;
    Some((Kind::Call(vyrd_base::Method::own(method), args), rest))
}

/// What stands after `call` and a space.
#[inline(always)]
fn after_call(text: &[u8]) -> Option<&[u8]>
    ensures { IfSome result (λ rest. text.now ≡ codes "call " ++ rest.now) }
{
    let [b'c', b'a', b'l', b'l', b' ', rest @ ..] = text else {
        return None;
    };
    Some(rest)
}

/// The first method whose name stands at the front, before a space or a line feed, and what stands
/// behind its name.
fn front_method<'a>(methods: &[Method], text: &'a [u8]) -> Option<(OwnMethod, &'a [u8])>
    requires { are_callable (map method_of methods.now) ≡ true }
    ensures { IfSome result
        (λ r. IsMethodAtFront (map method_of methods.now) text.now r.0 r.1.now) }
{
    for (i, method) in methods.iter().enumerate() {
        if let Some(rest) = behind_name(text, &method.name) {
            return Some((numbered(i as u8, method), rest));
        }
    }
    None
}

/// What stands behind the name, if the text begins with it and it may end there. The byte behind it is
/// looked at first, since that tells most other names without a call.
#[inline(always)]
fn behind_name<'a>(text: &'a [u8], name: &[u8]) -> Option<&'a [u8]>
    ensures { MatchOption result
        ((rest : List ℕ) → ends_name rest ≡ true → text.now ≡ name.now ++ rest → ⊥)
        (λ rest. (ends_name rest.now ≡ true) × (text.now ≡ name.now ++ rest.now)) }
{
    if text.len() < name.len() {
        return None;
    }
    let (front, rest) = text.split_at(name.len());
    if !ends_name(rest) {
        return None;
    }
    if front != name {
        return None;
    }
    Some(rest)
}

/// Whether a name may end before the text.
#[inline(always)]
fn ends_name(text: &[u8]) -> bool
    ensures { result ≡ ends_name text.now }
{
    match text {
        [first, ..] => *first == b' ' || *first == b'\n',
        [] => false,
    }
}

/// The arguments of a method that has `arity` of them, from behind its name on, and what stands after
/// their line feed.
#[inline(always)]
fn read_own_args(arity: u8, text: &[u8]) -> Option<(Args, &[u8])>
    requires { arity ≤ 3 }
    ensures { IfSome result (λ r. AreOwnArgsAtFront arity text.now r.0 r.1.now) }
{
    if arity == 0 {
        return read_no_args(text);
    }
    let [b' ', rest @ ..] = text else {
        return None;
    };
    read_args(u32::from(arity), rest)
}

/// No arguments.
#[inline(always)]
fn read_no_args(text: &[u8]) -> Option<(Args, &[u8])>
    ensures { IfSome result (λ r. AreOwnArgsAtFront 0 text.now r.0 r.1.now) }
{
    let [b'\n', rest @ ..] = text else {
        return None;
    };
    Some((Args { a: 0, b: 0, c: 0 }, rest))
}
