//! The line of an entry: a method is called by the name that its specification gives it.

ghost use Rattle.std.specs.Prelude.{◌≡◌, ◌≤◌, ◌++◌, true, map, codes, option_map};
ghost use Rattle.vyrd_base.specs.Own.Entries.{own_commits, own_method, named_from, own_entry_in};
ghost use Rattle.vyrd_base.specs.Own.Programs.{Written};
ghost use Rattle.vyrd_own.specs.Layout.{method_of, written};
ghost use Rattle.vyrd_own_log.specs.Callable.{is_callable, are_callable};
ghost use Rattle.vyrd_own_log.specs.Spelled.{AreOwnArgsRead, IsOwnKindRead, IsFieldSplit};

use memchr::memchr;
use vyrd_base::{Args, Commits, Entry, Kind, OwnMethod};
use vyrd_own::{Method, Program};
use vyrd_text::{after, is_word, read_args, read_u32_and_space, read_u64};

/// The entry that the bytes spell by the specification, without the line feed. `None` exactly when
/// they spell none. It takes no memory.
#[inline(always)]
pub fn read_entry(program: &Program, line: &[u8]) -> Option<Entry>
    requires { are_callable (written program.now).methods ≡ true }
    ensures { result ≡ own_entry_in (written program.now) line.now }
{
    let (caller, rest) = read_u32_and_space(line)?;
    let kind = read_kind(program, rest)?;
    Some(Entry { caller, kind })
}

/// What the text after the caller and a space says.
#[inline(always)]
fn read_kind(program: &Program, text: &[u8]) -> Option<Kind>
    requires { are_callable (written program.now).methods ≡ true }
    ensures { IsOwnKindRead (written program.now) text.now result }
{
    if let Some(rest) = after(text, b"write ") {
        return read_write(rest);
    }
    if let Some(rest) = after(text, b"call ") {
        return read_called(program, rest);
    }
    if let Some(rest) = after(text, b"return ") {
        return read_return(rest);
    }
    if is_word(text, b"commit") {
        return Some(Kind::Commit);
    }
    if is_word(text, b"open") {
        return Some(Kind::BlockOpen);
    }
    if is_word(text, b"close commit") {
        return Some(Kind::BlockCommit);
    }
    if is_word(text, b"close") {
        return Some(Kind::BlockClose);
    }
    None
}

/// The word and the value of a write.
#[inline(always)]
fn read_write(text: &[u8]) -> Option<Kind>
    ensures { (w : Written) → IsOwnKindRead w (codes "write " ++ text.now) result }
{
    let (word, rest) = read_u32_and_space(text)?;
    let value = read_u64(rest)?;
    Some(Kind::Write(word, value))
}

/// The reply of a return, below 2^64 - 1.
#[inline(always)]
fn read_return(text: &[u8]) -> Option<Kind>
    ensures { (w : Written) → IsOwnKindRead w (codes "return " ++ text.now) result }
{
    let reply = read_u64(text)?;
    if reply == u64::MAX {
        return None;
    }
    Some(Kind::Return(reply))
}

/// The method and the arguments of a call.
fn read_called(program: &Program, text: &[u8]) -> Option<Kind>
    requires { are_callable (written program.now).methods ≡ true }
    ensures { IsOwnKindRead (written program.now) (codes "call " ++ text.now) result }
{
    let (name, rest) = split_field(text);
    let method = find_method(&program.methods, name)?;
    let args = read_own_args(method.arity, rest)?;
    Some(Kind::Call(vyrd_base::Method::own(method), args))
}

/// What stands before the first space, and what stands after that space, if there is one.
fn split_field(text: &[u8]) -> (&[u8], Option<&[u8]>)
    ensures { IsFieldSplit text.now result.0.now (option_map (λ rest. rest.now) result.1) }
{
    match memchr(b' ', text) {
        Some(at) => (&text[..at], Some(&text[at + 1..])),
        None => (text, None),
    }
}

/// The method of that name.
fn find_method(methods: &[Method], name: &[u8]) -> Option<OwnMethod>
    requires { are_callable (map method_of methods.now) ≡ true }
    ensures { result ≡ named_from 0 (map method_of methods.now) name.now }
{
    for (i, method) in methods.iter().enumerate() {
        if method.name.as_slice() == name {
            return Some(numbered(i as u8, method));
        }
    }
    None
}

/// The method as an entry calls it, where it has this number.
#[inline(always)]
pub(crate) fn numbered(number: u8, method: &Method) -> OwnMethod
    requires { is_callable (method_of method.now) ≡ true }
    ensures { result ≡ own_method number (method_of method.now) }
{
    OwnMethod {
        number,
        arity: method.arity as u8,
        commits: commits(method),
    }
}

/// How often an execution of the method commits.
#[inline(always)]
fn commits(method: &Method) -> Commits
    ensures { result ≡ own_commits (method_of method.now) }
{
    if method.cases.is_empty() {
        return Commits::Never;
    }
    if method.answer.is_some() {
        return Commits::AtMostOnce;
    }
    Commits::Once
}

/// The arguments of a method that has `arity` of them, from what stands behind its name.
fn read_own_args(arity: u8, text: Option<&[u8]>) -> Option<Args>
    requires { arity ≤ 3 }
    ensures { AreOwnArgsRead arity (option_map (λ text. text.now) text.entry) result }
{
    match text {
        None => no_args(arity),
        Some(text) => {
            if arity == 0 {
                return None;
            }
            read_args(u32::from(arity), text)
        }
    }
}

/// No arguments, if the method has none.
fn no_args(arity: u8) -> Option<Args>
    ensures { AreOwnArgsRead arity None result }
{
    if arity > 0 {
        return None;
    }
    Some(Args { a: 0, b: 0, c: 0 })
}
