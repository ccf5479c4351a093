//! One line: the entry that it spells.

ghost use Rattle.std.specs.Prelude.{◌≡◌, ◌≤◌, ◌↔◌, ℕ, List, true, ◌∷◌, ◌++◌, codes, MatchOption};
ghost use Rattle.std.specs.Prelude.{IsTrue};
ghost use Rattle.vyrd_base.specs.declared.subject.Method.{Method};
ghost use Rattle.vyrd_base.specs.declared.subject.Subject.{Subject};
ghost use Rattle.vyrd_base.specs.Lines.{entry_in};
ghost use Rattle.vyrd_base.specs.Spelling.{method_name};
ghost use Rattle.vyrd_base.specs.Subjects.{is_named};
ghost use Rattle.vyrd_text.specs.Spelled.{AreArgsRead, IsCallRead, IsKindRead};

use crate::number::{read_u32, read_u32_and_space, read_u64};
use vyrd_base::{Args, Entry, Kind, Method, Subject};

/// The entry of the subject that the bytes spell, without the line feed. `None` exactly when they
/// spell none.
///
/// It looks at each byte a few times at most, and takes no memory.
pub fn read_line(subject: Subject, line: &[u8]) -> Option<Entry>
    ensures { result ≡ entry_in subject line.now }
{
    let (caller, rest) = read_u32_and_space(line)?;
    let kind = read_kind(subject, rest)?;
    Some(Entry { caller, kind })
}

/// What the text after the caller and a space says.
fn read_kind(subject: Subject, text: &[u8]) -> Option<Kind>
    ensures { IsKindRead subject text.now result }
{
    if let Some(rest) = after(text, b"write ") {
        return read_write(rest);
    }
    if let Some(rest) = after(text, b"call ") {
        return read_called(subject, rest);
    }
    if let Some(rest) = after(text, b"return ") {
        return read_return(rest);
    }
    if is_word(text, b"commit") {
        return Some(Kind::Commit);
    }
    if is_word(text, b"open") {
        return Some(Kind::BlockOpen);
    }
    if is_word(text, b"close commit") {
        return Some(Kind::BlockCommit);
    }
    if is_word(text, b"close") {
        return Some(Kind::BlockClose);
    }
    None
}

/// The word and the value of a write.
fn read_write(text: &[u8]) -> Option<Kind>
    ensures { (subject : Subject) → IsKindRead subject (codes "write " ++ text.now) result }
{
    let (word, rest) = read_u32_and_space(text)?;
    let value = read_u64(rest)?;
    Some(Kind::Write(word, value))
}

/// The reply of a return.
fn read_return(text: &[u8]) -> Option<Kind>
    ensures { (subject : Subject) → IsKindRead subject (codes "return " ++ text.now) result }
{
    let reply = read_u64(text)?;
    Some(Kind::Return(reply))
}

/// The method and the arguments of a call.
fn read_called(subject: Subject, text: &[u8]) -> Option<Kind>
    ensures { IsKindRead subject (codes "call " ++ text.now) result }
{
    let (method, args) = read_call(subject, text)?;
    Some(Kind::Call(method, args))
}

/// The method of the subject and its arguments that the whole text spells: the method's name, and
/// each argument after a space. `None` exactly when it spells none.
pub fn read_call(subject: Subject, text: &[u8]) -> Option<(Method, Args)>
    ensures { IsCallRead subject text.now result }
{
    let (method, rest) = read_method(subject, text)?;
    let args = read_args(method.arity(), rest)?;
    Some((method, args))
}

/// The method of the subject whose name stands before a space, and what stands after that space.
fn read_method(subject: Subject, text: &[u8]) -> Option<(Method, &[u8])>
    ensures { MatchOption result
        ((method : Method) (rest : List ℕ) → is_named method subject ≡ true
        → text.now ≡ method_name method ++ 32 ∷ rest → ⊥)
        (λ r. (is_named r.0 subject ≡ true)
        × (text.now ≡ method_name r.0 ++ 32 ∷ r.1.now)) }
{
    for method in subject.methods() {
        if let Some(rest) = after_name(text, method.name()) {
            return Some((*method, rest));
        }
    }
    None
}

/// What stands after the name and a space, if the text begins with them.
fn after_name<'a>(text: &'a [u8], name: &[u8]) -> Option<&'a [u8]>
    ensures { MatchOption result ((rest : List ℕ) → text.now ≡ name.now ++ 32 ∷ rest → ⊥)
        (λ rest. text.now ≡ name.now ++ 32 ∷ rest.now) }
{
    let rest = after(text, name)?;
    let rest = after(rest, b" ")?;
    Some(rest)
}

/// The arguments below 2^32 that the whole text spells, of a method that has `arity` of them, with a
/// space between each two. `None` exactly when it spells none.
pub fn read_args(arity: u32, text: &[u8]) -> Option<Args>
    requires { (1 ≤ arity) × (arity ≤ 3) }
    ensures { AreArgsRead arity text.now result }
{
    match arity {
        1 => read_one(text),
        2 => read_two(text),
        _ => read_three(text),
    }
}

/// One argument.
fn read_one(text: &[u8]) -> Option<Args>
    ensures { AreArgsRead 1 text.now result }
{
    let a = read_u32(text)?;
    Some(Args { a, b: 0, c: 0 })
}

/// Two arguments with a space between them.
fn read_two(text: &[u8]) -> Option<Args>
    ensures { AreArgsRead 2 text.now result }
{
    let (a, rest) = read_u32_and_space(text)?;
    let b = read_u32(rest)?;
    Some(Args { a, b, c: 0 })
}

/// Three arguments with a space between each two.
fn read_three(text: &[u8]) -> Option<Args>
    ensures { AreArgsRead 3 text.now result }
{
    let (a, rest) = read_u32_and_space(text)?;
    let (b, rest) = read_u32_and_space(rest)?;
    let c = read_u32(rest)?;
    Some(Args { a, b, c })
}

/// What stands after the word, if the text begins with it.
pub fn after<'a>(text: &'a [u8], word: &[u8]) -> Option<&'a [u8]>
    ensures { MatchOption result ((rest : List ℕ) → text.now ≡ word.now ++ rest → ⊥)
        (λ rest. text.now ≡ word.now ++ rest.now) }
{
    if text.len() < word.len() {
        return None;
    }
    let (front, rest) = text.split_at(word.len());
    if front != word {
        return None;
    }
    Some(rest)
}

/// Whether the text is the word.
pub fn is_word(text: &[u8], word: &[u8]) -> bool
    ensures { IsTrue result ↔ text.now ≡ word.now }
{
    text == word
}
