//! Lines of a case.

ghost use Rattle.std.specs.Prelude.{◌≡◌, [], ◌∷◌, IfOk, codes, map};
ghost use Rattle.vyrd_own.specs.Layout.{texts, written, method_of, case_of, change_of};
ghost use Rattle.vyrd_own_text.specs.Growth.{scope_of};
ghost use Rattle.vyrd_base.specs.Own.Lines.{changing, with_inner};
ghost use Rattle.vyrd_base.specs.Own.Pieces.{taken_with};
ghost use Rattle.vyrd_base.specs.Own.Methods.{last_in, method_scope};
ghost use Rattle.vyrd_base.specs.Own.Changes.{plain_read, change_read, changes_in, case_line_read};
ghost use Rattle.vyrd_own_text.specs.Meaning.{change_as, took_as};
ghost use Rattle.vyrd_own_text.specs.Meaning.{OnRefused};

use crate::pieces::{put, read_last_name, read_named, read_two};
use crate::scope::Names;
use crate::scopes::method_names;
use crate::text::{after, is_same};
use crate::took::Took;
use std::alloc::{AllocError, Global};
use vyrd_base::SpecificationRule;
use vyrd_own::{Case, Change, Method, Program};

/// Takes in a line of a case, after its four spaces.
pub fn take_change<'a>(
    alloc: Global,
    program: &Program,
    method: &mut Method,
    text: &'a [u8],
) -> Result<Took<'a>, AllocError>
    ensures took { IfOk result (λ r. took_as (method_of method.new) r
        ≡ taken_with (with_inner (method_of method.old))
        (case_line_read (written program.now) (method_of method.old) text.now)) }
    ensures same { IfOk result (λ r. OnRefused r (method.new ≡ method.old)) }
{
    if method.cases.is_empty() {
        return Ok(Took::Refused(SpecificationRule::OutOfPlace, text));
    }
    if count_changes(&method.cases) >= 8 {
        return Ok(Took::Refused(SpecificationRule::TooMany, text));
    }
    match read_case_change(alloc, program, method, text)? {
        Ok(change) => {
            put_change(method, change)?;
            Ok(Took::In)
        }
        Err((rule, at)) => Ok(Took::Refused(rule, at)),
    }
}

/// How many changes the last case has.
fn count_changes(cases: &[Case]) -> usize
    ensures { result ≡ changes_in (last_in (map case_of cases.now)) }
{
    match cases.last() {
        Some(case) => case.changes.len(),
        None => 0,
    }
}

/// Puts a change at the end of the last case, if there is one.
#[tactic(auto, using(crate::proofs::LastLaws::with_change_last))]
fn put_change(method: &mut Method, change: Change) -> Result<(), AllocError>
    ensures { IfOk result (λ _. method_of method.new
        ≡ with_inner (method_of method.old) (changing (change_of change))) }
{
    if let Some(mut case) = method.cases.pop() {
        put(&mut case.changes, change)?;
        put(&mut method.cases, case)?;
    }
    Ok(())
}

/// What is read of a line of a case.
fn read_case_change<'a>(
    alloc: Global,
    program: &Program,
    method: &Method,
    text: &'a [u8],
) -> Result<Result<Change, (SpecificationRule, &'a [u8])>, AllocError>
    ensures { IfOk result (λ r. change_as r
        ≡ change_read (texts program.now.register_names.items)
        (method_scope (written program.now) (method_of method.now) (codes "reply" ∷ []))
        text.now) }
{
    let reply: [&[u8]; 1] = [b"reply"];
    let names = method_names(alloc, program, method, &reply)?;
    read_change(alloc, program, &names, text)
}

/// What is read of a line that changes something.
#[tactic(auto, unfolding(vyrd_base::specs::Own::Changes::change_read))]
fn read_change<'a>(
    alloc: Global,
    program: &Program,
    names: &Names,
    text: &'a [u8],
) -> Result<Result<Change, (SpecificationRule, &'a [u8])>, AllocError>
    ensures { IfOk result (λ r. change_as r
        ≡ change_read (texts program.now.register_names.items) (scope_of names.now) text.now) }
{
    if let Some(rest) = after(text, b"set [") {
        return match read_two(alloc, names, b"] ", rest)? {
            Ok((key, new)) => Ok(Ok(Change::Shown(key, new))),
            Err((rule, at)) => Ok(Err((rule, at))),
        };
    }
    if let Some(rest) = after(text, b"set {") {
        return match read_two(alloc, names, b"} ", rest)? {
            Ok((key, new)) => Ok(Ok(Change::Hidden(key, new))),
            Err((rule, at)) => Ok(Err((rule, at))),
        };
    }
    if let Some(rest) = after(text, b"set ") {
        return match read_named(alloc, &program.register_names, names, rest)? {
            Ok((i, new)) => Ok(Ok(Change::Register(i, new))),
            Err((rule, at)) => Ok(Err((rule, at))),
        };
    }
    if let Some(rest) = after(text, b"append ") {
        return match read_named(alloc, &names.lists, names, rest)? {
            Ok((i, new)) => Ok(Ok(Change::Append(i, new))),
            Err((rule, at)) => Ok(Err((rule, at))),
        };
    }
    if let Some(rest) = after(text, b"prepend ") {
        return match read_named(alloc, &names.lists, names, rest)? {
            Ok((i, new)) => Ok(Ok(Change::Prepend(i, new))),
            Err((rule, at)) => Ok(Err((rule, at))),
        };
    }
    if is_same(text, b"clear") {
        return Ok(Ok(Change::ClearShown));
    }
    Ok(read_plain(names, text))
}

/// A line that changes a list and has no expression.
#[tactic(auto, unfolding(vyrd_base::specs::Own::Changes::plain_read))]
fn read_plain<'a>(names: &Names, text: &'a [u8]) -> Result<Change, (SpecificationRule, &'a [u8])>
    ensures { change_as result ≡ plain_read (texts names.now.lists.items) text.now }
{
    if let Some(rest) = after(text, b"drop first ") {
        return match read_last_name(&names.lists, rest) {
            Ok(i) => Ok(Change::DropFirst(i)),
            Err((rule, at)) => Err((rule, at)),
        };
    }
    if let Some(rest) = after(text, b"drop last ") {
        return match read_last_name(&names.lists, rest) {
            Ok(i) => Ok(Change::DropLast(i)),
            Err((rule, at)) => Err((rule, at)),
        };
    }
    if let Some(rest) = after(text, b"clear ") {
        return match read_last_name(&names.lists, rest) {
            Ok(i) => Ok(Change::Clear(i)),
            Err((rule, at)) => Err((rule, at)),
        };
    }
    Err((SpecificationRule::BadLine, text))
}
