//! Lines of a method.

ghost use Rattle.std.specs.Prelude.{◌≡◌, [], ◌∷◌, IfOk, codes, option_map};
ghost use Rattle.vyrd_base.specs.Own.Changes.{within_read};
ghost use Rattle.vyrd_base.specs.Own.Pieces.{last_read, taken_with};
ghost use Rattle.vyrd_base.specs.Own.Methods.{method_scope, inner_read};
ghost use Rattle.vyrd_base.specs.Own.Methods.{is_closed, named_expr};
ghost use Rattle.vyrd_base.specs.Own.Lines.{answering, allowing, naming};
ghost use Rattle.vyrd_base.specs.Own.Lines.{with_inner};
ghost use Rattle.vyrd_base.specs.Own.Methods.{answer_read, allow_read, naming_read};
ghost use Rattle.vyrd_own.specs.Layout.{written, method_of, expr_in};
ghost use Rattle.vyrd_own_text.specs.Meaning.{last_as, took_as, OnRefused, OnKept};
ghost use Rattle.vyrd_own_text.specs.Meaning.{let_as};

use crate::change::take_change;
use crate::names::{front_is_taken, read_new_name};
use crate::pieces::{put, read_last};
use crate::scopes::method_names;
use crate::text::after;
use crate::took::Took;
use std::alloc::{AllocError, Global};
use vyrd_base::SpecificationRule;
use vyrd_own::{Case, Code, Method, Program};

/// Takes in a line of a method.
#[tactic(auto, unfolding(vyrd_base::specs::Own::Changes::within_read))]
pub fn take_within<'a>(
    alloc: Global,
    program: &Program,
    method: &mut Method,
    line: &'a [u8],
) -> Result<Took<'a>, AllocError>
    ensures took { IfOk result (λ r. took_as (method_of method.new) r
        ≡ taken_with (with_inner (method_of method.old))
        (within_read (written program.now) (method_of method.old) line.now)) }
    ensures same { IfOk result (λ r. OnRefused r (method.new ≡ method.old)) }
{
    if let Some(rest) = after(line, b"    ") {
        return take_change(alloc, program, method, rest);
    }
    match take_inner(alloc, program, method, line)? {
        Some(took) => Ok(took),
        None => Ok(Took::Refused(SpecificationRule::BadLine, line)),
    }
}

/// Takes in a line of a method, if it begins as one, except for one that changes something.
#[tactic(auto, unfolding(vyrd_base::specs::Own::Methods::inner_read))]
fn take_inner<'a>(
    alloc: Global,
    program: &Program,
    method: &mut Method,
    line: &'a [u8],
) -> Result<Option<Took<'a>>, AllocError>
    ensures took { IfOk result (λ r. option_map (took_as (method_of method.new)) r
        ≡ option_map (taken_with (with_inner (method_of method.old)))
        (inner_read (written program.now) (method_of method.old) line.now)) }
    ensures same { IfOk result (λ r. OnKept r (method.new ≡ method.old)) }
{
    if let Some(rest) = after(line, b"  let ") {
        return Ok(Some(take_let(alloc, program, method, rest)?));
    }
    if let Some(rest) = after(line, b"  answer ") {
        return Ok(Some(take_answer(alloc, program, method, rest)?));
    }
    if let Some(rest) = after(line, b"  allow ") {
        return Ok(Some(take_allow(alloc, program, method, rest)?));
    }
    Ok(None)
}

/// Whether the method has an answer or a case.
pub fn is_closed(method: &Method) -> bool
    ensures { result ≡ is_closed (method_of method.now) }
{
    method.answer.is_some() || !method.cases.is_empty()
}

/// An expression of a method that is the whole text.
fn read_in_method<'a>(
    alloc: Global,
    program: &Program,
    method: &Method,
    text: &'a [u8],
) -> Result<Result<Code, (SpecificationRule, &'a [u8])>, AllocError>
    ensures { IfOk result (λ r. last_as r
        ≡ last_read (method_scope (written program.now) (method_of method.now) []) text.now) }
{
    let names = method_names(alloc, program, method, &[])?;
    read_last(alloc, &names, text)
}

/// An expression of a case that is the whole text.
fn read_in_case<'a>(
    alloc: Global,
    program: &Program,
    method: &Method,
    text: &'a [u8],
) -> Result<Result<Code, (SpecificationRule, &'a [u8])>, AllocError>
    ensures { IfOk result (λ r. last_as r
        ≡ last_read (method_scope (written program.now) (method_of method.now) (codes "reply" ∷ []))
        text.now) }
{
    let reply: [&[u8]; 1] = [b"reply"];
    let names = method_names(alloc, program, method, &reply)?;
    read_last(alloc, &names, text)
}

/// Gives the method an answer.
fn put_answer(method: &mut Method, code: Code)
    ensures { method_of method.new ≡ with_inner (method_of method.old) (answering (expr_in code)) }
{
    method.answer = Some(code);
}

/// Gives the method one more case.
fn put_case(alloc: Global, method: &mut Method, allow: Code) -> Result<(), AllocError>
    ensures { IfOk result (λ _. method_of method.new
        ≡ with_inner (method_of method.old) (allowing (expr_in allow))) }
{
    let case = Case {
        allow,
        changes: Vec::new(alloc),
    };
    put(&mut method.cases, case)
}

/// Gives the method one more name for a value.
fn put_let(alloc: Global, method: &mut Method, name: &[u8], code: Code) -> Result<(), AllocError>
    ensures { IfOk result (λ _. method_of method.new
        ≡ with_inner (method_of method.old) (naming name.now (expr_in code))) }
{
    let name = Vec::from_slice(alloc, name)?;
    put(&mut method.names, name)?;
    put(&mut method.lets, code)
}

/// A new name, a space, and an expression of the method to the end of the text.
fn read_let<'a>(
    alloc: Global,
    program: &Program,
    method: &Method,
    text: &'a [u8],
) -> Result<Result<(&'a [u8], Code), (SpecificationRule, &'a [u8])>, AllocError>
    ensures { IfOk result (λ r. let_as r
        ≡ named_expr (written program.now) (method_of method.now) text.now) }
{
    let (name, rest) = match read_new_name(front_is_taken(program, method, text), text) {
        Ok((name, rest)) => (name, rest),
        Err((rule, at)) => return Ok(Err((rule, at))),
    };
    let Some(more) = after(rest, b" ") else {
        return Ok(Err((SpecificationRule::BadLine, rest)));
    };
    match read_in_method(alloc, program, method, more)? {
        Ok(code) => Ok(Ok((name, code))),
        Err((rule, at)) => Ok(Err((rule, at))),
    }
}

/// Takes in a name for a value.
fn take_let<'a>(
    alloc: Global,
    program: &Program,
    method: &mut Method,
    text: &'a [u8],
) -> Result<Took<'a>, AllocError>
    ensures took { IfOk result (λ r. took_as (method_of method.new) r
        ≡ taken_with (with_inner (method_of method.old))
        (naming_read (written program.now) (method_of method.old) text.now)) }
    ensures same { IfOk result (λ r. OnRefused r (method.new ≡ method.old)) }
{
    if is_closed(method) {
        return Ok(Took::Refused(SpecificationRule::OutOfPlace, text));
    }
    if method.names.len() >= 16 {
        return Ok(Took::Refused(SpecificationRule::TooMany, text));
    }
    match read_let(alloc, program, method, text)? {
        Ok((name, code)) => {
            put_let(alloc, method, name, code)?;
            Ok(Took::In)
        }
        Err((rule, at)) => Ok(Took::Refused(rule, at)),
    }
}

/// Takes in the reply of an execution that commits nothing.
fn take_answer<'a>(
    alloc: Global,
    program: &Program,
    method: &mut Method,
    text: &'a [u8],
) -> Result<Took<'a>, AllocError>
    ensures took { IfOk result (λ r. took_as (method_of method.new) r
        ≡ taken_with (with_inner (method_of method.old))
        (answer_read (written program.now) (method_of method.old) text.now)) }
    ensures same { IfOk result (λ r. OnRefused r (method.new ≡ method.old)) }
{
    if is_closed(method) {
        return Ok(Took::Refused(SpecificationRule::OutOfPlace, text));
    }
    match read_in_method(alloc, program, method, text)? {
        Ok(code) => {
            put_answer(method, code);
            Ok(Took::In)
        }
        Err((rule, at)) => Ok(Took::Refused(rule, at)),
    }
}

/// Takes in a case.
fn take_allow<'a>(
    alloc: Global,
    program: &Program,
    method: &mut Method,
    text: &'a [u8],
) -> Result<Took<'a>, AllocError>
    ensures took { IfOk result (λ r. took_as (method_of method.new) r
        ≡ taken_with (with_inner (method_of method.old))
        (allow_read (written program.now) (method_of method.old) text.now)) }
    ensures same { IfOk result (λ r. OnRefused r (method.new ≡ method.old)) }
{
    if method.cases.len() >= 8 {
        return Ok(Took::Refused(SpecificationRule::TooMany, text));
    }
    match read_in_case(alloc, program, method, text)? {
        Ok(code) => {
            put_case(alloc, method, code)?;
            Ok(Took::In)
        }
        Err((rule, at)) => Ok(Took::Refused(rule, at)),
    }
}
