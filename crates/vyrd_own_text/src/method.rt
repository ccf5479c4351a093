//! The line that begins a method.

ghost use Rattle.std.specs.Prelude.{◌≡◌, ◌||◌, IfOk, map};
ghost use Rattle.vyrd_own.specs.Layout.{texts, written, method_of};
ghost use Rattle.vyrd_base.specs.Own.Reading.{word_of};
ghost use Rattle.vyrd_base.specs.Own.Lines.{method, with_line};
ghost use Rattle.vyrd_base.specs.Own.Names.{is_among, is_known};
ghost use Rattle.vyrd_base.specs.Own.Pieces.{taken_with};
ghost use Rattle.vyrd_base.specs.Own.Methods.{is_method, is_unfinished, parameters_read};
ghost use Rattle.vyrd_base.specs.Own.Methods.{named_method, method_read};
ghost use Rattle.vyrd_own_text.specs.Meaning.{begun_as, took_as, OnRefused};

use crate::inner::is_closed;
use crate::names::{is_known, is_taken, read_new_name};
use crate::pieces::put;
use crate::scopes::put_word;
use crate::text::{after, is_same, split_word};
use crate::took::Took;
use std::alloc::{AllocError, Global};
use vyrd_base::SpecificationRule;
use vyrd_own::{Method, Program};

/// Takes in the beginning of a method.
pub fn take_method<'a>(
    alloc: Global,
    program: &mut Program,
    text: &'a [u8],
) -> Result<Took<'a>, AllocError>
    ensures took { IfOk result (λ r. took_as (written program.new) r
        ≡ taken_with (with_line (written program.old))
        (method_read (written program.old) text.now)) }
    ensures same { IfOk result (λ r. OnRefused r (program.new ≡ program.old)) }
{
    if is_unfinished(&program.methods) {
        return Ok(Took::Refused(SpecificationRule::NoCase, text));
    }
    if program.methods.len() >= 64 {
        return Ok(Took::Refused(SpecificationRule::TooMany, text));
    }
    match read_method(alloc, program, text)? {
        Ok((name, names)) => {
            put_method(alloc, program, name, names)?;
            Ok(Took::In)
        }
        Err((rule, at)) => Ok(Took::Refused(rule, at)),
    }
}

/// Whether the last method has neither an answer nor a case.
pub fn is_unfinished(methods: &[Method]) -> bool
    ensures { result ≡ is_unfinished (map method_of methods.now) }
{
    match methods.last() {
        Some(method) => !is_closed(method),
        None => false,
    }
}

/// Whether a method has the name.
fn has_method(methods: &[Method], name: &[u8]) -> bool
    ensures { result ≡ is_method name.now (map method_of methods.now) }
{
    for method in methods {
        if is_same(&method.name, name) {
            return true;
        }
    }
    false
}

/// Whether the word at the front is the name of a method.
fn front_is_method(methods: &[Method], text: &[u8]) -> bool
    ensures { result ≡ is_method (word_of text.now) (map method_of methods.now) }
{
    let (word, _) = split_word(text);
    has_method(methods, word)
}

/// A name that no method has, and up to three parameters.
fn read_method<'a>(
    alloc: Global,
    program: &Program,
    text: &'a [u8],
) -> Result<Result<(&'a [u8], Vec<Vec<u8>>), (SpecificationRule, &'a [u8])>, AllocError>
    ensures { IfOk result (λ r. begun_as r ≡ named_method (written program.now) text.now) }
{
    let (name, rest) = match read_new_name(front_is_method(&program.methods, text), text) {
        Ok((name, rest)) => (name, rest),
        Err((rule, at)) => return Ok(Err((rule, at))),
    };
    let mut names = Vec::new(alloc);
    match read_parameters(alloc, program, 3, rest, &mut names)? {
        Took::In => Ok(Ok((name, names))),
        Took::Refused(rule, at) => Ok(Err((rule, at))),
    }
}

/// Puts `left` names at most, each after a space, at the end of `names`.
fn read_parameters<'a>(
    alloc: Global,
    program: &Program,
    left: u32,
    text: &'a [u8],
    names: &mut Vec<Vec<u8>>,
) -> Result<Took<'a>, AllocError>
    ensures { IfOk result (λ r. took_as (texts names.new.items) r
        ≡ parameters_read (written program.now) left (texts names.old.items) text.now) }
{
    if text.is_empty() {
        return Ok(Took::In);
    }
    if left == 0 {
        return Ok(Took::Refused(SpecificationRule::TooMany, text));
    }
    let Some(next) = after(text, b" ") else {
        return Ok(Took::Refused(SpecificationRule::BadLine, text));
    };
    let (name, rest) = match read_new_name(front_is_parameter(program, names, next), next) {
        Ok((name, rest)) => (name, rest),
        Err((rule, at)) => return Ok(Took::Refused(rule, at)),
    };
    put_word(alloc, names, name)?;
    read_parameters(alloc, program, left - 1, rest, names)
}

/// Whether the word at the front is known, or one of these names.
fn front_is_parameter(program: &Program, names: &[Vec<u8>], text: &[u8]) -> bool
    ensures { result ≡ (is_known (written program.now) (word_of text.now)
        || is_among (word_of text.now) (texts names.now)) }
{
    let (word, _) = split_word(text);
    is_known(program, word) || is_taken(names, word)
}

/// Puts in a method that has these names for its parameters, and nothing else yet.
fn put_method(
    alloc: Global,
    program: &mut Program,
    name: &[u8],
    names: Vec<Vec<u8>>,
) -> Result<(), AllocError>
    ensures { IfOk result (λ _. written program.new
        ≡ with_line (written program.old) (method name.now (texts names.items))) }
{
    let name = Vec::from_slice(alloc, name)?;
    let method = Method {
        name,
        arity: names.len(),
        names,
        lets: Vec::new(alloc),
        answer: None,
        cases: Vec::new(alloc),
    };
    put(&mut program.methods, method)
}
