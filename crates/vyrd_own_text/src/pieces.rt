//! The pieces of a line: numbers, expressions and names, up to its end.

ghost use Rattle.std.specs.Prelude.{◌≡◌, ◌++◌, [], ◌∷◌, IfOk};
ghost use Rattle.vyrd_own.specs.Layout.{texts};
ghost use Rattle.vyrd_own_text.specs.Growth.{scope_of};
ghost use Rattle.vyrd_base.specs.Own.Reading.{expr_read, after};
ghost use Rattle.vyrd_base.specs.Own.Pieces.{last_number, named_number, two_numbers, last_read};
ghost use Rattle.vyrd_base.specs.Own.Pieces.{two_read, last_name, named_value};
ghost use Rattle.vyrd_own_text.specs.Meaning.{number_as, named_as, pair_as, code_as, last_as};
ghost use Rattle.vyrd_own_text.specs.Meaning.{two_as, value_as};

use crate::expression::{Read, read_expr, read_name};
use crate::names::read_new_name;
use crate::scope::Names;
use crate::text::{after, read_number, split_word};
use std::alloc::{AllocError, Global};
use vyrd_base::SpecificationRule;
use vyrd_own::{Code, Node};

/// How deep an expression may be nested.
const DEPTH: u32 = 32;

/// Puts an item at the end.
pub fn put<T: Drop>(items: &mut Vec<T>, item: T) -> Result<(), AllocError>
    ensures { IfOk result (λ _. items.new.items ≡ items.old.items ++ item ∷ []) }
{
    items.push(item)?;
    Ok(())
}

/// A number that is the whole text.
pub fn read_last_number(text: &[u8]) -> Result<u64, (SpecificationRule, &[u8])>
    ensures { number_as result ≡ last_number text.now }
{
    match read_number(text) {
        Some(number) => Ok(number),
        None => Err((SpecificationRule::BadLine, text)),
    }
}

/// A new name, a space and a number.
pub fn read_named_number(
    taken: bool,
    text: &[u8],
) -> Result<(&[u8], u64), (SpecificationRule, &[u8])>
    ensures { named_as result ≡ named_number taken text.now }
{
    let (name, rest) = match read_new_name(taken, text) {
        Ok((name, rest)) => (name, rest),
        Err((rule, at)) => return Err((rule, at)),
    };
    let Some(number) = after(rest, b" ") else {
        return Err((SpecificationRule::BadLine, rest));
    };
    match read_last_number(number) {
        Ok(number) => Ok((name, number)),
        Err((rule, at)) => Err((rule, at)),
    }
}

/// A number, a space and a number.
pub fn read_two_numbers(text: &[u8]) -> Result<(u64, u64), (SpecificationRule, &[u8])>
    ensures { pair_as result ≡ two_numbers text.now }
{
    let (word, rest) = split_word(text);
    let Some(first) = read_number(word) else {
        return Err((SpecificationRule::BadLine, text));
    };
    let Some(number) = after(rest, b" ") else {
        return Err((SpecificationRule::BadLine, rest));
    };
    match read_last_number(number) {
        Ok(second) => Ok((first, second)),
        Err((rule, at)) => Err((rule, at)),
    }
}

/// An expression at the front of a text, and what follows it.
fn read_code<'a>(
    alloc: Global,
    names: &Names,
    text: &'a [u8],
) -> Result<Result<(Code, &'a [u8]), (SpecificationRule, &'a [u8])>, AllocError>
    ensures { IfOk result (λ r. code_as r ≡ expr_read (scope_of names.now) 32 text.now) }
{
    let mut nodes: Vec<Node> = Vec::new(alloc);
    match read_expr(names, DEPTH, text, &mut nodes)? {
        Read::Rest(rest) => Ok(Ok((Code { nodes }, rest))),
        Read::Stopped(rule, at) => Ok(Err((rule, at))),
    }
}

/// An expression that is the whole text.
pub fn read_last<'a>(
    alloc: Global,
    names: &Names,
    text: &'a [u8],
) -> Result<Result<Code, (SpecificationRule, &'a [u8])>, AllocError>
    ensures { IfOk result (λ r. last_as r ≡ last_read (scope_of names.now) text.now) }
{
    match read_code(alloc, names, text)? {
        Ok((code, rest)) => {
            if rest.is_empty() {
                return Ok(Ok(code));
            }
            Ok(Err((SpecificationRule::BadLine, rest)))
        }
        Err((rule, at)) => Ok(Err((rule, at))),
    }
}

/// Two expressions with a word between them, the second to the end of the text.
pub fn read_two<'a>(
    alloc: Global,
    names: &Names,
    word: &[u8],
    text: &'a [u8],
) -> Result<Result<(Code, Code), (SpecificationRule, &'a [u8])>, AllocError>
    ensures { IfOk result (λ r. two_as r ≡ two_read (scope_of names.now) word.now text.now) }
{
    match read_code(alloc, names, text)? {
        Ok((first, rest)) => match after(rest, word) {
            Some(more) => match read_last(alloc, names, more)? {
                Ok(second) => Ok(Ok((first, second))),
                Err((rule, at)) => Ok(Err((rule, at))),
            },
            None => Ok(Err((SpecificationRule::BadLine, rest))),
        },
        Err((rule, at)) => Ok(Err((rule, at))),
    }
}

/// A name that is the whole text.
pub fn read_last_name<'a>(
    names: &[Vec<u8>],
    text: &'a [u8],
) -> Result<usize, (SpecificationRule, &'a [u8])>
    ensures { number_as result ≡ last_name (texts names.now) text.now }
{
    match read_name(names, text) {
        Ok((i, rest)) => {
            if rest.is_empty() {
                return Ok(i);
            }
            Err((SpecificationRule::BadLine, rest))
        }
        Err((rule, at)) => Err((rule, at)),
    }
}

/// A name, a space and an expression.
pub fn read_named<'a>(
    alloc: Global,
    of: &[Vec<u8>],
    names: &Names,
    text: &'a [u8],
) -> Result<Result<(usize, Code), (SpecificationRule, &'a [u8])>, AllocError>
    ensures { IfOk result (λ r. value_as r
        ≡ named_value (scope_of names.now) (texts of.now) text.now) }
{
    match read_name(of, text) {
        Ok((i, rest)) => match after(rest, b" ") {
            Some(more) => match read_last(alloc, names, more)? {
                Ok(new) => Ok(Ok((i, new))),
                Err((rule, at)) => Ok(Err((rule, at))),
            },
            None => Ok(Err((SpecificationRule::BadLine, rest))),
        },
        Err((rule, at)) => Ok(Err((rule, at))),
    }
}
