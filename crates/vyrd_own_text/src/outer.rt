//! Lines outside methods.

ghost use Rattle.std.specs.Prelude.{◌≡◌, IfOk, codes, map, option_map};
ghost use Rattle.vyrd_base.specs.Own.Outer.{constant_read, register_read, list_line_read};
ghost use Rattle.vyrd_base.specs.Own.Outer.{holds_read, hidden_read, part_read, shows_read};
ghost use Rattle.vyrd_base.specs.Own.Outer.{part_scope};
ghost use Rattle.vyrd_base.specs.Own.Lines.{shows, with_line};
ghost use Rattle.vyrd_base.specs.Own.Pieces.{two_read, taken_with};
ghost use Rattle.vyrd_base.specs.Own.Lines.{holding};
ghost use Rattle.vyrd_base.specs.Own.Outer.{outer_read, is_past_constants};
ghost use Rattle.vyrd_own.specs.Layout.{written, expr_in};
ghost use Rattle.vyrd_own_text.specs.Meaning.{two_as, took_as, OnRefused, OnKept};

use crate::last::{is_list, is_part};
use crate::names::{front_is_known, read_new_name};
use crate::pieces::{put, read_last_number, read_named_number, read_two, read_two_numbers};
use crate::scopes::part_names;
use crate::text::{after, read_number};
use crate::took::Took;
use std::alloc::{AllocError, Global};
use vyrd_base::{Last, SpecificationRule};
use vyrd_own::{Code, Program, Show};

/// Takes in a line outside methods, if it begins as one; except for the beginning of a method.
#[tactic(auto, unfolding(vyrd_base::specs::Own::Outer::outer_read))]
pub fn take_outer<'a>(
    alloc: Global,
    program: &mut Program,
    last: Last,
    line: &'a [u8],
) -> Result<Option<Took<'a>>, AllocError>
    ensures took { IfOk result (λ r. option_map (took_as (written program.new)) r
        ≡ option_map (taken_with (with_line (written program.old)))
        (outer_read (written program.old) last line.now)) }
    ensures same { IfOk result (λ r. OnKept r (program.new ≡ program.old)) }
{
    if let Some(rest) = after(line, b"let ") {
        return Ok(Some(take_constant(alloc, program, rest)?));
    }
    if let Some(rest) = after(line, b"register ") {
        return Ok(Some(take_register(alloc, program, rest)?));
    }
    if let Some(rest) = after(line, b"list ") {
        return Ok(Some(take_list(alloc, program, rest)?));
    }
    if let Some(rest) = after(line, b"  holds ") {
        return Ok(Some(take_holds(program, last, rest)?));
    }
    if let Some(rest) = after(line, b"hidden ") {
        return Ok(Some(take_hidden(program, rest)?));
    }
    if let Some(rest) = after(line, b"part ") {
        return Ok(Some(take_part(program, rest)?));
    }
    if let Some(rest) = after(line, b"  shows ") {
        return Ok(Some(take_shows(alloc, program, last, rest)?));
    }
    Ok(None)
}

/// Whether constants can't stand any more.
fn is_past_constants(program: &Program) -> bool
    ensures { result ≡ is_past_constants (written program.now) }
{
    !program.registers.is_empty()
        || !program.lists.is_empty()
        || !program.hidden.is_empty()
        || program.words != 0
        || !program.methods.is_empty()
}

/// Takes in a constant.
fn take_constant<'a>(
    alloc: Global,
    program: &mut Program,
    text: &'a [u8],
) -> Result<Took<'a>, AllocError>
    ensures took { IfOk result (λ r. took_as (written program.new) r
        ≡ taken_with (with_line (written program.old))
        (constant_read (written program.old) text.now)) }
    ensures same { IfOk result (λ r. OnRefused r (program.new ≡ program.old)) }
{
    if is_past_constants(program) {
        return Ok(Took::Refused(SpecificationRule::OutOfPlace, text));
    }
    if program.constants.len() >= 64 {
        return Ok(Took::Refused(SpecificationRule::TooMany, text));
    }
    let (name, number) = match read_named_number(front_is_known(program, text), text) {
        Ok((name, number)) => (name, number),
        Err((rule, at)) => return Ok(Took::Refused(rule, at)),
    };
    let name = Vec::from_slice(alloc, name)?;
    put(&mut program.constant_names, name)?;
    put(&mut program.constants, number)?;
    Ok(Took::In)
}

/// Takes in a register.
fn take_register<'a>(
    alloc: Global,
    program: &mut Program,
    text: &'a [u8],
) -> Result<Took<'a>, AllocError>
    ensures took { IfOk result (λ r. took_as (written program.new) r
        ≡ taken_with (with_line (written program.old))
        (register_read (written program.old) text.now)) }
    ensures same { IfOk result (λ r. OnRefused r (program.new ≡ program.old)) }
{
    if !program.methods.is_empty() {
        return Ok(Took::Refused(SpecificationRule::OutOfPlace, text));
    }
    if program.registers.len() >= 16 {
        return Ok(Took::Refused(SpecificationRule::TooMany, text));
    }
    let (name, number) = match read_named_number(front_is_known(program, text), text) {
        Ok((name, number)) => (name, number),
        Err((rule, at)) => return Ok(Took::Refused(rule, at)),
    };
    let name = Vec::from_slice(alloc, name)?;
    put(&mut program.register_names, name)?;
    put(&mut program.registers, number)?;
    Ok(Took::In)
}

/// Takes in a list.
fn take_list<'a>(
    alloc: Global,
    program: &mut Program,
    text: &'a [u8],
) -> Result<Took<'a>, AllocError>
    ensures took { IfOk result (λ r. took_as (written program.new) r
        ≡ taken_with (with_line (written program.old))
        (list_line_read (written program.old) text.now)) }
    ensures same { IfOk result (λ r. OnRefused r (program.new ≡ program.old)) }
{
    if !program.methods.is_empty() {
        return Ok(Took::Refused(SpecificationRule::OutOfPlace, text));
    }
    if program.lists.len() >= 16 {
        return Ok(Took::Refused(SpecificationRule::TooMany, text));
    }
    let (name, rest) = match read_new_name(front_is_known(program, text), text) {
        Ok((name, rest)) => (name, rest),
        Err((rule, at)) => return Ok(Took::Refused(rule, at)),
    };
    if !rest.is_empty() {
        return Ok(Took::Refused(SpecificationRule::BadLine, rest));
    }
    let name = Vec::from_slice(alloc, name)?;
    put(&mut program.list_names, name)?;
    put(&mut program.lists, Vec::new(alloc))?;
    Ok(Took::In)
}

/// Takes in a hidden amount.
fn take_hidden<'a>(program: &mut Program, text: &'a [u8]) -> Result<Took<'a>, AllocError>
    ensures took { IfOk result (λ r. took_as (written program.new) r
        ≡ taken_with (with_line (written program.old))
        (hidden_read (written program.old) text.now)) }
    ensures same { IfOk result (λ r. OnRefused r (program.new ≡ program.old)) }
{
    if !program.methods.is_empty() {
        return Ok(Took::Refused(SpecificationRule::OutOfPlace, text));
    }
    let (key, amount) = match read_two_numbers(text) {
        Ok((key, amount)) => (key, amount),
        Err((rule, at)) => return Ok(Took::Refused(rule, at)),
    };
    program.hidden.push((key, amount))?;
    Ok(Took::In)
}

/// Takes in how many words a part has.
fn take_part<'a>(program: &mut Program, text: &'a [u8]) -> Result<Took<'a>, AllocError>
    ensures took { IfOk result (λ r. took_as (written program.new) r
        ≡ taken_with (with_line (written program.old)) (part_read (written program.old) text.now)) }
    ensures same { IfOk result (λ r. OnRefused r (program.new ≡ program.old)) }
{
    if program.words != 0 || !program.methods.is_empty() {
        return Ok(Took::Refused(SpecificationRule::OutOfPlace, text));
    }
    match read_number(text) {
        Some(words) if 1 <= words && words <= 16 => {
            program.words = words as usize;
            Ok(Took::In)
        }
        _ => Ok(Took::Refused(SpecificationRule::BadLine, text)),
    }
}

/// Puts a number at the end of the last list, if there is one.
#[tactic(auto, using(crate::proofs::LastLaws::holding_last))]
fn hold(lists: &mut Vec<Vec<u64>>, number: u64) -> Result<(), AllocError>
    ensures { IfOk result (λ _. map (λ list. list.items) lists.new.items
        ≡ holding number (map (λ list. list.items) lists.old.items)) }
{
    if let Some(mut list) = lists.pop() {
        list.push(number)?;
        put(lists, list)?;
    }
    Ok(())
}

/// Takes in an element of the last list.
fn take_holds<'a>(program: &mut Program, last: Last, text: &'a [u8]) -> Result<Took<'a>, AllocError>
    ensures took { IfOk result (λ r. took_as (written program.new) r
        ≡ taken_with (with_line (written program.old)) (holds_read last text.now)) }
    ensures same { IfOk result (λ r. OnRefused r (program.new ≡ program.old)) }
{
    if !is_list(last) {
        return Ok(Took::Refused(SpecificationRule::OutOfPlace, text));
    }
    match read_last_number(text) {
        Ok(number) => {
            hold(&mut program.lists, number)?;
            Ok(Took::In)
        }
        Err((rule, at)) => Ok(Took::Refused(rule, at)),
    }
}

/// A key and an amount, by the words of a part.
fn read_shows<'a>(
    alloc: Global,
    program: &Program,
    text: &'a [u8],
) -> Result<Result<(Code, Code), (SpecificationRule, &'a [u8])>, AllocError>
    ensures { IfOk result (λ r. two_as r
        ≡ two_read (part_scope (written program.now)) (codes " ") text.now) }
{
    let names = part_names(alloc, program)?;
    read_two(alloc, &names, b" ", text)
}

/// Puts in what a part gives to a key.
fn put_show(program: &mut Program, key: Code, amount: Code) -> Result<(), AllocError>
    ensures { IfOk result (λ _. written program.new
        ≡ with_line (written program.old) (shows (expr_in key) (expr_in amount))) }
{
    put(&mut program.shows, Show { key, amount })
}

/// Takes in what a part gives to a key.
fn take_shows<'a>(
    alloc: Global,
    program: &mut Program,
    last: Last,
    text: &'a [u8],
) -> Result<Took<'a>, AllocError>
    ensures took { IfOk result (λ r. took_as (written program.new) r
        ≡ taken_with (with_line (written program.old))
        (shows_read (written program.old) last text.now)) }
    ensures same { IfOk result (λ r. OnRefused r (program.new ≡ program.old)) }
{
    if !is_part(last) {
        return Ok(Took::Refused(SpecificationRule::OutOfPlace, text));
    }
    if program.shows.len() >= 4 {
        return Ok(Took::Refused(SpecificationRule::TooMany, text));
    }
    match read_shows(alloc, program, text)? {
        Ok((key, amount)) => {
            put_show(program, key, amount)?;
            Ok(Took::In)
        }
        Err((rule, at)) => Ok(Took::Refused(rule, at)),
    }
}
