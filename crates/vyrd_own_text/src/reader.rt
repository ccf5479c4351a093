//! A specification, read line by line.

ghost use Rattle.std.specs.Prelude.{◌≡◌, IfOk, None, map, codes};
ghost use Rattle.vyrd_base.specs.Own.Lines.{with_line, nothing_written};
ghost use Rattle.vyrd_base.specs.Own.Pieces.{taken_with};
ghost use Rattle.vyrd_base.specs.Own.Reader.{is_remark, unplaced, method_line_read, line_read};
ghost use Rattle.vyrd_base.specs.Own.Reader.{begins};
ghost use Rattle.vyrd_base.specs.Own.Reader.{last_after, column, unfinished, ended_with, read_next};
ghost use Rattle.vyrd_base.specs.Own.Reader.{or_method, SoFar, nothing_read};
ghost use Rattle.vyrd_own.specs.Layout.{written, method_of};
ghost use Rattle.vyrd_own_text.specs.Meaning.{took_as, OnRefused, so_far};

use crate::inner::take_within;
use crate::method::{is_unfinished, take_method};
use crate::outer::take_outer;
use crate::pieces::put;
use crate::text::{after, is_same};
use crate::took::Took;
use std::alloc::{AllocError, Global};
use vyrd_base::{Last, SpecificationLine, SpecificationRule};
use vyrd_own::{Method, Program};

/// How many bytes a line may have.
const LONGEST: usize = 200;

/// How many lines a specification may have.
const MOST_LINES: u64 = 1000;

/// A specification as far as it was read.
#[derive(Drop)]
pub struct SpecificationReader {
    /// What was read.
    pub program: Program,
    /// What may stand directly below the last line.
    pub last: Last,
    /// How many lines were read.
    pub lines: u64,
}

impl SpecificationReader {
    /// The specification that has no line yet. It takes no memory.
    pub fn new(alloc: Global) -> SpecificationReader
        ensures { so_far result ≡ nothing_read }
    {
        SpecificationReader {
            program: no_lines(alloc),
            last: Last::Other,
            lines: 0,
        }
    }

    /// Takes in a line, which is given without its line feed. A line that breaks a rule leaves what
    /// was read as it was. If memory runs out, nothing is said of what was read.
    #[tactic(auto, unfolding(vyrd_base::specs::Own::Reader::read_next))]
    pub fn take_line(&mut self, alloc: Global, line: &[u8]) -> Result<SpecificationLine, AllocError>
        ensures outcome { IfOk result (λ r. r ≡ (read_next (so_far self.old) line.now).0) }
        ensures left { IfOk result (λ _. so_far self.new
            ≡ (read_next (so_far self.old) line.now).1) }
    {
        if is_same(line, b"log") {
            return Ok(outcome_of_log(&self.program));
        }
        if self.lines >= MOST_LINES {
            return Ok(SpecificationLine::Refused(SpecificationRule::TooMany, 1));
        }
        match take(alloc, &mut self.program, self.last, line)? {
            Took::In => {
                self.last = last_after(self.last, line);
                self.lines += 1;
                Ok(SpecificationLine::More)
            }
            Took::Refused(rule, rest) => Ok(SpecificationLine::Refused(rule, column(line, rest))),
        }
    }
}

/// The specification that has no line.
fn no_lines(alloc: Global) -> Program
    ensures { written result ≡ nothing_written }
{
    Program {
        constant_names: Vec::new(alloc),
        constants: Vec::new(alloc),
        register_names: Vec::new(alloc),
        registers: Vec::new(alloc),
        list_names: Vec::new(alloc),
        lists: Vec::new(alloc),
        hidden: Vec::new(alloc),
        words: 0,
        shows: Vec::new(alloc),
        methods: Vec::new(alloc),
    }
}

/// What the line `log` is after these lines.
fn outcome_of_log(program: &Program) -> SpecificationLine
    ensures { (s : SoFar) → (result, s) ≡ ended_with s (unfinished (written program.now).methods) }
{
    if program.methods.is_empty() {
        return SpecificationLine::Refused(SpecificationRule::NoMethod, 1);
    }
    if is_unfinished(&program.methods) {
        return SpecificationLine::Refused(SpecificationRule::NoCase, 1);
    }
    SpecificationLine::Log
}

/// The column of what stands at the end of a line.
fn column(line: &[u8], rest: &[u8]) -> usize
    ensures { result ≡ column line.now rest.now }
{
    line.len().saturating_sub(rest.len()) + 1
}

/// Whether the line is empty or a remark.
fn is_remark(line: &[u8]) -> bool
    ensures { result ≡ is_remark line.now }
{
    if line.is_empty() {
        return true;
    }
    line[0] == b'#'
}

/// Whether the line begins so.
fn begins(line: &[u8], word: &[u8]) -> bool
    ensures { result ≡ begins word.now line.now }
{
    after(line, word).is_some()
}

/// What may stand directly below the line.
#[tactic(auto, unfolding(vyrd_base::specs::Own::Reader::last_after))]
fn last_after(last: Last, line: &[u8]) -> Last
    ensures { result ≡ last_after last line.now }
{
    if is_remark(line) {
        return last;
    }
    if begins(line, b"list ") || begins(line, b"  holds ") {
        return Last::List;
    }
    if begins(line, b"part ") || begins(line, b"  shows ") {
        return Last::Part;
    }
    Last::Other
}

/// Takes in a line other than `log`.
#[tactic(auto, unfolding(vyrd_base::specs::Own::Reader::line_read))]
fn take<'a>(
    alloc: Global,
    program: &mut Program,
    last: Last,
    line: &'a [u8],
) -> Result<Took<'a>, AllocError>
    ensures took { IfOk result (λ r. took_as (written program.new) r
        ≡ taken_with (with_line (written program.old))
        (line_read (written program.old) last line.now)) }
    ensures same { IfOk result (λ r. OnRefused r (written program.new ≡ written program.old)) }
{
    if line.len() > LONGEST {
        let (_, rest) = line.split_at(LONGEST);
        return Ok(Took::Refused(SpecificationRule::TooLong, rest));
    }
    if is_remark(line) {
        return Ok(Took::In);
    }
    match take_outer(alloc, program, last, line)? {
        Some(took) => Ok(took),
        None => take_in_methods(alloc, program, line),
    }
}

/// Takes in the beginning of a method, or a line of one.
fn take_in_methods<'a>(
    alloc: Global,
    program: &mut Program,
    line: &'a [u8],
) -> Result<Took<'a>, AllocError>
    ensures took { IfOk result (λ r. took_as (written program.new) r
        ≡ taken_with (with_line (written program.old))
        (or_method (written program.old) line.now None)) }
    ensures same { IfOk result (λ r. OnRefused r (written program.new ≡ written program.old)) }
{
    match after(line, b"method ") {
        Some(rest) => take_method(alloc, program, rest),
        None => take_method_line(alloc, program, line),
    }
}

/// Takes in a line of the last method.
#[tactic(auto, unfolding(vyrd_base::specs::Own::Reader::method_line_read))]
fn take_method_line<'a>(
    alloc: Global,
    program: &mut Program,
    line: &'a [u8],
) -> Result<Took<'a>, AllocError>
    ensures took { IfOk result (λ r. took_as (written program.new) r
        ≡ taken_with (with_line (written program.old))
        (method_line_read (written program.old) line.now)) }
    ensures same { IfOk result (λ r. OnRefused r (written program.new ≡ written program.old)) }
{
    let Some(mut method) = program.methods.pop() else {
        return Ok(Took::Refused(unplaced(line), line));
    };
    let took = take_within(alloc, program, &mut method, line)?;
    put(&mut program.methods, method)?;
    Ok(took)
}

/// The rule that a line breaks that is no line outside methods, where there is no method.
fn unplaced(line: &[u8]) -> SpecificationRule
    ensures { result ≡ unplaced line.now }
{
    if begins(line, b"  ") {
        return SpecificationRule::OutOfPlace;
    }
    SpecificationRule::BadLine
}
