//! One line of a workload: what it spells.

ghost use Rattle.std.specs.Prelude.{◌≡◌, ◌&&◌, true, ◌++◌, codes, nat_le, option_map, IfSome};
ghost use Rattle.vyrd_base.specs.declared.subject.Subject.{Subject};
ghost use Rattle.vyrd_work.specs.WorkLines.{begun, begun_in, is_item_of, item_in};
ghost use Rattle.vyrd_work.specs.Spelled.{IsFirstRead, AreBoundsRead, IsItemRead, IsVariantRead};
ghost use Rattle.vyrd_work.specs.Workloads.{most_turns};

use crate::work::WorkOp;
use vyrd_base::{Header, Subject};
use vyrd_memory::{Op, Turn, Variant};
use vyrd_text::{after, is_word, read_call, read_subject, read_u32, read_u32_and_space};

/// The most turns that a workload has in all.
pub const MOST_TURNS: u32 = 4_000_000;

/// What a later line says, except for `end`.
#[derive(Clone, Copy)]
pub enum Item {
    /// An operation.
    Op(WorkOp),
    /// Turns of one caller.
    Turns(Turn),
}

/// The header and the variant that the first line spells, without the line feed. `None` exactly
/// when it spells none within the limits.
pub fn read_first(line: &[u8]) -> Option<(Header, Variant)>
    ensures { option_map (λ r. begun r.1 r.0) result ≡ begun_in line.now }
{
    let (subject, size, callers, variant) = read_words(line)?;
    let header = Header::new(1, subject, size, callers)?;
    Some((header, variant))
}

/// What the first line says.
fn read_words(line: &[u8]) -> Option<(Subject, u32, u32, Variant)>
    ensures { IsFirstRead line.now result }
{
    let rest = after(line, b"work ")?;
    let (subject, rest) = read_subject(rest)?;
    let (size, callers, variant) = read_bounds(rest)?;
    Some((subject, size, callers, variant))
}

/// The size, the number of callers and the variant.
fn read_bounds(text: &[u8]) -> Option<(u32, u32, Variant)>
    ensures { AreBoundsRead text.now result }
{
    let (size, rest) = read_u32_and_space(text)?;
    let (callers, rest) = read_u32_and_space(rest)?;
    let variant = read_variant(rest)?;
    Some((size, callers, variant))
}

/// The variant of that name.
fn read_variant(text: &[u8]) -> Option<Variant>
    ensures { IsVariantRead text.now result }
{
    if is_word(text, b"correct") {
        return Some(Variant::Correct);
    }
    if is_word(text, b"broken") {
        return Some(Variant::Broken);
    }
    None
}

/// The operation or the turns that the line spells, without the line feed. `None` exactly when it
/// spells neither.
pub fn read_item(subject: Subject, line: &[u8]) -> Option<Item>
    ensures read { result ≡ item_in subject line.now }
    ensures ranges { IfSome result (λ x. is_item_of subject x ≡ true) }
{
    spelled_item(subject, line)
}

/// What a later line says.
fn spelled_item(subject: Subject, line: &[u8]) -> Option<Item>
    ensures { IsItemRead subject line.now result }
{
    if let Some(rest) = after(line, b"op ") {
        return read_op(subject, rest);
    }
    if let Some(rest) = after(line, b"turn ") {
        return read_turns(rest);
    }
    None
}

/// The operation after `op`.
fn read_op(subject: Subject, text: &[u8]) -> Option<Item>
    ensures { IsItemRead subject (codes "op " ++ text.now) result }
{
    let (caller, rest) = read_u32_and_space(text)?;
    let (method, args) = read_call(subject, rest)?;
    Some(Item::Op(WorkOp {
        caller,
        op: Op { method, args },
    }))
}

/// The turns after `turn`.
fn read_turns(text: &[u8]) -> Option<Item>
    ensures { (subject : Subject) → IsItemRead subject (codes "turn " ++ text.now) result }
{
    let (caller, rest) = read_u32_and_space(text)?;
    let count = read_u32(rest)?;
    if !is_count(count) {
        return None;
    }
    Some(Item::Turns(Turn { caller, count }))
}

/// Whether a line may give this many turns.
fn is_count(count: u32) -> bool
    ensures { result ≡ (nat_le 1 count && nat_le count most_turns) }
{
    1 <= count && count <= MOST_TURNS
}
