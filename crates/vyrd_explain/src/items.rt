//! What is said of a verdict about the entries of a log.

ghost use Rattle.std.specs.Prelude.{◌≡◌, ◌<◌, ◌≤◌, ◌^◌, ◌++◌, length, true, None, IfOk, IfSome};
ghost use Rattle.vyrd_base.specs.Front.{front, first_break};
ghost use Rattle.vyrd_base.specs.Rules.{rules_by};
ghost use Rattle.vyrd_base.specs.Starts.{may_start};
ghost use Rattle.vyrd_base.specs.Subjects.{is_built_in};
ghost use Rattle.vyrd_explain.specs.Verdicts.{shown_items, fault_items, position_on};
ghost use Rattle.vyrd_explain.specs.Verdicts.{violation_items, is_race, is_start, raced_items};
ghost use Rattle.vyrd_explain.specs.Verdicts.{malformed_items, verdict_items};

use crate::explains::Explains;
use crate::front::front_len;
use std::alloc::{AllocError, Global};
use vyrd_base::{Entry, Header, Rule, StartWord, Verdict, Why};
use vyrd_item_text::Lines;
use vyrd_witness::{Item, called_items, open_items, race_items, view_items};

/// What is said of a verdict about the entries of a log that begins with these words. The entries
/// stand on these lines.
pub(crate) fn verdict_items<E: Explains, L: Lines>(
    alloc: Global,
    shown: &E,
    lines: &L,
    starting: &[StartWord],
    entries: &[Entry],
    verdict: Verdict,
) -> Result<Vec<Item>, AllocError>
    requires may_start { is_built_in (rules_by (E.charter shown.now)).header.subject ≡ true
        → may_start (rules_by (E.charter shown.now)).header starting.now ≡ true }
    requires few { length entries.now < 2 ^ 62 }
    ensures { IfOk result (λ items. items.items ≡ verdict_items (E.charter shown.now)
        (L.line lines.now) starting.now entries.now verdict) }
{
    match verdict {
        Verdict::Accepted { .. } => Ok(Vec::new(alloc)),
        Verdict::Violation { line, why } => {
            violation_items(alloc, shown, lines, starting, entries, line, why)
        }
        Verdict::Malformed { rule, .. } => malformed_items(alloc, shown.header(), entries, rule),
    }
}

/// What is said of the fault on a line.
fn violation_items<E: Explains, L: Lines>(
    alloc: Global,
    shown: &E,
    lines: &L,
    starting: &[StartWord],
    entries: &[Entry],
    line: u64,
    why: Why,
) -> Result<Vec<Item>, AllocError>
    requires may_start { is_built_in (rules_by (E.charter shown.now)).header.subject ≡ true
        → may_start (rules_by (E.charter shown.now)).header starting.now ≡ true }
    requires few { length entries.now < 2 ^ 62 }
    ensures { IfOk result (λ items. items.items ≡ violation_items (E.charter shown.now) (L.line lines.now) starting.now
        (front (rules_by (E.charter shown.now)).header entries.now) line why) }
{
    let (front, _) = entries.split_at(front_len(alloc, shown.header(), entries)?);
    match position_on(lines, front, line) {
        Some(at) => fault_items(alloc, shown, starting, front, at, why),
        None => Ok(Vec::new(alloc)),
    }
}

/// The position of the entry of a front that stands on a line, if one does. The entries are gone
/// over up to it.
fn position_on<L: Lines>(lines: &L, front: &[Entry], line: u64) -> Option<usize>
    ensures position { result ≡ position_on (L.line lines.now) front.now line }
    ensures within { IfSome result (λ at. at < length front.now) }
{
    for at in 0..front.len() {
        if lines.line(at) == u128::from(line) {
            return Some(at);
        }
    }
    None
}

/// What is said of a fault at a position of a front.
fn fault_items<E: Explains>(
    alloc: Global,
    shown: &E,
    starting: &[StartWord],
    front: &[Entry],
    at: usize,
    why: Why,
) -> Result<Vec<Item>, AllocError>
    requires may_start { is_built_in (rules_by (E.charter shown.now)).header.subject ≡ true
        → may_start (rules_by (E.charter shown.now)).header starting.now ≡ true }
    requires within { at < length front.now }
    requires kept { first_break (rules_by (E.charter shown.now)).header front.now ≡ None }
    requires few { length front.now < 2 ^ 62 }
    ensures { IfOk result (λ items. items.items
        ≡ fault_items (E.charter shown.now) starting.now front.now at why) }
{
    let items = shown_items(alloc, shown, starting, front, at, why)?;
    let of_state = shown.state_items(alloc, starting, front, at, why)?;
    joined(items, &of_state)
}

/// What the words show, where a fault is that the views differ, and of any fault where the
/// execution was called and returns.
fn shown_items<E: Explains>(
    alloc: Global,
    shown: &E,
    starting: &[StartWord],
    front: &[Entry],
    at: usize,
    why: Why,
) -> Result<Vec<Item>, AllocError>
    requires within { at < length front.now }
    requires kept { first_break (rules_by (E.charter shown.now)).header front.now ≡ None }
    ensures { IfOk result (λ items. items.items
        ≡ shown_items (E.charter shown.now) starting.now front.now at why) }
{
    match why {
        Why::View(key) => view_items(alloc, shown, starting, front, at, key),
        Why::Reply(_) | Why::Observer(_) => called_items(alloc, front, at),
    }
}

/// What is said of a broken rule.
fn malformed_items(
    alloc: Global,
    header: Header,
    entries: &[Entry],
    rule: Rule,
) -> Result<Vec<Item>, AllocError>
    ensures { IfOk result (λ items. items.items
        ≡ malformed_items header (front header entries.now) entries.now rule) }
{
    let (front, rest) = entries.split_at(front_len(alloc, header, entries)?);
    let items = if is_race(rule) {
        raced_items(alloc, header, front, rest)?
    } else {
        Vec::new(alloc)
    };
    if is_start(rule) {
        return Ok(items);
    }
    joined(items, &open_items(alloc, header, front)?)
}

/// What the first of the entries behind a front races with, if there is one.
fn raced_items(
    alloc: Global,
    header: Header,
    front: &[Entry],
    rest: &[Entry],
) -> Result<Vec<Item>, AllocError>
    requires kept { first_break header front.now ≡ None }
    ensures { IfOk result
        (λ items. items.items ≡ raced_items header front.now (front.now ++ rest.now)) }
{
    match rest.first() {
        Some(entry) => race_items(alloc, header, front, *entry),
        None => Ok(Vec::new(alloc)),
    }
}

/// Whether a rule is broken by a write that races.
fn is_race(rule: Rule) -> bool
    ensures { result ≡ is_race rule }
{
    matches!(rule, Rule::BlockRaced)
}

/// Whether a rule is broken by the starting words.
fn is_start(rule: Rule) -> bool
    ensures { result ≡ is_start rule }
{
    matches!(rule, Rule::StartState)
}

/// Some items, and more behind them.
fn joined(mut items: Vec<Item>, more: &[Item]) -> Result<Vec<Item>, AllocError>
    ensures { IfOk result (λ all. all.items ≡ items.items ++ more.now) }
{
    items.extend_from_slice(more)?;
    Ok(items)
}
