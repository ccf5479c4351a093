//! What an observer would answer in the states from its call to its return.

ghost use Rattle.std.specs.Prelude.{◌≡◌, ◌++◌, ◌-◌, ◌<◌, ◌≤◌, ◌^◌, true, false, length, IfOk};
ghost use Rattle.std.specs.Prelude.{OnOk, None, Some};
ghost use Rattle.vyrd_base.specs.Entries.{has_method};
ghost use Rattle.vyrd_base.specs.Front.{first_break};
ghost use Rattle.vyrd_base.specs.Places.{numbers_from};
ghost use Rattle.vyrd_base.specs.Rules.{rules_by};
ghost use Rattle.vyrd_base.specs.Starts.{may_start};
ghost use Rattle.vyrd_base.specs.Subjects.{is_built_in, must_commit};
ghost use Rattle.vyrd_states.specs.Running.{called_by};
ghost use Rattle.vyrd_states.specs.Windows.{answer_items, answer_item, answers_along, answer_after};
ghost use Rattle.vyrd_states.specs.Windows.{observer_items};

use crate::begins::Begins;
use crate::known::{entry_at, spec_at, step};
use std::alloc::{AllocError, Global};
use vyrd_base::{Entry, Method, StartWord};
use vyrd_spec::Spec;
use vyrd_witness::{Execution, Item, execution_of};

/// What is said of the return at a position of a front: what the call answers in the state after
/// its own entry, and after each entry from there to the return where that answer is another than
/// the one before. Nothing is said of a call that must commit, of states that aren't known, and if
/// the entry's caller has called nothing. The front keeps all rules of shape, and begins with these
/// starting words.
///
/// The only error is that memory has run out. The specification runs up to the entry once: that
/// takes the time and the memory that `after_items` takes, and an answer for each entry between.
pub fn observer_items<B: Begins>(
    alloc: Global,
    begins: &B,
    starting: &[StartWord],
    front: &[Entry],
    at: usize,
) -> Result<Vec<Item>, AllocError>
    requires may_start { is_built_in (rules_by (B.charter begins.now)).header.subject ≡ true
        → may_start (rules_by (B.charter begins.now)).header starting.now ≡ true }
    requires within { at < length front.now }
    requires kept { first_break (rules_by (B.charter begins.now)).header front.now ≡ None }
    requires few { length front.now < 2 ^ 62 }
    ensures { IfOk result
        (λ items. items.items ≡ observer_items (rules_by (B.charter begins.now)) starting.now front.now at) }
{
    let caller = entry_at(front, at).caller;
    let Some(call) = execution_of(front, at, caller) else {
        return Ok(Vec::new(alloc));
    };
    if call.method.must_commit() {
        return Ok(Vec::new(alloc));
    }
    answers_to(alloc, begins, starting, front, at, call)
}

/// The answers from a call on, up to a position and without it.
fn answers_to<B: Begins>(
    alloc: Global,
    begins: &B,
    starting: &[StartWord],
    front: &[Entry],
    at: usize,
    call: Execution,
) -> Result<Vec<Item>, AllocError>
    requires may_start { is_built_in (rules_by (B.charter begins.now)).header.subject ≡ true
        → may_start (rules_by (B.charter begins.now)).header starting.now ≡ true }
    requires within { at ≤ length front.now }
    requires kept { first_break (rules_by (B.charter begins.now)).header front.now ≡ None }
    requires few { length front.now < 2 ^ 62 }
    requires before { call.called_at ≤ at }
    requires has { has_method (rules_by (B.charter begins.now)).header call.method call.args ≡ true }
    requires may_answer { must_commit call.method ≡ false }
    ensures { IfOk result (λ items. items.items ≡ answers_along call.method
        (answer_after (rules_by (B.charter begins.now)) starting.now front.now (called_by call)) None
        (numbers_from call.called_at (at - call.called_at))) }
{
    let mut items = Vec::new(alloc);
    let Some(mut spec) = spec_at(alloc, begins, starting, front, call.called_at)? else {
        return Ok(items);
    };
    let mut last = None;
    for position in call.called_at..at {
        let Some(next) = step(spec, front, position)? else {
            return Ok(items);
        };
        let reply = next.answer(call.method, call.args);
        push_answer(call.method, position, last, reply, &mut items)?;
        last = Some(reply);
        spec = next;
    }
    Ok(items)
}

/// Puts an answer at the end, if it isn't the one before.
fn push_answer(
    method: Method,
    at: usize,
    last: Option<u64>,
    reply: u64,
    items: &mut Vec<Item>,
) -> Result<(), AllocError>
    ensures { OnOk result
        (items.new.items ≡ items.old.items ++ answer_items method at last (Some reply)) }
{
    if last != Some(reply) {
        items.push(answer_item(method, at, reply))?;
    }
    Ok(())
}

/// An answer from a position on.
fn answer_item(method: Method, at: usize, reply: u64) -> Item
    ensures { result ≡ answer_item method at reply }
{
    if method.own_number().is_some() && reply == u64::MAX {
        Item::Unanswered { at }
    } else {
        Item::Answered { at, reply }
    }
}
