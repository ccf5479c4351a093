//! Steps and answers.

ghost use Rattle.std.specs.Prelude.{◌≡◌, ◌≢◌, ◌+◌, ◌<◌, ◌≤◌, ◌++◌, [], ◌∷◌, length, map, OnOk};
ghost use Rattle.std.specs.Prelude.{IfOk, true, false, Some, None, Ok};
ghost use Rattle.std.specs.Prelude.{if◌then◌else◌, option_map};
ghost use Rattle.vyrd_base.specs.Own.Expressions.{value};
ghost use Rattle.vyrd_own.specs.Layout.{expr_in, change_of, case_of, method_of, written};
ghost use Rattle.vyrd_base.specs.Own.Steps.{with_lets, at_hand, effect_of, allowed_effects};
ghost use Rattle.vyrd_base.specs.Own.Steps.{effects_of, next_of, answer_of};
ghost use Rattle.vyrd_own.specs.Prices.{nodes_of, lets_price, hand_price, line_nodes, lines_price};
ghost use Rattle.vyrd_own.specs.Prices.{cases_price, effects_price, answer_price, step_price};

use crate::code::Code;
use crate::evaluation::{evaluate, evaluate_counted};
use crate::program::{Case, Change, Method, Program};
use crate::state::StateOf;
use crate::updates::Updates;
use std::alloc::{AllocError, Global};
use std::marker::Brand;
use std::sync::ledger::{Blank, Ledger};
use vyrd_base::{Effect, Steps};

/// Room for what steps and answers compute. What it held is gone after each call.
#[derive(Drop)]
pub struct Room {
    pub alloc: Global,
    pub values: Vec<u64>,
    pub effects: Vec<Effect>,
    pub updates: Updates,
}

impl Room {
    /// Room that takes no memory yet.
    pub fn new(alloc: Global) -> Room {
        Room {
            alloc,
            values: Vec::new(alloc),
            effects: Vec::new(alloc),
            updates: Updates::new(alloc),
        }
    }
}

/// The value of an expression.
#[inline(always)]
pub fn value_of(code: &Code, state: &StateOf, values: &[u64]) -> u64
    ensures { result ≡ value state.now values.now (expr_in code.now) }
{
    evaluate(&code.nodes, state, values)
}

/// The value of an expression.
#[inline(always)]
pub fn value_counted<L: Ledger>(
    code: &Code,
    state: &StateOf,
    values: &[u64],
    steps: &mut Steps<L>,
) -> u64
    ensures value { result ≡ value state.now values.now (expr_in code.now) }
    ensures steps { steps.new ≤ steps.old + nodes_of (expr_in code.now) }
{
    evaluate_counted(&code.nodes, state, values, steps)
}

/// Puts into `values` what has a name in the method.
#[inline(always)]
pub fn put_values(
    program: &Program,
    method: &Method,
    args: &[u64],
    state: &StateOf,
    values: &mut Vec<u64>,
) -> Result<(), AllocError>
    ensures { OnOk result (values.new.items
        ≡ at_hand (written program.now) (method_of method.now) state.now args.now) }
{
    put_alone::<Brand>(Blank::new(1), program, method, args, state, values)
}

/// Puts what has a name with a count of its own.
#[inline(always)]
fn put_alone<L: Ledger>(
    blank: Blank,
    program: &Program,
    method: &Method,
    args: &[u64],
    state: &StateOf,
    values: &mut Vec<u64>,
) -> Result<(), AllocError>
    requires name { blank.name ≡ L.name }
    requires parts { blank.parts ≡ L.parts }
    requires some { 0 < blank.parts }
    ensures { OnOk result (values.new.items
        ≡ at_hand (written program.now) (method_of method.now) state.now args.now) }
{
    let mut steps = Steps::<L>::new(blank);
    put_values_counted(program, method, args, state, values, &mut steps)
}

/// Puts into `values` what has a name in the method.
pub fn put_values_counted<L: Ledger>(
    program: &Program,
    method: &Method,
    args: &[u64],
    state: &StateOf,
    values: &mut Vec<u64>,
    steps: &mut Steps<L>,
) -> Result<(), AllocError>
    ensures values { OnOk result (values.new.items
        ≡ at_hand (written program.now) (method_of method.now) state.now args.now) }
    ensures steps { steps.new ≤ steps.old
        + hand_price (written program.now) (method_of method.now) state.now args.now }
{
    values.clear();
    put_more(&program.constants, values, steps)?;
    put_more(state.registers(), values, steps)?;
    put_more(args, values, steps)?;
    put_lets(&method.lets, state, values, steps)
}

/// Puts these at the end.
#[inline(always)]
fn put_more<L: Ledger>(
    more: &[u64],
    values: &mut Vec<u64>,
    steps: &mut Steps<L>,
) -> Result<(), AllocError>
    ensures values { OnOk result (values.new.items ≡ values.old.items ++ more.now) }
    ensures steps { steps.new ≡ steps.old + length more.now }
{
    steps.add(more.len());
    values.extend_from_slice(more)
}

/// Puts the value of each `let` at the end.
fn put_lets<L: Ledger>(
    lets: &[Code],
    state: &StateOf,
    values: &mut Vec<u64>,
    steps: &mut Steps<L>,
) -> Result<(), AllocError>
    ensures values { OnOk result (values.new.items
        ≡ with_lets state.now values.old.items (map expr_in lets.now)) }
    ensures steps { steps.new ≤ steps.old + lets_price (map expr_in lets.now) }
{
    for code in lets {
        steps.tick();
        let found = value_counted(code, state, values, steps);
        values.push(found)?;
    }
    Ok(())
}

/// What a line of a case does.
fn effect<L: Ledger>(
    change: &Change,
    state: &StateOf,
    values: &[u64],
    steps: &mut Steps<L>,
) -> Effect
    ensures effect { result ≡ effect_of state.now values.now (change_of change.now) }
    ensures steps { steps.new ≤ steps.old + line_nodes (change_of change.now) }
{
    match change {
        Change::Shown(key, amount) => Effect::SetShown(
            value_counted(key, state, values, steps),
            value_counted(amount, state, values, steps),
        ),
        Change::Hidden(key, amount) => Effect::SetHidden(
            value_counted(key, state, values, steps),
            value_counted(amount, state, values, steps),
        ),
        Change::Register(i, new) => {
            Effect::SetRegister(*i, value_counted(new, state, values, steps))
        }
        Change::Append(i, new) => Effect::PutLast(*i, value_counted(new, state, values, steps)),
        Change::Prepend(i, new) => Effect::PutFirst(*i, value_counted(new, state, values, steps)),
        Change::DropFirst(i) => Effect::TakeFirst(*i),
        Change::DropLast(i) => Effect::TakeLast(*i),
        Change::Clear(i) => Effect::Empty(*i),
        Change::ClearShown => Effect::EmptyShown,
    }
}

/// Puts what the lines of a case do into `effects`.
fn put_effects<L: Ledger>(
    changes: &[Change],
    state: &StateOf,
    values: &[u64],
    effects: &mut Vec<Effect>,
    steps: &mut Steps<L>,
) -> Result<(), AllocError>
    ensures effects { OnOk result (effects.new.items
        ≡ map (effect_of state.now values.now) (map change_of changes.now)) }
    ensures steps { steps.new ≤ steps.old + lines_price (map change_of changes.now) }
{
    effects.clear();
    for change in changes {
        steps.tick();
        effects.push(effect(change, state, values, steps))?;
    }
    Ok(())
}

/// Puts what the first case does that allows the reply into `effects`, and says whether there is
/// one.
fn put_allowed<L: Ledger>(
    cases: &[Case],
    state: &StateOf,
    values: &[u64],
    effects: &mut Vec<Effect>,
    steps: &mut Steps<L>,
) -> Result<bool, AllocError>
    ensures allowed { IfOk result (λ allowed. allowed_effects state.now values.now
        (map case_of cases.now) ≡ (if allowed then Some effects.new.items else None)) }
    ensures steps { steps.new ≤ steps.old + cases_price (map case_of cases.now) }
{
    for case in cases {
        steps.tick();
        if value_counted(&case.allow, state, values, steps) != 0 {
            put_effects(&case.changes, state, values, effects, steps)?;
            return Ok(true);
        }
    }
    Ok(false)
}

/// Makes a step with a call and its reply, and says whether the reply is allowed. The room then has
/// what the step did. If the reply is refused, and if memory runs out, the state is as it was.
#[inline(always)]
pub fn step(
    program: &Program,
    method: &Method,
    args: &[u64],
    reply: u64,
    state: &mut StateOf,
    room: &mut Room,
) -> Result<bool, AllocError>
    ensures allowed { result ≡ Ok true
        → next_of (written program.now) (method_of method.now) args.now reply state.old
        ≡ Some state.new }
    ensures refused { result ≡ Ok false
        → next_of (written program.now) (method_of method.now) args.now reply state.old ≡ None }
    ensures same { result ≢ Ok true → state.new ≡ state.old }
    ensures effects { result ≡ Ok true
        → effects_of (written program.now) (method_of method.now) state.old args.now reply
        ≡ Some room.new.effects.items }
{
    step_alone::<Brand>(Blank::new(1), program, method, args, reply, state, room)
}

/// Makes a step with a count of its own.
#[inline(always)]
fn step_alone<L: Ledger>(
    blank: Blank,
    program: &Program,
    method: &Method,
    args: &[u64],
    reply: u64,
    state: &mut StateOf,
    room: &mut Room,
) -> Result<bool, AllocError>
    requires name { blank.name ≡ L.name }
    requires parts { blank.parts ≡ L.parts }
    requires some { 0 < blank.parts }
    ensures allowed { result ≡ Ok true
        → next_of (written program.now) (method_of method.now) args.now reply state.old
        ≡ Some state.new }
    ensures refused { result ≡ Ok false
        → next_of (written program.now) (method_of method.now) args.now reply state.old ≡ None }
    ensures same { result ≢ Ok true → state.new ≡ state.old }
    ensures effects { result ≡ Ok true
        → effects_of (written program.now) (method_of method.now) state.old args.now reply
        ≡ Some room.new.effects.items }
{
    let mut steps = Steps::<L>::new(blank);
    step_counted(program, method, args, reply, state, room, &mut steps)
}

/// Makes a step with a call and its reply, as `step` does, with its steps counted.
pub fn step_counted<L: Ledger>(
    program: &Program,
    method: &Method,
    args: &[u64],
    reply: u64,
    state: &mut StateOf,
    room: &mut Room,
    steps: &mut Steps<L>,
) -> Result<bool, AllocError>
    ensures allowed { result ≡ Ok true
        → next_of (written program.now) (method_of method.now) args.now reply state.old
        ≡ Some state.new }
    ensures refused { result ≡ Ok false
        → next_of (written program.now) (method_of method.now) args.now reply state.old ≡ None }
    ensures same { result ≢ Ok true → state.new ≡ state.old }
    ensures effects { result ≡ Ok true
        → effects_of (written program.now) (method_of method.now) state.old args.now reply
        ≡ Some room.new.effects.items }
    ensures steps { steps.new ≤ steps.old
        + step_price (written program.now) (method_of method.now) state.old args.now }
{
    if !find_effects_counted(program, method, args, reply, state, room, steps)? {
        return Ok(false);
    }
    state.put_all_counted(room.alloc, &room.effects, &mut room.updates, steps)?;
    Ok(true)
}

/// Finds out what a call does with its reply, in numbers, and says whether the reply is allowed.
/// The room then has what it does.
#[inline(always)]
pub fn find_effects(
    program: &Program,
    method: &Method,
    args: &[u64],
    reply: u64,
    state: &StateOf,
    room: &mut Room,
) -> Result<bool, AllocError>
    ensures { IfOk result (λ allowed. effects_of (written program.now) (method_of method.now)
        state.now args.now reply ≡ (if allowed then Some room.new.effects.items else None)) }
{
    find_alone::<Brand>(Blank::new(1), program, method, args, reply, state, room)
}

/// Finds out what a call does with a count of its own.
#[inline(always)]
fn find_alone<L: Ledger>(
    blank: Blank,
    program: &Program,
    method: &Method,
    args: &[u64],
    reply: u64,
    state: &StateOf,
    room: &mut Room,
) -> Result<bool, AllocError>
    requires name { blank.name ≡ L.name }
    requires parts { blank.parts ≡ L.parts }
    requires some { 0 < blank.parts }
    ensures { IfOk result (λ allowed. effects_of (written program.now) (method_of method.now)
        state.now args.now reply ≡ (if allowed then Some room.new.effects.items else None)) }
{
    let mut steps = Steps::<L>::new(blank);
    find_effects_counted(program, method, args, reply, state, room, &mut steps)
}

/// Finds out what a call does with its reply, as `find_effects` does, with its steps counted.
pub fn find_effects_counted<L: Ledger>(
    program: &Program,
    method: &Method,
    args: &[u64],
    reply: u64,
    state: &StateOf,
    room: &mut Room,
    steps: &mut Steps<L>,
) -> Result<bool, AllocError>
    ensures allowed { IfOk result (λ allowed. effects_of (written program.now)
        (method_of method.now) state.now args.now reply
        ≡ (if allowed then Some room.new.effects.items else None)) }
    ensures steps { steps.new ≤ steps.old
        + effects_price (written program.now) (method_of method.now) state.now args.now }
{
    put_values_counted(program, method, args, state, &mut room.values, steps)?;
    steps.tick();
    room.values.push(reply)?;
    put_allowed(&method.cases, state, &room.values, &mut room.effects, steps)
}

/// What an execution that commits nothing has to reply.
#[inline(always)]
pub fn answer(
    program: &Program,
    method: &Method,
    args: &[u64],
    state: &StateOf,
    room: &mut Room,
) -> Result<Option<u64>, AllocError>
    ensures { IfOk result (λ a. a
        ≡ answer_of (written program.now) (method_of method.now) args.now state.now) }
{
    answer_alone::<Brand>(Blank::new(1), program, method, args, state, room)
}

/// Answers with a count of its own.
#[inline(always)]
fn answer_alone<L: Ledger>(
    blank: Blank,
    program: &Program,
    method: &Method,
    args: &[u64],
    state: &StateOf,
    room: &mut Room,
) -> Result<Option<u64>, AllocError>
    requires name { blank.name ≡ L.name }
    requires parts { blank.parts ≡ L.parts }
    requires some { 0 < blank.parts }
    ensures { IfOk result (λ a. a
        ≡ answer_of (written program.now) (method_of method.now) args.now state.now) }
{
    let mut steps = Steps::<L>::new(blank);
    answer_counted(program, method, args, state, room, &mut steps)
}

/// What an execution that commits nothing has to reply, as `answer` says it, with its steps
/// counted.
#[tactic(auto, unfolding(vyrd_base::specs::Own::Steps::answer_of))]
pub fn answer_counted<L: Ledger>(
    program: &Program,
    method: &Method,
    args: &[u64],
    state: &StateOf,
    room: &mut Room,
    steps: &mut Steps<L>,
) -> Result<Option<u64>, AllocError>
    ensures answer { IfOk result (λ a. a
        ≡ answer_of (written program.now) (method_of method.now) args.now state.now) }
    ensures steps { steps.new ≤ steps.old
        + answer_price (written program.now) (method_of method.now) state.now args.now }
{
    let Some(code) = &method.answer else {
        return Ok(None);
    };
    put_values_counted(program, method, args, state, &mut room.values, steps)?;
    Ok(Some(value_counted(code, state, &room.values, steps)))
}
