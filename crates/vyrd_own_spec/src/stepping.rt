//! Steps and answers by the rules of a specification's lines.

ghost use Rattle.std.specs.Prelude.{◌≡◌, ◌≢◌, ◌≤◌, ◌+◌, ◌*◌, ◌++◌, ◌==◌, ◌||◌, [], ◌∷◌};
ghost use Rattle.std.specs.Prelude.{true, false, length, map, take, OnOk, IfOk, Ok, Some, None};
ghost use Rattle.std.specs.Prelude.{if◌then◌else◌, slice_get};
ghost use Rattle.std.specs.Option.{option_map_or};
ghost use Rattle.std.specs.List.{list_any};
ghost use Rattle.vyrd_base.specs.Amounts.{IsAmounts, keys_of};
ghost use Rattle.vyrd_base.specs.Rules.{given};
ghost use Rattle.vyrd_base.specs.Subjects.{own_number};
ghost use Rattle.vyrd_base.specs.Own.Expressions.{most};
ghost use Rattle.vyrd_base.specs.Own.OwnRules.{own_answer};
ghost use Rattle.vyrd_base.specs.Own.Reader.{written_in};
ghost use Rattle.vyrd_base.specs.Own.Steps.{shown_keys, is_clearing};
ghost use Rattle.vyrd_own.specs.Layout.{method_of, written};
ghost use Rattle.vyrd_spec.specs.Touching.{with_touched};
ghost use Rattle.vyrd_own_spec.specs.Effects.{most_effects};
ghost use Rattle.vyrd_own_spec.specs.Small.{IsSmall};
ghost use Rattle.vyrd_own_spec.specs.Touched.{touched_by, next_by, effects_by, touches, answer_by};

use crate::specification::Specification;
use std::alloc::{AllocError, Global};
use vyrd_base::{Args, Header, Method};
use vyrd_own::{Effect, Program, Room, StateOf, answer_of_few, find_effects};

/// Makes a step with a call and its reply, and says whether the reply is allowed. `touched` then has
/// the keys whose shown amount may have changed. If the reply is refused, and if memory runs out,
/// the state is as it was.
pub(crate) fn step(
    specification: &Specification,
    method: Method,
    args: Args,
    reply: u64,
    state: &mut StateOf,
    room: &mut Room,
    touched: &mut Vec<u64>,
) -> Result<bool, AllocError>
    ensures allowed { result ≡ Ok true
        → next_by (written_in specification.now) method args reply state.old ≡ Some state.new }
    ensures refused { result ≡ Ok false
        → next_by (written_in specification.now) method args reply state.old ≡ None }
    ensures same { result ≢ Ok true → state.new ≡ state.old }
    ensures touched { result ≡ Ok true
        → touched.new.items ≡ touches (written_in specification.now) state.old method args reply }
    ensures changed { result ≡ Ok true
        → with_touched touched.new.items state.new.shown state.old.shown ≡ state.new.shown }
    ensures idle { result ≡ Ok true → room.new.effects.items ≡ [] → state.new ≡ state.old }
    ensures registers { length state.new.registers ≡ length state.old.registers }
    ensures paid { result ≡ Ok true → length touched.new.items + length state.new.shown
        ≤ length state.old.shown + 2 * most_effects (written_in specification.now) }
{
    if !plan(specification.program(), method, args, reply, state, room)? {
        return Ok(false);
    }
    put_touched(room.alloc, state, &room.effects, touched)?;
    state.put_all(room.alloc, &room.effects, &mut room.updates)?;
    Ok(true)
}

/// Finds out what a call does with its reply, and says whether the reply is allowed.
pub(crate) fn plan(
    program: &Program,
    method: Method,
    args: Args,
    reply: u64,
    state: &StateOf,
    room: &mut Room,
) -> Result<bool, AllocError>
    ensures { IfOk result (λ allowed. effects_by (written program.now) method args reply state.now
        ≡ (if allowed then Some room.new.effects.items else None)) }
{
    let Some(number) = method.own_number() else {
        return Ok(false);
    };
    let Some(found) = program.methods.get(number as usize) else {
        return Ok(false);
    };
    let all = all_args(args);
    find_effects(program, found, given(&all, found.arity), reply, state, room)
}

/// All arguments.
#[inline(always)]
pub(crate) fn all_args(args: Args) -> [u64; 3]
    ensures { result ≡ args.a ∷ args.b ∷ args.c ∷ [] }
{
    [u64::from(args.a), u64::from(args.b), u64::from(args.c)]
}

/// The first of them, as many as a method has.
#[inline(always)]
pub(crate) fn given(all: &[u64; 3], arity: usize) -> &[u64]
    ensures { result.now ≡ take arity all.now }
{
    &all[..arity.min(3)]
}

/// Puts the keys whose shown amount these effects can change.
fn put_touched(
    alloc: Global,
    state: &StateOf,
    effects: &[Effect],
    touched: &mut Vec<u64>,
) -> Result<(), AllocError>
    ensures touched { OnOk result (touched.new.items ≡ touched_by state.now effects.now) }
    ensures formed { IsAmounts state.now.shown }
{
    let shown = state.shown();
    touched.clear();
    if clears(effects) {
        put_keys(shown.view(alloc)?.pairs(), touched)?;
    }
    put_set(effects, touched)
}

/// Whether the shown amounts are cleared.
fn clears(effects: &[Effect]) -> bool
    ensures { result ≡ list_any is_clearing effects.now }
{
    for effect in effects {
        if let Effect::EmptyShown = effect {
            return true;
        }
    }
    false
}

/// Puts the keys at the end.
fn put_keys(pairs: &[(u64, u64)], touched: &mut Vec<u64>) -> Result<(), AllocError>
    ensures { OnOk result (touched.new.items ≡ touched.old.items ++ keys_of pairs.now) }
{
    for (key, _) in pairs {
        touched.push(*key)?;
    }
    Ok(())
}

/// Puts the keys that are set at the end.
fn put_set(effects: &[Effect], touched: &mut Vec<u64>) -> Result<(), AllocError>
    ensures { OnOk result (touched.new.items ≡ touched.old.items ++ shown_keys effects.now) }
{
    for effect in effects {
        if let Effect::SetShown(key, _) = effect {
            touched.push(*key)?;
        }
    }
    Ok(())
}

/// What an execution that commits nothing answers in this state.
pub(crate) fn answer(
    specification: &Specification,
    method: Method,
    args: Args,
    state: &StateOf,
) -> u64
    requires { length state.now.registers ≤ 16 }
    ensures { result ≡ option_map_or (λ i. own_answer (written_in specification.now) state.now i
        (given (written_in specification.now) i args)) (own_number method) most }
{
    answer_by(specification.program(), method, args, state).unwrap_or(u64::MAX)
}

/// The same, if the method has an answer.
fn answer_by(program: &Program, method: Method, args: Args, state: &StateOf) -> Option<u64>
    requires registers { length state.now.registers ≤ 16 }
    requires small { IsSmall (written program.now) }
    ensures { result ≡ answer_by (written program.now) method args state.now }
{
    let number = method.own_number()?;
    let found = program.methods.get(number as usize)?;
    let all = all_args(args);
    answer_of_few(program, found, given(&all, found.arity), state)
}

/// Whether nothing is shown: there are no words, or the specification has no part.
pub(crate) fn shows_nothing(header: Header, specification: &Specification) -> bool
    ensures { result ≡ (header.size == 0 || (written_in specification.now).words == 0) }
{
    header.size() == 0 || specification.program().words == 0
}
