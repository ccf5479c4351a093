//! Which replies a state allows, what counts for that, and what a call then does.

ghost use Rattle.std.specs.Prelude.{◌≡◌, IfOk, option_map};
ghost use Rattle.std.specs.Option.{is_some};
ghost use Rattle.vyrd_base.specs.Own.Reader.{written_in};
ghost use Rattle.vyrd_own.specs.Layout.{written};
ghost use Rattle.vyrd_own_spec.specs.Touched.{next_by, effects_by};
ghost use Rattle.vyrd_own_spec.specs.Counted.{worths_by};

use crate::specification::Specification;
use crate::stepping::{all_args, given, plan};
use std::alloc::{AllocError, Global};
use vyrd_base::{Args, Effect, Method};
use vyrd_own::{Program, Room, StateOf, Worth, put_worths};

/// Whether a state allows a call this reply.
pub(crate) fn allows(
    alloc: Global,
    specification: &Specification,
    method: Method,
    args: Args,
    reply: u64,
    state: &StateOf,
) -> Result<bool, AllocError>
    ensures { IfOk result (λ allowed. allowed
        ≡ is_some (next_by (written_in specification.now) method args reply state.now)) }
{
    let mut room = Room::new(alloc);
    let program = specification.program();
    plan(program, method, args, reply, state, &mut room)
}

/// What a call with this reply does to a state, or none if the state doesn't allow the reply.
pub(crate) fn effects(
    alloc: Global,
    specification: &Specification,
    method: Method,
    args: Args,
    reply: u64,
    state: &StateOf,
) -> Result<Option<Vec<Effect>>, AllocError>
    ensures { IfOk result (λ found. option_map (λ effects. effects.items) found
        ≡ effects_by (written_in specification.now) method args reply state.now) }
{
    let mut room = Room::new(alloc);
    let program = specification.program();
    if !plan(program, method, args, reply, state, &mut room)? {
        return Ok(None);
    }
    let effects = room.effects.to_vec(alloc)?;
    Ok(Some(effects))
}

/// What counts for whether a state allows a call this reply.
pub(crate) fn worths(
    alloc: Global,
    specification: &Specification,
    method: Method,
    args: Args,
    reply: u64,
    state: &StateOf,
) -> Result<Vec<Worth>, AllocError>
    ensures { IfOk result (λ found. found.items
        ≡ worths_by (written_in specification.now) method args reply state.now) }
{
    worths_of(alloc, specification.program(), method, args, reply, state)
}

/// The same, by what runs.
fn worths_of(
    alloc: Global,
    program: &Program,
    method: Method,
    args: Args,
    reply: u64,
    state: &StateOf,
) -> Result<Vec<Worth>, AllocError>
    ensures { IfOk result (λ found. found.items
        ≡ worths_by (written program.now) method args reply state.now) }
{
    let mut found = Vec::new(alloc);
    let Some(number) = method.own_number() else {
        return Ok(found);
    };
    let Some(called) = program.methods.get(number as usize) else {
        return Ok(found);
    };
    let all = all_args(args);
    let args = given(&all, called.arity);
    let mut room = Room::new(alloc);
    put_worths(program, called, args, reply, state, &mut room, &mut found)?;
    Ok(found)
}
