//! One step of a specification along a front, with what it does.

ghost use Rattle.std.specs.Prelude.{◌≡◌, ◌+◌, ◌++◌, ◌<◌, ◌^◌, [], List, length, slice_get};
ghost use Rattle.std.specs.Prelude.{None, true, false, IfOk, OnOk, IfSome};
ghost use Rattle.std.specs.Option.{option_map, option_map_or};
ghost use Rattle.vyrd_base.specs.declared.log.StartWord.{StartWord};
ghost use Rattle.vyrd_base.specs.Entries.{has_method};
ghost use Rattle.vyrd_base.specs.Front.{first_break};
ghost use Rattle.vyrd_base.specs.Rules.{Charter, rules_by};
ghost use Rattle.vyrd_base.specs.Subjects.{is_observer};
ghost use Rattle.vyrd_states.specs.Running.{IsKnown, LeadsTo, run_by, state_by, state_past};
ghost use Rattle.vyrd_follow.specs.Doings.{done_at, done_by, done_by_entry};

use crate::tells::Tells;
use std::alloc::{AllocError, Global};
use vyrd_base::{Effect, Entry, Kind};
use vyrd_states::entry_at;
use vyrd_witness::{Execution, execution_of};

/// The specification after the entry at a position of a front, `None` if its state isn't known
/// there, as it isn't if none is known before. What the entry's step does is then in `done`, and
/// nothing else. The front keeps all rules of shape.
pub(crate) fn pass<S: Tells>(
    alloc: Global,
    spec: Option<S>,
    front: &[Entry],
    at: usize,
    done: &mut Vec<Effect>,
) -> Result<Option<S>, AllocError>
    requires within { at < length front.now }
    requires kept { IfSome spec
        (λ s. first_break (rules_by (S.charter s)).header front.now ≡ None) }
    requires few { IfSome spec (λ s. S.made s < 2 ^ 62) }
    ensures next { (c : Charter) (starting : List StartWord)
        → IsKnown c starting front.now at (option_map (run_by S.charter S.state S.made) spec)
        → IfOk result (λ found. IsKnown c starting front.now (at + 1)
        (option_map (run_by S.charter S.state S.made) found)) }
    ensures done { (c : Charter) (starting : List StartWord)
        → IsKnown c starting front.now at (option_map (run_by S.charter S.state S.made) spec)
        → OnOk result (done.new.items ≡ done_at c starting front.now at) }
{
    done.clear();
    match spec {
        Some(before) => step(alloc, before, front, at, done),
        None => Ok(None),
    }
}

/// The same of a specification that is known. What the entry's step does is put at the end.
fn step<S: Tells>(
    alloc: Global,
    spec: S,
    front: &[Entry],
    at: usize,
    done: &mut Vec<Effect>,
) -> Result<Option<S>, AllocError>
    requires within { at < length front.now }
    requires kept { first_break (rules_by (S.charter spec)).header front.now ≡ None }
    requires few { S.made spec < 2 ^ 62 }
    ensures next { IfOk result (λ found. LeadsTo (run_by S.charter S.state S.made spec)
        (state_past (rules_by (S.charter spec)) front.now at (S.state spec))
        (option_map (run_by S.charter S.state S.made) found)) }
    ensures done { OnOk result (done.new.items ≡ done.old.items ++ option_map_or
        (done_by_entry (S.charter spec) front.now at (S.state spec)) (slice_get front.now at) []) }
{
    let entry = entry_at(front, at);
    match entry.kind {
        Kind::Commit | Kind::BlockCommit => match execution_of(front, at, entry.caller) {
            Some(execution) => commit(alloc, spec, execution, done),
            None => Ok(None),
        },
        Kind::Call(..) | Kind::Return(_) | Kind::Write(..) | Kind::BlockOpen | Kind::BlockClose =>
            Ok(Some(spec)),
    }
}

/// The specification after the commit of an execution, `None` if that doesn't return or its reply
/// is refused. What its step does is put at the end.
fn commit<S: Tells>(
    alloc: Global,
    mut spec: S,
    execution: Execution,
    done: &mut Vec<Effect>,
) -> Result<Option<S>, AllocError>
    requires allowed { has_method (rules_by (S.charter spec)).header execution.method execution.args
        ≡ true }
    requires mutates { is_observer execution.method ≡ false }
    requires few { S.made spec < 2 ^ 62 }
    ensures next { IfOk result (λ found. LeadsTo (run_by S.charter S.state S.made spec)
        (state_by (rules_by (S.charter spec)) execution (S.state spec))
        (option_map (run_by S.charter S.state S.made) found)) }
    ensures done { OnOk result (done.new.items
        ≡ done.old.items ++ done_by (S.charter spec) (S.state spec) execution) }
{
    let Some(back) = execution.returned else {
        return Ok(None);
    };
    if spec.step_told(alloc, execution.method, execution.args, back.reply, done)? {
        Ok(Some(spec))
    } else {
        Ok(None)
    }
}
