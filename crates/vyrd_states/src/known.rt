//! The specification, run along the commits of a front.

ghost use Rattle.std.specs.Prelude.{◌≡◌, ◌<◌, ◌≤◌, ◌^◌, true, false, length, IfOk, None};
ghost use Rattle.std.specs.Prelude.{slice_get, Some};
ghost use Rattle.std.specs.Option.{option_map};
ghost use Rattle.vyrd_base.specs.Entries.{has_method};
ghost use Rattle.vyrd_base.specs.Front.{first_break};
ghost use Rattle.vyrd_base.specs.Rules.{rules_by};
ghost use Rattle.vyrd_base.specs.Starts.{may_start};
ghost use Rattle.vyrd_base.specs.Subjects.{is_built_in, is_observer};
ghost use Rattle.vyrd_states.specs.Running.{IsKnown, LeadsTo, run_by, state_past, state_by};

use crate::begins::Begins;
use std::alloc::{AllocError, Global};
use vyrd_base::{Entry, Kind, StartWord};
use vyrd_spec::Spec;
use vyrd_witness::{Execution, execution_of};

/// The specification in its state after the first `n` entries of a front. `None` if that state
/// isn't known: the starting words stand for none, a commit before belongs to an execution that
/// doesn't return, or the reply of one before is refused. The front keeps all rules of shape, and
/// begins with these starting words.
///
/// Each commit is a step, which looks at the entries from its execution's call to its return. So
/// time is at most in proportion to the entries times the callers, besides that of the steps.
/// Memory is that of one specification. The only error is that memory has run out.
pub fn spec_at<B: Begins>(
    alloc: Global,
    begins: &B,
    starting: &[StartWord],
    front: &[Entry],
    n: usize,
) -> Result<Option<B::Running>, AllocError>
    requires may_start { is_built_in (rules_by (B.charter begins.now)).header.subject ≡ true
        → may_start (rules_by (B.charter begins.now)).header starting.now ≡ true }
    requires within { n ≤ length front.now }
    requires kept { first_break (rules_by (B.charter begins.now)).header front.now ≡ None }
    requires few { length front.now < 2 ^ 62 }
    ensures { IfOk result
        (λ found. IsKnown (B.charter begins.now) starting.now front.now n
        (option_map (run_by B.Running.charter B.Running.state B.Running.made) found)) }
{
    let Some(mut spec) = begins.begin(alloc, starting)? else {
        return Ok(None);
    };
    for at in 0..n {
        let Some(next) = step(spec, front, at)? else {
            return Ok(None);
        };
        spec = next;
    }
    Ok(Some(spec))
}

/// The specification after the entry at a position of a front, `None` if its state isn't known
/// there.
pub(crate) fn step<S: Spec>(spec: S, front: &[Entry], at: usize) -> Result<Option<S>, AllocError>
    requires within { at < length front.now }
    requires kept { first_break (rules_by (S.charter spec)).header front.now ≡ None }
    requires few { S.made spec < 2 ^ 62 }
    ensures { IfOk result (λ found. LeadsTo (run_by S.charter S.state S.made spec)
        (state_past (rules_by (S.charter spec)) front.now at (S.state spec))
        (option_map (run_by S.charter S.state S.made) found)) }
{
    let entry = entry_at(front, at);
    match entry.kind {
        Kind::Commit | Kind::BlockCommit => match execution_of(front, at, entry.caller) {
            Some(execution) => commit(spec, execution),
            None => Ok(None),
        },
        Kind::Call(..) | Kind::Return(_) | Kind::Write(..) | Kind::BlockOpen | Kind::BlockClose =>
            Ok(Some(spec)),
    }
}

/// The specification after the commit of an execution, `None` if that doesn't return or its reply
/// is refused.
fn commit<S: Spec>(mut spec: S, execution: Execution) -> Result<Option<S>, AllocError>
    requires allowed { has_method (rules_by (S.charter spec)).header execution.method execution.args
        ≡ true }
    requires mutates { is_observer execution.method ≡ false }
    requires few { S.made spec < 2 ^ 62 }
    ensures { IfOk result (λ found. LeadsTo (run_by S.charter S.state S.made spec)
        (state_by (rules_by (S.charter spec)) execution (S.state spec))
        (option_map (run_by S.charter S.state S.made) found)) }
{
    let Some(back) = execution.returned else {
        return Ok(None);
    };
    if spec.step(execution.method, execution.args, back.reply)? {
        Ok(Some(spec))
    } else {
        Ok(None)
    }
}

/// The entry at a position.
pub fn entry_at(front: &[Entry], at: usize) -> Entry
    requires { at < length front.now }
    ensures { slice_get front.now at ≡ Some result }
{
    front[at]
}
