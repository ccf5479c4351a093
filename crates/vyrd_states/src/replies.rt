//! Which replies a state allows, and what it has of the keys that decide them.

ghost use Rattle.std.specs.Prelude.{◌≡◌, ◌++◌, ◌<◌, ◌≤◌, ◌^◌, true, false, [], ◌∷◌, length, map};
ghost use Rattle.std.specs.Prelude.{take, is_some, IfOk, OnOk, None};
ghost use Rattle.std.specs.Option.{option_map_or};
ghost use Rattle.vyrd_base.specs.Entries.{has_method};
ghost use Rattle.vyrd_base.specs.Front.{first_break};
ghost use Rattle.vyrd_base.specs.Rules.{rules_by, rules_of};
ghost use Rattle.vyrd_base.specs.Starts.{may_start};
ghost use Rattle.vyrd_spec.specs.AnySpecs.{header_in, state_in, made_in};
ghost use Rattle.vyrd_witness.specs.declared.item.Item.TheVariants.{Allowed};
ghost use Rattle.vyrd_states.specs.Running.{called_by};
ghost use Rattle.vyrd_states.specs.Known.{state_then};
ghost use Rattle.vyrd_states.specs.Replies.{before_items, allowed_replies, reply_items};

use crate::begins::FromHeader;
use crate::known::{entry_at, spec_at};
use crate::looks::keys_named;
use std::alloc::{AllocError, Global};
use vyrd_base::{Entry, StartWord};
use vyrd_spec::{AnySpec, Spec};
use vyrd_witness::{Execution, Item, execution_of};

/// What is said of the commit at a position of a front: what the specification's state before it
/// has of each key that the call looks at, and the replies that this state allows. Nothing is said
/// if that state isn't known, or if the entry's caller has called nothing. The front keeps all
/// rules of shape, and begins with these starting words.
///
/// The only error is that memory has run out. The specification runs up to the entry four times,
/// once for the keys and once for each of the replies 0, 1 and 2: each run takes the time and the
/// memory that `after_items` takes.
pub fn reply_items(
    alloc: Global,
    begins: &FromHeader,
    starting: &[StartWord],
    front: &[Entry],
    at: usize,
) -> Result<Vec<Item>, AllocError>
    requires may_start { may_start begins.now.header starting.now ≡ true }
    requires within { at < length front.now }
    requires kept { first_break begins.now.header front.now ≡ None }
    requires few { length front.now < 2 ^ 62 }
    ensures { IfOk result
        (λ items. items.items ≡ reply_items (rules_of begins.now.header) starting.now front.now at) }
{
    let mut items = Vec::new(alloc);
    let caller = entry_at(front, at).caller;
    if let Some(call) = execution_of(front, at, caller) {
        push_before(alloc, begins, starting, front, at, call, &mut items)?;
        push_allowed(alloc, begins, starting, front, at, call, &mut items)?;
    }
    Ok(items)
}

/// Puts what the state before an entry has of each key that a call looks at at the end.
fn push_before(
    alloc: Global,
    begins: &FromHeader,
    starting: &[StartWord],
    front: &[Entry],
    at: usize,
    call: Execution,
    items: &mut Vec<Item>,
) -> Result<(), AllocError>
    requires may_start { may_start begins.now.header starting.now ≡ true }
    requires within { at < length front.now }
    requires kept { first_break begins.now.header front.now ≡ None }
    requires few { length front.now < 2 ^ 62 }
    ensures { OnOk result (items.new.items ≡ items.old.items
        ++ option_map_or (λ state. before_items (rules_of begins.now.header) at state (called_by call))
        (state_then (rules_of begins.now.header) starting.now front.now at) []) }
{
    match spec_at(alloc, begins, starting, front, at)? {
        Some(spec) => push_keys(&spec, at, call, items),
        None => Ok(()),
    }
}

/// The same for a specification that is in that state.
fn push_keys<S: Spec>(
    spec: &S,
    at: usize,
    call: Execution,
    items: &mut Vec<Item>,
) -> Result<(), AllocError>
    ensures { OnOk result (items.new.items ≡ items.old.items
        ++ before_items (rules_by (S.charter spec.now)) at (S.state spec.now) (called_by call)) }
{
    let keys = [u64::from(call.args.a), u64::from(call.args.b)];
    for key in &keys[..keys_named(call.method, call.args)] {
        let key = *key;
        let amount = spec.amount(key);
        items.push(Item::Before { at, key, amount })?;
    }
    Ok(())
}

/// Puts the replies that the state before an entry allows a call at the end.
fn push_allowed(
    alloc: Global,
    begins: &FromHeader,
    starting: &[StartWord],
    front: &[Entry],
    at: usize,
    call: Execution,
    items: &mut Vec<Item>,
) -> Result<(), AllocError>
    requires may_start { may_start begins.now.header starting.now ≡ true }
    requires within { at < length front.now }
    requires kept { first_break begins.now.header front.now ≡ None }
    requires few { length front.now < 2 ^ 62 }
    requires has { has_method begins.now.header call.method call.args ≡ true }
    ensures { OnOk result (items.new.items ≡ items.old.items
        ++ option_map_or
        (λ state. map Allowed (allowed_replies (rules_of begins.now.header) (called_by call) state))
        (state_then (rules_of begins.now.header) starting.now front.now at) []) }
{
    for reply in 0..3 {
        // A step that is allowed changes the state, so each reply is tried on one of its own.
        let Some(spec) = spec_at(alloc, begins, starting, front, at)? else {
            return Ok(());
        };
        if allows(spec, call, reply)? {
            items.push(Item::Allowed { reply })?;
        }
    }
    Ok(())
}

/// Whether a specification allows a call this reply in the state in which it is.
fn allows(mut spec: AnySpec, call: Execution, reply: u64) -> Result<bool, AllocError>
    requires has { has_method (header_in spec) call.method call.args ≡ true }
    requires few { made_in spec < 2 ^ 62 }
    ensures { IfOk result (λ b. b ≡ is_some
        ((rules_of (header_in spec)).next call.method call.args reply (state_in spec))) }
{
    // An observer never commits: it has no next state.
    if call.method.is_observer() {
        return Ok(false);
    }
    spec.step(call.method, call.args, reply)
}
