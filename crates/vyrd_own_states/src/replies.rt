//! What is said of a reply that a specification of a user's own refuses.

ghost use Rattle.std.specs.Prelude.{◌≡◌, ◌++◌, ◌<◌, ◌^◌, length, map, filter, IfOk, OnOk, None};
ghost use Rattle.std.specs.Arc.{arc_value};
ghost use Rattle.vyrd_base.specs.Front.{first_break};
ghost use Rattle.vyrd_base.specs.Own.Reader.{written_in};
ghost use Rattle.vyrd_witness.specs.declared.item.Item.TheVariants.{Allowed};
ghost use Rattle.vyrd_states.specs.Running.{called_by};
ghost use Rattle.vyrd_own_states.specs.OwnReplies.{is_allowed, own_refused_items, own_reply_items};

use crate::begins::FromSpecification;
use crate::keys::tried;
use crate::states::{push_amounts, push_lists, push_registers};
use std::alloc::{AllocError, Global};
use vyrd_base::{Entry, StartWord};
use vyrd_own_spec::OwnSpec;
use vyrd_states::{entry_at, spec_at};
use vyrd_witness::{Execution, Item, execution_of};

/// What is said of the commit at a position of a front, whose execution has this reply: what the
/// specification's state before it has in its registers and its lists, and of the amounts that the
/// cases of the method read; and which of the replies 0, 1 and 2, and of the numbers that stand in
/// these cases, this state allows. Nothing is said if that state isn't known, or if the entry's
/// caller has called nothing. The front keeps all rules of shape, and begins with these starting
/// words.
///
/// The specification runs up to the entry once, which takes the time and the memory that `spec_at`
/// takes. Then each number that stands in the cases is tried, in time in proportion to the cases.
/// The only error is that memory has run out.
pub fn own_reply_items(
    alloc: Global,
    begins: &FromSpecification,
    starting: &[StartWord],
    front: &[Entry],
    at: usize,
    reply: u64,
) -> Result<Vec<Item>, AllocError>
    requires within { at < length front.now }
    requires kept { first_break begins.now.header front.now ≡ None }
    requires few { length front.now < 2 ^ 62 }
    ensures { IfOk result (λ items. items.items ≡ own_reply_items begins.now.header
        (written_in (arc_value begins.now.specification)) starting.now front.now at reply) }
{
    let mut items = Vec::new(alloc);
    let Some(call) = execution_of(front, at, entry_at(front, at).caller) else {
        return Ok(items);
    };
    let Some(spec) = spec_at(alloc, begins, starting, front, at)? else {
        return Ok(items);
    };
    push_refused(alloc, &spec, at, call, reply, &mut items)?;
    Ok(items)
}

/// Puts what is said of a call in the state of a specification at the end.
fn push_refused(
    alloc: Global,
    spec: &OwnSpec,
    at: usize,
    call: Execution,
    reply: u64,
    items: &mut Vec<Item>,
) -> Result<(), AllocError>
    ensures { OnOk result (items.new.items ≡ items.old.items
        ++ own_refused_items spec.now.header (written_in (arc_value spec.now.specification))
        at reply spec.now.state (called_by call)) }
{
    let worths = spec.worths(alloc, call.method, call.args, reply)?;
    push_registers(spec.state(), at, items)?;
    push_lists(spec.state(), at, items)?;
    push_amounts(alloc, spec.state(), at, &worths, items)?;
    push_allowed(alloc, spec, call, &tried(alloc, &worths)?, items)
}

/// Puts those of some replies that the state of a specification allows a call at the end.
fn push_allowed(
    alloc: Global,
    spec: &OwnSpec,
    call: Execution,
    replies: &[u64],
    items: &mut Vec<Item>,
) -> Result<(), AllocError>
    ensures { OnOk result (items.new.items ≡ items.old.items ++ map Allowed
        (filter (is_allowed spec.now.header (written_in (arc_value spec.now.specification))
        (called_by call) spec.now.state) replies.now)) }
{
    for reply in replies {
        let reply = *reply;
        if is_allowed(alloc, spec, call, reply)? {
            items.push(Item::Allowed { reply })?;
        }
    }
    Ok(())
}

/// Whether the state of a specification allows a call this reply.
fn is_allowed(
    alloc: Global,
    spec: &OwnSpec,
    call: Execution,
    reply: u64,
) -> Result<bool, AllocError>
    ensures { IfOk result (λ b. b ≡ is_allowed spec.now.header
        (written_in (arc_value spec.now.specification)) (called_by call) spec.now.state reply) }
{
    if reply == u64::MAX {
        return Ok(false);
    }
    spec.allows(alloc, call.method, call.args, reply)
}
