//! One event of a caller, tried again for as long as another caller is at its cell.

ghost use Rattle.std.specs.Prelude.{◌≡◌, ◌<◌, IfSome, IfNone};
ghost use Rattle.vyrd_trace.specs.Hands.{IsOf, with_look};
ghost use Rattle.vyrd_live.specs.Acts.{MayAct, HasActed};
ghost use Rattle.vyrd_live.specs.Sending.{HasSent};

use crate::outbox::Outbox;
use std::sync::Wait;
use vyrd_memory::Act;
use vyrd_relay::Relay;
use vyrd_trace::{Hand, Traced};

/// Does the act, and answers what it found: the value that was loaded, and 0 for any other act. It
/// waits for as long as the act is busy, and before long sends what it can meanwhile.
pub(crate) fn act<R: Wait>(
    rt: &R,
    traced: &Traced,
    hand: &mut Hand,
    act: Act,
    relay: &Relay,
    outbox: &mut Outbox,
) -> u64
    requires hand { IsOf traced.now hand.old × (0 < hand.old.spare) }
    requires may { MayAct traced.now.plan hand.old act }
    requires sent { HasSent relay.now outbox.old.sender outbox.old.place hand.old }
    ensures acted { HasActed act result hand.old hand.new }
    ensures sent { HasSent relay.now outbox.new.sender outbox.new.place hand.old }
{
    let mut tries = 0;
    for _ in rt.forever() {
        if let Some(answer) = try_act(traced, hand, act) {
            return answer;
        }
        outbox.pass_round(rt, relay, hand, &mut tries);
    }
    unreachable!()
}

/// Does the act, and answers what it found. `None` means busy: nothing was done then.
fn try_act(traced: &Traced, hand: &mut Hand, act: Act) -> Option<u64>
    requires hand { IsOf traced.now hand.old × (0 < hand.old.spare) }
    requires may { MayAct traced.now.plan hand.old act }
    ensures acted { IfSome result (λ answer. HasActed act answer hand.old hand.new) }
    ensures busy { IfNone result (hand.new ≡ with_look hand.old hand.new.look) }
{
    match act {
        Act::Load(cell) => {
            let seen = traced.load(hand, cell).ok()?;
            Some(seen.value)
        }
        Act::Store(cell, value) => {
            traced.store(hand, cell, value).ok()?;
            Some(0)
        }
        Act::Take(lock) => {
            traced.take(hand, lock).ok()?;
            Some(0)
        }
        Act::Give(lock) => {
            traced.give(hand, lock);
            Some(0)
        }
        Act::Mark(kind) => {
            traced.mark(hand, kind);
            Some(0)
        }
        Act::Done => unreachable!(),
    }
}
