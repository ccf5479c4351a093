//! The rule that every step keeps.

use crate::known::Known;
use crate::parcel::Parcel;
use crossbeam_queue::protocol::Protocol;

/// What the receiver has had of a sender, and then what is queued of it, is what it sent, in its
/// order.
pub struct InOrder;

impl Protocol<Parcel, Known> for InOrder {
    ghost use Rattle.vyrd_relay.specs.declared.known.Known.TheVariants.{Receives};
    ghost use Rattle.vyrd_relay.specs.Knowledge.{new_received};
    ghost use Rattle.vyrd_relay.specs.Rule.{Relayed};

    ghost holds = { Relayed };

    ghost first = { Receives (new_received 0 0) };
}
