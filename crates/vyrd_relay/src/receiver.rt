//! The end of a relay that receives.

use crate::known::Known;
use crate::parcel::Parcel;
use crossbeam_queue::Pass;
use std::marker::Model;

/// The right to receive the events of all senders. There is one for each relay.
#[derive(Drop)]
pub struct Receiver {
    pub(crate) pass: Pass<Parcel, Known>,
}

impl Model for Receiver {
    ghost use Rattle.std.specs.Prelude.{◌≡◌, ◌<◌, []};
    ghost use Rattle.vyrd_relay.specs.declared.known.Known.TheVariants.{Receives};
    ghost use Rattle.vyrd_relay.specs.Knowledge.{received_in};
    ghost use Rattle.vyrd_relay.specs.Ends.{ReceiverView, knowledge, receiver_of};

    ghost Value = { ReceiverView };

    ghost view = { λ r. receiver_of r.pass.table_id (knowledge r.pass) };

    ghost invariant = { λ r. (knowledge r.pass ≡ Receives (received_in (knowledge r.pass)))
        × (0 < (received_in (knowledge r.pass)).made) × (r.pass.me.1 ≡ []) };
}
