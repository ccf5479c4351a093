//! The end of a relay that sends one caller's events.

use crate::known::Known;
use crate::parcel::Parcel;
use crossbeam_queue::Pass;
use std::marker::Model;

/// The right to send the events of one caller, in the order in which they are pushed. It is made
/// with its relay, in [`Relay::new`](crate::Relay::new), and
/// [`Relay::settle`](crate::Relay::settle) takes it in.
#[derive(Drop)]
pub struct Sender {
    // How many events were sent.
    pub(crate) count: u64,
    pub(crate) pass: Pass<Parcel, Known>,
}

impl Model for Sender {
    ghost use Rattle.std.specs.Prelude.{◌≡◌, [], length};
    ghost use Rattle.vyrd_relay.specs.declared.known.Known.TheVariants.{Sends};
    ghost use Rattle.vyrd_relay.specs.Knowledge.{sent_in};
    ghost use Rattle.vyrd_relay.specs.Ends.{SenderView, knowledge, sender_of};

    ghost Value = { SenderView };

    ghost view = { λ s. sender_of s.pass.table_id (knowledge s.pass) };

    ghost invariant = { λ s. (knowledge s.pass ≡ Sends (sent_in (knowledge s.pass)))
        × (length (sent_in (knowledge s.pass)).items ≡ s.count) × (s.pass.me.1 ≡ []) };
}
