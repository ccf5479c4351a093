//! What each kind of step tells the pass that makes it.

ghost use Rattle.std.specs.Prelude.{ℕ};

use crate::known::Known;
use crate::parcel::Parcel;
use crossbeam_queue::protocol::{Join, Lesson, Outcome, Split};
use std::marker::{Brand, PhantomData};

/// How many senders a relay has. A split has no arguments, so the call picks this for the proof.
pub trait Number {
    ghost senders: { ℕ };
}

// This value serves no split: each call picks its own.
impl Number for Brand {
    ghost senders = { 0 };
}

/// A pass for the next sender is made.
pub struct Deals<J> {
    number: PhantomData<J>,
}

impl<J: Number> Split<Known> for Deals<J> {
    ghost use Rattle.vyrd_relay.specs.Knowledge.{dealer, dealt};

    ghost left = { λ v. dealer J.senders v };

    ghost right = { λ v. dealt J.senders v };
}

/// The receiver takes in a sender.
pub struct TakesIn;

impl Join<Known> for TakesIn {
    ghost use Rattle.vyrd_relay.specs.declared.known.Known.TheVariants.{Spent};
    ghost use Rattle.vyrd_relay.specs.Knowledge.{taking_in};

    ghost both = { taking_in };

    ghost spent = { Spent };
}

/// A parcel joins at the back.
pub struct Pushes;

impl Outcome<Parcel, Known> for Pushes {
    ghost use Rattle.vyrd_relay.specs.Knowledge.{Pushed};

    ghost then = { Pushed };
}

impl Lesson<Parcel, Known> for Pushes {
    ghost use Rattle.vyrd_relay.specs.Knowledge.{Learned};

    ghost fact = { Learned };
}

/// A parcel leaves at the front.
pub struct Pops;

impl Outcome<Parcel, Known> for Pops {
    ghost use Rattle.vyrd_relay.specs.Knowledge.{Popped};

    ghost then = { Popped };
}

impl Lesson<Parcel, Known> for Pops {
    ghost use Rattle.vyrd_relay.specs.Knowledge.{Learned};

    ghost fact = { Learned };
}
