//! The queue between the senders and the receiver.

ghost use Rattle.std.specs.Prelude.{◌≡◌, ◌+◌, ◌<◌, ◌≤◌, ◌^◌, true, [], length, IfOk, OnOk, OnErr, IfSome};
ghost use Rattle.std.specs.Prelude.{IfNone, vec_len, vec_capacity, take};
ghost use Rattle.std.specs.List.{All};
ghost use Rattle.crossbeam_queue.specs.Passes.{view, IsSamePass, IsPassOf};
ghost use Rattle.vyrd_relay.specs.declared.known.Known.TheVariants.{Receives};
ghost use Rattle.vyrd_relay.specs.Knowledge.{new_received, HasBeginning};
ghost use Rattle.vyrd_relay.specs.Ends.{AreNew, with_pushed, with_popped, with_taken_in, WasFull};
ghost use Rattle.vyrd_relay.specs.Ends.{WasEmpty, HasAll};

use crate::known::Known;
use crate::parcel::{Parcel, Room, make_room};
use crate::plays::{Deals, Number, Pops, Pushes, TakesIn};
use crate::receiver::Receiver;
use crate::rule::InOrder;
use crate::sender::Sender;
use crossbeam_queue::{ArrayQueue, Pass, RuledArrayQueue};
use std::alloc::{AllocError, Global};
use std::error::Error;
use std::fmt;
use std::marker::{Brand, Model};
use std::sync::Wait;
use vyrd_base::Stamped;

type Queue = RuledArrayQueue<Parcel, Known, InOrder>;

/// The queue held as many parcels as it can, and nothing was sent.
#[derive(Clone, Copy, Debug, PartialEq, Eq)]
pub struct Full;

impl fmt::Display for Full {
    fn fmt<W: fmt::Write>(&self, f: &mut fmt::Formatter<W>) -> fmt::Result {
        write!(f, "the relay is full")
    }
}

impl Error for Full {}

/// A bounded queue of events in parcels, from the senders of all callers to one receiver. Threads
/// share it by reference.
///
/// The events of a parcel stand in a room on the heap. All rooms are made with the relay, as many as
/// it holds parcels, one for each sender and one for the receiver. A parcel is packed in a free one,
/// and whoever is done with it gives it back.
///
/// What the receiver has had of a sender, and then what is queued of it, is what it sent, in its
/// order, at every moment. Of events of different senders nothing is said.
#[derive(Drop)]
pub struct Relay {
    queue: Queue,
    // The rooms that no parcel has. It holds as many as were made.
    free: ArrayQueue<Room>,
}

impl Model for Relay {
    ghost use Rattle.vyrd_relay.specs.Ends.{RelayView};

    ghost Value = { RelayView };

    ghost view = { λ r. record { queue = r.queue.table.shared.table_id; capacity = r.queue.cap } };
}

impl Relay {
    /// A relay for at most `capacity` parcels at a time, with a sender for each caller from 0 on, in
    /// their order, and its receiver. All of its memory is taken here.
    pub fn new(
        alloc: Global,
        capacity: u64,
        senders: u32,
    ) -> Result<(Relay, Vec<Sender>, Receiver), AllocError>
        requires capacity { (1 ≤ capacity) × (capacity ≤ 65536) }
        requires senders { (1 ≤ senders) × (senders ≤ 64) }
        ensures relay { IfOk result (λ new. new.0.capacity ≡ capacity) }
        ensures count { IfOk result (λ new. vec_len new.1 ≡ senders) }
        ensures senders { IfOk result (λ new. AreNew new.0.queue senders 0 new.1.items) }
        ensures receiver { IfOk result (λ new. new.2
            ≡ record { queue = new.0.queue; senders = senders; had = []; settled = [] }) }
    {
        let mut ends = Vec::with_capacity(alloc, senders as usize)?;
        let (queue, mut pass) = Queue::ruled(alloc, capacity as usize)?;
        deal_all::<Brand>(&queue, senders, &mut pass, &mut ends);
        let free = make_rooms(alloc, capacity as usize + senders as usize + 1)?;
        Ok((Relay { queue, free }, ends, Receiver { pass }))
    }

    /// The first of these events, as many as a parcel holds, in a free room. It may wait for another
    /// thread that is in the middle of packing or giving back, but never for a room to come, and it
    /// takes no memory.
    ///
    /// `None` comes if there are no events, and may come also if no room is free; no clause says when
    /// one is. If no sender has two parcels at a time that aren't queued, and the receiver gives one
    /// back before it pops the next, a sender that has none finds one free.
    pub fn pack<R: Wait>(&self, rt: &R, events: &[Stamped]) -> Option<Parcel>
        ensures first { IfSome result (λ p. p ≡ take 32 events.now) }
        ensures some { IfSome result (λ p. 1 ≤ length p) }
    {
        if events.is_empty() {
            return None;
        }
        let room = self.free.pop(rt)?;
        Some(Parcel::fill(room, events))
    }

    /// Gives back the room of a parcel whose events are no longer needed. It may wait as `pack` may.
    /// The parcel is one that this relay packed: to a relay of which all rooms are free the room of
    /// another one's parcel is too many, and is let go.
    pub fn give_back<R: Wait>(&self, rt: &R, parcel: Parcel) {
        // There is a place for each room that was made with the relay.
        let _ = self.free.push(rt, parcel.into_room());
    }

    /// Sends events of the sender's caller. It is one push of the queue. It may wait for another
    /// thread that is in the middle of a push or a pop, but never for room, and it takes no memory.
    ///
    /// `Full` comes only if the queue held its capacity at a step of this call. Nothing was sent
    /// then, and the parcel's room was given back. The clause `cause` says so of the queue for one
    /// sender alone: what is queued of others may be anything to it.
    pub fn push_next<R: Wait>(
        &self,
        rt: &R,
        sender: &mut Sender,
        parcel: Parcel,
    ) -> Result<(), Full>
        requires sender { sender.old.queue ≡ self.now.queue }
        requires caller { All (λ e. e.caller ≡ sender.old.caller) parcel }
        requires few { length sender.old.sent < 2 ^ 62 }
        ensures sent { OnOk result (sender.new ≡ with_pushed sender.old parcel) }
        ensures full { OnErr result (sender.new ≡ sender.old) }
        ensures cause { OnErr result (WasFull self.now sender.old) }
    {
        let count = parcel.len() as u64;
        match self
            .queue
            .push_as::<Pushes, R>(rt, &mut sender.pass, parcel)
        {
            Ok(()) => {
                sender.count += count;
                Ok(())
            }
            Err(parcel) => {
                self.give_back(rt, parcel);
                Err(Full)
            }
        }
    }

    /// The next events, the oldest in the queue. It is one pop of the queue if that isn't empty. It
    /// may wait as `push_next` may, but never for events to come, and it takes no memory.
    ///
    /// `None` comes only if the queue was empty at a step of this call. The clause `all` says what
    /// follows for each sender that was taken in: all that it sent was had.
    pub fn pop<R: Wait>(&self, rt: &R, receiver: &mut Receiver) -> Option<Parcel>
        requires receiver { receiver.old.queue ≡ self.now.queue }
        ensures events { IfSome result (λ events. receiver.new ≡ with_popped receiver.old events) }
        ensures sender { IfSome result
            (λ events. All (λ e. e.caller < receiver.old.senders) events) }
        ensures beginnings { IfSome result
            (λ _. All (HasBeginning receiver.new.had) receiver.new.settled) }
        ensures none { IfNone result (receiver.new ≡ receiver.old) }
        ensures cause { IfNone result (WasEmpty receiver.old) }
        ensures all { IfNone result (All (HasAll receiver.old.had) receiver.old.settled) }
    {
        // A receiver that waits for events asks often, and a pop makes room for a parcel before it
        // looks for one.
        if self.is_empty(receiver) {
            return None;
        }
        self.pop_first(rt, receiver)
    }

    /// Whether the queue was empty at a step of this call.
    #[inline(always)]
    fn is_empty(&self, receiver: &mut Receiver) -> bool
        requires receiver { receiver.old.queue ≡ self.now.queue }
        ensures same { receiver.new ≡ receiver.old }
        ensures cause { result ≡ true → WasEmpty receiver.old }
        ensures all { result ≡ true → All (HasAll receiver.old.had) receiver.old.settled }
    {
        self.queue.is_empty_as::<Pops>(&mut receiver.pass)
    }

    /// One pop of the queue, of which `pop` says what it is.
    // A function clears at its entry whatever is compiled into it, so this isn't part of `pop`.
    #[inline(never)]
    fn pop_first<R: Wait>(&self, rt: &R, receiver: &mut Receiver) -> Option<Parcel>
        requires receiver { receiver.old.queue ≡ self.now.queue }
        ensures events { IfSome result (λ events. receiver.new ≡ with_popped receiver.old events) }
        ensures sender { IfSome result
            (λ events. All (λ e. e.caller < receiver.old.senders) events) }
        ensures beginnings { IfSome result
            (λ _. All (HasBeginning receiver.new.had) receiver.new.settled) }
        ensures none { IfNone result (receiver.new ≡ receiver.old) }
        ensures cause { IfNone result (WasEmpty receiver.old) }
        ensures all { IfNone result (All (HasAll receiver.old.had) receiver.old.settled) }
    {
        self.queue.pop_as::<Pops, R>(rt, &mut receiver.pass)
    }

    /// Takes in a sender that has ended, and answers how many events it sent. What was had of it is
    /// a beginning of what it sent, and stays so: `pop` says it of each sender that was taken in. A
    /// `pop` that finds nothing then says that all was had.
    pub fn settle<R: Wait>(&self, rt: &R, receiver: &mut Receiver, sender: Sender) -> u64
        requires receiver { receiver.old.queue ≡ self.now.queue }
        requires sender { sender.queue ≡ self.now.queue }
        ensures count { result ≡ length sender.sent }
        ensures settled { receiver.new ≡ with_taken_in receiver.old sender }
        ensures beginnings { All (HasBeginning receiver.new.had) receiver.new.settled }
    {
        // Today's queue doesn't wait here.
        let _ = rt;
        let Sender { count, pass, .. } = sender;
        self.queue.absorb::<TakesIn>(&mut receiver.pass, pass);
        self.queue.learn_as::<Pops>(&mut receiver.pass);
        count
    }
}

/// Makes the senders, in the order of their callers.
fn deal_all<J: Number>(
    queue: &Queue,
    senders: u32,
    pass: &mut Pass<Parcel, Known>,
    ends: &mut Vec<Sender>,
)
    requires queue { IsPassOf queue.now pass.old }
    requires first { view pass.old ≡ Receives (new_received 0 0) }
    requires senders { (J.senders ≡ senders) × (1 ≤ senders) }
    requires ends { (ends.old.items ≡ []) × (senders ≤ vec_capacity ends.old) }
    ensures same { IsSamePass pass.old pass.new
        × (view pass.new ≡ Receives (new_received senders senders)) }
    ensures ends { (vec_len ends.new ≡ senders)
        × AreNew queue.now.table.shared.table_id senders 0 ends.new.items }
{
    for _ in 0..senders {
        let theirs = queue.another::<Deals<J>>(pass);
        ends.push_reserved(Sender {
            count: 0,
            pass: theirs,
        });
    }
}

/// Makes so many rooms, which are all free.
fn make_rooms(alloc: Global, count: usize) -> Result<ArrayQueue<Room>, AllocError>
    requires { 0 < count }
{
    let mut free = ArrayQueue::new(alloc, count)?;
    for _ in 0..count {
        let room = make_room(alloc)?;
        // It has a place for each of them, so this takes all of them.
        let _ = free.push_mut(room);
    }
    Ok(free)
}
