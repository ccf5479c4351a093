//! What a worker sends on of its lane.

ghost use Rattle.std.specs.Prelude.{◌≡◌, ◌+◌, ◌<◌, ◌≤◌, true, length};
ghost use Rattle.vyrd_trace.specs.Hands.{with_forgotten};
ghost use Rattle.vyrd_live.specs.Sending.{HasSent};
ghost use Rattle.vyrd_live.specs.Beside.{GoesOn};

use crate::signals::Signals;
use crate::watch::Watch;
use std::hint::spin_loop;
use std::sync::Wait;
use std::thread;
use vyrd_memory::EventSink;
use vyrd_relay::{PARCEL_ROOM, Relay, Sender};
use vyrd_trace::Hand;

/// How many calls of `send` pass without a try after one has found the relay full. Failed tries of
/// many workers slow one another down.
const PAUSE: u32 = 64;

/// In how many rounds a loop that waits only spins.
const SPINS: u32 = 32;

/// A worker that keeps this many events or more after an operation sends all of them, so that it
/// can let go of them.
const KEPT: usize = 256;

/// A worker's sender, and how many events of its lane it has sent.
#[derive(Drop)]
pub(crate) struct Outbox {
    pub(crate) sender: Sender,
    pub(crate) place: u64,
    pub(crate) pause: u32,
}

impl Outbox {
    /// Sends the events of the lane that weren't sent yet, as long as there are at least so many,
    /// until a parcel finds the relay full or no room is free for one, and answers whether fewer are
    /// left. It never waits for room, and some calls after one that found none do nothing.
    pub(crate) fn send<R: Wait>(&mut self, rt: &R, relay: &Relay, hand: &Hand, least: u64) -> bool
        requires least { 1 ≤ least }
        requires sent { HasSent relay.now self.old.sender self.old.place hand.now }
        ensures sent { HasSent relay.now self.new.sender self.new.place hand.now }
        ensures all { result ≡ true → length hand.now.lane < self.new.place + least }
    {
        if self.pause > 0 {
            self.pause -= 1;
            return false;
        }
        let kept = hand.lane();
        let forgotten = hand.forgotten();
        let made = hand.made();
        while made - self.place >= least {
            let Some(parcel) = relay.pack(rt, &kept[(self.place - forgotten) as usize..]) else {
                // There are as many rooms as the relay, all workers and the watch can have at once.
                // This worker has none, so one is free, or is before long. No clause says so, and
                // without one it tries again later, as with a full relay.
                self.pause = PAUSE;
                return false;
            };
            let count = parcel.len() as u64;
            match relay.push_next(rt, &mut self.sender, parcel) {
                Ok(()) => self.place += count,
                Err(_) => {
                    self.pause = PAUSE;
                    return false;
                }
            }
        }
        true
    }

    /// Ends a round of a loop that waits. The first rounds, which `rounds` counts, only spin, since
    /// most waits are short. Each later one sends what it can, and lets other threads run.
    pub(crate) fn pass_round<R: Wait>(
        &mut self,
        rt: &R,
        relay: &Relay,
        hand: &Hand,
        rounds: &mut u32,
    )
        requires { HasSent relay.now self.old.sender self.old.place hand.now }
        ensures { HasSent relay.now self.new.sender self.new.place hand.now }
    {
        if *rounds < SPINS {
            *rounds += 1;
            spin_loop();
            return;
        }
        self.send(rt, relay, hand, 1);
        thread::yield_now();
    }

    /// Sends what is to be sent after an operation: as long as the hand keeps few events, full
    /// parcels alone; otherwise all, as [`Outbox::empty`] says.
    pub(crate) fn keep_up<R: Wait>(
        &mut self,
        rt: &R,
        relay: &Relay,
        hand: &mut Hand,
        signals: &Signals,
    )
        requires { HasSent relay.now self.old.sender self.old.place hand.old }
        ensures hand { hand.new ≡ with_forgotten hand.old hand.new.forgotten }
        ensures sent { HasSent relay.now self.new.sender self.new.place hand.new }
    {
        if hand.lane().len() < KEPT {
            self.send(rt, relay, hand, PARCEL_ROOM as u64);
        } else {
            self.empty(rt, relay, hand, signals);
        }
    }

    /// Sends all events of the lane, and lets the hand forget them. While what is in the relay is
    /// taken in beside the workers, it waits for room, and for the sink to come near to the last of
    /// them. If that hasn't begun, or a gate holds the sink, it may leave all as it is.
    fn empty<R: Wait>(&mut self, rt: &R, relay: &Relay, hand: &mut Hand, signals: &Signals)
        requires { HasSent relay.now self.old.sender self.old.place hand.old }
        ensures hand { hand.new ≡ with_forgotten hand.old hand.new.forgotten }
        ensures sent { HasSent relay.now self.new.sender self.new.place hand.new }
    {
        let last = hand.lane().last().map_or(0, |event| event.number);
        for _ in rt.forever() {
            if self.send(rt, relay, hand, 1) {
                if signals.is_near(last) {
                    hand.forget();
                    return;
                }
                signals.await_sink(rt, last);
            } else {
                thread::yield_now();
            }
            if !signals.is_awaited() {
                return;
            }
        }
        unreachable!()
    }

    /// Sends all events of the lane of a worker that ends, while what is in the relay is taken in
    /// beside it.
    pub(crate) fn flush<R: Wait>(&mut self, rt: &R, relay: &Relay, hand: &Hand, signals: &Signals)
        requires { HasSent relay.now self.old.sender self.old.place hand.now }
        ensures { HasSent relay.now self.new.sender self.new.place hand.now }
    {
        for _ in rt.forever() {
            if self.send(rt, relay, hand, 1) || !signals.is_awaited() {
                return;
            }
            thread::yield_now();
        }
        unreachable!()
    }

    /// Sends all events of the lane of a worker that has ended. Where the relay has no room, what
    /// is in it is taken in.
    pub(crate) fn send_rest<R: Wait, S: EventSink + Drop>(
        &mut self,
        rt: &R,
        relay: &Relay,
        hand: &Hand,
        watch: &mut Watch<S>,
    )
        requires sent { HasSent relay.now self.old.sender self.old.place hand.now }
        requires receiver { watch.old.receiver.queue ≡ relay.now.queue }
        ensures sent { HasSent relay.now self.new.sender self.new.place hand.now }
        ensures all { self.new.place ≡ length hand.now.lane }
        ensures goes_on { GoesOn S.has_taken S.fixed watch.old watch.new }
    {
        for _ in rt.forever() {
            if self.send(rt, relay, hand, 1) {
                return;
            }
            watch.take_next(rt, relay);
        }
        unreachable!()
    }
}
