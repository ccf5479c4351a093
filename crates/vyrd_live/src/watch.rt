//! The end of the relay, where the events of a live run are put in order.

ghost use Rattle.std.specs.Prelude.{◌≡◌, ◌≤◌, true, false, List, [], ◌∷◌, ◌++◌};
ghost use Rattle.std.specs.Prelude.{IfOk, IfSome, IfNone};
ghost use Rattle.std.specs.Bool.{then_some};
ghost use Rattle.std.specs.List.{All};
ghost use Rattle.vyrd_base.specs.declared.history.Stamped.{Stamped};
ghost use Rattle.vyrd_relay.specs.Ends.{with_popped, HasAll, WasEmpty};
ghost use Rattle.vyrd_verifier.specs.Taken.{MayRefuse};
ghost use Rattle.vyrd_live.specs.Beside.{HasWatched, StaysFixed, TakesIn, GoesOn, HasTakenAll};
ghost use Rattle.vyrd_live.specs.Beside.{IsSetAsideFor};
ghost use Rattle.vyrd_live.specs.Beside.{AreOfSenders, lanes_sent, HasShownInOrder};

use crate::outbox::Outbox;
use crate::signals::Signals;
use std::alloc::{AllocError, Global};
use std::sync::Wait;
use std::thread;
use vyrd_base::{Gate, Stamped};
use vyrd_memory::EventSink;
use vyrd_relay::{Receiver, Relay};
use vyrd_verifier::Sequencer;

/// How many parcels are taken in at most before the callers are told how far the sink has come, and
/// before it is looked whether they have ended. Their events are far fewer than a caller may be
/// ahead.
const ROUND: u32 = 8;

/// The end of the relay, with the sequencer that takes in what comes there.
#[derive(Drop)]
pub(crate) struct Watch<S: EventSink + Drop> {
    pub(crate) receiver: Receiver,
    pub(crate) sequencer: Sequencer<S>,
    /// Whether the sequencer has taken in all that came. Otherwise it was set aside.
    pub(crate) stands: bool,
    /// How many events it has taken in.
    pub(crate) taken: u64,
    /// The number of callers, by which it asks the gate.
    pub(crate) callers: u32,
}

impl<S: EventSink + Drop> Watch<S> {
    /// A sink at the receiver of a relay. Nothing has come.
    pub(crate) fn new(
        alloc: Global,
        callers: u32,
        receiver: Receiver,
        sink: S,
    ) -> Result<Watch<S>, AllocError>
        requires receiver { receiver.had ≡ [] }
        requires sink { S.has_taken sink [] }
        ensures receiver { IfOk result (λ w. w.receiver ≡ receiver) }
        ensures watched { IfOk result (λ w. HasWatched S.has_taken w w.receiver.had) }
        ensures sink { IfOk result (λ w. w.sequencer.sink ≡ sink) }
        ensures begun { IfOk result
            (λ w. (w.stands ≡ true) × (w.taken ≡ 0) × (w.callers ≡ callers)) }
    {
        let sequencer = Sequencer::new(alloc, sink)?;
        Ok(Watch {
            receiver,
            sequencer,
            stands: true,
            taken: 0,
            callers,
        })
    }

    /// `watch` by value.
    pub(crate) fn watched<R: Wait, G: Gate>(
        self,
        rt: &R,
        relay: &Relay,
        gate: &G,
        signals: &Signals,
    ) -> Watch<S>
        requires { self.receiver.queue ≡ relay.now.queue }
        ensures goes_on { GoesOn S.has_taken S.fixed self result }
    {
        let mut watch = self;
        watch.watch(rt, relay, gate, signals);
        watch
    }

    /// Takes in what comes, until the workers have ended. What is in the relay then stays there.
    fn watch<R: Wait, G: Gate>(&mut self, rt: &R, relay: &Relay, gate: &G, signals: &Signals)
        requires { self.old.receiver.queue ≡ relay.now.queue }
        ensures goes_on { GoesOn S.has_taken S.fixed self.old self.new }
    {
        signals.begin();
        let mut idle = 0;
        for _ in rt.forever() {
            if signals.has_ended() {
                return;
            }
            let came = self.take_round(rt, relay, gate, signals);
            signals.advance(self.next());
            signals.rest(rt, came, &mut idle);
        }
        unreachable!()
    }

    /// Takes in the parcels that come next, each event once the gate allows it, until there is none
    /// or they are a round, and answers whether there was one.
    fn take_round<R: Wait, G: Gate>(
        &mut self,
        rt: &R,
        relay: &Relay,
        gate: &G,
        signals: &Signals,
    ) -> bool
        requires { self.old.receiver.queue ≡ relay.now.queue }
        ensures goes_on { GoesOn S.has_taken S.fixed self.old self.new }
        ensures none { result ≡ false → WasEmpty self.old.receiver }
    {
        for taken in 0..ROUND {
            if !self.take_when_allowed(rt, relay, gate, signals) {
                return taken > 0;
            }
        }
        true
    }

    /// Takes in the events of the parcel that comes next, each once the gate allows it, and answers
    /// whether there was one.
    #[inline(always)]
    fn take_when_allowed<R: Wait, G: Gate>(
        &mut self,
        rt: &R,
        relay: &Relay,
        gate: &G,
        signals: &Signals,
    ) -> bool
        requires { self.old.receiver.queue ≡ relay.now.queue }
        ensures goes_on { GoesOn S.has_taken S.fixed self.old self.new }
        ensures one { result ≡ true → (events : List Stamped)
            × (self.new.receiver ≡ with_popped self.old.receiver events)
            × (self.old.stands ≡ true → self.new.stands ≡ false
            → IsSetAsideFor S.has_taken self.old self.new events) }
        ensures none { result ≡ false → WasEmpty self.old.receiver }
    {
        let Some(parcel) = relay.pop(rt, &mut self.receiver) else {
            return false;
        };
        self.take_all_when_allowed(rt, gate, signals, parcel.events());
        relay.give_back(rt, parcel);
        true
    }

    /// Takes in events, each once the gate allows it.
    #[inline(always)]
    fn take_all_when_allowed<R: Wait, G: Gate>(
        &mut self,
        rt: &R,
        gate: &G,
        signals: &Signals,
        events: &[Stamped],
    )
        ensures { HasTakenAll S.has_taken S.fixed self.old self.new events.now }
    {
        for event in events {
            if self.stands {
                await_turn(rt, gate, self.callers, self.taken, signals);
            }
            self.take_in(*event);
        }
    }

    /// Takes in the events of the parcel that comes next, and answers whether there was one. If
    /// there was none, all was had that the senders sent which were taken in.
    pub(crate) fn take_next<R: Wait>(&mut self, rt: &R, relay: &Relay) -> bool
        requires { self.old.receiver.queue ≡ relay.now.queue }
        ensures goes_on { GoesOn S.has_taken S.fixed self.old self.new }
        ensures one { result ≡ true → (events : List Stamped)
            × (self.new.receiver ≡ with_popped self.old.receiver events)
            × (self.old.stands ≡ true → self.new.stands ≡ false
            → IsSetAsideFor S.has_taken self.old self.new events) }
        ensures none { result ≡ false → WasEmpty self.old.receiver }
        ensures all { result ≡ false
            → All (HasAll self.new.receiver.had) self.new.receiver.settled }
        ensures theirs { result ≡ false → AreOfSenders self.new.receiver }
    {
        let Some(parcel) = relay.pop(rt, &mut self.receiver) else {
            return false;
        };
        self.take_all(parcel.events());
        relay.give_back(rt, parcel);
        true
    }

    /// Takes in events.
    #[inline(always)]
    fn take_all(&mut self, events: &[Stamped])
        ensures { HasTakenAll S.has_taken S.fixed self.old self.new events.now }
    {
        for event in events {
            self.take_in(*event);
        }
    }

    /// Takes in an event, or sets the sequencer aside.
    #[inline(always)]
    fn take_in(&mut self, event: Stamped)
        ensures same { self.new.receiver ≡ self.old.receiver }
        ensures watched { (taken : List Stamped) → HasWatched S.has_taken self.old taken
            → HasWatched S.has_taken self.new (taken ++ event ∷ []) }
        ensures fixed { StaysFixed S.fixed self.old self.new }
        ensures set_aside { self.old.stands ≡ true → self.new.stands ≡ false
            → MayRefuse self.old.sequencer self.new.sequencer event.number }
        ensures stays { self.old.stands ≡ false → self.new ≡ self.old }
        ensures callers { self.new.callers ≡ self.old.callers }
        ensures counted { self.old.taken ≤ self.new.taken }
    {
        if self.stands {
            self.stands = self.sequencer.try_take_in(event);
            self.taken = self.taken.saturating_add(1);
        }
    }

    /// The least number that the sequencer waits for. There is none if it was set aside.
    #[inline(always)]
    fn next(&self) -> Option<u64>
        ensures { result ≡ then_some self.now.stands self.now.sequencer.kept.next }
    {
        if !self.stands {
            return None;
        }
        Some(self.sequencer.next())
    }

    /// Takes in the senders of the workers, which have ended: what was had of each is a beginning
    /// of what it sent.
    fn settle<R: Wait>(&mut self, rt: &R, relay: &Relay, outboxes: Vec<Outbox>)
        requires receiver { self.old.receiver.queue ≡ relay.now.queue }
        requires first { self.old.receiver.settled ≡ [] }
        requires senders { All (λ o. o.sender.queue ≡ relay.now.queue) outboxes.items }
        ensures queue { self.new.receiver.queue ≡ self.old.receiver.queue }
        ensures senders { self.new.receiver.senders ≡ self.old.receiver.senders }
        ensures had { self.new.receiver.had ≡ self.old.receiver.had }
        ensures rest { (self.new.stands ≡ self.old.stands)
            × (self.new.sequencer ≡ self.old.sequencer)
            × (self.new.callers ≡ self.old.callers) × (self.new.taken ≡ self.old.taken) }
        ensures settled { self.new.receiver.settled ≡ lanes_sent outboxes.items }
    {
        for outbox in outboxes {
            let Outbox { sender, .. } = outbox;
            relay.settle(rt, &mut self.receiver, sender);
        }
    }

    /// Takes in all that the workers, which have ended, have sent and that is still in the relay.
    pub(crate) fn take_rest<R: Wait>(&mut self, rt: &R, relay: &Relay, outboxes: Vec<Outbox>)
        requires receiver { self.old.receiver.queue ≡ relay.now.queue }
        requires first { self.old.receiver.settled ≡ [] }
        requires senders { All (λ o. o.sender.queue ≡ relay.now.queue) outboxes.items }
        ensures senders { self.new.receiver.senders ≡ self.old.receiver.senders }
        ensures all { All (HasAll self.new.receiver.had) (lanes_sent outboxes.items) }
        ensures takes_in { TakesIn S.has_taken S.fixed self.old self.new }
        ensures theirs { AreOfSenders self.new.receiver }
    {
        self.settle(rt, relay, outboxes);
        for _ in rt.forever() {
            if !self.take_next(rt, relay) {
                return;
            }
        }
        unreachable!()
    }

    /// The sink, which has taken all events in order up to the least number that didn't come. There
    /// is none if the sequencer was set aside.
    pub(crate) fn into_sink(self) -> Option<S>
        ensures shown { (taken : List Stamped) → HasWatched S.has_taken self taken
            → IfSome result (λ sink. HasShownInOrder S.has_taken sink taken) }
        ensures sink { IfSome result (λ sink. sink ≡ self.sequencer.sink) }
        ensures stands { IfSome result (λ _. self.stands ≡ true) }
        ensures set_aside { IfNone result (self.stands ≡ false) }
    {
        let Watch {
            sequencer,
            stands,
            ..
        } = self;
        if !stands {
            return None;
        }
        Some(sequencer.into_sink())
    }
}

/// Asks the gate until it lets an event be taken in, or until the workers have ended. Meanwhile no
/// worker waits for what comes after that.
fn await_turn<R: Wait, G: Gate>(rt: &R, gate: &G, callers: u32, taken: u64, signals: &Signals) {
    if may_take(gate, callers, taken, signals) {
        return;
    }
    signals.hold();
    for _ in rt.forever() {
        if may_take(gate, callers, taken, signals) {
            signals.release();
            return;
        }
        thread::yield_now();
    }
    unreachable!()
}

/// Whether the gate lets an event be taken in, or the workers have ended. The gate mostly does, so
/// it is asked first, and for the rest of a round also after they have ended.
fn may_take<G: Gate>(gate: &G, callers: u32, taken: u64, signals: &Signals) -> bool {
    gate.may_start(callers, taken) || signals.has_ended()
}
