//! A worker: one caller's machine, played on the caller's hand.

ghost use Rattle.std.specs.Prelude.{◌≡◌, ◌≢◌, ◌+◌, ◌<◌, ℕ, false, length, IfOk, Err};
ghost use Rattle.vyrd_memory.specs.declared.act.Act.TheVariants.{Done};
ghost use Rattle.vyrd_memory.specs.Scripts.{next_act, after_answer, is_between};
ghost use Rattle.vyrd_memory.specs.Bounds.{EndsWithin};
ghost use Rattle.vyrd_trace.specs.declared.hand.Reserve.TheVariants as reserve;
ghost use Rattle.vyrd_trace.specs.Hands.{IsOf, with_spare, with_forgotten};
ghost use Rattle.vyrd_live.specs.Rooms.{HasNoRoom};
ghost use Rattle.vyrd_live.specs.Acts.{MayAct, HasActed};
ghost use Rattle.vyrd_live.specs.Working.{HasRoomAhead};
ghost use Rattle.vyrd_live.specs.Workers.{IsFresh, HasWorked};
ghost use Rattle.vyrd_live.specs.Sending.{HasSent};

use crate::acting::act;
use crate::outbox::Outbox;
use crate::signals::Signals;
use std::sync::Wait;
use vyrd_base::Gate;
use vyrd_memory::{Act, Machine};
use vyrd_relay::Relay;
use vyrd_trace::{Hand, Reserve, Traced};

/// How a worker ended.
#[derive(Clone, Copy)]
pub(crate) enum Ending {
    /// All operations are done.
    Finished,
    /// The next operation might have had more events than the limit leaves.
    Spent,
    /// There was no memory for the next operation's events.
    Memory,
}

/// A caller's machine, and the hand that it is played on.
#[derive(Drop)]
pub(crate) struct Worker<M> {
    pub(crate) machine: M,
    pub(crate) hand: Hand,
}

/// What a worker leaves.
#[derive(Drop)]
pub(crate) struct Stopped {
    pub(crate) hand: Hand,
    pub(crate) ending: Ending,
}

impl Stopped {
    /// The hand alone.
    pub(crate) fn into_hand(self) -> Hand
        ensures { result ≡ self.hand }
    {
        let Stopped { hand, ending: _ } = self;
        hand
    }
}

impl<M: Machine> Worker<M> {
    /// Plays the machine until all of its operations are done, or until the next one has no room.
    ///
    /// It asks the gate before each event. Before an operation it makes room for all of the
    /// operation's events, so that it stops only between operations. While it waits it sends what
    /// the relay has room for. Once it keeps many events, it waits after the operation until all
    /// are sent, as long as they are taken in beside it, and lets go of them. It may wait forever:
    /// for the gate, for a lock that nobody gives back, or for room in the relay.
    pub(crate) fn work<R: Wait, G: Gate>(
        self,
        rt: &R,
        traced: &Traced,
        gate: &G,
        relay: &Relay,
        signals: &Signals,
        outbox: Outbox,
    ) -> (Stopped, Outbox)
        requires fresh { IsFresh M.header_of M.script traced.now self.machine self.hand }
        requires sent { HasSent relay.now outbox.sender outbox.place self.hand }
        ensures worked { HasWorked M.header_of M.script M.ahead traced.now self.machine self.hand
            result.0.hand result.0.ending }
        ensures sent { HasSent relay.now result.1.sender result.1.place result.0.hand }
    {
        let mut worker = self;
        let mut outbox = outbox;
        let ending = worker.play(rt, traced, gate, relay, signals, &mut outbox);
        let Worker { machine: _, hand } = worker;
        outbox.flush(rt, relay, &hand, signals);
        if outbox.place < hand.made() {
            signals.leave();
        }
        (Stopped { hand, ending }, outbox)
    }

    fn play<R: Wait, G: Gate>(
        &mut self,
        rt: &R,
        traced: &Traced,
        gate: &G,
        relay: &Relay,
        signals: &Signals,
        outbox: &mut Outbox,
    ) -> Ending
        requires fresh { IsFresh M.header_of M.script traced.now self.old.machine self.old.hand }
        requires sent { HasSent relay.now outbox.old.sender outbox.old.place self.old.hand }
        ensures worked { HasWorked M.header_of M.script M.ahead traced.now self.old.machine
            self.old.hand self.new.hand result }
        ensures sent { HasSent relay.now outbox.new.sender outbox.new.place self.new.hand }
    {
        while self.machine.wants() != Act::Done {
            match self.make_room() {
                Ok(()) => {}
                Err(Reserve::Spent) => return Ending::Spent,
                Err(Reserve::Memory) => return Ending::Memory,
            }
            self.make_event(rt, traced, gate, relay, outbox);
            self.pass_on(rt, relay, signals, outbox);
        }
        Ending::Finished
    }

    /// Makes room for the next operation, where none is under way.
    fn make_room(&mut self) -> Result<(), Reserve>
        requires goes_on { next_act (M.script self.old.machine) ≢ Done }
        requires in_time { is_between (M.script self.old.machine) ≡ false
            → ∥ EndsWithin self.old.hand.spare (M.script self.old.machine) ∥₁ }
        ensures machine { self.new.machine ≡ self.old.machine }
        ensures hand { self.new.hand ≡ with_spare self.old.hand self.new.hand.spare }
        ensures room { IfOk result (λ _. HasRoomAhead (M.header_of self.old.machine)
            (M.script self.old.machine) self.new.hand) }
        ensures long { result ≡ Err reserve.Spent
            → self.old.hand.limit < length self.old.hand.lane + M.ahead self.old.machine }
        ensures spent { result ≡ Err reserve.Spent
            → HasNoRoom (M.header_of self.old.machine) self.old.hand.limit
            (length self.old.hand.lane) (next_act (M.script self.old.machine)) }
    {
        if self.machine.between() {
            self.hand.reserve(self.machine.op_left())?;
        }
        Ok(())
    }

    /// Makes the next event, once the gate lets it start.
    fn make_event<R: Wait, G: Gate>(
        &mut self,
        rt: &R,
        traced: &Traced,
        gate: &G,
        relay: &Relay,
        outbox: &mut Outbox,
    )
        requires hand { IsOf traced.now self.old.hand × (0 < self.old.hand.spare) }
        requires may { MayAct traced.now.plan self.old.hand (next_act (M.script self.old.machine)) }
        requires sent { HasSent relay.now outbox.old.sender outbox.old.place self.old.hand }
        ensures made { (answer : ℕ)
            × (M.script self.new.machine ≡ after_answer (M.script self.old.machine) answer)
            × HasActed (next_act (M.script self.old.machine)) answer self.old.hand self.new.hand }
        ensures header { M.header_of self.new.machine ≡ M.header_of self.old.machine }
        ensures falls { M.ahead self.new.machine < M.ahead self.old.machine }
        ensures sent { HasSent relay.now outbox.new.sender outbox.new.place self.old.hand }
    {
        let wanted = self.machine.wants();
        wait_for(rt, gate, &self.hand, relay, outbox);
        let answer = act(rt, traced, &mut self.hand, wanted, relay, outbox);
        self.machine.took(answer);
    }

    /// Where an operation has ended, sends the full parcels that there are, or all events that
    /// weren't sent yet, so that nothing of the lane has to be kept.
    fn pass_on<R: Wait>(&mut self, rt: &R, relay: &Relay, signals: &Signals, outbox: &mut Outbox)
        requires { HasSent relay.now outbox.old.sender outbox.old.place self.old.hand }
        ensures machine { self.new.machine ≡ self.old.machine }
        ensures hand { self.new.hand ≡ with_forgotten self.old.hand self.new.hand.forgotten }
        ensures sent { HasSent relay.now outbox.new.sender outbox.new.place self.new.hand }
    {
        if self.machine.between() {
            outbox.keep_up(rt, relay, &mut self.hand, signals);
        }
    }
}

/// Asks the gate until it lets the caller's next event start, and sends meanwhile.
fn wait_for<R: Wait, G: Gate>(rt: &R, gate: &G, hand: &Hand, relay: &Relay, outbox: &mut Outbox)
    requires { HasSent relay.now outbox.old.sender outbox.old.place hand.now }
    ensures { HasSent relay.now outbox.new.sender outbox.new.place hand.now }
{
    let place = hand.made();
    let mut rounds = 0;
    for _ in rt.forever() {
        if gate.may_start(hand.caller(), place) {
            return;
        }
        outbox.pass_round(rt, relay, hand, &mut rounds);
    }
    unreachable!()
}
