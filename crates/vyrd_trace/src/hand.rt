//! A hand: one caller's lane, with the seat that its events are drawn with.

ghost use Rattle.std.specs.Prelude.{◌≡◌, ◌+◌, ◌<◌, ◌≤◌, max, length, drop, true, [], ◌∷◌, ◌++◌};
ghost use Rattle.std.specs.Prelude.{IfOk, IfErr, Err, vec_len, vec_capacity};
ghost use Rattle.vyrd_trace.specs.declared.hand.Reserve.TheVariants.{Memory, Spent};
ghost use Rattle.vyrd_trace.specs.declared.record.Stage.TheVariants.{Rest};
ghost use Rattle.vyrd_trace.specs.Lanes.{stamp};
ghost use Rattle.vyrd_trace.specs.Hands.{with_spare, with_forgotten, most_events};

use crate::record::Record;
use atomic_table::Seat;
use std::alloc::Global;
use std::error::Error;
use std::fmt;
use std::marker::Model;
use vyrd_base::{Did, Stamped};

/// Why there is no room for more events.
#[derive(Clone, Copy, Debug, PartialEq, Eq)]
pub enum Reserve {
    /// The lane would be over the limit of its memory.
    Spent,
    /// There was no memory.
    Memory,
}

impl fmt::Display for Reserve {
    fn fmt<W: fmt::Write>(&self, f: &mut fmt::Formatter<W>) -> fmt::Result {
        match self {
            Reserve::Spent => write!(f, "the limit of events is reached"),
            Reserve::Memory => write!(f, "out of memory"),
        }
    }
}

impl Error for Reserve {}

/// One caller's events so far, and the right to make more. Between calls it has no action in hand
/// and claims no cell. Events that were passed on it may forget: they stay a part of its lane.
#[derive(Drop)]
pub struct Hand {
    pub(crate) caller: u32,
    pub(crate) limit: u64,
    pub(crate) spare: u64,
    /// How many of the first events it no longer keeps.
    pub(crate) forgotten: u64,
    /// The events that it keeps.
    pub(crate) lane: Vec<Stamped>,
    pub(crate) seat: Seat<(), Record>,
}

impl Model for Hand {
    ghost use Rattle.std.specs.Prelude.{◌≡◌, ◌+◌, ◌≤◌, length, drop, true, []};
    ghost use Rattle.std.specs.Prelude.{vec_len, vec_capacity};
    ghost use Rattle.vyrd_trace.specs.declared.record.Stage.TheVariants.{Rest};
    ghost use Rattle.vyrd_trace.specs.Hands.{HandView, most_events};

    ghost Value = { HandView };

    ghost view = { λ h. record {
      table = h.seat.table_id;
      caller = h.caller;
      limit = h.limit;
      spare = h.spare;
      lane = h.seat.me.0.lane;
      forgotten = h.forgotten;
      look = h.seat.me.0.look;
    } };

    ghost invariant = { λ h. (h.seat.me.0.caller ≡ h.caller)
        × (drop h.forgotten h.seat.me.0.lane ≡ h.lane.items)
        × (h.forgotten + vec_len h.lane ≡ length h.seat.me.0.lane)
        × (h.seat.me.0.live ≡ true) × (h.seat.me.0.stage ≡ Rest) × (h.seat.me.0.gathered ≡ [])
        × (h.seat.me.1 ≡ []) × (vec_len h.lane + h.spare ≤ vec_capacity h.lane)
        × (h.forgotten + (vec_len h.lane + h.spare) ≤ h.limit)
        × (h.limit ≤ most_events) };
}

impl Hand {
    /// The caller that this hand acts for.
    pub fn caller(&self) -> u32
        ensures { result ≡ self.now.caller }
    {
        self.caller
    }

    /// The events that it keeps, in the order in which this hand made them.
    pub fn lane(&self) -> &[Stamped]
        ensures events { result.now ≡ drop self.now.forgotten self.now.lane }
        ensures limited { length result.now ≤ self.now.limit }
    {
        self.lane.as_slice()
    }

    /// How many events this hand has made, which is at most 16,777,216.
    pub fn made(&self) -> u64
        ensures made { result ≡ length self.now.lane }
        ensures limited { (result ≤ self.now.limit) × (self.now.limit ≤ most_events) }
    {
        // So the sum, which is within the limit too, fits.
        prove!(self.forgotten <= self.limit);
        self.forgotten + self.lane.len() as u64
    }

    /// How many of its first events it no longer keeps.
    pub fn forgotten(&self) -> u64
        ensures count { result ≡ self.now.forgotten }
        ensures within { self.now.forgotten ≤ length self.now.lane }
    {
        self.forgotten
    }

    /// Lets go of the events made so far. Their room stays, and takes those to come.
    pub fn forget(&mut self)
        ensures { self.new ≡ with_forgotten self.old (length self.old.lane) }
    {
        self.forgotten += self.lane.len() as u64;
        self.lane.clear();
    }

    /// Makes the spare room at least `n` events, of which each action that isn't busy uses one. It
    /// is `Spent` exactly when the lane would be over the limit with `n` events more, and `Memory`
    /// if there was none. A refusal changes nothing.
    pub fn reserve(&mut self, n: u64) -> Result<(), Reserve>
        ensures ready { IfOk result (λ _. self.new ≡ with_spare self.old (max self.old.spare n)) }
        ensures spent { (self.old.limit < length self.old.lane + n → result ≡ Err Spent)
            × (result ≡ Err Spent → self.old.limit < length self.old.lane + n) }
        ensures refused { IfErr result (λ _. self.new ≡ self.old) }
        ensures enough { result ≡ Err Memory → self.old.spare < n }
    {
        if n > self.limit - self.made() {
            return Err(Reserve::Spent);
        }
        if n > self.spare {
            if self.lane.reserve(n as usize).is_err() {
                return Err(Reserve::Memory);
            }
            self.spare = n;
        }
        Ok(())
    }

    /// The seat, which has the whole lane.
    pub(crate) fn into_seat(self) -> Seat<(), Record>
        ensures seat { (result.table_id ≡ self.table) × (result.me.1 ≡ []) }
        ensures record { (result.me.0.caller ≡ self.caller) × (result.me.0.lane ≡ self.lane)
            × (result.me.0.gathered ≡ []) × (result.me.0.live ≡ true)
            × (result.me.0.stage ≡ Rest) }
    {
        let Hand { seat, .. } = self;
        seat
    }

    /// A hand with an empty lane.
    pub(crate) fn fresh(alloc: Global, caller: u32, limit: u64, seat: Seat<(), Record>) -> Hand
        requires limit { limit ≤ most_events }
        requires seat { (seat.me.0.caller ≡ caller) × (seat.me.0.lane ≡ [])
            × (seat.me.0.live ≡ true) × (seat.me.0.stage ≡ Rest) × (seat.me.0.gathered ≡ [])
            × (seat.me.1 ≡ []) }
        ensures { (result.table ≡ seat.table_id) × (result.caller ≡ caller) × (result.limit ≡ limit)
            × (result.spare ≡ 0) × (result.lane ≡ []) × (result.forgotten ≡ 0) }
    {
        Hand {
            caller,
            limit,
            spare: 0,
            forgotten: 0,
            lane: Vec::new(alloc),
            seat,
        }
    }
}

/// Adds an event to a lane that has room for it.
pub(crate) fn note(lane: &mut Vec<Stamped>, number: u64, caller: u32, did: Did)
    requires room { vec_len lane.old < vec_capacity lane.old }
    ensures event { lane.new.items ≡ lane.old.items ++ stamp number caller did ∷ [] }
    ensures room { vec_capacity lane.new ≡ vec_capacity lane.old }
{
    lane.push_reserved(Stamped {
        number,
        caller,
        did,
    });
}
