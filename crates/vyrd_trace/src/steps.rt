//! Single steps of a seat: each is one atomic step of the table, except for `claim_seen`, which
//! makes two.

ghost use Rattle.std.specs.Prelude.{◌≡◌, ◌≢◌, ◌+◌, ◌/◌, ◌%◌, ◌<◌, length, true, [], MatchResult};
ghost use Rattle.vyrd_trace.specs.declared.look.Look.{Look};
ghost use Rattle.vyrd_trace.specs.declared.record.Stage.TheVariants.{Rest, Claimed};
ghost use Rattle.vyrd_trace.specs.Lanes.{AreBelow};
ghost use Rattle.vyrd_trace.specs.Records.{dealer, dealt, gathering, with_event, acting};
ghost use Rattle.vyrd_trace.specs.Records.{look_first, look_again};
ghost use Rattle.vyrd_trace.specs.Steps.{MayDraw, IsSame, Ends};
ghost use Rattle.vyrd_trace.specs.Hands.{WasFound, WasTaken};

use crate::actions::Busy;
use crate::board::Board;
use crate::plays::{Deals, Draws, Gathers, Intent, Looks, Publishes, TriesAgain, TriesFirst};
use crate::record::Record;
use atomic_table::Seat;
use vyrd_base::Did;

impl Board {
    /// Draws the number of one event. `did` says to the contract which event it is, and J says it
    /// to the step.
    pub(crate) fn draw<J: Intent>(&self, seat: &mut Seat<(), Record>, did: Did) -> u64
        requires table { seat.old.table_id ≡ self.now.table.shared.table_id }
        requires live { seat.old.me.0.live ≡ true }
        requires room { length seat.old.me.0.lane < self.now.table.shared.key.limit }
        requires may { MayDraw self.now.table.shared.key seat.old.me.0 did }
        requires picked { did ≡ J.did }
        ensures same { IsSame seat.old seat.new }
        ensures told { seat.new.me ≡ (with_event seat.old.me.0 result did, seat.old.me.1) }
        ensures rises { AreBelow result seat.old.me.0.lane }
    {
        let _ = did;
        self.table.shared.fetch_add::<Draws<J>>(seat, 0, 1)
    }

    /// The first look of a call. Returns the word found.
    pub(crate) fn look(&self, seat: &mut Seat<(), Record>, cell: u32) -> u64
        requires table { seat.old.table_id ≡ self.now.table.shared.table_id }
        requires live { seat.old.me.0.live ≡ true }
        requires cell { cell < self.now.table.shared.key.plain + self.now.table.shared.key.locks }
        ensures same { IsSame seat.old seat.new }
        ensures told { seat.new.me ≡ (
          acting seat.old.me.0 seat.old.me.0.stage (look_first seat.old.me.0.look cell result),
          seat.old.me.1,
        ) }
    {
        self.table.shared.load::<Looks>(seat, cell as usize + 1)
    }

    /// Claims a plain cell if its word is still `old`, which was seen before in this call. Returns
    /// the word found.
    pub(crate) fn claim(&self, seat: &mut Seat<(), Record>, cell: u32, old: u64) -> u64
        requires table { seat.old.table_id ≡ self.now.table.shared.table_id }
        requires live { seat.old.me.0.live ≡ true }
        requires cell { cell < self.now.table.shared.key.plain }
        requires rest { seat.old.me.0.stage ≡ Rest }
        requires even { old % 2 ≡ 0 }
        ensures same { IsSame seat.old seat.new }
        ensures won { result ≡ old
            → seat.new.me ≡ (
              acting seat.old.me.0 (Claimed cell (old / 2))
                  (look_again seat.old.me.0.look cell result),
              seat.old.me.1,
            ) }
        ensures lost { result ≢ old
            → seat.new.me ≡ (
              acting seat.old.me.0 seat.old.me.0.stage (look_again seat.old.me.0.look cell result),
              seat.old.me.1,
            ) }
    {
        self.table
            .shared
            .compare_exchange::<TriesAgain>(seat, cell as usize + 1, old, old + 1)
    }

    /// Claims a lock if its word is 0. This is the first look of its call. Returns the word found.
    pub(crate) fn claim_lock(&self, seat: &mut Seat<(), Record>, cell: u32) -> u64
        requires table { seat.old.table_id ≡ self.now.table.shared.table_id }
        requires live { seat.old.me.0.live ≡ true }
        requires cell { cell < self.now.table.shared.key.plain + self.now.table.shared.key.locks }
        requires rest { seat.old.me.0.stage ≡ Rest }
        ensures same { IsSame seat.old seat.new }
        ensures won { result ≡ 0
            → seat.new.me ≡ (
              acting seat.old.me.0 (Claimed cell 0) (look_first seat.old.me.0.look cell result),
              seat.old.me.1,
            ) }
        ensures lost { result ≢ 0
            → seat.new.me ≡ (
              acting seat.old.me.0 seat.old.me.0.stage (look_first seat.old.me.0.look cell result),
              seat.old.me.1,
            ) }
    {
        self.table
            .shared
            .compare_exchange::<TriesFirst>(seat, cell as usize + 1, 0, 1)
    }

    /// Writes the new word of the cell whose number is drawn, which ends the action.
    pub(crate) fn publish(&self, seat: &mut Seat<(), Record>, cell: u32, word: u64)
        requires table { seat.old.table_id ≡ self.now.table.shared.table_id }
        requires live { seat.old.me.0.live ≡ true }
        requires cell { cell < self.now.table.shared.key.plain + self.now.table.shared.key.locks }
        requires drawn { Ends seat.old.me.0.stage cell word }
        ensures same { IsSame seat.old seat.new }
        ensures told { seat.new.me ≡ (acting seat.old.me.0 Rest seat.old.me.0.look, seat.old.me.1) }
    {
        self.table
            .shared
            .store::<Publishes>(seat, cell as usize + 1, word);
    }

    /// Looks at a plain cell, and claims it if it is free then and its word hasn't changed since.
    /// Returns the word found.
    pub(crate) fn claim_seen(&self, seat: &mut Seat<(), Record>, cell: u32) -> Result<u64, Busy>
        requires table { seat.old.table_id ≡ self.now.table.shared.table_id }
        requires live { seat.old.me.0.live ≡ true }
        requires cell { cell < self.now.table.shared.key.plain }
        requires rest { seat.old.me.0.stage ≡ Rest }
        ensures same { IsSame seat.old seat.new }
        ensures told { MatchResult result
            (λ w. (w % 2 ≡ 0) × ((l : Look)
            × (seat.new.me ≡ (acting seat.old.me.0 (Claimed cell (w / 2)) l, seat.old.me.1))))
            (λ b. (l : Look)
            × (seat.new.me ≡ (acting seat.old.me.0 seat.old.me.0.stage l, seat.old.me.1))
            × WasFound cell b.found seat.old.me.0.look l × WasTaken b.found l) }
    {
        let seen = self.look(seat, cell);
        if seen % 2 == 1 {
            return Err(Busy { found: seen });
        }
        let found = self.claim(seat, cell, seen);
        if found == seen {
            Ok(found)
        } else {
            Err(Busy { found })
        }
    }

    /// A record for the next caller, made by that of caller 0.
    pub(crate) fn deal(&self, seat: &mut Seat<(), Record>) -> Seat<(), Record>
        requires table { seat.old.table_id ≡ self.now.table.shared.table_id }
        requires live { seat.old.me.0.live ≡ true }
        requires zeroth { seat.old.me.0.caller ≡ 0 }
        requires room { seat.old.me.0.next < self.now.table.shared.key.callers }
        ensures same { IsSame seat.old seat.new }
        ensures told { seat.new.me ≡ (dealer seat.old.me.0, seat.old.me.1) }
        ensures new { (result.table_id ≡ seat.old.table_id)
            × (result.me ≡ (dealt seat.old.me.0, [])) }
    {
        self.table.shared.split_seat::<Deals>(seat)
    }

    /// The second record's lanes go to the first.
    pub(crate) fn gather(&self, seat: &mut Seat<(), Record>, other: Seat<(), Record>)
        requires table { (seat.old.table_id ≡ self.now.table.shared.table_id)
            × (other.table_id ≡ self.now.table.shared.table_id) }
        requires live { (seat.old.me.0.live ≡ true) × (other.me.0.live ≡ true) }
        requires rest { (other.me.0.stage ≡ Rest) × (other.me.1 ≡ []) }
        ensures same { IsSame seat.old seat.new }
        ensures told { seat.new.me ≡ (gathering seat.old.me.0 other.me.0, seat.old.me.1) }
    {
        self.table.shared.join_seat::<Gathers>(seat, other);
    }
}
