//! The table of words, and the records that all hands begin and end with.

ghost use Rattle.std.specs.Prelude.{◌≡◌, ◌+◌, ◌≤◌, true, [], ◌∷◌, vec_len, vec_capacity};
ghost use Rattle.vyrd_trace.specs.declared.record.Stage.TheVariants.{Rest};
ghost use Rattle.vyrd_trace.specs.Records.{first_record, record_of, own_lane};
ghost use Rattle.vyrd_trace.specs.Steps.{IsSame};
ghost use Rattle.vyrd_trace.specs.Hands.{IsSized, AreNew, AreAll, sharing};
ghost use Rattle.vyrd_trace.specs.Closing.{own_lanes};

use crate::hand::Hand;
use crate::plan::Plan;
use crate::record::Record;
use crate::rule::Trace;
use atomic_table::{Seat, Table};
use std::alloc::Global;

/// Word 0 of the table counts the events, and word `i + 1` is that of cell `i`: twice its value,
/// plus 1 while a hand has claimed it.
#[derive(Drop)]
pub struct Board {
    pub(crate) alloc: Global,
    pub(crate) table: Table<(), Record, Plan, Trace, Global>,
    ghost sized: { IsSized table.shared.key table.shared.table_id },
}

impl Board {
    /// Makes the hands of the callers from 1 on, each with a record that the one of caller 0 makes
    /// for it.
    pub(crate) fn deal_all(
        &self,
        callers: u32,
        limit: u64,
        seat: &mut Seat<(), Record>,
        hands: &mut Vec<Hand>,
    )
        requires table { seat.old.table_id ≡ self.now.table.shared.table_id }
        requires plan { (callers ≡ self.now.table.shared.key.callers)
            × (limit ≡ self.now.table.shared.key.limit) × (1 ≤ callers) }
        requires first { seat.old.me ≡ (first_record, []) }
        requires hands { (hands.old.items ≡ []) × (callers ≤ vec_capacity hands.old) }
        ensures same { IsSame seat.old seat.new × (seat.new.me ≡ (record_of 0 callers, [])) }
        ensures hands { (vec_len hands.new + 1 ≡ callers)
            × (vec_capacity hands.new ≡ vec_capacity hands.old)
            × AreNew (sharing self.now.table.shared.table_id self.now.table.shared.key) 1
            hands.new.items }
    {
        for caller in 1..callers {
            let dealt = self.deal(seat);
            hands.push_reserved(Hand::fresh(self.alloc, caller, limit, dealt));
        }
    }

    /// Makes one record of those of all hands, in their order.
    pub(crate) fn gather_all(&self, mut hands: Vec<Hand>) -> Seat<(), Record>
        requires { AreAll (sharing self.now.table.shared.table_id self.now.table.shared.key)
            hands.items }
        ensures same { (result.table_id ≡ self.now.table.shared.table_id)
            × (result.me.0.live ≡ true) × (result.me.0.stage ≡ Rest) }
        ensures lanes { own_lane result.me.0 ∷ result.me.0.gathered ≡ own_lanes hands.items }
    {
        let mut seat = hands.remove(0).into_seat();
        for hand in hands {
            self.gather(&mut seat, hand.into_seat());
        }
        seat
    }
}
