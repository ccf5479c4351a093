//! The rule that every step keeps.

use crate::plan::Plan;
use crate::record::Record;
use atomic_table::TableRule;

/// There is one legal history, which each record and each word of the table fits.
pub struct Trace;

impl TableRule<(), Record, Plan> for Trace {
    ghost use Rattle.vyrd_trace.specs.Records.{first_record};
    ghost use Rattle.vyrd_trace.specs.Rule.{TraceKept};

    ghost holds = { TraceKept };

    ghost first = { λ _. first_record };
}
