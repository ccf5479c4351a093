//! A log's check under a limit of lines, from the source to the sink.

ghost use Rattle.std.specs.Prelude.{◌≡◌, ◌≤◌, ◌⊎◌, ◌==◌, false};
ghost use Rattle.vyrd_base.specs.Devices.{IsAtEnd, AfterReads, AfterWrites};
ghost use Rattle.vyrd_base.specs.Limits.{most_lines};
ghost use Rattle.vyrd_check_command.specs.Checks.{IsAnswered, IsAnsweredInPart, IsSettled, IsUnsettled};
ghost use Rattle.vyrd_check_command.specs.Checks.{IsReadNoFurther, HasRoomForAnswer};

use crate::check::check;
use crate::deliver::give;
use crate::ended::Ended;
use std::alloc::Global;
use vyrd_base::{Sink, Source};

/// Reads a log of at most `max_lines` lines, from 1 to 268,435,456, and writes its verdict's line.
///
/// It is `check` with that limit: the status is 0, 1 or 2 by the verdict, 4 after a failed read, 5
/// after a failed write and 6 if memory ran out. No more is read once the verdict stands, and the
/// line is made before its first byte is written. The time grows with the bytes that are read; what
/// is kept doesn't, apart from what the judge keeps of open executions.
pub fn check_limited<S: Source, K: Sink>(
    alloc: Global,
    max_lines: u64,
    source: &mut S,
    sink: &mut K,
) -> Ended
    requires low { 1 ≤ max_lines }
    requires high { max_lines ≤ most_lines }
    requires unended { (S.known source.old).ended ≡ false }
    ensures statuses { (result.status ≤ 2) ⊎ (result.status ≡ 4) ⊎ (result.status ≡ 5)
        ⊎ (result.status ≡ 6) }

    // 0, 1 and 2: it has written the line of the verdict of all that the source held, and the
    // status is that verdict's.
    ensures verdict { result.status ≤ 2
        → IsAnswered max_lines (S.known source.old).rest result.status (K.known sink.old).taken
        (K.known sink.new).taken }

    // What it takes of the source. It accepts at the source's end alone, and a read that fails
    // after a verdict is never made.
    ensures consumed { result.status ≤ 2
        → IsSettled max_lines (S.known source.old) (S.known source.new) }
    ensures accepted_at_end { result.status ≡ 0 → IsAtEnd (S.known source.new) }
    ensures no_further { IsReadNoFurther max_lines (S.known source.old) (S.known source.new) }
    ensures unsettled { result.status ≡ 4
        → IsUnsettled max_lines (S.known source.old) (S.known source.new) }

    // 4, exactly when a read failed, and 6 if there was no memory: nothing was written.
    ensures source { AfterReads (result.status == 4) (S.known source.old) (S.known source.new) }
    ensures silent { (result.status ≡ 4) ⊎ (result.status ≡ 6)
        → (K.known sink.new).taken ≡ (K.known sink.old).taken }

    // 5, exactly when a write failed: some of the first bytes of the answer were written.
    ensures sink { AfterWrites (result.status == 5)
        (HasRoomForAnswer max_lines (S.known source.old).rest (K.known sink.old).sure_room)
        (K.known sink.old) (K.known sink.new) }
    ensures answered_in_part { result.status ≡ 5
        → IsAnsweredInPart max_lines (S.known source.old).rest (K.known sink.old).taken
        (K.known sink.new).taken }
{
    let answer = check(alloc, max_lines, source);
    give(sink, answer)
}
