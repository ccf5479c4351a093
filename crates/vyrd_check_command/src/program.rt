//! The top call of a program that only checks.

ghost use Rattle.std.specs.Prelude.{◌≡◌, ◌≤◌, ◌⊎◌, ◌==◌, true, false, length};
ghost use Rattle.std.specs.Str.{bytes_eq};
ghost use Rattle.std.specs.Prelude.{codes};
ghost use Rattle.vyrd_base.specs.Devices.{IsAtEnd, AfterReads, AfterWrites};
ghost use Rattle.vyrd_base.specs.Limits.{most_lines};
ghost use Rattle.vyrd_check_command.specs.Checks.{IsAnswered, IsAnsweredInPart, IsSettled};
ghost use Rattle.vyrd_check_command.specs.Checks.{IsUnsettled, IsReadNoFurther, HasRoomForAnswer};
ghost use Rattle.vyrd_check_command.specs.Outputs.{Appends, AppendsFront};
ghost use Rattle.vyrd_check_command.specs.Inside.Words.{asks_check, usage_line};

use crate::deliver::give_usage;
use crate::ended::Ended;
use crate::limited::check_limited;
use std::alloc::Global;
use vyrd_base::{Sink, Source};

/// How many lines a log may have.
pub const MAX_LINES: u64 = 268_435_456;

/// The usage line.
const USAGE_LINE: &[u8] = b"usage: vyrd_checker check\n";

/// Carries out the words that stand after the name of a program that only checks, over a source and
/// a sink.
///
/// The word `check` alone is answered by [`check_limited`] with a limit of 268,435,456 lines. All
/// other words are answered with the usage line, and the source is left alone.
pub fn check_only<S: Source, K: Sink>(
    alloc: Global,
    words: &[&str],
    source: &mut S,
    sink: &mut K,
) -> Ended
    requires unended { (S.known source.old).ended ≡ false }

    // `check`: 0, 1 and 2 for the line of the verdict of all that the source held, whose status is
    // that verdict's; 4 after a failed read, 5 after a failed write, and 6 if there was no memory.
    ensures statuses { asks_check words.now ≡ true → (result.status ≤ 2) ⊎ (result.status ≡ 4)
        ⊎ (result.status ≡ 5) ⊎ (result.status ≡ 6) }
    ensures verdict { asks_check words.now ≡ true → result.status ≤ 2
        → IsAnswered most_lines (S.known source.old).rest result.status (K.known sink.old).taken
        (K.known sink.new).taken }

    // What it takes of the source. It accepts at the source's end alone, and a read that fails
    // after a verdict is never made.
    ensures consumed { asks_check words.now ≡ true → result.status ≤ 2
        → IsSettled most_lines (S.known source.old) (S.known source.new) }
    ensures accepted_at_end { result.status ≡ 0 → IsAtEnd (S.known source.new) }
    ensures no_further { asks_check words.now ≡ true
        → IsReadNoFurther most_lines (S.known source.old) (S.known source.new) }
    ensures unsettled { result.status ≡ 4
        → IsUnsettled most_lines (S.known source.old) (S.known source.new) }

    // 4, exactly when a read failed, and 6 if there was no memory: nothing was written.
    ensures source { AfterReads (result.status == 4) (S.known source.old) (S.known source.new) }
    ensures silent { (result.status ≡ 4) ⊎ (result.status ≡ 6)
        → (K.known sink.new).taken ≡ (K.known sink.old).taken }

    // 5, exactly when a write failed: some of the first bytes of the answer were written.
    ensures sink { asks_check words.now ≡ true → AfterWrites (result.status == 5)
        (HasRoomForAnswer most_lines (S.known source.old).rest (K.known sink.old).sure_room)
        (K.known sink.old) (K.known sink.new) }
    ensures answered_in_part { asks_check words.now ≡ true → result.status ≡ 5
        → IsAnsweredInPart most_lines (S.known source.old).rest (K.known sink.old).taken
        (K.known sink.new).taken }

    // All other words: the usage line, and 5 if it couldn't be written whole.
    ensures usage_statuses { asks_check words.now ≡ false
        → (result.status ≡ 3) ⊎ (result.status ≡ 5) }
    ensures usage { asks_check words.now ≡ false → result.status ≡ 3
        → Appends (K.known sink.old).taken (K.known sink.new).taken usage_line }
    ensures usage_in_part { asks_check words.now ≡ false → result.status ≡ 5
        → AppendsFront (K.known sink.old).taken (K.known sink.new).taken usage_line }
    ensures usage_sink { asks_check words.now ≡ false → AfterWrites (result.status == 5)
        (length usage_line ≤ (K.known sink.old).sure_room) (K.known sink.old) (K.known sink.new) }
    ensures untouched { asks_check words.now ≡ false → source.new ≡ source.old }
{
    if asks_check(words) {
        return check_limited(alloc, MAX_LINES, source, sink);
    }
    give_usage(sink, USAGE_LINE)
}

/// Whether the words are `check`, and nothing else.
fn asks_check(words: &[&str]) -> bool
    ensures { result ≡ asks_check words.now }
{
    match words {
        [word] => is_check(word),
        _ => false,
    }
}

/// Whether a word is `check`.
fn is_check(word: &str) -> bool
    ensures { result ≡ bytes_eq word.now (codes "check") }
{
    word == "check"
}
