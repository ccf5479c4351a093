//! What may still become of bytes that hold no whole log.

ghost use Rattle.std.specs.Prelude.{◌≡◌, ◌≤◌, ◌+◌, ◌++◌, List, ℕ, length, true, false, None};
ghost use Rattle.std.specs.Prelude.{IfSome};
ghost use Rattle.vyrd_batch.specs.Batches.{log_at, logs_end_within, most_logs};
ghost use Rattle.vyrd_batch.specs.Rounds.{IsNothingMore, IsNothingEver, most_left, longest_line};
ghost use Rattle.vyrd_batch.specs.Costs.{line_look, rest_look};

use crate::reader::{LOGS_END_WITHIN, MOST_LOGS, next_line, size_in};
use std::sync::ledger::Ledger;
use vyrd_base::Steps;
use vyrd_text::after;

/// How many bytes the longest line before a log has, `log 16777216`, without its line feed.
const LONGEST_LINE: usize = 12;

/// Whether a batch may go on with these bytes and others after them. They stand at a place of it,
/// after `log` logs, or at its front if the first line wasn't read. They begin with no whole log,
/// or not with the whole first line.
///
/// Only their first line is looked at. So a line before a log that has a wrong beginning, but no
/// line feed yet, may still be said to go on. It is short. A step is counted for each byte that is
/// looked at to find its end, and one besides.
pub(crate) fn may_go_on<L: Ledger>(
    place: Option<usize>,
    log: usize,
    bytes: &[u8],
    steps: &mut Steps<L>,
) -> bool
    requires near { IfSome place (λ place. place ≤ logs_end_within) }
    requires few { log ≤ most_logs }
    requires nothing { IsNothingMore place log bytes.now }
    ensures never { result ≡ false → IsNothingEver place log bytes.now }
    ensures short { result ≡ true → length bytes.now ≤ most_left }
    ensures ever { result ≡ true → IsNothingEver place log bytes.now
        → length bytes.now ≤ longest_line }
    ensures steps { steps.new ≤ steps.old + rest_look place bytes.now + 1 }
{
    steps.tick();
    let Some(place) = place else {
        return after(b"batch\n", bytes).is_some();
    };
    if after(b"end\n", bytes).is_some() {
        return true;
    }
    log < MOST_LOGS && may_be_log(place, bytes, steps)
}

/// Whether these bytes, which stand at a place of a batch, may be the beginning of a log, its line
/// included.
fn may_be_log<L: Ledger>(place: usize, bytes: &[u8], steps: &mut Steps<L>) -> bool
    requires near { place ≤ logs_end_within }
    requires nothing { log_at place bytes.now ≡ None }
    ensures never { result ≡ false → (more : List ℕ) → log_at place (bytes.now ++ more) ≡ None }
    ensures short { result ≡ true → length bytes.now ≤ most_left }
    ensures ever { result ≡ true → ((more : List ℕ) → log_at place (bytes.now ++ more) ≡ None)
        → length bytes.now ≤ longest_line }
    ensures steps { steps.new ≡ steps.old + line_look bytes.now }
{
    let Some((line, _)) = next_line(bytes, steps) else {
        return bytes.len() <= LONGEST_LINE;
    };
    let Some(size) = size_in(line) else {
        return false;
    };
    place + line.len() + 1 + size <= LOGS_END_WITHIN
}
