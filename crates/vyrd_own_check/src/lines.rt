//! Verdicts, told by the lines of the text.

ghost use Rattle.std.specs.Prelude.{◌≡◌, option_map};
ghost use Rattle.vyrd_base.specs.Own.LogVerdicts.{line_in_text, told_in_text};

use crate::numbers::LineNumbers;
use vyrd_base::Verdict;

/// What is wrong, if anything is, by the lines of the text: `numbers` are those of starting words,
/// entries and `end`.
pub(crate) fn told(numbers: &LineNumbers, wrong: Option<Verdict>) -> Option<Verdict>
    ensures { result ≡ option_map (told_in_text numbers.now) wrong }
{
    match wrong {
        Some(verdict) => Some(told_in_text(numbers, verdict)),
        None => None,
    }
}

/// The verdict by the lines of the text.
fn told_in_text(numbers: &LineNumbers, verdict: Verdict) -> Verdict
    ensures { result ≡ told_in_text numbers.now verdict }
{
    match verdict {
        Verdict::Accepted {
            entries,
            commits,
            observers,
        } => Verdict::Accepted {
            entries,
            commits,
            observers,
        },
        Verdict::Violation { line, why } => Verdict::Violation {
            line: line_in_text(numbers, line),
            why,
        },
        Verdict::Malformed { line, rule } => Verdict::Malformed {
            line: line_in_text(numbers, line),
            rule,
        },
    }
}

/// The line of the text, for the line that a starting word, an entry or `end` would have right
/// behind the header.
fn line_in_text(numbers: &LineNumbers, line: u64) -> u64
    ensures { result ≡ line_in_text numbers.now line }
{
    numbers.number_or(line.saturating_sub(2), line)
}
