//! The lines of starting words.

ghost use Rattle.std.specs.Prelude.{◌≡◌, ◌≤◌, ◌==◌, length};
ghost use Rattle.std.specs.List.{slice_split};
ghost use Rattle.vyrd_base.specs.Lines.{start_in};
ghost use Rattle.vyrd_base.specs.Starts.{is_out_of_range, is_out_of_order, start_rule};
ghost use Rattle.vyrd_text.specs.Ahead.{begins_start, front_starts, after_first};

use crate::line::after;
use crate::lines::split_line;
use crate::number::{read_u32_and_space, read_u64};
use vyrd_base::{Header, Rule, StartWord};

/// The first value that a word can't have.
const TOO_LARGE: u64 = 1 << 63;

/// The starting word that the bytes spell, without the line feed. `None` exactly when they spell
/// none. Whether it is in range and in order isn't looked at.
pub fn read_start(line: &[u8]) -> Option<StartWord>
    ensures { result ≡ start_in line.now }
{
    let rest = after(line, b"start ")?;
    let (word, rest) = read_u32_and_space(rest)?;
    let value = read_u64(rest)?;
    Some(StartWord { word, value })
}

/// The first rule that a starting word breaks after the last one, if it breaks one.
pub fn rule_of_start(header: Header, last: Option<StartWord>, word: StartWord) -> Option<Rule>
    ensures { result ≡ start_rule header last word }
{
    if is_out_of_range(header, word) {
        return Some(Rule::StartRange);
    }
    if is_out_of_order(last, word) {
        return Some(Rule::StartOrder);
    }
    None
}

/// Whether the word isn't below the number of plain words, or the value isn't from 1 to below 2^63.
fn is_out_of_range(header: Header, word: StartWord) -> bool
    ensures { result ≡ is_out_of_range header word }
{
    word.word >= header.plain_words() || word.value == 0 || word.value >= TOO_LARGE
}

/// Whether the word isn't greater than the last one, if there is one.
fn is_out_of_order(last: Option<StartWord>, word: StartWord) -> bool
    ensures { result ≡ is_out_of_order last word }
{
    match last {
        Some(last) => word.word <= last.word,
        None => false,
    }
}

/// How many whole lines at the front of the text begin with the first letter of a starting line.
pub(crate) fn count_starts(text: &[u8]) -> usize
    ensures count { result ≡ front_starts (slice_split (λ b. b == 10) text.now) }
    ensures few { result ≤ length text.now }
{
    let mut rest = text;
    let mut count = 0;
    while let Some((line, after)) = split_line(rest) {
        if !begins_start(line) {
            return count;
        }
        count += 1;
        rest = after;
    }
    count
}

/// The same for the lines after the first.
pub(crate) fn count_later_starts(text: &[u8]) -> usize
    ensures count { result ≡ front_starts (after_first (slice_split (λ b. b == 10) text.now)) }
    ensures few { result ≤ length text.now }
{
    match split_line(text) {
        Some((_, after)) => count_starts(after),
        None => 0,
    }
}

/// Whether the line begins with the first letter of a starting line.
fn begins_start(line: &[u8]) -> bool
    ensures { result ≡ begins_start line.now }
{
    match line {
        [first, ..] => *first == b's',
        [] => false,
    }
}
