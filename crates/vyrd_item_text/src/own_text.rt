//! The lines of items about a specification of the user's own, whose values may be `none`.

ghost use Rattle.std.specs.Prelude.{◌≡◌, ◌++◌, ◌≤◌, ◌+◌, OnOk, length, codes};
ghost use Rattle.vyrd_item_text.specs.ItemText.{line_words, value_said, register_words};
ghost use Rattle.vyrd_item_text.specs.ItemText.{elements_words, hidden_words};

use crate::lines::Lines;
use crate::text::{push_word, put_line};
use std::alloc::AllocError;
use vyrd_text::LineBuffer;

/// Puts the value that a register has before the entry at a position at the end.
pub(crate) fn put_register<L: Lines>(
    lines: &L,
    at: usize,
    number: usize,
    value: u64,
    text: &mut Vec<u8>,
) -> Result<(), AllocError>
    ensures { OnOk result (text.new.items
        ≡ text.old.items ++ (line_words (L.line lines.now) (codes "state before line ") at
        ++ register_words number value)) }
{
    put_line(lines, b"state before line ", at, text)?;
    put_register_value(number, value, text)
}

/// Puts the size of a list before the entry at a position, and its first and its last element, at
/// the end.
pub(crate) fn put_elements<L: Lines>(
    lines: &L,
    at: usize,
    number: usize,
    size: u64,
    first: u64,
    last: u64,
    text: &mut Vec<u8>,
) -> Result<(), AllocError>
    ensures { OnOk result (text.new.items
        ≡ text.old.items ++ (line_words (L.line lines.now) (codes "state before line ") at
        ++ elements_words number size first last)) }
{
    put_line(lines, b"state before line ", at, text)?;
    put_ends(number, size, first, last, text)
}

/// Puts the hidden amount that a key has before the entry at a position at the end.
pub(crate) fn put_hidden<L: Lines>(
    lines: &L,
    at: usize,
    key: u64,
    amount: u64,
    text: &mut Vec<u8>,
) -> Result<(), AllocError>
    ensures { OnOk result (text.new.items
        ≡ text.old.items ++ (line_words (L.line lines.now) (codes "state before line ") at
        ++ hidden_words key amount)) }
{
    put_line(lines, b"state before line ", at, text)?;
    put_hidden_amount(key, amount, text)
}

/// Puts a register and its value at the end.
#[tactic(auto, unfolding(crate::specs::ItemText::register_words))]
pub(crate) fn put_register_value(
    number: usize,
    value: u64,
    text: &mut Vec<u8>,
) -> Result<(), AllocError>
    ensures { OnOk result (text.new.items ≡ text.old.items ++ register_words number value) }
{
    let mut line = LineBuffer::new();
    push_word(b": register ", number as u64, &mut line);
    push_value(b" value ", value, &mut line);
    text.extend_from_slice(line.as_slice())
}

/// Puts a list, its size, and its first and its last element at the end.
#[tactic(auto, unfolding(crate::specs::ItemText::elements_words))]
fn put_ends(
    number: usize,
    size: u64,
    first: u64,
    last: u64,
    text: &mut Vec<u8>,
) -> Result<(), AllocError>
    ensures { OnOk result (text.new.items
        ≡ text.old.items ++ elements_words number size first last) }
{
    let mut line = LineBuffer::new();
    push_word(b": list ", number as u64, &mut line);
    push_word(b" size ", size, &mut line);
    push_value(b" first ", first, &mut line);
    push_value(b" last ", last, &mut line);
    text.extend_from_slice(line.as_slice())
}

/// Puts a key and its hidden amount at the end.
#[tactic(auto, unfolding(crate::specs::ItemText::hidden_words))]
pub(crate) fn put_hidden_amount(key: u64, amount: u64, text: &mut Vec<u8>) -> Result<(), AllocError>
    ensures { OnOk result (text.new.items ≡ text.old.items ++ hidden_words key amount) }
{
    let mut line = LineBuffer::new();
    push_word(b": hidden key ", key, &mut line);
    push_word(b" amount ", amount, &mut line);
    text.extend_from_slice(line.as_slice())
}

/// Puts words and the value behind them at the end of the line.
#[tactic(auto, unfolding(crate::specs::ItemText::value_said))]
pub(crate) fn push_value(words: &[u8], value: u64, line: &mut LineBuffer)
    requires { length line.old + length words.now + 20 ≤ 128 }
    ensures words { line.new ≡ line.old ++ words.now ++ value_said value }
    ensures len { length line.new ≤ length line.old + length words.now + 20 }
{
    if value == u64::MAX {
        line.push(words);
        line.push(b"none");
    } else {
        push_word(words, value, line);
    }
}
