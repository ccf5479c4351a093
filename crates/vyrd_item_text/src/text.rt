//! The lines that items are written as.

ghost use Rattle.std.specs.Prelude.{◌≡◌, ◌++◌, ◌≤◌, ◌+◌, IfOk, OnOk, length, codes, decimal};
ghost use Rattle.vyrd_base.specs.Spelling.{ended_line};
ghost use Rattle.vyrd_witness.specs.declared.item.Item.TheVariants.{Given, Answered, Unanswered};
ghost use Rattle.vyrd_item_text.specs.ItemText.{line_words, amount_words, part_words, reply_words};
ghost use Rattle.vyrd_item_text.specs.ItemText.{item_words, item_text, items_text};

use crate::doing_text::put_step;
use crate::lines::Lines;
use crate::own_text::{put_elements, put_hidden, put_register};
use crate::write_text::{put_change, put_passed, put_wrote};
use itoa::Buffer;
use std::alloc::{AllocError, Global};
use vyrd_text::LineBuffer;
use vyrd_witness::Item;

/// The text of items, a line each, of a log whose entries stand on these lines. It takes memory for
/// the text.
pub fn text_of<L: Lines>(alloc: Global, lines: &L, items: &[Item]) -> Result<Vec<u8>, AllocError>
    ensures { IfOk result (λ text. text.items ≡ items_text (L.line lines.now) items.now) }
{
    let mut text = Vec::new(alloc);
    put_items(lines, items, &mut text)?;
    Ok(text)
}

/// Puts the text of items at the end, a line each. It takes memory for the text. After an error the
/// text may have some of them.
pub fn put_items<L: Lines>(lines: &L, items: &[Item], text: &mut Vec<u8>) -> Result<(), AllocError>
    ensures { OnOk result (text.new.items
        ≡ text.old.items ++ items_text (L.line lines.now) items.now) }
{
    for item in items {
        put_words(lines, *item, text)?;
        text.extend_from_slice(b"\n")?;
    }
    Ok(())
}

/// Puts an item, without its line feed, at the end.
fn put_words<L: Lines>(lines: &L, item: Item, text: &mut Vec<u8>) -> Result<(), AllocError>
    ensures { OnOk result (text.new.items ≡ text.old.items ++ item_words (L.line lines.now) item) }
{
    match item {
        Item::Called { at } => put_line(lines, b"call at line ", at, text),
        Item::Replied { at } => put_line(lines, b"reply at line ", at, text),
        Item::AgreedAtStart { key, amount } => put_agreed_at_start(key, amount, text),
        Item::Agreed { at, key, amount } => {
            put_amount_at(lines, b"agreed at line ", at, key, amount, text)
        }
        Item::Shown { at, key, amount } => {
            put_amount_at(lines, b"words after line ", at, key, amount, text)
        }
        Item::Given {
            at,
            part,
            key,
            amount,
        } => put_given(lines, at, part, key, amount, text),
        Item::Changed { key, change } => put_change(lines, key, change, text),
        Item::Before { at, key, amount } => {
            put_state_at(lines, b"state before line ", at, key, amount, text)
        }
        Item::Register { at, number, value } => put_register(lines, at, number, value, text),
        Item::Elements {
            at,
            number,
            size,
            first,
            last,
        } => put_elements(lines, at, number, size, first, last, text),
        Item::Hidden { at, key, amount } => put_hidden(lines, at, key, amount, text),
        Item::After { at, key, amount } => {
            put_state_at(lines, b"state after line ", at, key, amount, text)
        }
        Item::Allowed { reply } => put_reply(b"allowed reply ", reply, text),
        Item::Answered { at, reply } => put_answer(lines, at, reply, text),
        Item::Unanswered { at } => put_unanswered(lines, at, text),
        Item::OpenCall { at } => put_line(lines, b"open call at line ", at, text),
        Item::OpenBlock { at } => put_line(lines, b"open block at line ", at, text),
        Item::Held { at } => put_line(lines, b"held by line ", at, text),
        Item::Passed { effect } => put_passed(lines, effect, text),
        Item::Wrote { effect, was } => put_wrote(lines, effect, was, text),
        Item::Stepped { at, doing } => put_step(lines, b"step at line ", at, doing, text),
        Item::LastStepped { at, doing } => put_step(lines, b"last step at line ", at, doing, text),
    }
}

/// Puts what the words showed of a key at the start at the end.
fn put_agreed_at_start(key: u64, amount: u128, text: &mut Vec<u8>) -> Result<(), AllocError>
    ensures { OnOk result (text.new.items
        ≡ text.old.items ++ (codes "agreed at the start" ++ amount_words key amount)) }
{
    text.extend_from_slice(b"agreed at the start")?;
    put_amount(key, amount, text)
}

/// Puts words, the line of the entry at a position, and an amount that a key has there at the end.
fn put_amount_at<L: Lines>(
    lines: &L,
    words: &[u8],
    at: usize,
    key: u64,
    amount: u128,
    text: &mut Vec<u8>,
) -> Result<(), AllocError>
    requires { length words.now ≤ 20 }
    ensures { OnOk result (text.new.items ≡ text.old.items
        ++ (line_words (L.line lines.now) words.now at ++ amount_words key amount)) }
{
    put_line(lines, words, at, text)?;
    put_amount(key, amount, text)
}

/// The same of an amount that a state has.
fn put_state_at<L: Lines>(
    lines: &L,
    words: &[u8],
    at: usize,
    key: u64,
    amount: u64,
    text: &mut Vec<u8>,
) -> Result<(), AllocError>
    requires { length words.now ≤ 20 }
    ensures { OnOk result (text.new.items ≡ text.old.items
        ++ (line_words (L.line lines.now) words.now at ++ amount_words key amount)) }
{
    put_amount_at(lines, words, at, key, u128::from(amount), text)
}

/// Puts what one part of the words gives to a key, and at which entry, at the end.
fn put_given<L: Lines>(
    lines: &L,
    at: usize,
    part: usize,
    key: u64,
    amount: u128,
    text: &mut Vec<u8>,
) -> Result<(), AllocError>
    ensures { OnOk result (text.new.items
        ≡ text.old.items ++ item_words (L.line lines.now) (Given at part key amount)) }
{
    put_part(part, text)?;
    put_line(lines, b" after line ", at, text)?;
    put_amount(key, amount, text)
}

/// Puts an answer, and from which line on it is given, at the end.
fn put_answer<L: Lines>(
    lines: &L,
    at: usize,
    reply: u64,
    text: &mut Vec<u8>,
) -> Result<(), AllocError>
    ensures { OnOk result (text.new.items
        ≡ text.old.items ++ item_words (L.line lines.now) (Answered at reply)) }
{
    put_line(lines, b"answer from line ", at, text)?;
    put_reply(b": ", reply, text)
}

/// Puts that no answer is right, and from which line on, at the end.
fn put_unanswered<L: Lines>(lines: &L, at: usize, text: &mut Vec<u8>) -> Result<(), AllocError>
    ensures { OnOk result (text.new.items
        ≡ text.old.items ++ item_words (L.line lines.now) (Unanswered at)) }
{
    put_line(lines, b"answer from line ", at, text)?;
    text.extend_from_slice(b": none")?;
    Ok(())
}

/// Puts words and the line of the entry at a position at the end.
#[tactic(auto, unfolding(crate::specs::ItemText::line_words))]
pub(crate) fn put_line<L: Lines>(
    lines: &L,
    words: &[u8],
    at: usize,
    text: &mut Vec<u8>,
) -> Result<(), AllocError>
    requires { length words.now ≤ 20 }
    ensures { OnOk result (text.new.items
        ≡ text.old.items ++ line_words (L.line lines.now) words.now at) }
{
    let mut line = LineBuffer::new();
    push_said(words, lines.line(at), &mut line);
    text.extend_from_slice(line.as_slice())
}

/// Puts a key and its amount at the end.
#[tactic(auto, unfolding(crate::specs::ItemText::amount_words))]
pub(crate) fn put_amount(key: u64, amount: u128, text: &mut Vec<u8>) -> Result<(), AllocError>
    ensures { OnOk result (text.new.items ≡ text.old.items ++ amount_words key amount) }
{
    let mut line = LineBuffer::new();
    push_said(b": key ", u128::from(key), &mut line);
    push_said(b" amount ", amount, &mut line);
    text.extend_from_slice(line.as_slice())
}

/// Puts which part it is at the end.
#[tactic(auto, unfolding(crate::specs::ItemText::part_words))]
fn put_part(part: usize, text: &mut Vec<u8>) -> Result<(), AllocError>
    ensures { OnOk result (text.new.items ≡ text.old.items ++ part_words part) }
{
    let mut line = LineBuffer::new();
    push_word(b"part ", part as u64, &mut line);
    text.extend_from_slice(line.as_slice())
}

/// Puts words and a reply at the end.
#[tactic(auto, unfolding(crate::specs::ItemText::reply_words))]
fn put_reply(words: &[u8], reply: u64, text: &mut Vec<u8>) -> Result<(), AllocError>
    requires { length words.now ≤ 20 }
    ensures { OnOk result (text.new.items ≡ text.old.items ++ reply_words words.now reply) }
{
    let mut line = LineBuffer::new();
    push_word(words, reply, &mut line);
    text.extend_from_slice(line.as_slice())
}

/// Puts words and the number behind them at the end of the line.
pub(crate) fn push_word(words: &[u8], number: u64, line: &mut LineBuffer)
    requires { length line.old + length words.now + 20 ≤ 128 }
    ensures words { line.new ≡ line.old ++ words.now ++ decimal number }
    ensures len { length line.new ≤ length line.old + length words.now + 20 }
{
    line.push(words);
    line.push_number(number);
}

/// The same of a number that may be greater.
pub(crate) fn push_said(words: &[u8], number: u128, line: &mut LineBuffer)
    requires { length line.old + length words.now + 40 ≤ 128 }
    ensures words { line.new ≡ line.old ++ words.now ++ decimal number }
    ensures len { length line.new ≤ length line.old + length words.now + 40 }
{
    let mut digits = Buffer::new();
    line.push(words);
    line.push(digits.format(number).as_bytes());
}
