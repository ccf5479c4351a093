//! The lines of items about writes that take effect.

ghost use Rattle.std.specs.Prelude.{◌≡◌, ◌++◌, OnOk};
ghost use Rattle.vyrd_witness.specs.declared.item.Item.TheVariants.{Changed, Passed, Wrote};
ghost use Rattle.vyrd_item_text.specs.ItemText.{word_words, value_words, shown_words, item_words};

use crate::lines::Lines;
use crate::text::{push_said, push_word, put_line};
use std::alloc::AllocError;
use vyrd_text::LineBuffer;
use vyrd_witness::{Change, Effect};

/// Puts a write that took effect behind a commit at the end.
pub(crate) fn put_passed<L: Lines>(
    lines: &L,
    effect: Effect,
    text: &mut Vec<u8>,
) -> Result<(), AllocError>
    ensures { OnOk result (text.new.items
        ≡ text.old.items ++ item_words (L.line lines.now) (Passed effect)) }
{
    put_line(lines, b"passed at line ", effect.written, text)?;
    put_word(effect, text)?;
    put_line(lines, b", in effect at line ", effect.at, text)
}

/// Puts a write that changes nothing of what the words show, and what its word was, at the end.
pub(crate) fn put_wrote<L: Lines>(
    lines: &L,
    effect: Effect,
    was: u64,
    text: &mut Vec<u8>,
) -> Result<(), AllocError>
    ensures { OnOk result (text.new.items
        ≡ text.old.items ++ item_words (L.line lines.now) (Wrote effect was)) }
{
    put_line(lines, b"write at line ", effect.written, text)?;
    put_value(effect, was, text)?;
    put_line(lines, b", in effect at line ", effect.at, text)
}

/// Puts a change at the end.
pub(crate) fn put_change<L: Lines>(
    lines: &L,
    key: u64,
    change: Change,
    text: &mut Vec<u8>,
) -> Result<(), AllocError>
    ensures { OnOk result (text.new.items
        ≡ text.old.items ++ item_words (L.line lines.now) (Changed key change)) }
{
    put_line(lines, b"change at line ", change.effect.written, text)?;
    put_value(change.effect, change.was, text)?;
    put_line(lines, b", in effect at line ", change.effect.at, text)?;
    put_shown(key, change, text)
}

/// Puts which word an effect is on at the end.
#[tactic(auto, unfolding(crate::specs::ItemText::word_words))]
fn put_word(effect: Effect, text: &mut Vec<u8>) -> Result<(), AllocError>
    ensures { OnOk result (text.new.items ≡ text.old.items ++ word_words effect) }
{
    let mut line = LineBuffer::new();
    push_word(b": word ", u64::from(effect.word), &mut line);
    text.extend_from_slice(line.as_slice())
}

/// Puts what an effect made of its word, which was this before, at the end.
#[tactic(auto, unfolding(crate::specs::ItemText::value_words))]
fn put_value(effect: Effect, was: u64, text: &mut Vec<u8>) -> Result<(), AllocError>
    ensures { OnOk result (text.new.items ≡ text.old.items ++ value_words effect was) }
{
    let mut line = LineBuffer::new();
    push_word(b": word ", u64::from(effect.word), &mut line);
    push_word(b" from ", was, &mut line);
    push_word(b" to ", effect.value, &mut line);
    text.extend_from_slice(line.as_slice())
}

/// Puts what the words showed of the key before and after a change at the end.
#[tactic(auto, unfolding(crate::specs::ItemText::shown_words))]
fn put_shown(key: u64, change: Change, text: &mut Vec<u8>) -> Result<(), AllocError>
    ensures { OnOk result (text.new.items ≡ text.old.items ++ shown_words key change) }
{
    let mut line = LineBuffer::new();
    push_word(b", key ", key, &mut line);
    push_said(b" amount ", change.before, &mut line);
    push_said(b" to ", change.after, &mut line);
    text.extend_from_slice(line.as_slice())
}
