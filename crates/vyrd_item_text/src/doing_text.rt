//! The lines of items about what the steps of a specification do.

ghost use Rattle.std.specs.Prelude.{◌≡◌, ◌++◌, ◌≤◌, OnOk, length};
ghost use Rattle.vyrd_item_text.specs.ItemText.{line_words, doing_words, list_words, added_words};

use crate::lines::Lines;
use crate::own_text::{push_value, put_hidden_amount, put_register_value};
use crate::text::{push_word, put_amount, put_line};
use std::alloc::AllocError;
use vyrd_base::Effect;
use vyrd_text::LineBuffer;

/// Puts words, the line of the commit at a position, and what its step does at the end.
pub(crate) fn put_step<L: Lines>(
    lines: &L,
    words: &[u8],
    at: usize,
    doing: Effect,
    text: &mut Vec<u8>,
) -> Result<(), AllocError>
    requires { length words.now ≤ 20 }
    ensures { OnOk result (text.new.items
        ≡ text.old.items ++ (line_words (L.line lines.now) words.now at ++ doing_words doing)) }
{
    put_line(lines, words, at, text)?;
    put_doing(doing, text)
}

/// Puts what a step does at the end.
fn put_doing(doing: Effect, text: &mut Vec<u8>) -> Result<(), AllocError>
    ensures { OnOk result (text.new.items ≡ text.old.items ++ doing_words doing) }
{
    match doing {
        Effect::SetShown(key, amount) => put_amount(key, u128::from(amount), text),
        Effect::SetHidden(key, amount) => put_hidden_amount(key, amount, text),
        Effect::SetRegister(number, value) => put_register_value(number, value, text),
        Effect::PutLast(number, value) => put_added(number, b" append ", value, text),
        Effect::PutFirst(number, value) => put_added(number, b" prepend ", value, text),
        Effect::TakeFirst(number) => put_list(number, b" drop first", text),
        Effect::TakeLast(number) => put_list(number, b" drop last", text),
        Effect::Empty(number) => put_list(number, b" clear", text),
        Effect::EmptyShown => text.extend_from_slice(b": clear"),
    }
}

/// Puts a list, and what is done to it, at the end.
#[tactic(auto, unfolding(crate::specs::ItemText::list_words))]
fn put_list(number: usize, words: &[u8], text: &mut Vec<u8>) -> Result<(), AllocError>
    requires { length words.now ≤ 20 }
    ensures { OnOk result (text.new.items ≡ text.old.items ++ list_words number words.now) }
{
    let mut line = LineBuffer::new();
    push_word(b": list ", number as u64, &mut line);
    line.push(words);
    text.extend_from_slice(line.as_slice())
}

/// Puts a list that gets one more value, and at which end, at the end.
#[tactic(auto, unfolding(crate::specs::ItemText::added_words))]
fn put_added(number: usize, words: &[u8], value: u64, text: &mut Vec<u8>) -> Result<(), AllocError>
    requires { length words.now ≤ 20 }
    ensures { OnOk result (text.new.items ≡ text.old.items ++ added_words number words.now value) }
{
    let mut line = LineBuffer::new();
    push_word(b": list ", number as u64, &mut line);
    push_value(words, value, &mut line);
    text.extend_from_slice(line.as_slice())
}
