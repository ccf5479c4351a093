//! The text of a buffer as one number: to the base 256 its digits are the characters, each plus 1.

ghost use Rattle.std.specs.Prelude.{◌≡◌, ◌*◌, ◌+◌, ◌<◌, ◌≤◌, ◌^◌, length};
ghost use Rattle.std.specs.Bool.{then_some};
ghost use Rattle.vyrd_base.specs.Buffers.{text_length, has_room, joined, cut_to};

use vyrd_base::{MOST_CHARACTERS, TEXT_BASE};

/// How many characters a buffer has at most.
const MOST: u32 = MOST_CHARACTERS as u32;

/// What a character counts that has n characters before it.
fn power(n: u32) -> u64
    requires { n ≤ 7 }
    ensures { result ≡ 256 ^ n }
{
    TEXT_BASE.pow(n)
}

/// How many characters a text has.
pub(crate) fn text_length(text: u64) -> u32
    ensures length { result ≡ text_length text }
    ensures most { result ≤ 7 }
{
    let mut length = 0;
    for n in 0..MOST {
        if power(n) <= text {
            length += 1;
        }
    }
    length
}

/// A text with another one after it, and `None` if a buffer has no room for both.
pub(crate) fn joined(text: u64, more: u64) -> Option<u64>
    requires text { text < 256 ^ 7 }
    requires more { more < 256 ^ 7 }
    ensures text { result ≡ then_some (has_room text more) (joined text more) }
{
    let length = text_length(text);
    if length + text_length(more) <= MOST {
        Some(text + more * power(length))
    } else {
        None
    }
}

/// The first n characters of a text, or all if it has no more.
pub(crate) fn cut_to(n: u32, text: u64) -> u64
    ensures { result ≡ cut_to n text }
{
    if n < text_length(text) {
        text % power(n)
    } else {
        text
    }
}
