//! The methods of string buffers, and their words.

ghost use Rattle.std.specs.Prelude.{◌≡◌, ◌+◌, ◌*◌, ◌<◌, ◌≤◌, length};
ghost use Rattle.vyrd_base.specs.Limits.{longest_method};
ghost use Rattle.vyrd_base.specs.Buffers.{called, arity, commits, takes, buffer_at, shown_text};

use crate::subject::{Args, Commits};

/// A method of string buffers.
#[derive(Clone, Copy, Debug, PartialEq, Eq)]
pub enum BuffersMethod {
    /// `append b x` puts the character x at the end of buffer b and replies 1, or replies 0 if the
    /// buffer is full.
    Append,
    /// `append_from b s` puts the characters of buffer s at the end of buffer b and replies 1, or
    /// replies 0 if b has no room for them.
    AppendFrom,
    /// `cut b n` keeps the first n characters of buffer b, if there are more, and replies 1.
    Cut,
    /// `length b` observes how many characters buffer b has.
    Length,
    /// `read b` observes the text of buffer b, as the sum of (character i + 1) * 256^i.
    Read,
}

impl BuffersMethod {
    /// Its name in the line of a call.
    pub(crate) fn name(self) -> &'static [u8]
        ensures text { result.now ≡ called self }
        ensures len { length result.now ≤ longest_method }
    {
        match self {
            BuffersMethod::Append => b"append",
            BuffersMethod::AppendFrom => b"append_from",
            BuffersMethod::Cut => b"cut",
            BuffersMethod::Length => b"length",
            BuffersMethod::Read => b"read",
        }
    }

    /// How many arguments the method has.
    #[inline(always)]
    pub(crate) fn arity(self) -> u32
        ensures { result ≡ arity self }
    {
        match self {
            BuffersMethod::Append => 2,
            BuffersMethod::AppendFrom => 2,
            BuffersMethod::Cut => 2,
            BuffersMethod::Length => 1,
            BuffersMethod::Read => 1,
        }
    }

    /// How often each of its executions commits.
    #[inline(always)]
    pub(crate) fn commits(self) -> Commits
        ensures { result ≡ commits self }
    {
        match self {
            BuffersMethod::Append => Commits::Once,
            BuffersMethod::AppendFrom => Commits::Once,
            BuffersMethod::Cut => Commits::Once,
            BuffersMethod::Length => Commits::Never,
            BuffersMethod::Read => Commits::Never,
        }
    }

    /// Whether the arguments are in their ranges, given that there are `size` buffers.
    #[inline(always)]
    pub(crate) fn takes(self, size: u32, args: Args) -> bool
        ensures { result ≡ takes size self args }
    {
        match self {
            BuffersMethod::Append => args.a < size && args.b < 255,
            BuffersMethod::AppendFrom => args.a < size && args.b < size,
            BuffersMethod::Cut => args.a < size,
            BuffersMethod::Length => args.a < size,
            BuffersMethod::Read => args.a < size,
        }
    }
}

/// How many words a buffer has: the count of its characters, and then the characters.
pub const BUFFER_WORDS: usize = 8;

/// How many characters a buffer has room for.
pub const MOST_CHARACTERS: u64 = 7;

/// What characters are below.
const CHARACTER_END: u64 = 255;

/// The base to which the digits of a text are its characters, each plus 1.
pub const TEXT_BASE: u64 = 256;

/// The text of the buffer with this number, counted from 0. It is `None` when the words aren't a
/// buffer: the count is above 7, or a character below the count isn't below 255.
pub fn buffer_text(words: &[u64], number: usize) -> Option<u64>
    requires { 8 * number + 7 < length words.now }
    ensures { result ≡ shown_text (buffer_at words.now number) }
{
    let first = BUFFER_WORDS * number;
    let count = words[first];
    if count > MOST_CHARACTERS {
        return None;
    }
    let mut text = 0;
    let mut power = 1;
    for i in 0..count as usize {
        let character = words[first + (1 + i)];
        if character >= CHARACTER_END {
            return None;
        }
        text += (character + 1) * power;
        power *= TEXT_BASE;
    }
    Some(text)
}
