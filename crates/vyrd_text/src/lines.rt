//! Line feeds in a piece of a text.

ghost use Rattle.std.specs.Prelude.{◌≡◌, ◌≤◌, ◌==◌, true, ◌∷◌, ◌++◌, length, count_by, MatchOption};
ghost use Rattle.vyrd_text.specs.Steps.{is_one_line};

use memchr::memchr;

/// The bytes before the first line feed, and those after it. `None` if there is no line feed.
pub fn split_line(text: &[u8]) -> Option<(&[u8], &[u8])>
    ensures { MatchOption result (is_one_line text.now ≡ true)
        (λ r. (is_one_line r.0.now ≡ true) × (text.now ≡ r.0.now ++ 10 ∷ r.1.now)) }
{
    let at = memchr(b'\n', text)?;
    Some((&text[..at], &text[at + 1..]))
}

/// How many bytes are counted at once: few enough that their count fits a byte, and a multiple of
/// any vector's length.
const BLOCK: usize = 128;

/// How many line feeds there are.
pub fn count_line_feeds(text: &[u8]) -> usize
    ensures { result ≡ count_by (λ b. b == 10) text.now }
{
    let mut rest = text;
    let mut count = 0;
    while rest.len() > BLOCK {
        let (block, after) = rest.split_at(BLOCK);
        count += usize::from(count_few(block));
        rest = after;
    }
    count + usize::from(count_few(rest))
}

/// The same for a few bytes. The sum has no branch and no more bits than a byte, so that the
/// compiler makes vectors of it.
#[inline(always)]
fn count_few(text: &[u8]) -> u8
    requires { length text.now ≤ 128 }
    ensures count { result ≡ count_by (λ b. b == 10) text.now }
    ensures few { result ≤ length text.now }
{
    let mut count = 0;
    for at in 0..text.len() {
        count += u8::from(text[at] == b'\n');
    }
    count
}
