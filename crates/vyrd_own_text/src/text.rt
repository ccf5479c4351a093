//! The pieces of a line: words, numbers and names.

ghost use Rattle.std.specs.Prelude.{◌≡◌, ◌≤◌, map, option_map, length, take, drop, codes};
ghost use Rattle.std.specs.Str.{bytes_eq};
ghost use Rattle.vyrd_base.specs.Own.Reading.{after, is_word_byte, word_of, after_word, number_in};
ghost use Rattle.vyrd_base.specs.Own.Reading.{place_in, is_lettered};

use vyrd_text::read_u64;

/// What stands after the word, if the text begins with it.
pub fn after<'a>(text: &'a [u8], word: &[u8]) -> Option<&'a [u8]>
    ensures { option_map (λ rest. rest.now) result ≡ after word.now text.now }
{
    vyrd_text::after(text, word)
}

/// Whether two texts are the same.
pub fn is_same(a: &[u8], b: &[u8]) -> bool
    ensures { result ≡ bytes_eq a.now b.now }
{
    a == b
}

/// Whether a byte may stand in a name or a number.
pub fn is_word_byte(byte: u8) -> bool
    ensures { result ≡ is_word_byte byte }
{
    (97 <= byte && byte <= 122) || (48 <= byte && byte <= 57) || byte == 95
}

/// Whether a text begins with a letter.
pub fn is_lettered(text: &[u8]) -> bool
    ensures { result ≡ is_lettered text.now }
{
    if text.is_empty() {
        return false;
    }
    97 <= text[0] && text[0] <= 122
}

/// The letters, digits and `_` at the front, and what follows them.
pub fn split_word(text: &[u8]) -> (&[u8], &[u8])
    ensures word { result.0.now ≡ word_of text.now }
    ensures rest { result.1.now ≡ after_word text.now }
{
    text.split_at(word_end(text))
}

/// How many letters, digits and `_` stand at the front.
fn word_end(text: &[u8]) -> usize
    ensures within { result ≤ length text.now }
    ensures word { take result text.now ≡ word_of text.now }
    ensures rest { drop result text.now ≡ after_word text.now }
{
    for (i, byte) in text.iter().enumerate() {
        if !is_word_byte(*byte) {
            return i;
        }
    }
    text.len()
}

/// The number below 2^64 - 1 that a word spells.
pub fn read_number(word: &[u8]) -> Option<u64>
    ensures { result ≡ number_in word.now }
{
    let number = read_u64(word)?;
    if number == u64::MAX {
        return None;
    }
    Some(number)
}

/// The place of a name.
pub fn find_name(names: &[Vec<u8>], word: &[u8]) -> Option<usize>
    ensures { result ≡ place_in (map (λ name. name.items) names.now) word.now }
{
    for (i, name) in names.iter().enumerate() {
        if name.as_slice() == word {
            return Some(i);
        }
    }
    None
}
