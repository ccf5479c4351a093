//! Names: which words are some, and which are taken.

ghost use Rattle.std.specs.Prelude.{◌≡◌, ◌||◌, map, length};
ghost use Rattle.std.specs.List.{list_any};
ghost use Rattle.std.specs.Str.{bytes_eq};
ghost use Rattle.vyrd_own.specs.Layout.{texts, written, method_of};
ghost use Rattle.vyrd_base.specs.Own.Reading.{word_of};
ghost use Rattle.vyrd_base.specs.Own.Names.{is_among, is_name, is_known, new_name, reserved};
ghost use Rattle.vyrd_base.specs.Own.Names.{words_of_parts};
ghost use Rattle.vyrd_own_text.specs.Meaning.{word_as};

use crate::text::{find_name, is_lettered, is_same, split_word};
use vyrd_base::SpecificationRule;
use vyrd_own::{Method, Program};

/// Whether the word is one of these.
fn is_one_of(words: &[&[u8]], word: &[u8]) -> bool
    ensures { result ≡ list_any (bytes_eq word.now) (map (λ w. w.now) words.now) }
{
    for other in words {
        if is_same(word, other) {
            return true;
        }
    }
    false
}

/// Whether the word is one of the language's.
fn is_reserved(word: &[u8]) -> bool
    ensures { result ≡ list_any (bytes_eq word.now) reserved }
{
    let words: [&[u8]; 16] = [
        b"none",
        b"count",
        b"if",
        b"then",
        b"else",
        b"not",
        b"least",
        b"greatest",
        b"first",
        b"last",
        b"length",
        b"and",
        b"or",
        b"reply",
        b"part",
        b"log",
    ];
    is_one_of(&words, word)
}

/// Whether the word is `w0` to `w15`.
#[tactic(auto, unfolding(vyrd_base::specs::Own::Names::words_of_parts))]
fn is_part_word(word: &[u8]) -> bool
    ensures { result ≡ list_any (bytes_eq word.now) words_of_parts }
{
    let words: [&[u8]; 16] = [
        b"w0", b"w1", b"w2", b"w3", b"w4", b"w5", b"w6", b"w7", b"w8", b"w9", b"w10", b"w11",
        b"w12", b"w13", b"w14", b"w15",
    ];
    is_one_of(&words, word)
}

/// Whether the word is a name.
#[tactic(auto, unfolding(vyrd_base::specs::Own::Names::is_name))]
fn is_name(word: &[u8]) -> bool
    ensures { result ≡ is_name word.now }
{
    is_lettered(word) && word.len() <= 32 && !is_reserved(word) && !is_part_word(word)
}

/// Whether the word is among these names.
pub fn is_taken(names: &[Vec<u8>], word: &[u8]) -> bool
    ensures { result ≡ is_among word.now (texts names.now) }
{
    find_name(names, word).is_some()
}

/// Whether a constant, a register or a list has the name.
pub fn is_known(program: &Program, word: &[u8]) -> bool
    ensures { result ≡ is_known (written program.now) word.now }
{
    is_taken(&program.constant_names, word)
        || is_taken(&program.register_names, word)
        || is_taken(&program.list_names, word)
}

/// A name that is new, if it isn't taken, and what follows it.
pub fn read_new_name(taken: bool, text: &[u8]) -> Result<(&[u8], &[u8]), (SpecificationRule, &[u8])>
    ensures { word_as result ≡ new_name taken text.now }
{
    let (word, rest) = split_word(text);
    if !is_name(word) {
        return Err((SpecificationRule::BadLine, text));
    }
    if taken {
        return Err((SpecificationRule::NameTaken, text));
    }
    Ok((word, rest))
}

/// Whether the word at the front is the name of a constant, a register or a list.
pub fn front_is_known(program: &Program, text: &[u8]) -> bool
    ensures { result ≡ is_known (written program.now) (word_of text.now) }
{
    let (word, _) = split_word(text);
    is_known(program, word)
}

/// Whether the word at the front is a name that the method knows.
pub fn front_is_taken(program: &Program, method: &Method, text: &[u8]) -> bool
    ensures { result ≡ (is_known (written program.now) (word_of text.now)
        || is_among (word_of text.now) (method_of method.now).names) }
{
    let (word, _) = split_word(text);
    is_known(program, word) || is_taken(&method.names, word)
}
