//! What the words of a built-in subject show of a key after one of them has changed, by the part
//! that the word is in.

ghost use Rattle.std.specs.Prelude.{◌≡◌, ◌+◌, ◌*◌, ◌/◌, ◌==◌, ◌||◌, ◌<◌, ◌^◌, length};
ghost use Rattle.std.specs.Prelude.{slice_set, IfSome};
ghost use Rattle.vyrd_base.specs.Amounts.{given};
ghost use Rattle.vyrd_base.specs.Layout.{plain_words};
ghost use Rattle.vyrd_base.specs.Multiset.{slot_parts};
ghost use Rattle.vyrd_base.specs.Rules.{rules_of};
ghost use Rattle.vyrd_base.specs.declared.subject.Subject.TheVariants.{Multiset};
ghost use Rattle.vyrd_witness.specs.Changes.{amount_shown};

use crate::given::{CHUNK_WORDS, SLOT_WORDS, given_by_slot};
use vyrd_base::{BUFFER_WORDS, Header, Subject};

/// What the words show of the key after one of them got its value, given what they showed before,
/// when that word had this other value. It is told if no other part has to be looked at: always for
/// a multiset, and for a cache or buffers if the word's part gives nothing to the key, whatever its
/// words are. It takes constant time.
pub(crate) fn told_after(
    header: Header,
    words: &[u64],
    key: u64,
    before: u128,
    word: usize,
    was: u64,
) -> Option<u128>
    requires count { length words.now ≡ plain_words header }
    requires within { word < length words.now }
    requires before { before
        ≡ amount_shown (rules_of header) (slice_set words.now word was) key }
    ensures { IfSome result (λ amount. amount ≡ amount_shown (rules_of header) words.now key) }
{
    match header.subject() {
        Subject::Multiset => Some(amount_after(header, words, key, before, word, was)),
        Subject::Cache if !is_own_key(header, word / CHUNK_WORDS, key) => Some(before),
        Subject::Buffers if !is_own_key(header, word / BUFFER_WORDS, key) => Some(before),
        _ => None,
    }
}

/// Whether a chunk or a buffer of that number can give something to the key.
fn is_own_key(header: Header, number: usize, key: u64) -> bool
    requires { number < 2 ^ 63 }
    ensures { result ≡ (key == number || key == header.size + number) }
{
    let number = number as u64;
    key == number || key == u64::from(header.size()) + number
}

/// What the words of a multiset show of the key after one of them got its value: what its slot gave
/// to the key gives way to what it gives now.
fn amount_after(
    header: Header,
    words: &[u64],
    key: u64,
    before: u128,
    word: usize,
    was: u64,
) -> u128
    requires multiset { header.subject ≡ Multiset }
    requires count { length words.now ≡ plain_words header }
    requires within { word < length words.now }
    requires before { before
        ≡ amount_shown (rules_of header) (slice_set words.now word was) key }
    ensures { result ≡ amount_shown (rules_of header) words.now key }
{
    let old = given_with(header, words, word, was, key);
    let new = given_with(header, words, word, words[word], key);
    before + new - old
}

/// What the slot of a word gives to the key, if the word has this value.
fn given_with(header: Header, words: &[u64], word: usize, value: u64, key: u64) -> u128
    requires multiset { header.subject ≡ Multiset }
    requires count { length words.now ≡ plain_words header }
    requires within { word < length words.now }
    ensures { result ≡ given key (slot_parts (slice_set words.now word value) (word / 2)) }
{
    if word % SLOT_WORDS == 0 {
        given_by_slot(value, words[word + 1], key)
    } else {
        given_by_slot(words[word - 1], value, key)
    }
}
