//! Which keys a write to a word can matter to.

ghost use Rattle.std.specs.Prelude.{◌≡◌, ◌≢◌, ◌≤◌, ◌<◌, ◌+◌, ◌*◌, ◌/◌, ◌^◌, ℕ, true, length};
ghost use Rattle.std.specs.Prelude.{slice_set, slice_index, IfSome, None};
ghost use Rattle.vyrd_base.specs.declared.subject.Subject.TheVariants.{Multiset, Tree};
ghost use Rattle.vyrd_base.specs.Amounts.{amount_of};
ghost use Rattle.vyrd_base.specs.Layout.{plain_words};
ghost use Rattle.vyrd_base.specs.Subjects.{is_built_in};
ghost use Rattle.vyrd_base.specs.Views.{view_of_words};

use vyrd_base::{BUFFER_WORDS, Header, Subject};

/// How many words a slot of a multiset has: its state and its value.
const SLOT_WORDS: usize = 2;

/// How many words a chunk of a cache has.
const CHUNK_WORDS: usize = 5;

/// Two keys, of which the first is at most the second, such that the words show the same of all
/// others as before the word got its value, when it had this other one. There are none for a tree.
pub(crate) fn touched_keys(
    header: Header,
    words: &[u64],
    word: usize,
    was: u64,
) -> Option<(u64, u64)>
    requires built_in { is_built_in header.subject ≡ true }
    requires count { length words.now ≡ plain_words header }
    requires within { word < length words.now }
    ensures tree { result ≡ None → header.subject ≡ Tree }
    ensures order { IfSome result (λ keys. keys.0 ≤ keys.1) }
    ensures others { IfSome result (λ keys. (q : ℕ) → q ≢ keys.0 → q ≢ keys.1
        → amount_of (view_of_words header (slice_set words.now word was)) q
        ≡ amount_of (view_of_words header words.now) q) }
    ensures fits { IfSome result
        (λ keys. (q : ℕ) → amount_of (view_of_words header words.now) q < 2 ^ 64) }
{
    match header.subject() {
        Subject::Multiset => Some(slot_keys(header, words, word, was)),
        Subject::Cache => Some(part_keys(header, word / CHUNK_WORDS)),
        Subject::Buffers => Some(part_keys(header, word / BUFFER_WORDS)),
        Subject::Tree => None,
        Subject::Own => unreachable!(),
    }
}

/// The value of the word's slot before and after, the lesser first.
fn slot_keys(header: Header, words: &[u64], word: usize, was: u64) -> (u64, u64)
    requires multiset { header.subject ≡ Multiset }
    requires count { length words.now ≡ plain_words header }
    requires within { word < length words.now }
    ensures order { result.0 ≤ result.1 }
    ensures before { (q : ℕ) → q ≢ result.0 → q ≢ result.1
        → q ≢ slice_index (slice_set words.now word was) (2 * (word / 2) + 1) }
    ensures after { (q : ℕ) → q ≢ result.0 → q ≢ result.1
        → q ≢ slice_index words.now (2 * (word / 2) + 1) }
{
    if word % SLOT_WORDS == 0 {
        let value = words[word + 1];
        (value, value)
    } else {
        let value = words[word];
        (was.min(value), was.max(value))
    }
}

/// The two keys of a chunk or of a buffer.
fn part_keys(header: Header, part: usize) -> (u64, u64)
    requires { part < 2 ^ 63 }
    ensures { result ≡ (part, header.size + part) }
{
    let part = part as u64;
    (part, u64::from(header.size()) + part)
}
