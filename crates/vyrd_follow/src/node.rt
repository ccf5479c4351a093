//! What a node of a tree gives to a key, and to which keys.

ghost use Rattle.std.specs.Prelude.{◌≡◌, ◌≢◌, ◌≤◌, ◌<◌, ◌+◌, ◌*◌, ◌^◌, ℕ, length, slice_set};
ghost use Rattle.std.specs.Prelude.{slice_index, IfOk};
ghost use Rattle.vyrd_base.specs.Amounts.{amount_of, part_given};
ghost use Rattle.vyrd_base.specs.Tree.{node_word};
ghost use Rattle.vyrd_view.specs.Chains.{entry_pair};
ghost use Rattle.vyrd_follow.specs.Nodes.{node_given};

use std::alloc::{AllocError, Global};
use vyrd_base::{AmountMap, View};

/// How many words a node has: level, count, bound and right, then four keys, then four values.
pub(crate) const NODE_WORDS: usize = 12;

/// Where a node has the count of its entries.
const COUNT: usize = 1;

/// Where a node has the node on its right.
pub(crate) const RIGHT: usize = 3;

/// Where a node has its keys.
const KEYS: usize = 4;

/// Where a node has its values.
const VALUES: usize = 8;

/// How many entries a node has room for.
const ENTRIES: usize = 4;

/// What is added to a value, so that the amount of a key that is there is never 0. Keys and values
/// are below it.
const PRESENT: u64 = 1 << 32;

/// The key that stands for damage. It is above all others.
const DAMAGE: u64 = 1 << 33;

/// What the entries of a node give to the key, if the word has this value.
pub(crate) fn given_by(words: &[u64], word: usize, value: u64, node: usize, key: u64) -> u64
    requires within { 12 * node + 11 < length words.now }
    ensures given { result ≡ node_given key (slice_set words.now word value) node }
    ensures most { result ≤ 2 ^ 35 }
{
    given_to(key, entry(words, word, value, node, 0))
        + given_to(key, entry(words, word, value, node, 1))
        + given_to(key, entry(words, word, value, node, 2))
        + given_to(key, entry(words, word, value, node, 3))
}

/// What a pair gives to the key.
fn given_to(key: u64, pair: (u64, u64)) -> u64
    ensures given { result ≡ part_given key pair }
    ensures most { result ≤ pair.1 }
{
    if key == pair.0 { pair.1 } else { 0 }
}

/// What an entry of a node gives, if the word has this value.
fn entry(words: &[u64], word: usize, value: u64, node: usize, j: usize) -> (u64, u64)
    requires within { 12 * node + 11 < length words.now }
    requires place { j < 4 }
    ensures pair { result ≡ entry_pair (slice_set words.now word value) node j }
    ensures most { result.1 ≤ 2 ^ 33 }
{
    let first = NODE_WORDS * node;
    if j as u64 >= word_with(words, word, value, first + COUNT) {
        return (0, 0);
    }
    let key = word_with(words, word, value, first + KEYS + j);
    let held = word_with(words, word, value, first + VALUES + j);
    if key < PRESENT && held < PRESENT {
        (key, PRESENT + held)
    } else {
        (DAMAGE, 1)
    }
}

/// A word, if the other one has this value.
fn word_with(words: &[u64], word: usize, value: u64, at: usize) -> u64
    requires { at < length words.now }
    ensures { result ≡ slice_index (slice_set words.now word value) at }
{
    if at == word { value } else { words[at] }
}

/// The keys that the node gives to, or gave to when one of its words had this value, and others.
pub(crate) fn node_keys(
    alloc: Global,
    words: &[u64],
    node: usize,
    was: u64,
) -> Result<View, AllocError>
    requires { 12 * node + 11 < length words.now }
    ensures was { IfOk result (λ keys. amount_of keys was ≢ 0) }
    ensures damage { IfOk result (λ keys. amount_of keys (2 ^ 33) ≢ 0) }
    ensures entries { IfOk result (λ keys. (j : ℕ) → j < 4
        → amount_of keys (node_word words.now node (4 + j)) ≢ 0) }
{
    let mut keys = AmountMap::new(alloc);
    for j in 0..ENTRIES {
        keys.set(words[NODE_WORDS * node + KEYS + j], 1)?;
    }
    keys.set(was, 1)?;
    keys.set(DAMAGE, 1)?;
    keys.view(alloc)
}
