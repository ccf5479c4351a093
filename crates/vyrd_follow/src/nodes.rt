//! What a write to a tree's word changes of what its words show, unless it is a right link.

ghost use Rattle.std.specs.Prelude.{◌≡◌, ◌≢◌, ◌<◌, ◌/◌, ◌%◌, true, length, slice_set, IfOk};
ghost use Rattle.vyrd_base.specs.declared.subject.Subject.TheVariants.{Tree};
ghost use Rattle.vyrd_base.specs.Amounts.{amount_of};
ghost use Rattle.vyrd_base.specs.Layout.{plain_words};
ghost use Rattle.vyrd_base.specs.Views.{view_of_words};
ghost use Rattle.vyrd_view.specs.Chains.{is_on_chain};
ghost use Rattle.vyrd_follow.specs.Turns.{turns};

use crate::leaves::{is_marked, leaves};
use crate::node::{NODE_WORDS, given_by, node_keys};
use std::alloc::{AllocError, Global};
use vyrd_base::{AmountMap, Header};

/// Each key of which the words of a tree show another amount, with that, after one of them got its
/// value, which is no right link, given what they showed before, when that word had this other
/// value. The least key comes first. Only a node on the chain of leaves shows something: it takes
/// a walk of that chain, and then constant time.
pub(crate) fn node_turns(
    alloc: Global,
    header: Header,
    words: &[u64],
    word: usize,
    was: u64,
    shown: &AmountMap,
) -> Result<Vec<(u64, u64)>, AllocError>
    requires tree { header.subject ≡ Tree }
    requires count { length words.now ≡ plain_words header }
    requires within { word < length words.now }
    requires unlinked { word % 12 ≢ 3 }
    requires shown { shown.now ≡ view_of_words header (slice_set words.now word was) }
    ensures { IfOk result
        (λ found. found.items ≡ turns shown.now (view_of_words header words.now)) }
{
    let node = word / NODE_WORDS;
    let marks = leaves(alloc, header.size() as usize, words)?;
    if !is_marked(&marks, node) {
        return Ok(Vec::new(alloc));
    }
    let keys = node_keys(alloc, words, node, was)?;
    let mut found = Vec::new(alloc);
    for (key, _) in keys.pairs() {
        let before = shown.amount(*key);
        let after = amount_after(header, words, word, was, *key, before);
        if before != after {
            found.push((*key, after))?;
        }
    }
    Ok(found)
}

/// What the words show of the key after a word of a node on the chain of leaves got its value:
/// what its node gave to the key gives way to what it gives now.
fn amount_after(header: Header, words: &[u64], word: usize, was: u64, key: u64, before: u64) -> u64
    requires tree { header.subject ≡ Tree }
    requires count { length words.now ≡ plain_words header }
    requires within { word / 12 < header.size }
    requires unlinked { word % 12 ≢ 3 }
    requires on { is_on_chain header.size words.now (word / 12) ≡ true }
    requires before { before ≡ amount_of (view_of_words header (slice_set words.now word was)) key }
    ensures { result ≡ amount_of (view_of_words header words.now) key }
{
    let node = word / NODE_WORDS;
    let gave = given_by(words, word, was, node, key);
    let gives = given_by(words, word, words[word], node, key);
    before + gives - gave
}
