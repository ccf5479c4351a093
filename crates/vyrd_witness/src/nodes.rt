//! What the nodes of a tree give to a key, along the chain of its leaves.

ghost use Rattle.std.specs.Prelude.{◌≡◌, ◌++◌, ◌+◌, ◌*◌, ◌==◌, ◌<◌, ◌≤◌, ◌^◌, ◌&&◌, not, []};
ghost use Rattle.std.specs.Prelude.{length, slice_index_or, true, OnOk, if◌then◌else◌};
ghost use Rattle.vyrd_base.specs.Amounts.{given};
ghost use Rattle.vyrd_base.specs.Tree.{right_of, entry_parts, node_parts, damage};
ghost use Rattle.vyrd_witness.specs.Given.{chain_from, given_parts};

use crate::given::given_by_pair;
use crate::parts::put_given;
use std::alloc::{AllocError, Global};

/// How many words a node has: level, count, bound and right, then four keys, then four values.
const NODE_WORDS: usize = 12;

/// Where a node has the count of its entries.
const COUNT: usize = 1;

/// Where a node has the node on its right.
const RIGHT: usize = 3;

/// Where a node has its keys.
const KEYS: usize = 4;

/// Where a node has its values.
const VALUES: usize = 8;

/// How many entries a node has room for.
const MOST_ENTRIES: u64 = 4;

/// What is added to a value, so that the amount of a key that is there is never 0. Keys and values
/// are below it.
const PRESENT: u64 = 1 << 32;

/// The key that stands for damage. It is above all others.
const DAMAGE: u64 = 1 << 33;

/// Puts the nodes of the chain that give something to the key at the end, in the order of the
/// chain. It takes time in proportion to the chain, and a mark for each node of the tree.
pub(crate) fn put_nodes(
    alloc: Global,
    size: usize,
    words: &[u64],
    key: u64,
    parts: &mut Vec<(usize, u128)>,
) -> Result<(), AllocError>
    requires some { 0 < size }
    requires count { length words.now ≡ 12 * size + 2 }
    ensures { OnOk result (parts.new.items ≡ parts.old.items
        ++ given_parts key (chain_from size words.now size [] 0)) }
{
    let mut seen = vec![in alloc; false; size]?;
    let mut node = 0;
    for _turn in 0..size {
        seen[node] = true;
        let right = words[NODE_WORDS * node + RIGHT];
        let ends = right == 0;
        let back = is_seen(&seen, right);
        let link = given_by_link(ends, back, key);
        put_given(node, given_by_node(words, node, key) + link, parts)?;
        if ends || back {
            return Ok(());
        }
        node = right as usize;
    }
    Ok(())
}

/// Whether the node was seen. One past the nodes counts as seen.
fn is_seen(seen: &[bool], node: u64) -> bool
    ensures { result ≡ slice_index_or seen.now node true }
{
    seen.get(node as usize).copied().unwrap_or(true)
}

/// What a right link gives to the key, by whether it ends the chain, and whether it leads past the
/// nodes or back to the chain.
fn given_by_link(ends: bool, back: bool, key: u64) -> u128
    ensures given { result ≡ given key (if not ends && back then damage else []) }
    ensures low { result ≤ 1 }
{
    if !ends && back {
        given_by_pair(DAMAGE, 1, key)
    } else {
        0
    }
}

/// What the entries of a node give to the key.
fn given_by_node(words: &[u64], node: usize, key: u64) -> u128
    requires { 12 * node + 11 < length words.now }
    ensures given { result ≡ given key (node_parts words.now node) }
    ensures low { result ≤ 2 ^ 35 }
{
    let first = NODE_WORDS * node;
    let count = words[first + COUNT].min(MOST_ENTRIES) as usize;
    let mut amount = 0;
    for j in 0..count {
        amount += given_by_entry(words[first + KEYS + j], words[first + VALUES + j], key);
    }
    amount
}

/// What an entry gives to the key.
fn given_by_entry(own: u64, value: u64, key: u64) -> u128
    ensures given { result ≡ given key (entry_parts (own, value)) }
    ensures low { result ≤ 2 ^ 33 }
{
    if own < PRESENT && value < PRESENT {
        given_by_pair(own, u128::from(PRESENT + value), key)
    } else {
        given_by_pair(DAMAGE, 1, key)
    }
}
