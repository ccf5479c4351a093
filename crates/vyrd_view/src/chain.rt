//! What the chain of a tree's leaves shows.

ghost use Rattle.std.specs.Prelude.{◌≡◌, ◌+◌, ◌*◌, ◌<◌, ◌≤◌, ◌^◌, ℕ, true, length, slice_index_or};
ghost use Rattle.std.specs.Prelude.{IfOk, OnOk};
ghost use Rattle.vyrd_base.specs.declared.subject.Subject.TheVariants.{Tree};
ghost use Rattle.vyrd_base.specs.Amounts.{amount_of, collected};
ghost use Rattle.vyrd_base.specs.Tree.{entry_parts, node_parts};
ghost use Rattle.vyrd_base.specs.Views.{parts_of};
ghost use Rattle.vyrd_base.specs.Added.{added};

use std::alloc::{AllocError, Global};
use vyrd_base::AmountMap;

/// How many words a node has: level, count, bound and right, then four keys, then four values.
const NODE_WORDS: usize = 12;

/// Where a node has the count of its entries.
const COUNT: usize = 1;

/// Where a node has the node on its right.
const RIGHT: usize = 3;

/// Where a node has its keys.
const KEYS: usize = 4;

/// Where a node has its values.
const VALUES: usize = 8;

/// How many entries a node has room for.
const MOST_ENTRIES: u64 = 4;

/// What is added to a value, so that the amount of a key that is there is never 0. Keys and values
/// are below it.
const PRESENT: u64 = 1 << 32;

/// The key that stands for damage. It is above all others.
const DAMAGE: u64 = 1 << 33;

/// What the leaves show, from node 0 on along the right links. A link past the nodes or back to the
/// chain is damage, and ends it.
pub(crate) fn chain(alloc: Global, size: usize, words: &[u64]) -> Result<AmountMap, AllocError>
    requires count { length words.now ≡ 12 * size + 2 }
    requires some { 0 < size }
    requires small { size ≤ 1024 }
    ensures { IfOk result (λ sums. sums ≡ collected (parts_of Tree size words.now)) }
{
    let mut sums = AmountMap::new(alloc);
    let mut seen = vec![in alloc; false; size]?;
    let mut node = 0;
    for _turn in 0..size {
        add_node(&mut sums, words, node)?;
        seen[node] = true;
        let right = words[NODE_WORDS * node + RIGHT];
        if right == 0 {
            return Ok(sums);
        }
        if is_seen(&seen, right) {
            sums.add(DAMAGE, 1)?;
            return Ok(sums);
        }
        node = right as usize;
    }
    Ok(sums)
}

/// Whether the node was seen. One past the nodes counts as seen.
pub(crate) fn is_seen(seen: &[bool], node: u64) -> bool
    ensures { result ≡ slice_index_or seen.now node true }
{
    seen.get(node as usize).copied().unwrap_or(true)
}

/// Adds what the entries of one node give.
fn add_node(sums: &mut AmountMap, words: &[u64], node: usize) -> Result<(), AllocError>
    requires within { 12 * node + 11 < length words.now }
    requires few { (key : ℕ) → amount_of sums.old key ≤ 2 ^ 62 }
    ensures { OnOk result (sums.new ≡ added sums.old (node_parts words.now node)) }
{
    let first = NODE_WORDS * node;
    let count = words[first + COUNT].min(MOST_ENTRIES) as usize;
    for j in 0..count {
        add_entry(sums, words[first + KEYS + j], words[first + VALUES + j])?;
    }
    Ok(())
}

/// Adds what one entry gives.
fn add_entry(sums: &mut AmountMap, key: u64, value: u64) -> Result<(), AllocError>
    requires few { (key : ℕ) → amount_of sums.old key ≤ 2 ^ 63 }
    ensures { OnOk result (sums.new ≡ added sums.old (entry_parts (key, value))) }
{
    if key < PRESENT && value < PRESENT {
        sums.add(key, PRESENT + value)
    } else {
        sums.add(DAMAGE, 1)
    }
}
