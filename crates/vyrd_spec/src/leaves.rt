//! What the leaves of a tree's words have.

ghost use Rattle.std.specs.Prelude.{◌≡◌, ◌+◌, ◌*◌, ◌<◌, ◌≤◌, ◌^◌, ℕ, true, length, IfOk, OnOk};
ghost use Rattle.std.specs.List.{list_all};
ghost use Rattle.vyrd_base.specs.declared.subject.Subject.TheVariants.{Tree};
ghost use Rattle.vyrd_base.specs.Added.{added};
ghost use Rattle.vyrd_base.specs.Amounts.{amount_of, collected};
ghost use Rattle.vyrd_base.specs.Tree.{entries_of, entry_parts, node_parts};
ghost use Rattle.vyrd_base.specs.Tree.{is_leaf_entry, is_tree};
ghost use Rattle.vyrd_base.specs.Views.{parts_of};
ghost use Rattle.vyrd_spec.specs.Bounds.{AllAmounts};

use crate::nodes::{COUNT, KEYS, MOST_ENTRIES, NODE_WORDS, NUMBER_END, RIGHT, VALUES};
use std::alloc::{AllocError, Global};
use vyrd_table::AmountTable;

/// The amounts of the keys in the leaves, from node 0 on along the right links.
pub(crate) fn values(alloc: Global, size: usize, words: &[u64]) -> Result<AmountTable, AllocError>
    requires count { length words.now ≡ 12 * size + 2 }
    requires few { size ≤ 1024 }
    requires tree { is_tree size words.now ≡ true }
    ensures values { IfOk result (λ values. values ≡ collected (parts_of Tree size words.now)) }
    ensures small { IfOk result (λ values.
        AllAmounts (λ key amount. (key < 2 ^ 32) × (2 ^ 32 ≤ amount) × (amount < 2 ^ 64)) values) }
{
    let mut values = AmountTable::new(alloc, 4 * size)?;
    let mut leaf = 0;
    for _turn in 0..size {
        add_leaf(&mut values, words, leaf)?;
        let right = words[NODE_WORDS * leaf + RIGHT];
        if right == 0 {
            return Ok(values);
        }
        leaf = right as usize;
    }
    Ok(values)
}

/// Adds the amounts of one leaf's keys.
fn add_leaf(values: &mut AmountTable, words: &[u64], leaf: usize) -> Result<(), AllocError>
    requires within { 12 * leaf + 12 ≤ length words.now }
    requires sound { list_all is_leaf_entry (entries_of words.now leaf) ≡ true }
    requires few { (key : ℕ) → amount_of values.old key ≤ 2 ^ 62 }
    ensures { OnOk result (values.new ≡ added values.old (node_parts words.now leaf)) }
{
    let first = NODE_WORDS * leaf;
    let count = words[first + COUNT].min(MOST_ENTRIES) as usize;
    for place in 0..count {
        add_entry(
            values,
            words[first + KEYS + place],
            words[first + VALUES + place],
        )?;
    }
    Ok(())
}

/// Adds the amount of one key, which is 2^32 plus its value.
fn add_entry(values: &mut AmountTable, key: u64, value: u64) -> Result<(), AllocError>
    requires sound { is_leaf_entry (key, value) ≡ true }
    requires few { amount_of values.old key ≤ 2 ^ 63 }
    ensures { OnOk result (values.new ≡ added values.old (entry_parts (key, value))) }
{
    values.add(key, NUMBER_END + value)
}
