//! The nodes on the chain of a tree's leaves.

ghost use Rattle.std.specs.Prelude.{◌≡◌, ℕ, ◌+◌, ◌*◌, ◌<◌, length, true, false, replicate};
ghost use Rattle.std.specs.Prelude.{slice_index_or, IfOk};
ghost use Rattle.vyrd_view.specs.Chains.{is_on_chain};

use crate::node::{NODE_WORDS, RIGHT};
use std::alloc::{AllocError, Global};

/// For each node whether it is on the chain of leaves.
pub(crate) fn leaves(alloc: Global, size: usize, words: &[u64]) -> Result<Vec<bool>, AllocError>
    requires some { 0 < size }
    requires count { length words.now ≡ 12 * size + 2 }
    ensures count { IfOk result (λ marks. length marks.items ≡ size) }
    ensures marks { IfOk result (λ marks. (n : ℕ) → n < size
        → slice_index_or marks.items n false ≡ is_on_chain size words.now n) }
{
    let mut marks = vec![in alloc; false; size]?;
    mark(&mut marks, words);
    Ok(marks)
}

/// Marks the nodes on the chain of leaves. None is marked yet.
fn mark(marks: &mut [bool], words: &[u64])
    requires some { 0 < length marks.old }
    requires none { marks.old ≡ replicate (length marks.old) false }
    requires count { length words.now ≡ 12 * length marks.old + 2 }
    ensures count { length marks.new ≡ length marks.old }
    ensures marks { (n : ℕ) → n < length marks.old
        → slice_index_or marks.new n false ≡ is_on_chain (length marks.old) words.now n }
{
    let mut node = 0;
    for _turn in 0..marks.len() {
        marks[node] = true;
        let right = words[NODE_WORDS * node + RIGHT];
        if right == 0 {
            return;
        }
        if is_seen(marks, right) {
            return;
        }
        node = right as usize;
    }
}

/// Whether the node was seen. One past the nodes counts as seen.
fn is_seen(marks: &[bool], node: u64) -> bool
    ensures { result ≡ slice_index_or marks.now node true }
{
    marks.get(node as usize).copied().unwrap_or(true)
}

/// Whether the node is marked. One past the nodes isn't.
pub(crate) fn is_marked(marks: &[bool], node: usize) -> bool
    ensures { result ≡ slice_index_or marks.now node false }
{
    marks.get(node).copied().unwrap_or(false)
}
