//! The words of a tree: whether they stand for a state.

ghost use Rattle.std.specs.Prelude.{◌≡◌, ◌+◌, ◌*◌, ◌≤◌, length, IfOk};
ghost use Rattle.vyrd_base.specs.Tree.{is_tree};

use crate::nodes::{NODE_WORDS, Nodes};
use std::alloc::{AllocError, Global};

/// Whether the words are those of a tree. It takes memory for each node in use, and time in
/// proportion to the square of their number.
pub(crate) fn is_tree(alloc: Global, size: usize, words: &[u64]) -> Result<bool, AllocError>
    requires count { length words.now ≡ 12 * size + 2 }
    requires few { size ≤ 1024 }
    ensures { IfOk result (λ sound. sound ≡ is_tree size words.now) }
{
    let root = words[NODE_WORDS * size];
    let last = words[NODE_WORDS * size + 1];
    if last >= size as u64 || root > last {
        return Ok(false);
    }
    match Nodes::new(alloc, words, last as usize)? {
        Some(nodes) => Ok(nodes.are_tree(root as usize)),
        None => Ok(false),
    }
}
