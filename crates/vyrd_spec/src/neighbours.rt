//! The left neighbours of a tree's nodes.

ghost use Rattle.std.specs.Prelude.{◌≡◌, ◌+◌, ◌*◌, ◌<◌, ◌≤◌, true, false, not, map, length};
ghost use Rattle.std.specs.Prelude.{replicate, IfOk, MatchOption, None};
ghost use Rattle.vyrd_base.specs.Tree.{nodes, left_of};
ghost use Rattle.vyrd_spec.specs.Neighbours.{have_one_left, has_left, with_left};

use crate::nodes::{NODE_WORDS, RIGHT};
use std::alloc::{AllocError, Global};

/// The left neighbour of each node in use, and `None` if two right links lead to one node.
pub(crate) fn left_neighbours(
    alloc: Global,
    words: &[u64],
    last: usize,
) -> Result<Option<Vec<Option<usize>>>, AllocError>
    requires few { last < 1024 }
    requires room { 12 * last + 12 ≤ length words.now }
    ensures { IfOk result (λ found. MatchOption found (have_one_left last words.now ≡ false)
        (λ lefts. (have_one_left last words.now ≡ true)
        × (lefts.items ≡ map (left_of last words.now) (nodes last)))) }
{
    let mut lefts = no_lefts(alloc, last + 1)?;
    for node in 0..last + 1 {
        let right = words[NODE_WORDS * node + RIGHT];
        if !put_left(&mut lefts, right, node) {
            return Ok(None);
        }
    }
    Ok(Some(lefts))
}

/// That many nodes, none of which has a left neighbour.
fn no_lefts(alloc: Global, count: usize) -> Result<Vec<Option<usize>>, AllocError>
    ensures { IfOk result (λ lefts. lefts.items ≡ replicate count None) }
{
    vec![in alloc; None; count]
}

/// The node is now the left neighbour of the node on its right, if that is in use. `false` says
/// that it has another one.
fn put_left(lefts: &mut Vec<Option<usize>>, right: u64, node: usize) -> bool
    ensures free { result ≡ not (has_left lefts.old.items right) }
    ensures put { result ≡ true → lefts.new.items ≡ with_left lefts.old.items right node }
{
    if right == 0 || right >= lefts.len() as u64 {
        return true;
    }
    if lefts[right as usize].is_some() {
        return false;
    }
    lefts[right as usize] = Some(node);
    true
}
