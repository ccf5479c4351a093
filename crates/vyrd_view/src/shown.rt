//! What words show.

ghost use Rattle.std.specs.Prelude.{◌≡◌, length, true, IfOk};
ghost use Rattle.vyrd_base.specs.Layout.{plain_words};
ghost use Rattle.vyrd_base.specs.Subjects.{is_built_in};
ghost use Rattle.vyrd_base.specs.Views.{view_of_words};

use crate::buffers::Buffers;
use crate::chain::chain;
use crate::chunks::Chunks;
use crate::decoded::collect;
use crate::slots::Slots;
use std::alloc::{AllocError, Global};
use vyrd_base::{AmountMap, Header, Subject, View};

/// What the plain words of a built-in subject show. The time is in proportion to the words, times the
/// logarithm of the keys that they show, and the memory is in proportion to those keys. A tree's
/// chain needs a flag for each node as well.
pub fn view_of(alloc: Global, header: Header, words: &[u64]) -> Result<View, AllocError>
    requires built_in { is_built_in header.subject ≡ true }
    requires count { length words.now ≡ plain_words header }
    ensures { IfOk result (λ v. v ≡ view_of_words header words.now) }
{
    gathered(alloc, header, words)?.view(alloc)
}

/// The same, still to be listed.
#[tactic(auto, unfolding(vyrd_base::specs::Views::view_of_words))]
fn gathered(alloc: Global, header: Header, words: &[u64]) -> Result<AmountMap, AllocError>
    requires built_in { is_built_in header.subject ≡ true }
    requires count { length words.now ≡ plain_words header }
    ensures { IfOk result (λ sums. sums ≡ view_of_words header words.now) }
{
    let size = header.size() as usize;
    match header.subject() {
        Subject::Multiset => collect(alloc, &Slots::new(size), words),
        Subject::Cache => collect(alloc, &Chunks::new(size), words),
        Subject::Tree => chain(alloc, size, words),
        Subject::Buffers => collect(alloc, &Buffers::new(size), words),
        Subject::Own => unreachable!(),
    }
}
