//! Whether the blocks of a history are reducible.

ghost use Rattle.std.specs.Prelude.{◌≡◌, ℕ, true, IfOk, Ok};
ghost use Rattle.vyrd_base.specs.Histories.{cells_of, is_legal};
ghost use Rattle.vyrd_mover.specs.declared.blocks.Blocks.TheVariants.{Reducible};
ghost use Rattle.vyrd_mover.specs.Blocks.{blocks_of};
ghost use Rattle.vyrd_mover.specs.Gathering.{EachIsGathered};

use crate::blocks::Blocks;
use crate::checker::BlockChecker;
use std::alloc::{AllocError, Global};
use vyrd_base::{Header, Stamped};

/// Whether each block that ends in a legal history is reducible, or which of those that aren't is
/// opened first (Lipton, CACM 1975).
///
/// A block is an `open` with its caller's next block end, `close` or `close commit`. Its events are
/// the reads, writes, takes and gives of its caller between them. It is reducible if takes and
/// accesses of race-free cells come first, then any one event, then gives and accesses of race-free
/// cells. A plain cell is race-free if one caller alone uses it, if nobody writes it, or if some
/// lock is held by every caller that uses it. A block that doesn't end isn't judged and isn't
/// counted.
///
/// If the answer is `Reducible`, each block that ends can be gathered: in some legal history each
/// caller does the same, and all that the block's caller does from its open to its end stands side
/// by side. That a block isn't reducible says nothing of whether it is atomic.
///
/// The only error is that memory ran out. Then nothing is known of the blocks.
///
/// Time and memory are those of a [`BlockChecker`].
pub fn check_blocks(
    alloc: Global,
    header: Header,
    history: &[Stamped],
) -> Result<Blocks, AllocError>
    requires { is_legal (cells_of header) history.now ≡ true }
    ensures blocks { IfOk result (λ blocks. blocks ≡ blocks_of (cells_of header) history.now) }
    ensures gathered { (n : ℕ) → result ≡ Ok (Reducible n)
        → EachIsGathered (cells_of header) history.now }
{
    let mut checker = BlockChecker::new(alloc, header)?;
    for event in history {
        checker.take(event)?;
    }
    checker.answer()
}
