//! The cells of the tree as a whole. Those of a node are in `node`.

ghost use Rattle.std.specs.Prelude.{◌≡◌};
ghost use Rattle.vyrd_tree.specs.Cells.{root_cell, used_cell, root_lock, used_lock};

use vyrd_base::Header;

/// How many words a node has.
pub(crate) const NODE_WORDS: u32 = 12;

/// The cell of the root's number.
#[tactic(auto, using(vyrd_base::proofs::HeaderLaws::most_size))]
pub(crate) fn root_cell(header: &Header) -> u32
    ensures { result ≡ root_cell header.now }
{
    NODE_WORDS * header.size()
}

/// The cell that counts the nodes in use besides node 0.
#[tactic(auto, using(vyrd_base::proofs::HeaderLaws::most_size))]
pub(crate) fn used_cell(header: &Header) -> u32
    ensures { result ≡ used_cell header.now }
{
    NODE_WORDS * header.size() + 1
}

/// The cell of the lock of the root's number.
#[tactic(auto, using(vyrd_base::proofs::HeaderLaws::most_size))]
pub(crate) fn root_lock(header: &Header) -> u32
    ensures { result ≡ root_lock header.now }
{
    (NODE_WORDS + 1) * header.size() + 2
}

/// The cell of the lock of the count of nodes in use.
#[tactic(auto, using(vyrd_base::proofs::HeaderLaws::most_size))]
pub(crate) fn used_lock(header: &Header) -> u32
    ensures { result ≡ used_lock header.now }
{
    (NODE_WORDS + 1) * header.size() + 3
}
