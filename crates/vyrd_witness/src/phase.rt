//! What a caller is in the middle of.

ghost use Rattle.std.specs.Prelude.{◌≡◌};
ghost use Rattle.vyrd_witness.specs.Phases.{phase_after};

use vyrd_base::Kind;

/// What is kept of a caller.
#[derive(Clone, Copy)]
pub struct Phase {
    /// Whether a block of it is open.
    pub in_block: bool,
    /// Whether a lone commit stands in that block.
    pub has_commit: bool,
}

/// The phase of an entry's caller after the entry.
pub(crate) fn phase_after(kind: Kind, phase: Phase) -> Phase
    ensures { result ≡ phase_after kind phase }
{
    match kind {
        Kind::Commit => Phase {
            in_block: phase.in_block,
            has_commit: phase.in_block,
        },
        Kind::BlockOpen => Phase {
            in_block: true,
            has_commit: false,
        },
        Kind::BlockClose | Kind::BlockCommit => Phase {
            in_block: false,
            has_commit: false,
        },
        _ => phase,
    }
}
