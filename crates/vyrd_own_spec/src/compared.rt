//! The words of a log against a specification of the user's own.

ghost use Rattle.std.specs.Prelude.{◌≡◌};

use crate::parts::OwnParts;
use std::alloc::AllocError;
use std::sync::ledger::Ledger;
use vyrd_base::Steps;
use vyrd_view::{ByParts, Compare};

/// The words, by the parts of a specification, and a specification's amounts, and where they differ.
#[derive(Drop)]
pub struct OwnCompared {
    inside: ByParts<OwnParts>,
}

impl OwnCompared {
    /// The same as that comparison by parts.
    pub(crate) fn new(inside: ByParts<OwnParts>) -> OwnCompared
        ensures { result.inside ≡ inside }
    {
        OwnCompared { inside }
    }
}

impl Compare for OwnCompared {
    ghost use Rattle.std.specs.Prelude.{◌+◌, ◌*◌};

    ghost known = { λ c. c.inside };

    // A part has 4 places at most.
    ghost price = { λ shows word. 1 + 2 * 4 };

    fn words_changed<L: Ledger>(
        &mut self,
        words: &[u64],
        changed: &[u32],
        steps: &mut Steps<L>,
    ) -> Result<(), AllocError> {
        Compare::words_changed(&mut self.inside, words, changed, steps)
    }

    fn spec_changed<L: Ledger>(
        &mut self,
        key: u64,
        amount: u64,
        steps: &mut Steps<L>,
    ) -> Result<(), AllocError> {
        Compare::spec_changed(&mut self.inside, key, amount, steps)
    }

    #[inline(always)]
    fn first_difference(&self) -> Option<u64> {
        self.inside.first_difference()
    }

    fn refused(&self) -> bool {
        self.inside.refused()
    }
}
