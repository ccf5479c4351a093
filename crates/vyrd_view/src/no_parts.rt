//! Words that show nothing, against the specification.

ghost use Rattle.std.specs.Prelude.{◌≡◌, [], false, replicate, IfOk};
ghost use Rattle.vyrd_view.specs.Known.{nothing};

use crate::compare::Compare;
use crate::parts::Parts;
use crate::words::copy_changed;
use std::alloc::{AllocError, Global};
use std::marker::Model;
use std::sync::ledger::Ledger;
use vyrd_base::Steps;

/// The comparison of a specification without any part, of which the words show nothing: they are
/// equal to it as long as it has nothing to show either. So replies alone are judged by it. A
/// change of the words costs as much as it takes to copy them.
#[derive(Drop)]
pub struct NoParts {
    words: Vec<u64>,
    /// No part at all, beside the specification's amounts.
    parts: Parts,
}

impl Model for NoParts {
    ghost use Rattle.std.specs.Prelude.{◌≡◌, [], false, length};
    ghost use Rattle.vyrd_view.specs.Known.{Known, nothing};

    ghost Value = { Known };

    ghost view = { λ c. record {
      shows = nothing;
      count = length c.words.items;
      words = c.words.items;
      specified = c.parts.specified;
      refused = c.parts.refused;
    } };

    ghost invariant = { λ c. c.parts.refused ≡ false → c.parts.pairs ≡ [] };
}

impl NoParts {
    /// This many words, all 0, against an empty specification. It takes 8 bytes for each.
    pub fn new(alloc: Global, words: usize) -> Result<NoParts, AllocError>
        ensures { IfOk result (λ c. c ≡ record {
          shows = nothing;
          count = words;
          words = replicate words 0;
          specified = [];
          refused = false;
        }) }
    {
        Ok(NoParts {
            words: vec![in alloc; 0; words]?,
            parts: Parts::new(alloc, Vec::new(alloc), 0)?,
        })
    }
}

impl Compare for NoParts {
    ghost known = { λ c. c };

    ghost price = { λ shows word. 1 };

    fn words_changed<L: Ledger>(
        &mut self,
        words: &[u64],
        changed: &[u32],
        steps: &mut Steps<L>,
    ) -> Result<(), AllocError> {
        steps.add(changed.len());
        copy_changed(&mut self.words, words, changed);
        Ok(())
    }

    fn spec_changed<L: Ledger>(
        &mut self,
        key: u64,
        amount: u64,
        steps: &mut Steps<L>,
    ) -> Result<(), AllocError> {
        self.parts.specify(key, amount, steps)
    }

    fn first_difference(&self) -> Option<u64> {
        self.parts.first_difference()
    }

    fn refused(&self) -> bool {
        self.parts.refused()
    }
}
