//! The words against the specification, change by change.

ghost use Rattle.std.specs.Prelude.{◌≡◌, ◌+◌, ◌*◌, ◌<◌, ◌≤◌, [], true, false, length, replicate, All};
ghost use Rattle.std.specs.Prelude.{IfOk, OnOk, is_err};
ghost use Rattle.vyrd_base.specs.Amounts.{with_amount, first_difference};
ghost use Rattle.vyrd_base.specs.Layout.{plain_words};
ghost use Rattle.vyrd_base.specs.Subjects.{is_built_in};
ghost use Rattle.vyrd_base.specs.Views.{view_of_words};
ghost use Rattle.vyrd_view.specs.Comparing.{AgreeElsewhere, keys_of_part, parts_looked_at};

use crate::any_parts::AnyParts;
use crate::compare::Compare;
use std::alloc::{AllocError, Global};
use std::marker::Model;
use std::sync::ledger::Ledger;
use vyrd_base::{Header, Steps};

/// The words and the specification's amounts, and where they differ. It is told what changes on
/// either side, and looks at nothing beyond that: a changed word costs its part, so at most nine
/// steps, and a changed amount costs one step. If a right link of a tree leads to another node than
/// at the last comparison, the chain of leaves is walked again.
#[derive(Drop)]
pub struct Compared {
    header: Header,
    parts: AnyParts,
}

impl Model for Compared {
    ghost use Rattle.vyrd_view.specs.Comparing.{Comparison};
    ghost use Rattle.vyrd_view.specs.Subjects.{Serves, known_of_any};

    ghost Value = { Comparison };

    ghost view = { λ c. record {
      header = c.header;
      words = (known_of_any c.parts).words;
      specified = (known_of_any c.parts).specified;
      refused = (known_of_any c.parts).refused;
    } };

    ghost invariant = { λ c. Serves c.header c.parts };
}

impl Compared {
    /// Zeroed words of a built-in subject against an empty specification. At first it takes little
    /// memory, except for a tree, and then as words change and keys come. In all that is 8 bytes
    /// for each word at most, and 64 to 112 for each key that a part may give.
    pub fn new(alloc: Global, header: Header) -> Result<Compared, AllocError>
        requires built_in { is_built_in header.subject ≡ true }
        ensures { IfOk result (λ c. c ≡ record {
          header = header;
          words = replicate (plain_words header) 0;
          specified = [];
          refused = false;
        }) }
    {
        Ok(Compared {
            header,
            parts: AnyParts::new(alloc, header)?,
        })
    }

    /// These are the words now. Outside `changed` they are those of the last call, or 0 if there
    /// was none; in `changed` a word may stand more than once. Once memory was refused the value
    /// may only be dropped.
    pub fn words_changed<L: Ledger>(
        &mut self,
        words: &[u64],
        changed: &[u32],
        steps: &mut Steps<L>,
    ) -> Result<(), AllocError>
        requires sound { self.old.refused ≡ false }
        requires count { length words.now ≡ plain_words self.old.header }
        requires within { All (λ w. w < plain_words self.old.header) changed.now }
        requires elsewhere { AgreeElsewhere self.old.words words.now changed.now }
        ensures ok { OnOk result (self.new ≡ record self.old { words = words.now }) }
        ensures refused { self.new.refused ≡ is_err result }
        ensures header { self.new.header ≡ self.old.header }
        ensures steps { steps.new ≤ steps.old
            + parts_looked_at self.old.header.subject self.old.header.size self.old.words words.now
            changed.now
            * (1 + 2 * keys_of_part self.old.header.subject)
            + 2 }
    {
        self.parts.words_changed(words, changed, steps)
    }

    /// The specification has this amount of the key now; 0 says that the key isn't there. Once
    /// memory was refused the value may only be dropped.
    pub fn spec_changed<L: Ledger>(
        &mut self,
        key: u64,
        amount: u64,
        steps: &mut Steps<L>,
    ) -> Result<(), AllocError>
        requires { self.old.refused ≡ false }
        ensures ok { OnOk result
            (self.new ≡ record self.old { specified = with_amount self.old.specified key amount }) }
        ensures refused { self.new.refused ≡ is_err result }
        ensures header { self.new.header ≡ self.old.header }
        ensures steps { steps.new ≤ steps.old + 1 }
    {
        self.parts.spec_changed(key, amount, steps)
    }

    /// The least key at which the words and the specification differ, or none if they are equal. If
    /// they are equal, it takes constant time. Otherwise it goes through all keys, and takes no
    /// memory.
    #[inline(always)]
    #[tactic(auto, unfolding(vyrd_base::specs::Views::view_of_words))]
    pub fn first_difference(&self) -> Option<u64>
        requires { self.now.refused ≡ false }
        ensures { result
            ≡ first_difference (view_of_words self.now.header self.now.words) self.now.specified }
    {
        self.parts.first_difference()
    }

    /// Whether memory was refused. Then the value may only be dropped.
    pub fn refused(&self) -> bool
        ensures { result ≡ self.now.refused }
    {
        self.parts.refused()
    }
}

impl Compare for Compared {
    ghost use Rattle.vyrd_view.specs.Comparing.{known_of, price_by};

    ghost known = { known_of };

    ghost price = { price_by };

    fn words_changed<L: Ledger>(
        &mut self,
        words: &[u64],
        changed: &[u32],
        steps: &mut Steps<L>,
    ) -> Result<(), AllocError> {
        self.words_changed(words, changed, steps)
    }

    fn spec_changed<L: Ledger>(
        &mut self,
        key: u64,
        amount: u64,
        steps: &mut Steps<L>,
    ) -> Result<(), AllocError> {
        self.spec_changed(key, amount, steps)
    }

    #[inline(always)]
    fn first_difference(&self) -> Option<u64> {
        self.first_difference()
    }

    fn refused(&self) -> bool {
        self.refused()
    }
}
