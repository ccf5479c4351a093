//! What every comparison of words with a specification offers.

ghost use Rattle.std.specs.Prelude.{◌≡◌, ◌<◌, ◌≤◌, ◌+◌, ℕ, false, length, sum_by, All, OnOk, is_err};
ghost use Rattle.vyrd_base.specs.Amounts.{with_amount, first_difference};
ghost use Rattle.vyrd_view.specs.Comparing.{AgreeElsewhere};
ghost use Rattle.vyrd_view.specs.Known.{Known, Shows, view_by};

use std::alloc::AllocError;
use std::sync::ledger::Ledger;
use vyrd_base::Steps;

/// The words and a specification's amounts, and where they differ. It is told what changes on
/// either side.
///
/// The only error of its calls is that memory has run out. Then the value may only be dropped.
pub trait Compare: Sized + Drop {
    // What it knows.
    ghost known: { Self → Known };

    // The price of a changed word, by the name of what the words show: how many steps it takes at
    // most to look at what the word changes. Neither the room that a part takes once nor the growth
    // of tables is counted.
    ghost price: { Shows → ℕ → ℕ };

    /// These are the words now. Outside `changed` they are those of the last call, or 0 if there
    /// was none; in `changed` a word may stand more than once.
    fn words_changed<L: Ledger>(
        &mut self,
        words: &[u64],
        changed: &[u32],
        steps: &mut Steps<L>,
    ) -> Result<(), AllocError>
        requires sound { (known self.old).refused ≡ false }
        requires count { length words.now ≡ (known self.old).count }
        requires within { All (λ w. w < (known self.old).count) changed.now }
        requires elsewhere { AgreeElsewhere (known self.old).words words.now changed.now }
        ensures ok { OnOk result
            (known self.new ≡ record (known self.old) { words = words.now }) }
        ensures refused { (known self.new).refused ≡ is_err result }
        ensures shows { (known self.new).shows ≡ (known self.old).shows }
        ensures count { (known self.new).count ≡ (known self.old).count }
        ensures steps { steps.new
            ≤ steps.old + sum_by (price (known self.old).shows) changed.now + 2 };

    /// The specification has this amount of the key now; 0 says that the key isn't there.
    fn spec_changed<L: Ledger>(
        &mut self,
        key: u64,
        amount: u64,
        steps: &mut Steps<L>,
    ) -> Result<(), AllocError>
        requires { (known self.old).refused ≡ false }
        ensures ok { OnOk result (known self.new
            ≡ record (known self.old) {
              specified = with_amount (known self.old).specified key amount;
            }) }
        ensures refused { (known self.new).refused ≡ is_err result }
        ensures shows { (known self.new).shows ≡ (known self.old).shows }
        ensures count { (known self.new).count ≡ (known self.old).count }
        ensures steps { steps.new ≤ steps.old + 1 };

    /// The least key at which what the words show and the specification's amounts differ, or none
    /// if they are equal.
    fn first_difference(&self) -> Option<u64>
        requires { (known self.now).refused ≡ false }
        ensures { result
            ≡ first_difference (view_by (known self.now).shows (known self.now).words)
            (known self.now).specified };

    /// Whether memory was refused.
    fn refused(&self) -> bool
        ensures { result ≡ (known self.now).refused };
}
