//! The amounts that a step sets.

ghost use Rattle.std.specs.Prelude.{◌≡◌, ◌+◌, ◌<◌, ◌≤◌, [], ◌∷◌, length, OnOk, OnErr, IfOk};
ghost use Rattle.std.specs.List.{list_any};
ghost use Rattle.vyrd_base.specs.Amounts.{IsAmounts};
ghost use Rattle.vyrd_base.specs.Own.Steps.{hidden_with, is_clearing};
ghost use Rattle.vyrd_own.specs.Prices.{sets_price};
ghost use Rattle.vyrd_own.specs.Sets.{shown_after, hidden_after};

use crate::shown::ShownAmounts;
use crate::store::{add_all, put, take_back};
use std::alloc::{AllocError, Global};
use std::sync::ledger::Ledger;
use vyrd_base::{Effect, Steps};
use vyrd_table::AmountTable;

/// The amounts that a step sets, and room for what it does on the way.
#[derive(Drop)]
pub struct Updates {
    shown: Vec<(u64, u64)>,
    hidden: Vec<(u64, u64)>,
    added: Vec<u64>,
    also_added: Vec<u64>,
}

impl Updates {
    /// None, which takes no memory yet.
    pub(crate) fn new(alloc: Global) -> Updates {
        Updates {
            shown: Vec::new(alloc),
            hidden: Vec::new(alloc),
            added: Vec::new(alloc),
            also_added: Vec::new(alloc),
        }
    }

    /// Takes those of the effects, and says whether all that is shown is cleared before.
    pub(crate) fn gather<L: Ledger>(
        &mut self,
        effects: &[Effect],
        steps: &mut Steps<L>,
    ) -> Result<bool, AllocError>
        ensures clears { IfOk result (λ clears. clears ≡ list_any is_clearing effects.now) }
        ensures shown { OnOk result (self.new.shown.items ≡ shown_after [] effects.now) }
        ensures hidden { OnOk result (self.new.hidden.items ≡ hidden_after [] effects.now) }
        ensures steps { steps.new ≤ steps.old + length effects.now }
    {
        self.shown.clear();
        self.hidden.clear();
        let mut clears = false;
        for effect in effects {
            steps.tick();
            clears = self.gather_one(*effect)? || clears;
        }
        Ok(clears)
    }

    /// Takes that of an effect, and says whether it clears.
    #[inline(always)]
    fn gather_one(&mut self, effect: Effect) -> Result<bool, AllocError>
        ensures clears { IfOk result (λ clears. clears ≡ is_clearing effect) }
        ensures shown { OnOk result
            (self.new.shown.items ≡ shown_after self.old.shown.items (effect ∷ [])) }
        ensures hidden { OnOk result
            (self.new.hidden.items ≡ hidden_after self.old.hidden.items (effect ∷ [])) }
    {
        match effect {
            Effect::SetShown(key, amount) => self.shown.push((key, amount))?,
            Effect::SetHidden(key, amount) => self.hidden.push((key, amount))?,
            Effect::EmptyShown => {
                self.shown.clear();
                return Ok(true);
            }
            _ => {}
        }
        Ok(false)
    }

    /// Sets the shown and the hidden amounts, all of them or none.
    pub(crate) fn put<L: Ledger>(
        &mut self,
        shown: &mut ShownAmounts,
        hidden: &mut AmountTable,
        steps: &mut Steps<L>,
    ) -> Result<(), AllocError>
        requires shown { IsAmounts shown.old }
        requires hidden { IsAmounts hidden.old }
        ensures shown { OnOk result (shown.new ≡ hidden_with shown.old self.old.shown.items) }
        ensures hidden { OnOk result (hidden.new ≡ hidden_with hidden.old self.old.hidden.items) }
        ensures shown_same { OnErr result (shown.new ≡ shown.old) }
        ensures hidden_same { OnErr result (hidden.new ≡ hidden.old) }
        ensures steps { steps.new ≤ steps.old + sets_price (length self.old.shown.items)
            + sets_price (length self.old.hidden.items) }
    {
        add_all(shown, &self.shown, &mut self.added, steps)?;
        match add_all(hidden, &self.hidden, &mut self.also_added, steps) {
            Ok(()) => {}
            Err(error) => {
                take_back(shown, &self.added, steps);
                return Err(error);
            }
        }
        put(shown, &self.shown, steps);
        put(hidden, &self.hidden, steps);
        Ok(())
    }
}
