//! Laws of the definitions. Each function is empty, and its contract is the law.

ghost use Rattle.std.specs.Prelude.{◌≡◌, ◌==◌, ◌<◌, ◌≤◌, ℕ, List, false};
ghost use Rattle.std.specs.List.{list_any};
ghost use Rattle.vyrd_base.specs.Amounts.{amount_of};
ghost use Rattle.vyrd_base.specs.declared.own.effect.Effect.{Effect};
ghost use Rattle.vyrd_base.specs.States.{State};
ghost use Rattle.vyrd_base.specs.Own.Expressions.{Expr};
ghost use Rattle.vyrd_base.specs.Own.Steps.{with_effects, shown_keys, is_clearing};
ghost use Rattle.vyrd_own.specs.Prices.{nodes_of, looked_at};

/// What a step does leaves each key as it is that no line `set` names, if nothing clears them all.
/// So the judge compares the named keys alone, and all of them after `clear`.
#[tactic(auto, using(crate::proofs::ChangeLaws::other_keys))]
pub fn other_keys_keep_their_amount()
    ensures { (s : State) (effects : List Effect) (key : ℕ)
        → list_any (λ k. key == k) (shown_keys effects) ≡ false
        → list_any is_clearing effects ≡ false
        → amount_of (with_effects s effects).shown key ≡ amount_of s.shown key }
{}

/// For the value of an expression no more nodes are looked at than it has, in any state.
#[tactic(auto, using(crate::proofs::LookedLaws::looked_few))]
pub fn no_more_is_looked_at_than_there_is()
    ensures { (s : State) (values : List ℕ) (e : Expr) → looked_at s values e ≤ nodes_of e }
{}
