//! Laws of the specifications. Each function is empty, and its contract is the law.

ghost use Rattle.std.specs.Prelude.{◌≡◌, ◌+◌, ℕ, true, false, replicate, Some, option_map};
ghost use Rattle.vyrd_base.specs.declared.header.Header.{Header};
ghost use Rattle.vyrd_base.specs.declared.subject.Method.{Method};
ghost use Rattle.vyrd_base.specs.declared.subject.Args.{Args};
ghost use Rattle.vyrd_base.specs.Amounts.{Amounts, IsAmounts, amount_of};
ghost use Rattle.vyrd_base.specs.States.{showing};
ghost use Rattle.vyrd_base.specs.Layout.{plain_words, lock_words};
ghost use Rattle.vyrd_base.specs.Represented.{state_of_words};
ghost use Rattle.vyrd_base.specs.Specification.{start, next_state};
ghost use Rattle.vyrd_spec.specs.Touching.{touched_by, is_touched, with_touched, CanChange};

/// A step leaves each key as it is that it doesn't touch, so that the next state differs in the
/// touched keys alone.
#[tactic(auto, using(crate::proofs::StepMeets::touch_laws))]
pub fn other_keys_keep_their_amount()
    ensures each { (method : Method) (args : Args) (reply key : ℕ) (s t : Amounts)
        → next_state method args reply s ≡ Some t → is_touched (touched_by method args) key ≡ false
        → amount_of t key ≡ amount_of s key }
    ensures all { (method : Method) (args : Args) (reply : ℕ) (s t : Amounts) → IsAmounts s
        → next_state method args reply s ≡ Some t
        → with_touched (touched_by method args) t s ≡ t }
{}

/// Zeroed words, with all locks 0, stand for the empty state. So `start` is what `start_from` makes
/// of them.
#[tactic(auto, using(crate::proofs::StartFromLaws::zeros_start))]
pub fn zeroed_words_are_the_start()
    ensures { (h : Header)
        → option_map showing (state_of_words h (replicate (plain_words h + lock_words h) 0))
        ≡ Some start }
{}

/// Each key that a call touches is changed by some step with that call, so that no key is named
/// needlessly.
#[tactic(auto, using(crate::proofs::StepMeets::touched_changes))]
pub fn touched_keys_can_change()
    ensures { (method : Method) (args : Args) (key : ℕ)
        → is_touched (touched_by method args) key ≡ true
        → CanChange (next_state method args) key }
{}
