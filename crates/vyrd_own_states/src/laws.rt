//! What needn't be said of a refused reply. The function does nothing: its contract is the law.

ghost use Rattle.std.specs.Prelude.{◌≡◌, ◌==◌, ◌++◌, ℕ, List, [], ◌∷◌, None, true};
ghost use Rattle.std.specs.List.{list_all};
ghost use Rattle.vyrd_base.specs.States.{State};
ghost use Rattle.vyrd_base.specs.Own.Expressions.{value};
ghost use Rattle.vyrd_base.specs.Own.Programs.{Method, Written};
ghost use Rattle.vyrd_base.specs.Own.Steps.{at_hand, next_of};

/// If a reply is refused, what each case of the method asks for has the value 0.
#[tactic(auto, using(crate::proofs::CaseLaws::cases_are_0))]
pub fn cases_of_a_refused_reply_are_0()
    ensures { (w : Written) (m : Method) (args : List ℕ) (reply : ℕ) (s : State)
        → next_of w m args reply s ≡ None
        → list_all (λ case. value s (at_hand w m s args ++ reply ∷ []) case.allow == 0) m.cases
        ≡ true }
{}
