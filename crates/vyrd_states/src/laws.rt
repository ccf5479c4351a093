//! Which replies there are to list. Each function does nothing: its contract is the law.

ghost use Rattle.std.specs.Prelude.{◌≡◌, ◌≤◌, ℕ, None};
ghost use Rattle.vyrd_base.specs.declared.header.Header.{Header};
ghost use Rattle.vyrd_base.specs.declared.subject.Args.{Args};
ghost use Rattle.vyrd_base.specs.declared.subject.Method.{Method};
ghost use Rattle.vyrd_base.specs.Rules.{rules_of};
ghost use Rattle.vyrd_base.specs.States.{State};

/// A built-in structure refuses each reply from 3 on, in every state. So 0, 1 and 2 are all that a
/// state may allow.
#[tactic(auto, using(crate::proofs::RefusedLaws::refused_from_3))]
pub fn replies_from_3_on_are_refused()
    ensures { (h : Header) (method : Method) (args : Args) (reply : ℕ) (state : State)
        → 3 ≤ reply → (rules_of h).next method args reply state ≡ None }
{}
