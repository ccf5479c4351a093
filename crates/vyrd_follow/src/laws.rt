//! What a step of a built-in structure leaves as it is. Each function does nothing: its contract is
//! the law.

ghost use Rattle.std.specs.Prelude.{◌≡◌, ℕ, false, Some};
ghost use Rattle.vyrd_base.specs.declared.header.Header.{Header};
ghost use Rattle.vyrd_base.specs.declared.subject.Args.{Args};
ghost use Rattle.vyrd_base.specs.declared.subject.Method.{Method};
ghost use Rattle.vyrd_base.specs.Amounts.{amount_of};
ghost use Rattle.vyrd_base.specs.Rules.{rules_of};
ghost use Rattle.vyrd_base.specs.States.{State};
ghost use Rattle.vyrd_spec.specs.Touching.{is_touched};
ghost use Rattle.vyrd_states.specs.Looks.{keys_looked_at};

/// A step of a built-in structure changes no amount of a key that its call doesn't look at. So what
/// is told of the keys that it looks at is all that it does.
pub fn a_step_changes_no_other_key()
    ensures { (h : Header) (method : Method) (args : Args) (reply key : ℕ) (before after : State)
        → (rules_of h).next method args reply before ≡ Some after
        → is_touched (keys_looked_at method args) key ≡ false
        → amount_of after.shown key ≡ amount_of before.shown key }
{}
