//! What a step of a built-in structure does: it sets amounts of the keys that its call looks at.

ghost use Rattle.std.specs.Prelude.{◌≡◌, ◌++◌, [], ◌∷◌, OnOk};
ghost use Rattle.vyrd_base.specs.Amounts.{Amounts, amount_of};
ghost use Rattle.vyrd_spec.specs.AnySpecs.{state_in};
ghost use Rattle.vyrd_follow.specs.Doings.{amounts_set};

use crate::tells::Tells;
use std::alloc::{AllocError, Global};
use vyrd_base::{Args, Effect, Method};
use vyrd_spec::{AnySpec, Spec};
use vyrd_states::keys_named;

impl Tells for AnySpec {
    /// It takes the time of `step`, and that of `amount` of at most two keys before and after it.
    fn step_told(
        &mut self,
        _alloc: Global,
        method: Method,
        args: Args,
        reply: u64,
        done: &mut Vec<Effect>,
    ) -> Result<bool, AllocError> {
        let first = u64::from(args.a);
        let second = u64::from(args.b);
        let first_before = self.amount(first);
        let second_before = self.amount(second);
        if !self.step(method, args, reply)? {
            return Ok(false);
        }
        let named = keys_named(method, args);
        if named > 0 {
            put_set(self, first, first_before, done)?;
        }
        if named > 1 {
            put_set(self, second, second_before, done)?;
        }
        Ok(true)
    }
}

/// Puts the amount that a specification shows of a key now at the end, if it was another one
/// before.
fn put_set(spec: &AnySpec, key: u64, before: u64, done: &mut Vec<Effect>) -> Result<(), AllocError>
    ensures { (amounts : Amounts) → before ≡ amount_of amounts key
        → OnOk result (done.new.items ≡ done.old.items
        ++ amounts_set amounts (state_in spec.now).shown (key ∷ [])) }
{
    let amount = spec.amount(key);
    if amount != before {
        done.push(Effect::SetShown(key, amount))?;
    }
    Ok(())
}
