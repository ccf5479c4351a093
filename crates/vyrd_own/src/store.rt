//! Amounts by key that are changed all together or not at all.

ghost use Rattle.std.specs.Prelude.{◌≡◌, ◌≢◌, ◌+◌, ◌*◌, ◌<◌, ◌≤◌, ℕ, List, [], length, OnOk};
ghost use Rattle.std.specs.Prelude.{OnErr};
ghost use Rattle.vyrd_base.specs.Amounts.{Amounts, IsAmounts, amount_of, with_amount};
ghost use Rattle.vyrd_base.specs.Own.Steps.{hidden_with};
ghost use Rattle.vyrd_own.specs.Sets.{amount_after, AreAdded, HasKeys};

use crate::shown::ShownAmounts;
use std::alloc::AllocError;
use std::sync::ledger::Ledger;
use vyrd_base::Steps;
use vyrd_table::AmountTable;

/// Amounts by key.
pub(crate) trait Store: Sized {
    // The amounts.
    ghost amounts: { Self → Amounts };

    /// The amount of the key, and 0 if it isn't there.
    fn amount_at(&self, key: u64) -> u64
        ensures { result ≡ amount_of (amounts self.now) key };

    /// Gives the key this amount. Only a key that isn't there yet takes memory; if there is none,
    /// all is as it was.
    fn set_at(&mut self, key: u64, amount: u64) -> Result<(), AllocError>
        ensures ok { OnOk result (amounts self.new ≡ with_amount (amounts self.old) key amount) }
        ensures err { OnErr result (amounts self.new ≡ amounts self.old) }
        ensures absent { OnErr result (amount_of (amounts self.old) key ≡ 0) };

    /// Takes the key out, if it is there.
    fn remove_at(&mut self, key: u64)
        ensures { amounts self.new ≡ with_amount (amounts self.old) key 0 };
}

impl Store for ShownAmounts {
    ghost amounts = { λ amounts. amounts };

    #[inline(always)]
    fn amount_at(&self, key: u64) -> u64 {
        self.amount(key)
    }

    #[inline(always)]
    fn set_at(&mut self, key: u64, amount: u64) -> Result<(), AllocError> {
        self.set(key, amount)
    }

    #[inline(always)]
    fn remove_at(&mut self, key: u64) {
        self.remove(key);
    }
}

impl Store for AmountTable {
    ghost amounts = { λ amounts. amounts };

    #[inline(always)]
    fn amount_at(&self, key: u64) -> u64 {
        self.amount(key)
    }

    #[inline(always)]
    fn set_at(&mut self, key: u64, amount: u64) -> Result<(), AllocError> {
        self.set(key, amount)
    }

    #[inline(always)]
    fn remove_at(&mut self, key: u64) {
        self.remove(key);
    }
}

/// The amount of a key after these were set.
fn amount_after<L: Ledger>(pairs: &[(u64, u64)], key: u64, before: u64, steps: &mut Steps<L>) -> u64
    ensures amount { result ≡ amount_after pairs.now key before }
    ensures steps { steps.new ≡ steps.old + length pairs.now }
{
    let mut amount = before;
    for (k, a) in pairs {
        steps.tick();
        if key == *k {
            amount = *a;
        }
    }
    amount
}

/// Lets each key be there that is to have an amount, or leaves all as it was. `added` are the keys
/// that weren't there.
pub(crate) fn add_all<S: Store, L: Ledger>(
    store: &mut S,
    pairs: &[(u64, u64)],
    added: &mut Vec<u64>,
    steps: &mut Steps<L>,
) -> Result<(), AllocError>
    requires { IsAmounts (S.amounts store.old) }
    ensures added { OnOk result
        (AreAdded (S.amounts store.old) (S.amounts store.new) added.new.items pairs.now) }
    ensures room { OnOk result (HasKeys (S.amounts store.new) pairs.now) }
    ensures err { OnErr result (S.amounts store.new ≡ S.amounts store.old) }
    ensures few { length added.new.items ≤ length pairs.now }
    ensures steps { steps.new ≤ steps.old + length pairs.now * (length pairs.now + 4) }
{
    added.clear();
    match add_keys(store, pairs, added, steps) {
        Ok(()) => Ok(()),
        Err(error) => {
            take_back(store, added, steps);
            Err(error)
        }
    }
}

/// Lets each key be there that is to have an amount. `added` are those that weren't.
fn add_keys<S: Store, L: Ledger>(
    store: &mut S,
    pairs: &[(u64, u64)],
    added: &mut Vec<u64>,
    steps: &mut Steps<L>,
) -> Result<(), AllocError>
    requires none { added.old.items ≡ [] }
    requires formed { IsAmounts (S.amounts store.old) }
    ensures added { AreAdded (S.amounts store.old) (S.amounts store.new) added.new.items pairs.now }
    ensures room { OnOk result (HasKeys (S.amounts store.new) pairs.now) }
    ensures few { length added.new.items ≤ length pairs.now }
    ensures steps { steps.new ≤ steps.old + length pairs.now * (length pairs.now + 3) }
{
    for (key, _) in pairs {
        steps.tick();
        let amount = amount_after(pairs, *key, 0, steps);
        // The amount that is looked up, and the one that is set.
        steps.add(2);
        if amount != 0 && store.amount_at(*key) == 0 {
            added.push(*key)?;
            store.set_at(*key, amount)?;
        }
    }
    Ok(())
}

/// Takes out what was added.
pub(crate) fn take_back<S: Store, L: Ledger>(store: &mut S, added: &[u64], steps: &mut Steps<L>)
    ensures same { (before : Amounts) (pairs : List (ℕ × ℕ)) → IsAmounts before
        → AreAdded before (S.amounts store.old) added.now pairs
        → S.amounts store.new ≡ before }
    ensures steps { steps.new ≡ steps.old + length added.now }
{
    for key in added {
        steps.tick();
        store.remove_at(*key);
    }
}

/// Sets the amounts. Each key is there that is to have one.
pub(crate) fn put<S: Store, L: Ledger>(store: &mut S, pairs: &[(u64, u64)], steps: &mut Steps<L>)
    requires { HasKeys (S.amounts store.old) pairs.now }
    ensures amounts { (before : Amounts) (added : List ℕ) → IsAmounts before
        → AreAdded before (S.amounts store.old) added pairs.now
        → S.amounts store.new ≡ hidden_with before pairs.now }
    ensures steps { steps.new ≡ steps.old + length pairs.now * (length pairs.now + 2) }
{
    for (key, _) in pairs {
        steps.tick();
        let amount = amount_after(pairs, *key, 0, steps);
        put_one(store, *key, amount, steps);
    }
}

/// Sets the amount of a key, which is there if it is to have one.
#[inline(always)]
fn put_one<S: Store, L: Ledger>(store: &mut S, key: u64, amount: u64, steps: &mut Steps<L>)
    requires { amount ≢ 0 → amount_of (S.amounts store.old) key ≢ 0 }
    ensures amounts { S.amounts store.new ≡ with_amount (S.amounts store.old) key amount }
    ensures steps { steps.new ≡ steps.old + 1 }
{
    steps.tick();
    if amount == 0 {
        store.remove_at(key);
        return;
    }
    match store.set_at(key, amount) {
        Ok(()) => {}
        Err(_) => unreachable!(),
    }
}
