//! What words or a state show: amounts by key, in a list.

ghost use Rattle.std.specs.Prelude.{◌≡◌, [], ◌++◌, ◌∷◌, ◌≢◌, All, ◌<◌, OnOk, OnErr};
ghost use Rattle.vyrd_base.specs.Amounts.{IsAmounts};

use std::alloc::{AllocError, Global};
use std::marker::Model;

/// The keys whose amount isn't 0, in ascending order, each with its amount. Two views are equal
/// exactly when their lists are.
#[derive(Debug, Drop)]
pub struct View {
    pairs: Vec<(u64, u64)>,
}

impl Model for View {
    ghost use Rattle.vyrd_base.specs.Amounts.{Amounts, IsAmounts};

    ghost Value = { Amounts };

    ghost view = { λ v. v.pairs.items };

    ghost invariant = { λ v. IsAmounts v.pairs.items };
}

impl View {
    /// The view with no key. It takes no memory.
    pub fn new(alloc: Global) -> View
        ensures { result ≡ [] }
    {
        View {
            pairs: Vec::new(alloc),
        }
    }

    /// The view of these pairs, whose keys rise and of whose amounts none is 0.
    pub fn of(pairs: Vec<(u64, u64)>) -> View
        requires { IsAmounts pairs.items }
        ensures { result ≡ pairs.items }
    {
        View { pairs }
    }

    /// Puts a key with its amount at the end: the key is above all others, and the amount isn't 0.
    /// If memory runs out, the view is as it was. It takes constant time, and memory now and then.
    pub fn push(&mut self, key: u64, amount: u64) -> Result<(), AllocError>
        requires greater { All (λ p. p.0 < key) self.old }
        requires some { amount ≢ 0 }
        ensures ok { OnOk result (self.new ≡ self.old ++ (key, amount) ∷ []) }
        ensures err { OnErr result (self.new ≡ self.old) }
    {
        self.pairs.push((key, amount))?;
        Ok(())
    }

    /// The pairs, whose keys rise and of whose amounts none is 0.
    pub fn pairs(&self) -> &[(u64, u64)]
        ensures pairs { result.now ≡ self.now }
        ensures amounts { IsAmounts self.now }
    {
        &self.pairs
    }
}
