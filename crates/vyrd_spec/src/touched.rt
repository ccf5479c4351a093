//! The keys that a step can change.

ghost use Rattle.std.specs.Prelude.{◌≡◌, [], ◌∷◌};
ghost use Rattle.vyrd_spec.specs.Touching.{is_touched};

use std::marker::Model;

/// The keys whose amount a step can change: none, one or two.
#[derive(Drop)]
pub(crate) struct Touched {
    keys: [u64; 2],
    count: usize,
}

impl Model for Touched {
    ghost use Rattle.std.specs.Prelude.{◌≤◌, ℕ, List, take};

    ghost Value = { List ℕ };

    ghost view = { λ t. take t.count t.keys };

    ghost invariant = { λ t. t.count ≤ 2 };
}

impl Touched {
    /// No key.
    pub fn none() -> Touched
        ensures { result ≡ [] }
    {
        Touched {
            keys: [0, 0],
            count: 0,
        }
    }

    /// One key.
    pub fn one(key: u32) -> Touched
        ensures { result ≡ key ∷ [] }
    {
        Touched {
            keys: [u64::from(key), 0],
            count: 1,
        }
    }

    /// One key, and another or the same.
    pub fn two(key: u32, other: u32) -> Touched
        ensures { result ≡ key ∷ other ∷ [] }
    {
        Touched {
            keys: [u64::from(key), u64::from(other)],
            count: 2,
        }
    }

    /// The keys.
    pub fn keys(&self) -> &[u64]
        ensures { result.now ≡ self.now }
    {
        let (keys, _) = self.keys.split_at(self.count);
        keys
    }

    /// Whether the key is one of them.
    pub fn has(&self, key: u64) -> bool
        ensures { result ≡ is_touched self.now key }
    {
        self.keys().iter().any(|k| *k == key)
    }
}
