//! What takes the events of a run.

ghost use Rattle.std.specs.Prelude.{◌≡◌, ◌+◌, ◌<◌, ◌^◌, ◌∷◌, ◌++◌, [], ℕ, List, length, vec_len};
ghost use Rattle.std.specs.Prelude.{OnOk, ⊤};
ghost use Rattle.vyrd_base.specs.declared.history.Stamped.{Stamped};

use std::alloc::AllocError;
use vyrd_base::Stamped;

/// What takes the events of a run one by one, in their order, and keeps of them what it needs: a
/// vector keeps them all, and a judge none.
pub trait EventSink {
    // What of it no event changes.
    ghost Fixed: { Type 0 };

    ghost fixed: { Self → Self.Fixed };

    // How many events it has taken.
    ghost count: { Self → ℕ };

    // It has taken these events, in their order.
    ghost has_taken: { Self → List Stamped → Type 0 };

    /// How many events it has taken.
    fn taken(&self) -> u64
        ensures { result ≡ count self.now };

    /// Takes the next event, whose number says how many came before it. The only error is that
    /// memory ran out.
    fn take(&mut self, event: Stamped) -> Result<(), AllocError>
        requires number { event.number ≡ count self.old }
        requires few { count self.old < 2 ^ 62 }
        ensures fixed { OnOk result (fixed self.new ≡ fixed self.old) }
        ensures count { OnOk result (count self.new ≡ count self.old + 1) }
        ensures taken { (history : List Stamped) → has_taken self.old history
            → OnOk result (has_taken self.new (history ++ event ∷ [])) };

    // The count is right.
    ghost counted: { (s : Self) (history : List Stamped) → has_taken s history
        → count s ≡ length history };
}

impl EventSink for Vec<Stamped> {
    ghost Fixed = { ⊤ };

    ghost fixed = { λ v. tt };

    ghost count = { λ v. length v.items };

    ghost has_taken = { λ v history. v.items ≡ history };

    fn taken(&self) -> u64 {
        self.len() as u64
    }

    fn take(&mut self, event: Stamped) -> Result<(), AllocError> {
        self.push(event)?;
        Ok(())
    }

    ghost use Rattle.std.proofs.Common.{ap};

    ghost counted = { λ v history taken. ap length taken };
}
