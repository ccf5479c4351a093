//! Numbers, each where it comes first.

ghost use Rattle.std.specs.Prelude.{◌≡◌, ◌==◌, OnOk};
ghost use Rattle.std.specs.List.{list_any};
ghost use Rattle.vyrd_own_states.specs.OwnReplies.{with_once};

use std::alloc::AllocError;

/// Puts a number at the end, if it isn't among those before. All of them are looked at.
pub(crate) fn push_once(number: u64, seen: &mut Vec<u64>) -> Result<(), AllocError>
    ensures { OnOk result (seen.new.items ≡ with_once seen.old.items number) }
{
    if !is_among(number, seen) {
        seen.push(number)?;
    }
    Ok(())
}

/// Whether a number is among others.
fn is_among(number: u64, seen: &[u64]) -> bool
    ensures { result ≡ list_any (λ m. m == number) seen.now }
{
    for other in seen {
        if *other == number {
            return true;
        }
    }
    false
}
