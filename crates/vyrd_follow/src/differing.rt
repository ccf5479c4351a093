//! Where two lists of amounts differ.

ghost use Rattle.std.specs.Prelude.{◌≡◌, ◌++◌, ◌+◌, ◌-◌, ◌≤◌, length, drop, IfOk};
ghost use Rattle.vyrd_base.specs.Amounts.{IsAmounts};
ghost use Rattle.vyrd_follow.specs.Turns.{turns};

use std::alloc::{AllocError, Global};
use std::cmp::Ordering;

/// Each key that has another amount after, with that, the least first; 0 says that the key isn't
/// there any more. It takes time in proportion to the pairs, and memory for each key that it finds.
pub(crate) fn differing(
    alloc: Global,
    before: &[(u64, u64)],
    after: &[(u64, u64)],
) -> Result<Vec<(u64, u64)>, AllocError>
    requires before { IsAmounts before.now }
    requires after { IsAmounts after.now }
    ensures { IfOk result (λ found. found.items ≡ turns before.now after.now) }
{
    let mut found = Vec::new(alloc);
    let mut places = (0, 0);
    for _turn in 0..before.len() + after.len() {
        places = pass_key(before, after, places, &mut found)?;
    }
    Ok(found)
}

/// Passes the least key that stands in these places or behind them, if there is one, and puts it at
/// the end with its amount, if it has another amount than before. The answer is the places behind
/// it.
fn pass_key(
    before: &[(u64, u64)],
    after: &[(u64, u64)],
    places: (usize, usize),
    found: &mut Vec<(u64, u64)>,
) -> Result<(usize, usize), AllocError>
    requires before { IsAmounts before.now }
    requires after { IsAmounts after.now }
    ensures found { IfOk result (λ next. found.new.items
        ++ turns (drop next.0 before.now) (drop next.1 after.now)
        ≡ found.old.items ++ turns (drop places.0 before.now) (drop places.1 after.now)) }
    ensures less { IfOk result (λ next. length (drop next.0 before.now)
        + length (drop next.1 after.now)
        ≤ length (drop places.0 before.now) + length (drop places.1 after.now) - 1) }
{
    let (i, j) = places;
    match (before.get(i), after.get(j)) {
        (None, None) => Ok((i, j)),
        (Some(x), None) => {
            found.push((x.0, 0))?;
            Ok((i + 1, j))
        }
        (None, Some(y)) => {
            found.push(*y)?;
            Ok((i, j + 1))
        }
        (Some(x), Some(y)) => match x.0.cmp(&y.0) {
            Ordering::Less => {
                found.push((x.0, 0))?;
                Ok((i + 1, j))
            }
            Ordering::Greater => {
                found.push(*y)?;
                Ok((i, j + 1))
            }
            Ordering::Equal => {
                if x.1 != y.1 {
                    found.push(*y)?;
                }
                Ok((i + 1, j + 1))
            }
        },
    }
}
