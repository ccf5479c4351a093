//! The longest beginning of a log that keeps the rules of shape.

ghost use Rattle.std.specs.Prelude.{◌≡◌, ◌≤◌, length, take, None, IfOk};
ghost use Rattle.vyrd_base.specs.Front.{front, first_break};

use std::alloc::{AllocError, Global};
use vyrd_base::{Entry, Header};
use vyrd_shape::Shape;

/// How many entries keep the rules of shape, up to the first that doesn't. Each of them is looked at
/// once.
pub(crate) fn front_len(
    alloc: Global,
    header: Header,
    entries: &[Entry],
) -> Result<usize, AllocError>
    ensures within { IfOk result (λ len. len ≤ length entries.now) }
    ensures front { IfOk result (λ len. take len entries.now ≡ front header entries.now) }
    ensures kept { IfOk result (λ len. first_break header (take len entries.now) ≡ None) }
{
    let mut shape = Shape::new(alloc, header)?;
    for (i, entry) in entries.iter().enumerate() {
        match shape.step(entry) {
            Ok(()) => {}
            Err(_) => return Ok(i),
        }
    }
    Ok(entries.len())
}
