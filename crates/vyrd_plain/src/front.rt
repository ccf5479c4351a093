//! The well-formed front of a log: its longest beginning in which each entry keeps the rules of
//! shape.

ghost use Rattle.std.specs.Prelude.{◌≡◌, ◌<◌, ◌≤◌, false, length, take, Option, Some, None, IfOk};
ghost use Rattle.std.specs.Prelude.{slice_get};
ghost use Rattle.vyrd_base.specs.Places.{newest_first};
ghost use Rattle.vyrd_base.specs.Front.{front, first_break};
ghost use Rattle.vyrd_base.specs.Verdicts.{is_call_open};

use std::alloc::{AllocError, Global};
use vyrd_base::{Entry, Header, Rule};
use vyrd_shape::Shape;

/// How far a log keeps the rules of shape, and how it goes on there.
#[derive(Clone, Copy)]
pub(crate) struct Front {
    /// How many entries keep the rules.
    pub len: usize,
    /// The rule that the next entry breaks, if there is one.
    pub broken: Option<Rule>,
    /// Whether some execution is open at the end of a log that keeps all rules. It says nothing of
    /// a log that breaks one.
    pub is_open: bool,
}

/// The front of the entries. Each is looked at once, up to the first that breaks a rule.
pub(crate) fn front_of(
    alloc: Global,
    header: Header,
    entries: &[Entry],
) -> Result<Front, AllocError>
    ensures within { IfOk result (λ f. f.len ≤ length entries.now) }
    ensures front { IfOk result (λ f. take f.len entries.now ≡ front header entries.now) }
    ensures broken { IfOk result (λ f. f.broken ≡ first_break header entries.now) }
    ensures kept { IfOk result (λ f. first_break header (take f.len entries.now) ≡ None) }
    ensures at_end { IfOk result
        (λ f. f.broken ≡ None → f.is_open ≡ is_call_open header (newest_first entries.now)) }
{
    let mut shape = Shape::new(alloc, header)?;
    for (i, entry) in entries.iter().enumerate() {
        if let Err(fault) = shape.step(entry) {
            return Ok(Front {
                len: i,
                broken: Some(fault.rule),
                is_open: false,
            });
        }
    }
    Ok(Front {
        len: entries.len(),
        broken: None,
        is_open: shape.end().is_err(),
    })
}

/// The entry at a place.
pub(crate) fn entry_at(front: &[Entry], at: usize) -> Entry
    requires { at < length front.now }
    ensures { slice_get front.now at ≡ Some result }
{
    front[at]
}
