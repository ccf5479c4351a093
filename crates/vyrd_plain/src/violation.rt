//! The first fault of a front.

ghost use Rattle.std.specs.Prelude.{◌≡◌, ◌<◌, ◌^◌, [], length, None, IfOk};
ghost use Rattle.vyrd_base.specs.Front.{first_break};
ghost use Rattle.vyrd_base.specs.Rules.{rules_of};
ghost use Rattle.vyrd_base.specs.Verdicts.{first_fault};

use crate::outcome::Outcome;
use crate::scan::Scan;
use std::alloc::{AllocError, Global};
use vyrd_base::{Entry, Header, Verdict};
use vyrd_spec::BuiltIn;

/// The first fault of a front that keeps all rules, as a violation at the line of its entry. `None`
/// if there is no fault.
pub(crate) fn first_violation<S: BuiltIn>(
    alloc: Global,
    header: Header,
    front: &[Entry],
) -> Result<Option<Verdict>, AllocError>
    requires serves { S.serves header.subject }
    requires kept { first_break header front.now ≡ None }
    requires few { length front.now < 2 ^ 62 }
    ensures { IfOk result (λ found. found ≡ first_fault (rules_of header) [] front.now) }
{
    let mut scan = Scan::<S>::new(alloc, header)?;
    for at in 0..front.len() {
        match scan.step(front, at)? {
            Outcome::Goes => {}
            Outcome::Faults(why) => {
                let line = at as u64 + 2;
                return Ok(Some(Verdict::Violation { line, why }));
            }
            Outcome::Ends => return Ok(None),
        }
    }
    Ok(None)
}
