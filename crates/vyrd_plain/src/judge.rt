//! The plain judge of a whole log, which has all of its entries before it begins.

ghost use Rattle.std.specs.Prelude.{◌≡◌, ◌<◌, ◌^◌, [], length, None, IfOk};
ghost use Rattle.vyrd_base.specs.Front.{first_break};
ghost use Rattle.vyrd_base.specs.Places.{newest_first};
ghost use Rattle.vyrd_base.specs.Rules.{rules_of};
ghost use Rattle.vyrd_base.specs.Verdicts.{verdict_so_far, verdict_at, is_call_open};

use crate::counts::accepted;
use crate::front::front_of;
use crate::violation::first_violation;
use std::alloc::{AllocError, Global};
use vyrd_base::{Entry, Header, Rule, Stop, Verdict};
use vyrd_spec::BuiltIn;

/// The verdict about the entries of a log without starting words, whose text stops in this way. `S`
/// is the specification of the header's subject.
///
/// The lines that a verdict names count from 1, the header's: the entry at position 0 stands on
/// line 2. If the log has a fault and breaks a rule too, what stands first is named. An observer's
/// reply is judged by the states since its call, and a commit by the reply that its execution
/// returns later. So a commit whose execution never returns isn't a fault, and neither is anything
/// after it.
///
/// The only error is that there is no memory, and then nothing is known of the log.
///
/// Time: each entry is gone over a few times, once more for each call that looks forward over it to
/// its caller's next return, and once or twice more for each block that it stands in, whose writes
/// are looked up from its open to its end. An entry stands within at most one execution and one
/// block of each caller, so that this is in proportion to the entries times the callers at most.
/// Besides, a commit takes both views whole, and shows the new state to each caller's execution.
/// Memory: in proportion to the words of the header and to the keys of the specification's state,
/// and one execution and one block for each caller. Nothing is kept of the entries.
pub fn judge_log<S: BuiltIn>(
    alloc: Global,
    header: Header,
    entries: &[Entry],
    stop: Stop,
) -> Result<Verdict, AllocError>
    requires serves { S.serves header.subject }
    requires few { length entries.now < 2 ^ 62 }
    ensures { IfOk result (λ verdict. verdict ≡ verdict_at (rules_of header) [] entries.now stop) }
{
    let front = front_of(alloc, header, entries)?;
    let (kept, _) = entries.split_at(front.len);
    if let Some(violation) = first_violation::<S>(alloc, header, kept)? {
        return Ok(violation);
    }
    if let Some(rule) = front.broken {
        let line = front.len as u64 + 2;
        return Ok(Verdict::Malformed { line, rule });
    }
    at_stop(alloc, header, entries, front.is_open, stop)
}

/// The verdict about entries that keep all rules and have no fault. An `end` would stand on the
/// line after the entries. So a rule of text that is broken one line further is broken after an
/// `end`, and there an open call comes first.
fn at_stop(
    alloc: Global,
    header: Header,
    entries: &[Entry],
    is_open: bool,
    stop: Stop,
) -> Result<Verdict, AllocError>
    requires few { length entries.now < 2 ^ 62 }
    requires kept { first_break header entries.now ≡ None }
    requires faultless { verdict_so_far (rules_of header) [] entries.now ≡ None }
    requires is_open { is_open ≡ is_call_open header (newest_first entries.now) }
    ensures { IfOk result (λ verdict. verdict ≡ verdict_at (rules_of header) [] entries.now stop) }
{
    let after = entries.len() as u64 + 2;
    match stop {
        Stop::End if is_open => Ok(Verdict::Malformed {
            line: after,
            rule: Rule::CallOpen,
        }),
        Stop::End => accepted(alloc, header, entries),
        Stop::Text { line, .. } if is_open && line == after + 1 => Ok(Verdict::Malformed {
            line: after,
            rule: Rule::CallOpen,
        }),
        Stop::Text { line, rule } => Ok(Verdict::Malformed { line, rule }),
    }
}
