//! The judge of a log of any built-in structure.

ghost use Rattle.std.specs.Prelude.{◌≡◌, ◌≤◌, ◌^◌, true, [], length, IfOk};
ghost use Rattle.vyrd_base.specs.Histories.{log_of};
ghost use Rattle.vyrd_base.specs.Rules.{rules_of};
ghost use Rattle.vyrd_base.specs.Subjects.{is_built_in};
ghost use Rattle.vyrd_base.specs.Verdicts.{verdict};

use crate::online::Judge;
use std::alloc::{AllocError, Global};
use vyrd_base::{Header, Stamped, Verdict};
use vyrd_spec::AnySpec;

/// A judge that follows a log of any built-in structure, by the specification of its header's subject.
pub type AnyJudge = Judge<AnySpec>;

/// The verdict about the log of a history, by the specification of its header's subject, which is
/// built in. The log is followed and not kept.
pub fn judge_history(
    alloc: Global,
    header: Header,
    history: &[Stamped],
) -> Result<Verdict, AllocError>
    requires built_in { is_built_in header.subject ≡ true }
    requires few { length history.now ≤ 2 ^ 62 }
    ensures { IfOk result (λ v. v ≡ verdict (rules_of header) [] (log_of history.now)) }
{
    let mut judge = AnyJudge::new(alloc, header)?;
    judge.follow_history(history)?;
    judge.finish()
}
