//! The open execution of a caller, and how it sees the states of the specification.

ghost use Rattle.std.specs.Prelude.{◌≡◌, true, Option, Some, None, map, vec_len};
ghost use Rattle.vyrd_base.specs.Rules.{rules_by};
ghost use Rattle.vyrd_base.specs.Commits.{next_reply};
ghost use Rattle.vyrd_plain.specs.declared.execution.Execution.{Execution};
ghost use Rattle.vyrd_base.specs.Entries.{has_method};
ghost use Rattle.vyrd_plain.specs.Executions.{AreAllowed, seeing};

use vyrd_base::{Args, Entry, Kind, Method};
use vyrd_spec::Spec;

/// An execution that has begun, with the reply that it will return.
///
/// The reply is known from the call on, so that it can be compared with the answer of each state as
/// it comes, and no state need be kept.
#[derive(Clone, Copy)]
pub(crate) struct Execution {
    pub method: Method,
    pub args: Args,
    /// `None` if it doesn't return in the front.
    pub reply: Option<u64>,
    pub has_committed: bool,
    /// Whether its method may return without a commit, and some state since its call gives the
    /// reply.
    pub is_answered: bool,
}

/// The reply of the caller's next return, `None` if there is none. It looks no further than that
/// return.
pub(crate) fn next_reply(caller: u32, later: &[Entry]) -> Option<u64>
    ensures { result ≡ next_reply caller later.now }
{
    for entry in later {
        if entry.caller == caller {
            if let Kind::Return(reply) = entry.kind {
                return Some(reply);
            }
        }
    }
    None
}

impl Execution {
    ghost use Rattle.vyrd_plain.specs.Executions.{answers};

    /// Whether its method may return without a commit, and this state answers its reply.
    pub fn is_answered_by<S: Spec>(&self, spec: &S) -> bool
        requires allowed { has_method
            (rules_by (S.charter spec.now)).header self.now.method self.now.args ≡ true }
        ensures { result ≡ answers (rules_by (S.charter spec.now)) self.now (S.state spec.now) }
    {
        match self.reply {
            Some(reply) if !self.method.must_commit() => {
                reply == spec.answer(self.method, self.args)
            }
            _ => false,
        }
    }
}

/// An execution that sees the specification's state too.
fn seeing<S: Spec>(execution: Option<Execution>, spec: &S) -> Option<Execution>
    requires allowed { (x : Execution) → execution ≡ Some x
        → has_method (rules_by (S.charter spec.now)).header x.method x.args ≡ true }
    ensures { result ≡ seeing (rules_by (S.charter spec.now)) (S.state spec.now) execution }
{
    let mut x = execution?;
    x.is_answered = x.is_answered || x.is_answered_by(spec);
    Some(x)
}

/// Lets every caller's execution see the specification's state.
pub(crate) fn see<S: Spec>(executions: &mut Vec<Option<Execution>>, spec: &S)
    requires allowed { AreAllowed (rules_by (S.charter spec.now)).header executions.old.items }
    requires all { vec_len executions.old ≡ (rules_by (S.charter spec.now)).header.callers }
    ensures seen { executions.new.items
        ≡ map (seeing (rules_by (S.charter spec.now)) (S.state spec.now)) executions.old.items }
    ensures len { vec_len executions.new ≡ vec_len executions.old }
{
    for execution in executions.iter_mut() {
        *execution = seeing(*execution, spec);
    }
}
