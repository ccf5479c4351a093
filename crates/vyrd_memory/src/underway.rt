//! What a player has under way.

ghost use Rattle.std.specs.Prelude.{◌≡◌, ◌+◌, ◌<◌, ◌≤◌, ◌-◌, true, IfSome, Option, Some, None};
ghost use Rattle.std.specs.Prelude.{is_none, is_some};
ghost use Rattle.std.specs.Option.{option_map_or};
ghost use Rattle.vyrd_base.specs.Subjects.{subject_of, are_args};
ghost use Rattle.vyrd_memory.specs.Scripts.{stop, next_act, after_answer, IsAnswer};
ghost use Rattle.vyrd_memory.specs.Bounds.{bound_of, most_op_events};
ghost use Rattle.vyrd_memory.specs.Underway.{IsUnderway};

use crate::bound::bound;
use crate::op::{Op, Variant};
use crate::progress::Progress;
use vyrd_base::Header;

/// The operation under way, if there is one, and how many events it has left at most.
#[derive(Drop)]
pub(crate) struct Underway<P: Progress> {
    pub header: Header,
    pub progress: Option<P>,
    pub left: u64,
    ghost subject: { header.subject ≡ P.subject },
    ghost goes_on: { ∥ IfSome progress (λ p. IsUnderway header left (P.rest header p)) ∥₁ },
    ghost idle: { is_none progress ≡ true → left ≡ 0 },
    ghost small: { left ≤ most_op_events },
}

impl<P: Progress> Underway<P> {
    /// Nothing under way.
    pub fn empty(header: Header) -> Underway<P>
        requires subject { header.subject ≡ P.subject }
        ensures progress { result.progress ≡ None }
        ensures header { result.header ≡ header }
    {
        Underway {
            header,
            progress: None,
            left: 0,
        }
    }

    /// Begins an operation after the mark of its call.
    #[inline(always)]
    pub fn begin(&mut self, variant: Variant, op: Op)
        requires method { subject_of op.method ≡ P.subject }
        requires args { are_args self.old.header.size op.method op.args ≡ true }
        ensures begins { IfSome self.new.progress
            (λ p. P.rest self.new.header p ≡ P.procedure self.old.header variant op) }
        ensures some { is_some self.new.progress ≡ true }
        ensures left { self.new.left + 1 ≡ bound_of self.old.header op.method }
        ensures header { self.new.header ≡ self.old.header }
    {
        let progress = P::begin(&self.header, variant, op);
        self.left = bound(&self.header, op.method) - 1;
        self.progress = Some(progress);
    }

    /// Goes on with the answer. Its return ends the operation.
    #[inline(always)]
    pub fn go_on(&mut self, answer: u64)
        requires some { is_some self.old.progress ≡ true }
        requires answer { IfSome self.old.progress
            (λ p. IsAnswer (next_act (P.rest self.old.header p)) answer) }
        ensures script { option_map_or (P.rest self.new.header) self.new.progress stop
            ≡ after_answer (option_map_or (P.rest self.old.header) self.old.progress stop) answer }
        ensures falls { self.new.left < self.old.left }
        ensures header { self.new.header ≡ self.old.header }
    {
        if let Some(progress) = &mut self.progress {
            progress.took(&self.header, answer);
            if progress.is_over() {
                forget(&mut self.progress);
                self.left = 0;
            } else {
                self.left -= 1;
            }
        }
    }
}

/// Leaves nothing under way. A function clears the room of each value that it may make whenever it
/// is called, and so one that runs at each step makes no whole operation.
fn forget<P: Progress>(progress: &mut Option<P>)
    ensures { progress.new ≡ None }
{
    *progress = None;
}
