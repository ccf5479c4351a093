//! How far an operation on string buffers has come.
ghost use Rattle.vyrd_base.specs.declared.subject.Subject.TheVariants.{Buffers};
ghost use Rattle.vyrd_buffers.specs.Procedures.{buffers_procedure};
ghost use Rattle.vyrd_buffers.specs.Rests.{rest_of};
ghost use Rattle.vyrd_buffers.specs.Laws.{buffers_are_sound, buffers_end_in_time};
ghost use Rattle.vyrd_buffers.specs.Laws.{buffers_are_right_alone};

use crate::place::{Counting, Looking, Place, Purpose};
use crate::task::Task;
use vyrd_base::{BuffersMethod, Header, Method};
use vyrd_memory::{Act, Op, Progress, Variant};

/// How far an operation on string buffers has come: the numbers of its call, and a place in its
/// procedure.
///
/// An operation of the correct variant looks at the words of its buffers with their locks held, and
/// changes them in one block. It has the size of a dozen numbers, and each step costs the same.
#[derive(Clone, Copy)]
pub struct BufferProgress {
    task: Task,
    place: Place,
}

impl Progress for BufferProgress {
    ghost subject = { Buffers };

    ghost procedure = { buffers_procedure };

    ghost rest = { rest_of };

    fn begin(_header: &Header, variant: Variant, op: Op) -> Self {
        let task = Task {
            variant,
            b: op.args.a,
            x: op.args.b,
        };
        let place = match op.method {
            Method::Buffers(BuffersMethod::Append) => Place::Look(Purpose::Append, Looking::Lock),
            Method::Buffers(BuffersMethod::AppendFrom) => Place::Count(match variant {
                Variant::Correct => Counting::LockFirst,
                Variant::Broken => Counting::LockMore,
            }),
            Method::Buffers(BuffersMethod::Cut) => Place::Look(Purpose::Cut, Looking::Lock),
            Method::Buffers(BuffersMethod::Length) => Place::Look(Purpose::Length, Looking::Lock),
            Method::Buffers(BuffersMethod::Read) => Place::Look(Purpose::Read, Looking::Lock),
            _ => Place::Over,
        };
        BufferProgress { task, place }
    }

    #[inline(always)]
    fn wants(&self, header: &Header) -> Act {
        self.task.wants(header, self.place)
    }

    #[inline(always)]
    fn took(&mut self, _header: &Header, answer: u64) {
        self.place = self.task.after(self.place, answer);
    }

    #[inline(always)]
    fn is_over(&self) -> bool {
        matches!(self.place, Place::Over)
    }

    ghost is_sound = { buffers_are_sound };

    ghost ends_in_time = { buffers_end_in_time };

    ghost is_right_alone = { buffers_are_right_alone };
}
