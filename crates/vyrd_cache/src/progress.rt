//! How far an operation of the cache has come.
ghost use Rattle.vyrd_base.specs.declared.subject.Subject.TheVariants.{Cache};
ghost use Rattle.vyrd_cache.specs.Procedures.{cache_procedure};
ghost use Rattle.vyrd_cache.specs.Rests.{rest_of};
ghost use Rattle.vyrd_cache.specs.Laws.{cache_is_sound, cache_ends_in_time, cache_is_right_alone};

use crate::place::Place;
use crate::task::{Action, Task};
use vyrd_base::{Header, Method};
use vyrd_memory::{Act, Op, Progress, Variant};

/// How far an operation of the cache has come: what is played, and a place in its procedure.
///
/// An operation of the correct variant looks at the words of its chunk with the chunk's lock held,
/// and changes them in one block. It has the size of a few numbers, and each step costs the same.
#[derive(Clone, Copy)]
pub struct CacheProgress {
    task: Task,
    place: Place,
}

impl Progress for CacheProgress {
    ghost subject = { Cache };

    ghost procedure = { cache_procedure };

    ghost rest = { rest_of };

    fn begin(_header: &Header, variant: Variant, op: Op) -> Self {
        let action = match op.method {
            Method::Cache(method) => Action::new(method, variant),
            _ => unreachable!(),
        };
        let task = Task {
            action,
            chunk: op.args.a,
            low: u64::from(op.args.b),
            high: u64::from(op.args.c),
        };
        CacheProgress {
            task,
            place: Place::Lock,
        }
    }

    #[inline(always)]
    fn wants(&self, header: &Header) -> Act {
        self.task.wants(header, self.place)
    }

    #[inline(always)]
    fn took(&mut self, _header: &Header, answer: u64) {
        let (task, place) = self.task.after(self.place, answer);
        *self = CacheProgress { task, place };
    }

    #[inline(always)]
    fn is_over(&self) -> bool {
        matches!(self.place, Place::Over)
    }

    ghost is_sound = { cache_is_sound };

    ghost ends_in_time = { cache_ends_in_time };

    ghost is_right_alone = { cache_is_right_alone };
}
