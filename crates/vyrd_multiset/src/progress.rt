//! How far an operation of the multiset has come.
ghost use Rattle.vyrd_base.specs.declared.subject.Subject.TheVariants.{Multiset};
ghost use Rattle.vyrd_multiset.specs.Procedures.{multiset_procedure};
ghost use Rattle.vyrd_multiset.specs.Rests.{rest_of};
ghost use Rattle.vyrd_multiset.specs.Laws.{multiset_is_sound, multiset_ends_in_time};
ghost use Rattle.vyrd_multiset.specs.Laws.{multiset_is_right_alone};

use crate::place::{Place, Query, Searching, Want};
use crate::task::Task;
use vyrd_base::{Header, Method, MultisetMethod};
use vyrd_memory::{Act, Op, Progress, Variant};

/// How far an operation of the multiset has come: the values of its call, and a place in its
/// procedure.
///
/// It has the size of a few numbers. Each step looks at one of them and costs the same.
#[derive(Clone, Copy)]
pub struct MultisetProgress {
    task: Task,
    place: Place,
}

impl Progress for MultisetProgress {
    ghost subject = { Multiset };

    ghost procedure = { multiset_procedure };

    ghost rest = { rest_of };

    fn begin(header: &Header, variant: Variant, op: Op) -> Self {
        let task = Task {
            variant,
            x: op.args.a,
            y: op.args.b,
        };
        let place = match op.method {
            Method::Multiset(MultisetMethod::Insert) => task.find(header, Want::Only),
            Method::Multiset(MultisetMethod::InsertPair) => task.find(header, Want::First),
            Method::Multiset(MultisetMethod::Delete) => Place::Search(
                Query::Delete,
                Searching::Lock,
            ),
            Method::Multiset(MultisetMethod::Lookup) => Place::Search(
                Query::Lookup,
                Searching::Lock,
            ),
            _ => Place::Over,
        };
        MultisetProgress { task, place }
    }

    #[inline(always)]
    fn wants(&self, header: &Header) -> Act {
        self.task.wants(header, self.place)
    }

    #[inline(always)]
    fn took(&mut self, header: &Header, answer: u64) {
        self.place = self.task.after(header, self.place, answer);
    }

    #[inline(always)]
    fn is_over(&self) -> bool {
        matches!(self.place, Place::Over)
    }

    ghost is_sound = { multiset_is_sound };

    ghost ends_in_time = { multiset_ends_in_time };

    ghost is_right_alone = { multiset_is_right_alone };
}
