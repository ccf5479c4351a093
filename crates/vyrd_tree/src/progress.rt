//! How far an operation of the tree has come.
ghost use Rattle.vyrd_base.specs.declared.subject.Subject.TheVariants.{Tree};
ghost use Rattle.vyrd_tree.specs.Procedures.{tree_procedure};
ghost use Rattle.vyrd_tree.specs.Rests.{rest_of};
ghost use Rattle.vyrd_tree.specs.Laws.{tree_is_sound, tree_ends_in_time, tree_is_right_alone};

use crate::place::Place;
use crate::task::{Call, Task};
use vyrd_base::{Header, Method, TreeMethod};
use vyrd_memory::{Act, Op, Progress, Variant};

/// How far an operation of the tree has come: its call, and a place in its procedure.
///
/// It is a few hundred bytes, mostly the entries of the node that it is at. A step changes few of
/// them, where they stand, except a step that comes to another part of the procedure.
#[derive(Clone, Copy)]
pub struct TreeProgress {
    task: Task,
    place: Place,
}

impl Progress for TreeProgress {
    ghost subject = { Tree };

    ghost procedure = { tree_procedure };

    ghost rest = { rest_of };

    fn begin(_header: &Header, variant: Variant, op: Op) -> Self {
        let call = match op.method {
            Method::Tree(TreeMethod::Insert) => Call::Insert,
            Method::Tree(TreeMethod::Delete) => Call::Delete,
            _ => Call::Lookup,
        };
        let task = Task {
            variant,
            call,
            key: op.args.a,
            value: op.args.b,
        };
        TreeProgress {
            task,
            place: Place::LoadRoot,
        }
    }

    #[inline(always)]
    fn wants(&self, header: &Header) -> Act {
        self.task.wants(header, &self.place)
    }

    #[inline(always)]
    fn took(&mut self, header: &Header, answer: u64) {
        self.task.after(header, &mut self.place, answer);
    }

    #[inline(always)]
    fn is_over(&self) -> bool {
        matches!(self.place, Place::Over)
    }

    ghost is_sound = { tree_is_sound };

    ghost ends_in_time = { tree_ends_in_time };

    ghost is_right_alone = { tree_is_right_alone };
}
