//! What a structure says of its operations.

ghost use Rattle.std.specs.Prelude.{◌≡◌, ◌≢◌, ◌-◌, true};
ghost use Rattle.vyrd_base.specs.declared.header.Header.{Header};
ghost use Rattle.vyrd_base.specs.declared.subject.Subject.{Subject};
ghost use Rattle.vyrd_base.specs.Subjects.{subject_of, are_args};
ghost use Rattle.vyrd_memory.specs.declared.act.Act.TheVariants.{Done};
ghost use Rattle.vyrd_memory.specs.declared.op.Op.{Op};
ghost use Rattle.vyrd_memory.specs.declared.op.Variant.{Variant};
ghost use Rattle.vyrd_memory.specs.declared.op.Variant.TheVariants.{Correct};
ghost use Rattle.vyrd_memory.specs.Arguments.{are_small};
ghost use Rattle.vyrd_memory.specs.Scripts.{Script, next_act, after_answer, IsAnswer};
ghost use Rattle.vyrd_memory.specs.Turns.{is_done};
ghost use Rattle.vyrd_memory.specs.Soundness.{IsSound, IsSoundSomewhere, just_called};
ghost use Rattle.vyrd_memory.specs.Bounds.{bound_of, EndsByReturn};
ghost use Rattle.vyrd_memory.specs.Alone.{IsRightAlone};

use crate::act::Act;
use crate::op::{Op, Variant};
use vyrd_base::Header;

/// How far an operation of a structure has come, after the mark of its call: a place in its
/// procedure and a few numbers.
///
/// A type of this trait is what `Player` needs of a structure. The procedure of each method is a
/// script of its own, which the type meets step by step.
pub trait Progress: Copy {
    // The structure.
    ghost subject: { Subject };

    // The procedure of an operation, from after the mark of its call to the mark of its return.
    ghost procedure: { Header → Variant → Op → Script };

    // What is left of a procedure.
    ghost rest: { Header → Self → Script };

    /// The beginning of an operation.
    fn begin(header: &Header, variant: Variant, op: Op) -> Self
        requires subject { header.now.subject ≡ subject }
        requires method { subject_of op.method ≡ subject }
        requires args { are_args header.now.size op.method op.args ≡ true }
        ensures { rest header.now result ≡ procedure header.now variant op };

    /// What comes next.
    fn wants(&self, header: &Header) -> Act
        requires subject { header.now.subject ≡ subject }
        requires sound { IsSoundSomewhere header.now (rest header.now self.now) }
        ensures { result ≡ next_act (rest header.now self.now) };

    /// Goes on with the answer to what came next, in place: it may be some hundred bytes, and most
    /// steps change few of them.
    fn took(&mut self, header: &Header, answer: u64)
        requires subject { header.now.subject ≡ subject }
        requires sound { IsSoundSomewhere header.now (rest header.now self.old) }
        requires goes_on { next_act (rest header.now self.old) ≢ Done }
        requires answer { IsAnswer (next_act (rest header.now self.old)) answer }
        ensures { rest header.now self.new ≡ after_answer (rest header.now self.old) answer };

    /// Whether nothing is left, as after the return. The place says so, whatever the header.
    fn is_over(&self) -> bool
        ensures { (h : Header) → h.subject ≡ subject
            → result ≡ is_done (next_act (rest h self.now)) };

    // Each procedure is sound.
    ghost is_sound: { (h : Header) (variant : Variant) (op : Op) → h.subject ≡ subject
        → subject_of op.method ≡ subject → are_args h.size op.method op.args ≡ true
        → are_small op.args ≡ true
        → IsSound h (just_called op.method) (procedure h variant op) };

    // With the mark of its call it keeps to its bound, and its return is its end.
    ghost ends_in_time: { (h : Header) (variant : Variant) (op : Op) → h.subject ≡ subject
        → subject_of op.method ≡ subject → are_args h.size op.method op.args ≡ true
        → are_small op.args ≡ true
        → EndsByReturn (bound_of h op.method - 1) (procedure h variant op) };

    // Played alone, a correct one does what the specification says.
    ghost is_right_alone: { (h : Header) (op : Op) → h.subject ≡ subject
        → subject_of op.method ≡ subject → are_args h.size op.method op.args ≡ true
        → are_small op.args ≡ true
        → IsRightAlone h op (procedure h Correct op) };
}
