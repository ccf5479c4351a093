//! Laws of the procedures. Each function does nothing: its contract is the law.

ghost use Rattle.std.specs.Prelude.{◌≡◌, ℕ, true, false, Some};
ghost use Rattle.vyrd_base.specs.declared.header.Header.{Header};
ghost use Rattle.vyrd_base.specs.declared.subject.Subject.TheVariants.{Cache};
ghost use Rattle.vyrd_base.specs.Amounts.{Amounts};
ghost use Rattle.vyrd_base.specs.Subjects.{subject_of, is_observer, are_args};
ghost use Rattle.vyrd_memory.specs.declared.op.Op.{Op};
ghost use Rattle.vyrd_memory.specs.declared.op.Variant.TheVariants.{Correct};
ghost use Rattle.vyrd_memory.specs.Arguments.{are_small};
ghost use Rattle.vyrd_memory.specs.Alone.{Memory, state_in, alone, GivesUpWhere};
ghost use Rattle.vyrd_cache.specs.Procedures.{cache_procedure};

/// A write, a flush or an evict that is played alone never gives up: it doesn't reply 0.
pub fn never_gives_up()
    ensures { (h : Header) (memory : Memory) (state : Amounts) (c : ℕ) (op : Op) →
        h.subject ≡ Cache → subject_of op.method ≡ Cache → is_observer op.method ≡ false →
        are_args h.size op.method op.args ≡ true → are_small op.args ≡ true →
        state_in h memory ≡ Some state →
        GivesUpWhere ⊥ (alone c (cache_procedure h Correct op) memory) }
{}
