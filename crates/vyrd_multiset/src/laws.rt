//! Laws of the procedures. Each function does nothing: its contract is the law.

ghost use Rattle.std.specs.Prelude.{◌≡◌, ℕ, false, Some};
ghost use Rattle.vyrd_base.specs.declared.header.Header.{Header};
ghost use Rattle.vyrd_base.specs.declared.subject.Subject.TheVariants.{Multiset};
ghost use Rattle.vyrd_base.specs.Amounts.{Amounts};
ghost use Rattle.vyrd_memory.specs.declared.op.Variant.TheVariants.{Correct};
ghost use Rattle.vyrd_memory.specs.Alone.{Memory, state_in, alone, GivesUpWhere};
ghost use Rattle.vyrd_multiset.specs.Procedures.{insert, insert_pair};
ghost use Rattle.vyrd_multiset.specs.Room.{free_slots_for, has_room_for_both};

/// An insert that is played alone replies 0 exactly when the bucket of its value has no free slot.
pub fn insert_gives_up()
    ensures { (h : Header) (memory : Memory) (state : Amounts) (c x : ℕ) → h.subject ≡ Multiset
        → state_in h memory ≡ Some state
        → GivesUpWhere (free_slots_for h memory x ≡ 0) (alone c (insert h Correct x) memory) }
{}

/// An insert_pair that is played alone replies 0 exactly when its two values don't find a free slot
/// each.
pub fn insert_pair_gives_up()
    ensures { (h : Header) (memory : Memory) (state : Amounts) (c x y : ℕ) → h.subject ≡ Multiset
        → state_in h memory ≡ Some state
        → GivesUpWhere (has_room_for_both h memory x y ≡ false)
        (alone c (insert_pair h Correct x y) memory) }
{}
