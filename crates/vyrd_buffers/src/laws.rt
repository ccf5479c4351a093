//! Laws of the procedures. Each function does nothing: its contract is the law.

ghost use Rattle.std.specs.Prelude.{◌≡◌, ℕ, ◌<◌, false, Some};
ghost use Rattle.vyrd_base.specs.declared.header.Header.{Header};
ghost use Rattle.vyrd_base.specs.declared.subject.Subject.TheVariants.{Buffers};
ghost use Rattle.vyrd_base.specs.Amounts.{Amounts, amount_of};
ghost use Rattle.vyrd_base.specs.Buffers.{text_length, has_room};
ghost use Rattle.vyrd_memory.specs.declared.op.Variant.TheVariants.{Correct};
ghost use Rattle.vyrd_memory.specs.Alone.{Memory, state_in, alone, GivesUpWhere};
ghost use Rattle.vyrd_buffers.specs.Procedures.{append, append_from, cut};

/// An append that is played alone replies 0 exactly when its buffer has 7 characters.
pub fn append_gives_up()
    ensures { (h : Header) (memory : Memory) (state : Amounts) (c b x : ℕ) →
        h.subject ≡ Buffers → b < h.size → x < 255 → state_in h memory ≡ Some state →
        GivesUpWhere (text_length (amount_of state b) ≡ 7) (alone c (append h b x) memory) }
{}

/// An append_from that is played alone replies 0 exactly when the lengths of its two buffers, which
/// may be one, sum to more than 7.
pub fn append_from_gives_up()
    ensures { (h : Header) (memory : Memory) (state : Amounts) (c b s : ℕ) → h.subject ≡ Buffers
        → b < h.size → s < h.size → state_in h memory ≡ Some state
        → GivesUpWhere (has_room (amount_of state b) (amount_of state s) ≡ false)
        (alone c (append_from h Correct b s) memory) }
{}

/// A cut that is played alone never gives up: it doesn't reply 0.
pub fn cut_never_gives_up()
    ensures { (h : Header) (memory : Memory) (state : Amounts) (c b n : ℕ) →
        h.subject ≡ Buffers → b < h.size → state_in h memory ≡ Some state →
        GivesUpWhere ⊥ (alone c (cut h b n) memory) }
{}
