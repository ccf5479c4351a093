//! The slots of a multiset.

ghost use Rattle.std.specs.Prelude.{◌≡◌, ◌≤◌};

use crate::decode::{Decode, NOTHING};

/// Where a slot has its state.
const STATE: usize = 0;

/// Where a slot has its value.
const VALUE: usize = 1;

/// The state of a slot that holds a value of the multiset.
const VALID: u64 = 2;

/// How many slots a bucket has.
const BUCKET_SLOTS: usize = 4;

/// The slots of a multiset of this size. A slot gives 1 to its value if it is valid, and otherwise
/// it gives nothing.
#[derive(Clone, Copy)]
pub(crate) struct Slots {
    size: usize,
    ghost small: { size ≤ 1024 },
}

impl Slots {
    /// The slots of a multiset with that many buckets.
    pub(crate) fn new(size: usize) -> Slots
        requires { size ≤ 1024 }
        ensures { result.size ≡ size }
    {
        Slots { size }
    }
}

impl Decode for Slots {
    ghost use Rattle.std.specs.Prelude.{◌*◌, refl};
    ghost use Rattle.vyrd_base.specs.declared.subject.Subject.TheVariants.{Multiset};
    ghost use Rattle.vyrd_view.specs.Known.{of_subject};
    ghost use Rattle.vyrd_view.specs.Pairs.{slot_gives};
    ghost use Rattle.vyrd_view.specs.Laws.Slots.{slots_narrow, slots_bounded, slots_few};
    ghost use Rattle.vyrd_view.specs.Laws.Slots.{slots_show};

    ghost width = { λ slots. 2 };

    ghost places = { λ slots. 1 };

    ghost most_places = { λ shows. 1 };

    ghost parts = { λ slots. 4 * slots.size };

    ghost gives = { λ slots. slot_gives };

    ghost shows = { λ slots. of_subject Multiset slots.size };

    ghost narrow = { λ slots. slots_narrow };

    ghost bounded = { λ slots. slots_bounded };

    ghost few = { λ slots. slots_few slots.size slots.small };

    ghost quiet = { λ slots part j. refl };

    ghost shown = { λ slots words count. slots_show slots.size words };

    #[inline(always)]
    fn width(&self) -> usize {
        2
    }

    #[inline(always)]
    fn places(&self) -> usize {
        1
    }

    #[inline(always)]
    fn parts(&self) -> usize {
        BUCKET_SLOTS * self.size
    }

    #[inline(always)]
    fn decode(&self, _part: usize, words: &[u64]) -> [(u64, u64); 4] {
        if words[STATE] == VALID {
            [(words[VALUE], 1), NOTHING, NOTHING, NOTHING]
        } else {
            [NOTHING; 4]
        }
    }
}
