//! The amounts of one key on both sides.

ghost use Rattle.std.specs.Prelude.{◌≡◌, Bool};

use vyrd_table::{Marked, Value};

/// What the words and the specification have of one key.
#[derive(Clone, Copy)]
pub(crate) struct Both {
    pub(crate) shown: u64,
    pub(crate) specified: u64,
}

/// With no amount on either side a key isn't there.
impl Value for Both {
    ghost use Rattle.std.specs.Prelude.{refl};
    ghost use Rattle.vyrd_view.specs.TwoAmounts.{neither, is_neither};
    ghost use Rattle.vyrd_view.specs.Laws.TwoAmounts.{only_neither};

    ghost nothing = { neither };

    ghost is_nothing = { is_neither };

    #[inline(always)]
    fn nothing() -> Both {
        Both {
            shown: 0,
            specified: 0,
        }
    }

    #[inline(always)]
    fn is_nothing(self) -> bool {
        self.shown == 0 && self.specified == 0
    }

    ghost only_nothing = { only_neither };

    ghost nothing_passes = { refl };

    ghost clones_equal = { λ value clone same. same };
}

/// A key whose amounts differ is marked.
impl Marked for Both {
    ghost use Rattle.std.specs.Prelude.{refl};
    ghost use Rattle.vyrd_view.specs.TwoAmounts.{is_apart};

    ghost is_marked = { is_apart };

    #[inline(always)]
    fn is_marked(self) -> bool {
        self.shown != self.specified
    }

    ghost nothing_is_plain = { refl };
}
