//! Words that are written one after another.

ghost use Rattle.std.specs.Prelude.{◌≡◌, ◌++◌, ◌<◌, ℕ, List, length, OnOk};
ghost use Rattle.vyrd_base.specs.Rules.{Charter, rules_by};
ghost use Rattle.vyrd_witness.specs.Changes.{words_after_effect};
ghost use Rattle.vyrd_follow.specs.Following.{write_items};

use std::alloc::AllocError;
use vyrd_witness::{Effect, Item};

/// The words of a structure, which are written one after another, and what they show.
///
/// The only error of its calls is that memory has run out. Then the value may only be dropped.
pub trait Follows: Sized + Drop {
    // What names the rules by which the words show something.
    ghost charter: { Self → Charter };

    // The words.
    ghost words: { Self → List ℕ };

    /// Lets a write take effect, and puts what is said of it at the end: each key of which the
    /// words then show another amount, the least first, or the write alone if there is none.
    fn write(&mut self, effect: Effect, items: &mut Vec<Item>) -> Result<(), AllocError>
        requires within { effect.word < length (words self.old) }
        ensures items { OnOk result (items.new.items ≡ items.old.items
            ++ write_items (rules_by (charter self.old)) (words self.old) effect) }
        ensures words { OnOk result
            (words self.new ≡ words_after_effect (words self.old) effect) }
        ensures charter { charter self.new ≡ charter self.old };
}
