//! Structures whose verdicts are explained.

ghost use Rattle.std.specs.Prelude.{◌≡◌, ◌<◌, ◌^◌, length, true, None, IfOk};
ghost use Rattle.vyrd_base.specs.Front.{first_break};
ghost use Rattle.vyrd_base.specs.Rules.{rules_by};
ghost use Rattle.vyrd_base.specs.Starts.{may_start};
ghost use Rattle.vyrd_base.specs.Subjects.{is_built_in};
ghost use Rattle.vyrd_explain.specs.Verdicts.{state_items};

use std::alloc::{AllocError, Global};
use vyrd_base::{Entry, StartWord, Why};
use vyrd_witness::{Item, Shown};

/// A structure whose words show something, and whose specification's state is asked of faults.
pub(crate) trait Explains: Shown {
    /// What the specification's state says of a fault at a position of a front. The only error is
    /// that memory has run out.
    fn state_items(
        &self,
        alloc: Global,
        starting: &[StartWord],
        front: &[Entry],
        at: usize,
        why: Why,
    ) -> Result<Vec<Item>, AllocError>
        requires may_start { is_built_in (rules_by (Self.charter self.now)).header.subject ≡ true
            → may_start (rules_by (Self.charter self.now)).header starting.now ≡ true }
        requires within { at < length front.now }
        requires kept { first_break (rules_by (Self.charter self.now)).header front.now ≡ None }
        requires few { length front.now < 2 ^ 62 }
        ensures { IfOk result (λ items. items.items
            ≡ state_items (Self.charter self.now) starting.now front.now at why) };
}
