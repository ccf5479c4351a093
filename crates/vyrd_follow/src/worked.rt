//! What is said of small logs, worked out by the definitions. Each function does nothing: its
//! contract has the case.

ghost use Rattle.std.specs.Prelude.{◌≡◌, ◌∷◌, []};
ghost use Rattle.vyrd_base.specs.Rules.{built_in};
ghost use Rattle.vyrd_base.specs.Samples.{alone};
ghost use Rattle.vyrd_base.specs.declared.own.effect.Effect.TheVariants.{SetShown};
ghost use Rattle.vyrd_witness.specs.declared.item.Item.TheVariants.{Before, Hidden, LastStepped};
ghost use Rattle.vyrd_witness.specs.Samples.{second, kept, replaced};
ghost use Rattle.vyrd_follow.specs.Following.{followed_items};
ghost use Rattle.vyrd_follow.specs.LastSteps.{last_items};
ghost use Rattle.vyrd_follow.specs.Samples.{said_of_kept, said_of_replaced};

/// An insert, and a delete that leaves the value in its slot.
#[tactic(auto, unfolding(vyrd_base::proofs::Opened::opened))]
pub fn insert_and_missing_write()
    ensures { followed_items (built_in alone) [] kept ≡ said_of_kept }
{}

/// A commit inside a block: what the block writes after it is said before the step.
#[tactic(auto, unfolding(vyrd_base::proofs::Opened::opened))]
pub fn commit_inside_a_block()
    ensures { followed_items (built_in second) [] replaced ≡ said_of_replaced }
{}

/// The last of two steps that set a key is told. No step has set another key, or a hidden amount.
#[tactic(auto, unfolding(vyrd_base::proofs::Opened::opened))]
pub fn last_of_two_steps()
    ensures first { last_items (built_in alone) [] kept 6 (Before 6 5 1 ∷ Before 6 7 0 ∷ [])
        ≡ LastStepped 3 (SetShown 5 1) ∷ [] }
    ensures second { last_items (built_in alone) [] kept 8 (Hidden 8 5 0 ∷ Before 8 5 0 ∷ [])
        ≡ LastStepped 6 (SetShown 5 0) ∷ [] }
{}
