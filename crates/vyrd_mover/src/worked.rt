//! Small histories, worked out by the definitions. Each function does nothing: its contract has the
//! cases.

ghost use Rattle.std.specs.Prelude.{◌≡◌, true};
ghost use Rattle.vyrd_base.specs.Histories.{is_legal, cells_of};
ghost use Rattle.vyrd_base.specs.Samples.{alone, two};
ghost use Rattle.vyrd_mover.specs.Blocks.{blocks_of};
ghost use Rattle.vyrd_mover.specs.Samples.{insert_alone, two_writers, taken_again, beside_another};
ghost use Rattle.vyrd_mover.specs.Samples.{blocks_across};
ghost use Rattle.vyrd_mover.specs.declared.blocks.Blocks.TheVariants.{Reducible, Broken};

/// The histories are legal.
#[tactic(auto, unfolding(crate::proofs::Opened::opened))]
pub fn legal_samples()
    ensures insert_alone { is_legal (cells_of alone) insert_alone ≡ true }
    ensures two_writers { is_legal (cells_of two) two_writers ≡ true }
    ensures taken_again { is_legal (cells_of alone) taken_again ≡ true }
    ensures beside_another { is_legal (cells_of two) beside_another ≡ true }
    ensures blocks_across { is_legal (cells_of two) blocks_across ≡ true }
{}

/// An insert's block is reducible, and so are two writes whose words are guarded by a lock. Two
/// writes that another caller's writes may come between aren't, nor is a lock that is taken anew
/// after it was given back. Of several blocks the one that is opened first is named, and one that
/// doesn't end isn't judged.
#[tactic(auto, unfolding(crate::proofs::Opened::opened))]
pub fn blocks_of_samples()
    ensures insert_alone { blocks_of (cells_of alone) insert_alone ≡ Reducible 1 }
    ensures two_writers { blocks_of (cells_of two) two_writers ≡ Broken 2 4 }
    ensures taken_again { blocks_of (cells_of alone) taken_again ≡ Broken 2 5 }
    ensures beside_another { blocks_of (cells_of two) beside_another ≡ Reducible 1 }
    ensures blocks_across { blocks_of (cells_of two) blocks_across ≡ Broken 2 7 }
{}
