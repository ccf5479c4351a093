//! Witnesses of small logs, worked out by the definitions. Each function does nothing: its contract
//! has the case.

ghost use Rattle.std.specs.Prelude.{◌≡◌, ◌+◌, ◌^◌, ◌∷◌, [], map, take, Some, None};
ghost use Rattle.vyrd_base.specs.Rules.{built_in, rules_of};
ghost use Rattle.vyrd_base.specs.Samples.{alone, two, no_block, raced, write};
ghost use Rattle.vyrd_base.specs.Verdicts.{verdict};
ghost use Rattle.vyrd_base.specs.declared.verdict.Rule.TheVariants.{BlockRaced};
ghost use Rattle.vyrd_base.specs.declared.verdict.Verdict.TheVariants.{Violation, Malformed};
ghost use Rattle.vyrd_base.specs.declared.verdict.Why.TheVariants.{View};
ghost use Rattle.vyrd_witness.specs.declared.item.Item.TheVariants.{Called, Replied, Shown, Given};
ghost use Rattle.vyrd_witness.specs.declared.item.Item.TheVariants.{AgreedAtStart, Changed};
ghost use Rattle.vyrd_witness.specs.declared.item.Item.TheVariants.{OpenCall, OpenBlock};
ghost use Rattle.vyrd_witness.specs.declared.item.Item.TheVariants.{Held, Passed};
ghost use Rattle.vyrd_witness.specs.Given.{given_parts, parts_by_number};
ghost use Rattle.vyrd_witness.specs.Items.{view_items};
ghost use Rattle.vyrd_witness.specs.Samples.{second, kept, replaced, shown_and_hidden};
ghost use Rattle.vyrd_witness.specs.Samples.{shown_too_early, second_of_two, passed, passing};
ghost use Rattle.vyrd_witness.specs.Samples.{filled_twice, shown_twice, tree_of_two, to_itself};
ghost use Rattle.vyrd_witness.specs.Opens.{open_items};
ghost use Rattle.vyrd_witness.specs.Races.{race_items};
ghost use Rattle.vyrd_witness.specs.ViewWitnesses.{amount_then, parts_then, changes_along};
ghost use Rattle.vyrd_witness.specs.ViewWitnesses.{commit_before};

/// A delete that leaves the value in its slot: nothing changed the key since the commit before, so
/// the write is missing.
#[tactic(auto, unfolding(vyrd_base::proofs::Opened::opened))]
pub fn missing_write()
    ensures verdict { verdict (rules_of alone) [] kept ≡ Violation 8 (View 5) }
    ensures since { commit_before kept 6 ≡ Some 3 }
    ensures agreed { amount_then (rules_of alone) [] kept 4 5 ≡ 1 }
    ensures shown { amount_then (rules_of alone) [] kept 7 5 ≡ 1 }
    ensures parts { parts_then (built_in alone) [] kept 7 5 ≡ (0, 1) ∷ [] }
    ensures changes { changes_along (rules_of alone) [] kept 4 7 5 ≡ [] }
{}

/// A commit inside a block: what the block writes after it takes effect there too.
#[tactic(auto, unfolding(vyrd_base::proofs::Opened::opened))]
pub fn commit_inside_a_block()
    ensures verdict { verdict (rules_of second) [] replaced ≡ Violation 5 (View 5) }
    ensures since { commit_before replaced 3 ≡ None }
    ensures agreed { amount_then (rules_of second) [] replaced 0 5 ≡ 0 }
    ensures shown { amount_then (rules_of second) [] replaced 4 5 ≡ 0 }
    ensures parts { parts_then (built_in second) [] replaced 4 5 ≡ [] }
    ensures changes { changes_along (rules_of second) [] replaced 0 4 5 ≡ shown_and_hidden }
    ensures items { view_items (built_in second) [] replaced 3 5
        ≡ Called 0 ∷ Replied 7 ∷ AgreedAtStart 5 0 ∷ Shown 3 5 0 ∷ map (Changed 5) shown_and_hidden }
{}

/// An insert that fills two slots with its value, each of which gives 1 to it.
#[tactic(auto, unfolding(vyrd_base::proofs::Opened::opened))]
pub fn two_slots_filled()
    ensures verdict { verdict (rules_of alone) [] filled_twice ≡ Violation 7 (View 5) }
    ensures shown { amount_then (rules_of alone) [] filled_twice 6 5 ≡ 2 }
    ensures parts { parts_then (built_in alone) [] filled_twice 6 5 ≡ (0, 1) ∷ (1, 1) ∷ [] }
    ensures items { view_items (built_in alone) [] filled_twice 5 5
        ≡ Called 0 ∷ Replied 6 ∷ AgreedAtStart 5 0 ∷ Shown 5 5 2
        ∷ Given 5 0 5 1 ∷ Given 5 1 5 1 ∷ map (Changed 5) shown_twice }
{}

/// A tree whose second node leads back to itself. Each node gives its entry, and the second one
/// damage besides.
pub fn link_to_the_node_itself()
    ensures first { given_parts 3 (parts_by_number (built_in tree_of_two) to_itself)
        ≡ (0, 2 ^ 32 + 7) ∷ [] }
    ensures second { given_parts 4 (parts_by_number (built_in tree_of_two) to_itself)
        ≡ (1, 2 ^ 32 + 8) ∷ [] }
    ensures damage { given_parts (2 ^ 33) (parts_by_number (built_in tree_of_two) to_itself)
        ≡ (1, 1) ∷ [] }
{}

/// A write outside a block that shows too early at the commit of another caller.
#[tactic(auto, unfolding(vyrd_base::proofs::Opened::opened))]
pub fn write_of_another_caller()
    ensures verdict { verdict (rules_of two) [] no_block ≡ Violation 7 (View 5) }
    ensures since { commit_before no_block 5 ≡ None }
    ensures agreed { amount_then (rules_of two) [] no_block 0 5 ≡ 0 }
    ensures shown { amount_then (rules_of two) [] no_block 6 5 ≡ 1 }
    ensures parts { parts_then (built_in two) [] no_block 6 5 ≡ (0, 1) ∷ [] }
    ensures changes { changes_along (rules_of two) [] no_block 0 6 5 ≡ shown_too_early }
{}

/// A write to a word that another caller's open block has written. Both calls and that block are
/// open before it.
#[tactic(auto, unfolding(vyrd_base::proofs::Opened::opened))]
pub fn held_word()
    ensures verdict { verdict (rules_of two) [] raced ≡ Malformed 6 BlockRaced }
    ensures held { race_items two (take 4 raced) (write 1 0 1) ≡ Held 2 ∷ [] }
    ensures own { race_items two (take 4 raced) (write 0 0 1) ≡ [] }
    ensures open { open_items two (take 4 raced) ≡ OpenCall 0 ∷ OpenBlock 1 ∷ OpenCall 3 ∷ [] }
{}

/// A write behind the commit inside its block, to a word that another caller has written since that
/// commit.
#[tactic(auto, unfolding(vyrd_base::proofs::Opened::opened))]
pub fn passed_word()
    ensures verdict { verdict (rules_of second_of_two) [] passed ≡ Malformed 8 BlockRaced }
    ensures passed { race_items second_of_two (take 6 passed) (write 0 0 2)
        ≡ Passed passing ∷ [] }
    ensures other { race_items second_of_two (take 6 passed) (write 0 2 2) ≡ [] }
{}
