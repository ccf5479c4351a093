//! The lines of items, worked out by the definition. Each function does nothing: its contract has
//! the case.

ghost use Rattle.std.specs.Prelude.{◌≡◌, ◌∷◌, [], map, codes};
ghost use Rattle.vyrd_base.specs.declared.own.effect.Effect.TheVariants.{SetShown, SetHidden};
ghost use Rattle.vyrd_base.specs.declared.own.effect.Effect.TheVariants.{SetRegister, PutLast};
ghost use Rattle.vyrd_base.specs.declared.own.effect.Effect.TheVariants.{PutFirst, TakeFirst};
ghost use Rattle.vyrd_base.specs.declared.own.effect.Effect.TheVariants.{TakeLast, Empty};
ghost use Rattle.vyrd_base.specs.declared.own.effect.Effect.TheVariants.{EmptyShown};
ghost use Rattle.vyrd_base.specs.Own.Expressions.{most};
ghost use Rattle.vyrd_base.specs.Verdicts.{line_of};
ghost use Rattle.vyrd_witness.specs.declared.item.Item.TheVariants.{Called, Replied, Shown};
ghost use Rattle.vyrd_witness.specs.declared.item.Item.TheVariants.{AgreedAtStart, Changed};
ghost use Rattle.vyrd_witness.specs.declared.item.Item.TheVariants.{Register, Elements, Hidden};
ghost use Rattle.vyrd_witness.specs.declared.item.Item.TheVariants.{Answered, Unanswered};
ghost use Rattle.vyrd_witness.specs.Samples.{shown_and_hidden};
ghost use Rattle.vyrd_witness.specs.declared.item.Item.TheVariants.{Given, Wrote, Stepped};
ghost use Rattle.vyrd_witness.specs.declared.item.Item.TheVariants.{LastStepped};
ghost use Rattle.vyrd_item_text.specs.ItemText.{items_text};

/// What is said of a view that differs, line by line.
#[tactic(auto, unfolding(vyrd_base::proofs::Opened::opened_text, crate::proofs::Opened::opened))]
pub fn text_of_a_commit_inside_a_block()
    ensures { items_text (line_of []) (Called 0 ∷ Replied 7 ∷ AgreedAtStart 5 0 ∷ Shown 3 5 0
        ∷ map (Changed 5) shown_and_hidden) ≡ codes
        "call at line 2\nreply at line 9\nagreed at the start: key 5 amount 0\nwords after line 5: key 5 amount 0\nchange at line 6: word 0 from 0 to 2, in effect at line 5, key 5 amount 0 to 1\nchange at line 7: word 1 from 5 to 6, in effect at line 5, key 5 amount 1 to 0\n" }
{}

/// What is said of a state of a user's own specification: of a register, of one that is `none`, of
/// a list, of an empty one, of a hidden amount, and that no answer is right. The greatest reply is
/// a number as any other.
#[tactic(auto, unfolding(vyrd_base::proofs::Opened::opened_text, crate::proofs::Opened::opened))]
pub fn text_of_an_own_state()
    ensures { items_text (line_of []) (Register 3 0 7 ∷ Register 3 1 most ∷ Elements 3 0 2 8 9
        ∷ Elements 3 1 0 most most ∷ Hidden 3 5 4 ∷ Unanswered 1 ∷ Answered 1 most ∷ []) ≡ codes
        "state before line 5: register 0 value 7\nstate before line 5: register 1 value none\nstate before line 5: list 0 size 2 first 8 last 9\nstate before line 5: list 1 size 0 first none last none\nstate before line 5: hidden key 5 amount 4\nanswer from line 3: none\nanswer from line 3: 18446744073709551615\n" }
{}

/// What is said of a part of what the words show, of a write that changes nothing of that and takes
/// effect on another line, and of what steps do: each of the nine effects. A value may be `none`, a
/// key and an amount are numbers.
#[tactic(auto, unfolding(vyrd_base::proofs::Opened::opened_text, crate::proofs::Opened::opened))]
pub fn text_of_what_changes()
    ensures { items_text (line_of []) (Given 3 0 5 2
        ∷ Wrote (record { written = 4; at = 6; caller = 1; word = 2; value = 8 }) most
        ∷ Stepped 3 (SetShown 5 most) ∷ Stepped 3 (SetHidden most 4)
        ∷ Stepped 3 (SetRegister 1 most) ∷ Stepped 3 (PutLast 0 7) ∷ Stepped 3 (PutFirst 0 most)
        ∷ Stepped 3 (TakeFirst 2) ∷ LastStepped 1 (TakeLast 2) ∷ LastStepped 1 (Empty 0)
        ∷ LastStepped 1 EmptyShown ∷ []) ≡ codes
        "part 0 after line 5: key 5 amount 2\nwrite at line 6: word 2 from 18446744073709551615 to 8, in effect at line 8\nstep at line 5: key 5 amount 18446744073709551615\nstep at line 5: hidden key 18446744073709551615 amount 4\nstep at line 5: register 1 value none\nstep at line 5: list 0 append 7\nstep at line 5: list 0 prepend none\nstep at line 5: list 2 drop first\nlast step at line 3: list 2 drop last\nlast step at line 3: list 0 clear\nlast step at line 3: clear\n" }
{}
