//! Steps and answers of small specifications, worked out by the definitions. Each function does
//! nothing: its contract has the cases.

ghost use Rattle.std.specs.Prelude.{◌≡◌, [], ◌∷◌, Some, None};
ghost use Rattle.vyrd_base.specs.Own.Expressions.{value, least, greatest, number, most};
ghost use Rattle.vyrd_base.specs.Own.Expressions.{infix_of, choice, at, first, size, shown};
ghost use Rattle.vyrd_base.specs.declared.own.op.Op.TheVariants.{Plus, Minus, Over};
ghost use Rattle.vyrd_base.specs.Own.Steps.{next_of, answer_of, start_of, part_gives, view_of};
ghost use Rattle.vyrd_base.specs.Own.Samples.{queue, enqueue, dequeue, queued};
ghost use Rattle.vyrd_own.specs.Prices.{nodes_of, looked_at, effects_price, answer_price};
ghost use Rattle.vyrd_own.specs.Prices.{step_price};
ghost use Rattle.vyrd_own.specs.Reads.{counted, worths};
ghost use Rattle.vyrd_own.specs.Samples.{compare_and_set, clear_all, no_amount, shown_of};
ghost use Rattle.vyrd_base.specs.States.{showing};

/// A queue gives back its elements in their order, each of them once.
#[tactic(auto, unfolding(vyrd_base::proofs::OpenedOwn::opened_steps))]
pub fn a_queue()
    ensures start { start_of queue ≡ queued [] [] }
    ensures enqueued { next_of queue enqueue (5 ∷ []) 1 (queued ((7, 2) ∷ []) (7 ∷ 7 ∷ []))
        ≡ Some (queued ((5, 1) ∷ (7, 2) ∷ []) (7 ∷ 7 ∷ 5 ∷ [])) }
    ensures dequeued { next_of queue dequeue [] 8 (queued ((5, 1) ∷ (7, 1) ∷ []) (7 ∷ 5 ∷ []))
        ≡ Some (queued ((5, 1) ∷ []) (5 ∷ [])) }
    ensures out_of_order { next_of queue dequeue [] 6
        (queued ((5, 1) ∷ (7, 1) ∷ []) (7 ∷ 5 ∷ [])) ≡ None }
    ensures found_nothing { answer_of queue dequeue [] (queued [] []) ≡ Some 0 }
    ensures must_commit { answer_of queue dequeue [] (queued ((5, 1) ∷ []) (5 ∷ []))
        ≡ Some most }
    ensures always_commits { answer_of queue enqueue (5 ∷ []) (queued [] []) ≡ None }
{}

/// A slot that is free gives nothing to its element.
#[tactic(auto, unfolding(vyrd_base::proofs::OpenedOwn::opened_steps))]
pub fn what_words_show()
    ensures taken { part_gives queue 3 (1 ∷ 5 ∷ []) ≡ (5, 1) ∷ [] }
    ensures free { part_gives queue 3 (0 ∷ 5 ∷ []) ≡ (5, 0) ∷ [] }
    ensures all_0 { part_gives queue 3 (0 ∷ 0 ∷ []) ≡ [] }
    ensures sums { view_of queue (1 ∷ 5 ∷ 0 ∷ 7 ∷ 1 ∷ 5 ∷ []) ≡ (5, 2) ∷ [] }
{}

/// A compare-and-set that fails changes nothing, and needs no commit.
#[tactic(auto, unfolding(vyrd_base::proofs::OpenedOwn::opened_steps))]
pub fn a_counter()
    ensures set { next_of queue compare_and_set (7 ∷ 9 ∷ []) 1 (showing ((0, 7) ∷ []))
        ≡ Some (showing ((0, 9) ∷ [])) }
    ensures set_to_0 { next_of queue compare_and_set (7 ∷ 0 ∷ []) 1 (showing ((0, 7) ∷ []))
        ≡ Some (showing []) }
    ensures failed { next_of queue compare_and_set (5 ∷ 9 ∷ []) 1 (showing ((0, 7) ∷ []))
        ≡ None }
    ensures said_so { answer_of queue compare_and_set (5 ∷ 9 ∷ []) (showing ((0, 7) ∷ []))
        ≡ Some 0 }
    ensures counted { next_of queue clear_all [] 2 (showing ((0, 7) ∷ (4, 1) ∷ []))
        ≡ Some (showing []) }
{}

/// The nearest key, and the ends of the numbers.
#[tactic(auto, unfolding(vyrd_base::proofs::OpenedOwn::opened_steps))]
pub fn values()
    ensures least_at { value (showing ((3, 1) ∷ (8, 2) ∷ [])) [] (least (number 3)) ≡ 3 }
    ensures least_above { value (showing ((3, 1) ∷ (8, 2) ∷ [])) [] (least (number 4)) ≡ 8 }
    ensures no_least { value (showing ((3, 1) ∷ (8, 2) ∷ [])) [] (least (number 9)) ≡ most }
    ensures greatest_below { value (showing ((3, 1) ∷ (8, 2) ∷ [])) [] (greatest (number 7)) ≡ 3 }
    ensures no_greatest { value (showing ((3, 1) ∷ (8, 2) ∷ [])) [] (greatest (number 2)) ≡ most }
    ensures stops_at_most { value (showing []) [] (infix_of Plus (number most) (number 1)) ≡ most }
    ensures stops_at_0 { value (showing []) [] (infix_of Minus (number 3) (number 5)) ≡ 0 }
    ensures by_0 { value (showing []) [] (infix_of Over (number 3) (number 0)) ≡ 0 }
{}

/// What counts for a reply stands behind its own parts, and of a choice only the part counts that
/// its test leads to.
#[tactic(auto, unfolding(vyrd_base::proofs::OpenedOwn::opened_steps))]
pub fn what_counts()
    ensures not_set { worths queue compare_and_set (showing ((0, 7) ∷ [])) (5 ∷ 9 ∷ []) 1
        ≡ no_amount 0 ∷ shown_of 0 7 ∷ no_amount 5 ∷ no_amount 0
        ∷ no_amount 1 ∷ no_amount 1 ∷ no_amount 1 ∷ no_amount 0 ∷ [] }
    ensures named_first { worths queue dequeue (queued ((5, 1) ∷ []) (5 ∷ [])) [] 8
        ≡ no_amount 5 ∷ no_amount 1 ∷ no_amount 0 ∷ no_amount 1
        ∷ no_amount 8 ∷ no_amount 5 ∷ no_amount 1 ∷ no_amount 6 ∷ no_amount 0 ∷ no_amount 0 ∷ [] }
    ensures second { counted (showing []) (1 ∷ []) (choice (at 0) (size 0) (first 0))
        ≡ at 0 ∷ size 0 ∷ choice (at 0) (size 0) (first 0) ∷ [] }
    ensures third { counted (showing []) (0 ∷ []) (choice (at 0) (size 0) (first 0))
        ≡ at 0 ∷ first 0 ∷ choice (at 0) (size 0) (first 0) ∷ [] }
{}

/// What calls of a queue cost at most, however many elements it has. To take one out, a `let` of
/// one node and the reply are put at hand, 3 steps. The case is gone through with a condition of 9
/// nodes, and two lines with 5 nodes, 17 steps. Then two effects are done, 28 steps.
#[tactic(auto, unfolding(vyrd_base::proofs::OpenedOwn::opened_steps))]
pub fn prices()
    ensures nodes { nodes_of (infix_of Plus (number 1) (choice (at 0) (size 0) (first 0))) ≡ 6 }
    ensures second { looked_at (showing []) (1 ∷ []) (choice (at 0) (shown (at 0)) (number 0)) ≡ 4 }
    ensures third { looked_at (showing []) (0 ∷ []) (choice (at 0) (shown (at 0)) (number 0)) ≡ 3 }
    ensures both { nodes_of (choice (at 0) (shown (at 0)) (number 0)) ≡ 5 }
    ensures enqueue_is_found { effects_price queue enqueue (queued [] []) (5 ∷ []) ≡ 14 }
    ensures enqueued { step_price queue enqueue (queued [] []) (5 ∷ []) ≡ 42 }
    ensures dequeue_is_found { effects_price queue dequeue (queued ((5, 1) ∷ []) (5 ∷ [])) [] ≡ 20 }
    ensures dequeued { step_price queue dequeue (queued ((5, 1) ∷ []) (5 ∷ [])) [] ≡ 48 }
    ensures found_nothing { answer_price queue dequeue (queued [] []) [] ≡ 8 }
    ensures no_answer { answer_price queue enqueue (queued [] []) (5 ∷ []) ≡ 0 }
{}
