//! A specification of a user's own, worked out by the definitions: what its text spells, and what
//! it then says of calls, states and words. Each function does nothing: its contract has the cases.

ghost use Rattle.std.specs.Prelude.{◌≡◌, [], ◌∷◌, Some, None};
ghost use Rattle.vyrd_base.specs.Own.Expressions.{most};
ghost use Rattle.vyrd_base.specs.Own.OwnRules.{own_next, own_answer, own_shown, own_view};
ghost use Rattle.vyrd_base.specs.Own.OwnRules.{own_start};
ghost use Rattle.vyrd_base.specs.Own.Lines.{nothing_written};
ghost use Rattle.vyrd_base.specs.Own.Reader.{written_in};
ghost use Rattle.vyrd_base.specs.Own.Samples.{queue, queue_text, queued};
ghost use Rattle.vyrd_base.specs.States.{showing};

/// The text of a queue spells the specification of which the other cases speak.
#[tactic(auto, unfolding(crate::proofs::OpenedOwn::opened_reading))]
pub fn a_text()
    ensures read { written_in queue_text ≡ queue }
    ensures without_lines { written_in [] ≡ nothing_written }
{}

/// Calls of the queue: method 0 is `enqueue`, and method 1 is `dequeue`.
#[tactic(auto, unfolding(crate::proofs::OpenedOwn::opened_steps))]
pub fn calls_of_a_queue()
    ensures enqueued { own_next queue 0 (5 ∷ []) 1 (queued ((7, 1) ∷ []) (7 ∷ []))
        ≡ Some (queued ((5, 1) ∷ (7, 1) ∷ []) (7 ∷ 5 ∷ [])) }
    ensures not_enqueued { own_next queue 0 (5 ∷ []) 0 (queued [] []) ≡ None }
    ensures dequeued { own_next queue 1 [] 8 (queued ((5, 1) ∷ (7, 1) ∷ []) (7 ∷ 5 ∷ []))
        ≡ Some (queued ((5, 1) ∷ []) (5 ∷ [])) }
    ensures out_of_order { own_next queue 1 [] 6 (queued ((5, 1) ∷ (7, 1) ∷ []) (7 ∷ 5 ∷ []))
        ≡ None }
    ensures no_method { own_next queue 2 [] 1 (queued [] []) ≡ None }
    ensures found_nothing { own_answer queue (queued [] []) 1 [] ≡ 0 }
    ensures must_commit { own_answer queue (queued ((5, 1) ∷ []) (5 ∷ [])) 1 [] ≡ most }
    ensures always_commits { own_answer queue (queued [] []) 0 (5 ∷ []) ≡ most }
    ensures no_such_answer { own_answer queue (queued [] []) 2 [] ≡ most }
{}

/// Three slots, of which two hold 5 and the one between them is free. A specification without a
/// part compares nothing.
#[tactic(auto, unfolding(crate::proofs::OpenedOwn::opened_steps))]
pub fn words_of_a_queue()
    ensures view { own_view queue (1 ∷ 5 ∷ 0 ∷ 7 ∷ 1 ∷ 5 ∷ []) ≡ (5, 2) ∷ [] }
    ensures start { own_start queue (1 ∷ 5 ∷ 0 ∷ 7 ∷ 1 ∷ 5 ∷ []) ≡ queued ((5, 2) ∷ []) [] }
    ensures shown { own_shown queue (queued ((5, 2) ∷ []) (5 ∷ 5 ∷ [])) ≡ (5, 2) ∷ [] }
    ensures no_part { own_shown nothing_written (showing ((5, 2) ∷ [])) ≡ [] }
    ensures no_view { own_view nothing_written (1 ∷ 5 ∷ []) ≡ [] }
    ensures no_start { own_start nothing_written (1 ∷ 5 ∷ []) ≡ showing [] }
{}
