//! Verdicts of small logs, words and histories, worked out by the definitions. Each function does
//! nothing: its contract has the cases.

ghost use Rattle.std.specs.Prelude.{◌≡◌, ◌^◌, [], ◌∷◌, replicate, true, false};
ghost use Rattle.vyrd_base.specs.Rules.{rules_of};
ghost use Rattle.vyrd_base.specs.Verdicts.{verdict};
ghost use Rattle.vyrd_base.specs.Represented.{state_of_words};
ghost use Rattle.vyrd_base.specs.Specification.{next_state, answer_in};
ghost use Rattle.vyrd_base.specs.Histories.{is_legal, log_of, cells_of};
ghost use Rattle.vyrd_base.specs.declared.history.Did.TheVariants.{Took, Gave, Read, Wrote, Marked};
ghost use Rattle.vyrd_base.specs.SampleWords.{multiset_of_2, cache_of_1, tree_of_4, buffers_of_1};
ghost use Rattle.vyrd_base.specs.SampleWords.{two_leaves, lookup_events, event};
ghost use Rattle.vyrd_base.specs.Samples.{args, alone, two, two_on_cache, inserted, claimed};
ghost use Rattle.vyrd_base.specs.Samples.{deleted, looked_up, too_early, beside_block, no_block};
ghost use Rattle.vyrd_base.specs.Samples.{raced, waits, stray, torn, insert, commit, begin, lookup};
ghost use Rattle.vyrd_base.specs.Samples.{return};
ghost use Rattle.vyrd_base.specs.declared.verdict.Verdict.TheVariants.{Accepted, Violation};
ghost use Rattle.vyrd_base.specs.declared.verdict.Verdict.TheVariants.{Malformed};
ghost use Rattle.vyrd_base.specs.declared.verdict.Why.TheVariants.{Reply, View, Observer};
ghost use Rattle.vyrd_base.specs.declared.verdict.Rule.TheVariants.{BlockRaced, CallOpen};
ghost use Rattle.vyrd_base.specs.declared.verdict.Rule.TheVariants.{ValueRange, WordRange};
ghost use Rattle.vyrd_base.specs.declared.verdict.Rule.TheVariants.{CallerRange, SecondCommit};
ghost use Rattle.vyrd_base.specs.declared.verdict.Rule.TheVariants.{ReturnInBlock, NoCommit};
ghost use Rattle.vyrd_base.specs.declared.log.Kind.TheVariants.{Write};
ghost use Rattle.vyrd_base.specs.declared.subject.Method.TheVariants.{Buffers as OfBuffers};
ghost use Rattle.vyrd_base.specs.declared.buffers.BuffersMethod.TheVariants.{Append, AppendFrom};
ghost use Rattle.vyrd_base.specs.declared.buffers.BuffersMethod.TheVariants.{Cut, Length};
ghost use Rattle.vyrd_base.specs.declared.buffers.BuffersMethod.TheVariants.{Read as BuRead};

/// Logs that keep the rules and refine the specification.
#[tactic(auto, unfolding(crate::proofs::Opened::opened))]
pub fn accepted_logs()
    ensures empty { verdict (rules_of alone) [] [] ≡ Accepted 0 0 0 }
    ensures in_a_block { verdict (rules_of alone) [] inserted ≡ Accepted 7 1 0 }
    ensures absent { verdict (rules_of alone) [] (deleted 0) ≡ Accepted 3 1 0 }
    ensures before_or_after { verdict (rules_of two) [] (looked_up 0) ≡ Accepted 9 1 1 }
    ensures after { verdict (rules_of two) [] (looked_up 1) ≡ Accepted 9 1 1 }
    ensures open_block_left_out { verdict (rules_of two) [] beside_block ≡ Accepted 10 2 0 }
    ensures greatest_value { verdict (rules_of alone) [] (stray 7 9223372036854775807)
        ≡ Accepted 4 1 0 }
{}

/// Logs whose commits or observers violate the specification.
#[tactic(auto, unfolding(crate::proofs::Opened::opened))]
pub fn violations()
    ensures nothing_done { verdict (rules_of alone) [] claimed ≡ Violation 3 (View 5) }
    ensures refused { verdict (rules_of alone) [] (deleted 1) ≡ Violation 3 (Reply 1) }
    ensures too_early { verdict (rules_of two) [] too_early ≡ Violation 6 (Observer 1) }
    ensures in_between { verdict (rules_of two) [] no_block ≡ Violation 7 (View 5) }
    ensures earlier_commit { verdict (rules_of two) [] (waits 1) ≡ Violation 3 (Reply 1) }
    ensures observer { verdict (rules_of two) [] (waits 0) ≡ Violation 5 (Observer 7) }
    ensures torn_write { verdict (rules_of two_on_cache) [] torn ≡ Violation 16 (View 0) }
    ensures no_such_reply { verdict (rules_of alone) [] (insert 0 5 ∷ commit 0 ∷ return 0 2 ∷ [])
        ≡ Violation 3 (Reply 2) }
{}

/// Logs that break a rule of shape.
#[tactic(auto, unfolding(crate::proofs::Opened::opened))]
pub fn malformed_logs()
    ensures raced { verdict (rules_of two) [] raced ≡ Malformed 6 BlockRaced }
    ensures open { verdict (rules_of alone) [] (lookup 0 5 ∷ []) ≡ Malformed 3 CallOpen }
    ensures value { verdict (rules_of alone) [] (stray 7 9223372036854775808)
        ≡ Malformed 3 ValueRange }
    ensures word { verdict (rules_of alone) [] (stray 8 9223372036854775807)
        ≡ Malformed 3 WordRange }
    ensures caller { verdict (rules_of alone) [] (insert 1 5 ∷ []) ≡ Malformed 2 CallerRange }
    ensures unreturned { verdict (rules_of alone) [] (insert 0 5 ∷ commit 0 ∷ [])
        ≡ Malformed 4 CallOpen }
    ensures second_commit { verdict (rules_of alone) [] (insert 0 5 ∷ commit 0 ∷ commit 0 ∷ [])
        ≡ Malformed 4 SecondCommit }
    ensures return_in_block { verdict (rules_of alone) [] (insert 0 5 ∷ begin 0 ∷ return 0 0 ∷ [])
        ≡ Malformed 4 ReturnInBlock }
    ensures no_commit { verdict (rules_of alone) [] (insert 0 5 ∷ return 0 0 ∷ [])
        ≡ Malformed 3 NoCommit }
{}

/// Words that stand for a state, and words that don't.
#[tactic(auto, unfolding(crate::proofs::Opened::opened))]
pub fn standing_words()
    ensures valid_slot { state_of_words alone (2 ∷ 5 ∷ replicate 7 0) ≡ Some ((5, 1) ∷ []) }
    ensures other_bucket { state_of_words multiset_of_2 (2 ∷ 5 ∷ replicate 16 0) ≡ None }
    ensures clean_chunk { state_of_words cache_of_1 (1 ∷ 7 ∷ 0 ∷ 7 ∷ 0 ∷ 0 ∷ [])
        ≡ Some ((0, 7) ∷ []) }
    ensures clean_but_other { state_of_words cache_of_1 (1 ∷ 7 ∷ 0 ∷ 8 ∷ 0 ∷ 0 ∷ []) ≡ None }
    ensures no_words { state_of_words alone [] ≡ None }
    ensures empty_tree { state_of_words tree_of_4 (replicate 56 0) ≡ Some [] }
    ensures tree { state_of_words tree_of_4 two_leaves
        ≡ Some ((1, 4294967297) ∷ (2, 4294967298) ∷ (3, 4294967299) ∷ (4, 4294967300)
        ∷ (5, 4294967301) ∷ []) }
    ensures text { state_of_words buffers_of_1 (2 ∷ 65 ∷ 66 ∷ 999 ∷ replicate 5 0)
        ≡ Some ((0, 17218) ∷ []) }
    ensures text_of_8 { state_of_words buffers_of_1 (8 ∷ replicate 8 0) ≡ None }
    ensures no_character { state_of_words buffers_of_1 (1 ∷ 255 ∷ replicate 7 0) ≡ None }
{}

/// What the operations of string buffers lead to. The text of the characters 65 and 66 is 17218,
/// and that of 7 zeros 282578800148737.
#[tactic(auto, unfolding(crate::proofs::Opened::opened))]
pub fn texts()
    ensures appended { next_state (OfBuffers Append) (args 0 66 0) 1 ((0, 66) ∷ []) ≡ Some ((0, 17218) ∷ []) }
    ensures not_appended { next_state (OfBuffers Append) (args 0 66 0) 0 ((0, 66) ∷ []) ≡ None }
    ensures full { next_state (OfBuffers Append) (args 0 66 0) 0 ((0, 282578800148737) ∷ [])
        ≡ Some ((0, 282578800148737) ∷ []) }
    ensures past_full { next_state (OfBuffers Append) (args 0 66 0) 1 ((0, 282578800148737) ∷ []) ≡ None }
    ensures doubled { next_state (OfBuffers AppendFrom) (args 0 0 0) 1 ((0, 66) ∷ [])
        ≡ Some ((0, 16962) ∷ []) }
    ensures from_empty { next_state (OfBuffers AppendFrom) (args 0 1 0) 1 ((0, 282578800148737) ∷ [])
        ≡ Some ((0, 282578800148737) ∷ []) }
    ensures too_long { next_state (OfBuffers AppendFrom) (args 0 1 0) 1 ((0, 282578800148737) ∷ (1, 1) ∷ [])
        ≡ None }
    ensures cut { next_state (OfBuffers Cut) (args 0 1 0) 1 ((0, 17218) ∷ []) ≡ Some ((0, 66) ∷ []) }
    ensures cut_whole { next_state (OfBuffers Cut) (args 0 0 0) 1 ((0, 17218) ∷ []) ≡ Some [] }
    ensures cut_nothing { next_state (OfBuffers Cut) (args 0 9 0) 1 ((0, 17218) ∷ [])
        ≡ Some ((0, 17218) ∷ []) }
    ensures length { answer_in ((0, 17218) ∷ []) (OfBuffers Length) (args 0 0 0) ≡ 2 }
    ensures read { answer_in ((0, 17218) ∷ []) (OfBuffers BuRead) (args 0 0 0) ≡ 17218 }
    ensures empty { answer_in [] (OfBuffers Length) (args 0 0 0) ≡ 0 }
{}

/// A legal history and its log.
#[tactic(auto, unfolding(crate::proofs::Opened::opened))]
pub fn histories()
    ensures legal { is_legal (cells_of alone) lookup_events ≡ true }
    ensures log { log_of lookup_events ≡ lookup 0 5 ∷ return 0 0 ∷ [] }
{}

/// Histories that no run has. Cell 8 is the lock of the one bucket.
#[tactic(auto, unfolding(crate::proofs::Opened::opened))]
pub fn illegal_histories()
    ensures taken_twice { is_legal (cells_of two) (event 0 0 (Took 8) ∷ event 1 1 (Took 8) ∷ [])
        ≡ false }
    ensures given_free { is_legal (cells_of alone) (event 0 0 (Gave 8) ∷ []) ≡ false }
    ensures given_by_another { is_legal (cells_of two)
        (event 0 0 (Took 8) ∷ event 1 1 (Gave 8) ∷ [])
        ≡ false }
    ensures lock_read { is_legal (cells_of alone) (event 0 0 (Read 8 0) ∷ []) ≡ false }
    ensures wrong_read { is_legal (cells_of alone) (event 0 0 (Read 0 1) ∷ []) ≡ false }
    ensures stale_read { is_legal (cells_of alone)
        (event 0 0 (Wrote 0 1) ∷ event 1 0 (Read 0 0) ∷ [])
        ≡ false }
    ensures too_big { is_legal (cells_of alone) (event 0 0 (Wrote 0 (2 ^ 63)) ∷ []) ≡ false }
    ensures number_skipped { is_legal (cells_of alone) (event 1 0 (Took 8) ∷ []) ≡ false }
    ensures no_caller { is_legal (cells_of alone) (event 0 1 (Took 8) ∷ []) ≡ false }
    ensures mark_of_a_write { is_legal (cells_of alone) (event 0 0 (Marked (Write 0 1)) ∷ [])
        ≡ false }
{}
