//! Answers about small logs with a specification in front, worked out by the definitions: from the
//! lines of a log to the line that is answered. Each function does nothing: its contract has the
//! cases. All of them read at most 268,435,456 lines.

ghost use Rattle.std.specs.Prelude.{◌≡◌, ◌++◌, [], ◌∷◌, codes, replicate};
ghost use Rattle.vyrd_log_check.specs.Worked.{answer_about, end, specified, nested};
ghost use Rattle.vyrd_log_check.specs.Worked.{in_slots, five_comes, five_goes, finds_nothing};
ghost use Rattle.vyrd_log_check.specs.Worked.{seven_comes_in_a_block, counter, committed, answered};
ghost use Rattle.vyrd_log_check.specs.Worked.{ordered, two_come};

/// A queue: its elements leave in their order, and what is in the slots is what waits.
#[tactic(auto, unfolding(crate::proofs::Opened::opened_log))]
pub fn a_queue()
    ensures whole { answer_about
        (in_slots ++ five_comes ++ five_goes (codes "1 return 6") ++ finds_nothing ++ end)
        ≡ codes "accepted: 11 entries, 2 commits, 1 observers\n" }
    ensures other_reply { answer_about
        (in_slots ++ five_comes ++ five_goes (codes "1 return 7") ++ end)
        ≡ codes "violation at line 23: reply 7 not allowed\n" }
    ensures still_in_its_slot { answer_about
        (in_slots ++ five_comes ++ committed (codes "0 call dequeue") (codes "0 return 6") ++ end)
        ≡ codes "violation at line 21: view differs at key 5\n" }
    ensures out_of_order { answer_about (in_slots ++ five_comes ++ seven_comes_in_a_block
        ++ committed (codes "0 call dequeue") (codes "0 return 8") ++ end)
        ≡ codes "violation at line 28: reply 8 not allowed\n" }
{}

/// An execution that finds nothing has no instant of its own: what it replies has to be the answer
/// in some state between its call and its return.
#[tactic(auto, unfolding(crate::proofs::Opened::opened_log))]
pub fn an_execution_that_commits_nothing()
    ensures nothing_there { answer_about (in_slots ++ finds_nothing ++ end)
        ≡ codes "accepted: 2 entries, 0 commits, 1 observers\n" }
    ensures something_there { answer_about (in_slots ++ five_comes ++ finds_nothing ++ end)
        ≡ codes "violation at line 21: observer reply 0 in no state\n" }
    ensures nothing_found { answer_about
        (in_slots ++ committed (codes "0 call dequeue") (codes "0 return 0") ++ end)
        ≡ codes "violation at line 16: reply 0 not allowed\n" }
{}

/// A compare-and-set that fails has changed nothing and commits nothing.
#[tactic(auto, unfolding(crate::proofs::Opened::opened_log))]
pub fn a_compare_and_set()
    ensures fails { answer_about
        (counter ++ answered (codes "0 call compare_and_set 4 9") (codes "0 return 0") ++ end)
        ≡ codes "accepted: 2 entries, 0 commits, 1 observers\n" }
    ensures could_not_fail { answer_about
        (counter ++ answered (codes "0 call compare_and_set 5 9") (codes "0 return 0") ++ end)
        ≡ codes "violation at line 12: observer reply 0 in no state\n" }
    ensures could_only_fail { answer_about
        (counter ++ committed (codes "0 call compare_and_set 4 9") (codes "0 return 1") ++ end)
        ≡ codes "violation at line 12: reply 1 not allowed\n" }
    ensures sets_nothing { answer_about
        (counter ++ committed (codes "0 call compare_and_set 5 9") (codes "0 return 1") ++ end)
        ≡ codes "violation at line 12: view differs at key 0\n" }
{}

/// A commit in the middle of a block is judged with all that the block writes.
#[tactic(auto, unfolding(crate::proofs::Opened::opened_log))]
pub fn a_commit_inside_a_block()
    ensures as_a_whole { answer_about (in_slots ++ five_comes ++ seven_comes_in_a_block ++ end)
        ≡ codes "accepted: 12 entries, 2 commits, 0 observers\n" }
{}

/// The least and the greatest key that has an amount, and no amounts at all.
#[tactic(auto, unfolding(crate::proofs::Opened::opened_log))]
pub fn keys_in_their_order()
    ensures least { answer_about
        (ordered ++ two_come ++ answered (codes "1 call lowest") (codes "1 return 3") ++ end)
        ≡ codes "accepted: 8 entries, 2 commits, 1 observers\n" }
    ensures greatest { answer_about
        (ordered ++ two_come ++ answered (codes "1 call highest") (codes "1 return 8") ++ end)
        ≡ codes "accepted: 8 entries, 2 commits, 1 observers\n" }
    ensures not_the_greatest { answer_about
        (ordered ++ two_come ++ answered (codes "1 call highest") (codes "1 return 3") ++ end)
        ≡ codes "violation at line 22: observer reply 3 in no state\n" }
    ensures cleared { answer_about
        (ordered ++ two_come ++ committed (codes "0 call remove_all") (codes "0 return 2")
        ++ committed (codes "0 call remove_all") (codes "0 return 0") ++ end)
        ≡ codes "accepted: 12 entries, 4 commits, 0 observers\n" }
    ensures none_is_least { answer_about
        (ordered ++ answered (codes "1 call lowest") (codes "1 return 0") ++ end)
        ≡ codes "violation at line 16: observer reply 0 in no state\n" }
{}

/// Each rule that a line of a specification can break.
#[tactic(auto, unfolding(crate::proofs::Opened::opened_log))]
pub fn bad_specifications()
    ensures too_long { answer_about (specified (replicate 201 35 ∷ []))
        ≡ codes "malformed at line 2: line too long\n" }
    ensures bad_line { answer_about (specified (codes "part 1" ∷ codes "  shows 0  w0" ∷ []))
        ≡ codes "malformed at line 3: bad specification line\n" }
    ensures out_of_place { answer_about (specified (codes "part 1" ∷ codes "let a 1" ∷ []))
        ≡ codes "malformed at line 3: line out of place\n" }
    ensures name_taken { answer_about (specified (codes "let a 1" ∷ codes "list a" ∷ []))
        ≡ codes "malformed at line 3: name taken\n" }
    ensures unknown_name { answer_about (specified (codes "method m" ∷ codes "  answer x" ∷ []))
        ≡ codes "malformed at line 3: unknown name\n" }
    ensures too_many { answer_about (specified (codes "method m a b c d" ∷ []))
        ≡ codes "malformed at line 2: too many\n" }
    ensures too_deep { answer_about (specified (nested 32))
        ≡ codes "malformed at line 3: too deep\n" }
    ensures deep { answer_about (specified (nested 31 ++ codes "log" ∷ []))
        ≡ codes "accepted: 0 entries, 0 commits, 0 observers\n" }
    ensures state_is_read { answer_about (specified (codes "part 1" ∷ codes "  shows [0] 1" ∷ []))
        ≡ codes "malformed at line 3: state is read here\n" }
    ensures no_case { answer_about (specified (codes "method m" ∷ codes "log" ∷ []))
        ≡ codes "malformed at line 3: method without a case\n" }
    ensures no_method { answer_about (specified (codes "log" ∷ []))
        ≡ codes "malformed at line 2: no method\n" }
{}
