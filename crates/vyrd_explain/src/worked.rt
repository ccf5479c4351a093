//! What is answered about the bytes of small logs, worked out by the definitions. Each function does
//! nothing: its contract has the cases. All of them read at most 16,777,216 lines.

ghost use Rattle.std.specs.Prelude.{◌≡◌, codes};
ghost use Rattle.vyrd_explain.specs.declared.about.About.TheVariants.{Fault, Changes};
ghost use Rattle.vyrd_explain.specs.Explained.{explained};

/// Nothing is said of a log that is accepted.
#[tactic(auto, unfolding(crate::proofs::Opened::opened_answer))]
pub fn an_accepted_log()
    ensures { explained Fault 16777216
        (codes "vyrd 1 multiset 1 1\n0 call delete 5\n0 commit\n0 return 0\nend\n")
        ≡ codes "accepted: 3 entries, 1 commits, 0 observers\n" }
{}

/// A view that differs: an insert without its writes, and a later write over what another caller
/// has inserted.
#[tactic(auto, unfolding(crate::proofs::Opened::opened_answer))]
pub fn views_that_differ()
    ensures unwritten { explained Fault 16777216
        (codes "vyrd 1 multiset 1 1\n0 call insert 5\n0 commit\n0 return 1\nend\n")
        ≡ codes
        "violation at line 3: view differs at key 5\ncall at line 2\nreply at line 4\nagreed at the start: key 5 amount 0\nwords after line 3: key 5 amount 0\nstate after line 3: key 5 amount 1\n" }
    ensures at_the_start { explained Fault 16777216 (codes
        "vyrd 2 multiset 1 1\nstart 0 2\nstart 1 5\n0 call insert 6\n0 write 1 6\n0 commit\n0 return 1\nend\n")
        ≡ codes
        "violation at line 6: view differs at key 5\ncall at line 4\nreply at line 7\nagreed at the start: key 5 amount 1\nwords after line 6: key 5 amount 0\nchange at line 5: word 1 from 5 to 6, in effect at line 5, key 5 amount 1 to 0\nstate after line 6: key 5 amount 1\n" }
{}

/// A reply that isn't allowed: what the state has of each key that the call looks at, and what it
/// allows.
#[tactic(auto, unfolding(crate::proofs::Opened::opened_answer))]
pub fn replies_that_are_not_allowed()
    ensures absent { explained Fault 16777216
        (codes "vyrd 1 multiset 1 1\n0 call delete 5\n0 commit\n0 return 1\nend\n")
        ≡ codes
        "violation at line 3: reply 1 not allowed\ncall at line 2\nreply at line 4\nstate before line 3: key 5 amount 0\nallowed reply 0\n" }
    ensures two_keys { explained Fault 16777216
        (codes "vyrd 1 multiset 2 1\n0 call insert_pair 0 1\n0 commit\n0 return 2\nend\n")
        ≡ codes
        "violation at line 3: reply 2 not allowed\ncall at line 2\nreply at line 4\nstate before line 3: key 0 amount 0\nstate before line 3: key 1 amount 0\nallowed reply 0\nallowed reply 1\n" }
{}

/// A reply that was allowed before a step: the last step that set the key is told.
#[tactic(auto, unfolding(crate::proofs::Opened::opened_answer))]
pub fn reply_behind_a_step()
    ensures { explained Fault 16777216 (codes
        "vyrd 1 multiset 1 1\n0 call insert 5\n0 write 1 5\n0 write 0 2\n0 commit\n0 return 1\n0 call delete 5\n0 commit\n0 return 0\nend\n")
        ≡ codes
        "violation at line 8: reply 0 not allowed\ncall at line 7\nreply at line 9\nstate before line 8: key 5 amount 1\nallowed reply 1\nlast step at line 5: key 5 amount 1\n" }
{}

/// What changes along a log: a write alone, a write that shows its key, and a step; and of a
/// specification in front what stands there at the start, and a step.
#[tactic(auto, unfolding(crate::proofs::Opened::opened_answer))]
pub fn what_changes_along_logs()
    ensures built_in { explained Changes 16777216 (codes
        "vyrd 1 multiset 1 1\n0 call insert 5\n0 write 1 5\n0 write 0 2\n0 commit\n0 return 1\nend\n")
        ≡ codes
        "accepted: 5 entries, 1 commits, 0 observers\nwrite at line 3: word 1 from 0 to 5, in effect at line 3\nchange at line 4: word 0 from 0 to 2, in effect at line 4, key 5 amount 0 to 1\nstep at line 5: key 5 amount 1\n" }
    ensures own { explained Changes 16777216 (codes
        "vyrd 3 own 1 1\npart 1\n  shows 0 w0\nmethod add n\n  allow (reply == [0])\n    set [0] ([0] + n)\nlog\nstart 0 5\n0 call add 2\n0 commit\n0 return 5\nend\n")
        ≡ codes
        "violation at line 10: view differs at key 0\nagreed at the start: key 0 amount 5\nstep at line 10: key 0 amount 7\n" }
{}

/// An observer's reply in no state: its answers from the call on, up to the return.
#[tactic(auto, unfolding(crate::proofs::Opened::opened_answer))]
pub fn an_observer_in_no_state()
    ensures { explained Fault 16777216 (codes
        "vyrd 1 multiset 1 2\n1 call lookup 5\n0 call insert 5\n0 write 1 5\n0 write 0 2\n0 commit\n0 return 1\n1 return 7\nend\n")
        ≡ codes
        "violation at line 8: observer reply 7 in no state\ncall at line 2\nreply at line 8\nanswer from line 2: 0\nanswer from line 6: 1\n" }
{}

/// Broken rules: a race with what holds the word, and what is open where a rule is broken.
#[tactic(auto, unfolding(crate::proofs::Opened::opened_answer))]
pub fn broken_rules()
    ensures raced { explained Fault 16777216 (codes
        "vyrd 1 multiset 1 2\n0 call insert 5\n0 open\n0 write 0 2\n1 call insert 6\n1 write 0 1\nend\n")
        ≡ codes
        "malformed at line 6: block raced\nheld by line 4\nopen call at line 2\nopen block at line 3\nopen call at line 5\n" }
    ensures passed { explained Fault 16777216 (codes
        "vyrd 2 multiset 1 2\n0 call insert 5\n0 open\n0 commit\n1 call insert 6\n1 write 0 1\n0 write 0 2\nend\n")
        ≡ codes
        "malformed at line 7: block raced\npassed at line 6: word 0, in effect at line 6\nopen call at line 2\nopen block at line 3\nopen call at line 5\n" }
    ensures cut_off { explained Fault 16777216 (codes "vyrd 1 multiset 1 2\n1 call lookup 5\n")
        ≡ codes "malformed at line 3: no end\nopen call at line 2\n" }
    ensures no_state { explained Fault 16777216
        (codes "vyrd 2 multiset 2 1\nstart 0 2\nstart 1 5\n0 call lookup 5\nend\n")
        ≡ codes "malformed at line 2: start stands for no state\n" }
{}

/// A specification in front: what the words show by it and what its state shows, told by the lines
/// of the text, in which a line with a note stands too.
#[tactic(auto, unfolding(crate::proofs::Opened::opened_answer))]
pub fn a_specification_in_front()
    ensures { explained Fault 16777216 (codes
        "vyrd 3 own 1 1\npart 1\n  shows 0 w0\nmethod add n\n  allow (reply == [0])\n    set [0] ([0] + n)\nlog\nstart 0 5\n0 call add 2\n# too much\n0 write 0 8\n0 commit\n0 return 5\nend\n")
        ≡ codes
        "violation at line 12: view differs at key 0\ncall at line 9\nreply at line 13\nagreed at the start: key 0 amount 5\nwords after line 12: key 0 amount 8\npart 0 after line 12: key 0 amount 8\nchange at line 11: word 0 from 5 to 8, in effect at line 11, key 0 amount 5 to 8\nstate after line 12: key 0 amount 7\n" }
{}

/// Replies that a specification in front doesn't have: of one with a commit what its case reads, and
/// what it allows; of an observer's what it would answer.
#[tactic(auto, unfolding(crate::proofs::Opened::opened_answer))]
pub fn replies_by_a_specification_in_front()
    ensures refused { explained Fault 16777216 (codes
        "vyrd 3 own 0 1\nregister next 3\nlist waiting\nmethod take k\n  allow ((reply == next) and ({k} == 0))\n    set {k} 1\nlog\n0 call take 7\n0 commit\n0 return 4\nend\n")
        ≡ codes
        "violation at line 9: reply 4 not allowed\ncall at line 8\nreply at line 10\nstate before line 9: register 0 value 3\nstate before line 9: list 0 size 0 first none last none\nstate before line 9: hidden key 7 amount 0\nallowed reply 3\n" }
    ensures observed { explained Fault 16777216
        (codes "vyrd 3 own 0 1\nregister r 3\nmethod get\n  answer r\nlog\n0 call get\n0 return 4\nend\n")
        ≡ codes
        "violation at line 7: observer reply 4 in no state\ncall at line 6\nreply at line 7\nanswer from line 6: 3\n" }
{}
