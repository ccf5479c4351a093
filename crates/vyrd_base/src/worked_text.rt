//! Answers about the bytes of small logs, worked out by the definitions: from the text of a log to
//! the line that is answered. Each function does nothing: its contract has the cases. All but the
//! last read at most 268,435,456 lines.

ghost use Rattle.std.specs.Prelude.{◌≡◌, codes, []};
ghost use Rattle.vyrd_base.specs.TextVerdicts.{answer_to};
ghost use Rattle.vyrd_base.specs.Limits.{most_lines};

/// Texts that are accepted, with their numbers of entries, commits and observers.
#[tactic(auto, unfolding(crate::proofs::Opened::opened_text))]
pub fn accepted_texts()
    ensures empty { answer_to most_lines (codes "vyrd 1 multiset 1 1\nend\n")
        ≡ codes "accepted: 0 entries, 0 commits, 0 observers\n" }
    ensures inserted { answer_to most_lines (codes
        "vyrd 1 multiset 1 1\n0 call insert 5\n0 write 1 5\n0 write 0 1\n0 open\n0 write 0 2\n0 close commit\n0 return 1\nend\n")
        ≡ codes "accepted: 7 entries, 1 commits, 0 observers\n" }
    ensures absent { answer_to most_lines
        (codes "vyrd 1 multiset 1 1\n0 call delete 5\n0 commit\n0 return 0\nend\n")
        ≡ codes "accepted: 3 entries, 1 commits, 0 observers\n" }
    ensures looked_up_0 { answer_to most_lines (codes
        "vyrd 1 multiset 1 2\n0 call insert 5\n0 write 1 5\n0 write 0 1\n1 call lookup 5\n0 open\n0 write 0 2\n0 close commit\n0 return 1\n1 return 0\nend\n")
        ≡ codes "accepted: 9 entries, 1 commits, 1 observers\n" }
    ensures looked_up_1 { answer_to most_lines (codes
        "vyrd 1 multiset 1 2\n0 call insert 5\n0 write 1 5\n0 write 0 1\n1 call lookup 5\n0 open\n0 write 0 2\n0 close commit\n0 return 1\n1 return 1\nend\n")
        ≡ codes "accepted: 9 entries, 1 commits, 1 observers\n" }
    ensures beside_block { answer_to most_lines (codes
        "vyrd 1 multiset 1 2\n0 call insert 5\n0 write 1 5\n0 write 0 1\n0 open\n0 write 0 2\n1 call insert 6\n1 commit\n1 return 0\n0 close commit\n0 return 1\nend\n")
        ≡ codes "accepted: 10 entries, 2 commits, 0 observers\n" }
    ensures greatest { answer_to most_lines (codes
        "vyrd 1 multiset 1 1\n0 call delete 5\n0 write 7 9223372036854775807\n0 commit\n0 return 0\nend\n")
        ≡ codes "accepted: 4 entries, 1 commits, 0 observers\n" }
    ensures most_callers { answer_to most_lines (codes "vyrd 1 multiset 1 64\nend\n")
        ≡ codes "accepted: 0 entries, 0 commits, 0 observers\n" }
{}

/// Texts whose commits or observers violate the specification, with the first line that does.
#[tactic(auto, unfolding(crate::proofs::Opened::opened_text))]
pub fn violating_texts()
    ensures nothing_done { answer_to most_lines
        (codes "vyrd 1 multiset 1 1\n0 call insert 5\n0 commit\n0 return 1\nend\n")
        ≡ codes "violation at line 3: view differs at key 5\n" }
    ensures refused { answer_to most_lines
        (codes "vyrd 1 multiset 1 1\n0 call delete 5\n0 commit\n0 return 1\nend\n")
        ≡ codes "violation at line 3: reply 1 not allowed\n" }
    ensures too_early { answer_to most_lines (codes
        "vyrd 1 multiset 1 2\n0 call insert 5\n0 write 1 5\n0 write 0 1\n1 call lookup 5\n1 return 1\n0 open\n0 write 0 2\n0 close commit\n0 return 1\nend\n")
        ≡ codes "violation at line 6: observer reply 1 in no state\n" }
    ensures no_block { answer_to most_lines (codes
        "vyrd 1 multiset 1 2\n0 call insert 5\n0 write 1 5\n0 write 0 1\n0 write 0 2\n1 call insert 6\n1 commit\n1 return 0\n0 commit\n0 return 1\nend\n")
        ≡ codes "violation at line 7: view differs at key 5\n" }
    ensures earlier_commit { answer_to most_lines (codes
        "vyrd 1 multiset 1 2\n0 call delete 5\n0 commit\n1 call lookup 5\n1 return 7\n0 return 1\nend\n")
        ≡ codes "violation at line 3: reply 1 not allowed\n" }
    ensures observer { answer_to most_lines (codes
        "vyrd 1 multiset 1 2\n0 call delete 5\n0 commit\n1 call lookup 5\n1 return 7\n0 return 0\nend\n")
        ≡ codes "violation at line 5: observer reply 7 in no state\n" }
    ensures torn { answer_to most_lines (codes
        "vyrd 1 cache 1 2\n0 call write 0 1 2\n0 open\n0 write 1 1\n0 write 2 2\n0 write 0 2\n0 close commit\n0 return 1\n0 call write 0 3 4\n0 write 1 3\n1 call flush 0\n1 open\n1 write 3 3\n1 write 4 2\n1 write 0 1\n1 close commit\n1 return 1\n0 write 2 4\n0 commit\n0 return 1\nend\n")
        ≡ codes "violation at line 16: view differs at key 0\n" }
{}

/// Texts that break a rule of text or of shape, with the line and the rule.
#[tactic(auto, unfolding(crate::proofs::Opened::opened_text))]
pub fn malformed_texts()
    ensures raced { answer_to most_lines (codes
        "vyrd 1 multiset 1 2\n0 call insert 5\n0 open\n0 write 0 2\n1 call insert 6\n1 write 0 1\nend\n")
        ≡ codes "malformed at line 6: block raced\n" }
    ensures cut_off { answer_to most_lines
        (codes "vyrd 1 multiset 1 2\n0 call delete 5\n0 commit\n1 call lookup 5\n1 return 7\n")
        ≡ codes "malformed at line 6: no end\n" }
    ensures no_bytes { answer_to most_lines []
        ≡ codes "malformed at line 1: no end\n" }
    ensures no_line_feed { answer_to most_lines (codes "vyrd 1 multiset 1 1\nend")
        ≡ codes "malformed at line 2: no line feed\n" }
    ensures after_end { answer_to most_lines (codes "vyrd 1 multiset 1 1\nend\nx")
        ≡ codes "malformed at line 3: text after end\n" }
    ensures leading_zero { answer_to most_lines
        (codes "vyrd 1 multiset 1 1\n0 call insert 05\nend\n")
        ≡ codes "malformed at line 2: bad entry\n" }
    ensures call_open { answer_to most_lines (codes "vyrd 1 multiset 1 1\n0 call lookup 5\nend\n")
        ≡ codes "malformed at line 3: call not returned\n" }
    ensures value { answer_to most_lines (codes
        "vyrd 1 multiset 1 1\n0 call delete 5\n0 write 7 9223372036854775808\n0 commit\n0 return 0\nend\n")
        ≡ codes "malformed at line 3: value out of range\n" }
    ensures word { answer_to most_lines (codes
        "vyrd 1 multiset 1 1\n0 call delete 5\n0 write 8 9223372036854775807\n0 commit\n0 return 0\nend\n")
        ≡ codes "malformed at line 3: word out of range\n" }
    ensures too_many_callers { answer_to most_lines (codes "vyrd 1 multiset 1 65\nend\n")
        ≡ codes "malformed at line 1: bad header\n" }
    ensures version { answer_to most_lines (codes "vyrd 3 multiset 1 1\nend\n")
        ≡ codes "malformed at line 1: unknown version\n" }
    ensures caller { answer_to most_lines (codes "vyrd 1 multiset 1 1\n1 call insert 5\nend\n")
        ≡ codes "malformed at line 2: caller out of range\n" }
    ensures too_many_lines { answer_to 2
        (codes "vyrd 1 multiset 1 1\n0 call delete 5\n0 commit\n0 return 0\nend\n")
        ≡ codes "malformed at line 3: too many lines\n" }
{}
