//! Answers about the bytes of small logs of version 2, worked out by the definitions. Each function
//! does nothing: its contract has the cases. All read at most 268,435,456 lines.

ghost use Rattle.std.specs.Prelude.{◌≡◌, codes};
ghost use Rattle.vyrd_base.specs.TextVerdicts.{answer_to};
ghost use Rattle.vyrd_base.specs.Limits.{most_lines};

/// A lone commit inside a block: all writes of the block take effect there.
#[tactic(auto, unfolding(crate::proofs::Opened::opened_text))]
pub fn commits_inside_blocks()
    ensures lone_commit_in_a_block { answer_to most_lines (codes
        "vyrd 2 multiset 1 1\n0 call insert 5\n0 write 1 5\n0 open\n0 commit\n0 write 0 2\n0 close\n0 return 1\nend\n")
        ≡ codes "accepted: 7 entries, 1 commits, 0 observers\n" }
    ensures not_in_version_1 { answer_to most_lines (codes
        "vyrd 1 multiset 1 1\n0 call insert 5\n0 write 1 5\n0 open\n0 commit\n0 write 0 2\n0 close\n0 return 1\nend\n")
        ≡ codes "malformed at line 5: commit inside a block\n" }
    ensures later_writes_count_at_the_commit { answer_to most_lines (codes
        "vyrd 2 multiset 1 2\n0 call insert 5\n0 write 1 5\n0 open\n0 commit\n1 call insert 6\n1 commit\n1 return 0\n0 write 0 2\n0 close\n0 return 1\nend\n")
        ≡ codes "accepted: 10 entries, 2 commits, 0 observers\n" }
    ensures later_write_left_out { answer_to most_lines (codes
        "vyrd 2 multiset 1 2\n0 call insert 5\n0 write 1 5\n0 open\n0 commit\n1 call insert 6\n1 commit\n1 return 0\n0 close\n0 return 1\nend\n")
        ≡ codes "violation at line 5: view differs at key 5\n" }
    ensures passed_word_is_written { answer_to most_lines (codes
        "vyrd 2 multiset 1 2\n0 call insert 5\n0 write 1 5\n0 open\n0 commit\n1 call insert 6\n1 write 0 1\n0 write 0 2\nend\n")
        ≡ codes "malformed at line 8: block raced\n" }
    ensures third_version { answer_to most_lines (codes "vyrd 3 multiset 1 1\nend\n")
        ≡ codes "malformed at line 1: unknown version\n" }
    ensures second_version { answer_to most_lines (codes "vyrd 2 multiset 1 1\nend\n")
        ≡ codes "accepted: 0 entries, 0 commits, 0 observers\n" }
{}

/// Starting words: the specification starts in the state for which they stand.
#[tactic(auto, unfolding(crate::proofs::Opened::opened_text))]
pub fn starting_words()
    ensures deleted_from_the_start { answer_to most_lines (codes
        "vyrd 2 multiset 1 1\nstart 0 2\nstart 1 5\n0 call delete 5\n0 open\n0 write 0 0\n0 close commit\n0 return 1\nend\n")
        ≡ codes "accepted: 5 entries, 1 commits, 0 observers\n" }
    ensures missed_at_the_start { answer_to most_lines (codes
        "vyrd 2 multiset 1 1\nstart 0 2\nstart 1 5\n0 call delete 5\n0 open\n0 write 0 0\n0 close commit\n0 return 0\nend\n")
        ≡ codes "violation at line 7: reply 0 not allowed\n" }
    ensures no_state { answer_to most_lines
        (codes "vyrd 2 multiset 2 1\nstart 0 2\nstart 1 5\nend\n")
        ≡ codes "malformed at line 2: start stands for no state\n" }
    ensures not_rising { answer_to most_lines
        (codes "vyrd 2 multiset 1 1\nstart 1 5\nstart 0 2\nend\n")
        ≡ codes "malformed at line 3: start word not rising\n" }
    ensures zero { answer_to most_lines (codes "vyrd 2 multiset 1 1\nstart 0 0\nend\n")
        ≡ codes "malformed at line 2: start out of range\n" }
    ensures word_out_of_range { answer_to most_lines (codes "vyrd 2 multiset 1 1\nstart 8 1\nend\n")
        ≡ codes "malformed at line 2: start out of range\n" }
    ensures not_in_version_1 { answer_to most_lines (codes "vyrd 1 multiset 1 1\nstart 0 2\nend\n")
        ≡ codes "malformed at line 2: bad entry\n" }
    ensures after_an_entry { answer_to most_lines
        (codes "vyrd 2 multiset 1 1\n0 call lookup 5\nstart 0 2\nend\n")
        ≡ codes "malformed at line 3: bad entry\n" }
    ensures clean_chunk_is_read { answer_to most_lines (codes
        "vyrd 2 cache 1 1\nstart 0 1\nstart 1 7\nstart 3 7\n0 call read 0\n0 return 7\nend\n")
        ≡ codes "accepted: 2 entries, 0 commits, 1 observers\n" }
    ensures cut_behind_the_start { answer_to most_lines
        (codes "vyrd 2 multiset 2 1\nstart 0 2\nstart 1 5\n")
        ≡ codes "malformed at line 4: no end\n" }
{}
