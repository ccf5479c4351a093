//! Small texts of histories, worked out by the definitions. Each function does nothing: its
//! contract has the cases.

ghost use Rattle.std.specs.Prelude.{◌≡◌, [], codes, Ok};
ghost use Rattle.vyrd_base.specs.Samples.{alone, two};
ghost use Rattle.vyrd_mover.specs.declared.fault.HistoryRule.TheVariants.{AfterEnd, BadHeader};
ghost use Rattle.vyrd_mover.specs.declared.fault.HistoryRule.TheVariants.{BadLine, NotLegal};
ghost use Rattle.vyrd_mover.specs.declared.fault.HistoryRule.TheVariants.{BlockMark, NoLineFeed};
ghost use Rattle.vyrd_mover.specs.declared.fault.HistoryRule.TheVariants.{NoEnd};
ghost use Rattle.vyrd_mover.specs.Samples.{insert_alone, insert_alone_text, two_writers};
ghost use Rattle.vyrd_mover.specs.Samples.{two_writers_text, taken_again, taken_again_text};
ghost use Rattle.vyrd_mover.specs.HistoryReading.{refused, history_reading};

/// Texts that are histories.
#[tactic(auto, unfolding(crate::proofs::Opened::opened_text))]
pub fn read_texts()
    ensures insert_alone { history_reading insert_alone_text
        ≡ Ok (record { header = alone; history = insert_alone }) }
    ensures two_writers { history_reading two_writers_text
        ≡ Ok (record { header = two; history = two_writers }) }
    ensures taken_again { history_reading taken_again_text
        ≡ Ok (record { header = alone; history = taken_again }) }
{}

/// Texts that are refused, with the first bad line and the rule that it breaks.
#[tactic(auto, unfolding(crate::proofs::Opened::opened_text))]
pub fn refused_histories()
    ensures nothing { history_reading [] ≡ refused 1 NoEnd }
    ensures header_cut { history_reading (codes "history multiset 1 1") ≡ refused 1 NoLineFeed }
    ensures size_0 { history_reading (codes "history multiset 0 1\nend\n") ≡ refused 1 BadHeader }
    ensures long_header { history_reading
        (codes "history multiset 1 1 history multiset 1 1 history multiset 1 1 his")
        ≡ refused 1 BadHeader }
    ensures write_of_a_log { history_reading (codes "history multiset 1 1\n0 write 0 1\nend\n")
        ≡ refused 2 BadLine }
    ensures leading_zero { history_reading (codes "history multiset 1 1\n0 wrote 0 01\nend\n")
        ≡ refused 2 BadLine }
    ensures other_value { history_reading (codes "history multiset 1 1\n0 read 0 1\nend\n")
        ≡ refused 2 NotLegal }
    ensures caller { history_reading (codes "history multiset 1 1\n1 read 0 0\nend\n")
        ≡ refused 2 NotLegal }
    ensures held_lock { history_reading (codes "history multiset 1 2\n0 took 8\n1 took 8\nend\n")
        ≡ refused 3 NotLegal }
    ensures no_block { history_reading (codes "history multiset 1 1\n0 close\nend\n")
        ≡ refused 2 BlockMark }
    ensures opened_twice { history_reading (codes "history multiset 1 1\n0 open\n0 open\nend\n")
        ≡ refused 3 BlockMark }
    ensures no_line_feed { history_reading (codes "history multiset 1 1\nend")
        ≡ refused 2 NoLineFeed }
    ensures no_end { history_reading (codes "history multiset 1 1\n") ≡ refused 2 NoEnd }
    ensures byte_after_end { history_reading (codes "history multiset 1 1\nend\nx")
        ≡ refused 3 AfterEnd }
{}
