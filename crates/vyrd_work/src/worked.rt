//! Small cases of the definitions. Each function does nothing: its contract has the cases.

ghost use Rattle.std.specs.Prelude.{◌≡◌, codes, [], ◌∷◌, Ok, refl};
ghost use Rattle.vyrd_base.specs.declared.subject.Subject.TheVariants.{Multiset};
ghost use Rattle.vyrd_base.specs.declared.subject.Method.TheVariants.{Multiset as OfMultiset};
ghost use Rattle.vyrd_base.specs.declared.multiset.MultisetMethod.TheVariants.{Insert, InsertPair};
ghost use Rattle.vyrd_base.specs.declared.multiset.MultisetMethod.TheVariants.{Lookup};
ghost use Rattle.vyrd_memory.specs.declared.op.Variant.TheVariants.{Correct, Broken};
ghost use Rattle.vyrd_work.specs.declared.fault.WorkRule.TheVariants.{AfterEnd, BadHeader, BadLine};
ghost use Rattle.vyrd_work.specs.declared.fault.WorkRule.TheVariants.{CallerRange, ArgumentRange};
ghost use Rattle.vyrd_work.specs.declared.fault.WorkRule.TheVariants.{OpAfterTurn, TooManyTurns};
ghost use Rattle.vyrd_work.specs.declared.fault.WorkRule.TheVariants.{NoLineFeed, NoEnd};
ghost use Rattle.vyrd_work.specs.WorkReading.{refused, work_reading};
ghost use Rattle.vyrd_work.specs.Generated.{generated, generated_header};

/// A text with two operations and two lines of turns, and what it says.
#[tactic(auto, unfolding(crate::proofs::Opened::opened_reading))]
pub fn workload_read()
    ensures { work_reading (codes
        "work multiset 1 2 broken\nop 0 insert 5\nop 1 insert_pair 6 7\nturn 0 2\nturn 1 10\nend\n")
        ≡ Ok (record {
          header = record { version = 1; subject = Multiset; size = 1; callers = 2; within = refl };
          variant = Broken;
          ops = record {
            caller = 0;
            op = record { method = OfMultiset Insert; args = record { a = 5; b = 0; c = 0 } };
          }
              ∷ record {
                caller = 1;
                op = record { method = OfMultiset InsertPair; args = record { a = 6; b = 7; c = 0 } };
              }
              ∷ [];
          turns = record { caller = 0; count = 2 } ∷ record { caller = 1; count = 10 } ∷ [];
        }) }
{}

/// Texts that aren't a workload, with the first bad line and the rule that it breaks.
#[tactic(auto, unfolding(crate::proofs::Opened::opened_reading))]
pub fn refused_texts()
    ensures nothing { work_reading [] ≡ refused 1 NoEnd }
    ensures header_cut { work_reading (codes "work multiset 1 2 corr") ≡ refused 1 NoLineFeed }
    ensures size_0 { work_reading (codes "work multiset 0 2 correct\nend\n") ≡ refused 1 BadHeader }
    ensures callers_65 { work_reading (codes "work multiset 1 65 correct\nend\n")
        ≡ refused 1 BadHeader }
    ensures long_header { work_reading
        (codes "work multiset 1 2 correct work multiset 1 2 correct work multiset")
        ≡ refused 1 BadHeader }
    ensures other_method { work_reading (codes "work cache 1 2 correct\nop 0 insert 5\nend\n")
        ≡ refused 2 BadLine }
    ensures leading_zero { work_reading (codes "work multiset 1 2 correct\nop 0 insert 05\nend\n")
        ≡ refused 2 BadLine }
    ensures no_turns { work_reading (codes "work multiset 1 2 correct\nturn 0 0\nend\n")
        ≡ refused 2 BadLine }
    ensures caller { work_reading
        (codes "work multiset 1 2 correct\nop 1 insert 5\nturn 2 1\nend\n")
        ≡ refused 3 CallerRange }
    ensures chunk { work_reading (codes "work cache 1 2 correct\nop 0 flush 1\nend\n")
        ≡ refused 2 ArgumentRange }
    ensures buffer { work_reading (codes "work buffers 2 1 correct\nop 0 append_from 1 2\nend\n")
        ≡ refused 2 ArgumentRange }
    ensures character { work_reading (codes "work buffers 2 1 correct\nop 0 append 1 255\nend\n")
        ≡ refused 2 ArgumentRange }
    ensures op_after_turn { work_reading
        (codes "work multiset 1 2 correct\nturn 0 1\nop 0 insert 5\nend\n")
        ≡ refused 3 OpAfterTurn }
    ensures caller_first { work_reading
        (codes "work multiset 1 2 correct\nturn 0 1\nop 2 insert 5\nend\n")
        ≡ refused 3 CallerRange }
    ensures too_many_turns { work_reading
        (codes "work multiset 1 2 correct\nturn 0 3999999\nturn 1 2\nend\n")
        ≡ refused 3 TooManyTurns }
    ensures no_line_feed { work_reading (codes "work multiset 1 2 correct\nend")
        ≡ refused 2 NoLineFeed }
    ensures no_end { work_reading (codes "work multiset 1 2 correct\n") ≡ refused 2 NoEnd }
    ensures line_feed_after_end { work_reading (codes "work multiset 1 2 correct\nend\n\n")
        ≡ refused 3 AfterEnd }
    ensures byte_after_end { work_reading (codes "work multiset 1 2 correct\nend\nx")
        ≡ refused 3 AfterEnd }
{}

/// The generated workload of four operations.
#[tactic(auto, unfolding(crate::proofs::Opened::opened_generated))]
pub fn four_generated_operations()
    ensures { generated 4 ≡ record {
      header = generated_header;
      variant = Correct;
      ops = record {
        caller = 0;
        op = record { method = OfMultiset Insert; args = record { a = 227; b = 0; c = 0 } };
      }
          ∷ record {
            caller = 1;
            op = record { method = OfMultiset Lookup; args = record { a = 204; b = 0; c = 0 } };
          }
          ∷ record {
            caller = 2;
            op = record { method = OfMultiset InsertPair; args = record { a = 31; b = 5; c = 0 } };
          }
          ∷ record {
            caller = 3;
            op = record { method = OfMultiset Lookup; args = record { a = 207; b = 0; c = 0 } };
          }
          ∷ [];
      turns = [];
    } }
{}
