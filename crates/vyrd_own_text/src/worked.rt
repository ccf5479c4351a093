//! Texts of specifications, read by the definitions. Each function does nothing: its contract has
//! the cases.

ghost use Rattle.std.specs.Prelude.{◌≡◌, [], ◌∷◌, codes};
ghost use Rattle.vyrd_base.specs.declared.own.line.SpecificationLine.TheVariants.{Log, Refused};
ghost use Rattle.vyrd_base.specs.declared.own.rule.SpecificationRule.TheVariants.{BadLine};
ghost use Rattle.vyrd_base.specs.declared.own.rule.SpecificationRule.TheVariants.{OutOfPlace};
ghost use Rattle.vyrd_base.specs.declared.own.rule.SpecificationRule.TheVariants.{NameTaken};
ghost use Rattle.vyrd_base.specs.declared.own.rule.SpecificationRule.TheVariants.{UnknownName};
ghost use Rattle.vyrd_base.specs.declared.own.rule.SpecificationRule.TheVariants.{StateIsRead};
ghost use Rattle.vyrd_base.specs.declared.own.rule.SpecificationRule.TheVariants.{NoCase, NoMethod};
ghost use Rattle.vyrd_base.specs.Own.Samples.{queue_text};
ghost use Rattle.vyrd_own_text.specs.Samples.{outcome_after};

/// The text of a queue is whole. What it spells is worked out in `vyrd_base`.
#[tactic(auto, unfolding(vyrd_base::proofs::OpenedOwn::opened_reading))]
pub fn a_queue()
    ensures ended { outcome_after queue_text (codes "log") ≡ Log }
{}

/// Lines that break a rule, with the column.
#[tactic(auto, unfolding(vyrd_base::proofs::OpenedOwn::opened_reading))]
pub fn refused_lines()
    ensures no_line { outcome_after [] (codes "what") ≡ Refused BadLine 1 }
    ensures leading_zero { outcome_after [] (codes "let a 01") ≡ Refused BadLine 7 }
    ensures language_word { outcome_after [] (codes "let count 1") ≡ Refused BadLine 5 }
    ensures no_list { outcome_after [] (codes "  holds 1") ≡ Refused OutOfPlace 9 }
    ensures taken { outcome_after (codes "list a" ∷ []) (codes "list a") ≡ Refused NameTaken 6 }
    ensures words_alone { outcome_after (codes "part 1" ∷ []) (codes "  shows [w0] 1")
        ≡ Refused StateIsRead 9 }
    ensures two_spaces { outcome_after (codes "method m" ∷ []) (codes "  allow (reply ==  1)")
        ≡ Refused BadLine 19 }
    ensures no_reply_yet { outcome_after (codes "method m" ∷ []) (codes "  answer reply")
        ≡ Refused UnknownName 10 }
    ensures no_case { outcome_after (codes "method m" ∷ []) (codes "method k") ≡ Refused NoCase 8 }
    ensures no_method { outcome_after [] (codes "log") ≡ Refused NoMethod 1 }
{}
