//! Verdicts by rules that no built-in subject has, worked out by the definitions. Each function
//! does nothing: its contract has the cases.

ghost use Rattle.std.specs.Prelude.{◌≡◌, []};
ghost use Rattle.vyrd_base.specs.OwnSamples.{queue_rules, first_out, counted};
ghost use Rattle.vyrd_base.specs.Verdicts.{verdict};
ghost use Rattle.vyrd_base.specs.declared.verdict.Verdict.TheVariants.{Accepted, Violation};
ghost use Rattle.vyrd_base.specs.declared.verdict.Why.TheVariants.{Reply, Observer};

/// A queue whose replies alone are judged: its order counts, and a count is that of some state
/// from its call to its return.
#[tactic(auto, unfolding(crate::proofs::Opened::opened))]
pub fn a_queue()
    ensures in_order { verdict queue_rules [] (first_out 6) ≡ Accepted 9 3 0 }
    ensures out_of_order { verdict queue_rules [] (first_out 7) ≡ Violation 9 (Reply 7) }
    ensures before { verdict queue_rules [] (counted 0) ≡ Accepted 5 1 1 }
    ensures after { verdict queue_rules [] (counted 1) ≡ Accepted 5 1 1 }
    ensures never { verdict queue_rules [] (counted 2) ≡ Violation 6 (Observer 2) }
{}
