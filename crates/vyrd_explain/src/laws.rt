//! When no further byte changes what is answered about a log. Each function does nothing: its
//! contract is the law.

ghost use Rattle.std.specs.Prelude.{◌≡◌, ◌≤◌, ◌*◌, ◌++◌, ℕ, List, length, true, false};
ghost use Rattle.vyrd_base.specs.LogVerdicts.{log_verdict};
ghost use Rattle.vyrd_base.specs.Limits.{most_lines};
ghost use Rattle.vyrd_explain.specs.declared.about.About.{About};
ghost use Rattle.vyrd_explain.specs.Explained.{explained, is_settled};

/// Once the verdict stands and nothing more is read, whatever comes next changes neither.
#[tactic(auto, using(crate::proofs::SettledLaws::lasting))]
pub fn settled_answer_lasts()
    ensures verdict { (max : ℕ) (bytes more : List ℕ) → 1 ≤ max → max ≤ most_lines
        → is_settled max bytes ≡ true → log_verdict max (bytes ++ more) ≡ log_verdict max bytes }
    ensures text { (about : About) (max : ℕ) (bytes more : List ℕ) → 1 ≤ max → max ≤ most_lines
        → is_settled max bytes ≡ true
        → explained about max (bytes ++ more) ≡ explained about max bytes }
{}

/// Before that there are at most 201 bytes for each line that there may be.
#[tactic(auto, using(crate::proofs::SettledLaws::unsettled_is_short))]
pub fn unsettled_log_is_short()
    ensures { (max : ℕ) (bytes : List ℕ) → 1 ≤ max → is_settled max bytes ≡ false
        → length bytes ≤ 201 * max }
{}
