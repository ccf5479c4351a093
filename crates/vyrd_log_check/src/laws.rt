//! Laws of the verdict about the bytes of a log. Each function does nothing: its contract is the
//! law.

ghost use Rattle.std.specs.Prelude.{◌≡◌, ◌≢◌, ◌≤◌, ◌*◌, ◌++◌, ℕ, List, [], length, Some, None};
ghost use Rattle.vyrd_base.specs.declared.verdict.Verdict.{Verdict};
ghost use Rattle.vyrd_base.specs.declared.verdict.Verdict.TheVariants.{Accepted};
ghost use Rattle.vyrd_base.specs.LogVerdicts.{log_verdict, log_verdict_so_far};
ghost use Rattle.vyrd_base.specs.Limits.{most_lines};
ghost use Rattle.vyrd_judge.specs.Following.{JudgeView};
ghost use Rattle.vyrd_judge.specs.LittleKept.{KeepsLittle};
ghost use Rattle.vyrd_check.specs.LogReadings as first_readings;
ghost use Rattle.vyrd_own_check.specs.declared.checker.OwnChecker.{OwnChecker};
ghost use Rattle.vyrd_own_check.specs.CheckerView.{checker_in};
ghost use Rattle.vyrd_own_check.specs.Checking.{limit_of};
ghost use Rattle.vyrd_own_check.specs.LogReadings as own_readings;
ghost use Rattle.vyrd_log_check.specs.Checking.{LogCheckerState, HasChecked};

/// A verdict about bytes that stands stands for all longer bytes, and is their verdict as a whole.
#[tactic(auto, using(crate::proofs::LogLasts::lasting))]
pub fn log_verdict_lasts()
    ensures so_far { (max : ℕ) (bytes more : List ℕ) (v : Verdict) → 1 ≤ max → max ≤ most_lines
        → log_verdict_so_far max bytes ≡ Some v
        → log_verdict_so_far max (bytes ++ more) ≡ Some v }
    ensures whole { (max : ℕ) (bytes more : List ℕ) (v : Verdict) → 1 ≤ max → max ≤ most_lines
        → log_verdict_so_far max bytes ≡ Some v
        → log_verdict max (bytes ++ more) ≡ v }
{}

/// No bytes have no verdict yet.
#[tactic(auto, using(crate::proofs::LogLasts::nothing_yet))]
pub fn nothing_of_no_bytes()
    ensures { (max : ℕ) → log_verdict_so_far max [] ≡ None }
{}

/// A verdict that stands before the end is never acceptance.
#[tactic(auto, using(crate::proofs::SoFarLaws::never_accepted))]
pub fn so_far_never_accepted()
    ensures { (max : ℕ) (bytes : List ℕ) (entries commits observers : ℕ)
        → log_verdict_so_far max bytes ≢ Some (Accepted entries commits observers) }
{}

/// Bytes that have no verdict yet are at most 201 for each line that there may be.
#[tactic(auto, using(crate::proofs::LengthLaws::undecided_is_short))]
pub fn undecided_is_short()
    ensures { (max : ℕ) (bytes : List ℕ) → 1 ≤ max → log_verdict_so_far max bytes ≡ None
        → length bytes ≤ 201 * max }
{}

/// What the judge of a checker keeps at most of the entries that were read, while no verdict
/// stands, for a log of versions 1 and 2 and for one of version 3. There is no judge before an
/// entry or `end` was read.
///
/// What a checker keeps besides isn't in the law: an unfinished line, the starting words, room for
/// the entries of 8,192 bytes; and of a log of version 3 the specification, and where each run of
/// entries begins that no note interrupts.
pub fn little_is_kept()
    ensures first { (c : LogCheckerState) (bytes : List ℕ) (j : JudgeView) → HasChecked c bytes
        → c.own ≡ None → c.first.so_far ≡ None → c.first.kept.judge ≡ Some j
        → KeepsLittle j
        (first_readings.read_so_far c.first.kept.reader.max_lines bytes).entries }
    ensures own { (c : LogCheckerState) (bytes : List ℕ) (o : OwnChecker) (j : JudgeView)
        → HasChecked c bytes → c.own ≡ Some o → (checker_in o).so_far ≡ None
        → (checker_in o).kept.judge ≡ Some j
        → KeepsLittle j
        (own_readings.read_so_far (limit_of (checker_in o).kept) bytes).entries }
{}
