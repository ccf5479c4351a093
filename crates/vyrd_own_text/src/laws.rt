//! Laws of the definitions. Each function is empty, and its contract is the law.

ghost use Rattle.std.specs.Prelude.{◌≡◌, ◌++◌, ℕ, List, Ok};
ghost use Rattle.vyrd_base.specs.Own.Expressions.{Expr};
ghost use Rattle.vyrd_base.specs.Own.Spelling.{Scope, spelled};
ghost use Rattle.vyrd_base.specs.Own.Reading.{expr_read};
ghost use Rattle.vyrd_base.specs.declared.own.last.Last.{Last};
ghost use Rattle.vyrd_base.specs.Own.Programs.{Written};
ghost use Rattle.vyrd_base.specs.Own.Lines.{Line};
ghost use Rattle.vyrd_base.specs.Own.Reader.{line_read};
ghost use Rattle.vyrd_own_text.specs.LineSpelling.{line_text};

/// What is read as an expression is its one spelling, and what follows it.
#[tactic(auto, using(crate::proofs::SoundLaws::expr_sound))]
pub fn read_expressions_are_spelled_so()
    ensures { (scope : Scope) (depth : ℕ) (text : List ℕ) (e : Expr) (rest : List ℕ)
        → expr_read scope depth text ≡ Ok (e, rest) → text ≡ spelled scope e ++ rest }
{}

/// What is read as a line is its one spelling, after the lines before it.
#[tactic(auto, using(crate::proofs::LineLaws::line_sound))]
pub fn read_lines_are_spelled_so()
    ensures { (before : Written) (below : Last) (line : List ℕ) (says : Line)
        → line_read before below line ≡ Ok says → line ≡ line_text before says }
{}
