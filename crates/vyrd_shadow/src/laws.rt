//! What a shadow needn't be told. Each function is empty, and its contract is a law.

ghost use Rattle.std.specs.Prelude.{◌≡◌, ℕ, List, ◌∷◌, None};
ghost use Rattle.vyrd_base.specs.declared.subject.Method.{Method};
ghost use Rattle.vyrd_base.specs.declared.subject.Args.{Args};
ghost use Rattle.vyrd_base.specs.declared.log.Kind.TheVariants.{Call, Return, Commit};
ghost use Rattle.vyrd_base.specs.declared.log.Entry.{Entry};
ghost use Rattle.vyrd_base.specs.declared.log.StartWord.{StartWord};
ghost use Rattle.vyrd_base.specs.Shape.{broken_rule};
ghost use Rattle.vyrd_shadow.specs.Following.{ShadowKept, HasFollowed};

/// A shadow that has followed some entries has followed one more call, return or lone commit too,
/// if it keeps the rules. The lone commit may stand inside its caller's block.
#[tactic(auto, using(crate::proofs::QuietLaws::quiet_laws))]
pub fn other_entries_leave_a_shadow()
    ensures calls { (kept : ShadowKept) (starting : List StartWord) (earlier : List Entry) (caller : ℕ)
        (method : Method) (args : Args)
        → HasFollowed kept starting earlier
        → broken_rule kept.header earlier (record { caller = caller; kind = Call method args })
        ≡ None
        → HasFollowed kept starting
        (record { caller = caller; kind = Call method args } ∷ earlier) }
    ensures returns { (kept : ShadowKept) (starting : List StartWord) (earlier : List Entry)
        (caller reply : ℕ)
        → HasFollowed kept starting earlier
        → broken_rule kept.header earlier (record { caller = caller; kind = Return reply }) ≡ None
        → HasFollowed kept starting (record { caller = caller; kind = Return reply } ∷ earlier) }
    ensures commits { (kept : ShadowKept) (starting : List StartWord) (earlier : List Entry) (caller : ℕ)
        → HasFollowed kept starting earlier
        → broken_rule kept.header earlier (record { caller = caller; kind = Commit }) ≡ None
        → HasFollowed kept starting (record { caller = caller; kind = Commit } ∷ earlier) }
{}
