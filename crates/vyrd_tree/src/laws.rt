//! Laws of the procedures. Each function does nothing: its contract is the law.

ghost use Rattle.std.specs.Prelude.{◌≡◌, ℕ, ◌+◌, ◌<◌, true, Some};
ghost use Rattle.vyrd_base.specs.declared.header.Header.{Header};
ghost use Rattle.vyrd_base.specs.declared.subject.Subject.TheVariants.{Tree};
ghost use Rattle.vyrd_base.specs.declared.subject.Args.{Args};
ghost use Rattle.vyrd_base.specs.Amounts.{Amounts, amount_of};
ghost use Rattle.vyrd_memory.specs.declared.op.Variant.TheVariants.{Correct};
ghost use Rattle.vyrd_memory.specs.Arguments.{are_small};
ghost use Rattle.vyrd_memory.specs.Alone.{Memory, state_in, alone, GivesUpWhere};
ghost use Rattle.vyrd_tree.specs.Cells.{count_cell, used_cell};
ghost use Rattle.vyrd_tree.specs.Procedures.{insert_entry};
ghost use Rattle.vyrd_tree.specs.Room.{leaf_of, HasNoRoom};
ghost use Rattle.vyrd_tree.specs.Hanging.{is_hanging};
ghost use Rattle.vyrd_tree.specs.Passes.{SplitsLeaf, KeepsState};

/// An insert that is played alone replies 0 exactly when its key is absent, the key's leaf has 4
/// entries, and no node is unused.
pub fn insert_gives_up()
    ensures { (h : Header) (memory : Memory) (state : Amounts) (c : ℕ) (args : Args)
        → h.subject ≡ Tree → state_in h memory ≡ Some state → are_small args ≡ true
        → GivesUpWhere (HasNoRoom h memory state args.a)
        (alone c (insert_entry h Correct args.a args.b) memory) }
{}

/// An insert whose key is absent, whose leaf has 4 entries and which finds an unused node comes to
/// the unlock after its commit with words that represent the next state with the reply 1, and there
/// the new leaf hangs. What is given to follow a split is played from there, whatever it is; an
/// insert gives the ascent.
pub fn insert_splits_leaf()
    ensures { (h : Header) (memory : Memory) (state : Amounts) (c : ℕ) (args : Args)
        → h.subject ≡ Tree → state_in h memory ≡ Some state → are_small args ≡ true
        → amount_of state args.a ≡ 0 → memory (count_cell (leaf_of h memory args.a)) ≡ 4
        → memory (used_cell h) + 1 < h.size
        → SplitsLeaf h c args memory state }
{}

/// A round of the ascent for a node that hangs, in words that represent a state, comes to words
/// that represent the same state. There the ascent stops, or the next round begins for a node that
/// hangs on the next level, whatever is given to follow in either case.
pub fn round_keeps_state()
    ensures { (h : Header) (memory : Memory) (state : Amounts) (c level key node : ℕ)
        → h.subject ≡ Tree → state_in h memory ≡ Some state
        → is_hanging h memory level key node ≡ true
        → KeepsState h c level key node memory state }
{}
