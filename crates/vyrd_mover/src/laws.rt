//! Laws of the definitions. Each function does nothing: its contract is the law.

ghost use Rattle.std.specs.Prelude.{◌≢◌, ◌≡◌, ℕ, true, List, ◌∷◌, ◌++◌, ◌≤◌, Ok, length};
ghost use Rattle.std.specs.List.{AllByRecursion};
ghost use Rattle.vyrd_base.specs.declared.history.Stamped.{Stamped};
ghost use Rattle.vyrd_base.specs.Histories.{Cells, is_legal};
ghost use Rattle.vyrd_mover.specs.RaceFree.{is_race_free};
ghost use Rattle.vyrd_mover.specs.Blocks.{is_reducible};
ghost use Rattle.vyrd_mover.specs.Exchanges.{is_movable, numbered};
ghost use Rattle.vyrd_mover.specs.Gathering.{IsBlock, CanBeGathered};
ghost use Rattle.vyrd_mover.specs.HistoryText.{Recorded, history_lines, history_text};
ghost use Rattle.vyrd_mover.specs.HistoryReading.{history_reading};
ghost use Rattle.vyrd_mover.specs.HistoryLimits.{KeepsLimits};
ghost use Rattle.vyrd_mover.specs.LongHistories.{longest_history};

/// Two neighbouring events of different callers may be exchanged if the first is a take, the second
/// is a give, or one of them is a mark or an access of a race-free cell: the history stays legal,
/// and each race-free cell stays race-free.
#[tactic(auto, using(crate::proofs::Answers::exchange_laws))]
pub fn neighbours_are_exchanged()
    ensures legal { (cells : Cells) (before after : List Stamped) (a b : Stamped)
        → is_legal cells (before ++ a ∷ b ∷ after) ≡ true → a.caller ≢ b.caller
        → is_movable (is_race_free cells (before ++ a ∷ b ∷ after)) a b ≡ true
        → is_legal cells (numbered (before ++ b ∷ a ∷ after)) ≡ true }
    ensures race_free { (cells : Cells) (before after : List Stamped) (a b : Stamped)
        → is_legal cells (before ++ a ∷ b ∷ after) ≡ true → a.caller ≢ b.caller
        → is_movable (is_race_free cells (before ++ a ∷ b ∷ after)) a b ≡ true → (cell : ℕ)
        → is_race_free cells (before ++ a ∷ b ∷ after) cell ≡ true
        → is_race_free cells (numbered (before ++ b ∷ a ∷ after)) cell ≡ true }
{}

/// For each reducible block of a legal history there is a legal history in which each caller does
/// the same, and in which all that the block's caller does from its open to its end stands side by
/// side (Lipton, CACM 1975).
pub fn reducible_blocks_are_gathered()
    ensures { (cells : Cells) (history before rest after : List Stamped) (opening : Stamped)
        → is_legal cells history ≡ true → IsBlock history before opening rest after
        → is_reducible cells history opening.caller rest ≡ true
        → CanBeGathered cells opening.caller before (opening ∷ rest) after }
{}

/// The text of a history that keeps the limits is read as that history.
pub fn history_is_read()
    ensures { (r : Recorded) → KeepsLimits r → history_reading (history_text r) ≡ Ok r }
{}

/// Bytes that are read as a history are its text, and it keeps the limits.
pub fn read_text_is_a_history()
    ensures text { (bytes : List ℕ) (r : Recorded) → history_reading bytes ≡ Ok r
        → bytes ≡ history_text r }
    ensures limits { (bytes : List ℕ) (r : Recorded) → history_reading bytes ≡ Ok r
        → KeepsLimits r }
{}

/// No line of a history that keeps the limits has more than 64 bytes, without its line feed.
pub fn lines_are_short()
    ensures { (r : Recorded) → KeepsLimits r
        → AllByRecursion (λ line. length line ≤ 64) (history_lines r) }
{}

/// What 256 MiB and one byte more say doesn't change with bytes that follow them.
pub fn long_histories_are_settled()
    ensures { (bytes more : List ℕ) → longest_history ≤ length bytes
        → history_reading (bytes ++ more) ≡ history_reading bytes }
{}
