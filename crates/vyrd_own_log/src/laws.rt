//! Laws of reading. Each function does nothing: its contract is the law.

ghost use Rattle.std.specs.Prelude.{◌≡◌, ◌≤◌, ℕ, List, ◌++◌, Bool, true};
ghost use Rattle.vyrd_base.specs.Own.Reader.{written_in};
ghost use Rattle.vyrd_base.specs.Own.Log.{own_reading};
ghost use Rattle.vyrd_base.specs.Limits.{most_lines};
ghost use Rattle.vyrd_own_log.specs.Callable.{are_callable};
ghost use Rattle.vyrd_own_log.specs.Grown.{to_go_on, input_of, IsGrown, IsFormed};

/// What is read of bytes is read for good: of all longer bytes, as bytes that may go on and as the
/// whole input, what was read begins alike, the header stays, the specification and the starting
/// words stay once an entry or `end` was read, `end` stays the end, and a fault of text stays the
/// fault.
#[tactic(auto, using(crate::proofs::GrownLaws::reading_grown))]
pub fn read_for_good()
    ensures { (max : ℕ) (is_whole : Bool) (bytes more : List ℕ) → 1 ≤ max → max ≤ most_lines
        → IsGrown (own_reading (to_go_on max) bytes)
        (own_reading (input_of max is_whole) (bytes ++ more)) }
{}

/// Entries can call the methods of each specification that a log's text has.
#[tactic(auto, using(crate::proofs::GrownLaws::reading_callable))]
pub fn methods_can_be_called()
    ensures { (max : ℕ) (bytes : List ℕ) → 1 ≤ max → max ≤ most_lines
        → are_callable (written_in (own_reading (to_go_on max) bytes).lines).methods ≡ true }
{}

/// Starting words, entries and `end` have their lines in what is read, which are no more than there
/// may be, none comes without a header, the header is that of a subject of the user's own, and the
/// starting words keep both rules.
pub fn readings_are_formed()
    ensures { (max : ℕ) (bytes : List ℕ) → 1 ≤ max → max ≤ most_lines
        → IsFormed max (own_reading (to_go_on max) bytes) }
{}
