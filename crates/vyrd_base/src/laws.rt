//! Laws of the definitions. Each function does nothing: its contract is the law.

ghost use Rattle.std.specs.Prelude.{◌≢◌, ◌≡◌, ◌+◌, ◌≤◌, ◌<◌, ℕ, true, length, ◌==◌, min};
ghost use Rattle.std.specs.Prelude.{if◌then◌else◌, List, [], ◌∷◌, ◌++◌, Some, None, false};
ghost use Rattle.std.specs.Prelude.{slice_set, not, ◌&&◌, ◌||◌};
ghost use Rattle.std.specs.Option.{option_or};
ghost use Rattle.vyrd_base.specs.declared.header.Header.{Header};
ghost use Rattle.vyrd_base.specs.declared.log.Entry.{Entry};
ghost use Rattle.vyrd_base.specs.declared.log.StartWord.{StartWord};
ghost use Rattle.vyrd_base.specs.declared.log.Kind.TheVariants.{Return, Write};
ghost use Rattle.vyrd_base.specs.declared.subject.Method.{Method};
ghost use Rattle.vyrd_base.specs.Subjects.{is_observer, must_commit, is_built_in, subject_of};
ghost use Rattle.vyrd_base.specs.declared.verdict.Why.TheVariants.{Observer};
ghost use Rattle.vyrd_base.specs.declared.verdict.Verdict.{Verdict};
ghost use Rattle.vyrd_base.specs.declared.verdict.Verdict.TheVariants.{Malformed};
ghost use Rattle.vyrd_base.specs.Places.{newest_first};
ghost use Rattle.vyrd_base.specs.Callers.{Called, open_call, has_block, has_committed};
ghost use Rattle.vyrd_base.specs.Shape.{broken_rule, is_observing, owes_commit};
ghost use Rattle.vyrd_base.specs.Front.{front, first_break, unless_broken};
ghost use Rattle.vyrd_base.specs.Layout.{plain_words};
ghost use Rattle.vyrd_base.specs.Words.{words_after};
ghost use Rattle.std.specs.List.{AllByRecursion, list_any};
ghost use Rattle.vyrd_base.specs.Spelling.{log_text, is_entry_of};
ghost use Rattle.vyrd_base.specs.Reading.{Input, TextFault, reading};
ghost use Rattle.vyrd_base.specs.Histories.{cells_of, is_legal, log_of, words_of_history};
ghost use Rattle.vyrd_base.specs.Amounts.{Amounts, IsAmounts, amount_of, with_amount};
ghost use Rattle.vyrd_base.specs.States.{State};
ghost use Rattle.vyrd_base.specs.Amounts.{first_difference};
ghost use Rattle.vyrd_base.specs.declared.history.Stamped.{Stamped};
ghost use Rattle.vyrd_base.specs.TextVerdicts.{text_verdict, text_verdict_so_far, stop_of};
ghost use Rattle.vyrd_base.specs.Faults.{observer_fault};
ghost use Rattle.vyrd_base.specs.Rules.{Rules, rules_of};
ghost use Rattle.vyrd_base.specs.Verdicts.{verdict_so_far, verdict, verdict_at, is_call_open};
ghost use Rattle.vyrd_base.specs.Buffers.{text_of, text_length, joined, cut_to, are_characters};
ghost use Rattle.vyrd_base.specs.Starts.{may_start, state_at_start};
ghost use Rattle.vyrd_base.specs.Specification.{start};
ghost use Rattle.vyrd_base.specs.FirstVersion.{old_verdict_so_far, old_verdict};

/// One more entry is in the front if no rule is broken before it and it breaks none itself.
#[tactic(auto, using(crate::proofs::Answers::front_laws))]
pub fn front_grows()
    ensures { (h : Header) (es : List Entry) (e : Entry)
        → front h (es ++ e ∷ []) ≡ front h es ++ unless_broken
        (option_or (first_break h es) (broken_rule h (newest_first es) e)) (e ∷ []) }
{}

/// A verdict that stands stands for good.
#[tactic(auto, using(crate::proofs::Answers::verdict_laws))]
pub fn verdict_lasts()
    ensures so_far { (r : Rules) (starting : List StartWord) (es more : List Entry) (v : Verdict) →
        verdict_so_far r starting es ≡ Some v → verdict_so_far r starting (es ++ more) ≡ Some v }
    ensures whole { (r : Rules) (starting : List StartWord) (es more : List Entry) (v : Verdict) →
        verdict_so_far r starting es ≡ Some v → verdict r starting (es ++ more) ≡ v }
{}

/// A log of version 1 keeps the verdict that it had while there was no other version.
#[tactic(auto, using(crate::proofs::Answers::first_version_laws))]
pub fn first_version_keeps_its_verdicts()
    ensures so_far { (h : Header) (es : List Entry) → h.version ≡ 1
        → verdict_so_far (rules_of h) [] es ≡ old_verdict_so_far h es }
    ensures whole { (h : Header) (es : List Entry) → h.version ≡ 1
        → verdict (rules_of h) [] es ≡ old_verdict h es }
{}

/// Each method of the built-in subjects commits once or never. So a log of theirs has the verdict
/// that it has where observers and mutators are told apart by the method: a return lacks a commit
/// if its execution has none and isn't an observer's, and it is counted and judged as an observer's
/// if its method is one.
#[tactic(auto, using(crate::proofs::Answers::commit_laws))]
pub fn methods_commit_once_or_never()
    ensures methods { (method : Method) → is_built_in (subject_of method) ≡ true
        → must_commit method ≡ not (is_observer method) }
    ensures no_commit { (c : ℕ) (earlier : List Entry) (called : Called)
        → open_call c earlier ≡ Some called → is_built_in (subject_of called.method) ≡ true
        → (owes_commit c earlier && not (has_committed c earlier))
        ≡ not (is_observing c earlier || has_committed c earlier) }
    ensures counted { (h : Header) (es : List Entry) (c reply : ℕ)
        → is_built_in h.subject ≡ true
        → first_break h (es ++ record { caller = c; kind = Return reply } ∷ []) ≡ None
        → not (has_committed c (newest_first es)) ≡ is_observing c (newest_first es) }
    ensures fault { (r : Rules) (window : List State) (es : List Entry) (c reply : ℕ)
        (called : Called) → is_built_in r.header.subject ≡ true
        → first_break r.header (es ++ record { caller = c; kind = Return reply } ∷ []) ≡ None
        → open_call c (newest_first es) ≡ Some called
        → observer_fault r window (has_committed c (newest_first es)) reply called
        ≡ (if not (is_observer called.method)
        || list_any (λ state. r.answer state called.method called.args == reply) window
        then None else Some (Observer reply)) }
{}

/// Without starting words the specification starts empty.
#[tactic(auto, using(crate::proofs::Answers::start_laws))]
pub fn starts_empty()
    ensures { (h : Header) → state_at_start (rules_of h) [] ≡ Some start }
{}

/// A write outside a block changes its own word alone.
#[tactic(auto, using(crate::proofs::Answers::word_laws))]
pub fn write_changes_its_word()
    ensures { (h : Header) (starting : List StartWord) (earlier : List Entry) (c w v : ℕ)
        → has_block c earlier ≡ false → w < plain_words h
        → words_after h starting (record { caller = c; kind = Write w v } ∷ earlier)
        ≡ slice_set (words_after h starting earlier) w v }
{}

/// The text of a log of a built-in subject is read as that log, and has its verdict.
#[tactic(auto, using(crate::proofs::Answers::text_laws))]
pub fn text_is_read()
    ensures read { (input : Input) (h : Header) (starting : List StartWord) (es : List Entry)
        → is_built_in h.subject ≡ true
        → length starting + length es + 2 ≤ input.max_lines → may_start h starting ≡ true
        → AllByRecursion (λ e. is_entry_of h.subject e ≡ true) es
        → reading input (log_text h starting es)
        ≡ record {
          header = Some h;
          starting = starting;
          entries = es;
          ended = true;
          fault = None;
        } }
    ensures judged { (max : ℕ) (h : Header) (starting : List StartWord) (es : List Entry) →
        is_built_in h.subject ≡ true →
        length starting + length es + 2 ≤ max → may_start h starting ≡ true →
        AllByRecursion (λ e. is_entry_of h.subject e ≡ true) es →
        text_verdict max (log_text h starting es) ≡ verdict (rules_of h) starting es }
{}

/// The words that the log of a legal history leaves are the words of the history, once every call
/// has returned.
#[tactic(auto, using(crate::proofs::Answers::history_laws))]
pub fn words_of_a_history()
    ensures { (h : Header) (history : List Stamped) → is_legal (cells_of h) history ≡ true
        → first_break h (log_of history) ≡ None
        → is_call_open h (newest_first (log_of history)) ≡ false
        → words_after h [] (newest_first (log_of history)) ≡ words_of_history h history }
{}

/// Amounts by key behave as a map in which a key that isn't there has the amount 0.
#[tactic(auto, using(crate::proofs::Answers::amount_laws))]
pub fn amounts_are_a_map()
    ensures read { (s : Amounts) (k a q : ℕ)
        → amount_of (with_amount s k a) q ≡ (if q == k then a else amount_of s q) }
    ensures kept { (s : Amounts) (k a : ℕ) → IsAmounts s → IsAmounts (with_amount s k a) }
    ensures same { (s t : Amounts) → IsAmounts s → IsAmounts t
        → ((q : ℕ) → amount_of s q ≡ amount_of t q)
        → s ≡ t }
{}

/// A verdict about bytes that stands stands for all longer bytes, and is their verdict as a whole.
#[tactic(auto, using(crate::proofs::Answers::byte_laws))]
pub fn text_verdict_lasts()
    ensures so_far { (max : ℕ) (bytes more : List ℕ) (v : Verdict) → 1 ≤ max →
        text_verdict_so_far max bytes ≡ Some v → text_verdict_so_far max (bytes ++ more) ≡ Some v }
    ensures whole { (max : ℕ) (bytes more : List ℕ) (v : Verdict) → 1 ≤ max →
        text_verdict_so_far max bytes ≡ Some v → text_verdict max (bytes ++ more) ≡ v }
{}

/// The verdict about a whole input with a header is that of its entries and of how its text stops.
/// Without a header it is the fault of the text.
#[tactic(auto, using(crate::proofs::Answers::stop_laws))]
pub fn verdict_by_its_stop()
    ensures headed { (max : ℕ) (bytes : List ℕ) (h : Header)
        → (reading (record { max_lines = max; is_whole = true }) bytes).header ≡ Some h
        → text_verdict max bytes
        ≡ verdict_at (rules_of h)
        (reading (record { max_lines = max; is_whole = true }) bytes).starting
        (reading (record { max_lines = max; is_whole = true }) bytes).entries
        (stop_of (reading (record { max_lines = max; is_whole = true }) bytes)) }
    ensures headless { (max : ℕ) (bytes : List ℕ) (fault : TextFault) →
        (reading (record { max_lines = max; is_whole = true }) bytes).header ≡ None →
        (reading (record { max_lines = max; is_whole = true }) bytes).fault ≡ Some fault →
        text_verdict max bytes ≡ Malformed fault.line fault.rule }
{}

/// What is read to its `end` without a fault is the text of a log.
pub fn read_text_is_a_log()
    ensures { (input : Input) (bytes : List ℕ) → (reading input bytes).ended ≡ true
        → (reading input bytes).fault ≡ None
        → (h : Header) × ((reading input bytes).header ≡ Some h)
        × (may_start h (reading input bytes).starting ≡ true)
        × (bytes ≡ log_text h (reading input bytes).starting (reading input bytes).entries)
        × AllByRecursion (λ e. is_entry_of h.subject e ≡ true) (reading input bytes).entries }
{}

/// The first difference of two sides is the least key at which their amounts differ.
pub fn least_difference()
    ensures none { (a b : Amounts) → first_difference a b ≡ None → (q : ℕ)
        → amount_of a q ≡ amount_of b q }
    ensures some { (a b : Amounts) (k : ℕ) → first_difference a b ≡ Some k →
        (amount_of a k ≢ amount_of b k) × ((q : ℕ) → q < k → amount_of a q ≡ amount_of b q) }
{}

/// A text stands for its characters, at most 7 and each below 255: its length counts them, those
/// after the first n are joined after them, a cut keeps the first of them, and other characters
/// make another text.
pub fn text_stands_for_its_characters()
    ensures length { (f : ℕ → ℕ) (n : ℕ) → n ≤ 7 → are_characters f n ≡ true
        → text_length (text_of f n) ≡ n }
    ensures joined { (f : ℕ → ℕ) (n m : ℕ) → n ≤ 7 → are_characters f n ≡ true →
        joined (text_of f n) (text_of (λ i. f (n + i)) m) ≡ text_of f (n + m) }
    ensures cut { (f : ℕ → ℕ) (n k : ℕ) → n ≤ 7 → are_characters f n ≡ true →
        cut_to k (text_of f n) ≡ text_of f (min k n) }
    ensures told { (f g : ℕ → ℕ) (n m : ℕ) → n ≤ 7 → m ≤ 7 → are_characters f n ≡ true
        → are_characters g m ≡ true → text_of f n ≡ text_of g m
        → (n ≡ m) × ((i : ℕ) → i < n → f i ≡ g i) }
{}
