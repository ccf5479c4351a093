//! Laws of the definitions of a witness, each a clause of a function that does nothing.

ghost use Rattle.std.specs.Prelude.{◌≡◌, ◌≢◌, ◌↔◌, ◌+◌, ℕ, true, false, List, [], All, drop, take};
ghost use Rattle.std.specs.Prelude.{flat_map, sum_by, slice_get, Some, None};
ghost use Rattle.vyrd_base.specs.declared.header.Header.{Header};
ghost use Rattle.vyrd_base.specs.declared.log.Entry.{Entry};
ghost use Rattle.vyrd_base.specs.declared.log.Kind.TheVariants.{Write};
ghost use Rattle.vyrd_base.specs.declared.log.StartWord.{StartWord};
ghost use Rattle.vyrd_base.specs.declared.verdict.Why.TheVariants.{View};
ghost use Rattle.vyrd_base.specs.Amounts.{amount_of, given};
ghost use Rattle.vyrd_base.specs.Commits.{is_commit, commit_count, committed_at, state_after};
ghost use Rattle.vyrd_base.specs.Entries.{place_of};
ghost use Rattle.vyrd_base.specs.Faults.{fault_at};
ghost use Rattle.vyrd_base.specs.Places.{newest_first};
ghost use Rattle.vyrd_base.specs.Rules.{Rules, Charter, rules_by};
ghost use Rattle.vyrd_base.specs.Samples.{by};
ghost use Rattle.vyrd_base.specs.Shape.{is_held_by_other, is_raced};
ghost use Rattle.vyrd_base.specs.States.{State};
ghost use Rattle.vyrd_base.specs.Words.{effects_at, is_passed};
ghost use Rattle.vyrd_witness.specs.declared.effect.Effect.{Effect};
ghost use Rattle.vyrd_witness.specs.Changes.{amount_shown, changes_in, words_through};
ghost use Rattle.vyrd_witness.specs.Effects.{effects_by};
ghost use Rattle.vyrd_witness.specs.Given.{parts_by_number, given_parts};
ghost use Rattle.vyrd_witness.specs.Leading.{LeadTo};
ghost use Rattle.vyrd_witness.specs.Plain.{plain_writes};
ghost use Rattle.vyrd_witness.specs.Races.{held_items, passed_items, race_items};
ghost use Rattle.vyrd_witness.specs.ViewWitnesses.{amount_then};
ghost use Rattle.vyrd_witness.specs.Written.{IsWritten};

/// Without their positions the effects at an entry are those that the words are made of: nothing is
/// added, and nothing is left out.
pub fn effects_are_those_of_the_words()
    ensures { (front : List Entry) (at : ℕ) (e : Entry) → slice_get front at ≡ Some e
        → plain_writes (effects_by front at e)
        ≡ effects_at (newest_first (take at front)) e.caller e.kind (drop (at + 1) front) }
{}

/// Each effect's write stands where it says: there its caller writes that value to that word.
pub fn effects_stand_where_they_say()
    ensures { (front : List Entry) (at : ℕ) (e : Entry) → slice_get front at ≡ Some e
        → All (IsWritten front) (effects_by front at e) }
{}

/// The changes lead from what the words showed to what they show: none is missing.
pub fn changes_lead_to_what_is_shown()
    ensures { (r : Rules) (key : ℕ) (words : List ℕ) (effects : List Effect)
        → LeadTo (amount_shown r words key) (changes_in r key words effects)
        (amount_shown r (words_through words effects) key) }
{}

/// Together the parts of the words give what the words show of each key, and so do those that are
/// told: none is left out.
pub fn parts_give_what_is_shown()
    ensures all { (c : Charter) (words : List ℕ) (key : ℕ)
        → given key (flat_map (λ part. part.1) (parts_by_number c words))
        ≡ amount_of ((rules_by c).view words) key }
    ensures told { (c : Charter) (words : List ℕ) (key : ℕ)
        → sum_by (λ part. part.1) (given_parts key (parts_by_number c words))
        ≡ amount_of ((rules_by c).view words) key }
{}

/// After a commit that isn't a fault the words show of each key what the state has. So what the
/// words showed at the commit before a first fault, the state had there too.
pub fn words_and_state_agree_at_a_good_commit()
    ensures { (r : Rules) (starting : List StartWord) (front : List Entry) (at : ℕ) (e : Entry)
        (states : List State) (s t : State) → slice_get front at ≡ Some e
        → is_commit e.kind ≡ true
        → slice_get states (commit_count (newest_first (take at front))) ≡ Some s
        → state_after r s (committed_at
        (place_of e (newest_first (take at front)) (drop (at + 1) front))) ≡ Some t
        → fault_at r starting states
        (place_of e (newest_first (take at front)) (drop (at + 1) front)) ≡ None
        → (key : ℕ) → amount_then r starting front (at + 1) key ≡ amount_of (r.shown t) key }
{}

/// Where the view differs at a key, what the words show of the key isn't what the state after the
/// commit has.
pub fn words_and_state_differ_at_the_fault()
    ensures { (r : Rules) (starting : List StartWord) (front : List Entry) (at : ℕ) (e : Entry)
        (states : List State) (s t : State) (key : ℕ) → slice_get front at ≡ Some e
        → is_commit e.kind ≡ true
        → slice_get states (commit_count (newest_first (take at front))) ≡ Some s
        → state_after r s (committed_at
        (place_of e (newest_first (take at front)) (drop (at + 1) front))) ≡ Some t
        → fault_at r starting states
        (place_of e (newest_first (take at front)) (drop (at + 1) front)) ≡ Some (View key)
        → amount_then r starting front (at + 1) key ≢ amount_of (r.shown t) key }
{}

/// A write to a word that another caller holds has that caller's write among its items, and only
/// such a write has one.
pub fn held_words_have_items()
    ensures { (h : Header) (front : List Entry) (c w : ℕ)
        → (held_items h front c w ≡ []) ↔ (is_held_by_other h c w (newest_first front) ≡ false) }
{}

/// A write to a word that is passed has a write that passed it among its items, and only such a
/// write has one.
pub fn passed_words_have_items()
    ensures { (front : List Entry) (c w : ℕ)
        → (passed_items front c w ≡ []) ↔ (is_passed c w (newest_first front) ≡ false) }
{}

/// So a write has an item exactly where it races.
pub fn races_have_items()
    ensures { (h : Header) (front : List Entry) (c w value : ℕ)
        → (race_items h front (by c (Write w value)) ≡ [])
        ↔ (is_raced h c w (newest_first front) ≡ false) }
{}
