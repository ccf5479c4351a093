//! What follows from the clauses of the top call, as clauses of functions that do nothing.

ghost use Rattle.std.specs.Prelude.{◌≡◌, ◌≤◌, ◌⊎◌, ℕ, Bool, true, false, List, Option};
ghost use Rattle.std.specs.Prelude.{Some, None};
ghost use Rattle.std.specs.Borrow.{Bor};
ghost use Rattle.vyrd_base.specs.Devices.{SourceKnown, AfterReads, SinkKnown, AfterWrites};
ghost use Rattle.vyrd_check_command.specs.Inside.Words.{asks_check};
ghost use Rattle.vyrd_command.specs.declared.form.Form.{Form};
ghost use Rattle.vyrd_command.specs.declared.form.Form.TheVariants.{Check};
ghost use Rattle.vyrd_command.specs.Forms.{form_said};
ghost use Rattle.vyrd_command.specs.Commands.{IsStatus, HasRoom};
ghost use Rattle.vyrd_command.specs.Inside.Counts.{HasRisen};

/// Status 3 comes only for words that are none of the forms.
pub fn usage_is_of_no_form()
    ensures { (form : Option Form) → IsStatus form 3 → form ≡ None }
{}

/// The words for which a program that only checks does so are those of the form `check`.
pub fn both_programs_check()
    ensures whole { (words : List (Bor (List ℕ))) → asks_check words ≡ true
        → form_said words ≡ Some Check }
    ensures smaller { (words : List (Bor (List ℕ))) → form_said words ≡ Some Check
        → asks_check words ≡ true }
{}

/// The count of a source rises if a read fails, and else stays. It never falls, and that of a sure
/// source stays.
pub fn failed_reads_are_counted()
    ensures rises { (before after : SourceKnown) → AfterReads true before after
        → HasRisen before.faults after.faults }
    ensures alone { (failed : Bool) (before after : SourceKnown) → AfterReads failed before after
        → (after.faults ≡ before.faults) ⊎ (failed ≡ true) }
    ensures told { (failed : Bool) (before after : SourceKnown) → AfterReads failed before after
        → ¬ (HasRisen before.faults after.faults) → failed ≡ false }
    ensures never_falls { (failed : Bool) (before after : SourceKnown)
        → AfterReads failed before after → before.faults ≤ after.faults }
    ensures sure { (failed : Bool) (before after : SourceKnown) → AfterReads failed before after
        → before.is_sure ≡ true → after.faults ≡ before.faults }
{}

/// The same of a sink and its writes. If there is sure room for the answer, its count stays.
pub fn failed_writes_are_counted()
    ensures rises { (form : Option Form) (input : Option (List ℕ)) (before after : SinkKnown)
        → AfterWrites true (HasRoom form input before.sure_room) before after
        → HasRisen before.faults after.faults }
    ensures alone { (failed : Bool) (form : Option Form) (input : Option (List ℕ))
        (before after : SinkKnown)
        → AfterWrites failed (HasRoom form input before.sure_room) before after
        → (after.faults ≡ before.faults) ⊎ (failed ≡ true) }
    ensures told { (failed : Bool) (form : Option Form) (input : Option (List ℕ))
        (before after : SinkKnown)
        → AfterWrites failed (HasRoom form input before.sure_room) before after
        → ¬ (HasRisen before.faults after.faults) → failed ≡ false }
    ensures never_falls { (failed : Bool) (form : Option Form) (input : Option (List ℕ))
        (before after : SinkKnown)
        → AfterWrites failed (HasRoom form input before.sure_room) before after
        → before.faults ≤ after.faults }
    ensures sure { (failed : Bool) (form : Option Form) (input : Option (List ℕ))
        (before after : SinkKnown)
        → AfterWrites failed (HasRoom form input before.sure_room) before after
        → HasRoom form input before.sure_room → after.faults ≡ before.faults }
{}
