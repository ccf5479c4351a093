//! Laws of the definitions. Each function is empty, and its contract is the law.

ghost use Rattle.std.specs.Prelude.{ℕ, List};
ghost use Rattle.vyrd_base.specs.Own.Reader.{written_in};
ghost use Rattle.vyrd_own_spec.specs.Small.{IsSmall};

/// Whatever lines say, the specification that they spell is within its limits. So few values have a
/// name in it, and a part has few words and gives to few keys.
pub fn lines_spell_few()
    ensures { (lines : List (List ℕ)) → IsSmall (written_in lines) }
{}
