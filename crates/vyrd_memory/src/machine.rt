//! What every machine offers.

ghost use Rattle.std.specs.Prelude.{◌≡◌, ◌≢◌, ◌<◌, ◌≤◌, ℕ, true};
ghost use Rattle.vyrd_base.specs.declared.header.Header.{Header};
ghost use Rattle.vyrd_base.specs.declared.log.Kind.TheVariants.{Call};
ghost use Rattle.vyrd_base.specs.declared.subject.Method.{Method};
ghost use Rattle.vyrd_base.specs.declared.subject.Args.{Args};
ghost use Rattle.vyrd_memory.specs.declared.act.Act.TheVariants.{Mark, Done};
ghost use Rattle.vyrd_memory.specs.Scripts.{Script, stop, next_act, after_answer, is_between};
ghost use Rattle.vyrd_memory.specs.Scripts.{IsAnswer};
ghost use Rattle.vyrd_memory.specs.Soundness.{IsSoundSomewhere};
ghost use Rattle.vyrd_memory.specs.Bounds.{bound_of, EndsWithin, SumsUp, is_return, most_ahead};

use crate::act::Act;

/// A caller of a structure, which plays a script one act at a time.
///
/// The player of the machine asks what it wants, does it in a memory, and tells it what was found.
pub trait Machine: Drop {
    // The header that the machine was made with.
    ghost header_of: { Self → Header };

    // Whose machine it is.
    ghost caller_of: { Self → ℕ };

    // What is left to do.
    ghost script: { Self → Script };

    // How many events there are to come at most.
    ghost ahead: { Self → ℕ };

    // How many of them to the end of the operation under way, or of the next one where none is
    // under way.
    ghost op_ahead: { Self → ℕ };

    /// What comes next.
    fn wants(&self) -> Act
        ensures { result ≡ next_act (script self.now) };

    /// Goes on with the answer to what came next: the value that was loaded, and 0 after any other
    /// act.
    fn took(&mut self, answer: u64)
        requires goes_on { next_act (script self.old) ≢ Done }
        requires answer { IsAnswer (next_act (script self.old)) answer }
        ensures script { script self.new ≡ after_answer (script self.old) answer }
        ensures header { header_of self.new ≡ header_of self.old }
        ensures caller { caller_of self.new ≡ caller_of self.old }
        ensures falls { ahead self.new < ahead self.old };

    /// How many events there are to come at most: the bounds of all operations to come, and what is
    /// left of the one under way.
    fn left(&self) -> u64
        ensures { result ≡ ahead self.now };

    /// How many events there are at most to the end of the operation under way. Between two
    /// operations it is the bound of the next one, and 0 if there is none.
    fn op_left(&self) -> u64
        ensures { result ≡ op_ahead self.now };

    /// Whether no operation is under way. The caller then holds no lock.
    fn between(&self) -> bool
        ensures { result ≡ is_between (script self.now) };

    // The script keeps to its cells, holds what it gives, takes nothing that it holds, and breaks
    // no rule of shape.
    ghost is_sound: { (m : Self) → IsSoundSomewhere (header_of m) (script m) };

    // The operation under way ends in time.
    ghost ends_in_time: { (m : Self) → ∥ EndsWithin (op_ahead m) (script m) ∥₁ };

    // Between operations the bound is that of the next one.
    ghost next_bound: { (m : Self) (method : Method) (args : Args)
        → next_act (script m) ≡ Mark (Call method args)
        → op_ahead m ≡ bound_of (header_of m) method };

    // Between operations what is ahead is the sum of the bounds of those to come.
    ghost sums: { (m : Self) → is_between (script m) ≡ true
        → SumsUp (header_of m) (ahead m) (script m) };

    // What is ahead of the operation under way is ahead.
    ghost op_is_ahead: { (m : Self) → op_ahead m ≤ ahead m };

    // After its return no operation is under way.
    ghost rests: { (m : Self) → is_return (next_act (script m)) ≡ true
        → is_between (after_answer (script m) 0) ≡ true };

    // What is ahead is limited, as the operations are.
    ghost few: { (m : Self) → ahead m ≤ most_ahead };

    // At the end there is nothing ahead.
    ghost done: { (m : Self) → script m ≡ stop → ahead m ≡ 0 };
}
