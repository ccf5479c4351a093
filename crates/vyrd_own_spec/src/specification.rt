//! A specification that was read, with its lines.

ghost use Rattle.std.specs.Prelude.{◌≡◌};
ghost use Rattle.vyrd_base.specs.Own.Reader.{written_in};
ghost use Rattle.vyrd_own.specs.Layout.{texts, written};
ghost use Rattle.vyrd_own_spec.specs.Small.{IsSmall};

use std::marker::Model;
use vyrd_own::Program;

/// A specification that was read, with the lines of which it was read. It is seen as its lines.
#[derive(Drop)]
pub struct Specification {
    program: Program,
    lines: Vec<Vec<u8>>,
}

impl Model for Specification {
    ghost use Rattle.std.specs.Prelude.{◌≡◌, List, ℕ};
    ghost use Rattle.vyrd_base.specs.Own.Reader.{written_in};
    ghost use Rattle.vyrd_own.specs.Layout.{texts, written};
    ghost use Rattle.vyrd_own_spec.specs.Small.{IsSmall};

    ghost Value = { List (List ℕ) };

    ghost view = { λ s. texts s.lines.items };

    ghost invariant = { λ s. (written s.program ≡ written_in (texts s.lines.items))
        × IsSmall (written s.program) };
}

impl Specification {
    /// The specification that these lines spell, without their line feeds and without the line
    /// `log`.
    pub fn new(program: Program, lines: Vec<Vec<u8>>) -> Specification
        requires { written program ≡ written_in (texts lines.items) }
        ensures { result ≡ texts lines.items }
    {
        Specification { program, lines }
    }

    /// What runs.
    #[inline(always)]
    pub(crate) fn program(&self) -> &Program
        ensures says { written result.now ≡ written_in self.now }
        ensures small { IsSmall (written result.now) }
    {
        &self.program
    }
}
