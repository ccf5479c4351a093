//! Where the entries of a log stand in its text.

ghost use Rattle.std.specs.Prelude.{◌≡◌, ℕ};

/// On which line of its text each entry of a log stands.
pub trait Lines: Sized {
    // The line of the entry at a position.
    ghost line: { Self → ℕ → ℕ };

    /// The line of the entry at a position. Positions count from 0, and lines from 1.
    fn line(&self, at: usize) -> u128
        ensures { result ≡ line self.now at };
}

/// Entries that follow one another line by line, behind the header's line and those of starting
/// words.
#[derive(Clone, Copy, Debug, PartialEq, Eq)]
pub struct InRow {
    /// How many starting words there are.
    pub starting: usize,
}

impl Lines for InRow {
    ghost use Rattle.std.specs.Prelude.{◌+◌};

    ghost line = { λ lines at. lines.starting + at + 2 };

    fn line(&self, at: usize) -> u128 {
        self.starting as u128 + at as u128 + 2
    }
}
