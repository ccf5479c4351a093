//! Where the entries of a log of version 3 stand in its text.

ghost use Rattle.std.specs.Prelude.{◌≡◌, ◌+◌, ℕ, slice_index};

use vyrd_item_text::Lines;

/// The lines of entries, as they were numbered.
#[derive(Clone, Copy)]
pub(crate) struct OwnLines<'a> {
    of_entries: &'a [u64],
}

impl<'a> OwnLines<'a> {
    /// Those of the entries behind so many starting words, given the numbers of the lines of both.
    pub(crate) fn new(starting: usize, numbers: &'a [u64]) -> OwnLines<'a>
        ensures { (at : ℕ) → slice_index result.of_entries.now at
            ≡ slice_index numbers.now (starting + at) }
    {
        let (_, of_entries) = numbers.split_at(starting.min(numbers.len()));
        OwnLines { of_entries }
    }
}

impl<'a> Lines for OwnLines<'a> {
    ghost use Rattle.std.specs.Prelude.{slice_index};

    ghost line = { λ lines at. slice_index lines.of_entries.now at };

    fn line(&self, at: usize) -> u128 {
        match self.of_entries.get(at) {
            Some(line) => u128::from(*line),
            None => 0,
        }
    }
}
