//! The numbers of lines, kept in runs.

ghost use Rattle.std.specs.Prelude.{◌≡◌, ◌+◌, ◌<◌, ◌≤◌, ◌^◌, ℕ, [], ◌∷◌, ◌++◌, true, length};
ghost use Rattle.std.specs.Prelude.{OnOk, OnErr, slice_index_or};
ghost use Rattle.vyrd_own_check.specs.Numbers.{number_from};

use crate::run::Run;
use std::alloc::{AllocError, Global};
use std::marker::Model;

/// Numbers of lines, in the order in which they came. They are seen as the list of them.
///
/// Of numbers that follow one another only the first is kept, so that the memory grows with the
/// lines between them that have no number here, as the notes of a log.
#[derive(Drop)]
pub(crate) struct LineNumbers {
    runs: Vec<Run>,
    count: u64,
}

impl Model for LineNumbers {
    ghost use Rattle.std.specs.Prelude.{List, ℕ};

    ghost Value = { List ℕ };

    ghost use Rattle.vyrd_own_check.specs.Numbers.{numbers_by, AreNumbers};

    ghost view = { λ n. numbers_by n.runs.items n.count };

    ghost invariant = { λ n. AreNumbers n.runs.items n.count };
}

impl LineNumbers {
    /// No number yet. It takes no memory.
    pub(crate) fn new(alloc: Global) -> LineNumbers
        ensures { result ≡ [] }
    {
        LineNumbers {
            runs: Vec::new(alloc),
            count: 0,
        }
    }

    /// Puts further numbers at the end.
    pub(crate) fn extend(&mut self, numbers: &[u64]) -> Result<(), AllocError>
        requires { length self.old + length numbers.now ≤ 2 ^ 62 }
        ensures { OnOk result (self.new ≡ self.old ++ numbers.now) }
    {
        for number in numbers {
            self.push(*number)?;
        }
        Ok(())
    }

    /// Puts a number at the end.
    fn push(&mut self, line: u64) -> Result<(), AllocError>
        requires { length self.old < 2 ^ 62 }
        ensures { OnOk result (self.new ≡ self.old ++ line ∷ []) }
    {
        put(&mut self.runs, self.count, line)?;
        self.count += 1;
        Ok(())
    }

    /// The number at a place, from 0 on, or `other` if there are not so many. It takes time for
    /// each run.
    pub(crate) fn number_or(&self, place: u64, other: u64) -> u64
        ensures { result ≡ slice_index_or self.now place other }
    {
        if place < self.count {
            number_at(&self.runs, place)
        } else {
            other
        }
    }
}

/// Gives the number to the place behind those before it.
fn put(runs: &mut Vec<Run>, place: u64, line: u64) -> Result<(), AllocError>
    ensures here { OnOk result (number_from 0 runs.new.items place ≡ line) }
    ensures before { OnOk result ((p : ℕ) → p < place
        → number_from 0 runs.new.items p ≡ number_from 0 runs.old.items p) }
    ensures same { OnErr result (runs.new.items ≡ runs.old.items) }
{
    if goes_on(runs, place, line) {
        return Ok(());
    }
    runs.push(Run { place, line })?;
    Ok(())
}

/// Whether the last run has this number at this place.
fn goes_on(runs: &[Run], place: u64, line: u64) -> bool
    ensures { result ≡ true → number_from 0 runs.now place ≡ line }
{
    if runs.is_empty() {
        return false;
    }
    let run = runs[runs.len() - 1];
    if place < run.place {
        return false;
    }
    if line < run.line {
        return false;
    }
    line - run.line == place - run.place
}

/// The number at a place, by the last run that begins up to there.
fn number_at(runs: &[Run], place: u64) -> u64
    requires { number_from 0 runs.now place < 2 ^ 64 }
    ensures { result ≡ number_from 0 runs.now place }
{
    let mut from = Run { place, line: 0 };
    for run in runs {
        if run.place <= place {
            from = *run;
        }
    }
    from.line + (place - from.place)
}
