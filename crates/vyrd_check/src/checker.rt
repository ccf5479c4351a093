//! The checker of a log's bytes.

ghost use Rattle.std.specs.Prelude.{◌≡◌, ◌++◌, ◌≤◌, ◌<◌, ◌+◌, ℕ, List, [], None, true, false};
ghost use Rattle.std.specs.Prelude.{IfOk, OnOk};
ghost use Rattle.std.specs.Result.{is_err};
ghost use Rattle.vyrd_base.specs.TextVerdicts.{text_verdict, text_verdict_so_far};
ghost use Rattle.vyrd_base.specs.Limits.{most_lines};
ghost use Rattle.vyrd_check.specs.Checking.{HasChecked};
ghost use Rattle.vyrd_check.specs.Costs.{bytes_cost, finish_cost};
ghost use Rattle.vyrd_check.specs.Owed.{checker_debt};

use crate::text_judge::TextJudge;
use std::alloc::{AllocError, Global};
use std::marker::{Brand, Model};
use std::sync::ledger::{Blank, Ledger};
use vyrd_base::{Steps, Verdict};

/// The most bytes that are read before their entries are judged.
const LONGEST_PART: usize = 8_192;

/// Follows the bytes of a log, which may come in pieces of any size, and knows the verdict as soon
/// as there is one.
///
/// It keeps at most one unfinished line, the starting words, room for the entries of at most 8,192
/// bytes, and what [`AnyJudge`](vyrd_judge::AnyJudge) keeps. The time grows with the bytes. Once
/// `feed` has found no memory, it and `finish` say so from then on.
pub struct Checker {
    text: TextJudge,
    so_far: Option<Verdict>,
    has_failed: bool,
}

impl Model for Checker {
    ghost use Rattle.vyrd_check.specs.Checking.{CheckerState, IsSound};

    ghost Value = { CheckerState };

    ghost view = { λ c. record { kept = c.text; so_far = c.so_far; has_failed = c.has_failed } };

    ghost invariant = { λ c.
        IsSound (record { kept = c.text; so_far = c.so_far; has_failed = c.has_failed }) };
}

impl Drop for Checker {
    /// By hand, so that dropping a checker is one call to prove, and not the drop of each of its
    /// parts.
    fn drop(self) {
        let Checker {
            text,
            so_far: _,
            has_failed: _,
        } = self;
        drop(text);
    }
}

impl Checker {
    /// A checker that has followed no byte. A log with more than `max_lines` lines is malformed;
    /// `max_lines` is from 1 to 268,435,456. It takes no memory.
    pub fn new(alloc: Global, max_lines: u64) -> Checker
        requires low { 1 ≤ max_lines }
        requires high { max_lines ≤ most_lines }
        ensures checked { HasChecked result [] }
        ensures limit { result.kept.reader.max_lines ≡ max_lines }
        ensures so_far { result.so_far ≡ None }
        ensures has_failed { result.has_failed ≡ false }
        ensures owed { checker_debt result [] ≡ 0 }
        ensures unread { bytes_cost max_lines [] ≡ 0 }
    {
        Checker {
            text: TextJudge::new(alloc, max_lines),
            so_far: None,
            has_failed: false,
        }
    }

    /// Follows the next piece. The answer is the verdict so far of all bytes: `None` if nothing
    /// stands yet. Once there is a verdict it is answered again, and nothing more is read.
    pub fn feed(&mut self, piece: &[u8]) -> Result<Option<Verdict>, AllocError>
        ensures answer { (bytes : List ℕ) → HasChecked self.old bytes
            → IfOk result
            (λ v. v ≡ text_verdict_so_far self.old.kept.reader.max_lines (bytes ++ piece.now)) }
        ensures checked { (bytes : List ℕ) → HasChecked self.old bytes
            → OnOk result (HasChecked self.new (bytes ++ piece.now)) }
        ensures so_far { IfOk result (λ v. self.new.so_far ≡ v) }
        ensures has_failed { self.new.has_failed ≡ is_err result }
        ensures fails_again { self.old.has_failed ≡ true → is_err result ≡ true }
        ensures limit { self.new.kept.reader.max_lines ≡ self.old.kept.reader.max_lines }
    {
        feed_alone::<Brand>(Blank::new(1), self, piece)
    }

    /// The same, with the judge's steps counted, as [`AnyJudge`](vyrd_judge::AnyJudge) counts them.
    /// Reading isn't counted. What a piece leaves to be done later is owed from then on, so that
    /// over a whole log the steps are at most what its bytes cost, however they are cut.
    pub fn feed_counted<L: Ledger>(
        &mut self,
        piece: &[u8],
        steps: &mut Steps<L>,
    ) -> Result<Option<Verdict>, AllocError>
        ensures answer { (bytes : List ℕ) → HasChecked self.old bytes
            → IfOk result
            (λ v. v ≡ text_verdict_so_far self.old.kept.reader.max_lines (bytes ++ piece.now)) }
        ensures checked { (bytes : List ℕ) → HasChecked self.old bytes
            → OnOk result (HasChecked self.new (bytes ++ piece.now)) }
        ensures so_far { IfOk result (λ v. self.new.so_far ≡ v) }
        ensures has_failed { self.new.has_failed ≡ is_err result }
        ensures fails_again { self.old.has_failed ≡ true → is_err result ≡ true }
        ensures limit { self.new.kept.reader.max_lines ≡ self.old.kept.reader.max_lines }
        ensures steps { (bytes : List ℕ) → HasChecked self.old bytes
            → OnOk result (steps.new + checker_debt self.new (bytes ++ piece.now)
            + bytes_cost self.old.kept.reader.max_lines bytes
            ≤ steps.old + checker_debt self.old bytes
            + bytes_cost self.old.kept.reader.max_lines (bytes ++ piece.now)) }
    {
        if self.has_failed {
            return Err(AllocError);
        }
        let mut rest = piece;
        while !rest.is_empty() {
            if let Some(verdict) = self.so_far {
                return Ok(Some(verdict));
            }
            let (part, after) = rest.split_at(rest.len().min(LONGEST_PART));
            self.feed_part(part, steps)?;
            rest = after;
        }
        Ok(self.so_far)
    }

    /// The verdict about all bytes, if the input ends here.
    pub fn finish(&self) -> Result<Verdict, AllocError>
        ensures verdict { (bytes : List ℕ) → HasChecked self.now bytes →
            IfOk result (λ v. v ≡ text_verdict self.now.kept.reader.max_lines bytes) }
        ensures has_failed { self.now.has_failed ≡ true → is_err result ≡ true }
    {
        finish_alone::<Brand>(Blank::new(1), self)
    }

    /// The same, with the judge's steps counted: one for each caller at most.
    pub fn finish_counted<L: Ledger>(&self, steps: &mut Steps<L>) -> Result<Verdict, AllocError>
        ensures verdict { (bytes : List ℕ) → HasChecked self.now bytes →
            IfOk result (λ v. v ≡ text_verdict self.now.kept.reader.max_lines bytes) }
        ensures has_failed { self.now.has_failed ≡ true → is_err result ≡ true }
        ensures steps { (bytes : List ℕ) → HasChecked self.now bytes
            → steps.new ≤ steps.old + finish_cost self.now.kept.reader.max_lines bytes }
    {
        if self.has_failed {
            return Err(AllocError);
        }
        match self.so_far {
            Some(verdict) => Ok(verdict),
            None => self.text.end(steps),
        }
    }

    /// Follows a part of a piece, while no verdict stands.
    fn feed_part<L: Ledger>(&mut self, part: &[u8], steps: &mut Steps<L>) -> Result<(), AllocError>
        requires works { self.old.has_failed ≡ false }
        requires undecided { self.old.so_far ≡ None }
        ensures checked { (bytes : List ℕ) → HasChecked self.old bytes
            → OnOk result (HasChecked self.new (bytes ++ part.now)) }
        ensures has_failed { self.new.has_failed ≡ is_err result }
        ensures limit { self.new.kept.reader.max_lines ≡ self.old.kept.reader.max_lines }
        ensures steps { (bytes : List ℕ) → HasChecked self.old bytes
            → OnOk result (steps.new + checker_debt self.new (bytes ++ part.now)
            + bytes_cost self.old.kept.reader.max_lines bytes
            ≤ steps.old + checker_debt self.old bytes
            + bytes_cost self.old.kept.reader.max_lines (bytes ++ part.now)) }
    {
        match self.text.take_in(part, steps) {
            Ok(verdict) => {
                self.so_far = verdict;
                Ok(())
            }
            Err(error) => {
                self.has_failed = true;
                Err(error)
            }
        }
    }
}

/// The verdict about these bytes as a whole input of at most `max_lines` lines, from 1 to
/// 268,435,456.
///
/// The bytes are read where they lie. Time and memory are those of a [`Checker`]. The only error is
/// out of memory, and then nothing is known of the log.
pub fn verdict_of(alloc: Global, max_lines: u64, bytes: &[u8]) -> Result<Verdict, AllocError>
    requires low { 1 ≤ max_lines }
    requires high { max_lines ≤ most_lines }
    ensures { IfOk result (λ v. v ≡ text_verdict max_lines bytes.now) }
{
    let mut checker = Checker::new(alloc, max_lines);
    checker.feed(bytes)?;
    checker.finish()
}

/// Follows a piece with a count of its own.
fn feed_alone<L: Ledger>(
    blank: Blank,
    checker: &mut Checker,
    piece: &[u8],
) -> Result<Option<Verdict>, AllocError>
    requires name { blank.name ≡ L.name }
    requires parts { blank.parts ≡ L.parts }
    requires some { 0 < blank.parts }
    ensures answer { (bytes : List ℕ) → HasChecked checker.old bytes
        → IfOk result
        (λ v. v ≡ text_verdict_so_far checker.old.kept.reader.max_lines (bytes ++ piece.now)) }
    ensures checked { (bytes : List ℕ) → HasChecked checker.old bytes
        → OnOk result (HasChecked checker.new (bytes ++ piece.now)) }
    ensures so_far { IfOk result (λ v. checker.new.so_far ≡ v) }
    ensures has_failed { checker.new.has_failed ≡ is_err result }
    ensures fails_again { checker.old.has_failed ≡ true → is_err result ≡ true }
    ensures limit { checker.new.kept.reader.max_lines ≡ checker.old.kept.reader.max_lines }
{
    let mut steps = Steps::<L>::new(blank);
    checker.feed_counted(piece, &mut steps)
}

/// Ends with a count of its own.
fn finish_alone<L: Ledger>(blank: Blank, checker: &Checker) -> Result<Verdict, AllocError>
    requires name { blank.name ≡ L.name }
    requires parts { blank.parts ≡ L.parts }
    requires some { 0 < blank.parts }
    ensures verdict { (bytes : List ℕ) → HasChecked checker.now bytes →
        IfOk result (λ v. v ≡ text_verdict checker.now.kept.reader.max_lines bytes) }
    ensures has_failed { checker.now.has_failed ≡ true → is_err result ≡ true }
{
    let mut steps = Steps::<L>::new(blank);
    checker.finish_counted(&mut steps)
}
