//! The checker of the bytes of a log of version 3.

ghost use Rattle.std.specs.Prelude.{◌≡◌, ◌++◌, ◌≤◌, ◌<◌, ◌+◌, ℕ, List, [], None, true, false};
ghost use Rattle.std.specs.Prelude.{IfOk, OnOk};
ghost use Rattle.std.specs.Result.{is_err};
ghost use Rattle.vyrd_base.specs.Own.LogVerdicts.{own_text_verdict, own_text_verdict_so_far};
ghost use Rattle.vyrd_base.specs.Limits.{most_lines};
ghost use Rattle.vyrd_own_check.specs.Checking.{HasChecked, limit_of, IsSound};
ghost use Rattle.vyrd_own_check.specs.Costs.{bytes_cost, finish_cost};
ghost use Rattle.vyrd_own_check.specs.KeptView.{kept_in};
ghost use Rattle.vyrd_own_check.specs.Owed.{checker_debt};

use crate::text_judge::OwnTextJudge;
use std::alloc::{AllocError, Global};
use std::marker::Brand;
use std::sync::ledger::{Blank, Ledger};
use vyrd_base::{Steps, Verdict};

/// The most bytes that are read before their entries are judged.
const LONGEST_PART: usize = 8_192;

/// Follows the bytes of a log of version 3, which may come in pieces of any size, and knows the
/// verdict as soon as there is one. A verdict names the lines of the text.
///
/// It keeps at most one unfinished line, the specification, the starting words, room for the
/// entries of at most 8,192 bytes, and what [`Judge`](vyrd_judge::Judge) keeps. The time grows with
/// the bytes. Once `feed` has found no memory, it and `finish` say so from then on.
///
/// Besides, it keeps on which lines the entries stand, since a verdict may name any of them: where
/// each run of them begins that no note interrupts. So its memory grows with the notes between
/// entries.
pub struct OwnChecker {
    text: OwnTextJudge,
    so_far: Option<Verdict>,
    has_failed: bool,
    ghost sound: { IsSound
        (record { kept = kept_in text; so_far = so_far; has_failed = has_failed }) },
}

impl Drop for OwnChecker {
    /// By hand, so that dropping a checker is one call to prove, and not the drop of each of its
    /// parts.
    fn drop(self) {
        let OwnChecker {
            text,
            so_far: _,
            has_failed: _,
        } = self;
        drop(text);
    }
}

impl OwnChecker {
    ghost use Rattle.vyrd_own_check.specs.CheckerView.{checker_in};

    /// A checker that has followed no byte. A log with more than `max_lines` lines is malformed;
    /// `max_lines` is from 1 to 268,435,456. It takes no memory.
    pub fn new(alloc: Global, max_lines: u64) -> OwnChecker
        requires low { 1 ≤ max_lines }
        requires high { max_lines ≤ most_lines }
        ensures checked { HasChecked (checker_in result) [] }
        ensures limit { limit_of (checker_in result).kept ≡ max_lines }
        ensures so_far { (checker_in result).so_far ≡ None }
        ensures has_failed { (checker_in result).has_failed ≡ false }
        ensures owed { checker_debt (checker_in result) [] ≡ 0 }
        ensures unread { bytes_cost max_lines [] ≡ 0 }
    {
        OwnChecker {
            text: OwnTextJudge::new(alloc, max_lines),
            so_far: None,
            has_failed: false,
        }
    }

    /// Follows the next piece. The answer is the verdict so far of all bytes: `None` if nothing
    /// stands yet. Once there is a verdict it is answered again, and nothing more is read.
    pub fn feed(&mut self, piece: &[u8]) -> Result<Option<Verdict>, AllocError>
        ensures answer { (bytes : List ℕ) → HasChecked (checker_in self.old) bytes
            → IfOk result (λ v. v ≡ own_text_verdict_so_far
            (limit_of (checker_in self.old).kept) (bytes ++ piece.now)) }
        ensures checked { (bytes : List ℕ) → HasChecked (checker_in self.old) bytes
            → OnOk result (HasChecked (checker_in self.new) (bytes ++ piece.now)) }
        ensures so_far { IfOk result (λ v. (checker_in self.new).so_far ≡ v) }
        ensures has_failed { (checker_in self.new).has_failed ≡ is_err result }
        ensures fails_again { (checker_in self.old).has_failed ≡ true → is_err result ≡ true }
        ensures limit { limit_of (checker_in self.new).kept ≡ limit_of (checker_in self.old).kept }
    {
        self.feed_alone::<Brand>(Blank::new(1), piece)
    }

    /// The same, with the judge's steps counted, as [`Judge`](vyrd_judge::Judge) counts them.
    /// Reading isn't counted, nor is telling a verdict by the lines of the text: it looks at each
    /// run of lines once, when the verdict is found. What a piece leaves to be done later is owed
    /// from then on, so that over a whole log the steps are at most what its bytes cost, however
    /// they are cut.
    pub fn feed_counted<L: Ledger>(
        &mut self,
        piece: &[u8],
        steps: &mut Steps<L>,
    ) -> Result<Option<Verdict>, AllocError>
        ensures answer { (bytes : List ℕ) → HasChecked (checker_in self.old) bytes
            → IfOk result (λ v. v ≡ own_text_verdict_so_far
            (limit_of (checker_in self.old).kept) (bytes ++ piece.now)) }
        ensures checked { (bytes : List ℕ) → HasChecked (checker_in self.old) bytes
            → OnOk result (HasChecked (checker_in self.new) (bytes ++ piece.now)) }
        ensures so_far { IfOk result (λ v. (checker_in self.new).so_far ≡ v) }
        ensures has_failed { (checker_in self.new).has_failed ≡ is_err result }
        ensures fails_again { (checker_in self.old).has_failed ≡ true → is_err result ≡ true }
        ensures limit { limit_of (checker_in self.new).kept ≡ limit_of (checker_in self.old).kept }
        ensures steps { (bytes : List ℕ) → HasChecked (checker_in self.old) bytes
            → OnOk result (steps.new + checker_debt (checker_in self.new) (bytes ++ piece.now)
            + bytes_cost (limit_of (checker_in self.old).kept) bytes
            ≤ steps.old + checker_debt (checker_in self.old) bytes
            + bytes_cost (limit_of (checker_in self.old).kept) (bytes ++ piece.now)) }
    {
        if self.has_failed {
            return Err(AllocError);
        }
        let mut rest = piece;
        while !rest.is_empty() {
            if let Some(verdict) = self.so_far {
                return Ok(Some(verdict));
            }
            let (part, after) = rest.split_at(rest.len().min(LONGEST_PART));
            self.feed_part(part, steps)?;
            rest = after;
        }
        Ok(self.so_far)
    }

    /// The verdict about all bytes, if the input ends here.
    pub fn finish(&self) -> Result<Verdict, AllocError>
        ensures verdict { (bytes : List ℕ) → HasChecked (checker_in self.now) bytes →
            IfOk result (λ v. v ≡ own_text_verdict (limit_of (checker_in self.now).kept) bytes) }
        ensures has_failed { (checker_in self.now).has_failed ≡ true → is_err result ≡ true }
    {
        self.finish_alone::<Brand>(Blank::new(1))
    }

    /// The same, with the judge's steps counted: one for each caller at most.
    pub fn finish_counted<L: Ledger>(&self, steps: &mut Steps<L>) -> Result<Verdict, AllocError>
        ensures verdict { (bytes : List ℕ) → HasChecked (checker_in self.now) bytes →
            IfOk result (λ v. v ≡ own_text_verdict (limit_of (checker_in self.now).kept) bytes) }
        ensures has_failed { (checker_in self.now).has_failed ≡ true → is_err result ≡ true }
        ensures steps { (bytes : List ℕ) → HasChecked (checker_in self.now) bytes
            → steps.new ≤ steps.old + finish_cost (limit_of (checker_in self.now).kept) bytes }
    {
        if self.has_failed {
            return Err(AllocError);
        }
        match self.so_far {
            Some(verdict) => Ok(verdict),
            None => self.text.end(steps),
        }
    }

    /// Follows a part of a piece, while no verdict stands.
    fn feed_part<L: Ledger>(&mut self, part: &[u8], steps: &mut Steps<L>) -> Result<(), AllocError>
        requires works { (checker_in self.old).has_failed ≡ false }
        requires undecided { (checker_in self.old).so_far ≡ None }
        ensures checked { (bytes : List ℕ) → HasChecked (checker_in self.old) bytes
            → OnOk result (HasChecked (checker_in self.new) (bytes ++ part.now)) }
        ensures has_failed { (checker_in self.new).has_failed ≡ is_err result }
        ensures limit { limit_of (checker_in self.new).kept ≡ limit_of (checker_in self.old).kept }
        ensures steps { (bytes : List ℕ) → HasChecked (checker_in self.old) bytes
            → OnOk result (steps.new + checker_debt (checker_in self.new) (bytes ++ part.now)
            + bytes_cost (limit_of (checker_in self.old).kept) bytes
            ≤ steps.old + checker_debt (checker_in self.old) bytes
            + bytes_cost (limit_of (checker_in self.old).kept) (bytes ++ part.now)) }
    {
        match self.text.take_in(part, steps) {
            Ok(verdict) => {
                self.so_far = verdict;
                Ok(())
            }
            Err(error) => {
                self.has_failed = true;
                Err(error)
            }
        }
    }

    /// Follows a piece with a count of its own.
    fn feed_alone<L: Ledger>(
        &mut self,
        blank: Blank,
        piece: &[u8],
    ) -> Result<Option<Verdict>, AllocError>
        requires name { blank.name ≡ L.name }
        requires parts { blank.parts ≡ L.parts }
        requires some { 0 < blank.parts }
        ensures answer { (bytes : List ℕ) → HasChecked (checker_in self.old) bytes
            → IfOk result (λ v. v ≡ own_text_verdict_so_far
            (limit_of (checker_in self.old).kept) (bytes ++ piece.now)) }
        ensures checked { (bytes : List ℕ) → HasChecked (checker_in self.old) bytes
            → OnOk result (HasChecked (checker_in self.new) (bytes ++ piece.now)) }
        ensures so_far { IfOk result (λ v. (checker_in self.new).so_far ≡ v) }
        ensures has_failed { (checker_in self.new).has_failed ≡ is_err result }
        ensures fails_again { (checker_in self.old).has_failed ≡ true → is_err result ≡ true }
        ensures limit { limit_of (checker_in self.new).kept ≡ limit_of (checker_in self.old).kept }
    {
        let mut steps = Steps::<L>::new(blank);
        self.feed_counted(piece, &mut steps)
    }

    /// Ends with a count of its own.
    fn finish_alone<L: Ledger>(&self, blank: Blank) -> Result<Verdict, AllocError>
        requires name { blank.name ≡ L.name }
        requires parts { blank.parts ≡ L.parts }
        requires some { 0 < blank.parts }
        ensures verdict { (bytes : List ℕ) → HasChecked (checker_in self.now) bytes →
            IfOk result (λ v. v ≡ own_text_verdict (limit_of (checker_in self.now).kept) bytes) }
        ensures has_failed { (checker_in self.now).has_failed ≡ true → is_err result ≡ true }
    {
        let mut steps = Steps::<L>::new(blank);
        self.finish_counted(&mut steps)
    }
}

/// The verdict about these bytes as a whole input of at most `max_lines` lines, from 1 to
/// 268,435,456.
///
/// The bytes are read where they lie. Time and memory are those of an [`OwnChecker`]. The only error
/// is out of memory, and then nothing is known of the log.
pub fn own_verdict_of(alloc: Global, max_lines: u64, bytes: &[u8]) -> Result<Verdict, AllocError>
    requires low { 1 ≤ max_lines }
    requires high { max_lines ≤ most_lines }
    ensures { IfOk result (λ v. v ≡ own_text_verdict max_lines bytes.now) }
{
    let mut checker = OwnChecker::new(alloc, max_lines);
    checker.feed(bytes)?;
    checker.finish()
}
