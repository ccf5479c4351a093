//! The checker of the bytes of a log of any version.

ghost use Rattle.std.specs.Prelude.{◌≡◌, ◌++◌, ◌≤◌, ◌<◌, ◌+◌, ℕ, List, [], Some, None, true, false};
ghost use Rattle.std.specs.Prelude.{IfOk, OnOk};
ghost use Rattle.std.specs.Result.{is_err};
ghost use Rattle.vyrd_base.specs.LogVerdicts.{own_beginning, log_verdict, log_verdict_so_far};
ghost use Rattle.vyrd_base.specs.Own.LogVerdicts.{own_text_verdict_so_far};
ghost use Rattle.vyrd_base.specs.Limits.{most_lines};
ghost use Rattle.vyrd_own_check.specs.Checking.{limit_of};
ghost use Rattle.vyrd_own_check.specs.Checking as own_checking;
ghost use Rattle.vyrd_own_check.specs.CheckerView.{checker_in};
ghost use Rattle.vyrd_own_check.specs.Costs as own_costs;
ghost use Rattle.vyrd_own_check.specs.Owed as own_owed;
ghost use Rattle.vyrd_log_check.specs.Checking.{HasChecked};
ghost use Rattle.vyrd_log_check.specs.Costs.{bytes_cost, finish_cost, log_cost};
ghost use Rattle.vyrd_log_check.specs.Owed.{checker_debt};

use crate::beginning::{OWN_BEGINNING, match_on};
use std::alloc::{AllocError, Global};
use std::marker::{Brand, Model};
use std::sync::ledger::{Blank, Ledger};
use vyrd_base::{Steps, Verdict};
use vyrd_check::Checker;
use vyrd_own_check::OwnChecker;

/// Follows the bytes of a log of any version, which may come in pieces of any size, and knows the
/// verdict as soon as there is one.
///
/// It keeps what a [`Checker`] keeps, or what an [`OwnChecker`] keeps if the log begins with
/// `vyrd 3 own `, as one with a specification in front does. The time grows with the bytes. Once
/// `feed` has found no memory, it and `finish` say so from then on.
pub struct LogChecker {
    alloc: Global,
    max_lines: u64,
    /// How many bytes of [`OWN_BEGINNING`] have come, as long as they are all that has come.
    matched: Option<usize>,
    /// It is fed as long as the log doesn't begin so.
    first: Checker,
    /// It is made once the log has begun so, and from then on it alone is fed.
    own: Option<OwnChecker>,
    has_failed: bool,
}

impl Model for LogChecker {
    ghost use Rattle.vyrd_log_check.specs.Checking.{LogCheckerState};

    ghost Value = { LogCheckerState };

    ghost use Rattle.std.specs.Coded.{codes};
    ghost use Rattle.vyrd_own_check.specs.contracts.checker.OwnChecker as own_checker;

    ghost coded = { Prim.hlevel (codes, own_checker.the_row.coded) };

    ghost use Rattle.vyrd_log_check.specs.CheckerView.{log_checker_in};
    ghost use Rattle.vyrd_log_check.specs.Checking.{IsSound};

    ghost view = { log_checker_in };

    ghost invariant = { λ c. IsSound (log_checker_in c) };
}

impl Drop for LogChecker {
    /// By hand, so that dropping a checker is one call to prove, and not the drop of each of its
    /// parts.
    fn drop(self) {
        let LogChecker {
            alloc: _,
            max_lines: _,
            matched: _,
            first,
            own,
            has_failed: _,
        } = self;
        drop(first);
        drop(own);
    }
}

impl LogChecker {
    /// A checker that has followed no byte. A log with more than `max_lines` lines is malformed;
    /// `max_lines` is from 1 to 268,435,456. It takes no memory.
    pub fn new(alloc: Global, max_lines: u64) -> LogChecker
        requires low { 1 ≤ max_lines }
        requires high { max_lines ≤ most_lines }
        ensures checked { HasChecked result [] }
        ensures limit { result.max_lines ≡ max_lines }
        ensures so_far { result.so_far ≡ None }
        ensures has_failed { result.has_failed ≡ false }
        ensures owed { checker_debt result [] ≡ 0 }
        ensures unread { bytes_cost max_lines [] ≡ 0 }
    {
        LogChecker {
            alloc,
            max_lines,
            matched: Some(0),
            first: Checker::new(alloc, max_lines),
            own: None,
            has_failed: false,
        }
    }

    /// Follows the next piece. The answer is the verdict so far of all bytes: `None` if nothing
    /// stands yet. Once there is a verdict it is answered again, and nothing more is read.
    pub fn feed(&mut self, piece: &[u8]) -> Result<Option<Verdict>, AllocError>
        ensures answer { (bytes : List ℕ) → HasChecked self.old bytes
            → IfOk result (λ v. v ≡ log_verdict_so_far self.old.max_lines (bytes ++ piece.now)) }
        ensures checked { (bytes : List ℕ) → HasChecked self.old bytes
            → OnOk result (HasChecked self.new (bytes ++ piece.now)) }
        ensures so_far { IfOk result (λ v. self.new.so_far ≡ v) }
        ensures has_failed { self.new.has_failed ≡ is_err result }
        ensures fails_again { self.old.has_failed ≡ true → is_err result ≡ true }
        ensures limit { self.new.max_lines ≡ self.old.max_lines }
    {
        feed_alone::<Brand>(Blank::new(1), self, piece)
    }

    /// The same, with the judge's steps counted, as [`Checker`] and [`OwnChecker`] count them. What
    /// a piece leaves to be done later is owed from then on, so that over a whole log the steps are
    /// at most what its bytes cost, however they are cut.
    pub fn feed_counted<L: Ledger>(
        &mut self,
        piece: &[u8],
        steps: &mut Steps<L>,
    ) -> Result<Option<Verdict>, AllocError>
        ensures answer { (bytes : List ℕ) → HasChecked self.old bytes
            → IfOk result (λ v. v ≡ log_verdict_so_far self.old.max_lines (bytes ++ piece.now)) }
        ensures checked { (bytes : List ℕ) → HasChecked self.old bytes
            → OnOk result (HasChecked self.new (bytes ++ piece.now)) }
        ensures so_far { IfOk result (λ v. self.new.so_far ≡ v) }
        ensures has_failed { self.new.has_failed ≡ is_err result }
        ensures fails_again { self.old.has_failed ≡ true → is_err result ≡ true }
        ensures limit { self.new.max_lines ≡ self.old.max_lines }
        ensures steps { (bytes : List ℕ) → HasChecked self.old bytes
            → OnOk result (steps.new + checker_debt self.new (bytes ++ piece.now)
            + bytes_cost self.old.max_lines bytes
            ≤ steps.old + checker_debt self.old bytes
            + bytes_cost self.old.max_lines (bytes ++ piece.now)) }
    {
        if self.has_failed {
            return Err(AllocError);
        }
        match self.follow(piece, steps) {
            Ok(verdict) => Ok(verdict),
            Err(error) => {
                self.has_failed = true;
                Err(error)
            }
        }
    }

    /// The verdict about all bytes, if the input ends here.
    pub fn finish(&self) -> Result<Verdict, AllocError>
        ensures verdict { (bytes : List ℕ) → HasChecked self.now bytes
            → IfOk result (λ v. v ≡ log_verdict self.now.max_lines bytes) }
        ensures has_failed { self.now.has_failed ≡ true → is_err result ≡ true }
    {
        finish_alone::<Brand>(Blank::new(1), self)
    }

    /// The same, with the judge's steps counted: one for each caller at most.
    pub fn finish_counted<L: Ledger>(&self, steps: &mut Steps<L>) -> Result<Verdict, AllocError>
        ensures verdict { (bytes : List ℕ) → HasChecked self.now bytes
            → IfOk result (λ v. v ≡ log_verdict self.now.max_lines bytes) }
        ensures has_failed { self.now.has_failed ≡ true → is_err result ≡ true }
        ensures steps { (bytes : List ℕ) → HasChecked self.now bytes
            → steps.new ≤ steps.old + finish_cost self.now.max_lines bytes }
    {
        if self.has_failed {
            return Err(AllocError);
        }
        match &self.own {
            Some(own) => own.finish_counted(steps),
            None => self.first.finish_counted(steps),
        }
    }

    /// Follows the next piece by the checker of the log's kind.
    fn follow<L: Ledger>(
        &mut self,
        piece: &[u8],
        steps: &mut Steps<L>,
    ) -> Result<Option<Verdict>, AllocError>
        ensures answer { (bytes : List ℕ) → HasChecked self.old bytes
            → IfOk result (λ v. v ≡ log_verdict_so_far self.old.max_lines (bytes ++ piece.now)) }
        ensures checked { (bytes : List ℕ) → HasChecked self.old bytes
            → OnOk result (HasChecked self.new (bytes ++ piece.now)) }
        ensures so_far { IfOk result (λ v. self.new.so_far ≡ v) }
        ensures has_failed { self.new.has_failed ≡ self.old.has_failed }
        ensures limit { self.new.max_lines ≡ self.old.max_lines }
        ensures steps { (bytes : List ℕ) → HasChecked self.old bytes
            → OnOk result (steps.new + checker_debt self.new (bytes ++ piece.now)
            + bytes_cost self.old.max_lines bytes
            ≤ steps.old + checker_debt self.old bytes
            + bytes_cost self.old.max_lines (bytes ++ piece.now)) }
    {
        if let Some(own) = &mut self.own {
            return own.feed_counted(piece, steps);
        }
        match self.matched {
            Some(matched) => self.match_on(matched, piece, steps),
            None => self.first.feed_counted(piece, steps),
        }
    }

    /// Follows the next piece where the bytes so far are the first `matched` of the beginning.
    fn match_on<L: Ledger>(
        &mut self,
        matched: usize,
        piece: &[u8],
        steps: &mut Steps<L>,
    ) -> Result<Option<Verdict>, AllocError>
        requires no_own { self.old.own ≡ None }
        requires matched { self.old.matched ≡ Some matched }
        requires few { matched < 11 }
        ensures answer { (bytes : List ℕ) → HasChecked self.old bytes
            → IfOk result (λ v. v ≡ log_verdict_so_far self.old.max_lines (bytes ++ piece.now)) }
        ensures checked { (bytes : List ℕ) → HasChecked self.old bytes
            → OnOk result (HasChecked self.new (bytes ++ piece.now)) }
        ensures so_far { IfOk result (λ v. self.new.so_far ≡ v) }
        ensures has_failed { self.new.has_failed ≡ self.old.has_failed }
        ensures limit { self.new.max_lines ≡ self.old.max_lines }
        ensures steps { (bytes : List ℕ) → HasChecked self.old bytes
            → OnOk result (steps.new + checker_debt self.new (bytes ++ piece.now)
            + bytes_cost self.old.max_lines bytes
            ≤ steps.old + checker_debt self.old bytes
            + bytes_cost self.old.max_lines (bytes ++ piece.now)) }
    {
        let now = match_on(matched, piece);
        if now == Some(OWN_BEGINNING.len()) {
            let (_, rest) = piece.split_at(OWN_BEGINNING.len() - matched);
            let (own, verdict) = start_own(self.alloc, self.max_lines, rest, steps)?;
            self.own = Some(own);
            return Ok(verdict);
        }
        self.matched = now;
        self.first.feed_counted(piece, steps)
    }
}

/// A checker that has followed the beginning and the rest of a piece behind it, and the verdict so
/// far.
fn start_own<L: Ledger>(
    alloc: Global,
    max_lines: u64,
    rest: &[u8],
    steps: &mut Steps<L>,
) -> Result<(OwnChecker, Option<Verdict>), AllocError>
    requires low { 1 ≤ max_lines }
    requires high { max_lines ≤ most_lines }
    ensures checked { IfOk result
        (λ p. own_checking.HasChecked (checker_in p.0) (own_beginning ++ rest.now)) }
    ensures answer { IfOk result
        (λ p. p.1 ≡ own_text_verdict_so_far max_lines (own_beginning ++ rest.now)) }
    ensures so_far { IfOk result (λ p. (checker_in p.0).so_far ≡ p.1) }
    ensures limit { IfOk result (λ p. limit_of (checker_in p.0).kept ≡ max_lines) }
    ensures steps { IfOk result
        (λ p. steps.new + own_owed.checker_debt (checker_in p.0) (own_beginning ++ rest.now)
        ≤ steps.old + own_costs.bytes_cost max_lines (own_beginning ++ rest.now)) }
{
    let mut own = OwnChecker::new(alloc, max_lines);
    own.feed_counted(&OWN_BEGINNING, steps)?;
    let verdict = own.feed_counted(rest, steps)?;
    Ok((own, verdict))
}

/// The verdict about these bytes as a whole input of at most `max_lines` lines, from 1 to
/// 268,435,456.
///
/// The bytes are read where they lie. Time and memory are those of a [`LogChecker`]. The only error
/// is out of memory, and then nothing is known of the log.
pub fn log_verdict_of(alloc: Global, max_lines: u64, bytes: &[u8]) -> Result<Verdict, AllocError>
    requires low { 1 ≤ max_lines }
    requires high { max_lines ≤ most_lines }
    ensures { IfOk result (λ v. v ≡ log_verdict max_lines bytes.now) }
{
    log_verdict_alone::<Brand>(Blank::new(1), alloc, max_lines, bytes)
}

/// The same, with the judge's steps counted as a [`LogChecker`] counts them.
pub fn log_verdict_of_counted<L: Ledger>(
    alloc: Global,
    max_lines: u64,
    bytes: &[u8],
    steps: &mut Steps<L>,
) -> Result<Verdict, AllocError>
    requires low { 1 ≤ max_lines }
    requires high { max_lines ≤ most_lines }
    ensures verdict { IfOk result (λ v. v ≡ log_verdict max_lines bytes.now) }
    ensures steps { OnOk result (steps.new ≤ steps.old + log_cost max_lines bytes.now) }
{
    let mut checker = LogChecker::new(alloc, max_lines);
    checker.feed_counted(bytes, steps)?;
    checker.finish_counted(steps)
}

/// The verdict about a whole input, with a count of its own.
fn log_verdict_alone<L: Ledger>(
    blank: Blank,
    alloc: Global,
    max_lines: u64,
    bytes: &[u8],
) -> Result<Verdict, AllocError>
    requires name { blank.name ≡ L.name }
    requires parts { blank.parts ≡ L.parts }
    requires some { 0 < blank.parts }
    requires low { 1 ≤ max_lines }
    requires high { max_lines ≤ most_lines }
    ensures { IfOk result (λ v. v ≡ log_verdict max_lines bytes.now) }
{
    let mut steps = Steps::<L>::new(blank);
    log_verdict_of_counted(alloc, max_lines, bytes, &mut steps)
}

/// Follows a piece with a count of its own.
fn feed_alone<L: Ledger>(
    blank: Blank,
    checker: &mut LogChecker,
    piece: &[u8],
) -> Result<Option<Verdict>, AllocError>
    requires name { blank.name ≡ L.name }
    requires parts { blank.parts ≡ L.parts }
    requires some { 0 < blank.parts }
    ensures answer { (bytes : List ℕ) → HasChecked checker.old bytes
        → IfOk result (λ v. v ≡ log_verdict_so_far checker.old.max_lines (bytes ++ piece.now)) }
    ensures checked { (bytes : List ℕ) → HasChecked checker.old bytes
        → OnOk result (HasChecked checker.new (bytes ++ piece.now)) }
    ensures so_far { IfOk result (λ v. checker.new.so_far ≡ v) }
    ensures has_failed { checker.new.has_failed ≡ is_err result }
    ensures fails_again { checker.old.has_failed ≡ true → is_err result ≡ true }
    ensures limit { checker.new.max_lines ≡ checker.old.max_lines }
{
    let mut steps = Steps::<L>::new(blank);
    checker.feed_counted(piece, &mut steps)
}

/// Ends with a count of its own.
fn finish_alone<L: Ledger>(blank: Blank, checker: &LogChecker) -> Result<Verdict, AllocError>
    requires name { blank.name ≡ L.name }
    requires parts { blank.parts ≡ L.parts }
    requires some { 0 < blank.parts }
    ensures verdict { (bytes : List ℕ) → HasChecked checker.now bytes
        → IfOk result (λ v. v ≡ log_verdict checker.now.max_lines bytes) }
    ensures has_failed { checker.now.has_failed ≡ true → is_err result ≡ true }
{
    let mut steps = Steps::<L>::new(blank);
    checker.finish_counted(&mut steps)
}
