//! A reader of the text of a log of version 3, and the judge of what it reads.

ghost use Rattle.std.specs.Prelude.{◌≡◌, ◌++◌, ◌+◌, ◌^◌, ◌≤◌, ◌||◌, ℕ, true, List, [], length};
ghost use Rattle.std.specs.Prelude.{Option, Some, None, IfOk, OnOk, option_map};
ghost use Rattle.std.specs.Bool.{then_some};
ghost use Rattle.vyrd_base.specs.Rules.{rules_by};
ghost use Rattle.vyrd_base.specs.declared.header.Header.{Header};
ghost use Rattle.vyrd_base.specs.declared.subject.Subject.TheVariants.{Own};
ghost use Rattle.vyrd_base.specs.declared.log.Entry.{Entry};
ghost use Rattle.vyrd_base.specs.declared.log.StartWord.{StartWord};
ghost use Rattle.vyrd_base.specs.declared.verdict.Rule.TheVariants.{StartState};
ghost use Rattle.vyrd_base.specs.declared.verdict.Verdict.TheVariants.{Malformed};
ghost use Rattle.vyrd_base.specs.Starts.{do_follow};
ghost use Rattle.vyrd_base.specs.Reading.{has_any};
ghost use Rattle.vyrd_base.specs.Verdicts.{verdict_so_far, end_verdict};
ghost use Rattle.vyrd_base.specs.Own.Log.{OwnReading};
ghost use Rattle.vyrd_base.specs.Own.LogVerdicts.{own_text_verdict_so_far, own_text_verdict};
ghost use Rattle.vyrd_base.specs.Limits.{IsLimit};
ghost use Rattle.vyrd_own_log.specs.States.{header_at, has_ended};
ghost use Rattle.vyrd_own_log.specs.Readers.{HasRead, IsGrownBy};
ghost use Rattle.vyrd_own_log.specs.ReaderView.{state_in};
ghost use Rattle.vyrd_judge.specs.Costs.{callers_of};
ghost use Rattle.vyrd_judge.specs.Following.{HasFollowed};
ghost use Rattle.vyrd_own_check.specs.LogReadings.{read_so_far};
ghost use Rattle.vyrd_own_check.specs.KeptView.{kept_in};
ghost use Rattle.vyrd_own_check.specs.Costs.{bytes_cost, finish_cost};
ghost use Rattle.vyrd_own_check.specs.Owed.{kept_debt, judge_owes, following_cost};
ghost use Rattle.vyrd_own_check.specs.Checking.{IsReady, IsJudging, IsBegun, HasRoom};
ghost use Rattle.vyrd_own_check.specs.Checking.{IsUndecided, IsSomewhere, limit_of, untold_in};

use crate::lines::told;
use crate::numbers::LineNumbers;
use crate::starting::start_judge;
use std::alloc::{AllocError, Global};
use std::sync::ledger::Ledger;
use vyrd_base::{Entry, Rule, Steps, Verdict};
use vyrd_judge::Judge;
use vyrd_own_log::OwnLogReader;
use vyrd_own_spec::OwnSpec;
use vyrd_text::TextFault;

/// The line of the first starting word, if it stood right behind the header.
const FIRST_START_LINE: u64 = 2;

/// Reads the text of a log piece by piece, and judges the entries of each piece. They are forgotten
/// at the next. The judge is made at the first entry or at `end`, for until then more starting
/// words may come. The numbers of the lines of all starting words, of all entries and of `end` are
/// kept, since a verdict may name any of them.
#[derive(Drop)]
pub(crate) struct OwnTextJudge {
    alloc: Global,
    pub(crate) reader: OwnLogReader,
    pub(crate) judge: Option<Judge<OwnSpec>>,
    pub(crate) numbers: LineNumbers,
    entries: Vec<Entry>,
    brought: Vec<u64>,
}

impl OwnTextJudge {
    /// Nothing was read yet. It takes no memory.
    pub(crate) fn new(alloc: Global, max_lines: u64) -> OwnTextJudge
        requires limit { IsLimit max_lines }
        ensures undecided { IsUndecided (kept_in result) [] }
        ensures limit { limit_of (kept_in result) ≡ max_lines }
        ensures judge { (kept_in result).judge ≡ None }
    {
        OwnTextJudge {
            alloc,
            reader: OwnLogReader::new(alloc, max_lines),
            judge: None,
            numbers: LineNumbers::new(alloc),
            entries: Vec::new(alloc),
            brought: Vec::new(alloc),
        }
    }

    /// Takes in the next piece. The answer is the verdict so far of all bytes. After `end` only the
    /// text can be wrong, so that the judge isn't asked again.
    pub(crate) fn take_in<L: Ledger>(
        &mut self,
        piece: &[u8],
        steps: &mut Steps<L>,
    ) -> Result<Option<Verdict>, AllocError>
        requires limit { IsLimit (limit_of (kept_in self.old)) }
        requires somewhere { IsSomewhere (kept_in self.old) }
        ensures limit { limit_of (kept_in self.new)
            ≡ limit_of (kept_in self.old) }
        ensures answer { (bytes : List ℕ) → IsUndecided (kept_in self.old) bytes
            → IfOk result (λ v. v
            ≡ own_text_verdict_so_far (limit_of (kept_in self.old)) (bytes ++ piece.now)) }
        ensures undecided { (bytes : List ℕ) → IsUndecided (kept_in self.old) bytes →
            IfOk result (λ v. v ≡ None → IsUndecided (kept_in self.new) (bytes ++ piece.now)) }
        ensures steps { (bytes : List ℕ) → IsUndecided (kept_in self.old) bytes
            → OnOk result (steps.new + kept_debt (kept_in self.new) (bytes ++ piece.now)
            + bytes_cost (limit_of (kept_in self.old)) bytes
            ≤ steps.old + kept_debt (kept_in self.old) bytes
            + bytes_cost (limit_of (kept_in self.old)) (bytes ++ piece.now)) }
    {
        self.entries.clear();
        self.brought.clear();
        let was_ended = self.reader.ended();
        let fault = read(
            &mut self.reader,
            piece,
            &mut self.entries,
            &mut self.brought,
        )?;
        self.numbers.extend(&self.brought)?;
        if was_ended {
            return Ok(fault);
        }
        begin(self.alloc, &self.reader, &self.entries, &mut self.judge)?;
        let ended = self.reader.ended();
        let wrong = judge_entries(&mut self.judge, &self.entries, ended, steps)?;
        Ok(told(&self.numbers, wrong).or(fault))
    }

    /// The verdict, if the input ends here.
    pub(crate) fn end<L: Ledger>(&self, steps: &mut Steps<L>) -> Result<Verdict, AllocError>
        requires limit { IsLimit (limit_of (kept_in self.now)) }
        requires somewhere { IsSomewhere (kept_in self.now) }
        ensures verdict { (bytes : List ℕ) → IsUndecided (kept_in self.now) bytes → IfOk result
            (λ v. v ≡ own_text_verdict (limit_of (kept_in self.now)) bytes) }
        ensures steps { (bytes : List ℕ) → IsUndecided (kept_in self.now) bytes
            → steps.new ≤ steps.old + finish_cost (limit_of (kept_in self.now)) bytes }
    {
        match self.reader.finish() {
            Ok(()) => {}
            Err(TextFault::Malformed { line, rule }) => return Ok(Verdict::Malformed {
                line,
                rule,
            }),
            Err(TextFault::Memory) => return Err(AllocError),
        }
        match &self.judge {
            Some(judge) => judge.finish_counted(steps),
            None => unreachable!(),
        }
    }
}

/// Reads the next piece, and appends its entries and the numbers of lines. The answer is the fault
/// of text, if there is one by now.
fn read(
    reader: &mut OwnLogReader,
    piece: &[u8],
    entries: &mut Vec<Entry>,
    numbers: &mut Vec<u64>,
) -> Result<Option<Verdict>, AllocError>
    ensures limit { (state_in reader.new).kept.lines.max_lines
        ≡ (state_in reader.old).kept.lines.max_lines }
    ensures read { (bytes : List ℕ) → HasRead (state_in reader.old) bytes
        → OnOk result (HasRead (state_in reader.new) (bytes ++ piece.now)) }
    ensures entries { (bytes : List ℕ) → HasRead (state_in reader.old) bytes
        → OnOk result (IsGrownBy entries.old.items
        (read_so_far (state_in reader.old).kept.lines.max_lines bytes).entries entries.new.items
        (read_so_far (state_in reader.old).kept.lines.max_lines (bytes ++ piece.now)).entries) }
    ensures numbers { (bytes : List ℕ) → HasRead (state_in reader.old) bytes
        → OnOk result (IsGrownBy numbers.old.items
        (read_so_far (state_in reader.old).kept.lines.max_lines bytes).numbers numbers.new.items
        (read_so_far (state_in reader.old).kept.lines.max_lines (bytes ++ piece.now)).numbers) }
    ensures fault { (bytes : List ℕ) → HasRead (state_in reader.old) bytes
        → IfOk result (λ v. v ≡ option_map (λ fault. Malformed fault.line fault.rule)
        (read_so_far (state_in reader.old).kept.lines.max_lines (bytes ++ piece.now)).fault) }
{
    match reader.feed(piece, entries, numbers) {
        Ok(()) => Ok(None),
        Err(TextFault::Malformed { line, rule }) => Ok(Some(Verdict::Malformed { line, rule })),
        Err(TextFault::Memory) => Err(AllocError),
    }
}

/// Whether an entry of the last piece or `end` was read: then no starting word comes any more.
fn has_begun(entries: &[Entry], ended: bool) -> bool
    ensures { result ≡ (has_any entries.now || ended) }
{
    ended || !entries.is_empty()
}

/// Makes the judge, if there is none, once an entry or `end` was read. There is still none if the
/// starting words stand for no state.
fn begin(
    alloc: Global,
    reader: &OwnLogReader,
    entries: &[Entry],
    judge: &mut Option<Judge<OwnSpec>>,
) -> Result<(), AllocError>
    requires own { (h : Header) → header_at (state_in reader.now).kept.lines.stage ≡ Some h →
        h.subject ≡ Own }
    requires follows { (h : Header) → header_at (state_in reader.now).kept.lines.stage ≡ Some h →
        do_follow h None (state_in reader.now).kept.start ≡ true }
    ensures { OnOk result (IsBegun
        (has_any entries.now || has_ended (state_in reader.now).kept.lines.stage)
        (header_at (state_in reader.now).kept.lines.stage) (state_in reader.now).kept.specified
        (state_in reader.now).kept.start judge.old judge.new) }
{
    if judge.is_some() || !has_begun(entries, reader.ended()) {
        return Ok(());
    }
    let Some(header) = reader.header() else {
        return Ok(());
    };
    *judge = start_judge(alloc, header, reader.lines(), reader.start())?;
    Ok(())
}

/// Judges further entries, and whether a call is open if `end` was read. The answer is what is
/// wrong with all of them, by the lines that they would have right behind the header.
fn judge_entries<L: Ledger>(
    judge: &mut Option<Judge<OwnSpec>>,
    entries: &[Entry],
    ended: bool,
    steps: &mut Steps<L>,
) -> Result<Option<Verdict>, AllocError>
    requires { HasRoom judge.old entries.now }
    ensures answer { (read : OwnReading) (log : List Entry) →
        IsReady judge.old read log entries.now ended → IfOk result (λ v. v ≡ untold_in read) }
    ensures judging { (read : OwnReading) (log : List Entry) →
        IsReady judge.old read log entries.now ended →
        IfOk result (λ v. v ≡ None → IsJudging judge.new read) }
    ensures steps { (read : OwnReading) (log : List Entry) →
        IsReady judge.old read log entries.now ended →
        OnOk result (steps.new + judge_owes judge.new read.entries
        ≤ steps.old + judge_owes judge.old log
        + following_cost judge.old entries.now ended) }
{
    match judge {
        Some(judge) => follow(judge, entries, ended, steps),
        None => Ok(wrong_start(entries, ended)),
    }
}

/// What is wrong if there is no judge: the starting words, once an entry or `end` was read.
fn wrong_start(entries: &[Entry], ended: bool) -> Option<Verdict>
    ensures { result ≡ then_some (has_any entries.now || ended) (Malformed 2 StartState) }
{
    if has_begun(entries, ended) {
        Some(Verdict::Malformed {
            line: FIRST_START_LINE,
            rule: Rule::StartState,
        })
    } else {
        None
    }
}

/// Follows further entries, and then the line `end` if it was read. The answer is what is wrong
/// with all of them.
fn follow<L: Ledger>(
    judge: &mut Judge<OwnSpec>,
    entries: &[Entry],
    ended: bool,
    steps: &mut Steps<L>,
) -> Result<Option<Verdict>, AllocError>
    requires few { judge.old.kept.entries + length entries.now ≤ 2 ^ 62 }
    ensures answer { (read : OwnReading) (log : List Entry) →
        IsReady (Some judge.old) read log entries.now ended
        → IfOk result (λ v. v ≡ untold_in read) }
    ensures judging { (read : OwnReading) (log : List Entry) →
        IsReady (Some judge.old) read log entries.now ended →
        IfOk result (λ v. v ≡ None → IsJudging (Some judge.new) read) }
    ensures steps { (read : OwnReading) (log : List Entry) →
        IsReady (Some judge.old) read log entries.now ended →
        OnOk result (steps.new + judge_owes (Some judge.new) read.entries
        ≤ steps.old + judge_owes (Some judge.old) log
        + following_cost (Some judge.old) entries.now ended) }
{
    if let Some(verdict) = judge.follow_counted(entries, steps)? {
        return Ok(Some(verdict));
    }
    if ended {
        open_call(judge, steps)
    } else {
        Ok(None)
    }
}

/// What is wrong if `end` stands after the entries, given that nothing is wrong with them.
fn open_call<L: Ledger>(
    judge: &Judge<OwnSpec>,
    steps: &mut Steps<L>,
) -> Result<Option<Verdict>, AllocError>
    ensures verdict { (starting : List StartWord) (log : List Entry) →
        HasFollowed judge.now starting log →
        verdict_so_far (rules_by judge.now.kept.charter) starting log ≡ None →
        IfOk result (λ v. v ≡ end_verdict (rules_by judge.now.kept.charter) starting log) }
    ensures steps { steps.new ≤ steps.old + callers_of judge.now.kept }
{
    match judge.finish_counted(steps)? {
        Verdict::Accepted { .. } => Ok(None),
        Verdict::Violation { line, why } => Ok(Some(Verdict::Violation { line, why })),
        Verdict::Malformed { line, rule } => Ok(Some(Verdict::Malformed { line, rule })),
    }
}
