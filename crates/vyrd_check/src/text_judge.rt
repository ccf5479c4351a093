//! A reader of a log's text, and the judge of what it reads.

ghost use Rattle.std.specs.Prelude.{◌≡◌, ◌++◌, ◌+◌, ◌^◌, ◌≤◌, ◌||◌, ℕ, true, List, [], length};
ghost use Rattle.std.specs.Prelude.{Option, Some, None, IfOk, OnOk, option_map};
ghost use Rattle.std.specs.Bool.{then_some};
ghost use Rattle.vyrd_base.specs.Rules.{rules_by};
ghost use Rattle.vyrd_base.specs.declared.header.Header.{Header};
ghost use Rattle.vyrd_base.specs.declared.log.Entry.{Entry};
ghost use Rattle.vyrd_base.specs.declared.log.StartWord.{StartWord};
ghost use Rattle.vyrd_base.specs.declared.verdict.Rule.TheVariants.{StartState};
ghost use Rattle.vyrd_base.specs.declared.verdict.Verdict.TheVariants.{Malformed};
ghost use Rattle.vyrd_base.specs.Starts.{may_start};
ghost use Rattle.vyrd_base.specs.Subjects.{is_built_in};
ghost use Rattle.vyrd_base.specs.Reading.{Reading, has_any};
ghost use Rattle.vyrd_base.specs.Verdicts.{verdict_so_far, end_verdict};
ghost use Rattle.vyrd_base.specs.TextVerdicts.{text_verdict_so_far, text_verdict};
ghost use Rattle.vyrd_base.specs.Limits.{IsLimit};
ghost use Rattle.vyrd_text.specs.Readers.{HasRead};
ghost use Rattle.vyrd_text.specs.Answered.{IsGrownBy};
ghost use Rattle.vyrd_judge.specs.Costs.{callers_of};
ghost use Rattle.vyrd_judge.specs.Following.{HasFollowed};
ghost use Rattle.vyrd_check.specs.LogReadings.{read_so_far};
ghost use Rattle.vyrd_check.specs.Checking.{IsReady, IsJudging, IsBegun, HasRoom};
ghost use Rattle.vyrd_check.specs.Checking.{IsUndecided, IsSomewhere, wrong_in};
ghost use Rattle.vyrd_check.specs.Costs.{bytes_cost, finish_cost};
ghost use Rattle.vyrd_check.specs.Owed.{kept_debt, judge_owes, following_cost};

use std::alloc::{AllocError, Global};
use std::marker::Model;
use std::sync::ledger::Ledger;
use vyrd_base::{Entry, Rule, Steps, Verdict};
use vyrd_judge::AnyJudge;
use vyrd_text::{LogReader, TextFault};

/// The line of the first starting word: the header stands on the line before.
const FIRST_START_LINE: u64 = 2;

/// Reads the text of a log piece by piece, and judges the entries of each piece. They are forgotten
/// at the next. The judge is made at the first entry or at `end`, for until then more starting
/// words may come.
#[derive(Drop)]
pub(crate) struct TextJudge {
    alloc: Global,
    reader: LogReader,
    judge: Option<AnyJudge>,
    entries: Vec<Entry>,
}

impl Model for TextJudge {
    ghost use Rattle.vyrd_check.specs.Checking.{CheckerKept};

    ghost Value = { CheckerKept };

    ghost view = { λ t. record { reader = t.reader; judge = t.judge } };
}

impl TextJudge {
    /// Nothing was read yet. It takes no memory.
    pub(crate) fn new(alloc: Global, max_lines: u64) -> TextJudge
        requires limit { IsLimit max_lines }
        ensures undecided { IsUndecided result [] }
        ensures limit { result.reader.max_lines ≡ max_lines }
        ensures judge { result.judge ≡ None }
    {
        TextJudge {
            alloc,
            reader: LogReader::new(alloc, max_lines),
            judge: None,
            entries: Vec::new(alloc),
        }
    }

    /// Takes in the next piece. The answer is the verdict so far of all bytes. After `end` only the
    /// text can be wrong, so that the judge isn't asked again.
    pub(crate) fn take_in<L: Ledger>(
        &mut self,
        piece: &[u8],
        steps: &mut Steps<L>,
    ) -> Result<Option<Verdict>, AllocError>
        requires limit { IsLimit self.old.reader.max_lines }
        requires somewhere { IsSomewhere self.old }
        ensures limit { self.new.reader.max_lines ≡ self.old.reader.max_lines }
        ensures answer { (bytes : List ℕ) → IsUndecided self.old bytes
            → IfOk result
            (λ v. v ≡ text_verdict_so_far self.old.reader.max_lines (bytes ++ piece.now)) }
        ensures undecided { (bytes : List ℕ) → IsUndecided self.old bytes →
            IfOk result (λ v. v ≡ None → IsUndecided self.new (bytes ++ piece.now)) }
        ensures steps { (bytes : List ℕ) → IsUndecided self.old bytes
            → OnOk result (steps.new + kept_debt self.new (bytes ++ piece.now)
            + bytes_cost self.old.reader.max_lines bytes
            ≤ steps.old + kept_debt self.old bytes
            + bytes_cost self.old.reader.max_lines (bytes ++ piece.now)) }
    {
        self.entries.clear();
        let was_ended = self.reader.ended();
        let fault = read(&mut self.reader, piece, &mut self.entries)?;
        if was_ended {
            return Ok(fault);
        }
        begin(self.alloc, &self.reader, &self.entries, &mut self.judge)?;
        let ended = self.reader.ended();
        let wrong = judge_entries(&mut self.judge, &self.entries, ended, steps)?;
        Ok(wrong.or(fault))
    }

    /// The verdict, if the input ends here.
    pub(crate) fn end<L: Ledger>(&self, steps: &mut Steps<L>) -> Result<Verdict, AllocError>
        requires limit { IsLimit self.now.reader.max_lines }
        requires somewhere { IsSomewhere self.now }
        ensures verdict { (bytes : List ℕ) → IsUndecided self.now bytes
            → IfOk result (λ v. v ≡ text_verdict self.now.reader.max_lines bytes) }
        ensures steps { (bytes : List ℕ) → IsUndecided self.now bytes
            → steps.new ≤ steps.old + finish_cost self.now.reader.max_lines bytes }
    {
        match self.reader.finish() {
            Ok(()) => {}
            Err(TextFault::Malformed { line, rule }) => return Ok(Verdict::Malformed {
                line,
                rule,
            }),
            Err(TextFault::Memory) => return Err(AllocError),
        }
        match &self.judge {
            Some(judge) => judge.finish_counted(steps),
            None => unreachable!(),
        }
    }
}

/// Reads the next piece into the list. The answer is the fault of text, if there is one by now.
fn read(
    reader: &mut LogReader,
    piece: &[u8],
    entries: &mut Vec<Entry>,
) -> Result<Option<Verdict>, AllocError>
    ensures limit { reader.new.max_lines ≡ reader.old.max_lines }
    ensures read { (bytes : List ℕ) → HasRead reader.old bytes
        → OnOk result (HasRead reader.new (bytes ++ piece.now)) }
    ensures entries { (bytes : List ℕ) → HasRead reader.old bytes
        → OnOk result (IsGrownBy entries.old.items (read_so_far reader.old.max_lines bytes).entries
        entries.new.items (read_so_far reader.old.max_lines (bytes ++ piece.now)).entries) }
    ensures fault { (bytes : List ℕ) → HasRead reader.old bytes
        → IfOk result (λ v. v ≡ option_map (λ fault. Malformed fault.line fault.rule)
        (read_so_far reader.old.max_lines (bytes ++ piece.now)).fault) }
{
    match reader.feed(piece, entries) {
        Ok(()) => Ok(None),
        Err(TextFault::Malformed { line, rule }) => Ok(Some(Verdict::Malformed { line, rule })),
        Err(TextFault::Memory) => Err(AllocError),
    }
}

/// Whether an entry of the last piece or `end` was read: then no starting word comes any more.
fn has_begun(entries: &[Entry], ended: bool) -> bool
    ensures { result ≡ (has_any entries.now || ended) }
{
    ended || !entries.is_empty()
}

/// Makes the judge, if there is none, once an entry or `end` was read. There is still none if the
/// starting words stand for no state.
fn begin(
    alloc: Global,
    reader: &LogReader,
    entries: &[Entry],
    judge: &mut Option<AnyJudge>,
) -> Result<(), AllocError>
    requires may_start { (h : Header) → reader.now.header ≡ Some h →
        may_start h reader.now.start ≡ true }
    requires built_in { (h : Header) → reader.now.header ≡ Some h →
        is_built_in h.subject ≡ true }
    ensures { OnOk result (IsBegun (has_any entries.now || reader.now.ended)
        reader.now.header reader.now.start judge.old judge.new) }
{
    if judge.is_some() || !has_begun(entries, reader.ended()) {
        return Ok(());
    }
    let Some(header) = reader.header() else {
        return Ok(());
    };
    *judge = AnyJudge::start_from(alloc, header, reader.start())?;
    Ok(())
}

/// Judges further entries, and whether a call is open if `end` was read. The answer is what is
/// wrong with all of them.
fn judge_entries<L: Ledger>(
    judge: &mut Option<AnyJudge>,
    entries: &[Entry],
    ended: bool,
    steps: &mut Steps<L>,
) -> Result<Option<Verdict>, AllocError>
    requires { HasRoom judge.old entries.now }
    ensures answer { (read : Reading) (log : List Entry) →
        IsReady judge.old read log entries.now ended → IfOk result (λ v. v ≡ wrong_in read) }
    ensures judging { (read : Reading) (log : List Entry) →
        IsReady judge.old read log entries.now ended →
        IfOk result (λ v. v ≡ None → IsJudging judge.new read) }
    ensures steps { (read : Reading) (log : List Entry) →
        IsReady judge.old read log entries.now ended →
        OnOk result (steps.new + judge_owes judge.new read read.entries
        ≤ steps.old + judge_owes judge.old read log
        + following_cost judge.old entries.now ended) }
{
    match judge {
        Some(judge) => follow(judge, entries, ended, steps),
        None => Ok(wrong_start(entries, ended)),
    }
}

/// What is wrong if there is no judge: the starting words, once an entry or `end` was read.
fn wrong_start(entries: &[Entry], ended: bool) -> Option<Verdict>
    ensures { result ≡ then_some (has_any entries.now || ended) (Malformed 2 StartState) }
{
    if has_begun(entries, ended) {
        Some(Verdict::Malformed {
            line: FIRST_START_LINE,
            rule: Rule::StartState,
        })
    } else {
        None
    }
}

/// Follows further entries, and then the line `end` if it was read. The answer is what is wrong
/// with all of them.
fn follow<L: Ledger>(
    judge: &mut AnyJudge,
    entries: &[Entry],
    ended: bool,
    steps: &mut Steps<L>,
) -> Result<Option<Verdict>, AllocError>
    requires few { judge.old.kept.entries + length entries.now ≤ 2 ^ 62 }
    ensures answer { (read : Reading) (log : List Entry) →
        IsReady (Some judge.old) read log entries.now ended → IfOk result (λ v. v ≡ wrong_in read) }
    ensures judging { (read : Reading) (log : List Entry) →
        IsReady (Some judge.old) read log entries.now ended →
        IfOk result (λ v. v ≡ None → IsJudging (Some judge.new) read) }
    ensures steps { (read : Reading) (log : List Entry) →
        IsReady (Some judge.old) read log entries.now ended →
        OnOk result (steps.new + judge_owes (Some judge.new) read read.entries
        ≤ steps.old + judge_owes (Some judge.old) read log
        + following_cost (Some judge.old) entries.now ended) }
{
    if let Some(verdict) = judge.follow_counted(entries, steps)? {
        return Ok(Some(verdict));
    }
    if ended {
        open_call(judge, steps)
    } else {
        Ok(None)
    }
}

/// What is wrong if `end` stands after the entries, given that nothing is wrong with them.
fn open_call<L: Ledger>(
    judge: &AnyJudge,
    steps: &mut Steps<L>,
) -> Result<Option<Verdict>, AllocError>
    ensures verdict { (starting : List StartWord) (log : List Entry) →
        HasFollowed judge.now starting log →
        verdict_so_far (rules_by judge.now.kept.charter) starting log ≡ None →
        IfOk result (λ v. v ≡ end_verdict (rules_by judge.now.kept.charter) starting log) }
    ensures steps { steps.new ≤ steps.old + callers_of judge.now.kept }
{
    match judge.finish_counted(steps)? {
        Verdict::Accepted { .. } => Ok(None),
        Verdict::Violation { line, why } => Ok(Some(Verdict::Violation { line, why })),
        Verdict::Malformed { line, rule } => Ok(Some(Verdict::Malformed { line, rule })),
    }
}
