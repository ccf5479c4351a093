//! What takes in the bytes of a log, and then explains its verdict.

ghost use Rattle.std.specs.Prelude.{◌≡◌, ◌++◌, ◌≤◌, ℕ, List, [], true, false, IfOk, OnOk};
ghost use Rattle.std.specs.Result.{is_err};
ghost use Rattle.vyrd_base.specs.LogVerdicts.{log_verdict};
ghost use Rattle.vyrd_base.specs.VerdictText.{verdict_text};
ghost use Rattle.vyrd_base.specs.Limits.{most_lines};
ghost use Rattle.vyrd_explain.specs.Explained.{explained, is_settled};
ghost use Rattle.vyrd_explain.specs.Explaining.{HasTaken, limit_of};

use crate::about::About;
use crate::own_reading::own_read_on;
use crate::own_text::own_said_about;
use crate::reading::read_on;
use crate::text::said_about;
use std::alloc::{AllocError, Global};
use std::marker::Model;
use vyrd_base::{Entry, Verdict};
use vyrd_log_check::LogChecker;
use vyrd_own_log::OwnLogReader;
use vyrd_text::{LogReader, write_verdict};

/// A verdict, and what is answered about its log.
#[derive(Debug, Drop)]
pub struct Explained {
    /// The verdict.
    pub verdict: Verdict,
    /// Its line, and a line for each thing that is told behind it.
    pub text: Vec<u8>,
}

/// Takes in the bytes of a log, which may come in pieces of any size, and at their end explains its
/// verdict, or tells what changes along the log.
///
/// It keeps what a [`LogChecker`] keeps, and the starting words and entries that were read, 24
/// bytes for each entry. Of a log with a specification in front these are 8 bytes more, for the
/// entry's line, and the specification. The time of `feed` grows with the bytes. Once it has found
/// no memory, it and `finish` say so from then on.
#[derive(Drop)]
pub struct Explainer {
    alloc: Global,
    checker: LogChecker,
    /// It reads a log whose structure is built in, and stops at the first line of any other.
    reader: LogReader,
    entries: Vec<Entry>,
    /// The same for a log with a specification in front.
    own: OwnLogReader,
    own_entries: Vec<Entry>,
    /// The lines of starting words, of entries and of `end` that `own` has read.
    numbers: Vec<u64>,
    has_failed: bool,
}

impl Model for Explainer {
    ghost use Rattle.vyrd_explain.specs.Explaining.{ExplainerState};

    ghost Value = { ExplainerState };

    ghost use Rattle.std.specs.Coded.{codes};
    ghost use Rattle.vyrd_log_check.specs.contracts.checker.LogChecker as log_checker;
    ghost use Rattle.vyrd_own_log.specs.contracts.reader.OwnLogReader as own_reader;

    ghost coded = { Prim.hlevel (codes, log_checker.the_row.coded, own_reader.the_row.coded) };

    ghost use Rattle.vyrd_explain.specs.ExplainerView.{explainer_in};
    ghost use Rattle.vyrd_explain.specs.Explaining.{IsSound};

    ghost view = { explainer_in };

    ghost invariant = { λ e. IsSound (explainer_in e) };
}

impl Explainer {
    /// What has taken in no byte. A log with more than `max_lines` lines is malformed; `max_lines`
    /// is from 1 to 268,435,456. It takes no memory.
    pub fn new(alloc: Global, max_lines: u64) -> Explainer
        requires low { 1 ≤ max_lines }
        requires high { max_lines ≤ most_lines }
        ensures taken { HasTaken result [] }
        ensures limit { limit_of result ≡ max_lines }
        ensures has_failed { result.has_failed ≡ false }
    {
        Explainer {
            alloc,
            checker: LogChecker::new(alloc, max_lines),
            reader: LogReader::new(alloc, max_lines),
            entries: Vec::new(alloc),
            own: OwnLogReader::new(alloc, max_lines),
            own_entries: Vec::new(alloc),
            numbers: Vec::new(alloc),
            has_failed: false,
        }
    }

    /// Takes in the next piece. The answer is whether no further byte can change what is said of
    /// all of them.
    pub fn feed(&mut self, piece: &[u8]) -> Result<bool, AllocError>
        ensures settled { (bytes : List ℕ) → HasTaken self.old bytes
            → IfOk result (λ is. is ≡ is_settled (limit_of self.old) (bytes ++ piece.now)) }
        ensures taken { (bytes : List ℕ) → HasTaken self.old bytes
            → OnOk result (HasTaken self.new (bytes ++ piece.now)) }
        ensures has_failed { self.new.has_failed ≡ is_err result }
        ensures fails_again { self.old.has_failed ≡ true → is_err result ≡ true }
        ensures limit { limit_of self.new ≡ limit_of self.old }
    {
        if self.has_failed {
            return Err(AllocError);
        }
        // Until the piece is taken in whole: each `?` leaves it so.
        self.has_failed = true;
        let verdict = self.checker.feed(piece)?;
        let stops = read_on(&mut self.reader, piece, &mut self.entries)?;
        let own_stops = own_read_on(
            &mut self.own,
            piece,
            &mut self.own_entries,
            &mut self.numbers,
        )?;
        self.has_failed = false;
        let both_stop = stops && own_stops;
        Ok(verdict.is_some() && both_stop)
    }

    /// The verdict about all bytes, and what is answered about it or about the log, if the input
    /// ends here.
    ///
    /// The time is in proportion to the entries, and for each of them to the callers at most, and
    /// what is said takes besides what the calls of `vyrd_witness`, `vyrd_states` and `vyrd_follow`
    /// take.
    pub fn finish(&self, about: About) -> Result<Explained, AllocError>
        ensures verdict { (bytes : List ℕ) → HasTaken self.now bytes
            → IfOk result (λ e. e.verdict ≡ log_verdict (limit_of self.now) bytes) }
        ensures text { (bytes : List ℕ) → HasTaken self.now bytes
            → IfOk result (λ e. e.text.items ≡ explained about (limit_of self.now) bytes) }
        ensures has_failed { self.now.has_failed ≡ true → is_err result ≡ true }
    {
        if self.has_failed {
            return Err(AllocError);
        }
        let verdict = self.checker.finish()?;
        let said = said_about(self.alloc, about, &self.reader, &self.entries, verdict)?;
        let own_said = own_said_about(
            self.alloc,
            about,
            &self.own,
            &self.own_entries,
            &self.numbers,
            verdict,
        )?;
        let text = text_of_all(self.alloc, verdict, &said, &own_said)?;
        Ok(Explained { verdict, text })
    }
}

/// The line of a verdict, and behind it what is said of it.
fn text_of_all(
    alloc: Global,
    verdict: Verdict,
    said: &[u8],
    own_said: &[u8],
) -> Result<Vec<u8>, AllocError>
    ensures { IfOk result
        (λ text. text.items ≡ verdict_text verdict ++ said.now ++ own_said.now) }
{
    let mut text = Vec::new(alloc);
    write_verdict(&verdict, &mut text)?;
    text.extend_from_slice(said)?;
    text.extend_from_slice(own_said)?;
    Ok(text)
}
