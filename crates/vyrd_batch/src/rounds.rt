//! A batch that is judged while it is read.

ghost use Rattle.std.specs.Prelude.{◌≡◌, ◌≤◌, ◌<◌, ◌+◌, ◌*◌, ◌++◌, length, drop, OnOk, OnErr};
ghost use Rattle.std.specs.Prelude.{ℕ, List, Ok, Err};
ghost use Rattle.vyrd_batch.specs.Batches.{batch_logs};
ghost use Rattle.vyrd_batch.specs.BatchAnswers.{verdicts_of};
ghost use Rattle.vyrd_batch.specs.Rounds.{IsJudged, IsSpent, most_left};
ghost use Rattle.vyrd_batch.specs.Costs.{line_look, rest_look, moved, round_cost};
ghost use Rattle.vyrd_batch.specs.Costs.{IsLeft, IsBegun};
ghost use Rattle.vyrd_batch.specs.declared.fault.BatchFault.TheVariants.{Refused};

use crate::fault::BatchFault;
use crate::judging::judge_batch_counted;
use crate::reader::whole_logs;
use crate::unfinished::may_go_on;
use std::alloc::{AllocError, Global};
use std::marker::{Brand, Model};
use std::sync::ledger::{Blank, Ledger};
use std::thread::Threads;
use vyrd_base::{Steps, Verdict};
use vyrd_text::{after, is_word};

/// How many bytes the first line takes.
const FIRST_LINE: usize = 6;

/// The verdicts about the first logs of a batch, while its rest is still to come.
///
/// The bytes that aren't judged yet stay with the caller. Each call judges the logs that are whole
/// in them, and takes their bytes away, so that the caller can append further bytes to what is
/// left: less than one log and its line. Once the batch is refused, however it goes on, a call
/// takes all bytes away, or leaves up to 12 of an unfinished line. The memory is that of the
/// verdicts, and during a call that of the logs that are judged at one time.
pub struct BatchJudge {
    alloc: Global,
    verdicts: Vec<Verdict>,
    /// Where the bytes begin that aren't judged, counted from 0, once the first line was read.
    place: Option<usize>,
    /// Whether the batch is refused at that place, however it goes on.
    refused: bool,
}

impl Model for BatchJudge {
    ghost use Rattle.std.specs.Prelude.{◌≤◌, length, IfSome};
    ghost use Rattle.vyrd_batch.specs.Batches.{most_logs, logs_end_within};
    ghost use Rattle.vyrd_batch.specs.Rounds.{BatchView};

    ghost Value = { BatchView };

    ghost view = { λ b. record {
      verdicts = b.verdicts.items;
      place = b.place;
      refused = b.refused;
    } };

    ghost invariant = { λ b. (length b.verdicts.items ≤ most_logs)
        × IfSome b.place (λ place. place ≤ logs_end_within) };
}

impl Drop for BatchJudge {
    fn drop(self) {
        let BatchJudge {
            alloc: _,
            verdicts,
            place: _,
            refused: _,
        } = self;
        drop(verdicts);
    }
}

impl BatchJudge {
    ghost use Rattle.std.specs.Prelude.{ℕ, List, [], Ok, Err, None, Some, IfOk, false};
    ghost use Rattle.vyrd_batch.specs.Batches.{batch_logs, most_logs};
    ghost use Rattle.vyrd_batch.specs.BatchAnswers.{verdicts_of};
    ghost use Rattle.vyrd_batch.specs.Rounds.{IsJudged, AreJudgedTo, IsSpent, IsSpentBy};
    ghost use Rattle.vyrd_batch.specs.Rounds.{IsNothingMore, most_left};
    ghost use Rattle.vyrd_batch.specs.declared.fault.BatchFault.TheVariants.{Refused};

    /// Nothing is judged yet. It takes no memory.
    pub fn new(alloc: Global) -> BatchJudge
        ensures judged { IsJudged [] result [] }
        ensures spent { IsSpent result [] }
    {
        BatchJudge {
            alloc,
            verdicts: Vec::new(alloc),
            place: None,
            refused: false,
        }
    }

    /// The verdicts about the logs that were judged, in their order.
    pub fn verdicts(&self) -> &[Verdict]
        ensures items { result.now ≡ self.now.verdicts }
        ensures few { length result.now ≤ most_logs }
    {
        &self.verdicts
    }

    /// Judges the logs that are whole in `bytes`, side by side, and takes their bytes away.
    ///
    /// `bytes` are those after the logs that were judged, as far as they have come. A batch that is
    /// refused, however it goes on, leaves none of them, and a call after that looks at none; only
    /// of a line whose line feed is still to come it may leave up to 12. The only error is out of
    /// memory, and then nothing is known of `bytes` and of this.
    pub fn judge<R: Threads + Sync>(
        &mut self,
        rt: &R,
        bytes: &mut Vec<u8>,
    ) -> Result<(), AllocError>
        ensures judged { (input : List ℕ) → IsJudged input self.old bytes.old.items
            → OnOk result (IsJudged input self.new bytes.new.items) }
        ensures spent { OnOk result (IsSpent self.new bytes.new.items) }
        ensures short { OnOk result (length bytes.new.items ≤ most_left) }
    {
        judge_alone::<R, Brand>(Blank::new(1), self, rt, bytes)
    }

    /// The same, with the steps counted that aren't those of judging a log.
    ///
    /// What the call before left holds no whole log. So if a log is judged now, what was left is
    /// judged with it, and only bytes that came since then are moved: each byte is moved at most
    /// once, however many rounds there are. The bound is in the bytes that came since the call
    /// before, and holds after out of memory too. Add it up over the rounds of a batch.
    pub fn judge_counted<R: Threads + Sync, L: Ledger>(
        &mut self,
        rt: &R,
        bytes: &mut Vec<u8>,
        steps: &mut Steps<L>,
    ) -> Result<(), AllocError>
        ensures judged { (input : List ℕ) → IsJudged input self.old bytes.old.items
            → OnOk result (IsJudged input self.new bytes.new.items) }
        ensures spent { OnOk result (IsSpent self.new bytes.new.items) }
        ensures short { OnOk result (length bytes.new.items ≤ most_left) }
        ensures steps { (left fresh : List ℕ) → IsSpent self.old left
            → bytes.old.items ≡ left ++ fresh
            → steps.new ≤ steps.old + round_cost (length fresh) }
    {
        if self.refused {
            bytes.clear();
            return Ok(());
        }
        let taken = self.judge_whole(rt, bytes, steps)?;
        take_away(taken, bytes, steps);
        self.refuse(bytes, steps);
        Ok(())
    }

    /// Judges the last logs, if `bytes` are all that come after the logs that were judged.
    ///
    /// `Refused` comes exactly when the input isn't a batch, with the number of the first log that
    /// isn't framed, counted from 0. The verdicts are then those about the logs before it, and
    /// further bytes may come after all: `bytes` has what they are appended to. `Memory` may come
    /// at any time.
    pub fn finish<R: Threads + Sync>(
        &mut self,
        rt: &R,
        bytes: &mut Vec<u8>,
    ) -> Result<(), BatchFault>
        ensures verdicts { (input : List ℕ) → IsJudged input self.old bytes.old.items
            → OnOk result ((logs : List (List ℕ)) × (batch_logs input ≡ Ok logs)
            × (self.new.verdicts ≡ verdicts_of logs)) }
        ensures refused { (input : List ℕ) (log : ℕ) → IsJudged input self.old bytes.old.items
            → result ≡ Err (Refused log)
            → batch_logs input ≡ Err log }
        ensures kept { (input : List ℕ) (log : ℕ) → IsJudged input self.old bytes.old.items
            → result ≡ Err (Refused log)
            → IsJudged input self.new bytes.new.items }
        ensures count { (input : List ℕ) (log : ℕ) → IsJudged input self.old bytes.old.items
            → result ≡ Err (Refused log)
            → length self.new.verdicts ≡ log }
    {
        finish_alone::<R, Brand>(Blank::new(1), self, rt, bytes)
    }

    /// The same, with steps counted as [`judge_counted`](BatchJudge::judge_counted) counts them.
    pub fn finish_counted<R: Threads + Sync, L: Ledger>(
        &mut self,
        rt: &R,
        bytes: &mut Vec<u8>,
        steps: &mut Steps<L>,
    ) -> Result<(), BatchFault>
        ensures verdicts { (input : List ℕ) → IsJudged input self.old bytes.old.items
            → OnOk result ((logs : List (List ℕ)) × (batch_logs input ≡ Ok logs)
            × (self.new.verdicts ≡ verdicts_of logs)) }
        ensures refused { (input : List ℕ) (log : ℕ) → IsJudged input self.old bytes.old.items
            → result ≡ Err (Refused log)
            → batch_logs input ≡ Err log }
        ensures kept { (input : List ℕ) (log : ℕ) → IsJudged input self.old bytes.old.items
            → result ≡ Err (Refused log)
            → IsJudged input self.new bytes.new.items }
        ensures count { (input : List ℕ) (log : ℕ) → IsJudged input self.old bytes.old.items
            → result ≡ Err (Refused log)
            → length self.new.verdicts ≡ log }
        ensures steps { (left fresh : List ℕ) → IsSpent self.old left
            → bytes.old.items ≡ left ++ fresh
            → steps.new ≤ steps.old + round_cost (length fresh) }
    {
        self.judge_counted(rt, bytes, steps)?;
        self.end(bytes)
    }

    /// What comes of the batch if these bytes are its last ones.
    fn end(&self, bytes: &[u8]) -> Result<(), BatchFault>
        requires { IsSpent self.now bytes.now }
        ensures verdicts { (input : List ℕ) → IsJudged input self.now bytes.now
            → OnOk result ((logs : List (List ℕ)) × (batch_logs input ≡ Ok logs)
            × (self.now.verdicts ≡ verdicts_of logs)) }
        ensures refused { (input : List ℕ) (log : ℕ) → IsJudged input self.now bytes.now
            → result ≡ Err (Refused log)
            → batch_logs input ≡ Err log }
        ensures count { (input : List ℕ) (log : ℕ) → IsJudged input self.now bytes.now
            → result ≡ Err (Refused log)
            → length self.now.verdicts ≡ log }
    {
        let log = self.verdicts.len() as u64;
        if self.refused {
            return Err(BatchFault::Refused { log });
        }
        let Some(_) = self.place else {
            return Err(BatchFault::Refused { log: 0 });
        };
        if !is_word(bytes, b"end\n") {
            return Err(BatchFault::Refused { log });
        }
        Ok(())
    }

    /// Judges the logs that are whole. The answer is how many bytes are judged.
    fn judge_whole<R: Threads + Sync, L: Ledger>(
        &mut self,
        rt: &R,
        bytes: &[u8],
        steps: &mut Steps<L>,
    ) -> Result<usize, AllocError>
        ensures goes_on { self.new.refused ≡ self.old.refused }
        ensures within { IfOk result (λ taken. taken ≤ length bytes.now) }
        ensures judged { (input : List ℕ)
            → AreJudgedTo self.old.place input self.old.verdicts bytes.now → IfOk result
            (λ taken. AreJudgedTo self.new.place input self.new.verdicts (drop taken bytes.now)) }
        ensures nothing { IfOk result (λ taken.
            IsNothingMore self.new.place (length self.new.verdicts) (drop taken bytes.now)) }
        ensures steps { (left fresh : List ℕ)
            → IsSpentBy false self.old.place (length self.old.verdicts) left
            → bytes.now ≡ left ++ fresh → IfOk result (λ taken. steps.new
            + rest_look self.new.place (drop taken bytes.now) + moved taken (length bytes.now)
            ≤ steps.old + 3 * length fresh + 27) }
        ensures ever { (left fresh : List ℕ)
            → IsSpentBy false self.old.place (length self.old.verdicts) left
            → bytes.now ≡ left ++ fresh → steps.new ≤ steps.old + 3 * length fresh + 27 }
    {
        steps.tick();
        let first = self.begin(bytes);
        let Some(place) = self.place else {
            return Ok(0);
        };
        let (_, behind) = bytes.split_at(first);
        let taken = self.judge_logs(rt, place, behind, steps)?;
        Ok(first + taken)
    }

    /// Reads the first line, if it is there and wasn't read. The answer is how many bytes it takes
    /// here.
    fn begin(&mut self, bytes: &[u8]) -> usize
        ensures goes_on { self.new.refused ≡ self.old.refused }
        ensures within { result ≤ length bytes.now }
        ensures judged { (input : List ℕ)
            → AreJudgedTo self.old.place input self.old.verdicts bytes.now
            → AreJudgedTo self.new.place input self.new.verdicts (drop result bytes.now) }
        ensures nothing { self.new.place ≡ None → (result ≡ 0)
            × IsNothingMore self.new.place (length self.new.verdicts) bytes.now }
        ensures begun { (place : ℕ) → self.new.place ≡ Some place
            → IsBegun self.old.place place result bytes.now }
        ensures same { self.new.verdicts ≡ self.old.verdicts }
    {
        if self.place.is_some() {
            return 0;
        }
        let Some(_) = after(bytes, b"batch\n") else {
            return 0;
        };
        self.place = Some(FIRST_LINE);
        FIRST_LINE
    }

    /// Judges the logs that are whole from this place on. The answer is how many bytes they take.
    fn judge_logs<R: Threads + Sync, L: Ledger>(
        &mut self,
        rt: &R,
        place: usize,
        bytes: &[u8],
        steps: &mut Steps<L>,
    ) -> Result<usize, AllocError>
        requires { self.old.place ≡ Some place }
        ensures goes_on { self.new.refused ≡ self.old.refused }
        ensures within { IfOk result (λ taken. taken ≤ length bytes.now) }
        ensures judged { (input : List ℕ)
            → AreJudgedTo self.old.place input self.old.verdicts bytes.now → IfOk result
            (λ taken. AreJudgedTo self.new.place input self.new.verdicts (drop taken bytes.now)) }
        ensures nothing { IfOk result (λ taken.
            IsNothingMore self.new.place (length self.new.verdicts) (drop taken bytes.now)) }
        ensures steps { (left fresh : List ℕ) → IsLeft (length self.old.verdicts) place left
            → bytes.now ≡ left ++ fresh → IfOk result (λ taken. steps.new
            + line_look (drop taken bytes.now) + moved taken (length bytes.now)
            ≤ steps.old + 3 * length fresh + 26) }
        ensures first { IfOk result (λ taken. steps.new + line_look (drop taken bytes.now)
            + length (drop taken bytes.now) ≤ steps.old + 3 * length bytes.now + 26) }
        ensures ever { (left fresh : List ℕ) → IsLeft (length self.old.verdicts) place left
            → bytes.now ≡ left ++ fresh → steps.new ≤ steps.old + 3 * length fresh + 26 }
    {
        let found = whole_logs(self.alloc, self.verdicts.len(), place, bytes, steps)?;
        let verdicts = judge_batch_counted(rt, self.alloc, bytes, &found.spans, steps)?;
        append(&verdicts, &mut self.verdicts, steps)?;
        self.place = Some(place + found.taken);
        Ok(found.taken)
    }

    /// Refuses the batch if nothing can come of these bytes any more, and lets them go then, with
    /// their room.
    fn refuse<L: Ledger>(&mut self, bytes: &mut Vec<u8>, steps: &mut Steps<L>)
        requires goes_on { self.old.refused ≡ false }
        requires nothing { IsNothingMore self.old.place (length self.old.verdicts) bytes.old.items }
        ensures judged { (input : List ℕ)
            → AreJudgedTo self.old.place input self.old.verdicts bytes.old.items
            → IsJudged input self.new bytes.new.items }
        ensures spent { IsSpent self.new bytes.new.items }
        ensures steps { steps.new ≤ steps.old + rest_look self.old.place bytes.old.items + 1 }
    {
        if may_go_on(self.place, self.verdicts.len(), bytes, steps) {
            return;
        }
        self.refused = true;
        *bytes = Vec::new(self.alloc);
    }
}

/// Judges with a count of its own.
fn judge_alone<R: Threads + Sync, L: Ledger>(
    blank: Blank,
    batch: &mut BatchJudge,
    rt: &R,
    bytes: &mut Vec<u8>,
) -> Result<(), AllocError>
    requires name { blank.name ≡ L.name }
    requires parts { blank.parts ≡ L.parts }
    requires some { 0 < blank.parts }
    ensures judged { (input : List ℕ) → IsJudged input batch.old bytes.old.items
        → OnOk result (IsJudged input batch.new bytes.new.items) }
    ensures spent { OnOk result (IsSpent batch.new bytes.new.items) }
    ensures short { OnOk result (length bytes.new.items ≤ most_left) }
{
    let mut steps = Steps::<L>::new(blank);
    batch.judge_counted(rt, bytes, &mut steps)
}

/// Ends with a count of its own.
fn finish_alone<R: Threads + Sync, L: Ledger>(
    blank: Blank,
    batch: &mut BatchJudge,
    rt: &R,
    bytes: &mut Vec<u8>,
) -> Result<(), BatchFault>
    requires name { blank.name ≡ L.name }
    requires parts { blank.parts ≡ L.parts }
    requires some { 0 < blank.parts }
    ensures verdicts { (input : List ℕ) → IsJudged input batch.old bytes.old.items
        → OnOk result ((logs : List (List ℕ)) × (batch_logs input ≡ Ok logs)
        × (batch.new.verdicts ≡ verdicts_of logs)) }
    ensures refused { (input : List ℕ) (log : ℕ) → IsJudged input batch.old bytes.old.items
        → result ≡ Err (Refused log)
        → batch_logs input ≡ Err log }
    ensures kept { (input : List ℕ) (log : ℕ) → IsJudged input batch.old bytes.old.items
        → result ≡ Err (Refused log)
        → IsJudged input batch.new bytes.new.items }
    ensures count { (input : List ℕ) (log : ℕ) → IsJudged input batch.old bytes.old.items
        → result ≡ Err (Refused log)
        → length batch.new.verdicts ≡ log }
{
    let mut steps = Steps::<L>::new(blank);
    batch.finish_counted(rt, bytes, &mut steps)
}

/// Appends more verdicts. A refusal leaves `verdicts` unchanged. A step is counted for each.
fn append<L: Ledger>(
    more: &[Verdict],
    verdicts: &mut Vec<Verdict>,
    steps: &mut Steps<L>,
) -> Result<(), AllocError>
    ensures ok { OnOk result (verdicts.new.items ≡ verdicts.old.items ++ more.now) }
    ensures err { OnErr result (verdicts.new.items ≡ verdicts.old.items) }
    ensures steps { steps.new ≡ steps.old + length more.now }
{
    steps.add(more.len());
    verdicts.extend_from_slice(more)
}

/// Takes the first `n` bytes away. The time grows with the bytes that move: with those that stay,
/// and with none if all stay. A step is counted for each of them.
fn take_away<L: Ledger>(n: usize, bytes: &mut Vec<u8>, steps: &mut Steps<L>)
    requires { n ≤ length bytes.old.items }
    ensures left { bytes.new.items ≡ drop n bytes.old.items }
    ensures steps { steps.new ≡ steps.old + moved n (length bytes.old.items) }
{
    if n == 0 {
        return;
    }
    let left = bytes.len() - n;
    steps.add(left);
    bytes.copy_within(n.., 0);
    bytes.truncate(left);
}
