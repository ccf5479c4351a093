//! The events of a history that were read so far.

ghost use Rattle.std.specs.Prelude.{◌≡◌, [], length, IfOk, IfErr, OnOk, Some};
ghost use Rattle.vyrd_base.specs.Histories.{cells_of};
ghost use Rattle.vyrd_mover.specs.Blocks.{blocks_of};
ghost use Rattle.vyrd_mover.specs.HistoryText.{Recorded};
ghost use Rattle.vyrd_mover.specs.HistoryReading.{event_read, line_read};
ghost use Rattle.vyrd_mover.specs.EventsRead.{HaveRead, HaveReadSome, HaveReadOn};
ghost use Rattle.vyrd_mover.specs.Refusals.{IsRefusedAt};

use crate::blocks::Blocks;
use crate::checker::BlockChecker;
use crate::fault::{HistoryFault, HistoryRule};
use crate::ledger::Ledger;
use crate::line::read_event;
use std::alloc::{AllocError, Global};
use vyrd_base::{Header, Stamped, Subject};

/// What is kept of the events of a history that were read so far: for what may come next, and for
/// the answer about the blocks.
#[derive(Drop)]
pub(crate) struct Events {
    ledger: Ledger,
    checker: BlockChecker,
}

impl Events {
    /// No event was read.
    pub fn new(alloc: Global, header: Header) -> Result<Events, AllocError>
        ensures { IfOk result
            (λ s. HaveRead s.ledger s.checker (record { header = header; history = [] })) }
    {
        Ok(Events {
            ledger: Ledger::new(alloc, header)?,
            checker: BlockChecker::new(alloc, header)?,
        })
    }

    /// The subject of the header.
    #[inline(always)]
    pub fn subject(&self) -> Subject
        ensures { result ≡ self.now.ledger.header.subject }
    {
        self.ledger.subject()
    }

    /// How many events were read.
    #[inline(always)]
    pub fn len(&self) -> u64
        ensures { result ≡ length self.now.checker.steps }
    {
        self.checker.len() as u64
    }

    /// Takes in a line that isn't `end`.
    pub fn take_line(&mut self, number: u64, line: &[u8]) -> Result<(), HistoryFault>
        requires { HaveReadSome self.old.ledger self.old.checker }
        ensures ok { (r : Recorded) → HaveRead self.old.ledger self.old.checker r
            → OnOk result (HaveReadOn self.new.ledger self.new.checker (line_read r line.now)) }
        ensures err { (r : Recorded) → HaveRead self.old.ledger self.old.checker r
            → IfErr result (λ fault. IsRefusedAt number fault (line_read r line.now)) }
    {
        let Some(event) = read_event(self.subject(), self.len(), line) else {
            return Err(HistoryFault::Refused {
                line: number,
                rule: HistoryRule::BadLine,
            });
        };
        self.take_event(number, event)
    }

    /// Takes in the event that a line says, whose own number is that of the events so far.
    #[inline(always)]
    pub fn take_event(&mut self, number: u64, event: Stamped) -> Result<(), HistoryFault>
        requires some { HaveReadSome self.old.ledger self.old.checker }
        requires counted { event.number ≡ length self.old.checker.steps }
        ensures ok { (r : Recorded) → HaveRead self.old.ledger self.old.checker r → OnOk result
            (HaveReadOn self.new.ledger self.new.checker (event_read r (Some event))) }
        ensures err { (r : Recorded) → HaveRead self.old.ledger self.old.checker r
            → IfErr result (λ fault. IsRefusedAt number fault (event_read r (Some event))) }
    {
        if let Some(rule) = self.ledger.broken_rule(&event) {
            return Err(HistoryFault::Refused { line: number, rule });
        }
        match self.checker.take(&event) {
            Ok(()) => {
                self.ledger.put(&event);
                Ok(())
            }
            Err(_) => Err(HistoryFault::Memory),
        }
    }

    /// What is said of the blocks of the history that was read.
    pub fn answer(&self) -> Result<Blocks, AllocError>
        requires { HaveReadSome self.now.ledger self.now.checker }
        ensures said { (r : Recorded) → HaveRead self.now.ledger self.now.checker r
            → IfOk result (λ blocks. blocks ≡ blocks_of (cells_of r.header) r.history) }
    {
        self.checker.answer()
    }
}
