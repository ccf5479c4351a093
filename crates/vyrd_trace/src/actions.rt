//! The five actions. None takes memory, and none waits. Each that isn't busy adds one event to the
//! hand's lane and uses one of its spare room.

ghost use Rattle.std.specs.Prelude.{◌≡◌, ◌≢◌, ◌+◌, ◌<◌, ◌≤◌, ◌^◌, false, IfOk, IfErr};
ghost use Rattle.vyrd_base.specs.declared.history.Did.TheVariants.{Read, Wrote, Took, Gave, Marked};
ghost use Rattle.vyrd_base.specs.Histories.{is_write};
ghost use Rattle.vyrd_trace.specs.Lanes.{AreBelow};
ghost use Rattle.vyrd_trace.specs.Hands.{IsOf, Holds, with_one_more, with_look, WasFound, WasTaken};

use crate::hand::{Hand, note};
use crate::traced::Traced;
use std::error::Error;
use std::fmt;
use std::marker::Brand;
use vyrd_base::{Did, Kind};

/// The cell wasn't free. `found` is its word: twice its value, plus 1 while another hand has
/// claimed it.
#[derive(Clone, Copy, Debug, PartialEq, Eq)]
pub struct Busy {
    pub found: u64,
}

impl fmt::Display for Busy {
    fn fmt<W: fmt::Write>(&self, f: &mut fmt::Formatter<W>) -> fmt::Result {
        write!(f, "the cell is busy")
    }
}

impl Error for Busy {}

/// What a load saw: the number of its event, and the cell's value.
#[derive(Clone, Copy, Debug, PartialEq, Eq)]
pub struct Seen {
    pub number: u64,
    pub value: u64,
}

impl Traced {
    /// Reads a plain cell, in four atomic steps. The value is below 2^63.
    ///
    /// `Busy` comes only if this call found the cell claimed by another hand, or changed between
    /// its two looks. It leaves the lane and the spare room as they were, and claims nothing.
    pub fn load(&self, hand: &mut Hand, cell: u32) -> Result<Seen, Busy>
        requires hand { IsOf self.now hand.old }
        requires spare { 0 < hand.old.spare }
        requires cell { cell < self.now.plan.plain }
        ensures event { IfOk result (λ seen. hand.new
            ≡ with_one_more hand.old seen.number (Read cell seen.value) hand.new.look) }
        ensures rises { IfOk result (λ seen. AreBelow seen.number hand.old.lane) }
        ensures value { IfOk result (λ seen. seen.value < 2 ^ 63) }
        ensures refused { IfErr result (λ _. hand.new ≡ with_look hand.old hand.new.look) }
        ensures found { IfErr result
            (λ busy. WasFound cell busy.found hand.old.look hand.new.look) }
        ensures cause { IfErr result (λ busy. WasTaken busy.found hand.new.look) }
    {
        let found = self.board.claim_seen(&mut hand.seat, cell)?;
        let value = found / 2;
        let did = Did::Read(cell, value);
        let number = self.board.draw::<Brand>(&mut hand.seat, did);
        self.board.publish(&mut hand.seat, cell, found);
        note(&mut hand.lane, number, hand.caller, did);
        hand.spare -= 1;
        Ok(Seen { number, value })
    }

    /// Writes a value below 2^63 to a plain cell, in four atomic steps. Answers the event's number.
    /// `Busy` is as for `load`.
    pub fn store(&self, hand: &mut Hand, cell: u32, value: u64) -> Result<u64, Busy>
        requires hand { IsOf self.now hand.old }
        requires spare { 0 < hand.old.spare }
        requires cell { cell < self.now.plan.plain }
        requires value { value < 2 ^ 63 }
        ensures event { IfOk result
            (λ number. hand.new ≡ with_one_more hand.old number (Wrote cell value) hand.new.look) }
        ensures rises { IfOk result (λ number. AreBelow number hand.old.lane) }
        ensures refused { IfErr result (λ _. hand.new ≡ with_look hand.old hand.new.look) }
        ensures found { IfErr result
            (λ busy. WasFound cell busy.found hand.old.look hand.new.look) }
        ensures cause { IfErr result (λ busy. WasTaken busy.found hand.new.look) }
    {
        self.board.claim_seen(&mut hand.seat, cell)?;
        let did = Did::Wrote(cell, value);
        let number = self.board.draw::<Brand>(&mut hand.seat, did);
        self.board.publish(&mut hand.seat, cell, 2 * value);
        note(&mut hand.lane, number, hand.caller, did);
        hand.spare -= 1;
        Ok(number)
    }

    /// Takes a lock, in three atomic steps. Answers the event's number.
    ///
    /// `Busy` comes only if this call found the lock held, by this hand too, or claimed by another
    /// one. It leaves the lane and the spare room as they were, and claims nothing.
    pub fn take(&self, hand: &mut Hand, cell: u32) -> Result<u64, Busy>
        requires hand { IsOf self.now hand.old }
        requires spare { 0 < hand.old.spare }
        requires cell { (self.now.plan.plain ≤ cell)
            × (cell < self.now.plan.plain + self.now.plan.locks) }
        ensures event { IfOk result
            (λ number. hand.new ≡ with_one_more hand.old number (Took cell) hand.new.look) }
        ensures rises { IfOk result (λ number. AreBelow number hand.old.lane) }
        ensures refused { IfErr result (λ _. hand.new ≡ with_look hand.old hand.new.look) }
        ensures found { IfErr result
            (λ busy. WasFound cell busy.found hand.old.look hand.new.look) }
        ensures cause { IfErr result (λ busy. busy.found ≢ 0) }
    {
        let found = self.board.claim_lock(&mut hand.seat, cell);
        if found != 0 {
            return Err(Busy { found });
        }
        let did = Did::Took(cell);
        let number = self.board.draw::<Brand>(&mut hand.seat, did);
        self.board
            .publish(&mut hand.seat, cell, 2 * (hand.caller as u64 + 1));
        note(&mut hand.lane, number, hand.caller, did);
        hand.spare -= 1;
        Ok(number)
    }

    /// Gives back a lock that this hand holds, in two atomic steps. Answers the event's number, and
    /// is never refused.
    pub fn give(&self, hand: &mut Hand, cell: u32) -> u64
        requires hand { IsOf self.now hand.old }
        requires spare { 0 < hand.old.spare }
        requires cell { (self.now.plan.plain ≤ cell)
            × (cell < self.now.plan.plain + self.now.plan.locks) }
        requires held { Holds hand.old cell }
        ensures event { hand.new ≡ with_one_more hand.old result (Gave cell) hand.old.look }
        ensures rises { AreBelow result hand.old.lane }
    {
        let did = Did::Gave(cell);
        let number = self.board.draw::<Brand>(&mut hand.seat, did);
        self.board.publish(&mut hand.seat, cell, 0);
        note(&mut hand.lane, number, hand.caller, did);
        hand.spare -= 1;
        number
    }

    /// Marks a call, a return, a commit, or where a block begins or ends, in one atomic step.
    /// Answers the event's number, touches no cell, and is never refused.
    pub fn mark(&self, hand: &mut Hand, kind: Kind) -> u64
        requires hand { IsOf self.now hand.old }
        requires spare { 0 < hand.old.spare }
        requires kind { is_write kind ≡ false }
        ensures event { hand.new ≡ with_one_more hand.old result (Marked kind) hand.old.look }
        ensures rises { AreBelow result hand.old.lane }
    {
        let did = Did::Marked(kind);
        let number = self.board.draw::<Brand>(&mut hand.seat, did);
        note(&mut hand.lane, number, hand.caller, did);
        hand.spare -= 1;
        number
    }
}
