//! The events of a history that were read so far, and what the next one may be.

ghost use Rattle.std.specs.Prelude.{◌≡◌, ◌<◌, ◌+◌, ◌∷◌, ◌++◌, true, None, List, [], length, IfOk};
ghost use Rattle.vyrd_base.specs.declared.history.Stamped.{Stamped};
ghost use Rattle.vyrd_base.specs.Layout.{plain_words, lock_words};
ghost use Rattle.vyrd_base.specs.Places.{newest_first};
ghost use Rattle.vyrd_base.specs.Histories.{cells_of, is_legal_at, is_plain, is_lock, may_do};
ghost use Rattle.vyrd_mover.specs.HistoryReading.{broken_by, is_misplaced, next_place};
ghost use Rattle.vyrd_mover.specs.Usage.{IsInRange};
ghost use Rattle.vyrd_mover.specs.Remembering.{Remembers};

use crate::fault::HistoryRule;
use std::alloc::{AllocError, Global};
use std::marker::Model;
use vyrd_base::{Did, Header, Kind, Stamped, Subject};

/// What the events of a history leave, and whether a block of each caller is open.
#[derive(Drop)]
pub(crate) struct Ledger {
    header: Header,
    /// By cell, plain words first.
    values: Vec<u64>,
    /// By caller: whether it has an open block.
    open_blocks: Vec<bool>,
}

impl Model for Ledger {
    ghost use Rattle.vyrd_mover.specs.Remembering.{Remembered, HasRoom};

    ghost Value = { Remembered };

    ghost view = { λ s. record {
      header = s.header;
      values = s.values.items;
      open_blocks = s.open_blocks.items;
    } };

    ghost invariant = { λ s. HasRoom (record {
      header = s.header;
      values = s.values.items;
      open_blocks = s.open_blocks.items;
    }) };
}

impl Ledger {
    /// No event was read. It takes memory in proportion to the cells and the callers.
    pub fn new(alloc: Global, header: Header) -> Result<Ledger, AllocError>
        ensures header { IfOk result (λ s. s.header ≡ header) }
        ensures remembers { IfOk result (λ s. Remembers s []) }
    {
        let cells = header.plain_words() + header.lock_words();
        Ok(Ledger {
            header,
            values: vec![in alloc; 0; cells as usize]?,
            open_blocks: vec![in alloc; false; header.callers() as usize]?,
        })
    }

    /// The subject of the header.
    pub fn subject(&self) -> Subject
        ensures { result ≡ self.now.header.subject }
    {
        self.header.subject()
    }

    /// The first rule that one more event breaks, whose number is that of the events so far.
    pub fn broken_rule(&self, event: &Stamped) -> Option<HistoryRule>
        ensures { (history : List Stamped) → Remembers self.now history
            → event.now.number ≡ length history → result
            ≡ broken_by (record { header = self.now.header; history = history }) event.now }
    {
        if !self.may_come(event) {
            return Some(HistoryRule::NotLegal);
        }
        if self.is_misplaced(event) {
            return Some(HistoryRule::BlockMark);
        }
        None
    }

    /// Whether one more event is legal, whose number is that of the events so far.
    fn may_come(&self, event: &Stamped) -> bool
        ensures caller { result ≡ true → event.now.caller < self.now.header.callers }
        ensures legal { (history : List Stamped) → Remembers self.now history
            → event.now.number ≡ length history
            → result ≡ is_legal_at (cells_of self.now.header) (next_place history event.now) }
    {
        event.caller < self.header.callers() && self.may_do(event.caller, event.did)
    }

    /// Whether the caller may do this after the events so far.
    fn may_do(&self, caller: u32, did: Did) -> bool
        requires { caller < self.now.header.callers }
        ensures { (history : List Stamped) → Remembers self.now history
            → result ≡ may_do (cells_of self.now.header) (newest_first history) caller did }
    {
        match did {
            Did::Read(cell, value) => self.is_plain(cell) && self.values[cell as usize] == value,
            Did::Wrote(cell, value) => self.is_plain(cell) && value < 1 << 63,
            Did::Took(lock) => self.is_lock(lock) && self.values[lock as usize] == 0,
            Did::Gave(lock) => {
                self.is_lock(lock) && self.values[lock as usize] == u64::from(caller) + 1
            }
            Did::Marked(kind) => !matches!(kind, Kind::Write(_, _)),
        }
    }

    /// Whether the cell is a plain word.
    fn is_plain(&self, cell: u32) -> bool
        ensures { result ≡ is_plain (cells_of self.now.header) cell }
    {
        cell < self.header.plain_words()
    }

    /// Whether the cell is a lock.
    fn is_lock(&self, cell: u32) -> bool
        ensures { result ≡ is_lock (cells_of self.now.header) cell }
    {
        let plain = self.header.plain_words();
        plain <= cell && cell < plain + self.header.lock_words()
    }

    /// Whether one more event opens a block in its caller's open block, or ends one without it.
    fn is_misplaced(&self, event: &Stamped) -> bool
        requires { event.now.caller < self.now.header.callers }
        ensures { (history : List Stamped) → Remembers self.now history
            → result ≡ is_misplaced (next_place history event.now) }
    {
        let is_open = self.open_blocks[event.caller as usize];
        match event.did {
            Did::Marked(Kind::BlockOpen) => is_open,
            Did::Marked(Kind::BlockClose | Kind::BlockCommit) => !is_open,
            _ => false,
        }
    }

    /// Puts one more event, which breaks no rule, after the others.
    pub fn put(&mut self, event: &Stamped)
        requires caller { event.now.caller < self.old.header.callers }
        requires in_range { IsInRange (plain_words self.old.header)
            (plain_words self.old.header + lock_words self.old.header) event.now.did }
        ensures header { self.new.header ≡ self.old.header }
        ensures remembers { (history : List Stamped) → Remembers self.old history
            → broken_by (record { header = self.old.header; history = history }) event.now ≡ None
            → Remembers self.new (history ++ event.now ∷ []) }
    {
        let place = event.caller as usize;
        match event.did {
            Did::Wrote(cell, value) => self.values[cell as usize] = value,
            Did::Took(lock) => self.values[lock as usize] = u64::from(event.caller) + 1,
            Did::Gave(lock) => self.values[lock as usize] = 0,
            Did::Marked(Kind::BlockOpen) => self.open_blocks[place] = true,
            Did::Marked(Kind::BlockClose | Kind::BlockCommit) => self.open_blocks[place] = false,
            Did::Read(_, _) | Did::Marked(_) => {}
        }
    }
}
