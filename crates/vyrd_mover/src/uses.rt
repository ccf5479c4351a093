//! How the plain cells of a history are used, and who holds each lock.

ghost use Rattle.std.specs.Prelude.{◌≡◌, ◌^◌, ◌<◌, List, length, replicate, IfOk};
ghost use Rattle.std.specs.Prelude.{OnOk, OnErr};
ghost use Rattle.vyrd_base.specs.declared.history.Stamped.{Stamped};
ghost use Rattle.vyrd_base.specs.Histories.{Cells};
ghost use Rattle.vyrd_mover.specs.LockSets.{words_for};
ghost use Rattle.vyrd_mover.specs.RaceFree.{is_race_free};
ghost use Rattle.vyrd_mover.specs.Usage.{HaveSeen, IsInRange, IsBehind, HasPlaceIn, held_by};
ghost use Rattle.vyrd_mover.specs.Usage.{kept_after, unused};

use crate::lock_set::LockSet;
use crate::usage::Usage;
use std::alloc::{AllocError, Global};
use std::marker::Model;
use vyrd_base::{Did, Stamped};

/// How the plain cells of a history have been used so far, and which locks each caller holds.
#[derive(Drop)]
pub(crate) struct Uses {
    /// By caller: the locks that it holds. They are numbered in the order of their cells, which
    /// stand behind the plain ones.
    held: Vec<LockSet>,
    /// By plain cell.
    cells: Vec<Usage>,
}

impl Model for Uses {
    ghost use Rattle.vyrd_mover.specs.Usage.{UsageKept};

    ghost Value = { UsageKept };

    ghost view = { λ s. record { held = s.held.items; cells = s.cells.items } };
}

impl Uses {
    /// No cell has been used, and all locks are free. It takes memory in proportion to the cells,
    /// and a bit for each lock and each caller.
    pub fn new(alloc: Global, callers: u32, plain: u32, locks: u32) -> Result<Uses, AllocError>
        requires few { locks < 2 ^ 31 }
        ensures held { IfOk result
            (λ s. s.held ≡ replicate callers (replicate (words_for locks) 0)) }
        ensures cells { IfOk result (λ s. s.cells ≡ replicate plain unused) }
    {
        Ok(Uses {
            held: empty_sets(alloc, callers, locks)?,
            cells: unused_cells(alloc, plain)?,
        })
    }

    /// Follows an event: in constant time, except that the use of a cell looks at all locks, 64 at
    /// a time. An error leaves everything unchanged.
    pub fn follow(&mut self, event: &Stamped) -> Result<(), AllocError>
        requires caller { event.now.caller < length self.old.held }
        requires in_range { IsInRange (length self.old.cells) (2 ^ 31) event.now.did }
        requires few { length self.old.cells < 2 ^ 31 }
        requires behind { IsBehind (length self.old.cells) event.now.did }
        requires room { HasPlaceIn (length self.old.cells)
            (length (held_by self.old event.now.caller)) event.now.did }
        ensures ok { OnOk result (self.new ≡ kept_after self.old event.now.caller event.now.did) }
        ensures err { OnErr result (self.new ≡ self.old) }
    {
        let first_lock = self.cells.len() as u32;
        let held = &mut self.held[event.caller as usize];
        match event.did {
            Did::Read(cell, _) => self.cells[cell as usize].see(event.caller, false, held)?,
            Did::Wrote(cell, _) => self.cells[cell as usize].see(event.caller, true, held)?,
            Did::Took(lock) => held.insert(lock - first_lock),
            Did::Gave(lock) => held.remove(lock - first_lock),
            Did::Marked(_) => {}
        }
        Ok(())
    }

    /// Whether the plain cell is race-free by the events so far.
    pub fn is_race_free(&self, cell: u32) -> bool
        requires { cell < length self.now.cells }
        ensures { (cells : Cells) (seen : List Stamped) → HaveSeen cells seen self.now
            → 0 < cells.callers
            → result ≡ is_race_free cells seen cell }
    {
        self.cells[cell as usize].is_race_free()
    }
}

/// For each caller a set without locks, which has room for as many.
fn empty_sets(alloc: Global, callers: u32, locks: u32) -> Result<Vec<LockSet>, AllocError>
    requires few { locks < 2 ^ 31 }
    ensures { IfOk result
        (λ sets. sets.items ≡ replicate callers (replicate (words_for locks) 0)) }
{
    let mut sets = Vec::new(alloc);
    for _ in 0..callers {
        sets.push(LockSet::with_room(alloc, locks)?)?;
    }
    Ok(sets)
}

/// That many cells, none of them used.
fn unused_cells(alloc: Global, plain: u32) -> Result<Vec<Usage>, AllocError>
    ensures { IfOk result (λ cells. cells.items ≡ replicate plain unused) }
{
    let mut cells = Vec::new(alloc);
    for _ in 0..plain {
        cells.push(Usage::new(alloc))?;
    }
    Ok(cells)
}
