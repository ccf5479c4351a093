//! How a plain cell is used.

ghost use Rattle.std.specs.Prelude.{◌≡◌, ℕ, ◌<◌, ◌||◌, List, OnOk, OnErr};
ghost use Rattle.vyrd_base.specs.declared.history.Stamped.{Stamped};
ghost use Rattle.vyrd_base.specs.Histories.{Cells};
ghost use Rattle.vyrd_mover.specs.RaceFree.{is_race_free};
ghost use Rattle.vyrd_mover.specs.Usage.{IsUse, used_by, unused, joined, is_shared};

use crate::lock_set::LockSet;
use std::alloc::{AllocError, Global};
use std::marker::Model;

/// Who has used a cell so far.
#[derive(Clone, Copy)]
pub(crate) enum Users {
    /// Nobody has.
    Nobody,
    /// This caller alone.
    One(u32),
    /// Two callers or more.
    Many,
}

/// How a plain cell has been used so far.
#[derive(Drop)]
pub(crate) struct Usage {
    users: Users,
    written: bool,
    /// Once somebody has used the cell: the locks that each user held.
    guards: LockSet,
}

impl Model for Usage {
    ghost use Rattle.vyrd_mover.specs.Usage.{Use};

    ghost Value = { Use };

    ghost view = { λ s. record { users = s.users; written = s.written; guards = s.guards } };
}

impl Usage {
    /// The cell hasn't been used.
    pub fn new(alloc: Global) -> Usage
        ensures { result ≡ unused }
    {
        Usage {
            users: Users::Nobody,
            written: false,
            guards: LockSet::new(alloc),
        }
    }

    /// A caller, who holds these locks, uses the cell.
    pub fn see(&mut self, caller: u32, is_write: bool, held: &LockSet) -> Result<(), AllocError>
        ensures ok { OnOk result (self.new ≡ used_by held.now caller is_write self.old) }
        ensures err { OnErr result (self.new ≡ self.old) }
    {
        if let Users::Nobody = self.users {
            self.guards = held.duplicate()?;
        } else {
            self.guards.intersect_with(held);
        }
        self.users = self.users.join(caller);
        self.written = self.written || is_write;
        Ok(())
    }

    /// Whether one caller alone has used the cell, or nobody has written it, or some lock was held
    /// by each user.
    pub fn is_race_free(&self) -> bool
        ensures { (cells : Cells) (seen : List Stamped) (cell : ℕ)
            → IsUse cells seen cell self.now → 0 < cells.callers
            → result ≡ is_race_free cells seen cell }
    {
        !self.users.are_many() || !self.written || !self.guards.is_empty()
    }
}

impl Users {
    /// Whether two callers or more have used the cell.
    fn are_many(self) -> bool
        ensures { result ≡ is_shared self }
    {
        matches!(self, Users::Many)
    }

    /// One more caller uses the cell.
    fn join(self, caller: u32) -> Users
        ensures { result ≡ joined self caller }
    {
        match self {
            Users::Nobody => Users::One(caller),
            Users::One(user) if user == caller => self,
            _ => Users::Many,
        }
    }
}
