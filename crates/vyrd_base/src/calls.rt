//! The numbered calls of a device in memory, some of which are made to fail.

ghost use Rattle.std.specs.Prelude.{◌≡◌, IfOk};
ghost use Rattle.vyrd_base.specs.Devices.{next_count, fails_next};

use crate::device::Failed;
use std::alloc::{AllocError, Global};

/// Counts the calls from 1 on, and the faults. Both counts stay at 2^64 - 1.
#[derive(Debug, Drop)]
pub(crate) struct Calls {
    pub(crate) failing: Vec<u64>,
    pub(crate) faults: u64,
    pub(crate) made: u64,
}

impl Calls {
    /// No call was made yet, and those with these numbers will fail.
    pub(crate) fn new(alloc: Global, failing: &[u64]) -> Result<Calls, AllocError>
        ensures failing { IfOk result (λ c. c.failing.items ≡ failing.now) }
        ensures faults { IfOk result (λ c. c.faults ≡ 0) }
        ensures made { IfOk result (λ c. c.made ≡ 0) }
    {
        Ok(Calls {
            failing: Vec::from_slice(alloc, failing)?,
            faults: 0,
            made: 0,
        })
    }

    /// Begins the next call, and says whether it fails.
    pub(crate) fn next_fails(&mut self) -> bool
        ensures answer { result ≡ fails_next self.old.made self.old.failing.items }
        ensures made { self.new.made ≡ next_count self.old.made }
        ensures failing { self.new.failing.items ≡ self.old.failing.items }
        ensures faults { self.new.faults ≡ self.old.faults }
    {
        self.made = self.made.saturating_add(1);
        self.failing.contains(&self.made)
    }

    /// Counts a fault.
    pub(crate) fn fault(&mut self) -> Failed
        ensures failing { self.new.failing.items ≡ self.old.failing.items }
        ensures made { self.new.made ≡ self.old.made }
        ensures counted { self.new.faults ≡ next_count self.old.faults }
    {
        self.faults = self.faults.saturating_add(1);
        Failed
    }
}
