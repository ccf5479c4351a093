//! Why the logs of a batch weren't found.

use std::alloc::AllocError;
use std::error::Error;
use std::fmt;

/// Why the logs of a batch weren't found.
#[derive(Clone, Copy, Debug, PartialEq, Eq)]
pub enum BatchFault {
    /// The bytes aren't a batch: neither this log nor the end stands where it should. Logs count
    /// from 0.
    Refused { log: u64 },
    /// There was no memory for the spans.
    Memory,
}

impl fmt::Display for BatchFault {
    fn fmt<W: fmt::Write>(&self, f: &mut fmt::Formatter<W>) -> fmt::Result {
        match self {
            BatchFault::Refused { log } => write!(f, "batch refused at log {log}"),
            BatchFault::Memory => write!(f, "out of memory"),
        }
    }
}

impl Error for BatchFault {}

impl From<AllocError> for BatchFault {
    ghost use Rattle.std.specs.Prelude.{◌≡◌};
    ghost use Rattle.vyrd_batch.specs.declared.fault.BatchFault.TheVariants.{Memory};

    ghost from_gives = { λ _ e. e ≡ Memory };

    fn from(_: AllocError) -> BatchFault {
        BatchFault::Memory
    }
}
