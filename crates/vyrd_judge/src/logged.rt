//! The log that a history leaves.

ghost use Rattle.std.specs.Prelude.{◌≡◌, IfOk};
ghost use Rattle.vyrd_base.specs.Histories.{logged, log_of};

use std::alloc::{AllocError, Global};
use vyrd_base::{Did, Entry, Kind, Stamped};

/// The log of a history: its marks and its writes, in their order.
pub fn log_of(alloc: Global, history: &[Stamped]) -> Result<Vec<Entry>, AllocError>
    ensures { IfOk result (λ log. log.items ≡ log_of history.now) }
{
    let mut log = Vec::new(alloc);
    for event in history {
        if let Some(entry) = entry_of(*event) {
            log.push(entry)?;
        }
    }
    Ok(log)
}

/// An event as an entry, if it is a mark or a write.
#[inline(always)]
pub fn entry_of(event: Stamped) -> Option<Entry>
    ensures { result ≡ logged event.caller event.did }
{
    let kind = match event.did {
        Did::Wrote(cell, value) => Kind::Write(cell, value),
        Did::Marked(kind) => kind,
        _ => return None,
    };
    Some(Entry {
        caller: event.caller,
        kind,
    })
}
