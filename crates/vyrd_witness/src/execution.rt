//! The execution of a caller that is open at a place of a log.

ghost use Rattle.std.specs.Prelude.{◌≡◌, ◌≤◌, length, take, drop};
ghost use Rattle.vyrd_base.specs.Places.{newest_first};
ghost use Rattle.vyrd_witness.specs.Executions.{begun_in, next_return, execution_in};

use crate::effect::entry_at;
use vyrd_base::{Args, Entry, Kind, Method};

/// A call with the position of its entry, from 0.
#[derive(Clone, Copy)]
pub(crate) struct Begun {
    pub at: usize,
    pub method: Method,
    pub args: Args,
}

/// A return with the position of its entry, from 0.
#[derive(Clone, Copy, Debug, PartialEq, Eq)]
pub struct Returned {
    pub at: usize,
    pub reply: u64,
}

/// An execution: who called what, and the positions of its entries, from 0.
#[derive(Clone, Copy, Debug, PartialEq, Eq)]
pub struct Execution {
    pub caller: u32,
    pub called_at: usize,
    pub method: Method,
    pub args: Args,
    /// `None` if it doesn't return.
    pub returned: Option<Returned>,
}

/// The caller's execution that is open before the entry at a position, `None` if there is none. It
/// may return with that entry, or behind it.
///
/// Time is in proportion to the entries from the call to the return, or to the log's end if it
/// doesn't return. If there is none, it is that of the entries since the caller's last return, or
/// of all before the position.
pub fn execution_of(log: &[Entry], at: usize, caller: u32) -> Option<Execution>
    requires { at ≤ length log.now }
    ensures { result ≡ execution_in log.now at caller }
{
    let (before, _) = log.split_at(at);
    let begun = begun_in(caller, before)?;
    Some(Execution {
        caller,
        called_at: begun.at,
        method: begun.method,
        args: begun.args,
        returned: next_return(caller, at, log),
    })
}

/// The caller's call that these entries leave open. They are gone over from the end back to that
/// call, or to the caller's last return.
#[tactic(auto, using(crate::proofs::BegunLaws::begun_back))]
pub(crate) fn begun_in(caller: u32, before: &[Entry]) -> Option<Begun>
    ensures { result ≡ begun_in caller (newest_first before.now) }
{
    for i in 0..before.len() {
        let at = before.len() - 1 - i;
        let entry = entry_at(before, at);
        if entry.caller == caller {
            match entry.kind {
                Kind::Call(method, args) => return Some(Begun { at, method, args }),
                Kind::Return(_) => return None,
                _ => {}
            }
        }
    }
    None
}

/// The caller's next return from this position on.
fn next_return(caller: u32, from: usize, log: &[Entry]) -> Option<Returned>
    requires { from ≤ length log.now }
    ensures { result ≡ next_return caller from (drop from log.now) }
{
    for at in from..log.len() {
        let entry = log[at];
        if entry.caller == caller {
            if let Kind::Return(reply) = entry.kind {
                return Some(Returned { at, reply });
            }
        }
    }
    None
}
