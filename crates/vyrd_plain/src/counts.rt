//! The numbers of an accepted log.

ghost use Rattle.std.specs.Prelude.{◌≡◌, ◌<◌, ◌+◌, ◌&&◌, not, Bool, length, IfOk, None, Some};
ghost use Rattle.std.specs.Prelude.{slice_get, slice_index_or, vec_len};
ghost use Rattle.vyrd_base.specs.declared.header.Header.{Header};
ghost use Rattle.vyrd_base.specs.Front.{first_break};
ghost use Rattle.vyrd_base.specs.Commits.{commit_count, is_commit};
ghost use Rattle.vyrd_base.specs.declared.log.Entry.{Entry};
ghost use Rattle.vyrd_base.specs.Verdicts.{accepted, is_return, observer_count};
ghost use Rattle.vyrd_plain.specs.Committed.{committed_after};

use std::alloc::{AllocError, Global};
use vyrd_base::{Entry, Header, Kind, Verdict};

/// The answer that a log which keeps all rules is accepted, with its numbers of entries, commits
/// and returns without a commit. It goes over the entries twice, and takes a flag for each caller.
pub(crate) fn accepted(
    alloc: Global,
    header: Header,
    entries: &[Entry],
) -> Result<Verdict, AllocError>
    requires { first_break header entries.now ≡ None }
    ensures { IfOk result (λ verdict. verdict ≡ accepted entries.now) }
{
    Ok(Verdict::Accepted {
        entries: entries.len() as u64,
        commits: commit_count(entries),
        observers: observer_count(alloc, header, entries)?,
    })
}

/// Whether an entry of this kind commits.
fn is_commit(kind: Kind) -> bool
    ensures { result ≡ is_commit kind }
{
    matches!(kind, Kind::Commit | Kind::BlockCommit)
}

/// How many commits there are.
fn commit_count(entries: &[Entry]) -> u64
    ensures { result ≡ commit_count entries.now }
{
    entries.iter().filter(|e| is_commit(e.kind)).count() as u64
}

/// How many executions have returned without a commit.
fn observer_count(alloc: Global, header: Header, entries: &[Entry]) -> Result<u64, AllocError>
    requires { first_break header entries.now ≡ None }
    ensures { IfOk result (λ n. n ≡ observer_count entries.now) }
{
    let mut committed = vec![in alloc; false; header.callers() as usize]?;
    let mut count = 0u64;
    for at in 0..entries.len() {
        let entry = entry_at(entries, at);
        if observer_returns(&mut committed, entry) {
            count += 1;
        }
    }
    Ok(count)
}

/// Whether an execution returns with this entry and has no commit, with each caller that has
/// committed before it. They become those after it.
fn observer_returns(committed: &mut Vec<bool>, entry: Entry) -> bool
    requires { entry.caller < vec_len committed.old }
    ensures returns { (b : Bool) → slice_get committed.old.items entry.caller ≡ Some b
        → result ≡ (is_return entry.kind && not b) }
    ensures after { committed.new.items
        ≡ committed_after committed.old.items entry.caller entry.kind }
    ensures all { vec_len committed.new ≡ vec_len committed.old }
{
    let caller = entry.caller as usize;
    let had_committed = committed[caller];
    match entry.kind {
        Kind::Call(..) | Kind::Return(_) => committed[caller] = false,
        Kind::Commit | Kind::BlockCommit => committed[caller] = true,
        Kind::Write(..) | Kind::BlockOpen | Kind::BlockClose => {}
    }
    !had_committed && matches!(entry.kind, Kind::Return(_))
}

/// The entry at a place. If the log keeps all rules, its caller is one of the header's.
fn entry_at(entries: &[Entry], at: usize) -> Entry
    requires { at < length entries.now }
    ensures entry { (d : Entry) → slice_index_or entries.now at d ≡ result }
    ensures caller { (h : Header) → first_break h entries.now ≡ None → result.caller < h.callers }
{
    entries[at]
}
