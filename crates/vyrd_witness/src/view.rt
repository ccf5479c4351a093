//! The witness of a view that differs at a key.

ghost use Rattle.std.specs.Prelude.{◌≡◌, ◌+◌, ◌<◌, ◌≤◌, ◌^◌, length, IfOk, IfSome, None};
ghost use Rattle.vyrd_base.specs.Commits.{is_commit};
ghost use Rattle.vyrd_base.specs.Front.{first_break};
ghost use Rattle.vyrd_base.specs.Rules.{rules_by};
ghost use Rattle.vyrd_witness.specs.ViewWitnesses.{IsViewWitness, commit_before, up_to};

use crate::change::{Change, Followed};
use crate::effect::entry_at;
use crate::shown::Shown;
use crate::walk::Walk;
use std::alloc::{AllocError, Global};
use vyrd_base::{Entry, Kind, StartWord};

/// What of a log has to do with a view that differs at a key. Positions count the entries before,
/// from 0: with s starting words the entry at position p stands on line s + p + 2 of the log's
/// text.
#[derive(Debug, Drop)]
pub struct ViewWitness {
    /// The key.
    pub key: u64,
    /// What the words show of it.
    pub shown: u128,
    /// The parts of the words that give that, each by its number and with what it gives. Parts are
    /// counted from 0: slots, chunks, nodes in the order of the chain, buffers, or the parts of a
    /// user's own specification.
    pub parts: Vec<(usize, u128)>,
    /// The position of the commit before, `None` if there is none.
    pub since: Option<usize>,
    /// What the words showed of the key there, or at the start.
    pub agreed: u128,
    /// In order, the effects since then that changed what the words show of the key. If there is
    /// none, no write since then has changed it.
    pub changes: Vec<Change>,
}

/// The witness of what the words show of a key at the entry at a position of a front. The front
/// keeps all rules of shape, and begins with these starting words; what words show is said by
/// `shown`.
///
/// It is meant for the commit of which a judge has said that the view differs at the key, but
/// speaks of any entry and any key. Where that commit is the first fault of the log, what the words
/// showed at the commit before is what the specification's state had there too (the law
/// `words_and_state_agree_at_a_good_commit`).
///
/// The only error is that memory has run out.
///
/// Time: each entry up to the position is gone over once, and once more for each block that it
/// stands in. Entries after the position are gone over for each block that is open there and has
/// its commit inside it already: up to that block's end. An entry stands within at most one block
/// of each caller. The amount of the key is asked of `shown` at the commit before, and then once
/// for each effect since that gives its word another value; at the end the parts are asked for.
/// Memory: the words, a few bytes for each caller, the writes of one block, the changes, the parts,
/// and what `shown` takes.
pub fn view_witness<S: Shown>(
    alloc: Global,
    shown: &S,
    starting: &[StartWord],
    front: &[Entry],
    at: usize,
    key: u64,
) -> Result<ViewWitness, AllocError>
    requires within { at < length front.now }
    requires kept { first_break (rules_by (S.charter shown.now)).header front.now ≡ None }
    ensures { IfOk result
        (IsViewWitness (S.charter shown.now) starting.now front.now at key) }
{
    let header = shown.header();
    let since = commit_before(front, at);
    let from = entries_up_to(since);
    let mut walk = Walk::new(alloc, header, starting)?;
    walk.pass(alloc, header, front, from)?;
    let agreed = shown.amount(alloc, &walk.words, key)?;
    let mut followed = Followed {
        key,
        amount: agreed,
    };
    let changes = walk.changes(alloc, shown, &mut followed, front, from, at + 1)?;
    let mut parts = Vec::new(alloc);
    shown.put_parts(alloc, &walk.words, key, &mut parts)?;
    Ok(ViewWitness {
        key,
        shown: followed.amount,
        parts,
        since,
        agreed,
        changes,
    })
}

/// Where the commit before a position stands.
fn commit_before(front: &[Entry], at: usize) -> Option<usize>
    requires { at ≤ length front.now }
    ensures position { result ≡ commit_before front.now at }
    ensures before { IfSome result (λ position. position < at) }
{
    let mut found = None;
    for i in 0..at {
        if is_commit(entry_at(front, i).kind) {
            found = Some(i);
        }
    }
    found
}

/// How many entries stand up to a position, and with it: none if there is no position.
fn entries_up_to(position: Option<usize>) -> usize
    requires { IfSome position (λ p. p + 1 < 2 ^ 64) }
    ensures { result ≡ up_to position }
{
    match position {
        Some(position) => position + 1,
        None => 0,
    }
}

/// Whether an entry of this kind commits.
fn is_commit(kind: Kind) -> bool
    ensures { result ≡ is_commit kind }
{
    matches!(kind, Kind::Commit | Kind::BlockCommit)
}
