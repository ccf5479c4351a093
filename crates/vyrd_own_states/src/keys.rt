//! The keys that are read, and the replies that are tried.

ghost use Rattle.std.specs.Prelude.{◌≡◌, IfOk};
ghost use Rattle.vyrd_own_states.specs.OwnReplies.{shown_key, hidden_key, shown_keys, hidden_keys};
ghost use Rattle.vyrd_own_states.specs.OwnReplies.{tried};

use crate::once::push_once;
use std::alloc::{AllocError, Global};
use vyrd_own::{Reads, Worth};

/// The keys of which a shown amount is read, each once. It takes time in proportion to the square of
/// what is read.
pub(crate) fn shown_keys(alloc: Global, worths: &[Worth]) -> Result<Vec<u64>, AllocError>
    ensures { IfOk result (λ keys. keys.items ≡ shown_keys worths.now) }
{
    let mut keys = Vec::new(alloc);
    for worth in worths {
        if let Some(key) = shown_key(worth.reads) {
            push_once(key, &mut keys)?;
        }
    }
    Ok(keys)
}

/// The same of hidden amounts.
pub(crate) fn hidden_keys(alloc: Global, worths: &[Worth]) -> Result<Vec<u64>, AllocError>
    ensures { IfOk result (λ keys. keys.items ≡ hidden_keys worths.now) }
{
    let mut keys = Vec::new(alloc);
    for worth in worths {
        if let Some(key) = hidden_key(worth.reads) {
            push_once(key, &mut keys)?;
        }
    }
    Ok(keys)
}

/// The replies that are tried. It takes time in proportion to the square of what is read.
pub(crate) fn tried(alloc: Global, worths: &[Worth]) -> Result<Vec<u64>, AllocError>
    ensures { IfOk result (λ replies. replies.items ≡ tried worths.now) }
{
    let mut replies = vec![in alloc; 0, 1, 2]?;
    for worth in worths {
        push_once(worth.value, &mut replies)?;
    }
    Ok(replies)
}

/// The key of a shown amount.
fn shown_key(reads: Reads) -> Option<u64>
    ensures { result ≡ shown_key reads }
{
    match reads {
        Reads::Shown(key) => Some(key),
        Reads::Hidden(_) | Reads::Nothing => None,
    }
}

/// The key of a hidden amount.
fn hidden_key(reads: Reads) -> Option<u64>
    ensures { result ≡ hidden_key reads }
{
    match reads {
        Reads::Hidden(key) => Some(key),
        Reads::Shown(_) | Reads::Nothing => None,
    }
}
