//! Amounts of the keys from 0 on, each in its key's place. A key with the amount 0 isn't there.

ghost use Rattle.std.specs.Prelude.{◌≡◌, ◌<◌, length, replicate, IfOk};
ghost use Rattle.vyrd_base.specs.Amounts.{amount_of, with_amount};
ghost use Rattle.vyrd_spec.specs.Rows.{row_amounts};

use std::alloc::{AllocError, Global};
use vyrd_base::View;

/// Places for this many keys, none of which is there.
pub(crate) fn empty_row(alloc: Global, count: usize) -> Result<Vec<u64>, AllocError>
    ensures { IfOk result (λ row. row.items ≡ replicate count 0) }
{
    vec![in alloc; 0; count]
}

/// The amount of the key, and 0 past the places.
pub(crate) fn amount_at(row: &[u64], key: u64) -> u64
    ensures { result ≡ amount_of (row_amounts row.now) key }
{
    row.get(key as usize).copied().unwrap_or(0)
}

/// The key has this amount now.
pub(crate) fn set_amount(row: &mut Vec<u64>, key: usize, amount: u64)
    requires { key < length row.old.items }
    ensures amounts { row_amounts row.new.items
        ≡ with_amount (row_amounts row.old.items) key amount }
    ensures count { length row.new.items ≡ length row.old.items }
{
    row[key] = amount;
}

/// The keys that are there, with their amounts.
pub(crate) fn row_shown(alloc: Global, row: &[u64]) -> Result<View, AllocError>
    ensures { IfOk result (λ v. v ≡ row_amounts row.now) }
{
    let mut view = View::new(alloc);
    for key in 0..row.len() {
        if row[key] != 0 {
            view.push(key as u64, row[key])?;
        }
    }
    Ok(view)
}
