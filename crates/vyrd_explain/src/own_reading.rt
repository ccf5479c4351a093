//! Reading the entries of a log of version 3, piece by piece.

ghost use Rattle.std.specs.Prelude.{◌≡◌, ◌++◌, ℕ, List, IfOk, OnOk, is_some};
ghost use Rattle.vyrd_own_log.specs.Readers.{HasRead};
ghost use Rattle.vyrd_own_log.specs.ReaderView.{state_in};
ghost use Rattle.vyrd_explain.specs.Explained.{own_read_as};
ghost use Rattle.vyrd_explain.specs.Explaining.{own_limit};

use std::alloc::AllocError;
use vyrd_base::Entry;
use vyrd_own_log::OwnLogReader;
use vyrd_text::TextFault;

/// Reads the next piece, and appends its entries and the numbers of its lines. The answer is whether
/// nothing more is read, since a line breaks a rule of text.
pub(crate) fn own_read_on(
    reader: &mut OwnLogReader,
    piece: &[u8],
    entries: &mut Vec<Entry>,
    numbers: &mut Vec<u64>,
) -> Result<bool, AllocError>
    ensures limit { own_limit reader.new ≡ own_limit reader.old }
    ensures read { (bytes : List ℕ) → HasRead (state_in reader.old) bytes
        → OnOk result (HasRead (state_in reader.new) (bytes ++ piece.now)) }
    ensures entries { (bytes : List ℕ) → HasRead (state_in reader.old) bytes
        → entries.old.items ≡ (own_read_as (own_limit reader.old) bytes).entries
        → OnOk result (entries.new.items
        ≡ (own_read_as (own_limit reader.old) (bytes ++ piece.now)).entries) }
    ensures numbers { (bytes : List ℕ) → HasRead (state_in reader.old) bytes
        → numbers.old.items ≡ (own_read_as (own_limit reader.old) bytes).numbers
        → OnOk result (numbers.new.items
        ≡ (own_read_as (own_limit reader.old) (bytes ++ piece.now)).numbers) }
    ensures stops { (bytes : List ℕ) → HasRead (state_in reader.old) bytes → IfOk result
        (λ is. is ≡ is_some (own_read_as (own_limit reader.old) (bytes ++ piece.now)).fault) }
{
    match reader.feed(piece, entries, numbers) {
        Ok(()) => Ok(false),
        Err(TextFault::Malformed { .. }) => Ok(true),
        Err(TextFault::Memory) => Err(AllocError),
    }
}
