//! Reading the entries of a log, piece by piece.

ghost use Rattle.std.specs.Prelude.{◌≡◌, ◌++◌, ℕ, List, IfOk, OnOk, is_some};
ghost use Rattle.vyrd_text.specs.Readers.{HasRead};
ghost use Rattle.vyrd_explain.specs.Explained.{read_as};

use std::alloc::AllocError;
use vyrd_base::Entry;
use vyrd_text::{LogReader, TextFault};

/// Reads the next piece, and appends its entries. The answer is whether nothing more is read, since
/// a line breaks a rule of text.
pub(crate) fn read_on(
    reader: &mut LogReader,
    piece: &[u8],
    entries: &mut Vec<Entry>,
) -> Result<bool, AllocError>
    ensures limit { reader.new.max_lines ≡ reader.old.max_lines }
    ensures read { (bytes : List ℕ) → HasRead reader.old bytes
        → OnOk result (HasRead reader.new (bytes ++ piece.now)) }
    ensures entries { (bytes : List ℕ) → HasRead reader.old bytes
        → entries.old.items ≡ (read_as reader.old.max_lines bytes).entries
        → OnOk result
        (entries.new.items ≡ (read_as reader.old.max_lines (bytes ++ piece.now)).entries) }
    ensures stops { (bytes : List ℕ) → HasRead reader.old bytes
        → IfOk result
        (λ is. is ≡ is_some (read_as reader.old.max_lines (bytes ++ piece.now)).fault) }
{
    match reader.feed(piece, entries) {
        Ok(()) => Ok(false),
        Err(TextFault::Malformed { .. }) => Ok(true),
        Err(TextFault::Memory) => Err(AllocError),
    }
}
