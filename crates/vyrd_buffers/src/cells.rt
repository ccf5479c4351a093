//! The cells of buffers.

ghost use Rattle.std.specs.Prelude.{◌≡◌, ◌<◌, ◌^◌};
ghost use Rattle.vyrd_buffers.specs.Cells.{count_cell, character_cell, lock_of};

use vyrd_base::Header;

/// How many words a buffer has, as a count of cells.
const BUFFER_WORDS: u32 = vyrd_base::BUFFER_WORDS as u32;

/// The cell of a buffer's count.
pub(crate) fn count_cell(buffer: u32) -> u32
    requires { count_cell buffer < 2 ^ 32 }
    ensures { result ≡ count_cell buffer }
{
    BUFFER_WORDS * buffer
}

/// The cell of a buffer's character of this number, from 0 on.
pub(crate) fn character_cell(buffer: u32, number: u32) -> u32
    requires { character_cell buffer number < 2 ^ 32 }
    ensures { result ≡ character_cell buffer number }
{
    BUFFER_WORDS * buffer + (1 + number)
}

/// The cell of a buffer's lock.
pub(crate) fn lock_of(header: &Header, buffer: u32) -> u32
    requires { lock_of header.now buffer < 2 ^ 32 }
    ensures { result ≡ lock_of header.now buffer }
{
    BUFFER_WORDS * header.size() + buffer
}
