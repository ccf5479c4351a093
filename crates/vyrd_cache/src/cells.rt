//! The cells of chunks.

ghost use Rattle.std.specs.Prelude.{◌≡◌, ◌<◌, ◌^◌};
ghost use Rattle.vyrd_cache.specs.Cells.{state_cell, cached_low, stored_low, lock_of};

use vyrd_base::Header;

/// The state of a chunk whose pair is in the store alone.
pub(crate) const ABSENT: u64 = 0;
/// The state of a chunk whose pair in the cache is the one in the store.
pub(crate) const CLEAN: u64 = 1;
/// The state of a chunk whose pair in the cache isn't stored yet.
pub(crate) const DIRTY: u64 = 2;

/// How many words a chunk has: its state, the pair in the cache and the pair in the store, each
/// with the lower half first.
const CHUNK_WORDS: u32 = 5;

/// The cell of a chunk's state.
pub(crate) fn state_cell(chunk: u32) -> u32
    requires { state_cell chunk < 2 ^ 32 }
    ensures { result ≡ state_cell chunk }
{
    CHUNK_WORDS * chunk
}

/// The cell of the lower half of the pair in the cache. The upper half is in the next one.
pub(crate) fn cached_low(chunk: u32) -> u32
    requires { cached_low chunk < 2 ^ 32 }
    ensures { result ≡ cached_low chunk }
{
    CHUNK_WORDS * chunk + 1
}

/// The cell of the lower half of the pair in the store. The upper half is in the next one.
pub(crate) fn stored_low(chunk: u32) -> u32
    requires { stored_low chunk < 2 ^ 32 }
    ensures { result ≡ stored_low chunk }
{
    CHUNK_WORDS * chunk + 3
}

/// The cell of a chunk's lock.
pub(crate) fn lock_of(header: &Header, chunk: u32) -> u32
    requires { lock_of header.now chunk < 2 ^ 32 }
    ensures { result ≡ lock_of header.now chunk }
{
    CHUNK_WORDS * header.size() + chunk
}
