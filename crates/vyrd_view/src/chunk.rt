//! One chunk of a cache.

ghost use Rattle.std.specs.Prelude.{◌≡◌, ◌≤◌, ◌==◌, true, length};
ghost use Rattle.vyrd_base.specs.Cache.{chunk_at, is_chunk, cached_pair, stored_pair};

use std::marker::Model;

/// The state of a chunk that isn't cached.
const ABSENT: u64 = 0;

/// The state of a chunk whose cached pair is to be the stored one.
const CLEAN: u64 = 1;

/// The state of a chunk whose cached pair may be newer than the stored one. It is the greatest.
const DIRTY: u64 = 2;

/// What the halves of a pair are below.
const HALF_END: u64 = 1 << 32;

/// The five words of a chunk.
#[derive(Drop)]
pub(crate) struct Chunk {
    state: u64,
    cached_lo: u64,
    cached_hi: u64,
    stored_lo: u64,
    stored_hi: u64,
}

impl Model for Chunk {
    ghost use Rattle.vyrd_base.specs.Cache as definitions;

    ghost Value = { definitions.Chunk };

    ghost view = { λ c. record {
      state = c.state;
      cached_lo = c.cached_lo;
      cached_hi = c.cached_hi;
      stored_lo = c.stored_lo;
      stored_hi = c.stored_hi;
    } };
}

impl Chunk {
    /// The chunk that has these words.
    #[inline(always)]
    pub(crate) fn of(words: &[u64]) -> Chunk
        requires { 5 ≤ length words.now }
        ensures { result ≡ chunk_at words.now 0 }
    {
        Chunk {
            state: words[0],
            cached_lo: words[1],
            cached_hi: words[2],
            stored_lo: words[3],
            stored_hi: words[4],
        }
    }

    /// Whether the state is one of the three and each half of a pair is below 2^32.
    pub(crate) fn is_chunk(&self) -> bool
        ensures { result ≡ is_chunk self.now }
    {
        self.state <= DIRTY
            && self.cached_lo < HALF_END
            && self.cached_hi < HALF_END
            && self.stored_lo < HALF_END
            && self.stored_hi < HALF_END
    }

    pub(crate) fn is_absent(&self) -> bool
        ensures { result ≡ (self.now.state == 0) }
    {
        self.state == ABSENT
    }

    pub(crate) fn is_clean(&self) -> bool
        ensures { result ≡ (self.now.state == 1) }
    {
        self.state == CLEAN
    }

    /// The cached pair as one number.
    pub(crate) fn cached_pair(&self) -> u64
        requires { is_chunk self.now ≡ true }
        ensures { result ≡ cached_pair self.now }
    {
        self.cached_hi * HALF_END + self.cached_lo
    }

    /// The stored pair as one number.
    pub(crate) fn stored_pair(&self) -> u64
        requires { is_chunk self.now ≡ true }
        ensures { result ≡ stored_pair self.now }
    {
        self.stored_hi * HALF_END + self.stored_lo
    }
}
