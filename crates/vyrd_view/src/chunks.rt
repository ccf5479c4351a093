//! The chunks of a cache.

ghost use Rattle.std.specs.Prelude.{◌≡◌, ◌≤◌};
ghost use Rattle.vyrd_view.specs.Pairs.{chunk_amount, chunk_flaw};

use crate::chunk::Chunk;
use crate::decode::{Decode, NOTHING};

/// What is amiss with a clean chunk whose pairs differ.
const UNEQUAL: u64 = 1;

/// What is amiss with five words that aren't a chunk.
const DAMAGED: u64 = 2;

/// The chunks of a cache of this size. A chunk gives its pair to its own key, and what is amiss
/// with it to a key past the chunks.
#[derive(Clone, Copy)]
pub(crate) struct Chunks {
    size: usize,
    ghost small: { size ≤ 1024 },
}

impl Chunks {
    /// That many chunks.
    pub(crate) fn new(size: usize) -> Chunks
        requires { size ≤ 1024 }
        ensures { result.size ≡ size }
    {
        Chunks { size }
    }
}

impl Decode for Chunks {
    ghost use Rattle.vyrd_base.specs.declared.subject.Subject.TheVariants.{Cache};
    ghost use Rattle.vyrd_view.specs.Known.{of_subject};
    ghost use Rattle.vyrd_view.specs.Pairs.{chunk_gives};
    ghost use Rattle.vyrd_view.specs.Laws.Chunks.{chunks_narrow, chunks_bounded, chunks_few};
    ghost use Rattle.vyrd_view.specs.Laws.Chunks.{quiet_chunk};
    ghost use Rattle.vyrd_view.specs.Laws.Chunks.{chunks_show};

    ghost width = { λ chunks. 5 };

    ghost places = { λ chunks. 2 };

    ghost most_places = { λ shows. 2 };

    ghost parts = { λ chunks. chunks.size };

    ghost gives = { λ chunks. chunk_gives chunks.size };

    ghost shows = { λ chunks. of_subject Cache chunks.size };

    ghost narrow = { λ chunks. chunks_narrow };

    ghost bounded = { λ chunks. chunks_bounded };

    ghost few = { λ chunks. chunks_few chunks.size chunks.small };

    ghost quiet = { λ chunks. quiet_chunk chunks.size };

    ghost shown = { λ chunks words count. chunks_show chunks.size words };

    #[inline(always)]
    fn width(&self) -> usize {
        5
    }

    #[inline(always)]
    fn places(&self) -> usize {
        2
    }

    #[inline(always)]
    fn parts(&self) -> usize {
        self.size
    }

    #[inline(always)]
    fn decode(&self, part: usize, words: &[u64]) -> [(u64, u64); 4] {
        let shown = decoded_chunk(&Chunk::of(words));
        let own = (part as u64, shown.amount);
        let past = ((self.size + part) as u64, shown.flaw);
        [own, past, NOTHING, NOTHING]
    }
}

/// What a chunk shows under its own key, and under the key past the chunks.
#[derive(Clone, Copy)]
struct ShownChunk {
    amount: u64,
    flaw: u64,
}

/// What a chunk shows.
#[inline(always)]
fn decoded_chunk(chunk: &Chunk) -> ShownChunk
    ensures amount { result.amount ≡ chunk_amount chunk.now }
    ensures flaw { result.flaw ≡ chunk_flaw chunk.now }
{
    if !chunk.is_chunk() {
        return ShownChunk {
            amount: 0,
            flaw: DAMAGED,
        };
    }
    let cached = chunk.cached_pair();
    let stored = chunk.stored_pair();
    ShownChunk {
        amount: if chunk.is_absent() { stored } else { cached },
        flaw: if chunk.is_clean() && cached != stored {
            UNEQUAL
        } else {
            0
        },
    }
}
