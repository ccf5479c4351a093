//! String buffers.

ghost use Rattle.std.specs.Prelude.{◌≡◌, ◌≤◌};

use crate::decode::{Decode, NOTHING};
use vyrd_base::{BUFFER_WORDS, buffer_text};

/// What words that aren't a buffer give to the key past the buffers.
const DAMAGED: u64 = 1;

/// String buffers, as many as the size. A buffer gives its text to its own key, and words that
/// aren't a buffer give 1 to a key past the buffers.
#[derive(Clone, Copy)]
pub(crate) struct Buffers {
    size: usize,
    ghost small: { size ≤ 1024 },
}

impl Buffers {
    /// That many buffers.
    pub(crate) fn new(size: usize) -> Buffers
        requires { size ≤ 1024 }
        ensures { result.size ≡ size }
    {
        Buffers { size }
    }
}

impl Decode for Buffers {
    ghost use Rattle.vyrd_base.specs.declared.subject.Subject.TheVariants.{Buffers as OfBuffers};
    ghost use Rattle.std.specs.Prelude.{refl};
    ghost use Rattle.vyrd_view.specs.Known.{of_subject};
    ghost use Rattle.vyrd_view.specs.Pairs.{buffer_gives};
    ghost use Rattle.vyrd_view.specs.Laws.Buffers.{buffers_narrow, buffers_bounded, buffers_few};
    ghost use Rattle.vyrd_view.specs.Laws.Buffers.{buffers_show};

    ghost width = { λ buffers. 8 };

    ghost places = { λ buffers. 1 };

    ghost most_places = { λ shows. 1 };

    ghost parts = { λ buffers. buffers.size };

    ghost gives = { λ buffers. buffer_gives buffers.size };

    ghost shows = { λ buffers. of_subject OfBuffers buffers.size };

    ghost narrow = { λ buffers. buffers_narrow };

    ghost bounded = { λ buffers. buffers_bounded };

    ghost few = { λ buffers. buffers_few buffers.size buffers.small };

    ghost quiet = { λ buffers part j. refl };

    ghost shown = { λ buffers words count. buffers_show buffers.size words };

    #[inline(always)]
    fn width(&self) -> usize {
        BUFFER_WORDS
    }

    #[inline(always)]
    fn places(&self) -> usize {
        1
    }

    #[inline(always)]
    fn parts(&self) -> usize {
        self.size
    }

    #[inline(always)]
    fn decode(&self, part: usize, words: &[u64]) -> [(u64, u64); 4] {
        let pair = match buffer_text(words, 0) {
            Some(text) => (part as u64, text),
            None => ((self.size + part) as u64, DAMAGED),
        };
        [pair, NOTHING, NOTHING, NOTHING]
    }
}
