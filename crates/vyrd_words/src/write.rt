//! A write that waits.

ghost use Rattle.std.specs.Prelude.{◌≡◌, ◌<◌, ◌^◌};

use std::marker::Model;

/// A write to a word that takes effect after a commit that waits. It takes 10 bytes of memory, with
/// the value in bytes: what waits is what grows while an execution stays open and others commit.
#[derive(Drop)]
pub(crate) struct Write {
    word: u16,
    value: [u8; 8],
}

const _: () = prove!(size_of::<Write>() == 10);

impl Model for Write {
    ghost use Rattle.std.specs.Prelude.{ℕ};
    ghost use Rattle.std.specs.Int.{from_le_bytes, w64};

    ghost Value = { ℕ × ℕ };

    ghost view = { λ w. (w.word, from_le_bytes w64 w.value) };
}

impl Write {
    /// A write of this value to a word whose number is below 2^16, as those of all logs are.
    #[inline(always)]
    pub fn new(word: u32, value: u64) -> Write
        requires { word < 2 ^ 16 }
        ensures { result ≡ (word, value) }
    {
        Write {
            word: word as u16,
            value: value.to_le_bytes(),
        }
    }

    /// The word that is written.
    #[inline(always)]
    pub fn word(&self) -> u32
        ensures { result ≡ self.now.0 }
    {
        u32::from(self.word)
    }

    /// The value that the word has from then on.
    #[inline(always)]
    pub fn value(&self) -> u64
        ensures { result ≡ self.now.1 }
    {
        u64::from_le_bytes(self.value)
    }
}
