//! The characters of a buffer that are held on their way into another.

ghost use Rattle.std.specs.Prelude.{◌≤◌};

/// The characters of a buffer, as far as they are loaded, and how many are to be loaded in all.
#[derive(Clone, Copy)]
pub(crate) struct Held {
    pub(crate) characters: [u64; 7],
    pub(crate) loaded: u32,
    pub(crate) of: u32,
    ghost within: { loaded ≤ of },
    ghost few: { of ≤ 7 },
}

impl Held {
    ghost use Rattle.std.specs.Prelude.{◌≡◌, ◌<◌, ◌+◌, MatchOption, [], ◌∷◌, ◌++◌, drop};
    ghost use Rattle.vyrd_buffers.specs.Rests.Loaded.{held_of};

    /// Nothing is loaded of this many characters.
    pub(crate) fn none_of(of: u32) -> Held
        requires { of ≤ 7 }
        ensures held { held_of result ≡ [] }
        ensures loaded { result.loaded ≡ 0 }
        ensures of { result.of ≡ of }
    {
        Held {
            characters: [0; 7],
            loaded: 0,
            of,
        }
    }

    /// The number of the character that is to be loaded next, if one is left.
    pub(crate) fn next(self) -> Option<u32>
        ensures { MatchOption result (self.loaded ≡ self.of)
            (λ number. (number ≡ self.loaded) × (self.loaded < self.of)) }
    {
        if self.loaded < self.of {
            Some(self.loaded)
        } else {
            None
        }
    }

    /// With the next character.
    pub(crate) fn with(self, character: u64) -> Held
        requires { self.loaded < self.of }
        ensures held { held_of result ≡ held_of self ++ character ∷ [] }
        ensures loaded { result.loaded ≡ self.loaded + 1 }
        ensures of { result.of ≡ self.of }
    {
        let mut characters = self.characters;
        characters[self.loaded as usize] = character;
        Held {
            characters,
            loaded: self.loaded + 1,
            of: self.of,
        }
    }

    /// The character of this number, if it is loaded.
    pub(crate) fn character(self, number: u32) -> Option<u64>
        ensures { MatchOption result (drop number (held_of self) ≡ []) (λ character.
            drop number (held_of self) ≡ character ∷ drop (number + 1) (held_of self)) }
    {
        if number < self.loaded {
            Some(self.characters[number as usize])
        } else {
            None
        }
    }
}
