//! The text of a buffer that is read.

ghost use Rattle.std.specs.Prelude.{◌≡◌, ◌<◌, ◌≤◌, ◌+◌, ◌^◌, ◌%◌};

/// The text of a buffer, as far as it is read, and how many characters are to be read in all.
/// Character i counts (character + 1) * 256^i.
#[derive(Clone, Copy)]
pub(crate) struct Text {
    pub(crate) number: u64,
    pub(crate) read: u32,
    pub(crate) of: u32,
    ghost few: { of ≤ 7 },
    ghost within: { read ≤ of },
    ghost small: { number < 256 ^ read },
}

impl Text {
    ghost use Rattle.std.specs.Prelude.{◌*◌, MatchOption};

    /// Nothing is read of this many characters.
    pub(crate) fn none_of(of: u32) -> Text
        requires { of ≤ 7 }
        ensures number { result.number ≡ 0 }
        ensures read { result.read ≡ 0 }
        ensures of { result.of ≡ of }
    {
        Text {
            number: 0,
            read: 0,
            of,
        }
    }

    /// The number of the character that is to be read next, if one is left.
    pub(crate) fn next(self) -> Option<u32>
        ensures { MatchOption result (self.read ≡ self.of)
            (λ number. (number ≡ self.read) × (self.read < self.of)) }
    {
        if self.read < self.of {
            Some(self.read)
        } else {
            None
        }
    }

    /// With the next character.
    pub(crate) fn with(self, character: u64) -> Text
        requires { self.read < self.of }
        ensures number { result.number ≡ self.number + (character % 255 + 1) * 256 ^ self.read }
        ensures read { result.read ≡ self.read + 1 }
        ensures of { result.of ≡ self.of }
    {
        Text {
            number: self.number + digit(character) * 256u64.pow(self.read),
            read: self.read + 1,
            of: self.of,
        }
    }
}

/// The digit of a character, to the base 256. A character that isn't below 255 is cut to one that
/// is.
fn digit(character: u64) -> u64
    ensures digit { result ≡ character % 255 + 1 }
    ensures small { result ≤ 255 }
{
    character % 255 + 1
}
