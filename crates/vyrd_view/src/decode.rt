//! How words are decoded, part by part.

ghost use Rattle.std.specs.Prelude.{◌≡◌, ℕ, ◌*◌, ◌<◌, ◌≤◌, ◌^◌, List, length, replicate};
ghost use Rattle.std.specs.Prelude.{slice_index_or};
ghost use Rattle.vyrd_base.specs.Amounts.{collected};
ghost use Rattle.vyrd_view.specs.Decoded.{Gives, pairs_by};
ghost use Rattle.vyrd_view.specs.Known.{Shows, view_by};

/// A pair that gives nothing.
pub(crate) const NOTHING: (u64, u64) = (0, 0);

/// How the words of a structure are decoded. They consist of parts, one after another, with as many
/// words each. What a part gives follows from its number and its own words: a key and an amount in
/// each of its places.
///
/// A type says how one part is decoded, and no more: which parts are decoded again after a change
/// is the same for all, in `ByParts`.
pub trait Decode: Sized + Drop {
    // How many words a part has.
    ghost width: { Self → ℕ };

    // How many places a part has.
    ghost places: { Self → ℕ };

    // How many parts there are.
    ghost parts: { Self → ℕ };

    // What a part gives, in each of its places.
    ghost gives: { Self → Gives };

    // What all the words show, by its name.
    ghost shows: { Self → Shows };

    // How many places a part has at most, by the name of what the words show.
    ghost most_places: { Shows → ℕ };

    /// How many words a part has: at most 64.
    fn width(&self) -> usize
        ensures { result ≡ width self.now };

    /// How many places a part has: at most 4.
    fn places(&self) -> usize
        ensures { result ≡ places self.now };

    /// How many parts there are.
    fn parts(&self) -> usize
        ensures { result ≡ parts self.now };

    /// What a part with these words gives, place by place. A pair whose amount is 0 gives nothing.
    /// The pairs past the part's places are never looked at.
    fn decode(&self, part: usize, words: &[u64]) -> [(u64, u64); 4]
        requires part { part < parts self.now }
        requires count { length words.now ≡ width self.now }
        ensures { (j : ℕ) → j < places self.now
            → slice_index_or result j (0, 0) ≡ gives self.now part words.now j };

    // A part has words and places, and not too many of them.
    ghost narrow: { (d : Self)
        → (1 ≤ width d) × (width d ≤ 64) × (1 ≤ places d) × (places d ≤ 4) };

    // The name of what the words show bounds the places.
    ghost bounded: { (d : Self) → places d ≤ most_places (shows d) };

    // There are at most 2^20 parts.
    ghost few: { (d : Self) → parts d ≤ 2 ^ 20 };

    // A part of zeroed words gives nothing, whatever its keys are.
    ghost quiet: { (d : Self) (part j : ℕ) → (gives d part (replicate (width d) 0) j).1 ≡ 0 };

    // The words show what all parts give.
    ghost shown: { (d : Self) (words : List ℕ) → length words ≡ parts d * width d
        → collected (pairs_by (width d) (places d) (parts d) (gives d) words)
        ≡ view_by (shows d) words };
}
