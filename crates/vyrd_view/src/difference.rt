//! Where two views differ.

ghost use Rattle.std.specs.Prelude.{◌≡◌, option_map, slice_get};
ghost use Rattle.vyrd_base.specs.Amounts.{first_difference as least_difference};

use vyrd_base::View;

/// The least key at which two views differ, or none if they are equal. It takes no memory, and time
/// in proportion to the pairs that the views have in common at their front.
pub fn first_difference(a: &View, b: &View) -> Option<u64>
    ensures { result ≡ least_difference a.now b.now }
{
    let ours = a.pairs();
    let theirs = b.pairs();
    for (x, y) in ours.iter().zip(theirs) {
        if x.0 != y.0 || x.1 != y.1 {
            return Some(x.0.min(y.0));
        }
    }
    key_at(ours, theirs.len()).or(key_at(theirs, ours.len()))
}

/// The key in this place, if there is one.
fn key_at(pairs: &[(u64, u64)], place: usize) -> Option<u64>
    ensures { result ≡ option_map (λ pair. pair.0) (slice_get pairs.now place) }
{
    pairs.get(place).map(|pair| pair.0)
}
