//! How a log begins that has a specification in front.

ghost use Rattle.std.specs.Prelude.{◌≡◌, ◌<◌};
ghost use Rattle.vyrd_log_check.specs.Beginnings.{matched_with};

/// The first bytes of each log that has a specification in front, and of no other.
pub(crate) const OWN_BEGINNING: [u8; 11] = *b"vyrd 3 own ";

/// How many bytes of the beginning have come with this piece, after the first `matched` of them;
/// `None` if the piece differs from what comes next.
pub(crate) fn match_on(matched: usize, piece: &[u8]) -> Option<usize>
    requires { matched < 11 }
    ensures { result ≡ matched_with matched piece.now }
{
    let (_, open) = OWN_BEGINNING.split_at(matched);
    let n = piece.len().min(open.len());
    let (here, _) = piece.split_at(n);
    let (there, _) = open.split_at(n);
    if here == there {
        Some(matched + n)
    } else {
        None
    }
}
