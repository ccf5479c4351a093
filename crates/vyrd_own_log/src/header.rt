//! The first line: the header that it spells.

ghost use Rattle.std.specs.Prelude.{◌≡◌};
ghost use Rattle.vyrd_base.specs.Own.Log.{own_header_in};

use vyrd_base::{Header, Subject};
use vyrd_text::{after, read_u32, read_u32_and_space};

/// The version of logs of the user's own subject.
const VERSION: u32 = 3;

/// The header of version 3 that the bytes spell, without the line feed. `None` exactly when they
/// spell none. It takes no memory.
pub fn read_own_header(line: &[u8]) -> Option<Header>
    ensures { result ≡ own_header_in line.now }
{
    let rest = after(line, b"vyrd 3 own ")?;
    let (words, rest) = read_u32_and_space(rest)?;
    let callers = read_u32(rest)?;
    Header::new(VERSION, Subject::Own, words, callers)
}
