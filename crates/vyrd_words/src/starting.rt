//! The starting words of a log.

ghost use Rattle.std.specs.Prelude.{◌≡◌, true, None, map, IfOk};
ghost use Rattle.vyrd_base.specs.Layout.{plain_words};
ghost use Rattle.vyrd_base.specs.Starts.{do_follow, words_at_start};

use std::alloc::{AllocError, Global};
use vyrd_base::{Header, StartWord};

/// All plain words at the start: those that the log begins with have their values, and all others
/// are 0. The starting words are in the header's ranges, and rise. It takes time and memory for
/// each plain word and each starting word. The only error is that memory has run out.
pub fn words_at_start(
    alloc: Global,
    header: Header,
    start: &[StartWord],
) -> Result<Vec<u64>, AllocError>
    requires { do_follow header None start.now ≡ true }
    ensures { IfOk result (λ words. words.items ≡ words_at_start header start.now) }
{
    let mut words = vec![in alloc; 0; header.plain_words() as usize]?;
    for s in start {
        words[s.word as usize] = s.value;
    }
    Ok(words)
}

/// Which words have a starting value, in the order of the starting words. The only error is that
/// memory has run out.
pub fn words_of(alloc: Global, start: &[StartWord]) -> Result<Vec<u32>, AllocError>
    ensures { IfOk result (λ words. words.items ≡ map (λ s. s.word) start.now) }
{
    let mut words = Vec::with_capacity(alloc, start.len())?;
    for s in start {
        words.push(s.word)?;
    }
    Ok(words)
}
