//! The texts that the words of string buffers show, if they stand for a state. A buffer has eight
//! words: the count of its characters, and room for 7 of these.

ghost use Rattle.std.specs.Prelude.{◌≡◌, ◌*◌, length, IfOk, MatchOption, Some, None};
ghost use Rattle.vyrd_spec.specs.Texts.{sound_texts};

use std::alloc::{AllocError, Global};
use vyrd_base::buffer_text;

/// The text of each buffer, and `None` if the words stand for no state.
pub(crate) fn texts_of(
    alloc: Global,
    size: usize,
    words: &[u64],
) -> Result<Option<Vec<u64>>, AllocError>
    requires count { length words.now ≡ 8 * size }
    ensures { IfOk result (λ found. MatchOption found (sound_texts size words.now ≡ None)
        (λ texts. sound_texts size words.now ≡ Some texts.items)) }
{
    let mut texts = Vec::with_capacity(alloc, size)?;
    for buffer in 0..size {
        match buffer_text(words, buffer) {
            Some(text) => texts.push(text)?,
            None => return Ok(None),
        }
    }
    Ok(Some(texts))
}
