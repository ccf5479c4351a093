//! The words that a program is started with.

ghost use Rattle.std.specs.Prelude.{◌≡◌, map, IfOk};
ghost use Rattle.std.specs.String.{string_bytes};

use std::alloc::{AllocError, Global};
use std::rt::Env;
use std::{env, io};

/// The words after the program's name. If the system doesn't give them as text, they are one empty
/// word.
pub fn words_given(rt: &(impl Env + AllocGlobal)) -> Result<Vec<String>, AllocError> {
    let alloc = rt.alloc();
    let mut words = Vec::new(alloc);
    match env::args(rt) {
        Ok(args) => {
            for word in args.skip(1) {
                words.push(word)?;
            }
        }
        Err(error) if error.kind() == io::ErrorKind::OutOfMemory => return Err(AllocError),
        Err(_) => words.push(String::new(alloc))?,
    }
    Ok(words)
}

/// The words as text.
pub fn as_text(alloc: Global, owned: &[String]) -> Result<Vec<&str>, AllocError>
    ensures { IfOk result
        (λ words. map (λ word. word.now) words.items ≡ map (λ text. string_bytes text) owned.now) }
{
    let mut words = Vec::new(alloc);
    for word in owned {
        words.push(word.as_str())?;
    }
    Ok(words)
}
