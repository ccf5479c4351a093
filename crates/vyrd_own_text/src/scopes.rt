//! What the expressions of a line may speak of.

ghost use Rattle.std.specs.Prelude.{◌≡◌, ◌++◌, [], ◌∷◌, IfOk, ◌≤◌, map, take, min, length};
ghost use Rattle.vyrd_own.specs.Layout.{texts, written, method_of};
ghost use Rattle.vyrd_own_text.specs.Growth.{scope_of};
ghost use Rattle.vyrd_base.specs.Own.Outer.{part_scope};
ghost use Rattle.vyrd_base.specs.Own.Lines.{shows};
ghost use Rattle.vyrd_base.specs.Own.Names.{words_of_parts};
ghost use Rattle.vyrd_base.specs.Own.Methods.{method_scope};

use crate::scope::Names;
use std::alloc::{AllocError, Global};
use vyrd_own::{Method, Program};

/// Copies names to the end of others.
fn put_names(alloc: Global, all: &mut Vec<Vec<u8>>, names: &[Vec<u8>]) -> Result<(), AllocError>
    ensures { IfOk result (λ _. texts all.new.items ≡ texts all.old.items ++ texts names.now) }
{
    for name in names {
        let copied = Vec::from_slice(alloc, name)?;
        all.push(copied)?;
    }
    Ok(())
}

/// Copies words to the end of names.
pub fn put_words(alloc: Global, all: &mut Vec<Vec<u8>>, words: &[&[u8]]) -> Result<(), AllocError>
    ensures { IfOk result (λ _. texts all.new.items
        ≡ texts all.old.items ++ map (λ w. w.now) words.now) }
{
    for word in words {
        let copied = Vec::from_slice(alloc, word)?;
        all.push(copied)?;
    }
    Ok(())
}

/// Copies the first of these words to the end of names.
fn put_first_words(
    alloc: Global,
    all: &mut Vec<Vec<u8>>,
    words: &[&[u8]],
    count: usize,
) -> Result<(), AllocError>
    requires { count ≤ length words.now }
    ensures { IfOk result (λ _. texts all.new.items
        ≡ texts all.old.items ++ take count (map (λ w. w.now) words.now)) }
{
    put_words(alloc, all, &words[..count])
}

/// Copies the first of the words `w0` to `w15` to the end of names.
#[tactic(auto, unfolding(vyrd_base::specs::Own::Names::words_of_parts))]
fn put_part_words(alloc: Global, all: &mut Vec<Vec<u8>>, count: usize) -> Result<(), AllocError>
    ensures { IfOk result (λ _. texts all.new.items
        ≡ texts all.old.items ++ take (min count 16) words_of_parts) }
{
    let words: [&[u8]; 16] = [
        b"w0", b"w1", b"w2", b"w3", b"w4", b"w5", b"w6", b"w7", b"w8", b"w9", b"w10", b"w11",
        b"w12", b"w13", b"w14", b"w15",
    ];
    put_first_words(alloc, all, &words, count.min(16))
}

/// Copies a word to the end of names.
pub fn put_word(alloc: Global, all: &mut Vec<Vec<u8>>, word: &[u8]) -> Result<(), AllocError>
    ensures { IfOk result (λ _. texts all.new.items ≡ texts all.old.items ++ word.now ∷ []) }
{
    let copied = Vec::from_slice(alloc, word)?;
    all.push(copied)?;
    Ok(())
}

/// The names in a line `shows`: the constants, `part` and the words.
pub fn part_names(alloc: Global, program: &Program) -> Result<Names, AllocError>
    ensures { IfOk result (λ n. scope_of n ≡ part_scope (written program.now)) }
{
    let mut values = Vec::new(alloc);
    put_names(alloc, &mut values, &program.constant_names)?;
    put_word(alloc, &mut values, b"part")?;
    put_part_words(alloc, &mut values, program.words)?;
    Ok(Names {
        values,
        lists: Vec::new(alloc),
        reads: false,
    })
}

/// The names in the lines of a method.
pub fn method_names(
    alloc: Global,
    program: &Program,
    method: &Method,
    more: &[&[u8]],
) -> Result<Names, AllocError>
    ensures { IfOk result (λ n. scope_of n
        ≡ method_scope (written program.now) (method_of method.now) (map (λ w. w.now) more.now)) }
{
    let mut values = Vec::new(alloc);
    put_names(alloc, &mut values, &program.constant_names)?;
    put_names(alloc, &mut values, &program.register_names)?;
    put_names(alloc, &mut values, &method.names)?;
    put_words(alloc, &mut values, more)?;
    let mut lists = Vec::new(alloc);
    put_names(alloc, &mut lists, &program.list_names)?;
    Ok(Names {
        values,
        lists,
        reads: true,
    })
}
