//! Room for the parts of the words that are in use.

ghost use Rattle.std.specs.Prelude.{◌≡◌, ℕ, ◌+◌, ◌*◌, ◌/◌, ◌%◌, ◌<◌, ◌≤◌, ◌^◌, ◌++◌, true, false};
ghost use Rattle.std.specs.Prelude.{length, map, replicate, slice_index_or, All, OnOk, OnErr, IfOk};
ghost use Rattle.vyrd_base.specs.Places.{numbers_below};
ghost use Rattle.vyrd_view.specs.Decoded.{padded};

use crate::decode::Decode;
use crate::parts::Parts;
use std::alloc::AllocError;

/// How many words a part has at most.
const MOST_WIDTH: usize = 64;

/// This many parts have room at the start, if there are as many.
const PARTS_AT_FIRST: usize = 64;

/// How many parts have room at the start.
pub(crate) fn first_parts(parts: usize) -> usize
    ensures { result ≤ parts }
{
    parts.min(PARTS_AT_FIRST)
}

/// The first parts have room, as many as the answer says: those of all changed words among them.
/// The new ones have zeroed words, and give nothing. If there is room for a part already, nothing
/// changes. Once memory was refused the parts may only be dropped.
#[inline(always)]
pub(crate) fn make_room<D: Decode>(
    decoder: &D,
    held: usize,
    words: &mut Vec<u64>,
    parts: &mut Parts,
    changed: &[u32],
) -> Result<usize, AllocError>
    requires sound { parts.old.refused ≡ false }
    requires held { held ≤ D.parts decoder.now }
    requires count { length words.old.items ≡ held * D.width decoder.now }
    requires places { length parts.old.pairs ≡ held * D.places decoder.now }
    requires within { All (λ w. w < D.parts decoder.now * D.width decoder.now) changed.now }
    ensures held { IfOk result (λ n. n ≤ D.parts decoder.now) }
    ensures room { IfOk result (λ n. All (λ w. w < n * D.width decoder.now) changed.now) }
    ensures words { IfOk result
        (λ n. words.new.items ≡ padded (n * D.width decoder.now) words.old.items) }
    ensures more { IfOk result (λ n. held ≤ n) }
    ensures places { IfOk result (λ n. length parts.new.pairs ≡ n * D.places decoder.now) }
    ensures old { OnOk result ((m : ℕ) → m < length parts.old.pairs
        → slice_index_or parts.new.pairs m (0, 0) ≡ slice_index_or parts.old.pairs m (0, 0)) }
    ensures new { OnOk result ((m : ℕ) → length parts.old.pairs ≤ m → m < length parts.new.pairs
        → slice_index_or parts.new.pairs m (0, 0)
        ≡ D.gives decoder.now (m / D.places decoder.now) (replicate (D.width decoder.now) 0)
        (m % D.places decoder.now)) }
    ensures specified { OnOk result (parts.new.specified ≡ parts.old.specified) }
    ensures sound { OnOk result (parts.new.refused ≡ false) }
    ensures refused { OnErr result (parts.new.refused ≡ true) }
{
    if held == decoder.parts() {
        return Ok(held);
    }
    if are_below(words.len(), changed) {
        return Ok(held);
    }
    let needed = needed_parts(decoder, changed);
    if needed <= held {
        return Ok(held);
    }
    let more = needed.max(2 * held).min(decoder.parts());
    match grow(decoder, held, more, words, parts) {
        Ok(()) => Ok(more),
        Err(refusal) => {
            parts.refuse();
            Err(refusal)
        }
    }
}

/// Whether the changed words are among the first, as many as that.
#[inline(always)]
fn are_below(words: usize, changed: &[u32]) -> bool
    ensures { result ≡ true → All (λ w. w < words) changed.now }
{
    for word in changed {
        if *word as usize >= words {
            return false;
        }
    }
    true
}

/// How many parts have room at least, if those of all changed words do.
fn needed_parts<D: Decode>(decoder: &D, changed: &[u32]) -> usize
    requires within { All (λ w. w < D.parts decoder.now * D.width decoder.now) changed.now }
    ensures few { result ≤ D.parts decoder.now }
    ensures room { All (λ w. w < result * D.width decoder.now) changed.now }
{
    let mut needed = 0;
    for word in changed {
        needed = up_to(needed, *word as usize / decoder.width());
    }
    needed
}

/// So many parts that one more is among them.
fn up_to(parts: usize, part: usize) -> usize
    requires { part < 2 ^ 32 }
    ensures more { parts ≤ result }
    ensures among { part < result }
    ensures least { (n : ℕ) → parts ≤ n → part < n → result ≤ n }
{
    if part < parts { parts } else { part + 1 }
}

/// The parts from one number on get room, up to another.
#[inline(never)]
pub(crate) fn grow<D: Decode>(
    decoder: &D,
    held: usize,
    more: usize,
    words: &mut Vec<u64>,
    parts: &mut Parts,
) -> Result<(), AllocError>
    requires sound { parts.old.refused ≡ false }
    requires less { held ≤ more }
    requires few { more ≤ D.parts decoder.now }
    requires count { length words.old.items ≡ held * D.width decoder.now }
    requires places { length parts.old.pairs ≡ held * D.places decoder.now }
    ensures words { OnOk result
        (words.new.items ≡ padded (more * D.width decoder.now) words.old.items) }
    ensures places { OnOk result (length parts.new.pairs ≡ more * D.places decoder.now) }
    ensures old { OnOk result ((m : ℕ) → m < length parts.old.pairs
        → slice_index_or parts.new.pairs m (0, 0) ≡ slice_index_or parts.old.pairs m (0, 0)) }
    ensures new { OnOk result ((m : ℕ) → length parts.old.pairs ≤ m → m < length parts.new.pairs
        → slice_index_or parts.new.pairs m (0, 0)
        ≡ D.gives decoder.now (m / D.places decoder.now) (replicate (D.width decoder.now) 0)
        (m % D.places decoder.now)) }
    ensures specified { OnOk result (parts.new.specified ≡ parts.old.specified) }
    ensures sound { OnOk result (parts.new.refused ≡ false) }
{
    words.resize(more * decoder.width(), 0)?;
    for part in held..more {
        push_quiet(decoder, part, parts)?;
    }
    Ok(())
}

/// The places of a part of zeroed words come after those of the parts before it.
fn push_quiet<D: Decode>(decoder: &D, part: usize, parts: &mut Parts) -> Result<(), AllocError>
    requires part { part < D.parts decoder.now }
    requires sound { parts.old.refused ≡ false }
    ensures pairs { OnOk result (parts.new.pairs ≡ parts.old.pairs
        ++ map (D.gives decoder.now part (replicate (D.width decoder.now) 0))
        (numbers_below (D.places decoder.now))) }
    ensures specified { OnOk result (parts.new.specified ≡ parts.old.specified) }
    ensures sound { OnOk result (parts.new.refused ≡ false) }
{
    let zeroes = [0; MOST_WIDTH];
    let pairs = decoder.decode(part, &zeroes[..decoder.width()]);
    for place in 0..decoder.places() {
        parts.push(pairs[place])?;
    }
    Ok(())
}
