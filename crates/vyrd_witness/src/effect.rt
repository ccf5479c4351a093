//! The writes that take effect at an entry, each with where it was written.

ghost use Rattle.std.specs.Prelude.{◌≡◌, ◌+◌, ◌<◌, ◌≤◌, ◌++◌, length, map, take, drop, slice_get};
ghost use Rattle.std.specs.Prelude.{Some, None, IfOk, Ok, true, false, [], option_map};
ghost use Rattle.std.specs.Option.{option_map_or};
ghost use Rattle.vyrd_base.specs.Places.{newest_first};
ghost use Rattle.vyrd_base.specs.Words.{block_writes, writes_ahead};
ghost use Rattle.vyrd_witness.specs.Effects.{effect_of, effects_by};
ghost use Rattle.vyrd_witness.specs.Numbered.{numbered};
ghost use Rattle.vyrd_witness.specs.Phases.{phase_of};

use crate::phase::Phase;
use std::alloc::{AllocError, Global};
use vyrd_base::{Entry, Kind};

/// A write that takes effect. Positions count the entries before, from 0.
#[derive(Clone, Copy, Debug, PartialEq, Eq)]
pub struct Effect {
    /// The position of the write.
    pub written: usize,
    /// The position of the entry at which it takes effect: the write itself, or the end of its
    /// block, or the commit inside that block.
    pub at: usize,
    /// Who wrote.
    pub caller: u32,
    /// Which plain word.
    pub word: u32,
    /// The value that the word gets.
    pub value: u64,
}

/// The writes that take effect at the entry at a position, the first to do so first. Its caller is
/// in this phase before it.
///
/// At the end of a block the entries of the block are looked at once more, and at a commit inside
/// one those up to its end too.
pub(crate) fn effects_by(
    alloc: Global,
    front: &[Entry],
    at: usize,
    entry: Entry,
    phase: Phase,
) -> Result<Vec<Effect>, AllocError>
    requires here { slice_get front.now at ≡ Some entry }
    requires phase { phase ≡ phase_of entry.caller (newest_first (take at front.now)) }
    ensures { IfOk result (λ effects. effects.items ≡ effects_by front.now at entry) }
{
    let caller = entry.caller;
    match entry.kind {
        Kind::Write(word, value) => {
            if phase.in_block {
                return Ok(Vec::new(alloc));
            }
            let mut effects = Vec::new(alloc);
            effects.push(Effect {
                written: at,
                at,
                caller,
                word,
                value,
            })?;
            Ok(effects)
        }
        Kind::Commit => {
            if phase.in_block {
                effects_of_commit(alloc, front, at, caller)
            } else {
                Ok(Vec::new(alloc))
            }
        }
        Kind::BlockClose | Kind::BlockCommit => {
            if phase.has_commit {
                Ok(Vec::new(alloc))
            } else {
                effects_of_end(alloc, front, at, caller)
            }
        }
        _ => Ok(Vec::new(alloc)),
    }
}

/// What the caller wrote since its last open, which takes effect at a position.
fn effects_of_end(
    alloc: Global,
    front: &[Entry],
    at: usize,
    caller: u32,
) -> Result<Vec<Effect>, AllocError>
    requires { at ≤ length front.now }
    ensures { IfOk result (λ effects. effects.items ≡ map (effect_of front.now at caller)
        (newest_first (block_writes caller (newest_first (take at (numbered front.now)))))) }
{
    let mut effects = writes_back(alloc, front, at, caller)?;
    effects.reverse();
    Ok(effects)
}

/// The writes of the caller's block that take effect at a commit inside it, those that are still
/// to come too. There are none if the block doesn't end.
fn effects_of_commit(
    alloc: Global,
    front: &[Entry],
    at: usize,
    caller: u32,
) -> Result<Vec<Effect>, AllocError>
    requires { at < length front.now }
    ensures { IfOk result (λ effects. effects.items ≡ map (effect_of front.now at caller)
        (newest_first (option_map_or
        (λ ahead. ahead ++ block_writes caller (newest_first (take at (numbered front.now))))
        (writes_ahead caller (drop (at + 1) (numbered front.now))) []))) }
{
    let mut effects = effects_of_end(alloc, front, at, caller)?;
    if push_ahead(&mut effects, front, at, caller)? {
        Ok(effects)
    } else {
        Ok(Vec::new(alloc))
    }
}

/// The same as `effects_of_end`, the last write first: the entries are gone over from the position
/// back to the open.
fn writes_back(
    alloc: Global,
    front: &[Entry],
    at: usize,
    caller: u32,
) -> Result<Vec<Effect>, AllocError>
    requires { at ≤ length front.now }
    ensures { IfOk result (λ effects. effects.items ≡ map (effect_of front.now at caller)
        (block_writes caller (newest_first (take at (numbered front.now))))) }
{
    let mut effects = Vec::new(alloc);
    for i in 0..at {
        let written = at - 1 - i;
        let entry = entry_at(front, written);
        if entry.caller == caller {
            match entry.kind {
                Kind::BlockOpen => return Ok(effects),
                Kind::Write(word, value) => {
                    effects.push(Effect {
                        written,
                        at,
                        caller,
                        word,
                        value,
                    })?;
                }
                _ => {}
            }
        }
    }
    Ok(effects)
}

/// Appends what the caller's open block still writes after a position, where all of it takes
/// effect. The answer is whether the block ends.
fn push_ahead(
    effects: &mut Vec<Effect>,
    front: &[Entry],
    at: usize,
    caller: u32,
) -> Result<bool, AllocError>
    requires { at < length front.now }
    ensures ends { result ≡ Ok true → option_map
        (λ ahead. effects.old.items
        ++ map (effect_of front.now at caller) (newest_first ahead))
        (writes_ahead caller (drop (at + 1) (numbered front.now))) ≡ Some effects.new.items }
    ensures goes_on { result ≡ Ok false
        → writes_ahead caller (drop (at + 1) (numbered front.now)) ≡ None }
{
    for written in at + 1..front.len() {
        let entry = entry_at(front, written);
        if entry.caller == caller {
            match entry.kind {
                Kind::BlockClose | Kind::BlockCommit => return Ok(true),
                Kind::Return(_) => return Ok(false),
                Kind::Write(word, value) => {
                    effects.push(Effect {
                        written,
                        at,
                        caller,
                        word,
                        value,
                    })?;
                }
                _ => {}
            }
        }
    }
    Ok(false)
}

/// The entry at a position.
pub(crate) fn entry_at(front: &[Entry], at: usize) -> Entry
    requires { at < length front.now }
    ensures { slice_get front.now at ≡ Some result }
{
    front[at]
}
