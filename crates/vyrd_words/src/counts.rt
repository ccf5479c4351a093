//! What each of the commits has that wait: how many writes, and which late ones.

ghost use Rattle.std.specs.Prelude.{◌≡◌, ◌<◌, ◌≤◌, ◌^◌, ◌+◌, ◌*◌, ◌++◌, ◌==◌, ℕ, List, [], ◌∷◌, length};
ghost use Rattle.std.specs.Prelude.{take, drop, slice_get, slice_index, slice_index_or, slice_set};
ghost use Rattle.std.specs.Prelude.{if◌then◌else◌, All, IfOk, Some, map};
ghost use Rattle.std.specs.Option.{option_map};
ghost use Rattle.std.specs.Result.{is_ok};
ghost use Rattle.vyrd_words.specs.Counts.{apart_in, counts_of, just, with_late};
ghost use Rattle.vyrd_words.specs.Cuts.{written};

use crate::apart::Apart;
use crate::write::Write;
use std::alloc::{AllocError, Global};
use std::collections::VecDeque;
use std::marker::Model;
use std::sync::ledger::Ledger;
use vyrd_base::Steps;

/// The byte of a commit that is kept apart. Each other byte is its commit's count.
const APART: u8 = 255;

/// A queue of commits: each has a count, of the writes that took effect between the commit before it
/// and it, and late writes. A commit with a count below 255 and without late writes takes one byte.
/// Each other one has the byte 255, and stands in a queue of its own, in the same order: it takes 32
/// bytes more, and its late writes. Few counts are large, and what waits is what grows while an
/// execution stays open and others commit.
#[derive(Drop)]
pub(crate) struct Counts {
    bytes: VecDeque<u8>,
    large: VecDeque<Apart>,
}

impl Model for Counts {
    ghost use Rattle.std.specs.Prelude.{◌≡◌, ℕ, List, length};
    ghost use Rattle.vyrd_words.specs.Counts.{apart_in, counts_of};

    ghost Value = { List (ℕ × List (ℕ × ℕ)) };

    ghost view = { λ c. counts_of c.bytes.items c.large.items };

    ghost invariant = { λ c. apart_in c.bytes.items ≡ length c.large.items };
}

impl Counts {
    /// There are no commits.
    pub fn new(alloc: Global) -> Counts
        ensures { result ≡ [] }
    {
        Counts {
            bytes: VecDeque::new(alloc),
            large: VecDeque::new(alloc),
        }
    }

    /// Whether there are no commits.
    #[inline(always)]
    pub fn is_empty(&self) -> bool
        ensures { result ≡ (length self.now == 0) }
    {
        self.bytes.is_empty()
    }

    /// How many commits there are.
    #[inline(always)]
    pub fn len(&self) -> usize
        ensures { result ≡ length self.now }
    {
        self.bytes.len()
    }

    /// One more commit with this count, behind all others. An error, that memory has run out, leaves
    /// the commits as they were.
    #[inline(always)]
    pub fn push(&mut self, count: usize) -> Result<(), AllocError>
        ensures { self.new ≡ (if is_ok result then self.old ++ just count ∷ [] else self.old) }
    {
        if count < usize::from(APART) {
            self.bytes.push_back(count as u8)?;
            return Ok(());
        }
        self.push_large(count)
    }

    /// The same, of a count that is kept apart.
    fn push_large(&mut self, count: usize) -> Result<(), AllocError>
        ensures { self.new ≡ (if is_ok result then self.old ++ just count ∷ [] else self.old) }
    {
        self.bytes.reserve(1)?;
        let apart = Apart::new(*self.bytes.allocator(), count);
        self.large.push_back(apart)?;
        self.bytes.push_back_reserved(APART);
        Ok(())
    }

    /// The count of the first commit, if there is one.
    #[inline(always)]
    pub fn first(&self) -> Option<usize>
        ensures { result ≡ option_map (λ commit. commit.0) (slice_get self.now 0) }
    {
        let byte = *self.bytes.front()?;
        if byte == APART {
            return Some(self.large.front()?.count());
        }
        Some(usize::from(byte))
    }

    /// Takes the first commit away, if there is one, and gives its late writes.
    #[inline(always)]
    pub fn pop(&mut self) -> Vec<Write>
        ensures rest { self.new ≡ drop 1 self.old }
        ensures late { result.items ≡ (slice_index_or self.old 0 (just 0)).1 }
    {
        if self.bytes.pop_front() == Some(APART) {
            if let Some(apart) = self.large.pop_front() {
                return apart.into_late();
            }
        }
        Vec::new(*self.bytes.allocator())
    }

    /// The changed words are late writes of the commit with this index, after those that it has. An
    /// error, that memory has run out, leaves the commits as they were. It takes time for each of
    /// the words, and for each commit from there on.
    pub fn add_late<L: Ledger>(
        &mut self,
        index: usize,
        changed: &[u32],
        words: &[u64],
        steps: &mut Steps<L>,
    ) -> Result<(), AllocError>
        requires index { index < length self.old }
        requires changed { All (λ w. w < length words.now) changed.now }
        requires few { length words.now ≤ 2 ^ 16 }
        ensures counts { self.new ≡ (if is_ok result
            then slice_set self.old index
            (with_late (slice_index_or self.old index (just 0)) (written words.now changed.now))
            else self.old) }
        ensures steps { steps.new + 2 * index
            ≤ steps.old + length changed.now + 2 * length self.old }
    {
        let place = set_apart(&mut self.bytes, &mut self.large, index, steps)?;
        self.large[place].add(changed, words, steps)?;
        Ok(())
    }
}

/// The commit with this index is kept apart from here on. Says where.
fn set_apart<L: Ledger>(
    bytes: &mut VecDeque<u8>,
    large: &mut VecDeque<Apart>,
    index: usize,
    steps: &mut Steps<L>,
) -> Result<usize, AllocError>
    requires index { index < length bytes.old.items }
    requires all { apart_in bytes.old.items ≡ length large.old.items }
    ensures same { counts_of bytes.new.items large.new.items
        ≡ counts_of bytes.old.items large.old.items }
    ensures all { apart_in bytes.new.items ≡ length large.new.items }
    ensures len { length bytes.new.items ≡ length bytes.old.items }
    ensures place { IfOk result (λ place. place ≡ apart_in (take index bytes.new.items)) }
    ensures apart { IfOk result (λ place. slice_index bytes.new.items index ≡ 255) }
    ensures steps { steps.new + 2 * index ≤ steps.old + 2 * length bytes.old.items }
{
    let place = place_apart(bytes, large.len(), index, steps);
    let byte = bytes[index];
    if byte == APART {
        return Ok(place);
    }
    // So many of the commits that are kept apart give way.
    steps.add(large.len() - place);
    let apart = Apart::new(*bytes.allocator(), usize::from(byte));
    large.insert(place, apart)?;
    bytes[index] = APART;
    Ok(place)
}

/// How many commits before an index are kept apart, of `all` of them.
fn place_apart<L: Ledger>(
    bytes: &VecDeque<u8>,
    all: usize,
    index: usize,
    steps: &mut Steps<L>,
) -> usize
    requires index { index ≤ length bytes.now.items }
    requires all { apart_in bytes.now.items ≡ all }
    ensures place { result ≡ apart_in (take index bytes.now.items) }
    ensures steps { steps.new + index ≡ steps.old + length bytes.now.items }
{
    let mut place = all;
    for later in index..bytes.len() {
        steps.tick();
        if bytes[later] == APART {
            place -= 1;
        }
    }
    place
}
