//! Structures that are built in.

ghost use Rattle.std.specs.Prelude.{◌≡◌, true};
ghost use Rattle.vyrd_base.specs.Rules.{built_in};
ghost use Rattle.vyrd_base.specs.Subjects.{is_built_in};

use crate::explains::Explains;
use crate::last::with_last;
use std::alloc::{AllocError, Global};
use vyrd_base::{Entry, Header, StartWord, Why};
use vyrd_states::{Begins, FromHeader, after_items, observer_items, reply_items};
use vyrd_witness::{BuiltInShown, Item, Shown};

/// The structure of a header whose subject is built in.
#[derive(Clone, Copy)]
pub(crate) struct BuiltInStructure {
    header: Header,
    ghost built_in: { is_built_in header.subject ≡ true },
}

impl BuiltInStructure {
    /// That of this header.
    pub(crate) fn new(header: Header) -> BuiltInStructure
        requires built_in { is_built_in header.subject ≡ true }
        ensures { result.header ≡ header }
    {
        BuiltInStructure { header }
    }
}

impl Shown for BuiltInStructure {
    ghost charter = { λ s. built_in s.header };

    fn header(&self) -> Header {
        self.header
    }

    fn amount(&self, alloc: Global, words: &[u64], key: u64) -> Result<u128, AllocError> {
        BuiltInShown::new(self.header).amount(alloc, words, key)
    }

    fn put_parts(
        &self,
        alloc: Global,
        words: &[u64],
        key: u64,
        parts: &mut Vec<(usize, u128)>,
    ) -> Result<(), AllocError> {
        BuiltInShown::new(self.header).put_parts(alloc, words, key, parts)
    }

    fn amount_after(
        &self,
        alloc: Global,
        words: &[u64],
        key: u64,
        before: u128,
        word: usize,
        was: u64,
    ) -> Result<u128, AllocError> {
        BuiltInShown::new(self.header).amount_after(alloc, words, key, before, word, was)
    }
}

impl Explains for BuiltInStructure {
    fn state_items(
        &self,
        alloc: Global,
        starting: &[StartWord],
        front: &[Entry],
        at: usize,
        why: Why,
    ) -> Result<Vec<Item>, AllocError> {
        let begins = FromHeader::new(self.header);
        match why {
            Why::Reply(_) => {
                let items = reply_items(alloc, &begins, starting, front, at)?;
                let spec = begins.begin(alloc, starting)?;
                with_last(alloc, spec, starting, front, at, items)
            }
            Why::View(key) => after_items(alloc, &begins, starting, front, at, key),
            Why::Observer(_) => observer_items(alloc, &begins, starting, front, at),
        }
    }
}
