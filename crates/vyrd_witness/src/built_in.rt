//! What the words of a built-in subject show.

ghost use Rattle.std.specs.Prelude.{◌≡◌, true};
ghost use Rattle.vyrd_base.specs.Rules.{built_in};
ghost use Rattle.vyrd_base.specs.Subjects.{is_built_in};

use crate::after::told_after;
use crate::nodes::put_nodes;
use crate::parts::{put_buffer, put_chunk, put_slots, sum_of};
use crate::shown::Shown;
use std::alloc::{AllocError, Global};
use std::marker::Model;
use vyrd_base::{Header, Subject};

/// What the words of a built-in subject show, by the rules of a header. It is seen as the header.
///
/// The amount of a key is the sum of what the parts give to it. That takes one look at each slot of
/// a multiset, at each node on a tree's chain of leaves, and at one chunk or buffer, since no other
/// can give something to the key. It takes memory for the parts that do, and for a tree one byte
/// for each of its nodes. The parts are found in the same time and memory. After a change the
/// amount takes constant time unless the subject is a tree.
#[derive(Debug, Drop)]
pub struct BuiltInShown {
    header: Header,
}

impl Model for BuiltInShown {
    ghost use Rattle.std.specs.Prelude.{◌≡◌, true};
    ghost use Rattle.vyrd_base.specs.declared.header.Header.{Header};
    ghost use Rattle.vyrd_base.specs.Subjects.{is_built_in};

    ghost Value = { Header };

    ghost view = { λ s. s.header };

    ghost invariant = { λ s. is_built_in s.header.subject ≡ true };
}

impl BuiltInShown {
    /// Those of the header's subject.
    pub fn new(header: Header) -> BuiltInShown
        requires { is_built_in header.subject ≡ true }
        ensures { result ≡ header }
    {
        BuiltInShown { header }
    }
}

impl Shown for BuiltInShown {
    ghost charter = { λ s. built_in s };

    fn header(&self) -> Header {
        self.header
    }

    fn amount(&self, alloc: Global, words: &[u64], key: u64) -> Result<u128, AllocError> {
        let mut parts = Vec::new(alloc);
        self.put_parts(alloc, words, key, &mut parts)?;
        Ok(sum_of(&parts))
    }

    fn amount_after(
        &self,
        alloc: Global,
        words: &[u64],
        key: u64,
        before: u128,
        word: usize,
        was: u64,
    ) -> Result<u128, AllocError> {
        match told_after(self.header, words, key, before, word, was) {
            Some(amount) => Ok(amount),
            None => self.amount(alloc, words, key),
        }
    }

    fn put_parts(
        &self,
        alloc: Global,
        words: &[u64],
        key: u64,
        parts: &mut Vec<(usize, u128)>,
    ) -> Result<(), AllocError> {
        let size = self.header.size();
        match self.header.subject() {
            Subject::Multiset => put_slots(size, words, key, parts),
            Subject::Cache => put_chunk(size, words, key, parts),
            Subject::Tree => put_nodes(alloc, size as usize, words, key, parts),
            Subject::Buffers => put_buffer(size, words, key, parts),
            Subject::Own => Ok(()),
        }
    }
}
