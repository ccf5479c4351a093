//! What words show of a key.

ghost use Rattle.std.specs.Prelude.{◌≡◌, ◌<◌, ◌++◌, length, slice_set, IfOk, OnOk};
ghost use Rattle.vyrd_base.specs.Layout.{plain_words};
ghost use Rattle.vyrd_base.specs.Rules.{Charter, rules_by};
ghost use Rattle.vyrd_witness.specs.Changes.{amount_shown};
ghost use Rattle.vyrd_witness.specs.Given.{parts_by_number, given_parts};

use std::alloc::{AllocError, Global};
use vyrd_base::Header;

/// What gives the amount that words show of a key, by rules that stay the same.
pub trait Shown: Sized {
    // What names the rules by which words show something.
    ghost charter: { Self → Charter };

    /// The header of the rules.
    fn header(&self) -> Header
        ensures { result ≡ (rules_by (charter self.now)).header };

    /// What the plain words show of the key. That of a built-in subject is below 2^64; words of a
    /// user's own structure may show more of a key. The only error is that memory has run out.
    fn amount(&self, alloc: Global, words: &[u64], key: u64) -> Result<u128, AllocError>
        requires count { length words.now ≡ plain_words (rules_by (charter self.now)).header }
        ensures { IfOk result
            (λ amount. amount ≡ amount_shown (rules_by (charter self.now)) words.now key) };

    /// The same after one of the words got its value, given what they showed of the key before it,
    /// when that word had this other value. Unless an impl does better, they are asked anew.
    fn amount_after(
        &self,
        alloc: Global,
        words: &[u64],
        key: u64,
        before: u128,
        word: usize,
        was: u64,
    ) -> Result<u128, AllocError>
        requires count { length words.now ≡ plain_words (rules_by (charter self.now)).header }
        requires within { word < length words.now }
        requires before { before ≡ amount_shown (rules_by (charter self.now))
            (slice_set words.now word was) key }
        ensures { IfOk result
            (λ amount. amount ≡ amount_shown (rules_by (charter self.now)) words.now key) }
    {
        self.amount(alloc, words, key)
    }

    /// Puts the parts of the words that give something to the key at the end, each by its number
    /// and with what it gives. Together they give what the words show of the key (the law
    /// `parts_give_what_is_shown`). The only error is that memory has run out.
    fn put_parts(
        &self,
        alloc: Global,
        words: &[u64],
        key: u64,
        parts: &mut Vec<(usize, u128)>,
    ) -> Result<(), AllocError>
        requires count { length words.now ≡ plain_words (rules_by (charter self.now)).header }
        ensures { OnOk result (parts.new.items ≡ parts.old.items
            ++ given_parts key (parts_by_number (charter self.now) words.now)) };
}
