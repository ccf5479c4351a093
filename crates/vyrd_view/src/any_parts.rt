//! The words of a built-in subject against the specification, by the subject.

ghost use Rattle.std.specs.Prelude.{◌≡◌, ◌+◌, ◌*◌, ◌/◌, ◌<◌, ◌≤◌, [], true, false, length, replicate};
ghost use Rattle.std.specs.Prelude.{All};
ghost use Rattle.std.specs.Prelude.{IfOk, OnOk, is_err};
ghost use Rattle.vyrd_base.specs.Amounts.{with_amount, first_difference};
ghost use Rattle.vyrd_base.specs.Layout.{plain_words};
ghost use Rattle.vyrd_base.specs.Subjects.{is_built_in};
ghost use Rattle.vyrd_view.specs.Comparing.{AgreeElsewhere, keys_of_part, parts_looked_at};
ghost use Rattle.vyrd_view.specs.Known.{of_subject, view_by};

use crate::buffers::Buffers;
use crate::by_parts::ByParts;
use crate::chunks::Chunks;
use crate::leaves::Leaves;
use crate::slots::Slots;
use std::alloc::{AllocError, Global};
use std::sync::ledger::Ledger;
use vyrd_base::{Header, Steps, Subject};

/// The parts of one of the built-in subjects, and what compares words by them.
#[derive(Drop)]
pub(crate) enum AnyParts {
    Slots(ByParts<Slots>),
    Chunks(ByParts<Chunks>),
    Leaves(Leaves),
    Buffers(ByParts<Buffers>),
}

impl AnyParts {
    ghost use Rattle.vyrd_view.specs.Subjects.{Serves, known_of_any, subject_of_any};

    /// Zeroed words of the header's subject against an empty specification.
    pub(crate) fn new(alloc: Global, header: Header) -> Result<AnyParts, AllocError>
        requires built_in { is_built_in header.subject ≡ true }
        ensures serves { IfOk result (Serves header) }
        ensures new { IfOk result (λ c. known_of_any c ≡ record {
          shows = of_subject header.subject header.size;
          count = plain_words header;
          words = replicate (plain_words header) 0;
          specified = [];
          refused = false;
        }) }
    {
        let size = header.size() as usize;
        match header.subject() {
            Subject::Multiset => Ok(AnyParts::Slots(ByParts::new(alloc, Slots::new(size))?)),
            Subject::Cache => Ok(AnyParts::Chunks(ByParts::new(alloc, Chunks::new(size))?)),
            Subject::Tree => Ok(AnyParts::Leaves(Leaves::new(alloc, size)?)),
            Subject::Buffers => Ok(AnyParts::Buffers(ByParts::new(alloc, Buffers::new(size))?)),
            Subject::Own => unreachable!(),
        }
    }

    /// These are the words now. Outside `changed` they are those of the last call, or 0 if there
    /// was none; in `changed` a word may stand more than once.
    pub(crate) fn words_changed<L: Ledger>(
        &mut self,
        words: &[u64],
        changed: &[u32],
        steps: &mut Steps<L>,
    ) -> Result<(), AllocError>
        requires sound { (known_of_any self.old).refused ≡ false }
        requires count { length words.now ≡ (known_of_any self.old).count }
        requires within { All (λ w. w < (known_of_any self.old).count) changed.now }
        requires elsewhere { AgreeElsewhere (known_of_any self.old).words words.now changed.now }
        ensures ok { OnOk result (known_of_any self.new
            ≡ record (known_of_any self.old) { words = words.now }) }
        ensures refused { (known_of_any self.new).refused ≡ is_err result }
        ensures shows { (known_of_any self.new).shows ≡ (known_of_any self.old).shows }
        ensures count { (known_of_any self.new).count ≡ (known_of_any self.old).count }
        ensures subject { subject_of_any self.new ≡ subject_of_any self.old }
        ensures steps { steps.new ≤ steps.old
            + parts_looked_at (subject_of_any self.old) ((known_of_any self.old).count / 12)
            (known_of_any self.old).words words.now changed.now
            * (1 + 2 * keys_of_part (subject_of_any self.old))
            + 2 }
    {
        match self {
            AnyParts::Slots(slots) => slots.words_changed(words, changed, steps),
            AnyParts::Chunks(chunks) => chunks.words_changed(words, changed, steps),
            AnyParts::Leaves(leaves) => leaves.words_changed(words, changed, steps),
            AnyParts::Buffers(buffers) => buffers.words_changed(words, changed, steps),
        }
    }

    /// The specification has this amount of the key now; 0 says that the key isn't there.
    pub(crate) fn spec_changed<L: Ledger>(
        &mut self,
        key: u64,
        amount: u64,
        steps: &mut Steps<L>,
    ) -> Result<(), AllocError>
        requires { (known_of_any self.old).refused ≡ false }
        ensures ok { OnOk result (known_of_any self.new ≡ record (known_of_any self.old) {
          specified = with_amount (known_of_any self.old).specified key amount;
        }) }
        ensures refused { (known_of_any self.new).refused ≡ is_err result }
        ensures shows { (known_of_any self.new).shows ≡ (known_of_any self.old).shows }
        ensures count { (known_of_any self.new).count ≡ (known_of_any self.old).count }
        ensures subject { subject_of_any self.new ≡ subject_of_any self.old }
        ensures steps { steps.new ≤ steps.old + 1 }
    {
        match self {
            AnyParts::Slots(slots) => slots.spec_changed(key, amount, steps),
            AnyParts::Chunks(chunks) => chunks.spec_changed(key, amount, steps),
            AnyParts::Leaves(leaves) => leaves.spec_changed(key, amount, steps),
            AnyParts::Buffers(buffers) => buffers.spec_changed(key, amount, steps),
        }
    }

    /// The least key at which the words and the specification differ, or none if they are equal.
    #[inline(always)]
    pub(crate) fn first_difference(&self) -> Option<u64>
        requires { (known_of_any self.now).refused ≡ false }
        ensures { result
            ≡ first_difference (view_by (known_of_any self.now).shows (known_of_any self.now).words)
            (known_of_any self.now).specified }
    {
        match self {
            AnyParts::Slots(slots) => slots.first_difference(),
            AnyParts::Chunks(chunks) => chunks.first_difference(),
            AnyParts::Leaves(leaves) => leaves.first_difference(),
            AnyParts::Buffers(buffers) => buffers.first_difference(),
        }
    }

    /// Whether memory was refused. Then the value may only be dropped.
    pub(crate) fn refused(&self) -> bool
        ensures { result ≡ (known_of_any self.now).refused }
    {
        match self {
            AnyParts::Slots(slots) => slots.refused(),
            AnyParts::Chunks(chunks) => chunks.refused(),
            AnyParts::Leaves(leaves) => leaves.refused(),
            AnyParts::Buffers(buffers) => buffers.refused(),
        }
    }
}
