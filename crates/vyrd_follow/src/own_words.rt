//! The words of a structure of the user's own.

ghost use Rattle.std.specs.Prelude.{◌≡◌, ◌<◌, ◌++◌, length, IfOk, OnOk};
ghost use Rattle.std.specs.Arc.{arc_value};
ghost use Rattle.vyrd_base.specs.declared.subject.Subject.TheVariants.{Own};
ghost use Rattle.vyrd_base.specs.Rules.{own, rules_by};
ghost use Rattle.vyrd_base.specs.Starts.{words_at_start};
ghost use Rattle.vyrd_follow.specs.NextKeys.{key_items};
ghost use Rattle.vyrd_witness.specs.Changes.{words_after_effect};

use crate::follows::Follows;
use crate::part_sums::sums_of;
use crate::wide_amounts::WideAmounts;
use crate::word::write_word;
use std::alloc::{AllocError, Global};
use std::marker::Model;
use std::sync::Arc;
use vyrd_base::{Header, StartWord};
use vyrd_own_spec::{OwnParts, Specification};
use vyrd_view::Decode;
use vyrd_witness::{Effect, Item, words_at_start};

/// The words of a structure of the user's own, which are written one after another, and what they
/// show by its specification. It is seen as its charter, the header and the specification's lines,
/// and its words.
///
/// The amount of each key that the words show is kept. A write takes time in the logarithm of
/// these keys, and in proportion to a part: only the part of the written word is looked at. Words
/// behind the last whole part show nothing.
#[derive(Drop)]
pub struct OwnWords {
    words: Vec<u64>,
    parts: OwnParts,
    shown: WideAmounts,
    refused: bool,
}

impl Model for OwnWords {
    ghost use Rattle.std.specs.Prelude.{◌≡◌, ◌/◌, false, length};
    ghost use Rattle.std.specs.Arc.{arc_value};
    ghost use Rattle.vyrd_base.specs.declared.subject.Subject.TheVariants.{Own};
    ghost use Rattle.vyrd_base.specs.Rules.{own, rules_by};
    ghost use Rattle.vyrd_follow.specs.KeptWords.{KeptWords};

    ghost Value = { KeptWords };

    ghost view = { λ w. record {
      charter = own w.parts.header (arc_value w.parts.specification);
      words = w.words.items;
    } };

    ghost invariant = { λ w. (w.parts.header.subject ≡ Own)
        × (w.parts.parts ≡ w.parts.header.size / w.parts.width)
        × (length w.words.items ≡ w.parts.header.size)
        × (w.refused ≡ false → w.shown
        ≡ (rules_by (own w.parts.header (arc_value w.parts.specification))).view w.words.items) };
}

impl OwnWords {
    /// Those of the header's structure at the start, by this specification. They needn't be a whole
    /// number of its parts. It takes time in proportion to the words, and memory for them and for
    /// the keys that they show. The only error is that memory has run out.
    pub fn new(
        alloc: Global,
        header: Header,
        specification: Arc<Specification>,
        starting: &[StartWord],
    ) -> Result<OwnWords, AllocError>
        requires subject { header.subject ≡ Own }
        ensures charter { IfOk result (λ w. w.charter ≡ own header (arc_value specification)) }
        ensures words { IfOk result (λ w. w.words ≡ words_at_start header starting.now) }
    {
        let words = words_at_start(alloc, header, starting)?;
        let parts = OwnParts::new(alloc, header, specification)?;
        let whole = parts.parts() * parts.width();
        let shown = sums_of(alloc, &parts, &words[..whole])?;
        Ok(OwnWords {
            words,
            parts,
            shown,
            refused: false,
        })
    }

    /// Lets a write take effect, and puts an item at the end for each key of which the words then
    /// show another amount. After an error there is another one each time.
    fn take(&mut self, effect: Effect, items: &mut Vec<Item>) -> Result<(), AllocError>
        requires within { effect.word < length self.old.words }
        ensures items { OnOk result (items.new.items ≡ items.old.items
            ++ key_items (rules_by self.old.charter) self.old.words effect) }
        ensures words { OnOk result (self.new.words ≡ words_after_effect self.old.words effect) }
        ensures charter { self.new.charter ≡ self.old.charter }
    {
        if self.refused {
            return Err(AllocError);
        }
        let word = effect.word as usize;
        if word < self.parts.parts() * self.parts.width() {
            self.refused = true;
            write_word(&self.parts, &mut self.words, &mut self.shown, effect, items)?;
            self.refused = false;
        } else {
            self.words[word] = effect.value;
        }
        Ok(())
    }
}

impl Follows for OwnWords {
    ghost charter = { λ w. w.charter };

    ghost words = { λ w. w.words };

    fn write(&mut self, effect: Effect, items: &mut Vec<Item>) -> Result<(), AllocError> {
        let told = items.len();
        let was = self.words[effect.word as usize];
        self.take(effect, items)?;
        if items.len() == told {
            items.push(Item::Wrote { effect, was })?;
        }
        Ok(())
    }
}
