//! The words of one structure against the specification, part by part.

ghost use Rattle.std.specs.Prelude.{◌≡◌, ◌+◌, ◌*◌, ◌<◌, ◌≤◌, [], false, length, replicate, All};
ghost use Rattle.std.specs.Prelude.{IfOk, OnOk, is_err};
ghost use Rattle.vyrd_base.specs.Amounts.{with_amount, first_difference};
ghost use Rattle.vyrd_view.specs.Comparing.{AgreeElsewhere};
ghost use Rattle.vyrd_view.specs.Known.{Known, view_by};

use crate::changed::parts_changed;
use crate::compare::Compare;
use crate::decode::Decode;
use crate::parts::Parts;
use crate::room::{first_parts, grow, make_room};
use crate::words::copy_changed;
use std::alloc::{AllocError, Global};
use std::marker::Model;
use std::sync::ledger::Ledger;
use vyrd_base::Steps;

/// The table is made for the places of this many parts at most.
const MOST_PARTS: usize = 4096;

/// The words of a structure and a specification's amounts, and where they differ. A changed word
/// costs its part, which is decoded again, and a changed amount costs one step. Words behind the
/// last part that has changed take no room; a part is decoded once when it gets room, which isn't
/// counted.
///
/// The only error of its calls is that memory has run out. Then the value may only be dropped.
#[derive(Drop)]
pub struct ByParts<D: Decode> {
    decoder: D,
    /// How many parts have room for their words and for what they give. All words past them are 0.
    held: usize,
    words: Vec<u64>,
    parts: Parts,
}

impl<D: Decode> Model for ByParts<D> {
    ghost use Rattle.std.specs.Prelude.{◌≡◌, ◌*◌, false};
    ghost use Rattle.vyrd_view.specs.Decoded.{HaveRoom, padded};
    ghost use Rattle.vyrd_view.specs.Known.{Known};

    ghost Value = { Known };

    ghost view = { λ c. record {
      shows = D.shows c.decoder;
      count = D.parts c.decoder * D.width c.decoder;
      words = padded (D.parts c.decoder * D.width c.decoder) c.words.items;
      specified = c.parts.specified;
      refused = c.parts.refused;
    } };

    ghost invariant = { λ c. c.parts.refused ≡ false
        → HaveRoom (D.width c.decoder) (D.places c.decoder) (D.parts c.decoder) c.held
        (D.gives c.decoder) c.words.items c.parts.pairs };
}

impl<D: Decode> ByParts<D> {
    /// Zeroed words against an empty specification. It takes memory for 64 parts at most: 8 bytes
    /// for each word, 16 for each place, and 24 for each of 78 places of two tables. Later calls
    /// take as much for each word and each place up to the last part that a changed word is in, or
    /// up to twice that; for the table that grows with the keys, up to 48 to 96 bytes for each place
    /// of the parts, or of 4,096 parts if there are more; and what the ordered maps of the tables
    /// take of each key that finds no place there.
    pub fn new(alloc: Global, decoder: D) -> Result<ByParts<D>, AllocError>
        ensures { IfOk result (λ c. c ≡ record {
          shows = D.shows decoder;
          count = D.parts decoder * D.width decoder;
          words = replicate (D.parts decoder * D.width decoder) 0;
          specified = [];
          refused = false;
        }) }
    {
        let held = first_parts(decoder.parts());
        let keys = decoder.parts().min(MOST_PARTS) * decoder.places();
        let mut words = Vec::with_capacity(alloc, held * decoder.width())?;
        let pairs = Vec::with_capacity(alloc, held * decoder.places())?;
        let mut parts = Parts::new(alloc, pairs, keys)?;
        grow(&decoder, 0, held, &mut words, &mut parts)?;
        Ok(ByParts {
            decoder,
            held,
            words,
            parts,
        })
    }

    /// These are the words now. Outside `changed` they are those of the last call, or 0 if there
    /// was none; in `changed` a word may stand more than once.
    pub fn words_changed<L: Ledger>(
        &mut self,
        words: &[u64],
        changed: &[u32],
        steps: &mut Steps<L>,
    ) -> Result<(), AllocError>
        requires sound { self.old.refused ≡ false }
        requires count { length words.now ≡ self.old.count }
        requires within { All (λ w. w < self.old.count) changed.now }
        requires elsewhere { AgreeElsewhere self.old.words words.now changed.now }
        ensures ok { OnOk result (self.new ≡ record self.old { words = words.now }) }
        ensures refused { self.new.refused ≡ is_err result }
        ensures shows { self.new.shows ≡ self.old.shows }
        ensures count { self.new.count ≡ self.old.count }
        ensures steps { steps.new
            ≤ steps.old + length changed.now * (1 + 2 * D.most_places self.old.shows) }
    {
        self.held = make_room(
            &self.decoder,
            self.held,
            &mut self.words,
            &mut self.parts,
            changed,
        )?;
        let front = self.words.len();
        copy_changed(&mut self.words, &words[..front], changed);
        parts_changed(
            &self.decoder,
            &mut self.parts,
            self.held,
            words,
            changed,
            steps,
        )
    }

    /// The specification has this amount of the key now; 0 says that the key isn't there.
    pub fn spec_changed<L: Ledger>(
        &mut self,
        key: u64,
        amount: u64,
        steps: &mut Steps<L>,
    ) -> Result<(), AllocError>
        requires { self.old.refused ≡ false }
        ensures ok { OnOk result
            (self.new ≡ record self.old { specified = with_amount self.old.specified key amount }) }
        ensures refused { self.new.refused ≡ is_err result }
        ensures shows { self.new.shows ≡ self.old.shows }
        ensures count { self.new.count ≡ self.old.count }
        ensures steps { steps.new ≤ steps.old + 1 }
    {
        self.parts.specify(key, amount, steps)
    }

    /// The least key at which the words and the specification differ, or none if they are equal. If
    /// they are equal, it takes constant time. Otherwise it goes through all keys, and takes no
    /// memory.
    #[inline(always)]
    pub fn first_difference(&self) -> Option<u64>
        requires { self.now.refused ≡ false }
        ensures { result
            ≡ first_difference (view_by self.now.shows self.now.words) self.now.specified }
    {
        self.parts.first_difference()
    }

    /// Whether memory was refused. Then the value may only be dropped.
    pub fn refused(&self) -> bool
        ensures { result ≡ self.now.refused }
    {
        self.parts.refused()
    }
}

impl<D: Decode> Compare for ByParts<D> {
    ghost use Rattle.std.specs.Prelude.{◌+◌, ◌*◌};

    ghost known = { λ c. c };

    ghost price = { λ shows word. 1 + 2 * D.most_places shows };

    fn words_changed<L: Ledger>(
        &mut self,
        words: &[u64],
        changed: &[u32],
        steps: &mut Steps<L>,
    ) -> Result<(), AllocError> {
        self.words_changed(words, changed, steps)
    }

    fn spec_changed<L: Ledger>(
        &mut self,
        key: u64,
        amount: u64,
        steps: &mut Steps<L>,
    ) -> Result<(), AllocError> {
        self.spec_changed(key, amount, steps)
    }

    #[inline(always)]
    fn first_difference(&self) -> Option<u64> {
        self.first_difference()
    }

    fn refused(&self) -> bool {
        self.refused()
    }
}
