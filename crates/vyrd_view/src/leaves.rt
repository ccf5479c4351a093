//! The words of a tree against the specification, by the chain of its leaves.

ghost use Rattle.std.specs.Prelude.{◌≡◌, ◌+◌, ◌*◌, ◌/◌, ◌<◌, ◌≤◌, [], false, length, replicate};
ghost use Rattle.std.specs.Prelude.{All, IfOk, OnOk, is_err};
ghost use Rattle.vyrd_base.specs.declared.subject.Subject.TheVariants.{Tree};
ghost use Rattle.vyrd_base.specs.Amounts.{with_amount, first_difference};
ghost use Rattle.vyrd_view.specs.Comparing.{AgreeElsewhere, differing, nodes_looked_at};
ghost use Rattle.vyrd_view.specs.Known.{of_subject, view_by};

use crate::parts::Parts;
use crate::tree::{ENTRIES, NODE_WORDS, leaves_changed};
use crate::words::copy_changed;
use std::alloc::{AllocError, Global};
use std::marker::Model;
use std::sync::ledger::Ledger;
use vyrd_base::Steps;

/// How many words a tree has besides its nodes: the root's number, and the count of nodes in use.
const TREE_WORDS: usize = 2;

/// The words of a tree and a specification's amounts, and where they differ. A word that holds
/// another value than at the last comparison costs its node, if that is on the chain of leaves. A
/// right link among these costs a walk of the chain, and the nodes that come to it or leave it.
#[derive(Drop)]
pub(crate) struct Leaves {
    words: Vec<u64>,
    parts: Parts,
    /// The nodes on the chain of leaves.
    marks: Vec<bool>,
    /// Room to walk the chain again.
    next: Vec<bool>,
}

impl Model for Leaves {
    ghost use Rattle.std.specs.Prelude.{◌≡◌, false, length};
    ghost use Rattle.vyrd_base.specs.declared.subject.Subject.TheVariants.{Tree};
    ghost use Rattle.vyrd_view.specs.Chained.{HasNodes, IsWalked};
    ghost use Rattle.vyrd_view.specs.Known.{Known, of_subject};

    ghost Value = { Known };

    ghost view = { λ t. record {
      shows = of_subject Tree (length t.marks.items);
      count = length t.words.items;
      words = t.words.items;
      specified = t.parts.specified;
      refused = t.parts.refused;
    } };

    ghost invariant = { λ t. HasNodes t.words.items t.marks.items t.next.items
        × (t.parts.refused ≡ false → IsWalked t.words.items t.parts.pairs t.marks.items) };
}

impl Leaves {
    /// A tree of that many zeroed nodes against an empty specification.
    pub(crate) fn new(alloc: Global, size: usize) -> Result<Leaves, AllocError>
        requires some { 0 < size }
        requires small { size ≤ 1024 }
        ensures { IfOk result (λ t. t ≡ record {
          shows = of_subject Tree size;
          count = 12 * size + 2;
          words = replicate (12 * size + 2) 0;
          specified = [];
          refused = false;
        }) }
    {
        let mut marks = vec![in alloc; false; size]?;
        marks[0] = true;
        let places = ENTRIES * size + 1;
        let pairs = vec![in alloc; (0, 0); places]?;
        Ok(Leaves {
            words: vec![in alloc; 0; NODE_WORDS * size + TREE_WORDS]?,
            parts: Parts::new(alloc, pairs, places)?,
            marks,
            next: vec![in alloc; false; size]?,
        })
    }

    /// These are the words now. Outside `changed` they are those of the last call, or 0 if there
    /// was none; in `changed` a word may stand more than once.
    pub(crate) fn words_changed<L: Ledger>(
        &mut self,
        words: &[u64],
        changed: &[u32],
        steps: &mut Steps<L>,
    ) -> Result<(), AllocError>
        requires sound { self.old.refused ≡ false }
        requires count { length words.now ≡ self.old.count }
        requires within { All (λ w. w < self.old.count) changed.now }
        requires elsewhere { AgreeElsewhere self.old.words words.now changed.now }
        ensures ok { OnOk result (self.new ≡ record self.old { words = words.now }) }
        ensures refused { self.new.refused ≡ is_err result }
        ensures shows { self.new.shows ≡ self.old.shows }
        ensures count { self.new.count ≡ self.old.count }
        ensures steps { steps.new ≤ steps.old
            + 9
            * nodes_looked_at (self.old.count / 12)
            (differing self.old.words words.now changed.now)
            + 2 }
    {
        leaves_changed(
            &mut self.parts,
            &mut self.marks,
            &mut self.next,
            &self.words,
            words,
            changed,
            steps,
        )?;
        copy_changed(&mut self.words, words, changed);
        Ok(())
    }

    /// The specification has this amount of the key now; 0 says that the key isn't there.
    pub(crate) fn spec_changed<L: Ledger>(
        &mut self,
        key: u64,
        amount: u64,
        steps: &mut Steps<L>,
    ) -> Result<(), AllocError>
        requires { self.old.refused ≡ false }
        ensures ok { OnOk result
            (self.new ≡ record self.old { specified = with_amount self.old.specified key amount }) }
        ensures refused { self.new.refused ≡ is_err result }
        ensures shows { self.new.shows ≡ self.old.shows }
        ensures count { self.new.count ≡ self.old.count }
        ensures steps { steps.new ≤ steps.old + 1 }
    {
        self.parts.specify(key, amount, steps)
    }

    /// The least key at which the words and the specification differ, or none if they are equal.
    #[inline(always)]
    pub(crate) fn first_difference(&self) -> Option<u64>
        requires { self.now.refused ≡ false }
        ensures { result
            ≡ first_difference (view_by self.now.shows self.now.words) self.now.specified }
    {
        self.parts.first_difference()
    }

    /// Whether memory was refused. Then the value may only be dropped.
    pub(crate) fn refused(&self) -> bool
        ensures { result ≡ self.now.refused }
    {
        self.parts.refused()
    }
}
