//! The check of a history's blocks, event by event.

ghost use Rattle.std.specs.Prelude.{◌≡◌, ℕ, ◌∷◌, ◌++◌, List, [], length, IfOk, OnOk, OnErr, Ok};
ghost use Rattle.vyrd_base.specs.declared.history.Stamped.{Stamped};
ghost use Rattle.vyrd_base.specs.Histories.{cells_of};
ghost use Rattle.vyrd_mover.specs.declared.blocks.Blocks.TheVariants.{Reducible};
ghost use Rattle.vyrd_mover.specs.Blocks.{blocks_of};
ghost use Rattle.vyrd_mover.specs.Gathering.{EachIsGathered};
ghost use Rattle.vyrd_mover.specs.Taking.{HasTaken, IsNext, CanTake};

use crate::blocks::Blocks;
use crate::step::Step;
use crate::survey::Survey;
use crate::uses::Uses;
use std::alloc::{AllocError, Global};
use std::marker::Model;
use vyrd_base::{Header, Stamped};

/// Takes in a legal history event by event, and says then whether its blocks are reducible
/// (Lipton, CACM 1975).
///
/// It keeps 4 bytes of each event: neither values nor the numbers of locks matter for the answer.
/// Besides that its memory is in proportion to the cells and the callers of the header, with a bit
/// for each lock and each caller, and one for each lock and each plain cell that is used.
#[derive(Drop)]
pub struct BlockChecker {
    alloc: Global,
    header: Header,
    uses: Uses,
    /// The code of each event's step.
    codes: Vec<u32>,
}

impl Model for BlockChecker {
    ghost use Rattle.std.specs.Prelude.{map};
    ghost use Rattle.vyrd_mover.specs.Steps.{step_coded};
    ghost use Rattle.vyrd_mover.specs.Taking.{Taken, HasTakenSome};

    ghost Value = { Taken };

    ghost view = { λ c. record {
      header = c.header;
      uses = c.uses;
      steps = map step_coded c.codes.items;
    } };

    ghost invariant = { λ c. HasTakenSome (record {
      header = c.header;
      uses = c.uses;
      steps = map step_coded c.codes.items;
    }) };
}

impl BlockChecker {
    /// Nothing was taken in. The only error is out of memory.
    pub fn new(alloc: Global, header: Header) -> Result<BlockChecker, AllocError>
        ensures header { IfOk result (λ c. c.header ≡ header) }
        ensures taken { IfOk result (λ c. HasTaken c []) }
    {
        Ok(BlockChecker {
            alloc,
            header,
            uses: Uses::new(
                alloc,
                header.callers(),
                header.plain_words(),
                header.lock_words(),
            )?,
            codes: Vec::new(alloc),
        })
    }

    /// How many events were taken in.
    pub fn len(&self) -> usize
        ensures { result ≡ length self.now.steps }
    {
        self.codes.len()
    }

    /// Takes in one more event, which is legal after those so far.
    ///
    /// The only error is out of memory, and it leaves the checker unchanged. An event takes
    /// constant time, except that a read or write looks at all locks of the header, 64 at a time:
    /// that is 17 words at most, however many locks are held.
    pub fn take(&mut self, event: &Stamped) -> Result<(), AllocError>
        requires legal { CanTake self.old event.now }
        ensures taken { (history : List Stamped) → HasTaken self.old history
            → IsNext self.old.header history event.now
            → OnOk result (HasTaken self.new (history ++ event.now ∷ [])) }
        ensures header { self.new.header ≡ self.old.header }
        ensures err { OnErr result (self.new ≡ self.old) }
    {
        self.codes.reserve(1)?;
        self.uses.follow(event)?;
        self.codes.push_reserved(Step::of(event).code());
        Ok(())
    }

    /// Whether each block that ends in the history that was taken in is reducible, or which of
    /// those that aren't is opened first.
    ///
    /// If the answer is `Reducible`, each block that ends can be gathered: in some legal history
    /// each caller does the same, and all that the block's caller does from its open to its end
    /// stands side by side. That a block isn't reducible says nothing of whether it is atomic.
    ///
    /// The only error is out of memory. The events are gone through once more, from the last to the
    /// first, each in constant time.
    pub fn answer(&self) -> Result<Blocks, AllocError>
        ensures blocks { (history : List Stamped) → HasTaken self.now history
            → IfOk result (λ blocks. blocks ≡ blocks_of (cells_of self.now.header) history) }
        ensures gathered { (history : List Stamped) → HasTaken self.now history → (n : ℕ)
            → result ≡ Ok (Reducible n) → EachIsGathered (cells_of self.now.header) history }
    {
        let survey = Survey::of(self.alloc, self.header, &self.uses, &self.codes)?;
        Ok(survey.answer())
    }
}
