//! The blocks of a history, gone through from its end.

ghost use Rattle.std.specs.Prelude.{◌≡◌, ◌^◌, ◌<◌, List, length, map, replicate, None, IfOk};
ghost use Rattle.vyrd_base.specs.declared.history.Stamped.{Stamped};
ghost use Rattle.vyrd_base.specs.Histories.{Cells, cells_of};
ghost use Rattle.vyrd_mover.specs.RaceFree.{is_race_free};
ghost use Rattle.vyrd_mover.specs.Blocks.{said_of};
ghost use Rattle.vyrd_mover.specs.Usage.{HaveSeen};
ghost use Rattle.vyrd_mover.specs.Steps.{step_coded, IsWithin};
ghost use Rattle.vyrd_mover.specs.Taking.{HasTaken, HasTakenSome};
ghost use Rattle.vyrd_mover.specs.Ahead.{HasSurveyed, preceded_by, opened_before, acted_before};
ghost use Rattle.vyrd_mover.specs.Ahead.{ahead_at};

use crate::ahead::Ahead;
use crate::blocks::Blocks;
use crate::step::{Role, Step};
use crate::uses::Uses;
use std::alloc::{AllocError, Global};
use std::marker::Model;
use vyrd_base::Header;

/// What each caller's block has ahead, how many blocks end, and the first that isn't reducible.
#[derive(Drop)]
pub(crate) struct Survey {
    /// By caller: nothing if no block end is ahead.
    ahead: Vec<Option<Ahead>>,
    blocks: u64,
    /// The lines of the block's open and of its break.
    broken: Option<(u64, u64)>,
}

impl Model for Survey {
    ghost use Rattle.vyrd_mover.specs.Ahead.{Surveyed};

    ghost Value = { Surveyed };

    ghost view = { λ s. record { ahead = s.ahead.items; blocks = s.blocks; broken = s.broken } };
}

impl Survey {
    /// Nothing is ahead.
    pub fn new(alloc: Global, callers: u32) -> Result<Survey, AllocError>
        ensures { IfOk result
            (λ s. s ≡ record { ahead = replicate callers None; blocks = 0; broken = None }) }
    {
        Ok(Survey {
            ahead: vec![in alloc; None; callers as usize]?,
            blocks: 0,
            broken: None,
        })
    }

    /// The blocks of the history that was taken in, by the codes of its steps. `uses` has seen it
    /// all, and says which of its cells are race-free.
    pub fn of(
        alloc: Global,
        header: Header,
        uses: &Uses,
        codes: &[u32],
    ) -> Result<Survey, AllocError>
        requires { HasTakenSome (record {
          header = header;
          uses = uses.now;
          steps = map step_coded codes.now;
        }) }
        ensures { (history : List Stamped) → HasTaken (record {
          header = header;
          uses = uses.now;
          steps = map step_coded codes.now;
        }) history
            → IfOk result (λ s. HasSurveyed (is_race_free (cells_of header) history) history s) }
    {
        let mut survey = Survey::new(alloc, header.callers())?;
        for place in (0..codes.len()).rev() {
            survey.precede(uses, place as u64 + 2, Step::coded(codes[place]));
        }
        Ok(survey)
    }

    /// What is said of the blocks.
    pub fn answer(&self) -> Blocks
        ensures { result ≡ said_of self.now.broken self.now.blocks }
    {
        match self.broken {
            None => Blocks::Reducible {
                blocks: self.blocks,
            },
            Some((open_line, at_line)) => Blocks::Broken { open_line, at_line },
        }
    }

    /// One more event, which stands on this line, comes before the others. `uses` says which cells
    /// are race-free.
    pub fn precede(&mut self, uses: &Uses, line: u64, step: Step)
        requires caller { step.caller < length self.old.ahead }
        requires within { IsWithin (length uses.now.cells) step.role }
        requires few { self.old.blocks < 2 ^ 63 }
        ensures { (cells : Cells) (seen : List Stamped) → HaveSeen cells seen uses.now
            → 0 < cells.callers
            → self.new ≡ preceded_by (is_race_free cells seen) self.old line step.caller step.role }
    {
        match step.role {
            Role::Opens => self.open(line, step.caller),
            Role::Ends => {
                self.ahead[step.caller as usize] = Some(Ahead {
                    not_left: None,
                    uncut: None,
                });
            }
            Role::Marks => {}
            Role::Takes => self.act(line, step.caller, false, true),
            Role::Gives => self.act(line, step.caller, true, false),
            Role::Accesses(cell) => {
                let is_free = uses.is_race_free(cell);
                self.act(line, step.caller, is_free, is_free);
            }
        }
    }

    /// The caller opens a block on this line.
    fn open(&mut self, line: u64, caller: u32)
        requires caller { caller < length self.old.ahead }
        requires few { self.old.blocks < 2 ^ 63 }
        ensures { self.new ≡ opened_before self.old line (ahead_at self.old caller) }
    {
        if let Some(ahead) = self.ahead[caller as usize] {
            self.blocks += 1;
            if let Some(at_line) = ahead.uncut {
                self.broken = Some((line, at_line));
            }
        }
    }

    /// The caller's event on this line isn't a mark: a left mover or not, and a right mover or not.
    fn act(&mut self, line: u64, caller: u32, is_left: bool, is_right: bool)
        requires { caller < length self.old.ahead }
        ensures { self.new ≡ acted_before self.old line caller is_left is_right }
    {
        let place = caller as usize;
        if let Some(ahead) = self.ahead[place] {
            self.ahead[place] = Some(ahead.with_line(line, is_left, is_right));
        }
    }
}
