//! The traced memory, and how it begins.

ghost use Rattle.std.specs.Prelude.{◌≡◌, ◌+◌, ◌≤◌, IfOk, vec_len};
ghost use Rattle.vyrd_trace.specs.Hands.{AreNew, most_events, most_cells};

use crate::board::Board;
use crate::hand::Hand;
use crate::plan::Plan;
use atomic_table::Table;
use std::alloc::{AllocError, Global};
use std::marker::Model;

/// Cells and locks that hands act on, each in a thread of its own, through a `&`. Every cell begins
/// with 0, and every lock free.
#[derive(Drop)]
pub struct Traced {
    pub(crate) board: Board,
}

impl Model for Traced {
    ghost use Rattle.vyrd_trace.specs.Hands.{TracedView, sharing};

    ghost Value = { TracedView };

    ghost view = { λ t. sharing t.board.table.shared.table_id t.board.table.shared.key };
}

impl Traced {
    /// A memory of `plain` cells, numbered from 0, and `locks` locks, numbered after them, with a
    /// hand for each caller, in the order of the callers. A hand's lane may have at most `limit`
    /// events.
    ///
    /// It takes memory for the cells and the hands, and none for events: `Hand::reserve` does that.
    pub fn new(
        alloc: Global,
        plain: u32,
        locks: u32,
        callers: u32,
        limit: u64,
    ) -> Result<(Traced, Vec<Hand>), AllocError>
        requires callers { (1 ≤ callers) × (callers ≤ 64) }
        requires cells { plain + locks ≤ most_cells }
        requires limit { limit ≤ most_events }
        ensures plan { IfOk result (λ new. new.0.plan
            ≡ record { plain = plain; locks = locks; callers = callers; limit = limit }) }
        ensures count { IfOk result (λ new. vec_len new.1 ≡ callers) }
        ensures hands { IfOk result (λ new. AreNew new.0 0 new.1.items) }
    {
        let plan = Plan {
            plain,
            locks,
            callers,
            limit,
        };
        let mut hands = Vec::with_capacity(alloc, callers as usize)?;
        let words = Vec::from_elem(alloc, 0u64, 1 + (plain as usize + locks as usize))?;
        let (table, mut seat) = Table::of_words(alloc, words.as_slice(), &plan)?;
        let board = Board { alloc, table };
        board.deal_all(callers, limit, &mut seat, &mut hands);
        let first = Hand::fresh(alloc, 0, limit, seat);
        if hands.insert(0, first).is_err() {
            return Err(AllocError);
        }
        Ok((Traced { board }, hands))
    }
}
