//! A traced memory that is closed.

ghost use Rattle.std.specs.Prelude.{◌≡◌, ℕ, ◌+◌, ◌/◌, ◌<◌, ◌≤◌, length, true, [], slice_index};
ghost use Rattle.std.specs.Prelude.{IfOk, IfErr, vec_len, vec_capacity};
ghost use Rattle.std.specs.List.{All, sum_by};
ghost use Rattle.std.specs.Slots.{slots_items, slots_len, IsFull};
ghost use Rattle.vyrd_base.specs.Histories.{is_legal};
ghost use Rattle.vyrd_base.specs.Parts.{part};
ghost use Rattle.vyrd_trace.specs.Lanes.{cells_in, last_values};
ghost use Rattle.vyrd_trace.specs.Hands.{AreAll, most_events};
ghost use Rattle.vyrd_trace.specs.Closing.{HasHistory};

use crate::board::Board;
use crate::hand::Hand;
use crate::merge::merge;
use crate::traced::Traced;
use std::alloc::Global;
use vyrd_base::{Did, Kind, Stamped};

/// What a traced memory leaves: the history of all events, in the order of their numbers, and the
/// last values, those of the plain cells and then those of the locks.
#[derive(Drop)]
pub struct Closed {
    pub history: Vec<Stamped>,
    pub words: Vec<u64>,
}

/// There was no memory to end or to close it. Everything comes back as it was.
#[derive(Drop)]
pub struct Unclosed {
    pub traced: Traced,
    pub hands: Vec<Hand>,
}

/// An event that holds a place until the right one is written over it.
fn blank() -> Stamped {
    Stamped {
        number: 0,
        caller: 0,
        did: Did::Marked(Kind::Commit),
    }
}

/// How many events the hands have made.
fn count_all(hands: &[Hand]) -> usize
    requires limit { All (λ h. h.limit ≤ most_events) hands.now }
    requires few { length hands.now ≤ 64 }
    ensures { result ≡ sum_by (λ h. length h.lane) hands.now }
{
    let mut total = 0;
    for hand in hands {
        total += hand.made() as usize;
    }
    total
}

/// The halves of the cells' words, which are the cells' values if no hand has claimed one.
fn halve_words(closed: &atomic_table::Closed<(), Global>, cells: usize, words: &mut Vec<u64>)
    requires closed { IsFull closed.now.words × (slots_len closed.now.words ≡ 1 + cells) }
    requires room { (words.old.items ≡ []) × (cells ≤ vec_capacity words.old) }
    ensures { (vec_len words.new ≡ cells) × ((k : ℕ) → k < cells
        → slice_index words.new.items k ≡ slice_index (slots_items closed.now.words) (k + 1) / 2) }
{
    for k in 0..cells {
        words.push_reserved(closed.word(k + 1) / 2);
    }
}

impl Traced {
    /// Ends the sharing, and puts the lanes together. `hands` are all hands of this memory, in the
    /// order of their callers, and keep all their events.
    ///
    /// It takes memory for the whole history and for the last values, and is `Unclosed` only if
    /// there was none. The time is linear in the events and the cells.
    pub fn close(self, hands: Vec<Hand>) -> Result<Closed, Unclosed>
        requires all { AreAll self hands.items }
        requires kept { All (λ h. h.forgotten ≡ 0) hands.items }
        ensures legal { IfOk result
            (λ closed. is_legal (cells_in self.plan) closed.history.items ≡ true) }
        ensures parts { IfOk result (λ closed.
            All (λ hand. part hand.caller closed.history.items ≡ hand.lane) hands.items) }
        ensures words { IfOk result
            (λ closed. closed.words.items ≡ last_values self.plan closed.history.items) }
        ensures unclosed { IfErr result
            (λ left. (left.traced ≡ self) × (left.hands.items ≡ hands.items)) }
    {
        let total = count_all(hands.as_slice());
        let Ok(mut history) = Vec::from_elem(self.board.alloc, blank(), total) else {
            return Err(Unclosed {
                traced: self,
                hands,
            });
        };
        merge(history.as_mut_slice(), hands.as_slice());
        let words = self.end(hands)?;
        Ok(Closed { history, words })
    }

    /// Ends the sharing as `close` does, of hands that may have forgotten their events, and hands
    /// out the last values alone. It takes memory for these, and none for lanes.
    pub fn end(self, hands: Vec<Hand>) -> Result<Vec<u64>, Unclosed>
        requires { AreAll self hands.items }
        ensures history { IfOk result
            (λ words. HasHistory self.plan hands.items words.items) }
        ensures unclosed { IfErr result
            (λ left. (left.traced ≡ self) × (left.hands.items ≡ hands.items)) }
    {
        let cells = self.board.table.word_count() - 1;
        let Ok(mut words) = Vec::with_capacity(self.board.alloc, cells) else {
            return Err(Unclosed {
                traced: self,
                hands,
            });
        };
        let Traced { board } = self;
        let seat = board.gather_all(hands);
        let Board { alloc: _, table } = board;
        let closed = table.close_with(seat);
        halve_words(&closed, cells, &mut words);
        closed.free();
        Ok(words)
    }
}
