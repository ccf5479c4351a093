//! A list with two ends.

ghost use Rattle.std.specs.Prelude.{◌≡◌, ◌+◌, ◌<◌, ◌≤◌, ◌++◌, [], ◌∷◌, OnOk, length};
ghost use Rattle.vyrd_base.specs.Own.Expressions.{first_of, last_of};
ghost use Rattle.vyrd_base.specs.Own.Steps.{without_first, without_last};

use std::alloc::{AllocError, Global};
use std::collections::VecDeque;
use std::marker::Model;

/// A list that grows and shrinks at both ends, each in constant time. It keeps the memory of its
/// greatest length, and no more than twice that.
#[derive(Drop)]
pub struct Queue {
    items: VecDeque<u64>,
}

impl Model for Queue {
    ghost use Rattle.std.specs.Prelude.{◌-◌};
    ghost use Rattle.std.specs.VecDeque.{deque_capacity, deque_len};
    ghost use Rattle.vyrd_own.specs.Queues.{Queued};

    ghost Value = { Queued };

    ghost view = { λ q.
        record { items = q.items.items; room = deque_capacity q.items - deque_len q.items } };
}

impl Queue {
    /// The empty list.
    pub fn new(alloc: Global) -> Queue
        ensures { result.items ≡ [] }
    {
        Queue {
            items: VecDeque::new(alloc),
        }
    }

    /// The first, or the greatest number.
    #[inline(always)]
    pub fn first(&self) -> u64
        ensures { result ≡ first_of self.now.items }
    {
        match self.items.front() {
            Some(item) => *item,
            None => u64::MAX,
        }
    }

    /// The last, or the greatest number.
    #[inline(always)]
    pub fn last(&self) -> u64
        ensures { result ≡ last_of self.now.items }
    {
        match self.items.back() {
            Some(item) => *item,
            None => u64::MAX,
        }
    }

    /// How many there are.
    #[inline(always)]
    pub fn size(&self) -> u64
        ensures { result ≡ length self.now.items }
    {
        self.items.len() as u64
    }

    /// Makes room for that many more, or leaves it as it was.
    #[inline(always)]
    pub fn reserve(&mut self, more: usize) -> Result<(), AllocError>
        ensures items { self.new.items ≡ self.old.items }
        ensures kept { self.old.room ≤ self.new.room }
        ensures room { OnOk result (more ≤ self.new.room) }
    {
        self.items.reserve(more)
    }

    /// One more at the end, for which there is room.
    #[inline(always)]
    pub fn append(&mut self, item: u64)
        requires { 0 < self.old.room }
        ensures items { self.new.items ≡ self.old.items ++ item ∷ [] }
        ensures room { self.old.room ≤ self.new.room + 1 }
    {
        match self.items.push_back(item) {
            Ok(()) => {}
            Err(_) => unreachable!(),
        }
    }

    /// One more at the front, for which there is room.
    #[inline(always)]
    pub fn prepend(&mut self, item: u64)
        requires { 0 < self.old.room }
        ensures items { self.new.items ≡ item ∷ self.old.items }
        ensures room { self.old.room ≤ self.new.room + 1 }
    {
        match self.items.push_front(item) {
            Ok(()) => {}
            Err(_) => unreachable!(),
        }
    }

    /// Without the first.
    #[inline(always)]
    pub fn drop_first(&mut self)
        ensures items { self.new.items ≡ without_first self.old.items }
        ensures room { self.old.room ≤ self.new.room }
    {
        self.items.pop_front();
    }

    /// Without the last.
    #[inline(always)]
    pub fn drop_last(&mut self)
        ensures items { self.new.items ≡ without_last self.old.items }
        ensures room { self.old.room ≤ self.new.room }
    {
        self.items.pop_back();
    }

    /// Empty again.
    pub fn clear(&mut self)
        ensures items { self.new.items ≡ [] }
        ensures room { self.old.room ≤ self.new.room }
    {
        self.items.clear();
    }
}
