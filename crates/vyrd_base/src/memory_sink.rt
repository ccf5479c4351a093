//! A sink in memory.

ghost use Rattle.std.specs.Prelude.{◌≡◌, ◌-◌, ◌<◌, ◌≤◌, min, [], length, IfOk, OnErr, is_err};
ghost use Rattle.vyrd_base.specs.Devices.{Takes, AfterWrites, memory_sink, next_count, write_fails};

use crate::calls::Calls;
use crate::device::{Failed, Sink};
use std::alloc::{AllocError, Global};
use std::marker::Model;

/// A sink that keeps what it takes in memory, in writes that can be cut short and made to fail.
#[derive(Debug, Drop)]
pub struct MemorySink {
    taken: Vec<u8>,
    room: usize,
    cut: usize,
    /// How many bytes were taken when a write last failed, which contracts see as those bytes.
    left_off: usize,
    calls: Calls,
}

impl Model for MemorySink {
    ghost use Rattle.std.specs.Prelude.{◌<◌, ◌≤◌, length, take, vec_capacity};
    ghost use Rattle.vyrd_base.specs.Devices.{SinkState};

    ghost Value = { SinkState };

    ghost view = { λ s. record {
      taken = s.taken.items;
      room = s.room;
      cut = s.cut;
      left_off = take s.left_off s.taken.items;
      made = s.calls.made;
      failing = s.calls.failing.items;
      faults = s.calls.faults;
    } };

    ghost invariant = { λ s. (s.left_off ≤ length s.taken.items) × (length s.taken.items ≤ s.room)
        × (s.room ≤ vec_capacity s.taken) × (0 < s.cut) };
}

impl MemorySink {
    /// A sink that takes at most `room` bytes in all and at most `cut` in each write. Writes are
    /// numbered from 1 to 2^64 - 1, which every later write keeps as its number. Those named in
    /// `failing` fail, and so does one that finds no room left. `cut` is at least 1. All of its
    /// memory is taken here, and a write takes none. The only error is out of memory.
    pub fn new(
        alloc: Global,
        room: usize,
        cut: usize,
        failing: &[u64],
    ) -> Result<MemorySink, AllocError>
        requires { 0 < cut }
        ensures taken { IfOk result (λ s. s.taken ≡ []) }
        ensures room { IfOk result (λ s. s.room ≡ room) }
        ensures cut { IfOk result (λ s. s.cut ≡ cut) }
        ensures made { IfOk result (λ s. s.made ≡ 0) }
        ensures failing { IfOk result (λ s. s.failing ≡ failing.now) }
        ensures faults { IfOk result (λ s. s.faults ≡ 0) }
    {
        Ok(MemorySink {
            taken: Vec::with_capacity(alloc, room)?,
            room,
            cut,
            left_off: 0,
            calls: Calls::new(alloc, failing)?,
        })
    }

    /// The bytes that it has taken.
    pub fn taken(&self) -> &[u8]
        ensures { result.now ≡ self.now.taken }
    {
        &self.taken
    }
}

impl Sink for MemorySink {
    ghost known = { memory_sink };

    fn write(&mut self, piece: &[u8]) -> Result<usize, Failed>
        requires { 0 < length piece.now }
        ensures taken { IfOk result
            (λ n. Takes (memory_sink self.old) n piece.now (memory_sink self.new)) }
        ensures size { IfOk result (λ n. n
            ≡ min (min (length piece.now) self.old.cut) (self.old.room - length self.old.taken)) }
        ensures kept { OnErr result (self.new.taken ≡ self.old.taken) }
        ensures sink { AfterWrites (is_err result)
            (length piece.now ≤ (memory_sink self.old).sure_room) (memory_sink self.old)
            (memory_sink self.new) }

        // It fails exactly when it finds no room, or when the number of this write is one of those
        // that were given.
        ensures fails { is_err result ≡ write_fails self.old }
        ensures made { self.new.made ≡ next_count self.old.made }
        ensures failing { self.new.failing ≡ self.old.failing }
        ensures room { self.new.room ≡ self.old.room }
        ensures cut { self.new.cut ≡ self.old.cut }
    {
        let left = self.room - self.taken.len();
        if self.calls.next_fails() || left == 0 {
            self.left_off = self.taken.len();
            return Err(self.calls.fault());
        }
        let n = piece.len().min(self.cut).min(left);
        self.taken.extend_from_slice(&piece[..n]).unwrap();
        Ok(n)
    }
}
