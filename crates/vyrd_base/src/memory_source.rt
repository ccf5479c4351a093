//! A source in memory.

ghost use Rattle.std.specs.Prelude.{◌≡◌, ◌<◌, false, min, length, IfOk, OnErr, is_err};
ghost use Rattle.vyrd_base.specs.Devices.{Gives, GivesNothing, AfterReads, memory_source};
ghost use Rattle.vyrd_base.specs.Devices.{next_count, fails_next};

use crate::calls::Calls;
use crate::device::{Failed, Source};
use std::alloc::{AllocError, Global};
use std::marker::Model;

/// A source that gives bytes from memory, in reads that can be cut short and made to fail.
#[derive(Debug, Drop)]
pub struct MemorySource {
    bytes: Vec<u8>,
    given: usize,
    /// How many bytes were given when a read last failed, which contracts see as what was still to
    /// come.
    left_off: usize,
    ended: bool,
    cut: usize,
    calls: Calls,
}

impl Model for MemorySource {
    ghost use Rattle.std.specs.Prelude.{◌<◌, ◌≤◌, length, drop};
    ghost use Rattle.vyrd_base.specs.Devices.{SourceState};

    ghost Value = { SourceState };

    ghost view = { λ s. record {
      rest = drop s.given s.bytes.items;
      cut = s.cut;
      ended = s.ended;
      left_off = drop s.left_off s.bytes.items;
      made = s.calls.made;
      failing = s.calls.failing.items;
      faults = s.calls.faults;
    } };

    ghost invariant = { λ s. (s.given ≤ length s.bytes.items) × (0 < s.cut) };
}

impl MemorySource {
    /// A source of these bytes, of which each read gives at most `cut`. Reads are numbered from 1
    /// to 2^64 - 1, which every later read keeps as its number; those named in `failing` fail.
    /// `cut` is at least 1. The bytes are copied here, and a read takes no memory. The only error
    /// is out of memory.
    pub fn new(
        alloc: Global,
        bytes: &[u8],
        cut: usize,
        failing: &[u64],
    ) -> Result<MemorySource, AllocError>
        requires { 0 < cut }
        ensures rest { IfOk result (λ s. s.rest ≡ bytes.now) }
        ensures cut { IfOk result (λ s. s.cut ≡ cut) }
        ensures ended { IfOk result (λ s. s.ended ≡ false) }
        ensures made { IfOk result (λ s. s.made ≡ 0) }
        ensures failing { IfOk result (λ s. s.failing ≡ failing.now) }
        ensures faults { IfOk result (λ s. s.faults ≡ 0) }
    {
        Ok(MemorySource {
            bytes: Vec::from_slice(alloc, bytes)?,
            given: 0,
            left_off: 0,
            ended: false,
            cut,
            calls: Calls::new(alloc, failing)?,
        })
    }
}

impl Source for MemorySource {
    ghost known = { memory_source };

    fn read(&mut self, buf: &mut [u8]) -> Result<usize, Failed>
        requires room { 0 < length buf.old }
        requires unended { self.old.ended ≡ false }
        ensures given { IfOk result
            (λ n. Gives (memory_source self.old) n buf.new (memory_source self.new)) }
        ensures size { IfOk result
            (λ n. n ≡ min (min (length self.old.rest) self.old.cut) (length buf.old)) }
        ensures kept { OnErr result
            (GivesNothing (memory_source self.old) (memory_source self.new)) }
        ensures source { AfterReads (is_err result) (memory_source self.old)
            (memory_source self.new) }

        // It fails exactly when the number of this read is one of those that were given.
        ensures fails { is_err result ≡ fails_next self.old.made self.old.failing }
        ensures made { self.new.made ≡ next_count self.old.made }
        ensures failing { self.new.failing ≡ self.old.failing }
        ensures cut { self.new.cut ≡ self.old.cut }
    {
        if self.calls.next_fails() {
            self.left_off = self.given;
            return Err(self.calls.fault());
        }
        let (_, rest) = self.bytes.split_at(self.given);
        let n = rest.len().min(self.cut).min(buf.len());
        buf[..n].copy_from_slice(&rest[..n]);
        self.given += n;
        self.ended = n == 0;
        Ok(n)
    }
}
