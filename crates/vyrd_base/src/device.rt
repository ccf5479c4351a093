//! What the program reads from, writes to and asks before each event, as traits whose meanings
//! contracts can name.

ghost use Rattle.std.specs.Prelude.{◌≡◌, ◌<◌, ◌≤◌, true, false, length, IfOk, OnErr, is_err};
ghost use Rattle.vyrd_base.specs.Devices.{SourceKnown, Gives, GivesNothing, AfterReads};
ghost use Rattle.vyrd_base.specs.Devices.{SinkKnown, Takes, AfterWrites};

use std::error::Error;
use std::fmt;

/// A read or a write failed. The device has counted it, and the bytes are as they were before the
/// call.
#[derive(Clone, Copy, Debug, PartialEq, Eq)]
pub struct Failed;

impl fmt::Display for Failed {
    fn fmt<W: fmt::Write>(&self, f: &mut fmt::Formatter<W>) -> fmt::Result {
        write!(f, "a read or a write failed")
    }
}

impl Error for Failed {}

/// Where the bytes of an input come from. A read waits for as long as the source does.
pub trait Source {
    /// The bytes that it will still give, whether it has said its end, its count of faults, which
    /// stays at 2^64 - 1, where a read last failed, and whether it is known that none will fail.
    ghost known: { Self → SourceKnown };

    /// Puts the next bytes at the front of `buf`, and says how many they are: from 1 to its length,
    /// or 0 at the input's end, after which the source isn't read again. After `Failed` the bytes
    /// that are still to come are those that were.
    fn read(&mut self, buf: &mut [u8]) -> Result<usize, Failed>
        requires room { 0 < length buf.old }
        requires unended { (known self.old).ended ≡ false }
        ensures given { IfOk result (λ n. Gives (known self.old) n buf.new (known self.new)) }
        ensures kept { OnErr result (GivesNothing (known self.old) (known self.new)) }
        ensures source { AfterReads (is_err result) (known self.old) (known self.new) };
}

/// Where the bytes of an answer go. A write waits for as long as the sink does.
pub trait Sink {
    /// All bytes that it has taken so far, its count of faults, which stays at 2^64 - 1, where a
    /// write last failed, and how many bytes more it is known to take with no fault.
    ghost known: { Self → SinkKnown };

    /// Takes bytes from the front of `piece`, and says how many: from 1 to its length. After
    /// `Failed` it has taken none.
    fn write(&mut self, piece: &[u8]) -> Result<usize, Failed>
        requires { 0 < length piece.now }
        ensures taken { IfOk result (λ n. Takes (known self.old) n piece.now (known self.new)) }
        ensures kept { OnErr result ((known self.new).taken ≡ (known self.old).taken) }
        ensures sink { AfterWrites (is_err result) (length piece.now ≤ (known self.old).sure_room)
            (known self.old) (known self.new) };
}

/// What a live run asks before each event, again and again until the answer is true.
pub trait Gate: Sync {
    /// Whether the caller's next event may start. `place` is the number of events that the caller
    /// has so far.
    ///
    /// While the callers run, the sink of their events is asked for too, as if it were one caller
    /// more: `caller` is then the number of callers, and `place` how many events it has taken in.
    /// It takes events in rounds of 64, and is asked for each of a round, so at most 63 times after
    /// the callers have ended. While a gate holds the sink, no caller waits for it: their events are
    /// kept.
    fn may_start(&self, caller: u32, place: u64) -> bool;
}

/// A gate that lets every event start at once.
#[derive(Clone, Copy, Debug)]
pub struct OpenGate;

impl Gate for OpenGate {
    fn may_start(&self, _caller: u32, _place: u64) -> bool
        ensures { result ≡ true }
    {
        true
    }
}
