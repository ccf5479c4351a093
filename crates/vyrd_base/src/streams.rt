//! A source and a sink over std's reader and writer. As devices they tell no bytes; each passes on
//! what its stream says. A call that a signal broke off is made again.

ghost use Rattle.std.specs.Prelude.{◌≡◌, false, IfOk, OnErr, is_err};
ghost use Rattle.std.specs.Io.{ReadsAtMost, WritesAtMost};
ghost use Rattle.std.specs.Io.KnownBytes.{ReadConsumes, WriteAppends};
ghost use Rattle.vyrd_base.specs.Devices.{Gives, GivesNothing, AfterReads, untold_source};
ghost use Rattle.vyrd_base.specs.Devices.{Takes, AfterWrites, untold_sink};

use crate::device::{Failed, Sink, Source};
use std::io;
use std::io::{ErrorKind, Read, Write};

/// A source over a reader. Its bytes are those that the reader tells.
#[derive(Debug, Drop)]
pub struct StdSource<R> {
    /// The reader.
    pub inner: R,
    ended: bool,
    faults: u64,
}

impl<R> StdSource<R> {
    /// A source of what the reader gives, whose end isn't said yet, and with no fault counted.
    pub fn new(inner: R) -> StdSource<R>
        ensures inner { result.inner ≡ inner }
        ensures ended { result.ended ≡ false }
        ensures faults { result.faults ≡ 0 }
    {
        StdSource {
            inner,
            ended: false,
            faults: 0,
        }
    }
}

impl<R: Read> Source for StdSource<R> {
    ghost known = { λ s. untold_source s.ended s.faults };

    /// If the reader tells its bytes, they are what is given. The end is said when the reader gives
    /// no byte.
    fn read(&mut self, buf: &mut [u8]) -> Result<usize, Failed>
        requires unended { self.old.ended ≡ false }
        ensures given { IfOk result (λ n. Gives (untold_source self.old.ended self.old.faults) n
            buf.new (untold_source self.new.ended self.new.faults)) }
        ensures kept { OnErr result (GivesNothing (untold_source self.old.ended self.old.faults)
            (untold_source self.new.ended self.new.faults)) }
        ensures source { AfterReads (is_err result) (untold_source self.old.ended self.old.faults)
            (untold_source self.new.ended self.new.faults) }
        ensures passed { ReadConsumes (R.remaining self.old.inner) (R.remaining self.new.inner)
            result buf.new }
    {
        match read_again(&mut self.inner, buf) {
            Ok(n) => {
                self.ended = n == 0;
                Ok(n)
            }
            Err(_) => {
                self.faults = self.faults.saturating_add(1);
                Err(Failed)
            }
        }
    }
}

/// A sink over a writer. Its bytes are those that the writer tells.
#[derive(Debug, Drop)]
pub struct StdSink<W> {
    /// The writer.
    pub inner: W,
    faults: u64,
}

impl<W> StdSink<W> {
    /// A sink that passes bytes on to the writer, with no fault counted yet.
    pub fn new(inner: W) -> StdSink<W>
        ensures inner { result.inner ≡ inner }
        ensures faults { result.faults ≡ 0 }
    {
        StdSink { inner, faults: 0 }
    }
}

impl<W: Write> Sink for StdSink<W> {
    ghost known = { λ s. untold_sink s.faults };

    /// A writer that takes no byte has failed. If the writer tells its bytes, what is taken is
    /// added to them.
    fn write(&mut self, piece: &[u8]) -> Result<usize, Failed>
        ensures taken { IfOk result
            (λ n. Takes (untold_sink self.old.faults) n piece.now (untold_sink self.new.faults)) }
        ensures sink { AfterWrites (is_err result) ⊥ (untold_sink self.old.faults)
            (untold_sink self.new.faults) }
        ensures passed { WriteAppends (W.contents self.old.inner) (W.contents self.new.inner) result
            piece.now }
    {
        match write_again(&mut self.inner, piece) {
            Ok(n) if n > 0 => Ok(n),
            _ => {
                self.faults = self.faults.saturating_add(1);
                Err(Failed)
            }
        }
    }
}

/// Reads once, and again each time that a signal broke the read off: such a read has taken nothing.
fn read_again<R: Read>(reader: &mut R, buf: &mut [u8]) -> io::Result<usize>
    ensures bound { ReadsAtMost result buf.new }
    ensures bytes { ReadConsumes (R.remaining reader.old) (R.remaining reader.new) result buf.new }
{
    for _ in 0..u64::MAX {
        match reader.read(buf) {
            Err(error) if error.kind() == ErrorKind::Interrupted => {}
            result => return result,
        }
    }
    reader.read(buf)
}

/// Writes once, and again each time that a signal broke the write off: such a write has passed
/// nothing on.
fn write_again<W: Write>(writer: &mut W, piece: &[u8]) -> io::Result<usize>
    ensures bound { WritesAtMost result piece.now }
    ensures bytes { WriteAppends (W.contents writer.old) (W.contents writer.new) result piece.now }
{
    for _ in 0..u64::MAX {
        match writer.write(piece) {
            Err(error) if error.kind() == ErrorKind::Interrupted => {}
            result => return result,
        }
    }
    writer.write(piece)
}
