//! Values from outside: the limits of a header, its words and methods at one header for each
//! subject, and devices call by call.

ghost use Rattle.std.specs.Prelude.{◌≡◌, IfOk};

use std::alloc::{AllocError, Global};
use std::io;
use std::io::Cursor;
use std::test::Fail;
use vyrd_base::{
    AmountMap, Args, BuffersMethod, CacheMethod, Failed, Gate, Header, MemorySink, MemorySource,
    Method, MultisetMethod, OpenGate, Sink, Source, StdSink, StdSource, Subject, TreeMethod, View,
};

/// A header's version, size and callers, and whether there is such a header of a tree.
type Limits = ((u32, u32, u32), bool);

const LIMITS: &[Limits] = &[
    ((1, 1, 1), true),
    ((1, 1024, 64), true),
    ((0, 1, 1), false),
    ((2, 1, 1), true),
    ((3, 1, 1), false),
    ((1, 0, 1), false),
    ((1, 1025, 1), false),
    ((1, 1, 0), false),
    ((1, 1, 65), false),
];

#[test]
fn limits_of_the_header(rt: HostRuntime) {
    for (row, (limits, want)) in LIMITS.iter().enumerate() {
        assert!(rt; is_header(*limits) == *want, "row {row}");
    }
}

/// Whether there is such a header of a tree.
fn is_header((version, size, callers): (u32, u32, u32)) -> bool {
    Header::new(version, Subject::Tree, size, callers).is_some()
}

/// A subject, and how many plain words and locks it has at size 3.
type Numbers = (Subject, u32, u32);

const NUMBERS: &[Numbers] = &[
    (Subject::Multiset, 24, 3),
    (Subject::Cache, 15, 3),
    (Subject::Tree, 38, 5),
    (Subject::Buffers, 24, 3),
];

#[test]
fn numbers_of_the_header(rt: HostRuntime) {
    for (row, (subject, plain, locks)) in NUMBERS.iter().enumerate() {
        assert!(rt; has_numbers(*subject, *plain, *locks), "row {row}");
    }
}

/// Whether a header of size 3 with two callers says what it was made of, and has these words.
fn has_numbers(subject: Subject, plain: u32, locks: u32) -> bool {
    match Header::new(1, subject, 3, 2) {
        Some(header) => {
            says_its_parts(header, subject)
                && header.plain_words() == plain
                && header.lock_words() == locks
        }
        None => false,
    }
}

/// Whether the header is of version 1, of this subject, of size 3 and of two callers.
fn says_its_parts(header: Header, subject: Subject) -> bool {
    header.version() == 1
        && header.size() == 3
        && header.callers() == 2
        && header.subject() == subject
}

/// A subject, a call with its arguments, and whether it fits a header of size 3.
type Fits = (Subject, Method, (u32, u32, u32), bool);

const FITS: &[Fits] = &[
    (
        Subject::Multiset,
        Method::Multiset(MultisetMethod::Insert),
        (9, 0, 0),
        true,
    ),
    (
        Subject::Multiset,
        Method::Multiset(MultisetMethod::InsertPair),
        (9, 8, 0),
        true,
    ),
    (
        Subject::Multiset,
        Method::Multiset(MultisetMethod::Insert),
        (9, 8, 0),
        false,
    ),
    (
        Subject::Multiset,
        Method::Tree(TreeMethod::Insert),
        (9, 8, 0),
        false,
    ),
    (
        Subject::Cache,
        Method::Cache(CacheMethod::Write),
        (2, 8, 7),
        true,
    ),
    (
        Subject::Cache,
        Method::Cache(CacheMethod::Write),
        (3, 8, 7),
        false,
    ),
    (
        Subject::Cache,
        Method::Cache(CacheMethod::Read),
        (2, 0, 1),
        false,
    ),
    (
        Subject::Tree,
        Method::Tree(TreeMethod::Insert),
        (9, 8, 0),
        true,
    ),
    (
        Subject::Tree,
        Method::Tree(TreeMethod::Insert),
        (9, 8, 7),
        false,
    ),
    (
        Subject::Tree,
        Method::Tree(TreeMethod::Lookup),
        (9, 0, 0),
        true,
    ),
    (
        Subject::Buffers,
        Method::Buffers(BuffersMethod::Append),
        (2, 254, 0),
        true,
    ),
    (
        Subject::Buffers,
        Method::Buffers(BuffersMethod::Append),
        (2, 255, 0),
        false,
    ),
    (
        Subject::Buffers,
        Method::Buffers(BuffersMethod::Append),
        (3, 254, 0),
        false,
    ),
    (
        Subject::Buffers,
        Method::Buffers(BuffersMethod::AppendFrom),
        (2, 2, 0),
        true,
    ),
    (
        Subject::Buffers,
        Method::Buffers(BuffersMethod::AppendFrom),
        (0, 3, 0),
        false,
    ),
    (
        Subject::Buffers,
        Method::Buffers(BuffersMethod::Cut),
        (2, 4294967295, 0),
        true,
    ),
    (
        Subject::Buffers,
        Method::Buffers(BuffersMethod::Length),
        (2, 1, 0),
        false,
    ),
    (
        Subject::Buffers,
        Method::Buffers(BuffersMethod::Read),
        (3, 0, 0),
        false,
    ),
];

#[test]
fn methods_that_fit(rt: HostRuntime) {
    for (row, (subject, method, args, want)) in FITS.iter().enumerate() {
        assert!(rt; fits(*subject, *method, *args) == Some(*want), "row {row}");
    }
}

/// Whether the call fits a header of size 3.
fn fits(subject: Subject, method: Method, (a, b, c): (u32, u32, u32)) -> Option<bool> {
    let header = Header::new(1, subject, 3, 2)?;
    Some(header.fits(method, Args { a, b, c }))
}

#[test]
fn amounts_by_key(rt: HostRuntime) -> Result<(), Fail> {
    let mut map = AmountMap::new(rt.alloc());
    map.add(7, 2)?;
    map.set(5, 1)?;
    map.set(9, 4)?;
    map.remove(9);
    assert!(rt; map.amount(9) == 0 && map.amount(7) == 2);
    map.take_one(7);
    let view = five_and_seven(rt.alloc())?;
    assert!(rt; view.pairs() == [(5, 1), (7, 1)].as_slice());
    assert!(rt; map.view(rt.alloc())?.pairs() == view.pairs());
    Ok(())
}

/// The view with these two keys, each once.
fn five_and_seven(alloc: Global) -> Result<View, AllocError> {
    let mut view = View::new(alloc);
    view.push(5, 1)?;
    view.push(7, 1)?;
    Ok(view)
}

#[test]
fn read_that_fails(rt: HostRuntime) -> Result<(), Fail> {
    let mut source = MemorySource::new(rt.alloc(), &[1, 2, 3, 4, 5], 2, &[2])?;
    let mut buf = [0; 4];
    let first = source.read(&mut buf);
    assert!(rt; first == Ok(2) && buf == [1, 2, 0, 0]);
    let second = source.read(&mut buf);
    assert!(rt; second == Err(Failed));
    let third = source.read(&mut buf);
    assert!(rt; third == Ok(2) && buf == [3, 4, 0, 0]);
    let fourth = source.read(&mut buf);
    assert!(rt; fourth == Ok(1) && buf == [5, 4, 0, 0]);
    assert!(rt; source.read(&mut buf) == Ok(0));
    Ok(())
}

/// Pieces, and what a sink answers that takes 3 bytes at most of a call.
const WRITTEN: &[(&[u8], Result<usize, Failed>)] = &[
    (&[1, 2, 3, 4, 5], Ok(3)),
    (&[4, 5], Err(Failed)),
    (&[4, 5, 6], Ok(2)),
    (&[6], Err(Failed)),
];

#[test]
fn write_that_fails(rt: HostRuntime) -> Result<(), Fail> {
    let mut sink = MemorySink::new(rt.alloc(), 5, 3, &[2])?;
    for (call, (piece, answer)) in WRITTEN.iter().enumerate() {
        assert!(rt; sink.write(piece) == *answer, "call {call}");
    }
    assert!(rt; sink.taken() == [1, 2, 3, 4, 5].as_slice());
    Ok(())
}

#[test]
fn readers_and_writers(rt: HostRuntime) {
    assert!(rt; reads_all());
    assert!(rt; writes_two(rt.alloc()));
    assert!(rt; writes_until_full());
}

/// Whether a reader is read to its end, into room for two bytes.
fn reads_all() -> bool {
    let mut source = StdSource::new([1, 2, 3].as_slice());
    let mut buf = [0; 2];
    let first = source.read(&mut buf) == Ok(2) && buf == [1, 2];
    let second = source.read(&mut buf) == Ok(1) && buf == [3, 2];
    first && second && source.read(&mut buf) == Ok(0)
}

/// Whether a writer gets two bytes.
fn writes_two(alloc: Global) -> bool {
    let mut kept = Vec::new(alloc);
    let written = StdSink::new(&mut kept).write(&[1, 2]);
    written == Ok(2) && kept.as_slice() == [1, 2].as_slice()
}

/// Whether a writer that takes no byte, since its two places are full, is a failure.
fn writes_until_full() -> bool {
    let mut full = StdSink::new(Cursor::new([0; 2]));
    let first = full.write(&[1, 2, 3]);
    first == Ok(2) && full.write(&[3]) == Err(Failed)
}

/// A stream whose first call ends with this kind of error, and whose later calls take or give a
/// byte.
#[derive(Drop)]
struct FirstFails {
    kind: io::ErrorKind,
    calls: usize,
}

impl FirstFails {
    fn answer(&mut self) -> io::Result<usize>
        ensures { IfOk result (λ n. n ≡ 1) }
    {
        self.calls = self.calls.saturating_add(1);
        if self.calls == 1 {
            return Err(io::Error::from(self.kind));
        }
        Ok(1)
    }
}

impl io::Read for FirstFails {
    fn read(&mut self, buf: &mut [u8]) -> io::Result<usize> {
        if buf.is_empty() {
            return Ok(0);
        }
        self.answer()
    }
}

impl io::Write for FirstFails {
    fn write(&mut self, piece: &[u8]) -> io::Result<usize> {
        if piece.is_empty() {
            return Ok(0);
        }
        self.answer()
    }

    fn flush(&mut self) -> io::Result<()> {
        Ok(())
    }
}

/// Kinds of errors that aren't a signal's.
const ERRORS: [io::ErrorKind; 4] = [
    io::ErrorKind::BrokenPipe,
    io::ErrorKind::ConnectionReset,
    io::ErrorKind::TimedOut,
    io::ErrorKind::WouldBlock,
];

/// A stream's failed call is the device's, and isn't made again.
#[test]
fn first_call_that_fails(rt: HostRuntime) {
    for kind in ERRORS {
        let read = read_twice(FirstFails { kind, calls: 0 });
        assert!(rt; read == (Err(Failed), 1, Ok(1)));
        let written = write_twice(FirstFails { kind, calls: 0 });
        assert!(rt; written == (Err(Failed), 1, Ok(1)));
    }
}

/// A call that a signal broke off is no failure: it is made again.
#[test]
fn first_call_that_a_signal_breaks_off(rt: HostRuntime) {
    let kind = io::ErrorKind::Interrupted;
    let read = read_twice(FirstFails { kind, calls: 0 });
    assert!(rt; read.0 == Ok(1) && read.1 == 2);
    let written = write_twice(FirstFails { kind, calls: 0 });
    assert!(rt; written.0 == Ok(1) && written.1 == 2);
}

/// What a call answers, how often it called the stream, and what another call answers.
type Twice = (Result<usize, Failed>, usize, Result<usize, Failed>);

/// Two reads of this stream, the second if the first didn't end it.
fn read_twice(stream: FirstFails) -> Twice {
    let mut source = StdSource::new(stream);
    let first = source.read(&mut [0; 4]);
    let calls = source.inner.calls;
    if first == Ok(0) {
        return (first, calls, first);
    }
    (first, calls, source.read(&mut [0; 4]))
}

/// Two writes to this stream.
fn write_twice(stream: FirstFails) -> Twice {
    let mut sink = StdSink::new(stream);
    let first = sink.write(&[1, 2]);
    let calls = sink.inner.calls;
    (first, calls, sink.write(&[1, 2]))
}

#[test]
fn open_gate(rt: HostRuntime) {
    assert!(rt; OpenGate.may_start(0, 0) && OpenGate.may_start(63, u64::MAX));
}
