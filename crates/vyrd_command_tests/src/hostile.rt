//! Inputs that are meant to do harm, devices that fail at each call, and logs at their limit of
//! lines.

use crate::case::{Case, SHORT, assert_each_read, assert_each_write};
use std::alloc::{AllocError, Global};
use std::sync::Wait;
use std::thread::Threads;
use vyrd_base::{MemorySink, MemorySource, OpenGate};
use vyrd_command::check_limited;

/// The most bytes that a sink takes here. No answer is as long.
const ROOM: usize = 128;

const CHECK: &[&str] = &["check"];

const DELETED: &[u8] = b"vyrd 1 multiset 1 1\n0 call delete 5\n0 commit\n0 return 0\nend\n";

const DELETED_NOTHING: &[u8] = b"vyrd 1 multiset 1 1\n0 call delete 5\n0 commit\n0 return 1\nend\n";

const NOT_ALLOWED: &[u8] = b"violation at line 3: reply 1 not allowed\n";

/// An insert that claims what it didn't do.
const UNWRITTEN: Case = Case {
    name: "unwritten",
    words: CHECK,
    input: b"vyrd 1 multiset 1 1\n0 call insert 5\n0 commit\n0 return 1\nend\n",
    devices: SHORT,
    status: 1,
    answer: b"violation at line 3: view differs at key 5\n",
};

/// The log's verdict stands with its fourth read, and a fifth isn't made.
#[test]
fn each_read_fails_once(rt: HostRuntime) {
    assert_each_read(&rt, rt.alloc(), &UNWRITTEN, 4);
}

/// The answer has 43 bytes, so nine writes.
#[test]
fn each_write_fails_once(rt: HostRuntime) {
    assert_each_write(&rt, rt.alloc(), &UNWRITTEN, 9);
}

/// A delete that finds nothing, and says so.
const NOTHING_DELETED: Case = Case {
    name: "log",
    words: CHECK,
    input: DELETED,
    devices: SHORT,
    status: 0,
    answer: b"accepted: 3 entries, 1 commits, 0 observers\n",
};

/// A lookup by turns.
const STEPPED: Case = Case {
    name: "step",
    words: &["step"],
    input: b"work multiset 1 1 correct\nop 0 lookup 5\nend\n",
    devices: SHORT,
    status: 0,
    answer: b"accepted: 2 entries, 0 commits, 1 observers\n",
};

/// The same on a thread.
const RUN: Case = Case {
    name: "run",
    words: &["run"],
    ..STEPPED
};

/// The read after the one that says the end would fail. It isn't made, neither for a log nor for a
/// workload.
#[test]
fn no_read_behind_the_end(rt: HostRuntime) {
    assert_each_read(&rt, rt.alloc(), &NOTHING_DELETED, 5);
    assert_each_read(&rt, rt.alloc(), &STEPPED, 4);
    assert_each_read(&rt, rt.alloc(), &RUN, 4);
}

/// A log, and what is answered to it under a limit of four lines. It has five, so it is malformed
/// if nothing else is wrong, and a violation comes first.
const TOO_LONG: &[(&[u8], u8, &[u8])] = &[
    (DELETED, 2, b"malformed at line 5: too many lines\n"),
    (DELETED_NOTHING, 1, NOT_ALLOWED),
];

/// Whether this is answered to a log under a limit of four lines.
fn is_answered_under_4(alloc: Global, log: &[u8], status: u8, answer: &[u8]) -> bool {
    let Ok(mut source) = MemorySource::new(alloc, log, ROOM, &[]) else {
        return false;
    };
    let Ok(mut sink) = MemorySink::new(alloc, ROOM, ROOM, &[]) else {
        return false;
    };
    let ended = check_limited(alloc, 4, &mut source, &mut sink);
    ended.status == status && sink.taken() == answer
}

#[test]
fn logs_of_too_many_lines(rt: HostRuntime) {
    for (row, (log, status, answer)) in TOO_LONG.iter().enumerate() {
        assert!(rt;
            is_answered_under_4(rt.alloc(), log, *status, answer),
            "row {row}"
        );
    }
}

/// A line that isn't ended, of any byte.
const NO_LINE_FEED: Case = Case {
    name: "no line feed",
    words: CHECK,
    input: b"",
    devices: SHORT,
    status: 2,
    answer: b"malformed at line 1: no line feed\n",
};

/// A line that is no header.
const BAD_HEADER: Case = Case {
    name: "bad header",
    answer: b"malformed at line 1: bad header\n",
    ..NO_LINE_FEED
};

/// Whether a log of one byte is malformed as it has to be.
fn is_malformed<R: Threads + Wait + Sync>(rt: &R, alloc: Global, byte: u8) -> bool {
    if byte == b'\n' {
        BAD_HEADER.is_answered_to(rt, alloc, &[byte], &OpenGate)
    } else {
        NO_LINE_FEED.is_answered_to(rt, alloc, &[byte], &OpenGate)
    }
}

#[test]
fn each_byte_alone(rt: HostRuntime) {
    for byte in 0..=255_u8 {
        assert!(rt; is_malformed(&rt, rt.alloc(), byte), "byte {byte}");
    }
}

/// Whether a line of a million bytes is a bad header.
fn is_bad_header<R: Threads + Wait + Sync>(rt: &R, alloc: Global) -> Result<bool, AllocError> {
    let mut log = Vec::new(alloc);
    log.resize(1_000_000, b'x')?;
    Ok(BAD_HEADER.is_answered_to(rt, alloc, &log, &OpenGate))
}

#[test]
fn a_million_bytes_of_one_line(rt: HostRuntime) {
    assert!(rt; is_bad_header(&rt, rt.alloc()) == Ok(true));
}

/// A delete commits first and returns last, after ten thousand other deletes.
fn waiting(alloc: Global, last: &[u8]) -> Result<Vec<u8>, AllocError> {
    let mut log = Vec::from_slice(alloc, b"vyrd 1 multiset 1 2\n0 call delete 5\n0 commit\n")?;
    for _ in 0..10_000 {
        log.extend_from_slice(b"1 call delete 6\n1 commit\n1 return 0\n")?;
    }
    log.extend_from_slice(last)?;
    Ok(log)
}

/// How that log goes on.
const LAST: &[Case] = &[
    Case {
        name: "reply that isn't allowed",
        words: CHECK,
        input: b"0 return 1\nend\n",
        devices: SHORT,
        status: 1,
        answer: NOT_ALLOWED,
    },
    Case {
        name: "reply that is allowed",
        words: CHECK,
        input: b"0 return 0\nend\n",
        devices: SHORT,
        status: 0,
        answer: b"accepted: 30003 entries, 10001 commits, 0 observers\n",
    },
];

/// Whether that log is answered as the case says that it goes on with.
fn is_answered_at_last<R: Threads + Wait + Sync>(rt: &R, alloc: Global, case: &Case) -> bool {
    match waiting(alloc, case.input) {
        Ok(log) => case.is_answered_to(rt, alloc, &log, &OpenGate),
        Err(_) => false,
    }
}

#[test]
fn ten_thousand_wait_for_one(rt: HostRuntime) {
    for case in LAST {
        assert!(rt; is_answered_at_last(&rt, rt.alloc(), case), "{}", case.name);
    }
}
