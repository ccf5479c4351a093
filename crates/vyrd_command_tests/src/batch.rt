//! What the top call answers to batches.

use crate::case::{
    Case, Devices, LONG, SHORT, answer_to, assert_answers, assert_each_read, assert_each_write,
    assert_in_every_cutting, is_answer,
};
use std::alloc::{AllocError, Global};
use std::sync::Wait;
use std::thread::Threads;
use vyrd_base::OpenGate;
use vyrd_text::LineBuffer;

const BATCH: &[&str] = &["batch"];

const CHECK: &[&str] = &["check"];

/// A log that is accepted, one that is a violation, and an empty one.
const THREE_LOGS: Case = Case {
    name: "three_logs",
    words: BATCH,
    input: b"batch\nlog 24\nvyrd 1 multiset 1 1\nend\nlog 60\nvyrd 1 multiset 1 1\n0 call delete 5\n0 commit\n0 return 1\nend\nlog 0\nend\n",
    devices: SHORT,
    status: 1,
    answer: b"log 0: accepted: 0 entries, 0 commits, 0 observers\nlog 1: violation at line 3: reply 1 not allowed\nlog 2: malformed at line 1: no end\nbatch: 3 logs\n",
};

#[test]
fn batch_in_every_cutting(rt: HostRuntime) {
    assert_in_every_cutting(&rt, rt.alloc(), &[THREE_LOGS]);
}

/// A log with fewer bytes than are announced.
const TOO_FEW_BYTES: Case = Case {
    name: "too_few_bytes",
    words: BATCH,
    input: b"batch\nlog 99\nend\n",
    devices: SHORT,
    status: 11,
    answer: b"batch refused at log 0\n",
};

const FAILING: &[Case] = &[
    Case {
        name: "second read",
        devices: Devices {
            longest_read: 9,
            failing_reads: &[2],
            ..SHORT
        },
        status: 4,
        answer: b"",
        ..TOO_FEW_BYTES
    },
    Case {
        name: "second write",
        devices: Devices {
            longest_read: 9,
            longest_write: 10,
            failing_writes: &[2],
            ..SHORT
        },
        status: 5,
        answer: b"batch refu",
        ..TOO_FEW_BYTES
    },
];

#[test]
fn batches_over_failing_devices(rt: HostRuntime) {
    assert_answers(&rt, rt.alloc(), FAILING);
}

/// The batch has 114 bytes, so eight reads, and the ninth says the end. A tenth isn't made.
#[test]
fn each_read_of_a_batch_fails_once(rt: HostRuntime) {
    assert_each_read(&rt, rt.alloc(), &THREE_LOGS, 9);
}

/// The answer has 148 bytes, so thirty writes.
#[test]
fn each_write_about_a_batch_fails_once(rt: HostRuntime) {
    assert_each_write(&rt, rt.alloc(), &THREE_LOGS, 30);
}

/// Another first line than that of a batch.
const MANY_LOGS: Case = Case {
    name: "another first line",
    words: BATCH,
    input: b"many logs\nlog 0\nend\n",
    devices: SHORT,
    status: 11,
    answer: b"batch refused at log 0\n",
};

/// A batch that is refused at its first line is read to its end too, and no further: two reads, and
/// one that says the end.
#[test]
fn no_read_behind_a_refused_batch(rt: HostRuntime) {
    assert_each_read(&rt, rt.alloc(), &MANY_LOGS, 3);
}

/// How many bytes take more than two rounds.
const ROUNDS: usize = 2_400_000;

/// A batch in which a long line of a letter follows the input, and then these bytes.
struct Row {
    case: Case,
    back: &'static [u8],
}

const LONG_LOG: Case = Case {
    name: "long log",
    words: BATCH,
    input: b"batch\nlog 2400000\n",
    devices: LONG,
    status: 2,
    answer: b"log 0: malformed at line 1: bad header\nbatch: 1 logs\n",
};

const AT_LOG_0: Case = Case {
    status: 11,
    answer: b"batch refused at log 0\n",
    ..LONG_LOG
};

const AT_LOG_1: Case = Case {
    status: 11,
    answer: b"batch refused at log 1\n",
    ..LONG_LOG
};

/// A log that takes several rounds to come, and inputs that are refused before others come.
const ROWS: &[Row] = &[
    Row {
        case: LONG_LOG,
        back: b"end\n",
    },
    Row {
        case: AT_LOG_1,
        back: b"",
    },
    Row {
        case: Case {
            input: b"batch\nlog 2400001\n",
            ..AT_LOG_0
        },
        back: b"",
    },
    Row {
        case: Case {
            input: b"batch\nlog 0\n",
            ..AT_LOG_1
        },
        back: b"",
    },
    Row {
        case: Case {
            input: b"batch\nlog 0\nend\n",
            ..AT_LOG_1
        },
        back: b"",
    },
    Row {
        case: Case {
            input: b"",
            ..AT_LOG_0
        },
        back: b"\nbatch\nend\n",
    },
];

/// These bytes, then a long line of a letter, then these.
fn around_a_long_line(alloc: Global, front: &[u8], back: &[u8]) -> Result<Vec<u8>, AllocError> {
    let mut input = Vec::from_slice(alloc, front)?;
    input.resize(front.len() + ROUNDS, b'x')?;
    input.extend_from_slice(back)?;
    Ok(input)
}

/// Whether a batch with a long line is answered as the row says.
fn is_answered_around<R: Threads + Wait + Sync>(rt: &R, alloc: Global, row: &Row) -> bool {
    match around_a_long_line(alloc, row.case.input, row.back) {
        Ok(input) => row.case.is_answered_to(rt, alloc, &input, &OpenGate),
        Err(_) => false,
    }
}

#[test]
fn several_rounds(rt: HostRuntime) {
    for (at, row) in ROWS.iter().enumerate() {
        assert!(rt; is_answered_around(&rt, rt.alloc(), row), "row {at}");
    }
}

/// How many logs are many.
const MANY: u64 = 3000;

const REPLIED_1: &[u8] = b"vyrd 1 multiset 1 1\n0 call delete 5\n0 commit\n0 return 1\nend\n";

const REPLIED_0: &[u8] = b"vyrd 1 multiset 1 1\n0 call delete 5\n0 commit\n0 return 0\nend\n";

/// The log of this number among many.
fn log_at(log: u64) -> &'static [u8] {
    if log % 2 == 0 { REPLIED_1 } else { REPLIED_0 }
}

/// A batch of many logs.
fn many_logs(alloc: Global) -> Result<Vec<u8>, AllocError> {
    let mut input = Vec::from_slice(alloc, b"batch\n")?;
    for log in 0..MANY {
        input.extend_from_slice(b"log 60\n")?;
        input.extend_from_slice(log_at(log))?;
    }
    input.extend_from_slice(b"end\n")?;
    Ok(input)
}

/// What is answered to it, made of what is answered to each log by itself.
fn many_lines<R: Threads + Wait + Sync>(rt: &R, alloc: Global) -> Result<Vec<u8>, AllocError> {
    let mut lines = Vec::new(alloc);
    for log in 0..MANY {
        put_line(rt, alloc, log, &mut lines)?;
    }
    lines.extend_from_slice(b"batch: 3000 logs\n")?;
    Ok(lines)
}

/// Appends what a batch has about a log, whose line is that of `check`.
fn put_line<R: Threads + Wait + Sync>(
    rt: &R,
    alloc: Global,
    log: u64,
    lines: &mut Vec<u8>,
) -> Result<(), AllocError> {
    let mut name = LineBuffer::new();
    name.push(b"log ");
    name.push_number(log);
    name.push(b": ");
    lines.extend_from_slice(name.as_slice())?;
    let checked = answer_to(rt, alloc, CHECK, log_at(log), &LONG, &OpenGate)?;
    lines.extend_from_slice(&checked.text)
}

/// Whether many logs in a batch are answered as they are one by one.
fn are_as_one_by_one<R: Threads + Wait + Sync>(rt: &R, alloc: Global) -> Result<bool, AllocError> {
    let input = many_logs(alloc)?;
    let lines = many_lines(rt, alloc)?;
    let found = answer_to(rt, alloc, BATCH, &input, &LONG, &OpenGate);
    Ok(is_answer(&found, 1, &lines))
}

#[test]
fn many_logs_as_one_by_one(rt: HostRuntime) {
    assert!(rt; are_as_one_by_one(&rt, rt.alloc()) == Ok(true));
}
