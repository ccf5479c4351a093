//! What the top call answers to histories.

use crate::case::{
    Case, Devices, SHORT, assert_answers, assert_each_read, assert_each_write,
    assert_in_every_cutting,
};

const MOVERS: &[&str] = &["movers"];

/// The history of an insert that plays alone.
const ONE_INSERT: Case = Case {
    name: "one_insert",
    words: MOVERS,
    input: b"history multiset 1 1\n0 call insert 5\n0 took 8\n0 read 0 0\n0 wrote 1 5\n0 wrote 0 1\n0 gave 8\n0 took 8\n0 open\n0 wrote 0 2\n0 close commit\n0 gave 8\n0 return 1\nend\n",
    devices: SHORT,
    status: 0,
    answer: b"movers: 1 blocks, all reducible\n",
};

#[test]
fn history_in_every_cutting(rt: HostRuntime) {
    assert_in_every_cutting(&rt, rt.alloc(), &[ONE_INSERT]);
}

/// A block that is closed and was never opened.
const CLOSE_WITHOUT_OPEN: Case = Case {
    name: "close_without_open",
    words: MOVERS,
    input: b"history multiset 1 1\n0 close\nend\n",
    devices: SHORT,
    status: 10,
    answer: b"history refused at line 2: block mark out of place\n",
};

const FAILING: &[Case] = &[
    Case {
        name: "second read",
        devices: Devices {
            failing_reads: &[2],
            ..SHORT
        },
        status: 4,
        answer: b"",
        ..CLOSE_WITHOUT_OPEN
    },
    Case {
        name: "second write",
        devices: Devices {
            longest_write: 10,
            failing_writes: &[2],
            ..SHORT
        },
        status: 5,
        answer: b"history re",
        ..CLOSE_WITHOUT_OPEN
    },
];

#[test]
fn histories_over_failing_devices(rt: HostRuntime) {
    assert_answers(&rt, rt.alloc(), FAILING);
}

/// The history has 157 bytes, so ten reads, and the eleventh says the end. A twelfth isn't made.
#[test]
fn each_read_of_a_history_fails_once(rt: HostRuntime) {
    assert_each_read(&rt, rt.alloc(), &ONE_INSERT, 11);
}

/// The answer has 32 bytes, so seven writes.
#[test]
fn each_write_about_a_history_fails_once(rt: HostRuntime) {
    assert_each_write(&rt, rt.alloc(), &ONE_INSERT, 7);
}

/// A line of no known word.
const UNKNOWN_WORD: Case = Case {
    name: "unknown word",
    words: MOVERS,
    input: b"history multiset 1 1\n0 sleep\nend\n",
    devices: SHORT,
    status: 10,
    answer: b"history refused at line 2: bad line\n",
};

/// A refused history is read to its end too, and no further: three reads, and one that says the
/// end.
#[test]
fn no_read_behind_a_refused_history(rt: HostRuntime) {
    assert_each_read(&rt, rt.alloc(), &UNKNOWN_WORD, 4);
}
