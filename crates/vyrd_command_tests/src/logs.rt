//! What the top call answers to logs, to words that are none of the forms, and over devices that
//! fail.

use crate::case::{BYTE_BY_BYTE, Case, Devices, SHORT, assert_answers, assert_in_every_cutting};

const CHECK: &[&str] = &["check"];

const USAGE: &[u8] =
    b"usage: vyrd check | step [--log|--history] | run [--log|--history] | gen N | movers | batch | explain | follow\n";

/// An insert that fills a slot, and commits as the slot becomes valid.
const INSERT_WITH_ITS_WRITES: Case = Case {
    name: "insert_with_its_writes",
    words: CHECK,
    input: b"vyrd 1 multiset 1 1\n0 call insert 5\n0 write 1 5\n0 write 0 1\n0 open\n0 write 0 2\n0 close commit\n0 return 1\nend\n",
    devices: BYTE_BY_BYTE,
    status: 0,
    answer: b"accepted: 7 entries, 1 commits, 0 observers\n",
};

/// An insert that claims what it didn't do.
const INSERT_WITHOUT_ITS_WRITES: Case = Case {
    name: "insert_without_its_writes",
    words: CHECK,
    input: b"vyrd 1 multiset 1 1\n0 call insert 5\n0 commit\n0 return 1\nend\n",
    devices: BYTE_BY_BYTE,
    status: 1,
    answer: b"violation at line 3: view differs at key 5\n",
};

/// A commit that can't be judged before its return, which comes after a fault.
const FAULT_BEHIND_A_WAITING_COMMIT: Case = Case {
    name: "fault_behind_a_waiting_commit",
    words: CHECK,
    input: b"vyrd 1 multiset 1 2\n0 call delete 5\n0 commit\n1 call lookup 5\n1 return 7\n0 return 1\nend\n",
    devices: BYTE_BY_BYTE,
    status: 1,
    answer: b"violation at line 3: reply 1 not allowed\n",
};

const CUT: &[Case] = &[INSERT_WITH_ITS_WRITES, FAULT_BEHIND_A_WAITING_COMMIT];

#[test]
fn every_cutting(rt: HostRuntime) {
    assert_in_every_cutting(&rt, rt.alloc(), CUT);
    assert_answers(&rt, rt.alloc(), CUT);
}

/// The third of reads of 16 bytes comes before the log's verdict, and that of reads of 28 would
/// come after it.
const FAILING_READS: &[Case] = &[
    Case {
        name: "undecided",
        devices: Devices {
            failing_reads: &[3],
            ..SHORT
        },
        status: 4,
        answer: b"",
        ..INSERT_WITHOUT_ITS_WRITES
    },
    Case {
        name: "decided",
        devices: Devices {
            longest_read: 28,
            failing_reads: &[3],
            ..SHORT
        },
        ..INSERT_WITHOUT_ITS_WRITES
    },
];

#[test]
fn read_that_fails(rt: HostRuntime) {
    assert_answers(&rt, rt.alloc(), FAILING_READS);
}

const FAILING_WRITES: &[Case] = &[
    Case {
        name: "first write",
        devices: Devices {
            failing_writes: &[1],
            ..SHORT
        },
        status: 5,
        answer: b"",
        ..INSERT_WITH_ITS_WRITES
    },
    Case {
        name: "second write",
        devices: Devices {
            failing_writes: &[2],
            ..SHORT
        },
        status: 5,
        answer: b"accep",
        ..INSERT_WITH_ITS_WRITES
    },
    Case {
        name: "second write of the usage line",
        words: &[],
        devices: Devices {
            failing_writes: &[2],
            ..SHORT
        },
        status: 5,
        answer: b"usage",
        ..INSERT_WITH_ITS_WRITES
    },
];

#[test]
fn write_that_fails(rt: HostRuntime) {
    assert_answers(&rt, rt.alloc(), FAILING_WRITES);
}

/// Words that are none of the forms, over a source whose first read would fail. It isn't made.
const NO_FORM: Case = Case {
    name: "no form",
    words: &[],
    devices: Devices {
        failing_reads: &[1],
        ..SHORT
    },
    status: 3,
    answer: USAGE,
    ..INSERT_WITH_ITS_WRITES
};

const NO_FORMS: &[Case] = &[
    NO_FORM,
    Case {
        words: &[""],
        ..NO_FORM
    },
    Case {
        words: &["check", "x"],
        ..NO_FORM
    },
    Case {
        words: &["step", "--log", "--history"],
        ..NO_FORM
    },
    Case {
        words: &["gen", "0"],
        ..NO_FORM
    },
    Case {
        words: &["gen", "200001"],
        ..NO_FORM
    },
    Case {
        words: &["gen", "04"],
        ..NO_FORM
    },
    Case {
        words: &["gen", "--history"],
        ..NO_FORM
    },
];

#[test]
fn words_that_are_no_form(rt: HostRuntime) {
    assert_answers(&rt, rt.alloc(), NO_FORMS);
}
