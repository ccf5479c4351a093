//! What the top call answers to logs with a specification in front.

use crate::case::{BYTE_BY_BYTE, Case, assert_answers, assert_each_read, assert_in_every_cutting};

const CHECK: &[&str] = &["check"];

/// A name that isn't there, in line 3.
const UNKNOWN_NAME: Case = Case {
    name: "unknown_name",
    words: CHECK,
    input: b"vyrd 3 own 0 1\nmethod push x\n  allow (reply == y)\nlog\nend\n",
    devices: BYTE_BY_BYTE,
    status: 2,
    answer: b"malformed at line 3: unknown name\n",
};

const SPECIFIED: &[Case] = &[
    // A queue in slots of two words, of which the first says whether the second counts. An element
    // comes and goes, and then nothing is found.
    Case {
        name: "queue",
        words: CHECK,
        input: b"vyrd 3 own 4 2\npart 2\n  shows w1 (if (w0 == 1) then 1 else 0)\nlist waiting\nmethod enqueue x\n  allow (reply == 1)\n    append waiting x\n    set [x] ([x] + 1)\nmethod dequeue\n  answer (if ((length waiting) == 0) then 0 else none)\n  allow (((length waiting) > 0) and (reply == ((first waiting) + 1)))\n    drop first waiting\n    set [(reply - 1)] ([(reply - 1)] - 1)\nlog\n0 call enqueue 5\n0 write 1 5\n0 write 0 1\n0 commit\n0 return 1\n1 call dequeue\n# here: queue.c:61\n1 write 0 0\n1 commit\n1 return 6\n1 call dequeue\n1 return 0\nend\n",
        devices: BYTE_BY_BYTE,
        status: 0,
        answer: b"accepted: 11 entries, 2 commits, 1 observers\n",
    },
    // A counter whose word isn't changed by a step that claims it, between notes.
    Case {
        name: "counter_that_stands",
        words: CHECK,
        input: b"vyrd 3 own 1 1\npart 1\n  shows 0 w0\nmethod add n\n  allow (reply == [0])\n    set [0] ([0] + n)\nlog\n# a note\nstart 0 5\n# a note\n0 call add 2\n0 commit\n# a note\n0 return 5\nend\n",
        devices: BYTE_BY_BYTE,
        status: 1,
        answer: b"violation at line 12: view differs at key 0\n",
    },
    UNKNOWN_NAME,
];

#[test]
fn own_specifications_in_every_cutting(rt: HostRuntime) {
    assert_in_every_cutting(&rt, rt.alloc(), SPECIFIED);
    assert_answers(&rt, rt.alloc(), SPECIFIED);
}

/// The fault is known from the fourth read on, and a fifth isn't made.
#[test]
fn reads_of_own_specifications_that_fail(rt: HostRuntime) {
    assert_each_read(&rt, rt.alloc(), &UNKNOWN_NAME, 4);
}

/// Logs of each version in one batch.
const THREE_VERSIONS: Case = Case {
    name: "versions_in_one_batch",
    words: &["batch"],
    input: b"batch\nlog 24\nvyrd 1 multiset 1 1\nend\nlog 67\nvyrd 3 own 0 1\nmethod get\n  answer 7\nlog\n0 call get\n0 return 8\nend\nlog 44\nvyrd 2 multiset 1 1\nstart 0 1\nstart 1 5\nend\nend\n",
    devices: BYTE_BY_BYTE,
    status: 1,
    answer: b"log 0: accepted: 0 entries, 0 commits, 0 observers\nlog 1: violation at line 6: observer reply 8 in no state\nlog 2: accepted: 0 entries, 0 commits, 0 observers\nbatch: 3 logs\n",
};

#[test]
fn versions_in_one_batch(rt: HostRuntime) {
    assert_answers(&rt, rt.alloc(), &[THREE_VERSIONS]);
}
