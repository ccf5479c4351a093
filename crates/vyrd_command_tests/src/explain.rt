//! What the top call explains of logs, and what it tells of what changes along them.

use crate::case::{
    BYTE_BY_BYTE, Case, assert_answers, assert_each_read, assert_each_write,
    assert_in_every_cutting,
};
use std::alloc::Global;
use vyrd_base::MemorySource;
use vyrd_command::answer_explained;
use vyrd_explain::About;

const EXPLAIN: &[&str] = &["explain"];

const FOLLOW: &[&str] = &["follow"];

/// An insert that fills a slot, and commits as the slot becomes valid.
const ACCEPTED: Case = Case {
    name: "accepted",
    words: EXPLAIN,
    input: b"vyrd 1 multiset 1 1\n0 call insert 5\n0 write 1 5\n0 write 0 1\n0 open\n0 write 0 2\n0 close commit\n0 return 1\nend\n",
    devices: BYTE_BY_BYTE,
    status: 0,
    answer: b"accepted: 7 entries, 1 commits, 0 observers\n",
};

/// An insert that claims what it didn't do.
const UNWRITTEN: Case = Case {
    name: "view",
    words: EXPLAIN,
    input: b"vyrd 1 multiset 1 1\n0 call insert 5\n0 commit\n0 return 1\nend\n",
    devices: BYTE_BY_BYTE,
    status: 1,
    answer: b"violation at line 3: view differs at key 5\ncall at line 2\nreply at line 4\nagreed at the start: key 5 amount 0\nwords after line 3: key 5 amount 0\nstate after line 3: key 5 amount 1\n",
};

/// A delete that claims what it didn't find.
const DELETED_NOTHING: Case = Case {
    name: "reply",
    words: EXPLAIN,
    input: b"vyrd 1 multiset 1 1\n0 call delete 5\n0 commit\n0 return 1\nend\n",
    devices: BYTE_BY_BYTE,
    status: 1,
    answer: b"violation at line 3: reply 1 not allowed\ncall at line 2\nreply at line 4\nstate before line 3: key 5 amount 0\nallowed reply 0\n",
};

/// An insert, and a delete that says that it found nothing.
const FOUND_NOTHING: Case = Case {
    name: "reply of a second call",
    words: EXPLAIN,
    input: b"vyrd 1 multiset 1 1\n0 call insert 5\n0 write 1 5\n0 open\n0 write 0 2\n0 close commit\n0 return 1\n0 call delete 5\n0 commit\n0 return 0\nend\n",
    devices: BYTE_BY_BYTE,
    status: 1,
    answer: b"violation at line 9: reply 0 not allowed\ncall at line 8\nreply at line 10\nstate before line 9: key 5 amount 1\nallowed reply 1\nlast step at line 6: key 5 amount 1\n",
};

/// A lookup whose reply no state has.
const OBSERVED: Case = Case {
    name: "observer",
    words: EXPLAIN,
    input: b"vyrd 1 multiset 1 2\n0 call delete 5\n0 commit\n1 call lookup 5\n1 return 7\n0 return 0\nend\n",
    devices: BYTE_BY_BYTE,
    status: 1,
    answer: b"violation at line 5: observer reply 7 in no state\ncall at line 4\nreply at line 5\nanswer from line 4: 0\n",
};

/// A write to a word that another caller's block has written.
const RACED: Case = Case {
    name: "race",
    words: EXPLAIN,
    input: b"vyrd 1 multiset 1 2\n0 call insert 5\n0 open\n0 write 0 2\n1 call insert 6\n1 write 0 1\nend\n",
    devices: BYTE_BY_BYTE,
    status: 2,
    answer: b"malformed at line 6: block raced\nheld by line 4\nopen call at line 2\nopen block at line 3\nopen call at line 5\n",
};

/// A counter whose word isn't changed by a step that claims it, by a specification in front.
const OWN: Case = Case {
    name: "own",
    words: EXPLAIN,
    input: b"vyrd 3 own 1 1\npart 1\n  shows 0 w0\nmethod add n\n  allow (reply == [0])\n    set [0] ([0] + n)\nlog\nstart 0 5\n0 call add 2\n0 commit\n0 return 5\nend\n",
    devices: BYTE_BY_BYTE,
    status: 1,
    answer: b"violation at line 10: view differs at key 0\ncall at line 9\nreply at line 11\nagreed at the start: key 0 amount 5\nwords after line 10: key 0 amount 5\npart 0 after line 10: key 0 amount 5\nstate after line 10: key 0 amount 7\n",
};

const EXPLAINED: &[Case] = &[
    ACCEPTED,
    UNWRITTEN,
    DELETED_NOTHING,
    FOUND_NOTHING,
    OBSERVED,
    RACED,
    OWN,
];

#[test]
fn logs_with_what_has_to_do_with_their_verdicts(rt: HostRuntime) {
    assert_answers(&rt, rt.alloc(), EXPLAINED);
}

const FOLLOWED: &[Case] = &[
    Case {
        words: FOLLOW,
        answer: b"accepted: 7 entries, 1 commits, 0 observers\nwrite at line 3: word 1 from 0 to 5, in effect at line 3\nwrite at line 4: word 0 from 0 to 1, in effect at line 4\nchange at line 6: word 0 from 1 to 2, in effect at line 7, key 5 amount 0 to 1\nstep at line 7: key 5 amount 1\n",
        ..ACCEPTED
    },
    Case {
        words: FOLLOW,
        answer: b"violation at line 9: reply 0 not allowed\nwrite at line 3: word 1 from 0 to 5, in effect at line 3\nchange at line 5: word 0 from 0 to 2, in effect at line 6, key 5 amount 0 to 1\nstep at line 6: key 5 amount 1\n",
        ..FOUND_NOTHING
    },
    Case {
        words: FOLLOW,
        answer: b"malformed at line 6: block raced\n",
        ..RACED
    },
    Case {
        words: FOLLOW,
        answer: b"violation at line 10: view differs at key 0\nagreed at the start: key 0 amount 5\nstep at line 10: key 0 amount 7\n",
        ..OWN
    },
];

#[test]
fn what_changes_along_logs(rt: HostRuntime) {
    assert_answers(&rt, rt.alloc(), FOLLOWED);
}

#[test]
fn explained_in_every_cutting(rt: HostRuntime) {
    assert_in_every_cutting(&rt, rt.alloc(), &[RACED]);
}

/// The log's verdict stands with its fourth read, but more may have to do with it: the fifth says
/// the end. A sixth isn't made.
#[test]
fn each_read_of_an_explained_log_fails_once(rt: HostRuntime) {
    assert_each_read(&rt, rt.alloc(), &UNWRITTEN, 5);
}

/// A line that is no line of a log, in the fourth read.
const BAD_LINE: Case = Case {
    name: "bad line",
    input: b"vyrd 1 multiset 1 1\n0 call delete 5\n0 commit\n0 return 1\n0 sleep\nend\n",
    ..DELETED_NOTHING
};

/// With the fourth read the verdict stands, and nothing further changes the answer. So a fifth
/// isn't made.
#[test]
fn no_read_behind_a_settled_answer(rt: HostRuntime) {
    assert_each_read(&rt, rt.alloc(), &BAD_LINE, 4);
}

/// The answer has 124 bytes, so 25 writes.
#[test]
fn each_write_of_what_is_explained_fails_once(rt: HostRuntime) {
    assert_each_write(&rt, rt.alloc(), &DELETED_NOTHING, 25);
}

/// Whether a log of which at most three lines are read has a call that is open where it breaks off.
fn breaks_off(alloc: Global) -> bool {
    let Ok(mut source) = MemorySource::new(alloc, DELETED_NOTHING.input, 16, &[]) else {
        return false;
    };
    let said = b"malformed at line 4: too many lines\nopen call at line 2\n".as_slice();
    let answer = answer_explained(alloc, About::Fault, 3, &mut source);
    answer.status == 2 && answer.text.as_slice() == said
}

#[test]
fn explained_log_of_too_many_lines(rt: HostRuntime) {
    assert!(rt; breaks_off(rt.alloc()));
}
