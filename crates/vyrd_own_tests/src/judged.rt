//! Logs that are judged by the specification in front of them.

use crate::specifications::{
    COUNTER, MAP, PRIORITY_QUEUE, QUEUE, QUEUE_IN_SLOTS, RING, RING_THAT_MAY_FAIL,
};
use std::alloc::{AllocError, Global};
use std::process::Abort;
use vyrd_base::{Rule, Verdict, Why};
use vyrd_log_check::LogChecker;
use vyrd_own_check::own_verdict_of;

/// A specification, what stands behind it, and the verdict. Behind `COUNTER` line 15 comes, behind
/// `QUEUE` line 14, behind `QUEUE_IN_SLOTS` line 18, behind `PRIORITY_QUEUE` line 14, behind `RING`
/// line 20, behind `RING_THAT_MAY_FAIL` line 19, and behind `MAP` line 35.
const ROWS: &[(&str, &str, Verdict)] = &[
    // a queue, whose elements leave in their order
    (
        QUEUE_IN_SLOTS,
        "0 call enqueue 5
0 write 1 5
0 write 0 1
0 commit
0 return 1
1 call dequeue
# a note of the logger's
1 write 0 0
1 commit
1 return 6
1 call dequeue
1 return 0
end
",
        Verdict::Accepted {
            entries: 11,
            commits: 2,
            observers: 1,
        },
    ),
    // the second element leaves first
    (
        QUEUE_IN_SLOTS,
        "# notes
# at the beginning
0 call enqueue 5
0 write 1 5
0 write 0 1
0 commit
0 return 1
0 call enqueue 7
0 write 3 7
0 write 2 1
0 commit
0 return 1
1 call dequeue
1 write 2 0
# a note before the commit
1 commit
1 return 8
end
",
        Verdict::Violation {
            line: 33,
            why: Why::Reply(8),
        },
    ),
    // an element that isn't in its slot at the commit
    (
        QUEUE_IN_SLOTS,
        "0 call enqueue 5
0 write 1 5
0 commit
0 write 0 1
0 return 1
end
",
        Verdict::Violation {
            line: 20,
            why: Why::View(5),
        },
    ),
    // a queue that isn't empty is said to be
    (
        QUEUE,
        "0 call enqueue 5
0 commit
0 return 1
1 call dequeue
1 return 0
end
",
        Verdict::Violation {
            line: 18,
            why: Why::Observer(0),
        },
    ),
    // it was empty while the call was open
    (
        QUEUE,
        "1 call dequeue
0 call enqueue 5
0 commit
0 return 1
1 return 0
end
",
        Verdict::Accepted {
            entries: 5,
            commits: 1,
            observers: 1,
        },
    ),
    // a method that commits at most once is judged at its commit, if it has one
    (
        QUEUE,
        "1 call dequeue
1 commit
1 return 0
end
",
        Verdict::Violation {
            line: 15,
            why: Why::Reply(0),
        },
    ),
    // a compare-and-set that finds another value, behind a starting word
    (
        COUNTER,
        "start 0 5
0 call compare_and_set 7 9
0 return 0
0 call compare_and_set 5 9
0 write 0 9
0 commit
0 return 1
0 call read
0 return 9
end
",
        Verdict::Accepted {
            entries: 8,
            commits: 1,
            observers: 2,
        },
    ),
    // and one that finds its value, and says that it didn't
    (
        COUNTER,
        "start 0 5
0 call compare_and_set 5 9
0 return 0
end
",
        Verdict::Violation {
            line: 17,
            why: Why::Observer(0),
        },
    ),
    // a commit inside a block takes all of the block's writes with it
    (
        COUNTER,
        "0 call add 2
0 open
0 commit
0 write 0 2
0 close
0 return 0
end
",
        Verdict::Accepted {
            entries: 6,
            commits: 1,
            observers: 0,
        },
    ),
    // a map replies what was there, and is cleared
    (
        MAP,
        "0 call put 4 20
0 write 0 5
0 write 1 20
0 commit
0 return 0
0 call put 4 30
0 write 1 30
0 commit
0 return 21
0 call put_if_absent 4 40
0 return 31
0 call clear_all
0 write 0 0
0 commit
0 return 1
0 call size
0 return 0
0 call remove 4
0 return 0
end
",
        Verdict::Accepted {
            entries: 19,
            commits: 3,
            observers: 3,
        },
    ),
    // the old value is another
    (
        MAP,
        "0 call put 4 20
0 write 0 5
0 write 1 20
0 commit
0 return 0
0 call put 4 30
0 write 1 30
0 commit
0 return 31
end
",
        Verdict::Violation {
            line: 42,
            why: Why::Reply(31),
        },
    ),
    // the least element leaves first
    (
        PRIORITY_QUEUE,
        "0 call push 7
0 commit
0 return 1
0 call push 5
0 commit
0 return 1
0 call pop
0 commit
0 return 6
0 call least_element
0 return 8
0 call pop
0 commit
0 return 6
end
",
        Verdict::Violation {
            line: 26,
            why: Why::Reply(6),
        },
    ),
    // a ring whose slots are compared one by one
    (
        RING,
        "0 call try_enqueue 5
0 write 1 5
0 write 0 1
0 commit
0 return 1
0 call try_enqueue 7
0 write 5 7
0 write 4 1
0 commit
0 return 1
end
",
        Verdict::Violation {
            line: 28,
            why: Why::View(1),
        },
    ),
    // an attempt that fails says so at a commit, or has to be one that found the ring empty
    (
        RING_THAT_MAY_FAIL,
        "0 call try_dequeue
0 commit
0 return 0
1 call try_dequeue
1 return 0
end
",
        Verdict::Malformed {
            line: 23,
            rule: Rule::NoCommit,
        },
    ),
    (
        COUNTER,
        "0 call read
0 commit
",
        Verdict::Malformed {
            line: 16,
            rule: Rule::ObserverCommit,
        },
    ),
    (
        COUNTER,
        "64 call read
64 return 0
end
",
        Verdict::Malformed {
            line: 15,
            rule: Rule::CallerRange,
        },
    ),
    (
        COUNTER,
        "0 call read
# before the end
end
",
        Verdict::Malformed {
            line: 17,
            rule: Rule::CallOpen,
        },
    ),
    (
        "vyrd 3 own 3 1
part 2
  shows w0 w1
method m
  allow 1
log
",
        "# words that aren't a whole number of parts
end
",
        Verdict::Malformed {
            line: 8,
            rule: Rule::StartState,
        },
    ),
];

/// Whether the verdict about the log is this.
fn is_judged(
    alloc: Global,
    specification: &str,
    log: &str,
    verdict: Verdict,
) -> Result<bool, AllocError> {
    let mut text = Vec::from_slice(alloc, specification.as_bytes())?;
    text.extend_from_slice(log.as_bytes())?;
    Ok(own_verdict_of(alloc, 1000, &text)? == verdict)
}

/// Whether each row has its verdict.
fn are_judged(alloc: Global) -> Result<bool, AllocError> {
    for (specification, log, verdict) in ROWS {
        if !is_judged(alloc, specification, log, *verdict)? {
            return Ok(false);
        }
    }
    Ok(true)
}

#[test]
fn logs_of_known_structures(rt: HostRuntime) -> Result<(), AllocError> {
    assert!(&rt; are_judged(rt.alloc())?);
    Ok(())
}

/// Texts that begin as a log of some version does, and the verdict.
const BEGINNINGS: &[(&str, Verdict)] = &[
    (
        "",
        Verdict::Malformed {
            line: 1,
            rule: Rule::NoEnd,
        },
    ),
    (
        "vyrd 3 own ",
        Verdict::Malformed {
            line: 1,
            rule: Rule::NoLineFeed,
        },
    ),
    (
        "vyrd 3 owl 1 1\nend\n",
        Verdict::Malformed {
            line: 1,
            rule: Rule::BadHeader,
        },
    ),
    (
        "vyrd 3 multiset 1 1\nend\n",
        Verdict::Malformed {
            line: 1,
            rule: Rule::UnknownVersion,
        },
    ),
    (
        "vyrd 1 multiset 1 1\n0 call lookup 5\n0 return 1\nend\n",
        Verdict::Violation {
            line: 3,
            why: Why::Observer(1),
        },
    ),
    (
        "vyrd 3 own 0 1\nmethod m\n  answer 7\nlog\n0 call m\n0 return 1\nend\n",
        Verdict::Violation {
            line: 6,
            why: Why::Observer(1),
        },
    ),
];

/// Whether the verdict about the text is this, if it comes in two pieces, of which the first has so
/// many bytes.
fn is_answered(
    alloc: Global,
    text: &[u8],
    first: usize,
    verdict: Verdict,
) -> Result<bool, AllocError> {
    let mut checker = LogChecker::new(alloc, 1000);
    let (front, back) = text.split_at(first.min(text.len()));
    checker.feed(front)?;
    checker.feed(back)?;
    Ok(checker.finish()? == verdict)
}

/// Whether each text has its verdict in any two pieces.
fn are_answered(alloc: Global) -> Result<bool, AllocError> {
    for (text, verdict) in BEGINNINGS {
        for first in 0..=text.len() {
            if !is_answered(alloc, text.as_bytes(), first, *verdict)? {
                return Ok(false);
            }
        }
    }
    Ok(true)
}

#[test]
fn logs_of_any_version_in_two_pieces(rt: HostRuntime) -> Result<(), AllocError> {
    assert!(&rt; are_answered(rt.alloc())?);
    Ok(())
}
