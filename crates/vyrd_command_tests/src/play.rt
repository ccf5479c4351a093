//! What the top call answers to workloads that are played by turns, and under limits.

ghost use Rattle.std.specs.Prelude.{◌≤◌};
ghost use Rattle.vyrd_command.specs.Hands.{most_events};

use crate::case::{BYTE_BY_BYTE, Case, Devices, LONG, SHORT, answer_to, assert_answers, is_answer};
use std::alloc::{AllocError, Global};
use std::sync::Wait;
use std::thread::Threads;
use vyrd_base::{OpenGate, Verdict};
use vyrd_command::{Show, play};
use vyrd_live::run_by_turns;
use vyrd_work::{AnyMachine, generate, read_work};

const BY_TURNS: &[Case] = &[
    // A write to a dirty chunk without its lock, which a flush tears.
    Case {
        name: "write_behind_a_flush_by_turns",
        words: &["step", "--log"],
        input: b"work cache 1 2 broken\nop 0 write 0 1 2\nop 0 write 0 3 4\nop 1 flush 0\nturn 0 15\nturn 1 12\nend\n",
        devices: BYTE_BY_BYTE,
        status: 1,
        answer: b"vyrd 1 cache 1 2\n0 call write 0 1 2\n0 open\n0 write 1 1\n0 write 2 2\n0 write 0 2\n0 close commit\n0 return 1\n0 call write 0 3 4\n0 write 1 3\n1 call flush 0\n1 open\n1 write 3 3\n1 write 4 2\n1 write 0 1\n1 close commit\n1 return 1\n0 write 2 4\n0 commit\n0 return 1\nend\nviolation at line 16: view differs at key 0\n",
    },
    // Two inserts of a pair, each of which holds the lock that the other wants.
    Case {
        name: "locks_taken_crosswise",
        words: &["step"],
        input: b"work multiset 2 2 broken\nop 0 insert_pair 0 1\nop 1 insert_pair 1 0\nturn 0 8\nturn 1 10\nend\n",
        devices: BYTE_BY_BYTE,
        status: 8,
        answer: b"stuck\n",
    },
    // Two inserts that find the same free slot, and write it one inside the block of the other.
    Case {
        name: "history_of_a_raced_block",
        words: &["step", "--history"],
        input: b"work multiset 1 2 broken\nop 0 insert 5\nop 1 insert 6\nturn 0 2\nturn 1 2\nturn 0 3\nend\n",
        devices: BYTE_BY_BYTE,
        status: 2,
        answer: b"history multiset 1 2\n0 call insert 5\n0 read 0 0\n1 call insert 6\n1 read 0 0\n0 wrote 1 5\n0 wrote 0 1\n0 took 8\n0 open\n1 wrote 1 6\n0 wrote 0 2\n1 wrote 0 1\n0 close commit\n0 gave 8\n1 took 8\n0 return 1\n1 open\n1 wrote 0 2\n1 close commit\n1 gave 8\n1 return 1\nend\n",
    },
    // A character into each of two buffers, then the second after the first, and a read.
    Case {
        name: "text_is_read",
        words: &["step", "--log"],
        input: b"work buffers 2 2 correct\nop 0 append 0 65\nop 0 append 1 66\nop 0 append_from 0 1\nop 1 read 0\nturn 0 100\nend\n",
        devices: BYTE_BY_BYTE,
        status: 0,
        answer: b"vyrd 1 buffers 2 2\n0 call append 0 65\n0 open\n0 write 1 65\n0 write 0 1\n0 close commit\n0 return 1\n0 call append 1 66\n0 open\n0 write 9 66\n0 write 8 1\n0 close commit\n0 return 1\n0 call append_from 0 1\n0 open\n0 write 2 66\n0 write 0 2\n0 close commit\n0 return 1\n1 call read 0\n1 return 17218\nend\naccepted: 20 entries, 3 commits, 1 observers\n",
    },
    // An insert, an insert of a pair and two lookups.
    Case {
        name: "four_generated_operations",
        words: &["gen", "4"],
        input: b"",
        devices: BYTE_BY_BYTE,
        status: 0,
        answer: b"generated: 4 operations, 48 events\naccepted: 21 entries, 2 commits, 2 observers\n",
    },
];

#[test]
fn workloads_by_turns(rt: HostRuntime) {
    assert_answers(&rt, rt.alloc(), BY_TURNS);
}

/// A lookup on a thread, whose log isn't written whole.
const THIRD_WRITE: Case = Case {
    name: "third write of a log",
    words: &["run", "--log"],
    input: b"work multiset 1 1 correct\nop 0 lookup 5\nend\n",
    devices: Devices {
        failing_writes: &[3],
        ..SHORT
    },
    status: 5,
    answer: b"vyrd 1 mul",
};

#[test]
fn write_of_a_log_that_fails(rt: HostRuntime) {
    assert_answers(&rt, rt.alloc(), &[THIRD_WRITE]);
}

/// A limit of events, and what is answered to a lookup under it. The bound of a multiset's
/// operation is 32 events. The limits are given to the call by which `run` plays, since no workload
/// of a text comes near the limit of the program.
const LIMITED: &[(u64, u8, &[u8])] = &[
    (31, 9, b"events spent by caller 0\n"),
    (32, 0, b"accepted: 2 entries, 0 commits, 1 observers\n"),
];

/// Whether this is answered to a lookup under a limit of events.
fn is_answered_under<R: Threads + Wait + Sync>(
    rt: &R,
    alloc: Global,
    limit: u64,
    status: u8,
    text: &[u8],
) -> bool
    requires { limit ≤ most_events }
{
    let Ok(work) = read_work(alloc, THIRD_WRITE.input) else {
        return false;
    };
    match play(rt, alloc, Show::Verdict, work, limit, &OpenGate) {
        Ok(answer) => answer.status == status && answer.text.as_slice() == text,
        Err(_) => false,
    }
}

#[test]
fn events_that_are_spent(rt: HostRuntime) {
    for (row, (limit, status, text)) in LIMITED.iter().enumerate() {
        assert!(rt;
            is_answered_under(&rt, rt.alloc(), *limit, *status, text),
            "row {row}"
        );
    }
}

/// Whether 2,000 generated operations are accepted twice, with one answer.
fn are_accepted_twice<R: Threads + Wait + Sync>(rt: &R, alloc: Global) -> Result<bool, AllocError> {
    let words = ["gen", "2000"];
    let first = answer_to(rt, alloc, &words, b"", &LONG, &OpenGate)?;
    let second = answer_to(rt, alloc, &words, b"", &LONG, &OpenGate);
    Ok(is_answer(&second, 0, &first.text) && first.status == 0)
}

/// How many of 2,000 generated operations are judged in their run by turns.
fn judged_of_2000(alloc: Global) -> Option<u64> {
    let Ok(work) = generate(alloc, 2000) else {
        return None;
    };
    let run = run_by_turns::<AnyMachine>(alloc, &work).ok()??;
    judged_by(run.verdict)
}

/// How many commits and observers are judged, if all is accepted.
fn judged_by(verdict: Verdict) -> Option<u64> {
    match verdict {
        Verdict::Accepted {
            commits,
            observers,
            ..
        } => commits.checked_add(observers),
        _ => None,
    }
}

#[test]
fn the_same_operations_twice(rt: HostRuntime) {
    assert!(rt; are_accepted_twice(&rt, rt.alloc()) == Ok(true));
    assert!(rt; judged_of_2000(rt.alloc()) == Some(2000));
}
