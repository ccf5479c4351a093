//! What a checker answers on small logs. The tests of the top call, in `vyrd_command_tests`, give it
//! many more, in every cutting.

use std::alloc::{AllocError, Global};
use std::process::Abort;
use vyrd_base::{Rule, Verdict, Why};
use vyrd_check::{Checker, verdict_of};
use vyrd_text::write_verdict;

/// How many lines a log may have here.
const MAX_LINES: u64 = 12;

/// An absent element is deleted with the reply 1, and text stands after the end.
const WRONG: &[u8] = b"vyrd 1 multiset 1 1\n0 call delete 5\n0 commit\n0 return 1\nend\nx";

/// The element of a slot in the first bucket belongs in the second.
const STATELESS: &[u8] = b"vyrd 2 multiset 2 1\nstart 0 2\nstart 1 5\nend\n";

/// A log, and the line that is answered about it.
struct Row {
    name: &'static str,
    log: &'static [u8],
    answer: &'static [u8],
}

/// Asserts the answer to each log in every cutting into two pieces.
fn assert_answers(rt: &impl Abort, alloc: Global, rows: &[Row]) {
    for row in rows {
        assert_answer(rt, alloc, row);
    }
}

/// Asserts the answer to a log in every cutting into two pieces.
fn assert_answer(rt: &impl Abort, alloc: Global, row: &Row) {
    for cut in 0..=row.log.len() {
        let (front, back) = row.log.split_at(cut);
        assert!(rt;
            is_answer(alloc, front, back, row.answer),
            "{} cut at {cut}",
            row.name
        );
    }
}

/// Whether this line is answered about a log in two pieces.
fn is_answer(alloc: Global, front: &[u8], back: &[u8], line: &[u8]) -> bool {
    match answer(alloc, front, back) {
        Ok(found) => found.as_slice() == line,
        Err(_) => false,
    }
}

/// The line that is answered about a log in two pieces.
fn answer(alloc: Global, front: &[u8], back: &[u8]) -> Result<Vec<u8>, AllocError> {
    let mut checker = Checker::new(alloc, MAX_LINES);
    checker.feed(front)?;
    checker.feed(back)?;
    let mut line = Vec::new(alloc);
    write_verdict(&checker.finish()?, &mut line)?;
    Ok(line)
}

#[test]
fn whole_inputs(rt: HostRuntime) {
    let right = b"vyrd 1 cache 1 1\n0 call read 0\n0 return 0\nend\n";
    let accepted = Verdict::Accepted {
        entries: 2,
        commits: 0,
        observers: 1,
    };
    assert!(rt; verdict_of(rt.alloc(), MAX_LINES, right) == Ok(accepted));
    let no_end = Verdict::Malformed {
        line: 1,
        rule: Rule::NoEnd,
    };
    assert!(rt; verdict_of(rt.alloc(), MAX_LINES, b"") == Ok(no_end));
}

/// The verdict stands with the line feed of the return, and what comes after it isn't read.
#[test]
fn verdict_at_the_byte_that_decides(rt: HostRuntime) {
    let violation = Verdict::Violation {
        line: 3,
        why: Why::Reply(1),
    };
    let mut checker = Checker::new(rt.alloc(), MAX_LINES);
    let (before, last) = WRONG.split_at(55);
    let (deciding, after) = last.split_at(1);
    assert!(rt; checker.feed(before) == Ok(None));
    assert!(rt; checker.feed(deciding) == Ok(Some(violation)));
    assert!(rt; checker.feed(after) == Ok(Some(violation)));
    assert!(rt; checker.finish() == Ok(violation));
}

/// More starting words may come, until a whole line isn't one.
#[test]
fn start_is_judged_behind_its_last_word(rt: HostRuntime) {
    let stateless = Verdict::Malformed {
        line: 2,
        rule: Rule::StartState,
    };
    let mut checker = Checker::new(rt.alloc(), MAX_LINES);
    let (before, deciding) = STATELESS.split_at(43);
    assert!(rt; checker.feed(before) == Ok(None));
    assert!(rt; checker.feed(deciding) == Ok(Some(stateless)));
    assert!(rt; checker.finish() == Ok(stateless));
}

#[test]
fn commits_inside_blocks(rt: HostRuntime) {
    assert_answers(&rt, rt.alloc(), INNER_COMMITS);
}

#[test]
fn starting_words(rt: HostRuntime) {
    assert_answers(&rt, rt.alloc(), STARTED);
}

/// Logs with a lone commit inside a block.
const INNER_COMMITS: &[Row] = &[
    Row {
        name: "later_write_of_the_block",
        log: b"vyrd 2 multiset 1 1\n0 call insert 5\n0 write 1 5\n0 open\n0 commit\n0 write 0 2\n0 close\n0 return 1\nend\n",
        answer: b"accepted: 7 entries, 1 commits, 0 observers\n",
    },
    Row {
        name: "first_version",
        log: b"vyrd 1 multiset 1 1\n0 call insert 5\n0 write 1 5\n0 open\n0 commit\n0 write 0 2\n0 close\n0 return 1\nend\n",
        answer: b"malformed at line 5: commit inside a block\n",
    },
    Row {
        name: "another_commit_while_the_block_is_open",
        log: b"vyrd 2 multiset 1 2\n0 call insert 5\n0 write 1 5\n0 open\n0 commit\n1 call insert 6\n1 commit\n1 return 0\n0 write 0 2\n0 close\n0 return 1\nend\n",
        answer: b"accepted: 10 entries, 2 commits, 0 observers\n",
    },
    Row {
        name: "without_the_later_write",
        log: b"vyrd 2 multiset 1 2\n0 call insert 5\n0 write 1 5\n0 open\n0 commit\n1 call insert 6\n1 commit\n1 return 0\n0 close\n0 return 1\nend\n",
        answer: b"violation at line 5: view differs at key 5\n",
    },
    Row {
        name: "word_written_by_another_since",
        log: b"vyrd 2 multiset 1 2\n0 call insert 5\n0 write 1 5\n0 open\n0 commit\n1 call insert 6\n1 write 0 1\n0 write 0 2\nend\n",
        answer: b"malformed at line 8: block raced\n",
    },
];

/// Logs with starting words, right and wrong ones.
const STARTED: &[Row] = &[
    Row {
        name: "deleted_from_the_start",
        log: b"vyrd 2 multiset 1 1\nstart 0 2\nstart 1 5\n0 call delete 5\n0 open\n0 write 0 0\n0 close commit\n0 return 1\nend\n",
        answer: b"accepted: 5 entries, 1 commits, 0 observers\n",
    },
    Row {
        name: "missed_at_the_start",
        log: b"vyrd 2 multiset 1 1\nstart 0 2\nstart 1 5\n0 call delete 5\n0 open\n0 write 0 0\n0 close commit\n0 return 0\nend\n",
        answer: b"violation at line 7: reply 0 not allowed\n",
    },
    Row {
        name: "no_state",
        log: STATELESS,
        answer: b"malformed at line 2: start stands for no state\n",
    },
    Row {
        name: "not_rising",
        log: b"vyrd 2 multiset 1 1\nstart 1 5\nstart 0 2\nend\n",
        answer: b"malformed at line 3: start word not rising\n",
    },
    Row {
        name: "value_0",
        log: b"vyrd 2 multiset 1 1\nstart 0 0\nend\n",
        answer: b"malformed at line 2: start out of range\n",
    },
    Row {
        name: "first_version_has_no_start",
        log: b"vyrd 1 multiset 1 1\nstart 0 2\nend\n",
        answer: b"malformed at line 2: bad entry\n",
    },
    Row {
        name: "clean_chunk_is_read",
        log: b"vyrd 2 cache 1 1\nstart 0 1\nstart 1 7\nstart 3 7\n0 call read 0\n0 return 7\nend\n",
        answer: b"accepted: 2 entries, 0 commits, 1 observers\n",
    },
];
