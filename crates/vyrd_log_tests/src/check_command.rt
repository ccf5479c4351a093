//! What a program that only checks answers to its words. The answers to logs are tested with those
//! of the top call, in `vyrd_command_tests`, which makes the same call for `check`.

use std::alloc::Global;
use vyrd_base::{MemorySink, MemorySource};
use vyrd_check_command::check_only;

/// The most bytes that a sink takes here. No answer is as long.
const ROOM: usize = 128;

const LOG: &[u8] = b"vyrd 1 multiset 1 1\n0 call delete 5\n0 commit\n0 return 0\nend\n";

const ACCEPTED: &[u8] = b"accepted: 3 entries, 1 commits, 0 observers\n";

const USAGE: &[u8] = b"usage: vyrd_checker check\n";

/// Words, and the status and the text of the answer to them and that log.
const ANSWERS: &[(&[&str], u8, &[u8])] = &[
    (&["check"], 0, ACCEPTED),
    (&[], 3, USAGE),
    (&[""], 3, USAGE),
    (&["chec"], 3, USAGE),
    (&["checks"], 3, USAGE),
    (&["Check"], 3, USAGE),
    (&["step"], 3, USAGE),
    (&["check", ""], 3, USAGE),
    (&["check", "check"], 3, USAGE),
];

/// Whether these words are answered so.
fn is_answered(alloc: Global, words: &[&str], status: u8, answer: &[u8]) -> bool {
    let Ok(mut source) = MemorySource::new(alloc, LOG, ROOM, &[]) else {
        return false;
    };
    let Ok(mut sink) = MemorySink::new(alloc, ROOM, ROOM, &[]) else {
        return false;
    };
    let ended = check_only(alloc, words, &mut source, &mut sink);
    ended.status == status && sink.taken() == answer
}

#[test]
fn words_of_a_program_that_only_checks(rt: HostRuntime) {
    for (row, (words, status, answer)) in ANSWERS.iter().enumerate() {
        assert!(rt;
            is_answered(rt.alloc(), words, *status, answer),
            "row {row}"
        );
    }
}
