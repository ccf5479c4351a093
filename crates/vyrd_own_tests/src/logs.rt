//! Logs of version 3, read whole and in pieces, and lines of them that break a rule.

use crate::specifications::COUNTER;
use std::alloc::{AllocError, Global};
use std::process::Abort;
use vyrd_base::{Args, Entry, Kind, Method, Rule, SpecificationRule, StartWord};
use vyrd_own_log::OwnLogReader;
use vyrd_text::TextFault;

/// A log of the counter, behind its specification, which has 14 lines.
const LOG: &str = "start 0 5
0 call add 2
0 write 0 7
# how the second caller sees it
0 commit
0 return 5
1 call compare_and_set 7 9
1 return 18446744073709551614
2 call read
2 return 7
end
";

/// The entries of that log: on which line of the text each stands, whose it is, and what it does.
const ENTRIES: &[(u64, u32, Kind)] = &[
    (
        16,
        0,
        Kind::Call(Method::OwnOnce(0), Args { a: 2, b: 0, c: 0 }),
    ),
    (17, 0, Kind::Write(0, 7)),
    (19, 0, Kind::Commit),
    (20, 0, Kind::Return(5)),
    (
        21,
        1,
        Kind::Call(Method::OwnAtMostOnce(1), Args { a: 7, b: 9, c: 0 }),
    ),
    (22, 1, Kind::Return(18_446_744_073_709_551_614)),
    (
        23,
        2,
        Kind::Call(Method::OwnNever(2), Args { a: 0, b: 0, c: 0 }),
    ),
    (24, 2, Kind::Return(7)),
];

/// The line of the starting word, and that of `end`.
const START: u64 = 15;

const END: u64 = 25;

/// Whether these are the entries of the log, with the numbers of their lines between those of the
/// starting word and of `end`.
fn are_all(entries: &[Entry], numbers: &[u64]) -> bool {
    if entries.len() != ENTRIES.len() || numbers.len() != ENTRIES.len() + 2 {
        return false;
    }
    for (i, (line, caller, kind)) in ENTRIES.iter().enumerate() {
        let entry = Entry {
            caller: *caller,
            kind: *kind,
        };
        if entries[i] != entry || numbers[i + 1] != *line {
            return false;
        }
    }
    numbers[0] == START && numbers[ENTRIES.len() + 1] == END
}

/// Whether the text is read as the log, if it comes in two pieces, of which the first has so many
/// bytes.
fn is_read(alloc: Global, text: &[u8], first: usize) -> Result<bool, AllocError> {
    let mut reader = OwnLogReader::new(alloc, 100);
    let (mut entries, mut numbers) = (Vec::new(alloc), Vec::new(alloc));
    let (front, back) = text.split_at(first.min(text.len()));
    for piece in [front, back] {
        if reader.feed(piece, &mut entries, &mut numbers) != Ok(()) {
            return Ok(false);
        }
    }
    let Some(header) = reader.header() else {
        return Ok(false);
    };
    Ok(
        are_all(&entries, &numbers)
            && reader.start() == [StartWord { word: 0, value: 5 }].as_slice()
            && (header.version(), header.size(), header.callers()) == (3, 1, 64)
            && reader.program().methods.len() == 3
            && reader.ended()
            && reader.finish() == Ok(()),
    )
}

/// The specification, and behind it this.
fn behind(alloc: Global, log: &str) -> Result<Vec<u8>, AllocError> {
    let mut text = Vec::from_slice(alloc, COUNTER.as_bytes())?;
    text.extend_from_slice(log.as_bytes())?;
    Ok(text)
}

/// Whether the log is read in any two pieces.
fn is_read_in_pieces(alloc: Global) -> Result<bool, AllocError> {
    let text = behind(alloc, LOG)?;
    for first in 0..=text.len() {
        if !is_read(alloc, &text, first)? {
            return Ok(false);
        }
    }
    Ok(true)
}

#[test]
fn log_in_two_pieces(rt: HostRuntime) -> Result<(), AllocError> {
    assert!(&rt; is_read_in_pieces(rt.alloc())?);
    Ok(())
}

/// What stands behind the specification, and which line of the text breaks which rule.
const FAULTS: &[(&str, u64, Rule)] = &[
    ("", 15, Rule::NoEnd),
    ("0 commit", 15, Rule::NoLineFeed),
    ("0 commit\n", 16, Rule::NoEnd),
    ("0 call sub 2\n", 15, Rule::BadEntry),
    ("0 call add\n", 15, Rule::BadEntry),
    ("0 call add 2 3\n", 15, Rule::BadEntry),
    ("0 call add 4294967296\n", 15, Rule::BadEntry),
    ("0 call read \n", 15, Rule::BadEntry),
    ("0 return 18446744073709551615\n", 15, Rule::BadEntry),
    (" # no note\n", 15, Rule::BadEntry),
    ("start 1 1\n", 15, Rule::StartRange),
    ("start 0 1\nstart 0 1\n", 16, Rule::StartOrder),
    ("# a note\n0 commit\nstart 0 1\n", 17, Rule::BadEntry),
    ("end\n\n", 16, Rule::AfterEnd),
    ("end\n# a note\n", 16, Rule::AfterEnd),
];

/// The fault of that text, if it ends there.
fn fault_of(alloc: Global, text: &[u8]) -> Result<(), TextFault> {
    let mut reader = OwnLogReader::new(alloc, 100);
    let (mut entries, mut numbers) = (Vec::new(alloc), Vec::new(alloc));
    reader.feed(text, &mut entries, &mut numbers)?;
    reader.finish()
}

/// Whether each row has its fault.
fn are_faults(alloc: Global) -> Result<bool, AllocError> {
    for (log, line, rule) in FAULTS {
        let text = behind(alloc, log)?;
        let fault = TextFault::Malformed {
            line: *line,
            rule: *rule,
        };
        if fault_of(alloc, &text) != Err(fault) {
            return Ok(false);
        }
    }
    Ok(true)
}

#[test]
fn lines_behind_the_specification(rt: HostRuntime) -> Result<(), AllocError> {
    assert!(&rt; are_faults(rt.alloc())?);
    Ok(())
}

/// The beginning of a text, and which of its lines breaks which rule.
const BEGINNINGS: &[(&str, u64, Rule)] = &[
    ("vyrd 3 own 65537 1\n", 1, Rule::BadHeader),
    ("vyrd 3 own 1 257\n", 1, Rule::BadHeader),
    ("vyrd 3 own 1 0\n", 1, Rule::BadHeader),
    ("vyrd 2 own 1 1\n", 1, Rule::BadHeader),
    (
        "vyrd 3 own 0 1\nlog\n",
        2,
        Rule::Specification(SpecificationRule::NoMethod),
    ),
    (
        "vyrd 3 own 0 1\nmethod m\nlog\n",
        3,
        Rule::Specification(SpecificationRule::NoCase),
    ),
    (
        "vyrd 3 own 0 1\nwhat\n",
        2,
        Rule::Specification(SpecificationRule::BadLine),
    ),
];

/// Whether each of them has its fault.
fn are_bad_beginnings(alloc: Global) -> bool {
    for (text, line, rule) in BEGINNINGS {
        let fault = TextFault::Malformed {
            line: *line,
            rule: *rule,
        };
        if fault_of(alloc, text.as_bytes()) != Err(fault) {
            return false;
        }
    }
    true
}

#[test]
fn lines_of_the_header_and_the_specification(rt: HostRuntime) {
    assert!(&rt; are_bad_beginnings(rt.alloc()));
}
