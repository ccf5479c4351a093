//! Lines that break a rule, and in which column.

use crate::specifications::ALL;
use std::alloc::{AllocError, Global};
use std::process::Abort;
use vyrd_own_text::{SpecificationLine, SpecificationReader, SpecificationRule};

/// What the first of these lines is that isn't taken in, with its column; and nothing, if each is.
fn first_refusal(alloc: Global, text: &str) -> Result<(&'static str, usize), AllocError> {
    let mut reader = SpecificationReader::new(alloc);
    for line in text.lines() {
        match reader.take_line(alloc, line.as_bytes())? {
            SpecificationLine::More => {}
            SpecificationLine::Log => return Ok(("log", 0)),
            SpecificationLine::Refused(rule, column) => return Ok((name_of(rule), column)),
        }
    }
    Ok(("", 0))
}

fn name_of(rule: SpecificationRule) -> &'static str {
    match rule {
        SpecificationRule::TooLong => "too long",
        SpecificationRule::BadLine => "bad line",
        SpecificationRule::OutOfPlace => "out of place",
        SpecificationRule::NameTaken => "name taken",
        SpecificationRule::UnknownName => "unknown name",
        SpecificationRule::TooMany => "too many",
        SpecificationRule::TooDeep => "too deep",
        SpecificationRule::StateIsRead => "state is read",
        SpecificationRule::NoCase => "no case",
        SpecificationRule::NoMethod => "no method",
    }
}

/// Lines, and what is said of the last of them.
const ROWS: &[(&str, &str, usize)] = &[
    ("", "", 0),
    ("# a remark\n\n#", "", 0),
    ("what", "bad line", 1),
    (" let a 1", "bad line", 1),
    ("let w0 5", "bad line", 5),
    ("let a none", "bad line", 7),
    ("let a 18446744073709551615", "bad line", 7),
    ("let a 18446744073709551614", "", 0),
    ("let a 01", "bad line", 7),
    ("let a 1 ", "bad line", 7),
    ("let count 1", "bad line", 5),
    ("let A 1", "bad line", 5),
    ("let a_name_of_33_letters_and_digits_x 1", "bad line", 5),
    ("let a_name_of_32_letters_and_digits_ 1", "", 0),
    ("let a 1\nlet a 1", "name taken", 5),
    ("register a 1\nlet b 1", "out of place", 5),
    ("part 1\nlet b 1", "out of place", 5),
    ("hidden 1 2\nlet b 1", "out of place", 5),
    ("list a\nlist a", "name taken", 6),
    ("list a\n holds 1", "bad line", 1),
    ("list a\n  holds 1\n# a remark\n\n  holds 2", "", 0),
    ("  holds 1", "out of place", 9),
    ("list a\npart 1\n  holds 1", "out of place", 9),
    ("list a\n  holds none", "bad line", 9),
    ("hidden 4 5", "", 0),
    ("hidden 4", "bad line", 9),
    ("part 0", "bad line", 6),
    ("part 17", "bad line", 6),
    ("part 1\npart 1", "out of place", 6),
    ("part 1\nregister a 1\n  shows 0 w0", "out of place", 9),
    ("part 1\n  shows [w0] 1", "state is read", 9),
    ("part 1\n  shows w0 (length q)", "state is read", 13),
    ("part 1\n  shows w0 w1", "unknown name", 12),
    ("part 2\n  shows part w1", "", 0),
    ("register a 1\npart 1\n  shows a w0", "unknown name", 9),
    (
        "part 1\n  shows 0 1\n  shows 0 1\n  shows 0 1\n  shows 0 1\n  shows 0 1",
        "too many",
        9,
    ),
    ("  allow 1", "out of place", 1),
    ("    clear", "out of place", 1),
    ("method none", "bad line", 8),
    ("method m x x", "name taken", 12),
    ("register a 1\nmethod m a", "name taken", 10),
    ("method m a b c", "", 0),
    ("method m a b c d", "too many", 15),
    ("method m  a", "bad line", 10),
    ("method m\nmethod k", "no case", 8),
    ("method m\n  answer 1\nmethod m", "name taken", 8),
    ("method m\n    clear", "out of place", 5),
    ("method m\n  let x 1\n  let x 2", "name taken", 7),
    ("method m\n  answer 1\n  let x 2", "out of place", 7),
    ("method m\n  allow 1\n  answer 1", "out of place", 10),
    ("method m\n  answer 1\n  answer 1", "out of place", 10),
    ("method m\n  answer reply", "unknown name", 10),
    ("method m\n  answer (first q)", "unknown name", 17),
    ("method m x\n  allow reply == 1", "bad line", 14),
    ("method m x\n  allow (reply == y)", "unknown name", 19),
    ("method m x\n  allow (reply ==  1)", "bad line", 19),
    ("method m x\n  allow (reply == 01)", "bad line", 19),
    ("method m x\n  allow (reply == 1 + 1)", "bad line", 20),
    ("method m x\n  allow (reply == none)", "", 0),
    ("method m\n  answer 1\nregister a 1", "out of place", 10),
    ("method m\n  answer 1\n  shows 0 1", "out of place", 9),
    (
        "let a 1\nmethod m\n  allow 1\n    set a 2",
        "unknown name",
        9,
    ),
    ("method m\n  allow 1\n    set  a 2", "bad line", 9),
    ("method m\n  allow 1\n    drop middle q", "bad line", 5),
    ("log", "no method", 1),
    ("method m\nlog", "no case", 1),
    ("method m\n  answer 1\nlog", "log", 0),
    ("method m\n  allow 1\nlog", "log", 0),
    (
        "method m\n  answer [[[[[[[[[[[[[[[[[[[[[[[[[[[[[[[1]]]]]]]]]]]]]]]]]]]]]]]]]]]]]]]",
        "",
        0,
    ),
    (
        "method m\n  answer [[[[[[[[[[[[[[[[[[[[[[[[[[[[[[[[1]]]]]]]]]]]]]]]]]]]]]]]]]]]]]]]]",
        "too deep",
        42,
    ),
];

/// Whether each row is read as it says.
fn are_refused(alloc: Global) -> Result<bool, AllocError> {
    for (text, rule, column) in ROWS {
        let (found, at) = first_refusal(alloc, text)?;
        if found != *rule || at != *column {
            return Ok(false);
        }
    }
    Ok(true)
}

#[test]
fn lines_are_refused(rt: HostRuntime) -> Result<(), AllocError> {
    assert!(&rt; are_refused(rt.alloc())?);
    Ok(())
}

/// Whether each specification is read up to its line `log`; the first line is the log's header.
fn are_read(alloc: Global) -> Result<bool, AllocError> {
    for text in ALL {
        let Some((_, lines)) = text.split_once('\n') else {
            return Ok(false);
        };
        if first_refusal(alloc, lines)?.0 != "log" {
            return Ok(false);
        }
    }
    Ok(true)
}

#[test]
fn known_structures_are_read(rt: HostRuntime) -> Result<(), AllocError> {
    assert!(&rt; are_read(rt.alloc())?);
    Ok(())
}

/// What a line is after many of the same.
fn after_many(alloc: Global, line: &[u8], count: usize) -> Result<SpecificationLine, AllocError> {
    let mut reader = SpecificationReader::new(alloc);
    for _ in 0..count {
        reader.take_line(alloc, line)?;
    }
    reader.take_line(alloc, line)
}

/// Whether a line is refused after that many, because there are too many.
fn are_too_many(
    alloc: Global,
    line: &[u8],
    count: usize,
    column: usize,
) -> Result<bool, AllocError> {
    match after_many(alloc, line, count)? {
        SpecificationLine::Refused(SpecificationRule::TooMany, at) => Ok(at == column),
        _ => Ok(false),
    }
}

/// Whether a line is taken in after that many.
fn is_taken_in(alloc: Global, line: &[u8], count: usize) -> Result<bool, AllocError> {
    match after_many(alloc, line, count)? {
        SpecificationLine::More => Ok(true),
        _ => Ok(false),
    }
}

#[test]
fn lines_are_counted(rt: HostRuntime) -> Result<(), AllocError> {
    let alloc = rt.alloc();
    assert!(&rt; is_taken_in(alloc, b"hidden 1 2", 999)?);
    assert!(&rt; are_too_many(alloc, b"hidden 1 2", 1000, 1)?);
    assert!(&rt; are_too_many(alloc, b"", 1000, 1)?);
    Ok(())
}

#[test]
fn lines_have_200_bytes_at_most(rt: HostRuntime) -> Result<(), AllocError> {
    let alloc = rt.alloc();
    assert!(&rt; is_taken_in(alloc, &[b'#'; 200], 0)?);
    match after_many(alloc, &[b'#'; 201], 0)? {
        SpecificationLine::Refused(SpecificationRule::TooLong, column) => {
            assert!(&rt; column == 201);
        }
        _ => {
            assert!(&rt; false);
        }
    }
    Ok(())
}
