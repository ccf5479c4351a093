//! What the reader, the writer and the check answer about small histories.

ghost use Rattle.std.specs.Prelude.{◌≡◌};

use std::alloc::{AllocError, Global};
use std::test::Fail;
use vyrd_base::{Did, Header, Kind, Stamped, Subject};
use vyrd_mover::{
    Blocks, HistoryFault, check_blocks, read_blocks, write_blocks, write_history,
    write_history_refusal,
};

/// The insert of 5 into a bucket of one.
const INSERT: &[u8] = b"history multiset 1 1
0 call insert 5
0 took 8
0 read 0 0
0 wrote 1 5
0 wrote 0 1
0 gave 8
0 took 8
0 open
0 wrote 0 2
0 close commit
0 gave 8
0 return 1
end
";

/// The line that is written about the text of a history.
fn answer(alloc: Global, text: &[u8]) -> Result<Vec<u8>, AllocError> {
    let mut line = Vec::new(alloc);
    match read_blocks(alloc, text) {
        Ok(blocks) => write_blocks(blocks, &mut line)?,
        Err(HistoryFault::Refused { line: number, rule }) => {
            write_history_refusal(number, rule, &mut line)?;
        }
        Err(HistoryFault::Memory) => {}
    }
    Ok(line)
}

/// The text of a history, and the line that is written about it.
type Answered = (&'static [u8], &'static [u8]);

const ANSWERED: &[Answered] = &[
    (INSERT, b"movers: 1 blocks, all reducible\n"),
    (
        b"history multiset 1 2\n0 open\n0 wrote 0 1\n0 wrote 1 5\n0 close\n1 wrote 0 0\n1 wrote 1 6\nend\n",
        b"block at line 2: not reducible at line 4\n",
    ),
    (
        b"history multiset 1 1\n0 open\n0 took 8\n0 gave 8\n0 took 8\n0 close\n0 gave 8\nend\n",
        b"block at line 2: not reducible at line 5\n",
    ),
    (
        b"history multiset 1 1\n0 read 0 1\nend\n",
        b"history refused at line 2: not legal\n",
    ),
    (
        b"history multiset 1 1\n0 close\nend\n",
        b"history refused at line 2: block mark out of place\n",
    ),
    (b"", b"history refused at line 1: no end\n"),
    (
        b"history multiset 1 1\nend\n\n",
        b"history refused at line 3: text after end\n",
    ),
    (
        b"history multiset 1 2\n0 took 8\n0 open\n0 wrote 0 1\n0 wrote 1 5\n0 close\n0 gave 8\n1 took 8\n1 wrote 0 0\n1 gave 8\nend\n",
        b"movers: 1 blocks, all reducible\n",
    ),
    (
        b"history multiset 1 2\n0 open\n1 open\n1 wrote 0 1\n1 wrote 0 2\n0 wrote 0 3\n0 wrote 0 4\n1 close\n0 close\nend\n",
        b"block at line 2: not reducible at line 7\n",
    ),
];

#[test]
fn answers_about_histories(rt: HostRuntime) {
    for (row, (text, line)) in ANSWERED.iter().enumerate() {
        assert!(rt; is_answer(rt.alloc(), text, line), "row {row}");
    }
}

/// Whether this line is written about the text of a history.
fn is_answer(alloc: Global, text: &[u8], line: &[u8]) -> bool {
    match answer(alloc, text) {
        Ok(found) => found.as_slice() == line,
        Err(_) => false,
    }
}

/// What caller 0 does, with its number.
fn by_0(number: u64, did: Did) -> Stamped
    ensures { result ≡ record { number = number; caller = 0; did = did } }
{
    Stamped {
        number,
        caller: 0,
        did,
    }
}

#[test]
fn history_written(rt: HostRuntime) -> Result<(), Fail> {
    let Some(header) = Header::new(1, Subject::Multiset, 1, 1) else {
        panic!(rt; "no header");
    };
    let history = [
        by_0(0, Did::Took(8)),
        by_0(1, Did::Marked(Kind::BlockOpen)),
        by_0(2, Did::Wrote(0, 1)),
        by_0(3, Did::Marked(Kind::BlockCommit)),
        by_0(4, Did::Gave(8)),
    ];
    let mut text = Vec::new(rt.alloc());
    write_history(header, &history, &mut text)?;
    let lines: &[u8] =
        b"history multiset 1 1\n0 took 8\n0 open\n0 wrote 0 1\n0 close commit\n0 gave 8\nend\n";
    assert!(rt; text.as_slice() == lines);
    Ok(())
}

#[test]
fn no_events(rt: HostRuntime) -> Result<(), Fail> {
    let Some(header) = Header::new(1, Subject::Multiset, 1, 1) else {
        panic!(rt; "no header");
    };
    let history: [Stamped; 0] = [];
    let blocks = check_blocks(rt.alloc(), header, &history)?;
    assert!(rt; blocks == Blocks::Reducible { blocks: 0 });
    Ok(())
}

/// The text of a history of that many reads, each on a line.
fn text_of_reads(alloc: Global, count: u32) -> Result<Vec<u8>, AllocError> {
    let mut text = Vec::new(alloc);
    text.extend_from_slice(b"history multiset 1 1\n")?;
    for _ in 0..count {
        text.extend_from_slice(b"0 read 0 0\n")?;
    }
    text.extend_from_slice(b"end\n")?;
    Ok(text)
}

#[test]
fn limit_of_lines(rt: HostRuntime) {
    assert!(rt; is_limit(rt.alloc(), 3_999_998, b"movers: 0 blocks, all reducible\n"));
    assert!(rt;
        is_limit(
            rt.alloc(),
            3_999_999,
            b"history refused at line 4000001: too many lines\n"
        )
    );
}

/// Whether this line is written about a history of that many reads.
fn is_limit(alloc: Global, count: u32, line: &[u8]) -> bool {
    match text_of_reads(alloc, count) {
        Ok(text) => is_answer(alloc, &text, line),
        Err(_) => false,
    }
}
