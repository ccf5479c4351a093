//! What the reader and the writers do on worked cases.

ghost use Rattle.std.specs.Prelude.{◌≡◌, ◌≤◌, true, length};
ghost use Rattle.std.specs.List.{AllByRecursion};
ghost use Rattle.vyrd_base.specs.declared.log.Kind.TheVariants.{Call};
ghost use Rattle.vyrd_base.specs.Limits.{most_lines};
ghost use Rattle.vyrd_text.specs.Written.{is_padded, is_writable};

use std::alloc::{AllocError, Global};
use std::process::Abort;
use std::test::Fail;
use vyrd_base::{
    Args, BuffersMethod, Entry, Header, Kind, Method, MultisetMethod, Rule, StartWord, Subject,
    Verdict, Why,
};
use vyrd_text::{
    LogReader, TextFault, read_line, read_start, write_line, write_log, write_started,
    write_verdict,
};

/// The most lines that a reader may be given.
const MOST: u64 = 268_435_456;

/// A log whose bucket has the value 5 at the start.
const STARTED: &[u8] = b"vyrd 2 multiset 1 1
start 0 2
start 1 5
0 call delete 5
0 open
0 write 0 0
0 close commit
0 return 1
end
";

const DELETED: &[u8] = b"vyrd 1 multiset 1 1\n0 call delete 5\n0 commit\n0 return 0\nend\n";

/// A text, the line and the rule that it breaks, if it breaks one, and how many entries are read.
type Case = (&'static [u8], Option<(u64, Rule)>, usize);

const CASES: &[Case] = &[
    (b"vyrd 1 multiset 1 1\nend\n", None, 0),
    (DELETED, None, 3),
    (b"", Some((1, Rule::NoEnd)), 0),
    (b"vyrd 1 multiset 1 1\nend", Some((2, Rule::NoLineFeed)), 0),
    (b"vyrd 1 multiset 1 1\nend\nx", Some((3, Rule::AfterEnd)), 0),
    (
        b"vyrd 1 multiset 1 1\n0 call insert 05\nend\n",
        Some((2, Rule::BadEntry)),
        0,
    ),
    // The limits of the header.
    (b"vyrd 1 multiset 1 64\nend\n", None, 0),
    (
        b"vyrd 1 multiset 1 65\nend\n",
        Some((1, Rule::BadHeader)),
        0,
    ),
    (b"vyrd 2 multiset 1 1\nend\n", None, 0),
    (
        b"vyrd 3 multiset 1 1\nend\n",
        Some((1, Rule::UnknownVersion)),
        0,
    ),
    // Starting words.
    (STARTED, None, 5),
    (
        b"vyrd 2 multiset 1 1\nstart 1 5\nstart 0 2\nend\n",
        Some((3, Rule::StartOrder)),
        0,
    ),
    (
        b"vyrd 2 multiset 1 1\nstart 0 0\nend\n",
        Some((2, Rule::StartRange)),
        0,
    ),
    (
        b"vyrd 1 multiset 1 1\nstart 0 2\nend\n",
        Some((2, Rule::BadEntry)),
        0,
    ),
    (
        b"vyrd 2 multiset 1 1\n0 call lookup 5\nstart 0 2\nend\n",
        Some((3, Rule::BadEntry)),
        1,
    ),
];

#[test]
fn faults_of_text(rt: HostRuntime) {
    for (row, case) in CASES.iter().enumerate() {
        assert_read(&rt, rt.alloc(), MOST, case, row);
    }
}

#[test]
fn too_many_lines(rt: HostRuntime) {
    let case = (DELETED, Some((3, Rule::TooManyLines)), 1);
    assert_read(&rt, rt.alloc(), 2, &case, 0);
}

/// Asserts the answer in every cutting of the text into two pieces, and byte by byte.
fn assert_read(rt: &impl Abort, alloc: Global, max_lines: u64, case: &Case, row: usize)
    requires { (1 ≤ max_lines) × (max_lines ≤ most_lines) }
{
    let (text, fault, count) = *case;
    let answer = (answer_of(fault), count);
    for cut in 0..=text.len() {
        let found = read_in_two(alloc, max_lines, text, cut);
        assert!(rt; found == answer, "row {row}, cut at {cut}");
    }
    let found = read_bytes(alloc, max_lines, text);
    assert!(rt; found == answer, "row {row}, byte by byte");
}

/// What a reader answers about this fault.
fn answer_of(fault: Option<(u64, Rule)>) -> Result<(), TextFault> {
    match fault {
        Some((line, rule)) => Err(TextFault::Malformed { line, rule }),
        None => Ok(()),
    }
}

/// The answer about a text, and how many entries were read.
type Answer = (Result<(), TextFault>, usize);

/// Reads the text in two pieces.
fn read_in_two(alloc: Global, max_lines: u64, text: &[u8], cut: usize) -> Answer
    requires lines { (1 ≤ max_lines) × (max_lines ≤ most_lines) }
    requires cut { cut ≤ length text.now }
{
    let mut reader = LogReader::new(alloc, max_lines);
    let mut entries = Vec::new(alloc);
    let mut answer = reader.feed(&text[..cut], &mut entries);
    if answer.is_ok() {
        answer = reader.feed(&text[cut..], &mut entries);
    }
    if answer.is_ok() {
        answer = reader.finish();
    }
    (answer, entries.len())
}

/// Reads the text byte by byte.
fn read_bytes(alloc: Global, max_lines: u64, text: &[u8]) -> Answer
    requires { (1 ≤ max_lines) × (max_lines ≤ most_lines) }
{
    let mut reader = LogReader::new(alloc, max_lines);
    let mut entries = Vec::new(alloc);
    for byte in text {
        let answer = reader.feed(&[*byte], &mut entries);
        if answer.is_err() {
            return (answer, entries.len());
        }
    }
    (reader.finish(), entries.len())
}

/// The entries of the log whose text is `DELETED`.
fn deleted() -> [Entry; 3]
    ensures { AllByRecursion (λ e. is_writable Subject.Multiset e ≡ true) result }
{
    let args = Args { a: 5, b: 0, c: 0 };
    [
        Entry {
            caller: 0,
            kind: Kind::Call(Method::Multiset(MultisetMethod::Delete), args),
        },
        Entry {
            caller: 0,
            kind: Kind::Commit,
        },
        Entry {
            caller: 0,
            kind: Kind::Return(0),
        },
    ]
}

#[test]
fn absent_delete_replies_0(rt: HostRuntime) {
    let header = Header::new(1, Subject::Multiset, 1, 1).unwrap();
    assert!(rt; is_written(rt.alloc(), header, &deleted(), DELETED));
    assert!(rt; is_read(rt.alloc(), DELETED, header, &deleted()));
}

/// Whether the log with these entries is written as this text.
fn is_written(alloc: Global, header: Header, entries: &[Entry], text: &[u8]) -> bool
    requires { AllByRecursion (λ e. is_writable header.subject e ≡ true) entries.now }
{
    let mut out = Vec::new(alloc);
    write_log(header, entries, &mut out).is_ok() && out.as_slice() == text
}

/// Whether the text is read as the log with this header and these entries, to its end.
fn is_read(alloc: Global, text: &[u8], header: Header, entries: &[Entry]) -> bool {
    let mut reader = LogReader::new(alloc, MOST);
    let mut read = Vec::new(alloc);
    reader.feed(text, &mut read).is_ok()
        && read.as_slice() == entries
        && reader.header() == Some(header)
        && reader.ended()
}

/// What a reader gives of the text that comes in two pieces, written again.
fn written_again(alloc: Global, text: &[u8], cut: usize) -> Result<Vec<u8>, Fail>
    requires { cut ≤ length text.now }
{
    let mut reader = LogReader::new(alloc, MOST);
    let mut entries = Vec::new(alloc);
    reader.feed(&text[..cut], &mut entries)?;
    reader.feed(&text[cut..], &mut entries)?;
    let mut again = Vec::new(alloc);
    if let Some(header) = reader.header() {
        write_started(header, reader.start(), &entries, &mut again)?;
    }
    Ok(again)
}

#[test]
fn starting_words_are_written_as_they_were_read(rt: HostRuntime) -> Result<(), Fail> {
    for cut in 0..=STARTED.len() {
        let again = written_again(rt.alloc(), STARTED, cut)?;
        assert!(rt; again.as_slice() == STARTED, "cut at {cut}");
    }
    Ok(())
}

#[test]
fn starting_words_are_kept(rt: HostRuntime) {
    let first = StartWord { word: 0, value: 2 };
    let second = StartWord { word: 1, value: 5 };
    let mut reader = LogReader::new(rt.alloc(), MOST);
    let mut entries = Vec::new(rt.alloc());
    assert!(rt; is_taken(&mut reader, &mut entries, &STARTED[..35], &[first], 0));
    assert!(rt;
        is_taken(
            &mut reader,
            &mut entries,
            &STARTED[35..],
            &[first, second],
            5
        )
    );
    assert!(rt; read_start(b"start 0 2") == Some(first));
}

/// Whether the reader takes the piece, and has these starting words then and that many entries.
fn is_taken(
    reader: &mut LogReader,
    entries: &mut Vec<Entry>,
    piece: &[u8],
    start: &[StartWord],
    count: usize,
) -> bool {
    reader.feed(piece, entries).is_ok() && reader.start() == start && entries.len() == count
}

#[test]
fn one_line(rt: HostRuntime) {
    assert!(rt;
        is_line(
            rt.alloc(),
            Subject::Multiset,
            b"0 return 0",
            Kind::Return(0)
        )
    );
}

/// The lines of string buffers, read and written, and two of other subjects.
#[test]
fn lines_of_string_buffers(rt: HostRuntime) {
    let alloc = rt.alloc();
    assert!(rt;
        is_call(
            alloc,
            b"0 call append 1 254",
            Method::Buffers(BuffersMethod::Append),
            1,
            254
        )
    );
    assert!(rt;
        is_call(
            alloc,
            b"0 call append_from 1 0",
            Method::Buffers(BuffersMethod::AppendFrom),
            1,
            0
        )
    );
    assert!(rt;
        is_call(
            alloc,
            b"0 call cut 1 4294967295",
            Method::Buffers(BuffersMethod::Cut),
            1,
            4_294_967_295
        )
    );
    assert!(rt;
        is_call(
            alloc,
            b"0 call length 1",
            Method::Buffers(BuffersMethod::Length),
            1,
            0
        )
    );
    assert!(rt;
        is_call(
            alloc,
            b"0 call read 1",
            Method::Buffers(BuffersMethod::Read),
            1,
            0
        )
    );
    assert!(rt; read_line(Subject::Cache, b"0 call append 1 254").is_none());
    assert!(rt; read_line(Subject::Buffers, b"0 call insert 1").is_none());
}

/// Whether this is the line of a call to string buffers by caller 0, written and read.
fn is_call(alloc: Global, text: &[u8], method: Method, a: u32, b: u32) -> bool
    requires { is_padded (Call method (record { a = a; b = b; c = 0 })) ≡ true }
{
    let args = Args { a, b, c: 0 };
    is_line(alloc, Subject::Buffers, text, Kind::Call(method, args))
}

/// Whether this is the line of what caller 0 does, written and read.
fn is_line(alloc: Global, subject: Subject, text: &[u8], kind: Kind) -> bool
    requires { is_padded kind ≡ true }
{
    let entry = Entry { caller: 0, kind };
    let mut line = Vec::new(alloc);
    write_line(&entry, &mut line).is_ok()
        && line.as_slice() == text
        && read_line(subject, text) == Some(entry)
}

const VERDICTS: &[Verdict] = &[
    Verdict::Accepted {
        entries: 9,
        commits: 1,
        observers: 1,
    },
    Verdict::Violation {
        line: 3,
        why: Why::Reply(1),
    },
    Verdict::Violation {
        line: 14,
        why: Why::View(6),
    },
    Verdict::Violation {
        line: 6,
        why: Why::Observer(1),
    },
    Verdict::Malformed {
        line: 6,
        rule: Rule::BlockRaced,
    },
    Verdict::Malformed {
        line: 2,
        rule: Rule::StartRange,
    },
    Verdict::Malformed {
        line: 2,
        rule: Rule::StartOrder,
    },
    Verdict::Malformed {
        line: 2,
        rule: Rule::StartState,
    },
];

const LINES: &[u8] = b"accepted: 9 entries, 1 commits, 1 observers
violation at line 3: reply 1 not allowed
violation at line 14: view differs at key 6
violation at line 6: observer reply 1 in no state
malformed at line 6: block raced
malformed at line 2: start out of range
malformed at line 2: start word not rising
malformed at line 2: start stands for no state
";

#[test]
fn verdicts(rt: HostRuntime) -> Result<(), Fail> {
    let mut text = Vec::new(rt.alloc());
    write_all(VERDICTS, &mut text)?;
    assert_eq!(rt; text.as_slice(), LINES);
    Ok(())
}

/// Appends the lines of these verdicts.
fn write_all(verdicts: &[Verdict], text: &mut Vec<u8>) -> Result<(), AllocError> {
    for verdict in verdicts {
        write_verdict(verdict, text)?;
    }
    Ok(())
}
