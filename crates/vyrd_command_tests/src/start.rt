//! The words that a run leaves, as the start of a log.

ghost use Rattle.std.specs.Prelude.{◌≡◌, ◌<◌, ◌≤◌, ◌^◌, ℕ, length, slice_index, IfOk, IfSome};
ghost use Rattle.vyrd_base.specs.declared.subject.Subject.TheVariants.{Tree};
ghost use Rattle.vyrd_base.specs.Layout.{plain_words};

use crate::case::{Case, LONG};
use std::alloc::{AllocError, Global};
use std::sync::Wait;
use std::thread::Threads;
use vyrd_base::{Header, OpenGate, Subject};
use vyrd_command::MOST_EVENTS;
use vyrd_live::run_live;
use vyrd_spec::{BuiltIn, Spec, TreeSpec};
use vyrd_text::LineBuffer;
use vyrd_work::read_work;

/// Appends two numbers, with text before each of them, and a line feed.
fn put_two(
    front: &[u8],
    first: u64,
    middle: &[u8],
    second: u64,
    text: &mut Vec<u8>,
) -> Result<(), AllocError>
    requires front { length front.now ≤ 32 }
    requires middle { length middle.now ≤ 32 }
{
    let mut line = LineBuffer::new();
    line.push(front);
    line.push_number(first);
    line.push(middle);
    line.push_number(second);
    line.push(b"\n");
    text.extend_from_slice(line.as_slice())
}

/// The workload that inserts the keys 1 to 40 into a tree of 18 nodes, each with itself as its
/// value.
fn forty_inserts(alloc: Global) -> Result<Vec<u8>, AllocError> {
    let mut work = Vec::from_slice(alloc, b"work tree 18 1 correct\n")?;
    for key in 1..=40_u64 {
        put_two(b"op 0 insert ", key, b" ", key, &mut work)?;
    }
    work.extend_from_slice(b"end\n")?;
    Ok(work)
}

/// A log that begins with the words and looks up the keys 1 to 40, each of which has itself as its
/// value.
fn forty_lookups(alloc: Global, words: &[u64]) -> Result<Vec<u8>, AllocError> {
    let mut log = Vec::from_slice(alloc, b"vyrd 2 tree 18 1\n")?;
    put_words(words, &mut log)?;
    for key in 1..=40_u64 {
        put_two(b"0 call lookup ", key, b"\n0 return ", key + 1, &mut log)?;
    }
    log.extend_from_slice(b"end\n")?;
    Ok(log)
}

/// Appends the starting lines of the words that aren't 0.
fn put_words(words: &[u64], log: &mut Vec<u8>) -> Result<(), AllocError> {
    for (word, value) in words.iter().enumerate() {
        if *value != 0 {
            put_two(b"start ", word as u64, b" ", *value, log)?;
        }
    }
    Ok(())
}

/// The header's plain words at the front of the list, if they are all there and below 2^63.
fn plain_words_of(
    alloc: Global,
    header: Header,
    words: &[u64],
) -> Result<Option<Vec<u64>>, AllocError>
    ensures count { IfOk result (λ o. IfSome o (λ plain. length plain.items ≡ plain_words header)) }
    ensures low { IfOk result
        (λ o. IfSome o (λ plain. (w : ℕ) → slice_index plain.items w < 2 ^ 63)) }
{
    let mut plain = vec![in alloc; 0; header.plain_words() as usize]?;
    for i in 0..plain.len() {
        match words.get(i).copied() {
            Some(value) if value < 1 << 63 => plain[i] = value,
            _ => return Ok(None),
        }
    }
    Ok(Some(plain))
}

/// The words that a live run of forty inserts leaves.
fn words_left<R: Threads + Wait + Sync>(rt: &R, alloc: Global) -> Option<Vec<u64>> {
    let text = forty_inserts(alloc).ok()?;
    let Ok(work) = read_work(alloc, &text) else {
        return None;
    };
    let run = run_live(rt, alloc, &work, MOST_EVENTS, &OpenGate).ok()?;
    Some(run.words)
}

/// How many keys the state has for which the words stand, if they stand for one.
fn count_keys(alloc: Global, header: Header, plain: &[u64]) -> Option<usize>
    requires subject { header.subject ≡ Tree }
    requires count { length plain.now ≡ plain_words header }
    requires low { (w : ℕ) → slice_index plain.now w < 2 ^ 63 }
{
    let spec = TreeSpec::start_from(alloc, header, plain).ok()??;
    Some(spec.view(alloc).ok()?.pairs().len())
}

/// What is answered to the log that looks up the keys.
const FORTY_LOOKUPS: Case = Case {
    name: "forty_lookups",
    words: &["check"],
    input: b"",
    devices: LONG,
    status: 0,
    answer: b"accepted: 80 entries, 0 commits, 40 observers\n",
};

/// Whether that is answered to it, from these words on.
fn are_looked_up<R: Threads + Wait + Sync>(rt: &R, alloc: Global, words: &[u64]) -> bool {
    match forty_lookups(alloc, words) {
        Ok(log) => FORTY_LOOKUPS.is_answered_to(rt, alloc, &log, &OpenGate),
        Err(_) => false,
    }
}

/// Whether a tree's words stand for a state of forty keys, and the log that begins with them is
/// accepted.
fn are_kept<R: Threads + Wait + Sync>(rt: &R, alloc: Global, words: &[u64]) -> Option<bool> {
    let header = Header::new(2, Subject::Tree, 18, 1)?;
    let plain = plain_words_of(alloc, header, words).ok()??;
    Some(count_keys(alloc, header, &plain) == Some(40) && are_looked_up(rt, alloc, &plain))
}

#[test]
fn start_with_forty_keys(rt: HostRuntime) {
    let Some(words) = words_left(&rt, rt.alloc()) else {
        panic!(rt; "no run")
    };
    assert!(rt; are_kept(&rt, rt.alloc(), &words) == Some(true));
}
