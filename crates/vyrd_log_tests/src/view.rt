//! What words of each subject show.

ghost use Rattle.std.specs.Prelude.{◌≡◌, ◌<◌, true, false, length, replicate, OnOk};
ghost use Rattle.vyrd_base.specs.Layout.{plain_words};
ghost use Rattle.vyrd_base.specs.Subjects.{is_built_in};

use std::alloc::{AllocError, Global};
use std::marker::Brand;
use std::sync::ledger::{Blank, Ledger};
use vyrd_base::{Header, Steps, Subject, View};
use vyrd_view::{Compared, first_difference, view_of};

/// A subject, its size, its words, and the pairs that they show.
type Shown = (Subject, u32, &'static [u64], &'static [(u64, u64)]);

const SHOWN: &[Shown] = &[
    // Of slots, those that are full show.
    (Subject::Multiset, 1, &[2, 5, 1, 7, 0, 9, 0, 0], &[(5, 1)]),
    (
        Subject::Multiset,
        1,
        &[2, 5, 2, 3, 0, 9, 2, 5],
        &[(3, 1), (5, 2)],
    ),
    (Subject::Multiset, 1, &[2, 5, 0, 0, 0, 0, 0, 0], &[(5, 1)]),
    // A chunk that is dirty, absent, clean and not as it is stored, and damaged.
    (Subject::Cache, 1, &[2, 1, 2, 0, 0], &[(0, 8589934593)]),
    (Subject::Cache, 1, &[0, 9, 9, 1, 2], &[(0, 8589934593)]),
    (
        Subject::Cache,
        1,
        &[1, 1, 2, 0, 0],
        &[(0, 8589934593), (1, 1)],
    ),
    (Subject::Cache, 1, &[3, 1, 2, 1, 2], &[(1, 2)]),
    // Two leaves, and the same where the second leads to itself.
    (
        Subject::Tree,
        2,
        &[
            0, 1, 6, 1, 5, 0, 0, 0, 9, 0, 0, 0, 0, 1, 0, 0, 7, 0, 0, 0, 0, 0, 0, 0, 0, 1,
        ],
        &[(5, 4294967305), (7, 4294967296)],
    ),
    (
        Subject::Tree,
        2,
        &[
            0, 1, 6, 1, 5, 0, 0, 0, 9, 0, 0, 0, 0, 1, 0, 1, 7, 0, 0, 0, 0, 0, 0, 0, 0, 1,
        ],
        &[(5, 4294967305), (7, 4294967296), (8589934592, 1)],
    ),
    // Two buffers; of the last two neither is sound.
    (
        Subject::Buffers,
        2,
        &[2, 65, 66, 300, 0, 0, 0, 0, 0, 65, 0, 0, 0, 0, 0, 0],
        &[(0, 17218)],
    ),
    (
        Subject::Buffers,
        2,
        &[1, 65, 66, 0, 0, 0, 0, 0, 2, 65, 66, 0, 0, 0, 0, 0],
        &[(0, 66), (1, 17218)],
    ),
    (
        Subject::Buffers,
        2,
        &[0, 0, 0, 0, 0, 0, 0, 0, 7, 254, 254, 254, 254, 254, 254, 254],
        &[(1, 72057594037927935)],
    ),
    (
        Subject::Buffers,
        2,
        &[8, 65, 66, 67, 68, 69, 70, 71, 2, 65, 255, 0, 0, 0, 0, 0],
        &[(2, 1), (3, 1)],
    ),
];

#[test]
fn words_show_their_pairs(rt: HostRuntime) {
    for (row, (subject, size, words, pairs)) in SHOWN.iter().enumerate() {
        assert!(rt;
            show(rt.alloc(), *subject, *size, words, pairs),
            "row {row}"
        );
    }
}

/// Whether the words show these pairs.
fn show(alloc: Global, subject: Subject, size: u32, words: &[u64], pairs: &[(u64, u64)]) -> bool {
    match shown(alloc, subject, size, words) {
        Some(view) => view.pairs() == pairs,
        None => false,
    }
}

/// What the words show, if they are as many as the subject of this size has.
#[tactic(auto, using(vyrd_base::proofs::HeaderLaws::first_version_built_in))]
fn shown(alloc: Global, subject: Subject, size: u32, words: &[u64]) -> Option<View> {
    let header = Header::new(1, subject, size, 1)?;
    if words.len() != header.plain_words() as usize {
        return None;
    }
    view_of(alloc, header, words).ok()
}

/// A subject of size 1, its words two times, and the first key at which they show something else.
type Apart = (Subject, &'static [u64], &'static [u64], Option<u64>);

const APART: &[Apart] = &[
    (
        Subject::Multiset,
        &[2, 5, 1, 7, 0, 9, 0, 0],
        &[2, 5, 2, 3, 0, 9, 2, 5],
        Some(3),
    ),
    (
        Subject::Multiset,
        &[2, 5, 2, 3, 0, 9, 2, 5],
        &[2, 5, 2, 3, 0, 9, 2, 5],
        None,
    ),
    (Subject::Cache, &[0, 9, 9, 1, 2], &[1, 1, 2, 0, 0], Some(1)),
];

#[test]
fn views_differ_first_at(rt: HostRuntime) {
    for (row, (subject, one, other, key)) in APART.iter().enumerate() {
        let found = difference(rt.alloc(), *subject, one, other);
        assert!(rt; found == Some(*key), "row {row}");
    }
}

/// Where the views of these words differ first.
fn difference(alloc: Global, subject: Subject, one: &[u64], other: &[u64]) -> Option<Option<u64>> {
    let one = shown(alloc, subject, 1, one)?;
    let other = shown(alloc, subject, 1, other)?;
    Some(first_difference(&one, &other))
}

/// The first differences at two moments.
type Differences = (Option<u64>, Option<u64>);

#[test]
fn one_slot_changed(rt: HostRuntime) {
    let header = Header::new(1, Subject::Multiset, 1, 1).unwrap();
    let found = one_slot::<Brand>(rt.alloc(), Blank::new(1), header);
    assert!(rt; found == Ok((Some(5), None)));
}

/// The first difference after a slot got the value 5, first its value and then its state, and after
/// the specification has it too.
fn one_slot<L: Ledger>(
    alloc: Global,
    blank: Blank,
    header: Header,
) -> Result<Differences, AllocError>
    requires name { blank.name ≡ L.name }
    requires parts { blank.parts ≡ L.parts }
    requires some { 0 < blank.parts }
    requires count { plain_words header ≡ 8 }
    requires built_in { is_built_in header.subject ≡ true }
{
    let mut steps = Steps::<L>::new(blank);
    let mut compared = Compared::new(alloc, header)?;
    fill_slot(&mut compared, &mut [0; 8], &mut steps)
}

/// The same of these words.
fn fill_slot<L: Ledger>(
    compared: &mut Compared,
    words: &mut [u64; 8],
    steps: &mut Steps<L>,
) -> Result<Differences, AllocError>
    requires sound { compared.old.refused ≡ false }
    requires same { compared.old.words ≡ words.old }
    requires count { plain_words compared.old.header ≡ 8 }
{
    words[1] = 5;
    words[0] = 2;
    compared.words_changed(words, &[1, 0], steps)?;
    let first = compared.first_difference();
    compared.spec_changed(5, 1, steps)?;
    Ok((first, compared.first_difference()))
}

/// A subject of size 2, writes to its words, amounts of its specification, and the first difference
/// after the writes and after the amounts too.
type Changed = (
    Subject,
    &'static [(u32, u64)],
    &'static [(u64, u64)],
    Differences,
);

const CHANGED: &[Changed] = &[
    // A damaged chunk differs past the chunks.
    (
        Subject::Cache,
        &[(6, 1), (7, 2), (5, 2), (0, 3)],
        &[(1, 8589934593)],
        (Some(1), Some(2)),
    ),
    // A leaf is shown once it is linked. A chain with a leaf that leads to itself is damaged.
    (
        Subject::Tree,
        &[(4, 5), (8, 9), (1, 1), (13, 1), (16, 7), (3, 1)],
        &[(5, 4294967305), (7, 4294967296)],
        (Some(5), None),
    ),
    (
        Subject::Tree,
        &[(4, 5), (8, 9), (1, 1), (13, 1), (16, 7), (3, 1), (15, 1)],
        &[(5, 4294967305), (7, 4294967296)],
        (Some(5), Some(8589934592)),
    ),
    // A changed buffer is shown.
    (
        Subject::Buffers,
        &[(1, 65), (2, 66), (0, 2), (9, 65), (10, 66), (8, 2), (0, 1)],
        &[(0, 66), (1, 17218)],
        (Some(0), None),
    ),
    // A damaged buffer differs until it is mended.
    (
        Subject::Buffers,
        &[(9, 65), (10, 66), (8, 2), (10, 255)],
        &[(1, 17218)],
        (Some(3), Some(1)),
    ),
    (
        Subject::Buffers,
        &[(9, 65), (10, 66), (8, 8), (10, 255), (8, 2), (10, 66)],
        &[(1, 17218)],
        (Some(1), None),
    ),
];

#[test]
#[tactic(auto, using(vyrd_base::proofs::HeaderLaws::first_version_built_in))]
fn changes_are_compared(rt: HostRuntime) {
    for (row, (subject, writes, amounts, found)) in CHANGED.iter().enumerate() {
        let header = Header::new(1, *subject, 2, 1).unwrap();
        let answers = differences::<Brand>(rt.alloc(), Blank::new(1), header, writes, amounts);
        assert!(rt; answers == Ok(*found), "row {row}");
    }
}

/// The first difference after these writes, and after these amounts of the specification too.
fn differences<L: Ledger>(
    alloc: Global,
    blank: Blank,
    header: Header,
    writes: &[(u32, u64)],
    amounts: &[(u64, u64)],
) -> Result<Differences, AllocError>
    requires name { blank.name ≡ L.name }
    requires parts { blank.parts ≡ L.parts }
    requires some { 0 < blank.parts }
    requires built_in { is_built_in header.subject ≡ true }
{
    let mut steps = Steps::<L>::new(blank);
    let mut compared = Compared::new(alloc, header)?;
    write_all(alloc, header, &mut compared, writes, &mut steps)?;
    specify_all(&mut compared, amounts, &mut steps)
}

/// Writes these words, which were all 0, each of them on its own.
fn write_all<L: Ledger>(
    alloc: Global,
    header: Header,
    compared: &mut Compared,
    writes: &[(u32, u64)],
    steps: &mut Steps<L>,
) -> Result<(), AllocError>
    requires sound { compared.old.refused ≡ false }
    requires header { compared.old.header ≡ header }
    requires zeroed { compared.old.words ≡ replicate (plain_words header) 0 }
    ensures { OnOk result (compared.new.refused ≡ false) }
{
    let mut words = vec![in alloc; 0; header.plain_words() as usize]?;
    for (word, value) in writes {
        write(compared, &mut words, *word, *value, steps)?;
    }
    Ok(())
}

/// Writes a word, if there is one with this number.
fn write<L: Ledger>(
    compared: &mut Compared,
    words: &mut [u64],
    word: u32,
    value: u64,
    steps: &mut Steps<L>,
) -> Result<(), AllocError>
    requires sound { compared.old.refused ≡ false }
    requires same { compared.old.words ≡ words.old }
    requires count { length words.old ≡ plain_words compared.old.header }
    ensures sound { OnOk result (compared.new.refused ≡ false) }
    ensures same { OnOk result (compared.new.words ≡ words.new) }
    ensures header { compared.new.header ≡ compared.old.header }
{
    if word as usize >= words.len() {
        return Ok(());
    }
    words[word as usize] = value;
    compared.words_changed(words, &[word], steps)
}

/// The first difference now, and after the specification has these amounts.
fn specify_all<L: Ledger>(
    compared: &mut Compared,
    amounts: &[(u64, u64)],
    steps: &mut Steps<L>,
) -> Result<Differences, AllocError>
    requires { compared.old.refused ≡ false }
{
    let first = compared.first_difference();
    for (key, amount) in amounts {
        compared.spec_changed(*key, *amount, steps)?;
    }
    Ok((first, compared.first_difference()))
}
