//! Walks over words that no run leaves, and a tree of four levels. What each operation does, act by
//! act, stands in the histories of `examples/`.

use crate::cases::{Case, assert_cases, reply, word};
use std::alloc::Global;
use vyrd_base::{Args, Header, Kind, Method, Subject, TreeMethod};
use vyrd_memory::{Act, Op, Variant};
use vyrd_tree::{TreeMachine, TreeProgress};

#[test]
fn walks_over_other_words(rt: HostRuntime) {
    assert_cases::<TreeProgress>(&rt, rt.alloc(), Subject::Tree, WALKS);
}

const WALKS: &[Case] = &[
    // The root, node 2, has one entry. The walk goes down to leaf 0, and right to leaf 1.
    Case {
        size: 3,
        words: &[
            0, 3, 30, 1, 10, 20, 25, 40, 1, 2, 9, 4, // node 0
            0, 2, 0, 0, 30, 40, 0, 0, 3, 4, 0, 0, // node 1
            1, 1, 0, 0, 0, 30, 0, 0, 0, 1, 0, 0, // node 2
            2, 2, // the root, and how many nodes are in use beside node 0
        ],
        variant: Variant::Correct,
        method: Method::Tree(TreeMethod::Lookup),
        args: (40, 0, 0),
        acts: &[
            Act::Load(36),
            Act::Take(40),
            Act::Load(24),
            Act::Load(25),
            Act::Load(26),
            Act::Load(27),
            Act::Load(28),
            Act::Load(32),
            Act::Give(40),
            Act::Take(38),
            Act::Load(0),
            Act::Load(1),
            Act::Load(2),
            Act::Load(3),
            Act::Give(38),
            Act::Take(39),
            Act::Load(12),
            Act::Load(13),
            Act::Load(14),
            Act::Load(15),
            Act::Load(16),
            Act::Load(17),
            Act::Load(20),
            Act::Load(21),
            Act::Give(39),
            Act::Mark(Kind::Return(5)),
        ],
    },
    // The only leaf leads to itself, so the walk is lost after as many visits as there are nodes.
    Case {
        size: 1,
        words: &[0, 1, 1, 0, 0, 0, 0, 0, 7, 0, 0, 0, 0, 0],
        variant: Variant::Correct,
        method: Method::Tree(TreeMethod::Delete),
        args: (5, 0, 0),
        acts: &[
            Act::Load(12),
            Act::Take(14),
            Act::Load(0),
            Act::Load(1),
            Act::Load(2),
            Act::Load(3),
            Act::Give(14),
            Act::Mark(Kind::Commit),
            Act::Mark(Kind::Return(0)),
        ],
    },
    // The root is to be node 1, and there is none.
    Case {
        size: 1,
        words: &[0, 1, 1, 0, 0, 0, 0, 0, 7, 0, 0, 0, 1, 0],
        variant: Variant::Correct,
        method: Method::Tree(TreeMethod::Lookup),
        args: (5, 0, 0),
        acts: &[Act::Load(12), Act::Mark(Kind::Return(0))],
    },
];

/// What a call replies in these words, in a tree of 64 nodes.
fn replied(alloc: Global, method: TreeMethod, key: u32, words: &mut [u64]) -> Option<u64> {
    let header = Header::new(1, Subject::Tree, 64, 1)?;
    let value = match method {
        TreeMethod::Insert => key.wrapping_add(100),
        _ => 0,
    };
    let op = Op {
        method: Method::Tree(method),
        args: Args {
            a: key,
            b: value,
            c: 0,
        },
    };
    match TreeMachine::new(alloc, header, 0, Variant::Correct, &[op]) {
        Ok(mut machine) => reply(&mut machine, words),
        Err(_) => None,
    }
}

#[test]
fn tree_grows_roots(rt: HostRuntime) {
    let mut words = [0; 770];
    for key in 0..60 {
        assert!(rt; replied(rt.alloc(), TreeMethod::Insert, key, &mut words) == Some(1));
    }
    // A split leaves three entries: 20 leaves, 7 and 2 nodes above them, and the root of level 3.
    let root = word(&words, 768);
    assert!(rt; root < 64 && word(&words, 12 * root as u32) == 3);
    for key in 0..60 {
        let found = replied(rt.alloc(), TreeMethod::Lookup, key, &mut words);
        assert!(rt; found == Some(u64::from(key) + 101));
    }
}
