//! Counts and characters that are too large for any run. What each operation does, act by act,
//! stands in the histories of `examples/`.

use crate::cases::{Case, assert_cases};
use vyrd_base::{BuffersMethod, Kind, Method, Subject};
use vyrd_buffers::BufferProgress;
use vyrd_memory::{Act, Variant};

#[test]
fn counts_and_characters_are_cut(rt: HostRuntime) {
    assert_cases::<BufferProgress>(&rt, rt.alloc(), Subject::Buffers, TOO_LARGE);
}

const TOO_LARGE: &[Case] = &[
    // A length is at most 7.
    Case {
        size: 2,
        words: &[3, 1, 2, 3, 0, 0, 0, 0, 9, 0, 0, 0, 0, 0, 0, 0],
        variant: Variant::Broken,
        method: Method::Buffers(BuffersMethod::Length),
        args: (1, 0, 0),
        acts: &[
            Act::Take(17),
            Act::Load(8),
            Act::Give(17),
            Act::Mark(Kind::Return(7)),
        ],
    },
    // So is the number of characters that are read: 256^7 - 1 is the text of seven times 254.
    Case {
        size: 2,
        words: &[
            9, 254, 254, 254, 254, 254, 254, 254, 2, 255, 256, 0, 0, 0, 0, 0,
        ],
        variant: Variant::Correct,
        method: Method::Buffers(BuffersMethod::Read),
        args: (0, 0, 0),
        acts: &[
            Act::Take(16),
            Act::Load(0),
            Act::Load(1),
            Act::Load(2),
            Act::Load(3),
            Act::Load(4),
            Act::Load(5),
            Act::Load(6),
            Act::Load(7),
            Act::Give(16),
            Act::Mark(Kind::Return(72057594037927935)),
        ],
    },
    // The characters 255 and 256 are read as 0 and 1: 1 + 2 × 256.
    Case {
        size: 2,
        words: &[
            9, 254, 254, 254, 254, 254, 254, 254, 2, 255, 256, 0, 0, 0, 0, 0,
        ],
        variant: Variant::Correct,
        method: Method::Buffers(BuffersMethod::Read),
        args: (1, 0, 0),
        acts: &[
            Act::Take(17),
            Act::Load(8),
            Act::Load(9),
            Act::Load(10),
            Act::Give(17),
            Act::Mark(Kind::Return(513)),
        ],
    },
];
