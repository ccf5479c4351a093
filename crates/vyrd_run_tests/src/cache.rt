//! A read of halves that are too large for any run. What each operation does, act by act, stands in
//! the histories of `examples/`.

use crate::cases::{Case, assert_cases};
use vyrd_base::{CacheMethod, Kind, Method, Subject};
use vyrd_cache::CacheProgress;
use vyrd_memory::{Act, Variant};

#[test]
fn halves_are_cut_to_32_bits(rt: HostRuntime) {
    assert_cases::<CacheProgress>(&rt, rt.alloc(), Subject::Cache, WIDE);
}

/// The state and both halves are 2^32 + 3: the chunk isn't absent, and 3 × 2^32 + 3 is returned.
const WIDE: &[Case] = &[Case {
    size: 2,
    words: &[0, 0, 0, 0, 0, 4294967299, 4294967299, 4294967299, 0, 0],
    variant: Variant::Correct,
    method: Method::Cache(CacheMethod::Read),
    args: (1, 0, 0),
    acts: &[
        Act::Take(11),
        Act::Load(5),
        Act::Load(6),
        Act::Load(7),
        Act::Give(11),
        Act::Mark(Kind::Return(12884901891)),
    ],
}];
