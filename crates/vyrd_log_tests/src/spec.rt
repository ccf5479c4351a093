//! Each call of each specification, with replies that the table allows and some that it doesn't,
//! and words to start from.

ghost use Rattle.std.specs.Prelude.{◌≡◌, ◌<◌, ◌≤◌, ◌+◌, ◌^◌, true, false, All, IfOk, IfSome, []};
ghost use Rattle.vyrd_base.specs.Rules.{rules_by};
ghost use Rattle.vyrd_base.specs.Specification.{next_state};
ghost use Rattle.vyrd_base.specs.Subjects.{subject_of, is_observer, are_args};

use Asked::{Amount, Answer, Step};
use std::alloc::{AllocError, Global};
use std::process::Abort;
use vyrd_base::{
    Args, BuffersMethod, CacheMethod, Header, Method, MultisetMethod, Subject, TreeMethod, View,
};
use vyrd_spec::{BufferSpec, BuiltIn, CacheSpec, MultisetSpec, Spec, TreeSpec};

/// What is asked of a state, a call with its arguments first, and what the state answers.
enum Asked {
    /// A step with a reply, and whether this is allowed.
    Step(Method, (u32, u32, u32), u64, bool),
    /// An observer's answer.
    Answer(Method, (u32, u32, u32), u64),
    /// The amount of a key.
    Amount(u64, u64),
}

/// A state for which words stand, or the empty state if there are no words; what is asked of it in
/// turn; and the pairs that it shows then.
struct Case {
    size: u32,
    words: &'static [u64],
    asked: &'static [Asked],
    pairs: &'static [(u64, u64)],
}

#[test]
fn states_of_the_multiset(rt: HostRuntime) {
    assert_cases::<MultisetSpec>(&rt, rt.alloc(), Subject::Multiset, MULTISETS);
}

const MULTISETS: &[Case] = &[
    Case {
        size: 1,
        words: &[],
        asked: &[
            Step(Method::Multiset(MultisetMethod::Insert), (5, 0, 0), 1, true),
            Step(
                Method::Multiset(MultisetMethod::Delete),
                (6, 0, 0),
                1,
                false,
            ),
            Answer(Method::Multiset(MultisetMethod::Lookup), (5, 0, 0), 1),
            Step(
                Method::Multiset(MultisetMethod::InsertPair),
                (5, 5, 0),
                1,
                true,
            ),
            Amount(5, 3),
        ],
        pairs: &[(5, 3)],
    },
    Case {
        size: 2,
        words: &[2, 4, 1, 7, 0, 9, 2, 4, 2, 4294967297, 0, 0, 0, 0, 0, 0],
        asked: &[],
        pairs: &[(4, 2), (4294967297, 1)],
    },
];

#[test]
fn states_of_the_cache(rt: HostRuntime) {
    assert_cases::<CacheSpec>(&rt, rt.alloc(), Subject::Cache, CACHES);
}

const CACHES: &[Case] = &[
    Case {
        size: 1,
        words: &[],
        asked: &[Step(Method::Cache(CacheMethod::Write), (0, 1, 2), 1, true)],
        pairs: &[(0, 8589934593)],
    },
    Case {
        size: 1,
        words: &[],
        asked: &[
            Step(Method::Cache(CacheMethod::Write), (0, 1, 2), 1, true),
            Step(Method::Cache(CacheMethod::Flush), (0, 0, 0), 0, false),
            Answer(Method::Cache(CacheMethod::Read), (0, 0, 0), 8589934593),
        ],
        pairs: &[(0, 8589934593)],
    },
    Case {
        size: 1,
        words: &[1, 7, 0, 7, 0],
        asked: &[],
        pairs: &[(0, 7)],
    },
    Case {
        size: 1,
        words: &[0, 9, 9, 1, 2],
        asked: &[],
        pairs: &[(0, 8589934593)],
    },
];

#[test]
fn states_of_the_tree(rt: HostRuntime) {
    assert_cases::<TreeSpec>(&rt, rt.alloc(), Subject::Tree, TREES);
}

const TREES: &[Case] = &[
    Case {
        size: 1,
        words: &[],
        asked: &[
            Step(Method::Tree(TreeMethod::Insert), (5, 9, 0), 1, true),
            Step(Method::Tree(TreeMethod::Insert), (5, 8, 0), 1, false),
            Step(Method::Tree(TreeMethod::Insert), (5, 8, 0), 2, true),
            Answer(Method::Tree(TreeMethod::Lookup), (5, 0, 0), 9),
            Step(Method::Tree(TreeMethod::Delete), (5, 0, 0), 1, true),
            Answer(Method::Tree(TreeMethod::Lookup), (5, 0, 0), 0),
            Step(Method::Tree(TreeMethod::Delete), (5, 0, 0), 1, false),
        ],
        pairs: &[],
    },
    Case {
        size: 4,
        words: &TWO_LEAVES,
        asked: &[],
        pairs: &[
            (1, 4294967297),
            (2, 4294967298),
            (3, 4294967299),
            (4, 4294967300),
            (5, 4294967301),
        ],
    },
];

/// A tree with room for four nodes: two leaves with the keys 1 to 5, each with itself as its value,
/// below a root.
const TWO_LEAVES: [u64; 50] = [
    0, 3, 4, 1, 1, 2, 3, 9, 1, 2, 3, 9, // leaf 0
    0, 2, 0, 0, 4, 5, 0, 0, 4, 5, 0, 0, // leaf 1
    1, 2, 0, 0, 0, 4, 0, 0, 0, 1, 0, 0, // the root
    0, 0, 0, 0, 0, 0, 0, 0, 0, 0, 0, 0, // not in use
    2, 2, // the root's number, and the last node in use
];

#[test]
fn states_of_the_buffers(rt: HostRuntime) {
    assert_cases::<BufferSpec>(&rt, rt.alloc(), Subject::Buffers, BUFFERS);
}

/// Two buffers: one with the text AB, which is 66 + 67 * 256 = 17218 as a number, and one with the
/// character 0 six times, which is 1 + 256 + .. + 256^5 = 1103823438081.
const TWO_BUFFERS: [u64; 16] = [2, 65, 66, 255, 300, 0, 0, 0, 6, 0, 0, 0, 0, 0, 0, 9];

const BUFFERS: &[Case] = &[
    Case {
        size: 2,
        words: &[],
        asked: &[
            Step(Method::Buffers(BuffersMethod::Append), (1, 65, 0), 1, true),
            Step(Method::Buffers(BuffersMethod::Append), (1, 66, 0), 0, false),
            Step(Method::Buffers(BuffersMethod::Append), (1, 66, 0), 1, true),
            Answer(Method::Buffers(BuffersMethod::Length), (1, 0, 0), 2),
            Answer(Method::Buffers(BuffersMethod::Read), (1, 0, 0), 17218), // 66 + 67 * 256
            Answer(Method::Buffers(BuffersMethod::Read), (0, 0, 0), 0),
        ],
        pairs: &[(1, 17218)],
    },
    // A character is appended where there is room for it, and a buffer where both fit.
    Case {
        size: 2,
        words: &TWO_BUFFERS,
        asked: &[Step(Method::Buffers(BuffersMethod::Append), (1, 254, 0), 1, true)],
        pairs: &[(0, 17218), (1, 71777222884655361)], // 1103823438081 + 255 * 256^6
    },
    Case {
        size: 2,
        words: &TWO_BUFFERS,
        asked: &[Step(
            Method::Buffers(BuffersMethod::AppendFrom),
            (0, 0, 0),
            1,
            true,
        )],
        pairs: &[(0, 1128416066), (1, 1103823438081)], // 17218 + 17218 * 256^2
    },
    Case {
        size: 2,
        words: &TWO_BUFFERS,
        asked: &[Step(
            Method::Buffers(BuffersMethod::AppendFrom),
            (0, 1, 0),
            0,
            true,
        )],
        pairs: &[(0, 17218), (1, 1103823438081)],
    },
    // A text is cut to as many characters as the call says.
    Case {
        size: 2,
        words: &TWO_BUFFERS,
        asked: &[Step(Method::Buffers(BuffersMethod::Cut), (0, 1, 0), 1, true)],
        pairs: &[(0, 66), (1, 1103823438081)],
    },
    Case {
        size: 2,
        words: &TWO_BUFFERS,
        asked: &[Step(Method::Buffers(BuffersMethod::Cut), (0, 2, 0), 1, true)],
        pairs: &[(0, 17218), (1, 1103823438081)],
    },
    Case {
        size: 2,
        words: &TWO_BUFFERS,
        asked: &[Step(Method::Buffers(BuffersMethod::Cut), (1, 0, 0), 1, true)],
        pairs: &[(0, 17218)],
    },
    // Other replies are refused.
    Case {
        size: 2,
        words: &TWO_BUFFERS,
        asked: &[
            Step(Method::Buffers(BuffersMethod::Append), (1, 0, 0), 0, false),
            Step(Method::Buffers(BuffersMethod::Append), (1, 0, 0), 2, false),
            Step(
                Method::Buffers(BuffersMethod::AppendFrom),
                (0, 0, 0),
                0,
                false,
            ),
            Step(
                Method::Buffers(BuffersMethod::AppendFrom),
                (0, 1, 0),
                1,
                false,
            ),
            Step(Method::Buffers(BuffersMethod::Cut), (0, 1, 0), 0, false),
        ],
        pairs: &[(0, 17218), (1, 1103823438081)],
    },
    // What stands behind the count says nothing.
    Case {
        size: 1,
        words: &[2, 65, 66, 255, 0, 0, 0, 0],
        asked: &[],
        pairs: &[(0, 17218)],
    },
    Case {
        size: 1,
        words: &[0, 65, 0, 0, 0, 0, 0, 0],
        asked: &[],
        pairs: &[],
    },
];

/// Asserts each of these cases.
fn assert_cases<S: BuiltIn>(rt: &impl Abort, alloc: Global, subject: Subject, cases: &[Case])
    requires { S.serves subject }
{
    for (row, case) in cases.iter().enumerate() {
        assert!(rt; holds::<S>(alloc, subject, case), "row {row}");
    }
}

/// Whether the state answers what the case says, and shows its pairs then.
fn holds<S: BuiltIn>(alloc: Global, subject: Subject, case: &Case) -> bool
    requires { S.serves subject }
{
    let Some(header) = Header::new(1, subject, case.size, 1) else {
        return false;
    };
    match begun::<S>(alloc, header, case.words) {
        Some(mut spec) => {
            all_answered(&mut spec, header, case.asked) && shows(alloc, &spec, case.pairs)
        }
        None => false,
    }
}

/// The state for which the words stand, or the empty state if there are no words.
fn begun<S: BuiltIn>(alloc: Global, header: Header, words: &[u64]) -> Option<S>
    requires { S.serves header.subject }
    ensures header { IfSome result (λ spec. (rules_by (S.charter spec)).header ≡ header) }
    ensures made { IfSome result (λ spec. S.made spec ≡ 0) }
{
    if words.is_empty() {
        S::start(alloc, header).ok()
    } else {
        started(alloc, header, words)
    }
}

/// The state for which the words stand, if they stand for one.
fn started<S: BuiltIn>(alloc: Global, header: Header, words: &[u64]) -> Option<S>
    requires { S.serves header.subject }
    ensures header { IfSome result (λ spec. (rules_by (S.charter spec)).header ≡ header) }
    ensures made { IfSome result (λ spec. S.made spec ≡ 0) }
{
    if words.len() != header.plain_words() as usize || !are_words(words) {
        return None;
    }
    S::start_from(alloc, header, words).ok()?
}

/// Whether each word is below 2^63.
fn are_words(words: &[u64]) -> bool
    ensures { result ≡ true → All (λ word. word < 2 ^ 63) words.now }
{
    for word in words {
        if *word >= 1 << 63 {
            return false;
        }
    }
    true
}

/// Whether the state, after no step, answers all of this as it says. It makes the steps.
fn all_answered<S: Spec>(spec: &mut S, header: Header, asked: &[Asked]) -> bool
    requires header { (rules_by (S.charter spec.old)).header ≡ header }
    requires made { S.made spec.old ≡ 0 }
{
    for one in asked {
        if !is_answered(spec, header, one) {
            return false;
        }
    }
    true
}

/// Whether the state answers this as it says. If it is a step, it makes it.
fn is_answered<S: Spec>(spec: &mut S, header: Header, asked: &Asked) -> bool
    requires header { (rules_by (S.charter spec.old)).header ≡ header }
    requires few { S.made spec.old < 2 ^ 62 }
    ensures header { (rules_by (S.charter spec.new)).header ≡ header }
    ensures counted { S.made spec.new ≤ S.made spec.old + 1 }
{
    match *asked {
        Step(method, (a, b, c), reply, allowed) => {
            step(spec, header, method, Args { a, b, c }, reply) == Some(allowed)
        }
        Answer(method, (a, b, c), answer) => {
            answered(spec, header, method, Args { a, b, c }) == Some(answer)
        }
        Amount(key, amount) => spec.amount(key) == amount,
    }
}

/// Whether the reply is allowed, if this is a mutator's call.
fn step<S: Spec>(
    spec: &mut S,
    header: Header,
    method: Method,
    args: Args,
    reply: u64,
) -> Option<bool>
    requires header { (rules_by (S.charter spec.old)).header ≡ header }
    requires few { S.made spec.old < 2 ^ 62 }
    ensures header { (rules_by (S.charter spec.new)).header ≡ header }
    ensures counted { S.made spec.new ≤ S.made spec.old + 1 }
{
    if !header.fits(method, args) || method.is_observer() {
        return None;
    }
    spec.step(method, args, reply).ok()
}

/// The answer, if this is the call of an execution that may return without a commit.
fn answered<S: Spec>(spec: &S, header: Header, method: Method, args: Args) -> Option<u64>
    requires header { (rules_by (S.charter spec.now)).header ≡ header }
{
    if !header.fits(method, args) || method.must_commit() {
        return None;
    }
    Some(spec.answer(method, args))
}

/// Whether the state shows these pairs.
fn shows<S: Spec>(alloc: Global, spec: &S, pairs: &[(u64, u64)]) -> bool {
    match spec.view(alloc) {
        Ok(view) => view.pairs() == pairs,
        Err(_) => false,
    }
}

/// What the first call with its reply leaves, by the trait alone.
#[tactic(auto, using(crate::proofs::ShowingLaws::showing_laws))]
fn first_step<S: BuiltIn>(
    alloc: Global,
    header: Header,
    method: Method,
    args: Args,
    reply: u64,
) -> Result<Option<View>, AllocError>
    requires serves { S.serves header.subject }
    requires subject { subject_of method ≡ header.subject }
    requires args { are_args header.size method args ≡ true }
    requires mutator { is_observer method ≡ false }
    ensures { IfOk result (λ shown. shown ≡ next_state method args reply []) }
{
    let mut spec = S::start(alloc, header)?;
    if spec.step(method, args, reply)? {
        Ok(Some(spec.view(alloc)?))
    } else {
        Ok(None)
    }
}

#[test]
fn absent_key_is_not_deleted(rt: HostRuntime) {
    let header = Header::new(1, Subject::Tree, 1, 1).unwrap();
    let five = Args { a: 5, b: 0, c: 0 };
    let refused = first_step::<TreeSpec>(
        rt.alloc(),
        header,
        Method::Tree(TreeMethod::Delete),
        five,
        1,
    );
    assert!(rt; matches!(refused, Ok(None)));
}

/// The keys that a call touches in the empty state, if it may reply 1 there: the first, the second,
/// and whether this observer of a key may answer anew.
fn touched<S: BuiltIn>(
    alloc: Global,
    header: Header,
    method: Method,
    args: Args,
    observer: Method,
    key: u32,
) -> Option<(Option<u64>, Option<u64>, bool)>
    requires serves { S.serves header.subject }
    requires subject { subject_of method ≡ header.subject }
    requires args { are_args header.size method args ≡ true }
    requires mutator { is_observer method ≡ false }
{
    let mut spec = S::start(alloc, header).ok()?;
    if !spec.step(method, args, 1).ok()? {
        return None;
    }
    let asked = Args { a: key, b: 0, c: 0 };
    let keys = spec.touched();
    let (first, second) = (keys.first().copied(), keys.get(1).copied());
    Some((first, second, spec.affects(observer, asked)))
}

#[test]
fn pairs_touch_two_keys(rt: HostRuntime) {
    let alloc = rt.alloc();
    let header = Header::new(1, Subject::Multiset, 1, 1).unwrap();
    let pair = Args { a: 5, b: 7, c: 0 };
    let (insert, lookup) = (
        Method::Multiset(MultisetMethod::InsertPair),
        Method::Multiset(MultisetMethod::Lookup),
    );
    let seven = touched::<MultisetSpec>(alloc, header, insert, pair, lookup, 7);
    let six = touched::<MultisetSpec>(alloc, header, insert, pair, lookup, 6);
    assert!(rt; seven == Some((Some(5), Some(7), true)));
    assert!(rt; six == Some((Some(5), Some(7), false)));
}

#[test]
fn calls_touch_the_buffer_that_they_may_change(rt: HostRuntime) {
    let alloc = rt.alloc();
    let header = Header::new(1, Subject::Buffers, 2, 1).unwrap();
    let (from, six, seven) = (
        Args { a: 0, b: 1, c: 0 },
        Args { a: 1, b: 6, c: 0 },
        Args { a: 1, b: 7, c: 0 },
    );
    let (copy, shorten, length) = (
        Method::Buffers(BuffersMethod::AppendFrom),
        Method::Buffers(BuffersMethod::Cut),
        Method::Buffers(BuffersMethod::Length),
    );
    let copied = touched::<BufferSpec>(alloc, header, copy, from, length, 1);
    let cut = touched::<BufferSpec>(alloc, header, shorten, six, length, 1);
    let whole = touched::<BufferSpec>(alloc, header, shorten, seven, length, 1);
    assert!(rt; copied == Some((Some(0), None, false)));
    assert!(rt; cut == Some((Some(1), None, true)));
    assert!(rt; whole == Some((None, None, false)));
}

/// Words of a subject of some size that stand for no state.
type NoStart = (u32, &'static [u64]);

/// A value that isn't in its bucket.
const NO_MULTISETS: &[NoStart] = &[(2, &[2, 4, 1, 7, 0, 9, 2, 4, 2, 6, 0, 0, 0, 0, 0, 0])];

/// A clean chunk that isn't as it is stored, a state that there isn't, and half a pair that is too
/// large.
const NO_CACHES: &[NoStart] = &[
    (1, &[1, 7, 0, 8, 0]),
    (1, &[3, 7, 0, 7, 0]),
    (1, &[2, 7, 4294967296, 7, 0]),
];

/// Too many characters, and one that is too large.
const NO_BUFFERS: &[NoStart] = &[
    (1, &[8, 65, 66, 67, 68, 69, 70, 71]),
    (1, &[2, 65, 255, 0, 0, 0, 0, 0]),
];

#[test]
fn other_words_are_no_start(rt: HostRuntime) {
    let alloc = rt.alloc();
    assert_no_starts::<MultisetSpec>(&rt, alloc, Subject::Multiset, NO_MULTISETS);
    assert_no_starts::<CacheSpec>(&rt, alloc, Subject::Cache, NO_CACHES);
    assert_no_starts::<BufferSpec>(&rt, alloc, Subject::Buffers, NO_BUFFERS);
}

/// Asserts of each of these words that they stand for no state.
fn assert_no_starts<S: BuiltIn>(rt: &impl Abort, alloc: Global, subject: Subject, words: &[NoStart])
    requires { S.serves subject }
{
    for (row, (size, words)) in words.iter().enumerate() {
        assert!(rt;
            is_start::<S>(alloc, subject, *size, words) == Some(false),
            "row {row}"
        );
    }
}

/// Whether the words stand for a state, if they are words of the subject of this size.
fn is_start<S: BuiltIn>(alloc: Global, subject: Subject, size: u32, words: &[u64]) -> Option<bool>
    requires { S.serves subject }
{
    let header = Header::new(1, subject, size, 1)?;
    if words.len() != header.plain_words() as usize || !are_words(words) {
        return None;
    }
    Some(S::start_from(alloc, header, words).ok()?.is_some())
}

/// A place in the words of a tree, another value there, whether they still are a tree, and why.
type Change = (usize, u64, bool, &'static str);

const CHANGES: &[Change] = &[
    (7, 8, true, "the place isn't in use"),
    (3, 0, false, "leaf 0 has no right link"),
    (15, 1, false, "leaf 1 leads to itself"),
    (2, 3, false, "key 3 isn't below the bound of leaf 0"),
    (29, 5, false, "leaf 1 doesn't begin at its key in the root"),
    (48, 0, false, "the root is a leaf"),
    (49, 3, false, "node 3 begins a second chain of leaves"),
    (49, 4, false, "there are four nodes"),
];

#[test]
fn broken_trees_are_no_start(rt: HostRuntime) {
    for (place, value, is_tree, why) in CHANGES {
        let found = is_tree_with(rt.alloc(), *place, *value);
        assert!(rt; found == Some(*is_tree), "{why}");
    }
}

/// Whether `TWO_LEAVES` is a tree after one word of it has changed.
fn is_tree_with(alloc: Global, place: usize, value: u64) -> Option<bool> {
    let mut words = TWO_LEAVES;
    *words.get_mut(place)? = value;
    is_start::<TreeSpec>(alloc, Subject::Tree, 4, &words)
}
