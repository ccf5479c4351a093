//! Entries that lie whole at the front of a text, each with its line feed: read where they lie, in
//! one scan.
//!
//! What isn't such an entry is left where it is, for the reader of lines, which knows the rules. So
//! nothing here says why a text is refused: every `None` means only that these bytes were not read.

ghost use Rattle.std.specs.Prelude.{◌≡◌, ◌+◌, ◌-◌, ◌*◌, ◌<◌, ◌≤◌, ◌==◌, ◌∷◌, ◌++◌, true, decimal, count_by};
ghost use Rattle.std.specs.Prelude.{vec_len, vec_capacity, IfSome};
ghost use Rattle.vyrd_base.specs.declared.subject.Subject.{Subject};
ghost use Rattle.vyrd_base.specs.Subjects.{is_named};
ghost use Rattle.vyrd_base.specs.Spelling.{method_name};
ghost use Rattle.vyrd_text.specs.Quick.{IsFrontNumber, IsEntryAtFront, IsKindAtFront};
ghost use Rattle.vyrd_text.specs.Quick.{AreArgsAtFront, AreEntriesAtFront};

use core::dec2flt::read_digits;
use vyrd_base::{
    Args, BuffersMethod, CacheMethod, Entry, Kind, Method, MultisetMethod, Subject, TreeMethod,
};

/// The most digits whose value is below 2^64 whatever they are.
const FEW_DIGITS: usize = 19;

/// A value below this one can take a further digit and stays below 2^64.
const ROOM_FOR_A_DIGIT: u64 = 1_000_000_000_000_000_000;

/// The number at the front, and how many digits it has: eight digits at a time, without a branch on
/// their count.
#[inline(always)]
fn front_number(text: &[u8]) -> Option<(u64, usize)>
    ensures { IfSome result (λ r. IsFrontNumber text.now r.0 r.1) }
{
    let (end, value) = read_digits(text, 0, 0);
    if end == 0 || end > FEW_DIGITS {
        return None;
    }
    if end == 1 {
        return Some((value, end));
    }
    if text[0] == b'0' {
        return None;
    }
    Some((value, end))
}

/// The same, digit by digit: faster if the count of digits is small and mostly the same, so that
/// the processor predicts it.
#[inline(always)]
fn few_digits(text: &[u8]) -> Option<(u64, usize)>
    ensures { IfSome result (λ r. IsFrontNumber text.now r.0 r.1) }
{
    let mut value: u64 = 0;
    let mut end = 0;
    while end < text.len() && value < ROOM_FOR_A_DIGIT && text[end].is_ascii_digit() {
        value = value * 10 + u64::from(text[end] - b'0');
        end += 1;
    }
    if end == 0 {
        return None;
    }
    if end == 1 {
        return Some((value, end));
    }
    if text[0] == b'0' {
        return None;
    }
    Some((value, end))
}

/// The number at the front before the byte, and what stands after that byte.
#[inline(always)]
pub fn number_before(text: &[u8], byte: u8) -> Option<(u64, &[u8])>
    ensures { IfSome result (λ r. text.now ≡ decimal r.0 ++ byte ∷ r.1.now) }
{
    if let Some(read) = digit_before(text, byte) {
        return Some(read);
    }
    if let Some(read) = two_before(text, byte) {
        return Some(read);
    }
    if let Some(read) = three_before(text, byte) {
        return Some(read);
    }
    if let Some(read) = four_before(text, byte) {
        return Some(read);
    }
    let (number, end) = front_number(text)?;
    if end == text.len() || text[end] != byte {
        return None;
    }
    Some((number, &text[end + 1..]))
}

/// The same for a number of one digit, as most are: without a loop.
#[inline(always)]
fn digit_before(text: &[u8], byte: u8) -> Option<(u64, &[u8])>
    ensures number { IfSome result (λ r. text.now ≡ decimal r.0 ++ byte ∷ r.1.now) }
    ensures few { IfSome result (λ r. r.0 < 10) }
{
    let [digit, next, rest @ ..] = text else {
        return None;
    };
    if *next != byte || !digit.is_ascii_digit() {
        return None;
    }
    Some((u64::from(*digit - b'0'), rest))
}

/// The same for a number of two digits, without a loop.
#[inline(always)]
fn two_before(text: &[u8], byte: u8) -> Option<(u64, &[u8])>
    ensures { IfSome result (λ r. text.now ≡ decimal r.0 ++ byte ∷ r.1.now) }
{
    let [a, b, next, rest @ ..] = text else {
        return None;
    };
    if *next != byte || *a == b'0' || !a.is_ascii_digit() || !b.is_ascii_digit() {
        return None;
    }
    Some((then_digit(u64::from(*a - b'0'), *b), rest))
}

/// The same for a number of three digits.
#[inline(always)]
fn three_before(text: &[u8], byte: u8) -> Option<(u64, &[u8])>
    ensures { IfSome result (λ r. text.now ≡ decimal r.0 ++ byte ∷ r.1.now) }
{
    let [a, b, c, next, rest @ ..] = text else {
        return None;
    };
    if *next != byte || *a == b'0' || !a.is_ascii_digit() || !b.is_ascii_digit() {
        return None;
    }
    if !c.is_ascii_digit() {
        return None;
    }
    Some((then_digit(then_digit(u64::from(*a - b'0'), *b), *c), rest))
}

/// The same for a number of four digits.
#[inline(always)]
fn four_before(text: &[u8], byte: u8) -> Option<(u64, &[u8])>
    ensures { IfSome result (λ r. text.now ≡ decimal r.0 ++ byte ∷ r.1.now) }
{
    let [a, b, c, d, next, rest @ ..] = text else {
        return None;
    };
    if *next != byte || *a == b'0' || !a.is_ascii_digit() || !b.is_ascii_digit() {
        return None;
    }
    if !c.is_ascii_digit() || !d.is_ascii_digit() {
        return None;
    }
    let front = then_digit(then_digit(u64::from(*a - b'0'), *b), *c);
    Some((then_digit(front, *d), rest))
}

/// The value with one digit more behind it.
#[inline(always)]
fn then_digit(value: u64, digit: u8) -> u64
    requires small { value < 1000 }
    requires digit { (48 ≤ digit) × (digit ≤ 57) }
    ensures { result ≡ value * 10 + (digit - 48) }
{
    value * 10 + u64::from(digit - b'0')
}

/// The caller's number before a space, and what stands after that space. There are at most 64
/// callers.
#[inline(always)]
pub fn caller_before_space(text: &[u8]) -> Option<(u32, &[u8])>
    ensures { IfSome result (λ r. text.now ≡ decimal r.0 ++ 32 ∷ r.1.now) }
{
    if let Some((digit, rest)) = digit_before(text, b' ') {
        return Some((digit as u32, rest));
    }
    let (number, end) = few_digits(text)?;
    if end == text.len() || text[end] != b' ' || number > u64::from(u32::MAX) {
        return None;
    }
    Some((number as u32, &text[end + 1..]))
}

/// The number below 2^32 at the front before the byte, and what stands after that byte.
#[inline(always)]
pub fn short_before(text: &[u8], byte: u8) -> Option<(u32, &[u8])>
    ensures { IfSome result (λ r. text.now ≡ decimal r.0 ++ byte ∷ r.1.now) }
{
    let (number, rest) = number_before(text, byte)?;
    if number > u64::from(u32::MAX) {
        return None;
    }
    Some((number as u32, rest))
}

/// The entry of the subject at the front, and what stands after its line feed.
#[inline(always)]
fn read_entry(subject: Subject, text: &[u8]) -> Option<(Entry, &[u8])>
    ensures { IfSome result (λ r. IsEntryAtFront subject text.now r.0 r.1.now) }
{
    let (caller, rest) = caller_before_space(text)?;
    let (kind, rest) = read_kind(subject, rest)?;
    Some((Entry { caller, kind }, rest))
}

/// What the text after the caller and a space says, and what stands after its line feed.
///
/// The second byte tells the words apart, so one jump finds the word.
#[inline(always)]
fn read_kind(subject: Subject, text: &[u8]) -> Option<(Kind, &[u8])>
    ensures { IfSome result (λ r. IsKindAtFront subject text.now r.0 r.1.now) }
{
    if text.len() < 2 {
        return None;
    }
    match text[1] {
        b'r' => read_write(text),
        b'e' => read_return(text),
        b'a' => read_called(subject, text),
        b'p' => read_open(text),
        b'l' => read_close(text),
        b'o' => read_commit(text),
        _ => None,
    }
}

/// A write, with its word and its value.
#[inline(always)]
pub fn read_write(text: &[u8]) -> Option<(Kind, &[u8])>
    ensures { (subject : Subject)
        → IfSome result (λ r. IsKindAtFront subject text.now r.0 r.1.now) }
{
    let [b'w', b'r', b'i', b't', b'e', b' ', rest @ ..] = text else {
        return None;
    };
    let (word, rest) = short_before(rest, b' ')?;
    let (value, rest) = number_before(rest, b'\n')?;
    Some((Kind::Write(word, value), rest))
}

/// A return, with its reply.
#[inline(always)]
pub fn read_return(text: &[u8]) -> Option<(Kind, &[u8])>
    ensures { (subject : Subject)
        → IfSome result (λ r. IsKindAtFront subject text.now r.0 r.1.now) }
{
    let [b'r', b'e', b't', b'u', b'r', b'n', b' ', rest @ ..] = text else {
        return None;
    };
    let (reply, rest) = number_before(rest, b'\n')?;
    Some((Kind::Return(reply), rest))
}

/// A call, with the method of the subject and its arguments.
#[inline(always)]
fn read_called(subject: Subject, text: &[u8]) -> Option<(Kind, &[u8])>
    ensures { IfSome result (λ r. IsKindAtFront subject text.now r.0 r.1.now) }
{
    let [b'c', b'a', b'l', b'l', b' ', rest @ ..] = text else {
        return None;
    };
    let (method, rest) = read_method(subject, rest)?;
    let (args, rest) = read_args(method.arity(), rest)?;
    Some((Kind::Call(method, args), rest))
}

/// The beginning of a block.
#[inline(always)]
pub fn read_open(text: &[u8]) -> Option<(Kind, &[u8])>
    ensures { (subject : Subject)
        → IfSome result (λ r. IsKindAtFront subject text.now r.0 r.1.now) }
{
    let [b'o', b'p', b'e', b'n', b'\n', rest @ ..] = text else {
        return None;
    };
    Some((Kind::BlockOpen, rest))
}

/// A lone commit.
#[inline(always)]
pub fn read_commit(text: &[u8]) -> Option<(Kind, &[u8])>
    ensures { (subject : Subject)
        → IfSome result (λ r. IsKindAtFront subject text.now r.0 r.1.now) }
{
    let [b'c', b'o', b'm', b'm', b'i', b't', b'\n', rest @ ..] = text else {
        return None;
    };
    Some((Kind::Commit, rest))
}

/// The end of a block.
#[inline(always)]
pub fn read_close(text: &[u8]) -> Option<(Kind, &[u8])>
    ensures { (subject : Subject)
        → IfSome result (λ r. IsKindAtFront subject text.now r.0 r.1.now) }
{
    if let [b'c', b'l', b'o', b's', b'e', b'\n', rest @ ..] = text {
        return Some((Kind::BlockClose, rest));
    }
    let [
        b'c',
        b'l',
        b'o',
        b's',
        b'e',
        b' ',
        b'c',
        b'o',
        b'm',
        b'm',
        b'i',
        b't',
        b'\n',
        rest @ ..,
    ] = text
    else {
        return None;
    };
    Some((Kind::BlockCommit, rest))
}

/// The method of the subject whose name stands before a space, and what stands after that space.
#[inline(always)]
fn read_method(subject: Subject, text: &[u8]) -> Option<(Method, &[u8])>
    ensures { IfSome result (λ r. (is_named r.0 subject ≡ true)
        × (text.now ≡ method_name r.0 ++ 32 ∷ r.1.now)) }
{
    match subject {
        Subject::Multiset => read_multiset_method(text),
        Subject::Cache => read_cache_method(text),
        Subject::Tree => read_tree_method(text),
        Subject::Buffers => read_buffers_method(text),
        Subject::Own => None,
    }
}

/// The method of a multiset before a space, and what stands after that space.
#[inline(always)]
fn read_multiset_method(text: &[u8]) -> Option<(Method, &[u8])>
    ensures { IfSome result (λ r. (is_named r.0 Subject.Multiset ≡ true)
        × (text.now ≡ method_name r.0 ++ 32 ∷ r.1.now)) }
{
    match text {
        [b'i', b'n', b's', b'e', b'r', b't', b' ', rest @ ..] => Some((
            Method::Multiset(MultisetMethod::Insert),
            rest,
        )),
        [b'd', b'e', b'l', b'e', b't', b'e', b' ', rest @ ..] => Some((
            Method::Multiset(MultisetMethod::Delete),
            rest,
        )),
        [b'l', b'o', b'o', b'k', b'u', b'p', b' ', rest @ ..] => Some((
            Method::Multiset(MultisetMethod::Lookup),
            rest,
        )),
        [
            b'i',
            b'n',
            b's',
            b'e',
            b'r',
            b't',
            b'_',
            b'p',
            b'a',
            b'i',
            b'r',
            b' ',
            rest @ ..,
        ] => Some((Method::Multiset(MultisetMethod::InsertPair), rest)),
        _ => None,
    }
}

/// The method of a cache before a space, and what stands after that space.
#[inline(always)]
fn read_cache_method(text: &[u8]) -> Option<(Method, &[u8])>
    ensures { IfSome result (λ r. (is_named r.0 Subject.Cache ≡ true)
        × (text.now ≡ method_name r.0 ++ 32 ∷ r.1.now)) }
{
    match text {
        [b'r', b'e', b'a', b'd', b' ', rest @ ..] => Some((Method::Cache(CacheMethod::Read), rest)),
        [b'w', b'r', b'i', b't', b'e', b' ', rest @ ..] => Some((
            Method::Cache(CacheMethod::Write),
            rest,
        )),
        [b'f', b'l', b'u', b's', b'h', b' ', rest @ ..] => Some((
            Method::Cache(CacheMethod::Flush),
            rest,
        )),
        [b'e', b'v', b'i', b'c', b't', b' ', rest @ ..] => Some((
            Method::Cache(CacheMethod::Evict),
            rest,
        )),
        _ => None,
    }
}

/// The method of a tree before a space, and what stands after that space.
#[inline(always)]
fn read_tree_method(text: &[u8]) -> Option<(Method, &[u8])>
    ensures { IfSome result (λ r. (is_named r.0 Subject.Tree ≡ true)
        × (text.now ≡ method_name r.0 ++ 32 ∷ r.1.now)) }
{
    match text {
        [b'i', b'n', b's', b'e', b'r', b't', b' ', rest @ ..] => Some((
            Method::Tree(TreeMethod::Insert),
            rest,
        )),
        [b'd', b'e', b'l', b'e', b't', b'e', b' ', rest @ ..] => Some((
            Method::Tree(TreeMethod::Delete),
            rest,
        )),
        [b'l', b'o', b'o', b'k', b'u', b'p', b' ', rest @ ..] => Some((
            Method::Tree(TreeMethod::Lookup),
            rest,
        )),
        _ => None,
    }
}

/// The method of string buffers before a space, and what stands after that space.
#[inline(always)]
fn read_buffers_method(text: &[u8]) -> Option<(Method, &[u8])>
    ensures { IfSome result (λ r. (is_named r.0 Subject.Buffers ≡ true)
        × (text.now ≡ method_name r.0 ++ 32 ∷ r.1.now)) }
{
    match text {
        [b'a', b'p', b'p', b'e', b'n', b'd', b' ', rest @ ..] => Some((
            Method::Buffers(BuffersMethod::Append),
            rest,
        )),
        [b'c', b'u', b't', b' ', rest @ ..] => Some((Method::Buffers(BuffersMethod::Cut), rest)),
        [b'l', b'e', b'n', b'g', b't', b'h', b' ', rest @ ..] => Some((
            Method::Buffers(BuffersMethod::Length),
            rest,
        )),
        [b'r', b'e', b'a', b'd', b' ', rest @ ..] => Some((
            Method::Buffers(BuffersMethod::Read),
            rest,
        )),
        [
            b'a',
            b'p',
            b'p',
            b'e',
            b'n',
            b'd',
            b'_',
            b'f',
            b'r',
            b'o',
            b'm',
            b' ',
            rest @ ..,
        ] => Some((Method::Buffers(BuffersMethod::AppendFrom), rest)),
        _ => None,
    }
}

/// The arguments of a method that has `arity` of them, and what stands after their line feed.
#[inline(always)]
pub fn read_args(arity: u32, text: &[u8]) -> Option<(Args, &[u8])>
    requires { (1 ≤ arity) × (arity ≤ 3) }
    ensures { IfSome result (λ r. AreArgsAtFront arity text.now r.0 r.1.now) }
{
    match arity {
        1 => read_one(text),
        2 => read_two(text),
        _ => read_three(text),
    }
}

/// One argument.
#[inline(always)]
fn read_one(text: &[u8]) -> Option<(Args, &[u8])>
    ensures { IfSome result (λ r. AreArgsAtFront 1 text.now r.0 r.1.now) }
{
    let (a, rest) = short_before(text, b'\n')?;
    Some((Args { a, b: 0, c: 0 }, rest))
}

/// Two arguments with a space between them.
#[inline(always)]
fn read_two(text: &[u8]) -> Option<(Args, &[u8])>
    ensures { IfSome result (λ r. AreArgsAtFront 2 text.now r.0 r.1.now) }
{
    let (a, rest) = short_before(text, b' ')?;
    let (b, rest) = short_before(rest, b'\n')?;
    Some((Args { a, b, c: 0 }, rest))
}

/// Three arguments with a space between each two.
#[inline(always)]
fn read_three(text: &[u8]) -> Option<(Args, &[u8])>
    ensures { IfSome result (λ r. AreArgsAtFront 3 text.now r.0 r.1.now) }
{
    let (a, rest) = short_before(text, b' ')?;
    let (b, rest) = short_before(rest, b' ')?;
    let (c, rest) = short_before(rest, b'\n')?;
    Some((Args { a, b, c }, rest))
}

/// The entries of the subject at the front of the text, each with its line feed, at most `most` of
/// them, appended to `out`. The answer is what stands after them, and how many there are. There is
/// room for an entry at each line feed.
pub fn take_entries<'a>(
    subject: Subject,
    most: u64,
    text: &'a [u8],
    out: &mut Vec<Entry>,
) -> (&'a [u8], u64)
    requires { vec_len out.old + count_by (λ b. b == 10) text.now ≤ vec_capacity out.old }
    ensures read { AreEntriesAtFront subject text.now out.old.items out.new.items result.0.now
        result.1 }
    ensures few { result.1 ≤ most }
    ensures room { vec_len out.new + count_by (λ b. b == 10) result.0.now ≤ vec_capacity out.new }
{
    let mut rest = text;
    let mut count = 0;
    while count < most {
        let Some((entry, after)) = read_entry(subject, rest) else {
            break;
        };
        out.push_reserved(entry);
        rest = after;
        count += 1;
    }
    (rest, count)
}
