//! The first line: the header that it spells.

ghost use Rattle.std.specs.Prelude.{◌≡◌, ℕ, true, List, ◌∷◌, ◌++◌, MatchOption};
ghost use Rattle.vyrd_base.specs.declared.subject.Subject.{Subject};
ghost use Rattle.vyrd_base.specs.Limits.{is_sized};
ghost use Rattle.vyrd_base.specs.Lines.{header_in};
ghost use Rattle.vyrd_base.specs.Spelling.{subject_name};
ghost use Rattle.vyrd_base.specs.Subjects.{is_built_in};
ghost use Rattle.vyrd_text.specs.Spelled.{AreLimitsRead, AreNumbersRead};

use crate::line::after;
use crate::number::{read_u32, read_u32_and_space};
use vyrd_base::{Header, Rule, Subject};

/// The header that the bytes spell, without the line feed. `UnknownVersion` if they spell one of
/// another version, `BadHeader` if they spell none. It takes no memory.
pub fn read_header(line: &[u8]) -> Result<Header, Rule>
    ensures { result ≡ header_in line.now }
{
    let Some((version, subject, size, callers)) = read_numbers(line) else {
        return Err(Rule::BadHeader);
    };
    let Some(header) = Header::new(version, subject, size, callers) else {
        return Err(Rule::UnknownVersion);
    };
    Ok(header)
}

/// The version, the subject, the size and the number of callers that the line spells.
fn read_numbers(line: &[u8]) -> Option<(u32, Subject, u32, u32)>
    ensures { AreNumbersRead line.now result }
{
    let rest = after(line, b"vyrd ")?;
    let (version, rest) = read_u32_and_space(rest)?;
    let (subject, rest) = read_subject(rest)?;
    let (size, callers) = read_limits(rest)?;
    Some((version, subject, size, callers))
}

/// The built-in subject whose name stands before a space, and what stands after that space.
pub fn read_subject(text: &[u8]) -> Option<(Subject, &[u8])>
    ensures { MatchOption result
        ((subject : Subject) (rest : List ℕ) → is_built_in subject ≡ true
        → text.now ≡ subject_name subject ++ 32 ∷ rest → ⊥)
        (λ r. (is_built_in r.0 ≡ true) × (text.now ≡ subject_name r.0 ++ 32 ∷ r.1.now)) }
{
    if let Some(rest) = after(text, b"multiset ") {
        return Some((Subject::Multiset, rest));
    }
    if let Some(rest) = after(text, b"cache ") {
        return Some((Subject::Cache, rest));
    }
    if let Some(rest) = after(text, b"tree ") {
        return Some((Subject::Tree, rest));
    }
    if let Some(rest) = after(text, b"buffers ") {
        return Some((Subject::Buffers, rest));
    }
    None
}

/// The size and the number of callers, within their limits.
fn read_limits(text: &[u8]) -> Option<(u32, u32)>
    ensures { AreLimitsRead text.now result }
{
    let (size, rest) = read_u32_and_space(text)?;
    let callers = read_u32(rest)?;
    if !are_limits(size, callers) {
        return None;
    }
    Some((size, callers))
}

/// Whether the size and the number of callers are within their limits.
fn are_limits(size: u32, callers: u32) -> bool
    ensures { result ≡ is_sized size callers }
{
    1 <= size && size <= 1024 && 1 <= callers && callers <= 64
}
