//! Numbers in their one spelling: digits without sign and without leading zeros.

ghost use Rattle.std.specs.Prelude.{◌≡◌, ◌<◌, ℕ, List, ◌∷◌, ◌++◌, ◌^◌, decimal, MatchOption};
ghost use Rattle.vyrd_text.specs.Fields.{IsDigitField, HasNoDigitField, IsNumberField};
ghost use Rattle.vyrd_text.specs.Fields.{HasNoNumberField};

/// The value of the digits before the first space, and how many they are. `None` if a byte before
/// it isn't a digit, or if the value is 2^64 or more.
fn digits(text: &[u8]) -> Option<(u64, usize)>
    ensures { MatchOption result (HasNoDigitField text.now) (λ r. IsDigitField text.now r.0 r.1) }
{
    let mut value: u64 = 0;
    for (at, byte) in text.iter().enumerate() {
        if *byte == b' ' {
            return Some((value, at));
        }
        if !byte.is_ascii_digit() {
            return None;
        }
        value = value.checked_mul(10)?.checked_add(u64::from(*byte - b'0'))?;
    }
    Some((value, text.len()))
}

/// The number before the first space, and how many bytes it has. `None` if those bytes spell no
/// number below 2^64.
fn number_field(text: &[u8]) -> Option<(u64, usize)>
    ensures { MatchOption result (HasNoNumberField text.now) (λ r. IsNumberField text.now r.0 r.1) }
{
    let (value, end) = digits(text)?;
    if end == 0 {
        return None;
    }
    if end == 1 {
        return Some((value, end));
    }
    if text[0] == b'0' {
        return None;
    }
    Some((value, end))
}

/// The number that the whole text spells.
pub fn read_u64(text: &[u8]) -> Option<u64>
    ensures { MatchOption result ((n : ℕ) → n < 2 ^ 64 → text.now ≡ decimal n → ⊥)
        (λ n. text.now ≡ decimal n) }
{
    let (number, end) = number_field(text)?;
    if end != text.len() {
        return None;
    }
    Some(number)
}

/// The number below 2^32 that the whole text spells.
pub fn read_u32(text: &[u8]) -> Option<u32>
    ensures { MatchOption result ((n : ℕ) → n < 2 ^ 32 → text.now ≡ decimal n → ⊥)
        (λ n. text.now ≡ decimal n) }
{
    let number = read_u64(text)?;
    if number > u64::from(u32::MAX) {
        return None;
    }
    Some(number as u32)
}

/// The number below 2^32 before a space, and what stands after that space.
pub fn read_u32_and_space(text: &[u8]) -> Option<(u32, &[u8])>
    ensures { MatchOption result
        ((n : ℕ) (rest : List ℕ) → n < 2 ^ 32 → text.now ≡ decimal n ++ 32 ∷ rest → ⊥)
        (λ r. (r.0 < 2 ^ 32) × (text.now ≡ decimal r.0 ++ 32 ∷ r.1.now)) }
{
    let (number, end) = number_field(text)?;
    if end == text.len() {
        return None;
    }
    if number > u64::from(u32::MAX) {
        return None;
    }
    Some((number as u32, &text[end + 1..]))
}
