//! Numbers with a point, in millionths.
ghost use Rattle.std.specs.Prelude.{◌≡◌, ◌≤◌, ◌<◌, ◌-◌, ◌^◌, ℕ, IfSome, IsNone};
ghost use Rattle.goals.specs.Words.{IsFraction, IsNumber, IsWhole, begins_with_plus};

use decimals::number;

/// The number that a word is, in millionths: a whole number in decimal, without sign or leading zero, and maybe a point and
/// one to six digits behind it. The whole number is at most 2^63 - 1.
pub(crate) fn millionths(word: &str) -> Option<u128>
    ensures some { IfSome result (IsNumber word.now) }
    ensures none { IsNone result → (n : ℕ) → ¬ (IsNumber word.now n) }
    ensures bounded { IfSome result (λ n. n < 2 ^ 100) }
{
    let Some((front, back)) = word.split_once('.') else {
        return whole_millionths(word);
    };
    let Some(whole) = number(front) else {
        return None;
    };
    let Some(part) = fraction(back) else {
        return None;
    };
    Some(u128::from(whole) * 1_000_000 + part)
}

/// A whole number.
fn whole_millionths(word: &str) -> Option<u128>
    ensures some { IfSome result (IsWhole word.now) }
    ensures none { IsNone result → (n : ℕ) → ¬ (IsWhole word.now n) }
    ensures bounded { IfSome result (λ n. n < 2 ^ 100) }
{
    let Some(whole) = number(word) else {
        return None;
    };
    Some(u128::from(whole) * 1_000_000)
}

/// What one to six digits behind a point are.
fn fraction(digits: &str) -> Option<u128>
    ensures some { IfSome result (IsFraction digits.now) }
    ensures none { IsNone result → (part : ℕ) → ¬ (IsFraction digits.now part) }
    ensures bounded { IfSome result (λ part. part < 2 ^ 99) }
{
    let Some(scale) = scale(digits.len()) else {
        return None;
    };
    if begins_with_plus(digits.as_bytes()) {
        return None;
    }
    match digits.parse::<u64>() {
        Ok(parts) => Some(u128::from(parts) * scale),
        Err(_) => None,
    }
}

/// Whether a plus is the first of the bytes.
fn begins_with_plus(bytes: &[u8]) -> bool
    ensures { result ≡ begins_with_plus bytes.now }
{
    match bytes {
        [] => false,
        [first, ..] => *first == b'+',
    }
}

/// How many millionths the last of so many digits behind a point counts; none where they are more than six.
fn scale(count: usize) -> Option<u128>
    ensures some { IfSome result (λ scale. (count ≤ 6) × (scale ≡ 10 ^ (6 - count)) × (scale ≤ 1000000)) }
    ensures none { IsNone result → 6 < count }
{
    match count {
        0 => Some(1_000_000),
        1 => Some(100_000),
        2 => Some(10_000),
        3 => Some(1_000),
        4 => Some(100),
        5 => Some(10),
        6 => Some(1),
        _ => None,
    }
}
