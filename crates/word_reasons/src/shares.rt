//! Shares that aren't written in parts of a million.
ghost use Rattle.std.specs.Prelude.{◌≤◌, IfSome};

use decimals::number;

/// A whole, in parts of a million.
const WHOLE: u64 = 1_000_000;

/// How many parts in a million a value of a share's key is that is written in percent, as `2%`, or as a fraction, as `0.02`.
pub(crate) fn parts_of(key: &str, value: &str) -> Option<u64>
    ensures { IfSome result (λ parts. parts ≤ 1000000) }
{
    if !key.ends_with("loss") {
        return None;
    }
    let parts = match value.strip_suffix('%') {
        Some(percent) => scaled(percent, 4)?,
        None => scaled(value, 6)?,
    };
    if parts > WHOLE {
        return None;
    }
    Some(parts)
}

/// A number with at most so many digits behind its point, times ten to the power of that many.
fn scaled(word: &str, places: usize) -> Option<u64> {
    match word.split_once('.') {
        Some((whole, digits)) => number(whole)?
            .checked_mul(power_of_ten(places)?)?
            .checked_add(fraction(digits, places)?),
        None => number(word)?.checked_mul(power_of_ten(places)?),
    }
}

/// Digits behind a point, at most so many of them, times ten to the power of that many.
fn fraction(digits: &str, places: usize) -> Option<u64> {
    let left = places.checked_sub(digits.len())?;
    if !digits.bytes().all(|byte| byte.is_ascii_digit()) {
        return None;
    }
    let value: u64 = digits.parse().ok()?;
    value.checked_mul(power_of_ten(left)?)
}

/// Ten to a power.
fn power_of_ten(power: usize) -> Option<u64> {
    let mut product = 1u64;
    for _ in 0..power {
        product = product.checked_mul(10)?;
    }
    Some(product)
}
