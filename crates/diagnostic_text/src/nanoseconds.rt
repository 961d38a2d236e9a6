//! Lengths of time with units, as `1s`, `250 ms` or `1m30s`.
use crate::decimal::number_of;

/// A length has at most so many parts.
const MOST_PARTS: u64 = 8;

/// The length of time that a text says, in nanoseconds; none where it says none.
pub(crate) fn nanoseconds(text: &str) -> Option<u128> {
    let mut rest = text.trim();
    if rest.is_empty() {
        return None;
    }
    let mut sum = 0u128;
    for _ in 0..MOST_PARTS {
        if rest.is_empty() {
            return Some(sum);
        }
        let (length, behind) = first_part(rest)?;
        sum = sum.checked_add(length)?;
        rest = behind.trim_start();
    }
    None
}

/// The length that a text begins with, in nanoseconds, and what stands behind it.
fn first_part(text: &str) -> Option<(u128, &str)> {
    let (number, rest) = split_at(text, number_end(text))?;
    let rest = rest.trim_start();
    let (unit, behind) = split_at(rest, unit_end(rest))?;
    let length = number_of(number)?.times(unit_length(unit)?)?;
    Some((length, behind))
}

/// A text up to a byte, and from it on.
fn split_at(text: &str, at: usize) -> Option<(&str, &str)> {
    Some((text.get(..at)?, text.get(at..)?))
}

/// Where the digits and points end that a text begins with.
fn number_end(text: &str) -> usize {
    text.bytes()
        .take_while(|byte| byte.is_ascii_digit() || *byte == b'.')
        .count()
}

/// Where the unit ends that a text begins with: it goes up to the next digit or space.
fn unit_end(text: &str) -> usize {
    text.bytes()
        .take_while(|byte| !byte.is_ascii_digit() && !byte.is_ascii_whitespace())
        .count()
}

/// How many nanoseconds a unit of time has.
fn unit_length(unit: &str) -> Option<u128> {
    match unit {
        "ns" => Some(1),
        "us" | "\u{b5}s" | "\u{3bc}s" => Some(1_000),
        "ms" => Some(1_000_000),
        "s" | "sec" | "second" | "seconds" => Some(1_000_000_000),
        "m" | "min" | "minute" | "minutes" => Some(60_000_000_000),
        "h" | "hour" | "hours" => Some(3_600_000_000_000),
        "d" | "day" | "days" => Some(86_400_000_000_000),
        _ => None,
    }
}
