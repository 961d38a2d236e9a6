//! Decimal numbers in words of a command line.
#![tactic(auto)]

ghost use Rattle.std.specs.Prelude.{◌≡◌, ℕ, ◌<◌, ◌≤◌, ◌^◌, IfSome, IsNone};
ghost use Rattle.decimals.specs.Numbers.{has_sign_or_zero, IsDecimal};

/// The least number that is too large.
const TOO_LARGE: u64 = 0x8000_0000_0000_0000;

/// The number that a word is in decimal, without sign or leading zero, where it is at most 2^63 - 1.
pub fn number(word: &str) -> Option<u64>
    ensures some { IfSome result (IsDecimal word.now) }
    ensures none { IsNone result → (n : ℕ) → ¬ (IsDecimal word.now n) }
{
    if has_sign_or_zero(word.as_bytes()) {
        return None;
    }
    match word.parse() {
        Ok(number) => at_most(number),
        Err(_) => None,
    }
}

/// The number, where it isn't too large.
fn at_most(number: u64) -> Option<u64>
    ensures some { IfSome result (λ n. (n ≡ number) × (n < 2 ^ 63)) }
    ensures none { IsNone result → 2 ^ 63 ≤ number }
{
    if number < TOO_LARGE {
        Some(number)
    } else {
        None
    }
}

/// Whether a sign or a leading zero is the first of the bytes.
fn has_sign_or_zero(bytes: &[u8]) -> bool
    ensures { result ≡ has_sign_or_zero bytes.now }
{
    match bytes {
        [] => false,
        [first, rest @ ..] => *first == b'+' || *first == b'0' && !rest.is_empty(),
    }
}

#[cfg(test)]
mod tests {
    use super::number;

    /// Words, and the number that each is, if any.
    const WORDS: [(&str, Option<u64>); 12] = [
        ("0", Some(0)),
        ("64", Some(64)),
        ("9223372036854775807", Some(9_223_372_036_854_775_807)),
        ("9223372036854775808", None),
        ("18446744073709551616", None),
        ("", None),
        ("00", None),
        ("07", None),
        ("+7", None),
        ("-7", None),
        (" 7", None),
        ("7e1", None),
    ];

    #[test]
    fn words_are_numbers(rt: HostRuntime) {
        for (word, wanted) in &WORDS {
            assert!(rt; number(*word) == *wanted, "{word}");
        }
    }
}
