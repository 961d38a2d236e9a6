//! Shares in percent.
ghost use Rattle.std.specs.Prelude.{ℕ, IfSome, IsNone};
ghost use Rattle.lengths.specs.Lengths.{IsShare};

use crate::numeral::numeral;

/// How many parts per million a word says, as `2%`: at most three digits, and maybe a point and at most four
/// more. A word may say up to 9,999,999.
pub fn share_of(word: &str) -> Option<u64>
    ensures some { IfSome result (IsShare word.now) }
    ensures none { IsNone result → (per_million : ℕ) → ¬ (IsShare word.now per_million) }
{
    let Some(number) = word.as_bytes().strip_suffix(b"%") else {
        return None;
    };
    numeral(number, 3, 4)
}

#[cfg(test)]
mod tests {
    use super::share_of;

    /// Words, and the parts per million that each is, if any.
    const SHARES: [(&str, Option<u64>); 12] = [
        ("2%", Some(20_000)),
        ("0.0001%", Some(1)),
        ("12.5%", Some(125_000)),
        ("100%", Some(1_000_000)),
        ("999.9999%", Some(9_999_999)),
        ("007%", Some(70_000)),
        ("1000%", None),
        ("0.00001%", None),
        ("1.%", None),
        ("%", None),
        ("2", None),
        ("-2%", None),
    ];

    #[test]
    fn words_are_shares(rt: HostRuntime) {
        for (word, wanted) in &SHARES {
            assert!(rt; share_of(*word) == *wanted, "{word}");
        }
    }
}
