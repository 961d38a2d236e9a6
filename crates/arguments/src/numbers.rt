//! The numbers that options have.
ghost use Rattle.std.specs.Prelude.{◌<◌, ◌^◌, ℕ, IfSome, IsNone};
ghost use Rattle.arguments.specs.Numbers.{IsNumber};

use decimals::number;

/// The number from `least` to `most`, both included, that a word is in decimal, without sign or
/// leading zero.
pub fn number_within(word: &str, least: u64, most: u64) -> Option<u64>
    requires { most < 2 ^ 63 }
    ensures some { IfSome result (IsNumber least most word.now) }
    ensures none { IsNone result → (n : ℕ) → ¬ (IsNumber least most word.now n) }
{
    let number = number(word)?;
    if number < least || number > most {
        return None;
    }
    Some(number)
}
