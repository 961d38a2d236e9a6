//! How many ticks a word says, and how long a tick is.
ghost use Rattle.std.specs.Prelude.{◌≡◌, ◌≢◌, ℕ, ◌*◌, ◌^◌, ◌<◌, ◌≤◌, IfSome, IsNone, MatchResult};
ghost use Rattle.lengths.specs.Lengths.{IsTick, SaysTick, SaysTicks};

use crate::fault::LengthFault;
use crate::part::length;

/// The parts of a microsecond in which lengths are added up.
const MILLION: u128 = 1_000_000;

/// The least number of ticks that is too large.
const TOO_LARGE: u128 = 0x8000_0000_0000_0000;

/// The longest tick, in microseconds.
const LONGEST: u64 = 1_000_000;

/// How many ticks of so many microseconds a word says: parts of a number and its unit, `us`, `ms`, `s`, `m`,
/// `h` or `d`, from large to small, each unit once.
///
/// # Errors
///
/// `NoLength` where the word is no such parts, `PartTick` where they are no whole number of ticks, and
/// `OutOfRange` where they are 2^63 ticks or more.
pub fn ticks_of(word: &str, tick: u64) -> Result<u64, LengthFault>
    requires { IsTick tick }
    ensures { SaysTicks tick word.now result }
{
    let Some(total) = length(word.as_bytes()) else {
        return Err(LengthFault::NoLength);
    };
    let each = u128::from(tick) * MILLION;
    if total % each > 0 {
        return Err(LengthFault::PartTick);
    }
    let ticks = total / each;
    if ticks < TOO_LARGE {
        Ok(ticks as u64)
    } else {
        Err(LengthFault::OutOfRange)
    }
}

/// How many microseconds a tick has by a word: from one to a million.
///
/// # Errors
///
/// `NoLength` where the word is no length, `PartTick` where it is no whole number of microseconds, and
/// `OutOfRange` where it is none or more than a million.
pub fn tick_of(word: &str) -> Result<u64, LengthFault>
    ensures { SaysTick word.now result }
{
    match ticks_of(word, 1) {
        Ok(tick) => tick_within(tick),
        Err(fault) => Err(fault),
    }
}

/// The tick, where one may have so many microseconds.
fn tick_within(tick: u64) -> Result<u64, LengthFault>
    ensures { MatchResult result (λ it. (it ≡ tick) × IsTick tick) (λ e. (e ≡ LengthFault.OutOfRange) × ¬ (IsTick tick)) }
{
    if tick == 0 || tick > LONGEST {
        Err(LengthFault::OutOfRange)
    } else {
        Ok(tick)
    }
}

#[cfg(test)]
mod tests {
    use super::{tick_of, ticks_of};
    use crate::fault::LengthFault;

    /// Words, and how many ticks of a millisecond each is.
    const LENGTHS: [(&str, Result<u64, LengthFault>); 20] = [
        ("1.5s", Ok(1500)),
        ("2h30m", Ok(9_000_000)),
        ("1h", Ok(3_600_000)),
        ("45ms", Ok(45)),
        ("1d2h3m4s5ms", Ok(93_784_005)),
        ("0s", Ok(0)),
        ("1000us", Ok(1)),
        ("0.000001h", Err(LengthFault::PartTick)),
        ("0.5ms", Err(LengthFault::PartTick)),
        ("1us", Err(LengthFault::PartTick)),
        ("999999999999d", Err(LengthFault::OutOfRange)),
        ("1000000000000s", Err(LengthFault::NoLength)),
        ("1.0000000s", Err(LengthFault::NoLength)),
        ("30m2h", Err(LengthFault::NoLength)),
        ("1s1s", Err(LengthFault::NoLength)),
        ("1 s", Err(LengthFault::NoLength)),
        ("1.s", Err(LengthFault::NoLength)),
        (".5s", Err(LengthFault::NoLength)),
        ("5", Err(LengthFault::NoLength)),
        ("", Err(LengthFault::NoLength)),
    ];

    #[test]
    fn words_are_ticks(rt: HostRuntime) {
        for (word, wanted) in &LENGTHS {
            assert!(rt; ticks_of(*word, 1000) == *wanted, "{word}");
        }
    }

    /// Words, and how many microseconds a tick has by each.
    const TICKS: [(&str, Result<u64, LengthFault>); 6] = [
        ("1ms", Ok(1000)),
        ("1us", Ok(1)),
        ("1s", Ok(1_000_000)),
        ("0s", Err(LengthFault::OutOfRange)),
        ("1s1us", Err(LengthFault::OutOfRange)),
        ("1.5us", Err(LengthFault::PartTick)),
    ];

    #[test]
    fn words_are_lengths_of_a_tick(rt: HostRuntime) {
        for (word, wanted) in &TICKS {
            assert!(rt; tick_of(*word) == *wanted, "{word}");
        }
    }
}
