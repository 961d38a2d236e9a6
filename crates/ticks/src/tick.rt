//! How long a tick lasts.
ghost use Rattle.std.specs.Prelude.{IfSome, IsNone};
ghost use Rattle.ticks.specs.Ticks.{IsTickIn, IsTickWord};
ghost use Rattle.ticks.specs.declared.tick.Tick.{Tick as ATick};

use crate::unit::{Unit, unit_length, unit_word};
use decimals::number;

/// The longest tick, in microseconds: a second.
const LONGEST: u64 = 1_000_000;

/// How long a tick lasts.
#[derive(Clone, Copy, Debug, PartialEq, Eq)]
pub struct Tick {
    /// So many microseconds.
    pub microseconds: u32,
}

/// How long a tick lasts by a word, as `1ms`: a whole number and `us`, `ms` or `s`, together from a
/// microsecond to a second. None where the word doesn't say that.
pub fn tick_of(word: &str) -> Option<Tick>
    ensures some { IfSome result (IsTickWord word.now) }
    ensures none { IsNone result → (tick : ATick) → ¬ (IsTickWord word.now tick) }
{
    if let Some(tick) = tick_in(word, Unit::Microsecond) {
        return Some(tick);
    }
    if let Some(tick) = tick_in(word, Unit::Millisecond) {
        return Some(tick);
    }
    tick_in(word, Unit::Second)
}

/// The same, where the word names this unit.
fn tick_in(word: &str, unit: Unit) -> Option<Tick>
    ensures some { IfSome result (IsTickIn unit word.now) }
    ensures none { IsNone result → (tick : ATick) → ¬ (IsTickIn unit word.now tick) }
{
    let name = unit_word(unit);
    let Some(front) = word.strip_suffix(name) else {
        return None;
    };
    let Some(number) = number(front) else {
        return None;
    };
    if number == 0 {
        return None;
    }
    if number > LONGEST {
        return None;
    }
    let microseconds = number * unit_length(unit);
    if microseconds > LONGEST {
        return None;
    }
    Some(Tick {
        microseconds: microseconds as u32,
    })
}

#[cfg(test)]
mod tests {
    use super::{Tick, tick_of};

    /// Words, and how many microseconds a tick lasts by each, if it says so.
    const WORDS: [(&str, Option<u32>); 24] = [
        ("1ms", Some(1_000)),
        ("250us", Some(250)),
        ("1us", Some(1)),
        ("1s", Some(1_000_000)),
        ("1000ms", Some(1_000_000)),
        ("1000000us", Some(1_000_000)),
        ("2s", None),
        ("1001ms", None),
        ("1000001us", None),
        ("1ns", None),
        ("0ms", None),
        ("01ms", None),
        ("1", None),
        ("ms", None),
        ("1 ms", None),
        ("1.5ms", None),
        ("-1ms", None),
        ("1m", None),
        ("1min", None),
        ("1h", None),
        ("1Ms", None),
        ("1µs", None),
        ("", None),
        ("1mss", None),
    ];

    #[test]
    fn words_say_how_long_a_tick_lasts(rt: HostRuntime) {
        for (word, wanted) in &WORDS {
            let tick = match *wanted {
                Some(microseconds) => Some(Tick { microseconds }),
                None => None,
            };
            assert!(rt; tick_of(*word) == tick, "{word}");
        }
    }
}
