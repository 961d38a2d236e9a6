//! Lengths of time, where it is known how long a tick lasts.
ghost use Rattle.std.specs.Prelude.{◌≡◌, ◌++◌, ◌<◌, ◌≤◌, OnOk, decimal};
ghost use Rattle.std.specs.String.{string_bytes};
ghost use Rattle.drawing.specs.Lengths.{and_minutes, and_more, and_seconds, between, days_words, digit, hours_words, in_parentheses, in_unit, lasting, lasting_between, length_of, length_words, minutes_words, moment_alone, part_words, places_within, short_words, ticks_words, time_alone, time_text};

use crate::number::push_grouped;
use std::alloc::AllocError;
use ticks::Tick;

/// A second in microseconds.
const SECOND: u64 = 1_000_000;

/// A minute.
const MINUTE: u128 = 60_000_000;

/// An hour.
const HOUR: u128 = 3_600_000_000;

/// A day.
const DAY: u128 = 86_400_000_000;

/// Appends a number of ticks and, where that is known, how long they last.
#[tactic(auto, unfolding(crate::specs::Lengths::time_text))]
pub fn push_timed(text: &mut String, tick: Option<Tick>, ticks: u64) -> Result<(), AllocError>
    ensures { OnOk result (string_bytes text.new ≡ string_bytes text.old ++ time_text tick ticks) }
{
    push_grouped(text, ticks)?;
    push_lasting(text, tick, ticks)
}

/// Appends how long so many ticks last, in parentheses, where that is known.
pub fn push_lasting(text: &mut String, tick: Option<Tick>, ticks: u64) -> Result<(), AllocError>
    ensures { OnOk result (string_bytes text.new ≡ string_bytes text.old ++ lasting tick ticks) }
{
    match tick {
        Some(tick) => push_in_parentheses(text, tick, ticks),
        None => Ok(()),
    }
}

/// Appends a time alone, as a cell of a table has it: how long so many ticks last, where that is known, or else their number.
pub fn push_time_alone(text: &mut String, tick: Option<Tick>, ticks: u64) -> Result<(), AllocError>
    ensures { OnOk result (string_bytes text.new ≡ string_bytes text.old ++ time_alone tick ticks) }
{
    match tick {
        Some(tick) => push_ticks_words(text, tick, ticks),
        None => push_grouped(text, ticks),
    }
}

/// Appends a moment alone: the same, its number without commas.
pub fn push_moment_alone(
    text: &mut String,
    tick: Option<Tick>,
    ticks: u64,
) -> Result<(), AllocError>
    ensures { OnOk result (string_bytes text.new ≡ string_bytes text.old ++ moment_alone tick ticks) }
{
    match tick {
        Some(tick) => push_ticks_words(text, tick, ticks),
        None => push_count(text, u128::from(ticks)),
    }
}

/// Appends from which to which length two numbers of ticks last, in parentheses, where it is known how long a tick lasts.
pub fn push_lasting_between(
    text: &mut String,
    tick: Option<Tick>,
    least: u64,
    greatest: u64,
) -> Result<(), AllocError>
    ensures { OnOk result (string_bytes text.new ≡ string_bytes text.old ++ lasting_between tick least greatest) }
{
    match tick {
        Some(tick) => push_between(text, tick, least, greatest),
        None => Ok(()),
    }
}

/// Appends the same.
#[tactic(auto, unfolding(crate::specs::Lengths::between))]
fn push_between(text: &mut String, tick: Tick, least: u64, greatest: u64) -> Result<(), AllocError>
    ensures { OnOk result (string_bytes text.new ≡ string_bytes text.old ++ between tick least greatest) }
{
    text.push_str(" (")?;
    push_ticks_words(text, tick, least)?;
    text.push_str(" to ")?;
    push_ticks_words(text, tick, greatest)?;
    text.push_str(")")
}

/// Appends how long so many ticks last, in parentheses.
#[tactic(auto, unfolding(crate::specs::Lengths::in_parentheses))]
fn push_in_parentheses(text: &mut String, tick: Tick, ticks: u64) -> Result<(), AllocError>
    ensures { OnOk result (string_bytes text.new ≡ string_bytes text.old ++ in_parentheses tick ticks) }
{
    text.push_str(" (")?;
    push_ticks_words(text, tick, ticks)?;
    text.push_str(")")
}

/// Appends how long so many ticks last.
fn push_ticks_words(text: &mut String, tick: Tick, ticks: u64) -> Result<(), AllocError>
    ensures { OnOk result (string_bytes text.new ≡ string_bytes text.old ++ ticks_words tick ticks) }
{
    push_length(text, length_of(tick, ticks))
}

/// How long so many ticks last, in microseconds.
#[tactic(auto, using(crate::proofs::Lengths::product))]
pub(crate) fn length_of(tick: Tick, ticks: u64) -> u128
    ensures { result ≡ length_of tick ticks }
{
    u128::from(ticks) * u128::from(tick.microseconds)
}

/// Appends a length, in microseconds, in words, as a page shows them.
pub(crate) fn push_length(text: &mut String, length: u128) -> Result<(), AllocError>
    ensures { OnOk result (string_bytes text.new ≡ string_bytes text.old ++ length_words length) }
{
    if length < MINUTE {
        push_short(text, length as u64)
    } else if length < HOUR {
        push_minutes(text, length)
    } else if length < DAY {
        push_hours(text, length)
    } else {
        push_days(text, length)
    }
}

/// Appends a length below a minute.
fn push_short(text: &mut String, length: u64) -> Result<(), AllocError>
    ensures { OnOk result (string_bytes text.new ≡ string_bytes text.old ++ short_words length) }
{
    if length == 0 {
        text.push_str("0 s")
    } else if length < 1000 {
        push_in_unit(text, length, 1, "&micro;s")
    } else if length < SECOND {
        push_in_unit(text, length, 1000, "ms")
    } else {
        push_in_unit(text, length, SECOND, "s")
    }
}

/// Appends a length of a minute or more, and less than an hour.
#[tactic(auto, unfolding(crate::specs::Lengths::minutes_words))]
fn push_minutes(text: &mut String, length: u128) -> Result<(), AllocError>
    ensures { OnOk result (string_bytes text.new ≡ string_bytes text.old ++ minutes_words length) }
{
    push_count(text, length / MINUTE)?;
    text.push_str(" min")?;
    push_and_seconds(text, (length % MINUTE) as u64)
}

/// Appends one of an hour or more, and less than a day.
#[tactic(auto, unfolding(crate::specs::Lengths::hours_words))]
fn push_hours(text: &mut String, length: u128) -> Result<(), AllocError>
    ensures { OnOk result (string_bytes text.new ≡ string_bytes text.old ++ hours_words length) }
{
    push_count(text, length / HOUR)?;
    text.push_str(" h")?;
    push_and_minutes(text, length)
}

/// Appends one of a day or more.
#[tactic(auto, unfolding(crate::specs::Lengths::days_words))]
fn push_days(text: &mut String, length: u128) -> Result<(), AllocError>
    ensures { OnOk result (string_bytes text.new ≡ string_bytes text.old ++ days_words length) }
{
    push_count(text, length / DAY)?;
    text.push_str(" d")?;
    push_and_more(text, length / HOUR % 24, " h")?;
    push_and_minutes(text, length)
}

/// Appends the minutes and seconds beyond whole hours.
#[tactic(auto, unfolding(crate::specs::Lengths::and_minutes))]
fn push_and_minutes(text: &mut String, length: u128) -> Result<(), AllocError>
    ensures { OnOk result (string_bytes text.new ≡ string_bytes text.old ++ and_minutes length) }
{
    push_and_more(text, length / MINUTE % 60, " min")?;
    push_and_seconds(text, (length % MINUTE) as u64)
}

/// Appends so many of a unit, behind others, where there are some.
fn push_and_more(text: &mut String, count: u128, name: &str) -> Result<(), AllocError>
    ensures { OnOk result (string_bytes text.new ≡ string_bytes text.old ++ and_more count name.now) }
{
    if count == 0 {
        return Ok(());
    }
    text.push_str(" ")?;
    push_count(text, count)?;
    text.push_str(name)
}

/// Appends the seconds beyond whole minutes, behind others, where there are some.
fn push_and_seconds(text: &mut String, length: u64) -> Result<(), AllocError>
    ensures { OnOk result (string_bytes text.new ≡ string_bytes text.old ++ and_seconds length) }
{
    if length == 0 {
        return Ok(());
    }
    text.push_str(" ")?;
    push_in_unit(text, length, SECOND, "s")
}

/// Appends a length in a unit.
#[tactic(auto, unfolding(crate::specs::Lengths::in_unit))]
fn push_in_unit(text: &mut String, length: u64, unit: u64, name: &str) -> Result<(), AllocError>
    requires some { 0 < unit }
    requires small { unit ≤ 1000000 }
    ensures { OnOk result (string_bytes text.new ≡ string_bytes text.old ++ in_unit length unit name.now) }
{
    push_count(text, u128::from(length / unit))?;
    push_part(text, length % unit, unit)?;
    text.push_str(" ")?;
    text.push_str(name)
}

/// Appends what is left of a unit, in decimal places.
fn push_part(text: &mut String, part: u64, unit: u64) -> Result<(), AllocError>
    requires below { part < unit }
    requires small { unit ≤ 1000000 }
    ensures { OnOk result (string_bytes text.new ≡ string_bytes text.old ++ part_words part unit) }
{
    if part == 0 {
        return Ok(());
    }
    text.push_str(".")?;
    push_places(text, part, unit)
}

/// Appends those places.
fn push_places(text: &mut String, part: u64, unit: u64) -> Result<(), AllocError>
    requires below { part < unit }
    requires small { unit ≤ 1000000 }
    ensures { OnOk result (string_bytes text.new ≡ string_bytes text.old ++ places_within 6 part unit) }
{
    let mut part = part;
    for place in 0..6u64 {
        push_digit(text, part, unit)?;
        part = part * 10 % unit;
    }
    Ok(())
}

/// Appends the first of those places, where there is one.
fn push_digit(text: &mut String, part: u64, unit: u64) -> Result<(), AllocError>
    requires below { part < unit }
    requires small { unit ≤ 1000000 }
    ensures { OnOk result (string_bytes text.new ≡ string_bytes text.old ++ digit part unit) }
{
    if part == 0 {
        return Ok(());
    }
    push_count(text, u128::from(part * 10 / unit))
}

/// Appends a number.
fn push_count(text: &mut String, count: u128) -> Result<(), AllocError>
    ensures { OnOk result (string_bytes text.new ≡ string_bytes text.old ++ decimal count) }
{
    write!(text, "{count}")
}

#[cfg(test)]
mod tests {
    use super::{push_moment_alone, push_time_alone, push_timed};
    use ticks::Tick;

    /// Numbers of ticks, how many microseconds a tick lasts, and how they are shown.
    const TIMES: [(u64, u32, &str); 15] = [
        (0, 1_000, "0 (0 s)"),
        (999, 1, "999 (999 &micro;s)"),
        (1_500, 1, "1,500 (1.5 ms)"),
        (250, 1_000, "250 (250 ms)"),
        (1_000, 1_000, "1,000 (1 s)"),
        (12_400, 1_000, "12,400 (12.4 s)"),
        (12_345_678, 1, "12,345,678 (12.345678 s)"),
        (59_999, 1_000, "59,999 (59.999 s)"),
        (60_000, 1_000, "60,000 (1 min)"),
        (100_050, 1_000, "100,050 (1 min 40.05 s)"),
        (3_600_000, 1_000, "3,600,000 (1 h)"),
        (3_601_000, 1_000, "3,601,000 (1 h 1 s)"),
        (98_400, 1_000_000, "98,400 (1 d 3 h 20 min)"),
        (172_800, 1_000_000, "172,800 (2 d)"),
        (86_461, 1_000_000, "86,461 (1 d 1 min 1 s)"),
    ];

    #[test]
    fn times_are_shown(rt: HostRuntime) {
        for (ticks, microseconds, wanted) in &TIMES {
            let mut text = String::new(rt.alloc());
            let tick = Tick {
                microseconds: *microseconds,
            };
            push_timed(&mut text, Some(tick), *ticks).expect(&rt, "memory");
            assert!(rt; text.as_str() == *wanted, "{wanted}");
        }
    }

    #[test]
    fn times_alone_have_units_or_ticks(rt: HostRuntime) {
        let tick = Tick {
            microseconds: 1_000,
        };
        let mut text = String::new(rt.alloc());
        push_time_alone(&mut text, Some(tick), 12_389).expect(&rt, "memory");
        push_time_alone(&mut text, None, 12_389).expect(&rt, "memory");
        push_moment_alone(&mut text, Some(tick), 12_389).expect(&rt, "memory");
        push_moment_alone(&mut text, None, 12_389).expect(&rt, "memory");
        assert!(rt; text.as_str() == "12.389 s12,38912.389 s12389");
    }
}
