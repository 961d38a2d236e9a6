//! Values that count ticks.
ghost use Rattle.std.specs.Prelude.{◌≡◌, ◌≤◌, ◌<◌, ◌^◌, ◌&&◌, nat_le, string_bytes};
ghost use Rattle.toml.specs.Data.{integer, string};
ghost use Rattle.toml.specs.View.{view};
ghost use Rattle.lengths.specs.Lengths.{IsTick};
ghost use Rattle.written_values.specs.Values.{SaysTicksIn};

use crate::fault::ValueFault;
use lengths::{LengthFault, ticks_of};
use toml::Value;

/// How many ticks a value says, of `least` to `most`: a whole number, or a length. A tick has so many microseconds.
///
/// # Errors
///
/// `WrongKind` where the value is neither, `OutOfRange` where it says no whole number of ticks in the range.
pub fn ticks_in(value: &Value, tick: u64, least: u64, most: u64) -> Result<u64, ValueFault>
    requires tick { IsTick tick }
    requires low { most < 2 ^ 63 }
    ensures { SaysTicksIn tick least most (view value.now) result }
{
    match value {
        Value::Integer(number) => number_within(*number, tick, least, most),
        Value::String(word) => word_within(word, tick, least, most),
        _ => Err(ValueFault::WrongKind),
    }
}

/// A whole number in the range.
fn number_within(number: i64, tick: u64, least: u64, most: u64) -> Result<u64, ValueFault>
    ensures { SaysTicksIn tick least most (integer number) result }
{
    match u64::try_from(number) {
        Ok(ticks) => {
            if is_within(ticks, least, most) {
                Ok(ticks)
            } else {
                Err(ValueFault::OutOfRange)
            }
        }
        Err(_) => Err(ValueFault::OutOfRange),
    }
}

/// A word that is a length in the range.
fn word_within(word: &String, tick: u64, least: u64, most: u64) -> Result<u64, ValueFault>
    requires tick { IsTick tick }
    requires low { most < 2 ^ 63 }
    ensures { SaysTicksIn tick least most (string (string_bytes word.now)) result }
{
    length_within(word.as_str(), tick, least, most)
}

/// A length in the range.
fn length_within(word: &str, tick: u64, least: u64, most: u64) -> Result<u64, ValueFault>
    requires tick { IsTick tick }
    requires low { most < 2 ^ 63 }
    ensures { SaysTicksIn tick least most (string word.now) result }
{
    match ticks_of(word, tick) {
        Ok(ticks) => {
            if is_within(ticks, least, most) {
                Ok(ticks)
            } else {
                Err(ValueFault::OutOfRange)
            }
        }
        Err(LengthFault::NoLength) => Err(ValueFault::WrongKind),
        Err(LengthFault::PartTick) => Err(ValueFault::OutOfRange),
        Err(LengthFault::OutOfRange) => Err(ValueFault::OutOfRange),
    }
}

/// Whether a number is in a range.
pub(crate) fn is_within(number: u64, least: u64, most: u64) -> bool
    ensures { result ≡ (nat_le least number && nat_le number most) }
{
    least <= number && number <= most
}
