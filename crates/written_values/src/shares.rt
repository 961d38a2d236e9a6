//! Values that are shares.
ghost use Rattle.std.specs.Prelude.{◌≡◌, ◌≤◌, string_bytes};
ghost use Rattle.toml.specs.Data.{integer, string};
ghost use Rattle.toml.specs.View.{view};
ghost use Rattle.written_values.specs.Values.{SaysShareIn};

use crate::fault::ValueFault;
use lengths::share_of;
use toml::Value;

/// The most that a share may be, in parts per million.
const WHOLE: u64 = 1_000_000;

/// How many parts per million a value says, up to a million: a whole number, or a share as `2%`.
///
/// # Errors
///
/// `WrongKind` where the value is neither, `OutOfRange` where it says more than a million, or less than 0.
pub fn share_in(value: &Value) -> Result<u64, ValueFault>
    ensures { SaysShareIn (view value.now) result }
{
    match value {
        Value::Integer(number) => number_of_parts(*number),
        Value::String(word) => text_of_parts(word),
        _ => Err(ValueFault::WrongKind),
    }
}

/// A whole number up to a million.
fn number_of_parts(number: i64) -> Result<u64, ValueFault>
    ensures { SaysShareIn (integer number) result }
{
    match u64::try_from(number) {
        Ok(parts) => {
            if parts <= WHOLE {
                Ok(parts)
            } else {
                Err(ValueFault::OutOfRange)
            }
        }
        Err(_) => Err(ValueFault::OutOfRange),
    }
}

/// A word that is a share up to a million.
fn text_of_parts(word: &String) -> Result<u64, ValueFault>
    ensures { SaysShareIn (string (string_bytes word.now)) result }
{
    word_of_parts(word.as_str())
}

/// A share up to a million.
fn word_of_parts(word: &str) -> Result<u64, ValueFault>
    ensures { SaysShareIn (string word.now) result }
{
    match share_of(word) {
        Some(parts) => {
            if parts <= WHOLE {
                Ok(parts)
            } else {
                Err(ValueFault::OutOfRange)
            }
        }
        None => Err(ValueFault::WrongKind),
    }
}
