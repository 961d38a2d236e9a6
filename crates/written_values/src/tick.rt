//! How long a tick is.
ghost use Rattle.std.specs.Prelude.{◌≡◌, codes, option_map};
ghost use Rattle.toml.specs.Data.{get, string};
ghost use Rattle.toml.specs.View.{view};
ghost use Rattle.written_values.specs.Values.{SaysTickIn, SaysTickOf};

use crate::fault::ValueFault;
use lengths::{LengthFault, tick_of};
use toml::Value;

/// How many microseconds a tick has where a text doesn't say it.
const MILLISECOND: u64 = 1000;

/// How many microseconds a tick of a document has: what its key `tick` says, else 1,000.
///
/// # Errors
///
/// `WrongKind` where `tick` is no length, `OutOfRange` where it isn't from 1 us to 1 s, or no whole number of microseconds.
pub fn tick_in(tree: &Value) -> Result<u64, ValueFault>
    ensures { SaysTickIn (get (codes "tick") (view tree.now)) result }
{
    match tree.get("tick") {
        Some(Value::String(word)) => tick_said(word.as_str()),
        Some(_) => Err(ValueFault::WrongKind),
        None => Ok(MILLISECOND),
    }
}

/// How many microseconds a word says that a tick has.
fn tick_said(word: &str) -> Result<u64, ValueFault>
    ensures { SaysTickOf (string word.now) result }
{
    match tick_of(word) {
        Ok(tick) => Ok(tick),
        Err(LengthFault::NoLength) => Err(ValueFault::WrongKind),
        Err(LengthFault::PartTick) => Err(ValueFault::OutOfRange),
        Err(LengthFault::OutOfRange) => Err(ValueFault::OutOfRange),
    }
}
