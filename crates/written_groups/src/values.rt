//! Values of an item: texts, whole numbers, and numbers of ticks.
ghost use Rattle.std.specs.Prelude.{◌≡◌, ◌<◌, ◌^◌, map};
ghost use Rattle.lengths.specs.Lengths.{IsTick};
ghost use Rattle.toml.specs.Data.{get};
ghost use Rattle.toml.specs.View.{view};
ghost use Rattle.schema.specs.Tree.{items_of};
ghost use Rattle.written_groups.specs.Values.{count_at, count_in, items_at, text_at, CountsAt, CountsIn};

use toml::Value;
use written_values::ticks_in;

/// The most members that a group may have.
const MOST_MEMBERS: u64 = 16_384;

/// The text of a key; empty where no string is there.
pub(crate) fn text_at<'a>(item: &'a Value, key: &str) -> &'a str
    ensures { result.now ≡ text_at key.now (view item.now) }
{
    match item.get(key) {
        Some(Value::String(text)) => text.as_str(),
        _ => "",
    }
}

/// The items of the list at a key; none where no list is there.
pub(crate) fn items_at<'a>(document: &'a Value, key: &str) -> &'a [Value]
    ensures { map view result.now ≡ items_at key.now (view document.now) }
{
    match document.get(key) {
        Some(value) => items(value),
        None => &[],
    }
}

/// The items of a list; none of another value.
fn items(value: &Value) -> &[Value]
    ensures { map view result.now ≡ items_of (view value.now) }
{
    match value {
        Value::Array(items) => items.as_slice(),
        _ => &[],
    }
}

/// How many members a group has; 0 where that says no number up to 16,384.
pub(crate) fn count_at(item: &Value) -> u64
    ensures { result ≡ count_at (view item.now) }
{
    match item.get("count") {
        Some(value) => count_in(value),
        None => 0,
    }
}

/// The number of members that a value says; 0 where it says none up to 16,384.
fn count_in(value: &Value) -> u64
    ensures { result ≡ count_in (view value.now) }
{
    match value {
        Value::Integer(number) => match u64::try_from(*number) {
            Ok(count) => { if count <= MOST_MEMBERS { count } else { 0 } }
            Err(_) => 0,
        },
        _ => 0,
    }
}

/// How many ticks a key counts; 0 where it says no number of the range.
pub fn number_at(item: &Value, key: &str, tick: u64, least: u64, most: u64) -> u64
    requires tick { IsTick tick }
    requires low { most < 2 ^ 63 }
    ensures { CountsAt tick least most (get key.now (view item.now)) result }
{
    match item.get(key) {
        Some(value) => number_in(value, tick, least, most),
        None => 0,
    }
}

/// How many ticks a value counts; 0 where it says no number of the range.
fn number_in(value: &Value, tick: u64, least: u64, most: u64) -> u64
    requires tick { IsTick tick }
    requires low { most < 2 ^ 63 }
    ensures { CountsIn tick least most (view value.now) result }
{
    match ticks_in(value, tick, least, most) {
        Ok(number) => number,
        Err(_) => 0,
    }
}
