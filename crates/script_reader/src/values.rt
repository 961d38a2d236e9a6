//! Values of an item that are texts, lists of texts, or whole numbers.
ghost use Rattle.std.specs.Prelude.{◌≡◌, map, codes, option_map};
ghost use Rattle.std.specs.List.{list_any};
ghost use Rattle.toml.specs.Data.{as_str, get};
ghost use Rattle.toml.specs.View.{view};
ghost use Rattle.schema.specs.Tree.{items_of};
ghost use Rattle.script_reader.specs.Values.{count_at, count_in, has_other_names, is_other_text, is_other_value, members_of, text_at};

use toml::Value;
use written_values::ValueFault;

/// The most members of which so many may be chosen.
const MOST_MEMBERS: u64 = 16_384;

/// The text of a key, if a string is there.
pub(crate) fn text_at<'a>(item: &'a Value, key: &str) -> Option<&'a str>
    ensures { option_map (λ t. t.now) result ≡ text_at key.now (view item.now) }
{
    match item.get(key) {
        Some(value) => text_in(value),
        None => None,
    }
}

/// The text of a value, if it is a string.
pub(crate) fn text_in(value: &Value) -> Option<&str>
    ensures { option_map (λ t. t.now) result ≡ as_str (view value.now) }
{
    match value {
        Value::String(text) => Some(text.as_str()),
        _ => None,
    }
}

/// Whether something else than a string stands at a key.
pub(crate) fn is_other_text(item: &Value, key: &str) -> bool
    ensures { result ≡ is_other_text key.now (view item.now) }
{
    match item.get(key) {
        Some(value) => !value.is_str(),
        None => false,
    }
}

/// The items of a list; none of another value.
pub(crate) fn items(value: &Value) -> &[Value]
    ensures { map view result.now ≡ items_of (view value.now) }
{
    match value {
        Value::Array(items) => items.as_slice(),
        _ => &[],
    }
}

/// The items of `members`.
pub(crate) fn members_of(item: &Value) -> &[Value]
    ensures { map view result.now ≡ members_of (view item.now) }
{
    match item.get("members") {
        Some(value) => items(value),
        None => &[],
    }
}

/// Whether something else than a list of strings stands at `members`.
pub(crate) fn has_other_names(item: &Value) -> bool
    ensures { result ≡ has_other_names (view item.now) }
{
    match item.get("members") {
        Some(value) => !value.is_array() || has_other(value),
        None => false,
    }
}

/// Whether an item of a list is no string.
fn has_other(value: &Value) -> bool
    ensures { result ≡ list_any is_other_value (items_of (view value.now)) }
{
    has_other_among(items(value))
}

/// Whether one of these is no string.
fn has_other_among(values: &[Value]) -> bool
    ensures { result ≡ list_any (λ v. is_other_value (view v)) values.now }
{
    values.iter().any(|value| !value.is_str())
}

/// What `count` says, if it is there.
pub(crate) fn count_at(item: &Value) -> Option<Result<u64, ValueFault>>
    ensures { result ≡ count_at (view item.now) }
{
    match item.get("count") {
        Some(value) => Some(count_in(value)),
        None => None,
    }
}

/// How many members a value says: 1 to 16,384.
fn count_in(value: &Value) -> Result<u64, ValueFault>
    ensures { result ≡ count_in (view value.now) }
{
    match value {
        Value::Integer(number) => match u64::try_from(*number) {
            Ok(count) => {
                if 1 <= count && count <= MOST_MEMBERS {
                    Ok(count)
                } else {
                    Err(ValueFault::OutOfRange)
                }
            }
            Err(_) => Err(ValueFault::OutOfRange),
        },
        _ => Err(ValueFault::WrongKind),
    }
}
