//! The values of a plain text.
ghost use Rattle.std.specs.Prelude.{IfNone, IfSome, ℕ};
ghost use Rattle.lengths.specs.Lengths.{IsTick};
ghost use Rattle.plain_text.specs.Document.{data_of};
ghost use Rattle.toml.specs.Data.{Data, integer};
ghost use Rattle.toml.specs.View.{view};
ghost use Rattle.plain_document.specs.declared.keys.KeyKind.TheVariants as kind;
ghost use Rattle.plain_document.specs.Values.{IsPlainOf};

use crate::keys::KeyKind;
use plain_text::PlainValue;
use toml::Value;
use written_values::{share_in, ticks_in};

/// The largest number of a plain text.
const MOST: u64 = 0x7fff_ffff_ffff_ffff;

/// The value in the plain text. A tick has so many microseconds. None where the value is of another kind or out of range.
pub fn plain_value<'a>(kind: KeyKind, value: &'a Value, tick: u64) -> Option<PlainValue<'a>>
    requires { IsTick tick }
    ensures made { IfSome result (λ made. IsPlainOf tick kind (view value.now) (data_of made)) }
    ensures none { IfNone result ((plain : Data) → ¬ IsPlainOf tick kind (view value.now) plain) }
{
    match kind {
        KeyKind::Ticks => ticks_of(value, tick),
        KeyKind::Share => share_of(value),
        KeyKind::Plain => other_of(value),
        KeyKind::Gone => None,
    }
}

/// A number of ticks.
fn ticks_of<'a>(value: &'a Value, tick: u64) -> Option<PlainValue<'a>>
    requires { IsTick tick }
    ensures made { IfSome result (λ made. IsPlainOf tick kind.Ticks (view value.now) (data_of made)) }
    ensures none { IfNone result ((plain : Data) → ¬ IsPlainOf tick kind.Ticks (view value.now) plain) }
{
    match ticks_in(value, tick, 0, MOST) {
        Ok(number) => Some(PlainValue::Whole(number)),
        Err(_) => None,
    }
}

/// A number of parts per million.
fn share_of<'a>(value: &'a Value) -> Option<PlainValue<'a>>
    ensures made { (tick : ℕ) → IfSome result (λ made. IsPlainOf tick kind.Share (view value.now) (data_of made)) }
    ensures none { (tick : ℕ) → IfNone result ((plain : Data) → ¬ IsPlainOf tick kind.Share (view value.now) plain) }
{
    match share_in(value) {
        Ok(number) => Some(PlainValue::Whole(number)),
        Err(_) => None,
    }
}

/// A whole number, a switch or a name.
fn other_of<'a>(value: &'a Value) -> Option<PlainValue<'a>>
    ensures made { (tick : ℕ) → IfSome result (λ made. IsPlainOf tick kind.Plain (view value.now) (data_of made)) }
    ensures none { (tick : ℕ) → IfNone result ((plain : Data) → ¬ IsPlainOf tick kind.Plain (view value.now) plain) }
{
    match value {
        Value::Integer(number) => match u64::try_from(*number) {
            Ok(number) => Some(PlainValue::Whole(number)),
            Err(_) => None,
        },
        Value::Boolean(on) => Some(PlainValue::Switch(*on)),
        Value::String(name) => Some(PlainValue::Name(name.as_str())),
        _ => None,
    }
}
