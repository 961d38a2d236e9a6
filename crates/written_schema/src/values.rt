//! Which rule a value breaks, and how long a tick is.
ghost use Rattle.std.specs.Prelude.{◌≡◌, true};
ghost use Rattle.toml.specs.View.{view};
ghost use Rattle.lengths.specs.Lengths.{IsTick};
ghost use Rattle.schema.specs.Shape.{is_within};
ghost use Rattle.written_values.specs.Values.{SaysTickOf};
ghost use Rattle.written_schema.specs.Lowest.{rule_if};
ghost use Rattle.written_schema.specs.Values.{is_low, said_rule, whole_rule, IsTickOf, IsValueRule};

use crate::rows::WrittenKind;
use toml::Value;
use written_values::{ValueFault, share_in, tick_in, ticks_in};

/// No rule is broken: over the number of each rule.
pub const NO_RULE: u8 = 255;

/// How many microseconds a tick has where a text doesn't say it.
const MILLISECOND: u64 = 1000;

/// The most microseconds that a tick may have: a second.
const LONGEST_TICK: u64 = 1_000_000;

/// How many microseconds a tick of a document has: what `tick` says; a millisecond where it is absent or refused.
pub fn tick_of(document: &Value) -> u64
    ensures tick { IsTickOf (view document.now) result }
    ensures range { IsTick result }
{
    match tick_in(document) {
        Ok(tick) => tick,
        Err(_) => MILLISECOND,
    }
}

/// The rule that a value of this kind breaks, 4 or 5; else 255. A tick has so many microseconds.
pub(crate) fn value_rule(kind: WrittenKind, value: &Value, tick: u64) -> u8
    requires tick { IsTick tick }
    requires low { is_low kind ≡ true }
    ensures { IsValueRule tick kind (view value.now) result }
{
    match kind {
        WrittenKind::Ticks { least, most } => said_rule(ticks_in(value, tick, least, most)),
        WrittenKind::Share => said_rule(share_in(value)),
        WrittenKind::Tick => said_rule(tick_said(value)),
        WrittenKind::Whole { least, most } => whole_rule(value, least, most),
        WrittenKind::Switch => rule_if(!value.is_bool(), 4),
        WrittenKind::Text => rule_if(!value.is_str(), 4),
        WrittenKind::List(_) => rule_if(!value.is_array(), 4),
        WrittenKind::Table(_) | WrittenKind::Script => NO_RULE,
    }
}

/// How long a tick is, in microseconds, as a value says.
fn tick_said(value: &Value) -> Result<u64, ValueFault>
    ensures { SaysTickOf (view value.now) result }
{
    match value {
        Value::String(_) => ticks_in(value, 1, 1, LONGEST_TICK),
        _ => Err(ValueFault::WrongKind),
    }
}

/// Rule 4 where a value is no whole number, 5 where it is outside the range; else 255.
fn whole_rule(value: &Value, least: u64, most: u64) -> u8
    ensures { result ≡ whole_rule least most (view value.now) }
{
    match value {
        Value::Integer(number) => rule_if(!is_within(*number, least, most), 5),
        _ => 4,
    }
}

/// Whether a number is in a range, both ends included.
fn is_within(number: i64, least: u64, most: u64) -> bool
    ensures { result ≡ is_within least most number }
{
    match u64::try_from(number) {
        Ok(number) => least <= number && number <= most,
        Err(_) => false,
    }
}

/// The rule for which a number is refused; else 255.
fn said_rule(said: Result<u64, ValueFault>) -> u8
    ensures { result ≡ said_rule said }
{
    match said {
        Ok(_) => NO_RULE,
        Err(fault) => fault.rule(),
    }
}

/// A rule that is broken; else 255.
pub(crate) fn rule_if(broken: bool, rule: u8) -> u8
    ensures { result ≡ rule_if broken rule }
{
    if broken { rule } else { NO_RULE }
}
