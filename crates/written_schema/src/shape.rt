//! Which of the rules 2 to 5 a document breaks: keys that are missing or unknown, and values of another kind or out of range.
ghost use Rattle.std.specs.Prelude.{◌≡◌, map, true, Some, option_map};
ghost use Rattle.std.specs.List.{list_all};
ghost use Rattle.toml.specs.View.{view};
ghost use Rattle.lengths.specs.Lengths.{IsTick};
ghost use Rattle.schema.specs.Tree.{items_of};
ghost use Rattle.schema.specs.Shape.{is_empty_list};
ghost use Rattle.written_schema.specs.Lowest.{Lowest};
ghost use Rattle.written_schema.specs.Shape.{has_no_item, has_unknown_key, is_named, IsBelowRule, IsInnerRule, IsKeyRule, IsRowRule, IsShapeRule, IsTableRule, IsThereRule, Requires, SaysOver0};
ghost use Rattle.written_schema.specs.Values.{is_low};

use crate::rows::{WrittenKind, WrittenRow, WrittenSection};
use crate::values::{NO_RULE, rule_if, value_rule};
use schema::Absence;
use toml::Value;
use written_values::ticks_in;

/// The largest number of ticks that a text can say.
const MOST_TICKS: u64 = 0x7fff_ffff_ffff_ffff;

/// The lowest of rules 2 to 5 that a document of version 4 breaks outside its six lists about members; else 255. A tick has so
/// many microseconds.
pub fn shape_rule(document: &Value, tick: u64) -> u8
    requires { IsTick tick }
    ensures { IsShapeRule tick (view document.now) result }
{
    let top = table_rule(WrittenSection::Top, document, tick);
    let below = below_rule(WrittenSection::Top.rows(), document, tick);
    top.min(below)
}

/// The lowest rule that the tables below the top break.
fn below_rule(rows: &[WrittenRow], document: &Value, tick: u64) -> u8
    requires { IsTick tick }
    ensures { Lowest (IsBelowRule tick (view document.now)) rows.now result }
{
    let mut low = NO_RULE;
    for row in rows {
        low = low.min(inner_rule(row.kind, document.get(row.key.text()), tick));
    }
    low
}

/// The lowest rule that a key's table breaks, or one of the items of its list.
fn inner_rule(kind: WrittenKind, value: Option<&Value>, tick: u64) -> u8
    requires { IsTick tick }
    ensures { IsInnerRule tick kind (option_map (λ v. view v.now) value.entry) result }
{
    match value {
        Some(value) => inner_rule_of(kind, value, tick),
        None => NO_RULE,
    }
}

/// The same of a value that is there.
fn inner_rule_of(kind: WrittenKind, value: &Value, tick: u64) -> u8
    requires { IsTick tick }
    ensures { IsInnerRule tick kind (Some (view value.now)) result }
{
    match kind {
        WrittenKind::Table(section) => table_rule(section, value, tick),
        WrittenKind::List(section) => items_rule(section, items(value), tick),
        WrittenKind::Ticks { .. }
        | WrittenKind::Share
        | WrittenKind::Tick
        | WrittenKind::Whole { .. }
        | WrittenKind::Switch
        | WrittenKind::Text
        | WrittenKind::Script => NO_RULE,
    }
}

/// The lowest rule that one of these items breaks.
fn items_rule(section: WrittenSection, items: &[Value], tick: u64) -> u8
    requires { IsTick tick }
    ensures { Lowest (λ v. IsTableRule tick section (view v)) items.now result }
{
    let mut low = NO_RULE;
    for item in items {
        low = low.min(table_rule(section, item, tick));
    }
    low
}

/// The lowest rule that a value breaks that has to be a table of this section.
fn table_rule(section: WrittenSection, value: &Value, tick: u64) -> u8
    requires { IsTick tick }
    ensures { IsTableRule tick section (view value.now) result }
{
    match value {
        Value::Table(_) => {
            let rows = section.rows();
            rule_if(has_unknown_key(rows, value), 3).min(keys_rule(rows, value, tick))
        }
        _ => 4,
    }
}

/// The lowest rule that the rows' keys break in a table.
fn keys_rule(rows: &[WrittenRow], table: &Value, tick: u64) -> u8
    requires tick { IsTick tick }
    requires low { list_all (λ row. is_low row.kind) rows.now ≡ true }
    ensures { Lowest (IsRowRule tick (view table.now)) rows.now result }
{
    let mut low = NO_RULE;
    for row in rows {
        low = low.min(row_rule(row, table, tick));
    }
    low
}

/// The rule that a row's key breaks in a table.
fn row_rule(row: &WrittenRow, table: &Value, tick: u64) -> u8
    requires tick { IsTick tick }
    requires low { is_low row.now.kind ≡ true }
    ensures { IsRowRule tick (view table.now) row.now result }
{
    let required = is_required(row.absence, table, tick);
    key_rule(required, row.kind, table.get(row.key.text()), tick)
}

/// Whether a table may not lack a key.
fn is_required(absence: Absence, table: &Value, tick: u64) -> bool
    requires { IsTick tick }
    ensures { Requires tick (view table.now) absence result }
{
    match absence {
        Absence::Refused => true,
        Absence::RefusedOver0(other) => is_over_0(table.get(other.text()), tick),
        Absence::Default(_) | Absence::Off | Absence::Optional => false,
    }
}

/// Whether a value says a number of ticks over 0.
fn is_over_0(value: Option<&Value>, tick: u64) -> bool
    requires { IsTick tick }
    ensures { SaysOver0 tick (option_map (λ v. view v.now) value.entry) result }
{
    match value {
        Some(value) => ticks_in(value, tick, 1, MOST_TICKS).is_ok(),
        None => false,
    }
}

/// Rule 2 where a required key isn't there; else the rule that its value breaks.
fn key_rule(required: bool, kind: WrittenKind, value: Option<&Value>, tick: u64) -> u8
    requires tick { IsTick tick }
    requires low { is_low kind ≡ true }
    ensures { IsKeyRule tick required kind (option_map (λ v. view v.now) value.entry) result }
{
    match value {
        Some(value) => there_rule(required && has_no_item(kind, value), kind, value, tick),
        None => rule_if(required, 2),
    }
}

/// Rule 2 where a list lacks an item; else the rule that the value breaks.
fn there_rule(lacking: bool, kind: WrittenKind, value: &Value, tick: u64) -> u8
    requires tick { IsTick tick }
    requires low { is_low kind ≡ true }
    ensures { IsThereRule tick lacking kind (view value.now) result }
{
    if lacking {
        2
    } else {
        value_rule(kind, value, tick)
    }
}

/// Whether a list that is asked for has no item.
fn has_no_item(kind: WrittenKind, value: &Value) -> bool
    ensures { result ≡ has_no_item kind (view value.now) }
{
    match kind {
        WrittenKind::List(_) => is_empty_list(value),
        WrittenKind::Ticks { .. }
        | WrittenKind::Share
        | WrittenKind::Tick
        | WrittenKind::Whole { .. }
        | WrittenKind::Switch
        | WrittenKind::Text
        | WrittenKind::Table(_)
        | WrittenKind::Script => false,
    }
}

/// Whether a value is a list with no item.
fn is_empty_list(value: &Value) -> bool
    ensures { result ≡ is_empty_list (view value.now) }
{
    match value {
        Value::Array(items) => items.is_empty(),
        _ => false,
    }
}

/// The items of a list; none of another value.
fn items(value: &Value) -> &[Value]
    ensures { map view result.now ≡ items_of (view value.now) }
{
    match value {
        Value::Array(items) => items.as_slice(),
        _ => &[],
    }
}

/// Whether a table has a key that none of the rows names.
fn has_unknown_key(rows: &[WrittenRow], value: &Value) -> bool
    ensures { result ≡ has_unknown_key rows.now (view value.now) }
{
    match value {
        Value::Table(table) => table.keys().any(|key| !is_named(rows, key.as_str())),
        _ => false,
    }
}

/// Whether one of the rows is that of the key that is spelt so.
fn is_named(rows: &[WrittenRow], name: &str) -> bool
    ensures { result ≡ is_named rows.now name.now }
{
    rows.iter().any(|row| row.key.text() == name)
}
