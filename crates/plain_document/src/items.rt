//! The lines of a table, and of an item of a list.
ghost use Rattle.std.specs.Prelude.{◌≡◌, map, string_bytes, option_map, OnOk};
ghost use Rattle.lengths.specs.Lengths.{IsTick};
ghost use Rattle.plain_text.specs.Document.{expression_of};
ghost use Rattle.toml.specs.View.{view};
ghost use Rattle.plain_document.specs.Pairs.{end_at, goes_both_ways, is_on, AddsItem, AddsTable, AddsWay};

use crate::keys::Way;
use crate::pairs::add_pairs;
use base::Memory;
use plain_text::PlainLine;
use toml::Value;

/// Adds the lines of a table of this name, with these keys in this order. A tick has so many microseconds.
///
/// # Errors
///
/// Memory was refused.
pub fn add_table<'a>(
    lines: &mut Vec<PlainLine<'a>>,
    section: &'a str,
    keys: &'a [String],
    table: &'a Value,
    tick: u64,
) -> Result<(), Memory>
    requires { IsTick tick }
    ensures { OnOk result (AddsTable tick section.now (view table.now) (map string_bytes keys.now) (map expression_of lines.old.items) (map expression_of lines.new.items)) }
{
    lines.push(PlainLine::Table(section))?;
    add_pairs(lines, section, Way::Straight, keys, table, tick)
}

/// Adds the lines of an item of the list of this name, with these keys in this order; right behind it, where it goes both
/// ways, the same with its ends exchanged. A tick has so many microseconds.
///
/// # Errors
///
/// Memory was refused.
pub fn add_item<'a>(
    lines: &mut Vec<PlainLine<'a>>,
    section: &'a str,
    keys: &'a [String],
    item: &'a Value,
    tick: u64,
) -> Result<(), Memory>
    requires { IsTick tick }
    ensures { OnOk result (AddsItem tick section.now (view item.now) (map string_bytes keys.now) (map expression_of lines.old.items) (map expression_of lines.new.items)) }
{
    add_way(lines, section, Way::Straight, keys, item, tick)?;
    if goes_both_ways(section, item) {
        add_way(lines, section, Way::Turned, keys, item, tick)
    } else {
        Ok(())
    }
}

/// Adds the lines of an item, one way.
fn add_way<'a>(
    lines: &mut Vec<PlainLine<'a>>,
    section: &'a str,
    way: Way,
    keys: &'a [String],
    item: &'a Value,
    tick: u64,
) -> Result<(), Memory>
    requires { IsTick tick }
    ensures { OnOk result (AddsWay tick section.now way (view item.now) (map string_bytes keys.now) (map expression_of lines.old.items) (map expression_of lines.new.items)) }
{
    lines.push(PlainLine::Item(section))?;
    add_pairs(lines, section, way, keys, item, tick)
}

/// Whether an item is a path or cut between two groups whose `both` is on.
fn goes_both_ways(section: &str, item: &Value) -> bool
    ensures { result ≡ goes_both_ways section.now (view item.now) }
{
    (section == "path" || section == "cut")
        && (is_on(item.get("both")) && end_at(item, "from") != end_at(item, "to"))
}

/// Whether a switch is there and on.
fn is_on(value: Option<&Value>) -> bool
    ensures { result ≡ is_on (option_map (λ v. view v.now) value.entry) }
{
    match value {
        Some(Value::Boolean(on)) => *on,
        _ => false,
    }
}

/// The group at an end.
fn end_at<'a>(item: &'a Value, key: &str) -> &'a str
    ensures { result.now ≡ end_at key.now (view item.now) }
{
    match item.get(key) {
        Some(Value::String(name)) => name.as_str(),
        _ => "",
    }
}
