//! The lines of a table's keys.
ghost use Rattle.std.specs.Prelude.{◌≡◌, map, string_bytes, OnOk};
ghost use Rattle.lengths.specs.Lengths.{IsTick};
ghost use Rattle.plain_text.specs.Document.{expression_of};
ghost use Rattle.toml.specs.View.{view};
ghost use Rattle.plain_document.specs.Pairs.{AddsPair, AddsPairs};

use crate::keys::{Way, kind_of, read_key};
use crate::values::plain_value;
use base::Memory;
use plain_text::PlainLine;
use toml::Value;

/// Adds the lines of these keys of a table of the section, in this order, but for those that have no plain value. Turned, a
/// path or cut has its ends exchanged. A tick has so many microseconds.
///
/// # Errors
///
/// Memory was refused.
pub fn add_pairs<'a>(
    lines: &mut Vec<PlainLine<'a>>,
    section: &str,
    way: Way,
    keys: &'a [String],
    table: &'a Value,
    tick: u64,
) -> Result<(), Memory>
    requires { IsTick tick }
    ensures { OnOk result (AddsPairs tick section.now way (view table.now) (map string_bytes keys.now) (map expression_of lines.old.items) (map expression_of lines.new.items)) }
{
    for key in keys {
        add_pair(lines, section, way, key.as_str(), table, tick)?;
    }
    Ok(())
}

/// Adds the line of one key.
pub(crate) fn add_pair<'a>(
    lines: &mut Vec<PlainLine<'a>>,
    section: &str,
    way: Way,
    key: &'a str,
    table: &'a Value,
    tick: u64,
) -> Result<(), Memory>
    requires { IsTick tick }
    ensures { OnOk result (AddsPair tick section.now way (view table.now) key.now (map expression_of lines.old.items) (map expression_of lines.new.items)) }
{
    let Some(value) = table.get(read_key(way, key)) else {
        return Ok(());
    };
    let Some(value) = plain_value(kind_of(section, key), value, tick) else {
        return Ok(());
    };
    lines.push(PlainLine::Pair { key, value })?;
    Ok(())
}
