//! The groups of a document as it writes them.
ghost use Rattle.std.specs.Prelude.{◌≡◌, map, codes, string_bytes, IfOk};
ghost use Rattle.std.specs.List.{AllZip};
ghost use Rattle.lengths.specs.Lengths.{IsTick};
ghost use Rattle.toml.specs.View.{view};
ghost use Rattle.written_groups.specs.Values.{items_at};
ghost use Rattle.written_groups.specs.Groups.{IsGroupIn};

use crate::values::{count_at, items_at, number_at, text_at};
use base::{Memory, Moment};
use std::alloc::Global;
use toml::Value;
use written_names::WrittenGroup;

/// The last moment that a text may name.
const LAST_MOMENT: u64 = 0x100_0000_0000;

/// The groups of a document in their order. A tick has so many microseconds. What breaks a rule is empty or 0.
///
/// # Errors
///
/// Memory was refused.
pub fn written_groups(
    alloc: Global,
    document: &Value,
    tick: u64,
) -> Result<Vec<WrittenGroup>, Memory>
    requires { IsTick tick }
    ensures { IfOk result (λ made. AllZip (IsGroupIn tick) (items_at (codes "group") (view document.now)) made.items) }
{
    groups(alloc, items_at(document, "group"), tick)
}

/// The groups of these items.
fn groups(alloc: Global, items: &[Value], tick: u64) -> Result<Vec<WrittenGroup>, Memory>
    requires { IsTick tick }
    ensures { IfOk result (λ made. AllZip (IsGroupIn tick) (map view items.now) made.items) }
{
    let mut made = Vec::new(alloc);
    for item in items {
        made.push(group(alloc, item, tick)?)?;
    }
    Ok(made)
}

/// One group.
fn group(alloc: Global, item: &Value, tick: u64) -> Result<WrittenGroup, Memory>
    requires { IsTick tick }
    ensures { IfOk result (IsGroupIn tick (view item.now)) }
{
    Ok(WrittenGroup {
        name: copied(alloc, text_at(item, "name"))?,
        count: count_at(item),
        start: Moment(number_at(item, "start", tick, 0, LAST_MOMENT)),
    })
}

/// A name of its own.
fn copied(alloc: Global, name: &str) -> Result<String, Memory>
    ensures { IfOk result (λ made. string_bytes made ≡ name.now) }
{
    match String::from_str(alloc, name) {
        Ok(name) => Ok(name),
        Err(_) => Err(Memory),
    }
}
