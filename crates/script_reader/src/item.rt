//! The items of a list, each with what its keys that count ticks say.
ghost use Rattle.std.specs.Prelude.{◌≡◌, All, map, IfOk};
ghost use Rattle.lengths.specs.Lengths.{IsTick};
ghost use Rattle.toml.specs.View.{view};
ghost use Rattle.script_reader.specs.Rules.{item_of, IsRead};

use crate::numbers::EntryNumbers;
use base::Memory;
use std::alloc::Global;
use toml::Value;

/// An item, and what its keys that count ticks say.
#[derive(Clone, Copy, Debug)]
pub struct WrittenItem<'a> {
    pub item: &'a Value,
    pub numbers: EntryNumbers,
}

/// These items in their order, each with its numbers. A tick has so many microseconds.
///
/// # Errors
///
/// Memory was refused.
pub fn written_items<'a>(
    alloc: Global,
    items: &'a [Value],
    tick: u64,
) -> Result<Vec<WrittenItem<'a>>, Memory>
    requires { IsTick tick }
    ensures items { IfOk result (λ made. map item_of made.items ≡ map view items.now) }
    ensures read { IfOk result (λ made. All (IsRead tick) made.items) }
{
    let mut made = Vec::new(alloc);
    for item in items {
        made.push(read_item(item, tick))?;
    }
    Ok(made)
}

/// One item with its numbers.
fn read_item(item: &Value, tick: u64) -> WrittenItem<'_>
    requires { IsTick tick }
    ensures item { item_of result ≡ view item.now }
    ensures read { IsRead tick result }
{
    WrittenItem {
        item,
        numbers: EntryNumbers::of(item, tick),
    }
}
