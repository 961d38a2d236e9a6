//! By how much members are slow, entry by entry.
ghost use Rattle.std.specs.Prelude.{map, codes, IfOk};
ghost use Rattle.std.specs.List.{AllZip};
ghost use Rattle.lengths.specs.Lengths.{IsTick};
ghost use Rattle.toml.specs.View.{view};
ghost use Rattle.written_groups.specs.Values.{items_at};
ghost use Rattle.written_groups.specs.Groups.{IsExtraIn};

use crate::values::{items_at, number_at};
use base::Memory;
use std::alloc::Global;
use toml::Value;

/// By how much a member may be slow at the most.
const MOST_EXTRA: u64 = 0x100_0000;

/// By how much members are slow, entry by entry of a document. A tick has so many microseconds. What breaks a rule is 0.
///
/// # Errors
///
/// Memory was refused.
pub fn slow_extras(alloc: Global, document: &Value, tick: u64) -> Result<Vec<u64>, Memory>
    requires { IsTick tick }
    ensures { IfOk result (λ made. AllZip (IsExtraIn tick) (items_at (codes "slow") (view document.now)) made.items) }
{
    extras(alloc, items_at(document, "slow"), tick)
}

/// Those of these items.
fn extras(alloc: Global, items: &[Value], tick: u64) -> Result<Vec<u64>, Memory>
    requires { IsTick tick }
    ensures { IfOk result (λ made. AllZip (IsExtraIn tick) (map view items.now) made.items) }
{
    let mut made = Vec::new(alloc);
    for item in items {
        made.push(number_at(item, "extra", tick, 1, MOST_EXTRA))?;
    }
    Ok(made)
}
