//! Whether a document has the items whose keys are set.
ghost use Rattle.std.specs.Prelude.{◌≡◌, Some, IfOk};
ghost use Rattle.std.specs.List.{count_by};
ghost use Rattle.toml.specs.View.{view};
ghost use Rattle.sweep_plan.specs.Missing.{is_missing, meant_count, missing_of};

use crate::items::ItemName;
use crate::keys::SweptKey;
use crate::meant::marks;
use crate::swept_keys::Swept;
use base::Memory;
use schema::{FormatKey, items_at};
use std::alloc::Global;
use toml::Value;

/// The first of the swept keys' keys whose name means no item of the document, or more than one; none where each means one.
/// Where it means none, `with_values` sets nothing at that key; where it means two, it sets both.
pub fn missing_item(
    alloc: Global,
    swept_keys: &[Swept],
    document: &Value,
) -> Result<Option<SweptKey>, Memory>
    ensures { IfOk result (λ missing. missing ≡ missing_of (view document.now) swept_keys.now) }
{
    for swept in swept_keys {
        let key = swept.key();
        if is_missing(alloc, key, document)? {
            return Ok(Some(key));
        }
    }
    Ok(None)
}

/// Whether a key stands in no item, or in more than one.
fn is_missing(alloc: Global, key: SweptKey, document: &Value) -> Result<bool, Memory>
    ensures { IfOk result (λ it. it ≡ is_missing (view document.now) key) }
{
    let count = items_meant(alloc, key, document)?;
    Ok(count != 1)
}

/// How many items of its list a key's name means; 1 for a key outside lists.
pub fn items_meant(alloc: Global, key: SweptKey, document: &Value) -> Result<usize, Memory>
    ensures { IfOk result (λ count. count ≡ meant_count (view document.now) key.table key.item) }
{
    match key.table {
        Some(list) => match key.item {
            Some(item) => count_meant(alloc, list, item, document),
            None => Ok(1),
        },
        None => Ok(1),
    }
}

/// How many items of the list of a key a name means.
fn count_meant(
    alloc: Global,
    list: FormatKey,
    item: ItemName,
    document: &Value,
) -> Result<usize, Memory>
    ensures { IfOk result (λ count. count ≡ meant_count (view document.now) (Some list) (Some item)) }
{
    let name = item.text(alloc)?;
    let marks = marks(alloc, items_at(list, document), name.as_str())?;
    Ok(count_marked(&marks))
}

/// How many items are marked.
fn count_marked(marks: &[bool]) -> usize
    ensures { result ≡ count_by (λ meant. meant) marks.now }
{
    marks.iter().filter(|meant| **meant).count()
}
