//! Values at keys of items of lists.
ghost use Rattle.std.specs.Prelude.{◌≡◌, length, map, option_map, IfOk};
ghost use Rattle.toml.specs.View.{view};
ghost use Rattle.schema.specs.Tree.{value_at};
ghost use Rattle.sweep_plan.specs.Items.{item_text};
ghost use Rattle.sweep_plan.specs.Meant.{marks_of};
ghost use Rattle.sweep_plan.specs.Values.{FitsToml};
ghost use Rattle.sweep_plan.specs.Document.{data_of, with_item, with_items, with_listed, with_marked};

use crate::document::{data, with_key};
use crate::items::ItemName;
use crate::meant::marks;
use crate::set_keys::SetKey;
use crate::values::SweptValue;
use base::Memory;
use schema::FormatKey;
use std::alloc::Global;
use toml::Value;

/// The document with one value at the key of each item of a list that this name means. Where no list is, it stays.
pub(crate) fn with_listed(
    alloc: Global,
    tree: Value,
    list: FormatKey,
    item: ItemName,
    key: SetKey,
    value: SweptValue,
) -> Result<Value, Memory>
    requires { FitsToml value }
    ensures { IfOk result (λ v. view v ≡ with_listed list (item_text item) key (data_of value) (view tree)) }
{
    let name = item.text(alloc)?;
    match changed_list(alloc, &tree, list, name.as_str(), key, value)? {
        Some(changed) => with_key(alloc, tree, SetKey::Plain(list), changed),
        None => Ok(tree),
    }
}

/// The list that stands at a key, with the value in its items that the name means; none where nothing stands there.
fn changed_list(
    alloc: Global,
    tree: &Value,
    list: FormatKey,
    name: &str,
    key: SetKey,
    value: SweptValue,
) -> Result<Option<Value>, Memory>
    requires { FitsToml value }
    ensures { IfOk result (λ changed. option_map view changed ≡ option_map (with_items name.now key (data_of value)) (value_at list (view tree.now))) }
{
    match tree.get(list.text()) {
        Some(items) => Ok(Some(with_items(alloc, items, name, key, value)?)),
        None => Ok(None),
    }
}

/// A list with the value in its items that the name means; any other value as it is.
fn with_items(
    alloc: Global,
    list: &Value,
    name: &str,
    key: SetKey,
    value: SweptValue,
) -> Result<Value, Memory>
    requires { FitsToml value }
    ensures { IfOk result (λ v. view v ≡ with_items name.now key (data_of value) (view list.now)) }
{
    match list {
        Value::Array(items) => {
            let changed = with_meant(alloc, items.as_slice(), name, key, value)?;
            Ok(Value::Array(changed))
        }
        other => Ok(other.clone()?),
    }
}

/// The items, with the value in those that the name means.
fn with_meant(
    alloc: Global,
    items: &[Value],
    name: &str,
    key: SetKey,
    value: SweptValue,
) -> Result<Vec<Value>, Memory>
    requires { FitsToml value }
    ensures { IfOk result (λ changed. map view changed.items ≡ with_marked key (data_of value) (marks_of name.now (map view items.now)) (map view items.now)) }
{
    let marks = marks(alloc, items, name)?;
    with_marked(alloc, items, &marks, key, value)
}

/// The items, with the value in those that are marked.
fn with_marked(
    alloc: Global,
    items: &[Value],
    marks: &[bool],
    key: SetKey,
    value: SweptValue,
) -> Result<Vec<Value>, Memory>
    requires fits { FitsToml value }
    requires each { length marks.now ≡ length items.now }
    ensures { IfOk result (λ changed. map view changed.items ≡ with_marked key (data_of value) marks.now (map view items.now)) }
{
    let mut changed = Vec::new(alloc);
    for (place, item) in items.iter().enumerate() {
        changed.push(with_item(alloc, item, marks[place], key, value)?)?;
    }
    Ok(changed)
}

/// An item with the value, where it is meant.
fn with_item(
    alloc: Global,
    item: &Value,
    is_meant: bool,
    key: SetKey,
    value: SweptValue,
) -> Result<Value, Memory>
    requires { FitsToml value }
    ensures { IfOk result (λ v. view v ≡ with_item key (data_of value) is_meant (view item.now)) }
{
    let copy = item.clone()?;
    if is_meant {
        return with_key(alloc, copy, key, data(value));
    }
    Ok(copy)
}
