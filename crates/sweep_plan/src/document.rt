//! The document of a setting: that of a text, with the setting's values in it.
ghost use Rattle.std.specs.Prelude.{◌≡◌, ◌<◌, ◌^◌, All, fold, Some, IfOk};
ghost use Rattle.std.specs.Option.{ForSome};
ghost use Rattle.toml.specs.View.{view};
ghost use Rattle.sweep_plan.specs.Values.{FitsToml};
ghost use Rattle.sweep_plan.specs.Document.{data_of, table_at, with_key, with_choice, with_value_in, with_values};

use crate::choice::Choice;
use crate::items::ItemName;
use crate::listed_values::with_listed;
use crate::set_keys::SetKey;
use crate::values::SweptValue;
use base::Memory;
use schema::FormatKey;
use std::alloc::Global;
use toml::{Table, Value};

/// The document with the values of a setting set at their keys, and the seed at its own, where one is
/// given. A table that isn't there is made. Where something else than a table stands in a table's place,
/// it stays. The value of an item's key is set in each item of its list that the key's name means, and all else stays.
#[tactic(auto, unfolding(crate::specs::Document::with_values))]
pub fn with_values(
    alloc: Global,
    document: &Value,
    setting: &[Choice],
    seed: Option<u64>,
) -> Result<Value, Memory>
    requires fits { All (λ c. FitsToml c.value) setting.now }
    requires low { ForSome seed (λ n. n < 2 ^ 63) }
    ensures { IfOk result (λ tree. view tree ≡ with_values (view document.now) setting.now seed) }
{
    let tree = with_setting(alloc, document, setting)?;
    match seed {
        Some(seed) => with_key(
            alloc,
            tree,
            SetKey::Plain(FormatKey::Seed),
            Value::Integer(seed as i64),
        ),
        None => Ok(tree),
    }
}

/// The document with the values of a setting.
fn with_setting(alloc: Global, document: &Value, setting: &[Choice]) -> Result<Value, Memory>
    requires { All (λ c. FitsToml c.value) setting.now }
    ensures { IfOk result (λ tree. view tree ≡ fold with_choice (view document.now) setting.now) }
{
    let mut tree = document.clone()?;
    for choice in setting {
        tree = with_choice(alloc, tree, choice)?;
    }
    Ok(tree)
}

/// The document with one value at its key.
fn with_choice(alloc: Global, tree: Value, choice: &Choice) -> Result<Value, Memory>
    requires { FitsToml choice.now.value }
    ensures { IfOk result (λ v. view v ≡ with_choice (view tree) choice.now) }
{
    let key = choice.key.key;
    match choice.key.table {
        Some(table) => with_value_in(alloc, tree, table, choice.key.item, key, choice.value),
        None => with_key(alloc, tree, key, data(choice.value)),
    }
}

/// The document with one value at the key of a table, or of the items of this name of a list.
fn with_value_in(
    alloc: Global,
    tree: Value,
    table: FormatKey,
    item: Option<ItemName>,
    key: SetKey,
    value: SweptValue,
) -> Result<Value, Memory>
    requires { FitsToml value }
    ensures { IfOk result (λ v. view v ≡ with_value_in (Some table) item key (data_of value) (view tree)) }
{
    match item {
        Some(item) => with_listed(alloc, tree, table, item, key, value),
        None => {
            let members = with_key(alloc, table_at(alloc, &tree, table)?, key, data(value))?;
            with_key(alloc, tree, SetKey::Plain(table), members)
        }
    }
}

/// What stands at the key of a table, or an empty table.
fn table_at(alloc: Global, tree: &Value, table: FormatKey) -> Result<Value, Memory>
    ensures { IfOk result (λ v. view v ≡ table_at table (view tree.now)) }
{
    match tree.get(table.text()) {
        Some(value) => Ok(value.clone()?),
        None => Ok(Value::Table(Table::new(alloc))),
    }
}

/// A table with this value at this key; any other value as it is.
pub(crate) fn with_key(
    alloc: Global,
    tree: Value,
    key: SetKey,
    value: Value,
) -> Result<Value, Memory>
    ensures { IfOk result (λ v. view v ≡ with_key key (view value) (view tree)) }
{
    match tree {
        Value::Table(mut members) => {
            let name = String::from_str(alloc, key.text())?;
            drop(members.insert(name, value)?);
            Ok(Value::Table(members))
        }
        other => Ok(other),
    }
}

/// The value as it stands in a document.
pub(crate) fn data(value: SweptValue) -> Value
    requires { FitsToml value }
    ensures { view result ≡ data_of value }
{
    match value {
        SweptValue::Whole(number) => Value::Integer(number as i64),
        SweptValue::Switch(switch) => Value::Boolean(switch),
    }
}
