//! The values of a document's keys.
ghost use Rattle.std.specs.Prelude.{◌≡◌, ℕ, [], map, option_map, unwrap_or};
ghost use Rattle.toml.specs.View.{view};
ghost use Rattle.schema.specs.Tree.{items_at};
ghost use Rattle.schema.specs.Values.{default_of, whole_or, number_at, is_on, switch_at, is_set, switch_set, text_if, text_at};

use crate::schema::{Absence, FormatKey, Section, Version};
use crate::shape::{items, rule_named};
use toml::Value;

/// The items of the list of a key; none where no list is there.
pub fn items_at(key: FormatKey, tree: &Value) -> &[Value]
    ensures { map view result.now ≡ items_at key (view tree.now) }
{
    match tree.get(key.text()) {
        Some(value) => items(value),
        None => &[],
    }
}

/// The whole number of a key of a table. Where the table, the key or a whole number from 0 on isn't
/// there, the default that the key has in the section, or 0 where it has none.
#[tactic(auto, unfolding(crate::specs::Values::number_at))]
pub fn number(section: Section, key: FormatKey, table: Option<&Value>) -> u64
    ensures { result ≡ number_at section key (option_map (λ v. view v.now) table.entry) }
{
    match table {
        Some(table) => found_number(section, key, table.get(key.text())),
        None => default_of(section, key),
    }
}

/// The whole number from 0 on that is found at a key of the section, else the key's default, which is
/// looked up only then.
fn found_number(section: Section, key: FormatKey, value: Option<&Value>) -> u64
    ensures { result ≡ whole_or (default_of section key) (option_map (λ v. view v.now) value.entry) }
{
    let Some(Value::Integer(number)) = value else {
        return default_of(section, key);
    };
    match u64::try_from(*number) {
        Ok(number) => number,
        Err(_) => default_of(section, key),
    }
}

/// The switch of a key of a table; on where the table, the key or a boolean isn't there.
#[tactic(auto, unfolding(crate::specs::Values::switch_at))]
pub fn switch(key: FormatKey, table: Option<&Value>) -> bool
    ensures { result ≡ switch_at key (option_map (λ v. view v.now) table.entry) }
{
    match table {
        Some(table) => is_on(table.get(key.text())),
        None => true,
    }
}

/// Whether the switch that may be there is on.
fn is_on(value: Option<&Value>) -> bool
    ensures { result ≡ is_on (option_map (λ v. view v.now) value.entry) }
{
    match value {
        Some(Value::Boolean(switch)) => *switch,
        _ => true,
    }
}

/// The switch of a key of a table; off where the table, the key or a boolean isn't there.
#[tactic(auto, unfolding(crate::specs::Values::switch_set))]
pub fn switch_set(key: FormatKey, table: Option<&Value>) -> bool
    ensures { result ≡ switch_set key (option_map (λ v. view v.now) table.entry) }
{
    match table {
        Some(table) => is_set(table.get(key.text())),
        None => false,
    }
}

/// Whether the switch is there and on.
fn is_set(value: Option<&Value>) -> bool
    ensures { result ≡ is_set (option_map (λ v. view v.now) value.entry) }
{
    match value {
        Some(Value::Boolean(switch)) => *switch,
        _ => false,
    }
}

/// The whole number from 0 on that is there, else the default.
pub fn whole_or(default: u64, value: Option<&Value>) -> u64
    ensures { result ≡ whole_or default (option_map (λ v. view v.now) value.entry) }
{
    match value {
        Some(Value::Integer(number)) => u64::try_from(*number).unwrap_or(default),
        _ => default,
    }
}

/// The default of a key of a section, the same in each version.
fn default_of(section: Section, key: FormatKey) -> u64
    ensures { result ≡ default_of section key }
{
    match rule_named(section.rows(Version::Four), key.text()) {
        Some(row) => match row.absence {
            Absence::Default(number) => number,
            Absence::Refused | Absence::RefusedOver0(_) | Absence::Off | Absence::Optional => 0,
        },
        None => 0,
    }
}

/// The text of a key of a table, if a string is there.
#[tactic(auto, unfolding(crate::specs::Values::text_if))]
pub fn text_if(key: FormatKey, table: &Value) -> Option<&str>
    ensures { option_map (λ t. t.now) result ≡ text_if key (view table.now) }
{
    match table.get(key.text()) {
        Some(Value::String(text)) => Some(text.as_str()),
        _ => None,
    }
}

/// The text of a key of a table; empty where no string is there.
pub fn text(key: FormatKey, table: &Value) -> &str
    ensures { result.now ≡ text_at key (view table.now) }
{
    match text_if(key, table) {
        Some(text) => text,
        None => "",
    }
}
