//! The lowest rule that an item of a list breaks as it is written.
ghost use Rattle.std.specs.Prelude.{◌≡◌, not};
ghost use Rattle.std.specs.List.{list_any};
ghost use Rattle.toml.specs.View.{view};
ghost use Rattle.schema.specs.Tree.{keys_of};
ghost use Rattle.script_reader.specs.Keys.{is_key};
ghost use Rattle.script_reader.specs.Rules.{has_other_kind, has_other_texts, has_outside, has_too_many, has_unknown_key, is_empty_list, item_of, item_rule, lacks_some, names_rule};

use crate::item::WrittenItem;
use crate::keys::is_key;
use crate::names::{has_bad_name, names_nobody};
use crate::numbers::is_fault;
use crate::values::{count_at, has_other_names, is_other_text, members_of};
use toml::Value;
use written_entries::{EntryKeys, ScriptList};
use written_names::Roster;
use written_values::ValueFault;

/// The number for no rule, over that of each.
pub(crate) const NO_RULE: u8 = 255;

/// The most members that an item may name.
const MOST_NAMED: usize = 16_384;

/// The lowest of rules 2 to 7, or 9 of keys, that an item of the list breaks; else 255.
#[tactic(auto, unfolding(crate::specs::Rules::item_rule))]
pub(crate) fn item_rule(list: ScriptList, roster: &Roster, it: &WrittenItem) -> u8
    ensures { result ≡ item_rule list roster.now (item_of it.now) it.now.numbers }
{
    if lacks_some(list, it.item) {
        2
    } else if has_unknown_key(list, it.item) {
        3
    } else if has_other_kind(it) {
        4
    } else if has_outside(it) {
        5
    } else {
        names_rule(list, roster, it.item)
    }
}

/// The lowest of rules 6, 7 and 9 of keys that an item breaks; else 255.
fn names_rule(list: ScriptList, roster: &Roster, item: &Value) -> u8
    ensures { result ≡ names_rule list roster.now (view item.now) }
{
    if has_bad_name(item) {
        6
    } else if names_nobody(roster, item) {
        7
    } else if EntryKeys::of(item).exclude(list) || has_too_many(item) {
        9
    } else {
        NO_RULE
    }
}

/// Rule 2: whether a table lacks a key.
fn lacks_some(list: ScriptList, item: &Value) -> bool
    ensures { result ≡ lacks_some list (view item.now) }
{
    item.is_table() && EntryKeys::of(item).lack(list)
}

/// Rule 3: whether a table has a key that an entry of the list may not have.
fn has_unknown_key(list: ScriptList, item: &Value) -> bool
    ensures { result ≡ has_unknown_key list (view item.now) }
{
    match item {
        Value::Table(table) => table.keys().any(|key| !is_key(list, key.as_str())),
        _ => false,
    }
}

/// Rule 4: whether an item is no table, or one of its values is of another kind.
fn has_other_kind(it: &WrittenItem) -> bool
    ensures { result ≡ has_other_kind (item_of it.now) it.now.numbers }
{
    !it.item.is_table()
        || (has_other_texts(it.item)
            || (is_fault(ValueFault::WrongKind, count_at(it.item))
                || it.numbers.any_fault(ValueFault::WrongKind)))
}

/// Whether something else than a name stands where one has to.
fn has_other_texts(item: &Value) -> bool
    ensures { result ≡ has_other_texts (view item.now) }
{
    is_other_text(item, "member")
        || (is_other_text(item, "group")
            || (is_other_text(item, "contact")
                || (is_other_text(item, "name") || has_other_names(item))))
}

/// Rule 5: whether a number is outside its range, or `members` names nobody.
fn has_outside(it: &WrittenItem) -> bool
    ensures { result ≡ has_outside (item_of it.now) it.now.numbers }
{
    is_empty_list(it.item)
        || (is_fault(ValueFault::OutOfRange, count_at(it.item))
            || it.numbers.any_fault(ValueFault::OutOfRange))
}

/// Whether `members` is there and empty.
fn is_empty_list(item: &Value) -> bool
    ensures { result ≡ is_empty_list (view item.now) }
{
    item.get("members").is_some() && members_of(item).len() == 0
}

/// Whether `members` names more than a text may have, so that one of them stands there twice.
fn has_too_many(item: &Value) -> bool
    ensures { result ≡ has_too_many (view item.now) }
{
    members_of(item).len() > MOST_NAMED
}
