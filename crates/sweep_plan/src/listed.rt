//! The keys of items of lists, by their names.
ghost use Rattle.std.specs.Prelude.{◌≡◌, ◌∷◌, [], map, IfSome, IsNone};
ghost use Rattle.std.specs.List.{flat_map};
ghost use Rattle.sweep_plan.specs.Keys.{in_table, keys_of_items, keys_of_table, listed, of_entry};
ghost use Rattle.sweep_plan.specs.Listed.{IsItemIn, IsNamedIn, NamesNone};
ghost use Rattle.sweep_plan.specs.declared.items.ItemName.{ItemName as Wanted};

use crate::entry_keys::{EntryKey, entry_keys};
use crate::items::ItemName;
use crate::keys::{SweptKey, is_plain};
use crate::set_keys::SetKey;
use schema::{FormatKey, KeyRule, Kind, Section, Version};

/// The key of this name among those of items of lists: the list's name, that of the item and the key's, with dots
/// between them.
#[tactic(auto, unfolding(crate::specs::Keys::listed))]
pub(crate) fn listed_key(word: &[u8]) -> Option<SweptKey>
    ensures some { IfSome result (IsNamedIn listed word.now) }
    ensures none { IsNone result → NamesNone listed word.now }
{
    match key_of_lists(Section::Top.rows(Version::Four), word) {
        Some(key) => Some(key),
        None => key_of_entries(entry_keys(), word),
    }
}

/// The key of this name among these.
fn key_of_entries(entries: &[EntryKey], word: &[u8]) -> Option<SweptKey>
    ensures some { IfSome result (IsNamedIn (map of_entry entries.now) word.now) }
    ensures none { IsNone result → NamesNone (map of_entry entries.now) word.now }
{
    for entry in entries {
        if let Some(key) = key_of_item(entry.list, entry.key, word) {
            return Some(key);
        }
    }
    None
}

/// The key of this name among those that rows of the whole text give to items.
fn key_of_lists(rows: &[KeyRule], word: &[u8]) -> Option<SweptKey>
    ensures some { IfSome result (IsNamedIn (flat_map keys_of_items rows.now) word.now) }
    ensures none { IsNone result → NamesNone (flat_map keys_of_items rows.now) word.now }
{
    for row in rows {
        if let Some(key) = key_of_list(row, word) {
            return Some(key);
        }
    }
    None
}

/// The key of this name among those that a row of the whole text gives to items.
fn key_of_list(row: &KeyRule, word: &[u8]) -> Option<SweptKey>
    ensures some { IfSome result (IsNamedIn (keys_of_items row.now) word.now) }
    ensures none { IsNone result → NamesNone (keys_of_items row.now) word.now }
{
    match row.kind {
        Kind::List(section) => key_in_list(row.key, section.rows(Version::Four), word),
        Kind::Whole { .. } | Kind::Switch | Kind::Text | Kind::Table(_) => None,
    }
}

/// The key of this name among those that rows give to the items of a list.
fn key_in_list(list: FormatKey, rows: &[KeyRule], word: &[u8]) -> Option<SweptKey>
    ensures some { IfSome result (IsNamedIn (keys_of_table list rows.now) word.now) }
    ensures none { IsNone result → NamesNone (keys_of_table list rows.now) word.now }
{
    for row in rows {
        if let Some(key) = key_of_row(list, row, word) {
            return Some(key);
        }
    }
    None
}

/// The key of this name where it is that which a row gives to the items of a list.
fn key_of_row(list: FormatKey, row: &KeyRule, word: &[u8]) -> Option<SweptKey>
    ensures some { IfSome result (IsNamedIn (keys_of_table list (row.now ∷ [])) word.now) }
    ensures none { IsNone result → NamesNone (keys_of_table list (row.now ∷ [])) word.now }
{
    if !is_plain(row.kind) {
        return None;
    }
    key_of_item(list, SetKey::Plain(row.key), word)
}

/// The key of this name where it is this key of an item of a list.
fn key_of_item(list: FormatKey, key: SetKey, word: &[u8]) -> Option<SweptKey>
    ensures some { IfSome result (IsNamedIn (in_table list key ∷ []) word.now) }
    ensures none { IsNone result → NamesNone (in_table list key ∷ []) word.now }
{
    match item_in(list.text().as_bytes(), key.text().as_bytes(), word) {
        Some(item) => Some(SweptKey {
            table: Some(list),
            item: Some(item),
            key,
        }),
        None => None,
    }
}

/// The item's name in a word that is the name of a list, that of an item and the key's, with dots between them.
fn item_in(list: &[u8], key: &[u8], word: &[u8]) -> Option<ItemName>
    ensures some { IfSome result (IsItemIn list.now key.now word.now) }
    ensures none { IsNone result → (item : Wanted) → ¬ (IsItemIn list.now key.now word.now item) }
{
    let Some(rest) = word.strip_prefix(list) else {
        return None;
    };
    let Some(front) = rest.strip_suffix(key) else {
        return None;
    };
    let Some(name) = front.strip_suffix(".".as_bytes()) else {
        return None;
    };
    ItemName::read(name)
}
