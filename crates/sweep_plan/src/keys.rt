//! The keys of a scenario that a sweep may set.
ghost use Rattle.std.specs.Prelude.{◌≡◌, ◌++◌, ◌∷◌, ◌&&◌, [], codes, find, bytes_eq, string_bytes, IfOk, IfSome, IsNone, OnOk};
ghost use Rattle.std.specs.List.{flat_map};
ghost use Rattle.sweep_plan.specs.Keys.{dotted, key_name, is_plain, item_part, keys_of_table, keys_of_row, at_top, in_table, is_named, key_named, is_same, are_alike, are_same_items, are_same_tables, is_first_of, names_first, IsKeyNamed};
ghost use Rattle.sweep_plan.specs.Items.{item_text};
ghost use Rattle.sweep_plan.specs.declared.keys.SweptKey.{SweptKey as Wanted};
ghost use Rattle.sweep_plan.specs.declared.set_keys.SetKey.TheVariants.{Plain};

use crate::items::{ItemName, push_letters};
use crate::listed::listed_key;
use crate::set_keys::SetKey;
use base::Memory;
use schema::{FormatKey, KeyRule, Kind, Section, Version};
use std::alloc::Global;

/// A key of the format that a sweep may set.
#[derive(Clone, Copy, Debug, PartialEq, Eq)]
pub struct SweptKey {
    /// The key of the table or of the list in which it stands; none for a key of the whole text.
    pub table: Option<FormatKey>,
    /// The name of the list's item that has it; none for a key outside lists.
    pub item: Option<ItemName>,
    /// The key itself.
    pub key: SetKey,
}

impl SweptKey {
    /// The key of this name, as `end`, `swim.period`, `group.n.count` or `path.a.b.loss`, among those that may be set: all
    /// outside lists that stand for whole numbers and switches, but `seed`, and all such keys of the items of lists, also
    /// those that items have in written texts alone, as `pause.gc.lasts`.
    pub fn named(word: &str) -> Option<SweptKey>
        ensures some { IfSome result (IsKeyNamed word.now) }
        ensures none { IsNone result → (k : Wanted) → ¬ (IsKeyNamed word.now k) }
    {
        match outside_lists(word) {
            Some(key) => Some(key),
            None => listed_key(word.as_bytes()),
        }
    }

    /// The key's name, as `end`, `swim.period` or `group.n.count`.
    pub fn name(self, alloc: Global) -> Result<String, Memory>
        ensures { IfOk result (λ name. string_bytes name ≡ key_name self) }
    {
        let mut name = String::new(alloc);
        if let Some(table) = self.table {
            name.push_str(table.text())?;
            push_item(&mut name, self.item)?;
            name.push_str(".")?;
        }
        name.push_str(self.key.text())?;
        Ok(name)
    }
}

/// Appends the name of an item, where there is one.
fn push_item(text: &mut String, item: Option<ItemName>) -> Result<(), Memory>
    ensures { OnOk result (string_bytes text.new ≡ string_bytes text.old ++ item_part item) }
{
    match item {
        Some(item) => push_letters(text, &item.bytes),
        None => Ok(()),
    }
}

/// The key of this name among those outside lists.
#[tactic(auto, unfolding(crate::specs::Keys::key_named, crate::specs::Keys::settable))]
fn outside_lists(word: &str) -> Option<SweptKey>
    ensures { result ≡ key_named word.now }
{
    named_by_rows(Section::Top.rows(Version::Four), word)
}

/// The key of this name among those that rows of the whole text give.
fn named_by_rows(rows: &[KeyRule], word: &str) -> Option<SweptKey>
    ensures { result ≡ find (is_named word.now) (flat_map keys_of_row rows.now) }
{
    for row in rows {
        if let Some(key) = named_by_row(row, word) {
            return Some(key);
        }
    }
    None
}

/// The key of this name among those that a row of the whole text gives.
fn named_by_row(row: &KeyRule, word: &str) -> Option<SweptKey>
    ensures { result ≡ find (is_named word.now) (keys_of_row row.now) }
{
    if row.key.text() == FormatKey::Seed.text() {
        return None;
    }
    match row.kind {
        Kind::Whole { .. } | Kind::Switch => top_key(row.key, word),
        Kind::Table(section) => named_in_table(row.key, section.rows(Version::Four), word),
        Kind::Text | Kind::List(_) => None,
    }
}

/// The key of the whole text, where this is its name.
fn top_key(key: FormatKey, word: &str) -> Option<SweptKey>
    ensures { result ≡ find (is_named word.now) (at_top key ∷ []) }
{
    if key.text() == word {
        Some(SweptKey {
            table: None,
            item: None,
            key: SetKey::Plain(key),
        })
    } else {
        None
    }
}

/// The key of this name among those of a table with these rows.
fn named_in_table(table: FormatKey, rows: &[KeyRule], word: &str) -> Option<SweptKey>
    ensures { result ≡ find (is_named word.now) (keys_of_table table rows.now) }
{
    for row in rows {
        if is_row_named(table, row, word) {
            return Some(SweptKey {
                table: Some(table),
                item: None,
                key: SetKey::Plain(row.key),
            });
        }
    }
    None
}

/// Whether the row of a table gives the key of this name.
fn is_row_named(table: FormatKey, row: &KeyRule, word: &str) -> bool
    ensures { result ≡ (is_plain row.now.kind && is_named word.now (in_table table (Plain row.now.key))) }
{
    is_plain(row.kind)
        && is_dotted(
            table.text().as_bytes(),
            row.key.text().as_bytes(),
            word.as_bytes(),
        )
}

/// Whether a value of this kind is a whole number or a switch.
pub(crate) fn is_plain(kind: Kind) -> bool
    ensures { result ≡ is_plain kind }
{
    match kind {
        Kind::Whole { .. } | Kind::Switch => true,
        Kind::Text | Kind::Table(_) | Kind::List(_) => false,
    }
}

/// Whether the word is the table's name, a dot and the key's name.
fn is_dotted(table: &[u8], key: &[u8], word: &[u8]) -> bool
    ensures { result ≡ bytes_eq (dotted table.now key.now) word.now }
{
    match word.strip_prefix(table) {
        Some(rest) => is_after_dot(key, rest),
        None => false,
    }
}

/// Whether the bytes are a dot and the key's name.
fn is_after_dot(key: &[u8], bytes: &[u8]) -> bool
    ensures { result ≡ bytes_eq bytes.now (46 ∷ key.now) }
{
    match bytes {
        [] => false,
        [first, rest @ ..] => *first == b'.' && rest == key,
    }
}

/// Whether two keys are spelt alike, and so are their tables and items.
pub(crate) fn is_same(key: SweptKey, other: SweptKey) -> bool
    ensures { result ≡ is_same key other }
{
    are_alike(key, other) && are_same_items(key.item, other.item)
}

/// Whether two keys are spelt alike, and so are their tables.
fn are_alike(key: SweptKey, other: SweptKey) -> bool
    ensures { result ≡ are_alike key other }
{
    key.key.text() == other.key.text() && are_same_tables(key.table, other.table)
}

/// Whether two keys are alike, of names of which the one is the other with `.1` behind.
pub(crate) fn names_first(alloc: Global, key: SweptKey, other: SweptKey) -> Result<bool, Memory>
    ensures { IfOk result (λ it. it ≡ names_first key other) }
{
    if !are_alike(key, other) {
        return Ok(false);
    }
    if is_first_of(alloc, key.item, other.item)? {
        return Ok(true);
    }
    is_first_of(alloc, other.item, key.item)
}

/// Whether the one name is the other one with `.1` behind.
fn is_first_of(
    alloc: Global,
    item: Option<ItemName>,
    other: Option<ItemName>,
) -> Result<bool, Memory>
    ensures { IfOk result (λ it. it ≡ is_first_of item other) }
{
    match item {
        Some(item) => match other {
            Some(other) => has_one_behind(alloc, item, other),
            None => Ok(false),
        },
        None => Ok(false),
    }
}

/// Whether a name is another one with `.1` behind.
fn has_one_behind(alloc: Global, item: ItemName, other: ItemName) -> Result<bool, Memory>
    ensures { IfOk result (λ it. it ≡ bytes_eq (item_text item) (item_text other ++ codes ".1")) }
{
    let name = item.text(alloc)?;
    let mut first = other.text(alloc)?;
    first.push_str(".1")?;
    Ok(name.as_str() == first.as_str())
}

/// Whether two tables are spelt alike, or neither is there.
fn are_same_tables(table: Option<FormatKey>, other: Option<FormatKey>) -> bool
    ensures { result ≡ are_same_tables table other }
{
    match table {
        Some(table) => match other {
            Some(other) => table.text() == other.text(),
            None => false,
        },
        None => other.is_none(),
    }
}

/// Whether two items have one name, or neither is there.
fn are_same_items(item: Option<ItemName>, other: Option<ItemName>) -> bool
    ensures { result ≡ are_same_items item other }
{
    match item {
        Some(item) => match other {
            Some(other) => item.bytes.as_slice() == other.bytes.as_slice(),
            None => false,
        },
        None => other.is_none(),
    }
}
