//! Rules 2 to 5: which keys a table has, and of what kind and range their values are.
use crate::cause::{Cause, Home, ValueKind};
use crate::walk::{Walk, found_at, is_within, items_of};
use crate::wanted::{WrittenKey, added_key, entry_key, is_script, wanted_in};
use crate::written::{judge_entries, judge_wanted};
use base::Memory;
use schema::{Absence, FormatKey, KeyRule, Kind, Section, Version};
use toml_places::{NodeContent, Places};

/// Judges the whole text, and the tables and the items of lists that its keys call for.
pub(crate) fn judge_shape(walk: &mut Walk<'_>) -> Result<(), Memory> {
    judge_table(walk, home(Section::Top, None), Places::TOP)?;
    for row in Section::Top.rows(walk.version) {
        if let Some(place) = walk.places.child(Places::TOP, row.key.text()) {
            judge_below(walk, row, place)?;
        }
    }
    Ok(())
}

/// A table of a section.
fn home(section: Section, key: Option<FormatKey>) -> Home {
    Home { section, key }
}

/// Judges what a key of the whole text has as its value, where that is a table or a list of tables.
fn judge_below(walk: &mut Walk<'_>, row: &KeyRule, place: usize) -> Result<(), Memory> {
    match row.kind {
        Kind::Table(section) => {
            if found_at(walk.places, place) == ValueKind::Table {
                judge_table(walk, home(section, Some(row.key)), place)?;
            }
            Ok(())
        }
        Kind::List(section) => {
            let items = items_of(walk.places, place);
            if walk.version == Version::Four && is_script(row.key) {
                judge_entries(walk, row, home(section, Some(row.key)), items)
            } else {
                judge_items(walk, row, section, items)
            }
        }
        Kind::Whole { .. } | Kind::Switch | Kind::Text => Ok(()),
    }
}

/// Judges the items of a list of tables.
fn judge_items(
    walk: &mut Walk<'_>,
    row: &KeyRule,
    section: Section,
    items: &[usize],
) -> Result<(), Memory> {
    for item in items {
        let found = found_at(walk.places, *item);
        if found == ValueKind::Table {
            judge_table(walk, home(section, Some(row.key)), *item)?;
        } else {
            let span = walk.places.value(*item);
            walk.add(4, Cause::WrongItem { row: *row, found }, span)?;
        }
    }
    Ok(())
}

/// Judges the keys of a table.
fn judge_table(walk: &mut Walk<'_>, home: Home, table: usize) -> Result<(), Memory> {
    let rows = home.section.rows(walk.version);
    for row in rows {
        match walk.places.child(table, row.key.text()) {
            Some(place) => judge_value(walk, row, place)?,
            None => judge_absence(walk, home, row, table)?,
        }
    }
    judge_keys(walk, home, rows, table)
}

/// Judges that a key of a table isn't there.
fn judge_absence(
    walk: &mut Walk<'_>,
    home: Home,
    row: &KeyRule,
    table: usize,
) -> Result<(), Memory> {
    let span = walk.places.header(table);
    match row.absence {
        Absence::Refused => {
            let row = told_row(row);
            walk.add(2, Cause::MissingKey { home, row }, span)
        }
        Absence::RefusedOver0(key) => match whole_at(walk, table, key) {
            Some(start) if start > 0 => walk.add(2, Cause::MissingContact { start }, span),
            _ => Ok(()),
        },
        Absence::Default(_) | Absence::Off | Absence::Optional => Ok(()),
    }
}

/// The whole number of a key, or what its length says, whatever its range.
fn whole_at(walk: &Walk<'_>, table: usize, key: FormatKey) -> Option<i64> {
    let place = walk.places.child(table, key.text())?;
    match walk.places.content(place) {
        Some(NodeContent::Whole(number)) => Some(*number),
        _ => i64::try_from(walk.ticks(table, key.text())?).ok(),
    }
}

/// Judges the value of a row's key. In version 4 a number of ticks may be a length, and a share be said in percent.
fn judge_value(walk: &mut Walk<'_>, row: &KeyRule, place: usize) -> Result<(), Memory> {
    match wanted_in(row) {
        Some(wanted) if walk.version == Version::Four => judge_wanted(
            walk,
            WrittenKey {
                name: row.key.text(),
                wanted,
            },
            place,
        ),
        _ => judge_plain(walk, row, place),
    }
}

/// Judges the kind of a value, its range, and that a list has an item where it needs one.
fn judge_plain(walk: &mut Walk<'_>, row: &KeyRule, place: usize) -> Result<(), Memory> {
    let found = found_at(walk.places, place);
    let span = walk.places.value(place);
    if !is_of_kind(row.kind, found) {
        let row = *row;
        return walk.add(4, Cause::WrongKind { row, found }, span);
    }
    match walk.places.content(place) {
        Some(NodeContent::Whole(number)) if !is_within(row.kind, *number) => {
            let number = *number;
            let row = told_row(row);
            walk.add(5, Cause::OutOfRange { row, number }, span)
        }
        Some(NodeContent::List(items)) if items.is_empty() && row.absence == Absence::Refused => {
            walk.add(2, Cause::EmptyList { row: *row }, span)
        }
        _ => Ok(()),
    }
}

/// The row that a diagnostic on a key has: of the version, that which knows all of them.
fn told_row(row: &KeyRule) -> KeyRule {
    if row.key == FormatKey::Version {
        for other in Section::Top.rows(Version::Four) {
            if other.key == FormatKey::Version {
                return *other;
            }
        }
    }
    *row
}

/// Whether a value is of the kind that a key calls for.
fn is_of_kind(kind: Kind, found: ValueKind) -> bool {
    match kind {
        Kind::Whole { .. } => found == ValueKind::Whole,
        Kind::Switch => found == ValueKind::Switch,
        Kind::Text => found == ValueKind::Text,
        Kind::Table(_) => found == ValueKind::Table,
        Kind::List(_) => found == ValueKind::List,
    }
}

/// Judges whether the format names each key of a table.
fn judge_keys(
    walk: &mut Walk<'_>,
    home: Home,
    rows: &[KeyRule],
    table: usize,
) -> Result<(), Memory> {
    if let Some(NodeContent::Table(keys)) = walk.places.content(table) {
        for (name, place) in keys.iter() {
            if !is_named(rows, name.as_str()) {
                judge_other(walk, home, name.as_str(), *place)?;
            }
        }
    }
    Ok(())
}

/// Judges a key that no row has: version 4 has some more.
fn judge_other(walk: &mut Walk<'_>, home: Home, name: &str, place: usize) -> Result<(), Memory> {
    match added_key(home.section, name) {
        Some(key) if walk.version == Version::Four => judge_wanted(walk, key, place),
        _ => {
            let cause = unknown(walk, home, name, place);
            let span = walk.places.key(place);
            walk.add(3, cause, span)
        }
    }
}

/// Whether one of the rows is of the key that is spelt so.
fn is_named(rows: &[KeyRule], name: &str) -> bool {
    rows.iter().any(|row| row.key.text() == name)
}

/// Why the format doesn't name a key.
fn unknown(walk: &Walk<'_>, home: Home, name: &str, place: usize) -> Cause {
    if is_named(home.section.rows(Version::Two), name) {
        Cause::LaterKey {
            version: Version::Two,
        }
    } else if is_named(home.section.rows(Version::Three), name) {
        Cause::LaterKey {
            version: Version::Three,
        }
    } else if is_fourth_key(home, name) {
        Cause::LaterKey {
            version: Version::Four,
        }
    } else {
        Cause::UnknownKey {
            home,
            found: found_at(walk.places, place),
        }
    }
}

/// Whether version 4 adds a key to those that a table has.
fn is_fourth_key(home: Home, name: &str) -> bool {
    if is_named(home.section.rows(Version::Four), name) || added_key(home.section, name).is_some() {
        return true;
    }
    match home.key {
        Some(list) => is_script(list) && entry_key(list, name).is_some(),
        None => false,
    }
}
