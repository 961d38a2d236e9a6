//! Words on tables and keys, from the rows of the format.
use crate::context::Context;
use diagnostics::{Home, ValueKind, entry_keys};
use schema::{Absence, FormatKey, KeyRule, Kind, Section, Version};
use std::alloc::{AllocError, Global};

/// What a table is called: its header, or `the text`.
pub(crate) fn home_text(alloc: Global, home: Home) -> Result<String, AllocError> {
    match home.key {
        Some(key) => header_text(alloc, is_listed(home.section), key),
        None => String::from_str(alloc, "the text"),
    }
}

/// A header, with two brackets where the table is an item of a list.
pub(crate) fn header_text(
    alloc: Global,
    is_list: bool,
    key: FormatKey,
) -> Result<String, AllocError> {
    let key = key.text();
    if is_list {
        format!(in alloc; "[[{key}]]")
    } else {
        format!(in alloc; "[{key}]")
    }
}

/// Whether the tables of a section are items of lists.
fn is_listed(section: Section) -> bool {
    match section {
        Section::Top | Section::Swim | Section::Suspicion | Section::Lifeguard | Section::Link =>
            false,
        Section::Gossip | Section::Stream | Section::Serf => false,
        Section::Group | Section::Path | Section::Slow | Section::Departure | Section::Cut => true,
        Section::Pause | Section::Restart => true,
    }
}

/// The keys of a table in a version.
pub(crate) fn table_keys(
    alloc: Global,
    version: Version,
    home: Home,
) -> Result<String, AllocError> {
    if version == Version::Four {
        return fourth_keys(alloc, home);
    }
    keys_text(alloc, home.section.rows(version), false)
}

/// The keys of a table in version 4.
fn fourth_keys(alloc: Global, home: Home) -> Result<String, AllocError> {
    match home.section {
        Section::Slow | Section::Departure | Section::Pause | Section::Restart => {
            String::from_str(alloc, entry_keys(home.key.unwrap_or(FormatKey::Pause)))
        }
        Section::Top => more_keys(alloc, home.section, "tick"),
        Section::Path | Section::Cut => more_keys(alloc, home.section, "both"),
        _ => keys_text(alloc, home.section.rows(Version::Four), false),
    }
}

/// The keys of a section and one more.
fn more_keys(alloc: Global, section: Section, more: &str) -> Result<String, AllocError> {
    let keys = keys_text(alloc, section.rows(Version::Four), false)?;
    format!(in alloc; "{keys}, {more}")
}

/// The keys of rows, or those of them that are required.
pub(crate) fn keys_text(
    alloc: Global,
    rows: &[KeyRule],
    only_required: bool,
) -> Result<String, AllocError> {
    let mut keys = String::new(alloc);
    for row in rows {
        if !only_required || row.absence == Absence::Refused {
            if !keys.is_empty() {
                keys.push_str(", ")?;
            }
            keys.push_str(row.key.text())?;
        }
    }
    Ok(keys)
}

/// What a key's value has to be.
pub(crate) fn wanted_text(alloc: Global, row: KeyRule) -> Result<String, AllocError> {
    match row.kind {
        Kind::Whole { least, most } => {
            format!(in alloc; "a whole number from {least} to {most}")
        }
        Kind::Switch => String::from_str(alloc, "true or false"),
        Kind::Text => String::from_str(alloc, "a string"),
        Kind::Table(_) => headed_text(alloc, "a table", false, row.key),
        Kind::List(_) => headed_text(alloc, "a list of tables", true, row.key),
    }
}

/// What a value is, and the header that stands for it.
fn headed_text(
    alloc: Global,
    what: &str,
    is_list: bool,
    key: FormatKey,
) -> Result<String, AllocError> {
    let header = header_text(alloc, is_list, key)?;
    format!(in alloc; "{what}, {header}")
}

/// What kind of value stands there.
pub(crate) fn found_text(found: ValueKind) -> &'static str {
    match found {
        ValueKind::Whole => "a whole number",
        ValueKind::Float => "a number with a point",
        ValueKind::Switch => "true or false",
        ValueKind::Text => "a string",
        ValueKind::Datetime => "a date or a time",
        ValueKind::List => "a list",
        ValueKind::Table => "a table",
    }
}

/// What holds where a key isn't there; empty where the format says nothing of it.
pub(crate) fn default_text(alloc: Global, row: KeyRule) -> Result<String, AllocError> {
    let key = row.key.text();
    match row.absence {
        Absence::Default(number) => format!(in alloc; "without `{key}` it is {number}"),
        Absence::Refused => format!(in alloc; "`{key}` has no default"),
        Absence::RefusedOver0(_) => Ok(String::new(alloc)),
        Absence::Off => format!(in alloc; "without `{key}` it is false"),
        Absence::Optional => optional_text(alloc, key, row.kind),
    }
}

/// The same of a key that may be left out.
fn optional_text(alloc: Global, key: &str, kind: Kind) -> Result<String, AllocError> {
    match kind {
        Kind::Switch => format!(in alloc; "without `{key}` it is true"),
        Kind::Whole { .. } => format!(in alloc; "without `{key}` it is that of [link]"),
        Kind::Text | Kind::Table(_) | Kind::List(_) => Ok(String::new(alloc)),
    }
}

/// The version by which a text is judged.
pub(crate) fn version_of(context: &Context<'_>) -> Version {
    context.diagnostics.version
}

/// The version whose keys are named as keys of another table: that of the text, but no less than 2.
pub(crate) fn told_version(context: &Context<'_>) -> Version {
    match version_of(context) {
        Version::One | Version::Two => Version::Two,
        Version::Three => Version::Three,
        Version::Four => Version::Four,
    }
}

/// The number of a version.
pub(crate) fn version_number(version: Version) -> u64 {
    match version {
        Version::One => 1,
        Version::Two => 2,
        Version::Three => 3,
        Version::Four => 4,
    }
}
