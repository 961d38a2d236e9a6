//! The words of diagnostics of rules 1 to 5.
use crate::aliases::{Alias, alias_label, alias_of};
use crate::context::Context;
use crate::foreign::foreign_kind;
use crate::nearest::nearest_key;
use crate::numbers::{LOSS, whole_label};
use crate::rows::{
    default_text, found_text, header_text, home_text, keys_text, table_keys, told_version,
    version_number, version_of, wanted_text,
};
use crate::words::Words;
use diagnostics::{Cause, Diagnostic, Home, ValueKind};
use schema::{FormatKey, KeyRule, Kind, Section, Version};
use std::alloc::{AllocError, Global};
use toml_places::Span;

/// Rule 1.
pub(crate) fn document_words(
    context: &Context<'_>,
    diagnostic: &Diagnostic,
) -> Result<Words, AllocError> {
    if diagnostic.cause == Cause::NoUtf8 {
        return byte_words(context, diagnostic.span);
    }
    let fault = context.diagnostics.fault.as_str();
    match foreign_kind(context.text) {
        Some(kind) => foreign_words(context.alloc, kind, fault),
        None => Words::fixed(context.alloc, "the text is no TOML document", fault, ""),
    }
}

/// Rule 1: the text is of another kind.
fn foreign_words(alloc: Global, kind: &str, fault: &str) -> Result<Words, AllocError> {
    Words::of(
        format!(in alloc; "the text is {kind}, and a scenario is TOML"),
        String::from_str(alloc, fault),
        String::from_str(
            alloc,
            "`init` prints a scenario to begin with; docs/FORMAT.md has its keys",
        ),
    )
}

/// Rule 1: a byte isn't of UTF-8.
fn byte_words(context: &Context<'_>, span: Span) -> Result<Words, AllocError> {
    let alloc = context.alloc;
    let byte = context.bytes.get(span.start).copied().unwrap_or(0);
    Words::of(
        String::from_str(alloc, "the text isn't UTF-8"),
        format!(in alloc; "the byte 0x{byte:02x} can't stand here"),
        String::from_str(alloc, "save the text as UTF-8"),
    )
}

/// Rule 2: a key, a table or a list isn't there.
pub(crate) fn missing_words(
    context: &Context<'_>,
    home: Home,
    row: KeyRule,
) -> Result<Words, AllocError> {
    Words::of(
        missing_message(context.alloc, home, row),
        missing_label(context, row),
        missing_note(context, home, row),
    )
}

/// Which keys the table needs; of a text without a version, why nothing else is reported.
fn missing_note(context: &Context<'_>, home: Home, row: KeyRule) -> Result<String, AllocError> {
    if row.key == FormatKey::Version {
        return String::from_str(
            context.alloc,
            "the version decides which keys there are; the rest is judged once it is there",
        );
    }
    let alloc = context.alloc;
    let place = home_text(alloc, home)?;
    let keys = keys_text(alloc, home.section.rows(version_of(context)), true)?;
    format!(in alloc; "{place} needs: {keys}")
}

/// The keys of a table.
fn keys_note(context: &Context<'_>, home: Home) -> Result<String, AllocError> {
    let alloc = context.alloc;
    let place = home_text(alloc, home)?;
    let keys = table_keys(alloc, version_of(context), home)?;
    format!(in alloc; "{place} has: {keys}")
}

/// What isn't there.
fn missing_message(alloc: Global, home: Home, row: KeyRule) -> Result<String, AllocError> {
    let key = row.key.text();
    match row.kind {
        Kind::Table(_) => format!(in alloc; "missing table [{key}]"),
        Kind::List(_) => format!(in alloc; "missing list [[{key}]]"),
        Kind::Whole { .. } | Kind::Switch | Kind::Text => missing_key_message(alloc, home, key),
    }
}

/// That a key isn't there.
fn missing_key_message(alloc: Global, home: Home, key: &str) -> Result<String, AllocError> {
    if home.key.is_none() {
        return format!(in alloc; "missing key `{key}`");
    }
    let place = home_text(alloc, home)?;
    format!(in alloc; "missing key `{key}` in {place}")
}

/// What to add.
fn missing_label(context: &Context<'_>, row: KeyRule) -> Result<String, AllocError> {
    match row.kind {
        Kind::Table(section) => table_label(context, section, false, row.key),
        Kind::List(section) => table_label(context, section, true, row.key),
        Kind::Whole { .. } | Kind::Switch | Kind::Text => missing_key_label(context.alloc, row),
    }
}

/// Which key to add.
fn missing_key_label(alloc: Global, row: KeyRule) -> Result<String, AllocError> {
    let key = row.key.text();
    let wanted = wanted_text(alloc, row)?;
    format!(in alloc; "add `{key}`, {wanted}")
}

/// Which table to add, with the keys that it needs.
fn table_label(
    context: &Context<'_>,
    section: Section,
    is_list: bool,
    key: FormatKey,
) -> Result<String, AllocError> {
    let alloc = context.alloc;
    let header = header_text(alloc, is_list, key)?;
    let required = keys_text(alloc, section.rows(version_of(context)), true)?;
    format!(in alloc; "add {header} with {required}")
}

/// Rule 2: a list has no item.
pub(crate) fn empty_words(context: &Context<'_>, row: KeyRule) -> Result<Words, AllocError> {
    let alloc = context.alloc;
    let key = row.key.text();
    Words::of(
        format!(in alloc; "the list `{key}` is empty"),
        missing_label(context, row),
        format!(in alloc; "a text has one {key} at least"),
    )
}

/// Rule 2: a group that starts later has no contact.
pub(crate) fn contact_words(context: &Context<'_>, start: i64) -> Result<Words, AllocError> {
    let alloc = context.alloc;
    Words::of(
        String::from_str(alloc, "missing key `contact` in [[group]]"),
        format!(in alloc; "it starts at {start}, so it needs `contact`"),
        String::from_str(
            alloc,
            "`contact` names a member of a group with start 0, which lets it join",
        ),
    )
}

/// Rule 3: the format doesn't name a key.
pub(crate) fn unknown_words(
    context: &Context<'_>,
    home: Home,
    found: ValueKind,
    span: Span,
) -> Result<Words, AllocError> {
    let name = context.name(span)?;
    match alias_of(context.alloc, home, name.as_str())? {
        Some(alias) => alias_words(context, home, found, span, alias),
        None => Words::of(
            unknown_message(context, home, found, span),
            unknown_label(context, home, name.as_str()),
            keys_note(context, home),
        ),
    }
}

/// Rule 3: the format has another name for a key.
fn alias_words(
    context: &Context<'_>,
    home: Home,
    found: ValueKind,
    span: Span,
    alias: Alias,
) -> Result<Words, AllocError> {
    Words::of(
        unknown_message(context, home, found, span),
        alias_label(context.alloc, version_of(context), alias),
        alias_note(context, home, alias),
    )
}

/// Where the names of memberlist stand, or the keys of the table.
fn alias_note(context: &Context<'_>, home: Home, alias: Alias) -> Result<String, AllocError> {
    match alias {
        Alias::Key { .. } | Alias::Tables => String::from_str(
            context.alloc,
            "docs/MEMBERLIST.md lists memberlist's names next to these",
        ),
        Alias::End | Alias::Until => keys_note(context, home),
    }
}

/// What is unknown, and where.
fn unknown_message(
    context: &Context<'_>,
    home: Home,
    found: ValueKind,
    span: Span,
) -> Result<String, AllocError> {
    let alloc = context.alloc;
    let what = unknown_text(found);
    let shown = context.shown_name(span)?;
    if home.key.is_none() {
        return format!(in alloc; "unknown {what} `{shown}`");
    }
    let place = home_text(alloc, home)?;
    format!(in alloc; "unknown {what} `{shown}` in {place}")
}

/// What is called unknown of which such a value was found.
fn unknown_text(found: ValueKind) -> &'static str {
    match found {
        ValueKind::Table => "table",
        ValueKind::List => "list",
        _ => "key",
    }
}

/// The nearest key, or the table that has a key of this name.
fn unknown_label(context: &Context<'_>, home: Home, name: &str) -> Result<String, AllocError> {
    let alloc = context.alloc;
    match nearest_key(alloc, name, home.section.rows(version_of(context)))? {
        Some(key) => nearest_key_label(alloc, key),
        None => elsewhere_label(alloc, told_version(context), name),
    }
}

/// Whether a key was meant.
fn nearest_key_label(alloc: Global, key: FormatKey) -> Result<String, AllocError> {
    let key = key.text();
    format!(in alloc; "did you mean `{key}`?")
}

/// The table that has a key of this name.
fn elsewhere_label(alloc: Global, version: Version, name: &str) -> Result<String, AllocError> {
    for row in Section::Top.rows(version) {
        if has_key(version, row.kind, name) {
            return key_of_label(alloc, *row);
        }
    }
    if is_named(Section::Top.rows(version), name) {
        return String::from_str(alloc, "this stands before all tables");
    }
    String::from_str(alloc, "take it away")
}

/// That a key is one of a table.
fn key_of_label(alloc: Global, table: KeyRule) -> Result<String, AllocError> {
    let header = header_text(alloc, is_list(table.kind), table.key)?;
    format!(in alloc; "this is a key of {header}")
}

/// Whether what a key of the whole text calls for has a key of this name.
fn has_key(version: Version, kind: Kind, name: &str) -> bool {
    match kind {
        Kind::Table(section) | Kind::List(section) => is_named(section.rows(version), name),
        Kind::Whole { .. } | Kind::Switch | Kind::Text => false,
    }
}

/// Whether a key calls for a list of tables.
fn is_list(kind: Kind) -> bool {
    match kind {
        Kind::List(_) => true,
        Kind::Whole { .. } | Kind::Switch | Kind::Text | Kind::Table(_) => false,
    }
}

/// Whether one of the rows is of the key that is spelt so.
fn is_named(rows: &[KeyRule], name: &str) -> bool {
    rows.iter().any(|row| row.key.text() == name)
}

/// Rule 3: a later version has the key.
pub(crate) fn later_words(
    context: &Context<'_>,
    version: Version,
    span: Span,
) -> Result<Words, AllocError> {
    let alloc = context.alloc;
    let later = version_number(version);
    let own = version_number(version_of(context));
    let name = context.shown_name(span)?;
    Words::of(
        format!(in alloc; "`{name}` is a key of version {later}"),
        format!(in alloc; "write `version = {later}` to use it"),
        format!(in alloc; "this text is judged by version {own}"),
    )
}

/// Rule 4: a value is of another kind.
pub(crate) fn kind_words(
    context: &Context<'_>,
    row: KeyRule,
    found: ValueKind,
    span: Span,
) -> Result<Words, AllocError> {
    let alloc = context.alloc;
    Words::of(
        kind_message(alloc, row, found),
        kind_label(context, row, found, span),
        default_text(alloc, row),
    )
}

/// What stands there in place of what is wanted.
fn kind_message(alloc: Global, row: KeyRule, found: ValueKind) -> Result<String, AllocError> {
    let key = row.key.text();
    let there = found_text(found);
    let wanted = wanted_text(alloc, row)?;
    format!(in alloc; "`{key}` is {there}, not {wanted}")
}

/// What to write in place of a value of another kind.
fn kind_label(
    context: &Context<'_>,
    row: KeyRule,
    found: ValueKind,
    span: Span,
) -> Result<String, AllocError> {
    let alloc = context.alloc;
    match row.kind {
        Kind::Whole { .. } => whole_label(context, row, found, span),
        Kind::Switch => String::from_str(alloc, "write true or false, without quotes"),
        Kind::Text => String::from_str(alloc, "write a name in quotes"),
        Kind::Table(_) => table_form(alloc, row.key, found),
        Kind::List(_) => list_form(alloc, row.key, found),
    }
}

/// How a table is written.
fn table_form(alloc: Global, key: FormatKey, found: ValueKind) -> Result<String, AllocError> {
    let key = key.text();
    if found == ValueKind::List {
        format!(in alloc; "write [{key}] once, in one pair of brackets")
    } else {
        format!(in alloc; "write [{key}], and its keys below it")
    }
}

/// How a list of tables is written.
fn list_form(alloc: Global, key: FormatKey, found: ValueKind) -> Result<String, AllocError> {
    let key = key.text();
    if found == ValueKind::Table {
        format!(in alloc; "write [[{key}]], in two pairs of brackets")
    } else {
        format!(in alloc; "write [[{key}]] for each, and its keys below it")
    }
}

/// Rule 4: an item of a list is no table.
pub(crate) fn item_words(
    context: &Context<'_>,
    row: KeyRule,
    found: ValueKind,
) -> Result<Words, AllocError> {
    let alloc = context.alloc;
    let key = row.key.text();
    let there = found_text(found);
    Words::of(
        format!(in alloc; "an item of `{key}` is {there}, not a table"),
        list_form(alloc, row.key, found),
        Ok(String::new(alloc)),
    )
}

/// Rule 5: a whole number is outside its range.
pub(crate) fn range_words(
    context: &Context<'_>,
    row: KeyRule,
    number: i64,
) -> Result<Words, AllocError> {
    let alloc = context.alloc;
    let key = row.key.text();
    Words::of(
        format!(in alloc; "`{key}` is {number}, outside its range"),
        range_label(alloc, row),
        range_note(context, row, number),
    )
}

/// What may be written.
fn range_label(alloc: Global, row: KeyRule) -> Result<String, AllocError> {
    let wanted = wanted_text(alloc, row)?;
    format!(in alloc; "write {wanted}")
}

/// What else is known of the range of a key.
fn range_note(context: &Context<'_>, row: KeyRule, number: i64) -> Result<String, AllocError> {
    let alloc = context.alloc;
    if row.key == FormatKey::Loss {
        return String::from_str(alloc, LOSS);
    }
    if row.key == FormatKey::Count && is_later_count(version_of(context), number) {
        return later_count_note(alloc);
    }
    default_text(alloc, row)
}

/// Whether a version alone refuses so many members of a group, and a later one doesn't.
fn is_later_count(version: Version, number: i64) -> bool {
    match u64::try_from(number) {
        Ok(number) => version == Version::One
            && 0 < number
            && number <= Version::Two.most_members(),
        Err(_) => false,
    }
}

/// How many members a group may have from version 2 on.
fn later_count_note(alloc: Global) -> Result<String, AllocError> {
    let most = Version::Two.most_members();
    format!(in alloc; "with `version = 2` it may be up to {most}")
}
