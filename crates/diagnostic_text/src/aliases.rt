//! The names that memberlist, Serf and Consul have for keys of a scenario (docs/MEMBERLIST.md).
use crate::rows::header_text;
use diagnostics::Home;
use schema::{FormatKey, KeyRule, Kind, Section, Version};
use std::alloc::{AllocError, Global};

/// A name of more letters is none of these.
const LONGEST: usize = 40;

/// What another name of a key leads to.
#[derive(Clone, Copy)]
pub(crate) enum Alias {
    /// A key of a table, and how its value follows from the other's.
    Key {
        table: FormatKey,
        key: FormatKey,
        change: &'static str,
    },
    /// The last moment of the whole run.
    End,
    /// When the item of a list is over.
    Until,
    /// The tables that stand for one of another program.
    Tables,
}

/// What another name of a key or table leads to, in some table.
pub(crate) fn alias_of(alloc: Global, home: Home, name: &str) -> Result<Option<Alias>, AllocError> {
    if name.len() > LONGEST {
        return Ok(None);
    }
    let plain = plain_name(alloc, name)?;
    Ok(alias_named(home.section, plain.as_str()))
}

/// A name in small letters, without dashes and underscores.
fn plain_name(alloc: Global, name: &str) -> Result<String, AllocError> {
    let mut plain = String::new(alloc);
    for c in name.chars() {
        if c != '_' && c != '-' {
            plain.push(c.to_ascii_lowercase())?;
        }
    }
    Ok(plain)
}

/// What such a name leads to in a table of a section.
fn alias_named(section: Section, plain: &str) -> Option<Alias> {
    match plain {
        "duration" => duration_in(section),
        "memberlist" | "memberlistconfig" | "gossiplan" | "gossipwan" => Some(Alias::Tables),
        _ => match swim_alias(plain) {
            Some(alias) => Some(alias),
            None => other_alias(plain),
        },
    }
}

/// What a length leads to in a table of a section.
fn duration_in(section: Section) -> Option<Alias> {
    match section {
        Section::Slow | Section::Pause | Section::Cut => Some(Alias::Until),
        _ => Some(Alias::End),
    }
}

/// What a name leads to in [swim].
fn swim_alias(plain: &str) -> Option<Alias> {
    match plain {
        "probeinterval" => in_table(FormatKey::Swim, FormatKey::Period, ""),
        "probetimeout" => in_table(FormatKey::Swim, FormatKey::Timeout, ""),
        "indirectchecks" => in_table(FormatKey::Swim, FormatKey::Helpers, ""),
        "retransmitmult" => in_table(FormatKey::Swim, FormatKey::Lambda, ""),
        "disabletcppings" => in_table(
            FormatKey::Swim,
            FormatKey::Fallback,
            ", true for false and false for true",
        ),
        _ => None,
    }
}

/// What a name leads to in other tables.
fn other_alias(plain: &str) -> Option<Alias> {
    match plain {
        "suspicionmult" => in_table(
            FormatKey::Suspicion,
            FormatKey::Alpha,
            ", and 2 less as `confirmations` in [lifeguard]",
        ),
        "suspicionmaxtimeoutmult" => in_table(FormatKey::Suspicion, FormatKey::Beta, ""),
        "awarenessmaxmultiplier" => in_table(FormatKey::Lifeguard, FormatKey::Ceiling, ", 1 less"),
        "gossipinterval" => in_table(FormatKey::Gossip, FormatKey::Interval, ""),
        "gossipnodes" => in_table(FormatKey::Gossip, FormatKey::Nodes, ""),
        "gossiptothedeadtime" => in_table(FormatKey::Gossip, FormatKey::Dead, ""),
        "pushpullinterval" => in_table(FormatKey::Gossip, FormatKey::Push, ""),
        _ => None,
    }
}

/// A key of a table.
fn in_table(table: FormatKey, key: FormatKey, change: &'static str) -> Option<Alias> {
    Some(Alias::Key { table, key, change })
}

/// What to write in place of another name, in a text of a version.
pub(crate) fn alias_label(
    alloc: Global,
    version: Version,
    alias: Alias,
) -> Result<String, AllocError> {
    match alias {
        Alias::Key { table, key, change } => key_label(alloc, version, table, key, change),
        Alias::End => String::from_str(
            alloc,
            "write `end` before all tables, the last moment of the run",
        ),
        Alias::Until => String::from_str(alloc, "write `until`, the moment when it is over"),
        Alias::Tables => String::from_str(
            alloc,
            "its settings stand in [swim], [suspicion], [lifeguard] and [gossip]",
        ),
    }
}

/// Which key of which table to write.
fn key_label(
    alloc: Global,
    version: Version,
    table: FormatKey,
    key: FormatKey,
    change: &str,
) -> Result<String, AllocError> {
    let header = header_text(alloc, false, table)?;
    let key = key.text();
    if has_key(version, table, key) {
        format!(in alloc; "write `{key}` in {header}{change}")
    } else {
        format!(in alloc; "write `{key}` in {header}{change}, with `version = 3`")
    }
}

/// Whether a table has a key in a version.
fn has_key(version: Version, table: FormatKey, key: &str) -> bool {
    Section::Top
        .rows(version)
        .iter()
        .any(|row| row.key == table && is_in(version, *row, key))
}

/// Whether what a row calls for has a key in a version.
fn is_in(version: Version, row: KeyRule, key: &str) -> bool {
    match row.kind {
        Kind::Table(section) => section
            .rows(version)
            .iter()
            .any(|inner| inner.key.text() == key),
        Kind::List(_) | Kind::Whole { .. } | Kind::Switch | Kind::Text => false,
    }
}
