//! The walk over the places of a text, which finds its diagnostics.
use crate::cause::{Cause, Home, ValueKind};
use crate::departures::judge_departures;
use crate::list::{Diagnostic, Diagnostics};
use crate::members::{Known, Roster};
use crate::names::judge_names;
use crate::shape::judge_shape;
use crate::sizes::judge_size;
use crate::times::judge_times;
use crate::written::{tick_in, ticks_said};
use base::Memory;
use indexmap::IndexMap;
use schema::{Absence, FormatKey, KeyRule, Kind, Section, Version};
use std::alloc::Global;
use toml_places::{NodeContent, Places, Span};

/// What is gone over, and the diagnostics so far.
#[derive(Drop)]
pub(crate) struct Walk<'p> {
    pub(crate) alloc: Global,
    pub(crate) places: &'p Places,
    pub(crate) version: Version,
    /// How many microseconds a tick has.
    pub(crate) tick: u64,
    pub(crate) list: Vec<Diagnostic>,
}

impl<'p> Walk<'p> {
    /// Adds a diagnostic.
    pub(crate) fn add(&mut self, rule: u8, cause: Cause, span: Span) -> Result<(), Memory> {
        self.list.push(Diagnostic { rule, cause, span })?;
        Ok(())
    }

    /// The items of the list of a key of the whole text; none where no list is there.
    pub(crate) fn items(&self, key: FormatKey) -> &'p [usize] {
        match self.places.child(Places::TOP, key.text()) {
            Some(place) => items_of(self.places, place),
            None => &[],
        }
    }

    /// The items of a list that version 2 adds.
    pub(crate) fn added_items(&self, key: FormatKey) -> &'p [usize] {
        match self.version {
            Version::One => &[],
            Version::Two | Version::Three | Version::Four => self.items(key),
        }
    }

    /// The pauses, which version 3 adds.
    pub(crate) fn pauses(&self) -> &'p [usize] {
        match self.version {
            Version::One | Version::Two => &[],
            Version::Three | Version::Four => self.items(FormatKey::Pause),
        }
    }

    /// The items of a list that version 4 adds.
    pub(crate) fn fourth_items(&self, key: FormatKey) -> &'p [usize] {
        match self.version {
            Version::One | Version::Two | Version::Three => &[],
            Version::Four => self.items(key),
        }
    }

    /// The text of a key of a table, and its place.
    pub(crate) fn text(&self, table: usize, key: FormatKey) -> Option<(&'p str, usize)> {
        let place = self.places.child(table, key.text())?;
        match self.places.content(place) {
            Some(NodeContent::Text(text)) => Some((text.as_str(), place)),
            _ => None,
        }
    }

    /// The whole number of a key of a table, if it keeps its kind and range; its default where it isn't
    /// there.
    pub(crate) fn number(&self, section: Section, table: usize, key: FormatKey) -> Option<u64> {
        let row = row_of(section.rows(self.version), key)?;
        match self.places.child(table, key.text()) {
            Some(place) => {
                let number = self.ticks_at(place)?;
                if is_low(row.kind, number) {
                    Some(number)
                } else {
                    None
                }
            }
            None => match row.absence {
                Absence::Default(number) => Some(number),
                Absence::Refused | Absence::RefusedOver0(_) | Absence::Off | Absence::Optional =>
                    None,
            },
        }
    }

    /// How many ticks a key of an entry says: a whole number or, in version 4, a length.
    pub(crate) fn ticks(&self, table: usize, key: &str) -> Option<u64> {
        self.ticks_at(self.places.child(table, key)?)
    }

    /// The whole number at a place; in version 4 also of a length.
    fn ticks_at(&self, place: usize) -> Option<u64> {
        match self.places.content(place) {
            Some(NodeContent::Whole(number)) => u64::try_from(*number).ok(),
            Some(NodeContent::Text(word)) if self.version == Version::Four => {
                ticks_said(word.as_str(), self.tick)
            }
            _ => None,
        }
    }

    /// Where the value of a key of a table stands; where it isn't there, where the table begins.
    pub(crate) fn value_of(&self, table: usize, key: FormatKey) -> Span {
        match self.places.child(table, key.text()) {
            Some(place) => self.places.value(place),
            None => self.places.header(table),
        }
    }
}

/// The places of the items of a list.
pub(crate) fn items_of(places: &Places, list: usize) -> &[usize] {
    match places.content(list) {
        Some(NodeContent::List(items)) => items.as_slice(),
        _ => &[],
    }
}

/// The row of a key.
fn row_of(rows: &[KeyRule], key: FormatKey) -> Option<KeyRule> {
    for row in rows {
        if row.key == key {
            return Some(*row);
        }
    }
    None
}

/// Whether a number is in the range of a kind.
pub(crate) fn is_within(kind: Kind, number: i64) -> bool {
    match kind {
        Kind::Whole { least, most } => match u64::try_from(number) {
            Ok(number) => least <= number && number <= most,
            Err(_) => false,
        },
        Kind::Switch | Kind::Text | Kind::Table(_) | Kind::List(_) => true,
    }
}

/// Whether a number that isn't negative is in the range of a kind.
fn is_low(kind: Kind, number: u64) -> bool {
    match kind {
        Kind::Whole { least, most } => least <= number && number <= most,
        Kind::Switch | Kind::Text | Kind::Table(_) | Kind::List(_) => true,
    }
}

/// What kind of value stands at a place.
pub(crate) fn found_at(places: &Places, place: usize) -> ValueKind {
    match places.content(place) {
        Some(NodeContent::Whole(_)) => ValueKind::Whole,
        Some(NodeContent::Switch(_)) => ValueKind::Switch,
        Some(NodeContent::Text(_)) => ValueKind::Text,
        Some(NodeContent::Float) => ValueKind::Float,
        Some(NodeContent::Datetime) => ValueKind::Datetime,
        Some(NodeContent::List(_)) => ValueKind::List,
        Some(NodeContent::Table(_)) | None => ValueKind::Table,
    }
}

/// The diagnostics of a text that is refused by a rule, by their places.
pub(crate) fn find_diagnostics(
    alloc: Global,
    bytes: &[u8],
    rule: u8,
) -> Result<Diagnostics, Memory> {
    match std::str::from_utf8(bytes) {
        Ok(text) if rule == 1 => document_fault(alloc, text),
        Ok(text) => walk_over(alloc, text, rule),
        Err(error) => {
            let start = error.valid_up_to();
            let span = Span {
                start,
                end: bytes.len().min(start.saturating_add(1)),
            };
            one_diagnostic(alloc, Cause::NoUtf8, span, "")
        }
    }
}

/// The diagnostic of a text that is no TOML document.
fn document_fault(alloc: Global, text: &str) -> Result<Diagnostics, Memory> {
    match toml::table_from_str(alloc, text) {
        Ok(_) => one_diagnostic(alloc, Cause::General, Span { start: 0, end: 0 }, ""),
        Err(error) => match error.span() {
            Some(range) => {
                let span = Span {
                    start: range.start,
                    end: range.end,
                };
                one_diagnostic(alloc, Cause::NoDocument, span, error.message())
            }
            None => Err(Memory),
        },
    }
}

/// A single diagnostic of rule 1.
fn one_diagnostic(
    alloc: Global,
    cause: Cause,
    span: Span,
    fault: &str,
) -> Result<Diagnostics, Memory> {
    let fault = String::from_str(alloc, fault)?;
    let diagnostic = Diagnostic {
        rule: 1,
        cause,
        span,
    };
    Ok(Diagnostics {
        list: listed(alloc, diagnostic)?,
        rule: 1,
        version: Version::One,
        groups: IndexMap::new(alloc),
        fault,
    })
}

/// A list of one diagnostic.
fn listed(alloc: Global, diagnostic: Diagnostic) -> Result<Vec<Diagnostic>, Memory> {
    let mut list = Vec::new(alloc);
    list.push(diagnostic)?;
    Ok(list)
}

/// The diagnostics of a document that is refused by a rule.
fn walk_over(alloc: Global, text: &str, rule: u8) -> Result<Diagnostics, Memory> {
    let places = toml_places::read(alloc, text)?;
    walk_places(alloc, &places, rule)
}

/// The same, by the places of the document. Which keys a text has depends on its version, so a text without
/// one has that diagnostic alone.
fn walk_places(alloc: Global, places: &Places, rule: u8) -> Result<Diagnostics, Memory> {
    match missing_version(places) {
        Some(diagnostic) => alone(alloc, diagnostic, rule),
        None => walk_all(alloc, places, rule),
    }
}

/// The diagnostic of a document without a version, at the start of the text.
fn missing_version(places: &Places) -> Option<Diagnostic> {
    if places
        .child(Places::TOP, FormatKey::Version.text())
        .is_some()
    {
        return None;
    }
    let row = row_of(Section::Top.rows(Version::Four), FormatKey::Version)?;
    let home = Home {
        section: Section::Top,
        key: None,
    };
    Some(Diagnostic {
        rule: 2,
        cause: Cause::MissingKey { home, row },
        span: Span { start: 0, end: 0 },
    })
}

/// A single diagnostic of a document that is refused by a rule.
fn alone(alloc: Global, diagnostic: Diagnostic, rule: u8) -> Result<Diagnostics, Memory> {
    Ok(Diagnostics {
        list: listed(alloc, diagnostic)?,
        rule,
        version: Version::One,
        groups: IndexMap::new(alloc),
        fault: String::new(alloc),
    })
}

/// All diagnostics of a document that has a version.
fn walk_all(alloc: Global, places: &Places, rule: u8) -> Result<Diagnostics, Memory> {
    let mut walk = Walk {
        alloc,
        places,
        version: version_of(places),
        tick: tick_in(places),
        list: Vec::new(alloc),
    };
    judge_shape(&mut walk)?;
    let groups = judge_values(&mut walk)?;
    let version = walk.version;
    Ok(Diagnostics {
        list: sorted(walk.list)?,
        rule,
        version,
        groups,
        fault: String::new(alloc),
    })
}

/// Diagnostics by their places.
fn sorted(list: Vec<Diagnostic>) -> Result<Vec<Diagnostic>, Memory> {
    let mut list = list;
    list.sort_by_key(|diagnostic| diagnostic.span.start)?;
    Ok(list)
}

/// Judges what the values mean together. What comes out are the groups by their names.
fn judge_values(walk: &mut Walk<'_>) -> Result<IndexMap<String, Known>, Memory> {
    let roster = judge_names(walk)?;
    judge_moments(walk, &roster)?;
    Ok(roster.groups)
}

/// Judges what members do, and how many there are.
fn judge_moments(walk: &mut Walk<'_>, roster: &Roster) -> Result<(), Memory> {
    judge_departures(walk, roster)?;
    judge_times(walk, roster)?;
    judge_size(walk)
}

/// The version by which a text is judged.
fn version_of(places: &Places) -> Version {
    match places.child(Places::TOP, FormatKey::Version.text()) {
        Some(place) => match places.content(place) {
            Some(NodeContent::Whole(2)) => Version::Two,
            Some(NodeContent::Whole(3)) => Version::Three,
            Some(NodeContent::Whole(4)) => Version::Four,
            _ => Version::One,
        },
        None => Version::One,
    }
}
