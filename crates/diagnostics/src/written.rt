//! Rules 2 to 5 of values and entries that only version 4 has.
use crate::cause::{Cause, Home, ValueKind};
use crate::walk::{Walk, found_at};
use crate::wanted::{Wanted, WrittenKey, entry_key, is_departure, is_spell};
use base::Memory;
use lengths::{LengthFault, share_of, tick_of, ticks_of};
use schema::{FormatKey, KeyRule};
use toml_places::{NodeContent, Places};

/// How many microseconds a tick has where a text doesn't say it.
const MILLISECOND: u64 = 1_000;

/// The longest tick, in microseconds.
const LONGEST_TICK: u64 = 1_000_000;

/// The most that a share may be, in parts per million.
const WHOLE: u64 = 1_000_000;

/// What is wrong with a value by itself.
#[derive(Clone, Copy, PartialEq, Eq)]
enum ValueFault {
    /// Rule 4.
    Kind,
    /// Rule 5.
    Range,
}

/// How many microseconds a tick of a document has: 1,000 where `tick` doesn't say it, or says none that may be.
pub(crate) fn tick_in(places: &Places) -> u64 {
    let Some(place) = places.child(Places::TOP, "tick") else {
        return MILLISECOND;
    };
    match places.content(place) {
        Some(NodeContent::Text(text)) => tick_of(text.as_str()).unwrap_or(MILLISECOND),
        _ => MILLISECOND,
    }
}

/// How many ticks of so many microseconds a word says; nothing where it is no length.
pub(crate) fn ticks_said(word: &str, tick: u64) -> Option<u64> {
    match ticks_in(word, tick) {
        Ok(ticks) => Some(ticks),
        Err(_) => None,
    }
}

/// The same, or what is wrong with the word.
fn ticks_in(word: &str, tick: u64) -> Result<u64, ValueFault> {
    if tick < 1 || tick > LONGEST_TICK {
        return Err(ValueFault::Kind);
    }
    match ticks_of(word, tick) {
        Ok(ticks) => Ok(ticks),
        Err(LengthFault::NoLength) => Err(ValueFault::Kind),
        Err(LengthFault::PartTick) | Err(LengthFault::OutOfRange) => Err(ValueFault::Range),
    }
}

/// Judges the value of a key by what it has to be.
pub(crate) fn judge_wanted(
    walk: &mut Walk<'_>,
    key: WrittenKey,
    place: usize,
) -> Result<(), Memory> {
    let span = walk.places.value(place);
    let found = found_at(walk.places, place);
    match fault_of(walk, key.wanted, place) {
        Some(ValueFault::Kind) => walk.add(
            4,
            Cause::OtherKind {
                key: key.name,
                wanted: key.wanted,
                found,
            },
            span,
        ),
        Some(ValueFault::Range) => walk.add(
            5,
            Cause::Outside {
                key: key.name,
                wanted: key.wanted,
            },
            span,
        ),
        None => Ok(()),
    }
}

/// What is wrong with the value at a place.
fn fault_of(walk: &Walk<'_>, wanted: Wanted, place: usize) -> Option<ValueFault> {
    let content = walk.places.content(place)?;
    match wanted {
        Wanted::Ticks { least, most } => ticks_fault(walk.tick, content, least, most),
        Wanted::Share => share_fault(content),
        Wanted::Tick => tick_fault(content),
        Wanted::Whole { least, most } => whole_fault(content, least, most),
        Wanted::Switch => match content {
            NodeContent::Switch(_) => None,
            _ => Some(ValueFault::Kind),
        },
        Wanted::Text => match content {
            NodeContent::Text(_) => None,
            _ => Some(ValueFault::Kind),
        },
        Wanted::Texts => match content {
            NodeContent::List(items) => texts_fault(walk.places, items.as_slice()),
            _ => Some(ValueFault::Kind),
        },
    }
}

/// What is wrong with a number of ticks.
fn ticks_fault(tick: u64, content: &NodeContent, least: u64, most: u64) -> Option<ValueFault> {
    match content {
        NodeContent::Text(word) => match ticks_in(word.as_str(), tick) {
            Ok(ticks) => range_fault(ticks, least, most),
            Err(fault) => Some(fault),
        },
        _ => whole_fault(content, least, most),
    }
}

/// What is wrong with a whole number.
fn whole_fault(content: &NodeContent, least: u64, most: u64) -> Option<ValueFault> {
    match content {
        NodeContent::Whole(number) => match u64::try_from(*number) {
            Ok(number) => range_fault(number, least, most),
            Err(_) => Some(ValueFault::Range),
        },
        _ => Some(ValueFault::Kind),
    }
}

/// That a number is outside its range, where it is.
fn range_fault(number: u64, least: u64, most: u64) -> Option<ValueFault> {
    if least <= number && number <= most {
        None
    } else {
        Some(ValueFault::Range)
    }
}

/// What is wrong with a share of all messages.
fn share_fault(content: &NodeContent) -> Option<ValueFault> {
    match content {
        NodeContent::Text(word) => match share_of(word.as_str()) {
            Some(parts) => range_fault(parts, 0, WHOLE),
            None => Some(ValueFault::Kind),
        },
        _ => whole_fault(content, 0, WHOLE),
    }
}

/// What is wrong with how long a tick is.
fn tick_fault(content: &NodeContent) -> Option<ValueFault> {
    match content {
        NodeContent::Text(word) => match tick_of(word.as_str()) {
            Ok(_) => None,
            Err(LengthFault::NoLength) => Some(ValueFault::Kind),
            Err(LengthFault::PartTick) | Err(LengthFault::OutOfRange) => Some(ValueFault::Range),
        },
        _ => Some(ValueFault::Kind),
    }
}

/// What is wrong with a list of names: one is no string, or none is there.
fn texts_fault(places: &Places, items: &[usize]) -> Option<ValueFault> {
    if items.is_empty() {
        return Some(ValueFault::Range);
    }
    for item in items {
        if found_at(places, *item) != ValueKind::Text {
            return Some(ValueFault::Kind);
        }
    }
    None
}

/// Judges the entries of a list on members.
pub(crate) fn judge_entries(
    walk: &mut Walk<'_>,
    row: &KeyRule,
    home: Home,
    items: &[usize],
) -> Result<(), Memory> {
    for item in items {
        let found = found_at(walk.places, *item);
        if found == ValueKind::Table {
            judge_entry(walk, row.key, home, *item)?;
        } else {
            let span = walk.places.value(*item);
            walk.add(4, Cause::WrongItem { row: *row, found }, span)?;
        }
    }
    Ok(())
}

/// Judges which keys an entry has, and of what kind and range their values are.
fn judge_entry(
    walk: &mut Walk<'_>,
    list: FormatKey,
    home: Home,
    item: usize,
) -> Result<(), Memory> {
    judge_lacks(walk, list, home, item)?;
    let places = walk.places;
    if let Some(NodeContent::Table(keys)) = places.content(item) {
        for (name, place) in keys.iter() {
            judge_entry_key(walk, list, home, name.as_str(), *place)?;
        }
    }
    Ok(())
}

/// Judges a key of an entry.
fn judge_entry_key(
    walk: &mut Walk<'_>,
    list: FormatKey,
    home: Home,
    name: &str,
    place: usize,
) -> Result<(), Memory> {
    match entry_key(list, name) {
        Some(key) => judge_wanted(walk, key, place),
        None => {
            let found = found_at(walk.places, place);
            walk.add(3, Cause::UnknownKey { home, found }, walk.places.key(place))
        }
    }
}

/// Judges that an entry has the keys that it needs.
fn judge_lacks(
    walk: &mut Walk<'_>,
    list: FormatKey,
    home: Home,
    item: usize,
) -> Result<(), Memory> {
    if !has(walk, item, "member") && !has(walk, item, "members") && !has(walk, item, "group") {
        let span = walk.places.header(item);
        walk.add(2, Cause::NamesNobody { home }, span)?;
    }
    let again = has(walk, item, "every");
    if is_spell(list) {
        judge_spell_lacks(walk, list, home, item, again)
    } else if is_departure(list) && again {
        judge_lack(walk, home, item, "from")?;
        judge_lack(walk, home, item, "until")?;
        judge_lack(walk, home, item, "back")
    } else {
        judge_lack(walk, home, item, "at")
    }
}

/// Judges that a slow time, a pause or a block has the keys that it needs; `again` where it comes again and again.
fn judge_spell_lacks(
    walk: &mut Walk<'_>,
    list: FormatKey,
    home: Home,
    item: usize,
    again: bool,
) -> Result<(), Memory> {
    judge_lack(walk, home, item, "from")?;
    judge_lack(walk, home, item, "until")?;
    if again {
        judge_lack(walk, home, item, "lasts")?;
    }
    if list == FormatKey::Slow {
        judge_lack(walk, home, item, "extra")?;
    }
    Ok(())
}

/// Judges that an entry has a key.
fn judge_lack(
    walk: &mut Walk<'_>,
    home: Home,
    item: usize,
    key: &'static str,
) -> Result<(), Memory> {
    if has(walk, item, key) {
        return Ok(());
    }
    let span = walk.places.header(item);
    walk.add(2, Cause::LacksKey { home, key }, span)
}

/// Whether a table has a key.
pub(crate) fn has(walk: &Walk<'_>, table: usize, key: &str) -> bool {
    walk.places.child(table, key).is_some()
}
