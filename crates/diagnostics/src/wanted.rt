//! What version 4 wants of a value: numbers of ticks may be lengths, and entries on members have more keys.
use schema::{FormatKey, KeyRule, Kind, Section};

/// The latest moment, in ticks.
const LATEST: u64 = 0x100_0000_0000;

/// The longest time that comes again and again, in ticks.
const LONGEST: u64 = 0x8000_0000;

/// The most members of a group.
const MOST_MEMBERS: u64 = 16_384;

/// What a value of a text of version 4 has to be. Both ends of a range are in it.
#[derive(Clone, Copy, Debug, PartialEq, Eq)]
pub enum Wanted {
    /// So many ticks: a whole number, or a length as `1.5s`.
    Ticks { least: u64, most: u64 },
    /// Lost messages in a million, or a share as `2%`.
    Share,
    /// How long a tick is, as `1ms`.
    Tick,
    /// A whole number.
    Whole { least: u64, most: u64 },
    Switch,
    /// A string.
    Text,
    /// A list of strings.
    Texts,
}

/// A key of version 4, and what its value has to be.
#[derive(Clone, Copy)]
pub(crate) struct WrittenKey {
    pub(crate) name: &'static str,
    pub(crate) wanted: Wanted,
}

/// A moment.
const MOMENT: Wanted = Wanted::Ticks {
    least: 0,
    most: LATEST,
};

/// How long something lasts, or until it comes again.
const LASTING: Wanted = Wanted::Ticks {
    least: 1,
    most: LONGEST,
};

/// What the value of a row has to be, where it may be more than the row says: a length, or a share.
pub(crate) fn wanted_in(row: &KeyRule) -> Option<Wanted> {
    match row.kind {
        Kind::Whole { least, most } => {
            if row.key == FormatKey::Loss {
                Some(Wanted::Share)
            } else if counts_ticks(row.key) {
                Some(Wanted::Ticks { least, most })
            } else {
                None
            }
        }
        Kind::Switch | Kind::Text | Kind::Table(_) | Kind::List(_) => None,
    }
}

/// Whether a whole number of a key counts ticks.
pub(crate) fn counts_ticks(key: FormatKey) -> bool {
    match key {
        FormatKey::End | FormatKey::Period | FormatKey::Timeout | FormatKey::Spread => true,
        FormatKey::Interval | FormatKey::Dead | FormatKey::Push => true,
        FormatKey::Connect | FormatKey::Again | FormatKey::Limit | FormatKey::Retry => true,
        FormatKey::Reconnect | FormatKey::Reap | FormatKey::Linger => true,
        FormatKey::Delay | FormatKey::Jitter | FormatKey::Extra => true,
        FormatKey::Start | FormatKey::At | FormatKey::From | FormatKey::Until => true,
        _ => false,
    }
}

/// A key that only version 4 has, of a table outside the lists of entries on members.
pub(crate) fn added_key(section: Section, name: &str) -> Option<WrittenKey> {
    match section {
        Section::Top if name == "tick" => key_of("tick", Wanted::Tick),
        Section::Path | Section::Cut if name == "both" => key_of("both", Wanted::Switch),
        _ => None,
    }
}

/// Whether the items of a list are entries on members.
pub(crate) fn is_script(list: FormatKey) -> bool {
    match list {
        FormatKey::Crash | FormatKey::Leave | FormatKey::Restart => true,
        FormatKey::Slow | FormatKey::Pause | FormatKey::Block => true,
        _ => false,
    }
}

/// Whether the entries of a list say that members go.
pub(crate) fn is_departure(list: FormatKey) -> bool {
    list == FormatKey::Crash || list == FormatKey::Leave
}

/// Whether they say when members are slow, paused or blocked.
pub(crate) fn is_spell(list: FormatKey) -> bool {
    list == FormatKey::Slow || list == FormatKey::Pause || list == FormatKey::Block
}

/// A key of an entry of a list on members.
pub(crate) fn entry_key(list: FormatKey, name: &str) -> Option<WrittenKey> {
    match name {
        "member" => key_of("member", Wanted::Text),
        "members" => key_of("members", Wanted::Texts),
        "group" => key_of("group", Wanted::Text),
        "name" => key_of("name", Wanted::Text),
        "count" => key_of(
            "count",
            Wanted::Whole {
                least: 1,
                most: MOST_MEMBERS,
            },
        ),
        _ => {
            if is_spell(list) {
                spell_key(list, name)
            } else {
                moment_key(list, name)
            }
        }
    }
}

/// A key that says when members are slow, paused or blocked.
fn spell_key(list: FormatKey, name: &str) -> Option<WrittenKey> {
    match name {
        "from" => key_of("from", MOMENT),
        "until" => key_of("until", MOMENT),
        "every" => key_of("every", LASTING),
        "lasts" => key_of("lasts", LASTING),
        "lasts_most" => key_of("lasts_most", LASTING),
        "extra" if list == FormatKey::Slow => key_of(
            "extra",
            Wanted::Ticks {
                least: 1,
                most: 0x100_0000,
            },
        ),
        _ => None,
    }
}

/// A key that says when members go, or start again.
fn moment_key(list: FormatKey, name: &str) -> Option<WrittenKey> {
    match name {
        "at" => key_of("at", MOMENT),
        "each" => key_of("each", MOMENT),
        "contact" => key_of("contact", Wanted::Text),
        _ => {
            if is_departure(list) {
                departure_key(name)
            } else {
                None
            }
        }
    }
}

/// A key that says when members go again and again, or come back.
fn departure_key(name: &str) -> Option<WrittenKey> {
    match name {
        "from" => key_of("from", MOMENT),
        "until" => key_of("until", MOMENT),
        "every" => key_of("every", LASTING),
        "back" => key_of(
            "back",
            Wanted::Ticks {
                least: 1,
                most: LATEST,
            },
        ),
        _ => None,
    }
}

/// A key and what its value has to be.
fn key_of(name: &'static str, wanted: Wanted) -> Option<WrittenKey> {
    Some(WrittenKey { name, wanted })
}

/// The keys of the entries of a list on members.
pub fn entry_keys(list: FormatKey) -> &'static str {
    match list {
        FormatKey::Restart => "member, members, group, count, name, at, each, contact",
        FormatKey::Crash | FormatKey::Leave => {
            "member, members, group, count, name, at, each, back, contact, from, until, every"
        }
        FormatKey::Slow => {
            "member, members, group, count, name, from, until, every, lasts, lasts_most, extra"
        }
        _ => "member, members, group, count, name, from, until, every, lasts, lasts_most",
    }
}
