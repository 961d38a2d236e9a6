//! The causes of diagnostics in a scenario text, by the rule that each breaks (1 to 10), with the values that a
//! diagnostic shows.
use crate::wanted::Wanted;
use schema::{FormatKey, KeyRule, Section, Version};
use toml_places::Span;

/// What kind of value stands somewhere.
#[derive(Clone, Copy, Debug, PartialEq, Eq)]
pub enum ValueKind {
    Whole,
    Float,
    Switch,
    Text,
    Datetime,
    List,
    Table,
}

/// A table that the format names: of what section it is, and under which key of the whole text it or its
/// list stands; none for the whole text.
#[derive(Clone, Copy, Debug, PartialEq, Eq)]
pub struct Home {
    pub section: Section,
    pub key: Option<FormatKey>,
}

/// How a member goes, or comes again.
#[derive(Clone, Copy, Debug, PartialEq, Eq)]
pub enum DepartureKind {
    Crash,
    Leave,
    /// It starts again.
    Restart,
}

/// Why a text breaks a rule, with the values at hand.
#[derive(Clone, Copy, Debug, PartialEq, Eq)]
pub enum Cause {
    /// Rule 1: the bytes are no UTF-8.
    NoUtf8,
    /// Rule 1: the text is no TOML document.
    NoDocument,
    /// Rule 2: a key of a table isn't there.
    MissingKey {
        home: Home,
        row: KeyRule,
    },
    /// Rule 2: a list that needs an item has none.
    EmptyList {
        row: KeyRule,
    },
    /// Rule 2: a group that starts at this moment has no contact.
    MissingContact {
        start: i64,
    },
    /// Rule 2: an entry names no member and no group.
    NamesNobody {
        home: Home,
    },
    /// Rule 2: an entry on members lacks this key.
    LacksKey {
        home: Home,
        key: &'static str,
    },
    /// Rule 3: a table has no key of this name, whose value is of this kind.
    UnknownKey {
        home: Home,
        found: ValueKind,
    },
    /// Rule 3: a later version than the text's has the key, and this is the first that does.
    LaterKey {
        version: Version,
    },
    /// Rule 4: the value of a key is of another kind.
    WrongKind {
        row: KeyRule,
        found: ValueKind,
    },
    /// Rule 4: an item of the list of a key is no table.
    WrongItem {
        row: KeyRule,
        found: ValueKind,
    },
    /// Rule 5: a whole number is outside its range.
    OutOfRange {
        row: KeyRule,
        number: i64,
    },
    /// Rule 4: the value of a key of version 4 is of another kind.
    OtherKind {
        key: &'static str,
        wanted: Wanted,
        found: ValueKind,
    },
    /// Rule 5: the value of a key of version 4 is outside its range, or no whole number of ticks.
    Outside {
        key: &'static str,
        wanted: Wanted,
    },
    /// Rule 6: a group's name, or in version 4 an entry's, has another form.
    BadName,
    /// Rule 6: an earlier group, whose name stands at `other`, has the name too.
    RepeatedName {
        other: Span,
    },
    /// Rule 6: an earlier entry of the list, whose name stands at `other`, has the name too.
    RepeatedEntry {
        other: Span,
    },
    /// Rule 7: no group has the name.
    NoGroup,
    /// Rule 7: no member has the name.
    NoMember,
    /// Rule 8: the member goes twice, the other time as the text says at `other`.
    GoneTwice {
        now: DepartureKind,
        before: DepartureKind,
        other: Span,
    },
    /// Rule 8: the member is slow, or paused, at the same time, as the text says at `other`; `key` is that of the
    /// list.
    Overlap {
        key: FormatKey,
        other: Span,
    },
    /// Rule 9: the timeout isn't below the period, which stands at `other`.
    LongTimeout {
        timeout: u64,
        period: u64,
        other: Span,
    },
    /// Rule 9: a group that starts at moment 0 has a contact.
    NeedlessContact,
    /// Rule 9: the contact itself starts at this moment, after 0.
    LateContact {
        start: u64,
    },
    /// Rule 9: a member goes at a moment that isn't after its start.
    EarlyDeparture {
        departure: DepartureKind,
        at: u64,
        start: u64,
    },
    /// Rule 9: a time is over when it begins; `key` is that of its beginning.
    EndsTooSoon {
        key: FormatKey,
        begins: u64,
        until: u64,
    },
    /// Rule 9: a key of an entry stands beside another one.
    BesideKey {
        key: &'static str,
        other: &'static str,
    },
    /// Rule 9: a key of an entry stands without another one.
    WithoutKey {
        key: &'static str,
        other: &'static str,
    },
    /// Rule 9: a time lasts less at the most than at least.
    LastsLess {
        least: u64,
        most: u64,
    },
    /// Rule 9: a member is named twice, the other time as the text says at `other`.
    NamedTwice {
        other: Span,
    },
    /// Rule 9: more members are to be chosen than a group has.
    CountOverGroup {
        count: u64,
        members: u64,
    },
    /// Rule 9: a member is to ask itself.
    AsksItself,
    /// Rule 10: there are more members than a text of its version may have.
    TooManyMembers {
        members: u128,
        most: u64,
    },
    /// Any rule, with no more known of the cause.
    General,
}
