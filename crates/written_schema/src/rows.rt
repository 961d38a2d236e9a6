//! The keys of a text of version 4 and the rows that say of each what it has to be.
ghost use Rattle.std.specs.Prelude.{◌≡◌};
ghost use Rattle.written_schema.specs.Rows.{added_spelling, key_text, rows_of};

use crate::tables::{CUT, GOSSIP, GROUP, LIFEGUARD, LINK, PATH, SERF, STREAM, SUSPICION, SWIM};
use crate::top::TOP;
use schema::{Absence, FormatKey};

/// A key that version 4 adds to those of version 3.
#[derive(Clone, Copy, Debug, PartialEq, Eq)]
pub enum AddedKey {
    Tick,
    Restart,
    Block,
    Serf,
    Both,
    Queue,
    Packet,
    Meta,
    Limit,
    Retry,
    Reconnect,
    Reap,
    Linger,
}

impl AddedKey {
    /// How the text spells the key.
    pub fn text(self) -> &'static str
        ensures { result.now ≡ added_spelling self }
    {
        match self {
            AddedKey::Tick => "tick",
            AddedKey::Restart => "restart",
            AddedKey::Block => "block",
            AddedKey::Serf => "serf",
            AddedKey::Both => "both",
            AddedKey::Queue => "queue",
            AddedKey::Packet => "packet",
            AddedKey::Meta => "meta",
            AddedKey::Limit => "limit",
            AddedKey::Retry => "retry",
            AddedKey::Reconnect => "reconnect",
            AddedKey::Reap => "reap",
            AddedKey::Linger => "linger",
        }
    }
}

/// A key of a text of version 4, outside its six lists about members.
#[derive(Clone, Copy, Debug, PartialEq, Eq)]
pub enum WrittenKey {
    /// Version 3 has it.
    Known(FormatKey),
    /// Version 4 adds it.
    Added(AddedKey),
}

impl WrittenKey {
    /// How the text spells the key.
    pub fn text(self) -> &'static str
        ensures { result.now ≡ key_text self }
    {
        match self {
            WrittenKey::Known(key) => key.text(),
            WrittenKey::Added(key) => key.text(),
        }
    }
}

/// A kind of table: each has the same keys wherever it stands.
#[derive(Clone, Copy, Debug, PartialEq, Eq)]
pub enum WrittenSection {
    /// The whole text.
    Top,
    Swim,
    Suspicion,
    Lifeguard,
    Link,
    /// One item of the list of groups.
    Group,
    /// One item of the list of paths.
    Path,
    /// One item of the list of cuts.
    Cut,
    Gossip,
    Stream,
    Serf,
}

impl WrittenSection {
    /// The rows of the section's keys: version 3's first.
    pub fn rows(self) -> &'static [WrittenRow]
        ensures { result.now ≡ rows_of self }
    {
        match self {
            WrittenSection::Top => &TOP,
            WrittenSection::Swim => &SWIM,
            WrittenSection::Suspicion => &SUSPICION,
            WrittenSection::Lifeguard => &LIFEGUARD,
            WrittenSection::Link => &LINK,
            WrittenSection::Group => &GROUP,
            WrittenSection::Path => &PATH,
            WrittenSection::Cut => &CUT,
            WrittenSection::Gossip => &GOSSIP,
            WrittenSection::Stream => &STREAM,
            WrittenSection::Serf => &SERF,
        }
    }
}

/// What the value of a key has to be. Both ends of a range are in it.
#[derive(Clone, Copy, Debug, PartialEq, Eq)]
pub enum WrittenKind {
    /// So many ticks: a whole number, or a length as `1.5s`.
    Ticks { least: u64, most: u64 },
    /// A share: parts per million, or a string as `2%`.
    Share,
    /// How long a tick is.
    Tick,
    /// A whole number.
    Whole { least: u64, most: u64 },
    /// A boolean.
    Switch,
    /// A string.
    Text,
    /// A table of its own.
    Table(WrittenSection),
    /// A list of tables.
    List(WrittenSection),
    /// One of the six lists about members, which `script_reader` judges.
    Script,
}

/// A key of a table.
#[derive(Clone, Copy, Debug, PartialEq, Eq)]
pub struct WrittenRow {
    pub key: WrittenKey,
    pub absence: Absence,
    pub kind: WrittenKind,
}
