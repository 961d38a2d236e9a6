//! The rows of the keys of tables, and of the items of lists: a constant for each.
use crate::rows::{AddedKey, WrittenKey, WrittenKind, WrittenRow};
use base::limits::LATEST_MOMENT;
use schema::{Absence, FormatKey};

/// The most members that a group may have, and all groups together.
const MOST_MEMBERS: u64 = 16_384;

/// How members probe and gossip.
pub(crate) const SWIM: [WrittenRow; 7] = [
    WrittenRow {
        key: WrittenKey::Known(FormatKey::Period),
        absence: Absence::Refused,
        kind: WrittenKind::Ticks {
            least: 2,
            most: 0x100_0000,
        },
    },
    WrittenRow {
        key: WrittenKey::Known(FormatKey::Timeout),
        absence: Absence::Refused,
        kind: WrittenKind::Ticks {
            least: 1,
            most: 0x100_0000,
        },
    },
    WrittenRow {
        key: WrittenKey::Known(FormatKey::Helpers),
        absence: Absence::Default(3),
        kind: WrittenKind::Whole { least: 0, most: 16 },
    },
    WrittenRow {
        key: WrittenKey::Known(FormatKey::Carry),
        absence: Absence::Default(6),
        kind: WrittenKind::Whole { least: 1, most: 64 },
    },
    WrittenRow {
        key: WrittenKey::Known(FormatKey::Lambda),
        absence: Absence::Default(3),
        kind: WrittenKind::Whole {
            least: 1,
            most: 100,
        },
    },
    WrittenRow {
        key: WrittenKey::Known(FormatKey::Spread),
        absence: Absence::Default(1),
        kind: WrittenKind::Ticks {
            least: 1,
            most: 0x100_0000,
        },
    },
    WrittenRow {
        key: WrittenKey::Known(FormatKey::Fallback),
        absence: Absence::Off,
        kind: WrittenKind::Switch,
    },
];

/// How long suspicions last.
pub(crate) const SUSPICION: [WrittenRow; 2] = [
    WrittenRow {
        key: WrittenKey::Known(FormatKey::Alpha),
        absence: Absence::Default(5),
        kind: WrittenKind::Whole {
            least: 1,
            most: 100,
        },
    },
    WrittenRow {
        key: WrittenKey::Known(FormatKey::Beta),
        absence: Absence::Default(6),
        kind: WrittenKind::Whole {
            least: 1,
            most: 100,
        },
    },
];

/// Lifeguard's switches and their settings.
pub(crate) const LIFEGUARD: [WrittenRow; 6] = [
    WrittenRow {
        key: WrittenKey::Known(FormatKey::Probe),
        absence: Absence::Optional,
        kind: WrittenKind::Switch,
    },
    WrittenRow {
        key: WrittenKey::Known(FormatKey::Suspicion),
        absence: Absence::Optional,
        kind: WrittenKind::Switch,
    },
    WrittenRow {
        key: WrittenKey::Known(FormatKey::Buddy),
        absence: Absence::Optional,
        kind: WrittenKind::Switch,
    },
    WrittenRow {
        key: WrittenKey::Known(FormatKey::Ceiling),
        absence: Absence::Default(8),
        kind: WrittenKind::Whole { least: 0, most: 16 },
    },
    WrittenRow {
        key: WrittenKey::Known(FormatKey::Confirmations),
        absence: Absence::Default(3),
        kind: WrittenKind::Whole { least: 0, most: 9 },
    },
    WrittenRow {
        key: WrittenKey::Known(FormatKey::NackPercent),
        absence: Absence::Default(80),
        kind: WrittenKind::Whole {
            least: 1,
            most: 100,
        },
    },
];

/// How messages travel.
pub(crate) const LINK: [WrittenRow; 3] = [
    WrittenRow {
        key: WrittenKey::Known(FormatKey::Delay),
        absence: Absence::Refused,
        kind: WrittenKind::Ticks {
            least: 1,
            most: 0x10_0000,
        },
    },
    WrittenRow {
        key: WrittenKey::Known(FormatKey::Jitter),
        absence: Absence::Default(0),
        kind: WrittenKind::Ticks {
            least: 0,
            most: 0x10_0000,
        },
    },
    WrittenRow {
        key: WrittenKey::Known(FormatKey::Loss),
        absence: Absence::Default(0),
        kind: WrittenKind::Share,
    },
];

/// A group of members.
pub(crate) const GROUP: [WrittenRow; 4] = [
    WrittenRow {
        key: WrittenKey::Known(FormatKey::Name),
        absence: Absence::Refused,
        kind: WrittenKind::Text,
    },
    WrittenRow {
        key: WrittenKey::Known(FormatKey::Count),
        absence: Absence::Refused,
        kind: WrittenKind::Whole {
            least: 1,
            most: MOST_MEMBERS,
        },
    },
    WrittenRow {
        key: WrittenKey::Known(FormatKey::Start),
        absence: Absence::Default(0),
        kind: WrittenKind::Ticks {
            least: 0,
            most: LATEST_MOMENT,
        },
    },
    WrittenRow {
        key: WrittenKey::Known(FormatKey::Contact),
        absence: Absence::RefusedOver0(FormatKey::Start),
        kind: WrittenKind::Text,
    },
];

/// The link from the members of one group to those of another.
pub(crate) const PATH: [WrittenRow; 6] = [
    WrittenRow {
        key: WrittenKey::Known(FormatKey::From),
        absence: Absence::Refused,
        kind: WrittenKind::Text,
    },
    WrittenRow {
        key: WrittenKey::Known(FormatKey::To),
        absence: Absence::Refused,
        kind: WrittenKind::Text,
    },
    WrittenRow {
        key: WrittenKey::Known(FormatKey::Delay),
        absence: Absence::Optional,
        kind: WrittenKind::Ticks {
            least: 1,
            most: 0x10_0000,
        },
    },
    WrittenRow {
        key: WrittenKey::Known(FormatKey::Jitter),
        absence: Absence::Optional,
        kind: WrittenKind::Ticks {
            least: 0,
            most: 0x10_0000,
        },
    },
    WrittenRow {
        key: WrittenKey::Known(FormatKey::Loss),
        absence: Absence::Optional,
        kind: WrittenKind::Share,
    },
    WrittenRow {
        key: WrittenKey::Added(AddedKey::Both),
        absence: Absence::Off,
        kind: WrittenKind::Switch,
    },
];

/// A time in which the links from one group to another, or within one, lose all.
pub(crate) const CUT: [WrittenRow; 5] = [
    WrittenRow {
        key: WrittenKey::Known(FormatKey::From),
        absence: Absence::Refused,
        kind: WrittenKind::Text,
    },
    WrittenRow {
        key: WrittenKey::Known(FormatKey::To),
        absence: Absence::Refused,
        kind: WrittenKind::Text,
    },
    WrittenRow {
        key: WrittenKey::Known(FormatKey::At),
        absence: Absence::Refused,
        kind: WrittenKind::Ticks {
            least: 0,
            most: LATEST_MOMENT,
        },
    },
    WrittenRow {
        key: WrittenKey::Known(FormatKey::Until),
        absence: Absence::Refused,
        kind: WrittenKind::Ticks {
            least: 0,
            most: LATEST_MOMENT,
        },
    },
    WrittenRow {
        key: WrittenKey::Added(AddedKey::Both),
        absence: Absence::Off,
        kind: WrittenKind::Switch,
    },
];

/// How members gossip between their probes.
pub(crate) const GOSSIP: [WrittenRow; 7] = [
    WrittenRow {
        key: WrittenKey::Known(FormatKey::Interval),
        absence: Absence::Refused,
        kind: WrittenKind::Ticks {
            least: 1,
            most: 0x100_0000,
        },
    },
    WrittenRow {
        key: WrittenKey::Known(FormatKey::Nodes),
        absence: Absence::Default(3),
        kind: WrittenKind::Whole { least: 1, most: 16 },
    },
    WrittenRow {
        key: WrittenKey::Known(FormatKey::Dead),
        absence: Absence::Default(0),
        kind: WrittenKind::Ticks {
            least: 0,
            most: LATEST_MOMENT,
        },
    },
    WrittenRow {
        key: WrittenKey::Known(FormatKey::Push),
        absence: Absence::Default(0),
        kind: WrittenKind::Ticks {
            least: 0,
            most: 0x100_0000,
        },
    },
    WrittenRow {
        key: WrittenKey::Added(AddedKey::Queue),
        absence: Absence::Off,
        kind: WrittenKind::Switch,
    },
    WrittenRow {
        key: WrittenKey::Added(AddedKey::Packet),
        absence: Absence::Default(0),
        kind: WrittenKind::Whole {
            least: 0,
            most: 65507,
        },
    },
    WrittenRow {
        key: WrittenKey::Added(AddedKey::Meta),
        absence: Absence::Default(0),
        kind: WrittenKind::Whole {
            least: 0,
            most: 512,
        },
    },
];

/// How streams between members are opened and send again.
pub(crate) const STREAM: [WrittenRow; 4] = [
    WrittenRow {
        key: WrittenKey::Known(FormatKey::Connect),
        absence: Absence::Default(1000),
        kind: WrittenKind::Ticks {
            least: 1,
            most: 0x100_0000,
        },
    },
    WrittenRow {
        key: WrittenKey::Known(FormatKey::Again),
        absence: Absence::Default(200),
        kind: WrittenKind::Ticks {
            least: 1,
            most: 0x100_0000,
        },
    },
    WrittenRow {
        key: WrittenKey::Added(AddedKey::Limit),
        absence: Absence::Default(10000),
        kind: WrittenKind::Ticks {
            least: 1,
            most: 0x100_0000,
        },
    },
    WrittenRow {
        key: WrittenKey::Added(AddedKey::Retry),
        absence: Absence::Default(30000),
        kind: WrittenKind::Ticks {
            least: 1,
            most: 0x100_0000,
        },
    },
];

/// Serf's reconnect and leave.
pub(crate) const SERF: [WrittenRow; 3] = [
    WrittenRow {
        key: WrittenKey::Added(AddedKey::Reconnect),
        absence: Absence::Default(30000),
        kind: WrittenKind::Ticks {
            least: 1,
            most: 0x100_0000,
        },
    },
    WrittenRow {
        key: WrittenKey::Added(AddedKey::Reap),
        absence: Absence::Default(86400000),
        kind: WrittenKind::Ticks {
            least: 0,
            most: LATEST_MOMENT,
        },
    },
    WrittenRow {
        key: WrittenKey::Added(AddedKey::Linger),
        absence: Absence::Default(1000),
        kind: WrittenKind::Ticks {
            least: 1,
            most: 0x100_0000,
        },
    },
];
