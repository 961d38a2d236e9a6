//! The rows of the keys of the whole text.
use crate::rows::{AddedKey, WrittenKey, WrittenKind, WrittenRow, WrittenSection};
use base::limits::LATEST_MOMENT;
use schema::{Absence, FormatKey};

/// The whole text.
pub(crate) const TOP: [WrittenRow; 20] = [
    WrittenRow {
        key: WrittenKey::Known(FormatKey::Version),
        absence: Absence::Refused,
        kind: WrittenKind::Whole { least: 1, most: 4 },
    },
    WrittenRow {
        key: WrittenKey::Known(FormatKey::Seed),
        absence: Absence::Refused,
        kind: WrittenKind::Whole {
            least: 0,
            most: 0x7fff_ffff_ffff_ffff,
        },
    },
    WrittenRow {
        key: WrittenKey::Known(FormatKey::End),
        absence: Absence::Refused,
        kind: WrittenKind::Ticks {
            least: 0,
            most: LATEST_MOMENT,
        },
    },
    WrittenRow {
        key: WrittenKey::Known(FormatKey::Swim),
        absence: Absence::Refused,
        kind: WrittenKind::Table(WrittenSection::Swim),
    },
    WrittenRow {
        key: WrittenKey::Known(FormatKey::Suspicion),
        absence: Absence::Optional,
        kind: WrittenKind::Table(WrittenSection::Suspicion),
    },
    WrittenRow {
        key: WrittenKey::Known(FormatKey::Lifeguard),
        absence: Absence::Optional,
        kind: WrittenKind::Table(WrittenSection::Lifeguard),
    },
    WrittenRow {
        key: WrittenKey::Known(FormatKey::Link),
        absence: Absence::Refused,
        kind: WrittenKind::Table(WrittenSection::Link),
    },
    WrittenRow {
        key: WrittenKey::Known(FormatKey::Group),
        absence: Absence::Refused,
        kind: WrittenKind::List(WrittenSection::Group),
    },
    WrittenRow {
        key: WrittenKey::Known(FormatKey::Path),
        absence: Absence::Optional,
        kind: WrittenKind::List(WrittenSection::Path),
    },
    WrittenRow {
        key: WrittenKey::Known(FormatKey::Slow),
        absence: Absence::Optional,
        kind: WrittenKind::Script,
    },
    WrittenRow {
        key: WrittenKey::Known(FormatKey::Crash),
        absence: Absence::Optional,
        kind: WrittenKind::Script,
    },
    WrittenRow {
        key: WrittenKey::Known(FormatKey::Cut),
        absence: Absence::Optional,
        kind: WrittenKind::List(WrittenSection::Cut),
    },
    WrittenRow {
        key: WrittenKey::Known(FormatKey::Leave),
        absence: Absence::Optional,
        kind: WrittenKind::Script,
    },
    WrittenRow {
        key: WrittenKey::Known(FormatKey::Gossip),
        absence: Absence::Optional,
        kind: WrittenKind::Table(WrittenSection::Gossip),
    },
    WrittenRow {
        key: WrittenKey::Known(FormatKey::Stream),
        absence: Absence::Optional,
        kind: WrittenKind::Table(WrittenSection::Stream),
    },
    WrittenRow {
        key: WrittenKey::Known(FormatKey::Pause),
        absence: Absence::Optional,
        kind: WrittenKind::Script,
    },
    WrittenRow {
        key: WrittenKey::Added(AddedKey::Tick),
        absence: Absence::Optional,
        kind: WrittenKind::Tick,
    },
    WrittenRow {
        key: WrittenKey::Added(AddedKey::Restart),
        absence: Absence::Optional,
        kind: WrittenKind::Script,
    },
    WrittenRow {
        key: WrittenKey::Added(AddedKey::Block),
        absence: Absence::Optional,
        kind: WrittenKind::Script,
    },
    WrittenRow {
        key: WrittenKey::Added(AddedKey::Serf),
        absence: Absence::Optional,
        kind: WrittenKind::Table(WrittenSection::Serf),
    },
];
