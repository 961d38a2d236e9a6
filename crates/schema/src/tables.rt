//! The rows of the format: a constant for each kind of table, and for each version where they differ.
use crate::schema::{Absence, FormatKey, KeyRule, Kind, Section};
use base::limits::{LATEST_MOMENT, MOST_MEMBERS, MOST_MEMBERS_AT_FIRST, MOST_MEMBERS_BEFORE_4};

const VERSION_1: KeyRule = KeyRule {
    key: FormatKey::Version,
    absence: Absence::Refused,
    kind: Kind::Whole { least: 1, most: 1 },
};

const VERSION_2: KeyRule = KeyRule {
    key: FormatKey::Version,
    absence: Absence::Refused,
    kind: Kind::Whole { least: 1, most: 2 },
};

const VERSION_3: KeyRule = KeyRule {
    key: FormatKey::Version,
    absence: Absence::Refused,
    kind: Kind::Whole { least: 1, most: 3 },
};

const VERSION_4: KeyRule = KeyRule {
    key: FormatKey::Version,
    absence: Absence::Refused,
    kind: Kind::Whole { least: 1, most: 4 },
};

const SEED: KeyRule = KeyRule {
    key: FormatKey::Seed,
    absence: Absence::Refused,
    kind: Kind::Whole {
        least: 0,
        most: 0x7fff_ffff_ffff_ffff,
    },
};

const END: KeyRule = KeyRule {
    key: FormatKey::End,
    absence: Absence::Refused,
    kind: Kind::Whole {
        least: 0,
        most: LATEST_MOMENT,
    },
};

const SWIM_TABLE: KeyRule = KeyRule {
    key: FormatKey::Swim,
    absence: Absence::Refused,
    kind: Kind::Table(Section::Swim),
};

const SUSPICION_TABLE: KeyRule = KeyRule {
    key: FormatKey::Suspicion,
    absence: Absence::Optional,
    kind: Kind::Table(Section::Suspicion),
};

const LIFEGUARD_TABLE: KeyRule = KeyRule {
    key: FormatKey::Lifeguard,
    absence: Absence::Optional,
    kind: Kind::Table(Section::Lifeguard),
};

const LINK_TABLE: KeyRule = KeyRule {
    key: FormatKey::Link,
    absence: Absence::Refused,
    kind: Kind::Table(Section::Link),
};

const GROUPS: KeyRule = KeyRule {
    key: FormatKey::Group,
    absence: Absence::Refused,
    kind: Kind::List(Section::Group),
};

const PATHS: KeyRule = KeyRule {
    key: FormatKey::Path,
    absence: Absence::Optional,
    kind: Kind::List(Section::Path),
};

const SLOWS: KeyRule = KeyRule {
    key: FormatKey::Slow,
    absence: Absence::Optional,
    kind: Kind::List(Section::Slow),
};

const CRASHES: KeyRule = KeyRule {
    key: FormatKey::Crash,
    absence: Absence::Optional,
    kind: Kind::List(Section::Departure),
};

const CUTS: KeyRule = KeyRule {
    key: FormatKey::Cut,
    absence: Absence::Optional,
    kind: Kind::List(Section::Cut),
};

const LEAVES: KeyRule = KeyRule {
    key: FormatKey::Leave,
    absence: Absence::Optional,
    kind: Kind::List(Section::Departure),
};

const GOSSIP_TABLE: KeyRule = KeyRule {
    key: FormatKey::Gossip,
    absence: Absence::Optional,
    kind: Kind::Table(Section::Gossip),
};

const STREAM_TABLE: KeyRule = KeyRule {
    key: FormatKey::Stream,
    absence: Absence::Optional,
    kind: Kind::Table(Section::Stream),
};

const PAUSES: KeyRule = KeyRule {
    key: FormatKey::Pause,
    absence: Absence::Optional,
    kind: Kind::List(Section::Pause),
};

/// The whole text in version 1.
pub(crate) const TOP_1: [KeyRule; 11] = [
    VERSION_1,
    SEED,
    END,
    SWIM_TABLE,
    SUSPICION_TABLE,
    LIFEGUARD_TABLE,
    LINK_TABLE,
    GROUPS,
    PATHS,
    SLOWS,
    CRASHES,
];

/// The whole text in version 2.
pub(crate) const TOP_2: [KeyRule; 13] = [
    VERSION_2,
    SEED,
    END,
    SWIM_TABLE,
    SUSPICION_TABLE,
    LIFEGUARD_TABLE,
    LINK_TABLE,
    GROUPS,
    PATHS,
    SLOWS,
    CRASHES,
    CUTS,
    LEAVES,
];

/// The whole text in version 3.
pub(crate) const TOP_3: [KeyRule; 16] = [
    VERSION_3,
    SEED,
    END,
    SWIM_TABLE,
    SUSPICION_TABLE,
    LIFEGUARD_TABLE,
    LINK_TABLE,
    GROUPS,
    PATHS,
    SLOWS,
    CRASHES,
    CUTS,
    LEAVES,
    GOSSIP_TABLE,
    STREAM_TABLE,
    PAUSES,
];

const RESTARTS: KeyRule = KeyRule {
    key: FormatKey::Restart,
    absence: Absence::Optional,
    kind: Kind::List(Section::Restart),
};

const BLOCKS: KeyRule = KeyRule {
    key: FormatKey::Block,
    absence: Absence::Optional,
    kind: Kind::List(Section::Pause),
};

const SERF_TABLE: KeyRule = KeyRule {
    key: FormatKey::Serf,
    absence: Absence::Optional,
    kind: Kind::Table(Section::Serf),
};

/// The whole text in version 4.
pub(crate) const TOP_4: [KeyRule; 19] = [
    VERSION_4,
    SEED,
    END,
    SWIM_TABLE,
    SUSPICION_TABLE,
    LIFEGUARD_TABLE,
    LINK_TABLE,
    GROUPS,
    PATHS,
    SLOWS,
    CRASHES,
    CUTS,
    LEAVES,
    GOSSIP_TABLE,
    STREAM_TABLE,
    PAUSES,
    RESTARTS,
    BLOCKS,
    SERF_TABLE,
];

const PERIOD: KeyRule = KeyRule {
    key: FormatKey::Period,
    absence: Absence::Refused,
    kind: Kind::Whole {
        least: 2,
        most: 0x100_0000,
    },
};

const TIMEOUT: KeyRule = KeyRule {
    key: FormatKey::Timeout,
    absence: Absence::Refused,
    kind: Kind::Whole {
        least: 1,
        most: 0x100_0000,
    },
};

const HELPERS: KeyRule = KeyRule {
    key: FormatKey::Helpers,
    absence: Absence::Default(3),
    kind: Kind::Whole { least: 0, most: 16 },
};

const CARRY: KeyRule = KeyRule {
    key: FormatKey::Carry,
    absence: Absence::Default(6),
    kind: Kind::Whole { least: 1, most: 64 },
};

const LAMBDA: KeyRule = KeyRule {
    key: FormatKey::Lambda,
    absence: Absence::Default(3),
    kind: Kind::Whole {
        least: 1,
        most: 100,
    },
};

const SPREAD: KeyRule = KeyRule {
    key: FormatKey::Spread,
    absence: Absence::Default(1),
    kind: Kind::Whole {
        least: 1,
        most: 0x100_0000,
    },
};

const FALLBACK: KeyRule = KeyRule {
    key: FormatKey::Fallback,
    absence: Absence::Off,
    kind: Kind::Switch,
};

/// How members probe and gossip in versions 1 and 2.
pub(crate) const SWIM_1: [KeyRule; 6] = [PERIOD, TIMEOUT, HELPERS, CARRY, LAMBDA, SPREAD];

/// How members probe and gossip in version 3.
pub(crate) const SWIM_3: [KeyRule; 7] = [PERIOD, TIMEOUT, HELPERS, CARRY, LAMBDA, SPREAD, FALLBACK];

/// How long suspicions last.
pub(crate) const SUSPICION: [KeyRule; 2] = [
    KeyRule {
        key: FormatKey::Alpha,
        absence: Absence::Default(5),
        kind: Kind::Whole {
            least: 1,
            most: 100,
        },
    },
    KeyRule {
        key: FormatKey::Beta,
        absence: Absence::Default(6),
        kind: Kind::Whole {
            least: 1,
            most: 100,
        },
    },
];

/// Lifeguard's switches and their settings.
pub(crate) const LIFEGUARD: [KeyRule; 6] = [
    KeyRule {
        key: FormatKey::Probe,
        absence: Absence::Optional,
        kind: Kind::Switch,
    },
    KeyRule {
        key: FormatKey::Suspicion,
        absence: Absence::Optional,
        kind: Kind::Switch,
    },
    KeyRule {
        key: FormatKey::Buddy,
        absence: Absence::Optional,
        kind: Kind::Switch,
    },
    KeyRule {
        key: FormatKey::Ceiling,
        absence: Absence::Default(8),
        kind: Kind::Whole { least: 0, most: 16 },
    },
    KeyRule {
        key: FormatKey::Confirmations,
        absence: Absence::Default(3),
        kind: Kind::Whole { least: 0, most: 9 },
    },
    KeyRule {
        key: FormatKey::NackPercent,
        absence: Absence::Default(80),
        kind: Kind::Whole {
            least: 1,
            most: 100,
        },
    },
];

/// How messages travel.
pub(crate) const LINK: [KeyRule; 3] = [
    KeyRule {
        key: FormatKey::Delay,
        absence: Absence::Refused,
        kind: Kind::Whole {
            least: 1,
            most: 0x10_0000,
        },
    },
    KeyRule {
        key: FormatKey::Jitter,
        absence: Absence::Default(0),
        kind: Kind::Whole {
            least: 0,
            most: 0x10_0000,
        },
    },
    KeyRule {
        key: FormatKey::Loss,
        absence: Absence::Default(0),
        kind: Kind::Whole {
            least: 0,
            most: 1_000_000,
        },
    },
];

const NAME: KeyRule = KeyRule {
    key: FormatKey::Name,
    absence: Absence::Refused,
    kind: Kind::Text,
};

const COUNT_1: KeyRule = KeyRule {
    key: FormatKey::Count,
    absence: Absence::Refused,
    kind: Kind::Whole {
        least: 1,
        most: MOST_MEMBERS_AT_FIRST,
    },
};

const COUNT_2: KeyRule = KeyRule {
    key: FormatKey::Count,
    absence: Absence::Refused,
    kind: Kind::Whole {
        least: 1,
        most: MOST_MEMBERS_BEFORE_4,
    },
};

const COUNT_4: KeyRule = KeyRule {
    key: FormatKey::Count,
    absence: Absence::Refused,
    kind: Kind::Whole {
        least: 1,
        most: MOST_MEMBERS,
    },
};

const START: KeyRule = KeyRule {
    key: FormatKey::Start,
    absence: Absence::Default(0),
    kind: Kind::Whole {
        least: 0,
        most: LATEST_MOMENT,
    },
};

const CONTACT: KeyRule = KeyRule {
    key: FormatKey::Contact,
    absence: Absence::RefusedOver0(FormatKey::Start),
    kind: Kind::Text,
};

/// A group of members in version 1.
pub(crate) const GROUP_1: [KeyRule; 4] = [NAME, COUNT_1, START, CONTACT];

/// A group of members from version 2 on.
pub(crate) const GROUP_2: [KeyRule; 4] = [NAME, COUNT_2, START, CONTACT];

/// A group in version 4.
pub(crate) const GROUP_4: [KeyRule; 4] = [NAME, COUNT_4, START, CONTACT];

/// The link from the members of one group to those of another.
pub(crate) const PATH: [KeyRule; 5] = [
    KeyRule {
        key: FormatKey::From,
        absence: Absence::Refused,
        kind: Kind::Text,
    },
    KeyRule {
        key: FormatKey::To,
        absence: Absence::Refused,
        kind: Kind::Text,
    },
    KeyRule {
        key: FormatKey::Delay,
        absence: Absence::Optional,
        kind: Kind::Whole {
            least: 1,
            most: 0x10_0000,
        },
    },
    KeyRule {
        key: FormatKey::Jitter,
        absence: Absence::Optional,
        kind: Kind::Whole {
            least: 0,
            most: 0x10_0000,
        },
    },
    KeyRule {
        key: FormatKey::Loss,
        absence: Absence::Optional,
        kind: Kind::Whole {
            least: 0,
            most: 1_000_000,
        },
    },
];

/// A time in which a member is slow.
pub(crate) const SLOW: [KeyRule; 4] = [
    KeyRule {
        key: FormatKey::Member,
        absence: Absence::Refused,
        kind: Kind::Text,
    },
    KeyRule {
        key: FormatKey::From,
        absence: Absence::Refused,
        kind: Kind::Whole {
            least: 0,
            most: LATEST_MOMENT,
        },
    },
    KeyRule {
        key: FormatKey::Until,
        absence: Absence::Refused,
        kind: Kind::Whole {
            least: 0,
            most: LATEST_MOMENT,
        },
    },
    KeyRule {
        key: FormatKey::Extra,
        absence: Absence::Refused,
        kind: Kind::Whole {
            least: 1,
            most: 0x100_0000,
        },
    },
];

/// The crash or the leave of a member.
pub(crate) const DEPARTURE: [KeyRule; 2] = [
    KeyRule {
        key: FormatKey::Member,
        absence: Absence::Refused,
        kind: Kind::Text,
    },
    KeyRule {
        key: FormatKey::At,
        absence: Absence::Refused,
        kind: Kind::Whole {
            least: 0,
            most: LATEST_MOMENT,
        },
    },
];

/// A time in which the links from one group to another, or within one, lose all.
pub(crate) const CUT: [KeyRule; 4] = [
    KeyRule {
        key: FormatKey::From,
        absence: Absence::Refused,
        kind: Kind::Text,
    },
    KeyRule {
        key: FormatKey::To,
        absence: Absence::Refused,
        kind: Kind::Text,
    },
    KeyRule {
        key: FormatKey::At,
        absence: Absence::Refused,
        kind: Kind::Whole {
            least: 0,
            most: LATEST_MOMENT,
        },
    },
    KeyRule {
        key: FormatKey::Until,
        absence: Absence::Refused,
        kind: Kind::Whole {
            least: 0,
            most: LATEST_MOMENT,
        },
    },
];

const INTERVAL: KeyRule = KeyRule {
    key: FormatKey::Interval,
    absence: Absence::Refused,
    kind: Kind::Whole {
        least: 1,
        most: 0x100_0000,
    },
};

const NODES: KeyRule = KeyRule {
    key: FormatKey::Nodes,
    absence: Absence::Default(3),
    kind: Kind::Whole { least: 1, most: 16 },
};

const DEAD: KeyRule = KeyRule {
    key: FormatKey::Dead,
    absence: Absence::Default(0),
    kind: Kind::Whole {
        least: 0,
        most: LATEST_MOMENT,
    },
};

const PUSH: KeyRule = KeyRule {
    key: FormatKey::Push,
    absence: Absence::Default(0),
    kind: Kind::Whole {
        least: 0,
        most: 0x100_0000,
    },
};

const QUEUE: KeyRule = KeyRule {
    key: FormatKey::Queue,
    absence: Absence::Off,
    kind: Kind::Switch,
};

const PACKET: KeyRule = KeyRule {
    key: FormatKey::Packet,
    absence: Absence::Default(0),
    kind: Kind::Whole {
        least: 0,
        most: 65_507,
    },
};

const META: KeyRule = KeyRule {
    key: FormatKey::Meta,
    absence: Absence::Default(0),
    kind: Kind::Whole {
        least: 0,
        most: 512,
    },
};

/// How members gossip between their probes, in version 3.
pub(crate) const GOSSIP_3: [KeyRule; 4] = [INTERVAL, NODES, DEAD, PUSH];

/// The same in version 4.
pub(crate) const GOSSIP_4: [KeyRule; 7] = [INTERVAL, NODES, DEAD, PUSH, QUEUE, PACKET, META];

const CONNECT: KeyRule = KeyRule {
    key: FormatKey::Connect,
    absence: Absence::Default(1000),
    kind: Kind::Whole {
        least: 1,
        most: 0x100_0000,
    },
};

const AGAIN: KeyRule = KeyRule {
    key: FormatKey::Again,
    absence: Absence::Default(200),
    kind: Kind::Whole {
        least: 1,
        most: 0x100_0000,
    },
};

const LIMIT: KeyRule = KeyRule {
    key: FormatKey::Limit,
    absence: Absence::Default(10_000),
    kind: Kind::Whole {
        least: 1,
        most: 0x100_0000,
    },
};

const RETRY: KeyRule = KeyRule {
    key: FormatKey::Retry,
    absence: Absence::Default(30_000),
    kind: Kind::Whole {
        least: 1,
        most: 0x100_0000,
    },
};

/// How streams between members send again, in version 3.
pub(crate) const STREAM_3: [KeyRule; 2] = [CONNECT, AGAIN];

/// The same in version 4, and how long members wait for a connection.
pub(crate) const STREAM_4: [KeyRule; 4] = [CONNECT, AGAIN, LIMIT, RETRY];

/// How members leave and reconnect, as Serf's do.
pub(crate) const SERF: [KeyRule; 3] = [
    KeyRule {
        key: FormatKey::Reconnect,
        absence: Absence::Default(30_000),
        kind: Kind::Whole {
            least: 1,
            most: 0x100_0000,
        },
    },
    KeyRule {
        key: FormatKey::Reap,
        absence: Absence::Default(86_400_000),
        kind: Kind::Whole {
            least: 0,
            most: LATEST_MOMENT,
        },
    },
    KeyRule {
        key: FormatKey::Linger,
        absence: Absence::Default(1_000),
        kind: Kind::Whole {
            least: 1,
            most: 0x100_0000,
        },
    },
];

/// The restart of a member.
pub(crate) const RESTART: [KeyRule; 3] = [
    KeyRule {
        key: FormatKey::Member,
        absence: Absence::Refused,
        kind: Kind::Text,
    },
    KeyRule {
        key: FormatKey::At,
        absence: Absence::Refused,
        kind: Kind::Whole {
            least: 0,
            most: LATEST_MOMENT,
        },
    },
    KeyRule {
        key: FormatKey::Contact,
        absence: Absence::Optional,
        kind: Kind::Text,
    },
];

/// A time in which a member's process is paused or blocked.
pub(crate) const PAUSE: [KeyRule; 3] = [
    KeyRule {
        key: FormatKey::Member,
        absence: Absence::Refused,
        kind: Kind::Text,
    },
    KeyRule {
        key: FormatKey::From,
        absence: Absence::Refused,
        kind: Kind::Whole {
            least: 0,
            most: LATEST_MOMENT,
        },
    },
    KeyRule {
        key: FormatKey::Until,
        absence: Absence::Refused,
        kind: Kind::Whole {
            least: 0,
            most: LATEST_MOMENT,
        },
    },
];
