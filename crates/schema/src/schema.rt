//! The format of a scenario text: its versions, its keys and its tables, each with the rows of its
//! keys.
ghost use Rattle.std.specs.Prelude.{◌≡◌};
ghost use Rattle.schema.specs.Schema.{most_members, spelling_of, key_rules_of};

use crate::tables::{
    CUT, DEPARTURE, GOSSIP_3, GOSSIP_4, GROUP_1, GROUP_2, GROUP_4, LIFEGUARD, LINK, PATH, PAUSE,
    RESTART, SERF, SLOW, STREAM_3, STREAM_4, SUSPICION, SWIM_1, SWIM_3, TOP_1, TOP_2, TOP_3, TOP_4,
};
use base::limits::{MOST_MEMBERS, MOST_MEMBERS_AT_FIRST, MOST_MEMBERS_BEFORE_4};

/// A version of the format.
#[derive(Clone, Copy, Debug, PartialEq, Eq)]
pub enum Version {
    /// Members start, join and crash.
    One,
    /// They leave too, links are cut, and clusters are larger.
    Two,
    /// Members follow memberlist's rules, and their processes pause.
    Three,
    /// They follow all rules of memberlist 0.5.0, start again, and leave as Serf's do; clusters are larger yet.
    Four,
}

impl Version {
    /// How many members a scenario may have.
    pub fn most_members(self) -> u64
        ensures { result ≡ most_members self }
    {
        match self {
            Version::One => MOST_MEMBERS_AT_FIRST,
            Version::Two | Version::Three => MOST_MEMBERS_BEFORE_4,
            Version::Four => MOST_MEMBERS,
        }
    }
}

/// A key that the format names.
#[derive(Clone, Copy, Debug, PartialEq, Eq)]
pub enum FormatKey {
    Version,
    Seed,
    End,
    Swim,
    Suspicion,
    Lifeguard,
    Link,
    Group,
    Path,
    Slow,
    Crash,
    Cut,
    Leave,
    Pause,
    Gossip,
    Stream,
    Period,
    Timeout,
    Helpers,
    Carry,
    Lambda,
    Spread,
    Fallback,
    Alpha,
    Beta,
    Probe,
    Buddy,
    Ceiling,
    Confirmations,
    NackPercent,
    Delay,
    Jitter,
    Loss,
    Name,
    Count,
    Start,
    Contact,
    From,
    To,
    Member,
    Until,
    Extra,
    At,
    Interval,
    Nodes,
    Dead,
    Push,
    Connect,
    Again,
    Restart,
    Block,
    Serf,
    Queue,
    Packet,
    Meta,
    Limit,
    Retry,
    Reconnect,
    Reap,
    Linger,
}

impl FormatKey {
    /// How the text spells the key.
    #[tactic(auto, unfolding(crate::specs::Schema::spelling_of))]
    pub fn text(self) -> &'static str
        ensures { result.now ≡ spelling_of self }
    {
        match self {
            FormatKey::Version => "version",
            FormatKey::Seed => "seed",
            FormatKey::End => "end",
            FormatKey::Swim => "swim",
            FormatKey::Suspicion => "suspicion",
            FormatKey::Lifeguard => "lifeguard",
            FormatKey::Link => "link",
            FormatKey::Group => "group",
            FormatKey::Path => "path",
            FormatKey::Slow => "slow",
            FormatKey::Crash => "crash",
            FormatKey::Cut => "cut",
            FormatKey::Leave => "leave",
            FormatKey::Pause => "pause",
            FormatKey::Gossip => "gossip",
            FormatKey::Stream => "stream",
            FormatKey::Period => "period",
            FormatKey::Timeout => "timeout",
            FormatKey::Helpers => "helpers",
            FormatKey::Carry => "carry",
            FormatKey::Lambda => "lambda",
            FormatKey::Spread => "spread",
            FormatKey::Fallback => "fallback",
            FormatKey::Alpha => "alpha",
            FormatKey::Beta => "beta",
            FormatKey::Probe => "probe",
            FormatKey::Buddy => "buddy",
            FormatKey::Ceiling => "ceiling",
            FormatKey::Confirmations => "confirmations",
            FormatKey::NackPercent => "nack_percent",
            FormatKey::Delay => "delay",
            FormatKey::Jitter => "jitter",
            FormatKey::Loss => "loss",
            FormatKey::Name => "name",
            FormatKey::Count => "count",
            FormatKey::Start => "start",
            FormatKey::Contact => "contact",
            FormatKey::From => "from",
            FormatKey::To => "to",
            FormatKey::Member => "member",
            FormatKey::Until => "until",
            FormatKey::Extra => "extra",
            FormatKey::At => "at",
            FormatKey::Interval => "interval",
            FormatKey::Nodes => "nodes",
            FormatKey::Dead => "dead",
            FormatKey::Push => "push",
            FormatKey::Connect => "connect",
            FormatKey::Again => "again",
            FormatKey::Restart => "restart",
            FormatKey::Block => "block",
            FormatKey::Serf => "serf",
            FormatKey::Queue => "queue",
            FormatKey::Packet => "packet",
            FormatKey::Meta => "meta",
            FormatKey::Limit => "limit",
            FormatKey::Retry => "retry",
            FormatKey::Reconnect => "reconnect",
            FormatKey::Reap => "reap",
            FormatKey::Linger => "linger",
        }
    }
}

/// A kind of table: each has the same keys wherever it stands.
#[derive(Clone, Copy, Debug, PartialEq, Eq)]
pub enum Section {
    /// The whole text.
    Top,
    Swim,
    Suspicion,
    Lifeguard,
    Link,
    /// One item of the list of groups.
    Group,
    /// One item of the list of paths.
    Path,
    /// One item of the list of times in which a member is slow.
    Slow,
    /// One item of the list of crashes, or of that of leaves.
    Departure,
    /// One item of the list of cuts.
    Cut,
    /// How members gossip between their probes.
    Gossip,
    /// How streams between members send again.
    Stream,
    /// One item of the list of times in which a member's process is paused, or of that of blocks.
    Pause,
    /// One item of the list of restarts.
    Restart,
    /// How members leave and reconnect.
    Serf,
}

impl Section {
    /// The rows of the section's keys in a version.
    #[tactic(auto, unfolding(crate::specs::Schema::key_rules_of))]
    pub fn rows(self, version: Version) -> &'static [KeyRule]
        ensures { result.now ≡ key_rules_of version self }
    {
        match self {
            Section::Top => top_rows(version),
            Section::Swim => swim_rows(version),
            Section::Suspicion => &SUSPICION,
            Section::Lifeguard => &LIFEGUARD,
            Section::Link => &LINK,
            Section::Group => group_rows(version),
            Section::Path => &PATH,
            Section::Slow => &SLOW,
            Section::Departure => &DEPARTURE,
            Section::Cut => &CUT,
            Section::Gossip => gossip_rows(version),
            Section::Stream => stream_rows(version),
            Section::Pause => &PAUSE,
            Section::Restart => &RESTART,
            Section::Serf => &SERF,
        }
    }
}

/// The keys of the whole text.
#[tactic(auto, unfolding(crate::specs::Schema::key_rules_of))]
fn top_rows(version: Version) -> &'static [KeyRule]
    ensures { result.now ≡ key_rules_of version Section.Top }
{
    match version {
        Version::One => &TOP_1,
        Version::Two => &TOP_2,
        Version::Three => &TOP_3,
        Version::Four => &TOP_4,
    }
}

/// The keys of how members probe and gossip.
#[tactic(auto, unfolding(crate::specs::Schema::key_rules_of))]
fn swim_rows(version: Version) -> &'static [KeyRule]
    ensures { result.now ≡ key_rules_of version Section.Swim }
{
    match version {
        Version::One | Version::Two => &SWIM_1,
        Version::Three | Version::Four => &SWIM_3,
    }
}

/// The keys of a group.
#[tactic(auto, unfolding(crate::specs::Schema::key_rules_of))]
fn group_rows(version: Version) -> &'static [KeyRule]
    ensures { result.now ≡ key_rules_of version Section.Group }
{
    match version {
        Version::One => &GROUP_1,
        Version::Two | Version::Three => &GROUP_2,
        Version::Four => &GROUP_4,
    }
}

/// The keys of how members gossip between their probes.
#[tactic(auto, unfolding(crate::specs::Schema::key_rules_of))]
fn gossip_rows(version: Version) -> &'static [KeyRule]
    ensures { result.now ≡ key_rules_of version Section.Gossip }
{
    match version {
        Version::One | Version::Two | Version::Three => &GOSSIP_3,
        Version::Four => &GOSSIP_4,
    }
}

/// The keys of how streams send again.
#[tactic(auto, unfolding(crate::specs::Schema::key_rules_of))]
fn stream_rows(version: Version) -> &'static [KeyRule]
    ensures { result.now ≡ key_rules_of version Section.Stream }
{
    match version {
        Version::One | Version::Two | Version::Three => &STREAM_3,
        Version::Four => &STREAM_4,
    }
}

/// What the value of a key has to be.
#[derive(Clone, Copy, Debug, PartialEq, Eq)]
pub enum Kind {
    /// A whole number; both ends are in the range.
    Whole { least: u64, most: u64 },
    /// A boolean.
    Switch,
    /// A string.
    Text,
    /// A table of its own.
    Table(Section),
    /// A list of tables.
    List(Section),
}

/// What holds where a key is missing.
#[derive(Clone, Copy, Debug, PartialEq, Eq)]
pub enum Absence {
    /// The text is refused.
    Refused,
    /// The text is refused where the whole number of this key of the same table is over 0.
    RefusedOver0(FormatKey),
    /// The key has this value.
    Default(u64),
    /// The switch is off.
    Off,
    /// A switch is on, the keys of a table have their defaults, a list is empty, and a path has the
    /// number of the link of all pairs.
    Optional,
}

/// A key of a table.
#[derive(Clone, Copy, Debug, PartialEq, Eq)]
pub struct KeyRule {
    pub key: FormatKey,
    pub absence: Absence,
    pub kind: Kind,
}
