//! The values of a scenario's tables: settings of SWIM, Lifeguard's switches, memberlist's gossip and streams, links,
//! groups, and what happens to members and links; and, since version 4, memberlist's queue, dials and Serf's leaves.
use base::{MemberId, Moment};

/// How members probe and gossip. Times are in ticks.
#[derive(Clone, Copy, Debug, PartialEq, Eq)]
pub struct Swim {
    /// The protocol period, in ticks (SWIM, section 3.1).
    pub period: u64,
    /// How long a direct ping may go unanswered, in ticks; below the period.
    pub timeout: u64,
    /// How many members are asked to ping in one's place (SWIM's k).
    pub helpers: u64,
    /// The most updates that one message carries.
    pub carry: u64,
    /// An update rides at most this times the digits of the cluster's size.
    pub lambda: u64,
    /// Members begin their first period within this many ticks of their start.
    pub spread: u64,
    /// Whether a probe whose ping goes unanswered calls its target over a stream too (version 3).
    pub fallback: bool,
}

/// How long a suspicion lasts (SWIM, section 4.2; Lifeguard's LHA-Suspicion).
#[derive(Clone, Copy, Debug, PartialEq, Eq)]
pub struct Suspicion {
    /// The shortest suspicion is this many periods times the logarithm of the cluster's size.
    pub alpha: u64,
    /// The longest suspicion is this many times the shortest.
    pub beta: u64,
}

/// Lifeguard's switches and their settings.
#[derive(Clone, Copy, Debug, PartialEq, Eq)]
pub struct Lifeguard {
    /// LHA-Probe: probes slow down with one's own bad health.
    pub probe: bool,
    /// LHA-Suspicion: suspicions end sooner as more members agree.
    pub suspicion: bool,
    /// Buddy System: a ping to a suspect carries the suspicion.
    pub buddy: bool,
    /// The health counter's ceiling.
    pub ceiling: u64,
    /// How many further accusers bring a suspicion to its shortest.
    pub confirmations: u64,
    /// When a helper says that it has no answer, in percent of the timeout.
    pub nack_percent: u64,
}

/// How messages travel from one member to another.
#[derive(Clone, Copy, Debug, PartialEq, Eq)]
pub struct Link {
    /// The least time on the way, in ticks.
    pub delay: u64,
    /// The most that chance adds to it, in ticks.
    pub jitter: u64,
    /// How many of a million messages are lost.
    pub loss: u64,
}

/// The link from the members of one group to those of another, or of the same.
#[derive(Clone, Copy, Debug, PartialEq, Eq)]
pub struct Path {
    /// The number of the sender's group, in the order of the text.
    pub from: usize,
    /// The number of the receiver's group.
    pub to: usize,
    /// How messages travel on it.
    pub link: Link,
}

/// How members gossip between their probes (version 3). Times are in ticks.
#[derive(Clone, Copy, Debug, PartialEq, Eq)]
pub struct Gossip {
    /// How long a member waits between two rounds of gossip.
    pub interval: u64,
    /// To how many members it gossips in one round, at most.
    pub nodes: u64,
    /// How long it goes on gossiping to a member that it holds to be dead; 0: not at all.
    pub dead: u64,
    /// How long it waits between two exchanges of the whole table; 0: there are none.
    pub push: u64,
}

/// How a stream sends again what was lost (version 3). Times are in ticks.
#[derive(Clone, Copy, Debug, PartialEq, Eq)]
pub struct StreamTimes {
    /// How long the first try to open it waits; each further one waits twice as long.
    pub connect: u64,
    /// The same for what is sent over it.
    pub again: u64,
}

/// How a packet is filled from memberlist's queue of broadcasts (version 4).
#[derive(Clone, Copy, Debug, PartialEq, Eq)]
pub struct Queue {
    /// The bytes of a packet; 0: `carry` says how many updates a message has.
    pub packet: u64,
    /// The bytes of a member's tags.
    pub meta: u64,
}

/// How long a member waits for a connection (version 4). Times are in ticks.
#[derive(Clone, Copy, Debug, PartialEq, Eq)]
pub struct DialTimes {
    /// How long a dial may take.
    pub limit: u64,
    /// How long a member that joins waits before it asks its contact again.
    pub retry: u64,
}

/// How members leave and reconnect, as Serf's do (version 4). Times are in ticks.
#[derive(Clone, Copy, Debug, PartialEq, Eq)]
pub struct Serf {
    /// How long a member waits between two tries to reach one that failed.
    pub reconnect: u64,
    /// How long it tries.
    pub reap: u64,
    /// How long one that leaves lingers.
    pub linger: u64,
}

/// Members of one name, distinguished by an index.
#[derive(Debug, Drop)]
pub struct Group {
    pub name: String,
    /// How many members it has.
    pub count: u64,
    /// When they start.
    pub start: Moment,
    /// Whom they ask to let them join, where they start after moment 0.
    pub contact: Option<MemberId>,
}

/// A time in which what a member sends and receives takes longer.
#[derive(Clone, Copy, Debug, PartialEq, Eq)]
pub struct Slow {
    pub member: MemberId,
    /// The first moment at which the member is slow.
    pub from: Moment,
    /// The first moment at which it no longer is.
    pub until: Moment,
    /// What each of its messages takes longer, in ticks.
    pub extra: u64,
}

/// The crash of a member.
#[derive(Clone, Copy, Debug, PartialEq, Eq)]
pub struct Crash {
    pub member: MemberId,
    pub at: Moment,
}

/// The leave of a member: it goes and announces that to others.
#[derive(Clone, Copy, Debug, PartialEq, Eq)]
pub struct Leave {
    pub member: MemberId,
    pub at: Moment,
}

/// The restart of a member: its process starts again, as one that knows nobody (version 4).
#[derive(Clone, Copy, Debug, PartialEq, Eq)]
pub struct Restart {
    pub member: MemberId,
    pub at: Moment,
    /// Whom it asks to let it join, if anybody.
    pub contact: Option<MemberId>,
}

/// A time in which all that the members of one group send to those of another, or of the same, is lost.
#[derive(Clone, Copy, Debug, PartialEq, Eq)]
pub struct Cut {
    /// The number of the senders' group, in the order of the text.
    pub from: usize,
    /// The number of the receivers' group.
    pub to: usize,
    /// The first moment at which the link is cut.
    pub at: Moment,
    /// The first moment at which it no longer is.
    pub until: Moment,
}

/// A time in which a member's process is paused: it handles no message and no timer (version 3). Or one in which it is
/// blocked: its timers run, but what it sends and receives stands still (version 4).
#[derive(Clone, Copy, Debug, PartialEq, Eq)]
pub struct Pause {
    pub member: MemberId,
    /// The first moment at which the member is paused or blocked.
    pub from: Moment,
    /// The first moment at which it no longer is.
    pub until: Moment,
}
