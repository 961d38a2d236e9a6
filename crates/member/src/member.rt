//! The state that a member keeps from one event to the next: its phase, counters, probe, table, updates and suspicions.
ghost use Rattle.std.specs.Prelude.{◌≤◌, ◌^◌};

use base::Moment;
use lifeguard::{Health, Probe, Relays};
use lives::Life;
use membership::{Deaths, Table};
use piggyback::Buffer;
use probing::Rota;
use streams::Stream;
use suspicion::Suspicions;

/// What a member is about.
#[derive(Clone, Copy, Debug, PartialEq, Eq)]
pub enum Phase {
    /// It has not started.
    Waiting,
    /// It has asked to join, and heard no welcome.
    Joining,
    /// It takes part.
    Running,
    /// It has crashed or left.
    Down,
}

/// A member of the cluster: all that it keeps from one event to the next.
#[derive(Drop)]
pub struct Member {
    // What nearly each event reads comes first, side by side.
    pub(crate) phase: Phase,
    /// Whether a probe that is still under way keeps the next one waiting (memberlist's rules).
    pub(crate) waits: bool,
    /// Whether its gossip timer is set.
    pub(crate) gossips: bool,
    /// Whether it heard that it was confirmed to have failed.
    pub(crate) heard_dead: bool,
    /// The number of the next event that it makes.
    pub(crate) next_number: u64,
    /// The probe of the present period.
    pub(crate) probe: Option<Probe>,
    pub(crate) health: Health,
    /// The sequence number of its last probe.
    pub(crate) sequence: u64,
    pub(crate) stream: Stream,
    /// Whom to probe next.
    pub(crate) rota: Rota,
    /// The moment for which its first period timer was set, 0 before.
    pub(crate) beat: Moment,
    /// The updates that are still to be sent.
    pub(crate) buffer: Buffer,
    pub(crate) suspicions: Suspicions,
    /// What it holds of the others.
    pub(crate) table: Table,
    /// Its own incarnation number (SWIM, section 4.2).
    pub(crate) incarnation: u64,
    /// The probes that it made for others and has not answered yet.
    pub(crate) relays: Relays,
    /// Since when it holds others to be down.
    pub(crate) deaths: Deaths,
    /// What it keeps through one life by memberlist 0.5.0's rules.
    pub(crate) life: Life,
    // No counter passes its limit.
    ghost number_within: { next_number ≤ 2 ^ 63 },
    ghost sequence_within: { sequence ≤ 2 ^ 63 },
    ghost incarnation_within: { incarnation ≤ 2 ^ 63 },
    // The beat is soon after a moment of the run.
    ghost beat_within: { beat ≤ 2 ^ 41 },
}
