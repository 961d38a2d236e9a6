//! All that an event can ask of a member: entries of the script, timers, and the messages of SWIM, Lifeguard
//! and memberlist.
use crate::updates::Updates;
use base::MemberId;

/// What an event asks of its receiver: an event of the script, a timer of one's own, or a message.
#[derive(Clone, Debug, Drop)]
pub enum EventKind {
    /// The member starts.
    Start,
    /// The member crashes.
    Crash,
    /// The member leaves.
    Leave,
    /// The member starts again, and asks this one for all that is known, if anybody (memberlist 0.5.0's rules).
    Restart {
        contact: Option<MemberId>,
    },
    /// The time for a welcome is up; or by memberlist 0.5.0's rules the time for all that the contact knows.
    JoinTimer,
    /// A protocol period begins (SWIM, section 3.1).
    PeriodTimer,
    /// The time for a direct answer to a probe is up.
    TimeoutTimer {
        seq: u64,
    },
    /// The time for an answer to a probe that was made for its initiator is up (LHA-Probe).
    NackTimer {
        initiator: MemberId,
        seq: u64,
    },
    /// The time of a suspicion is over (SWIM, section 4.2).
    SuspicionTimer {
        subject: MemberId,
    },
    /// The sender asks to join.
    Join,
    /// The sender lets the receiver join, and sends all that it knows.
    Welcome {
        entries: Updates,
    },
    /// A probe, on behalf of its initiator.
    Ping {
        initiator: MemberId,
        seq: u64,
        updates: Updates,
    },
    /// The sender asks to probe the target on its behalf (SWIM, section 3.1).
    PingReq {
        target: MemberId,
        seq: u64,
        updates: Updates,
    },
    /// The answer to a probe, on its way to the initiator.
    Ack {
        initiator: MemberId,
        seq: u64,
        updates: Updates,
    },
    /// A helper's target has not answered it in time (LHA-Probe).
    Nack {
        seq: u64,
    },
    /// The sender leaves.
    Bye,
    /// A probe ends (memberlist's rules, as what follows).
    DeadlineTimer {
        seq: u64,
    },
    /// Updates go out by themselves.
    GossipTimer,
    /// All that is known goes to another member.
    PushTimer,
    /// A stream to a member that didn't answer in time.
    Call {
        seq: u64,
    },
    /// The answer to a call.
    Answer {
        seq: u64,
    },
    /// Updates by themselves.
    Gossip {
        updates: Updates,
    },
    /// All that the sender knows; it wants all that the receiver knows in return.
    Push {
        entries: Updates,
    },
    /// All that the sender knows.
    Pull {
        entries: Updates,
    },
    /// The pushes of one that has begun alone begin (memberlist 0.5.0's rules, as what follows).
    SettingTimer,
    /// A connection to a member is there.
    ConnectedTimer {
        to: MemberId,
    },
    /// One of those that failed is tried again (Serf's rule).
    ReconnectTimer,
    /// A member that has left ends.
    ExitTimer,
}
