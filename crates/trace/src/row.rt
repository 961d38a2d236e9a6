//! A row of the trace: the key of the event that a member handled, and what it is about, such as a ping of SWIM, a nack
//! of Lifeguard or a stream of memberlist, each with its word.
ghost use Rattle.std.specs.Prelude.{◌≡◌};
ghost use Rattle.trace.specs.Text.{word_of};

use base::{MemberId, Moment};

/// What a row reports.
#[derive(Clone, Copy, Debug, PartialEq, Eq, PartialOrd, Ord, Hash)]
pub enum What {
    /// The member starts.
    Start,
    /// The member crashes.
    Crash,
    /// A joining member was welcomed and takes part.
    Joined,
    /// A member asks its contact to join.
    Join,
    /// A contact answers a member that joins.
    Welcome,
    /// A probe (SWIM, section 3.1).
    Ping,
    /// The asking of a helper to probe for another (SWIM, section 3.1).
    PingReq,
    /// The answer to a probe.
    Ack,
    /// A helper reports that its own probe was not answered in time (Lifeguard, LHA Probe).
    Nack,
    /// A probe failed at the end of its period.
    Fail,
    /// The local health counter changed (Lifeguard, LHA Probe).
    Health,
    /// A member is taken to be alive.
    Alive,
    /// A member is suspected (SWIM, section 4.2).
    Suspect,
    /// A member is confirmed to have failed.
    Confirm,
    /// A further member accuses a suspect (Lifeguard, LHA Suspicion).
    Accuse,
    /// The member refutes what is said of it by a new incarnation (SWIM, section 4.2).
    Refute,
    /// The member learns that it was confirmed to have failed.
    Dead,
    /// The member leaves.
    Leave,
    /// A member that leaves announces that to another.
    Bye,
    /// Updates on their way by themselves (memberlist's rules, as what follows).
    Gossip,
    /// A stream to a member that didn't answer in time.
    Call,
    /// The answer to a call.
    Answer,
    /// A member sends another all that it knows.
    Push,
    /// And receives all that the other knows.
    Pull,
    /// The member starts again.
    Restart,
    /// A member that left ends.
    Exit,
    /// A member is taken to have left.
    Left,
    /// The member forgets another, which it held to have failed or left.
    Forget,
    /// A member tries to reach one that failed (Serf's rule).
    Reconnect,
}

impl What {
    /// The word that stands for it in a line of the trace.
    pub fn word(self) -> &'static str
        ensures { result.now ≡ word_of self }
    {
        match self {
            What::Start => "start",
            What::Crash => "crash",
            What::Joined => "joined",
            What::Join => "join",
            What::Welcome => "welcome",
            What::Ping => "ping",
            What::PingReq => "ping-req",
            What::Ack => "ack",
            What::Nack => "nack",
            What::Fail => "fail",
            What::Health => "health",
            What::Alive => "alive",
            What::Suspect => "suspect",
            What::Confirm => "confirm",
            What::Accuse => "accuse",
            What::Refute => "refute",
            What::Dead => "dead",
            What::Leave => "leave",
            What::Bye => "bye",
            What::Gossip => "gossip",
            What::Call => "call",
            What::Answer => "answer",
            What::Push => "push",
            What::Pull => "pull",
            What::Restart => "restart",
            What::Exit => "exit",
            What::Left => "left",
            What::Forget => "forget",
            What::Reconnect => "reconnect",
        }
    }
}

/// A row of the trace: the key of the event in whose handling it arose, and what it reports. Rows are
/// ordered by their fields as they stand here, and no two rows of a run agree in the first five.
#[derive(Clone, Copy, Debug, PartialEq, Eq, PartialOrd, Ord, Hash)]
pub struct Row {
    /// The moment at which the event is handled, in ticks.
    pub at: Moment,
    /// The member that handles the event.
    pub member: MemberId,
    /// The member that made the event.
    pub from: MemberId,
    /// The maker's number for the event.
    pub number: u64,
    /// The place among the rows of the event, from 0. The text does not show it.
    pub index: u32,
    /// What the row reports.
    pub what: What,
    /// The member that the row is about, where it is about one.
    pub about: Option<MemberId>,
    /// Whether what was sent was lost.
    pub lost: bool,
    /// A number whose meaning depends on `what`, as a sequence number or an incarnation.
    pub value: u64,
}
