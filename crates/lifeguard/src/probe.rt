//! The state of a member's probe under way: the target, the acks and nacks so far, and the missed nacks that count
//! against the member's own health score (LHA-Probe; memberlist counts each one).
ghost use Rattle.std.specs.Prelude.{◌≡◌, ◌<◌, ◌≤◌, ◌↔◌, IsTrue};

use base::{MemberId, Moment};

/// The most nacks of one probe that are counted: a probe asks at most 16 helpers.
const MOST_NACKS: u8 = 16;

/// The probe that a member has under way: whom it probes, and what has come back.
#[derive(Clone, Copy, Debug, PartialEq, Eq)]
pub struct Probe {
    /// The number of the probe among those of its member.
    pub seq: u64,
    /// Who is probed.
    pub target: MemberId,
    /// How many helpers were asked to answer, by an ack or a nack.
    pub expected: u8,
    /// How many nacks came, of which at most 16 are counted.
    pub nacks: u8,
    /// Whether an ack came, from the target or by a helper.
    pub acked: bool,
    /// Whether a call reached the target. (This and what follows is of memberlist's rules.)
    pub reached: bool,
    /// The incarnation number at which the target was held when the probe began.
    pub number: u64,
    /// When the probe ends.
    pub deadline: Moment,
}

impl Probe {
    ghost use Rattle.lifeguard.specs.Probe.{fresh_probe, timed_probe, with_nack, with_reach, misses_of, MissedNacks};

    /// A probe that begins: nobody was asked to help, and nothing has come.
    pub fn new(seq: u64, target: MemberId) -> Self
        ensures { result ≡ fresh_probe seq target }
    {
        Probe {
            seq,
            target,
            expected: 0,
            nacks: 0,
            acked: false,
            reached: false,
            number: 0,
            deadline: Moment(0),
        }
    }

    /// A probe that begins, of a target that is held at incarnation number `number`, and ends at
    /// `deadline` (memberlist's rules).
    pub fn timed(seq: u64, target: MemberId, number: u64, deadline: Moment) -> Self
        ensures { result ≡ timed_probe seq target number deadline }
    {
        let mut probe = Probe::new(seq, target);
        probe.number = number;
        probe.deadline = deadline;
        probe
    }

    /// A call reached the target.
    pub fn reach(&mut self)
        ensures { self.new ≡ with_reach self.old }
    {
        self.reached = true;
    }

    /// How much a probe that failed counts against its own member (memberlist's rules): the nacks that
    /// were expected and did not come, or 1 where none was expected.
    pub fn misses(&self) -> u32
        ensures value { result ≡ misses_of self.now }
        ensures few { result ≤ 255 }
    {
        if self.expected > 0 {
            u32::from(self.expected.saturating_sub(self.nacks))
        } else {
            1
        }
    }

    /// A nack came.
    pub fn nacked(&mut self)
        ensures { self.new ≡ with_nack self.old }
    {
        if self.nacks < MOST_NACKS {
            self.nacks += 1;
        }
    }

    /// Whether nacks that were expected did not come. LHA-Probe takes it for a sign that the member
    /// itself is slow.
    pub fn missed_nacks(&self) -> bool
        ensures { IsTrue result ↔ MissedNacks self.now }
    {
        self.nacks < self.expected
    }
}
