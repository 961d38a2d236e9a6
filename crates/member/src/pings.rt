//! A member answers a ping by an ack, and as a helper pings a target for another member (SWIM, section 3.1), with a
//! nack where no ack comes in time (LHA-Probe).
ghost use Rattle.std.specs.Prelude.{◌<◌};
ghost use Rattle.member.specs.Makes.{AreAboutMembers, IsMember, KnowsMembers, Makes};
ghost use Rattle.member.specs.Step.{ping_heard, with_relay, ping_req_heard, nack_due};

use crate::announce::Announce;
use crate::event::Effects;
use crate::event_kind::EventKind;
use crate::here::Here;
use crate::member::Member;
use crate::step_error::StepError;
use base::MemberId;
use incarnation::Update;
use lifeguard::nack_delay;

impl Member {
    /// A ping is answered by an ack, after what rides on it is applied.
    #[tactic(auto, unfolding(crate::specs::Step::ping_heard))]
    pub(crate) fn hear_ping(
        &mut self,
        effects: &mut Effects,
        here: &Here,
        initiator: MemberId,
        seq: u64,
        updates: &[Update],
    ) -> Result<(), StepError>
        requires known { KnowsMembers here.now self.old }
        requires updates { AreAboutMembers here.now updates.now }
        ensures { Makes here.now result self.old effects.old self.new effects.new (ping_heard here.now.scenario.now here.now.key initiator seq updates.now) }
    {
        self.apply_all(effects, here, Announce::Aloud, updates)?;
        self.send_ack(effects, here, here.key.from, initiator, seq)
    }

    /// Owes the initiator an answer, which comes before its time is up (LHA-Probe).
    pub(crate) fn add_relay(
        &mut self,
        effects: &mut Effects,
        here: &Here,
        seq: u64,
    ) -> Result<(), StepError>
        requires { KnowsMembers here.now self.old }
        ensures { Makes here.now result self.old effects.old self.new effects.new (with_relay here.now.scenario.now here.now.key seq) }
    {
        self.relays.add(here.key.from, seq)?;
        let percent = here.scenario.lifeguard().nack_percent as u32;
        let ticks = nack_delay(percent, here.scenario.swim().timeout);
        let timer = EventKind::NackTimer {
            initiator: here.key.from,
            seq,
        };
        self.set_timer(effects, here, ticks, timer)
    }

    /// A helper pings the target on behalf of the initiator (SWIM, section 3.1).
    #[tactic(auto, unfolding(crate::specs::Step::ping_req_heard))]
    pub(crate) fn hear_ping_req(
        &mut self,
        effects: &mut Effects,
        here: &Here,
        seq: u64,
        target: MemberId,
        updates: &[Update],
    ) -> Result<(), StepError>
        requires known { KnowsMembers here.now self.old }
        requires target { IsMember here.now target }
        requires updates { AreAboutMembers here.now updates.now }
        ensures { Makes here.now result self.old effects.old self.new effects.new (ping_req_heard here.now.scenario.now here.now.key seq target updates.now) }
    {
        self.apply_all(effects, here, Announce::Aloud, updates)?;
        self.send_ping(effects, here, target, here.key.from, seq)?;
        if here.scenario.lifeguard().probe {
            self.add_relay(effects, here, seq)
        } else {
            Ok(())
        }
    }

    /// Sends an initiator a nack, if an answer is still owed: the target has not answered in time (LHA-Probe).
    #[tactic(auto, unfolding(crate::specs::Step::nack_due))]
    pub(crate) fn end_relay(
        &mut self,
        effects: &mut Effects,
        here: &Here,
        initiator: MemberId,
        seq: u64,
    ) -> Result<(), StepError>
        requires known { KnowsMembers here.now self.old }
        requires initiator { IsMember here.now initiator }
        ensures { Makes here.now result self.old effects.old self.new effects.new (nack_due here.now.scenario.now here.now.key initiator seq) }
    {
        if !self.relays.has(initiator, seq) {
            return Ok(());
        }
        let _owed = self.relays.remove(initiator, seq);
        self.send_nack(effects, here, initiator, seq)
    }
}
