//! How a member takes acks and nacks: it marks its own probe as answered, or passes a helper's ack on
//! to the initiator (SWIM, section 3.1; LHA-Probe).
ghost use Rattle.std.specs.Prelude.{◌≡◌, ◌<◌};
ghost use Rattle.member.specs.Makes.{AreAboutMembers, IsMember, KnowsMembers, Makes};
ghost use Rattle.member.specs.Step.{answered, ack_taken, ack_heard, nacked, nack_heard};
ghost use Rattle.member.specs.StateOf.{effect_of, state_of};

use crate::announce::Announce;
use crate::event::Effects;
use crate::here::Here;
use crate::member::Member;
use crate::step_error::StepError;
use base::MemberId;
use incarnation::Update;

impl Member {
    /// An ack answers the probe that is under way, if it has its number.
    fn answer(&mut self, here: &Here, seq: u64)
        requires { KnowsMembers here.now self.old }
        ensures state { state_of self.new ≡ record (state_of self.old) { probe = answered seq (state_of self.old).probe } }
        ensures kept { KnowsMembers here.now self.new }
    {
        self.mark_answered(seq);
    }

    /// Marks the probe that is under way, if it has this number.
    fn mark_answered(&mut self, seq: u64)
        ensures { state_of self.new ≡ record (state_of self.old) { probe = answered seq (state_of self.old).probe } }
    {
        if let Some(probe) = &mut self.probe {
            if probe.seq == seq {
                probe.acked = true;
            }
        }
    }

    /// An ack reaches the initiator, or is passed on to it.
    #[tactic(auto, unfolding(crate::specs::Step::ack_taken))]
    pub(crate) fn take_ack(
        &mut self,
        effects: &mut Effects,
        here: &Here,
        initiator: MemberId,
        seq: u64,
    ) -> Result<(), StepError>
        requires known { KnowsMembers here.now self.old }
        requires initiator { IsMember here.now initiator }
        ensures { Makes here.now result self.old effects.old self.new effects.new (ack_taken here.now.scenario.now here.now.key initiator seq) }
    {
        if initiator == here.key.to {
            self.answer(here, seq);
            return Ok(());
        }
        let _owed = self.relays.remove(initiator, seq);
        self.send_ack(effects, here, initiator, initiator, seq)
    }

    /// An ack, after what rides on it is applied.
    #[tactic(auto, unfolding(crate::specs::Step::ack_heard))]
    pub(crate) fn hear_ack(
        &mut self,
        effects: &mut Effects,
        here: &Here,
        initiator: MemberId,
        seq: u64,
        updates: &[Update],
    ) -> Result<(), StepError>
        requires known { KnowsMembers here.now self.old }
        requires initiator { IsMember here.now initiator }
        requires updates { AreAboutMembers here.now updates.now }
        ensures { Makes here.now result self.old effects.old self.new effects.new (ack_heard here.now.scenario.now here.now.key initiator seq updates.now) }
    {
        self.apply_all(effects, here, Announce::Aloud, updates)?;
        self.take_ack(effects, here, initiator, seq)
    }

    /// A nack of a helper counts for the probe that is under way, if it has its number.
    #[tactic(auto, unfolding(crate::specs::Step::nack_heard))]
    pub(crate) fn hear_nack(&mut self, effects: &Effects, here: &Here, seq: u64)
        requires { KnowsMembers here.now self.old }
        ensures state { effect_of self.new effects.now ≡ nack_heard seq (effect_of self.old effects.now) }
        ensures kept { KnowsMembers here.now self.new }
    {
        self.count_nack(seq);
    }

    /// Counts a nack for the probe that is under way, if it has this number.
    fn count_nack(&mut self, seq: u64)
        ensures { state_of self.new ≡ record (state_of self.old) { probe = nacked seq (state_of self.old).probe } }
    {
        if let Some(probe) = &mut self.probe {
            if probe.seq == seq {
                probe.nacked();
            }
        }
    }
}
