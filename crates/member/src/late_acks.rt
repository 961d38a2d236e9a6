//! The messages of a probe by memberlist 0.5.0's rules: what a message asks for comes before the updates that ride on it, and
//! a helper passes no ack on once its nack is due.
ghost use Rattle.std.specs.Prelude.{◌≡◌, ◌<◌};
ghost use Rattle.member.specs.Makes.{AreAboutMembers, IsMember, KnowsMembers, Makes};
ghost use Rattle.member.specs.LateAcks.{ping_answered, help_given, help_asked_for, without_relay, ack_passed_on, single_ack_taken, single_ack_heard, help_over};
ghost use Rattle.member.specs.StateOf.{effect_of};

use crate::announce::Announce;
use crate::event::Effects;
use crate::here::Here;
use crate::member::Member;
use crate::step_error::StepError;
use base::MemberId;
use incarnation::Update;

impl Member {
    /// A ping is answered by an ack; then what rides on it is applied.
    #[tactic(auto, unfolding(crate::specs::LateAcks::ping_answered))]
    pub(crate) fn answer_ping(
        &mut self,
        effects: &mut Effects,
        here: &Here,
        initiator: MemberId,
        seq: u64,
        updates: &[Update],
    ) -> Result<(), StepError>
        requires known { KnowsMembers here.now self.old }
        requires updates { AreAboutMembers here.now updates.now }
        ensures { Makes here.now result self.old effects.old self.new effects.new (ping_answered here.now.scenario.now here.now.key initiator seq updates.now) }
    {
        self.send_pings_ack(effects, here, here.key.from, initiator, seq)?;
        self.apply_all(effects, here, Announce::Aloud, updates)
    }

    /// A helper pings the target on behalf of the initiator, and keeps in mind whom it helps until its nack is due.
    fn give_help(
        &mut self,
        effects: &mut Effects,
        here: &Here,
        seq: u64,
        target: MemberId,
    ) -> Result<(), StepError>
        requires known { KnowsMembers here.now self.old }
        requires target { IsMember here.now target }
        ensures { Makes here.now result self.old effects.old self.new effects.new (help_given here.now.scenario.now here.now.key seq target) }
    {
        self.send_plain_ping(effects, here, target, here.key.from, seq)?;
        self.add_relay(effects, here, seq)
    }

    /// A request for help; then what rides on it is applied.
    #[tactic(auto, unfolding(crate::specs::LateAcks::help_asked_for))]
    pub(crate) fn hear_help_request(
        &mut self,
        effects: &mut Effects,
        here: &Here,
        seq: u64,
        target: MemberId,
        updates: &[Update],
    ) -> Result<(), StepError>
        requires known { KnowsMembers here.now self.old }
        requires target { IsMember here.now target }
        requires updates { AreAboutMembers here.now updates.now }
        ensures { Makes here.now result self.old effects.old self.new effects.new (help_asked_for here.now.scenario.now here.now.key seq target updates.now) }
    {
        self.give_help(effects, here, seq, target)?;
        self.apply_all(effects, here, Announce::Aloud, updates)
    }

    /// Helps nobody any more by this number of this initiator.
    fn drop_relay(&mut self, effects: &Effects, here: &Here, initiator: MemberId, seq: u64)
        requires { KnowsMembers here.now self.old }
        ensures state { effect_of self.new effects.now ≡ without_relay initiator seq (effect_of self.old effects.now) }
        ensures kept { KnowsMembers here.now self.new }
    {
        let _owed = self.relays.remove(initiator, seq);
    }

    /// Passes an ack on to its initiator, while the member knows that it helps it.
    fn pass_ack_on(
        &mut self,
        effects: &mut Effects,
        here: &Here,
        initiator: MemberId,
        seq: u64,
    ) -> Result<(), StepError>
        requires known { KnowsMembers here.now self.old }
        requires initiator { IsMember here.now initiator }
        ensures { Makes here.now result self.old effects.old self.new effects.new (ack_passed_on here.now.scenario.now here.now.key initiator seq) }
    {
        if !self.relays.has(initiator, seq) {
            return Ok(());
        }
        let _owed = self.relays.remove(initiator, seq);
        self.send_ack(effects, here, initiator, initiator, seq)
    }

    /// An ack reaches the initiator, or is passed on to it in time.
    fn take_single_ack(
        &mut self,
        effects: &mut Effects,
        here: &Here,
        initiator: MemberId,
        seq: u64,
    ) -> Result<(), StepError>
        requires known { KnowsMembers here.now self.old }
        requires initiator { IsMember here.now initiator }
        ensures { Makes here.now result self.old effects.old self.new effects.new (single_ack_taken here.now.scenario.now here.now.key initiator seq) }
    {
        if initiator == here.key.to {
            self.answer_single(effects, here, seq)
        } else {
            self.pass_ack_on(effects, here, initiator, seq)
        }
    }

    /// An ack; then what rides on it is applied.
    #[tactic(auto, unfolding(crate::specs::LateAcks::single_ack_heard))]
    pub(crate) fn hear_single_ack(
        &mut self,
        effects: &mut Effects,
        here: &Here,
        initiator: MemberId,
        seq: u64,
        updates: &[Update],
    ) -> Result<(), StepError>
        requires known { KnowsMembers here.now self.old }
        requires initiator { IsMember here.now initiator }
        requires updates { AreAboutMembers here.now updates.now }
        ensures { Makes here.now result self.old effects.old self.new effects.new (single_ack_heard here.now.scenario.now here.now.key initiator seq updates.now) }
    {
        self.take_single_ack(effects, here, initiator, seq)?;
        self.apply_all(effects, here, Announce::Aloud, updates)
    }

    /// A nack is due: the helper forgets whom it helps, and with LHA-Probe tells the initiator that the target has not
    /// answered in time.
    #[tactic(auto, unfolding(crate::specs::LateAcks::help_over))]
    pub(crate) fn end_help(
        &mut self,
        effects: &mut Effects,
        here: &Here,
        initiator: MemberId,
        seq: u64,
    ) -> Result<(), StepError>
        requires known { KnowsMembers here.now self.old }
        requires initiator { IsMember here.now initiator }
        ensures { Makes here.now result self.old effects.old self.new effects.new (help_over here.now.scenario.now here.now.key initiator seq) }
    {
        if here.scenario.lifeguard().probe {
            return self.end_relay(effects, here, initiator, seq);
        }
        self.drop_relay(effects, here, initiator, seq);
        Ok(())
    }
}
