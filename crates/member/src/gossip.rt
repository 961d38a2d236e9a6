//! Gossip (memberlist's rules): as long as a member has updates to send, it sends them to a drawn few at each
//! timer of its own.
ghost use Rattle.std.specs.Prelude.{◌≡◌, ◌≤◌, ◌<◌, Some, All, length, IfOk, IfErr, OnOk};
ghost use Rattle.scenario.specs.Setup.{IsSoundGossip};
ghost use Rattle.probing.specs.Samples.{sample_of};
ghost use Rattle.member.specs.Makes.{Draws, IsMember, KnowsMembers, Makes};
ghost use Rattle.member.specs.Send.{sent_to_each, gossip_sent};
ghost use Rattle.member.specs.Apply.{gossip_set};
ghost use Rattle.member.specs.Step.{candidates_for, is_told_out, gossip_spread, gossip_set_again, gossip_round, gossip_due};
ghost use Rattle.member.specs.StateOf.{state_of};

use crate::event::Effects;
use crate::event_kind::EventKind;
use crate::here::Here;
use crate::member::Member;
use crate::riding::Bearer;
use crate::step_error::StepError;
use base::{MemberId, next_in_step};
use membership::Fitting;
use probing::laws::samples_are_of_those_that_fit;
use probing::sample;
use scenario::Gossip;
use trace::What;

/// What goes out by itself, by memberlist's rules.
impl Member {
    /// Members that are drawn among all that are known, of those that fit.
    pub(crate) fn draw_sample(
        &mut self,
        here: &Here,
        fitting: &Fitting,
        count: u64,
    ) -> Result<Vec<MemberId>, StepError>
        requires few { count ≤ 16 }
        requires known { KnowsMembers here.now self.old }
        ensures drawn { IfOk result (λ them. Draws them.items self.old self.new
            (sample_of (state_of self.old).words count (candidates_for here.now.key fitting.now (state_of self.old)))) }
        ensures members { IfOk result (λ them. All (IsMember here.now) them.items) }
        ensures drawn_within { IfOk result (λ them. length them.items ≤ 16) }
        ensures err { IfErr result (λ e. e ≡ StepError.Memory) }
        ensures kept { OnOk result (KnowsMembers here.now self.new) }
    {
        samples_are_of_those_that_fit();
        let candidates = self
            .table
            .candidates(here.alloc, here.key.to, fitting, &self.deaths)?;
        let them = sample(here.alloc, &candidates, count as usize, &mut self.stream)?;
        Ok(them)
    }

    /// Sets the gossip timer, where members gossip and it isn't set: at the next moment of gossip, in
    /// step with the periods.
    pub(crate) fn set_gossip(&mut self, effects: &mut Effects, here: &Here) -> Result<(), StepError>
        requires { KnowsMembers here.now self.old }
        ensures { Makes here.now result self.old effects.old self.new effects.new (gossip_set here.now.scenario.now here.now.key here.now.scenario.now.gossip) }
    {
        let settings = here.scenario.gossip();
        let Some(gossip) = settings else {
            return Ok(());
        };
        self.set_gossip_by(effects, here, gossip)
    }

    /// Sets the gossip timer by these settings, unless it is set.
    fn set_gossip_by(
        &mut self,
        effects: &mut Effects,
        here: &Here,
        gossip: Gossip,
    ) -> Result<(), StepError>
        requires known { KnowsMembers here.now self.old }
        requires sound { IsSoundGossip gossip }
        ensures { Makes here.now result self.old effects.old self.new effects.new (gossip_set here.now.scenario.now here.now.key (Some gossip)) }
    {
        if self.gossips {
            return Ok(());
        }
        let phase = self.beat.ticks().saturating_sub(1);
        let next = next_in_step(phase, gossip.interval, here.key.at);
        self.gossips = true;
        self.make_event(effects, here, next, here.key.to, EventKind::GossipTimer)
    }

    /// Sends updates by themselves to a member, if any are left to send.
    #[tactic(auto, unfolding(crate::specs::Send::gossip_sent))]
    fn send_gossip(
        &mut self,
        effects: &mut Effects,
        here: &Here,
        to: MemberId,
    ) -> Result<(), StepError>
        requires to { IsMember here.now to }
        requires known { KnowsMembers here.now self.old }
        ensures { Makes here.now result self.old effects.old self.new effects.new (gossip_sent here.now.scenario.now here.now.key to) }
    {
        let updates = self.pick_riding(here, Bearer::Gossip)?;
        if updates.as_slice().len() == 0 {
            return Ok(());
        }
        self.send(
            effects,
            here,
            What::Gossip,
            to,
            0,
            EventKind::Gossip { updates },
        )
    }

    /// Sends updates to members, one after another.
    fn gossip_to(
        &mut self,
        effects: &mut Effects,
        here: &Here,
        them: &[MemberId],
    ) -> Result<(), StepError>
        requires known { KnowsMembers here.now self.old }
        requires members { All (IsMember here.now) them.now }
        ensures { Makes here.now result self.old effects.old self.new effects.new (sent_to_each (gossip_sent here.now.scenario.now here.now.key) them.now) }
    {
        for to in them {
            self.send_gossip(effects, here, *to)?;
        }
        Ok(())
    }

    /// Sends updates to some who are chosen.
    #[tactic(auto, unfolding(crate::specs::Step::gossip_spread))]
    pub(crate) fn spread_gossip(
        &mut self,
        effects: &mut Effects,
        here: &Here,
        gossip: Gossip,
    ) -> Result<(), StepError>
        requires known { KnowsMembers here.now self.old }
        requires sound { IsSoundGossip gossip }
        ensures { Makes here.now result self.old effects.old self.new effects.new (gossip_spread here.now.scenario.now here.now.key gossip) }
    {
        let fitting = Fitting::Reachable {
            now: here.key.at,
            dead: gossip.dead,
        };
        let them = self.draw_sample(here, &fitting, gossip.nodes)?;
        self.gossip_to(effects, here, &them)
    }

    /// The gossip timer is due: updates go out, and it is set again as long as there is something to send.
    pub(crate) fn gossip(&mut self, effects: &mut Effects, here: &Here) -> Result<(), StepError>
        requires { KnowsMembers here.now self.old }
        ensures { Makes here.now result self.old effects.old self.new effects.new (gossip_due here.now.scenario.now here.now.key here.now.scenario.now.gossip) }
    {
        let settings = here.scenario.gossip();
        let Some(gossip) = settings else {
            return Ok(());
        };
        self.gossips = false;
        self.tell_round(effects, here, gossip)
    }

    /// Sends updates to some, as long as there is something to send.
    fn tell_round(
        &mut self,
        effects: &mut Effects,
        here: &Here,
        gossip: Gossip,
    ) -> Result<(), StepError>
        requires known { KnowsMembers here.now self.old }
        requires sound { IsSoundGossip gossip }
        ensures { Makes here.now result self.old effects.old self.new effects.new (gossip_round here.now.scenario.now here.now.key gossip) }
    {
        if self.is_told_out() {
            Ok(())
        } else {
            self.tell_some(effects, here, gossip)
        }
    }

    /// Sends updates to some, and again later.
    fn tell_some(
        &mut self,
        effects: &mut Effects,
        here: &Here,
        gossip: Gossip,
    ) -> Result<(), StepError>
        requires known { KnowsMembers here.now self.old }
        requires sound { IsSoundGossip gossip }
        ensures { Makes here.now result self.old effects.old self.new effects.new (λ o. gossip_set_again here.now.scenario.now here.now.key (gossip_spread here.now.scenario.now here.now.key gossip o)) }
    {
        self.spread_gossip(effects, here, gossip)?;
        self.set_gossip_again(effects, here)
    }

    /// Whether nothing is left to send.
    fn is_told_out(&self) -> bool
        ensures { result ≡ is_told_out (state_of self.now) }
    {
        self.buffer.is_empty()
    }

    /// Sets the gossip timer, as long as there is something to send.
    fn set_gossip_again(&mut self, effects: &mut Effects, here: &Here) -> Result<(), StepError>
        requires { KnowsMembers here.now self.old }
        ensures { Makes here.now result self.old effects.old self.new effects.new (gossip_set_again here.now.scenario.now here.now.key) }
    {
        if self.is_told_out() {
            Ok(())
        } else {
            self.set_gossip(effects, here)
        }
    }
}
