//! Gossip by memberlist 0.5.0's and Serf's rules: as long as claims or intents are left to send.
ghost use Rattle.std.specs.Prelude.{◌≡◌, ◌<◌};
ghost use Rattle.scenario.specs.Setup.{IsSoundGossip};
ghost use Rattle.member.specs.Makes.{KnowsMembers, Makes};
ghost use Rattle.member.specs.WholeGossip.{next_round_set, round_set_again, whole_gossip_due, whole_round};

use crate::blocks::departs_at;
use crate::event::Effects;
use crate::event_kind::EventKind;
use crate::here::Here;
use crate::member::Member;
use crate::step_error::StepError;
use base::next_in_step;
use scenario::Gossip;

impl Member {
    /// Sets the timer of the next round, once what this one has sent has departed.
    fn set_next_round(
        &mut self,
        effects: &mut Effects,
        here: &Here,
        gossip: Gossip,
    ) -> Result<(), StepError>
        requires known { KnowsMembers here.now self.old }
        requires sound { IsSoundGossip gossip }
        ensures { Makes here.now result self.old effects.old self.new effects.new (next_round_set here.now.scenario.now here.now.key gossip) }
    {
        let phase = self.beat.ticks().saturating_sub(1);
        let next = next_in_step(phase, gossip.interval, departs_at(here));
        self.gossips = true;
        self.make_event(effects, here, next, here.key.to, EventKind::GossipTimer)
    }

    /// Sets it where anything is left to send.
    fn set_round_again(
        &mut self,
        effects: &mut Effects,
        here: &Here,
        gossip: Gossip,
    ) -> Result<(), StepError>
        requires known { KnowsMembers here.now self.old }
        requires sound { IsSoundGossip gossip }
        ensures { Makes here.now result self.old effects.old self.new effects.new (round_set_again here.now.scenario.now here.now.key gossip) }
    {
        if self.is_all_told(here) {
            return Ok(());
        }
        self.set_next_round(effects, here, gossip)
    }

    /// A round of gossip, where there is anything to send.
    fn tell_whole_round(
        &mut self,
        effects: &mut Effects,
        here: &Here,
        gossip: Gossip,
    ) -> Result<(), StepError>
        requires known { KnowsMembers here.now self.old }
        requires sound { IsSoundGossip gossip }
        ensures { Makes here.now result self.old effects.old self.new effects.new (whole_round here.now.scenario.now here.now.key gossip) }
    {
        if self.is_all_told(here) {
            return Ok(());
        }
        self.spread_gossip(effects, here, gossip)?;
        self.set_round_again(effects, here, gossip)
    }

    /// The gossip timer is due: claims and intents go out, and it is set again as long as there are any.
    pub(crate) fn gossip_whole(
        &mut self,
        effects: &mut Effects,
        here: &Here,
    ) -> Result<(), StepError>
        requires { KnowsMembers here.now self.old }
        ensures { Makes here.now result self.old effects.old self.new effects.new (whole_gossip_due here.now.scenario.now here.now.key here.now.scenario.now.gossip) }
    {
        let settings = here.scenario.gossip();
        let Some(gossip) = settings else {
            return Ok(());
        };
        self.gossips = false;
        self.tell_whole_round(effects, here, gossip)
    }
}
