//! Whom a member forgets by memberlist 0.5.0's rules: where a round of probes is over, those that it has held dead for long.
ghost use Rattle.std.specs.Prelude.{◌≡◌, ◌+◌, ◌<◌, ◌==◌, false, nat_lt, length};
ghost use Rattle.std.specs.FinMap.{get};
ghost use Rattle.scenario.specs.Setup.{member_count};
ghost use Rattle.member.specs.Makes.{IsMember, KnowsMembers, Makes};
ghost use Rattle.member.specs.Forgetting.{kept_for, is_long_dead, without_entry, forgotten_if, all_forgotten, round_ended};
ghost use Rattle.member.specs.State.{is_probed};
ghost use Rattle.member.specs.StateOf.{state_of};

use crate::event::Effects;
use crate::here::Here;
use crate::member::Member;
use crate::step_error::StepError;
use base::{MemberId, Moment};
use incarnation::Claim;
use membership::is_confirm;
use scenario::Scenario;
use trace::What;

impl Member {
    /// Whether a member that is held so has been dead for longer than the dead are kept.
    fn is_long_dead(&self, here: &Here, member: MemberId, claim: Claim) -> bool
        ensures { result ≡ is_long_dead here.now.key.at (kept_for here.now.scenario.now.gossip) ((state_of self.now).since member) claim }
    {
        is_confirm(claim)
            && is_longer_ago(
                self.deaths.since(member),
                here.key.at,
                kept_for(here.scenario),
            )
    }

    /// Holds nothing any more of a member that isn't probed.
    fn forget(&mut self, here: &Here, member: MemberId)
        requires known { KnowsMembers here.now self.old }
        requires absent { is_probed (get (state_of self.old).table member) ≡ false }
        ensures state { state_of self.new ≡ without_entry member (state_of self.old) }
        ensures kept { KnowsMembers here.now self.new }
    {
        self.table.remove(member);
    }

    /// Forgets a member that has been dead for long, if it is one.
    fn forget_if_long_dead(
        &mut self,
        effects: &mut Effects,
        here: &Here,
        member: MemberId,
    ) -> Result<(), StepError>
        requires known { KnowsMembers here.now self.old }
        requires member { IsMember here.now member }
        ensures { Makes here.now result self.old effects.old self.new effects.new (forgotten_if here.now.scenario.now here.now.key member (get (state_of self.old).table member)) }
    {
        let Some(held) = self.table.get(member) else {
            return Ok(());
        };
        if !self.is_long_dead(here, member, held.0) {
            return Ok(());
        }
        self.forget(here, member);
        self.write_row(effects, here, What::Forget, Some(member), held.1, false)
    }

    /// Forgets all that have been dead for long, in the order of their numbers.
    fn forget_long_dead(&mut self, effects: &mut Effects, here: &Here) -> Result<(), StepError>
        requires { KnowsMembers here.now self.old }
        ensures { Makes here.now result self.old effects.old self.new effects.new (all_forgotten here.now.scenario.now here.now.key (member_count here.now.scenario.now)) }
    {
        for number in 0..here.scenario.members() {
            self.forget_if_long_dead(effects, here, MemberId(number as u16))?;
        }
        Ok(())
    }

    /// Ends a round that is over: the dead are forgotten that are kept no longer.
    #[tactic(auto, unfolding(crate::specs::Forgetting::round_ended))]
    pub(crate) fn end_round(&mut self, effects: &mut Effects, here: &Here) -> Result<(), StepError>
        requires { KnowsMembers here.now self.old }
        ensures { Makes here.now result self.old effects.old self.new effects.new (round_ended here.now.scenario.now here.now.key) }
    {
        if !self.rota.is_round_over() {
            return Ok(());
        }
        self.forget_long_dead(effects, here)
    }
}

// For how many ticks the dead are kept: as long as they are gossiped to.
fn kept_for(scenario: &Scenario) -> u64
    ensures { result ≡ kept_for scenario.now.gossip }
{
    match scenario.gossip() {
        Some(gossip) => gossip.dead,
        None => 0,
    }
}

// Whether something happened more than so many ticks ago.
fn is_longer_ago(since: Moment, now: Moment, ticks: u64) -> bool
    ensures { result ≡ nat_lt (since + ticks) now }
{
    now.ticks().saturating_sub(since.ticks()) > ticks
}
