//! Indirect probes: a member draws helpers and asks them to ping the target (SWIM, section 3.1),
//! and expects an answer of each with LHA-Probe.
ghost use Rattle.std.specs.Prelude.{◌≡◌, ◌<◌, ◌≤◌, All, length, OnOk, IfOk, IfErr};
ghost use Rattle.member.specs.Makes.{Draws, IsMember, KnowsMembers, Makes};
ghost use Rattle.probing.specs.ProbeOrder.{helpers_of};
ghost use Rattle.membership.specs.Table.{alive_but};
ghost use Rattle.member.specs.Step.{all_asked, with_expected, help_asked, timed_out};
ghost use Rattle.member.specs.StateOf.{effect_of, state_of};

use crate::event::Effects;
use crate::here::Here;
use crate::member::Member;
use crate::step_error::StepError;
use base::MemberId;
use lifeguard::Probe;
use probing::helpers;

impl Member {
    /// Members that are held to be alive, but for one of them: so many, or all (SWIM, section 3.1).
    pub(crate) fn draw_helpers(
        &mut self,
        here: &Here,
        but: MemberId,
        count: u64,
    ) -> Result<Vec<MemberId>, StepError>
        requires few { count ≤ 16 }
        requires known { KnowsMembers here.now self.old }
        ensures drawn { IfOk result (λ helpers. Draws helpers.items self.old self.new
            (helpers_of (state_of self.old).words count (alive_but but (state_of self.old).table))) }
        ensures members { IfOk result (λ helpers. All (IsMember here.now) helpers.items) }
        ensures helpers_within { IfOk result (λ helpers. length helpers.items ≤ 16) }
        ensures err { IfErr result (λ e. e ≡ StepError.Memory) }
        ensures kept { OnOk result (KnowsMembers here.now self.new) }
    {
        let candidates = self.table.alive_but(here.alloc, but)?;
        Ok(helpers(candidates, count as usize, &mut self.stream))
    }

    /// Asks helpers, one after another, to ping the target.
    pub(crate) fn ask_all(
        &mut self,
        effects: &mut Effects,
        here: &Here,
        target: MemberId,
        seq: u64,
        helpers: &[MemberId],
    ) -> Result<(), StepError>
        requires known { KnowsMembers here.now self.old }
        requires members { All (IsMember here.now) helpers.now }
        ensures { Makes here.now result self.old effects.old self.new effects.new (all_asked here.now.scenario.now here.now.key target seq helpers.now) }
    {
        for helper in helpers {
            self.send_ping_req(effects, here, target, seq, *helper)?;
        }
        Ok(())
    }

    /// Asks helpers to ping the target. With LHA-Probe the probe expects an answer of each.
    #[tactic(auto, unfolding(crate::specs::Step::help_asked))]
    fn ask_help(
        &mut self,
        effects: &mut Effects,
        here: &Here,
        probe: &Probe,
    ) -> Result<(), StepError>
        requires known { KnowsMembers here.now self.old }
        requires target { IsMember here.now probe.now.target }
        ensures { Makes here.now result self.old effects.old self.new effects.new (help_asked here.now.scenario.now here.now.key probe.now) }
    {
        let count = here.scenario.swim().helpers;
        let helpers = self.draw_helpers(here, probe.target, count)?;
        self.ask_all(effects, here, probe.target, probe.seq, &helpers)?;
        self.expect(effects, here, probe, helpers.len() as u8);
        Ok(())
    }

    /// With LHA-Probe the probe expects an answer of each helper that was asked.
    #[tactic(auto, using(crate::proofs::Holds::holds_probe))]
    pub(crate) fn expect(&mut self, effects: &Effects, here: &Here, probe: &Probe, count: u8)
        requires known { KnowsMembers here.now self.old }
        requires target { IsMember here.now probe.now.target }
        ensures state { effect_of self.new effects.now ≡ with_expected here.now.scenario.now probe.now count (effect_of self.old effects.now) }
        ensures kept { KnowsMembers here.now self.new }
    {
        if !here.scenario.lifeguard().probe {
            return;
        }
        let mut expecting = *probe;
        expecting.expected = count;
        self.probe = Some(expecting);
    }

    /// The time for a direct answer is up: helpers are asked, if the probe is still under way and unanswered.
    #[tactic(auto, unfolding(crate::specs::Step::timed_out))]
    pub(crate) fn time_out(
        &mut self,
        effects: &mut Effects,
        here: &Here,
        seq: u64,
    ) -> Result<(), StepError>
        requires { KnowsMembers here.now self.old }
        ensures { Makes here.now result self.old effects.old self.new effects.new (timed_out here.now.scenario.now here.now.key seq (state_of self.old).probe) }
    {
        let Some(probe) = self.probe else {
            return Ok(());
        };
        if probe.seq == seq && !probe.acked && here.scenario.swim().helpers > 0 {
            self.ask_help(effects, here, &probe)
        } else {
            Ok(())
        }
    }
}
