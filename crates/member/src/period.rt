//! A protocol period by the papers' rules: the last probe ends, a failed one raises a suspicion (SWIM, section 4.2),
//! and the next member is probed; LHA-Probe scales period and timeout.
ghost use Rattle.std.specs.Prelude.{◌≡◌, ◌<◌, IfSome};
ghost use Rattle.member.specs.Makes.{IsMember, KnowsMembers, Makes};
ghost use Rattle.std.specs.FinMap.{get};
ghost use Rattle.probing.specs.ProbeOrder.{next_of};
ghost use Rattle.member.specs.Step.{probe_ended, probe_failed, suspected, probe_begun, next_probed, period_begun};
ghost use Rattle.member.specs.StateOf.{state_of};

use crate::announce::Announce;
use crate::event::Effects;
use crate::event_kind::EventKind;
use crate::here::Here;
use crate::member::Member;
use crate::step_error::StepError;
use base::MemberId;
use base::limits::COUNTER_LIMIT;
use incarnation::{Claim, Update};
use lifeguard::Probe;
use membership::is_confirm;
use trace::What;

impl Member {
    /// What the end of a period says of its probe, if there was one.
    #[tactic(auto, unfolding(crate::specs::Step::probe_ended))]
    fn end_probe(&mut self, effects: &mut Effects, here: &Here) -> Result<(), StepError>
        requires { KnowsMembers here.now self.old }
        ensures { Makes here.now result self.old effects.old self.new effects.new (probe_ended here.now.scenario.now here.now.key (state_of self.old).probe) }
    {
        let Some(probe) = self.probe else {
            return Ok(());
        };
        if !probe.acked {
            return self.fail_probe(effects, here, &probe);
        }
        let mut health = self.health;
        health.probe_ended(&probe);
        self.set_health(effects, here, health)
    }

    /// A probe without an ack has failed: the member may be slow, and the target may be down.
    #[tactic(auto, unfolding(crate::specs::Step::probe_failed))]
    fn fail_probe(
        &mut self,
        effects: &mut Effects,
        here: &Here,
        probe: &Probe,
    ) -> Result<(), StepError>
        requires { KnowsMembers here.now self.old }
        ensures { Makes here.now result self.old effects.old self.new effects.new (probe_failed here.now.scenario.now here.now.key probe.now) }
    {
        self.write_row(
            effects,
            here,
            What::Fail,
            Some(probe.target),
            probe.seq,
            false,
        )?;
        let mut health = self.health;
        health.probe_ended(probe);
        self.set_health(effects, here, health)?;
        self.suspect(effects, here, probe.target)
    }

    /// Suspects the target of a failed probe, unless it is unknown or confirmed (SWIM, section 4.2).
    fn suspect(
        &mut self,
        effects: &mut Effects,
        here: &Here,
        target: MemberId,
    ) -> Result<(), StepError>
        requires { KnowsMembers here.now self.old }
        ensures { Makes here.now result self.old effects.old self.new effects.new (suspected here.now.scenario.now here.now.key target (get (state_of self.old).table target)) }
    {
        let Some(held) = self.table.get(target) else {
            return Ok(());
        };
        if is_confirm(held.0) {
            return Ok(());
        }
        let claim = Update {
            subject: target,
            claim: Claim::Suspect,
            inc: held.1,
            accuser: here.key.to,
        };
        self.apply(effects, here, Announce::Aloud, &claim)
    }

    /// The next member to probe, in the turn of the rota.
    pub(crate) fn next_target(&mut self, here: &Here) -> Option<MemberId>
        requires { KnowsMembers here.now self.old }
        ensures target { result ≡ (next_of (state_of self.old).words (state_of self.old).rota).0 }
        ensures state { let next = next_of (state_of self.old).words (state_of self.old).rota in
            state_of self.new ≡ record (state_of self.old) { rota = next.1; words = next.2 } }
        ensures member { IfSome result (IsMember here.now) }
        ensures kept { KnowsMembers here.now self.new }
    {
        self.rota.next(&mut self.stream)
    }

    /// Probes a target: a ping, which has until the timeout to be answered. LHA-Probe scales the timeout.
    /// CounterOverflow where the sequence number stands at its limit.
    #[tactic(auto, unfolding(crate::specs::Step::probe_begun))]
    fn begin_probe(
        &mut self,
        effects: &mut Effects,
        here: &Here,
        target: MemberId,
    ) -> Result<(), StepError>
        requires known { KnowsMembers here.now self.old }
        requires member { IsMember here.now target }
        ensures { Makes here.now result self.old effects.old self.new effects.new (probe_begun here.now.scenario.now here.now.key target) }
    {
        if self.sequence >= COUNTER_LIMIT {
            return Err(StepError::CounterOverflow);
        }
        let seq = self.sequence + 1;
        self.sequence = seq;
        self.probe = Some(Probe::new(seq, target));
        self.send_ping(effects, here, target, here.key.to, seq)?;
        let ticks = self.health.scaled(here.scenario.swim().timeout);
        self.set_timer(effects, here, ticks, EventKind::TimeoutTimer { seq })
    }

    /// Probes the next member, where there is one.
    #[tactic(auto, using(crate::proofs::Holds::holds_no_probe), unfolding(crate::specs::Step::next_probed))]
    fn probe_next(&mut self, effects: &mut Effects, here: &Here) -> Result<(), StepError>
        requires { KnowsMembers here.now self.old }
        ensures { Makes here.now result self.old effects.old self.new effects.new (next_probed here.now.scenario.now here.now.key) }
    {
        match self.next_target(here) {
            Some(target) => self.begin_probe(effects, here, target),
            None => {
                self.probe = None;
                Ok(())
            }
        }
    }

    /// A protocol period: the last probe ends, the next begins, and a timer is set for the next period,
    /// which LHA-Probe scales.
    #[tactic(auto, unfolding(crate::specs::Step::period_begun))]
    pub(crate) fn begin_period(
        &mut self,
        effects: &mut Effects,
        here: &Here,
    ) -> Result<(), StepError>
        requires { KnowsMembers here.now self.old }
        ensures { Makes here.now result self.old effects.old self.new effects.new (period_begun here.now.scenario.now here.now.key) }
    {
        self.end_probe(effects, here)?;
        self.probe_next(effects, here)?;
        let ticks = self.health.scaled(here.scenario.period());
        self.set_timer(effects, here, ticks, EventKind::PeriodTimer)
    }
}
