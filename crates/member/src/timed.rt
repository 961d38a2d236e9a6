//! A member's own probe by memberlist's rules: a probe has a deadline, periods keep a beat, and the next probe waits
//! for one that is still under way.
ghost use Rattle.std.specs.Prelude.{◌≡◌, ◌+◌, ◌^◌, ◌≤◌, ◌<◌};
ghost use Rattle.lifeguard.specs.Health.{scaled};
ghost use Rattle.member.specs.Effects.{with_event};
ghost use Rattle.std.specs.FinMap.{get};
ghost use Rattle.member.specs.Makes.{AreAboutMembers, IsMember, KnowsMembers, Makes};
ghost use Rattle.member.specs.Step.{suspected_at, timed_probe_failed, probe_settled, needs_timer, deadline_set, probe_timers_set, timed_probe_begun, next_timed_probed, waiting_probed, has_time, is_under_way, next_after_settled, probed_in_turn, period_beaten, waiting_after_settled, deadline_over, timed_answered, timed_ack_taken, timed_ack_heard};
ghost use Rattle.member.specs.StateOf.{state_of};

use crate::announce::Announce;
use crate::event::Effects;
use crate::event_kind::EventKind;
use crate::here::Here;
use crate::member::Member;
use crate::step_error::StepError;
use base::limits::COUNTER_LIMIT;
use base::{MemberId, Moment, next_in_step};
use incarnation::{Claim, Update};
use lifeguard::Probe;
use membership::is_confirm;
use trace::What;

/// A member's own probe by memberlist's rules: it has a deadline, and periods keep a beat.
impl Member {
    /// Suspects the target of a failed probe at the number at which it was held when the probe began,
    /// unless it is unknown or confirmed.
    fn suspect_at(
        &mut self,
        effects: &mut Effects,
        here: &Here,
        probe: &Probe,
    ) -> Result<(), StepError>
        requires { KnowsMembers here.now self.old }
        ensures { Makes here.now result self.old effects.old self.new effects.new (suspected_at here.now.scenario.now here.now.key probe.now (get (state_of self.old).table probe.now.target)) }
    {
        let Some(held) = self.table.get(probe.target) else {
            return Ok(());
        };
        if is_confirm(held.0) {
            return Ok(());
        }
        let claim = Update {
            subject: probe.target,
            claim: Claim::Suspect,
            inc: probe.number,
            accuser: here.key.to,
        };
        self.apply(effects, here, Announce::Aloud, &claim)
    }

    /// A probe that nothing reached has failed.
    #[tactic(auto, unfolding(crate::specs::Step::timed_probe_failed))]
    fn fail_timed_probe(
        &mut self,
        effects: &mut Effects,
        here: &Here,
        probe: &Probe,
    ) -> Result<(), StepError>
        requires { KnowsMembers here.now self.old }
        ensures { Makes here.now result self.old effects.old self.new effects.new (timed_probe_failed here.now.scenario.now here.now.key probe.now) }
    {
        self.write_row(
            effects,
            here,
            What::Fail,
            Some(probe.target),
            probe.seq,
            false,
        )?;
        let mut health = self.health;
        health.deadline_passed(probe);
        self.set_health(effects, here, health)?;
        self.suspect_at(effects, here, probe)
    }

    /// Ends the probe that is under way, if there is one.
    #[tactic(auto, using(crate::proofs::Holds::holds_no_probe), unfolding(crate::specs::Step::probe_settled))]
    pub(crate) fn settle_probe(
        &mut self,
        effects: &mut Effects,
        here: &Here,
    ) -> Result<(), StepError>
        requires { KnowsMembers here.now self.old }
        ensures { Makes here.now result self.old effects.old self.new effects.new (probe_settled here.now.scenario.now here.now.key (state_of self.old).probe) }
    {
        let Some(probe) = self.probe else {
            return Ok(());
        };
        self.probe = None;
        if !probe.reached {
            return self.fail_timed_probe(effects, here, &probe);
        }
        let mut health = self.health;
        health.deadline_passed(&probe);
        self.set_health(effects, here, health)
    }

    /// Probes a target: a ping, the timer for a direct answer, and the deadline. The next beat is given
    /// where its timer is set already. CounterOverflow where the sequence number stands at its limit.
    #[tactic(auto, unfolding(crate::specs::Step::timed_probe_begun))]
    fn begin_timed_probe(
        &mut self,
        effects: &mut Effects,
        here: &Here,
        next_beat: Option<Moment>,
        target: MemberId,
    ) -> Result<(), StepError>
        requires known { KnowsMembers here.now self.old }
        requires member { IsMember here.now target }
        ensures { Makes here.now result self.old effects.old self.new effects.new (timed_probe_begun here.now.scenario.now here.now.key next_beat target) }
    {
        if self.sequence >= COUNTER_LIMIT {
            return Err(StepError::CounterOverflow);
        }
        let seq = self.sequence + 1;
        let deadline = self.next_deadline(here);
        let number = self.table.number_of(target);
        let probe = Probe::timed(seq, target, number, deadline);
        self.sequence = seq;
        self.probe = Some(probe);
        self.send_ping(effects, here, target, here.key.to, seq)?;
        let timeout = here.scenario.swim().timeout;
        self.set_probe_timers(effects, here, next_beat, seq, timeout, deadline)
    }

    /// When a probe that begins now has its deadline: after a period, as long as health makes it.
    pub(crate) fn next_deadline(&self, here: &Here) -> Moment
        ensures { result ≡ here.now.key.at + scaled self.now.health here.now.scenario.now.swim.period }
    {
        Moment(here.key.at.ticks() + self.health.scaled(here.scenario.period()))
    }

    /// Sets the timer for a direct answer to a probe, and the timer of its deadline.
    fn set_probe_timers(
        &mut self,
        effects: &mut Effects,
        here: &Here,
        next_beat: Option<Moment>,
        seq: u64,
        timeout: u64,
        deadline: Moment,
    ) -> Result<(), StepError>
        requires ticks_within { timeout ≤ 2 ^ 41 }
        requires known { KnowsMembers here.now self.old }
        ensures { Makes here.now result self.old effects.old self.new effects.new (probe_timers_set here.now.scenario.now here.now.key next_beat seq timeout deadline) }
    {
        self.set_timer(effects, here, timeout, EventKind::TimeoutTimer { seq })?;
        self.set_deadline(effects, here, next_beat, seq, deadline)
    }

    /// Sets the timer of a deadline, where a probe needs one. Where it doesn't, the timer's number is used
    /// all the same, so that every other event keeps its own.
    fn set_deadline(
        &mut self,
        effects: &mut Effects,
        here: &Here,
        next_beat: Option<Moment>,
        seq: u64,
        deadline: Moment,
    ) -> Result<(), StepError>
        requires { KnowsMembers here.now self.old }
        ensures { Makes here.now result self.old effects.old self.new effects.new (deadline_set here.now.scenario.now here.now.key next_beat seq deadline) }
    {
        if !needs_timer(next_beat, deadline) {
            return self.use_number(here);
        }
        let timer = EventKind::DeadlineTimer { seq };
        self.make_event(effects, here, deadline, here.key.to, timer)
    }

    /// Probes the next member, where there is one.
    #[tactic(auto, using(crate::proofs::Holds::holds_no_probe), unfolding(crate::specs::Step::next_timed_probed))]
    fn probe_next_timed(
        &mut self,
        effects: &mut Effects,
        here: &Here,
        next_beat: Option<Moment>,
    ) -> Result<(), StepError>
        requires { KnowsMembers here.now self.old }
        ensures { Makes here.now result self.old effects.old self.new effects.new (next_timed_probed here.now.scenario.now here.now.key next_beat) }
    {
        match self.next_target(here) {
            Some(target) => self.begin_timed_probe(effects, here, next_beat, target),
            None => {
                self.probe = None;
                Ok(())
            }
        }
    }

    /// Probes the next member, if that was kept waiting.
    fn probe_waiting(&mut self, effects: &mut Effects, here: &Here) -> Result<(), StepError>
        requires { KnowsMembers here.now self.old }
        ensures { Makes here.now result self.old effects.old self.new effects.new (waiting_probed here.now.scenario.now here.now.key) }
    {
        if !self.waits {
            return Ok(());
        }
        self.waits = false;
        self.probe_next_timed(effects, here, None)
    }

    /// The beat of the periods: the next one is set; the next probe begins, or waits for one that still
    /// has time.
    #[tactic(auto, unfolding(crate::specs::Step::period_beaten))]
    pub(crate) fn beat_period(
        &mut self,
        effects: &mut Effects,
        here: &Here,
    ) -> Result<(), StepError>
        requires { KnowsMembers here.now self.old }
        ensures { Makes here.now result self.old effects.old self.new effects.new (period_beaten here.now.scenario.now here.now.key) }
    {
        let next = next_in_step(self.beat.ticks(), here.scenario.period(), here.key.at);
        self.go_on(effects, here, next)
    }

    /// Sets the timer of the next period for a moment, and probes in turn.
    fn go_on(&mut self, effects: &mut Effects, here: &Here, next: Moment) -> Result<(), StepError>
        requires { KnowsMembers here.now self.old }
        ensures { Makes here.now result self.old effects.old self.new effects.new (λ o. probed_in_turn here.now.scenario.now here.now.key next (with_event here.now.scenario.now here.now.key next here.now.key.to EventKind.PeriodTimer o)) }
    {
        self.make_event(effects, here, next, here.key.to, EventKind::PeriodTimer)?;
        self.probe_in_turn(effects, here, next)
    }

    /// The next probe waits for one that still has time, or else begins once that one has ended.
    fn probe_in_turn(
        &mut self,
        effects: &mut Effects,
        here: &Here,
        next_beat: Moment,
    ) -> Result<(), StepError>
        requires { KnowsMembers here.now self.old }
        ensures { Makes here.now result self.old effects.old self.new effects.new (probed_in_turn here.now.scenario.now here.now.key next_beat) }
    {
        if has_time(here.key.at, self.probe) {
            self.waits = true;
            return Ok(());
        }
        self.probe_after_settled(effects, here, next_beat)
    }

    /// Ends the probe that is under way, if there is one, and begins the next.
    fn probe_after_settled(
        &mut self,
        effects: &mut Effects,
        here: &Here,
        next_beat: Moment,
    ) -> Result<(), StepError>
        requires { KnowsMembers here.now self.old }
        ensures { Makes here.now result self.old effects.old self.new effects.new (next_after_settled here.now.scenario.now here.now.key next_beat) }
    {
        self.settle_probe(effects, here)?;
        self.probe_next_timed(effects, here, Some(next_beat))
    }

    /// The time of a probe is over, if it is still under way.
    #[tactic(auto, unfolding(crate::specs::Step::deadline_over))]
    pub(crate) fn end_deadline(
        &mut self,
        effects: &mut Effects,
        here: &Here,
        seq: u64,
    ) -> Result<(), StepError>
        requires { KnowsMembers here.now self.old }
        ensures { Makes here.now result self.old effects.old self.new effects.new (deadline_over here.now.scenario.now here.now.key seq) }
    {
        if is_under_way(seq, self.probe) {
            self.end_timed_probe(effects, here)
        } else {
            Ok(())
        }
    }

    /// Ends the probe that is under way, and begins the next, if it was kept waiting.
    fn end_timed_probe(&mut self, effects: &mut Effects, here: &Here) -> Result<(), StepError>
        requires { KnowsMembers here.now self.old }
        ensures { Makes here.now result self.old effects.old self.new effects.new (waiting_after_settled here.now.scenario.now here.now.key) }
    {
        self.settle_probe(effects, here)?;
        self.probe_waiting(effects, here)
    }

    /// An ack ends the probe that is under way, if it has its number.
    #[tactic(auto, using(crate::proofs::Holds::holds_no_probe), unfolding(crate::specs::Step::timed_answered))]
    fn answer_timed(
        &mut self,
        effects: &mut Effects,
        here: &Here,
        seq: u64,
    ) -> Result<(), StepError>
        requires { KnowsMembers here.now self.old }
        ensures { Makes here.now result self.old effects.old self.new effects.new (timed_answered here.now.scenario.now here.now.key seq) }
    {
        if !is_under_way(seq, self.probe) {
            return Ok(());
        }
        self.probe = None;
        let mut health = self.health;
        health.good();
        self.set_health(effects, here, health)?;
        self.probe_waiting(effects, here)
    }

    /// An ack, after what rides on it is applied: of one's own probe, or passed on.
    #[tactic(auto, unfolding(crate::specs::Step::timed_ack_heard))]
    pub(crate) fn hear_timed_ack(
        &mut self,
        effects: &mut Effects,
        here: &Here,
        initiator: MemberId,
        seq: u64,
        updates: &[Update],
    ) -> Result<(), StepError>
        requires known { KnowsMembers here.now self.old }
        requires initiator { IsMember here.now initiator }
        requires updates { AreAboutMembers here.now updates.now }
        ensures { Makes here.now result self.old effects.old self.new effects.new (timed_ack_heard here.now.scenario.now here.now.key initiator seq updates.now) }
    {
        self.apply_all(effects, here, Announce::Aloud, updates)?;
        self.take_timed_ack(effects, here, initiator, seq)
    }

    /// An ack reaches the initiator, or is passed on to it.
    fn take_timed_ack(
        &mut self,
        effects: &mut Effects,
        here: &Here,
        initiator: MemberId,
        seq: u64,
    ) -> Result<(), StepError>
        requires known { KnowsMembers here.now self.old }
        requires initiator { IsMember here.now initiator }
        ensures { Makes here.now result self.old effects.old self.new effects.new (timed_ack_taken here.now.scenario.now here.now.key initiator seq) }
    {
        if initiator == here.key.to {
            self.answer_timed(effects, here, seq)
        } else {
            self.take_ack(effects, here, initiator, seq)
        }
    }
}

// Whether a probe needs a timer to end it at its deadline: not where a beat comes no later whose timer
// is set before it, since that beat ends the probe.
fn needs_timer(next_beat: Option<Moment>, deadline: Moment) -> bool
    ensures { result ≡ needs_timer next_beat deadline }
{
    match next_beat {
        Some(beat) => beat < deadline,
        None => true,
    }
}

// Whether a probe is under way whose deadline is still to come.
pub(crate) fn has_time(now: Moment, probe: Option<Probe>) -> bool
    ensures { result ≡ has_time now probe }
{
    match probe {
        Some(probe) => now < probe.deadline,
        None => false,
    }
}

// Whether this is the number of the probe that is under way.
pub(crate) fn is_under_way(seq: u64, probe: Option<Probe>) -> bool
    ensures { result ≡ is_under_way seq probe }
{
    match probe {
        Some(probe) => probe.seq == seq,
        None => false,
    }
}
