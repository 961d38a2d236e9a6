//! A member's own probe by memberlist 0.5.0's rules: a beat that comes while a probe is under way waits, and is the same as
//! the one that comes at its deadline.
ghost use Rattle.std.specs.Prelude.{◌≡◌, ◌^◌, ◌≤◌, ◌<◌, max};
ghost use Rattle.member.specs.Blocks.{departs_at};
ghost use Rattle.member.specs.Effects.{with_event};
ghost use Rattle.member.specs.Makes.{IsMember, KnowsMembers, Makes};
ghost use Rattle.member.specs.SingleBeat.{is_in_step, deadline_between_beats, both_timers_set, single_probe_begun, blocked_probe_begun, departing_probe_begun, turn_probed, next_single_probed, next_if_waiting, next_of_beat, single_beat_taken, single_beaten, next_if_waiting_after, single_deadline_over, single_answered};
ghost use Rattle.member.specs.StateOf.{state_of};

use crate::blocks::departs_at;
use crate::event::Effects;
use crate::event_kind::EventKind;
use crate::here::Here;
use crate::member::Member;
use crate::step_error::StepError;
use crate::timed::{has_time, is_under_way};
use base::limits::COUNTER_LIMIT;
use base::{MemberId, Moment, next_in_step};
use lifeguard::Probe;

impl Member {
    /// Sets the timer of a deadline, unless a beat comes at it. Then the timer's number is used all the same.
    fn set_deadline_between_beats(
        &mut self,
        effects: &mut Effects,
        here: &Here,
        seq: u64,
        deadline: Moment,
    ) -> Result<(), StepError>
        requires { KnowsMembers here.now self.old }
        ensures { Makes here.now result self.old effects.old self.new effects.new (deadline_between_beats here.now.scenario.now here.now.key seq deadline) }
    {
        if is_in_step(self.beat, here.scenario.period(), deadline) {
            return self.use_number(here);
        }
        let timer = EventKind::DeadlineTimer { seq };
        self.make_event(effects, here, deadline, here.key.to, timer)
    }

    /// Sets the timer for a direct answer to a probe, and the timer of its deadline.
    fn set_both_timers(
        &mut self,
        effects: &mut Effects,
        here: &Here,
        seq: u64,
        timeout: u64,
        deadline: Moment,
    ) -> Result<(), StepError>
        requires ticks_within { timeout ≤ 2 ^ 41 }
        requires known { KnowsMembers here.now self.old }
        ensures { Makes here.now result self.old effects.old self.new effects.new (both_timers_set here.now.scenario.now here.now.key seq timeout deadline) }
    {
        self.set_timer(effects, here, timeout, EventKind::TimeoutTimer { seq })?;
        self.set_deadline_between_beats(effects, here, seq, deadline)
    }

    /// Probes a target: a ping, the timer for a direct answer, and the deadline. CounterOverflow where the sequence
    /// number stands at its limit.
    #[tactic(auto, unfolding(crate::specs::SingleBeat::single_probe_begun))]
    fn begin_single_probe(
        &mut self,
        effects: &mut Effects,
        here: &Here,
        target: MemberId,
    ) -> Result<(), StepError>
        requires known { KnowsMembers here.now self.old }
        requires member { IsMember here.now target }
        ensures { Makes here.now result self.old effects.old self.new effects.new (single_probe_begun here.now.scenario.now here.now.key target) }
    {
        if self.sequence >= COUNTER_LIMIT {
            return Err(StepError::CounterOverflow);
        }
        let seq = self.sequence + 1;
        let deadline = self.next_deadline(here);
        let number = self.table.number_of(target);
        let probe = Probe::timed(seq, target, number, deadline);
        self.sequence = seq;
        self.probe = Some(probe);
        self.send_probe_ping(effects, here, target, seq)?;
        let timeout = here.scenario.swim().timeout;
        self.set_both_timers(effects, here, seq, timeout, deadline)
    }

    /// Probes a target whose ping departs later, at the end of a block. CounterOverflow where the sequence number stands at
    /// its limit.
    #[tactic(auto, unfolding(crate::specs::SingleBeat::blocked_probe_begun))]
    fn begin_blocked_probe(
        &mut self,
        effects: &mut Effects,
        here: &Here,
        target: MemberId,
        departs: Moment,
    ) -> Result<(), StepError>
        requires early { departs ≤ 2 ^ 40 }
        requires known { KnowsMembers here.now self.old }
        requires member { IsMember here.now target }
        ensures { Makes here.now result self.old effects.old self.new effects.new (blocked_probe_begun here.now.scenario.now here.now.key target departs) }
    {
        if self.sequence >= COUNTER_LIMIT {
            return Err(StepError::CounterOverflow);
        }
        let seq = self.sequence + 1;
        let deadline = later(self.next_deadline(here), departs);
        let number = self.table.number_of(target);
        let probe = Probe::timed(seq, target, number, deadline);
        self.sequence = seq;
        self.probe = Some(probe);
        self.send_probe_ping(effects, here, target, seq)?;
        let timeout = departs.ticks() + here.scenario.swim().timeout;
        let timeout = Moment(timeout.min(deadline.ticks()));
        let timer = EventKind::TimeoutTimer { seq };
        self.make_event(effects, here, timeout, here.key.to, timer)?;
        let timer = EventKind::DeadlineTimer { seq };
        self.make_event(effects, here, deadline, here.key.to, timer)
    }

    /// Probes a target, by whether its ping departs now.
    fn begin_departing_probe(
        &mut self,
        effects: &mut Effects,
        here: &Here,
        target: MemberId,
    ) -> Result<(), StepError>
        requires known { KnowsMembers here.now self.old }
        requires member { IsMember here.now target }
        ensures { Makes here.now result self.old effects.old self.new effects.new (departing_probe_begun here.now.scenario.now here.now.key target (departs_at here.now.scenario.now here.now.key)) }
    {
        let departs = departs_at(here);
        if here.key.at < departs {
            return self.begin_blocked_probe(effects, here, target, departs);
        }
        self.begin_single_probe(effects, here, target)
    }

    /// Ends a round that is over, and probes the next member, where there is one.
    #[tactic(auto, unfolding(crate::specs::SingleBeat::next_single_probed))]
    fn probe_next_single(&mut self, effects: &mut Effects, here: &Here) -> Result<(), StepError>
        requires { KnowsMembers here.now self.old }
        ensures { Makes here.now result self.old effects.old self.new effects.new (next_single_probed here.now.scenario.now here.now.key) }
    {
        self.end_round(effects, here)?;
        self.probe_turn(effects, here)
    }

    /// Probes the next member, where there is one.
    #[tactic(auto, using(crate::proofs::Holds::holds_no_probe), unfolding(crate::specs::SingleBeat::turn_probed))]
    fn probe_turn(&mut self, effects: &mut Effects, here: &Here) -> Result<(), StepError>
        requires { KnowsMembers here.now self.old }
        ensures { Makes here.now result self.old effects.old self.new effects.new (turn_probed here.now.scenario.now here.now.key) }
    {
        match self.next_target(here) {
            Some(target) => self.begin_departing_probe(effects, here, target),
            None => {
                self.probe = None;
                Ok(())
            }
        }
    }

    /// Probes the next member, if a beat waits for that.
    fn probe_if_waiting(&mut self, effects: &mut Effects, here: &Here) -> Result<(), StepError>
        requires { KnowsMembers here.now self.old }
        ensures { Makes here.now result self.old effects.old self.new effects.new (next_if_waiting here.now.scenario.now here.now.key) }
    {
        if !self.waits {
            return Ok(());
        }
        self.waits = false;
        self.probe_next_single(effects, here)
    }

    /// Ends the probe that is under way, if there is one, and begins the next. No beat waits any more.
    fn begin_next_of_beat(&mut self, effects: &mut Effects, here: &Here) -> Result<(), StepError>
        requires { KnowsMembers here.now self.old }
        ensures { Makes here.now result self.old effects.old self.new effects.new (next_of_beat here.now.scenario.now here.now.key) }
    {
        self.waits = false;
        self.settle_probe(effects, here)?;
        self.probe_next_single(effects, here)
    }

    /// The beat waits for a probe that still has time, or else the next one begins.
    fn take_beat(&mut self, effects: &mut Effects, here: &Here) -> Result<(), StepError>
        requires { KnowsMembers here.now self.old }
        ensures { Makes here.now result self.old effects.old self.new effects.new (single_beat_taken here.now.scenario.now here.now.key) }
    {
        if has_time(here.key.at, self.probe) {
            self.waits = true;
            return Ok(());
        }
        self.begin_next_of_beat(effects, here)
    }

    /// Sets the timer of the next period for a moment, and takes the beat.
    fn beat_on(&mut self, effects: &mut Effects, here: &Here, next: Moment) -> Result<(), StepError>
        requires { KnowsMembers here.now self.old }
        ensures { Makes here.now result self.old effects.old self.new effects.new (λ o. single_beat_taken here.now.scenario.now here.now.key (with_event here.now.scenario.now here.now.key next here.now.key.to EventKind.PeriodTimer o)) }
    {
        self.make_event(effects, here, next, here.key.to, EventKind::PeriodTimer)?;
        self.take_beat(effects, here)
    }

    /// The beat of the periods: the next one is set; the next probe begins, or this beat waits.
    #[tactic(auto, unfolding(crate::specs::SingleBeat::single_beaten))]
    pub(crate) fn beat_once(&mut self, effects: &mut Effects, here: &Here) -> Result<(), StepError>
        requires { KnowsMembers here.now self.old }
        ensures { Makes here.now result self.old effects.old self.new effects.new (single_beaten here.now.scenario.now here.now.key) }
    {
        let next = next_in_step(self.beat.ticks(), here.scenario.period(), here.key.at);
        self.beat_on(effects, here, next)
    }

    /// Ends the probe that is under way, and begins the next, if a beat waits for that.
    fn end_single_probe(&mut self, effects: &mut Effects, here: &Here) -> Result<(), StepError>
        requires { KnowsMembers here.now self.old }
        ensures { Makes here.now result self.old effects.old self.new effects.new (next_if_waiting_after here.now.scenario.now here.now.key) }
    {
        self.settle_probe(effects, here)?;
        self.probe_if_waiting(effects, here)
    }

    /// The time of a probe is over, if it is still under way.
    #[tactic(auto, unfolding(crate::specs::SingleBeat::single_deadline_over))]
    pub(crate) fn end_single_deadline(
        &mut self,
        effects: &mut Effects,
        here: &Here,
        seq: u64,
    ) -> Result<(), StepError>
        requires { KnowsMembers here.now self.old }
        ensures { Makes here.now result self.old effects.old self.new effects.new (single_deadline_over here.now.scenario.now here.now.key seq) }
    {
        if is_under_way(seq, self.probe) {
            self.end_single_probe(effects, here)
        } else {
            Ok(())
        }
    }

    /// An ack ends the probe that is under way, if it has its number.
    #[tactic(auto, using(crate::proofs::Holds::holds_no_probe), unfolding(crate::specs::SingleBeat::single_answered))]
    pub(crate) fn answer_single(
        &mut self,
        effects: &mut Effects,
        here: &Here,
        seq: u64,
    ) -> Result<(), StepError>
        requires { KnowsMembers here.now self.old }
        ensures { Makes here.now result self.old effects.old self.new effects.new (single_answered here.now.scenario.now here.now.key seq) }
    {
        if !is_under_way(seq, self.probe) {
            return Ok(());
        }
        self.probe = None;
        let mut health = self.health;
        health.good();
        self.set_health(effects, here, health)?;
        self.probe_if_waiting(effects, here)
    }
}

// Whether a moment is a whole number of periods from a beat.
fn is_in_step(beat: Moment, period: u64, at: Moment) -> bool
    requires { 1 ≤ period }
    ensures { result ≡ is_in_step beat period at }
{
    at.ticks() % period == beat.ticks() % period
}

// The later one of two moments.
fn later(one: Moment, other: Moment) -> Moment
    ensures { result ≡ max one other }
{
    Moment(one.ticks().max(other.ticks()))
}
