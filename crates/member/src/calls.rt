//! Calls over streams (memberlist's rules): when a ping gets no ack in time, a member asks helpers
//! and calls the target.
ghost use Rattle.std.specs.Prelude.{◌≡◌, ◌<◌};
ghost use Rattle.links.specs.Trips.{call_of, answer_of};
ghost use Rattle.scenario.specs.Profile.{profile_of};
ghost use Rattle.member.specs.Blocks.{on_its_way};
ghost use Rattle.member.specs.Makes.{Draws, IsMember, KnowsMembers, Makes};
ghost use Rattle.member.specs.Send.{call_sent, answer_sent};
ghost use Rattle.member.specs.Step.{called, sampled_help, helped, timed_out_timed, reached, answer_heard};
ghost use Rattle.member.specs.StateOf.{effect_of, state_of};

use crate::blocks::{departs_by, got_through_by};
use crate::event::Effects;
use crate::event_kind::EventKind;
use crate::here::Here;
use crate::member::Member;
use crate::step_error::StepError;
use base::{MemberId, Moment};
use lifeguard::Probe;
use membership::Fitting;
use trace::What;

/// Streams, by memberlist's rules.
impl Member {
    /// When a call of a member comes to it, if it does.
    fn call_arrival(&mut self, here: &Here, to: MemberId) -> Option<Moment>
        requires to { IsMember here.now to }
        requires known { KnowsMembers here.now self.old }
        ensures drawn { Draws result self.old self.new (on_its_way (profile_of here.now.scenario.now) here.now.scenario.now here.now.key to (call_of here.now.scenario.now here.now.key.to to) (state_of self.old).words) }
        ensures kept { KnowsMembers here.now self.new }
    {
        let departs = departs_by(here);
        let arrival = here.links.call(here.key.to, to, departs, &mut self.stream);
        got_through_by(here, to, arrival)
    }

    /// When the answer to a call comes to its receiver, if it does.
    fn answer_arrival(&mut self, here: &Here, to: MemberId) -> Option<Moment>
        requires to { IsMember here.now to }
        requires known { KnowsMembers here.now self.old }
        ensures drawn { Draws result self.old self.new (on_its_way (profile_of here.now.scenario.now) here.now.scenario.now here.now.key to (answer_of here.now.scenario.now here.now.key.to to) (state_of self.old).words) }
        ensures kept { KnowsMembers here.now self.new }
    {
        let departs = departs_by(here);
        let arrival = here
            .links
            .answer(here.key.to, to, departs, &mut self.stream);
        got_through_by(here, to, arrival)
    }

    /// Calls a member over a stream. Nothing rides on it.
    #[tactic(auto, unfolding(crate::specs::Send::call_sent, crate::specs::Send::posted))]
    fn send_call(
        &mut self,
        effects: &mut Effects,
        here: &Here,
        to: MemberId,
        seq: u64,
    ) -> Result<(), StepError>
        requires to { IsMember here.now to }
        requires known { KnowsMembers here.now self.old }
        ensures { Makes here.now result self.old effects.old self.new effects.new (call_sent here.now.scenario.now here.now.key to seq) }
    {
        let arrival = self.call_arrival(here, to);
        self.post(
            effects,
            here,
            What::Call,
            to,
            seq,
            EventKind::Call { seq },
            arrival,
        )
    }

    /// Answers a call, over the stream that is open.
    #[tactic(auto, unfolding(crate::specs::Send::answer_sent, crate::specs::Send::posted))]
    pub(crate) fn send_answer(
        &mut self,
        effects: &mut Effects,
        here: &Here,
        to: MemberId,
        seq: u64,
    ) -> Result<(), StepError>
        requires to { IsMember here.now to }
        requires known { KnowsMembers here.now self.old }
        ensures { Makes here.now result self.old effects.old self.new effects.new (answer_sent here.now.scenario.now here.now.key to seq) }
    {
        let arrival = self.answer_arrival(here, to);
        let answer = EventKind::Answer { seq };
        self.post(effects, here, What::Answer, to, seq, answer, arrival)
    }

    /// Calls the target of a probe over a stream, where that is wanted.
    fn call(&mut self, effects: &mut Effects, here: &Here, probe: &Probe) -> Result<(), StepError>
        requires known { KnowsMembers here.now self.old }
        requires target { IsMember here.now probe.now.target }
        ensures { Makes here.now result self.old effects.old self.new effects.new (called here.now.scenario.now here.now.key probe.now) }
    {
        if here.scenario.swim().fallback {
            self.send_call(effects, here, probe.target, probe.seq)
        } else {
            Ok(())
        }
    }

    /// Asks helpers that are drawn among all that are known.
    #[tactic(auto, unfolding(crate::specs::Step::sampled_help))]
    fn ask_sample(
        &mut self,
        effects: &mut Effects,
        here: &Here,
        probe: &Probe,
    ) -> Result<(), StepError>
        requires known { KnowsMembers here.now self.old }
        requires target { IsMember here.now probe.now.target }
        ensures { Makes here.now result self.old effects.old self.new effects.new (sampled_help here.now.scenario.now here.now.key probe.now) }
    {
        let count = here.scenario.swim().helpers;
        let helpers = self.draw_sample(here, &Fitting::AliveBut(probe.target), count)?;
        self.ask_all(effects, here, probe.target, probe.seq, &helpers)?;
        self.expect(effects, here, probe, helpers.len() as u8);
        Ok(())
    }

    /// The time for a direct answer is up: helpers are asked, and a stream is tried.
    #[tactic(auto, unfolding(crate::specs::Step::timed_out_timed))]
    pub(crate) fn time_out_timed(
        &mut self,
        effects: &mut Effects,
        here: &Here,
        seq: u64,
    ) -> Result<(), StepError>
        requires { KnowsMembers here.now self.old }
        ensures { Makes here.now result self.old effects.old self.new effects.new (timed_out_timed here.now.scenario.now here.now.key seq (state_of self.old).probe) }
    {
        let Some(probe) = self.probe else {
            return Ok(());
        };
        if probe.seq == seq {
            self.help_and_call(effects, here, &probe)
        } else {
            Ok(())
        }
    }

    /// Asks helpers, where there are to be any.
    fn ask_any(
        &mut self,
        effects: &mut Effects,
        here: &Here,
        probe: &Probe,
    ) -> Result<(), StepError>
        requires known { KnowsMembers here.now self.old }
        requires target { IsMember here.now probe.now.target }
        ensures { Makes here.now result self.old effects.old self.new effects.new (helped here.now.scenario.now here.now.key probe.now) }
    {
        if here.scenario.swim().helpers > 0 {
            self.ask_sample(effects, here, probe)
        } else {
            Ok(())
        }
    }

    /// Asks helpers, and calls the target.
    fn help_and_call(
        &mut self,
        effects: &mut Effects,
        here: &Here,
        probe: &Probe,
    ) -> Result<(), StepError>
        requires known { KnowsMembers here.now self.old }
        requires target { IsMember here.now probe.now.target }
        ensures { Makes here.now result self.old effects.old self.new effects.new (λ o. called here.now.scenario.now here.now.key probe.now (helped here.now.scenario.now here.now.key probe.now o)) }
    {
        self.ask_any(effects, here, probe)?;
        self.call(effects, here, probe)
    }

    /// The answer to a call: the probe that is under way reached its target, if it has that number.
    #[tactic(auto, unfolding(crate::specs::Step::answer_heard))]
    pub(crate) fn hear_answer(&mut self, effects: &Effects, here: &Here, seq: u64)
        requires { KnowsMembers here.now self.old }
        ensures state { effect_of self.new effects.now ≡ answer_heard seq (effect_of self.old effects.now) }
        ensures kept { KnowsMembers here.now self.new }
    {
        self.mark_reached(seq);
    }

    /// Marks that a call reached the target of the probe that is under way, if it has this number.
    fn mark_reached(&mut self, seq: u64)
        ensures { state_of self.new ≡ record (state_of self.old) { probe = reached seq (state_of self.old).probe } }
    {
        if let Some(probe) = &mut self.probe {
            if probe.seq == seq {
                probe.reach();
            }
        }
    }
}
